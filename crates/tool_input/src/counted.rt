//! Readers and writers that may keep account of their reads and writes.

ghost use Rattle.std.specs.Prelude.{ℕ, Bool, List, Option, None, length};
ghost use Rattle.std.specs.Io.{ReadsAtMost, WritesAtMost};
ghost use Rattle.std.specs.Io.KnownBytes.{ReadConsumes, WriteAppends};
ghost use Rattle.tool_input.specs.Counted.{Account, Counts, CountsWrite, MayGive, MayTake};

use std::io;
use std::io::{Read, Write};

/// A reader that may keep account of its reads. One that does is asked only as long as it has neither ended nor failed, and for no
/// more than 4 MiB and one octet in all.
pub trait CountedRead {
    /// The octets that reads will give from here on, where they are known.
    ghost remaining: { Self → Option (List ℕ) } = { λ _. None };

    /// What the reads so far came to, where that is counted.
    ghost account: { Self → Option Account } = { λ _. None };

    /// One read: how many octets of `buf` it filled from its start, 0 at the end.
    fn read_next(&mut self, buf: &mut [u8]) -> io::Result<usize>
        requires { MayGive (account self.old) (length buf.old) }
        ensures bound { ReadsAtMost result buf.new }
        ensures bytes { ReadConsumes (remaining self.old) (remaining self.new) result buf.new }
        ensures counted { Counts (account self.old) (account self.new) result };
}

/// A writer that may keep account of its writes. One that does is asked only as long as none failed or took nothing.
pub trait CountedWrite {
    /// The octets that the writer holds, where they are known.
    ghost contents: { Self → Option (List ℕ) } = { λ _. None };

    /// Whether a write failed or took nothing, where that is counted.
    ghost is_over: { Self → Option Bool } = { λ _. None };

    /// One write: how many octets of `buf` it took from its start.
    fn write_next(&mut self, buf: &[u8]) -> io::Result<usize>
        requires { MayTake (is_over self.old) }
        ensures bound { WritesAtMost result buf.now }
        ensures bytes { WriteAppends (contents self.old) (contents self.new) result buf.now }
        ensures counted { CountsWrite (is_over self.old) (is_over self.new) result };
}

/// A reader or writer whose reads or writes aren't counted.
#[derive(Drop)]
pub struct Uncounted<R>(pub R);

impl<R: Read> CountedRead for Uncounted<R> {
    ghost remaining = { λ reader. R.remaining reader.0 };

    fn read_next(&mut self, buf: &mut [u8]) -> io::Result<usize> {
        self.0.read(buf)
    }
}

impl<W: Write> CountedWrite for Uncounted<W> {
    ghost contents = { λ writer. W.contents writer.0 };

    fn write_next(&mut self, buf: &[u8]) -> io::Result<usize> {
        self.0.write(buf)
    }
}
