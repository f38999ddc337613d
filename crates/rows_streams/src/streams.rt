//! A run over readers and writers that give or take few octets, fail or stop.

use std::alloc::{AllocError, Global};
use std::io;
use std::io::{ErrorKind, Read, Write};
use std::process::Abort;
use std::test::Fail;
use tool_input::counted::Uncounted;
use tool_input::status::{Failure, Status};
use tool_run::program::{Outcome, run};

// Gives so many octets a read, and fails at the end of its reads.
#[derive(Drop)]
struct Source<'a> {
    left: &'a [u8],
    step: usize,
    reads: usize,
    fault: ErrorKind,
}

impl Read for Source<'_> {
    fn read(&mut self, buf: &mut [u8]) -> io::Result<usize> {
        if self.reads == 0 {
            return Err(io::Error::from(self.fault));
        }
        self.reads -= 1;
        let count = self.step.min(buf.len()).min(self.left.len());
        buf[..count].copy_from_slice(&self.left[..count]);
        self.left = &self.left[count..];
        Ok(count)
    }
}

// Gives as many octets as are asked for, and counts them.
#[derive(Drop)]
struct Endless {
    given: usize,
}

impl Read for Endless {
    fn read(&mut self, buf: &mut [u8]) -> io::Result<usize> {
        self.given = self.given.saturating_add(buf.len());
        Ok(buf.len())
    }
}

// Notes whether a reader is over, which it is when it has ended, failed, or given 4 MiB and one octet, and whether it is asked
// again then.
#[derive(Drop)]
struct Watched<R> {
    reader: R,
    given: usize,
    is_over: bool,
    is_asked_again: bool,
}

impl<R: Read> Read for Watched<R> {
    fn read(&mut self, buf: &mut [u8]) -> io::Result<usize> {
        if self.is_over {
            self.is_asked_again = true;
        }
        match self.reader.read(buf) {
            Ok(count) => {
                self.given = self.given.saturating_add(count);
                self.is_over = count == 0 || self.given > 4_194_304;
                Ok(count)
            }
            Err(fault) => {
                self.is_over = true;
                Err(fault)
            }
        }
    }
}

// Takes so many octets a write, and fails at the end of its writes.
#[derive(Drop)]
struct Sink {
    taken: Vec<u8>,
    step: usize,
    writes: usize,
}

impl Write for Sink {
    fn write(&mut self, buf: &[u8]) -> io::Result<usize> {
        if self.writes == 0 {
            return Err(io::Error::from(ErrorKind::BrokenPipe));
        }
        self.writes -= 1;
        let count = self.step.min(buf.len());
        self.taken.extend_from_slice(&buf[..count])?;
        Ok(count)
    }

    fn flush(&mut self) -> io::Result<()> {
        Ok(())
    }
}

const ROW: &[u8] =
    b"=== words\npack --top plain\n=== profile\nplain\n{\n  UNCOMPRESSED { a [4]; b [12]; }\n  COMPRESSED {\n    d =:= '10' [2];\n    a =:= irregular(4) [4];\n    b =:= irregular(12) [12];\n  }\n}\n=== items\n16:5abc\n";

const ROW_TEXT: &[u8] = b"18:96af00\n";

const LINE: &[u8] =
    b"=== words\nline --top tick\n=== profile\ntick\n{\n  UNCOMPRESSED {\n    sn [8];\n  }\n  COMPRESSED short {\n    d =:= '0' [1];\n    sn =:= lsb(4, 1) [4];\n    c =:= crc(3, 0x06, 0x07, THIS.UVALUE, THIS.ULENGTH) [3];\n  }\n  COMPRESSED full {\n    d =:= '1' [1];\n    sn =:= irregular(8) [8];\n  }\n}\n=== events\nsend 0 8:01\nsend 1 8:01\nsend 0 8:02\n";

const LINE_TEXT: &[u8] = b"0080800180800014\n0 8:01\n1 8:01\n0 8:02\n";

const ENDED: &[u8] =
    b"=== words\r\n\r\npack --top plain\r\n\n=== profile\r\nplain\n{\n  UNCOMPRESSED { a [4]; b [12]; }\n  COMPRESSED {\n    d =:= '10' [2];\n    a =:= irregular(4) [4];\n    b =:= irregular(12) [12];\n  }\n}\n=== items\r\n16:5abc\r\n=== packets";

fn with_steps(
    alloc: Global,
    words: &[&str],
    input: &[u8],
    reads: usize,
    writes: usize,
) -> (Outcome, Vec<u8>) {
    let mut source = Uncounted(Source {
        left: input,
        step: reads,
        reads: usize::MAX,
        fault: ErrorKind::Other,
    });
    let mut sink = Uncounted(Sink {
        taken: Vec::new(alloc),
        step: writes,
        writes: usize::MAX,
    });
    let outcome = run(alloc, words, &mut source, &mut sink);
    let Uncounted(Sink { taken, .. }) = sink;
    (outcome, taken)
}

// A part of so many octets, its heading's ten among them.
fn part_of(alloc: Global, count: usize) -> Result<Vec<u8>, AllocError> {
    let mut input = Vec::new(alloc);
    input.extend_from_slice(b"=== items\n")?;
    for _ in 10..count {
        input.push(b'\n')?;
    }
    Ok(input)
}

// The output and the status, by single octets and by many.
fn prints(
    rt: &(impl Abort + AllocGlobal),
    words: &[&str],
    input: &[u8],
    status: Status,
    text: &[u8],
) {
    for (reads, writes) in [(1, 1), (usize::MAX, usize::MAX)] {
        let (outcome, taken) = with_steps(rt.alloc(), words, input, reads, writes);
        assert!(rt; taken.as_slice() == text, "{taken:?} at {input:?}");
        assert!(rt; outcome.status == status, "at {input:?}");
        assert!(rt; outcome.usage.is_none(), "at {input:?}");
    }
}

#[test]
fn prints_an_answer(rt: HostRuntime) {
    let words = ["pack", "--top", "plain"];
    prints(&rt, &[], ROW, Status::Done, ROW_TEXT);
    prints(&rt, &[], ENDED, Status::Done, ROW_TEXT);
    prints(&rt, words.as_slice(), ROW, Status::Done, ROW_TEXT);
    prints(&rt, &[], LINE, Status::Done, LINE_TEXT);
    let missing = b"bundle: I4 bad part profile\n";
    prints(&rt, words.as_slice(), b"", Status::Refused, missing);
    prints(
        &rt,
        words.as_slice(),
        b"=== words\n\xff\na\nb",
        Status::Refused,
        missing,
    );
}

#[test]
fn shows_a_profile(rt: HostRuntime) {
    let words = ["show", "--top", "plain"];
    prints(
        &rt,
        words.as_slice(),
        b"=== items\n16:5abc\n",
        Status::Refused,
        b"bundle: I4 bad part profile\n",
    );
    prints(
        &rt,
        &[],
        b"=== words\nshow --top plain\n=== profile\nplain {\n",
        Status::Refused,
        b"profile:2:1: E10 unexpected token\n",
    );
}

#[test]
fn refuses_parts(rt: HostRuntime) {
    let table: [(&[u8], &[u8]); 16] = [
        (b"", b"bundle: I4 bad part words\n"),
        (b"x", b"bundle: I4 bad part -\n"),
        (
            b"\n=== words\npack --top plain\n",
            b"bundle: I4 bad part -\n",
        ),
        (b"===words\n", b"bundle: I4 bad part -\n"),
        (
            b"=== event\n=== words\n=== words\n",
            b"bundle: I4 bad part event\n",
        ),
        (
            b"=== words \npack --top plain\n",
            b"bundle: I4 bad part words \n",
        ),
        (
            b"=== items\n=== profile\r\n=== items",
            b"bundle: I4 bad part items\n",
        ),
        (b"=== items\n=== \xff\n", b"bundle: I4 bad part -\n"),
        (b"=== words\r\r\n", b"bundle: I4 bad part words\\u{d}\n"),
        (
            b"=== \x1b[31mred\x07\n",
            b"bundle: I4 bad part \\u{1b}[31mred\\u{7}\n",
        ),
        (
            b"=== \xc3\xa9 \\~\x7f\n",
            b"bundle: I4 bad part \xc3\xa9 \\~\\u{7f}\n",
        ),
        (
            b"=== 0123456789abcdef0123456789abcdef0123456789abcdef0123456789abcdef0123456789abcdef\n",
            b"bundle: I4 bad part 0123456789abcdef0123456789abcdef0123456789abcdef0123456789abcdef0123456789abcdef\n",
        ),
        (
            b"=== 0123456789abcdef0123456789abcdef0123456789abcdef0123456789abcdef0123456789abcdefg\n",
            b"bundle: I4 bad part 0123456789abcdef0123456789abcdef0123456789abcdef0123456789abcdef0123456789abcdef..\n",
        ),
        (
            b"=== words\npack --top a\npack --top b\n",
            b"bundle: I4 bad part words\n",
        ),
        (b"=== words\n\n\n", b"bundle: I4 bad part words\n"),
        (
            b"=== words\npack --top \xff\n",
            b"bundle: I4 bad part words\n",
        ),
    ];
    for (input, text) in table {
        prints(&rt, &[], input, Status::Refused, text);
    }
    prints(
        &rt,
        ["fly"].as_slice(),
        b"x",
        Status::Refused,
        b"bundle: I4 bad part -\n",
    );
}

#[test]
fn tells_usage(rt: HostRuntime) {
    let table: [(&[&str], Status, &str); 8] = [
        (
            ["pack"].as_slice(),
            Status::Usage,
            "Usage: rohcfn pack --top <NAME>",
        ),
        (["fly", "--top", "plain"].as_slice(), Status::Usage, "'fly'"),
        (
            ["check", "--top", "plain", "--context"].as_slice(),
            Status::Usage,
            "'--context'",
        ),
        (
            ["unpack", "--top"].as_slice(),
            Status::Usage,
            "'--top <NAME>'",
        ),
        (
            ["--top", "plain"].as_slice(),
            Status::Usage,
            "Usage: rohcfn",
        ),
        (["help"].as_slice(), Status::Done, "Usage: rohcfn"),
        (["--help"].as_slice(), Status::Done, "Usage: rohcfn"),
        (
            ["pack", "--help"].as_slice(),
            Status::Done,
            "Usage: rohcfn pack",
        ),
    ];
    for (words, status, part) in table {
        let (outcome, taken) = with_steps(rt.alloc(), words, ROW, 7, 7);
        let usage = outcome.usage.expect(&rt, "a text");
        assert!(rt; outcome.status == status, "at {words:?}");
        assert!(rt; taken.is_empty(), "at {words:?}");
        assert!(rt; usage.as_str().contains(part), "{usage} at {words:?}");
    }
    let blanks = b"=== words\npack  --top plain\n";
    let (outcome, taken) = with_steps(rt.alloc(), &[], blanks, 7, 7);
    assert!(rt; outcome.status == Status::Usage);
    assert!(rt; outcome.usage.is_some());
    assert!(rt; taken.is_empty());
}

#[test]
fn takes_four_mebibytes(rt: HostRuntime) -> Result<(), Fail> {
    let alloc = rt.alloc();
    let words = ["pack", "--top", "plain"];
    let mut input = part_of(alloc, 4_194_304)?;
    let most = input.len();
    let missing = b"bundle: I4 bad part profile\n";
    let (outcome, taken) = with_steps(alloc, words.as_slice(), input.as_slice(), most, most);
    assert!(rt; outcome.status == Status::Refused);
    assert!(rt; taken.as_slice() == missing.as_slice());
    input.push(b'\n')?;
    let large = b"bundle: I6 above 4 MiB\n";
    let (outcome, taken) = with_steps(alloc, words.as_slice(), input.as_slice(), most, most);
    assert!(rt; outcome.status == Status::Refused);
    assert!(rt; taken.as_slice() == large.as_slice());
    let mut endless = Uncounted(Endless { given: 0 });
    let mut written = Uncounted(Vec::new(alloc));
    let outcome = run(alloc, words.as_slice(), &mut endless, &mut written);
    assert!(rt; outcome.status == Status::Refused);
    assert!(rt; written.0.as_slice() == large.as_slice());
    assert!(rt; endless.0.given == 4_194_305, "{}", endless.0.given);
    Ok(())
}

// Whether a reader is over after a run, and was asked again then.
fn over_and_asked<R: Read + Drop>(alloc: Global, reader: R) -> (bool, bool) {
    let mut watched = Uncounted(Watched {
        reader,
        given: 0,
        is_over: false,
        is_asked_again: false,
    });
    let mut written = Uncounted(Vec::new(alloc));
    let _outcome = run(alloc, &[], &mut watched, &mut written);
    (watched.0.is_over, watched.0.is_asked_again)
}

#[test]
fn asks_no_more_at_the_end(rt: HostRuntime) {
    for step in [1, 7, usize::MAX] {
        let source = Source {
            left: ROW,
            step,
            reads: usize::MAX,
            fault: ErrorKind::Other,
        };
        assert!(rt;
            over_and_asked(rt.alloc(), source) == (true, false),
            "at {step}"
        );
    }
}

#[test]
fn asks_no_more_after_a_fault(rt: HostRuntime) {
    for reads in [0, 1, 5] {
        for fault in [ErrorKind::Other, ErrorKind::Interrupted] {
            let source = Source {
                left: ROW,
                step: 1,
                reads,
                fault,
            };
            assert!(rt;
                over_and_asked(rt.alloc(), source) == (true, false),
                "at {reads}"
            );
        }
    }
}

#[test]
fn asks_no_more_after_four_mebibytes(rt: HostRuntime) {
    let endless = Endless { given: 0 };
    assert!(rt; over_and_asked(rt.alloc(), endless) == (true, false));
}

// The rows, each with its output.
fn rows() -> [(&'static [u8], &'static [u8]); 2] {
    [(ROW, ROW_TEXT), (LINE, LINE_TEXT)]
}

// How a run ends whose reader gives an octet a read and fails after so many, and what it has written.
fn with_reads(alloc: Global, input: &[u8], reads: usize, fault: ErrorKind) -> (Outcome, Vec<u8>) {
    let mut source = Uncounted(Source {
        left: input,
        step: 1,
        reads,
        fault,
    });
    let mut written = Uncounted(Vec::new(alloc));
    let outcome = run(alloc, &[], &mut source, &mut written);
    let Uncounted(written) = written;
    (outcome, written)
}

// How a run ends whose writer takes an octet a write and fails after so many, and what the writer took.
fn with_writes(alloc: Global, input: &[u8], writes: usize) -> (Outcome, Vec<u8>) {
    let mut sink = Uncounted(Sink {
        taken: Vec::new(alloc),
        step: 1,
        writes,
    });
    let outcome = run(alloc, &[], &mut Uncounted(input), &mut sink);
    let Uncounted(Sink { taken, .. }) = sink;
    (outcome, taken)
}

#[test]
fn fails_with_its_reader(rt: HostRuntime) {
    for (row, text) in rows() {
        // The read after the last octet tells the end, and no read comes after it.
        let all = row.len().saturating_add(1);
        for reads in 0..all {
            for fault in [ErrorKind::Other, ErrorKind::Interrupted] {
                let (outcome, written) = with_reads(rt.alloc(), row, reads, fault);
                assert!(rt;
                    outcome.status == Status::Failed(Failure::Reading),
                    "at {reads}"
                );
                assert!(rt; outcome.usage.is_none(), "at {reads}");
                assert!(rt; written.is_empty(), "at {reads}");
            }
        }
        let (outcome, written) = with_reads(rt.alloc(), row, all, ErrorKind::Other);
        assert!(rt; outcome.status == Status::Done);
        assert!(rt; written.as_slice() == text);
    }
}

#[test]
fn fails_with_its_writer(rt: HostRuntime) {
    for (row, text) in rows() {
        for writes in 0..text.len() {
            let (outcome, taken) = with_writes(rt.alloc(), row, writes);
            assert!(rt;
                outcome.status == Status::Failed(Failure::Writing),
                "at {writes}"
            );
            assert!(rt; taken.as_slice() == &text[..writes], "at {writes}");
        }
        let (outcome, taken) = with_writes(rt.alloc(), row, text.len());
        assert!(rt; outcome.status == Status::Done);
        assert!(rt; taken.as_slice() == text);
        let (outcome, taken) = with_steps(rt.alloc(), &[], row, 1, 0);
        assert!(rt; outcome.status == Status::Failed(Failure::Writing));
        assert!(rt; taken.is_empty());
    }
}
