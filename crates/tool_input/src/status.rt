//! How a run of the program ended.
ghost use Rattle.std.specs.Prelude.{◌≡◌};

use std::alloc::AllocError;
use std::fmt;

/// What failed in a run.
#[derive(Clone, Copy, PartialEq, Eq)]
pub enum Failure {
    /// A read of the input.
    Reading,
    /// A write of the output, or one that took nothing.
    Writing,
    /// A growth: memory was refused.
    Memory,
}

impl From<AllocError> for Failure {
    ghost use Rattle.std.specs.Prelude.{◌≡◌};
    ghost use Rattle.tool_input.specs.declared.status.Failure.TheVariants.{Memory};

    ghost from_gives = { λ _ failure. failure ≡ Memory };

    fn from(_error: AllocError) -> Failure {
        Failure::Memory
    }
}

/// The words of a failure, in one line without a line feed.
impl fmt::Display for Failure {
    ghost use Rattle.std.specs.Prelude.{Some};
    ghost use Rattle.tool_input.specs.Status.{failure_words};

    ghost output = { λ failure. Some (failure_words failure) };

    fn fmt<W: fmt::Write>(&self, f: &mut fmt::Formatter<W>) -> fmt::Result {
        match self {
            Failure::Reading => f.write_str("reading the input failed"),
            Failure::Writing => f.write_str("writing the output failed"),
            Failure::Memory => f.write_str("out of memory"),
        }
    }
}

/// What the program exits with.
#[derive(Clone, Copy, PartialEq, Eq)]
pub enum Status {
    /// All is done, or help was asked for.
    Done,
    /// A fault line is the last that was printed.
    Refused,
    /// The words ask for nothing.
    Usage,
    /// A read or a write failed, a write took nothing, or memory was refused.
    Failed(Failure),
}

impl Status {
    ghost use Rattle.tool_input.specs.Status.{code_of};

    /// The exit status, 0 to 3.
    pub fn code(self) -> u8
        ensures { result ≡ code_of self }
    {
        match self {
            Status::Done => 0,
            Status::Refused => 1,
            Status::Usage => 2,
            Status::Failed(_) => 3,
        }
    }
}

/// What is printed, and the status that goes with it.
#[derive(Drop)]
pub struct Answer {
    pub status: Status,
    pub output: String,
}
