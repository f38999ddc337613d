//! Why a row isn't made, and what is read of its words.

use sem_bits::BitsError;
use sem_context::ContextError;
use std::alloc::{AllocError, AllocFailed};
use std::fmt::{Display, Formatter, Write};
use std::io::ErrorKind;
use std::{fmt, io};
use text_resolve::ReadError;
use walk_engine::{PackFault, UnpackFault};
use walk_robust::RobustFault;

/// Why a row isn't made.
#[derive(Clone, Copy)]
pub(crate) enum Stop {
    /// Memory was refused to something else than the row's call.
    Memory,
    /// The row is none, or what it needs isn't there.
    Row(&'static str),
}

impl Stop {
    pub(crate) fn code(self) -> u8 {
        match self {
            Stop::Memory => 3,
            Stop::Row(_) => 2,
        }
    }
}

impl Display for Stop {
    fn fmt<W: Write>(&self, f: &mut Formatter<W>) -> fmt::Result {
        match self {
            Stop::Memory => f.write_str("out of memory"),
            Stop::Row(why) => f.write_str(why),
        }
    }
}

impl From<AllocError> for Stop {
    fn from(_error: AllocError) -> Stop {
        Stop::Memory
    }
}

impl<T: Drop> From<AllocFailed<T>> for Stop {
    fn from(_error: AllocFailed<T>) -> Stop {
        Stop::Memory
    }
}

impl From<io::Error> for Stop {
    fn from(fault: io::Error) -> Stop {
        match fault.kind() {
            ErrorKind::OutOfMemory => Stop::Memory,
            _ => Stop::Row("rows can't be read or answers not written"),
        }
    }
}

impl From<BitsError> for Stop {
    fn from(error: BitsError) -> Stop {
        match error {
            BitsError::Full => Stop::Row("too many bits"),
            BitsError::OutOfMemory => Stop::Memory,
        }
    }
}

impl From<ContextError> for Stop {
    fn from(error: ContextError) -> Stop {
        match error {
            ContextError::BadLine { .. } => Stop::Row("no context"),
            ContextError::OutOfMemory => Stop::Memory,
        }
    }
}

impl From<ReadError> for Stop {
    fn from(error: ReadError) -> Stop {
        match error {
            ReadError::OutOfMemory => Stop::Memory,
            _ => Stop::Row("no profile"),
        }
    }
}

impl From<PackFault> for Stop {
    fn from(fault: PackFault) -> Stop {
        match fault {
            PackFault::OutOfMemory => Stop::Memory,
            _ => Stop::Row("no packet"),
        }
    }
}

impl From<RobustFault> for Stop {
    fn from(fault: RobustFault) -> Stop {
        match fault {
            RobustFault::Pack(fault) => Stop::from(fault),
            RobustFault::NoReach | RobustFault::Contexts => Stop::Row("no packet"),
        }
    }
}

impl From<UnpackFault> for Stop {
    fn from(fault: UnpackFault) -> Stop {
        match fault {
            UnpackFault::OutOfMemory => Stop::Memory,
            _ => Stop::Row("no item"),
        }
    }
}

/// What stands before the first blank of a row and what stands after it.
pub(crate) fn parted(text: &str) -> Result<(&str, &str), Stop> {
    text.split_once(' ')
        .ok_or(Stop::Row("the row is too short"))
}

/// The number of a word.
pub(crate) fn count(word: &str) -> Result<usize, Stop> {
    match word.parse::<usize>() {
        Ok(count) => Ok(count),
        Err(_) => Err(Stop::Row("no number")),
    }
}
