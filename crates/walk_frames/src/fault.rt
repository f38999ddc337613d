//! Why octets on a line of frames are not heard.

use std::alloc::{AllocError, AllocFailed};
use thiserror::Error;

/// Why octets on a line of frames are not heard.
#[derive(Clone, Copy, Debug, PartialEq, Eq, Error)]
pub enum FrameFault {
    /// In a flow's place stands an octet that is neither a flow's nor a reset's.
    #[error("L1 bad flow octet")]
    FlowOctet,
    /// The octets end inside a frame.
    #[error("L4 ended inside a packet")]
    Ended,
    #[error("out of memory")]
    OutOfMemory,
}

impl From<AllocError> for FrameFault {
    ghost use Rattle.std.specs.Prelude.{◌≡◌};
    ghost use Rattle.walk_frames.specs.declared.fault.FrameFault.TheVariants.{OutOfMemory};

    ghost from_gives = { λ _ e. e ≡ OutOfMemory };

    fn from(_error: AllocError) -> FrameFault {
        FrameFault::OutOfMemory
    }
}

impl<T: Drop> From<AllocFailed<T>> for FrameFault {
    ghost use Rattle.std.specs.Prelude.{◌≡◌};
    ghost use Rattle.walk_frames.specs.declared.fault.FrameFault.TheVariants.{OutOfMemory};

    ghost from_gives = { λ _ e. e ≡ OutOfMemory };

    fn from(_error: AllocFailed<T>) -> FrameFault {
        FrameFault::OutOfMemory
    }
}
