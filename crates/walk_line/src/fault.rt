//! Why octets on a line are not heard.

use std::alloc::{AllocError, AllocFailed};
use thiserror::Error;

/// Why octets on a line are not heard.
#[derive(Clone, Copy, Debug, PartialEq, Eq, Error)]
pub enum LineFault {
    /// In a flow's place stands an octet that is neither a flow's nor a reset's.
    #[error("L1 bad flow octet")]
    FlowOctet,
    /// The octets begin no packet, whatever octets follow.
    #[error("L2 refused packet")]
    RefusedPacket,
    /// The bits after a packet's, in its last octet, are not all zero.
    #[error("L3 padding not zero")]
    Padding,
    /// The octets end inside a packet.
    #[error("L4 ended inside a packet")]
    Ended,
    #[error("out of memory")]
    OutOfMemory,
}

impl From<AllocError> for LineFault {
    ghost use Rattle.std.specs.Prelude.{◌≡◌};
    ghost use Rattle.walk_line.specs.declared.fault.LineFault.TheVariants.{OutOfMemory};

    ghost from_gives = { λ _ e. e ≡ OutOfMemory };

    fn from(_error: AllocError) -> LineFault {
        LineFault::OutOfMemory
    }
}

impl<T: Drop> From<AllocFailed<T>> for LineFault {
    ghost use Rattle.std.specs.Prelude.{◌≡◌};
    ghost use Rattle.walk_line.specs.declared.fault.LineFault.TheVariants.{OutOfMemory};

    ghost from_gives = { λ _ e. e ≡ OutOfMemory };

    fn from(_error: AllocFailed<T>) -> LineFault {
        LineFault::OutOfMemory
    }
}
