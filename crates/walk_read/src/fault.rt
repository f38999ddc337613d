//! Why nothing was read.

use std::alloc::AllocError;

/// The method at work, by its index, and its format, where the tree gave one.
#[derive(Clone, Copy)]
pub struct Blamed {
    pub method: usize,
    pub format: Option<usize>,
}

/// Why no filling was read.
#[derive(Clone, Copy)]
pub enum ReadFault {
    /// The bits run out while this is at work.
    Short(Blamed),
    /// No filling is ahead, whatever bits follow.
    Refused(Blamed),
    OutOfMemory,
}

impl From<AllocError> for ReadFault {
    ghost use Rattle.std.specs.Prelude.{◌≡◌};
    ghost use Rattle.walk_read.specs.declared.fault.ReadFault.TheVariants.{OutOfMemory};

    ghost from_gives = { λ _ e. e ≡ OutOfMemory };

    fn from(_error: AllocError) -> ReadFault {
        ReadFault::OutOfMemory
    }
}
