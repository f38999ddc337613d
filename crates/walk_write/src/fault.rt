//! Why nothing was written.

use std::alloc::AllocError;

/// Why no filling was written.
#[derive(Clone, Copy)]
pub enum WriteFault {
    /// The candidate with this number fails, and with it so many numbers from it on.
    Failed(u64),
    OutOfMemory,
}

impl From<AllocError> for WriteFault {
    ghost use Rattle.std.specs.Prelude.{◌≡◌};
    ghost use Rattle.walk_write.specs.declared.fault.WriteFault.TheVariants.{OutOfMemory};

    ghost from_gives = { λ _ e. e ≡ OutOfMemory };

    fn from(_error: AllocError) -> WriteFault {
        WriteFault::OutOfMemory
    }
}
