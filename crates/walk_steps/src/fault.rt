//! Why a step has no outcome.

use std::alloc::{AllocError, AllocFailed};

/// Why a step of a walk has no outcome.
#[derive(Debug, Drop, thiserror::Error)]
pub enum StepFault {
    /// The bits run out.
    #[error("the bits run out")]
    Short,
    /// There is no value, or it is not one that the level can have.
    #[error("no value")]
    Refused,
    #[error("out of memory")]
    OutOfMemory,
}

impl From<AllocError> for StepFault {
    ghost use Rattle.std.specs.Prelude.{◌≡◌};
    ghost use Rattle.walk_steps.specs.declared.fault.StepFault.TheVariants.{OutOfMemory};

    ghost from_gives = { λ _ e. e ≡ OutOfMemory };

    fn from(_error: AllocError) -> StepFault {
        StepFault::OutOfMemory
    }
}

impl<T: Drop> From<AllocFailed<T>> for StepFault {
    ghost use Rattle.std.specs.Prelude.{◌≡◌};
    ghost use Rattle.walk_steps.specs.declared.fault.StepFault.TheVariants.{OutOfMemory};

    ghost from_gives = { λ _ e. e ≡ OutOfMemory };

    fn from(_error: AllocFailed<T>) -> StepFault {
        StepFault::OutOfMemory
    }
}
