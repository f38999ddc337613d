//! Why no guess is made.

use sem_bits::BitsError;
use std::alloc::AllocError;

/// Why a guess ends.
#[derive(Clone, Copy)]
pub(crate) enum NoGuess {
    /// It leads nowhere.
    Nowhere,
    /// The bits run out; of a guess that isn't told.
    Short,
    OutOfMemory,
}

impl From<AllocError> for NoGuess {
    fn from(_error: AllocError) -> NoGuess {
        NoGuess::OutOfMemory
    }
}

impl From<BitsError> for NoGuess {
    fn from(error: BitsError) -> NoGuess {
        match error {
            BitsError::Full => NoGuess::Nowhere,
            BitsError::OutOfMemory => NoGuess::OutOfMemory,
        }
    }
}
