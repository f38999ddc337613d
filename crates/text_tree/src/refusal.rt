//! What stops the reading of a text.

use std::alloc::{AllocError, AllocFailed};
use text_source::{FaultKind, Span};

/// A token, or the end of the text.
#[derive(Clone, Copy)]
pub enum FaultPlace {
    At(Span),
    End,
}

/// A fault at its place.
#[derive(Clone, Copy)]
pub struct PlacedFault {
    pub kind: FaultKind,
    pub at: FaultPlace,
}

/// Why there is no tree.
#[derive(Clone, Copy)]
pub enum ParseError {
    Memory,
    Refused(PlacedFault),
}

impl From<AllocError> for ParseError {
    ghost use Rattle.std.specs.Prelude.{◌≡◌};
    ghost use Rattle.text_tree.specs.declared.refusal.ParseError.TheVariants.{Memory};

    ghost from_gives = { λ _ e. e ≡ Memory };

    fn from(_error: AllocError) -> ParseError {
        ParseError::Memory
    }
}

impl<T: Drop> From<AllocFailed<T>> for ParseError {
    ghost use Rattle.std.specs.Prelude.{◌≡◌};
    ghost use Rattle.text_tree.specs.declared.refusal.ParseError.TheVariants.{Memory};

    ghost from_gives = { λ _ e. e ≡ Memory };

    fn from(_error: AllocFailed<T>) -> ParseError {
        ParseError::Memory
    }
}
