//! What stands in the way of a profile.

ghost use Rattle.std.specs.Prelude.{◌≡◌};
ghost use Rattle.text_source.specs.Faults as spec;

use crate::span::Span;
use std::alloc::AllocFailed;
use thiserror::Error;

/// What is wrong, without its place.
#[derive(Clone, Copy, Debug, PartialEq, Eq, Error)]
pub enum FaultKind {
    #[error("character is not allowed here")]
    Character,
    #[error("comment is not closed")]
    OpenComment,
    #[error("number or bit text is too large")]
    Large,
    #[error("text is above 1 MiB")]
    TooLong,
    #[error("text is not UTF-8")]
    NotUtf8,
    #[error("unexpected token")]
    Unexpected,
    #[error("nesting is above 64")]
    Nesting,
    #[error("bracket is empty")]
    EmptyBracket,
    #[error("section is repeated")]
    RepeatedSection,
    #[error("% needs brackets here")]
    MixedRemainder,
    #[error("too many parts")]
    TooManyParts,
}

impl FaultKind {
    /// The code that a report of the fault begins with, such as `E01`.
    pub fn code(self) -> &'static str
        ensures { result.now ≡ spec.code_of self }
    {
        match self {
            FaultKind::Character => "E01",
            FaultKind::OpenComment => "E02",
            FaultKind::Large => "E03",
            FaultKind::TooLong => "E04",
            FaultKind::NotUtf8 => "E05",
            FaultKind::Unexpected => "E10",
            FaultKind::Nesting => "E11",
            FaultKind::EmptyBracket => "E12",
            FaultKind::RepeatedSection => "E13",
            FaultKind::MixedRemainder => "E14",
            FaultKind::TooManyParts => "E15",
        }
    }
}

/// A fault of a profile at its place.
#[derive(Clone, Copy, Debug, PartialEq, Eq, Error)]
#[error("{kind}")]
pub struct Fault {
    pub kind: FaultKind,
    pub at: Span,
}

/// Why there is no answer on a profile.
#[derive(Clone, Copy, Debug, PartialEq, Eq, Error)]
pub enum SourceError {
    #[error("{0}")]
    Fault(Fault),
    #[error("out of memory")]
    OutOfMemory,
}

impl<T: Drop> From<AllocFailed<T>> for SourceError {
    ghost use Rattle.std.specs.Prelude.{◌≡◌};
    ghost use Rattle.text_source.specs.declared.fault.SourceError.TheVariants as errors;

    ghost from_gives = { λ _ e. e ≡ errors.OutOfMemory };

    fn from(_error: AllocFailed<T>) -> SourceError {
        SourceError::OutOfMemory
    }
}
