//! What stands in the way of a profile whose text has a tree.

ghost use Rattle.std.specs.Prelude.{◌≡◌, IfOk, IfErr};
ghost use Rattle.sem_profile.specs.Faults as spec;

use sem_expr::{RangeFault, RangeFaultKind};
use std::alloc::{AllocError, AllocFailed};
use text_source::Span;
use thiserror::Error;

/// What is wrong, without its place.
#[derive(Clone, Copy, Debug, PartialEq, Eq)]
pub enum ProfileFaultKind {
    UnknownName,
    DefinedTwice,
    ArgumentCount,
    Recursion,
    SecondEncoding,
    NoContext,
    NoEncoding,
    NoTop,
    WideValue,
    Sections,
    AboveLimit,
    WrongKind,
    Power,
    NoValue,
    TooLarge,
}

impl ProfileFaultKind {
    /// The code that a report of the fault begins with, such as `E20`.
    pub fn code(self) -> &'static str
        ensures { result.now ≡ spec.code_of self }
    {
        match self {
            ProfileFaultKind::UnknownName => "E20",
            ProfileFaultKind::DefinedTwice => "E21",
            ProfileFaultKind::ArgumentCount => "E22",
            ProfileFaultKind::Recursion => "E23",
            ProfileFaultKind::SecondEncoding => "E24",
            ProfileFaultKind::NoContext => "E25",
            ProfileFaultKind::NoEncoding => "E26",
            ProfileFaultKind::NoTop => "E27",
            ProfileFaultKind::WideValue => "E28",
            ProfileFaultKind::Sections => "E29",
            ProfileFaultKind::AboveLimit => "E30",
            ProfileFaultKind::WrongKind => "E31",
            ProfileFaultKind::Power => "E32",
            ProfileFaultKind::NoValue => "E33",
            ProfileFaultKind::TooLarge => "E34",
        }
    }

    /// The number of the kind: of two faults with one start the one with the least number comes first.
    pub fn number(self) -> u8
        ensures { result ≡ spec.number_of self }
    {
        match self {
            ProfileFaultKind::UnknownName => 20,
            ProfileFaultKind::DefinedTwice => 21,
            ProfileFaultKind::ArgumentCount => 22,
            ProfileFaultKind::Recursion => 23,
            ProfileFaultKind::SecondEncoding => 24,
            ProfileFaultKind::NoContext => 25,
            ProfileFaultKind::NoEncoding => 26,
            ProfileFaultKind::NoTop => 27,
            ProfileFaultKind::WideValue => 28,
            ProfileFaultKind::Sections => 29,
            ProfileFaultKind::AboveLimit => 30,
            ProfileFaultKind::WrongKind => 31,
            ProfileFaultKind::Power => 32,
            ProfileFaultKind::NoValue => 33,
            ProfileFaultKind::TooLarge => 34,
        }
    }
}

/// A fault of a profile at its place. The names that its text shows are parts of the profile.
#[derive(Clone, Copy, Debug, PartialEq, Eq)]
pub struct ProfileFault {
    pub kind: ProfileFaultKind,
    pub at: Span,
    pub first: Option<Span>,
    pub second: Option<Span>,
}

impl ProfileFault {
    /// The fault of a name, which stands at its place.
    pub fn about(kind: ProfileFaultKind, name: Span) -> ProfileFault
        ensures { result ≡ spec.about kind name }
    {
        ProfileFault {
            kind,
            at: name,
            first: Some(name),
            second: None,
        }
    }

    /// The fault of a part of the text, whose report shows no name.
    pub fn at(kind: ProfileFaultKind, at: Span) -> ProfileFault
        ensures { result ≡ spec.unnamed kind at }
    {
        ProfileFault {
            kind,
            at,
            first: None,
            second: None,
        }
    }

    /// A fault of a range, as one of the profile.
    pub fn of_range(fault: RangeFault) -> ProfileFault
        ensures { result ≡ spec.of_range fault }
    {
        let kind = match fault.kind {
            RangeFaultKind::AboveLimit => ProfileFaultKind::AboveLimit,
            RangeFaultKind::Power => ProfileFaultKind::Power,
        };
        ProfileFault::at(kind, fault.at)
    }
}

/// Why there is no answer on a profile.
#[derive(Clone, Copy, Debug, PartialEq, Eq, Error)]
pub enum ResolveError {
    #[error("profile has a fault")]
    Fault(ProfileFault),
    #[error("out of memory")]
    OutOfMemory,
}

impl From<ProfileFault> for ResolveError {
    ghost use Rattle.std.specs.Prelude.{◌≡◌};
    ghost use Rattle.sem_profile.specs.declared.fault.ResolveError.TheVariants as errors;

    ghost from_gives = { λ fault e. e ≡ errors.Fault fault };

    fn from(fault: ProfileFault) -> ResolveError {
        ResolveError::Fault(fault)
    }
}

impl From<AllocError> for ResolveError {
    ghost use Rattle.std.specs.Prelude.{◌≡◌};
    ghost use Rattle.sem_profile.specs.declared.fault.ResolveError.TheVariants as errors;

    ghost from_gives = { λ _ e. e ≡ errors.OutOfMemory };

    fn from(_error: AllocError) -> ResolveError {
        ResolveError::OutOfMemory
    }
}

impl<T: Drop> From<AllocFailed<T>> for ResolveError {
    ghost use Rattle.std.specs.Prelude.{◌≡◌};
    ghost use Rattle.sem_profile.specs.declared.fault.ResolveError.TheVariants as errors;

    ghost from_gives = { λ _ e. e ≡ errors.OutOfMemory };

    fn from(_error: AllocFailed<T>) -> ResolveError {
        ResolveError::OutOfMemory
    }
}

/// The fault of an error, unless it is out of memory.
pub fn fault_of(error: ResolveError) -> Result<ProfileFault, AllocError>
    ensures fault { IfOk result (λ f. error ≡ ResolveError.Fault f) }
    ensures memory { IfErr result (λ _. error ≡ ResolveError.OutOfMemory) }
{
    match error {
        ResolveError::Fault(fault) => Ok(fault),
        ResolveError::OutOfMemory => Err(AllocError),
    }
}
