//! All passes over a profile, from its octets on.

ghost use Rattle.std.specs.Prelude.{IfOk, IfErr};
ghost use Rattle.text_resolve.specs.Passes.{Reads, Refuses};

use crate::resolution::resolve;
use sem_profile::{Profile, ProfileFault, ResolveError};
use std::alloc::Global;
use text_source::{Fault, Source, SourceError, lex};
use text_tree::{File, parse};
use thiserror::Error;

/// Why octets have no resolved profile.
#[derive(Clone, Copy, Debug, PartialEq, Eq, Error)]
pub enum ReadError {
    /// The octets are no text of the notation.
    #[error("{0}")]
    Text(Fault),
    /// The text has a tree, which has no normal form with the top.
    #[error("the profile has no normal form")]
    Profile(ProfileFault),
    #[error("out of memory")]
    OutOfMemory,
}

impl From<Fault> for ReadError {
    ghost use Rattle.std.specs.Prelude.{◌≡◌};
    ghost use Rattle.text_resolve.specs.declared.passes.ReadError.TheVariants as errors;

    ghost from_gives = { λ fault e. e ≡ errors.Text fault };

    fn from(fault: Fault) -> ReadError {
        ReadError::Text(fault)
    }
}

impl From<SourceError> for ReadError {
    ghost use Rattle.text_resolve.specs.Passes.{PassesText};

    ghost from_gives = { PassesText };

    fn from(error: SourceError) -> ReadError {
        match error {
            SourceError::Fault(fault) => ReadError::Text(fault),
            SourceError::OutOfMemory => ReadError::OutOfMemory,
        }
    }
}

impl From<ResolveError> for ReadError {
    ghost use Rattle.text_resolve.specs.Passes.{PassesProfile};

    ghost from_gives = { PassesProfile };

    fn from(error: ResolveError) -> ReadError {
        match error {
            ResolveError::Fault(fault) => ReadError::Profile(fault),
            ResolveError::OutOfMemory => ReadError::OutOfMemory,
        }
    }
}

/// The normal form of the profile in the octets, with the top of this name.
///
/// Faults: E04 and E05 of the text, E01 to E03 of its tokens, E10 to E15 of its grammar, and then those of its tree,
/// E20 to E34.
pub fn read(alloc: Global, octets: &[u8], top: &[u8]) -> Result<Profile, ReadError>
    ensures found { IfOk result (Reads octets.now top.now) }
    // Each refusal, and what it says of the octets.
    ensures refused { IfErr result (Refuses octets.now top.now) }
{
    let source = Source::new(octets)?;
    let tokens = lex(alloc, &source)?;
    let tree = parse(alloc, &source, tokens.as_slice())?;
    drop(tokens);
    let File { parts } = tree;
    Ok(resolve(alloc, octets, parts, top)?)
}
