//! A whole text.

ghost use Rattle.std.specs.Prelude.{◌≡◌, List, length, IfOk, IfErr, MatchResult, ◌<◌, ◌^◌};
ghost use Rattle.text_source.specs.declared.token.Token.{Token};
ghost use Rattle.text_tree.specs.declared.tree.File.{File};
ghost use Rattle.text_tree.specs.Limits.{Parsed};
ghost use Rattle.text_tree.specs.Refused as refused;

use crate::file::parts;
use crate::refusal::{FaultPlace, ParseError, PlacedFault};
use crate::tokens::Tokens;
use crate::tree::File;
use std::alloc::Global;
use text_source::{Fault, Source, SourceError, Span, Token};

/// The fault of a refusal, in the words of a text of so many octets.
fn fault_of(len: usize, refusal: PlacedFault) -> Fault
    requires { len < 2 ^ 32 }
    ensures { result ≡ refused.fault_of len refusal }
{
    let at = match refusal.at {
        FaultPlace::At(at) => at,
        FaultPlace::End => Span {
            from: len as u32,
            to: len as u32,
        },
    };
    Fault {
        kind: refusal.kind,
        at,
    }
}

/// The tree of a profile's tokens, or the fault at the first token that can't go on.
///
/// E10 stands at that token, or with no octet at the end of the text; so do E11, E13 and E15, but that a constant or a
/// method too many is refused at its name. E12 stands at the `[`, E14 at the first `%` of its sum.
pub fn parse(alloc: Global, source: &Source<'_>, tokens: &[Token]) -> Result<File, SourceError>
    // What is read is the tree of the tokens, and they keep every rule.
    ensures found { IfOk result (λ file. Parsed tokens.now file) }
    // Tokens with a tree are read as that one, and refused only where memory is out.
    ensures only { (file : File) → Parsed tokens.now file → MatchResult result (λ f. f ≡ file) (λ e. e ≡ SourceError.OutOfMemory) }
    // The tokens in front of the refused one begin a text of the grammar; with it none does that keeps the fault's rule,
    // but one without that rule does; at the end, the tokens are no text.
    ensures refused { IfErr result (refused.Refuses (length source.now) tokens.now) }
{
    let mut rest = Tokens::new(tokens);
    match parts(alloc, &mut rest) {
        Ok(parts) => Ok(File { parts }),
        Err(error) => match error {
            ParseError::Memory => Err(SourceError::OutOfMemory),
            ParseError::Refused(refusal) => {
                Err(SourceError::Fault(fault_of(source.len(), refusal)))
            }
        },
    }
}
