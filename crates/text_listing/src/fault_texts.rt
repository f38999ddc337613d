//! The texts of faults.

ghost use Rattle.std.specs.Prelude.{◌≡◌, IfOk, string_bytes};
ghost use Rattle.text_listing.specs.Texts as spec;

use sem_profile::{Name, ProfileFault, ProfileFaultKind, word};
use std::alloc::{AllocError, Global};
use text_source::names::is_name;
use text_source::{FaultKind, Span};

/// The words of a fault of the text, of its tokens or of its tree (docs/FORMATS.md).
pub fn kind_text(kind: FaultKind) -> &'static str
    ensures { result.now ≡ spec.kind_words kind }
{
    match kind {
        FaultKind::Character => "character is not allowed here",
        FaultKind::OpenComment => "comment is not closed",
        FaultKind::Large => "number or bit text is too large",
        FaultKind::TooLong => "text is above 1 MiB",
        FaultKind::NotUtf8 => "text is not UTF-8",
        FaultKind::Unexpected => "unexpected token",
        FaultKind::Nesting => "nesting is above 64",
        FaultKind::EmptyBracket => "bracket is empty",
        FaultKind::RepeatedSection => "section is repeated",
        FaultKind::MixedRemainder => "% needs brackets here",
        FaultKind::TooManyParts => "too many parts",
    }
}

/// The words of a fault's kind with the names that it shows, which are parts of the text. A missing name is empty, and so is a part
/// that is no name, so that the words are one line.
pub fn fault_text(alloc: Global, octets: &[u8], fault: &ProfileFault) -> Result<String, AllocError>
    ensures { IfOk result (λ text. string_bytes text ≡ spec.fault_words octets.now fault.now) }
{
    let first = name_text(alloc, octets, fault.first)?;
    let second = name_text(alloc, octets, fault.second)?;
    words(alloc, fault.kind, first.as_str(), second.as_str())
}

fn name_text(alloc: Global, octets: &[u8], name: Option<Span>) -> Result<String, AllocError>
    ensures { IfOk result (λ text. string_bytes text ≡ spec.named octets.now name) }
{
    match name {
        Some(span) => shown_name(alloc, word(octets, span)),
        None => Ok(String::new(alloc)),
    }
}

fn shown_name(alloc: Global, octets: &[u8]) -> Result<String, AllocError>
    ensures { IfOk result (λ text. string_bytes text ≡ spec.shown octets.now) }
{
    if is_name(octets) {
        let name = Name::of_octets(alloc, octets)?;
        String::from_str(alloc, name.as_str())
    } else {
        Ok(String::new(alloc))
    }
}

#[tactic(auto, using(crate::proofs::KnownWalks::texts_joined))]
fn words(
    alloc: Global,
    kind: ProfileFaultKind,
    first: &str,
    second: &str,
) -> Result<String, AllocError>
    ensures { IfOk result (λ text. string_bytes text ≡ spec.words_of kind first.now second.now) }
{
    match kind {
        ProfileFaultKind::UnknownName => format!(in alloc; "name {first} is not known"),
        ProfileFaultKind::DefinedTwice => format!(in alloc; "name {first} is defined twice"),
        ProfileFaultKind::ArgumentCount => format!(in alloc;
            "wrong number of arguments for {first}"
        ),
        ProfileFaultKind::Recursion => {
            format!(in alloc; "{first} calls {second}, which reaches {first}")
        }
        ProfileFaultKind::SecondEncoding => format!(in alloc;
            "field {first} has a second encoding"
        ),
        ProfileFaultKind::NoContext => format!(in alloc; "field {first} has no context"),
        ProfileFaultKind::NoEncoding => format!(in alloc; "field {first} has no encoding"),
        ProfileFaultKind::WideValue => {
            format!(in alloc; "value of {first} is wider than 64 bits")
        }
        ProfileFaultKind::Sections => {
            format!(in alloc; "method {first} lacks one UNCOMPRESSED or named formats")
        }
        ProfileFaultKind::NoTop => String::from_str(alloc, "no such top method without parameters"),
        ProfileFaultKind::AboveLimit => String::from_str(alloc, "value may pass 2^120"),
        ProfileFaultKind::WrongKind => String::from_str(alloc, "expression is of the wrong kind"),
        ProfileFaultKind::Power => {
            String::from_str(alloc, "power has a negative base or an exponent above 127")
        }
        ProfileFaultKind::NoValue => String::from_str(alloc, "constant has no value here"),
        ProfileFaultKind::TooLarge => String::from_str(alloc, "profile is too large"),
    }
}
