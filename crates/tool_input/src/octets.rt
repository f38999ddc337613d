//! Octets in hex.

ghost use Rattle.std.specs.Prelude.{◌≡◌, ℕ, List, IfOk, IfSome, IfNone};
ghost use Rattle.text_source.specs.Lexical.{is_space};
ghost use Rattle.tool_input.specs.Octets.{AreOctets, without_space};

use hex::FromHexError;
use std::alloc::{AllocError, Global};

/// The octets of hex digits of either case with white space anywhere, or `None` where the text is none of an octet each two digits.
pub fn read_octets(alloc: Global, text: &[u8]) -> Result<Option<Vec<u8>>, AllocError>
    ensures found { IfOk result (λ o. IfSome o (λ v. AreOctets text.now v.items)) }
    ensures none { IfOk result (λ o. IfNone o ((octets : List ℕ) → AreOctets text.now octets → ⊥)) }
{
    let digits = digits_in(alloc, text)?;
    match hex::decode(alloc, digits.as_slice()) {
        Ok(octets) => Ok(Some(octets)),
        Err(FromHexError::OutOfMemory) => Err(AllocError),
        Err(_) => Ok(None),
    }
}

/// A text less its white space.
fn digits_in(alloc: Global, text: &[u8]) -> Result<Vec<u8>, AllocError>
    ensures { IfOk result (λ digits. digits.items ≡ without_space text.now) }
{
    let mut digits = Vec::with_capacity(alloc, text.len())?;
    for octet in text {
        if !is_blank(*octet) {
            digits.push(*octet)?;
        }
    }
    Ok(digits)
}

/// Whether the octet is white space: a space, tab, CR, LF or form feed.
fn is_blank(octet: u8) -> bool
    ensures { result ≡ is_space octet }
{
    octet == b' ' || octet == b'\t' || octet == b'\r' || octet == b'\n' || octet == 12
}
