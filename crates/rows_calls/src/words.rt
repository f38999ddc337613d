//! What rows read and answers say.

use anyhow::{Context, Result};
use sem_bits::Bits;
use std::alloc::Global;

/// What stands before the first `mark` and what stands after it.
pub(crate) fn parted<'a>(text: &'a str, mark: &str) -> Result<(&'a str, &'a str)> {
    text.split_once(mark).context("the row is too short")
}

/// The bits of a word.
pub(crate) fn bits(alloc: Global, word: &str) -> Result<Bits> {
    Bits::read_text(alloc, word)?.context("no bits")
}

/// The number of a word.
pub(crate) fn count(word: &str) -> Result<usize> {
    Ok(word.parse::<usize>()?)
}

/// Says the text of bits, or `none`.
pub(crate) fn put(alloc: Global, out: &mut String, found: Option<Bits>) -> Result<()> {
    match found {
        Some(bits) => put_bits(alloc, out, &bits),
        None => Ok(out.push_str("none")?),
    }
}

/// Says the text of bits.
pub(crate) fn put_bits(alloc: Global, out: &mut String, bits: &Bits) -> Result<()> {
    Ok(out.push_str(bits.print_text(alloc)?.as_str())?)
}
