//! Bits by octets: what stands ahead of a cursor, an octet, and a part with a bit after it.

use crate::words::{bits, count, parted, put_bits};
use anyhow::{Context, Result};
use sem_bits::Cursor;
use std::alloc::Global;
use std::fmt::Write;

/// `peek TAKEN AHEAD COUNT BITS`: after TAKEN bits were taken, the number of the COUNT bits that begin AHEAD of the place.
pub(crate) fn peeked(alloc: Global, out: &mut String, rest: &str) -> Result<()> {
    let (taken, rest) = parted(rest, " ")?;
    let (ahead, rest) = parted(rest, " ")?;
    let (len, text) = parted(rest, " ")?;
    let bits = bits(alloc, text)?;
    let mut cursor = Cursor::new(&bits);
    let _taken = cursor.take(alloc, count(taken)?)?.context("too few bits")?;
    match cursor.peek(count(ahead)?, count(len)?) {
        Some(number) => Ok(write!(out, "{number}")?),
        None => Ok(out.push_str("none")?),
    }
}

/// `octet PLACE BITS`: the octet at a place, in hex.
pub(crate) fn octet(alloc: Global, out: &mut String, rest: &str) -> Result<()> {
    let (place, text) = parted(rest, " ")?;
    match bits(alloc, text)?.octet(count(place)?) {
        Some(octet) => Ok(write!(out, "{octet:02x}")?),
        None => Ok(out.push_str("none")?),
    }
}

/// `cut FROM TO OTHER BITS`: whether what stands from FROM to TO is OTHER, and the text of it with a zero at its end.
pub(crate) fn cut(alloc: Global, out: &mut String, rest: &str) -> Result<()> {
    let (from, rest) = parted(rest, " ")?;
    let (to, rest) = parted(rest, " ")?;
    let (other, text) = parted(rest, " ")?;
    let part = bits(alloc, text)?.slice(alloc, count(from)?, count(to)?)?;
    let mut part = part.context("no part")?;
    write!(out, "{} ", part == bits(alloc, other)?)?;
    part.push(false)?;
    put_bits(alloc, out, &part)
}
