//! Bits, their text, a cursor over them, and lines.

use crate::words::{bits, count, parted, put, put_bits};
use anyhow::Result;
use sem_bits::lines::lines;
use sem_bits::{Bits, Cursor, LinesError};
use std::alloc::{AllocError, Global};
use std::fmt::Write;

/// `text TEXT`: the bits that are read of it, and their value.
pub(crate) fn read(alloc: Global, out: &mut String, text: &str) -> Result<()> {
    let Some(bits) = Bits::read_text(alloc, text)? else {
        return put(alloc, out, None);
    };
    put_bits(alloc, out, &bits)?;
    if let Some(value) = bits.value() {
        write!(out, " is {value}")?;
    }
    Ok(())
}

/// `zeros FRONT COUNT`: how many bits are read of a text with that front and so many digits 0.
pub(crate) fn read_zeros(alloc: Global, out: &mut String, rest: &str) -> Result<()> {
    let (front, digits) = parted(rest, " ")?;
    let text = with_zeros(alloc, front, count(digits)?)?;
    match Bits::read_text(alloc, text.as_str())? {
        Some(bits) => Ok(write!(out, "{}", bits.len())?),
        None => put(alloc, out, None),
    }
}

fn with_zeros(alloc: Global, front: &str, digits: usize) -> Result<String> {
    let mut text = String::from_str(alloc, front)?;
    for _ in 0..digits {
        text.push('0')?;
    }
    Ok(text)
}

/// `cursor FIRST NEXT AHEAD BITS`: what is taken by FIRST, what a second cursor there takes by NEXT, and of both how many bits stand before and after and the
/// bit that stands AHEAD.
pub(crate) fn moved(alloc: Global, out: &mut String, rest: &str) -> Result<()> {
    let (first, rest) = parted(rest, " ")?;
    let (next, rest) = parted(rest, " ")?;
    let (ahead, text) = parted(rest, " ")?;
    let bits = bits(alloc, text)?;
    put_moved(
        alloc,
        out,
        &bits,
        count(first)?,
        count(next)?,
        count(ahead)?,
    )
}

fn put_moved(
    alloc: Global,
    out: &mut String,
    bits: &Bits,
    first: usize,
    next: usize,
    ahead: usize,
) -> Result<()> {
    let mut cursor = Cursor::new(bits);
    put(alloc, out, cursor.take(alloc, first)?)?;
    let mut fork = cursor.fork();
    out.push(' ')?;
    put(alloc, out, fork.take(alloc, next)?)?;
    put_place(out, &cursor, ahead)?;
    put_place(out, &fork, ahead)
}

fn put_place(out: &mut String, cursor: &Cursor<'_>, ahead: usize) -> Result<()> {
    let bit = match cursor.at(ahead) {
        Some(true) => "1",
        Some(false) => "0",
        None => "none",
    };
    Ok(write!(out, " {}+{} {bit}", cursor.used(), cursor.rest())?)
}

/// `lines TEXT`: its lines with their numbers, or the number of the line that is no text.
pub(crate) fn cut_lines(alloc: Global, out: &mut String, octets: &[u8]) -> Result<()> {
    match lines(alloc, octets) {
        Ok(found) => {
            for line in &found {
                write!(out, "{}={};", line.number, line.text)?;
            }
            Ok(())
        }
        Err(LinesError::NotText { line }) => Ok(write!(out, "not text in {line}")?),
        Err(LinesError::OutOfMemory) => Err(AllocError.into()),
    }
}
