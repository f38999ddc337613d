//! Rows on bits and a cursor.

use crate::outcome::{First, Outcome};
use crate::stop::Stop;
use sem_bits::{Bits, BitsError, Cursor};
use std::alloc::Global;

/// So many bits, of which every so-and-so-many-th is one.
pub(crate) fn pattern(alloc: Global, len: usize, step: usize) -> Result<Bits, Stop> {
    let mut bits = Bits::new(alloc);
    for place in 0..len {
        bits.push(place.checked_rem(step) == Some(0))?;
    }
    Ok(bits)
}

/// The bits of a word.
pub(crate) fn bits_of(alloc: Global, word: &str) -> Result<Bits, Stop> {
    Bits::read_text(alloc, word)?.ok_or(Stop::Row("no bits"))
}

/// `append BEFORE MORE`: so many bits more at the end of so many.
pub(crate) fn append(alloc: Global, before: usize, more: usize) -> Result<Outcome, Stop> {
    let mut bits = pattern(alloc, before, 3)?;
    let copy = bits.copy(alloc)?;
    let other = pattern(alloc, more, 5)?;
    let due = joined(bits.copy(alloc)?, &other)?;
    match bits.append(&other) {
        Ok(()) => Ok(First::Answered.then(bits == due)),
        Err(BitsError::Full) => Ok(Outcome::Wrong),
        Err(BitsError::OutOfMemory) => {
            let first = First::refused(bits == copy);
            let is_made = bits.append(&other).is_ok();
            Ok(first.then(is_made && bits == due))
        }
    }
}

/// Bits and, one by one, others after them.
fn joined(bits: Bits, others: &Bits) -> Result<Bits, Stop> {
    let mut both = bits;
    for place in 0..others.len() {
        both.push(others.get(place) == Some(true))?;
    }
    Ok(both)
}

/// `push BEFORE`: one bit more at the end of so many.
pub(crate) fn push(alloc: Global, before: usize) -> Result<Outcome, Stop> {
    let mut bits = pattern(alloc, before, 3)?;
    let copy = bits.copy(alloc)?;
    let due = joined(bits.copy(alloc)?, &pattern(alloc, 1, 1)?)?;
    match bits.push(true) {
        Ok(()) => Ok(First::Answered.then(bits == due)),
        Err(BitsError::Full) => Ok(Outcome::Wrong),
        Err(BitsError::OutOfMemory) => {
            let first = First::refused(bits == copy);
            let is_made = bits.push(true).is_ok();
            Ok(first.then(is_made && bits == due))
        }
    }
}

/// `take BEFORE MORE`: so many bits under a cursor that took so many before.
pub(crate) fn take(alloc: Global, before: usize, more: usize) -> Result<Outcome, Stop> {
    let end = before.saturating_add(more);
    let bits = pattern(alloc, end.saturating_add(100), 3)?;
    let mut cursor = Cursor::new(&bits);
    if cursor.take(alloc, before)?.is_none() {
        return Err(Stop::Row("too few bits"));
    }
    let Some(due) = bits.slice(alloc, before, end)? else {
        return Err(Stop::Row("too few bits"));
    };
    match cursor.take(alloc, more) {
        Ok(found) => Ok(First::Answered.then(found == Some(due) && cursor.used() == end)),
        Err(_) => {
            let first = First::refused(cursor.used() == before);
            let is_made = cursor.take(alloc, more) == Ok(Some(due));
            Ok(first.then(is_made && cursor.used() == end))
        }
    }
}

/// `bits TEXT`: the bits that a text is read as.
pub(crate) fn read_text(alloc: Global, text: &str) -> Result<Outcome, Stop> {
    let (first, found) = match Bits::read_text(alloc, text) {
        Ok(found) => (First::Answered, found),
        Err(_) => (First::Kept, Bits::read_text(alloc, text).unwrap_or(None)),
    };
    match found {
        Some(bits) => Ok(first.then(bits.print_text(alloc)?.as_str() == text)),
        None => Ok(first.then(false)),
    }
}
