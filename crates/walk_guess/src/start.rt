//! What a level begins with.

use crate::guess_frame::GuessFrame;
use crate::level::Guess;
use crate::no_guess::NoGuess;
use crate::steps::{argument_of, reference};
use cert_compiled::{Beginning, Count, ShortBits};
use sem_bits::{Bits, Cursor};
use sem_expr::Side;
use sem_filling::FilledField;
use sem_library::{lsb_down, lsb_up};
use sem_profile::{Declared, Field, Format};
use std::alloc::{AllocError, Global};

/// A level whose fields have what they begin with, and whose source begins so many places after the cursor's. The error is Nowhere or out of memory.
pub(crate) fn begin_level<'a>(
    alloc: Global,
    here: &GuessFrame<'a>,
    format: &'a Format,
    beginnings: &[Beginning],
    source: &Cursor<'_>,
    from: usize,
) -> Result<Guess<'a>, NoGuess> {
    let mut fields = Vec::with_capacity(alloc, format.fields.len())?;
    for (field, beginning) in format.fields.as_slice().iter().zip(beginnings) {
        let (uncompressed, compressed) = match beginning {
            Beginning::Constants {
                uncompressed,
                compressed,
            } => (bits_of(alloc, *uncompressed)?, bits_of(alloc, *compressed)?),
            Beginning::Taken {
                place,
                count,
                side,
                copies,
            } => {
                let count = count_of(here, *count)?;
                let bits = bits_of(alloc, taken(source, from, *place, count)?)?;
                let other = if *copies {
                    bits.copy(alloc)?
                } else {
                    Bits::new(alloc)
                };
                match side {
                    Side::Uncompressed => (bits, other),
                    Side::Compressed => (other, bits),
                }
            }
            Beginning::Raised { .. } | Beginning::Lowered { .. } => {
                let begun = referred(alloc, here, field, beginning, source, from)?;
                (
                    bits_of(alloc, begun.uncompressed)?,
                    bits_of(alloc, begun.compressed)?,
                )
            }
        };
        add(&mut fields, &field.declared, uncompressed, compressed)?;
    }
    Ok(Guess {
        format,
        arguments: here.frame.arguments,
        header: here.header,
        fields,
        ahead: from,
    })
}

/// Both sides of a field.
#[derive(Clone, Copy)]
struct Begun {
    uncompressed: ShortBits,
    compressed: ShortBits,
}

/// How many bits that is, where a number or a parameter tells it. The error is Nowhere.
fn count_of(here: &GuessFrame<'_>, count: Count) -> Result<usize, NoGuess> {
    match count {
        Count::Number(count) => Ok(count),
        Count::Parameter(index) => argument_of(here.frame.arguments, index),
        Count::Referred | Count::Noted => Err(NoGuess::Nowhere),
    }
}

/// The bits of the source. The error is Nowhere.
fn taken(
    source: &Cursor<'_>,
    from: usize,
    place: usize,
    count: usize,
) -> Result<ShortBits, NoGuess> {
    match source.peek(from.saturating_add(place), count) {
        Some(number) => Ok(ShortBits { count, number }),
        None => Err(NoGuess::Nowhere),
    }
}

/// Both sides of a field of `lsb`, one of which is of the source. The error is Nowhere or out of memory.
#[inline(never)]
fn referred(
    alloc: Global,
    here: &GuessFrame<'_>,
    field: &Field,
    beginning: &Beginning,
    source: &Cursor<'_>,
    from: usize,
) -> Result<Begun, NoGuess> {
    match beginning {
        Beginning::Raised {
            place,
            count,
            bits,
            offset,
        } => {
            let compressed = taken(source, from, *place, *count)?;
            let reference = reference(alloc, here, field)?;
            let packed = bits_of(alloc, compressed)?;
            let found = lsb_up(alloc, *bits, *offset, Some(reference), &packed)?;
            Ok(Begun {
                uncompressed: spelling_of(found)?,
                compressed,
            })
        }
        Beginning::Lowered {
            place,
            count,
            bits,
            offset,
        } => {
            let reference = reference(alloc, here, field)?;
            let count = match count {
                Count::Number(count) => *count,
                _ => reference.len(),
            };
            let uncompressed = taken(source, from, *place, count)?;
            let whole = bits_of(alloc, uncompressed)?;
            let found = lsb_down(alloc, *bits, *offset, Some(reference), &whole)?;
            Ok(Begun {
                uncompressed,
                compressed: spelling_of(found)?,
            })
        }
        Beginning::Constants { .. } | Beginning::Taken { .. } => Err(NoGuess::Nowhere),
    }
}

/// What the bits spell. The error is Nowhere, where there are none or more than 64.
fn spelling_of(bits: Option<Bits>) -> Result<ShortBits, NoGuess> {
    let Some(bits) = bits else {
        return Err(NoGuess::Nowhere);
    };
    match bits.value() {
        Some(number) => Ok(ShortBits {
            count: bits.len(),
            number,
        }),
        None => Err(NoGuess::Nowhere),
    }
}

/// Adds a field with these sides.
#[inline(always)]
pub(crate) fn add(
    fields: &mut Vec<FilledField>,
    declared: &Declared,
    uncompressed: Bits,
    compressed: Bits,
) -> Result<(), NoGuess> {
    let filled = FilledField {
        declared: copy_of(declared)?,
        uncompressed,
        compressed,
        inner: None,
    };
    match fields.push(filled) {
        Ok(()) => Ok(()),
        Err(_) => Err(NoGuess::OutOfMemory),
    }
}

fn bits_of(alloc: Global, spelled: ShortBits) -> Result<Bits, NoGuess> {
    self::spelled(alloc, spelled.count, spelled.number)
}

/// The bits of that length which spell the number. The error is Nowhere or out of memory.
pub(crate) fn spelled(alloc: Global, count: usize, number: u64) -> Result<Bits, NoGuess> {
    match Bits::from_value(alloc, count, number)? {
        Some(bits) => Ok(bits),
        None => Err(NoGuess::Nowhere),
    }
}

/// A copy, whose name shares its text. The error is out of memory.
fn copy_of(declared: &Declared) -> Result<Declared, AllocError> {
    Ok(Declared {
        name: declared.name.share()?,
        part: declared.part,
        asked: declared.asked,
    })
}
