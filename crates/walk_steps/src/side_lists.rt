//! Sides that are joined in the order of a list of fields.

ghost use Rattle.std.specs.Prelude.{◌≡◌, ◌+◌, ◌*◌, ◌^◌, ◌<◌, ◌≤◌, length, IfOk};
ghost use Rattle.std.specs.Option.{SomeIff};
ghost use Rattle.sem_bits.specs.Number.{num};
ghost use Rattle.walk_steps.specs.Joined as spec;

use crate::slots::{bits_at, length_at};
use cert_rules::Slot;
use sem_bits::{Bits, BitsError};
use sem_expr::Side;
use std::alloc::{AllocError, Global};

/// How many bits the sides of the fields have together, where each length is known.
pub(crate) fn joined_length(slots: &[Slot], side: Side, fields: &[usize]) -> Option<usize>
    requires short { length (spec.joined_bits slots.now side fields.now) < 2 ^ 31 }
    ensures { result ≡ spec.joined_length slots.now side fields.now }
{
    let mut sum = 0;
    for field in fields {
        let Some(count) = length_at(slots, *field, side) else {
            return None;
        };
        sum += count;
    }
    Some(sum)
}

/// The number that the sides of the fields spell together, where all are known and at most 64 bits.
pub(crate) fn joined_value(slots: &[Slot], side: Side, fields: &[usize]) -> Option<u64>
    ensures { result ≡ spec.joined_value slots.now side fields.now }
{
    let mut count = 0;
    let mut number = 0;
    for field in fields {
        let Some(bits) = bits_at(slots, *field, side) else {
            return None;
        };
        let Some(next) = appended(number, count, bits) else {
            return None;
        };
        number = next;
        count += bits.len();
    }
    Some(number)
}

/// The number of so many bits with these after them, or `None` above 64 bits.
fn appended(number: u64, count: usize, bits: &Bits) -> Option<u64>
    requires narrow { count ≤ 64 }
    requires below { number < 2 ^ count }
    ensures { SomeIff result (count + length bits.now ≤ 64) (number * 2 ^ length bits.now + num bits.now) }
{
    let Some(more) = bits.value() else {
        return None;
    };
    if count + bits.len() > 64 {
        return None;
    }
    if count == 0 {
        return Some(more);
    }
    Some(number * (1 << bits.len()) + more)
}

/// The sides of the fields joined, where all are known. The error is out of memory.
pub(crate) fn joined_whole(
    alloc: Global,
    slots: &[Slot],
    side: Side,
    fields: &[usize],
) -> Result<Option<Bits>, AllocError>
    requires short { length (spec.joined_bits slots.now side fields.now) < 2 ^ 31 }
    ensures { IfOk result (λ o. o ≡ spec.joined_whole slots.now side fields.now) }
{
    let mut joined = Bits::new(alloc);
    for field in fields {
        let Some(bits) = bits_at(slots, *field, side) else {
            return Ok(None);
        };
        match joined.append(bits) {
            Ok(()) => {}
            Err(BitsError::OutOfMemory) => return Err(AllocError),
            Err(BitsError::Full) => return Ok(None),
        }
    }
    Ok(Some(joined))
}
