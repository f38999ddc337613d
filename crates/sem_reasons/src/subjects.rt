//! What is seen of a field or of the whole.

ghost use Rattle.std.specs.Prelude.{◌≡◌, IfOk, option_and_then};
ghost use Rattle.std.specs.Option.{option_copied};
ghost use Rattle.sem_reasons.specs.Full as full;
ghost use Rattle.sem_reasons.specs.Told as spec;

use crate::sight::{Observed, ObservedSides};
use sem_bits::{Bits, BitsError};
use sem_expr::{Side, Subject};
use sqlite_items::at;
use std::alloc::{AllocError, Global};

/// That side of a field.
pub(crate) fn seen_at(sights: &[ObservedSides], field: usize, side: Side) -> Option<&Bits>
    ensures { option_copied result ≡ spec.seen_at sights.now field side }
{
    match at(sights, field) {
        Some(sight) => seen_side(sight, side),
        None => None,
    }
}

/// That side.
pub(crate) fn seen_side(sight: &ObservedSides, side: Side) -> Option<&Bits>
    ensures { option_copied result ≡ spec.seen_side sight.now side }
{
    match side {
        Side::Uncompressed => sight.uncompressed.as_ref(),
        Side::Compressed => sight.compressed.as_ref(),
    }
}

/// That side of a field or of the whole.
pub(crate) fn seen_subject(seen: &Observed, subject: Subject, side: Side) -> Option<&Bits>
    ensures { option_copied result ≡ spec.seen_subject seen.now subject side }
{
    match subject {
        Subject::Field(field) => seen_at(seen.fields.as_slice(), field, side),
        Subject::This => seen_side(&seen.whole, side),
    }
}

/// The sides of these fields joined, where each is seen and they can be held together. The error is out of memory.
pub(crate) fn joined(
    alloc: Global,
    sights: &[ObservedSides],
    side: Side,
    order: &[usize],
) -> Result<Option<Bits>, AllocError>
    ensures { IfOk result (λ o. o ≡ option_and_then full.holdable (spec.joined sights.now side order.now)) }
{
    let mut bits = Bits::new(alloc);
    for field in order {
        let Some(own) = seen_at(sights, *field, side) else {
            return Ok(None);
        };
        match bits.append(own) {
            Ok(()) => {}
            Err(BitsError::Full) => return Ok(None),
            Err(BitsError::OutOfMemory) => return Err(AllocError),
        }
    }
    Ok(Some(bits))
}
