//! Library methods whose arguments may lack a value.

ghost use Rattle.std.specs.Prelude.{◌≡◌, ◌≤◌, IfOk, length};
ghost use Rattle.std.specs.Option.{option_copied};
ghost use Rattle.sem_library.specs.Methods.{IsOnly};
ghost use Rattle.walk_steps.specs.Methods as spec;

use sem_bits::Bits;
use sem_library::{crc_down, low_bits, lsb_up, uncompressed_value_up};
use std::alloc::{AllocError, Global};

/// The bits of that length, at most 64, that spell the number. The error of this and the next is out of memory.
pub(crate) fn spelled(
    alloc: Global,
    len: Option<i128>,
    number: Option<i128>,
) -> Result<Option<Bits>, AllocError>
    ensures { IfOk result (IsOnly (spec.SpelledBy len number)) }
{
    let Some(len) = len else {
        return Ok(None);
    };
    let Some(number) = number else {
        return Ok(None);
    };
    uncompressed_value_up(alloc, len, number, &Bits::new(alloc))
}

/// The uncompressed side under `lsb`.
pub(crate) fn lsb_found(
    alloc: Global,
    bits: Option<i128>,
    offset: Option<i128>,
    reference: Option<&Bits>,
    compressed: &Bits,
) -> Result<Option<Bits>, AllocError>
    ensures { IfOk result (IsOnly (spec.LsbBy bits offset (option_copied reference.entry) compressed.now)) }
{
    let Some(bits) = bits else {
        return Ok(None);
    };
    let Some(offset) = offset else {
        return Ok(None);
    };
    lsb_up(alloc, bits, offset, reference, compressed)
}

/// The last so many of at most 64 bits.
pub(crate) fn low_part(
    alloc: Global,
    count: Option<i128>,
    bits: &Bits,
) -> Result<Option<Bits>, AllocError>
    ensures { IfOk result (λ o. length bits.now ≤ 64 → IsOnly (spec.LowBy count bits.now) o) }
{
    let Some(count) = count else {
        return Ok(None);
    };
    let Some(number) = bits.value() else {
        return Ok(None);
    };
    low_bits(alloc, count, number)
}

/// The checksum of the covered bits.
pub(crate) fn checksum(
    alloc: Global,
    bits: Option<i128>,
    polynomial: Option<i128>,
    initial: Option<i128>,
    len: Option<i128>,
    covered: &Bits,
) -> Result<Option<Bits>, AllocError>
    ensures { IfOk result (IsOnly (spec.SummedBy bits polynomial initial len covered.now)) }
{
    let Some(bits) = bits else {
        return Ok(None);
    };
    let Some(polynomial) = polynomial else {
        return Ok(None);
    };
    let Some(initial) = initial else {
        return Ok(None);
    };
    let Some(len) = len else {
        return Ok(None);
    };
    crc_down(
        alloc,
        bits,
        polynomial,
        initial,
        covered,
        len,
        &Bits::new(alloc),
    )
}

/// A copy of the bits, where there are any.
pub(crate) fn copied(alloc: Global, bits: Option<&Bits>) -> Result<Option<Bits>, AllocError>
    ensures { IfOk result (λ o. o ≡ option_copied bits.entry) }
{
    match bits {
        Some(bits) => Ok(Some(bits.copy(alloc)?)),
        None => Ok(None),
    }
}
