//! The methods that send a side whole or not at all.
ghost use Rattle.std.specs.Prelude.{◌≡◌, ◌≤◌, ◌↔◌, Bool, List, Option, length, pos, IsTrue, IfOk};
ghost use Rattle.std.specs.Option.{option_copied};
ghost use Rattle.sem_library.specs.Methods.{Lib, IsOnly, Spells, uncompressed_value, compressed_value, irregular, static};

use sem_bits::Bits;
use std::alloc::{AllocError, Global};

/// The uncompressed side under `uncompressed_value(length, value)`: the bits of that length and number, `None` where there
/// are none, or more than 64, or the compressed side is not empty.
pub fn uncompressed_value_up(
    alloc: Global,
    length: i128,
    value: i128,
    c: &Bits,
) -> Result<Option<Bits>, AllocError>
    ensures { IfOk result (λ o. (r : Option (List Bool)) → IsOnly (λ u. Lib (uncompressed_value length value) r u c.now) o) }
{
    if !c.is_empty() {
        return Ok(None);
    }
    spelled(alloc, length, value)
}

/// The compressed side under `uncompressed_value(length, value)`: no bits, `None` where the uncompressed side is not that
/// number in that length.
pub fn uncompressed_value_down(alloc: Global, length: i128, value: i128, u: &Bits) -> Option<Bits>
    ensures { (r : Option (List Bool)) → IsOnly (λ c. Lib (uncompressed_value length value) r u.now c) result }
{
    if is_spelled(length, value, u) {
        Some(Bits::new(alloc))
    } else {
        None
    }
}

/// The uncompressed side under `compressed_value(length, value)`: no bits, `None` where the compressed side is not that
/// number in that length.
pub fn compressed_value_up(alloc: Global, length: i128, value: i128, c: &Bits) -> Option<Bits>
    ensures { (r : Option (List Bool)) → IsOnly (λ u. Lib (compressed_value length value) r u c.now) result }
{
    if is_spelled(length, value, c) {
        Some(Bits::new(alloc))
    } else {
        None
    }
}

/// The compressed side under `compressed_value(length, value)`: the bits of that length and number, `None` where there are
/// none, or more than 64, or the uncompressed side is not empty.
pub fn compressed_value_down(
    alloc: Global,
    length: i128,
    value: i128,
    u: &Bits,
) -> Result<Option<Bits>, AllocError>
    ensures { IfOk result (λ o. (r : Option (List Bool)) → IsOnly (λ c. Lib (compressed_value length value) r u.now c) o) }
{
    if !u.is_empty() {
        return Ok(None);
    }
    spelled(alloc, length, value)
}

/// The uncompressed side under `irregular(length)`: the compressed side, `None` where it has another length or more than
/// 64 bits.
pub fn irregular_up(alloc: Global, length: i128, c: &Bits) -> Result<Option<Bits>, AllocError>
    ensures { IfOk result (λ o. (r : Option (List Bool)) → IsOnly (λ u. Lib (irregular length) r u c.now) o) }
{
    if !has_length(length, c) {
        return Ok(None);
    }
    Ok(Some(c.copy(alloc)?))
}

/// The compressed side under `irregular(length)`: the uncompressed side, `None` where it has another length or more than
/// 64 bits.
pub fn irregular_down(alloc: Global, length: i128, u: &Bits) -> Result<Option<Bits>, AllocError>
    ensures { IfOk result (λ o. (r : Option (List Bool)) → IsOnly (λ c. Lib (irregular length) r u.now c) o) }
{
    if !has_length(length, u) {
        return Ok(None);
    }
    Ok(Some(u.copy(alloc)?))
}

/// The uncompressed side under `static`: the reference, `None` where there is none, it has more than 64 bits, or the
/// compressed side is not empty.
pub fn static_up(
    alloc: Global,
    reference: Option<&Bits>,
    c: &Bits,
) -> Result<Option<Bits>, AllocError>
    ensures { IfOk result (IsOnly (λ u. Lib static (option_copied reference.entry) u c.now)) }
{
    let Some(last) = reference else {
        return Ok(None);
    };
    if last.len() > 64 || !c.is_empty() {
        return Ok(None);
    }
    Ok(Some(last.copy(alloc)?))
}

/// The compressed side under `static`: no bits, `None` where the uncompressed side is not the reference or has more than
/// 64 bits.
pub fn static_down(alloc: Global, reference: Option<&Bits>, u: &Bits) -> Option<Bits>
    ensures { IsOnly (λ c. Lib static (option_copied reference.entry) u.now c) result }
{
    let Some(kept) = reference else {
        return None;
    };
    if kept.len() > 64 {
        return None;
    }
    if kept == u {
        Some(Bits::new(alloc))
    } else {
        None
    }
}

/// The bits of that length and number, `None` where there are none, or more than 64.
fn spelled(alloc: Global, length: i128, value: i128) -> Result<Option<Bits>, AllocError>
    ensures { IfOk result (IsOnly (Spells length value)) }
{
    let Ok(count) = usize::try_from(length) else {
        return Ok(None);
    };
    let Ok(number) = u64::try_from(value) else {
        return Ok(None);
    };
    Bits::from_value(alloc, count, number)
}

/// Whether the bits have that length, at most 64, and spell that number.
fn is_spelled(length: i128, value: i128, bits: &Bits) -> bool
    ensures { IsTrue result ↔ Spells length value bits.now }
{
    let Some(number) = bits.value() else {
        return false;
    };
    bits.len() as i128 == length && i128::from(number) == value
}

/// Whether the bits have that length, at most 64.
fn has_length(wanted: i128, bits: &Bits) -> bool
    ensures { IsTrue result ↔ ((pos (length bits.now) ≡ wanted) × (length bits.now ≤ 64)) }
{
    bits.len() <= 64 && bits.len() as i128 == wanted
}
