//! The method that sends the last bits of a number near its reference.
ghost use Rattle.std.specs.Prelude.{◌≡◌, ◌+◌, ◌-◌, ◌%◌, ◌^◌, ◌<◌, ◌≤◌, length, pos, IfOk};
ghost use Rattle.std.specs.Option.{SomeIff, option_copied};
ghost use Rattle.sem_library.specs.Methods.{Lib, IsOnly, IsLowPart, lsb, lsb_start};

use sem_bits::Bits;
use std::alloc::{AllocError, Global};

/// The uncompressed side under `lsb(bits, offset)`: of the interval of two to the power of `bits` numbers that begins at the
/// reference less the offset, and wraps at the reference's length, the one number that ends in the compressed side. It is
/// `None` where there is no reference, it has more than 64 bits or fewer than `bits`, or the compressed side has another
/// length than `bits`.
#[inline(always)]
pub fn lsb_up(
    alloc: Global,
    bits: i128,
    offset: i128,
    reference: Option<&Bits>,
    c: &Bits,
) -> Result<Option<Bits>, AllocError>
    ensures { IfOk result (IsOnly (λ u. Lib (lsb bits offset) (option_copied reference.entry) u c.now)) }
{
    let Some(last) = reference else {
        return Ok(None);
    };
    let Some(start) = interval_start(offset, last) else {
        return Ok(None);
    };
    if c.len() as i128 != bits {
        return Ok(None);
    }
    if c.len() > last.len() {
        return Ok(None);
    }
    let Some(low) = c.value() else {
        return Ok(None);
    };
    let value = member(last.len(), c.len(), start, low);
    Bits::from_value(alloc, last.len(), value)
}

/// The compressed side under `lsb(bits, offset)`: the last `bits` bits of the uncompressed side. It is `None` where there
/// is no reference, it has more than 64 bits or fewer than `bits`, or the uncompressed side has another length than the
/// reference or a number outside the interval of two to the power of `bits` numbers that begins at the reference less the
/// offset, and wraps at the reference's length.
#[inline(always)]
pub fn lsb_down(
    alloc: Global,
    bits: i128,
    offset: i128,
    reference: Option<&Bits>,
    u: &Bits,
) -> Result<Option<Bits>, AllocError>
    ensures { IfOk result (IsOnly (λ c. Lib (lsb bits offset) (option_copied reference.entry) u.now c)) }
{
    let Some(last) = reference else {
        return Ok(None);
    };
    let Some(start) = interval_start(offset, last) else {
        return Ok(None);
    };
    if u.len() != last.len() {
        return Ok(None);
    }
    let Some(value) = u.value() else {
        return Ok(None);
    };
    let Ok(count) = usize::try_from(bits) else {
        return Ok(None);
    };
    if count > u.len() {
        return Ok(None);
    }
    if distance(u.len(), start, value) >= 1 << count {
        return Ok(None);
    }
    low_bits(alloc, bits, value)
}

/// The last bits of a number, as many as said, or `None` where that is below 0 or above 64.
#[inline(always)]
pub fn low_bits(alloc: Global, count: i128, value: u64) -> Result<Option<Bits>, AllocError>
    ensures { IfOk result (IsOnly (IsLowPart count value)) }
{
    let Ok(len) = usize::try_from(count) else {
        return Ok(None);
    };
    if len > 64 {
        return Ok(None);
    }
    Bits::from_value(alloc, len, low_part(len, value))
}

/// The remainder of a number at that power of two.
fn low_part(bits: usize, value: u64) -> u64
    requires { bits ≤ 64 }
    ensures { result ≡ value % 2 ^ bits }
{
    if bits == 64 {
        value
    } else {
        value % (1 << bits)
    }
}

/// The first number of the interval, or `None` where the reference has more than 64 bits.
fn interval_start(offset: i128, reference: &Bits) -> Option<u64>
    ensures { SomeIff result (length reference.now ≤ 64) (lsb_start offset reference.now) }
{
    let Some(last) = reference.value() else {
        return None;
    };
    let modulus: i128 = 1 << reference.len();
    let ahead = i128::from(last) - offset.rem_euclid(modulus);
    Some(ahead.rem_euclid(modulus) as u64)
}

/// The first number from a start on, modulo two to the power of `size`, that ends in the bits of `low`.
fn member(size: usize, bits: usize, start: u64, low: u64) -> u64
    requires short { size ≤ 64 }
    requires within { bits ≤ size }
    requires fits { low < 2 ^ bits }
    ensures { result ≡ (start + (low + 2 ^ bits - start % 2 ^ bits) % 2 ^ bits) % 2 ^ size }
{
    let step: u128 = 1 << bits;
    let start = u128::from(start);
    let ahead = (u128::from(low) + step - start % step) % step;
    ((start + ahead) % (1 << size)) as u64
}

/// How far a number is ahead of a start, modulo two to the power of `size`.
fn distance(size: usize, start: u64, value: u64) -> u128
    requires short { size ≤ 64 }
    requires fits { start < 2 ^ size }
    ensures { result ≡ (value + 2 ^ size - start) % 2 ^ size }
{
    let modulus: u128 = 1 << size;
    (u128::from(value) + modulus - u128::from(start)) % modulus
}
