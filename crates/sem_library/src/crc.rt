//! The method that sends a checksum, and its register.
ghost use Rattle.std.specs.Prelude.{◌≡◌, ℕ, ◌+◌, ◌%◌, ◌^◌, ◌<◌, ◌≤◌, ◌↔◌, Bool, false, List, Option, length, reverse, take, drop, fold, IsTrue, IfOk, IfSome, IfNone};
ghost use Rattle.sem_bits.specs.Number.{num, enc};
ghost use Rattle.sem_library.specs.Crc.{crc_step, four_steps, crc_register, IsTable};
ghost use Rattle.sem_library.specs.Methods.{Lib, IsOnly, CrcHolds, crc};

use sem_bits::{Bits, has_spelling};
use std::alloc::{AllocError, Global};

/// The uncompressed side under `crc(bits, polynomial, initial, covered, length)`: no bits, `None` where the compressed side
/// is not the checksum or there is none, as `crc_down` says.
pub fn crc_up(
    alloc: Global,
    bits: i128,
    polynomial: i128,
    initial: i128,
    covered: &Bits,
    length: i128,
    c: &Bits,
) -> Option<Bits>
    ensures { (r : Option (List Bool)) → IsOnly (λ u. Lib (crc bits polynomial initial covered.now length) r u c.now) result }
{
    let Some(sum) = register_of(bits, polynomial, initial, covered, length) else {
        return None;
    };
    let Some(value) = c.value() else {
        return None;
    };
    if c.len() == sum.bits && value == sum.register {
        Some(Bits::new(alloc))
    } else {
        None
    }
}

/// The compressed side under `crc(bits, polynomial, initial, covered, length)`: as many bits as said, which spell the register
/// after the covered bits. It is `None` where the uncompressed side is not empty, `bits` is not from 1 to 64, the polynomial
/// or the initial register is negative or does not fit in so many bits, or the covered bits are not whole octets or not
/// `length` bits.
pub fn crc_down(
    alloc: Global,
    bits: i128,
    polynomial: i128,
    initial: i128,
    covered: &Bits,
    length: i128,
    u: &Bits,
) -> Result<Option<Bits>, AllocError>
    ensures { IfOk result (λ o. (r : Option (List Bool)) → IsOnly (λ c. Lib (crc bits polynomial initial covered.now length) r u.now c) o) }
{
    if !u.is_empty() {
        return Ok(None);
    }
    let Some(sum) = register_of(bits, polynomial, initial, covered, length) else {
        return Ok(None);
    };
    Bits::from_value(alloc, sum.bits, sum.register)
}

/// The register of so many bits after the covered bits, octet by octet, each octet's lowest bit first: for each bit it is
/// shifted right by one, and the polynomial is put over it where its lowest bit differed. Nothing is put over it at the end.
/// Four bits are taken at a time: what they make of the register stands in a table of 16 entries, made once a call.
pub fn crc_of(bits: usize, polynomial: u64, initial: u64, covered: &Bits) -> u64
    requires some_bits { 1 ≤ bits }
    requires short { bits ≤ 64 }
    requires polynomial_fits { polynomial < 2 ^ bits }
    requires initial_fits { initial < 2 ^ bits }
    requires whole_octets { length covered.now % 8 ≡ 0 }
    ensures value { result ≡ crc_register polynomial initial covered.now }
    ensures fits { result < 2 ^ bits }
{
    let table = table_of(polynomial);
    let mut register = initial;
    for place in 0..covered.len() / 8 {
        let octet = covered.octet(place).unwrap_or(0);
        register = after_octet(&table, register, octet);
    }
    register
}

/// The register after an octet, its lowest bit first.
#[inline(always)]
fn after_octet(table: &[u64; 16], before: u64, octet: u8) -> u64
    ensures { (poly : ℕ) → IsTable poly table.now → result ≡ fold (crc_step poly) before (reverse (enc 8 octet)) }
{
    // The octet is put over the register at once: so a bit differs where the lowest bit is one.
    let mixed = before ^ u64::from(octet);
    after_four(table, after_four(table, mixed))
}

/// The register after four more bits, where the bits that are left are put over it.
#[inline(always)]
fn after_four(table: &[u64; 16], mixed: u64) -> u64
    ensures { (poly : ℕ) → IsTable poly table.now → result ≡ four_steps poly mixed }
{
    table[(mixed % 16) as usize] ^ (mixed / 16)
}

/// The register after four more bits, from each number below 16.
fn table_of(polynomial: u64) -> [u64; 16]
    ensures { IsTable polynomial result }
{
    let eight = polynomial;
    let four = after_bit(polynomial, eight);
    let two = after_bit(polynomial, four);
    let one = after_bit(polynomial, two);
    // From two numbers put over each other comes what comes from the one, put over what comes from the other.
    let three = two ^ one;
    let twelve = eight ^ four;
    [
        0,
        one,
        two,
        three,
        four,
        four ^ one,
        four ^ two,
        four ^ three,
        eight,
        eight ^ one,
        eight ^ two,
        eight ^ three,
        twelve,
        twelve ^ one,
        twelve ^ two,
        twelve ^ three,
    ]
}

/// The register after one more bit, where the bits that are left are put over it.
fn after_bit(polynomial: u64, mixed: u64) -> u64
    ensures { result ≡ crc_step polynomial mixed false }
{
    if mixed % 2 == 0 {
        mixed / 2
    } else {
        (mixed / 2) ^ polynomial
    }
}

/// A register and how many bits it has.
#[derive(Drop)]
struct Checksum {
    bits: usize,
    register: u64,
}

/// The register after the covered bits, or `None` where an argument is out of range.
fn register_of(
    bits: i128,
    polynomial: i128,
    initial: i128,
    covered: &Bits,
    size: i128,
) -> Option<Checksum>
    ensures fits { IfSome result (λ s. (s.bits ≤ 64) × (s.register < 2 ^ s.bits)) }
    ensures found { IfSome result (λ s. (c : List Bool) → CrcHolds bits polynomial initial covered.now size c ↔ ((length c ≡ s.bits) × (num c ≡ s.register))) }
    ensures none { IfNone result ((c : List Bool) → CrcHolds bits polynomial initial covered.now size c → ⊥) }
{
    let Ok(count) = usize::try_from(bits) else {
        return None;
    };
    let Ok(poly) = u64::try_from(polynomial) else {
        return None;
    };
    let Ok(init) = u64::try_from(initial) else {
        return None;
    };
    if covered.len() % 8 != 0 {
        return None;
    }
    if covered.len() as i128 != size {
        return None;
    }
    if count == 0 {
        return None;
    }
    if !has_spelling(count, poly) {
        return None;
    }
    if !has_spelling(count, init) {
        return None;
    }
    Some(Checksum {
        bits: count,
        register: crc_of(count, poly, init, covered),
    })
}
