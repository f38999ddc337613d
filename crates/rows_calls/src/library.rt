//! Calls on numbers and bits: the library methods in both directions, and how bits are made.

use crate::words::{bits, count, parted, put};
use anyhow::{Result, anyhow, ensure};
use sem_bits::Bits;
use sem_library::{
    compressed_value_down, compressed_value_up, crc_down, crc_of, crc_up, irregular_down,
    irregular_up, low_bits, lsb_down, lsb_up, static_down, static_up, uncompressed_value_down,
    uncompressed_value_up,
};
use std::alloc::Global;
use std::fmt::Write;

/// The numbers and the bits of a row.
#[derive(Drop)]
struct Arguments {
    numbers: Vec<i128>,
    sides: Vec<Bits>,
}

/// `CALL NUMBERS BITS`: the bits that the call gives, or `none`. Of `static` and `lsb` the first bits are the reference, where there are two; a `-` says that
/// there is none.
pub(crate) fn answer(alloc: Global, out: &mut String, call: &str, rest: &str) -> Result<()> {
    let arguments = read(alloc, rest)?;
    let numbers = arguments.numbers.as_slice();
    let found = match arguments.sides.as_slice() {
        [] => made(alloc, call, numbers)?,
        [side] => by_side(alloc, call, numbers, None, side)?,
        [first, side, ..] => by_side(alloc, call, numbers, Some(first), side)?,
    };
    put(alloc, out, found)
}

fn read(alloc: Global, rest: &str) -> Result<Arguments> {
    let mut arguments = Arguments {
        numbers: Vec::new(alloc),
        sides: Vec::new(alloc),
    };
    for word in rest.split(' ') {
        arguments.add(alloc, word)?;
    }
    Ok(arguments)
}

impl Arguments {
    fn add(&mut self, alloc: Global, word: &str) -> Result<()> {
        if word == "-" {
            Ok(())
        } else if word.contains(':') {
            Ok(self.sides.push(bits(alloc, word)?)?)
        } else {
            Ok(self.numbers.push(word.parse::<i128>()?)?)
        }
    }
}

fn made(alloc: Global, call: &str, numbers: &[i128]) -> Result<Option<Bits>> {
    match (call, numbers) {
        ("from_value", [length, value]) => Ok(Bits::from_value(
            alloc,
            usize::try_from(*length)?,
            u64::try_from(*value)?,
        )?),
        ("low_bits", [count, value]) => Ok(low_bits(alloc, *count, u64::try_from(*value)?)?),
        _ => Err(anyhow!("no such row")),
    }
}

fn by_side(
    alloc: Global,
    call: &str,
    numbers: &[i128],
    first: Option<&Bits>,
    side: &Bits,
) -> Result<Option<Bits>> {
    match numbers {
        [] => kept(alloc, call, first, side),
        [number] => by_number(alloc, call, *number, side),
        [one, other] => by_numbers(alloc, call, *one, *other, first, side),
        [bits, polynomial, initial, length] => {
            let Some(covered) = first else {
                return Err(anyhow!("nothing covered"));
            };
            if call == "crc_up" {
                return Ok(crc_up(alloc, *bits, *polynomial, *initial, covered, *length, side));
            }
            Ok(crc_down(alloc, *bits, *polynomial, *initial, covered, *length, side)?)
        }
        _ => Err(anyhow!("no such row")),
    }
}

fn kept(alloc: Global, call: &str, first: Option<&Bits>, side: &Bits) -> Result<Option<Bits>> {
    match (call, first) {
        ("static_up", _) => Ok(static_up(alloc, first, side)?),
        ("static_down", _) => Ok(static_down(alloc, first, side)),
        ("append", Some(bits)) => {
            let mut joined = bits.copy(alloc)?;
            joined.append(side)?;
            Ok(Some(joined))
        }
        _ => Err(anyhow!("no such row")),
    }
}

fn by_number(alloc: Global, call: &str, number: i128, side: &Bits) -> Result<Option<Bits>> {
    match call {
        "irregular_up" => Ok(irregular_up(alloc, number, side)?),
        "irregular_down" => Ok(irregular_down(alloc, number, side)?),
        "from_octets" => {
            let octets = side.to_octets(alloc)?;
            Ok(Bits::from_octets(alloc, octets.as_slice(), usize::try_from(number)?)?)
        }
        "push" => {
            let mut longer = side.copy(alloc)?;
            longer.push(number == 1)?;
            Ok(Some(longer))
        }
        _ => Err(anyhow!("no such row")),
    }
}

fn by_numbers(
    alloc: Global,
    call: &str,
    one: i128,
    other: i128,
    reference: Option<&Bits>,
    side: &Bits,
) -> Result<Option<Bits>> {
    match call {
        "slice" => Ok(side.slice(alloc, usize::try_from(one)?, usize::try_from(other)?)?),
        "uncompressed_value_up" => Ok(uncompressed_value_up(alloc, one, other, side)?),
        "uncompressed_value_down" => Ok(uncompressed_value_down(alloc, one, other, side)),
        "compressed_value_up" => Ok(compressed_value_up(alloc, one, other, side)),
        "compressed_value_down" => Ok(compressed_value_down(alloc, one, other, side)?),
        "lsb_up" => Ok(lsb_up(alloc, one, other, reference, side)?),
        "lsb_down" => Ok(lsb_down(alloc, one, other, reference, side)?),
        _ => Err(anyhow!("no such row")),
    }
}

/// `registers BITS`: the registers of three, seven and eight bits after whole octets.
pub(crate) fn registers(alloc: Global, out: &mut String, word: &str) -> Result<()> {
    let covered = bits(alloc, word)?;
    ensure!(covered.len() % 8 == 0, "no whole octets");
    let three = crc_of(3, 0x06, 0x07, &covered);
    let seven = crc_of(7, 0x79, 0x7f, &covered);
    let eight = crc_of(8, 0xe0, 0xff, &covered);
    Ok(write!(out, "{three:02x} {seven:02x} {eight:02x}")?)
}

/// `register TIMES BITS`: the register of eight bits after the octets, so many times over.
pub(crate) fn register(alloc: Global, out: &mut String, rest: &str) -> Result<()> {
    let (times, word) = parted(rest, " ")?;
    let covered = bits(alloc, word)?;
    ensure!(covered.len() % 8 == 0, "no whole octets");
    let mut register = 0xff;
    for _ in 0..count(times)? {
        register = crc_of(8, 0xe0, register, &covered);
    }
    Ok(write!(out, "{register:02x}")?)
}
