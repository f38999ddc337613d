//! From one side of a field to the other, by a library method of which each argument has one value.

ghost use Rattle.std.specs.Prelude.{◌≡◌, IfOk};
ghost use Rattle.std.specs.Option.{option_copied};
ghost use Rattle.sem_expr.specs.Bounds.{bounding_of};
ghost use Rattle.sem_library.specs.Methods.{IsOnly};
ghost use Rattle.sem_reasons.specs.Across as spec;
ghost use Rattle.sem_reasons.specs.Told as told;

use sem_bits::Bits;
use sem_expr::{Expr, Ranges, Side, range};
use sem_library::{
    compressed_value_down, compressed_value_up, crc_down, crc_up, irregular_down, irregular_up,
    lsb_down, lsb_up, static_down, static_up, uncompressed_value_down, uncompressed_value_up,
};
use sem_profile::{CrcArguments, Library};
use std::alloc::{AllocError, Global};

/// A library method with the values of its arguments. Of a `crc` the covered bits are missing.
#[derive(Clone, Copy)]
pub(crate) enum Valued {
    UncompressedValue {
        length: i128,
        value: i128,
    },
    CompressedValue {
        length: i128,
        value: i128,
    },
    Irregular {
        length: i128,
    },
    Static,
    Lsb {
        bits: i128,
        offset: i128,
    },
    Crc {
        bits: i128,
        polynomial: i128,
        initial: i128,
        length: i128,
    },
}

/// The library method with the values of its arguments, where each can have one value alone by the ranges.
pub(crate) fn with_values(library: &Library, ranges: &Ranges) -> Option<Valued>
    ensures { result ≡ spec.with_values (bounding_of ranges.now) library.now }
{
    match library {
        Library::UncompressedValue { length, value } => {
            let length = pinned(length, ranges)?;
            let value = pinned(value, ranges)?;
            Some(Valued::UncompressedValue { length, value })
        }
        Library::CompressedValue { length, value } => {
            let length = pinned(length, ranges)?;
            let value = pinned(value, ranges)?;
            Some(Valued::CompressedValue { length, value })
        }
        Library::Irregular { length } => {
            let length = pinned(length, ranges)?;
            Some(Valued::Irregular { length })
        }
        Library::Static => Some(Valued::Static),
        Library::Lsb { bits, offset } => {
            let bits = pinned(bits, ranges)?;
            let offset = pinned(offset, ranges)?;
            Some(Valued::Lsb { bits, offset })
        }
        Library::Crc(crc) => crc_with_values(crc.get(), ranges),
    }
}

fn crc_with_values(crc: &CrcArguments, ranges: &Ranges) -> Option<Valued>
    ensures { result ≡ spec.crc_with_values (bounding_of ranges.now) crc.now }
{
    let bits = pinned(&crc.bits, ranges)?;
    let polynomial = pinned(&crc.polynomial, ranges)?;
    let initial = pinned(&crc.initial, ranges)?;
    let length = pinned(&crc.length, ranges)?;
    Some(Valued::Crc {
        bits,
        polynomial,
        initial,
        length,
    })
}

/// The one value that the expression can have, by its range.
pub(crate) fn pinned(expr: &Expr, ranges: &Ranges) -> Option<i128>
    ensures { result ≡ told.pinned (bounding_of ranges.now) expr.now }
{
    match range(expr, ranges) {
        Ok(interval) => {
            if interval.from == interval.to {
                Some(interval.from)
            } else {
                None
            }
        }
        Err(_) => None,
    }
}

/// The only bits that the method relates to these on the other side, where there are such. The error is out of memory.
pub(crate) fn other_side(
    alloc: Global,
    method: Valued,
    covered: &Bits,
    reference: Option<&Bits>,
    side: Side,
    own: &Bits,
) -> Result<Option<Bits>, AllocError>
    ensures { IfOk result (IsOnly (told.Related (spec.method_of method covered.now) (option_copied reference.entry) side own.now)) }
{
    match side {
        Side::Uncompressed => packed_side(alloc, method, covered, reference, own),
        Side::Compressed => header_side(alloc, method, covered, reference, own),
    }
}

/// The compressed side, by the uncompressed one.
fn packed_side(
    alloc: Global,
    method: Valued,
    covered: &Bits,
    reference: Option<&Bits>,
    own: &Bits,
) -> Result<Option<Bits>, AllocError>
    ensures { IfOk result (IsOnly (told.Related (spec.method_of method covered.now) (option_copied reference.entry) Side.Uncompressed own.now)) }
{
    match method {
        Valued::UncompressedValue { length, value } => {
            Ok(uncompressed_value_down(alloc, length, value, own))
        }
        Valued::CompressedValue { length, value } => {
            compressed_value_down(alloc, length, value, own)
        }
        Valued::Irregular { length } => irregular_down(alloc, length, own),
        Valued::Static => Ok(static_down(alloc, reference, own)),
        Valued::Lsb { bits, offset } => lsb_down(alloc, bits, offset, reference, own),
        Valued::Crc {
            bits,
            polynomial,
            initial,
            length,
        } => crc_down(alloc, bits, polynomial, initial, covered, length, own),
    }
}

/// The uncompressed side, by the compressed one.
fn header_side(
    alloc: Global,
    method: Valued,
    covered: &Bits,
    reference: Option<&Bits>,
    own: &Bits,
) -> Result<Option<Bits>, AllocError>
    ensures { IfOk result (IsOnly (told.Related (spec.method_of method covered.now) (option_copied reference.entry) Side.Compressed own.now)) }
{
    match method {
        Valued::UncompressedValue { length, value } => {
            uncompressed_value_up(alloc, length, value, own)
        }
        Valued::CompressedValue { length, value } => {
            Ok(compressed_value_up(alloc, length, value, own))
        }
        Valued::Irregular { length } => irregular_up(alloc, length, own),
        Valued::Static => static_up(alloc, reference, own),
        Valued::Lsb { bits, offset } => lsb_up(alloc, bits, offset, reference, own),
        Valued::Crc {
            bits,
            polynomial,
            initial,
            length,
        } => Ok(crc_up(alloc, bits, polynomial, initial, covered, length, own)),
    }
}
