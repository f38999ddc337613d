//! Where the sides of fields stand in the bits that they are joined to.

ghost use Rattle.std.specs.Prelude.{◌≡◌, IfOk, MatchOption, Some, length};
ghost use Rattle.sem_filling.specs.Fillings as fillings;
ghost use Rattle.sem_reasons.specs.Places as spec;

use sem_bits::Bits;
use sem_expr::Side;
use sem_profile::{Bounds, Field, Format, Part, Sizes};
use sqlite_items::{Items, at};
use std::alloc::{AllocError, Global};

/// The fields whose sides are joined to that side of the whole, in order. The error is out of memory.
pub(crate) fn order_of(
    alloc: Global,
    format: &Format,
    side: Side,
) -> Result<Items<usize>, AllocError>
    ensures { IfOk result (λ order. order ≡ spec.order_of format.now side) }
{
    match side {
        Side::Uncompressed => header_order(alloc, format.fields.as_slice()),
        Side::Compressed => Items::from_slice(alloc, format.listing.get().as_slice()),
    }
}

fn header_order(alloc: Global, fields: &[Field]) -> Result<Items<usize>, AllocError>
    ensures { IfOk result (λ order. order ≡ spec.header_order 0 fields.now) }
{
    let mut found = Items::new(alloc);
    for (index, field) in fields.iter().enumerate() {
        if is_header(field) {
            found.push(index)?;
        }
    }
    Ok(found)
}

fn is_header(field: &Field) -> bool
    ensures { result ≡ fillings.is_header field.now.declared.part }
{
    match field.declared.part {
        Part::Header => true,
        Part::Control | Part::Local => false,
    }
}

/// The bits of the field, where those before it have each one length. The error is out of memory.
pub(crate) fn held(
    alloc: Global,
    order: &[usize],
    lengths: &[Option<u128>],
    bits: &Bits,
    field: usize,
) -> Result<Option<Bits>, AllocError>
    ensures { IfOk result (λ o. o ≡ spec.held order.now (spec.length_in lengths.now) bits.now field) }
{
    let many = bits.len();
    let Some(offset) = begin_of(order, lengths, field) else {
        return Ok(None);
    };
    let Some(count) = length_in(lengths, field) else {
        return Ok(None);
    };
    cut(alloc, bits, many, offset, count)
}

/// So many of the bits, from the offset on. None where there are fewer. The error is out of memory.
fn cut(
    alloc: Global,
    bits: &Bits,
    many: usize,
    offset: usize,
    count: u128,
) -> Result<Option<Bits>, AllocError>
    requires { many ≡ length bits.now }
    ensures { IfOk result (λ o. o ≡ spec.cut_of bits.now offset count) }
{
    let left = many.saturating_sub(offset);
    if count > left as u128 || offset > many {
        return Ok(None);
    }
    let end = offset + count as usize;
    bits.slice(alloc, offset, end)
}

/// After how many bits the field begins, where those before it have each one length. None also where these are more than can be counted.
pub(crate) fn begin_of(order: &[usize], lengths: &[Option<u128>], field: usize) -> Option<usize>
    ensures { MatchOption result (spec.IsFar (spec.begin_of (spec.length_in lengths.now) field order.now)) (spec.BeginsAt order.now (spec.length_in lengths.now) field) }
{
    let mut offset = 0;
    for next in order {
        if *next == field {
            return Some(offset);
        }
        let Some(after) = next_offset(lengths, *next, offset) else {
            return None;
        };
        offset = after;
    }
    None
}

/// After how many bits the field behind this one begins, which begins after so many.
fn next_offset(lengths: &[Option<u128>], field: usize, offset: usize) -> Option<usize>
    ensures { MatchOption result (spec.IsFar (spec.behind offset (spec.length_in lengths.now field))) (λ next. spec.behind offset (spec.length_in lengths.now field) ≡ Some next) }
{
    let Some(only) = length_in(lengths, field) else {
        return None;
    };
    let Ok(count) = usize::try_from(only) else {
        return None;
    };
    offset.checked_add(count)
}

/// The length of the field, in bits, where it is known.
pub(crate) fn length_in(lengths: &[Option<u128>], field: usize) -> Option<u128>
    ensures { result ≡ spec.length_in lengths.now field }
{
    match at(lengths, field) {
        Some(length) => *length,
        None => None,
    }
}

/// The only length of a side of the field by its bounds, in bits.
pub(crate) fn only_length(sizes: &[Sizes], side: Side, field: usize) -> Option<u128>
    ensures { result ≡ spec.only_length sizes.now side field }
{
    match at(sizes, field) {
        Some(bounds) => only_within(bounds_of(*bounds, side)),
        None => None,
    }
}

fn bounds_of(sizes: Sizes, side: Side) -> Bounds
    ensures { result ≡ spec.side_bounds side sizes }
{
    match side {
        Side::Uncompressed => sizes.uncompressed,
        Side::Compressed => sizes.compressed,
    }
}

fn only_within(bounds: Bounds) -> Option<u128>
    ensures { result ≡ spec.only_within bounds }
{
    if bounds.least == bounds.most {
        Some(bounds.least)
    } else {
        None
    }
}
