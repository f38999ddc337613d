//! The bits that a format's listing tells.

ghost use Rattle.std.specs.Prelude.{◌≡◌, ℕ, ◌+◌, ◌^◌, ◌<◌, nat_eq, length, slice_get, option_and_then, IfOk, Some};
ghost use Rattle.std.specs.Option.{SomeIff};
ghost use Rattle.std.specs.HashMap.{get};
ghost use Rattle.sem_profile.specs.declared.profile.Encoding.TheVariants as encoding;
ghost use Rattle.cert_rules.specs.Trees as rules;
ghost use Rattle.cert_trees.specs.Tables as spec;

use sem_bits::Bits;
use sem_profile::constants::constant_of;
use sem_profile::{Bounds, Encoding, Field, Library, Sizes};
use sqlite_items::at;
use std::alloc::{AllocError, Global};
use std::collections::HashMap;

/// The packed bits that the listing tells, by their offsets.
pub(crate) fn known_bits(
    alloc: Global,
    fields: &[Field],
    sizes: &[Sizes],
    listing: &[usize],
) -> Result<HashMap<u128, bool>, AllocError>
    ensures { IfOk result (λ known. (o : ℕ) → o < 2 ^ 128 → get nat_eq known o ≡ rules.known_bit fields.now sizes.now listing.now o) }
{
    let mut known = HashMap::new(alloc);
    let mut offset = 0;
    for index in listing {
        let next = note_field(alloc, &mut known, offset, fields, sizes, *index)?;
        let Some(end) = next else {
            return Ok(known);
        };
        offset = end;
    }
    Ok(known)
}

/// Puts what the field at the index tells into the table. Gives the offset after the field, none where that isn't fixed or no offset is left.
fn note_field(
    alloc: Global,
    known: &mut HashMap<u128, bool>,
    offset: u128,
    fields: &[Field],
    sizes: &[Sizes],
    index: usize,
) -> Result<Option<u128>, AllocError>
    ensures { IfOk result (λ end. (rest whole : spec.Table) →
        spec.TellsTo (get nat_eq known.old) offset (rules.after_field (option_and_then (λ d. rules.literal d.encoding) (slice_get fields.now index)) (option_and_then (λ b. rules.fixed b.compressed) (slice_get sizes.now index)) rest) whole →
        spec.TellsOn end (get nat_eq known.new) rest whole) }
{
    let literal = literal_at(alloc, fields, index)?;
    if let Some(bits) = literal {
        note_bits(known, offset, &bits)?;
        return Ok(moved(offset, bits.len() as u128));
    }
    match fixed_at(sizes, index) {
        Some(width) => Ok(moved(offset, width)),
        None => Ok(None),
    }
}

/// The offset so many bits on, if it is one.
fn moved(offset: u128, by: u128) -> Option<u128>
    ensures { SomeIff result (offset + by < 2 ^ 128) (offset + by) }
{
    offset.checked_add(by)
}

/// Puts the bits into the table, from the offset on.
fn note_bits(known: &mut HashMap<u128, bool>, offset: u128, bits: &Bits) -> Result<(), AllocError>
    ensures { IfOk result (λ u. spec.HasBits (get nat_eq known.old) (get nat_eq known.new) offset bits.now (length bits.now)) }
{
    for index in 0..bits.len() {
        let Some(place) = moved(offset, index as u128) else {
            return Ok(());
        };
        if let Some(bit) = bits.get(index) {
            known.insert(place, bit)?;
        }
    }
    Ok(())
}

/// The packed bits of the field at the index, where constants give them.
fn literal_at(alloc: Global, fields: &[Field], index: usize) -> Result<Option<Bits>, AllocError>
    ensures { IfOk result (λ o. o ≡ option_and_then (λ d. rules.literal d.encoding) (slice_get fields.now index)) }
{
    let Some(field) = at(fields, index) else {
        return Ok(None);
    };
    match field.encoding.get() {
        Encoding::Library(library) => literal(alloc, library),
        Encoding::Bare => Ok(None),
        Encoding::Call { .. } => Ok(None),
    }
}

fn literal(alloc: Global, library: &Library) -> Result<Option<Bits>, AllocError>
    ensures { IfOk result (λ o. o ≡ rules.literal (encoding.Library library.now)) }
{
    match library {
        Library::CompressedValue { length, value } => spelled(
            alloc,
            constant_of(alloc, length),
            constant_of(alloc, value),
        ),
        Library::UncompressedValue { .. } => Ok(None),
        Library::Irregular { .. } => Ok(None),
        Library::Static => Ok(None),
        Library::Lsb { .. } => Ok(None),
        Library::Crc(_) => Ok(None),
    }
}

/// The bits of that length and number, at most 64, where both are there and fit.
fn spelled(
    alloc: Global,
    length: Option<i128>,
    value: Option<i128>,
) -> Result<Option<Bits>, AllocError>
    ensures { IfOk result (λ o. o ≡ rules.spelled length value) }
{
    let Some(length) = length else {
        return Ok(None);
    };
    let Some(value) = value else {
        return Ok(None);
    };
    spelled_by(alloc, length, value)
}

fn spelled_by(alloc: Global, length: i128, value: i128) -> Result<Option<Bits>, AllocError>
    ensures { IfOk result (λ o. o ≡ rules.spelled (Some length) (Some value)) }
{
    let Ok(count) = usize::try_from(length) else {
        return Ok(None);
    };
    let Ok(number) = u64::try_from(value) else {
        return Ok(None);
    };
    Bits::from_value(alloc, count, number)
}

/// The length of the packed bits of the field at the index, where its least is its greatest.
fn fixed_at(sizes: &[Sizes], index: usize) -> Option<u128>
    ensures { result ≡ option_and_then (λ b. rules.fixed b.compressed) (slice_get sizes.now index) }
{
    let bounds = at(sizes, index)?;
    fixed(bounds.compressed)
}

fn fixed(bounds: Bounds) -> Option<u128>
    ensures { result ≡ rules.fixed bounds }
{
    (bounds.least == bounds.most).then_some(bounds.least)
}
