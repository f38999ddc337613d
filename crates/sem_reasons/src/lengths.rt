//! The lengths of a format's fields on the side that is asked for.

ghost use Rattle.std.specs.Prelude.{◌≡◌, IfOk};
ghost use Rattle.std.specs.Option.{option_copied};
ghost use Rattle.sem_expr.specs.Bounds.{bounding_of};
ghost use Rattle.sem_reasons.specs.Settings.{setting_of};
ghost use Rattle.sem_reasons.specs.Told as spec;

use crate::across::pinned;
use crate::places::only_length;
use crate::question::Question;
use sem_bits::Bits;
use sem_expr::{Expr, Ranges, Side};
use sem_filling::whole_sides::reference_below;
use sem_profile::{Encoding, Field, FormatSizes, Library};
use sqlite_items::Items;
use std::alloc::{AllocError, Global};

/// The length of each field on the question's side, in bits, where it is known. The error is out of memory.
pub(crate) fn lengths(
    alloc: Global,
    question: &Question<'_>,
    fields: &[Field],
    sizes: &FormatSizes,
    base: &Ranges,
) -> Result<Items<Option<u128>>, AllocError>
    ensures { IfOk result (λ found. found ≡ spec.lengths_from (setting_of question.now) base.now sizes.now 0 fields.now) }
{
    let mut found = Items::new(alloc);
    for (index, field) in fields.iter().enumerate() {
        let length = length_at(alloc, question, sizes, base, index, field)?;
        found.push(length)?;
    }
    Ok(found)
}

/// The length of the field: by its bounds, else by its method.
fn length_at(
    alloc: Global,
    question: &Question<'_>,
    sizes: &FormatSizes,
    base: &Ranges,
    index: usize,
    field: &Field,
) -> Result<Option<u128>, AllocError>
    ensures { IfOk result (λ o. o ≡ spec.length_at (setting_of question.now) base.now sizes.now index field.now) }
{
    let only = only_length(sizes.fields.as_slice(), question.side, index);
    if only.is_some() {
        return Ok(only);
    }
    let reference = reference_below(alloc, question.context, question.path, field)?;
    Ok(told_length(field.encoding.get(), base, reference, question.side))
}

fn told_length(
    encoding: &Encoding,
    ranges: &Ranges,
    reference: Option<&Bits>,
    side: Side,
) -> Option<u128>
    ensures { result ≡ spec.told_length (bounding_of ranges.now) (option_copied reference.entry) encoding.now side }
{
    match encoding {
        Encoding::Library(library) => library_length(library, ranges, reference, side),
        Encoding::Bare | Encoding::Call { .. } => None,
    }
}

fn library_length(
    library: &Library,
    ranges: &Ranges,
    reference: Option<&Bits>,
    side: Side,
) -> Option<u128>
    ensures { result ≡ spec.library_length (bounding_of ranges.now) (option_copied reference.entry) library.now side }
{
    match (library, side) {
        (Library::UncompressedValue { length, .. }, Side::Uncompressed)
        | (Library::CompressedValue { length, .. }, Side::Compressed)
        | (Library::Irregular { length }, _) => pinned_length(length, ranges),
        (Library::Lsb { bits, .. }, Side::Compressed) => pinned_length(bits, ranges),
        (Library::Crc(crc), Side::Compressed) => pinned_length(&crc.get().bits, ranges),
        (Library::Static | Library::Lsb { .. }, Side::Uncompressed) => length_of(reference),
        _ => None,
    }
}

/// The one value that the expression can have, as a length.
fn pinned_length(expr: &Expr, ranges: &Ranges) -> Option<u128>
    ensures { result ≡ spec.as_length (spec.pinned (bounding_of ranges.now) expr.now) }
{
    as_length(pinned(expr, ranges))
}

fn as_length(value: Option<i128>) -> Option<u128>
    ensures { result ≡ spec.as_length value }
{
    match value {
        Some(value) => u128::try_from(value).ok(),
        None => None,
    }
}

/// How many bits there are.
fn length_of(bits: Option<&Bits>) -> Option<u128>
    ensures { result ≡ spec.bits_length (option_copied bits.entry) }
{
    match bits {
        Some(bits) => Some(bits.len() as u128),
        None => None,
    }
}
