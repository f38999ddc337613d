//! The columns of a format.

ghost use Rattle.std.specs.Prelude.{◌≡◌, Some, IfOk};
ghost use Rattle.std.specs.Option.{option_copied};
ghost use Rattle.sem_filling.specs.Bounded as bounded;
ghost use Rattle.sem_filling.specs.Fits as fits;
ghost use Rattle.sem_lint.specs.Columns as spec;

use sem_profile::constants::constant_of;
use sem_profile::{Bounds, Encoding, Field, Format, FormatSizes, Library, Profile, Sizes};
use sqlite_items::{Items, at};
use std::alloc::{AllocError, Global};

/// A listed field of a format: where its packed bits begin, how many they are, and their number where the format gives a constant that so many bits can spell.
#[derive(Clone, Copy)]
pub struct Column {
    pub field: usize,
    pub offset: Bounds,
    pub width: Bounds,
    pub constant: Option<i128>,
}

const NO_BITS: Bounds = Bounds { least: 0, most: 0 };

/// The columns of a format of a method, both by their indices: one for each listed field, in the order of the listing. The error is out of memory.
pub fn columns_at(
    alloc: Global,
    profile: &Profile,
    method: usize,
    format: usize,
) -> Result<Items<Column>, AllocError>
    ensures { IfOk result (λ found. found ≡ spec.columns_at profile.now method format) }
{
    let Some(found) = format_at(profile, method, format) else {
        return Ok(Items::new(alloc));
    };
    let Some(sizes) = sizes_at(profile, method, format) else {
        return Ok(Items::new(alloc));
    };
    columns_of(alloc, found, sizes.fields.as_slice())
}

fn format_at(profile: &Profile, method: usize, format: usize) -> Option<&Format>
    ensures { option_copied result ≡ fits.format_at profile.now.methods method format }
{
    profile.methods().get(method)?.formats.get(format)
}

fn sizes_at(profile: &Profile, method: usize, format: usize) -> Option<&FormatSizes>
    ensures { option_copied result ≡ bounded.sizes_at profile.now.sizes method format }
{
    profile.sizes().get(method)?.formats.get(format)
}

/// The columns of a format by the bounds of its fields.
fn columns_of(alloc: Global, format: &Format, sizes: &[Sizes]) -> Result<Items<Column>, AllocError>
    ensures { IfOk result (λ found. found ≡ spec.columns_of format.now sizes.now) }
{
    let fields = format.fields.as_slice();
    let mut found = Items::new(alloc);
    let mut offset = NO_BITS;
    for listed in format.listing.get().as_slice() {
        let column = column_of(alloc, fields, sizes, offset, *listed);
        offset = further(offset, column.width);
        found.push(column)?;
    }
    Ok(found)
}

/// The column of a field that begins there.
fn column_of(
    alloc: Global,
    fields: &[Field],
    sizes: &[Sizes],
    offset: Bounds,
    field: usize,
) -> Column
    ensures { result ≡ spec.column_of fields.now sizes.now offset field }
{
    Column {
        field,
        offset,
        width: width(sizes, field),
        constant: constant_at(alloc, fields, field),
    }
}

/// The bounds of a field's packed bits.
fn width(sizes: &[Sizes], field: usize) -> Bounds
    ensures { result ≡ spec.width sizes.now field }
{
    match sizes.get(field) {
        Some(sizes) => sizes.compressed,
        None => NO_BITS,
    }
}

/// Where the bits begin that follow bits of this width.
fn further(offset: Bounds, width: Bounds) -> Bounds
    ensures { result ≡ spec.further offset width }
{
    Bounds {
        least: offset.least.saturating_add(width.least),
        most: offset.most.saturating_add(width.most),
    }
}

/// The number of a field whose packed bits are one constant.
fn constant_at(alloc: Global, fields: &[Field], field: usize) -> Option<i128>
    ensures { result ≡ spec.constant_at fields.now field }
{
    match at(fields, field) {
        Some(field) => packed_constant(alloc, field.encoding.get()),
        None => None,
    }
}

fn packed_constant(alloc: Global, encoding: &Encoding) -> Option<i128>
    ensures { result ≡ spec.packed_constant encoding.now }
{
    match encoding {
        Encoding::Library(Library::CompressedValue { length, value }) => {
            fitting(constant_of(alloc, length), constant_of(alloc, value))
        }
        _ => None,
    }
}

/// The number, where so many bits can spell it. None, where either is none.
fn fitting(length: Option<i128>, number: Option<i128>) -> Option<i128>
    ensures { result ≡ spec.fitting length number }
{
    let Some(length) = length else {
        return None;
    };
    let Some(number) = number else {
        return None;
    };
    fitting_in(length, number)
}

fn fitting_in(length: i128, number: i128) -> Option<i128>
    ensures { result ≡ spec.fitting (Some length) (Some number) }
{
    if length < 0 || 64 < length || number < 0 {
        return None;
    }
    if number < 1_i128 << length {
        Some(number)
    } else {
        None
    }
}
