//! Whether a filling has the fields and the listing of a format, and lengths in its bounds.

ghost use Rattle.std.specs.Prelude.{◌≡◌, ◌↔◌, IsTrue, map, length};
ghost use Rattle.sem_filling.specs.Fillings.{sides_of, header, packed};
ghost use Rattle.sem_filling.specs.Fits.{IsShaped};
ghost use Rattle.sem_filling.specs.Bounded.{LiesBetween, SidesLie, LengthsLie};
ghost use Rattle.sem_filling.specs.Level.{FieldLies, FieldsLie};

use sem_bits::Bits;
use sem_context::path::are_same;
use sem_filling::{FilledField, Filling};
use sem_profile::{Bounds, Declared, Field, Format, FormatSizes, Sizes};

/// Whether the filling has the listing and the fields of the format.
#[inline(always)]
pub(crate) fn is_shaped(format: &Format, filling: &Filling) -> bool
    ensures { IsTrue result ↔ IsShaped format.now filling.now }
{
    filling.listing.get().as_slice() == format.listing.get().as_slice()
        && are_declared(format.fields.as_slice(), filling.fields.as_slice())
}

#[inline(always)]
fn are_declared(fields: &[Field], filled: &[FilledField]) -> bool
    ensures { IsTrue result ↔ (map (λ s. s.declared) (map sides_of filled.now) ≡ map (λ d. d.declared) fields.now) }
{
    if fields.len() != filled.len() {
        return false;
    }
    for i in 0..fields.len() {
        if !is_declared(&fields[i].declared, &filled[i].declared) {
            return false;
        }
    }
    true
}

#[inline(always)]
fn is_declared(declared: &Declared, filled: &Declared) -> bool
    ensures { IsTrue result ↔ (filled.now ≡ declared.now) }
{
    are_same(
        filled.name.as_str().as_bytes(),
        declared.name.as_str().as_bytes(),
    ) && filled.part == declared.part
        && filled.asked == declared.asked
}

/// Whether all lengths lie in the format's bounds.
#[inline(always)]
pub(crate) fn is_bounded(
    sizes: &FormatSizes,
    filling: &Filling,
    header_bits: &Bits,
    packed_bits: &Bits,
) -> bool
    requires header { header_bits.now ≡ header filling.now }
    requires packed { packed_bits.now ≡ packed filling.now }
    ensures { IsTrue result ↔ LengthsLie sizes.now filling.now }
{
    are_bounded(sizes.fields.as_slice(), filling.fields.as_slice())
        && sides_lie(sizes.whole, header_bits.len(), packed_bits.len())
}

#[inline(always)]
fn are_bounded(sizes: &[Sizes], filled: &[FilledField]) -> bool
    ensures { IsTrue result ↔ FieldsLie sizes.now filled.now }
{
    for i in 0..filled.len() {
        if !field_lies(sizes, i, &filled[i]) {
            return false;
        }
    }
    true
}

/// Whether the lengths of the field at the place lie in its bounds, if it has any.
#[inline(always)]
fn field_lies(sizes: &[Sizes], place: usize, filled: &FilledField) -> bool
    ensures { IsTrue result ↔ FieldLies sizes.now place (sides_of filled.now) }
{
    match sizes.get(place) {
        Some(bounds) => sides_lie(*bounds, filled.uncompressed.len(), filled.compressed.len()),
        None => true,
    }
}

#[inline(always)]
fn sides_lie(sizes: Sizes, uncompressed: usize, compressed: usize) -> bool
    ensures { IsTrue result ↔ SidesLie sizes uncompressed compressed }
{
    lies_between(sizes.uncompressed, uncompressed) && lies_between(sizes.compressed, compressed)
}

#[inline(always)]
fn lies_between(bounds: Bounds, length: usize) -> bool
    ensures { IsTrue result ↔ LiesBetween bounds length }
{
    bounds.least <= length as u128 && length as u128 <= bounds.most
}
