//! Whether a field without an encoding, or with a library method, fits.

ghost use Rattle.std.specs.Prelude.{◌≡◌, ◌≤◌, [], ◌↔◌, IsTrue, IfOk, Some, None, length};
ghost use Rattle.std.specs.Option.{option_copied};
ghost use Rattle.sem_context.specs.Entries.{bits_at};
ghost use Rattle.sem_expr.specs.Known.{assignment_of};
ghost use Rattle.sem_expr.specs.declared.expr.Subject.TheVariants as subject;
ghost use Rattle.sem_profile.specs.BoundsLaws.{library_exprs};
ghost use Rattle.sem_profile.specs.declared.profile.Field as normal;
ghost use Rattle.sem_profile.specs.declared.profile.Library.TheVariants as library;
ghost use Rattle.sem_filling.specs.Entries.{Path, below};
ghost use Rattle.sem_filling.specs.Fillings as spec;
ghost use Rattle.sem_filling.specs.Fillings.{sides_of, inner_of, listing_of};
ghost use Rattle.sem_filling.specs.Fits as fits;
ghost use Rattle.sem_filling.specs.Fits.{side_of, reference_of};
ghost use Rattle.sem_library.specs.Methods as lib;
ghost use Rattle.sem_library.specs.Methods.{Lib};
ghost use Rattle.sem_expr.specs.Spread.{IsRanged};
ghost use Rattle.sem_filling.specs.Coding.{HasSpelling, IsCarried};
ghost use Rattle.sem_filling.specs.Level.{AllRanged};
ghost use Rattle.sem_filling.specs.Ready.{IsShown, IsCoded};

use crate::level::Level;
use crate::numbers::{FillingNumbers, is_number, number_in};
use sem_bits::Bits;
use sem_expr::{Expr, Side, Subject};
use sem_filling::whole_sides::reference_below;
use sem_filling::{FilledField, Frame};
use sem_library::{crc_down, lsb_down};
use sem_profile::{CrcArguments, Field, Library};
use std::alloc::{AllocError, Global};

/// Whether a field without an encoding fits: it has at most 64 bits, and none is sent.
#[inline(always)]
pub(crate) fn is_bare(filled: &FilledField) -> bool
    ensures { IsTrue result ↔ ((length (sides_of filled.now).uncompressed ≤ 64) × ((sides_of filled.now).compressed ≡ []) × (inner_of filled.now ≡ None)) }
{
    filled.uncompressed.len() <= 64 && filled.compressed.is_empty() && filled.inner.is_none()
}

/// Whether the library method relates the two sides of the field.
#[inline(always)]
pub(crate) fn is_coded(
    alloc: Global,
    frame: &Frame<'_>,
    level: &Level<'_>,
    field: &Field,
    library: &Library,
    filled: &FilledField,
) -> Result<bool, AllocError>
    requires ranged { AllRanged level.now.known (library_exprs library.now) }
    requires shown { IsShown level.now.format.now level.now.filling.now level.now.header.now level.now.packed.now }
    ensures { IfOk result (λ b. IsTrue b ↔ IsCoded (bits_at frame.now.context.now) frame.now.path.now level.now.filling.now (assignment_of level.now.known) field.now library.now filled.now) }
{
    if filled.inner.is_some() {
        return Ok(false);
    }
    let (up, down) = (&filled.uncompressed, &filled.compressed);
    match library {
        Library::UncompressedValue { length, value } => {
            Ok(down.is_empty() && is_spelled(&level.known, length, value, up))
        }
        Library::CompressedValue { length, value } => {
            Ok(up.is_empty() && is_spelled(&level.known, length, value, down))
        }
        Library::Irregular { length } => Ok(is_carried(&level.known, length, up, down)),
        Library::Static => is_kept(alloc, frame, field, up, down),
        Library::Lsb { bits, offset } => {
            is_near(alloc, frame, level, field, bits, offset, filled)
        }
        Library::Crc(crc) => is_summed(alloc, level, crc.get(), filled),
    }
}

/// Whether the bits are as many as the one expression says, at most 64, and spell the value of the other.
#[inline(always)]
fn is_spelled(known: &FillingNumbers<'_>, length: &Expr, number: &Expr, bits: &Bits) -> bool
    requires length { IsRanged (assignment_of known.now) length.now }
    requires number { IsRanged (assignment_of known.now) number.now }
    ensures { IsTrue result ↔ HasSpelling (assignment_of known.now) length.now number.now bits.now }
{
    let Some(found) = bits.value() else {
        return false;
    };
    is_number(length, known, bits.len() as i128) && is_number(number, known, found as i128)
}

/// Whether both sides are the same bits, as many as the expression says, at most 64.
#[inline(always)]
fn is_carried(known: &FillingNumbers<'_>, length: &Expr, up: &Bits, down: &Bits) -> bool
    requires { IsRanged (assignment_of known.now) length.now }
    ensures { IsTrue result ↔ IsCarried (assignment_of known.now) length.now up.now down.now }
{
    up.len() <= 64 && is_number(length, known, up.len() as i128) && *up == *down
}

/// Whether the uncompressed side is the reference, at most 64 bits, and none is sent, as `static` says.
#[inline(never)]
fn is_kept(
    alloc: Global,
    frame: &Frame<'_>,
    field: &Field,
    up: &Bits,
    down: &Bits,
) -> Result<bool, AllocError>
    ensures { IfOk result (λ b. IsTrue b ↔ Lib lib.static (reference_of field.now.declared.part (bits_at frame.now.context.now) (below frame.now.path.now field.now.declared.name) field.now.initial) up.now down.now) }
{
    if up.len() > 64 || !down.is_empty() {
        return Ok(false);
    }
    let reference = reference_below(alloc, frame.context, frame.path, field)?;
    Ok(is_reference(reference, up))
}

/// Whether there is a reference and it is these bits.
fn is_reference(reference: Option<&Bits>, bits: &Bits) -> bool
    ensures { IsTrue result ↔ (option_copied reference.entry ≡ Some bits.now) }
{
    match reference {
        Some(kept) => *kept == *bits,
        None => false,
    }
}

/// Whether `lsb` with these arguments makes the packed side of the other one.
#[inline(never)]
fn is_near(
    alloc: Global,
    frame: &Frame<'_>,
    level: &Level<'_>,
    field: &Field,
    bits: &Expr,
    offset: &Expr,
    filled: &FilledField,
) -> Result<bool, AllocError>
    requires bits { IsRanged (assignment_of level.now.known) bits.now }
    requires offset { IsRanged (assignment_of level.now.known) offset.now }
    requires outer { inner_of filled.now ≡ None }
    ensures { IfOk result (λ b. IsTrue b ↔ IsCoded (bits_at frame.now.context.now) frame.now.path.now level.now.filling.now (assignment_of level.now.known) field.now (library.Lsb bits.now offset.now) filled.now) }
{
    let Some(bits) = number_in(bits, &level.known) else {
        return Ok(false);
    };
    let Some(offset) = number_in(offset, &level.known) else {
        return Ok(false);
    };
    let reference = reference_below(alloc, frame.context, frame.path, field)?;
    let low = lsb_down(alloc, bits, offset, reference, &filled.uncompressed)?;
    Ok(is_found(&low, &filled.compressed))
}

/// Whether `crc` with these arguments makes the packed side of the other one.
#[inline(never)]
fn is_summed(
    alloc: Global,
    level: &Level<'_>,
    crc: &CrcArguments,
    filled: &FilledField,
) -> Result<bool, AllocError>
    requires ranged { AllRanged level.now.known (library_exprs (library.Crc crc.now)) }
    requires shown { IsShown level.now.format.now level.now.filling.now level.now.header.now level.now.packed.now }
    requires outer { inner_of filled.now ≡ None }
    ensures { IfOk result (λ b. (ctx : fits.Context) (path : Path) (d : normal.Field) → IsTrue b ↔ IsCoded ctx path level.now.filling.now (assignment_of level.now.known) d (library.Crc crc.now) filled.now) }
{
    let Some(bits) = number_in(&crc.bits, &level.known) else {
        return Ok(false);
    };
    let Some(polynomial) = number_in(&crc.polynomial, &level.known) else {
        return Ok(false);
    };
    let Some(initial) = number_in(&crc.initial, &level.known) else {
        return Ok(false);
    };
    let Some(length) = number_in(&crc.length, &level.known) else {
        return Ok(false);
    };
    let empty = Bits::new(alloc);
    let covered = covered_by(level, crc, &empty);
    let up = &filled.uncompressed;
    let sum = crc_down(alloc, bits, polynomial, initial, covered, length, up)?;
    Ok(is_found(&sum, &filled.compressed))
}

/// Whether the found bits are there and are these.
fn is_found(found: &Option<Bits>, bits: &Bits) -> bool
    ensures { IsTrue result ↔ (found.now ≡ Some bits.now) }
{
    match found {
        Some(one) => is_same(one, bits),
        None => false,
    }
}

fn is_same(one: &Bits, other: &Bits) -> bool
    ensures { IsTrue result ↔ (one.now ≡ other.now) }
{
    *one == *other
}

/// The bits that a crc covers, those of its side.
fn covered_by<'a>(level: &'a Level<'_>, crc: &CrcArguments, empty: &'a Bits) -> &'a Bits
    requires empty { empty.now ≡ [] }
    requires shown { IsShown level.now.format.now level.now.filling.now level.now.header.now level.now.packed.now }
    ensures { result.now ≡ side_of (listing_of level.now.filling.now) (spec.level level.now.filling.now) crc.now.subject crc.now.side }
{
    match (crc.subject, crc.side) {
        (Subject::This, Side::Uncompressed) => level.header,
        (Subject::This, Side::Compressed) => level.packed,
        (Subject::Field(index), side) => side_at(level, index, side, empty),
    }
}

/// A side of the field at the index, no bits where there is no such field.
fn side_at<'a>(level: &'a Level<'_>, index: usize, side: Side, empty: &'a Bits) -> &'a Bits
    requires { empty.now ≡ [] }
    ensures { result.now ≡ side_of (listing_of level.now.filling.now) (spec.level level.now.filling.now) (subject.Field index) side }
{
    let Some(filled) = level.filling.fields.get(index) else {
        return empty;
    };
    match side {
        Side::Uncompressed => &filled.uncompressed,
        Side::Compressed => &filled.compressed,
    }
}
