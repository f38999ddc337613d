//! Both sides of a field by its library method, read from what is seen and from the packed bits.

ghost use Rattle.std.specs.Prelude.{◌≡◌, ◌≤◌, [], pos, IsTrue, IfOk, IfSome, Some, length};
ghost use Rattle.sem_context.specs.Entries.{bits_at};
ghost use Rattle.sem_expr.specs.Values.{val};
ghost use Rattle.sem_filling.specs.Entries.{Path, below};
ghost use Rattle.sem_filling.specs.Coding.{HasSpelling};
ghost use Rattle.sem_filling.specs.Fits as fits;
ghost use Rattle.sem_filling.specs.Fits.{reference_of};
ghost use Rattle.sem_library.specs.Methods as lib;
ghost use Rattle.sem_library.specs.Methods.{Lib};
ghost use Rattle.sem_profile.specs.declared.profile.Field as normal;
ghost use Rattle.sem_profile.specs.declared.profile.Library.TheVariants as library;
ghost use Rattle.sem_pages.specs.Pages as spec;

use crate::expressions::value;
use crate::frame::PageFrame;
use crate::page::BothSides;
use crate::view::View;
use crate::word::Word;
use sem_bits::{Bits, Cursor};
use sem_expr::{Expr, Subject};
use sem_filling::whole_sides::reference_near;
use sem_library::{crc_down, lsb_down, lsb_up};
use sem_profile::{CrcArguments, Encoding, Field, Library};
use std::alloc::{AllocError, Global};

/// Packed bits: those so many places after the cursor's.
#[derive(Clone, Copy)]
pub struct Source<'a, 'b> {
    pub cursor: &'a Cursor<'b>,
    pub ahead: usize,
}

impl<'a, 'b> Source<'a, 'b> {
    /// So many bits that come next.
    #[inline(always)]
    pub fn word(&self, count: usize) -> Option<Word>
        ensures { IfSome result (λ w. (length w ≡ count) × (length w ≤ 64)) }
    {
        let number = self.cursor.peek(self.ahead, count)?;
        Word::spelled(count, number)
    }
}

/// Both sides of a field that a library method encodes; its packed bits, if it has some, are the next ones. None where that isn't told, and of a checksum. Its
/// entry may stand at that place of the context.
#[inline(always)]
pub fn coded(
    alloc: Global,
    frame: &PageFrame<'_>,
    view: &View<'_>,
    field: &Field,
    place: usize,
    source: &Source<'_, '_>,
) -> Result<Option<BothSides>, AllocError>
    ensures { IfOk result (λ o. IfSome o (λ b. spec.ReadsAs frame.now.methods.now (bits_at frame.now.context.now) frame.now.path.now view.now field.now b.uncompressed b.compressed)) }
{
    match field.encoding.get() {
        Encoding::Library(library) => {
            coded_by(alloc, frame, view, field, place, library, source)
        }
        Encoding::Bare | Encoding::Call { .. } => Ok(None),
    }
}

/// The same by its library method.
#[inline(always)]
fn coded_by(
    alloc: Global,
    frame: &PageFrame<'_>,
    view: &View<'_>,
    field: &Field,
    place: usize,
    library: &Library,
    source: &Source<'_, '_>,
) -> Result<Option<BothSides>, AllocError>
    ensures { IfOk result (λ o. IfSome o (λ b. spec.IsCodedOn (bits_at frame.now.context.now) frame.now.path.now view.now field.now library.now b.uncompressed b.compressed)) }
{
    match library {
        Library::UncompressedValue { length, value } => Ok(constant_up(view, length, value)),
        Library::CompressedValue { length, value } => Ok(constant_down(view, length, value)),
        Library::Irregular { length } => Ok(carried(view, length, source)),
        Library::Static => kept(alloc, frame, field, place),
        Library::Lsb { bits, offset } => {
            let Some(arguments) = lsb_arguments(view, bits, offset) else {
                return Ok(None);
            };
            raised(alloc, frame, field, place, arguments, source)
        }
        Library::Crc(_) => Ok(None),
    }
}

/// The packed side that a field with that uncompressed side has by its encoding. None where that isn't told, and of a field that calls a method. Its entry may
/// stand at that place of the context.
#[inline(always)]
pub fn encoded(
    alloc: Global,
    frame: &PageFrame<'_>,
    view: &View<'_>,
    field: &Field,
    place: usize,
    up: Word,
) -> Result<Option<Word>, AllocError>
    ensures { IfOk result (λ o. IfSome o (λ down. spec.ReadsAs frame.now.methods.now (bits_at frame.now.context.now) frame.now.path.now view.now field.now up down)) }
{
    match field.encoding.get() {
        Encoding::Bare => Ok(Some(Word::new())),
        Encoding::Library(library) => { encoded_by(alloc, frame, view, field, place, library, up) }
        Encoding::Call { .. } => Ok(None),
    }
}

/// The same by its library method.
#[inline(always)]
fn encoded_by(
    alloc: Global,
    frame: &PageFrame<'_>,
    view: &View<'_>,
    field: &Field,
    place: usize,
    library: &Library,
    up: Word,
) -> Result<Option<Word>, AllocError>
    ensures { IfOk result (λ o. IfSome o (λ down. spec.IsCodedOn (bits_at frame.now.context.now) frame.now.path.now view.now field.now library.now up down)) }
{
    match library {
        Library::UncompressedValue { length, value } => Ok(down_of(
            constant_up(view, length, value),
            &up,
        )),
        Library::CompressedValue { length, value } => Ok(down_of(
            constant_down(view, length, value),
            &up,
        )),
        Library::Irregular { length } => Ok(carried_down(view, length, up)),
        Library::Static => kept_down(alloc, frame, field, place, &up),
        Library::Lsb { bits, offset } => {
            let Some(arguments) = lsb_arguments(view, bits, offset) else {
                return Ok(None);
            };
            lowered(alloc, frame, field, place, arguments, up)
        }
        Library::Crc(_) => Ok(None),
    }
}

/// The packed one of both sides, where that is the uncompressed one.
#[inline(always)]
fn down_of(found: Option<BothSides>, up: &Word) -> Option<Word>
    ensures { IfSome result (λ down. found ≡ Some record { uncompressed = up.now; compressed = down }) }
{
    let both = found?;
    if both.uncompressed.is(up) {
        Some(both.compressed)
    } else {
        None
    }
}

/// No bits, where the reference is this.
#[inline(always)]
fn kept_down(
    alloc: Global,
    frame: &PageFrame<'_>,
    field: &Field,
    place: usize,
    up: &Word,
) -> Result<Option<Word>, AllocError>
    ensures { IfOk result (λ o. IfSome o (λ down. (v : spec.Seen) → spec.IsCodedOn (bits_at frame.now.context.now) frame.now.path.now v field.now library.Static up.now down)) }
{
    let found = kept(alloc, frame, field, place)?;
    Ok(down_of(found, up))
}

/// The same bits, where they are as many as the expression says.
#[inline(always)]
fn carried_down(view: &View<'_>, length: &Expr, up: Word) -> Option<Word>
    ensures { IfSome result (λ down. (ctx : fits.Context) (path : Path) (d : normal.Field) → spec.IsCodedOn ctx path view.now d (library.Irregular length.now) up down) }
{
    if natural(length, view)? != up.len() as u64 {
        return None;
    }
    Some(up)
}

/// What `lsb` makes of these bits by the reference.
#[inline(never)]
fn lowered(
    alloc: Global,
    frame: &PageFrame<'_>,
    field: &Field,
    place: usize,
    arguments: LsbArguments,
    up: Word,
) -> Result<Option<Word>, AllocError>
    ensures { IfOk result (λ o. IfSome o (λ down. Lib (lib.lsb arguments.bits arguments.offset) (reference_of field.now.declared.part (bits_at frame.now.context.now) (below frame.now.path.now field.now.declared.name) field.now.initial) up down)) }
{
    let reference = reference_near(alloc, frame.context, frame.path, field, place)?;
    let (bits, offset) = (wide(arguments.bits), wide(arguments.offset));
    let Some(down) = lsb_down(alloc, bits, offset, reference, &up.to_bits(alloc)?)? else {
        return Ok(None);
    };
    Ok(Word::of(&down))
}

/// Bits that aren't sent.
#[inline(always)]
fn constant_up(view: &View<'_>, length: &Expr, value: &Expr) -> Option<BothSides>
    ensures { IfSome result (λ b. (ctx : fits.Context) (path : Path) (d : normal.Field) → spec.IsCodedOn ctx path view.now d (library.UncompressedValue length.now value.now) b.uncompressed b.compressed) }
{
    Some(BothSides {
        uncompressed: spelled(view, length, value)?,
        compressed: Word::new(),
    })
}

/// Bits that are in no header.
#[inline(always)]
fn constant_down(view: &View<'_>, length: &Expr, value: &Expr) -> Option<BothSides>
    ensures { IfSome result (λ b. (ctx : fits.Context) (path : Path) (d : normal.Field) → spec.IsCodedOn ctx path view.now d (library.CompressedValue length.now value.now) b.uncompressed b.compressed) }
{
    Some(BothSides {
        uncompressed: Word::new(),
        compressed: spelled(view, length, value)?,
    })
}

/// The bits that are as many as the one expression says, at most 64, and spell the value of the other.
#[inline(always)]
fn spelled(view: &View<'_>, length: &Expr, number: &Expr) -> Option<Word>
    ensures { IfSome result (λ w. HasSpelling (spec.numbers_seen view.now) length.now number.now w) }
{
    let count = natural(length, view)?;
    let number = natural(number, view)?;
    Word::spelled(usize::try_from(count).ok()?, number)
}

/// The value of an expression, where it isn't below 0.
#[inline(always)]
pub fn natural(expr: &Expr, view: &View<'_>) -> Option<u64>
    ensures { IfSome result (λ n. val (spec.numbers_seen view.now) expr.now ≡ Some (pos n)) }
{
    u64::try_from(value(expr, view)?).ok()
}

/// Bits that are sent as they are, as many as the expression says.
#[inline(always)]
fn carried(view: &View<'_>, length: &Expr, source: &Source<'_, '_>) -> Option<BothSides>
    ensures { IfSome result (λ b. (ctx : fits.Context) (path : Path) (d : normal.Field) → spec.IsCodedOn ctx path view.now d (library.Irregular length.now) b.uncompressed b.compressed) }
{
    let count = natural(length, view)?;
    let word = source.word(usize::try_from(count).ok()?)?;
    Some(BothSides {
        uncompressed: word,
        compressed: word,
    })
}

/// The reference, if it has at most 64 bits.
#[inline(always)]
fn kept(
    alloc: Global,
    frame: &PageFrame<'_>,
    field: &Field,
    place: usize,
) -> Result<Option<BothSides>, AllocError>
    ensures { IfOk result (λ o. IfSome o (λ b. (v : spec.Seen) → spec.IsCodedOn (bits_at frame.now.context.now) frame.now.path.now v field.now library.Static b.uncompressed b.compressed)) }
{
    let Some(reference) = reference_near(alloc, frame.context, frame.path, field, place)? else {
        return Ok(None);
    };
    let Some(uncompressed) = Word::of(reference) else {
        return Ok(None);
    };
    Ok(Some(BothSides {
        uncompressed,
        compressed: Word::new(),
    }))
}

/// The values of the arguments of `lsb`.
#[derive(Clone, Copy)]
struct LsbArguments {
    bits: i64,
    offset: i64,
}

#[inline(always)]
fn lsb_arguments(view: &View<'_>, bits: &Expr, offset: &Expr) -> Option<LsbArguments>
    ensures { IfSome result (λ a. (val (spec.numbers_seen view.now) bits.now ≡ Some a.bits) × (val (spec.numbers_seen view.now) offset.now ≡ Some a.offset)) }
{
    Some(LsbArguments {
        bits: value(bits, view)?,
        offset: value(offset, view)?,
    })
}

/// What `lsb` makes of the packed bits and the reference.
#[inline(never)]
fn raised(
    alloc: Global,
    frame: &PageFrame<'_>,
    field: &Field,
    place: usize,
    arguments: LsbArguments,
    source: &Source<'_, '_>,
) -> Result<Option<BothSides>, AllocError>
    ensures { IfOk result (λ o. IfSome o (λ b. Lib (lib.lsb arguments.bits arguments.offset) (reference_of field.now.declared.part (bits_at frame.now.context.now) (below frame.now.path.now field.now.declared.name) field.now.initial) b.uncompressed b.compressed)) }
{
    let Ok(count) = usize::try_from(arguments.bits) else {
        return Ok(None);
    };
    let Some(compressed) = source.word(count) else {
        return Ok(None);
    };
    let packed = compressed.to_bits(alloc)?;
    let reference = reference_near(alloc, frame.context, frame.path, field, place)?;
    let (bits, offset) = (wide(arguments.bits), wide(arguments.offset));
    let Some(up) = lsb_up(alloc, bits, offset, reference, &packed)? else {
        return Ok(None);
    };
    let Some(uncompressed) = Word::of(&up) else {
        return Ok(None);
    };
    Ok(Some(BothSides {
        uncompressed,
        compressed,
    }))
}

/// The same number.
#[inline(always)]
fn wide(number: i64) -> i128
    ensures { result ≡ number }
{
    number as i128
}

/// The packed side that `crc` with these arguments makes of no bits.
#[inline(never)]
pub fn summed(
    alloc: Global,
    view: &View<'_>,
    crc: &CrcArguments,
) -> Result<Option<Word>, AllocError>
    ensures { IfOk result (λ o. IfSome o (λ w. (ctx : fits.Context) (path : Path) (d : normal.Field) → spec.IsCodedOn ctx path view.now d (library.Crc crc.now) [] w)) }
{
    match crc.subject {
        Subject::This => match view.whole_side(crc.side) {
            Some(covered) => sum_of(alloc, view, crc, covered),
            None => Ok(None),
        },
        Subject::Field(index) => match view.word(index, crc.side) {
            Some(word) => {
                let covered = word.to_bits(alloc)?;
                sum_of(alloc, view, crc, &covered)
            }
            None => Ok(None),
        },
    }
}

/// The same where it covers these bits.
#[inline(always)]
fn sum_of(
    alloc: Global,
    view: &View<'_>,
    crc: &CrcArguments,
    covered: &Bits,
) -> Result<Option<Word>, AllocError>
    ensures { IfOk result (λ o. IfSome o (λ w. (ctx : fits.Context) (path : Path) (d : normal.Field) → spec.seen_side view.now crc.now.subject crc.now.side ≡ Some covered.now → spec.IsCodedOn ctx path view.now d (library.Crc crc.now) [] w)) }
{
    let Some(bits) = value(&crc.bits, view) else {
        return Ok(None);
    };
    let Some(polynomial) = value(&crc.polynomial, view) else {
        return Ok(None);
    };
    let Some(initial) = value(&crc.initial, view) else {
        return Ok(None);
    };
    let Some(length) = value(&crc.length, view) else {
        return Ok(None);
    };
    let sum = crc_down(
        alloc,
        wide(bits),
        wide(polynomial),
        wide(initial),
        covered,
        wide(length),
        &Bits::new(alloc),
    )?;
    match sum {
        Some(bits) => Ok(Word::of(&bits)),
        None => Ok(None),
    }
}
