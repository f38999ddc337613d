//! Whether a filling fits: all its levels.

ghost use Rattle.std.specs.Prelude.{◌≡◌, false, ◌<◌, ◌↔◌, IsTrue, IfOk, IfSome, IfNone, length};
ghost use Rattle.sem_context.specs.Entries.{bits_at};
ghost use Rattle.sem_expr.specs.Known.{assignment_of};
ghost use Rattle.sem_filling.specs.Fillings.{sides_of, header, packed};
ghost use Rattle.sem_filling.specs.Fits.{Fits, LevelFits};
ghost use Rattle.sem_filling.specs.Ready.{ArgumentsLieAt, IsReady, IsShown, HasLevel, AllFit, FieldFitsAt, ValuesLieAt, IsCalled, IsFilled};
ghost use Rattle.sem_filling.specs.Level.{AllRanged};

use crate::constraints::constraints_hold;
use crate::level::{Level, level_of};
use crate::numbers::{FillingNumbers, add_values};
use crate::plain::{is_bare, is_coded};
use sem_bits::Bits;
use sem_expr::Expr;
use sem_filling::whole_sides::{header_of, is_header, is_packed, packed_of};
use sem_filling::{FieldPath, FilledField, Filling, Frame, WholeSides};
use sem_profile::{Encoding, Field};
use smallvec::SmallVec;
use std::alloc::{AllocError, Global};

/// Whether the filling fits the method of the profile, under these arguments, below the path and in this context.
///
/// The method goes by its index, and the path is that of the field that the filling fills, empty at the top. The error is out of memory.
pub fn holds(alloc: Global, frame: &Frame<'_>, filling: &Filling) -> Result<bool, AllocError>
    requires within { frame.now.method < length frame.now.profile.now.methods }
    requires arguments { ArgumentsLieAt frame.now.profile.now frame.now.method frame.now.arguments.now }
    ensures { IfOk result (λ b. IsTrue b ↔ Fits frame.now.profile.now.methods (bits_at frame.now.context.now) frame.now.method frame.now.arguments.now frame.now.path.now filling.now) }
{
    match sides_if_fits(alloc, frame, filling)? {
        Some(_) => Ok(true),
        None => Ok(false),
    }
}

/// The two sides of the filling, where it fits likewise.
#[inline(always)]
pub fn sides_if_fits(
    alloc: Global,
    frame: &Frame<'_>,
    filling: &Filling,
) -> Result<Option<WholeSides>, AllocError>
    requires within { frame.now.method < length frame.now.profile.now.methods }
    requires arguments { ArgumentsLieAt frame.now.profile.now frame.now.method frame.now.arguments.now }
    ensures fits { IfOk result (λ o. IfSome o (λ _. Fits frame.now.profile.now.methods (bits_at frame.now.context.now) frame.now.method frame.now.arguments.now frame.now.path.now filling.now)) }
    ensures sides { IfOk result (λ o. IfSome o (λ sides. (sides.header ≡ header filling.now) × (sides.packed ≡ packed filling.now))) }
    ensures none { IfOk result (λ o. IfNone o (Fits frame.now.profile.now.methods (bits_at frame.now.context.now) frame.now.method frame.now.arguments.now frame.now.path.now filling.now → ⊥)) }
{
    frame.profile.keeps();
    let Some(header) = header_of(alloc, filling)? else {
        return Ok(None);
    };
    let Some(packed) = packed_if_fits(alloc, frame, filling, &header)? else {
        return Ok(None);
    };
    Ok(Some(WholeSides { header, packed }))
}

/// The packed bits of the filling, whose header is this one, where it fits likewise.
#[inline(always)]
pub fn packed_if_fits(
    alloc: Global,
    frame: &Frame<'_>,
    filling: &Filling,
    header_bits: &Bits,
) -> Result<Option<Bits>, AllocError>
    requires within { frame.now.method < length frame.now.profile.now.methods }
    requires arguments { ArgumentsLieAt frame.now.profile.now frame.now.method frame.now.arguments.now }
    requires header { header_bits.now ≡ header filling.now }
    ensures fits { IfOk result (λ o. IfSome o (λ _. Fits frame.now.profile.now.methods (bits_at frame.now.context.now) frame.now.method frame.now.arguments.now frame.now.path.now filling.now)) }
    ensures packed { IfOk result (λ o. IfSome o (λ bits. bits ≡ packed filling.now)) }
    ensures none { IfOk result (λ o. IfNone o (Fits frame.now.profile.now.methods (bits_at frame.now.context.now) frame.now.method frame.now.arguments.now frame.now.path.now filling.now → ⊥)) }
{
    frame.profile.keeps();
    let Some(packed) = packed_of(alloc, filling)? else {
        return Ok(None);
    };
    let is_right = whole_holds(alloc, frame, filling, header_bits, &packed)?;
    if is_right { Ok(Some(packed)) } else { Ok(None) }
}

/// Whether the filling fits, where its header and its packed bits are these.
#[cycle(holding)]
fn whole_holds(
    alloc: Global,
    frame: &Frame<'_>,
    filling: &Filling,
    header_bits: &Bits,
    packed_bits: &Bits,
) -> Result<bool, AllocError>
    requires within { frame.now.method < length frame.now.profile.now.methods }
    requires arguments { ArgumentsLieAt frame.now.profile.now frame.now.method frame.now.arguments.now }
    requires header { header_bits.now ≡ header filling.now }
    requires packed { packed_bits.now ≡ packed filling.now }
    ensures { IfOk result (λ b. IsTrue b ↔ Fits frame.now.profile.now.methods (bits_at frame.now.context.now) frame.now.method frame.now.arguments.now frame.now.path.now filling.now) }
{
    frame.profile.keeps();
    let level = level_of(
        frame.profile,
        frame.method,
        frame.arguments,
        filling,
        header_bits,
        packed_bits,
    );
    let Some(level) = level else {
        return Ok(false);
    };
    if !level_holds(frame, filling, &level) {
        return Ok(false);
    }
    fields_hold(alloc, frame, &level, filling)
}

/// Whether the filling's own level fits the method under these arguments, whatever the fillings inside its fields are.
///
/// The method and the path are as those of `holds`. The error is out of memory.
pub fn level_fits(alloc: Global, frame: &Frame<'_>, filling: &Filling) -> Result<bool, AllocError>
    requires within { frame.now.method < length frame.now.profile.now.methods }
    requires arguments { ArgumentsLieAt frame.now.profile.now frame.now.method frame.now.arguments.now }
    // False: it doesn't fit.
    ensures { IfOk result (λ b. b ≡ false → Fits frame.now.profile.now.methods (bits_at frame.now.context.now) frame.now.method frame.now.arguments.now frame.now.path.now filling.now → ⊥) }
{
    frame.profile.keeps();
    let Some(header) = header_of(alloc, filling)? else {
        return Ok(false);
    };
    let Some(packed) = packed_of(alloc, filling)? else {
        return Ok(false);
    };
    let level = level_of(
        frame.profile,
        frame.method,
        frame.arguments,
        filling,
        &header,
        &packed,
    );
    let Some(level) = level else {
        return Ok(false);
    };
    if !level_holds(frame, filling, &level) {
        return Ok(false);
    }
    plain_fields_hold(alloc, frame, &level, filling)
}

/// Whether each field of the level that isn't called fits its encoding.
fn plain_fields_hold(
    alloc: Global,
    frame: &Frame<'_>,
    level: &Level<'_>,
    filling: &Filling,
) -> Result<bool, AllocError>
    requires same { level.now.filling.now ≡ filling.now }
    requires ready { IsReady frame.now.profile.now level.now.format.now level.now.known }
    requires shown { IsShown level.now.format.now level.now.filling.now level.now.header.now level.now.packed.now }
    ensures { IfOk result (λ b. b ≡ false → AllFit frame.now.profile.now.methods (bits_at frame.now.context.now) frame.now.path.now level.now.format.now level.now.filling.now (assignment_of level.now.known) → ⊥) }
{
    let filled = filling.fields.as_slice();
    for i in 0..filled.len() {
        if !plain_field_holds(alloc, frame, level, i, &filled[i])? {
            return Ok(false);
        }
    }
    Ok(true)
}

/// Whether the field at the place fits its encoding, if it isn't called.
fn plain_field_holds(
    alloc: Global,
    frame: &Frame<'_>,
    level: &Level<'_>,
    place: usize,
    filled: &FilledField,
) -> Result<bool, AllocError>
    requires within { place < length level.now.format.now.fields }
    requires ready { IsReady frame.now.profile.now level.now.format.now level.now.known }
    requires shown { IsShown level.now.format.now level.now.filling.now level.now.header.now level.now.packed.now }
    ensures { IfOk result (λ b. b ≡ false → FieldFitsAt frame.now.profile.now.methods (bits_at frame.now.context.now) frame.now.path.now level.now.format.now level.now.filling.now (assignment_of level.now.known) place filled.now → ⊥) }
{
    let field = &level.format.fields.as_slice()[place];
    match field.encoding.get() {
        Encoding::Bare => Ok(is_bare(filled)),
        Encoding::Library(library) => is_coded(alloc, frame, level, field, library, filled),
        Encoding::Call { .. } => Ok(true),
    }
}

/// Whether the constraints of the level hold. All its lengths lie in their bounds, so what is not listed has no bits.
#[inline(always)]
fn level_holds(frame: &Frame<'_>, filling: &Filling, level: &Level<'_>) -> bool
    requires same { level.now.filling.now ≡ filling.now }
    requires found { HasLevel frame.now.profile.now frame.now.method frame.now.arguments.now filling.now level.now.format.now level.now.known }
    requires arguments { ArgumentsLieAt frame.now.profile.now frame.now.method frame.now.arguments.now }
    ensures { IsTrue result ↔ LevelFits level.now.format.now filling.now frame.now.arguments.now }
{
    frame.profile.keeps();
    constraints_hold(level.format.constraints.as_slice(), filling, &level.known)
}

/// Whether each field of the level fits its encoding.
#[cycle(holding)]
fn fields_hold(
    alloc: Global,
    frame: &Frame<'_>,
    level: &Level<'_>,
    filling: &Filling,
) -> Result<bool, AllocError>
    requires same { level.now.filling.now ≡ filling.now }
    requires ready { IsReady frame.now.profile.now level.now.format.now level.now.known }
    requires shown { IsShown level.now.format.now level.now.filling.now level.now.header.now level.now.packed.now }
    ensures { IfOk result (λ b. IsTrue b ↔ AllFit frame.now.profile.now.methods (bits_at frame.now.context.now) frame.now.path.now level.now.format.now level.now.filling.now (assignment_of level.now.known)) }
{
    let filled = filling.fields.as_slice();
    for i in 0..filled.len() {
        if !field_holds(alloc, frame, level, i, &filled[i])? {
            return Ok(false);
        }
    }
    Ok(true)
}

/// Whether the field at the place fits its encoding.
#[cycle(holding)]
fn field_holds(
    alloc: Global,
    frame: &Frame<'_>,
    level: &Level<'_>,
    place: usize,
    filled: &FilledField,
) -> Result<bool, AllocError>
    requires within { place < length level.now.format.now.fields }
    requires ready { IsReady frame.now.profile.now level.now.format.now level.now.known }
    requires shown { IsShown level.now.format.now level.now.filling.now level.now.header.now level.now.packed.now }
    ensures { IfOk result (λ b. IsTrue b ↔ FieldFitsAt frame.now.profile.now.methods (bits_at frame.now.context.now) frame.now.path.now level.now.format.now level.now.filling.now (assignment_of level.now.known) place filled.now) }
{
    let field = &level.format.fields.as_slice()[place];
    match field.encoding.get() {
        Encoding::Bare => Ok(is_bare(filled)),
        Encoding::Library(library) => { is_coded(alloc, frame, level, field, library, filled) }
        Encoding::Call { method, arguments } => call_holds(
            alloc,
            frame,
            filled,
            &level.known,
            field,
            *method,
            arguments.as_slice(),
        ),
    }
}

/// Whether the filling of the field fits the called method under the values of the arguments, and gives the field its two sides.
#[cycle(holding)]
fn call_holds(
    alloc: Global,
    frame: &Frame<'_>,
    filled: &FilledField,
    known: &FillingNumbers<'_>,
    field: &Field,
    method: usize,
    arguments: &[Expr],
) -> Result<bool, AllocError>
    requires within { method < length frame.now.profile.now.methods }
    requires ranged { AllRanged known.now arguments.now }
    requires lie { ValuesLieAt frame.now.profile.now known.now method arguments.now }
    ensures { IfOk result (λ b. IsTrue b ↔ IsCalled frame.now.profile.now.methods (bits_at frame.now.context.now) frame.now.path.now (assignment_of known.now) field.now method arguments.now filled.now) }
{
    let mut values = SmallVec::<i128, 4>::new(alloc);
    if !add_values(arguments, known, &mut values)? {
        return Ok(false);
    }
    let here = FieldPath::of(alloc, frame.path, field.declared.name.as_str())?;
    let inner = Frame {
        profile: frame.profile,
        context: frame.context,
        method,
        arguments: values.as_slice(),
        path: here.as_str(),
    };
    inner_holds(alloc, &inner, filled)
}

/// Whether the field has a filling that fits the method under these arguments, below the path, and gives the field its two sides.
#[cycle(holding)]
fn inner_holds(alloc: Global, frame: &Frame<'_>, filled: &FilledField) -> Result<bool, AllocError>
    requires within { frame.now.method < length frame.now.profile.now.methods }
    requires arguments { ArgumentsLieAt frame.now.profile.now frame.now.method frame.now.arguments.now }
    ensures { IfOk result (λ b. IsTrue b ↔ IsFilled frame.now.profile.now.methods (bits_at frame.now.context.now) frame.now.method frame.now.arguments.now frame.now.path.now filled.now) }
{
    let Some(inner) = &filled.inner else {
        return Ok(false);
    };
    if !are_sides(filled, inner) {
        return Ok(false);
    }
    let (header, packed) = (&filled.uncompressed, &filled.compressed);
    whole_holds(alloc, frame, inner, header, packed)
}

/// Whether the two sides of the field are the header and the packed bits of the filling.
fn are_sides(filled: &FilledField, inner: &Filling) -> bool
    ensures { IsTrue result ↔ (((sides_of filled.now).uncompressed ≡ header inner.now) × ((sides_of filled.now).compressed ≡ packed inner.now)) }
{
    is_header(&filled.uncompressed, inner) && is_packed(&filled.compressed, inner)
}
