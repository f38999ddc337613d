//! Fields of which the method doesn't go with what is seen of them.

ghost use Rattle.std.specs.Prelude.{◌≡◌, ◌↔◌, IsTrue, IfOk, MatchOption, Some, None, true, slice_get};
ghost use Rattle.std.specs.Option.{option_copied};
ghost use Rattle.sem_expr.specs.Bounds.{bounding_of};
ghost use Rattle.sem_library.specs.Methods.{IsOnly};
ghost use Rattle.sem_profile.specs.declared.profile.Encoding.TheVariants as encoding;
ghost use Rattle.sem_reasons.specs.Across as across;
ghost use Rattle.sem_reasons.specs.Conflicts as spec;
ghost use Rattle.sem_reasons.specs.Reasons.{wants_reference};
ghost use Rattle.sem_reasons.specs.Told as told;

use crate::across::{Valued, other_side, with_values};
use crate::observation::Look;
use crate::sight::Observed;
use crate::subjects::{seen_at, seen_subject};
use sem_bits::Bits;
use sem_expr::{Ranges, Side};
use sem_filling::below;
use sem_filling::reason::Reason;
use sem_filling::whole_sides::reference_below;
use sem_profile::{Encoding, Field, Library};
use std::alloc::{AllocError, Global};

/// What is seen of a format, with the ranges of its numbers.
#[derive(Clone, Copy)]
pub(crate) struct Sighted<'a> {
    pub(crate) look: Look<'a>,
    pub(crate) number: usize,
    pub(crate) seen: &'a Observed,
    pub(crate) ranges: &'a Ranges,
}

/// What stands against the format in a field that a library method encodes. The error is out of memory.
pub(crate) fn conflict(
    alloc: Global,
    sighted: &Sighted<'_>,
    index: usize,
    field: &Field,
) -> Result<Option<Reason>, AllocError>
    requires sighted { spec.IsSighted sighted.now }
    requires at { slice_get sighted.now.look.format.now.fields index ≡ Some field.now }
    ensures { IfOk result (λ o. MatchOption o (spec.Agrees sighted.now index field.now) (spec.StandsIn sighted.now)) }
{
    let question = &sighted.look.question;
    let reference = reference_below(alloc, question.context, question.path, field)?;
    if reference.is_none() && wants_reference(field.encoding.get()) {
        let reason = no_reference(alloc, sighted, index, field)?;
        return Ok(Some(reason));
    }
    match field.encoding.get() {
        Encoding::Library(library) => {
            library_conflict(alloc, sighted, index, field, library, reference)
        }
        Encoding::Bare => Ok(None),
        Encoding::Call { .. } => Ok(None),
    }
}

/// The same of this library method.
fn library_conflict(
    alloc: Global,
    sighted: &Sighted<'_>,
    index: usize,
    field: &Field,
    library: &Library,
    reference: Option<&Bits>,
) -> Result<Option<Reason>, AllocError>
    requires sighted { spec.IsSighted sighted.now }
    requires at { slice_get sighted.now.look.format.now.fields index ≡ Some field.now }
    requires library { field.now.encoding ≡ encoding.Library library.now }
    requires reference { option_copied reference ≡ spec.reference_of sighted.now field.now }
    ensures { IfOk result (λ o. MatchOption o (spec.Agrees sighted.now index field.now) (spec.StandsIn sighted.now)) }
{
    let Some(method) = with_values(library, sighted.ranges) else {
        return Ok(None);
    };
    let nothing = Bits::new(alloc);
    let Some(covered) = covered_by(sighted.seen, library, &nothing) else {
        return Ok(None);
    };
    let coded = Coded {
        index,
        field,
        library,
        method,
        covered,
        reference,
    };
    first_conflict(alloc, sighted, &coded)
}

/// A field that a library method encodes, with the values of its arguments, the bits that a crc covers, and its reference.
#[derive(Clone, Copy)]
pub(crate) struct Coded<'a> {
    pub(crate) index: usize,
    pub(crate) field: &'a Field,
    pub(crate) library: &'a Library,
    pub(crate) method: Valued,
    pub(crate) covered: &'a Bits,
    pub(crate) reference: Option<&'a Bits>,
}

/// Bits that the method asks for and that aren't those found; else bits with which it goes with no others.
fn first_conflict(
    alloc: Global,
    sighted: &Sighted<'_>,
    coded: &Coded<'_>,
) -> Result<Option<Reason>, AllocError>
    requires sighted { spec.IsSighted sighted.now }
    requires coded { spec.IsCoded sighted.now coded.now }
    ensures { IfOk result (λ o. MatchOption o (spec.Agrees sighted.now coded.now.index coded.now.field.now) (spec.StandsIn sighted.now)) }
{
    if let Some(reason) = differs(alloc, sighted, coded, Side::Compressed)? {
        return Ok(Some(reason));
    }
    if let Some(reason) = differs(alloc, sighted, coded, Side::Uncompressed)? {
        return Ok(Some(reason));
    }
    if let Some(reason) = no_side(alloc, sighted, coded, Side::Compressed)? {
        return Ok(Some(reason));
    }
    if let Some(reason) = no_side(alloc, sighted, coded, Side::Uncompressed)? {
        return Ok(Some(reason));
    }
    Ok(None)
}

/// Whether the method asks for other bits on the other side than are seen there.
fn differs(
    alloc: Global,
    sighted: &Sighted<'_>,
    coded: &Coded<'_>,
    side: Side,
) -> Result<Option<Reason>, AllocError>
    requires sighted { spec.IsSighted sighted.now }
    requires coded { spec.IsCoded sighted.now coded.now }
    ensures { IfOk result (λ o. MatchOption o (spec.GoesWith sighted.now coded.now side) (spec.StandsIn sighted.now)) }
{
    let sights = sighted.seen.fields.as_slice();
    let Some(own) = seen_at(sights, coded.index, side) else {
        return Ok(None);
    };
    let Some(found) = seen_at(sights, coded.index, opposite(side)) else {
        return Ok(None);
    };
    let due = other_side(
        alloc,
        coded.method,
        coded.covered,
        coded.reference,
        side,
        own,
    )?;
    let Some(due) = due else {
        return Ok(None);
    };
    if are_same(found, &due) {
        return Ok(None);
    }
    let found = found.copy(alloc)?;
    Ok(Some(Reason::Differs {
        field: coded.index,
        side: opposite(side),
        found,
        due,
    }))
}

/// Whether the method goes with no other side of the bits that are seen on this one.
fn no_side(
    alloc: Global,
    sighted: &Sighted<'_>,
    coded: &Coded<'_>,
    side: Side,
) -> Result<Option<Reason>, AllocError>
    requires sighted { spec.IsSighted sighted.now }
    requires coded { spec.IsCoded sighted.now coded.now }
    ensures { IfOk result (λ o. MatchOption o (spec.HasOther sighted.now coded.now side) (spec.StandsIn sighted.now)) }
{
    let Some(own) = seen_at(sighted.seen.fields.as_slice(), coded.index, side) else {
        return Ok(None);
    };
    let due = other_side(
        alloc,
        coded.method,
        coded.covered,
        coded.reference,
        side,
        own,
    )?;
    match due {
        Some(_) => Ok(None),
        None => {
            let reason = lacking(alloc, sighted, coded, side, own)?;
            Ok(Some(reason))
        }
    }
}

/// The method goes with no other side of these bits.
fn lacking(
    alloc: Global,
    sighted: &Sighted<'_>,
    coded: &Coded<'_>,
    side: Side,
    own: &Bits,
) -> Result<Reason, AllocError>
    requires sighted { spec.IsSighted sighted.now }
    requires coded { spec.IsCoded sighted.now coded.now }
    requires seen { told.seen_at sighted.now.seen.now.fields coded.now.index side ≡ Some own.now }
    requires none { IsOnly (told.Related (across.method_of coded.now.method coded.now.covered.now) (option_copied coded.now.reference) side own.now) None }
    ensures { IfOk result (spec.StandsIn sighted.now) }
{
    let found = own.copy(alloc)?;
    Ok(Reason::NoSide {
        field: coded.index,
        side,
        found,
    })
}

/// The field has no reference.
fn no_reference(
    alloc: Global,
    sighted: &Sighted<'_>,
    index: usize,
    field: &Field,
) -> Result<Reason, AllocError>
    requires sighted { spec.IsSighted sighted.now }
    requires at { slice_get sighted.now.look.format.now.fields index ≡ Some field.now }
    requires wants { wants_reference field.now.encoding ≡ true }
    requires none { spec.reference_of sighted.now field.now ≡ None }
    ensures { IfOk result (spec.StandsIn sighted.now) }
{
    let path = below(
        alloc,
        sighted.look.question.path,
        field.declared.name.as_str(),
    )?;
    Ok(Reason::NoReference { field: index, path })
}

/// The bits that a crc covers, where they are seen, and nothing for another method.
fn covered_by<'a>(seen: &'a Observed, library: &Library, nothing: &'a Bits) -> Option<&'a Bits>
    ensures { MatchOption result ((bits : _) → told.Covers seen.now library.now bits → ⊥) (λ bits. told.Covers seen.now library.now bits.now) }
{
    match library {
        Library::Crc(crc) => seen_subject(seen, crc.get().subject, crc.get().side),
        _ => Some(nothing),
    }
}

pub(crate) fn wants_reference(encoding: &Encoding) -> bool
    ensures { result ≡ wants_reference encoding.now }
{
    match encoding {
        Encoding::Library(library) => matches!(library, Library::Static | Library::Lsb { .. }),
        Encoding::Bare | Encoding::Call { .. } => false,
    }
}

fn opposite(side: Side) -> Side
    ensures { result ≡ told.opposite side }
{
    match side {
        Side::Uncompressed => Side::Compressed,
        Side::Compressed => Side::Uncompressed,
    }
}

fn are_same(one: &Bits, other: &Bits) -> bool
    ensures { IsTrue result ↔ (one.now ≡ other.now) }
{
    *one == *other
}
