//! Formats of which no filling can fit: the arguments, the header and the context alone tell it.

ghost use Rattle.std.specs.Prelude.{◌≡◌, ◌≤◌, false, Some, Bool, List, Option, IsTrue, IfOk, IfSome, drop, length, slice_get};
ghost use Rattle.sem_expr.specs.Values.{Assignment};
ghost use Rattle.sem_filling.specs.Fillings as fillings;
ghost use Rattle.sem_filling.specs.Fits.{format_at};
ghost use Rattle.sem_library.specs.Methods as lib;
ghost use Rattle.sem_profile.specs.declared.profile.Sizes.{Sizes};
ghost use Rattle.cert_compiled.specs.Offsets.{AreOffsets};
ghost use Rattle.cert_rules.specs.Trees.{is_static, referred};
ghost use Rattle.walk_write.specs.Refutation as spec;
ghost use Rattle.walk_write.specs.Premises.{numbers};

use crate::header_constants::{has_more, lacks};
use crate::premises::Premises;
use cert_accepted::AcceptedFrame;
use cert_accepted::frame::{format_of, looks_of};
use cert_compiled::Looks;
use sem_bits::{Bits, Cursor};
use sem_expr::{Attribute, Cond, Expr, Measure, Side, Subject, compares};
use sem_filling::whole_sides::{reference_below, reference_near};
use sem_library::lsb_down;
use sem_profile::{Constraint, DEPTH_LIMIT, Encoding, Field, Format, Library, Part, Shared};
use sqlite_items::at;
use std::alloc::{AllocError, Global};

/// Whether the arguments, or the header and the context, tell that no filling of the format fits. They don't tell it always. The error is out of memory.
pub(crate) fn is_refuted(
    alloc: Global,
    place: &AcceptedFrame<'_>,
    format: usize,
    source: &Cursor<'_>,
    from: usize,
) -> Result<bool, AllocError>
    requires within { from ≤ length source.now.left }
    ensures { IfOk result (λ is. IsTrue is → spec.IsRefuted place.now format (drop from source.now.left)) }
{
    let Some(found) = format_of(place.accepted, place.frame.method, format) else {
        return Ok(false);
    };
    if has_false(found.constraints.as_slice(), place.frame.arguments) {
        return Ok(true);
    }
    is_refuted_else(alloc, place, found, format, source, from)
}

/// The same of a format, where the arguments alone don't tell it.
#[inline(never)]
pub(crate) fn is_refuted_else(
    alloc: Global,
    place: &AcceptedFrame<'_>,
    found: &Format,
    format: usize,
    source: &Cursor<'_>,
    from: usize,
) -> Result<bool, AllocError>
    requires within { from ≤ length source.now.left }
    requires found { format_at place.now.accepted.now.profile.methods place.now.frame.method format ≡ Some found.now }
    ensures { IfOk result (λ is. IsTrue is → spec.IsRefuted place.now format (drop from source.now.left)) }
{
    let Some(looks) = looks_of(place.accepted, place.frame.method, format) else {
        return Ok(false);
    };
    let is_contrary = contradicts(alloc, place, found, looks.conditions.as_slice())?;
    if is_contrary {
        return Ok(true);
    }
    let told = Premises {
        format: found,
        arguments: place.frame.arguments,
        choices: &[],
        places: places_of(place, format),
    };
    differs(alloc, place, &told, looks, source, from)
}

/// For each field of the format a place of the context at which its entry may stand. That is told of the top alone, where no other entries come first.
fn places_of<'a>(place: &AcceptedFrame<'a>, format: usize) -> &'a [usize] {
    if place.frame.path.is_empty() {
        place.accepted.compiled().places(place.frame.method, format)
    } else {
        &[]
    }
}

/// Whether one of these constraints of the format, by their indices, is false by the arguments and by the references of `static` fields, whatever the fields
/// hold. The error is out of memory.
fn contradicts(
    alloc: Global,
    place: &AcceptedFrame<'_>,
    format: &Format,
    conditions: &[usize],
) -> Result<bool, AllocError>
    ensures { IfOk result (λ is. IsTrue is → spec.HasFalse (spec.known_operand place.now format.now.fields) format.now.constraints) }
{
    for index in conditions {
        let Some(constraint) = at(format.constraints.as_slice(), *index) else {
            continue;
        };
        if let Constraint::Enforce { condition, .. } = constraint.get() {
            let is_false = is_contradicted(
                alloc,
                place,
                format.fields.as_slice(),
                condition.get(),
            )?;
            if is_false {
                return Ok(true);
            }
        }
    }
    Ok(false)
}

fn is_contradicted(
    alloc: Global,
    place: &AcceptedFrame<'_>,
    fields: &[Field],
    condition: &Cond,
) -> Result<bool, AllocError>
    ensures { IfOk result (λ is. IsTrue is → spec.IsFalse (spec.known_operand place.now fields.now) condition.now) }
{
    let Cond::Compare(_, comparison, left, right) = condition else {
        return Ok(false);
    };
    let Some(other) = known_operand(alloc, place, fields, right)? else {
        return Ok(false);
    };
    let Some(one) = known_operand(alloc, place, fields, left)? else {
        return Ok(false);
    };
    Ok(!compares(*comparison, one, other))
}

/// The value of a number, a parameter or a `static` field. The error is out of memory.
fn known_operand(
    alloc: Global,
    place: &AcceptedFrame<'_>,
    fields: &[Field],
    expr: &Expr,
) -> Result<Option<i128>, AllocError>
    ensures { IfOk result (λ o. o ≡ spec.known_operand place.now fields.now expr.now) }
{
    match expr {
        Expr::Number(_, number) => Ok(Some(*number)),
        Expr::Parameter(_, index) => Ok(place.frame.arguments.get(*index).copied()),
        Expr::Attribute(_, attribute) => kept_value(alloc, place, fields, *attribute),
        Expr::Binary(_, _, _, _) => Ok(None),
    }
}

fn kept_value(
    alloc: Global,
    place: &AcceptedFrame<'_>,
    fields: &[Field],
    attribute: Attribute,
) -> Result<Option<i128>, AllocError>
    ensures { IfOk result (λ o. o ≡ spec.kept_value place.now fields.now attribute.subject attribute.side attribute.measure) }
{
    let Some(index) = valued(attribute) else {
        return Ok(None);
    };
    match at(fields, index) {
        Some(field) => kept_number(alloc, place, field),
        None => Ok(None),
    }
}

/// The field of whose uncompressed side the attribute is the value.
fn valued(attribute: Attribute) -> Option<usize>
    ensures { result ≡ spec.valued attribute.subject attribute.side attribute.measure }
{
    match attribute.subject {
        Subject::Field(field) => match attribute.side {
            Side::Uncompressed => match attribute.measure {
                Measure::Value => Some(field),
                Measure::Length => None,
            },
            Side::Compressed => None,
        },
        Subject::This => None,
    }
}

/// The number of a `static` field, by its reference. The error is out of memory.
fn kept_number(
    alloc: Global,
    place: &AcceptedFrame<'_>,
    field: &Field,
) -> Result<Option<i128>, AllocError>
    ensures { IfOk result (λ o. o ≡ spec.kept_number place.now field.now) }
{
    if !is_static(field.encoding.get()) {
        return Ok(None);
    }
    match reference_below(alloc, place.frame.context, place.frame.path, field)? {
        Some(reference) => Ok(number_of(reference)),
        None => Ok(None),
    }
}

fn is_static(encoding: &Encoding) -> bool
    ensures { result ≡ is_static encoding.now }
{
    match encoding {
        Encoding::Library(library) => matches!(library, Library::Static),
        Encoding::Bare | Encoding::Call { .. } => false,
    }
}

/// The number that bits spell, if they are at most 64.
fn number_of(bits: &Bits) -> Option<i128>
    ensures { result ≡ referred (Some bits.now) }
{
    match bits.value() {
        Some(number) => Some(number as i128),
        None => None,
    }
}

/// Whether one of the constraints is false by the arguments, whatever the fields hold. Without parameters none is looked at.
#[inline(always)]
pub(crate) fn has_false(constraints: &[Shared<Constraint>], arguments: &[i128]) -> bool
    ensures { IsTrue result → spec.HasFalse (spec.operand arguments.now) constraints.now }
{
    if arguments.is_empty() {
        false
    } else {
        has_false_by(constraints, arguments)
    }
}

/// The same with parameters.
#[inline(never)]
fn has_false_by(constraints: &[Shared<Constraint>], arguments: &[i128]) -> bool
    ensures { IsTrue result → spec.HasFalse (spec.operand arguments.now) constraints.now }
{
    for constraint in constraints {
        if let Constraint::Enforce { condition, .. } = constraint.get() {
            if is_false(condition.get(), arguments) {
                return true;
            }
        }
    }
    false
}

fn is_false(condition: &Cond, arguments: &[i128]) -> bool
    ensures { IsTrue result → spec.IsFalse (spec.operand arguments.now) condition.now }
{
    let Cond::Compare(_, comparison, left, right) = condition else {
        return false;
    };
    let Some(one) = operand(left, arguments) else {
        return false;
    };
    let Some(other) = operand(right, arguments) else {
        return false;
    };
    !compares(*comparison, one, other)
}

/// The value of a number or a parameter.
fn operand(expr: &Expr, arguments: &[i128]) -> Option<i128>
    ensures { result ≡ spec.operand arguments.now expr.now }
{
    match expr {
        Expr::Number(_, number) => Some(*number),
        Expr::Parameter(_, index) => arguments.get(*index).copied(),
        _ => None,
    }
}

/// Whether the header has other bits than one of the format's fields can hold, by what is told of them. Those are looked at that are listed. The error is out of
/// memory.
#[inline(always)]
pub(crate) fn differs(
    alloc: Global,
    place: &AcceptedFrame<'_>,
    told: &Premises<'_>,
    looks: &Looks,
    source: &Cursor<'_>,
    from: usize,
) -> Result<bool, AllocError>
    requires within { from ≤ length source.now.left }
    ensures { IfOk result (λ is. IsTrue is → (sizes : List Sizes) → AreOffsets told.now.format.now.fields sizes looks.now.offsets → spec.Differs place.now (numbers told.now) told.now.format.now.fields sizes (drop from source.now.left)) }
{
    let all = source.rest() - from;
    for index in listed_fields(looks, told) {
        let Some(field) = at(told.format.fields.as_slice(), *index) else {
            continue;
        };
        let Some(offset) = offset_at(looks, *index, all) else {
            return Ok(false);
        };
        if !is_header(field) {
            continue;
        }
        let has_other = is_other(alloc, place, told, *index, field, source, from + offset)?;
        if has_other {
            return Ok(true);
        }
    }
    Ok(false)
}

/// The fields that a look goes over: before any choice, or after one.
#[inline(always)]
fn listed_fields<'a>(looks: &'a Looks, told: &Premises<'_>) -> &'a [usize] {
    if told.choices.is_empty() {
        looks.fields.as_slice()
    } else {
        looks.chosen.as_slice()
    }
}

/// How many bits the header fields before this one have, where that is told, and they are no more than so many.
#[inline(always)]
pub(crate) fn offset_at(looks: &Looks, field: usize, most: usize) -> Option<usize>
    ensures { IfSome result (λ n. (n ≤ most) × (slice_get looks.now.offsets field ≡ Some (Some n))) }
{
    match at(looks.offsets.as_slice(), field) {
        Some(Some(offset)) => { if *offset <= most { Some(*offset) } else { None } }
        _ => None,
    }
}

pub(crate) fn is_header(field: &Field) -> bool
    ensures { result ≡ fillings.is_header field.now.declared.part }
{
    match field.declared.part {
        Part::Header => true,
        Part::Control | Part::Local => false,
    }
}

/// Whether the field can hold no bits that come next there: a constant that is told, a `static` one or one of `lsb` with numbers. It isn't always told. The
/// field goes by its index, too. The error is out of memory.
#[inline(always)]
fn is_other(
    alloc: Global,
    place: &AcceptedFrame<'_>,
    told: &Premises<'_>,
    index: usize,
    field: &Field,
    source: &Cursor<'_>,
    begin: usize,
) -> Result<bool, AllocError>
    requires within { begin ≤ length source.now.left }
    ensures { IfOk result (λ is. IsTrue is → spec.IsOther place.now.accepted.now.profile (numbers told.now) field.now.encoding (spec.reference_at place.now field.now) (drop begin source.now.left)) }
{
    // Of most fields the reference is told, for which nothing else has to be asked.
    match field.encoding.get() {
        Encoding::Library(Library::Static) if told.choices.is_empty() => {
            is_changed(alloc, place, field, told.place_of(index), source, begin)
        }
        _ => is_other_at(alloc, place, told, index, field, source, begin),
    }
}

/// The same of any field.
#[inline(never)]
pub(crate) fn is_other_at(
    alloc: Global,
    place: &AcceptedFrame<'_>,
    told: &Premises<'_>,
    index: usize,
    field: &Field,
    source: &Cursor<'_>,
    begin: usize,
) -> Result<bool, AllocError>
    requires within { begin ≤ length source.now.left }
    ensures { IfOk result (λ is. IsTrue is → spec.IsOther place.now.accepted.now.profile (numbers told.now) field.now.encoding (spec.reference_at place.now field.now) (drop begin source.now.left)) }
{
    let encoding = field.encoding.get();
    let is_lacking = lacks_news(alloc, place, told, encoding, source, begin)?;
    if is_lacking {
        return Ok(true);
    }
    let Encoding::Library(library) = encoding else {
        return Ok(false);
    };
    // What stays the same whatever is chosen was looked at before any choice.
    if !told.choices.is_empty() {
        return Ok(false);
    }
    match library {
        Library::Static => { is_changed(alloc, place, field, told.place_of(index), source, begin) }
        Library::Lsb { bits, offset } => is_far(alloc, place, field, bits, offset, source, begin),
        _ => Ok(false),
    }
}

/// Whether a constant that is told isn't there, in the field or in the calls inside it. A call of which nothing was told by the last choice was looked into before.
#[inline(always)]
fn lacks_news(
    alloc: Global,
    place: &AcceptedFrame<'_>,
    told: &Premises<'_>,
    encoding: &Encoding,
    source: &Cursor<'_>,
    begin: usize,
) -> Result<bool, AllocError>
    requires within { begin ≤ length source.now.left }
    ensures { IfOk result (λ is. IsTrue is → spec.Lacks place.now.accepted.now.profile (numbers told.now) encoding.now (drop begin source.now.left)) }
{
    match encoding {
        Encoding::Call { method, arguments } => {
            if has_more(place.accepted, *method) || !told.are_news(arguments.as_slice()) {
                return Ok(false);
            }
        }
        Encoding::Library(Library::Static | Library::Lsb { .. }) => return Ok(false),
        _ => {}
    }
    lacks(
        DEPTH_LIMIT,
        alloc,
        place.accepted,
        told,
        encoding,
        source,
        begin,
    )
}

/// Whether the reference of a `static` field is not there. Its entry may stand at that place of the context.
#[inline(never)]
fn is_changed(
    alloc: Global,
    place: &AcceptedFrame<'_>,
    field: &Field,
    near: usize,
    source: &Cursor<'_>,
    begin: usize,
) -> Result<bool, AllocError>
    requires within { begin ≤ length source.now.left }
    ensures { IfOk result (λ is. IsTrue is → (known : Assignment) → spec.IsOther place.now.accepted.now.profile known (Encoding.Library Library.Static) (spec.reference_at place.now field.now) (drop begin source.now.left)) }
{
    let found = reference_near(alloc, place.frame.context, place.frame.path, field, near)?;
    let Some(reference) = found else {
        return Ok(true);
    };
    Ok(!is_there(reference, source, begin))
}

/// Whether the bits there begin with these, at most 64.
fn is_there(bits: &Bits, source: &Cursor<'_>, begin: usize) -> bool
    requires within { begin ≤ length source.now.left }
    ensures { result ≡ false → spec.IsElse lib.static (Some bits.now) (drop begin source.now.left) }
{
    let Some(number) = bits.value() else {
        return false;
    };
    let Some(found) = source.peek(begin, bits.len()) else {
        return false;
    };
    found == number
}

/// Whether a field of `lsb` with numbers has no packed bits for what is there.
#[inline(never)]
fn is_far(
    alloc: Global,
    place: &AcceptedFrame<'_>,
    field: &Field,
    bits: &Expr,
    offset: &Expr,
    source: &Cursor<'_>,
    begin: usize,
) -> Result<bool, AllocError>
    requires within { begin ≤ length source.now.left }
    ensures { IfOk result (λ is. IsTrue is → (known : Assignment) → spec.IsOther place.now.accepted.now.profile known (Encoding.Library (Library.Lsb bits.now offset.now)) (spec.reference_at place.now field.now) (drop begin source.now.left)) }
{
    let Expr::Number(_, count) = bits else {
        return Ok(false);
    };
    let Expr::Number(_, ahead) = offset else {
        return Ok(false);
    };
    let Some(reference) = reference_below(alloc, place.frame.context, place.frame.path, field)?
    else {
        return Ok(true);
    };
    is_beyond(alloc, *count, *ahead, reference, source, begin)
}

/// Whether `lsb` with these numbers gives the bits there, as many as the reference has, no packed bits.
fn is_beyond(
    alloc: Global,
    count: i128,
    offset: i128,
    reference: &Bits,
    source: &Cursor<'_>,
    begin: usize,
) -> Result<bool, AllocError>
    requires within { begin ≤ length source.now.left }
    ensures { IfOk result (λ is. IsTrue is → spec.IsElse (lib.lsb count offset) (Some reference.now) (drop begin source.now.left)) }
{
    let Some(number) = source.peek(begin, reference.len()) else {
        return Ok(true);
    };
    let Some(found) = Bits::from_value(alloc, reference.len(), number)? else {
        return Ok(false);
    };
    match lsb_down(alloc, count, offset, Some(reference), &found)? {
        Some(_) => Ok(false),
        None => Ok(true),
    }
}
