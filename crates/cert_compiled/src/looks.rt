//! What a look at a format goes over, before its plan is followed.

ghost use Rattle.std.specs.Prelude.{◌≡◌, IfOk, IfSome};
ghost use Rattle.std.specs.Option.{option_copied};
ghost use Rattle.cert_compiled.specs.Offsets as spec;

use cert_rules::fields::is_header;
use sem_expr::{Attribute, Cond, Expr, Measure, Side, Subject};
use sem_profile::{
    Bounds, Constraint, Encoding, Field, Format, FormatSizes, Library, Method, Sizes,
};
use sqlite_items::{Items, at};
use std::alloc::{AllocError, Global};

/// What a look goes over. Of the lists nothing is promised: who goes by them judges what he finds.
#[derive(Drop)]
pub struct Looks {
    /// The conditions of ENFORCE that may be decided by arguments with references, or by references, by their indices among the constraints.
    pub conditions: Items<usize>,
    /// The header fields of which something may be told before any choice, by their indices.
    pub fields: Items<usize>,
    /// Those of which a choice may tell more.
    pub chosen: Items<usize>,
    /// For each field how many bits the header fields before it have, where each of these has one length by its bounds.
    pub offsets: Items<Option<usize>>,
}

/// What a look at the format goes over, which has these bounds. The error is out of memory.
pub(crate) fn looks_of(
    alloc: Global,
    methods: &[Method],
    format: &Format,
    sizes: &FormatSizes,
) -> Result<Looks, AllocError>
    ensures { IfOk result (λ l. spec.AreOffsets format.now.fields sizes.now.fields l.offsets) }
{
    Ok(Looks {
        conditions: conditions(alloc, format)?,
        fields: telling_fields(alloc, methods, format, false)?,
        chosen: telling_fields(alloc, methods, format, true)?,
        offsets: offsets_of(alloc, format.fields.as_slice(), sizes.fields.as_slice())?,
    })
}

/// The conditions that a look may decide.
fn conditions(alloc: Global, format: &Format) -> Result<Items<usize>, AllocError> {
    let mut found = Items::new(alloc);
    for (index, constraint) in format.constraints.as_slice().iter().enumerate() {
        if let Constraint::Enforce { condition, .. } = constraint.get() {
            if is_decidable(format, condition.get()) {
                found.push(index)?;
            }
        }
    }
    Ok(found)
}

/// Whether both sides are numbers, parameters or `static` fields, and the arguments alone don't decide it: those are looked at before.
fn is_decidable(format: &Format, condition: &Cond) -> bool {
    match condition {
        Cond::Compare(_, _, left, right) => {
            is_known(format, left) && is_known(format, right) && !is_by_arguments(left, right)
        }
        _ => false,
    }
}

/// Whether it is a number, a parameter or the value of a `static` field.
fn is_known(format: &Format, expr: &Expr) -> bool {
    match expr {
        Expr::Number(_, _) | Expr::Parameter(_, _) => true,
        Expr::Attribute(_, attribute) => is_kept(format, *attribute),
        Expr::Binary(_, _, _, _) => false,
    }
}

fn is_kept(format: &Format, attribute: Attribute) -> bool {
    let (Subject::Field(field), Side::Uncompressed, Measure::Value) = (
        attribute.subject,
        attribute.side,
        attribute.measure,
    ) else {
        return false;
    };
    match format.fields.get(field) {
        Some(found) => matches!(found.encoding.get(), Encoding::Library(Library::Static)),
        None => false,
    }
}

/// Whether one of them is a parameter, and the other one is, too, or is a number.
fn is_by_arguments(left: &Expr, right: &Expr) -> bool {
    match left {
        Expr::Parameter(_, _) => matches!(right, Expr::Parameter(_, _) | Expr::Number(_, _)),
        Expr::Number(_, _) => matches!(right, Expr::Parameter(_, _)),
        Expr::Attribute(_, _) | Expr::Binary(_, _, _, _) => false,
    }
}

/// The header fields of which something may be told before any choice, or more by a choice.
fn telling_fields(
    alloc: Global,
    methods: &[Method],
    format: &Format,
    has_choice: bool,
) -> Result<Items<usize>, AllocError> {
    let mut found = Items::new(alloc);
    for (index, field) in format.fields.as_slice().iter().enumerate() {
        if is_header(field) && is_telling(methods, field.encoding.get(), has_choice) {
            found.push(index)?;
        }
    }
    Ok(found)
}

/// Whether a field of this encoding may tell something. What stays the same whatever is chosen is looked at before any choice.
fn is_telling(methods: &[Method], encoding: &Encoding, has_choice: bool) -> bool {
    match encoding {
        Encoding::Library(library) => match library {
            Library::UncompressedValue { value, .. } => has_choice || is_without_fields(value),
            Library::Static | Library::Lsb { .. } => !has_choice,
            _ => false,
        },
        Encoding::Call { method, .. } => has_one_format(methods, *method),
        Encoding::Bare => false,
    }
}

/// Whether no field is asked for: before any choice a value is told of such an expression alone.
fn is_without_fields(expr: &Expr) -> bool {
    match expr {
        Expr::Number(_, _) | Expr::Parameter(_, _) => true,
        Expr::Attribute(_, _) => false,
        // Of a long sum the last term is on the right.
        Expr::Binary(_, _, left, right) => is_without_fields(right) && is_without_fields(left),
    }
}

fn has_one_format(methods: &[Method], method: usize) -> bool {
    match at(methods, method) {
        Some(called) => called.formats.len() == 1,
        None => false,
    }
}

/// For each field how many bits the header fields before it have, where each of these has one length by its bounds.
fn offsets_of(
    alloc: Global,
    fields: &[Field],
    sizes: &[Sizes],
) -> Result<Items<Option<usize>>, AllocError>
    ensures { IfOk result (λ os. spec.AreOffsets fields.now sizes.now os) }
{
    let mut offsets = Items::new(alloc);
    let mut next = Some(0);
    for index in 0..fields.len() {
        offsets.push(next)?;
        next = offset_after(next, &fields[index], at(sizes, index));
    }
    Ok(offsets)
}

/// How many bits the header fields up to this one have, where those before it have so many.
fn offset_after(before: Option<usize>, field: &Field, bounds: Option<&Sizes>) -> Option<usize>
    ensures { IfSome result (spec.IsOffsetAfter before field.now (option_copied bounds.entry)) }
{
    let before = before?;
    if !is_header(field) {
        return Some(before);
    }
    let own = bounds?;
    before.checked_add(only_length(own.uncompressed)?)
}

/// The only length within the bounds, where there is one.
fn only_length(bounds: Bounds) -> Option<usize>
    ensures { IfSome result (λ n. (bounds.least ≡ n) × (bounds.most ≡ n)) }
{
    if bounds.least == bounds.most {
        usize::try_from(bounds.least).ok()
    } else {
        None
    }
}
