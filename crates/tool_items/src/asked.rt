//! The asked values of an item in front of a reason that goes by them.

ghost use Rattle.std.specs.Prelude.{◌≡◌, ◌++◌, ◌∷◌, [], IfOk, OnOk, Some, None, codes, flat_map, slice_get, string_bytes};
ghost use Rattle.std.specs.List.{list_any};
ghost use Rattle.std.specs.Option.{option_copied};
ghost use Rattle.sem_expr.specs.Inputs.{inputs_of};
ghost use Rattle.tool_items.specs.Asked as spec;
ghost use Rattle.tool_input.specs.BitTexts.{bits_text};
ghost use Rattle.tool_names.specs.Names.{constraints_at as constraints_of};

use crate::fields::bits_cell;
use sem_expr::{Attribute, Expr, Input, Measure, Side, Subject, condition_inputs, expr_inputs};
use sem_filling::AskedValue;
use sem_filling::reason::{Reason, Within};
use sem_profile::{Constraint, CrcArguments, Encoding, Library, Method};
use sqlite_items::Items;
use std::alloc::{AllocError, Global};
use tool_names::names::{constraints_at, encoding_at, field_name};

/// The asked values by which the reason goes. Inside a call, which is below the top, nothing is asked.
pub(crate) fn front_words(
    alloc: Global,
    depth: usize,
    methods: &[Method],
    method: usize,
    format: usize,
    asked: &[AskedValue],
    reason: &Reason,
) -> Result<String, AllocError>
    ensures { IfOk result (λ text. string_bytes text ≡ spec.front_words depth methods.now method format asked.now reason.now) }
{
    match depth {
        0 => asked_words(alloc, methods, method, format, asked, reason),
        _ => Ok(String::new(alloc)),
    }
}

fn asked_words(
    alloc: Global,
    methods: &[Method],
    method: usize,
    format: usize,
    asked: &[AskedValue],
    reason: &Reason,
) -> Result<String, AllocError>
    ensures { IfOk result (λ text. string_bytes text ≡ spec.asked_words methods.now method format asked.now reason.now) }
{
    let inputs = reason_inputs(alloc, methods, method, format, reason)?;
    let looked_at = inputs.as_slice();
    let mut text = String::new(alloc);
    for value in asked {
        push_asked(alloc, &mut text, methods, method, format, looked_at, value)?;
    }
    Ok(text)
}

/// Adds the value, where the inputs have it.
#[tactic(auto, unfolding(crate::specs::Asked::asked_word))]
fn push_asked(
    alloc: Global,
    text: &mut String,
    methods: &[Method],
    method: usize,
    format: usize,
    inputs: &[Input],
    value: &AskedValue,
) -> Result<(), AllocError>
    ensures { OnOk result (string_bytes text.new ≡ string_bytes text.old ++ spec.asked_word methods.now method format inputs.now value.now) }
{
    if has_value(methods, method, format, inputs, value.name.as_str()) {
        let words = value_words(alloc, value)?;
        return text.push_str(words.as_str());
    }
    Ok(())
}

fn value_words(alloc: Global, value: &AskedValue) -> Result<String, AllocError>
    ensures { IfOk result (λ text. string_bytes text ≡ spec.value_words value.now) }
{
    let bits = bits_cell(alloc, &value.bits)?;
    is_words(alloc, value.name.as_str(), bits.as_str())
}

fn is_words(alloc: Global, name: &str, bits: &str) -> Result<String, AllocError>
    ensures { IfOk result (λ text. string_bytes text ≡ codes "asked " ++ name.now ++ codes " is " ++ bits.now ++ codes ", and ") }
{
    format!(in alloc; "asked {name} is {bits}, and ")
}

/// Whether one of the inputs is of the uncompressed side of a field of that name.
fn has_value(methods: &[Method], method: usize, format: usize, inputs: &[Input], name: &str) -> bool
    ensures { result ≡ list_any (spec.is_of methods.now method format name.now) inputs.now }
{
    for input in inputs {
        if is_of(methods, method, format, name, *input) {
            return true;
        }
    }
    false
}

fn is_of(methods: &[Method], method: usize, format: usize, name: &str, input: Input) -> bool
    ensures { result ≡ spec.is_of methods.now method format name.now input }
{
    match input {
        Input::Parameter(_) => false,
        Input::Attribute(attribute) => match attribute.side {
            Side::Uncompressed => is_subject(methods, method, format, name, attribute.subject),
            Side::Compressed => false,
        },
    }
}

fn is_subject(
    methods: &[Method],
    method: usize,
    format: usize,
    name: &str,
    subject: Subject,
) -> bool
    ensures { result ≡ spec.is_subject methods.now method format name.now subject }
{
    match subject {
        Subject::Field(field) => field_name(methods, method, format, field) == name,
        Subject::This => false,
    }
}

// ---- what a reason goes by

fn reason_inputs(
    alloc: Global,
    methods: &[Method],
    method: usize,
    format: usize,
    reason: &Reason,
) -> Result<Items<Input>, AllocError>
    ensures { IfOk result (λ found. found ≡ spec.reason_inputs methods.now method format reason.now) }
{
    match reason {
        Reason::Differs { field, .. } => field_inputs(alloc, methods, method, format, *field),
        Reason::NoSide { field, .. } => field_inputs(alloc, methods, method, format, *field),
        Reason::Inside { field } => field_inputs(alloc, methods, method, format, *field),
        Reason::Untrue { constraint, .. } => {
            untrue_inputs(alloc, methods, method, format, *constraint)
        }
        Reason::Undefined { within, .. } => {
            within_inputs(alloc, methods, method, format, *within)
        }
        Reason::Dead(_)
        | Reason::Short { .. }
        | Reason::Long { .. }
        | Reason::Cut { .. }
        | Reason::NoReference { .. }
        | Reason::Nothing => Ok(Items::new(alloc)),
    }
}

/// What an argument of what encodes a field goes by, or a condition.
fn within_inputs(
    alloc: Global,
    methods: &[Method],
    method: usize,
    format: usize,
    within: Within,
) -> Result<Items<Input>, AllocError>
    ensures { IfOk result (λ found. found ≡ spec.within_inputs methods.now method format within) }
{
    match within {
        Within::Argument(field) => {
            encoding_inputs(alloc, encoding_at(methods, method, format, field))
        }
        Within::Condition(constraint) => {
            untrue_inputs(alloc, methods, method, format, constraint)
        }
    }
}

/// The value of the field, and what its arguments go by.
fn field_inputs(
    alloc: Global,
    methods: &[Method],
    method: usize,
    format: usize,
    field: usize,
) -> Result<Items<Input>, AllocError>
    ensures { IfOk result (λ found. found ≡ spec.field_inputs methods.now method format field) }
{
    let own = Attribute {
        subject: Subject::Field(field),
        side: Side::Uncompressed,
        measure: Measure::Value,
    };
    let mut found = Items::new(alloc);
    found.push(Input::Attribute(own))?;
    let more = encoding_inputs(alloc, encoding_at(methods, method, format, field))?;
    found.append(more)?;
    Ok(found)
}

fn encoding_inputs(alloc: Global, encoding: Option<&Encoding>) -> Result<Items<Input>, AllocError>
    ensures { IfOk result (λ found. found ≡ spec.encoding_inputs (option_copied encoding.entry)) }
{
    match encoding {
        Some(Encoding::Library(library)) => library_inputs(alloc, library),
        Some(Encoding::Call { arguments, .. }) => all_inputs(alloc, arguments.as_slice()),
        Some(Encoding::Bare) => Ok(Items::new(alloc)),
        None => Ok(Items::new(alloc)),
    }
}

fn all_inputs(alloc: Global, exprs: &[Expr]) -> Result<Items<Input>, AllocError>
    ensures { IfOk result (λ found. found ≡ flat_map inputs_of exprs.now) }
{
    let mut found = Items::new(alloc);
    for expr in exprs {
        let more = expr_inputs(alloc, expr)?;
        found.append(more)?;
    }
    Ok(found)
}

fn library_inputs(alloc: Global, library: &Library) -> Result<Items<Input>, AllocError>
    ensures { IfOk result (λ found. found ≡ spec.library_inputs library.now) }
{
    match library {
        Library::UncompressedValue { length, value } => two_inputs(alloc, length, value),
        Library::CompressedValue { length, value } => two_inputs(alloc, length, value),
        Library::Irregular { length } => expr_inputs(alloc, length),
        Library::Static => Ok(Items::new(alloc)),
        Library::Lsb { bits, offset } => two_inputs(alloc, bits, offset),
        Library::Crc(crc) => crc_inputs(alloc, crc.get()),
    }
}

fn two_inputs(alloc: Global, one: &Expr, other: &Expr) -> Result<Items<Input>, AllocError>
    ensures { IfOk result (λ found. found ≡ inputs_of one.now ++ inputs_of other.now) }
{
    let mut found = expr_inputs(alloc, one)?;
    let more = expr_inputs(alloc, other)?;
    found.append(more)?;
    Ok(found)
}

fn crc_inputs(alloc: Global, crc: &CrcArguments) -> Result<Items<Input>, AllocError>
    ensures { IfOk result (λ found. found ≡ spec.crc_inputs crc.now) }
{
    let mut found = two_inputs(alloc, &crc.bits, &crc.polynomial)?;
    let more = two_inputs(alloc, &crc.initial, &crc.length)?;
    found.append(more)?;
    Ok(found)
}

/// What a condition goes by.
fn untrue_inputs(
    alloc: Global,
    methods: &[Method],
    method: usize,
    format: usize,
    constraint: usize,
) -> Result<Items<Input>, AllocError>
    ensures { IfOk result (λ found. found ≡ spec.constraint_inputs (slice_get (constraints_of methods.now method format) constraint)) }
{
    match constraints_at(methods, method, format).get(constraint) {
        Some(found) => constraint_inputs(alloc, found.get()),
        None => Ok(Items::new(alloc)),
    }
}

fn constraint_inputs(alloc: Global, constraint: &Constraint) -> Result<Items<Input>, AllocError>
    ensures { IfOk result (λ found. found ≡ spec.constraint_inputs (Some constraint.now)) }
{
    match constraint {
        Constraint::Bracket {
            field: _,
            side: _,
            lengths: _,
            place: _,
        } => Ok(Items::new(alloc)),
        Constraint::Enforce {
            condition,
            place: _,
        } => condition_inputs(alloc, condition.get()),
    }
}
