//! What `why` prints of the reasons that stand against formats.

ghost use Rattle.std.specs.Prelude.{◌≡◌, ◌++◌, IfOk, OnOk, Some, None, codes, decimal, slice_get, string_bytes};
ghost use Rattle.std.specs.Fmt.{signed_decimal};
ghost use Rattle.std.specs.Option.{option_copied};
ghost use Rattle.tool_input.specs.BitTexts.{bits_text};
ghost use Rattle.tool_items.specs.Fields.{method_word};
ghost use Rattle.tool_items.specs.Why as spec;
ghost use Rattle.tool_names.specs.Names.{encoding_at as encoding_of, constraints_at};

use crate::asked::front_words;
use crate::fields::{bits_cell, encoding_word};
use itoa::Buffer;
use sem_bits::Bits;
use sem_expr::{Input, Measure, Side, Subject};
use sem_filling::AskedValue;
use sem_filling::obstacle::{DeadFormat, Obstacle};
use sem_filling::reason::{Figure, Line, Reason};
use sem_profile::{Constraint, Method, Name, Profile};
use std::alloc::{AllocError, Global};
use text_listing::Places;
use text_source::Span;
use tool_names::names::{
    constraints_at, encoding_at, field_name, format_name, method_name, method_place,
};
use tool_names::obstacles::{bracket_or, obstacle_words, place_of};
use tool_names::table::push_blanks;

/// How many lines are told at most.
const LINE_LIMIT: usize = 4096;

/// Adds a line for each, after a line feed: where in the profile it stands, the method and the format, and what stands against that, after the asked values by which
/// it goes. Each method that a field calls stands two blanks further in. Where there are more than 4,096, the others are left out, and a line says so.
pub fn push_reasons(
    alloc: Global,
    output: &mut String,
    octets: &[u8],
    profile: &Profile,
    asked: &[AskedValue],
    lines: &[Line],
) -> Result<(), AllocError>
    ensures { OnOk result (string_bytes output.new ≡ string_bytes output.old ++ spec.reasons_text octets.now profile.now asked.now lines.now) }
{
    let places = Places::new(alloc, octets)?;
    let end = LINE_LIMIT.min(lines.len());
    push_lines(alloc, output, &places, profile, asked, &lines[..end])?;
    push_rest(output, lines.len() > LINE_LIMIT)
}

/// Adds a line for each of them.
fn push_lines(
    alloc: Global,
    output: &mut String,
    places: &Places<'_>,
    profile: &Profile,
    asked: &[AskedValue],
    lines: &[Line],
) -> Result<(), AllocError>
    ensures { OnOk result (string_bytes output.new ≡ string_bytes output.old ++ spec.lines_text places.now profile.now asked.now lines.now) }
{
    for line in lines {
        push_reason(alloc, output, places, profile, asked, line)?;
    }
    Ok(())
}

/// Adds that there are more, where there are.
fn push_rest(output: &mut String, are_more: bool) -> Result<(), AllocError>
    ensures { OnOk result (string_bytes output.new ≡ string_bytes output.old ++ spec.rest_text are_more) }
{
    if are_more {
        output.push_str("\nmore stands against these formats, and only 4096 lines are told")?;
    }
    Ok(())
}

/// Adds a line, after a line feed.
fn push_reason(
    alloc: Global,
    output: &mut String,
    places: &Places<'_>,
    profile: &Profile,
    asked: &[AskedValue],
    line: &Line,
) -> Result<(), AllocError>
    ensures { OnOk result (string_bytes output.new ≡ string_bytes output.old ++ spec.reason_line places.now profile.now asked.now line.now) }
{
    let text = reason_line(alloc, places, profile, asked, line)?;
    output.push_str(text.as_str())
}

fn reason_line(
    alloc: Global,
    places: &Places<'_>,
    profile: &Profile,
    asked: &[AskedValue],
    line: &Line,
) -> Result<String, AllocError>
    ensures { IfOk result (λ text. string_bytes text ≡ spec.reason_line places.now profile.now asked.now line.now) }
{
    let methods = profile.methods();
    let (method, format) = (line.method, line.format);
    let at = reason_place(methods, method, format, &line.reason);
    let place = places.position(at.from as usize);
    let blanks = indent(alloc, line.depth)?;
    let words = line_words(alloc, profile, asked, line)?;
    reason_text(
        alloc,
        place.line,
        place.column,
        blanks.as_str(),
        method_name(methods, method),
        format_name(methods, method, format),
        words.as_str(),
    )
}

/// What stands against it, after the asked values by which it goes.
fn line_words(
    alloc: Global,
    profile: &Profile,
    asked: &[AskedValue],
    line: &Line,
) -> Result<String, AllocError>
    ensures { IfOk result (λ text. string_bytes text ≡ spec.line_words profile.now asked.now line.now) }
{
    let methods = profile.methods();
    let (method, format) = (line.method, line.format);
    let reason = &line.reason;
    let mut front = front_words(alloc, line.depth, methods, method, format, asked, reason)?;
    let words = reason_words(alloc, profile, method, format, reason)?;
    front.push_str(words.as_str())?;
    Ok(front)
}

pub fn reason_text(
    alloc: Global,
    line: usize,
    column: usize,
    blanks: &str,
    method: &str,
    format: &str,
    words: &str,
) -> Result<String, AllocError>
    ensures { IfOk result (λ text. string_bytes text ≡ spec.reason_text line column blanks.now method.now format.now words.now) }
{
    format!(in alloc; "\n{line}:{column}: {blanks}{method}.{format}: {words}")
}

/// Two blanks for each call on the way.
fn indent(alloc: Global, depth: usize) -> Result<String, AllocError>
    ensures { IfOk result (λ text. string_bytes text ≡ spec.indent depth) }
{
    let mut text = String::new(alloc);
    push_blanks(&mut text, depth)?;
    push_blanks(&mut text, depth)?;
    Ok(text)
}

// ---- the place

fn reason_place(methods: &[Method], method: usize, format: usize, reason: &Reason) -> Span
    ensures { result ≡ spec.reason_place methods.now method format reason.now }
{
    match reason {
        Reason::Dead(obstacle) => obstacle_place(methods, method, format, *obstacle),
        Reason::Short { .. } | Reason::Long { .. } | Reason::Nothing => {
            method_place(methods, method)
        }
        Reason::Cut { field, .. } => field_place(methods, method, format, *field),
        Reason::NoReference { field, .. } => field_place(methods, method, format, *field),
        Reason::Differs { field, .. } => field_place(methods, method, format, *field),
        Reason::NoSide { field, .. } => field_place(methods, method, format, *field),
        Reason::Inside { field } => field_place(methods, method, format, *field),
        Reason::Undefined { at, .. } => *at,
        Reason::Untrue { constraint, .. } => {
            let obstacle = Obstacle::NeverTrue {
                constraint: *constraint,
            };
            obstacle_place(methods, method, format, obstacle)
        }
    }
}

fn obstacle_place(methods: &[Method], method: usize, format: usize, obstacle: Obstacle) -> Span
    ensures { result ≡ spec.place_of methods.now (record { method = method; format = format; obstacle = obstacle }) }
{
    let dead = DeadFormat {
        method,
        format,
        obstacle,
    };
    place_of(methods, dead)
}

/// The place of a field: its bracket, first that of what is sent, else the method's name.
fn field_place(methods: &[Method], method: usize, format: usize, field: usize) -> Span
    ensures { result ≡ spec.field_place methods.now method format field }
{
    let constraints = constraints_at(methods, method, format);
    let name = method_place(methods, method);
    let header = bracket_or(constraints, field, Side::Uncompressed, name);
    bracket_or(constraints, field, Side::Compressed, header)
}

// ---- the words

fn reason_words(
    alloc: Global,
    profile: &Profile,
    method: usize,
    format: usize,
    reason: &Reason,
) -> Result<String, AllocError>
    ensures { IfOk result (λ text. string_bytes text ≡ spec.reason_words profile.now method format reason.now) }
{
    let methods = profile.methods();
    match reason {
        Reason::Dead(obstacle) => obstacle_words(alloc, profile, method, format, *obstacle),
        Reason::Short { length, least } => short_words(alloc, *length, *least),
        Reason::Long { length, most } => long_words(alloc, *length, *most),
        Reason::Cut { field, left, due } => {
            let coded = coded_words(alloc, methods, method, format, *field)?;
            cut_words(alloc, coded.as_str(), *left, *due)
        }
        Reason::NoReference { field, path } => {
            let coded = coded_words(alloc, methods, method, format, *field)?;
            reference_words(alloc, coded.as_str(), path.as_str())
        }
        Reason::Differs {
            field,
            side,
            found,
            due,
        } => {
            let coded = coded_words(alloc, methods, method, format, *field)?;
            differing_words(alloc, coded.as_str(), *side, found, due)
        }
        Reason::NoSide { field, side, found } => {
            lacking_words(alloc, methods, method, format, *field, *side, found)
        }
        Reason::Untrue {
            constraint,
            figures,
        } => {
            let figures = figures.as_slice();
            untrue_words(alloc, methods, method, format, *constraint, figures)
        }
        Reason::Undefined { .. } => {
            String::from_str(
                alloc,
                "this has no value: it divides by 0, or its exponent is below 0",
            )
        }
        Reason::Inside { field } => inside_words(alloc, methods, method, format, *field),
        Reason::Nothing => String::from_str(alloc, "nothing simple stands against it"),
    }
}

fn short_words(alloc: Global, length: usize, least: u128) -> Result<String, AllocError>
    ensures { IfOk result (λ text. string_bytes text ≡ decimal length ++ codes " bits are there, and at least " ++ decimal least ++ codes " are due") }
{
    format!(in alloc; "{length} bits are there, and at least {least} are due")
}

fn long_words(alloc: Global, length: usize, most: u128) -> Result<String, AllocError>
    ensures { IfOk result (λ text. string_bytes text ≡ decimal length ++ codes " bits are there, and at most " ++ decimal most ++ codes " may be") }
{
    format!(in alloc; "{length} bits are there, and at most {most} may be")
}

fn cut_words(alloc: Global, coded: &str, left: usize, due: u128) -> Result<String, AllocError>
    ensures { IfOk result (λ text. string_bytes text ≡ coded.now ++ codes ": " ++ decimal left ++ codes " bits are left, and " ++ decimal due ++ codes " are due") }
{
    format!(in alloc; "{coded}: {left} bits are left, and {due} are due")
}

/// What encodes the field, and its name.
fn coded_words(
    alloc: Global,
    methods: &[Method],
    method: usize,
    format: usize,
    field: usize,
) -> Result<String, AllocError>
    ensures { IfOk result (λ text. string_bytes text ≡ spec.coded_words methods.now method format field) }
{
    let encoding = encoding_at(methods, method, format, field);
    let coding = encoding_word(methods, encoding);
    of_words(alloc, coding, field_name(methods, method, format, field))
}

fn of_words(alloc: Global, coding: &str, name: &str) -> Result<String, AllocError>
    ensures { IfOk result (λ text. string_bytes text ≡ coding.now ++ codes " of " ++ name.now) }
{
    format!(in alloc; "{coding} of {name}")
}

fn reference_words(alloc: Global, coded: &str, path: &str) -> Result<String, AllocError>
    ensures { IfOk result (λ text. string_bytes text ≡ coded.now ++ codes ": the context has no entry " ++ path.now ++ codes ", and INITIAL gives none") }
{
    format!(in alloc; "{coded}: the context has no entry {path}, and INITIAL gives none")
}

fn differing_words(
    alloc: Global,
    coded: &str,
    side: Side,
    found: &Bits,
    due: &Bits,
) -> Result<String, AllocError>
    ensures { IfOk result (λ text. string_bytes text ≡ coded.now ++ codes ": the " ++ spec.side_word side ++ codes " has " ++ bits_text found.now ++ codes ", and " ++ bits_text due.now ++ codes " is due") }
{
    let has = bits_cell(alloc, found)?;
    let wants = bits_cell(alloc, due)?;
    let word = side_word(side);
    due_words(alloc, coded, word, has.as_str(), wants.as_str())
}

fn due_words(
    alloc: Global,
    coded: &str,
    side: &str,
    found: &str,
    due: &str,
) -> Result<String, AllocError>
    ensures { IfOk result (λ text. string_bytes text ≡ coded.now ++ codes ": the " ++ side.now ++ codes " has " ++ found.now ++ codes ", and " ++ due.now ++ codes " is due") }
{
    format!(in alloc; "{coded}: the {side} has {found}, and {due} is due")
}

fn lacking_words(
    alloc: Global,
    methods: &[Method],
    method: usize,
    format: usize,
    field: usize,
    side: Side,
    found: &Bits,
) -> Result<String, AllocError>
    ensures { IfOk result (λ text. string_bytes text ≡ spec.coded_words methods.now method format field ++ codes ": the " ++ spec.side_word side ++ codes " has " ++ bits_text found.now ++ codes ", with which nothing goes") }
{
    let coded = coded_words(alloc, methods, method, format, field)?;
    let has = bits_cell(alloc, found)?;
    let word = side_word(side);
    alone_words(alloc, coded.as_str(), word, has.as_str())
}

fn alone_words(alloc: Global, coded: &str, side: &str, found: &str) -> Result<String, AllocError>
    ensures { IfOk result (λ text. string_bytes text ≡ coded.now ++ codes ": the " ++ side.now ++ codes " has " ++ found.now ++ codes ", with which nothing goes") }
{
    format!(in alloc; "{coded}: the {side} has {found}, with which nothing goes")
}

fn inside_words(
    alloc: Global,
    methods: &[Method],
    method: usize,
    format: usize,
    field: usize,
) -> Result<String, AllocError>
    ensures { IfOk result (λ text. string_bytes text ≡ codes "nothing goes in " ++ spec.field_name methods.now method format field ++ codes ", by no format of " ++ method_word methods.now (encoding_of methods.now method format field) None) }
{
    let encoding = encoding_at(methods, method, format, field);
    let called = encoding_word(methods, encoding);
    called_words(alloc, field_name(methods, method, format, field), called)
}

fn called_words(alloc: Global, name: &str, called: &str) -> Result<String, AllocError>
    ensures { IfOk result (λ text. string_bytes text ≡ codes "nothing goes in " ++ name.now ++ codes ", by no format of " ++ called.now) }
{
    format!(in alloc; "nothing goes in {name}, by no format of {called}")
}

/// That a bracket has no length of its side, or that a condition is false.
fn untrue_words(
    alloc: Global,
    methods: &[Method],
    method: usize,
    format: usize,
    constraint: usize,
    figures: &[Figure],
) -> Result<String, AllocError>
    ensures { IfOk result (λ text. string_bytes text ≡ spec.untrue_words methods.now method format (slice_get (constraints_at methods.now method format) constraint) figures.now) }
{
    match constraints_at(methods, method, format).get(constraint) {
        Some(found) => constraint_words(alloc, methods, method, format, found.get(), figures),
        None => false_words(alloc, methods, method, format, figures),
    }
}

fn constraint_words(
    alloc: Global,
    methods: &[Method],
    method: usize,
    format: usize,
    constraint: &Constraint,
    figures: &[Figure],
) -> Result<String, AllocError>
    ensures { IfOk result (λ text. string_bytes text ≡ spec.untrue_words methods.now method format (Some constraint.now) figures.now) }
{
    match constraint {
        Constraint::Bracket {
            field,
            side: _,
            lengths: _,
            place: _,
        } => bracket_words(alloc, field_name(methods, method, format, *field)),
        Constraint::Enforce {
            condition: _,
            place: _,
        } => false_words(alloc, methods, method, format, figures),
    }
}

fn bracket_words(alloc: Global, name: &str) -> Result<String, AllocError>
    ensures { IfOk result (λ text. string_bytes text ≡ name.now ++ codes " has no length here that this bracket has") }
{
    format!(in alloc; "{name} has no length here that this bracket has")
}

/// That a condition is false, and the numbers by which it goes.
fn false_words(
    alloc: Global,
    methods: &[Method],
    method: usize,
    format: usize,
    figures: &[Figure],
) -> Result<String, AllocError>
    ensures { IfOk result (λ text. string_bytes text ≡ spec.false_words methods.now method format figures.now) }
{
    let mut text = String::from_str(alloc, "the condition is false")?;
    for figure in figures {
        push_figure(alloc, &mut text, methods, method, format, *figure)?;
    }
    Ok(text)
}

fn push_figure(
    alloc: Global,
    text: &mut String,
    methods: &[Method],
    method: usize,
    format: usize,
    figure: Figure,
) -> Result<(), AllocError>
    ensures { OnOk result (string_bytes text.new ≡ string_bytes text.old ++ spec.figure_words methods.now method format figure) }
{
    let words = figure_words(alloc, methods, method, format, figure)?;
    text.push_str(words.as_str())
}

fn figure_words(
    alloc: Global,
    methods: &[Method],
    method: usize,
    format: usize,
    figure: Figure,
) -> Result<String, AllocError>
    ensures { IfOk result (λ text. string_bytes text ≡ spec.figure_words methods.now method format figure) }
{
    let name = input_name(alloc, methods, method, format, figure.input)?;
    value_words(alloc, name.as_str(), figure.value)
}

fn value_words(alloc: Global, name: &str, value: i128) -> Result<String, AllocError>
    ensures { IfOk result (λ text. string_bytes text ≡ codes "; " ++ name.now ++ codes " is " ++ signed_decimal value) }
{
    let mut buffer = Buffer::new();
    number_words(alloc, name, buffer.format(value))
}

fn number_words(alloc: Global, name: &str, number: &str) -> Result<String, AllocError>
    ensures { IfOk result (λ text. string_bytes text ≡ codes "; " ++ name.now ++ codes " is " ++ number.now) }
{
    format!(in alloc; "; {name} is {number}")
}

fn input_name(
    alloc: Global,
    methods: &[Method],
    method: usize,
    format: usize,
    input: Input,
) -> Result<String, AllocError>
    ensures { IfOk result (λ text. string_bytes text ≡ spec.input_name methods.now method format input) }
{
    match input {
        Input::Parameter(parameter) => {
            String::from_str(alloc, parameter_name(methods, method, parameter))
        }
        Input::Attribute(attribute) => attribute_name(
            alloc,
            subject_name(methods, method, format, attribute.subject),
            attribute_word(attribute.side, attribute.measure),
        ),
    }
}

fn attribute_name(alloc: Global, subject: &str, word: &str) -> Result<String, AllocError>
    ensures { IfOk result (λ text. string_bytes text ≡ subject.now ++ codes "." ++ word.now) }
{
    format!(in alloc; "{subject}.{word}")
}

fn parameter_name(methods: &[Method], method: usize, parameter: usize) -> &str
    ensures { result.now ≡ spec.parameter_name methods.now method parameter }
{
    match parameter_at(methods, method, parameter) {
        Some(name) => name.as_str(),
        None => "-",
    }
}

fn parameter_at(methods: &[Method], method: usize, parameter: usize) -> Option<&Name>
    ensures { option_copied result ≡ spec.parameter_at methods.now method parameter }
{
    methods.get(method)?.parameters.get(parameter)
}

fn subject_name(methods: &[Method], method: usize, format: usize, subject: Subject) -> &str
    ensures { result.now ≡ spec.subject_name methods.now method format subject }
{
    match subject {
        Subject::Field(field) => field_name(methods, method, format, field),
        Subject::This => "THIS",
    }
}

fn attribute_word(side: Side, measure: Measure) -> &'static str
    ensures { result.now ≡ spec.attribute_word side measure }
{
    match (side, measure) {
        (Side::Uncompressed, Measure::Value) => "UVALUE",
        (Side::Uncompressed, Measure::Length) => "ULENGTH",
        (Side::Compressed, Measure::Value) => "CVALUE",
        (Side::Compressed, Measure::Length) => "CLENGTH",
    }
}

fn side_word(side: Side) -> &'static str
    ensures { result.now ≡ spec.side_word side }
{
    match side {
        Side::Uncompressed => "header",
        Side::Compressed => "packet",
    }
}
