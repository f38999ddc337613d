//! The lines that list a resolved profile: its methods with their formats and their constraints.

ghost use Rattle.std.specs.Prelude.{◌≡◌, ◌++◌, IfOk, OnOk, slice_get, string_bytes};
ghost use Rattle.text_listing.specs.Shown as spec;

use crate::places::Places;
use itoa::Buffer;
use sem_profile::{Bounds, Constraint, Format, FormatSizes, Method, MethodSizes, Name, Shared};
use std::alloc::{AllocError, Global};
use text_source::Span;

/// As many octets as most lines of a constraint have.
const CONSTRAINT_LINE: usize = 12;

/// As many octets as most lines of a format have.
const FORMAT_LINE: usize = 48;

/// The lines of all methods that have formats, with the bounds on the packed bits of their formats and with the places
/// of their constraints in the text. Bounds that are missing in the sizes are 0 and 0.
pub fn show(
    alloc: Global,
    octets: &[u8],
    methods: &[Method],
    sizes: &[MethodSizes],
) -> Result<String, AllocError>
    ensures { IfOk result (λ text. string_bytes text ≡ spec.shown octets.now methods.now sizes.now) }
{
    let places = Places::new(alloc, octets)?;
    let mut output = String::with_capacity(alloc, room_for(methods))?;
    push_methods(alloc, &mut output, &places, methods, sizes)?;
    Ok(output)
}

/// About how many octets the lines take, so that there is room from the start.
fn room_for(methods: &[Method]) -> usize {
    let mut room: usize = 0;
    for method in methods {
        for format in method.formats.as_slice() {
            let lines = format.constraints.len().saturating_mul(CONSTRAINT_LINE);
            room = room.saturating_add(lines).saturating_add(FORMAT_LINE);
        }
    }
    room
}

fn push_methods(
    alloc: Global,
    output: &mut String,
    places: &Places<'_>,
    methods: &[Method],
    sizes: &[MethodSizes],
) -> Result<(), AllocError>
    ensures { OnOk result (string_bytes output.new ≡ string_bytes output.old ++ spec.shown places.now methods.now sizes.now) }
{
    for (k, method) in methods.iter().enumerate() {
        push_method(alloc, output, places, format_sizes(sizes, k), method)?;
    }
    Ok(())
}

/// The sizes of a method's formats.
fn format_sizes(sizes: &[MethodSizes], k: usize) -> &[FormatSizes]
    ensures { result.now ≡ spec.format_sizes (slice_get sizes.now k) }
{
    match sizes.get(k) {
        Some(sizes) => sizes.formats.as_slice(),
        None => &[],
    }
}

/// A method and its formats.
fn push_method(
    alloc: Global,
    output: &mut String,
    places: &Places<'_>,
    sizes: &[FormatSizes],
    method: &Method,
) -> Result<(), AllocError>
    ensures { OnOk result (string_bytes output.new ≡ string_bytes output.old ++ spec.method_text places.now sizes.now method.now) }
{
    let formats = method.formats.as_slice();
    let title = title(alloc, &method.name, formats)?;
    output.push_str(title.as_str())?;
    push_formats(output, places, sizes, formats)
}

fn push_formats(
    output: &mut String,
    places: &Places<'_>,
    sizes: &[FormatSizes],
    formats: &[Format],
) -> Result<(), AllocError>
    ensures { OnOk result (string_bytes output.new ≡ string_bytes output.old ++ spec.formats_text places.now sizes.now formats.now) }
{
    for (n, format) in formats.iter().enumerate() {
        push_format(output, places, packed_bounds(sizes, n), format)?;
    }
    Ok(())
}

/// The line of a method, none where it has no formats.
fn title(alloc: Global, name: &Name, formats: &[Format]) -> Result<String, AllocError>
    ensures { IfOk result (λ text. string_bytes text ≡ spec.title name.now formats.now) }
{
    let name = name.as_str();
    match formats {
        [] => Ok(String::new(alloc)),
        [_, ..] => format!(in alloc; "method {name}\n"),
    }
}

/// The bounds on the packed bits of a format.
fn packed_bounds(sizes: &[FormatSizes], n: usize) -> Bounds
    ensures { result ≡ spec.packed_bounds (slice_get sizes.now n) }
{
    match sizes.get(n) {
        Some(sizes) => sizes.whole.compressed,
        None => Bounds { least: 0, most: 0 },
    }
}

/// A format and its constraints.
fn push_format(
    output: &mut String,
    places: &Places<'_>,
    bounds: Bounds,
    format: &Format,
) -> Result<(), AllocError>
    ensures { OnOk result (string_bytes output.new ≡ string_bytes output.old ++ spec.format_text places.now bounds format.now) }
{
    push_format_line(output, name_of(&format.name), bounds)?;
    push_constraints(output, places, format.constraints.as_slice())
}

/// The name of a format, or `-`.
fn name_of(name: &Option<Name>) -> &str
    ensures { result.now ≡ spec.name_of name.now }
{
    match name {
        Some(name) => name.as_str(),
        None => "-",
    }
}

fn push_format_line(output: &mut String, name: &str, bounds: Bounds) -> Result<(), AllocError>
    ensures { OnOk result (string_bytes output.new ≡ string_bytes output.old ++ spec.format_line name.now bounds) }
{
    let mut buffer = Buffer::new();
    output.push_str("format ")?;
    output.push_str(name)?;
    output.push_str(" least ")?;
    output.push_str(buffer.format(bounds.least))?;
    output.push_str(" most ")?;
    output.push_str(buffer.format(bounds.most))?;
    output.push('\n')
}

/// The lines of constraints by their numbers.
fn push_constraints(
    output: &mut String,
    places: &Places<'_>,
    constraints: &[Shared<Constraint>],
) -> Result<(), AllocError>
    ensures { OnOk result (string_bytes output.new ≡ string_bytes output.old ++ spec.constraints_text places.now constraints.now) }
{
    for (number, constraint) in constraints.iter().enumerate() {
        push_constraint(output, places, number, constraint.get())?;
    }
    Ok(())
}

/// A constraint: its number and its place.
fn push_constraint(
    output: &mut String,
    places: &Places<'_>,
    number: usize,
    constraint: &Constraint,
) -> Result<(), AllocError>
    ensures { OnOk result (string_bytes output.new ≡ string_bytes output.old ++ spec.constraint_line places.now number constraint.now) }
{
    let position = places.position(place_of(constraint).from as usize);
    push_place(output, number, position.line, position.column)
}

fn push_place(
    output: &mut String,
    number: usize,
    line: usize,
    column: usize,
) -> Result<(), AllocError>
    ensures { OnOk result (string_bytes output.new ≡ string_bytes output.old ++ spec.numbered_place number line column) }
{
    let mut buffer = Buffer::new();
    output.push_str(buffer.format(number))?;
    output.push(' ')?;
    output.push_str(buffer.format(line))?;
    output.push(':')?;
    output.push_str(buffer.format(column))?;
    output.push('\n')
}

/// The place of a bracket, or of the first token of a conjunct.
fn place_of(constraint: &Constraint) -> Span
    ensures { result ≡ spec.place_of constraint.now }
{
    match constraint {
        Constraint::Bracket {
            field: _,
            side: _,
            lengths: _,
            place,
        } => *place,
        Constraint::Enforce {
            condition: _,
            place,
        } => *place,
    }
}
