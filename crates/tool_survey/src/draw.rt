//! What `draw` draws of a profile.

ghost use Rattle.std.specs.Prelude.{◌≡◌, ◌++◌, IfOk, OnOk, decimal, string_bytes};
ghost use Rattle.std.specs.Option.{option_copied};
ghost use Rattle.sem_filling.specs.Bounded.{sizes_at};
ghost use Rattle.tool_survey.specs.Draw as spec;

use itoa::Buffer;
use sem_lint::{Column, columns_at};
use sem_profile::{Bounds, Encoding, Format, FormatSizes, Method, Profile};
use std::alloc::{AllocError, Global};
use tool_input::status::{Answer, Status};
use tool_names::names::{encoding_at, field_name, format_name, formats_of, method_name};
use tool_names::table::push_blanks;

const RULE: &str = "  +---+---+---+---+---+---+---+---+\n";

const SCALE: &str = "    0   1   2   3   4   5   6   7\n";

/// The diagram of each format's packed bits: the formats of the top first, and then those of the other methods. It fails only where memory is refused.
pub fn draw_profile(alloc: Global, profile: &Profile) -> Result<Answer, AllocError>
    ensures { IfOk result (spec.DrawsProfile profile.now) }
{
    let mut output = String::new(alloc);
    push_profile(alloc, &mut output, profile)?;
    Ok(Answer {
        status: Status::Done,
        output,
    })
}

/// Adds the formats of all methods.
fn push_profile(alloc: Global, output: &mut String, profile: &Profile) -> Result<(), AllocError>
    ensures { OnOk result (string_bytes output.new ≡ string_bytes output.old ++ spec.drawn profile.now) }
{
    let top = profile.top();
    push_method(
        alloc,
        output,
        profile,
        top,
        formats_of(profile.methods(), top),
    )?;
    for (index, method) in profile.methods().iter().enumerate() {
        push_called(alloc, output, profile, index, method)?;
    }
    Ok(())
}

/// Adds the formats of a method that is not the top.
fn push_called(
    alloc: Global,
    output: &mut String,
    profile: &Profile,
    index: usize,
    method: &Method,
) -> Result<(), AllocError>
    ensures { OnOk result (string_bytes output.new ≡ string_bytes output.old ++ spec.called_text profile.now index method.now) }
{
    if index == profile.top() {
        return Ok(());
    }
    push_method(alloc, output, profile, index, method.formats.as_slice())
}

/// Adds the formats of a method.
fn push_method(
    alloc: Global,
    output: &mut String,
    profile: &Profile,
    method: usize,
    formats: &[Format],
) -> Result<(), AllocError>
    ensures { OnOk result (string_bytes output.new ≡ string_bytes output.old ++ spec.method_text profile.now method formats.now) }
{
    for (format, _) in formats.iter().enumerate() {
        push_format(alloc, output, profile, method, format)?;
    }
    Ok(())
}

/// Adds a format: its line, and the diagram of its columns.
fn push_format(
    alloc: Global,
    output: &mut String,
    profile: &Profile,
    method: usize,
    format: usize,
) -> Result<(), AllocError>
    ensures { OnOk result (string_bytes output.new ≡ string_bytes output.old ++ spec.format_text profile.now method format) }
{
    let methods = profile.methods();
    let bounds = packed_bounds(profile, method, format);
    let columns = columns_at(alloc, profile, method, format)?;
    push_heading(
        output,
        method_name(methods, method),
        format_name(methods, method, format),
        bounds,
    )?;
    push_diagram(
        alloc,
        output,
        methods,
        method,
        format,
        bounds,
        columns.as_slice(),
    )
}

/// The bounds of a format's packed bits.
fn packed_bounds(profile: &Profile, method: usize, format: usize) -> Bounds
    ensures { result ≡ spec.packed_bounds profile.now.sizes method format }
{
    match sizes_of(profile, method, format) {
        Some(sizes) => sizes.whole.compressed,
        None => Bounds { least: 0, most: 0 },
    }
}

fn sizes_of(profile: &Profile, method: usize, format: usize) -> Option<&FormatSizes>
    ensures { option_copied result ≡ sizes_at profile.now.sizes method format }
{
    profile.sizes().get(method)?.formats.get(format)
}

fn push_heading(
    output: &mut String,
    method: &str,
    format: &str,
    bounds: Bounds,
) -> Result<(), AllocError>
    ensures { OnOk result (string_bytes output.new ≡ string_bytes output.old ++ spec.heading method.now format.now bounds) }
{
    output.push_str(method)?;
    output.push_str(".")?;
    output.push_str(format)?;
    output.push_str("  ")?;
    push_count(output, bounds)?;
    output.push_str("\n")
}

/// Adds how many bits there are: one number, or two.
fn push_count(output: &mut String, bounds: Bounds) -> Result<(), AllocError>
    ensures { OnOk result (string_bytes output.new ≡ string_bytes output.old ++ spec.count_words bounds) }
{
    push_number(output, bounds.least)?;
    if bounds.least == bounds.most {
        return output.push_str(unit_of(bounds.least));
    }
    output.push_str(" to ")?;
    push_number(output, bounds.most)?;
    output.push_str(" bits")
}

fn unit_of(count: u128) -> &'static str
    ensures { result.now ≡ spec.unit_of count }
{
    if count == 1 { " bit" } else { " bits" }
}

fn push_number(output: &mut String, number: u128) -> Result<(), AllocError>
    ensures { OnOk result (string_bytes output.new ≡ string_bytes output.old ++ decimal number) }
{
    let mut buffer = Buffer::new();
    output.push_str(buffer.format(number))
}

/// Adds the diagram of columns that end there, with the names that have no room in it.
fn push_diagram(
    alloc: Global,
    output: &mut String,
    methods: &[Method],
    method: usize,
    format: usize,
    end: Bounds,
    columns: &[Column],
) -> Result<(), AllocError>
    ensures { OnOk result (string_bytes output.new ≡ string_bytes output.old ++ spec.diagram methods.now method format end columns.now) }
{
    if end.most == 0 {
        return Ok(());
    }
    push_rows(alloc, output, methods, method, format, end, columns)
}

fn push_rows(
    alloc: Global,
    output: &mut String,
    methods: &[Method],
    method: usize,
    format: usize,
    end: Bounds,
    columns: &[Column],
) -> Result<(), AllocError>
    ensures { OnOk result (string_bytes output.new ≡ string_bytes output.old ++ spec.rows methods.now method format end columns.now) }
{
    output.push_str(SCALE)?;
    output.push_str(RULE)?;
    push_columns(alloc, output, methods, method, format, columns)?;
    push_open_end(output, end)?;
    push_notes(alloc, output, methods, method, format, columns)
}

fn push_columns(
    alloc: Global,
    output: &mut String,
    methods: &[Method],
    method: usize,
    format: usize,
    columns: &[Column],
) -> Result<(), AllocError>
    ensures { OnOk result (string_bytes output.new ≡ string_bytes output.old ++ spec.columns_text methods.now method format columns.now) }
{
    for column in columns {
        let name = label(alloc, methods, method, format, column.field)?;
        push_column(alloc, output, name.as_str(), *column)?;
    }
    Ok(())
}

fn push_notes(
    alloc: Global,
    output: &mut String,
    methods: &[Method],
    method: usize,
    format: usize,
    columns: &[Column],
) -> Result<(), AllocError>
    ensures { OnOk result (string_bytes output.new ≡ string_bytes output.old ++ spec.notes_text methods.now method format columns.now) }
{
    for column in columns {
        let name = label(alloc, methods, method, format, column.field)?;
        push_note(output, name.as_str(), *column)?;
    }
    Ok(())
}

/// The name of a field, with that of the method that it calls.
fn label(
    alloc: Global,
    methods: &[Method],
    method: usize,
    format: usize,
    field: usize,
) -> Result<String, AllocError>
    ensures { IfOk result (λ text. string_bytes text ≡ spec.label methods.now method format field) }
{
    let mut text = String::from_str(alloc, field_name(methods, method, format, field))?;
    push_call(
        &mut text,
        methods,
        encoding_at(methods, method, format, field),
    )?;
    Ok(text)
}

fn push_call(
    output: &mut String,
    methods: &[Method],
    encoding: Option<&Encoding>,
) -> Result<(), AllocError>
    ensures { OnOk result (string_bytes output.new ≡ string_bytes output.old ++ spec.call_words methods.now (option_copied encoding.entry)) }
{
    match encoding {
        Some(
            Encoding::Call {
                method,
                arguments: _,
            },
        ) => {
            output.push_str(" =:= ")?;
            output.push_str(method_name(methods, *method))
        }
        _ => Ok(()),
    }
}

// ---- columns

/// Adds a column: boxes where it has one place and one length, else a row of its own.
fn push_column(
    alloc: Global,
    output: &mut String,
    name: &str,
    column: Column,
) -> Result<(), AllocError>
    ensures { OnOk result (string_bytes output.new ≡ string_bytes output.old ++ spec.column_text name.now column) }
{
    if column.width.most == 0 {
        return Ok(());
    }
    if is_fixed(column) {
        return push_fixed(output, name, column);
    }
    push_open_end(output, column.offset)?;
    push_wide(alloc, output, name, column.width)
}

fn is_one(bounds: Bounds) -> bool
    ensures { result ≡ spec.is_one bounds }
{
    bounds.least == bounds.most
}

fn is_fixed(column: Column) -> bool
    ensures { result ≡ spec.is_fixed column }
{
    is_one(column.offset) && is_one(column.width)
}

/// Ends a row that ended before its last bit.
fn push_open_end(output: &mut String, bounds: Bounds) -> Result<(), AllocError>
    ensures { OnOk result (string_bytes output.new ≡ string_bytes output.old ++ spec.open_end bounds) }
{
    if is_one(bounds) && 0 < bounds.least % 8 {
        output.push_str("|\n")?;
        output.push_str(RULE)?;
    }
    Ok(())
}

/// Adds a row of its own.
fn push_wide(
    alloc: Global,
    output: &mut String,
    name: &str,
    width: Bounds,
) -> Result<(), AllocError>
    ensures { OnOk result (string_bytes output.new ≡ string_bytes output.old ++ spec.wide_row (spec.wide_words name.now width)) }
{
    let mut words = String::from_str(alloc, name)?;
    words.push_str(" (")?;
    push_count(&mut words, width)?;
    words.push_str(")")?;
    push_wide_row(output, words.as_str())
}

fn push_wide_row(output: &mut String, words: &str) -> Result<(), AllocError>
    ensures { OnOk result (string_bytes output.new ≡ string_bytes output.old ++ spec.wide_row words.now) }
{
    output.push_str("  : ")?;
    output.push_str(words)?;
    push_blanks(output, 30_usize.saturating_sub(words.len()))?;
    output.push_str(":\n")?;
    output.push_str(RULE)
}

/// Adds the boxes of a column with one place and one length.
fn push_fixed(output: &mut String, name: &str, column: Column) -> Result<(), AllocError>
    ensures { OnOk result (string_bytes output.new ≡ string_bytes output.old ++ spec.fixed_text name.now column column.constant) }
{
    let start = column.offset.least;
    let width = column.width.least;
    match column.constant {
        Some(number) => push_digits(output, number.unsigned_abs(), start, width),
        None => push_name(output, name, start, width),
    }
}

/// Adds a number of so many bits that begin there.
fn push_digits(
    output: &mut String,
    number: u128,
    start: u128,
    width: u128,
) -> Result<(), AllocError>
    ensures { OnOk result (string_bytes output.new ≡ string_bytes output.old ++ spec.number_cells number start width) }
{
    for bit in 0..width {
        push_digit(output, number, start, width, bit)?;
    }
    Ok(())
}

fn push_digit(
    output: &mut String,
    number: u128,
    start: u128,
    width: u128,
    bit: u128,
) -> Result<(), AllocError>
    ensures { OnOk result (string_bytes output.new ≡ string_bytes output.old ++ spec.number_cell number start width bit) }
{
    let place = place_in_row(start, bit);
    output.push_str(bit_start(place, bit))?;
    output.push_str(digit(number, width.saturating_sub(1).saturating_sub(bit)))?;
    output.push_str(" ")?;
    push_row_end(output, place)
}

/// The binary digit of a number at a place, counted from the last one.
fn digit(number: u128, place: u128) -> &'static str
    ensures { result.now ≡ spec.digit number place }
{
    if 127 <= place {
        return "0";
    }
    if (number >> place) % 2 == 1 { "1" } else { "0" }
}

/// Adds a name in boxes of so many bits that begin there.
fn push_name(output: &mut String, name: &str, start: u128, width: u128) -> Result<(), AllocError>
    ensures { OnOk result (string_bytes output.new ≡ string_bytes output.old ++ spec.name_cells name.now start width) }
{
    for bit in 0..width {
        push_name_bit(output, name, start, width, bit)?;
    }
    Ok(())
}

fn push_name_bit(
    output: &mut String,
    name: &str,
    start: u128,
    width: u128,
    bit: u128,
) -> Result<(), AllocError>
    ensures { OnOk result (string_bytes output.new ≡ string_bytes output.old ++ spec.name_cell name.now start width bit) }
{
    let place = place_in_row(start, bit);
    if place == 0 || bit == 0 {
        output.push_str(bit_start(place, bit))?;
        push_boxed(
            output,
            room(place, width.saturating_sub(bit)),
            box_text(name, bit),
        )?;
    }
    push_row_end(output, place)
}

/// A name in its first box, and dots in the others.
fn box_text(name: &str, bit: u128) -> &str
    ensures { result.now ≡ spec.box_text name.now bit }
{
    if bit == 0 { name } else { ".." }
}

/// Adds a text that fills a box.
fn push_boxed(output: &mut String, room: usize, text: &str) -> Result<(), AllocError>
    ensures { OnOk result (string_bytes output.new ≡ string_bytes output.old ++ spec.boxed room text.now) }
{
    if text.len() <= room {
        output.push_str(text)?;
        push_blanks(output, room - text.len())
    } else {
        output.push_str("*")?;
        push_blanks(output, room.saturating_sub(1))
    }
}

/// How many characters a box has from a place of a row on, of so many bits that are left.
fn room(place: u128, left: u128) -> usize
    ensures { result ≡ spec.room place left }
{
    let bits = left.min(8_u128.saturating_sub(place)) as usize;
    (4 * bits).saturating_sub(2)
}

/// Where a bit stands in its row.
fn place_in_row(start: u128, bit: u128) -> u128
    ensures { result ≡ spec.place_in_row start bit }
{
    (start % 8 + bit % 8) % 8
}

/// What stands before a bit.
fn bit_start(place: u128, bit: u128) -> &'static str
    ensures { result.now ≡ spec.bit_start place bit }
{
    if place == 0 {
        "  | "
    } else if bit == 0 {
        "| "
    } else {
        "  "
    }
}

fn push_row_end(output: &mut String, place: u128) -> Result<(), AllocError>
    ensures { OnOk result (string_bytes output.new ≡ string_bytes output.old ++ spec.row_end place) }
{
    if place == 7 {
        output.push_str("|\n")?;
        output.push_str(RULE)?;
    }
    Ok(())
}

// ---- names without room

/// Adds the bits and the name of a field whose name has no room in its first box.
fn push_note(output: &mut String, name: &str, column: Column) -> Result<(), AllocError>
    ensures { OnOk result (string_bytes output.new ≡ string_bytes output.old ++ spec.note_text name.now column) }
{
    if column.width.most == 0 || !is_fixed(column) {
        return Ok(());
    }
    match column.constant {
        Some(_) => Ok(()),
        None => push_name_note(output, name, column.offset.least, column.width.least),
    }
}

fn push_name_note(
    output: &mut String,
    name: &str,
    from: u128,
    width: u128,
) -> Result<(), AllocError>
    ensures { OnOk result (string_bytes output.new ≡ string_bytes output.old ++ spec.name_note name.now from width) }
{
    if name.len() <= room(place_in_row(from, 0), width) {
        return Ok(());
    }
    push_bits(output, from, width)?;
    output.push_str(": ")?;
    output.push_str(name)?;
    output.push_str("\n")
}

fn push_bits(output: &mut String, from: u128, width: u128) -> Result<(), AllocError>
    ensures { OnOk result (string_bytes output.new ≡ string_bytes output.old ++ spec.bits_words from width) }
{
    if width == 1 {
        output.push_str("  bit ")?;
        return push_number(output, from);
    }
    output.push_str("  bits ")?;
    push_number(output, from)?;
    output.push_str(" to ")?;
    push_number(output, from.saturating_add(width.saturating_sub(1)))
}
