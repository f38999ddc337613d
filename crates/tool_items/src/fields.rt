//! What `fields` prints of a filling.

ghost use Rattle.std.specs.Prelude.{◌≡◌, ◌∷◌, ◌++◌, [], IfOk, OnOk, codes, decimal, map, option_map, replicate, string_bytes};
ghost use Rattle.std.specs.Option.{option_copied};
ghost use Rattle.sem_filling.specs.Fillings.{inner_of, sides_of};
ghost use Rattle.sem_filling.specs.declared.filling.Filling.{out-Filling};
ghost use Rattle.tool_input.specs.BitTexts.{bits_text};
ghost use Rattle.tool_items.specs.Rows.{row_of, words_of};
ghost use Rattle.tool_items.specs.Fields as spec;
ghost use Rattle.tool_names.specs.Names.{method_name as name_of};
ghost use Rattle.tool_names.specs.CheckFaults.{format_words};

use crate::rows::{FieldRow, MethodWords, push_rows};
use sem_bits::Bits;
use sem_filling::{FilledField, Filling};
use sem_profile::{Encoding, Library, Method, Part};
use sqlite_items::Items;
use std::alloc::{AllocError, Global};
use tool_names::names::{callee, encoding_at, format_name, method_name};
use tool_names::table::Cell;

/// What stands in the head line beside the format: what the lines are of, as `packet`, its number, and how many bits the packet has.
#[derive(Clone, Copy)]
pub struct HeadLine<'a> {
    pub what: &'a str,
    pub number: usize,
    pub bits: usize,
}

/// The lines of a filling of the top: a head line, and one for each field, with its part, its uncompressed and its compressed side and what encodes it. The fields of
/// a filling inside a field stand below it, further in. No line feed stands after the last line.
pub fn fields_text(
    alloc: Global,
    methods: &[Method],
    top: usize,
    head: HeadLine<'_>,
    filling: &Filling,
) -> Result<String, AllocError>
    ensures { IfOk result (λ text. string_bytes text ≡ spec.fields_text methods.now top head.entry.what.now head.entry.number head.entry.bits filling.now) }
{
    let mut rows = Items::new(alloc);
    add_rows(filling, alloc, &mut rows, methods, top, 0)?;
    let format = format_name(methods, top, filling.format);
    let mut text = head_line(alloc, head, format)?;
    push_rows(alloc, &mut text, rows.as_slice())?;
    Ok(text)
}

/// The first line of an item: what it is and its number, its format, and the count of its packed bits, without an end of line.
pub fn head_line(alloc: Global, head: HeadLine<'_>, format: &str) -> Result<String, AllocError>
    ensures { IfOk result (λ text. string_bytes text ≡ spec.head_text head.entry.what.now head.entry.number format.now head.entry.bits) }
{
    let HeadLine { what, number, bits } = head;
    format!(in alloc; "{what} {number} {format} {bits} bits")
}

/// Adds the rows of a filling of a method, by its number. The names of its fields stand after so many blanks.
fn add_rows<'a>(
    filling: &'a Filling,
    alloc: Global,
    rows: &mut Items<FieldRow<'a>>,
    methods: &'a [Method],
    method: usize,
    indent: usize,
) -> Result<(), AllocError>
    ensures { OnOk result (map row_of rows.new ≡ map row_of rows.old ++ (spec.listed methods.now filling.now).rows method (replicate indent 32)) }
{
    for (i, field) in filling.fields.as_slice().iter().enumerate() {
        let encoding = encoding_at(methods, method, filling.format, i);
        add_row(rows, field_row(methods, encoding, indent, field))?;
        if let Some(inner) = &field.inner {
            if let Some(callee) = callee(encoding) {
                let further = further_in(indent)?;
                add_rows(inner, alloc, rows, methods, callee, further)?;
            }
        }
    }
    Ok(())
}

fn add_row<'a>(rows: &mut Items<FieldRow<'a>>, row: FieldRow<'a>) -> Result<(), AllocError>
    ensures { OnOk result (map row_of rows.new ≡ map row_of rows.old ++ row_of row.entry ∷ []) }
{
    rows.push(row)
}

/// Two blanks more. No text has so many that they could not be counted.
fn further_in(indent: usize) -> Result<usize, AllocError>
    ensures { IfOk result (λ further. replicate further 32 ≡ replicate indent 32 ++ codes "  ") }
{
    match indent.checked_add(2) {
        Some(further) => Ok(further),
        None => Err(AllocError),
    }
}

/// The row of a field.
fn field_row<'a>(
    methods: &'a [Method],
    encoding: Option<&'a Encoding>,
    indent: usize,
    field: &'a FilledField,
) -> FieldRow<'a>
    ensures { row_of result ≡ spec.field_row methods.now (option_copied encoding.entry) (replicate indent 32) (sides_of field.now).declared (sides_of field.now).uncompressed (sides_of field.now).compressed (option_map (λ f. (out-Filling f).format) (inner_of field.now)) }
{
    FieldRow {
        indent,
        name: field.declared.name.as_str(),
        part: part_word(field.declared.part),
        uncompressed: &field.uncompressed,
        compressed: &field.compressed,
        method: method_words(methods, encoding, format_of(&field.inner)),
    }
}

pub fn bits_cell(alloc: Global, bits: &Bits) -> Result<Cell, AllocError>
    ensures { IfOk result (λ cell. cell ≡ bits_text bits.now) }
{
    let text = bits.print_text(alloc)?;
    Ok(Cell::new(text))
}

fn format_of(inner: &Option<Filling>) -> Option<usize>
    ensures { result ≡ option_map (λ f. (out-Filling f).format) inner.now }
{
    match inner {
        Some(filling) => Some(filling.format),
        None => None,
    }
}

/// The part of a packet's field, as it is printed.
pub fn part_word(part: Part) -> &'static str
    ensures { result.now ≡ spec.part_word part }
{
    match part {
        Part::Header => "header",
        Part::Control => "control",
        Part::Local => "local",
    }
}

/// What encodes a field, by the format of the filling inside it.
fn method_words<'a>(
    methods: &'a [Method],
    encoding: Option<&'a Encoding>,
    inside: Option<usize>,
) -> MethodWords<'a>
    ensures { words_of result ≡ spec.method_word methods.now (option_copied encoding.entry) inside }
{
    match inside {
        Some(format) => words_inside(methods, encoding, format),
        None => alone(encoding_word(methods, encoding)),
    }
}

/// What encodes a field that has a filling of this format inside it: the format stands after a point behind a method of the profile.
fn words_inside<'a>(
    methods: &'a [Method],
    encoding: Option<&'a Encoding>,
    format: usize,
) -> MethodWords<'a>
    ensures { words_of result ≡ spec.method_word methods.now (option_copied encoding.entry) (Some format) }
{
    match encoding {
        Some(Encoding::Call { method, .. }) => called(methods, *method, format),
        _ => alone(encoding_word(methods, encoding)),
    }
}

/// The words of a method of the profile and a format of it.
fn called(methods: &[Method], method: usize, format: usize) -> MethodWords<'_>
    ensures { words_of result ≡ name_of methods.now method ++ format_words methods.now method (Some format) }
{
    MethodWords {
        method: method_name(methods, method),
        point: ".",
        format: format_name(methods, method, format),
    }
}

/// A word without a format behind it.
fn alone(method: &str) -> MethodWords<'_>
    ensures { words_of result ≡ method.now }
{
    MethodWords {
        method,
        point: "",
        format: "",
    }
}

/// What encodes a field, without a format.
pub(crate) fn encoding_word<'a>(methods: &'a [Method], encoding: Option<&'a Encoding>) -> &'a str
    ensures { result.now ≡ spec.method_word methods.now (option_copied encoding.entry) None }
{
    match encoding {
        None => "-",
        Some(Encoding::Bare) => "-",
        Some(Encoding::Library(library)) => library_word(library),
        Some(Encoding::Call { method, .. }) => method_name(methods, *method),
    }
}

/// A library method by its name.
pub fn library_word(library: &Library) -> &'static str
    ensures { result.now ≡ spec.library_word library.now }
{
    match library {
        Library::UncompressedValue { .. } => "uncompressed_value",
        Library::CompressedValue { .. } => "compressed_value",
        Library::Irregular { .. } => "irregular",
        Library::Static => "static",
        Library::Lsb { .. } => "lsb",
        Library::Crc(_) => "crc",
    }
}
