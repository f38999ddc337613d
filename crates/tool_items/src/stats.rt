//! What `stats` prints of what was packed.

ghost use Rattle.std.specs.Prelude.{◌≡◌, ◌<◌, ◌+◌, ◌∷◌, ◌++◌, [], List, IfOk, OnOk, codes, decimal, replicate, string_bytes};
ghost use Rattle.sem_filling.specs.declared.filling.Filling.{Filling};
ghost use Rattle.tool_items.specs.Sums.{AreSums};
ghost use Rattle.tool_items.specs.Stats as spec;
ghost use Rattle.tool_items.specs.StatsSteps as steps;

use crate::{FormatSums, PlaceSums, Sums, Tally};
use itoa::Buffer;
use sem_profile::Method;
use sqlite_items::Items;
use std::alloc::{AllocError, Global};
use std::marker::Model;
use tool_names::names::{callee, encoding_at, field_name, format_name, formats_of, method_name};
use tool_names::table::{Cell, push_blanks, push_table};

/// What a row counts.
#[derive(Clone, Copy)]
pub enum RowOf {
    Format,
    Field,
}

/// A row of what is counted: how many fields it stands in, where 0 is a format of the top; the name of the format, behind that of its method where that is called,
/// or of the field; and how many items and bits.
#[derive(Drop)]
pub struct Counted {
    pub depth: usize,
    pub part: RowOf,
    pub name: String,
    pub tally: Tally,
}

impl Model for Counted {
    ghost use Rattle.std.specs.Prelude.{string_bytes};
    ghost use Rattle.tool_items.specs.Counted.{Counted};

    ghost Value = { Counted };

    ghost view = { λ row. record { depth = row.depth; part = row.part; name = string_bytes row.name; tally = row.tally } };
}

/// A format of one of these methods: the numbers of both.
#[derive(Clone, Copy)]
struct FormatAt<'a> {
    methods: &'a [Method],
    method: usize,
    number: usize,
}

/// A listed field: its name, and the method that it calls, if it calls one.
#[derive(Clone, Copy)]
struct ListedField<'a> {
    name: &'a str,
    called: Option<usize>,
}

/// The lines of what is counted of packed items: a head line for all of them; and in columns a line for each format of the top, for each of its listed fields that
/// has packed bits, and below a field for each format of the method that it calls, and so on. No line feed stands after the last line. The error is out of memory.
pub fn stats_text(
    alloc: Global,
    methods: &[Method],
    top: usize,
    sums: &Sums,
) -> Result<String, AllocError>
    ensures { IfOk result (λ text. (fs : List Filling) → AreSums fs sums.now → string_bytes text ≡ spec.stats_text methods.now top fs) }
{
    let mut text = head_line(alloc, sums.all)?;
    let rows = counted_rows(alloc, methods, top, sums)?;
    push_counted(alloc, &mut text, rows.as_slice())?;
    Ok(text)
}

/// How many items there are, their packed bits and the mean.
pub fn head_line(alloc: Global, tally: Tally) -> Result<String, AllocError>
    ensures { IfOk result (λ text. string_bytes text ≡ spec.head_line tally) }
{
    let mean = mean_text(alloc, tally)?;
    head_words(alloc, tally.items, tally.bits, mean.as_str())
}

fn head_words(alloc: Global, items: usize, bits: usize, mean: &str) -> Result<String, AllocError>
    ensures { IfOk result (λ text. string_bytes text ≡ codes "items " ++ decimal items ++ codes " bits " ++ decimal bits ++ codes " mean " ++ mean.now) }
{
    format!(in alloc; "items {items} bits {bits} mean {mean}")
}

/// The mean with one decimal, rounded to the nearest tenth, halves up; of no items there is none, and the text is `-`.
pub fn mean_text(alloc: Global, tally: Tally) -> Result<String, AllocError>
    ensures { IfOk result (λ text. string_bytes text ≡ spec.mean_text tally) }
{
    if tally.items == 0 {
        return String::from_str(alloc, "-");
    }
    tenths_text(alloc, tenths_near(tally.bits, tally.items))
}

/// The mean of so many bits over so many items, one or more: the nearest number of tenths, the greater of two.
fn tenths_near(bits: usize, items: usize) -> u128
    requires { 0 < items }
    ensures { result ≡ spec.tenths_near bits items }
{
    (bits as u128 * 20 + items as u128) / (items as u128 * 2)
}

/// A number of tenths.
fn tenths_text(alloc: Global, tenths: u128) -> Result<String, AllocError>
    ensures { IfOk result (λ text. string_bytes text ≡ spec.tenths_text tenths) }
{
    let mut text = String::new(alloc);
    push_number(&mut text, tenths / 10)?;
    text.push('.')?;
    push_number(&mut text, tenths % 10)?;
    Ok(text)
}

fn push_number(output: &mut String, number: u128) -> Result<(), AllocError>
    ensures { OnOk result (string_bytes output.new ≡ string_bytes output.old ++ decimal number) }
{
    let mut buffer = Buffer::new();
    output.push_str(buffer.format(number))
}

// ---- rows

/// The rows of each format of the top: its own, and then those of its fields and of what is inside these.
pub fn counted_rows(
    alloc: Global,
    methods: &[Method],
    top: usize,
    sums: &Sums,
) -> Result<Items<Counted>, AllocError>
    ensures { IfOk result (steps.AreRows methods.now top sums.now) }
{
    let mut rows = Items::new(alloc);
    add_formats(alloc, &mut rows, methods, top, sums)?;
    Ok(rows)
}

/// Adds the rows of each format of the top.
fn add_formats(
    alloc: Global,
    rows: &mut Items<Counted>,
    methods: &[Method],
    top: usize,
    sums: &Sums,
) -> Result<(), AllocError>
    ensures { OnOk result (steps.AddFormats methods.now top sums.now rows.old rows.new) }
{
    for (number, format) in formats_of(methods, top).iter().enumerate() {
        let listing = format.listing.get();
        add_format(alloc, rows, methods, top, number, listing.as_slice(), sums)?;
    }
    Ok(())
}

/// Adds the row of a format of the top, by its number, and those of its listed fields.
fn add_format(
    alloc: Global,
    rows: &mut Items<Counted>,
    methods: &[Method],
    top: usize,
    number: usize,
    listing: &[usize],
    sums: &Sums,
) -> Result<(), AllocError>
    ensures { OnOk result (steps.AddFormat methods.now top number listing.now sums.now rows.old rows.new) }
{
    let name = String::from_str(alloc, format_name(methods, top, number))?;
    match sums.formats.get(number) {
        Some(sums) => {
            rows.push(row_of(0, RowOf::Format, name, sums.all))?;
            let format = FormatAt {
                methods,
                method: top,
                number,
            };
            add_fields(sums, alloc, rows, &format, listing, 1)
        }
        None => rows.push(row_of(0, RowOf::Format, name, Tally::none())),
    }
}

// ---- fields, and what is inside

/// Adds the rows of the listed fields of a format. Their names stand after some blanks.
#[cycle(inside)]
fn add_fields(
    sums: &FormatSums,
    alloc: Global,
    rows: &mut Items<Counted>,
    format: &FormatAt<'_>,
    listing: &[usize],
    depth: usize,
) -> Result<(), AllocError>
    ensures { OnOk result (steps.AddFields format.now.methods.now format.now.method format.now.number listing.now depth sums.now rows.old rows.new) }
{
    for (place, field) in listing.iter().enumerate() {
        add_listed(sums, alloc, rows, format, place, *field, depth)?;
    }
    Ok(())
}

/// Adds the rows of the listed field at a place.
#[cycle(inside)]
fn add_listed(
    sums: &FormatSums,
    alloc: Global,
    rows: &mut Items<Counted>,
    format: &FormatAt<'_>,
    place: usize,
    field: usize,
    depth: usize,
) -> Result<(), AllocError>
    ensures { OnOk result (steps.AddListed format.now.methods.now format.now.method format.now.number place field depth sums.now rows.old rows.new) }
{
    let FormatAt {
        methods,
        method,
        number,
    } = *format;
    let items = sums.all.items;
    match sums.places.get(place) {
        Some(sums) => {
            let name = field_name(methods, method, number, field);
            let called = callee(encoding_at(methods, method, number, field));
            let listed = ListedField { name, called };
            add_field(sums, alloc, rows, methods, items, &listed, depth)
        }
        None => Ok(()),
    }
}

/// Adds the row of a listed field, where it has packed bits, and those of the method that it calls.
#[cycle(inside)]
fn add_field(
    sums: &PlaceSums,
    alloc: Global,
    rows: &mut Items<Counted>,
    methods: &[Method],
    items: usize,
    field: &ListedField<'_>,
    depth: usize,
) -> Result<(), AllocError>
    ensures { OnOk result (steps.AddField methods.now items field.now.name.now field.now.called depth sums.now rows.old rows.new) }
{
    let bits = sums.bits;
    if bits == 0 {
        return Ok(());
    }
    let name = String::from_str(alloc, field.name)?;
    rows.push(row_of(depth, RowOf::Field, name, Tally { items, bits }))?;
    let Some(method) = field.called else {
        return Ok(());
    };
    let further = further_in(depth)?;
    add_inside(&sums.inside, alloc, rows, methods, method, further)
}

/// Adds the rows of the formats of a called method. Their names stand after some blanks.
#[cycle(inside)]
fn add_inside(
    sums: &Sums,
    alloc: Global,
    rows: &mut Items<Counted>,
    methods: &[Method],
    method: usize,
    depth: usize,
) -> Result<(), AllocError>
    ensures { OnOk result (steps.AddInside methods.now method depth sums.now rows.old rows.new) }
{
    for (number, format) in formats_of(methods, method).iter().enumerate() {
        let listing = format.listing.get().as_slice();
        let inner = FormatAt {
            methods,
            method,
            number,
        };
        add_inner(sums, alloc, rows, &inner, listing, depth)?;
    }
    Ok(())
}

/// Adds the rows of a format of a called method, by its number, where a filling has it.
#[cycle(inside)]
fn add_inner(
    sums: &Sums,
    alloc: Global,
    rows: &mut Items<Counted>,
    format: &FormatAt<'_>,
    listing: &[usize],
    depth: usize,
) -> Result<(), AllocError>
    ensures { OnOk result (steps.AddInner format.now.methods.now format.now.method format.now.number listing.now depth sums.now rows.old rows.new) }
{
    match sums.formats.get(format.number) {
        Some(sums) => add_inner_format(sums, alloc, rows, format, listing, depth),
        None => Ok(()),
    }
}

/// Adds the row of a format of a called method, where a filling has it, and those of its listed fields.
#[cycle(inside)]
fn add_inner_format(
    sums: &FormatSums,
    alloc: Global,
    rows: &mut Items<Counted>,
    format: &FormatAt<'_>,
    listing: &[usize],
    depth: usize,
) -> Result<(), AllocError>
    ensures { OnOk result (steps.AddInnerFormat format.now.methods.now format.now.method format.now.number listing.now depth sums.now rows.old rows.new) }
{
    let FormatAt {
        methods,
        method,
        number,
    } = *format;
    let all = sums.all;
    if all.items == 0 {
        return Ok(());
    }
    let name = inner_name(
        alloc,
        method_name(methods, method),
        format_name(methods, method, number),
    )?;
    rows.push(row_of(depth, RowOf::Format, name, all))?;
    let further = further_in(depth)?;
    add_fields(sums, alloc, rows, format, listing, further)
}

/// The name of a format of a called method.
fn inner_name(alloc: Global, method: &str, format: &str) -> Result<String, AllocError>
    ensures { IfOk result (λ text. string_bytes text ≡ spec.inner_name method.now format.now) }
{
    format!(in alloc; "{method}.{format}")
}

fn row_of(depth: usize, part: RowOf, name: String, tally: Tally) -> Counted
    ensures { result ≡ record { depth = depth; part = part; name = string_bytes name; tally = tally } }
{
    Counted {
        depth,
        part,
        name,
        tally,
    }
}

/// One field further in.
fn further_in(depth: usize) -> Result<usize, AllocError>
    ensures { IfOk result (λ further. further ≡ depth + 1) }
{
    match depth.checked_add(1) {
        Some(further) => Ok(further),
        None => Err(AllocError),
    }
}

// ---- the table

/// Adds the table of rows, below its heads.
fn push_counted(alloc: Global, text: &mut String, rows: &[Counted]) -> Result<(), AllocError>
    ensures { OnOk result (string_bytes text.new ≡ string_bytes text.old ++ spec.counted_table rows.now) }
{
    let mut cells = Items::new(alloc);
    cells.push(heads(alloc)?)?;
    add_cells(alloc, &mut cells, rows)?;
    push_table(alloc, text, cells.as_slice())
}

/// Adds the cells of each row.
fn add_cells(
    alloc: Global,
    cells: &mut Items<Items<Cell>>,
    rows: &[Counted],
) -> Result<(), AllocError>
    ensures { OnOk result (cells.new ≡ cells.old ++ spec.cells_of_all rows.now) }
{
    for row in rows {
        add_row(alloc, cells, row)?;
    }
    Ok(())
}

fn add_row(alloc: Global, cells: &mut Items<Items<Cell>>, row: &Counted) -> Result<(), AllocError>
    ensures { OnOk result (cells.new ≡ cells.old ++ spec.cells_of row.now ∷ []) }
{
    cells.push(cells_of(alloc, row)?)
}

fn heads(alloc: Global) -> Result<Items<Cell>, AllocError>
    ensures { IfOk result (λ row. row ≡ spec.heads) }
{
    let mut row = Items::new(alloc);
    row.push(Cell::of(alloc, "format")?)?;
    row.push(Cell::of(alloc, "items")?)?;
    row.push(Cell::of(alloc, "bits")?)?;
    row.push(Cell::of(alloc, "mean")?)?;
    Ok(row)
}

/// The cells of a row: its name after two blanks for each field that it stands in, how many items there are, their bits and the mean.
fn cells_of(alloc: Global, row: &Counted) -> Result<Items<Cell>, AllocError>
    ensures { IfOk result (λ cells. cells ≡ spec.cells_of row.now) }
{
    let mut cells = Items::new(alloc);
    cells.push(name_cell(alloc, row.depth, row.name.as_str())?)?;
    cells.push(number_cell(alloc, row.tally.items)?)?;
    cells.push(number_cell(alloc, row.tally.bits)?)?;
    cells.push(mean_cell(alloc, row.tally)?)?;
    Ok(cells)
}

fn name_cell(alloc: Global, depth: usize, name: &str) -> Result<Cell, AllocError>
    ensures { IfOk result (λ cell. cell ≡ replicate depth 32 ++ replicate depth 32 ++ name.now) }
{
    let mut text = String::new(alloc);
    push_blanks(&mut text, depth)?;
    push_blanks(&mut text, depth)?;
    text.push_str(name)?;
    Ok(Cell::new(text))
}

pub fn number_cell(alloc: Global, number: usize) -> Result<Cell, AllocError>
    ensures { IfOk result (λ cell. cell ≡ decimal number) }
{
    let text = format!(in alloc; "{number}")?;
    Ok(Cell::new(text))
}

fn mean_cell(alloc: Global, tally: Tally) -> Result<Cell, AllocError>
    ensures { IfOk result (λ cell. cell ≡ spec.mean_text tally) }
{
    let text = mean_text(alloc, tally)?;
    Ok(Cell::new(text))
}
