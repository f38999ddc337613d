//! What `advise` prints of a trace.

ghost use Rattle.std.specs.Prelude.{◌≡◌, IfOk, OnOk, string_bytes};
ghost use Rattle.tool_items.specs.Advise as spec;

use crate::advice::{Advice, FieldAdvice, NearAdvice, Nearest, OwnAdvice, StepRange, Taken, Way};
use crate::stats::number_cell;
use crate::{FewValues, Lengths, ValueCount};
use itoa::Buffer;
use sqlite_items::Items;
use std::alloc::{AllocError, Global};
use tool_names::table::{Cell, push_table};

/// The lines of how the fields of the top go on from item to item: a head line; a table with a row for each; one with rows for each that has `lsb` or goes on by
/// steps, of the `lsb` that takes these; and one with a row for each `lsb`. No line feed stands after the last line. The error is out of memory.
pub fn advise_text(alloc: Global, advice: &Advice<'_>) -> Result<String, AllocError>
    ensures { IfOk result (λ text. spec.IsAdviceText advice.now.items advice.now.lost (string_bytes text)) }
{
    let mut text = head_line(alloc, advice.items, advice.lost)?;
    let fields = field_rows(alloc, advice.fields.as_slice())?;
    push_rows(alloc, &mut text, fields.as_slice())?;
    let nears = near_rows(alloc, advice.nears.as_slice())?;
    push_rows(alloc, &mut text, nears.as_slice())?;
    let owns = own_rows(alloc, advice.lost, advice.owns.as_slice())?;
    push_rows(alloc, &mut text, owns.as_slice())?;
    Ok(text)
}

/// Adds a table that has more than its heads.
fn push_rows(alloc: Global, text: &mut String, rows: &[Items<Cell>]) -> Result<(), AllocError>
    ensures { OnOk result (spec.FollowsOn (string_bytes text.old) (string_bytes text.new)) }
{
    if rows.len() < 2 {
        return Ok(());
    }
    push_table(alloc, text, rows)
}

/// How many items there are, and how many are lost in a row at most.
fn head_line(alloc: Global, items: usize, lost: u8) -> Result<String, AllocError>
    ensures { IfOk result (λ text. string_bytes text ≡ spec.head_line items lost) }
{
    format!(in alloc; "items {items} lost {lost}")
}

// ---- how each field goes on

/// The heads of the columns, and the row of each field.
fn field_rows(alloc: Global, fields: &[FieldAdvice<'_>]) -> Result<Items<Items<Cell>>, AllocError> {
    let mut rows = Items::new(alloc);
    rows.push(field_heads(alloc)?)?;
    for field in fields {
        rows.push(field_row(alloc, field)?)?;
    }
    Ok(rows)
}

fn field_heads(alloc: Global) -> Result<Items<Cell>, AllocError> {
    let mut row = Items::new(alloc);
    row.push(Cell::of(alloc, "field")?)?;
    row.push(Cell::of(alloc, "part")?)?;
    row.push(Cell::of(alloc, "bits")?)?;
    row.push(Cell::of(alloc, "what")?)?;
    Ok(row)
}

fn field_row(alloc: Global, field: &FieldAdvice<'_>) -> Result<Items<Cell>, AllocError> {
    let mut row = Items::new(alloc);
    row.push(Cell::of(alloc, field.name)?)?;
    row.push(Cell::of(alloc, field.part)?)?;
    row.push(lengths_cell(alloc, field.lengths)?)?;
    row.push(Cell::new(what_words(alloc, field)?))?;
    Ok(row)
}

/// How many bits the values have.
fn lengths_cell(alloc: Global, lengths: Option<Lengths>) -> Result<Cell, AllocError> {
    match lengths {
        Some(lengths) => range_cell(alloc, lengths.least, lengths.most),
        None => Cell::of(alloc, "-"),
    }
}

fn range_cell(alloc: Global, least: usize, most: usize) -> Result<Cell, AllocError> {
    if least == most {
        return number_cell(alloc, least);
    }
    let text = format!(in alloc; "{least} to {most}")?;
    Ok(Cell::new(text))
}

fn what_words(alloc: Global, field: &FieldAdvice<'_>) -> Result<String, AllocError> {
    match field.way {
        Way::Unknown => String::from_str(alloc, "-"),
        Way::Constant => constant_words(alloc, field.values),
        Way::Few => few_words(alloc, field.values, field.same),
        Way::Steps => steps_words(alloc, field.steps, field.without),
        Way::Random => String::from_str(alloc, "random"),
    }
}

fn constant_words(alloc: Global, values: &FewValues) -> Result<String, AllocError> {
    let mut text = String::from_str(alloc, "constant")?;
    for value in values.kept.as_slice() {
        push_value(alloc, &mut text, " ", value)?;
    }
    Ok(text)
}

/// The values, each with how many items have it, and how often the value is that of the item before.
fn few_words(alloc: Global, values: &FewValues, same: Option<u128>) -> Result<String, AllocError> {
    let mut text = String::new(alloc);
    push_number(&mut text, values.kept.len() as u128)?;
    text.push_str(" values")?;
    for (place, value) in values.kept.as_slice().iter().enumerate() {
        push_value(
            alloc,
            &mut text,
            if place == 0 { ": " } else { ", " },
            value,
        )?;
        text.push_str(" in ")?;
        push_number(&mut text, value.count as u128)?;
    }
    if let Some(share) = same {
        text.push_str("; as before in ")?;
        push_share(&mut text, share)?;
    }
    Ok(text)
}

fn push_value(
    alloc: Global,
    text: &mut String,
    before: &str,
    value: &ValueCount,
) -> Result<(), AllocError> {
    let side = value.bits.print_text(alloc)?;
    text.push_str(before)?;
    text.push_str(side.as_str())
}

/// The one step; or the least and the greatest, and the most frequent with its share. And how many pairs have none.
fn steps_words(alloc: Global, range: StepRange, without: usize) -> Result<String, AllocError> {
    let mut text = String::new(alloc);
    if range.least == range.most {
        text.push_str("step ")?;
        push_step(&mut text, range.least as i128)?;
    } else {
        push_range(&mut text, range)?;
    }
    if without > 0 {
        text.push_str(", none in ")?;
        push_number(&mut text, without as u128)?;
    }
    Ok(text)
}

fn push_range(text: &mut String, range: StepRange) -> Result<(), AllocError> {
    text.push_str("steps ")?;
    push_step(text, range.least as i128)?;
    text.push_str(" to ")?;
    push_step(text, range.most as i128)?;
    text.push_str(", ")?;
    push_step(text, range.frequent as i128)?;
    text.push_str(" in ")?;
    push_share(text, range.share)
}

fn push_step(text: &mut String, step: i128) -> Result<(), AllocError> {
    let mut buffer = Buffer::new();
    text.push_str(buffer.format(step))
}

fn push_number(text: &mut String, number: u128) -> Result<(), AllocError> {
    let mut buffer = Buffer::new();
    text.push_str(buffer.format(number))
}

/// Adds so many percent.
fn push_share(text: &mut String, share: u128) -> Result<(), AllocError> {
    push_number(text, share)?;
    text.push_str(" %")
}

// ---- which `lsb` takes the steps

/// The heads of the columns, and the rows of each field that has `lsb` or goes on by steps.
fn near_rows(alloc: Global, nears: &[NearAdvice<'_>]) -> Result<Items<Items<Cell>>, AllocError> {
    let mut rows = Items::new(alloc);
    rows.push(near_heads(alloc)?)?;
    for near in nears {
        rows.push(near_row(alloc, *near)?)?;
    }
    Ok(rows)
}

fn near_heads(alloc: Global) -> Result<Items<Cell>, AllocError> {
    let mut row = Items::new(alloc);
    row.push(Cell::of(alloc, "field")?)?;
    row.push(Cell::of(alloc, "lost")?)?;
    row.push(Cell::of(alloc, "90 %")?)?;
    row.push(Cell::of(alloc, "99 %")?)?;
    row.push(Cell::of(alloc, "100 %")?)?;
    Ok(row)
}

fn near_row(alloc: Global, near: NearAdvice<'_>) -> Result<Items<Cell>, AllocError> {
    let mut row = Items::new(alloc);
    row.push(Cell::of(alloc, near.field)?)?;
    row.push(number_cell(alloc, near.lost as usize)?)?;
    row.push(near_cell(alloc, near.most)?)?;
    row.push(near_cell(alloc, near.nearly_all)?)?;
    row.push(near_cell(alloc, near.all)?)?;
    Ok(row)
}

fn near_cell(alloc: Global, near: Nearest) -> Result<Cell, AllocError> {
    match near {
        Nearest::Unknown => Cell::of(alloc, "-"),
        Nearest::Irregular => Cell::of(alloc, "irregular"),
        Nearest::Lsb { bits, offset } => lsb_cell(alloc, bits as i128, offset),
    }
}

fn lsb_cell(alloc: Global, bits: i128, offset: i128) -> Result<Cell, AllocError> {
    let mut text = String::from_str(alloc, "lsb(")?;
    push_step(&mut text, bits)?;
    text.push_str(", ")?;
    push_step(&mut text, offset)?;
    text.push(')')?;
    Ok(Cell::new(text))
}

// ---- what each `lsb` takes

/// The heads of the columns, and the row of each field of a format that has `lsb`.
fn own_rows(
    alloc: Global,
    lost: u8,
    owns: &[OwnAdvice<'_>],
) -> Result<Items<Items<Cell>>, AllocError> {
    let mut rows = Items::new(alloc);
    rows.push(own_heads(alloc, lost)?)?;
    for own in owns {
        rows.push(own_row(alloc, lost, *own)?)?;
    }
    Ok(rows)
}

fn own_heads(alloc: Global, lost: u8) -> Result<Items<Cell>, AllocError> {
    let mut row = Items::new(alloc);
    row.push(Cell::of(alloc, "field")?)?;
    row.push(Cell::of(alloc, "format")?)?;
    row.push(Cell::of(alloc, "lsb")?)?;
    row.push(Cell::of(alloc, "lost 0")?)?;
    if lost > 0 {
        row.push(lost_cell(alloc, lost)?)?;
    }
    Ok(row)
}

fn lost_cell(alloc: Global, lost: u8) -> Result<Cell, AllocError> {
    let text = format!(in alloc; "lost {lost}")?;
    Ok(Cell::new(text))
}

/// The row of the `lsb` of a field in a format: how many of the steps it takes.
fn own_row(alloc: Global, lost: u8, own: OwnAdvice<'_>) -> Result<Items<Cell>, AllocError> {
    let mut row = Items::new(alloc);
    row.push(Cell::of(alloc, own.field)?)?;
    row.push(Cell::of(alloc, own.format)?)?;
    match own.taken {
        Some(taken) => add_taken(alloc, &mut row, lost, taken)?,
        None => row.push(Cell::of(alloc, "by the item")?)?,
    }
    Ok(row)
}

fn add_taken(
    alloc: Global,
    row: &mut Items<Cell>,
    lost: u8,
    taken: Taken,
) -> Result<(), AllocError> {
    row.push(lsb_cell(alloc, taken.bits, taken.offset)?)?;
    row.push(share_cell(alloc, taken.next)?)?;
    if lost > 0 {
        row.push(share_cell(alloc, taken.all)?)?;
    }
    Ok(())
}

fn share_cell(alloc: Global, share: Option<u128>) -> Result<Cell, AllocError> {
    let Some(share) = share else {
        return Cell::of(alloc, "-");
    };
    let mut text = String::new(alloc);
    push_share(&mut text, share)?;
    Ok(Cell::new(text))
}
