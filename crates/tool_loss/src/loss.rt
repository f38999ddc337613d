//! What `loss` prints of what receivers read after losses.

ghost use Rattle.std.specs.Prelude.{◌≡◌, ◌+◌, ◌∷◌, ◌++◌, [], IfOk, OnOk, codes, decimal, string_bytes};
ghost use Rattle.std.specs.Fmt.{signed_decimal};
ghost use Rattle.tool_input.specs.BitTexts.{bits_text};
ghost use Rattle.tool_loss.specs.Loss as spec;

use crate::step::{Step, step_of};
use crate::told::{told_case, told_format};
use itoa::Buffer;
use sem_bits::Bits;
use sem_profile::{Format, Method};
use sqlite_items::Items;
use std::alloc::{AllocError, Global};
use tool_items::Tally;
use tool_items::fields::bits_cell;
use tool_items::stats::{head_line, number_cell};
use tool_names::names::{format_name, formats_of, method_name};
use tool_names::table::{Cell, push_table};
use walk_engine::UnpackFault;
use walk_loss::{Case, Group, Heard, Reading, Referring, Score, Unserved, score_of};
use walk_read::Blamed;

/// The lines of what is read where up to so many packets are lost: the head line of `stats`; a table with a row for each number of lost packets; where that may be
/// above 0, one with a row for each format of the top of which packets were read after losses; and for each number after which a packet isn't read right the first
/// wrong case, or where none is wrong the first that is refused. No line feed stands after the last line. The error is out of memory.
pub fn loss_text(
    alloc: Global,
    methods: &[Method],
    top: usize,
    most: u8,
    tally: Tally,
    readings: &[Reading],
    cases: &[Case],
) -> Result<String, AllocError>
    ensures { IfOk result (λ text. string_bytes text ≡ spec.loss_text methods.now top most tally readings.now cases.now) }
{
    let mut text = head_line(alloc, tally)?;
    push_scores(alloc, &mut text, most, readings)?;
    push_formats(alloc, &mut text, methods, top, most, readings)?;
    push_cases(alloc, &mut text, methods, top, most, cases)?;
    Ok(text)
}

// ---- the table of lost packets

fn push_scores(
    alloc: Global,
    text: &mut String,
    most: u8,
    readings: &[Reading],
) -> Result<(), AllocError>
    ensures { OnOk result (string_bytes text.new ≡ string_bytes text.old ++ spec.scores_text most readings.now) }
{
    let mut rows = Items::new(alloc);
    rows.push(heads(alloc, "lost")?)?;
    add_scores(alloc, &mut rows, most as usize + 1, readings)?;
    push_table(alloc, text, rows.as_slice())
}

/// The heads of the columns, of which the first has this name.
fn heads(alloc: Global, name: &str) -> Result<Items<Cell>, AllocError>
    ensures { IfOk result (λ row. row ≡ spec.heads name.now) }
{
    let mut row = Items::new(alloc);
    row.push(Cell::of(alloc, name)?)?;
    row.push(Cell::of(alloc, "packets")?)?;
    row.push(Cell::of(alloc, "right")?)?;
    row.push(Cell::of(alloc, "refused")?)?;
    row.push(Cell::of(alloc, "wrong")?)?;
    Ok(row)
}

/// Adds a row for each number of lost packets below the end.
fn add_scores(
    alloc: Global,
    rows: &mut Items<Items<Cell>>,
    end: usize,
    readings: &[Reading],
) -> Result<(), AllocError>
    ensures { OnOk result (rows.new ≡ rows.old ++ spec.score_rows end readings.now) }
{
    for lost in 0..end {
        add_score(alloc, rows, lost, readings)?;
    }
    Ok(())
}

fn add_score(
    alloc: Global,
    rows: &mut Items<Items<Cell>>,
    lost: usize,
    readings: &[Reading],
) -> Result<(), AllocError>
    ensures { OnOk result (rows.new ≡ rows.old ++ spec.lost_row readings.now lost ∷ []) }
{
    let score = score_of(readings, Group::After(lost))?;
    let name = number_cell(alloc, lost)?;
    rows.push(score_row(alloc, name, score)?)
}

/// A row: a name, and how many packets there are, are right, refused and wrong.
fn score_row(alloc: Global, name: Cell, score: Score) -> Result<Items<Cell>, AllocError>
    ensures { IfOk result (λ row. row ≡ spec.score_row name score) }
{
    let mut row = Items::new(alloc);
    row.push(name)?;
    row.push(number_cell(alloc, score.packets)?)?;
    row.push(number_cell(alloc, score.right)?)?;
    row.push(number_cell(alloc, score.refused)?)?;
    row.push(number_cell(alloc, score.wrong)?)?;
    Ok(row)
}

// ---- the table of formats

fn push_formats(
    alloc: Global,
    text: &mut String,
    methods: &[Method],
    top: usize,
    most: u8,
    readings: &[Reading],
) -> Result<(), AllocError>
    ensures { OnOk result (string_bytes text.new ≡ string_bytes text.old ++ spec.formats_text methods.now top most readings.now) }
{
    if most == 0 {
        return Ok(());
    }
    let mut rows = Items::new(alloc);
    rows.push(format_heads(alloc)?)?;
    let formats = formats_of(methods, top);
    add_formats(alloc, &mut rows, methods, top, most, formats, readings)?;
    push_table(alloc, text, rows.as_slice())
}

fn format_heads(alloc: Global) -> Result<Items<Cell>, AllocError>
    ensures { IfOk result (λ row. row ≡ spec.format_heads) }
{
    let mut row = heads(alloc, "format")?;
    row.push(Cell::of(alloc, "reach")?)?;
    Ok(row)
}

/// Adds the rows of the formats of the top.
fn add_formats(
    alloc: Global,
    rows: &mut Items<Items<Cell>>,
    methods: &[Method],
    top: usize,
    most: u8,
    formats: &[Format],
    readings: &[Reading],
) -> Result<(), AllocError>
    ensures { OnOk result (rows.new ≡ rows.old ++ spec.formats_rows methods.now top most formats.now readings.now) }
{
    for (number, format) in formats.iter().enumerate() {
        let _ = format;
        add_format(alloc, rows, methods, top, most, number, readings)?;
    }
    Ok(())
}

/// Adds the row of a format, by its number, where a packet of it was read after a loss.
fn add_format(
    alloc: Global,
    rows: &mut Items<Items<Cell>>,
    methods: &[Method],
    top: usize,
    most: u8,
    number: usize,
    readings: &[Reading],
) -> Result<(), AllocError>
    ensures { OnOk result (rows.new ≡ rows.old ++ spec.format_rows methods.now top most readings.now number) }
{
    let Some((score, reach)) = told_format(readings, number, most)? else {
        return Ok(());
    };
    let name = Cell::of(alloc, format_name(methods, top, number))?;
    rows.push(format_row(alloc, name, score, reach)?)
}

fn format_row(
    alloc: Global,
    name: Cell,
    score: Score,
    reach: usize,
) -> Result<Items<Cell>, AllocError>
    ensures { IfOk result (λ row. row ≡ spec.format_row name score reach) }
{
    let mut row = score_row(alloc, name, score)?;
    row.push(number_cell(alloc, reach)?)?;
    Ok(row)
}

// ---- the cases

/// Adds the case of each number of lost packets, if it has one.
fn push_cases(
    alloc: Global,
    text: &mut String,
    methods: &[Method],
    top: usize,
    most: u8,
    cases: &[Case],
) -> Result<(), AllocError>
    ensures { OnOk result (string_bytes text.new ≡ string_bytes text.old ++ spec.cases_text methods.now top most cases.now) }
{
    for lost in 0..(most as usize + 1) {
        push_case_of(alloc, text, methods, top, lost, cases)?;
    }
    Ok(())
}

/// Adds the case that is told after so many lost packets.
fn push_case_of(
    alloc: Global,
    text: &mut String,
    methods: &[Method],
    top: usize,
    lost: usize,
    cases: &[Case],
) -> Result<(), AllocError>
    ensures { OnOk result (string_bytes text.new ≡ string_bytes text.old ++ spec.case_lines methods.now top cases.now lost) }
{
    match told_case(cases, lost) {
        Some(case) => push_case(alloc, text, methods, top, case),
        None => Ok(()),
    }
}

/// Adds the line of a case, and one for each use that doesn't serve.
fn push_case(
    alloc: Global,
    text: &mut String,
    methods: &[Method],
    top: usize,
    case: &Case,
) -> Result<(), AllocError>
    ensures { OnOk result (string_bytes text.new ≡ string_bytes text.old ++ spec.lines_of methods.now top case.now) }
{
    push_head(alloc, text, methods, top, case)?;
    for unserved in case.unserved.as_slice() {
        push_unserved(alloc, text, unserved)?;
    }
    Ok(())
}

fn push_head(
    alloc: Global,
    text: &mut String,
    methods: &[Method],
    top: usize,
    case: &Case,
) -> Result<(), AllocError>
    ensures { OnOk result (string_bytes text.new ≡ string_bytes text.old ++ spec.head methods.now top case.now) }
{
    let format = format_name(methods, top, case.format);
    let verdict = verdict_words(alloc, methods, &case.heard)?;
    let line = head_words(alloc, case.lost, case.number, format, verdict.as_str())?;
    text.push_str(line.as_str())
}

fn head_words(
    alloc: Global,
    lost: usize,
    number: usize,
    format: &str,
    verdict: &str,
) -> Result<String, AllocError>
    ensures { IfOk result (λ text. string_bytes text ≡ spec.head_words lost number format.now verdict.now) }
{
    format!(in alloc; "\nlost {lost} item {number} {format} {verdict}")
}

fn verdict_words(alloc: Global, methods: &[Method], heard: &Heard) -> Result<String, AllocError>
    ensures { IfOk result (λ text. string_bytes text ≡ spec.verdict_words methods.now heard.now) }
{
    match heard {
        Heard::Right => String::from_str(alloc, "right"),
        Heard::Wrong(_) => String::from_str(alloc, "wrong"),
        Heard::Refused(fault) => fault_words(alloc, methods, *fault),
    }
}

fn fault_words(alloc: Global, methods: &[Method], fault: UnpackFault) -> Result<String, AllocError>
    ensures { IfOk result (λ text. string_bytes text ≡ spec.fault_words methods.now fault) }
{
    match fault {
        UnpackFault::Truncated => String::from_str(alloc, "refused U1 Truncated"),
        UnpackFault::Refused(blamed) => blamed_words(alloc, methods, blamed),
        UnpackFault::OutOfMemory => String::from_str(alloc, "refused"),
    }
}

fn blamed_words(alloc: Global, methods: &[Method], blamed: Blamed) -> Result<String, AllocError>
    ensures { IfOk result (λ text. string_bytes text ≡ spec.blamed_words methods.now blamed) }
{
    let method = method_name(methods, blamed.method);
    match blamed.format {
        Some(format) => {
            let format = pointed(alloc, format_name(methods, blamed.method, format))?;
            refused_words(alloc, method, format.as_str())
        }
        None => refused_words(alloc, method, ""),
    }
}

fn pointed(alloc: Global, format: &str) -> Result<String, AllocError>
    ensures { IfOk result (λ text. string_bytes text ≡ codes "." ++ format.now) }
{
    format!(in alloc; ".{format}")
}

fn refused_words(alloc: Global, method: &str, format: &str) -> Result<String, AllocError>
    ensures { IfOk result (λ text. string_bytes text ≡ codes "refused U2 Refused " ++ method.now ++ format.now) }
{
    format!(in alloc; "refused U2 Refused {method}{format}")
}

// ---- the uses

fn push_unserved(alloc: Global, text: &mut String, unserved: &Unserved) -> Result<(), AllocError>
    ensures { OnOk result (string_bytes text.new ≡ string_bytes text.old ++ spec.use_line unserved.now) }
{
    let words = unserved_words(alloc, unserved)?;
    text.push_str("\n  ")?;
    text.push_str(words.as_str())
}

/// The path and the method of a use, what the receiver has for it and what it needs, and the step from the one to the other where that can be told.
pub(crate) fn unserved_words(alloc: Global, unserved: &Unserved) -> Result<String, AllocError>
    ensures { IfOk result (λ text. string_bytes text ≡ spec.unserved_words unserved.now) }
{
    let method = method_words(alloc, unserved.method)?;
    let has = reference_words(alloc, &unserved.reference)?;
    let needs = bits_cell(alloc, &unserved.needed)?;
    let mut text = use_words(
        alloc,
        unserved.path.as_str(),
        method.as_str(),
        has.as_str(),
        needs.as_str(),
    )?;
    push_step(alloc, &mut text, unserved)?;
    Ok(text)
}

fn use_words(
    alloc: Global,
    path: &str,
    method: &str,
    has: &str,
    needs: &str,
) -> Result<String, AllocError>
    ensures { IfOk result (λ text. string_bytes text ≡ spec.use_words path.now method.now has.now needs.now) }
{
    format!(in alloc; "{path} {method} has {has} needs {needs}")
}

fn method_words(alloc: Global, method: Referring) -> Result<String, AllocError>
    ensures { IfOk result (λ text. string_bytes text ≡ spec.method_words method) }
{
    match method {
        Referring::Static => String::from_str(alloc, "static"),
        Referring::Lsb { bits, offset } => lsb_words(alloc, bits, offset),
    }
}

fn lsb_words(alloc: Global, bits: i128, offset: i128) -> Result<String, AllocError>
    ensures { IfOk result (λ text. string_bytes text ≡ codes "lsb(" ++ signed_decimal bits ++ codes ", " ++ signed_decimal offset ++ codes ")") }
{
    let mut count = Buffer::new();
    let mut start = Buffer::new();
    pair_words(alloc, count.format(bits), start.format(offset))
}

fn pair_words(alloc: Global, bits: &str, offset: &str) -> Result<String, AllocError>
    ensures { IfOk result (λ text. string_bytes text ≡ codes "lsb(" ++ bits.now ++ codes ", " ++ offset.now ++ codes ")") }
{
    format!(in alloc; "lsb({bits}, {offset})")
}

fn reference_words(alloc: Global, reference: &Option<Bits>) -> Result<Cell, AllocError>
    ensures { IfOk result (λ cell. cell ≡ spec.reference_words reference.now) }
{
    match reference {
        Some(bits) => bits_cell(alloc, bits),
        None => Cell::of(alloc, "nothing"),
    }
}

/// Adds by which step the number has gone on from the reference and which are taken, where that can be told.
fn push_step(alloc: Global, text: &mut String, unserved: &Unserved) -> Result<(), AllocError>
    ensures { OnOk result (string_bytes text.new ≡ string_bytes text.old ++ spec.step_part unserved.now) }
{
    match step_of(unserved) {
        Some(step) => {
            let words = step_words(alloc, step)?;
            text.push_str(words.as_str())
        }
        None => Ok(()),
    }
}

fn step_words(alloc: Global, step: Step) -> Result<String, AllocError>
    ensures { IfOk result (λ text. string_bytes text ≡ spec.step_words step) }
{
    let mut own = Buffer::new();
    let mut from = Buffer::new();
    let mut to = Buffer::new();
    range_words(
        alloc,
        own.format(step.step),
        from.format(step.from),
        to.format(step.to),
    )
}

fn range_words(alloc: Global, step: &str, from: &str, to: &str) -> Result<String, AllocError>
    ensures { IfOk result (λ text. string_bytes text ≡ codes ": step " ++ step.now ++ codes ", takes " ++ from.now ++ codes " to " ++ to.now) }
{
    format!(in alloc; ": step {step}, takes {from} to {to}")
}
