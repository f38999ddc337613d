//! The rows of `fields`. What a row has to say is lent, and put into its columns at once.

ghost use Rattle.std.specs.Prelude.{◌≡◌, ◌-◌, ◌++◌, IfOk, OnOk, fold, length, map, replicate, string_bytes};
ghost use Rattle.tool_input.specs.BitTexts.{bits_text};
ghost use Rattle.tool_items.specs.Rows as spec;
ghost use Rattle.tool_names.specs.Table.{table};

use itoa::Buffer;
use sem_bits::Bits;
use std::alloc::{AllocError, Global};
use tool_input::texts;
use tool_names::table::push_blanks;

/// What the row of a field has to say: its name after some blanks, its part, both sides and what encodes it.
#[derive(Clone, Copy)]
pub(crate) struct FieldRow<'a> {
    pub indent: usize,
    pub name: &'a str,
    pub part: &'a str,
    pub uncompressed: &'a Bits,
    pub compressed: &'a Bits,
    pub method: MethodWords<'a>,
}

/// What encodes a field, and a point and a format, where one stands behind it.
#[derive(Clone, Copy)]
pub(crate) struct MethodWords<'a> {
    pub method: &'a str,
    pub point: &'a str,
    pub format: &'a str,
}

/// The widths of the columns but for the last, which nothing fills up.
#[derive(Clone, Copy)]
pub(crate) struct Widths {
    pub name: usize,
    pub part: usize,
    pub uncompressed: usize,
    pub compressed: usize,
}

/// Adds a line for each row, after a line feed, as a table has it.
pub(crate) fn push_rows(
    alloc: Global,
    output: &mut String,
    rows: &[FieldRow<'_>],
) -> Result<(), AllocError>
    ensures { OnOk result (string_bytes output.new ≡ string_bytes output.old ++ table (map spec.row_of rows.now)) }
{
    let widths = widths_of(rows)?;
    for row in rows {
        push_row(alloc, output, widths, row)?;
    }
    Ok(())
}

/// The widths of the columns. No text has so many octets that they could not be counted.
fn widths_of(rows: &[FieldRow<'_>]) -> Result<Widths, AllocError>
    ensures { IfOk result (λ widths. widths ≡ fold spec.widened spec.no_widths (map spec.row_of rows.now)) }
{
    let mut widths = Widths {
        name: 0,
        part: 0,
        uncompressed: 0,
        compressed: 0,
    };
    for row in rows {
        widths = widened(widths, row)?;
    }
    Ok(widths)
}

/// The widths, where one more row is to have room.
fn widened(widths: Widths, row: &FieldRow<'_>) -> Result<Widths, AllocError>
    ensures { IfOk result (λ widened. widened ≡ spec.widened widths (spec.row_of row.now)) }
{
    let Some(name) = row.indent.checked_add(row.name.len()) else {
        return Err(AllocError);
    };
    Ok(Widths {
        name: widths.name.max(name),
        part: widths.part.max(row.part.len()),
        uncompressed: widths.uncompressed.max(bits_length(row.uncompressed)),
        compressed: widths.compressed.max(bits_length(row.compressed)),
    })
}

/// How many octets the text of bits has.
fn bits_length(bits: &Bits) -> usize
    ensures { result ≡ length (bits_text bits.now) }
{
    let count = bits.len();
    if count == 0 {
        return 2;
    }
    let octets = (count + 7) / 8;
    let mut buffer = Buffer::new();
    buffer.format(count).len() + 1 + octets * 2
}

/// Adds the line of a row.
fn push_row(
    alloc: Global,
    output: &mut String,
    widths: Widths,
    row: &FieldRow<'_>,
) -> Result<(), AllocError>
    ensures { OnOk result (string_bytes output.new ≡ string_bytes output.old ++ spec.line_text widths row.now) }
{
    output.push_str("\n  ")?;
    push_name(output, widths.name, row.indent, row.name)?;
    output.push_str("  ")?;
    push_word(output, widths.part, row.part)?;
    output.push_str("  ")?;
    push_bits(alloc, output, widths.uncompressed, row.uncompressed)?;
    output.push_str("  ")?;
    push_bits(alloc, output, widths.compressed, row.compressed)?;
    output.push_str("  ")?;
    push_method(output, row.method)?;
    Ok(())
}

/// Adds a name after so many blanks, and what fills its column up.
fn push_name(output: &mut String, width: usize, indent: usize, name: &str) -> Result<(), AllocError>
    ensures { OnOk result (string_bytes output.new ≡ string_bytes output.old ++ spec.filled_up width (replicate indent 32 ++ name.now)) }
{
    push_blanks(output, indent)?;
    output.push_str(name)?;
    push_gap(
        output,
        width.saturating_sub(indent).saturating_sub(name.len()),
    )
}

/// Adds a word, and what fills its column up.
fn push_word(output: &mut String, width: usize, word: &str) -> Result<(), AllocError>
    ensures { OnOk result (string_bytes output.new ≡ string_bytes output.old ++ spec.filled_up width word.now) }
{
    output.push_str(word)?;
    push_gap(output, width.saturating_sub(word.len()))
}

/// Adds the text of bits, and what fills its column up.
fn push_bits(
    alloc: Global,
    output: &mut String,
    width: usize,
    bits: &Bits,
) -> Result<(), AllocError>
    ensures { OnOk result (string_bytes output.new ≡ string_bytes output.old ++ spec.filled_up width (bits_text bits.now)) }
{
    push_text(alloc, output, bits)?;
    push_gap(output, width.saturating_sub(bits_length(bits)))
}

/// Adds the text of bits.
fn push_text(alloc: Global, output: &mut String, bits: &Bits) -> Result<(), AllocError>
    ensures { OnOk result (string_bytes output.new ≡ string_bytes output.old ++ bits_text bits.now) }
{
    if bits.is_empty() {
        output.push_str("0:")?;
        return Ok(());
    }
    texts::push_bits(alloc, output, bits)?;
    Ok(())
}

/// Adds blanks, which mostly are none.
fn push_gap(output: &mut String, gap: usize) -> Result<(), AllocError>
    ensures { OnOk result (string_bytes output.new ≡ string_bytes output.old ++ replicate gap 32) }
{
    if gap == 0 {
        return Ok(());
    }
    push_blanks(output, gap)
}

/// Adds what encodes a field.
fn push_method(output: &mut String, words: MethodWords<'_>) -> Result<(), AllocError>
    ensures { OnOk result (string_bytes output.new ≡ string_bytes output.old ++ spec.words_of words.entry) }
{
    output.push_str(words.method)?;
    push_some(output, words.point)?;
    push_some(output, words.format)
}

/// Adds a text that mostly is empty.
fn push_some(output: &mut String, text: &str) -> Result<(), AllocError>
    ensures { OnOk result (string_bytes output.new ≡ string_bytes output.old ++ text.now) }
{
    if text.is_empty() {
        return Ok(());
    }
    output.push_str(text)
}
