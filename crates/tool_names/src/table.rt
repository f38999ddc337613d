//! Texts in columns.

ghost use Rattle.std.specs.Prelude.{◌≡◌, ◌≤◌, ◌-◌, ◌++◌, IfOk, OnOk, codes, get_or, length, replicate, slice_get, string_bytes};
ghost use Rattle.tool_names.specs.Table as spec;

use sqlite_items::Items;
use std::alloc::{AllocError, Global};
use std::marker::Model;

/// 64 blanks.
const BLANKS: &str = "                                                                ";

/// A text in a table, without a line feed. Contracts see its octets.
#[derive(Drop)]
pub struct Cell {
    text: String,
}

impl Model for Cell {
    ghost use Rattle.std.specs.Prelude.{List, ℕ, string_bytes};

    ghost Value = { List ℕ };

    ghost view = { λ cell. string_bytes cell.text };
}

impl Cell {
    /// The cell of a text.
    pub fn new(text: String) -> Cell
        ensures { result ≡ string_bytes text }
    {
        Cell { text }
    }

    /// The cell of a copy of a text.
    pub fn of(alloc: Global, text: &str) -> Result<Cell, AllocError>
        ensures { IfOk result (λ cell. cell ≡ text.now) }
    {
        Ok(Cell {
            text: String::from_str(alloc, text)?,
        })
    }

    /// The text of the cell, without blanks around it.
    pub fn as_str(&self) -> &str
        ensures { result.now ≡ self.now }
    {
        self.text.as_str()
    }
}

/// Adds a line for each row, after a line feed: its cells, before each of which stand two blanks. Each column is as wide as its longest cell, and nothing fills up
/// the last cell of a row. The columns are those of the first row; a cell past them is filled up by nothing.
pub fn push_table(
    alloc: Global,
    output: &mut String,
    rows: &[Items<Cell>],
) -> Result<(), AllocError>
    ensures { OnOk result (string_bytes output.new ≡ string_bytes output.old ++ spec.table rows.now) }
{
    let widths = widths(alloc, rows)?;
    for row in rows {
        output.push('\n')?;
        push_cells(output, widths.as_slice(), row.as_slice())?;
    }
    Ok(())
}

/// The widths of the columns.
fn widths(alloc: Global, rows: &[Items<Cell>]) -> Result<Items<usize>, AllocError>
    ensures { IfOk result (λ widths. widths ≡ spec.widths rows.now) }
{
    let mut widths = Items::new(alloc);
    for column in 0..columns(rows) {
        widths.push(width(rows, column))?;
    }
    Ok(widths)
}

/// How many cells the first row has.
fn columns(rows: &[Items<Cell>]) -> usize
    ensures { result ≡ spec.columns rows.now }
{
    match rows {
        [] => 0,
        [first, ..] => first.len(),
    }
}

/// The length of the longest cell in a column.
fn width(rows: &[Items<Cell>], column: usize) -> usize
    ensures { result ≡ spec.width rows.now column }
{
    let mut most = 0;
    for row in rows {
        most = most.max(cell_length(row.as_slice(), column));
    }
    most
}

/// The length of the cell in a column, 0 where there is none.
fn cell_length(row: &[Cell], column: usize) -> usize
    ensures { result ≡ spec.cell_length row.now column }
{
    match row.get(column) {
        Some(cell) => cell.as_str().len(),
        None => 0,
    }
}

/// Adds the cells of a row.
fn push_cells(output: &mut String, widths: &[usize], row: &[Cell]) -> Result<(), AllocError>
    ensures { OnOk result (string_bytes output.new ≡ string_bytes output.old ++ spec.cells_text widths.now 0 0 row.now) }
{
    let mut gap = 0;
    for (column, cell) in row.iter().enumerate() {
        push_cell(output, gap, cell.as_str())?;
        gap = width_at(widths, column).saturating_sub(cell.as_str().len());
    }
    Ok(())
}

/// Adds a cell, after so many blanks and two more.
fn push_cell(output: &mut String, gap: usize, cell: &str) -> Result<(), AllocError>
    ensures { OnOk result (string_bytes output.new ≡ string_bytes output.old ++ replicate gap 32 ++ codes "  " ++ cell.now) }
{
    push_blanks(output, gap)?;
    output.push_str("  ")?;
    output.push_str(cell)
}

/// Puts so many blanks at the end of the text. It fails only where memory is refused.
pub fn push_blanks(output: &mut String, count: usize) -> Result<(), AllocError>
    ensures { OnOk result (string_bytes output.new ≡ string_bytes output.old ++ replicate count 32) }
{
    for _ in 0..count / 64 {
        output.push_str(blanks(64))?;
    }
    output.push_str(blanks(count % 64))
}

/// Up to 64 blanks.
fn blanks(count: usize) -> &'static str
    requires { count ≤ 64 }
    ensures { result.now ≡ replicate count 32 }
{
    &BLANKS[..count]
}

/// The width of a column, 0 where it is none.
fn width_at(widths: &[usize], column: usize) -> usize
    ensures { result ≡ get_or widths.now column 0 }
{
    match widths.get(column) {
        Some(width) => *width,
        None => 0,
    }
}
