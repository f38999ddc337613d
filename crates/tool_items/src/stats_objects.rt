//! What `stats` counts, as objects.

ghost use Rattle.std.specs.Prelude.{◌≡◌, ◌++◌, List, IfOk, OnOk, string_bytes};
ghost use Rattle.sem_filling.specs.declared.filling.Filling.{Filling};
ghost use Rattle.tool_items.specs.Sums.{AreSums};
ghost use Rattle.tool_items.specs.StatsObjects as spec;

use crate::stats::{Counted, RowOf, counted_rows, mean_text};
use crate::{Sums, Tally};
use sem_profile::Method;
use std::alloc::{AllocError, Global};
use tool_names::objects::Object;

/// An object for all items that are counted, and one for each row of the table of `stats`. The error is out of memory.
pub fn stats_objects(
    alloc: Global,
    methods: &[Method],
    top: usize,
    sums: &Sums,
) -> Result<String, AllocError>
    ensures { IfOk result (λ text. (fs : List Filling) → AreSums fs sums.now → string_bytes text ≡ spec.stats_objects methods.now top fs) }
{
    let rows = counted_rows(alloc, methods, top, sums)?;
    counted_objects(alloc, sums.all, rows.as_slice())
}

fn counted_objects(alloc: Global, all: Tally, rows: &[Counted]) -> Result<String, AllocError>
    ensures { IfOk result (λ text. string_bytes text ≡ spec.counted_objects all rows.now) }
{
    let mut output = String::new(alloc);
    push_all(alloc, &mut output, all)?;
    for row in rows {
        push_row(alloc, &mut output, row)?;
    }
    Ok(output)
}

/// Adds the object of all items.
pub fn push_all(alloc: Global, output: &mut String, all: Tally) -> Result<(), AllocError>
    ensures { OnOk result (string_bytes output.new ≡ string_bytes output.old ++ spec.all_line all) }
{
    let mut object = Object::new(alloc)?;
    object.text("kind", "all")?;
    add_tally(alloc, &mut object, all)?;
    object.push_line(output)
}

fn push_row(alloc: Global, output: &mut String, row: &Counted) -> Result<(), AllocError>
    ensures { OnOk result (string_bytes output.new ≡ string_bytes output.old ++ spec.row_line row.now) }
{
    let mut object = Object::new(alloc)?;
    object.text("kind", part_word(row.part))?;
    object.number("depth", row.depth)?;
    object.text("name", row.name.as_str())?;
    add_tally(alloc, &mut object, row.tally)?;
    object.push_line(output)
}

fn part_word(part: RowOf) -> &'static str
    ensures { result.now ≡ spec.part_word part }
{
    match part {
        RowOf::Format => "format",
        RowOf::Field => "field",
    }
}

/// Adds how many items there are, their bits and the mean.
fn add_tally(alloc: Global, object: &mut Object, tally: Tally) -> Result<(), AllocError>
    ensures { OnOk result (object.new ≡ object.old ++ spec.tally_members tally) }
{
    object.number("items", tally.items)?;
    object.number("bits", tally.bits)?;
    add_mean(alloc, object, tally)
}

fn add_mean(alloc: Global, object: &mut Object, tally: Tally) -> Result<(), AllocError>
    ensures { OnOk result (object.new ≡ object.old ++ spec.mean_member tally) }
{
    if tally.items == 0 {
        return object.null("mean");
    }
    let mean = mean_text(alloc, tally)?;
    object.figure("mean", mean.as_str())
}

/// Adds the object of an item that is packed: its number, its format and how many bits its packet has.
pub fn push_item(
    alloc: Global,
    output: &mut String,
    number: usize,
    format: &str,
    bits: usize,
) -> Result<(), AllocError>
    ensures { OnOk result (string_bytes output.new ≡ string_bytes output.old ++ spec.item_line number format.now bits) }
{
    let object = item_object(alloc, number, format, bits)?;
    object.push_line(output)
}

fn item_object(
    alloc: Global,
    number: usize,
    format: &str,
    bits: usize,
) -> Result<Object, AllocError>
    ensures { IfOk result (λ object. object ≡ spec.item_tokens number format.now bits) }
{
    let mut object = Object::new(alloc)?;
    object.text("kind", "item")?;
    object.number("number", number)?;
    object.text("format", format)?;
    object.number("bits", bits)?;
    Ok(object)
}
