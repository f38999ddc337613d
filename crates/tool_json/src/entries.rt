//! The last context, which stands behind a heading, as an object of JSON.

ghost use Rattle.std.specs.Prelude.{◌≡◌, ◌||◌, ◌++◌, IfOk, IfSome, OnOk, flat_map, option_map, string_bytes};
ghost use Rattle.tool_json.specs.Entries as spec;
ghost use Rattle.tool_json.specs.MessageObjects.{lines_of};
ghost use Rattle.tool_names.specs.Objects as json_spec;

use crate::message::{cut_at_blank, cut_at_colon, number_of};
use crate::messages::of_kind;
use std::alloc::{AllocError, Global};
use tool_names::objects::Object;

pub(crate) fn is_heading(line: &str) -> bool
    ensures { result ≡ spec.is_heading line.now }
{
    line == "=== context"
}

/// Adds the object of the context whose entries stand in a text behind a heading.
pub fn push_context(alloc: Global, output: &mut String, text: &str) -> Result<(), AllocError>
    ensures line { OnOk result (string_bytes output.new ≡ string_bytes output.old ++ json_spec.line (spec.context (spec.after_heading (lines_of text.now)))) }
    ensures reads_back { OnOk result (json_spec.ReadsBack (spec.context (spec.after_heading (lines_of text.now)) ++ json_spec.closed)) }
{
    let object = context_object(alloc, text)?;
    object.push_line(output)
}

fn context_object(alloc: Global, text: &str) -> Result<Object, AllocError>
    ensures { IfOk result (λ object. object ≡ spec.context (spec.after_heading (lines_of text.now))) }
{
    let mut object = of_kind(alloc, "context")?;
    object.begin_array("entries")?;
    add_entries(&mut object, text)?;
    object.end_array()?;
    Ok(object)
}

fn add_entries(object: &mut Object, text: &str) -> Result<(), AllocError>
    ensures { OnOk result (object.new ≡ object.old ++ flat_map spec.entry_tokens (spec.after_heading (lines_of text.now))) }
{
    let mut found = false;
    for line in text.split('\n') {
        found = add_after(object, found, line)?;
    }
    Ok(())
}

/// Adds the object of a line that stands after a heading, and tells whether one has come.
fn add_after(object: &mut Object, found: bool, line: &str) -> Result<bool, AllocError>
    ensures told { IfOk result (λ now. now ≡ found || spec.is_heading line.now) }
    ensures adds { OnOk result (object.new ≡ object.old ++ flat_map spec.entry_tokens (spec.after_on found line.now)) }
{
    if !found {
        return Ok(is_heading(line));
    }
    add_entry(object, line)?;
    Ok(true)
}

fn add_entry(object: &mut Object, line: &str) -> Result<(), AllocError>
    ensures { OnOk result (object.new ≡ object.old ++ spec.entry_tokens line.now) }
{
    if line.is_empty() {
        return Ok(());
    }
    match entry_of(line) {
        Some((path, count, digits)) => add_bits(object, path, count, digits),
        None => add_unread(object, line),
    }
}

/// The path of an entry, how many bits it has, and their digits: the line that these were cut from.
fn entry_of(line: &str) -> Option<(&str, usize, &str)>
    ensures is { option_map (λ e. (e.0.now, e.1, e.2.now)) result ≡ spec.entry_of line.now }
    ensures whole { IfSome result (λ e. spec.entry_line e.0.now e.1 e.2.now ≡ line.now) }
{
    let (path, bits) = cut_at_blank(line)?;
    let (count, digits) = cut_at_colon(bits)?;
    Some((path, number_of(count)?, digits))
}

fn add_bits(object: &mut Object, path: &str, count: usize, digits: &str) -> Result<(), AllocError>
    ensures { OnOk result (object.new ≡ object.old ++ spec.bits_tokens path.now count digits.now) }
{
    object.begin_element()?;
    object.text("path", path)?;
    object.counted("bits", count, digits)?;
    object.end_object()
}

fn add_unread(object: &mut Object, line: &str) -> Result<(), AllocError>
    ensures { OnOk result (object.new ≡ object.old ++ spec.unread_tokens line.now) }
{
    object.begin_element()?;
    object.text("path", line)?;
    object.null("bits")?;
    object.end_object()
}
