//! What `advise` tells of a trace, as objects.

ghost use Rattle.std.specs.Prelude.{◌≡◌, ◌++◌, IfOk, OnOk, option_map, string_bytes};
ghost use Rattle.tool_items.specs.AdviceObjects as spec;

use crate::advice::{Advice, FieldAdvice, NearAdvice, Nearest, OwnAdvice, StepRange, Taken, Way};
use crate::{FewValues, Lengths, ValueCount};
use std::alloc::{AllocError, Global};
use tool_names::objects::Object;

/// An object for all items, one for how each field goes on, one for each that has `lsb` or goes on by steps of the `lsb` that takes these, and one for what each `lsb`
/// takes. The error is out of memory.
pub fn advice_objects(alloc: Global, advice: &Advice<'_>) -> Result<String, AllocError>
    ensures { IfOk result (λ text. string_bytes text ≡ spec.advice_objects advice.now) }
{
    let mut output = String::new(alloc);
    push_all(alloc, &mut output, advice.items, advice.lost)?;
    push_fields(alloc, &mut output, advice.fields.as_slice())?;
    push_nears(alloc, &mut output, advice.nears.as_slice())?;
    push_owns(alloc, &mut output, advice.owns.as_slice())?;
    Ok(output)
}

fn push_all(alloc: Global, output: &mut String, items: usize, lost: u8) -> Result<(), AllocError>
    ensures { OnOk result (string_bytes output.new ≡ string_bytes output.old ++ spec.all_line items lost) }
{
    let mut object = Object::new(alloc)?;
    object.text("kind", "all")?;
    object.number("items", items)?;
    object.number("lost", lost as usize)?;
    object.push_line(output)
}

// ---- how each field goes on

fn push_fields(
    alloc: Global,
    output: &mut String,
    fields: &[FieldAdvice<'_>],
) -> Result<(), AllocError>
    ensures { OnOk result (string_bytes output.new ≡ string_bytes output.old ++ spec.field_lines fields.now) }
{
    for field in fields {
        push_field(alloc, output, field)?;
    }
    Ok(())
}

fn push_field(alloc: Global, output: &mut String, field: &FieldAdvice<'_>) -> Result<(), AllocError>
    ensures { OnOk result (string_bytes output.new ≡ string_bytes output.old ++ spec.field_line field.now) }
{
    let mut object = Object::new(alloc)?;
    object.text("kind", "field")?;
    object.text("field", field.name)?;
    object.text("part", field.part)?;
    add_lengths(&mut object, field.lengths)?;
    add_way(alloc, &mut object, field)?;
    object.push_line(output)
}

/// Adds how many bits the values have.
fn add_lengths(object: &mut Object, lengths: Option<Lengths>) -> Result<(), AllocError>
    ensures { OnOk result (object.new ≡ object.old ++ spec.length_members lengths) }
{
    match lengths {
        Some(lengths) => add_range(object, lengths),
        None => add_no_range(object),
    }
}

fn add_range(object: &mut Object, lengths: Lengths) -> Result<(), AllocError>
    ensures { OnOk result (object.new ≡ object.old ++ spec.range_members lengths) }
{
    object.number("least", lengths.least)?;
    object.number("most", lengths.most)
}

fn add_no_range(object: &mut Object) -> Result<(), AllocError>
    ensures { OnOk result (object.new ≡ object.old ++ spec.no_range) }
{
    object.null("least")?;
    object.null("most")
}

/// Adds the way in which a field goes on.
fn add_way(alloc: Global, object: &mut Object, field: &FieldAdvice<'_>) -> Result<(), AllocError>
    ensures { OnOk result (object.new ≡ object.old ++ spec.way_members field.now) }
{
    object.optional_text("goes", way_word(field.way))?;
    object.begin_array("values")?;
    add_values(alloc, object, field.way, field.values)?;
    object.end_array()?;
    add_same(object, field.way, field.same)?;
    add_steps(object, field.way, field.steps)?;
    object.number("without", field.without)
}

fn way_word(way: Way) -> Option<&'static str>
    ensures { option_map (λ word. word.now) result ≡ spec.way_word way }
{
    match way {
        Way::Unknown => None,
        Way::Constant => Some("constant"),
        Way::Few => Some("values"),
        Way::Steps => Some("steps"),
        Way::Random => Some("random"),
    }
}

/// Adds the values, where they are few.
fn add_values(
    alloc: Global,
    object: &mut Object,
    way: Way,
    values: &FewValues,
) -> Result<(), AllocError>
    ensures { OnOk result (object.new ≡ object.old ++ spec.values_of way values.now) }
{
    match way {
        Way::Constant | Way::Few => add_kept(alloc, object, values.kept.as_slice()),
        Way::Unknown | Way::Steps | Way::Random => Ok(()),
    }
}

fn add_kept(alloc: Global, object: &mut Object, values: &[ValueCount]) -> Result<(), AllocError>
    ensures { OnOk result (object.new ≡ object.old ++ spec.values_tokens values.now) }
{
    for value in values {
        add_value(alloc, object, value)?;
    }
    Ok(())
}

fn add_value(alloc: Global, object: &mut Object, value: &ValueCount) -> Result<(), AllocError>
    ensures { OnOk result (object.new ≡ object.old ++ spec.value_tokens value.now) }
{
    object.begin_element()?;
    object.bits(alloc, "value", &value.bits)?;
    object.number("items", value.count)?;
    object.end_object()
}

/// Adds how often the value is that of the item before, where there are few.
fn add_same(object: &mut Object, way: Way, same: Option<u128>) -> Result<(), AllocError>
    ensures { OnOk result (object.new ≡ object.old ++ spec.same_of way same) }
{
    match way {
        Way::Few => add_share(object, "as_before", same),
        Way::Unknown | Way::Constant | Way::Steps | Way::Random => object.null("as_before"),
    }
}

/// Adds a share in percent, or null where there are no steps.
fn add_share(object: &mut Object, key: &str, share: Option<u128>) -> Result<(), AllocError>
    ensures { OnOk result (object.new ≡ object.old ++ spec.share_member key.now share) }
{
    match share {
        Some(share) => object.wide(key, share),
        None => object.null(key),
    }
}

/// Adds the steps, where the field goes on by these.
fn add_steps(object: &mut Object, way: Way, steps: StepRange) -> Result<(), AllocError>
    ensures { OnOk result (object.new ≡ object.old ++ spec.steps_of way steps) }
{
    match way {
        Way::Steps => add_step_range(object, steps),
        Way::Unknown | Way::Constant | Way::Few | Way::Random => object.null("steps"),
    }
}

fn add_step_range(object: &mut Object, steps: StepRange) -> Result<(), AllocError>
    ensures { OnOk result (object.new ≡ object.old ++ spec.steps_tokens steps) }
{
    object.begin_member("steps")?;
    object.signed("least", steps.least as i128)?;
    object.signed("most", steps.most as i128)?;
    object.signed("frequent", steps.frequent as i128)?;
    object.wide("share", steps.share)?;
    object.end_object()
}

// ---- which `lsb` takes the steps

fn push_nears(
    alloc: Global,
    output: &mut String,
    nears: &[NearAdvice<'_>],
) -> Result<(), AllocError>
    ensures { OnOk result (string_bytes output.new ≡ string_bytes output.old ++ spec.near_lines nears.now) }
{
    for near in nears {
        push_near(alloc, output, near)?;
    }
    Ok(())
}

fn push_near(alloc: Global, output: &mut String, near: &NearAdvice<'_>) -> Result<(), AllocError>
    ensures { OnOk result (string_bytes output.new ≡ string_bytes output.old ++ spec.near_line near.now) }
{
    let mut object = near_object(alloc, near.field, near.lost)?;
    add_nearest(&mut object, "p90", near.most)?;
    add_nearest(&mut object, "p99", near.nearly_all)?;
    add_nearest(&mut object, "p100", near.all)?;
    object.push_line(output)
}

fn near_object(alloc: Global, field: &str, lost: u8) -> Result<Object, AllocError>
    ensures { IfOk result (λ object. object ≡ spec.near_begun field.now lost) }
{
    let mut object = Object::new(alloc)?;
    object.text("kind", "near")?;
    object.text("field", field)?;
    object.number("lost", lost as usize)?;
    Ok(object)
}

fn add_nearest(object: &mut Object, key: &str, nearest: Nearest) -> Result<(), AllocError>
    ensures { OnOk result (object.new ≡ object.old ++ spec.nearest_member key.now nearest) }
{
    match nearest {
        Nearest::Unknown => object.null(key),
        Nearest::Irregular => add_irregular(object, key),
        Nearest::Lsb { bits, offset } => add_lsb(object, key, bits, offset),
    }
}

fn add_irregular(object: &mut Object, key: &str) -> Result<(), AllocError>
    ensures { OnOk result (object.new ≡ object.old ++ spec.irregular_member key.now) }
{
    object.text(key, "irregular")
}

fn add_lsb(object: &mut Object, key: &str, bits: usize, offset: i128) -> Result<(), AllocError>
    ensures { OnOk result (object.new ≡ object.old ++ spec.lsb_member key.now bits offset) }
{
    object.begin_member(key)?;
    object.number("k", bits)?;
    object.signed("offset", offset)?;
    object.end_object()
}

// ---- what each `lsb` takes

fn push_owns(alloc: Global, output: &mut String, owns: &[OwnAdvice<'_>]) -> Result<(), AllocError>
    ensures { OnOk result (string_bytes output.new ≡ string_bytes output.old ++ spec.own_lines owns.now) }
{
    for own in owns {
        push_own(alloc, output, own)?;
    }
    Ok(())
}

fn push_own(alloc: Global, output: &mut String, own: &OwnAdvice<'_>) -> Result<(), AllocError>
    ensures { OnOk result (string_bytes output.new ≡ string_bytes output.old ++ spec.own_line own.now) }
{
    let mut object = own_object(alloc, own.field, own.format)?;
    add_taken(&mut object, own.taken)?;
    object.push_line(output)
}

fn own_object(alloc: Global, field: &str, format: &str) -> Result<Object, AllocError>
    ensures { IfOk result (λ object. object ≡ spec.own_begun field.now format.now) }
{
    let mut object = Object::new(alloc)?;
    object.text("kind", "own")?;
    object.text("field", field)?;
    object.text("format", format)?;
    Ok(object)
}

fn add_taken(object: &mut Object, taken: Option<Taken>) -> Result<(), AllocError>
    ensures { OnOk result (object.new ≡ object.old ++ spec.taken_members taken) }
{
    match taken {
        Some(taken) => add_shares(object, taken),
        None => add_none_taken(object),
    }
}

fn add_shares(object: &mut Object, taken: Taken) -> Result<(), AllocError>
    ensures { OnOk result (object.new ≡ object.old ++ spec.shares_members taken) }
{
    object.signed("k", taken.bits)?;
    object.signed("offset", taken.offset)?;
    add_share(object, "share_0", taken.next)?;
    add_share(object, "share_lost", taken.all)
}

fn add_none_taken(object: &mut Object) -> Result<(), AllocError>
    ensures { OnOk result (object.new ≡ object.old ++ spec.none_taken) }
{
    object.null("k")?;
    object.null("offset")?;
    object.null("share_0")?;
    object.null("share_lost")
}
