//! What `loss` tells of what receivers read, as objects.

ghost use Rattle.std.specs.Prelude.{◌≡◌, ◌++◌, IfOk, OnOk, string_bytes};
ghost use Rattle.tool_loss.specs.LossObjects as spec;

use crate::step::{Step, step_of};
use crate::told::{told_case, told_format};
use sem_profile::{Format, Method};
use std::alloc::{AllocError, Global};
use tool_items::Tally;
use tool_items::stats_objects::push_all;
use tool_names::names::{format_name, formats_of, method_name};
use tool_names::objects::Object;
use walk_engine::UnpackFault;
use walk_loss::{Case, Group, Heard, Reading, Referring, Score, Unserved, score_of};
use walk_read::Blamed;

/// An object for all items; one for each number of lost packets; where that may be above 0, one for each format of the top of which packets were read after losses;
/// and for each number after which a packet isn't read right one for the first wrong case, or where none is wrong for the first that is refused. The error is out of
/// memory.
pub fn loss_objects(
    alloc: Global,
    methods: &[Method],
    top: usize,
    most: u8,
    tally: Tally,
    readings: &[Reading],
    cases: &[Case],
) -> Result<String, AllocError>
    ensures { IfOk result (λ text. string_bytes text ≡ spec.loss_objects methods.now top most tally readings.now cases.now) }
{
    let mut output = String::new(alloc);
    push_all(alloc, &mut output, tally)?;
    push_scores(alloc, &mut output, most as usize + 1, readings)?;
    push_formats(alloc, &mut output, methods, top, most, readings)?;
    push_cases(alloc, &mut output, methods, top, most, cases)?;
    Ok(output)
}

// ---- how many are read right

/// Adds an object for each number of lost packets below the end.
fn push_scores(
    alloc: Global,
    output: &mut String,
    end: usize,
    readings: &[Reading],
) -> Result<(), AllocError>
    ensures { OnOk result (string_bytes output.new ≡ string_bytes output.old ++ spec.score_lines end readings.now) }
{
    for lost in 0..end {
        push_score(alloc, output, lost, readings)?;
    }
    Ok(())
}

fn push_score(
    alloc: Global,
    output: &mut String,
    lost: usize,
    readings: &[Reading],
) -> Result<(), AllocError>
    ensures { OnOk result (string_bytes output.new ≡ string_bytes output.old ++ spec.lost_line readings.now lost) }
{
    let score = score_of(readings, Group::After(lost))?;
    let mut object = Object::new(alloc)?;
    object.text("kind", "lost")?;
    object.number("lost", lost)?;
    add_score(&mut object, score)?;
    object.push_line(output)
}

fn add_score(object: &mut Object, score: Score) -> Result<(), AllocError>
    ensures { OnOk result (object.new ≡ object.old ++ spec.score_members score) }
{
    object.number("packets", score.packets)?;
    object.number("right", score.right)?;
    object.number("refused", score.refused)?;
    object.number("wrong", score.wrong)
}

/// Adds the objects of the formats of the top.
fn push_formats(
    alloc: Global,
    output: &mut String,
    methods: &[Method],
    top: usize,
    most: u8,
    readings: &[Reading],
) -> Result<(), AllocError>
    ensures { OnOk result (string_bytes output.new ≡ string_bytes output.old ++ spec.formats_lines methods.now top most readings.now) }
{
    if most == 0 {
        return Ok(());
    }
    let formats = formats_of(methods, top);
    push_each_format(alloc, output, methods, top, most, formats, readings)
}

fn push_each_format(
    alloc: Global,
    output: &mut String,
    methods: &[Method],
    top: usize,
    most: u8,
    formats: &[Format],
    readings: &[Reading],
) -> Result<(), AllocError>
    ensures { OnOk result (string_bytes output.new ≡ string_bytes output.old ++ spec.each_format methods.now top most formats.now readings.now) }
{
    for (number, format) in formats.iter().enumerate() {
        let _ = format;
        push_format(alloc, output, methods, top, most, number, readings)?;
    }
    Ok(())
}

/// Adds the object of a format, by its number, where a packet of it was read after a loss.
fn push_format(
    alloc: Global,
    output: &mut String,
    methods: &[Method],
    top: usize,
    most: u8,
    number: usize,
    readings: &[Reading],
) -> Result<(), AllocError>
    ensures { OnOk result (string_bytes output.new ≡ string_bytes output.old ++ spec.format_lines methods.now top most readings.now number) }
{
    let Some((score, reach)) = told_format(readings, number, most)? else {
        return Ok(());
    };
    let name = format_name(methods, top, number);
    push_format_object(alloc, output, name, score, reach)
}

fn push_format_object(
    alloc: Global,
    output: &mut String,
    name: &str,
    score: Score,
    reach: usize,
) -> Result<(), AllocError>
    ensures { OnOk result (string_bytes output.new ≡ string_bytes output.old ++ spec.format_line name.now score reach) }
{
    let mut object = Object::new(alloc)?;
    object.text("kind", "format")?;
    object.text("format", name)?;
    add_score(&mut object, score)?;
    object.number("reach", reach)?;
    object.push_line(output)
}

// ---- the cases

/// Adds the case of each number of lost packets, if it has one.
fn push_cases(
    alloc: Global,
    output: &mut String,
    methods: &[Method],
    top: usize,
    most: u8,
    cases: &[Case],
) -> Result<(), AllocError>
    ensures { OnOk result (string_bytes output.new ≡ string_bytes output.old ++ spec.cases_lines methods.now top most cases.now) }
{
    for lost in 0..(most as usize + 1) {
        push_case_of(alloc, output, methods, top, lost, cases)?;
    }
    Ok(())
}

/// Adds the case that is told after so many lost packets.
fn push_case_of(
    alloc: Global,
    output: &mut String,
    methods: &[Method],
    top: usize,
    lost: usize,
    cases: &[Case],
) -> Result<(), AllocError>
    ensures { OnOk result (string_bytes output.new ≡ string_bytes output.old ++ spec.case_lines methods.now top cases.now lost) }
{
    match told_case(cases, lost) {
        Some(case) => push_case(alloc, output, methods, top, case),
        None => Ok(()),
    }
}

fn push_case(
    alloc: Global,
    output: &mut String,
    methods: &[Method],
    top: usize,
    case: &Case,
) -> Result<(), AllocError>
    ensures { OnOk result (string_bytes output.new ≡ string_bytes output.old ++ spec.case_line methods.now top case.now) }
{
    let mut object = case_object(alloc, case, format_name(methods, top, case.format))?;
    add_heard(&mut object, methods, &case.heard)?;
    object.begin_array("uses")?;
    add_uses(alloc, &mut object, case.unserved.as_slice())?;
    object.end_array()?;
    object.push_line(output)
}

/// The object of a case, but for what is heard and for the uses.
fn case_object(alloc: Global, case: &Case, format: &str) -> Result<Object, AllocError>
    ensures { IfOk result (λ object. object ≡ spec.case_begun case.now format.now) }
{
    let mut object = Object::new(alloc)?;
    object.text("kind", "case")?;
    object.number("lost", case.lost)?;
    object.number("item", case.number)?;
    object.text("format", format)?;
    Ok(object)
}

/// Adds what a receiver reads: whether it is refused, and by which fault.
fn add_heard(object: &mut Object, methods: &[Method], heard: &Heard) -> Result<(), AllocError>
    ensures { OnOk result (object.new ≡ object.old ++ spec.heard_members methods.now heard.now) }
{
    match heard {
        Heard::Right => add_verdict(object, "right"),
        Heard::Wrong(_) => add_verdict(object, "wrong"),
        Heard::Refused(fault) => add_fault(object, methods, *fault),
    }
}

/// Adds what is heard, where that has no fault.
fn add_verdict(object: &mut Object, word: &str) -> Result<(), AllocError>
    ensures { OnOk result (object.new ≡ object.old ++ spec.verdict_members word.now) }
{
    object.text("heard", word)?;
    object.null("code")?;
    object.null("method")?;
    object.null("at")
}

fn add_fault(object: &mut Object, methods: &[Method], fault: UnpackFault) -> Result<(), AllocError>
    ensures { OnOk result (object.new ≡ object.old ++ spec.fault_members methods.now fault) }
{
    match fault {
        UnpackFault::Truncated => add_truncated(object),
        UnpackFault::Refused(blamed) => add_blamed(object, methods, blamed),
        UnpackFault::OutOfMemory => add_verdict(object, "refused"),
    }
}

fn add_truncated(object: &mut Object) -> Result<(), AllocError>
    ensures { OnOk result (object.new ≡ object.old ++ spec.truncated_members) }
{
    object.text("heard", "refused")?;
    object.text("code", "U1")?;
    object.null("method")?;
    object.null("at")
}

/// Adds the method at work, and its format where the tree gave one.
fn add_blamed(object: &mut Object, methods: &[Method], blamed: Blamed) -> Result<(), AllocError>
    ensures { OnOk result (object.new ≡ object.old ++ spec.blamed_members methods.now blamed) }
{
    object.text("heard", "refused")?;
    object.text("code", "U2")?;
    object.text("method", method_name(methods, blamed.method))?;
    add_format(object, methods, blamed.method, blamed.format)
}

fn add_format(
    object: &mut Object,
    methods: &[Method],
    method: usize,
    format: Option<usize>,
) -> Result<(), AllocError>
    ensures { OnOk result (object.new ≡ object.old ++ spec.at_member methods.now method format) }
{
    match format {
        Some(format) => object.text("at", format_name(methods, method, format)),
        None => object.null("at"),
    }
}

// ---- the uses

/// Adds an object for each use.
fn add_uses(alloc: Global, object: &mut Object, uses: &[Unserved]) -> Result<(), AllocError>
    ensures { OnOk result (object.new ≡ object.old ++ spec.uses_tokens uses.now) }
{
    for unserved in uses {
        add_use(alloc, object, unserved)?;
    }
    Ok(())
}

fn add_use(alloc: Global, object: &mut Object, unserved: &Unserved) -> Result<(), AllocError>
    ensures { OnOk result (object.new ≡ object.old ++ spec.use_tokens unserved.now) }
{
    object.begin_element()?;
    object.text("path", unserved.path.as_str())?;
    add_method(object, unserved.method)?;
    add_sides(alloc, object, unserved)?;
    add_step(object, step_of(unserved))?;
    object.end_object()
}

fn add_method(object: &mut Object, method: Referring) -> Result<(), AllocError>
    ensures { OnOk result (object.new ≡ object.old ++ spec.method_members method) }
{
    match method {
        Referring::Static => add_static(object),
        Referring::Lsb { bits, offset } => add_lsb(object, bits, offset),
    }
}

fn add_static(object: &mut Object) -> Result<(), AllocError>
    ensures { OnOk result (object.new ≡ object.old ++ spec.static_members) }
{
    object.text("method", "static")?;
    object.null("k")?;
    object.null("offset")
}

fn add_lsb(object: &mut Object, bits: i128, offset: i128) -> Result<(), AllocError>
    ensures { OnOk result (object.new ≡ object.old ++ spec.lsb_members bits offset) }
{
    object.text("method", "lsb")?;
    object.signed("k", bits)?;
    object.signed("offset", offset)
}

/// Adds what the receiver has and what the packet needs.
fn add_sides(alloc: Global, object: &mut Object, unserved: &Unserved) -> Result<(), AllocError>
    ensures { OnOk result (object.new ≡ object.old ++ spec.sides_members unserved.now) }
{
    match &unserved.reference {
        Some(bits) => object.bits(alloc, "has", bits)?,
        None => object.null("has")?,
    }
    object.bits(alloc, "needs", &unserved.needed)
}

fn add_step(object: &mut Object, step: Option<Step>) -> Result<(), AllocError>
    ensures { OnOk result (object.new ≡ object.old ++ spec.step_members step) }
{
    match step {
        Some(step) => add_steps(object, step),
        None => add_no_step(object),
    }
}

fn add_steps(object: &mut Object, step: Step) -> Result<(), AllocError>
    ensures { OnOk result (object.new ≡ object.old ++ spec.told_step step) }
{
    object.signed("step", step.step)?;
    object.signed("from", step.from)?;
    object.signed("to", step.to)
}

fn add_no_step(object: &mut Object) -> Result<(), AllocError>
    ensures { OnOk result (object.new ≡ object.old ++ spec.no_step) }
{
    object.null("step")?;
    object.null("from")?;
    object.null("to")
}
