//! A closer look at a candidate, before its plan is followed: at what its fields are asked for, and at its calls, each of which is walked by itself.

ghost use Rattle.std.specs.Prelude.{◌≡◌, ◌<◌, ◌≤◌, ◌-◌, ℕ, [], Some, IsTrue, IfOk, IfSome, OnOk, drop, length, slice_get};
ghost use Rattle.cert_types.specs.declared.certificate.Step.TheVariants as steps;
ghost use Rattle.cert_accepted.specs.Standing.{Stands, HasDepth};
ghost use Rattle.sem_filling.specs.Bounded.{ArgumentsLie};
ghost use Rattle.sem_filling.specs.Ready.{ArgumentsLieAt};
ghost use Rattle.walk_write.specs.Closer as closer;
ghost use Rattle.walk_write.specs.Foresight as spec;
ghost use Rattle.walk_write.specs.Sources.{IsWithin, front};
ghost use Rattle.walk_write.specs.Walking.{Fails, IsBelow};

use crate::calls::radix_of;
use crate::end::plans_of;
use crate::fault::WriteFault;
use crate::foresight::{CalledField, Choices, Outlook, note_asked, read_call, read_choice};
use crate::premises::{Chosen, Premises, Values, tells_values};
use crate::refutation::{is_header, is_other_at, offset_at};
use crate::source::HeaderSource;
use crate::start::start_at;
use crate::take::asked_before;
use crate::walk::write_method;
use cert_accepted::frame::{format_of, looks_of};
use cert_accepted::{Accepted, AcceptedFrame};
use cert_candidates::Digits;
use cert_types::Step;
use sem_bits::Cursor;
use sem_expr::Interval;
use sem_filling::{AskedValue, FieldPath, Frame};
use sem_profile::Encoding;
use smallvec::SmallVec;
use sqlite_items::{Items, at};
use std::alloc::{AllocError, Global};

/// How many candidates fail from this number on, by a closer look at it: a field can't have the value that it is asked for, or the filling inside a call, which is
/// walked by itself, has no way. None where that isn't told, though they may fail. It costs less than the walk of the whole plan, and more than other looks. The
/// error is out of memory.
///
/// `depth` is how many methods a chain of calls from this one may have.
pub fn refuted_closely(
    depth: usize,
    alloc: Global,
    place: &AcceptedFrame<'_>,
    source: &HeaderSource<'_>,
    number: u64,
) -> Result<Option<u64>, AllocError>
    requires stands { Stands place.now }
    requires deep { HasDepth place.now depth }
    requires within { IsWithin source.now }
    requires below { IsBelow place.now number }
    ensures { IfOk result (λ o. IfSome o (Fails place.now (front source.now) source.now.asked.now number)) }
{
    let Some(start) = start_at(place, number) else {
        return Ok(None);
    };
    let Some(plans) = plans_of(place.accepted, place.frame.method, start.format) else {
        return Ok(None);
    };
    let Some(format) = format_of(place.accepted, place.frame.method, start.format) else {
        return Ok(None);
    };
    let Some(looks) = looks_of(place.accepted, place.frame.method, start.format) else {
        return Ok(None);
    };
    let outlook = Outlook {
        place,
        index: start.format,
        format,
        looks,
        source,
    };
    let plan = plans.write.as_slice();
    refuted_in(depth, alloc, &outlook, plan, start.digits, number)
}

/// The same by the plan of its format.
fn refuted_in(
    depth: usize,
    alloc: Global,
    outlook: &Outlook<'_>,
    plan: &[Step],
    start: Digits,
    number: u64,
) -> Result<Option<u64>, AllocError>
    requires stands { Stands outlook.now.place.now }
    requires deep { HasDepth outlook.now.place.now depth }
    requires within { IsWithin outlook.now.source.now }
    requires listed { spec.IsListed outlook.now }
    requires seen { spec.HasSeen outlook.now.place.now outlook.now.index outlook.now.format.now outlook.now.source.now.asked.now plan.now number start [] }
    ensures { IfOk result (λ o. IfSome o (spec.FailsFrom outlook.now number)) }
{
    let mut digits = start;
    let mut choices = SmallVec::new(alloc);
    for step in plan {
        let told = refuted_by_step(
            depth,
            alloc,
            outlook,
            *step,
            digits,
            choices.as_slice(),
            number,
        )?;
        if let Some(many) = told {
            return Ok(Some(many));
        }
        read_step(alloc, outlook, *step, &mut digits, &mut choices, number)?;
    }
    Ok(None)
}

/// The same by a step of the plan.
fn refuted_by_step(
    depth: usize,
    alloc: Global,
    outlook: &Outlook<'_>,
    step: Step,
    digits: Digits,
    choices: &[Chosen],
    number: u64,
) -> Result<Option<u64>, AllocError>
    requires stands { Stands outlook.now.place.now }
    requires deep { HasDepth outlook.now.place.now depth }
    requires within { IsWithin outlook.now.source.now }
    requires listed { spec.IsListed outlook.now }
    requires before { spec.StandsAt outlook.now step number digits choices.now }
    ensures { IfOk result (λ o. IfSome o (spec.FailsFrom outlook.now number)) }
{
    match step {
        Step::Call(field) => {
            refuted_by_walk(depth, alloc, outlook, field, digits, choices, number)
        }
        Step::Ask(field) => refuted_by_asked(alloc, outlook, field, digits, choices, number),
        _ => Ok(None),
    }
}

/// Reads the digit of a step, if it has one, and notes what is asked for.
fn read_step(
    alloc: Global,
    outlook: &Outlook<'_>,
    step: Step,
    digits: &mut Digits,
    choices: &mut Choices,
    number: u64,
) -> Result<(), AllocError>
    requires before { spec.StandsAt outlook.now step number digits.old choices.old.items }
    ensures { OnOk result (spec.ReadsOn outlook.now step number digits.old choices.old.items digits.new choices.new.items) }
{
    match step {
        Step::Call(field) => {
            read_call(outlook, field, digits, choices.as_slice(), number);
            Ok(())
        }
        Step::Choose(field) => read_choice(alloc, outlook, field, digits, choices, number),
        Step::Ask(field) => note_asked(outlook, field, *digits, choices, number),
        _ => Ok(()),
    }
}

/// How many candidates fail from this one on, where the field can't have the value that it is asked for.
fn refuted_by_asked(
    alloc: Global,
    outlook: &Outlook<'_>,
    field: usize,
    digits: Digits,
    choices: &[Chosen],
    number: u64,
) -> Result<Option<u64>, AllocError>
    requires before { spec.StandsAt outlook.now (steps.Ask field) number digits choices.now }
    ensures { IfOk result (λ o. IfSome o (spec.FailsFrom outlook.now number)) }
{
    let Some(found) = at(outlook.format.fields.as_slice(), field) else {
        return Ok(None);
    };
    if !found.declared.asked {
        return Ok(None);
    }
    let (place, source) = (outlook.place, outlook.source);
    let Some(value) = at(source.asked, asked_before(outlook.format, field)) else {
        return Ok(None);
    };
    let told = Premises {
        format: outlook.format,
        arguments: place.frame.arguments,
        choices: &[],
        places: &[],
    };
    let cursor = Cursor::new(&value.bits);
    let has_other = is_other_at(alloc, place, &told, field, found, &cursor, 0)?;
    if has_other {
        Ok(Some(digits.alike()))
    } else {
        Ok(None)
    }
}

/// How many candidates fail from this one on, where the filling inside the call that comes next has no way.
fn refuted_by_walk(
    depth: usize,
    alloc: Global,
    outlook: &Outlook<'_>,
    field: usize,
    before: Digits,
    choices: &[Chosen],
    number: u64,
) -> Result<Option<u64>, AllocError>
    requires stands { Stands outlook.now.place.now }
    requires deep { HasDepth outlook.now.place.now depth }
    requires within { IsWithin outlook.now.source.now }
    requires listed { spec.IsListed outlook.now }
    requires before { spec.StandsAt outlook.now (steps.Call field) number before choices.now }
    ensures { IfOk result (λ o. IfSome o (spec.FailsFrom outlook.now number)) }
{
    let Some(found) = at(outlook.format.fields.as_slice(), field) else {
        return Ok(None);
    };
    let Encoding::Call { method, arguments } = found.encoding.get() else {
        return Ok(None);
    };
    if !is_header(found) {
        return Ok(None);
    }
    let place = outlook.place;
    let told = Premises {
        format: outlook.format,
        arguments: place.frame.arguments,
        choices,
        places: &[],
    };
    let mut values = Values::new(alloc);
    let are_told = tells_values(&told, arguments.as_slice(), &mut values)?;
    if !are_told {
        return Ok(None);
    }
    let called = CalledField {
        index: field,
        field: found,
        method: *method,
        arguments: values.as_slice(),
    };
    let radix = radix_of(place.accepted, *method);
    let mut digits = before;
    let digit = digits.next(radix);
    let Some(many) = walked_inside(depth, alloc, outlook, &called, digit)? else {
        return Ok(None);
    };
    Ok(Some(digits.alike_up_to(many)))
}

/// How many candidates of the called method from this one on have no way where the field begins.
fn walked_inside(
    depth: usize,
    alloc: Global,
    outlook: &Outlook<'_>,
    called: &CalledField<'_>,
    number: u64,
) -> Result<Option<u64>, AllocError>
    requires stands { Stands outlook.now.place.now }
    requires deep { HasDepth outlook.now.place.now depth }
    requires within { IsWithin outlook.now.source.now }
    requires listed { spec.IsListed outlook.now }
    requires calls { closer.IsHeaderCall outlook.now called.now }
    requires below { (n : ℕ) → slice_get outlook.now.place.now.accepted.now.counts called.now.method ≡ Some n → number < n }
    ensures { IfOk result (λ o. IfSome o (closer.FailsInside outlook.now called.now number)) }
{
    let place = outlook.place;
    if !do_lie(place.accepted, called.method, called.arguments) {
        return Ok(None);
    }
    let source = outlook.source;
    let most = source.cursor.rest() - source.from;
    let Some(offset) = offset_at(outlook.looks, called.index, most) else {
        return Ok(None);
    };
    let path = FieldPath::of(alloc, place.frame.path, called.field.declared.name.as_str())?;
    let there = AcceptedFrame {
        accepted: place.accepted,
        frame: Frame {
            profile: place.frame.profile,
            context: place.frame.context,
            method: called.method,
            arguments: called.arguments,
            path: path.as_str(),
        },
    };
    walked_at(
        depth,
        alloc,
        &there,
        source.cursor,
        source.from + offset,
        number,
    )
}

/// How many candidates of the method from this one on have no way there, where nothing is asked for.
fn walked_at<'a>(
    depth: usize,
    alloc: Global,
    there: &AcceptedFrame<'_>,
    cursor: &'a Cursor<'a>,
    from: usize,
    number: u64,
) -> Result<Option<u64>, AllocError>
    requires stands { Stands there.now }
    requires some { 0 < depth }
    requires deep { HasDepth there.now (depth - 1) }
    requires within { from ≤ length cursor.now.left }
    requires below { IsBelow there.now number }
    ensures { IfOk result (λ o. IfSome o (Fails there.now (drop from cursor.now.left) [] number)) }
{
    let none: Items<AskedValue> = Items::new(alloc);
    let header = HeaderSource {
        cursor,
        from,
        asked: none.as_slice(),
    };
    match write_method(depth - 1, alloc, there, &header, number) {
        Ok(_) => Ok(None),
        Err(WriteFault::Failed(many)) => Ok(Some(many)),
        Err(WriteFault::OutOfMemory) => Err(AllocError),
    }
}

/// Whether the arguments lie in the ranges of the method's parameters.
fn do_lie(accepted: &Accepted, method: usize, arguments: &[i128]) -> bool
    ensures { IsTrue result → ArgumentsLieAt accepted.now.profile method arguments.now }
{
    let Some(sizes) = at(accepted.profile().sizes(), method) else {
        return false;
    };
    are_in(sizes.parameters.as_slice(), arguments)
}

/// Whether there are as many numbers as ranges, and each lies in its own.
fn are_in(ranges: &[Interval], numbers: &[i128]) -> bool
    ensures { IsTrue result → ArgumentsLie ranges.now numbers.now }
{
    if ranges.len() != numbers.len() {
        return false;
    }
    for i in 0..ranges.len() {
        if !is_in_at(ranges, numbers, i) {
            return false;
        }
    }
    true
}

/// Whether the number at the place lies in the range there.
fn is_in_at(ranges: &[Interval], numbers: &[i128], place: usize) -> bool
    ensures { IsTrue result → closer.LiesAt ranges.now numbers.now place }
{
    let Some(range) = at(ranges, place) else {
        return false;
    };
    let Some(number) = at(numbers, place) else {
        return false;
    };
    range.from <= *number && *number <= range.to
}
