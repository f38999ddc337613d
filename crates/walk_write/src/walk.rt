//! The walk that writes.

ghost use Rattle.std.specs.Prelude.{◌≡◌, ◌<◌, [], Some, ℕ, slice_get, IfOk, IfErr, OnOk};
ghost use Rattle.cert_types.specs.declared.certificate.Step.TheVariants as steps;
ghost use Rattle.walk_steps.specs.Calls.{IsCall};
ghost use Rattle.walk_steps.specs.Finding.{IsAt};
ghost use Rattle.cert_accepted.specs.Standing.{Stands, HasDepth};
ghost use Rattle.walk_write.specs.Going as going;
ghost use Rattle.walk_write.specs.Sources.{IsWithin, front};
ghost use Rattle.walk_write.specs.Walking as spec;

use crate::calls::{header_from, is_header_at, own_bits, passed_on, radix_of};
use crate::end::{finish, plans_of};
use crate::fault::WriteFault;
use crate::looks::refuted_from;
use crate::source::HeaderSource;
use crate::start::start_at;
use crate::steps::{choose_step, fault_of, plain_step};
use cert_accepted::{Accepted, AcceptedFrame};
use cert_candidates::{Digits, Start};
use cert_types::Step;
use sem_bits::Cursor;
use sem_filling::{AskedValue, Filling, Frame};
use sqlite_items::Items;
use std::alloc::Global;
use walk_steps::{Call, LevelFrame, Partial, called, fill};

/// What the steps of a plan are followed by: what is accepted, where the level stands, and what is written.
#[derive(Clone, Copy)]
pub(crate) struct Writing<'a, 'b> {
    accepted: &'a Accepted,
    level_frame: LevelFrame<'a>,
    source: HeaderSource<'b>,
}

/// Writes the filling of the method's candidate with this number: its header takes from the source, and its asked fields have the source's values.
///
/// `depth` is how many methods a chain of calls from this one may have. The error is Failed or out of memory.
#[cycle(writing)]
pub fn write_method(
    depth: usize,
    alloc: Global,
    place: &AcceptedFrame<'_>,
    source: &HeaderSource<'_>,
    number: u64,
) -> Result<Filling, WriteFault>
    requires stands { Stands place.now }
    requires deep { HasDepth place.now depth }
    requires within { IsWithin source.now }
    requires below { spec.IsBelow place.now number }
    ensures found { IfOk result (spec.IsWritten place.now (front source.now) source.now.asked.now number) }
    ensures fault { IfErr result (λ e. spec.Blames e place.now (front source.now) source.now.asked.now number) }
{
    let Some(start) = start_at(place, number) else {
        return Err(WriteFault::Failed(1));
    };
    if let Some(skipped) = refuted_from(alloc, place, start, source, number)? {
        return Err(WriteFault::Failed(skipped));
    }
    write_format(depth, alloc, place, start, source, number)
}

/// Writes it where its number begins so.
#[cycle(writing)]
#[inline(never)]
fn write_format(
    depth: usize,
    alloc: Global,
    place: &AcceptedFrame<'_>,
    start: Start,
    source: &HeaderSource<'_>,
    number: u64,
) -> Result<Filling, WriteFault>
    requires stands { Stands place.now }
    requires deep { HasDepth place.now depth }
    requires within { IsWithin source.now }
    requires begins { going.Begins place.now number start }
    ensures found { IfOk result (spec.IsWritten place.now (front source.now) source.now.asked.now number) }
    ensures fault { IfErr result (λ e. spec.Blames e place.now (front source.now) source.now.asked.now number) }
{
    let mut digits = start.digits;
    let Some(mut level) = place.level(alloc, start.format)? else {
        return Err(WriteFault::Failed(digits.alike()));
    };
    let Some(plans) = plans_of(place.accepted, place.frame.method, start.format) else {
        return Err(WriteFault::Failed(1));
    };
    let writing = Writing {
        accepted: place.accepted,
        level_frame: place.level_frame(start.format),
        source: *source,
    };
    follow(
        depth,
        alloc,
        &writing,
        &mut level,
        plans.write.as_slice(),
        &mut digits,
        number,
    )?;
    finish(alloc, place.accepted, &writing.level_frame, level, digits)
}

/// Follows the plan from its start, for the number.
#[cycle(writing)]
fn follow(
    depth: usize,
    alloc: Global,
    writing: &Writing<'_, '_>,
    level: &mut Partial<'_>,
    plan: &[Step],
    digits: &mut Digits,
    number: u64,
) -> Result<(), WriteFault>
    requires within { IsWithin writing.now.source }
    requires serves { going.Serves writing.now.accepted.now writing.now.level_frame }
    requires deep { going.IsDeep writing.now.level_frame depth }
    requires begins { going.IsGoing writing.now.accepted.now writing.now.level_frame (front writing.now.source) writing.now.source.asked.now plan.now number digits.old level.old }
    ensures ends { OnOk result (going.IsGoing writing.now.accepted.now writing.now.level_frame (front writing.now.source) writing.now.source.asked.now [] number digits.new level.new) }
    ensures args { OnOk result (level.new.args ≡ level.old.args) }
    ensures fault { IfErr result (λ e. going.BlamesAt e writing.now.accepted.now writing.now.level_frame (spec.site_at writing.now.level_frame level.old (front writing.now.source) writing.now.source.asked.now) number) }
{
    for step in plan {
        if let Err(fault) = write_step(depth, alloc, writing, level, *step, digits) {
            return Err(fault);
        }
    }
    Ok(())
}

/// Follows a step of a plan.
#[cycle(writing)]
fn write_step(
    depth: usize,
    alloc: Global,
    writing: &Writing<'_, '_>,
    level: &mut Partial<'_>,
    step: Step,
    digits: &mut Digits,
) -> Result<(), WriteFault>
    requires within { IsWithin writing.now.source }
    requires deep { going.IsDeep writing.now.level_frame depth }
    requires goes { going.Goes writing.now.accepted.now writing.now.level_frame (front writing.now.source) writing.now.source.asked.now step digits.old level.old }
    ensures on { OnOk result (going.StepsOn writing.now.accepted.now writing.now.level_frame (front writing.now.source) writing.now.source.asked.now step digits.old level.old digits.new level.new) }
    ensures args { OnOk result (level.new.args ≡ level.old.args) }
    ensures fault { IfErr result (λ e. going.BlamesGoing e writing.now.accepted.now writing.now.level_frame (front writing.now.source) writing.now.source.asked.now step digits.old level.old) }
{
    match step {
        Step::Call(field) => write_call(depth, alloc, writing, level, field, digits),
        Step::Choose(field) => choose_step(
            alloc,
            writing.accepted,
            &writing.level_frame,
            level,
            field,
            digits,
            &writing.source,
        ),
        _ => plain_step(
            alloc,
            writing.accepted,
            &writing.level_frame,
            level,
            step,
            *digits,
            &writing.source,
        ),
    }
}

/// Follows a call: fills the field with the filling of the called method that the next digit numbers.
#[cycle(writing)]
fn write_call(
    depth: usize,
    alloc: Global,
    writing: &Writing<'_, '_>,
    level: &mut Partial<'_>,
    field: usize,
    digits: &mut Digits,
) -> Result<(), WriteFault>
    requires within { IsWithin writing.now.source }
    requires deep { going.IsDeep writing.now.level_frame depth }
    requires goes { going.Goes writing.now.accepted.now writing.now.level_frame (front writing.now.source) writing.now.source.asked.now (steps.Call field) digits.old level.old }
    ensures on { OnOk result (going.StepsOn writing.now.accepted.now writing.now.level_frame (front writing.now.source) writing.now.source.asked.now (steps.Call field) digits.old level.old digits.new level.new) }
    ensures args { OnOk result (level.new.args ≡ level.old.args) }
    ensures fault { IfErr result (λ e. going.BlamesGoing e writing.now.accepted.now writing.now.level_frame (front writing.now.source) writing.now.source.asked.now (steps.Call field) digits.old level.old) }
{
    let call = match called(alloc, &writing.level_frame, level, field) {
        Ok(call) => call,
        Err(fault) => return Err(fault_of(fault, digits.alike())),
    };
    let number = digits.next(radix_of(writing.accepted, call.method));
    let inner = match write_inner(depth, alloc, writing, level, field, &call, number) {
        Ok(inner) => inner,
        Err(fault) => return Err(passed_on(fault, *digits)),
    };
    if let Err(fault) = fill(alloc, &writing.level_frame, level, field, inner) {
        return Err(fault_of(fault, digits.alike()));
    }
    level.keeps();
    Ok(())
}

/// Writes the filling with this number of the called method: of a header field its header takes from the source, where the field begins, of another
/// from the field's own bits.
#[cycle(writing)]
fn write_inner(
    depth: usize,
    alloc: Global,
    writing: &Writing<'_, '_>,
    level: &Partial<'_>,
    field: usize,
    call: &Call,
    number: u64,
) -> Result<Filling, WriteFault>
    requires within { IsWithin writing.now.source }
    requires serves { going.Serves writing.now.accepted.now writing.now.level_frame }
    requires deep { going.IsDeep writing.now.level_frame depth }
    requires at { IsAt writing.now.level_frame level.now }
    requires called { IsCall writing.now.level_frame level.now field call.now }
    requires knows { going.KnowsBefore level.now field }
    requires below { (n : ℕ) → slice_get writing.now.accepted.now.counts call.now.method ≡ Some n → number < n }
    ensures found { IfOk result (going.IsInside writing.now.accepted.now writing.now.level_frame level.now (front writing.now.source) field call.now number) }
    ensures fault { IfErr result (λ e. going.BlamesInside e writing.now.accepted.now writing.now.level_frame level.now (front writing.now.source) field call.now number) }
{
    level.keeps();
    let frame = &writing.level_frame.frame;
    let place = AcceptedFrame {
        accepted: writing.accepted,
        frame: Frame {
            profile: frame.profile,
            context: frame.context,
            method: call.method,
            arguments: call.arguments.as_slice(),
            path: call.path.as_str(),
        },
    };
    let none: Items<AskedValue> = Items::new(alloc);
    if is_header_at(level.format(), field) {
        let from = header_from(level, field, writing.source.cursor, writing.source.from);
        let header = HeaderSource {
            cursor: writing.source.cursor,
            from,
            asked: none.as_slice(),
        };
        write_method(depth - 1, alloc, &place, &header, number)
    } else {
        let Ok(bits) = own_bits(alloc, level, field) else {
            return Err(WriteFault::OutOfMemory);
        };
        let cursor = Cursor::new(&bits);
        let own = HeaderSource {
            cursor: &cursor,
            from: 0,
            asked: none.as_slice(),
        };
        write_method(depth - 1, alloc, &place, &own, number)
    }
}
