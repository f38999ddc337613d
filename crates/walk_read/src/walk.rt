//! The walk that reads.

ghost use Rattle.std.specs.Prelude.{◌≡◌, ◌≤◌, [], drop, length, slice_get, None, IfOk, IfErr, OnOk};
ghost use Rattle.cert_types.specs.declared.certificate.Step.TheVariants as steps;
ghost use Rattle.cert_types.specs.declared.certificate.Version.TheVariants.{Two};
ghost use Rattle.cert_rules.specs.Rules.{read_rule};
ghost use Rattle.cert_rules.specs.Slots.{slot_inner};
ghost use Rattle.walk_steps.specs.Calls.{IsCall};
ghost use Rattle.walk_steps.specs.Finding.{IsAt, IsReady};
ghost use Rattle.cert_accepted.specs.Standing.{Stands, HasDepth, IsLevelFrameOf};
ghost use Rattle.walk_read.specs.Walk as spec;
ghost use Rattle.walk_read.specs.Walking as walking;

use crate::calls::{ended, start_of};
use crate::fault::{Blamed, ReadFault};
use crate::plans::{finished, picked, plan_of};
use crate::steps::{fault_of, read_own};
use cert_accepted::AcceptedFrame;
use cert_types::Step;
use sem_bits::{Bits, Cursor};
use sem_filling::{Filling, Frame};
use sem_profile::is_listed;
use std::alloc::Global;
use walk_steps::{Call, LevelFrame, Partial, called, fill};

/// What the steps of a plan are followed by: where the method is filled, and as which format, and the bits that are read, so many places after the cursor's.
#[derive(Clone, Copy)]
pub(crate) struct Reading<'a, 'b> {
    place: AcceptedFrame<'a>,
    level_frame: LevelFrame<'a>,
    cursor: &'b Cursor<'b>,
    from: usize,
}

/// Reads the filling of the method whose packed bits are so many places after the cursor's.
///
/// `depth` is how many methods a chain of calls from this one may have. Each called filling is judged at the end of its own level. The error is Short, where
/// the bits run out, Refused, with the innermost method at work, or out of memory.
#[cycle(reading)]
pub fn read_method<'x>(
    depth: usize,
    alloc: Global,
    place: &AcceptedFrame<'_>,
    cursor: &'x Cursor<'x>,
    from: usize,
) -> Result<Filling, ReadFault>
    requires stands { Stands place.now }
    requires deep { HasDepth place.now depth }
    requires within { from ≤ length cursor.now.left }
    ensures found { IfOk result (spec.IsOnlyAhead place.now (drop from cursor.now.left)) }
    ensures fault { IfErr result (λ e. spec.Blames e place.now (drop from cursor.now.left)) }
    ensures few { IfErr result (λ e. spec.AreFew e depth (drop from cursor.now.left)) }
{
    let format = match picked(alloc, place, cursor, from) {
        Ok(format) => format,
        Err(fault) => return Err(fault),
    };
    let refused = ReadFault::Refused(Blamed {
        method: place.frame.method,
        format: Some(format),
    });
    let mut level = match place.level(alloc, format) {
        Ok(found) => match found {
            Some(level) => level,
            None => return Err(refused),
        },
        Err(_) => return Err(ReadFault::OutOfMemory),
    };
    let Some(plan) = plan_of(place, format) else {
        return Err(refused);
    };
    let reading = Reading {
        place: *place,
        level_frame: place.level_frame(format),
        cursor,
        from,
    };
    match read_plan(depth, alloc, &reading, &mut level, plan) {
        Ok(()) => {
            level.keeps();
            finished(alloc, place, format, level)
        }
        Err(fault) => Err(fault),
    }
}

/// Follows the steps of a plan.
#[cycle(reading)]
fn read_plan(
    depth: usize,
    alloc: Global,
    reading: &Reading<'_, '_>,
    level: &mut Partial<'_>,
    plan: &[Step],
) -> Result<(), ReadFault>
    requires level_frame { IsLevelFrameOf reading.now.place reading.now.level_frame.format reading.now.level_frame }
    requires stands { Stands reading.now.place }
    requires deep { HasDepth reading.now.place depth }
    requires within { reading.now.from ≤ length reading.now.cursor.now.left }
    requires way { walking.IsUnderWay reading.now.place reading.now.level_frame.format (walking.bits_of reading.now) plan.now level.old }
    ensures done { OnOk result (walking.IsUnderWay reading.now.place reading.now.level_frame.format (walking.bits_of reading.now) [] level.new) }
    ensures fault { IfErr result (λ e. walking.BlamesFormat e reading.now.place reading.now.level_frame.format (walking.bits_of reading.now)) }
    ensures few { IfErr result (λ e. spec.AreFew e depth (walking.bits_of reading.now)) }
{
    for step in plan {
        level.keeps();
        if let Err(fault) = read_step(depth, alloc, reading, level, *step) {
            return Err(fault);
        }
    }
    Ok(())
}

/// Follows one step.
#[cycle(reading)]
fn read_step(
    depth: usize,
    alloc: Global,
    reading: &Reading<'_, '_>,
    level: &mut Partial<'_>,
    step: Step,
) -> Result<(), ReadFault>
    requires level_frame { IsLevelFrameOf reading.now.place reading.now.level_frame.format reading.now.level_frame }
    requires stands { Stands reading.now.place }
    requires deep { HasDepth reading.now.place depth }
    requires within { reading.now.from ≤ length reading.now.cursor.now.left }
    requires at { IsAt reading.now.level_frame level.old }
    requires args { level.old.args ≡ reading.now.place.frame.arguments.now }
    requires ready { IsReady level.old (read_rule Two level.old.sizes level.old.format step) }
    requires fresh { walking.IsFresh step level.old }
    ensures learns { OnOk result (spec.LearnsAhead reading.now.level_frame (walking.bits_of reading.now) (read_rule Two level.old.sizes level.old.format step) level.old level.new) }
    ensures fault { IfErr result (λ e. walking.BlamesShown e reading.now.level_frame level.old (walking.bits_of reading.now)) }
    ensures few { IfErr result (λ e. spec.AreFew e depth (walking.bits_of reading.now)) }
{
    match step {
        Step::Call(field) => read_call(depth, alloc, reading, level, field),
        _ => match read_own(
            alloc,
            &reading.level_frame,
            level,
            step,
            reading.cursor,
            reading.from,
        ) {
            Ok(()) => Ok(()),
            Err(fault) => Err(fault_of(&reading.level_frame, fault)),
        },
    }
}

/// Follows a call: reads what fills the field, and learns it.
#[cycle(reading)]
fn read_call(
    depth: usize,
    alloc: Global,
    reading: &Reading<'_, '_>,
    level: &mut Partial<'_>,
    field: usize,
) -> Result<(), ReadFault>
    requires level_frame { IsLevelFrameOf reading.now.place reading.now.level_frame.format reading.now.level_frame }
    requires stands { Stands reading.now.place }
    requires deep { HasDepth reading.now.place depth }
    requires within { reading.now.from ≤ length reading.now.cursor.now.left }
    requires at { IsAt reading.now.level_frame level.old }
    requires args { level.old.args ≡ reading.now.place.frame.arguments.now }
    requires ready { IsReady level.old (read_rule Two level.old.sizes level.old.format (steps.Call field)) }
    requires fresh { slot_inner (slice_get level.old.slots field) ≡ None }
    ensures learns { OnOk result (spec.LearnsAhead reading.now.level_frame (walking.bits_of reading.now) (read_rule Two level.old.sizes level.old.format (steps.Call field)) level.old level.new) }
    ensures fault { IfErr result (λ e. walking.BlamesShown e reading.now.level_frame level.old (walking.bits_of reading.now)) }
    ensures few { IfErr result (λ e. spec.AreFew e depth (walking.bits_of reading.now)) }
{
    level.keeps();
    let call = match called(alloc, &reading.level_frame, level, field) {
        Ok(call) => call,
        Err(fault) => return Err(fault_of(&reading.level_frame, fault)),
    };
    match read_inner(depth, alloc, reading, level, field, &call) {
        Ok(inner) => match fill(alloc, &reading.level_frame, level, field, inner) {
            Ok(()) => Ok(()),
            Err(fault) => Err(fault_of(&reading.level_frame, fault)),
        },
        Err(fault) => Err(fault),
    }
}

/// Reads the filling of a call: of a listed field from its offset on, of another from no bits.
#[cycle(reading)]
fn read_inner(
    depth: usize,
    alloc: Global,
    reading: &Reading<'_, '_>,
    level: &Partial<'_>,
    field: usize,
    call: &Call,
) -> Result<Filling, ReadFault>
    requires level_frame { IsLevelFrameOf reading.now.place reading.now.level_frame.format reading.now.level_frame }
    requires stands { Stands reading.now.place }
    requires deep { HasDepth reading.now.place depth }
    requires within { reading.now.from ≤ length reading.now.cursor.now.left }
    requires at { IsAt reading.now.level_frame level.now }
    requires ready { IsReady level.now (read_rule Two level.now.sizes level.now.format (steps.Call field)) }
    requires call { IsCall reading.now.level_frame level.now field call.now }
    ensures found { IfOk result (walking.IsOnlyInside reading.now.place level.now field call.now (walking.bits_of reading.now)) }
    ensures fault { IfErr result (λ e. walking.BlamesInside e reading.now.place level.now field call.now (walking.bits_of reading.now)) }
    ensures few { IfErr result (λ e. spec.AreFew e depth (walking.bits_of reading.now)) }
{
    let place = &reading.place;
    place.accepted.profile().keeps();
    level.keeps();
    let inner = AcceptedFrame {
        accepted: place.accepted,
        frame: Frame {
            profile: place.frame.profile,
            context: place.frame.context,
            method: call.method,
            arguments: call.arguments.as_slice(),
            path: call.path.as_str(),
        },
    };
    if is_listed(level.format(), field) {
        let start = start_of(level, field, reading.cursor, reading.from);
        return read_method(depth - 1, alloc, &inner, reading.cursor, start);
    }
    let nothing = Bits::new(alloc);
    ended(read_method(depth - 1, alloc, &inner, &Cursor::new(&nothing), 0))
}
