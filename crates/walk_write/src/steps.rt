//! The steps of a plan that call no method.

ghost use Rattle.std.specs.Prelude.{◌≡◌, true, IfErr, OnOk};
ghost use Rattle.cert_types.specs.declared.certificate.Step.TheVariants as steps;
ghost use Rattle.cert_types.specs.declared.certificate.Version.TheVariants.{Two};
ghost use Rattle.cert_rules.specs.Rules.{write_rule};
ghost use Rattle.walk_steps.specs.Finding.{IsAt};
ghost use Rattle.cert_candidates.specs.WritingLaws.{is_plain};
ghost use Rattle.walk_write.specs.Going as spec;
ghost use Rattle.walk_write.specs.Sources.{IsWithin, front};
ghost use Rattle.walk_write.specs.Walking as walking;

use crate::fault::WriteFault;
use crate::source::HeaderSource;
use crate::take::{ask, choose, take};
use cert_accepted::Accepted;
use cert_candidates::Digits;
use cert_rules::choice_of;
use cert_types::Step;
use std::alloc::Global;
use walk_steps::{LevelFrame, Partial, StepFault, common_step};

/// The fault of a walk whose step has that fault, where the candidate takes so many with it.
pub(crate) fn fault_of(fault: StepFault, alike: u64) -> WriteFault
    ensures { result ≡ spec.fault_of fault alike }
{
    match fault {
        StepFault::Short | StepFault::Refused => WriteFault::Failed(alike),
        StepFault::OutOfMemory => WriteFault::OutOfMemory,
    }
}

/// Follows a step that has no digit. The error is Refused or out of memory.
fn learn_step(
    alloc: Global,
    level_frame: &LevelFrame<'_>,
    level: &mut Partial<'_>,
    step: Step,
    source: &HeaderSource<'_>,
) -> Result<(), StepFault>
    requires at { IsAt level_frame.now level.old }
    requires within { IsWithin source.now }
    requires plain { is_plain step ≡ true }
    requires ready { walking.IsReadyToWrite level.old (write_rule Two level_frame.now.frame.profile.now.sizes level.old.sizes level.old.format step) }
    ensures learns { OnOk result (walking.LearnsOf (walking.IsHere level_frame.now level.old (front source.now) source.now.asked.now) (write_rule Two level_frame.now.frame.profile.now.sizes level.old.sizes level.old.format step) level.old level.new) }
    ensures fault { IfErr result (λ e. walking.BlamesStep e (walking.IsHere level_frame.now level.old (front source.now) source.now.asked.now)) }
{
    match step {
        Step::Take(field) => take(alloc, level_frame, level, field, source),
        Step::Ask(field) => ask(alloc, level_frame, level, field, source.asked),
        _ => common_step(alloc, level_frame, level, step),
    }
}

/// Follows a step that has no digit, where a walk stands before it.
pub(crate) fn plain_step(
    alloc: Global,
    accepted: &Accepted,
    level_frame: &LevelFrame<'_>,
    level: &mut Partial<'_>,
    step: Step,
    digits: Digits,
    source: &HeaderSource<'_>,
) -> Result<(), WriteFault>
    requires within { IsWithin source.now }
    requires plain { is_plain step ≡ true }
    requires goes { spec.Goes accepted.now level_frame.now (front source.now) source.now.asked.now step digits level.old }
    ensures on { OnOk result (spec.StepsOn accepted.now level_frame.now (front source.now) source.now.asked.now step digits level.old digits level.new) }
    ensures args { OnOk result (level.new.args ≡ level.old.args) }
    ensures fault { IfErr result (λ e. spec.BlamesGoing e accepted.now level_frame.now (front source.now) source.now.asked.now step digits level.old) }
{
    let alike = digits.alike();
    if let Err(fault) = learn_step(alloc, level_frame, level, step, source) {
        return Err(fault_of(fault, alike));
    }
    level.keeps();
    Ok(())
}

/// Follows a choice: gives the field the bits of the next digit.
pub(crate) fn choose_step(
    alloc: Global,
    accepted: &Accepted,
    level_frame: &LevelFrame<'_>,
    level: &mut Partial<'_>,
    field: usize,
    digits: &mut Digits,
    source: &HeaderSource<'_>,
) -> Result<(), WriteFault>
    requires within { IsWithin source.now }
    requires goes { spec.Goes accepted.now level_frame.now (front source.now) source.now.asked.now (steps.Choose field) digits.old level.old }
    ensures on { OnOk result (spec.StepsOn accepted.now level_frame.now (front source.now) source.now.asked.now (steps.Choose field) digits.old level.old digits.new level.new) }
    ensures args { OnOk result (level.new.args ≡ level.old.args) }
    ensures fault { IfErr result (λ e. spec.BlamesGoing e accepted.now level_frame.now (front source.now) source.now.asked.now (steps.Choose field) digits.old level.old) }
{
    let Some(width) = choice_of(alloc, level.format(), field) else {
        return Err(WriteFault::Failed(digits.alike()));
    };
    let digit = digits.next(1 << width);
    let alike = digits.alike();
    if let Err(fault) = choose(alloc, level_frame, level, field, width, digit) {
        return Err(fault_of(fault, alike));
    }
    level.keeps();
    Ok(())
}
