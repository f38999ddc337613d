//! The steps of a reading walk that stay at a level.

ghost use Rattle.std.specs.Prelude.{◌≡◌, ◌≤◌, ◌<◌, ◌^◌, drop, length, IfErr, OnOk};
ghost use Rattle.cert_types.specs.declared.certificate.Step.TheVariants as steps;
ghost use Rattle.cert_types.specs.declared.certificate.Version.TheVariants.{Two};
ghost use Rattle.cert_rules.specs.Rules.{read_rule, common_rule};
ghost use Rattle.walk_steps.specs.Finding.{IsAt, IsReady};
ghost use Rattle.walk_read.specs.Walk as spec;
ghost use Rattle.walk_read.specs.Walking as walking;

use crate::fault::{Blamed, ReadFault};
use crate::take::take;
use cert_types::Step;
use sem_bits::Cursor;
use std::alloc::Global;
use walk_steps::{LevelFrame, Partial, StepFault, common_step};

/// Follows a step other than a call.
pub(crate) fn read_own(
    alloc: Global,
    level_frame: &LevelFrame<'_>,
    level: &mut Partial<'_>,
    step: Step,
    cursor: &Cursor<'_>,
    from: usize,
) -> Result<(), StepFault>
    requires within { from ≤ length cursor.now.left }
    requires at { IsAt level_frame.now level.old }
    requires own { walking.IsOwn step }
    requires ready { IsReady level.old (read_rule Two level.old.sizes level.old.format step) }
    ensures learns { OnOk result (spec.LearnsAhead level_frame.now (drop from cursor.now.left) (read_rule Two level.old.sizes level.old.format step) level.old level.new) }
    ensures fault { IfErr result (λ e. spec.BlamesStep e level_frame.now level.old (drop from cursor.now.left)) }
    ensures few { IfErr result (λ e. spec.AreFewLeft e (drop from cursor.now.left)) }
{
    match step {
        Step::Take(field) => take(alloc, level_frame, level, field, cursor, from),
        _ => common_step(alloc, level_frame, level, step),
    }
}

/// The fault of a step as that of the walk.
pub(crate) fn fault_of(level_frame: &LevelFrame<'_>, fault: StepFault) -> ReadFault
    ensures { result ≡ walking.fault_of level_frame.now fault }
{
    let at_work = Blamed {
        method: level_frame.frame.method,
        format: Some(level_frame.format),
    };
    match fault {
        StepFault::Short => ReadFault::Short(at_work),
        StepFault::Refused => ReadFault::Refused(at_work),
        StepFault::OutOfMemory => ReadFault::OutOfMemory,
    }
}
