//! The steps that both directions have.

ghost use Rattle.std.specs.Prelude.{◌≡◌, IfErr, OnOk};
ghost use Rattle.cert_types.specs.declared.certificate.Version.TheVariants.{Two};
ghost use Rattle.cert_rules.specs.Rules.{common_rule};
ghost use Rattle.walk_steps.specs.Finding as spec;

use crate::Partial;
use crate::fault::StepFault;
use crate::length::{constraint_length, method_length};
use crate::level_frame::LevelFrame;
use crate::library::{library_down, library_up};
use crate::solutions::solve;
use cert_types::Step;
use std::alloc::Global;

/// Follows a step that reading and writing both have, by what the level knows. The error is Refused or out of memory.
pub fn common_step(
    alloc: Global,
    level_frame: &LevelFrame<'_>,
    level: &mut Partial<'_>,
    step: Step,
) -> Result<(), StepFault>
    requires at { spec.IsAt level_frame.now level.old }
    requires ready { spec.IsReady level.old (common_rule Two level.old.sizes level.old.format step) }
    ensures learns { OnOk result (spec.Learns level_frame.now (common_rule Two level.old.sizes level.old.format step) level.old level.new) }
    ensures fault { IfErr result (λ e. spec.Blames e level_frame.now level.old) }
{
    match step {
        Step::LibraryUp(field) => library_up(alloc, level_frame, level, field),
        Step::LibraryDown(field) => library_down(alloc, level_frame, level, field),
        Step::MethodLength(field, side) => method_length(alloc, level_frame, level, field, side),
        Step::ConstraintLength(field, side, constraint) => {
            constraint_length(level_frame, level, field, side, constraint)
        }
        Step::Solve(field, constraint) => solve(alloc, level_frame, level, field, constraint),
        Step::Take(_) | Step::Call(_) | Step::Choose(_) | Step::Ask(_) => Err(StepFault::Refused),
    }
}
