//! The plan of a format, and the filling at its end.

ghost use Rattle.std.specs.Prelude.{◌≡◌, IfOk, IfErr};
ghost use Rattle.std.specs.Option.{option_copied};
ghost use Rattle.cert_candidates.specs.Codes.{write_plan};
ghost use Rattle.walk_write.specs.Going as spec;

use crate::fault::WriteFault;
use cert_accepted::Accepted;
use cert_candidates::Digits;
use cert_types::Plans;
use sem_filling::Filling;
use sem_holds::level_fits;
use std::alloc::Global;
use walk_steps::{LevelFrame, Partial};

/// The plans of a format of a method.
pub(crate) fn plans_of(accepted: &Accepted, method: usize, format: usize) -> Option<&Plans>
    ensures { option_copied result ≡ write_plan accepted.now.certificate.methods method format }
{
    let entry = accepted.certificate().methods().get(method)?.as_ref()?;
    entry.formats.get(format)?.plans.as_ref()
}

/// The filling of a level whose plan was followed. The error is Failed or out of memory. The level of the top, whose path is empty, is not judged here: who
/// asks for it judges it as a whole.
pub(crate) fn finish(
    alloc: Global,
    accepted: &Accepted,
    level_frame: &LevelFrame<'_>,
    level: Partial<'_>,
    digits: Digits,
) -> Result<Filling, WriteFault>
    requires same { level_frame.now.frame.arguments.now ≡ level.args }
    requires ended { spec.HasEnded accepted.now level_frame.now digits level }
    ensures found { IfOk result (spec.Ends accepted.now level_frame.now digits level.entry) }
    ensures fault { IfErr result (λ e. spec.BlamesEnd e accepted.now level_frame.now digits level.entry) }
{
    let failed = WriteFault::Failed(digits.alike());
    let Some(filling) = level.into_filling(alloc, level_frame.format)? else {
        return Err(failed);
    };
    if level_frame.frame.path.is_empty() {
        return Ok(filling);
    }
    if level_fits(alloc, &level_frame.frame, &filling)? {
        Ok(filling)
    } else {
        Err(failed)
    }
}
