//! What the text and the objects of `loss` both tell: of which case, and of which formats with which numbers.

ghost use Rattle.std.specs.Prelude.{◌≡◌, IfOk};
ghost use Rattle.std.specs.Option.{option_copied};
ghost use Rattle.tool_loss.specs.Told as spec;

use std::alloc::AllocError;
use walk_loss::{Case, Group, HeardKind, Reading, Score, case_of, reach_of, score_of};

/// The first wrong case after so many lost packets, else the first that is refused.
pub fn told_case(cases: &[Case], lost: usize) -> Option<&Case>
    ensures { option_copied result ≡ spec.told_case cases.now lost }
{
    match case_of(cases, lost, HeardKind::Wrong) {
        Some(case) => Some(case),
        None => case_of(cases, lost, HeardKind::Refused),
    }
}

/// How packets of a format, by its number, are read after losses, and up to how many lost ones all are right; nothing where no packet of it was read after a loss.
/// The error is out of memory.
pub fn told_format(
    readings: &[Reading],
    number: usize,
    most: u8,
) -> Result<Option<(Score, usize)>, AllocError>
    ensures { IfOk result (λ told. told ≡ spec.told_format most readings.now number) }
{
    let score = score_of(readings, Group::Of(number))?;
    if score.packets == 0 {
        return Ok(None);
    }
    Ok(Some((score, reach_of(readings, number, most as usize))))
}
