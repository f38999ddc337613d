//! The step that takes the next packed bits.

ghost use Rattle.std.specs.Prelude.{◌≡◌, ◌+◌, ◌≤◌, drop, take, length, IfErr, IfOk, OnOk};
ghost use Rattle.cert_types.specs.declared.certificate.Step.TheVariants.{Take};
ghost use Rattle.cert_types.specs.declared.certificate.Version.TheVariants.{Two};
ghost use Rattle.cert_rules.specs.Rules.{read_rule};
ghost use Rattle.walk_steps.specs.Finding.{IsAt, IsReady};
ghost use Rattle.walk_read.specs.Walk as spec;

use cert_rules::Learnt;
use sem_bits::{Bits, Cursor};
use sem_expr::Side;
use std::alloc::{AllocError, Global};
use walk_steps::{LevelFrame, Partial, StepFault};

/// Takes the compressed side of a listed field, of the known length, from the bits so many places after the cursor's, where the method's first packed bit stands. The error
/// is Short, Refused or out of memory.
pub(crate) fn take(
    alloc: Global,
    level_frame: &LevelFrame<'_>,
    level: &mut Partial<'_>,
    field: usize,
    cursor: &Cursor<'_>,
    from: usize,
) -> Result<(), StepFault>
    requires at { IsAt level_frame.now level.old }
    requires within { from ≤ length cursor.now.left }
    requires ready { IsReady level.old (read_rule Two level.old.sizes level.old.format (Take field)) }
    ensures learns { OnOk result (spec.LearnsAhead level_frame.now (drop from cursor.now.left) (read_rule Two level.old.sizes level.old.format (Take field)) level.old level.new) }
    ensures fault { IfErr result (λ e. spec.BlamesStep e level_frame.now level.old (drop from cursor.now.left)) }
    ensures few { IfErr result (λ e. spec.AreFewLeft e (drop from cursor.now.left)) }
{
    level_frame.frame.profile.keeps();
    level.keeps();
    let offset = level.offset(field, Side::Compressed).unwrap();
    let count = level.length(field, Side::Compressed).unwrap();
    if offset + count > cursor.rest() - from {
        return Err(StepFault::Short);
    }
    let bits = bits_at(alloc, cursor, from + offset, count)?;
    if level.learn(field, Side::Compressed, Learnt::Whole(bits)) {
        Ok(())
    } else {
        Err(StepFault::Refused)
    }
}

/// So many bits, the first of them so many places after the cursor's. The error is out of memory.
fn bits_at(
    alloc: Global,
    cursor: &Cursor<'_>,
    place: usize,
    count: usize,
) -> Result<Bits, AllocError>
    requires narrow { count ≤ 64 }
    requires within { place + count ≤ length cursor.now.left }
    ensures { IfOk result (λ bits. bits ≡ take count (drop place cursor.now.left)) }
{
    let number = cursor.peek(place, count).unwrap();
    let bits = Bits::from_value(alloc, count, number)?;
    Ok(bits.unwrap())
}
