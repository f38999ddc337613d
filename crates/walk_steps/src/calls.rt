//! Steps on a field that calls a method.

ghost use Rattle.std.specs.Prelude.{◌≡◌, ◌<◌, None, length, slice_get, IfOk, IfErr, OnOk, MatchResult};
ghost use Rattle.sem_filling.specs.Fillings.{FailsAbove};
ghost use Rattle.sem_filling.specs.Ready.{ArgumentsLieAt};
ghost use Rattle.cert_rules.specs.Slots.{slot_inner};
ghost use Rattle.walk_steps.specs.Calls as spec;
ghost use Rattle.walk_steps.specs.Finding.{IsAt, Blames};
ghost use Rattle.cert_rules.specs.declared.slots.Learnt.TheVariants.{Whole};
ghost use Rattle.walk_steps.specs.Partial as levels;

use crate::Partial;
use crate::fault::StepFault;
use crate::level_frame::LevelFrame;
use cert_rules::Learnt;
use sem_bits::{Bits, BitsError};
use sem_expr::Side;
use sem_filling::{Filling, below};
use sem_profile::Encoding;
use sqlite_items::Items;
use std::alloc::Global;

/// The call of a field: the called method, by its index, the values of its arguments, and the field's path.
#[derive(Drop)]
pub struct Call {
    pub method: usize,
    pub arguments: Items<i128>,
    pub path: String,
}

/// The call of the field. The error is Refused, where no filling has values for the arguments, or out of memory.
pub fn called(
    alloc: Global,
    level_frame: &LevelFrame<'_>,
    level: &Partial<'_>,
    field: usize,
) -> Result<Call, StepFault>
    requires at { IsAt level_frame.now level.now }
    requires lie { ArgumentsLieAt level_frame.now.frame.profile.now level_frame.now.frame.method level.now.args }
    requires ready { spec.MayCall level.now field }
    ensures found { IfOk result (spec.IsCall level_frame.now level.now field) }
    ensures fault { IfErr result (λ e. Blames e level_frame.now level.now) }
{
    level_frame.frame.profile.keeps();
    level.keeps();
    let Some(coded) = level.format().fields.get(field) else {
        return Err(StepFault::Refused);
    };
    let Encoding::Call { method, arguments } = coded.encoding.get() else {
        return Err(StepFault::Refused);
    };
    let Some(values) = level.values(alloc, arguments.as_slice())? else {
        return Err(StepFault::Refused);
    };
    Ok(Call {
        method: *method,
        arguments: values,
        path: below(alloc, level_frame.frame.path, coded.declared.name.as_str())?,
    })
}

/// Learns both sides of a called field from the filling inside it, and keeps that. The error is Refused or out of memory.
pub fn fill(
    alloc: Global,
    level_frame: &LevelFrame<'_>,
    level: &mut Partial<'_>,
    field: usize,
    inner: Filling,
) -> Result<(), StepFault>
    requires at { IsAt level_frame.now level.old }
    requires within { field < length level.old.slots }
    requires empty { slot_inner (slice_get level.old.slots field) ≡ None }
    ensures fills { OnOk result (spec.Fills level.old field inner level.new) }
    ensures fault { IfErr result (λ e. spec.BlamesFilling e level_frame.now level.old field inner) }
{
    fill_side(alloc, level_frame, level, field, Side::Uncompressed, &inner)?;
    fill_side(alloc, level_frame, level, field, Side::Compressed, &inner)?;
    level.hold(field, inner);
    Ok(())
}

/// Learns a side of a called field from the filling inside it. The error is Refused or out of memory.
fn fill_side(
    alloc: Global,
    level_frame: &LevelFrame<'_>,
    level: &mut Partial<'_>,
    field: usize,
    side: Side,
    inner: &Filling,
) -> Result<(), StepFault>
    requires at { IsAt level_frame.now level.old }
    requires within { field < length level.old.slots }
    ensures learns { OnOk result (levels.Learns level.old field side (Whole (spec.side_given side inner.now)) level.new) }
    ensures fault { IfErr result (λ e. spec.BlamesFilling e level_frame.now level.old field inner.now) }
{
    level_frame.frame.profile.keeps();
    level.keeps();
    let bits = match side_given(alloc, side, inner) {
        Ok(bits) => bits,
        Err(BitsError::Full) => return Err(StepFault::Refused),
        Err(BitsError::OutOfMemory) => return Err(StepFault::OutOfMemory),
    };
    if !level.learn(field, side, Learnt::Whole(bits)) {
        return Err(StepFault::Refused);
    }
    Ok(())
}

/// What the filling inside a field gives for a side of it.
fn side_given(alloc: Global, side: Side, inner: &Filling) -> Result<Bits, BitsError>
    ensures { MatchResult result (λ b. b ≡ spec.side_given side inner.now) (λ e. FailsAbove e (spec.side_given side inner.now)) }
{
    match side {
        Side::Uncompressed => inner.header(alloc),
        Side::Compressed => inner.packed(alloc),
    }
}
