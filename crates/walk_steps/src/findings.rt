//! Learning what a step found.

ghost use Rattle.std.specs.Prelude.{◌≡◌, ◌<◌, ◌^◌, ℕ, pos, length, IfErr, IfNone, IfSome, OnOk, OnErr, Some, option_map};
ghost use Rattle.cert_rules.specs.declared.slots.Learnt.TheVariants as learnt;
ghost use Rattle.walk_steps.specs.Finding as spec;

use crate::Partial;
use crate::fault::StepFault;
use crate::level_frame::LevelFrame;
use cert_rules::Learnt;
use sem_bits::Bits;
use sem_expr::Side;

/// Learns what was found of a side of the field: it is tested against the field's bounds and compared with what is known.
pub(crate) fn learn(
    level_frame: &LevelFrame<'_>,
    level: &mut Partial<'_>,
    field: usize,
    side: Side,
    found: Option<Learnt>,
) -> Result<(), StepFault>
    requires at { spec.IsAt level_frame.now level.old }
    requires within { field < length level.old.slots }
    requires finds { spec.Finds level_frame.now level.old field side found }
    ensures gains { OnOk result (spec.Gains level_frame.now level.old field side found level.new) }
    ensures fault { IfErr result (λ e. spec.Blames e level_frame.now level.old) }
    ensures stays { OnErr result (level.new ≡ level.old) }
{
    level_frame.frame.profile.keeps();
    level.keeps();
    let Some(found) = found else {
        return Err(StepFault::Refused);
    };
    if level.learn(field, side, found) {
        Ok(())
    } else {
        Err(StepFault::Refused)
    }
}

/// The count as what is learnt of a side, where it is one.
fn measured(count: Option<i128>) -> Option<Learnt>
    // Where it is above 64 bits there is none.
    ensures found { IfSome result (λ l. spec.counted count ≡ Some l) }
    ensures none { IfNone result ((n : ℕ) → n < 2 ^ 64 → count ≡ Some (pos n) → ⊥) }
{
    match usize::try_from(count?) {
        Ok(count) => Some(Learnt::Length(count)),
        Err(_) => None,
    }
}

/// Learns the count that was found for the length of a side of the field.
pub(crate) fn learn_count(
    level_frame: &LevelFrame<'_>,
    level: &mut Partial<'_>,
    field: usize,
    side: Side,
    count: Option<i128>,
) -> Result<(), StepFault>
    requires at { spec.IsAt level_frame.now level.old }
    requires within { field < length level.old.slots }
    requires counts { spec.Counts level_frame.now level.old field side count }
    ensures gains { OnOk result (spec.Gains level_frame.now level.old field side (spec.counted count) level.new) }
    ensures fault { IfErr result (λ e. spec.Blames e level_frame.now level.old) }
    ensures stays { OnErr result (level.new ≡ level.old) }
{
    level_frame.frame.profile.keeps();
    level.keeps();
    learn(level_frame, level, field, side, measured(count))
}

/// Learns the bits that were found of a side of the field.
pub(crate) fn learn_bits(
    level_frame: &LevelFrame<'_>,
    level: &mut Partial<'_>,
    field: usize,
    side: Side,
    bits: Option<Bits>,
) -> Result<(), StepFault>
    requires at { spec.IsAt level_frame.now level.old }
    requires within { field < length level.old.slots }
    requires finds { spec.Finds level_frame.now level.old field side (option_map learnt.Whole bits) }
    ensures gains { OnOk result (spec.Gains level_frame.now level.old field side (option_map learnt.Whole bits) level.new) }
    ensures fault { IfErr result (λ e. spec.Blames e level_frame.now level.old) }
    ensures stays { OnErr result (level.new ≡ level.old) }
{
    learn(level_frame, level, field, side, whole(bits))
}

/// The bits as what is learnt of a side.
fn whole(bits: Option<Bits>) -> Option<Learnt>
    ensures { result ≡ option_map learnt.Whole bits }
{
    match bits {
        Some(bits) => Some(Learnt::Whole(bits)),
        None => None,
    }
}
