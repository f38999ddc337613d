//! Steps that take from the header, from the asked values, and from the digits of a number.

ghost use Rattle.std.specs.Prelude.{◌≡◌, ◌+◌, ◌<◌, ◌≤◌, ◌^◌, Some, take, drop, filter, length, slice_get, option_and_then, IfOk, IfErr, OnOk};
ghost use Rattle.std.specs.Option.{SomeIff};
ghost use Rattle.cert_types.specs.declared.certificate.Step.TheVariants as step;
ghost use Rattle.walk_steps.specs.Partial.{Learns};
ghost use Rattle.cert_types.specs.declared.certificate.Version.TheVariants.{Two};
ghost use Rattle.cert_rules.specs.Rules.{write_rule, choice};
ghost use Rattle.walk_steps.specs.Finding.{IsAt};
ghost use Rattle.walk_write.specs.Sources.{IsWithin, front};
ghost use Rattle.walk_write.specs.Take.{HasBits};
ghost use Rattle.walk_write.specs.Walking as spec;
ghost use Rattle.cert_candidates.specs.Writing as writing;

use crate::source::HeaderSource;
use cert_rules::Learnt;
use sem_bits::{Bits, Cursor};
use sem_expr::Side;
use sem_filling::AskedValue;
use sem_profile::{Field, Format};
use sqlite_items::at;
use std::alloc::{AllocError, Global};
use walk_steps::{LevelFrame, Partial, StepFault};

/// Takes the uncompressed side of a header field, of the known length, from the bits so many places after the source's, where the header begins. The error of
/// this and the next two is Refused or out of memory.
pub(crate) fn take(
    alloc: Global,
    level_frame: &LevelFrame<'_>,
    level: &mut Partial<'_>,
    field: usize,
    source: &HeaderSource<'_>,
) -> Result<(), StepFault>
    requires at { IsAt level_frame.now level.old }
    requires within { IsWithin source.now }
    requires ready { spec.IsReadyToWrite level.old (write_rule Two level_frame.now.frame.profile.now.sizes level.old.sizes level.old.format (step.Take field)) }
    ensures learns { OnOk result (spec.LearnsOf (spec.IsHere level_frame.now level.old (front source.now) source.now.asked.now) (write_rule Two level_frame.now.frame.profile.now.sizes level.old.sizes level.old.format (step.Take field)) level.old level.new) }
    ensures fault { IfErr result (λ e. spec.BlamesStep e (spec.IsHere level_frame.now level.old (front source.now) source.now.asked.now)) }
{
    level_frame.frame.profile.keeps();
    level.keeps();
    let Some(count) = level.length(field, Side::Uncompressed) else {
        return Err(StepFault::Refused);
    };
    let Some(offset) = level.offset(field, Side::Uncompressed) else {
        return Err(StepFault::Refused);
    };
    prove!(source.cursor.rest() >= source.from);
    let Some(bits) = bits_after(alloc, source.cursor, source.from + offset, count)? else {
        return Err(StepFault::Refused);
    };
    learn(level_frame, level, field, bits)
}

/// So many bits, the first of which stands some places after the next one. None where fewer are left. The error is out of memory.
fn bits_after(
    alloc: Global,
    source: &Cursor<'_>,
    ahead: usize,
    count: usize,
) -> Result<Option<Bits>, AllocError>
    ensures { IfOk result (λ o. SomeIff o (ahead + count ≤ length source.now.left) (take count (drop ahead source.now.left))) }
{
    if let Some(number) = source.peek(ahead, count) {
        return Bits::from_value(alloc, count, number);
    }
    let mut place = source.fork();
    if place.take(alloc, ahead)?.is_none() {
        return Ok(None);
    }
    place.take(alloc, count)
}

/// Gives an asked field its value, which stands among these at the place that the field has among the asked fields.
pub(crate) fn ask(
    alloc: Global,
    level_frame: &LevelFrame<'_>,
    level: &mut Partial<'_>,
    field: usize,
    asked: &[AskedValue],
) -> Result<(), StepFault>
    requires at { IsAt level_frame.now level.old }
    requires ready { spec.IsReadyToWrite level.old (write_rule Two level_frame.now.frame.profile.now.sizes level.old.sizes level.old.format (step.Ask field)) }
    ensures learns { OnOk result (spec.LearnsOf (spec.HasAsked level_frame.now level.old asked.now) (write_rule Two level_frame.now.frame.profile.now.sizes level.old.sizes level.old.format (step.Ask field)) level.old level.new) }
    ensures fault { IfErr result (λ e. spec.BlamesStep e (spec.HasAsked level_frame.now level.old asked.now)) }
{
    level.keeps();
    let Some(value) = at(asked, asked_before(level.format(), field)) else {
        return Err(StepFault::Refused);
    };
    let bits = value.bits.copy(alloc)?;
    learn(level_frame, level, field, bits)
}

/// How many asked fields stand before the field.
pub(crate) fn asked_before(format: &Format, field: usize) -> usize
    requires within { field < length format.now.fields }
    ensures { result ≡ writing.asked_before format.now field }
{
    asked_among(&format.fields.as_slice()[..field])
}

/// How many of these fields are asked.
fn asked_among(fields: &[Field]) -> usize
    ensures { result ≡ length (filter (λ other. other.declared.asked) fields.now) }
{
    let mut count = 0;
    for other in fields {
        if other.declared.asked {
            count += 1;
        }
    }
    count
}

/// Gives the field the bits, so many, that a digit chooses.
pub(crate) fn choose(
    alloc: Global,
    level_frame: &LevelFrame<'_>,
    level: &mut Partial<'_>,
    field: usize,
    count: usize,
    digit: u64,
) -> Result<(), StepFault>
    requires at { IsAt level_frame.now level.old }
    requires chosen { option_and_then (choice level.old.format field) (slice_get level.old.format.fields field) ≡ Some count }
    requires below { digit < 2 ^ count }
    ensures learns { OnOk result (spec.LearnsOf (spec.HasChosen level_frame.now level.old field count digit) (write_rule Two level_frame.now.frame.profile.now.sizes level.old.sizes level.old.format (step.Choose field)) level.old level.new) }
    ensures known { OnOk result (spec.KnowsChosen level.new.slots field digit) }
    ensures fault { IfErr result (λ e. spec.BlamesStep e (spec.HasChosen level_frame.now level.old field count digit)) }
{
    level.keeps();
    let Some(bits) = Bits::from_value(alloc, count, digit)? else {
        return Err(StepFault::Refused);
    };
    learn(level_frame, level, field, bits)
}

/// Learns these bits as the uncompressed side of the field. The error is Refused.
fn learn(
    level_frame: &LevelFrame<'_>,
    level: &mut Partial<'_>,
    field: usize,
    bits: Bits,
) -> Result<(), StepFault>
    requires at { IsAt level_frame.now level.old }
    requires within { field < length level.old.slots }
    ensures learns { OnOk result (Learns level.old field Side.Uncompressed (Learnt.Whole bits) level.new) }
    ensures fault { IfErr result (λ e. spec.BlamesStep e (HasBits level_frame.now level.old field bits)) }
{
    level_frame.frame.profile.keeps();
    level.keeps();
    if level.learn(field, Side::Uncompressed, Learnt::Whole(bits)) {
        Ok(())
    } else {
        Err(StepFault::Refused)
    }
}
