//! Steps that learn a length: by the field's library method, or by a constraint.

ghost use Rattle.std.specs.Prelude.{◌≡◌, ◌<◌, ℕ, true, pos, length, slice_get, Some, IfOk, IfErr, IfSome, OnOk, OnErr, option_and_then};
ghost use Rattle.sem_profile.specs.HasBounds as bounds;
ghost use Rattle.sem_profile.specs.BoundsLaws.{library_exprs};
ghost use Rattle.cert_types.specs.declared.certificate.Step.TheVariants as step;
ghost use Rattle.cert_types.specs.declared.certificate.Version.TheVariants.{Two};
ghost use Rattle.sem_expr.specs.Values.{val};
ghost use Rattle.cert_rules.specs.Facts.{inputs};
ghost use Rattle.cert_rules.specs.Rules as rules;
ghost use Rattle.cert_rules.specs.Slots.{knows_all};
ghost use Rattle.cert_rules.specs.Steps.{LengthIs};
ghost use Rattle.walk_steps.specs.Finding as spec;

use crate::Partial;
use crate::fault::StepFault;
use crate::findings::learn_count;
use crate::level_frame::LevelFrame;
use crate::reference::reference_in;
use cert_rules::equations::length_given;
use cert_rules::fields::size_of;
use sem_expr::Side;
use sem_profile::{Encoding, Field, Library};
use std::alloc::{AllocError, Global};

/// Learns the length of a side of the field that its library method gives. The error is Refused or out of memory.
pub fn method_length(
    alloc: Global,
    level_frame: &LevelFrame<'_>,
    level: &mut Partial<'_>,
    field: usize,
    side: Side,
) -> Result<(), StepFault>
    requires at { spec.IsAt level_frame.now level.old }
    requires ready { spec.IsReady level.old (rules.common_rule Two level.old.sizes level.old.format (step.MethodLength field side)) }
    ensures learns { OnOk result (spec.Learns level_frame.now (rules.common_rule Two level.old.sizes level.old.format (step.MethodLength field side)) level.old level.new) }
    ensures fault { IfErr result (λ e. spec.Blames e level_frame.now level.old) }
    ensures stays { OnErr result (level.new ≡ level.old) }
{
    level.keeps();
    let Some(coded) = level.format().fields.get(field) else {
        return Err(StepFault::Refused);
    };
    let Encoding::Library(library) = coded.encoding.get() else {
        return Err(StepFault::Refused);
    };
    let count = method_count(alloc, level_frame, level, coded, library, side)?;
    learn_count(level_frame, level, field, side, count)
}

/// The length that the method gives the side, where it gives one.
fn method_count(
    alloc: Global,
    level_frame: &LevelFrame<'_>,
    level: &Partial<'_>,
    coded: &Field,
    library: &Library,
    side: Side,
) -> Result<Option<i128>, AllocError>
    requires asked { spec.AllAsked level.now (library_exprs library.now) }
    requires known { knows_all level.now.format level.now.slots (rules.length_needs level.now.format side library.now) ≡ true }
    ensures { IfOk result (λ count. (n : ℕ) → LengthIs (spec.shown_numbers level.now) (spec.reference_at level_frame.now coded.now) side library.now n → count ≡ Some (pos n)) }
{
    if let Some(size) = size_of(side, library) {
        return Ok(level.value(size));
    }
    if is_empty(side, library) {
        return Ok(Some(0));
    }
    match reference_in(alloc, level_frame, coded)? {
        Some(bits) => Ok(Some(bits.len() as i128)),
        None => Ok(None),
    }
}

/// Whether the method leaves the side empty.
fn is_empty(side: Side, library: &Library) -> bool
    ensures { result ≡ bounds.is_empty side library.now }
{
    match side {
        Side::Uncompressed => {
            matches!(library, Library::CompressedValue { .. } | Library::Crc(_))
        }
        Side::Compressed => {
            matches!(library, Library::UncompressedValue { .. } | Library::Static)
        }
    }
}

/// Learns the length of a side of the field that the constraint gives, by its number. The error is Refused or out of memory.
pub fn constraint_length(
    level_frame: &LevelFrame<'_>,
    level: &mut Partial<'_>,
    field: usize,
    side: Side,
    constraint: usize,
) -> Result<(), StepFault>
    requires at { spec.IsAt level_frame.now level.old }
    requires ready { spec.IsReady level.old (rules.common_rule Two level.old.sizes level.old.format (step.ConstraintLength field side constraint)) }
    ensures learns { OnOk result (spec.Learns level_frame.now (rules.common_rule Two level.old.sizes level.old.format (step.ConstraintLength field side constraint)) level.old level.new) }
    ensures fault { IfErr result (λ e. spec.Blames e level_frame.now level.old) }
    ensures stays { OnErr result (level.new ≡ level.old) }
{
    level.keeps();
    let count = constraint_count(level, field, side, constraint);
    learn_count(level_frame, level, field, side, count)
}

/// The value of the expression that the constraint gives for the length.
fn constraint_count(
    level: &Partial<'_>,
    field: usize,
    side: Side,
    constraint: usize,
) -> Option<i128>
    ensures { IfSome (option_and_then (rules.length_given field side) (slice_get level.now.format.constraints constraint)) (λ e.
        knows_all level.now.format level.now.slots (inputs level.now.format e) ≡ true → result ≡ val (spec.shown_numbers level.now) e) }
{
    let Some(found) = level.format().constraints.get(constraint) else {
        return None;
    };
    let Some(given) = length_given(field, side, found.get()) else {
        return None;
    };
    level.value(given)
}
