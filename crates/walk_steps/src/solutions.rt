//! Steps that learn the value of a field's uncompressed side by an equation.

ghost use Rattle.std.specs.Prelude.{◌≡◌, ◌≤◌, ◌≤ℤ◌, ◌<ℤ◌, ◌-ℤ◌, ℤ, true, pos, slice_get, Some, IfOk, IfErr, IfSome, OnOk, OnErr, option_and_then, option_map};
ghost use Rattle.cert_types.specs.declared.certificate.Step.TheVariants as step;
ghost use Rattle.cert_types.specs.declared.certificate.Version.TheVariants.{Two};
ghost use Rattle.sem_expr.specs.Values.{remainder};
ghost use Rattle.cert_rules.specs.Rules as rules;
ghost use Rattle.walk_steps.specs.Finding as spec;

use crate::Partial;
use crate::fault::StepFault;
use crate::findings::learn_bits;
use crate::level_frame::LevelFrame;
use crate::methods::spelled;
use cert_rules::equations::{remainder_given, value_given};
use sem_expr::Side;
use sem_profile::Constraint;
use std::alloc::Global;

/// Learns the uncompressed side of the field, of the known length, by the value that the constraint gives, by its number. The error is
/// Refused or out of memory.
pub fn solve(
    alloc: Global,
    level_frame: &LevelFrame<'_>,
    level: &mut Partial<'_>,
    field: usize,
    constraint: usize,
) -> Result<(), StepFault>
    requires at { spec.IsAt level_frame.now level.old }
    requires ready { spec.IsReady level.old (rules.common_rule Two level.old.sizes level.old.format (step.Solve field constraint)) }
    ensures learns { OnOk result (spec.Learns level_frame.now (rules.common_rule Two level.old.sizes level.old.format (step.Solve field constraint)) level.old level.new) }
    ensures fault { IfErr result (λ e. spec.Blames e level_frame.now level.old) }
    ensures stays { OnErr result (level.new ≡ level.old) }
{
    level_frame.frame.profile.keeps();
    level.keeps();
    let len = counted(level.length(field, Side::Uncompressed));
    let number = solved(alloc, level, field, constraint);
    let found = spelled(alloc, len, number)?;
    learn_bits(level_frame, level, field, Side::Uncompressed, found)
}

fn counted(length: Option<usize>) -> Option<i128>
    ensures { result ≡ option_map pos length }
{
    match length {
        Some(count) => Some(count as i128),
        None => None,
    }
}

/// The value that the constraint gives for the field: that of an expression, or what is left of a remainder.
fn solved(alloc: Global, level: &Partial<'_>, field: usize, constraint: usize) -> Option<i128>
    ensures { IfSome (slice_get level.now.format.constraints constraint) (λ k. spec.IsSolved level.now field k result) }
{
    let Some(found) = level.format().constraints.get(constraint) else {
        return None;
    };
    match value_given(field, found.get()) {
        Some(given) => level.value(given),
        None => remaining(alloc, level, field, constraint, found.get()),
    }
}

/// What the constraint of that number leaves of a remainder for the field.
fn remaining(
    alloc: Global,
    level: &Partial<'_>,
    field: usize,
    number: usize,
    constraint: &Constraint,
) -> Option<i128>
    requires { slice_get level.now.format.constraints number ≡ Some constraint.now }
    ensures { IfSome (rules.remainder_given level.now.sizes field constraint.now) (λ c. spec.IsRemaining level.now c result) }
{
    let Some(given) = remainder_given(alloc, level.sizes(), field, constraint) else {
        return None;
    };
    let more = level.value(given.more);
    let left = level.value(given.left);
    left_of(left, more, given.by)
}

/// What is left without what is added, by that divisor, where what is left is a remainder by it.
fn left_of(left: Option<i128>, more: Option<i128>, by: i128) -> Option<i128>
    ensures { (l m : ℤ) → left ≡ Some l → more ≡ Some m → pos 0 ≤ℤ l → l <ℤ by → result ≡ remainder (l -ℤ m) by }
{
    let left = left?;
    let more = more?;
    if left < 0 || left >= by {
        return None;
    }
    Some(rest(left, more, by))
}

/// What is left of a remainder without what is added.
fn rest(left: i128, more: i128, by: i128) -> i128
    requires above { pos 0 ≤ℤ left }
    requires below { left <ℤ by }
    ensures { remainder (left -ℤ more) by ≡ Some result }
{
    let taken = more.rem_euclid(by);
    if taken <= left {
        left - taken
    } else {
        left - taken + by
    }
}
