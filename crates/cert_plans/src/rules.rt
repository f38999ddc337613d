//! The rule of a step.

ghost use Rattle.std.specs.Prelude.{◌≡◌, [], ◌∷◌, ◌++◌, IfOk, slice_get, option_and_then, option_map};
ghost use Rattle.cert_types.specs.Steps.{field_of};
ghost use Rattle.cert_types.specs.declared.rule.Fact.TheVariants as fact;
ghost use Rattle.sem_profile.specs.declared.profile.Format.{Format};
ghost use Rattle.cert_rules.specs.Facts as facts;
ghost use Rattle.cert_rules.specs.Plans as plans;
ghost use Rattle.cert_rules.specs.Rules as spec;
ghost use Rattle.cert_plans.specs.declared.few.FewFacts.TheVariants as few;
ghost use Rattle.cert_plans.specs.declared.needs.Need.TheVariants as need;
ghost use Rattle.cert_plans.specs.Needing as needing;
ghost use Rattle.cert_plans.specs.Needing.{told};

use crate::few::FewFacts;
use crate::forms::rule;
use crate::library::{library_down, library_up, method_length};
use crate::needs::{Need, NeedRule};
use crate::read_rules::{read_call, read_take};
use crate::write_rules::{write_call, write_take};
use cert_rules::choice_of;
use cert_rules::equations::{length_given, remainder_given, value_given};
use cert_types::{Direction, Step, Version};
use sem_expr::{Expr, Side};
use sem_profile::{Field, Format, FormatSizes, MethodSizes};
use std::alloc::{AllocError, Global};

/// The rule of a step of a plan of the format in that direction, in a certificate of that version: what must be known, what must not be, and what is known
/// after it. None where the step is never enabled: its field isn't there, or the step isn't for such a field. The table holds the bounds of the methods, and
/// the sizes are those of the format. The error is out of memory.
pub fn rule_of<'a>(
    alloc: Global,
    version: Version,
    direction: Direction,
    table: &[MethodSizes],
    sizes: &FormatSizes,
    format: &'a Format,
    step: Step,
) -> Result<Option<NeedRule<'a>>, AllocError>
    ensures { IfOk result (λ r. option_map (told format.now) r ≡ plans.rule_of version direction table.now sizes.now format.now step) }
{
    let Some(field) = format.fields.get(step.field()) else {
        return Ok(None);
    };
    let rule = match direction {
        Direction::Read => read_rule(alloc, version, sizes, format, field, step),
        Direction::Write => write_rule(alloc, version, table, sizes, format, field, step),
    };
    Ok(rule)
}

/// The rule of a step on this field in reading.
fn read_rule<'a>(
    alloc: Global,
    version: Version,
    sizes: &FormatSizes,
    format: &'a Format,
    field: &'a Field,
    step: Step,
) -> Option<NeedRule<'a>>
    requires { slice_get format.now.fields (field_of step) ≡ Some field.now }
    ensures { option_map (told format.now) result ≡ spec.read_rule version sizes.now format.now step }
{
    match step {
        Step::Take(index) => read_take(format, index, field),
        Step::Call(index) => read_call(format, index, field.encoding.get()),
        Step::LibraryUp(_)
        | Step::LibraryDown(_)
        | Step::MethodLength(_, _)
        | Step::ConstraintLength(_, _, _)
        | Step::Solve(_, _)
        | Step::Choose(_)
        | Step::Ask(_) => common_rule(alloc, version, sizes, format, field, step),
    }
}

/// The rule of a step on this field in writing.
fn write_rule<'a>(
    alloc: Global,
    version: Version,
    table: &[MethodSizes],
    sizes: &FormatSizes,
    format: &'a Format,
    field: &'a Field,
    step: Step,
) -> Option<NeedRule<'a>>
    requires { slice_get format.now.fields (field_of step) ≡ Some field.now }
    ensures { option_map (told format.now) result ≡ spec.write_rule version table.now sizes.now format.now step }
{
    match step {
        Step::Take(index) => write_take(format, index, field),
        Step::Call(index) => write_call(table, format, index, field),
        Step::Choose(index) => choose(alloc, format, index),
        Step::Ask(index) => ask(index, field),
        Step::LibraryUp(_)
        | Step::LibraryDown(_)
        | Step::MethodLength(_, _)
        | Step::ConstraintLength(_, _, _)
        | Step::Solve(_, _) => common_rule(alloc, version, sizes, format, field, step),
    }
}

/// The rule of a step on this field in both directions.
fn common_rule<'a>(
    alloc: Global,
    version: Version,
    sizes: &FormatSizes,
    format: &'a Format,
    field: &'a Field,
    step: Step,
) -> Option<NeedRule<'a>>
    requires { slice_get format.now.fields (field_of step) ≡ Some field.now }
    ensures { option_map (told format.now) result ≡ spec.common_rule version sizes.now format.now step }
{
    match step {
        Step::LibraryUp(index) => library_up(index, field.encoding.get()),
        Step::LibraryDown(index) => library_down(index, field.encoding.get()),
        Step::MethodLength(index, side) => method_length(index, side, field.encoding.get()),
        Step::ConstraintLength(index, side, number) => {
            constraint_length(format, index, side, number)
        }
        Step::Solve(index, number) => solve(alloc, version, sizes, format, index, number),
        Step::Take(_) | Step::Call(_) | Step::Choose(_) | Step::Ask(_) => None,
    }
}

/// The rule by which the constraint of that number gives the length of a side of the field.
fn constraint_length<'a>(
    format: &'a Format,
    field: usize,
    side: Side,
    number: usize,
) -> Option<NeedRule<'a>>
    ensures { option_map (told format.now) result ≡ spec.by_length format.now field side number }
{
    let Some(constraint) = format.constraints.get(number) else {
        return None;
    };
    let Some(length) = length_given(field, side, constraint.get()) else {
        return None;
    };
    let needs = [Need::Inputs(length), Need::Nothing, Need::Nothing];
    let gives = FewFacts::Length(side, field);
    Some(rule(needs, gives))
}

/// The rule by which the constraint of that number gives the value of the field's uncompressed side.
fn solve<'a>(
    alloc: Global,
    version: Version,
    sizes: &FormatSizes,
    format: &'a Format,
    field: usize,
    number: usize,
) -> Option<NeedRule<'a>>
    ensures { option_map (told format.now) result ≡ spec.by_value version sizes.now format.now field number }
{
    match equation_rule(format, field, number) {
        Some(rule) => Some(rule),
        None => match version {
            Version::One => None,
            Version::Two => remainder_rule(alloc, sizes, format, field, number),
        },
    }
}

/// By an equation of the value itself.
fn equation_rule<'a>(format: &'a Format, field: usize, number: usize) -> Option<NeedRule<'a>>
    ensures { option_map (told format.now) result ≡ spec.by_equation format.now field number }
{
    let Some(constraint) = format.constraints.get(number) else {
        return None;
    };
    let Some(value) = value_given(field, constraint.get()) else {
        return None;
    };
    let needs = [
        Need::Length(Side::Uncompressed, field),
        Need::Inputs(value),
        Need::Nothing,
    ];
    let gives = FewFacts::Bits(Side::Uncompressed, field);
    Some(rule(needs, gives))
}

/// By an equation of a remainder.
fn remainder_rule<'a>(
    alloc: Global,
    sizes: &FormatSizes,
    format: &'a Format,
    field: usize,
    number: usize,
) -> Option<NeedRule<'a>>
    ensures { option_map (told format.now) result ≡ spec.by_remainder sizes.now format.now field number }
{
    let Some(constraint) = format.constraints.get(number) else {
        return None;
    };
    match remainder_given(alloc, sizes, field, constraint.get()) {
        Some(given) => Some(congruence_rule(field, given.more, given.left)),
        None => None,
    }
}

fn congruence_rule<'a>(field: usize, more: &'a Expr, left: &'a Expr) -> NeedRule<'a>
    ensures { (format : Format) → told format result ≡ spec.rule (fact.LengthOf Side.Uncompressed field ∷ facts.inputs format more.now ++ facts.inputs format left.now) (fact.BitsOf Side.Uncompressed field ∷ []) }
{
    let needs = [
        Need::Length(Side::Uncompressed, field),
        Need::Inputs(more),
        Need::Inputs(left),
    ];
    let gives = FewFacts::Bits(Side::Uncompressed, field);
    rule(needs, gives)
}

/// The rule by which each value of the field's uncompressed side is tried.
fn choose<'a>(alloc: Global, format: &'a Format, field: usize) -> Option<NeedRule<'a>>
    ensures { option_map (told format.now) result ≡ option_map (λ n. spec.rule [] (fact.LengthOf Side.Uncompressed field ∷ fact.BitsOf Side.Uncompressed field ∷ [])) (option_and_then (spec.choice format.now field) (slice_get format.now.fields field)) }
{
    match choice_of(alloc, format, field) {
        Some(_) => Some(free_rule(field)),
        None => None,
    }
}

/// The rule by which the packer is given the field's value.
fn ask<'a>(index: usize, field: &'a Field) -> Option<NeedRule<'a>>
    ensures { (format : Format) → option_map (told format) result ≡ spec.when field.now.declared.asked (spec.rule [] (fact.LengthOf Side.Uncompressed index ∷ fact.BitsOf Side.Uncompressed index ∷ [])) }
{
    if field.declared.asked {
        Some(free_rule(index))
    } else {
        None
    }
}

/// The rule that needs nothing and gives the uncompressed side.
fn free_rule<'a>(field: usize) -> NeedRule<'a>
    ensures { result ≡ needing.free (need.Nothing ∷ need.Nothing ∷ need.Nothing ∷ []) (few.Whole Side.Uncompressed field) }
{
    rule(
        [Need::Nothing, Need::Nothing, Need::Nothing],
        FewFacts::Whole(Side::Uncompressed, field),
    )
}
