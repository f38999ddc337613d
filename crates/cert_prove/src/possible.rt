//! The steps of a format that have a rule, in the prover's order.

ghost use Rattle.std.specs.Prelude.{◌≡◌, ◌++◌, ◌<◌, ◌^◌, length, map, option_map, IfOk, OnOk};
ghost use Rattle.std.specs.Option.{option_to_list};
ghost use Rattle.cert_types.specs.declared.certificate.Step.TheVariants as step;
ghost use Rattle.sem_profile.specs.declared.profile.Format.{Format};
ghost use Rattle.cert_rules.specs.Plans as plans;
ghost use Rattle.cert_prove.specs.Linking.{by_rows, candidates_of};
ghost use Rattle.cert_prove.specs.Order as order;
ghost use Rattle.cert_plans.specs.Needing.{told};
ghost use Rattle.cert_prove.specs.Searching as spec;

use crate::glance::may_have_rule;
use crate::kinds::{StepKind, kinds_of};
use crate::links::rows;
use crate::way::Way;
use cert_plans::{NeedRule, rule_of};
use cert_types::{Direction, Step, Version};
use sem_expr::Side;
use sem_profile::{Format, FormatSizes, MethodSizes};
use sqlite_items::Items;
use std::alloc::{AllocError, Global};

/// For how many steps a field there is room at first.
const STEPS_A_FIELD: usize = 16;

/// A step that may be enabled, with its rule.
#[derive(Drop)]
pub struct Possible<'a> {
    pub step: Step,
    pub rule: NeedRule<'a>,
}

/// The steps of the format that have a rule, in the order. A constraint is looked at only for the fields that it may tell something of.
pub(crate) fn possible_steps<'a>(
    alloc: Global,
    version: Version,
    direction: Direction,
    table: &[MethodSizes],
    sizes: &FormatSizes,
    format: &'a Format,
) -> Result<Items<Possible<'a>>, AllocError>
    ensures steps { IfOk result (λ steps. map (spec.ruled format.now) steps ≡ spec.possible_of (plans.rule_of version direction table.now sizes.now format.now) (order.order_of direction format.now)) }
    // The numbers of constraints have 64 bits.
    ensures numbers { length format.now.constraints < 2 ^ 64 }
{
    let rows = rows(alloc, format)?;
    let steps = candidates(alloc, direction, rows.as_slice())?;
    let way = Way {
        version,
        direction,
        table,
        sizes,
        format,
    };
    with_rules(alloc, &way, steps.as_slice())
}

/// Those of the steps that have a rule.
fn with_rules<'a>(
    alloc: Global,
    way: &Way<'_, 'a>,
    steps: &[Step],
) -> Result<Items<Possible<'a>>, AllocError>
    ensures { IfOk result (λ possible. map (spec.ruled way.now.format.now) possible ≡ spec.possible_of (plans.rule_of way.now.version way.now.direction way.now.table.now way.now.sizes.now way.now.format.now) steps.now) }
{
    let mut possible = Items::from_vec(Vec::with_capacity(alloc, steps.len())?);
    for step in steps {
        push_ruled(alloc, way, *step, &mut possible)?;
    }
    Ok(possible)
}

/// Appends the step where it has a rule. Most of those that have none are told by a look at the field or the constraint.
fn push_ruled<'a>(
    alloc: Global,
    way: &Way<'_, 'a>,
    step: Step,
    possible: &mut Items<Possible<'a>>,
) -> Result<(), AllocError>
    ensures { OnOk result (map (spec.ruled way.now.format.now) possible.new ≡ map (spec.ruled way.now.format.now) possible.old ++ option_to_list (spec.with_rule step (plans.rule_of way.now.version way.now.direction way.now.table.now way.now.sizes.now way.now.format.now step))) }
{
    if !may_have_rule(way.format, step) {
        return Ok(());
    }
    let rule = rule_of(
        alloc,
        way.version,
        way.direction,
        way.table,
        way.sizes,
        way.format,
        step,
    )?;
    push_possible(step, rule, possible)
}

/// Appends the step where it has a rule.
fn push_possible<'a>(
    step: Step,
    rule: Option<NeedRule<'a>>,
    possible: &mut Items<Possible<'a>>,
) -> Result<(), AllocError>
    ensures { OnOk result ((format : Format) → map (spec.ruled format) possible.new ≡ map (spec.ruled format) possible.old ++ option_to_list (spec.with_rule step (option_map (told format) rule.entry))) }
{
    match rule {
        Some(rule) => possible.push(Possible { step, rule }),
        None => Ok(()),
    }
}

/// The steps of each kind, through the fields, by these rows.
fn candidates(
    alloc: Global,
    direction: Direction,
    rows: &[Items<usize>],
) -> Result<Items<Step>, AllocError>
    ensures { IfOk result (λ steps. steps ≡ candidates_of (order.kinds_of direction) rows.now) }
{
    let room = rows.len().saturating_mul(STEPS_A_FIELD);
    let mut steps = Items::from_vec(Vec::with_capacity(alloc, room)?);
    for kind in kinds_of(alloc, direction)?.as_slice() {
        push_kind(*kind, rows, &mut steps)?;
    }
    Ok(steps)
}

fn push_kind(
    kind: StepKind,
    rows: &[Items<usize>],
    steps: &mut Items<Step>,
) -> Result<(), AllocError>
    ensures { OnOk result (steps.new ≡ steps.old ++ by_rows kind 0 rows.now) }
{
    for (field, row) in rows.iter().enumerate() {
        push_steps(kind, field, row.as_slice(), steps)?;
    }
    Ok(())
}

fn push_steps(
    kind: StepKind,
    field: usize,
    numbers: &[usize],
    steps: &mut Items<Step>,
) -> Result<(), AllocError>
    ensures { OnOk result (steps.new ≡ steps.old ++ order.steps_of numbers.now kind field) }
{
    match kind {
        StepKind::TakeOrCall => {
            steps.push(Step::Take(field))?;
            steps.push(Step::Call(field))
        }
        StepKind::Ask => steps.push(Step::Ask(field)),
        StepKind::Up => steps.push(Step::LibraryUp(field)),
        StepKind::Down => steps.push(Step::LibraryDown(field)),
        StepKind::Solve => push_solves(field, numbers, steps),
        StepKind::Length(side) => {
            steps.push(Step::MethodLength(field, side))?;
            push_lengths(field, side, numbers, steps)
        }
        StepKind::Choose => steps.push(Step::Choose(field)),
    }
}

fn push_solves(field: usize, numbers: &[usize], steps: &mut Items<Step>) -> Result<(), AllocError>
    ensures { OnOk result (steps.new ≡ steps.old ++ map (step.Solve field) numbers.now) }
{
    for number in numbers {
        steps.push(Step::Solve(field, *number))?;
    }
    Ok(())
}

fn push_lengths(
    field: usize,
    side: Side,
    numbers: &[usize],
    steps: &mut Items<Step>,
) -> Result<(), AllocError>
    ensures { OnOk result (steps.new ≡ steps.old ++ map (step.ConstraintLength field side) numbers.now) }
{
    for number in numbers {
        steps.push(Step::ConstraintLength(field, side, *number))?;
    }
    Ok(())
}
