//! What is wrong with a plan.

ghost use Rattle.std.specs.Prelude.{◌≡◌, ◌++◌, true, List, IfOk, IfNone, IfSome, option_map};
ghost use Rattle.cert_types.specs.declared.rule.Fact.{Fact};
ghost use Rattle.cert_rules.specs.Plans.{way_of, IsPlan};
ghost use Rattle.cert_rules.specs.Plans as plans;
ghost use Rattle.cert_plans.specs.Faults.{IsPlanFault};
ghost use Rattle.cert_plans.specs.Knowing.{shows, width, Knows};
ghost use Rattle.cert_plans.specs.Listed.{AreFlags};
ghost use Rattle.cert_plans.specs.Needing.{told};
ghost use Rattle.cert_plans.specs.Judging as spec;
ghost use Rattle.cert_plans.specs.Judging.{GivesWithin};

use crate::fault::PlanFault;
use crate::knowledge::Knowledge;
use crate::lacks::enables;
use crate::listed::listed_flags;
use crate::needs::NeedRule;
use crate::rules::rule_of;
use cert_rules::fields::{is_call, is_header};
use cert_types::{Direction, Fact, Step, Version};
use sem_expr::Side;
use sem_profile::{Field, Format, FormatSizes, MethodSizes};
use std::alloc::{AllocError, Global};

/// What is wrong with a plan of the format in that direction, in a certificate of that version: the first step that isn't enabled, else the first side, in
/// field order and the uncompressed one first, that is never learnt. The table holds the bounds of the methods, and the sizes are those of the format. The
/// error is out of memory.
pub fn plan_fault(
    alloc: Global,
    version: Version,
    direction: Direction,
    table: &[MethodSizes],
    sizes: &FormatSizes,
    format: &Format,
    steps: &[Step],
) -> Result<Option<PlanFault>, AllocError>
    ensures right { IfOk result (λ o. IfNone o (IsPlan (way_of version direction table.now sizes.now format.now) steps.now)) }
    ensures found { IfOk result (λ o. IfSome o (IsPlanFault (way_of version direction table.now sizes.now format.now) steps.now)) }
{
    let mut known = Knowledge::at_start(alloc, format)?;
    for (index, step) in steps.iter().enumerate() {
        let rule = rule_of(alloc, version, direction, table, sizes, format, *step)?;
        if !follow(&mut known, format, &rule) {
            return Ok(Some(PlanFault::NotEnabled { step: index }));
        }
    }
    never_learnt(alloc, direction, format, &known)
}

/// Follows the rule where it is enabled, and says whether it is.
fn follow(known: &mut Knowledge, format: &Format, rule: &Option<NeedRule<'_>>) -> bool
    ensures enabled { (facts : List Fact) → Knows known.old facts → result ≡ plans.enabled facts (option_map (told format.now) rule.now) }
    ensures learnt { (facts : List Fact) → Knows known.old facts → GivesWithin (width known.old) (option_map (told format.now) rule.now) → result ≡ true → Knows known.new (plans.learnt (option_map (told format.now) rule.now) ++ facts) }
    ensures width { width known.new ≡ width known.old }
{
    let Some(rule) = rule else {
        return false;
    };
    if !enables(known, format, rule) {
        return false;
    }
    known.learn_all(rule.gives.written().as_slice());
    true
}

/// The first side of a field that is not learnt, as a fault of the plan.
fn never_learnt(
    alloc: Global,
    direction: Direction,
    format: &Format,
    known: &Knowledge,
) -> Result<Option<PlanFault>, AllocError>
    ensures { IfOk result (spec.AreLearnt (plans.goals_of direction format.now) known.now) }
{
    let listed = listed_flags(alloc, format)?;
    Ok(first_missing(direction, format, listed.as_slice(), known))
}

/// The first side of a field that is not learnt, as a fault of the plan, where these flags say which fields are listed.
pub fn first_missing(
    direction: Direction,
    format: &Format,
    listed: &[bool],
    known: &Knowledge,
) -> Option<PlanFault>
    requires { AreFlags format.now listed.now }
    ensures { spec.AreLearnt (plans.goals_of direction format.now) known.now result }
{
    for (index, field) in format.fields.as_slice().iter().enumerate() {
        let is_due = is_due(direction, listed[index], field);
        if let Some(side) = missing_side(direction, known, index, is_due) {
            return Some(PlanFault::NeverLearnt { field: index, side });
        }
    }
    None
}

/// The first side of the field that is not learnt, where the field is due or not.
fn missing_side(direction: Direction, known: &Knowledge, field: usize, is_due: bool) -> Option<Side>
    ensures { result ≡ spec.missing_side direction (shows known.now) field is_due }
{
    if !is_learnt(direction, known, field, is_due, Side::Uncompressed) {
        Some(Side::Uncompressed)
    } else if !is_learnt(direction, known, field, is_due, Side::Compressed) {
        Some(Side::Compressed)
    } else {
        None
    }
}

/// Whether a side of the field is learnt, where the field is due or not.
pub fn is_learnt(
    direction: Direction,
    known: &Knowledge,
    field: usize,
    is_due: bool,
    side: Side,
) -> bool
    ensures { result ≡ spec.is_learnt direction (shows known.now) field is_due side }
{
    known.has(Fact::BitsOf(side, field))
        && (!(is_told(direction, side) && is_due) || known.has(Fact::Done(field)))
}

/// Whether it is told with that side that the field was taken or called.
fn is_told(direction: Direction, side: Side) -> bool
    ensures { result ≡ plans.is_told direction side }
{
    match direction {
        Direction::Read => matches!(side, Side::Compressed),
        Direction::Write => matches!(side, Side::Uncompressed),
    }
}

/// Whether the field is due: it has to be taken or called, where it is listed or not.
pub fn is_due(direction: Direction, is_listed: bool, field: &Field) -> bool
    ensures { result ≡ spec.is_due direction is_listed field.now }
{
    match direction {
        Direction::Read => is_listed || is_call(field.encoding.get()),
        Direction::Write => is_header(field) || is_call(field.encoding.get()),
    }
}
