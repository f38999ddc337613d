//! How far from 0 an expression may reach, where its range is seen to be within the limit at a glance.

ghost use Rattle.std.specs.Prelude.{◌≡◌, ◌+◌, ◌*◌, ◌≤◌, ◌^◌, false, List, IfSome};
ghost use Rattle.sem_expr.specs.Bounds.{interval_of};
ghost use Rattle.sem_profile.specs.BoundsFaults.{is_wide_by};
ghost use Rattle.sem_profile.specs.Ranging.{intervals_of};
ghost use Rattle.sem_expr.specs.declared.interval.Interval.{Interval};
ghost use Rattle.sem_profile.specs.declared.profile.FormatSizes.{FormatSizes};
ghost use Rattle.sem_bounds.specs.Magnitude as spec;

use crate::faults::side_bounds;
use crate::ranges::WIDEST_VALUE;
use sem_expr::{Attribute, Expr, Interval, MOST_EXPONENT, Measure, Operator, RANGE_LIMIT, Subject};
use sem_profile::{Bounds, FormatSizes, Sizes};

/// The greatest size of an end point of a range that is accepted.
pub(crate) const LIMIT: u128 = RANGE_LIMIT as u128;

/// No value of 64 bits and no length is above this.
const GREATEST: u128 = 0x1_0000_0000_0000_0000;

fn limited(size: u128) -> Option<u128>
    ensures { IfSome result (λ m. (m ≡ size) × (m ≤ 2 ^ 120)) }
{
    if size <= LIMIT { Some(size) } else { None }
}

fn sum(left: u128, right: u128) -> Option<u128>
    ensures { IfSome result (λ m. (m ≡ left + right) × (m ≤ 2 ^ 120)) }
{
    limited(left.checked_add(right)?)
}

fn product(left: u128, right: u128) -> Option<u128>
    ensures { IfSome result (λ m. (m ≡ left * right) × (m ≤ 2 ^ 120)) }
{
    limited(left.checked_mul(right)?)
}

fn combined(operator: Operator, left: u128, right: u128) -> Option<u128>
    ensures { IfSome result (spec.Combines operator left right) }
{
    match operator {
        Operator::Add => sum(left, right),
        Operator::Subtract => sum(left, right),
        Operator::Multiply => product(left, right),
        Operator::Divide => Some(left),
        Operator::Remainder => Some(right),
        Operator::Power => None,
    }
}

fn interval_reach(interval: Interval) -> Option<u128>
    ensures { IfSome result (spec.IsUpTo interval) }
{
    limited(interval.from.unsigned_abs().max(interval.to.unsigned_abs()))
}

fn parameter_reach(sizes: &FormatSizes, parameters: &[Interval], index: usize) -> Option<u128>
    ensures { IfSome result (spec.IsUpTo ((spec.bounding sizes.now parameters.now).parameter index)) }
{
    interval_reach(*parameters.get(index)?)
}

fn found(sizes: &FormatSizes, subject: Subject) -> Option<Sizes>
    ensures { IfSome result (spec.IsFound sizes.now subject) }
{
    match subject {
        Subject::Field(index) => Some(*sizes.fields.get(index)?),
        Subject::This => Some(sizes.whole),
    }
}

fn measured(measure: Measure, bounds: Bounds) -> Option<u128>
    ensures { IfSome result (λ m. (is_wide_by measure bounds ≡ false) × spec.IsUpTo (interval_of (intervals_of bounds) measure) m) }
{
    match measure {
        Measure::Value => {
            if WIDEST_VALUE < bounds.most {
                None
            } else {
                Some(GREATEST)
            }
        }
        Measure::Length => Some(GREATEST),
    }
}

fn attribute_reach(sizes: &FormatSizes, attribute: Attribute) -> Option<u128>
    ensures { IfSome result (spec.IsNarrow sizes.now attribute) }
{
    let sides = found(sizes, attribute.subject)?;
    measured(attribute.measure, side_bounds(attribute.side, sides))
}

/// The power of two numbers, the first of which is above 0.
fn power(base: i128, exponent: i128) -> Option<u128>
    ensures { IfSome result (spec.IsPower base exponent) }
{
    if base < 1 || exponent < 0 || MOST_EXPONENT < exponent {
        return None;
    }
    let base = limited(base as u128)?;
    limited(base.checked_pow(exponent as u32)?)
}

/// The same of two expressions that are numbers.
fn power_reach(base: &Expr, exponent: &Expr) -> Option<u128>
    ensures { IfSome result (spec.PowerReaches base.now exponent.now) }
{
    let Expr::Number(_, base) = base else {
        return None;
    };
    let Expr::Number(_, exponent) = exponent else {
        return None;
    };
    power(*base, *exponent)
}

fn small_sum(left: u64, right: u64) -> Option<u64>
    ensures { IfSome result (λ m. (m ≡ left + right) × (m ≤ 2 ^ 120)) }
{
    left.checked_add(right)
}

fn small_product(left: u64, right: u64) -> Option<u64>
    ensures { IfSome result (λ m. (m ≡ left * right) × (m ≤ 2 ^ 120)) }
{
    left.checked_mul(right)
}

fn small_combined(operator: Operator, left: u64, right: u64) -> Option<u64>
    ensures { IfSome result (spec.Combines operator left right) }
{
    match operator {
        Operator::Add => small_sum(left, right),
        Operator::Subtract => small_sum(left, right),
        Operator::Multiply => small_product(left, right),
        Operator::Divide | Operator::Remainder | Operator::Power => None,
    }
}

/// The same of a sum, a difference or a product of literals, as far as 64 bits tell it. It costs less, and most expressions are such.
fn small_reach(expr: &Expr) -> Option<u64>
    ensures { (sizes : FormatSizes) (parameters : List Interval) → IfSome result (spec.Reaches sizes parameters expr.now) }
{
    match expr {
        Expr::Number(_, number) => u64::try_from(number.unsigned_abs()).ok(),
        Expr::Parameter(_, _) | Expr::Attribute(_, _) => None,
        Expr::Binary(_, operator, left, right) => {
            let right = small_reach(right)?;
            let left = small_reach(left)?;
            small_combined(*operator, left, right)
        }
    }
}

/// The same, where most expressions are a literal.
fn value_reach(expr: &Expr) -> Option<u64>
    ensures { (sizes : FormatSizes) (parameters : List Interval) → IfSome result (spec.Reaches sizes parameters expr.now) }
{
    match expr {
        Expr::Number(_, number) => u64::try_from(number.unsigned_abs()).ok(),
        Expr::Parameter(_, _) | Expr::Attribute(_, _) => None,
        Expr::Binary(_, _, _, _) => sum_reach(expr),
    }
}

/// The same of what has operands. In a long sum those on the right are literals, and one after the other is added up.
#[inline(never)]
fn sum_reach(expr: &Expr) -> Option<u64>
    ensures { (sizes : FormatSizes) (parameters : List Interval) → IfSome result (spec.Reaches sizes parameters expr.now) }
{
    let mut rest = expr;
    let mut number = 0;
    'operand: while let Expr::Binary(_, operator, left, right) = rest {
        let Some(next) = with_operand(*operator, number, right) else {
            break;
        };
        number = next;
        rest = left;
    }
    small_sum(small_reach(rest)?, number)
}

/// The number with that of an operand on the right, where this is a literal that is added or taken away.
fn with_operand(operator: Operator, number: u64, right: &Expr) -> Option<u64>
    ensures { IfSome result (spec.TakesOn operator number right.now) }
{
    match operator {
        Operator::Add => small_sum(number, literal_reach(right)?),
        Operator::Subtract => small_sum(number, literal_reach(right)?),
        Operator::Multiply | Operator::Divide | Operator::Remainder | Operator::Power => None,
    }
}

fn literal_reach(expr: &Expr) -> Option<u64>
    ensures { (sizes : FormatSizes) (parameters : List Interval) → IfSome result (spec.Reaches sizes parameters expr.now) }
{
    match expr {
        Expr::Number(_, number) => u64::try_from(number.unsigned_abs()).ok(),
        Expr::Parameter(_, _) | Expr::Attribute(_, _) | Expr::Binary(_, _, _, _) => None,
    }
}

/// How far from 0 the values of an expression may be, by its parts. None where that is not seen, or where it may have a fault.
pub(crate) fn reach(sizes: &FormatSizes, parameters: &[Interval], expr: &Expr) -> Option<u128>
    ensures { IfSome result (spec.Reaches sizes.now parameters.now expr.now) }
{
    match expr {
        Expr::Number(_, number) => limited(number.unsigned_abs()),
        Expr::Parameter(_, index) => parameter_reach(sizes, parameters, *index),
        Expr::Attribute(_, attribute) => attribute_reach(sizes, *attribute),
        Expr::Binary(_, operator, left, right) => match operator {
            Operator::Power => power_reach(left, right),
            _ => {
                let left = reach(sizes, parameters, left)?;
                let right = reach(sizes, parameters, right)?;
                combined(*operator, left, right)
            }
        },
    }
}

/// The same, looked for in 64 bits first.
pub(crate) fn reached(sizes: &FormatSizes, parameters: &[Interval], expr: &Expr) -> Option<u128>
    ensures { IfSome result (spec.Reaches sizes.now parameters.now expr.now) }
{
    match value_reach(expr) {
        Some(size) => Some(size as u128),
        None => reach(sizes, parameters, expr),
    }
}
