//! Constants of few digits, worked out in 64 bits. It costs less than in 128, and most constants are such.

ghost use Rattle.std.specs.Prelude.{◌≡◌, ◌+ℤ◌, ◌-ℤ◌, true, IsTrue, IfSome};
ghost use Rattle.sem_expr.specs.Rules.{is_within};
ghost use Rattle.sem_profile.specs.Constants as spec;
ghost use Rattle.sem_bounds.specs.Constants as local;

use sem_expr::{Expr, Operator};
use sem_profile::constants;
use std::alloc::Global;

/// The value of a constant: an expression without attributes and parameters, which has a range and a value. It takes no memory.
pub(crate) fn constant_of(alloc: Global, expr: &Expr) -> Option<i128>
    ensures { result ≡ spec.constant expr.now }
{
    match small_value(expr) {
        Some(value) => Some(value as i128),
        None => constants::constant_of(alloc, expr),
    }
}

/// The one value of a sum, a difference or a product of literals, where 64 bits hold it and all parts of it.
fn small_value(expr: &Expr) -> Option<i64>
    ensures { IfSome result (spec.IsExact expr.now) }
{
    match expr {
        Expr::Number(_, number) => within(i64::try_from(*number).ok()?),
        Expr::Parameter(_, _) | Expr::Attribute(_, _) => None,
        Expr::Binary(_, _, _, _) => small_sum(expr),
    }
}

/// The same of what has operands. In a long sum those on the right are literals, and one after the other is added up.
#[inline(never)]
fn small_sum(expr: &Expr) -> Option<i64>
    ensures { IfSome result (spec.IsExact expr.now) }
{
    let mut rest = expr;
    let mut number = 0;
    'operand: while let Expr::Binary(_, operator, left, right) = rest {
        let Some(next) = with_operand(*operator, number, right) else {
            break;
        };
        number = next;
        rest = left;
    }
    sum(small(rest)?, number)
}

/// The number with that operand on the right, where this is a literal that is added or taken away.
fn with_operand(operator: Operator, number: i64, right: &Expr) -> Option<i64>
    ensures { IfSome result (local.TakesOn operator number right.now) }
{
    match operator {
        Operator::Add => sum(number, literal(right)?),
        Operator::Subtract => difference(number, literal(right)?),
        Operator::Multiply | Operator::Divide | Operator::Remainder | Operator::Power => None,
    }
}

fn literal(expr: &Expr) -> Option<i64>
    ensures { IfSome result (local.IsSmall expr.now) }
{
    match expr {
        Expr::Number(_, number) => itself(i64::try_from(*number).ok()?),
        Expr::Parameter(_, _) | Expr::Attribute(_, _) | Expr::Binary(_, _, _, _) => None,
    }
}

fn itself(number: i64) -> Option<i64>
    ensures { IfSome result (local.IsNumber number) }
{
    Some(number)
}

fn sum(left: i64, right: i64) -> Option<i64>
    ensures { IfSome result (local.IsNumber (left +ℤ right)) }
{
    left.checked_add(right)
}

fn difference(left: i64, right: i64) -> Option<i64>
    ensures { IfSome result (local.IsNumber (left -ℤ right)) }
{
    left.checked_sub(right)
}

/// The same, worked out from both operands.
fn small(expr: &Expr) -> Option<i64>
    ensures { IfSome result (spec.IsExact expr.now) }
{
    match expr {
        Expr::Number(_, number) => within(i64::try_from(*number).ok()?),
        Expr::Parameter(_, _) | Expr::Attribute(_, _) => None,
        Expr::Binary(_, operator, left, right) => {
            let right = small(right)?;
            let left = small(left)?;
            calculated(*operator, left, right)
        }
    }
}

fn calculated(operator: Operator, left: i64, right: i64) -> Option<i64>
    ensures { IfSome result (spec.Calculates operator left right) }
{
    match operator {
        Operator::Add => within(left.checked_add(right)?),
        Operator::Subtract => within(left.checked_sub(right)?),
        Operator::Multiply => within(left.checked_mul(right)?),
        Operator::Divide | Operator::Remainder | Operator::Power => None,
    }
}

/// The number, which is within the limit of ranges.
fn within(number: i64) -> Option<i64>
    ensures { IfSome result (spec.IsWithin number) }
{
    Some(number)
}
