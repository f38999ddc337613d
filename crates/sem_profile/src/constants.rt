//! Constants: expressions of literals alone that have a value.

ghost use Rattle.std.specs.Prelude.{◌≡◌, true, IsTrue, IfSome};
ghost use Rattle.sem_expr.specs.Rules.{is_within};
ghost use Rattle.sem_profile.specs.Constants as spec;

use sem_expr::{Expr, Known, Operator, RANGE_LIMIT, Ranges, range, value};
use std::alloc::Global;

/// A number up to this size is far within the limit of ranges.
const SMALL: i128 = 0x1_0000_0000_0000_0000;

fn is_small(number: i128) -> bool
    ensures { IsTrue result → is_within number ≡ true }
{
    -SMALL <= number && number <= SMALL
}

/// The number, where its size is within the limit of ranges.
fn within(number: i128) -> Option<i128>
    ensures { IfSome result (spec.IsWithin number) }
{
    if -RANGE_LIMIT <= number && number <= RANGE_LIMIT {
        Some(number)
    } else {
        None
    }
}

fn calculated(operator: Operator, left: i128, right: i128) -> Option<i128>
    ensures { IfSome result (spec.Calculates operator left right) }
{
    match operator {
        Operator::Add => within(left.checked_add(right)?),
        Operator::Subtract => within(left.checked_sub(right)?),
        Operator::Multiply => within(left.checked_mul(right)?),
        Operator::Divide | Operator::Remainder | Operator::Power => None,
    }
}

/// The one value of a sum, a difference or a product of literals, which is its range too.
fn exact(expr: &Expr) -> Option<i128>
    ensures { IfSome result (spec.IsExact expr.now) }
{
    match expr {
        Expr::Number(_, number) => within(*number),
        Expr::Parameter(_, _) | Expr::Attribute(_, _) => None,
        Expr::Binary(_, operator, left, right) => {
            let left = exact(left)?;
            let right = exact(right)?;
            calculated(*operator, left, right)
        }
    }
}

/// The value of a constant: an expression without attributes and parameters, which has a range and a value. It takes no memory.
#[inline(always)]
pub fn constant_of(alloc: Global, expr: &Expr) -> Option<i128>
    ensures { result ≡ spec.constant expr.now }
{
    if let Expr::Number(_, number) = expr {
        if is_small(*number) {
            return Some(*number);
        }
    }
    other_constant(alloc, expr)
}

/// The same of any expression. A function of its own, so that a small number takes no room for it.
#[inline(never)]
fn other_constant(alloc: Global, expr: &Expr) -> Option<i128>
    ensures { result ≡ spec.constant expr.now }
{
    if let Some(number) = exact(expr) {
        return Some(number);
    }
    if range(expr, &Ranges::anything(alloc)).is_err() {
        return None;
    }
    value(expr, &Known::nothing(alloc))
}
