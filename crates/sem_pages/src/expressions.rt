//! The values of expressions, as far as each number on the way is within 64 bits.

ghost use Rattle.std.specs.Prelude.{◌≡◌, Some, IfSome, IfOk, IsTrue, []};
ghost use Rattle.sem_expr.specs.Values.{val, truth};
ghost use Rattle.sem_expr.specs.Values as values;
ghost use Rattle.sem_filling.specs.Fits.{vals};
ghost use Rattle.sem_pages.specs.Pages.{numbers_seen};

use crate::view::View;
use sem_expr::short::{calculated, short};
use sem_expr::{Comparison, Cond, Expr};
use smallvec::SmallVec;
use std::alloc::AllocError;

/// The value of an expression, where it is found.
#[inline(always)]
pub fn value(expr: &Expr, view: &View<'_>) -> Option<i64>
    ensures { IfSome result (λ v. val (numbers_seen view.now) expr.now ≡ Some v) }
{
    // Most are numbers or parameters, for which nothing has to be called.
    match expr {
        Expr::Number(_, number) => short(*number),
        Expr::Parameter(_, index) => view.parameter(*index),
        _ => value_of(expr, view),
    }
}

#[inline(never)]
fn value_of(expr: &Expr, view: &View<'_>) -> Option<i64>
    ensures { IfSome result (λ v. val (numbers_seen view.now) expr.now ≡ Some v) }
{
    match expr {
        Expr::Number(_, number) => short(*number),
        Expr::Parameter(_, index) => view.parameter(*index),
        Expr::Attribute(_, attribute) => view.attribute(*attribute),
        Expr::Binary(_, operator, left, right) => {
            let left = match told(left, view) {
                Some(number) => number,
                None => value_of(left, view)?,
            };
            let right = match told(right, view) {
                Some(number) => number,
                None => value_of(right, view)?,
            };
            calculated(*operator, left, right)
        }
    }
}

/// The value of what has no parts, where that is found: so it takes no call.
#[inline(always)]
fn told(expr: &Expr, view: &View<'_>) -> Option<i64>
    ensures { IfSome result (λ v. val (numbers_seen view.now) expr.now ≡ Some v) }
{
    match expr {
        Expr::Number(_, number) => short(*number),
        Expr::Parameter(_, index) => view.parameter(*index),
        Expr::Attribute(_, attribute) => view.attribute(*attribute),
        Expr::Binary(_, _, _, _) => None,
    }
}

/// Whether the expression has that value, as far as that is found.
#[inline(always)]
pub fn is_number(expr: &Expr, view: &View<'_>, number: i64) -> bool
    ensures { IsTrue result → val (numbers_seen view.now) expr.now ≡ Some number }
{
    match expr {
        Expr::Number(_, own) => *own == number as i128,
        _ => comes_to(expr, view, number),
    }
}

#[inline(never)]
fn comes_to(expr: &Expr, view: &View<'_>, number: i64) -> bool
    ensures { IsTrue result → val (numbers_seen view.now) expr.now ≡ Some number }
{
    let Some(found) = value(expr, view) else {
        return false;
    };
    found == number
}

/// Whether a condition holds, where that is found.
pub(crate) fn decide(cond: &Cond, view: &View<'_>) -> Option<bool>
    ensures { IfSome result (λ b. truth (numbers_seen view.now) cond.now ≡ Some b) }
{
    match cond {
        Cond::Constant(_, holds) => Some(*holds),
        Cond::Compare(_, comparison, left, right) => {
            let left = value(left, view)?;
            let right = value(right, view)?;
            Some(compares(*comparison, left, right))
        }
        Cond::Not(_, inner) => {
            let holds = decide(inner, view)?;
            Some(!holds)
        }
        Cond::And(_, left, right) => {
            let first = decide(left, view)?;
            let second = decide(right, view)?;
            Some(first && second)
        }
        Cond::Or(_, left, right) => {
            let one = decide(left, view)?;
            let other = decide(right, view)?;
            Some(one || other)
        }
    }
}

/// Whether the comparison holds of the two numbers.
fn compares(comparison: Comparison, left: i64, right: i64) -> bool
    ensures { result ≡ values.compare comparison left right }
{
    match comparison {
        Comparison::Equal => left == right,
        Comparison::NotEqual => left != right,
        Comparison::Less => left < right,
        Comparison::Greater => left > right,
        Comparison::AtMost => left <= right,
        Comparison::AtLeast => left >= right,
    }
}

/// Makes an empty list that of the values of several expressions. Whether each of them is found.
#[inline(always)]
pub fn add_values(
    exprs: &[Expr],
    view: &View<'_>,
    found: &mut SmallVec<i64, 4>,
) -> Result<bool, AllocError>
    requires empty { found.old.items ≡ [] }
    ensures { IfOk result (λ all. IsTrue all → vals (numbers_seen view.now) exprs.now ≡ Some found.new.items) }
{
    for expr in exprs {
        let Some(number) = value(expr, view) else {
            return Ok(false);
        };
        found.push(number)?;
    }
    Ok(true)
}
