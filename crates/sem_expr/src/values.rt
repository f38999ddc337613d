//! The value of an expression.

ghost use Rattle.std.specs.Prelude.{◌≡◌, Option};
ghost use Rattle.sem_expr.specs.Values.{val, truth, apply, compare};
ghost use Rattle.sem_expr.specs.Values as spec;
ghost use Rattle.sem_expr.specs.Spread.{IsRanged, AreRanged, IsCalculable};

use crate::expr::{Comparison, Cond, Expr, Operator};
use crate::short::short_value;
use crate::valuation::Valuation;

/// The value of an expression, where it has one, as over unbounded whole numbers.
/// It is asked where `range` accepts the expression, for ranges in which the known numbers lie.
/// What is beyond 64 bits on the way is reckoned in 128.
pub fn value<V: Valuation>(expr: &Expr, known: &V) -> Option<i128>
    requires ready { V.is_ready known.now }
    requires ranged { IsRanged (V.assignment known.now) expr.now }
    ensures { result ≡ val (V.assignment known.now) expr.now }
{
    match short_value(expr, known) {
        Some(number) => Some(number as i128),
        None => wide_value(expr, known),
    }
}

fn wide_value<V: Valuation>(expr: &Expr, known: &V) -> Option<i128>
    requires ready { V.is_ready known.now }
    requires ranged { IsRanged (V.assignment known.now) expr.now }
    ensures { result ≡ val (V.assignment known.now) expr.now }
{
    match expr {
        Expr::Number(_, number) => Some(*number),
        Expr::Parameter(_, index) => known.parameter(*index),
        Expr::Attribute(_, attribute) => known.attribute(*attribute),
        Expr::Binary(_, operator, left, right) => {
            let left = wide_value(left, known)?;
            let right = wide_value(right, known)?;
            calculate(*operator, left, right)
        }
    }
}

/// The same; most expressions are a number or a parameter, which take no call.
#[inline(always)]
pub fn operand<V: Valuation>(expr: &Expr, known: &V) -> Option<i128>
    requires ready { V.is_ready known.now }
    requires ranged { IsRanged (V.assignment known.now) expr.now }
    ensures { result ≡ val (V.assignment known.now) expr.now }
{
    match expr {
        Expr::Number(_, number) => Some(*number),
        Expr::Parameter(_, index) => known.parameter(*index),
        _ => value(expr, known),
    }
}

/// Whether a condition holds, where it has a value.
/// It is asked where `range` accepts each expression of whole numbers in it, for ranges in which the known numbers lie.
pub fn decide<V: Valuation>(cond: &Cond, known: &V) -> Option<bool>
    requires ready { V.is_ready known.now }
    requires ranged { AreRanged (V.assignment known.now) cond.now }
    ensures { result ≡ truth (V.assignment known.now) cond.now }
{
    match cond {
        Cond::Constant(_, holds) => Some(*holds),
        Cond::Compare(_, comparison, left, right) => {
            let left = operand(left, known)?;
            let right = operand(right, known)?;
            Some(compares(*comparison, left, right))
        }
        Cond::Not(_, inner) => {
            let holds = decide(inner, known)?;
            Some(!holds)
        }
        Cond::And(_, left, right) => {
            let first = decide(left, known)?;
            let second = decide(right, known)?;
            Some(first && second)
        }
        Cond::Or(_, left, right) => {
            let one = decide(left, known)?;
            let other = decide(right, known)?;
            Some(one || other)
        }
    }
}

/// Whether the comparison holds of the two numbers.
pub fn compares(comparison: Comparison, left: i128, right: i128) -> bool
    ensures { result ≡ compare comparison left right }
{
    match comparison {
        Comparison::Equal => left == right,
        Comparison::NotEqual => left != right,
        Comparison::Less => left < right,
        Comparison::Greater => left > right,
        Comparison::AtMost => left <= right,
        Comparison::AtLeast => left >= right,
    }
}

/// What the operator makes of the two numbers, where it makes one. It is asked where this is within 128 bits.
#[inline(never)]
pub fn calculate(operator: Operator, left: i128, right: i128) -> Option<i128>
    requires { IsCalculable operator left right }
    ensures { result ≡ apply operator left right }
{
    match operator {
        Operator::Add => Some(left + right),
        Operator::Subtract => Some(left - right),
        Operator::Multiply => Some(left * right),
        Operator::Divide => quotient(left, right),
        Operator::Remainder => remainder(left, right),
        Operator::Power => power(left, right),
    }
}

fn quotient(left: i128, right: i128) -> Option<i128>
    requires { IsCalculable Operator.Divide left right }
    ensures { result ≡ spec.quotient left right }
{
    if right == 0 {
        None
    } else if right > 0 {
        Some(left.div_euclid(right))
    } else {
        Some((-left).div_euclid(-right))
    }
}

fn remainder(left: i128, right: i128) -> Option<i128>
    requires { IsCalculable Operator.Remainder left right }
    ensures { result ≡ spec.remainder left right }
{
    let whole = quotient(left, right)?;
    Some(left - right * whole)
}

fn power(left: i128, right: i128) -> Option<i128>
    requires { IsCalculable Operator.Power left right }
    ensures { result ≡ spec.power left right }
{
    if right < 0 {
        None
    } else {
        Some(left.pow(right as u32))
    }
}
