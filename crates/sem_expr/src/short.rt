//! The value of an expression, as far as each number on the way is within 64 bits.

ghost use Rattle.std.specs.Prelude.{◌≡◌, ◌<◌, ◌^◌, pos, Some, IfSome};
ghost use Rattle.sem_expr.specs.Values.{val, apply};
ghost use Rattle.sem_expr.specs.Values as spec;

use crate::expr::{Expr, Operator};
use crate::valuation::Valuation;

/// The value of an expression, where it is found so. That of any other may be there too.
pub(crate) fn short_value<V: Valuation>(expr: &Expr, known: &V) -> Option<i64>
    requires ready { V.is_ready known.now }
    ensures { IfSome result (λ v. val (V.assignment known.now) expr.now ≡ Some v) }
{
    match expr {
        Expr::Number(_, number) => short(*number),
        Expr::Parameter(_, index) => short(known.parameter(*index)?),
        Expr::Attribute(_, attribute) => short(known.attribute(*attribute)?),
        Expr::Binary(_, operator, left, right) => {
            let left = match plain(left) {
                Some(number) => number,
                None => short_value(left, known)?,
            };
            let right = match plain(right) {
                Some(number) => number,
                None => short_value(right, known)?,
            };
            calculated(*operator, left, right)
        }
    }
}

/// The number, where the expression is one: so it takes no call.
#[inline(always)]
pub fn plain(expr: &Expr) -> Option<i64>
    ensures { IfSome result (λ v. (a : spec.Assignment) → val a expr.now ≡ Some v) }
{
    match expr {
        Expr::Number(_, number) => short(*number),
        _ => None,
    }
}

/// The number, where it is within 64 bits.
#[inline(always)]
pub fn short(number: i128) -> Option<i64>
    ensures { IfSome result (λ v. v ≡ number) }
{
    match i64::try_from(number) {
        Ok(short) => Some(short),
        Err(_) => None,
    }
}

/// What the operator makes of the two numbers, where that is found so.
#[inline(always)]
pub fn calculated(operator: Operator, left: i64, right: i64) -> Option<i64>
    ensures { IfSome result (λ v. apply operator left right ≡ Some v) }
{
    match operator {
        Operator::Add => left.checked_add(right),
        Operator::Subtract => left.checked_sub(right),
        Operator::Multiply => left.checked_mul(right),
        Operator::Divide => quotient(left, right),
        Operator::Remainder => remainder(left, right),
        Operator::Power => power(left, right),
    }
}

/// The quotient by a number above 0, rounded towards minus infinity.
#[inline(always)]
fn quotient(left: i64, right: i64) -> Option<i64>
    ensures { IfSome result (λ v. spec.quotient left right ≡ Some v) }
{
    if right > 0 {
        Some(left.div_euclid(right))
    } else {
        None
    }
}

#[inline(always)]
fn remainder(left: i64, right: i64) -> Option<i64>
    ensures { IfSome result (λ v. spec.remainder left right ≡ Some v) }
{
    let whole = quotient(left, right)?;
    left.checked_sub(right.checked_mul(whole)?)
}

/// Most powers are of 2.
#[inline(always)]
fn power(left: i64, right: i64) -> Option<i64>
    ensures { IfSome result (λ v. spec.power left right ≡ Some v) }
{
    if left == 2 && 0 <= right && right < 62 {
        Some(power_of_two(right as u32))
    } else {
        any_power(left, right)
    }
}

#[inline(always)]
fn power_of_two(exponent: u32) -> i64
    requires { exponent < 62 }
    ensures { result ≡ pos (2 ^ exponent) }
{
    (1u64 << exponent) as i64
}

#[inline(never)]
fn any_power(left: i64, right: i64) -> Option<i64>
    ensures { IfSome result (λ v. spec.power left right ≡ Some v) }
{
    match u32::try_from(right) {
        Ok(exponent) => left.checked_pow(exponent),
        Err(_) => None,
    }
}
