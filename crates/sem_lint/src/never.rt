//! Conditions that their ranges make false, and brackets with none of the lengths that a side may have.

ghost use Rattle.std.specs.Prelude.{◌≡◌, ◌↔◌, IsTrue, MatchOption, Ok};
ghost use Rattle.sem_expr.specs.Bounds.{bounding_of};
ghost use Rattle.sem_expr.specs.declared.expr.Comparison.TheVariants as comparison;
ghost use Rattle.sem_expr.specs.Ranged.{ranged};
ghost use Rattle.sem_lint.specs.Never as spec;

use crate::demands::length_range;
use crate::undefined::undefined;
use sem_expr::{Comparison, Cond, Expr, Interval, Ranges, Subject, range};
use sem_profile::{Constraint, Shared};

/// The first constraint that is a condition which is never true, or a bracket with none of the lengths that the side may have, by its number.
pub fn first_untrue(constraints: &[Shared<Constraint>], ranges: &Ranges) -> Option<usize>
    ensures { MatchOption result ((j : _) → spec.IsUntrue constraints.now (bounding_of ranges.now) j → ⊥) (spec.IsUntrue constraints.now (bounding_of ranges.now)) }
{
    for number in 0..constraints.len() {
        if is_untrue(constraints, number, ranges) {
            return Some(number);
        }
    }
    None
}

fn is_untrue(constraints: &[Shared<Constraint>], number: usize, ranges: &Ranges) -> bool
    ensures { IsTrue result ↔ spec.IsUntrue constraints.now (bounding_of ranges.now) number }
{
    match constraints.get(number) {
        Some(constraint) => constraint_is_untrue(constraint.get(), ranges),
        None => false,
    }
}

fn constraint_is_untrue(constraint: &Constraint, ranges: &Ranges) -> bool
    ensures { result ≡ spec.is_untrue (bounding_of ranges.now) constraint.now }
{
    match constraint {
        Constraint::Bracket {
            field,
            side,
            lengths,
            place: _,
        } => {
            let due = length_range(Subject::Field(*field), *side, ranges);
            are_none_of(lengths.as_slice(), due, ranges)
        }
        Constraint::Enforce {
            condition,
            place: _,
        } => never_true(condition.get(), ranges),
    }
}

/// Whether none of the expressions is ever one of these numbers.
fn are_none_of(exprs: &[Expr], due: Interval, ranges: &Ranges) -> bool
    ensures { result ≡ spec.are_none_of (bounding_of ranges.now) due exprs.now }
{
    for expr in exprs {
        if !is_none_of(expr, due, ranges) {
            return false;
        }
    }
    true
}

/// Whether the expression has no value, or never one of these numbers.
fn is_none_of(expr: &Expr, due: Interval, ranges: &Ranges) -> bool
    ensures { result ≡ spec.is_none_of (bounding_of ranges.now) due expr.now }
{
    match undefined(expr, ranges) {
        Some(_) => true,
        None => misses(expr, due, ranges),
    }
}

/// Whether the expression is never one of these numbers.
pub(crate) fn misses(expr: &Expr, due: Interval, ranges: &Ranges) -> bool
    ensures { result ≡ spec.are_apart comparison.Equal (ranged (bounding_of ranges.now) expr.now) (Ok due) }
{
    match range(expr, ranges) {
        Ok(interval) => is_apart(Comparison::Equal, interval, due),
        Err(_) => false,
    }
}

/// Whether the condition is never true, by the ranges of its numbers.
#[cycle(never)]
fn never_true(cond: &Cond, ranges: &Ranges) -> bool
    ensures { result ≡ spec.never_true (bounding_of ranges.now) cond.now }
{
    match cond {
        Cond::Constant(_, holds) => !*holds,
        Cond::Compare(_, comparison, left, right) => are_apart(*comparison, left, right, ranges),
        Cond::Not(_, inner) => never_false(inner, ranges),
        Cond::And(_, left, right) => never_true(left, ranges) || never_true(right, ranges),
        Cond::Or(_, left, right) => never_true(left, ranges) && never_true(right, ranges),
    }
}

/// Whether it is never false.
#[cycle(never)]
fn never_false(cond: &Cond, ranges: &Ranges) -> bool
    ensures { result ≡ spec.never_false (bounding_of ranges.now) cond.now }
{
    match cond {
        Cond::Constant(_, holds) => *holds,
        Cond::Compare(_, comparison, left, right) => {
            are_apart(opposite(*comparison), left, right, ranges)
        }
        Cond::Not(_, inner) => never_true(inner, ranges),
        Cond::And(_, left, right) => never_false(left, ranges) && never_false(right, ranges),
        Cond::Or(_, left, right) => never_false(left, ranges) || never_false(right, ranges),
    }
}

/// The comparison that is true where this one is false.
fn opposite(comparison: Comparison) -> Comparison
    ensures { result ≡ spec.opposite comparison }
{
    match comparison {
        Comparison::Equal => Comparison::NotEqual,
        Comparison::NotEqual => Comparison::Equal,
        Comparison::Less => Comparison::AtLeast,
        Comparison::Greater => Comparison::AtMost,
        Comparison::AtMost => Comparison::Greater,
        Comparison::AtLeast => Comparison::Less,
    }
}

/// Whether the values of the two never compare so.
fn are_apart(comparison: Comparison, left: &Expr, right: &Expr, ranges: &Ranges) -> bool
    ensures { result ≡ spec.are_apart comparison (ranged (bounding_of ranges.now) left.now) (ranged (bounding_of ranges.now) right.now) }
{
    let Ok(one) = range(left, ranges) else {
        return false;
    };
    let Ok(other) = range(right, ranges) else {
        return false;
    };
    is_apart(comparison, one, other)
}

/// Whether no number of the one interval compares so with a number of the other.
fn is_apart(comparison: Comparison, one: Interval, other: Interval) -> bool
    ensures { result ≡ spec.is_apart comparison one other }
{
    match comparison {
        Comparison::Equal => one.to < other.from || other.to < one.from,
        Comparison::NotEqual => one.to <= other.from && other.to <= one.from,
        Comparison::Less => other.to <= one.from,
        Comparison::Greater => one.to <= other.from,
        Comparison::AtMost => other.to < one.from,
        Comparison::AtLeast => one.to < other.from,
    }
}
