//! Whether brackets and the conjuncts of ENFORCE hold.

ghost use Rattle.std.specs.Prelude.{◌≡◌, ◌<◌, ◌^◌, ℕ, pos, length, slice_get, true, IsTrue, Some};
ghost use Rattle.sem_expr.specs.Values.{truth, val};
ghost use Rattle.sem_expr.specs.declared.expr.Expr.{Expr};
ghost use Rattle.sem_filling.specs.Fits.{Holds};
ghost use Rattle.sem_profile.specs.declared.profile.Constraint.{Constraint};
ghost use Rattle.sem_pages.specs.Pages as spec;

use crate::expressions::{decide, is_number};
use crate::view::View;
use sem_expr::{Cond, Expr};
use sem_profile::Constraint;

/// Whether the constraint holds of what is seen, and so of each level that has it.
#[inline(always)]
pub fn constraint_holds(constraint: &Constraint, view: &View<'_>) -> bool
    ensures { IsTrue result → spec.HoldsOn view.now constraint.now }
{
    match constraint {
        Constraint::Bracket {
            field,
            side,
            lengths,
            place: _,
        } => match view.word(*field, *side) {
            Some(word) => is_value_of(word.len(), lengths.as_slice(), view),
            None => false,
        },
        Constraint::Enforce {
            condition,
            place: _,
        } => is_true(condition.get(), view),
    }
}

#[inline(always)]
fn is_true(condition: &Cond, view: &View<'_>) -> bool
    ensures { IsTrue result → truth (spec.numbers_seen view.now) condition.now ≡ Some true }
{
    decide(condition, view) == Some(true)
}

/// Whether the length is the value of one of the expressions.
#[inline(always)]
fn is_value_of(length: usize, expressions: &[Expr], view: &View<'_>) -> bool
    requires { length < 2 ^ 31 }
    ensures { IsTrue result → ((n : ℕ) × (e : Expr) × (slice_get expressions.now n ≡ Some e) × (val (spec.numbers_seen view.now) e ≡ Some (pos length))) }
{
    for expression in expressions {
        if is_number(expression, view, length as i64) {
            return true;
        }
    }
    false
}
