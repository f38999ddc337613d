//! Whether brackets and the conjuncts of ENFORCE hold.

ghost use Rattle.std.specs.Prelude.{◌≡◌, ◌↔◌, ℕ, pos, IsTrue, Some, slice_get, length};
ghost use Rattle.sem_expr.specs.Values.{val};
ghost use Rattle.sem_expr.specs.Known.{assignment_of};
ghost use Rattle.sem_expr.specs.declared.expr.Expr.{Expr};
ghost use Rattle.sem_expr.specs.declared.expr.Subject.TheVariants as subject;
ghost use Rattle.sem_profile.specs.declared.profile.Constraint.{Constraint};
ghost use Rattle.sem_filling.specs.Fillings.{level, listing_of};
ghost use Rattle.sem_filling.specs.Fits.{Holds, side_of};
ghost use Rattle.sem_filling.specs.Level.{AllRanged, ConstraintRanged};

use crate::numbers::{FillingNumbers, is_number};
use sem_expr::{Expr, Side, decide};
use sem_filling::Filling;
use sem_profile::{Constraint, Shared};

/// Whether all constraints of a format hold.
#[inline(always)]
pub(crate) fn constraints_hold(
    constraints: &[Shared<Constraint>],
    filling: &Filling,
    known: &FillingNumbers<'_>,
) -> bool
    requires { (j : ℕ) (c : Constraint) → slice_get constraints.now j ≡ Some c → ConstraintRanged known.now c }
    ensures { IsTrue result ↔ ((j : ℕ) (c : Constraint) → slice_get constraints.now j ≡ Some c →
        Holds (side_of (listing_of filling.now) (level filling.now)) (assignment_of known.now) c) }
{
    for constraint in constraints {
        if !constraint_holds(constraint.get(), filling, known) {
            return false;
        }
    }
    true
}

#[inline(always)]
fn constraint_holds(constraint: &Constraint, filling: &Filling, known: &FillingNumbers<'_>) -> bool
    requires { ConstraintRanged known.now constraint.now }
    ensures { IsTrue result ↔ Holds (side_of (listing_of filling.now) (level filling.now)) (assignment_of known.now) constraint.now }
{
    match constraint {
        Constraint::Bracket {
            field,
            side,
            lengths,
            place: _,
        } => is_value_of(length_of(filling, *field, *side), lengths.as_slice(), known),
        Constraint::Enforce {
            condition,
            place: _,
        } => decide(condition.get(), known) == Some(true),
    }
}

/// The length of a side of a field, 0 where there is no such field.
#[inline(always)]
fn length_of(filling: &Filling, field: usize, side: Side) -> usize
    ensures { result ≡ length (side_of (listing_of filling.now) (level filling.now) (subject.Field field) side) }
{
    let Some(filled) = filling.fields.get(field) else {
        return 0;
    };
    match side {
        Side::Uncompressed => filled.uncompressed.len(),
        Side::Compressed => filled.compressed.len(),
    }
}

/// Whether the length is the value of one of the expressions.
#[inline(always)]
fn is_value_of(length: usize, expressions: &[Expr], known: &FillingNumbers<'_>) -> bool
    requires { AllRanged known.now expressions.now }
    ensures { IsTrue result ↔ ((n : ℕ) × (e : Expr) × (slice_get expressions.now n ≡ Some e) × (val (assignment_of known.now) e ≡ Some (pos length))) }
{
    for expression in expressions {
        if is_number(expression, known, length as i128) {
            return true;
        }
    }
    false
}
