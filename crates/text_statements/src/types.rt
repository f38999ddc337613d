//! From the tree's expressions to typed ones.

ghost use Rattle.std.specs.Prelude.{◌≡◌, None, pos, neg_ℤ, IfOk, IfErr};
ghost use Rattle.std.specs.List.{AllZip};
ghost use Rattle.text_statements.specs.Judged as spec;
ghost use Rattle.text_statements.specs.Means.{Means};
ghost use Rattle.text_tree.specs.declared.tree.Expr.TheVariants as t;

use crate::ranges::within;
use crate::scope::{Scope, measure, side};
use crate::term::{Meaning, Term, TermKind, meaning_of, wrong_kind};
use sem_expr::{Attribute, Cond, Expr, Operator};
use sem_profile::{ProfileFault, ProfileFaultKind, ResolveError};
use sqlite_items::Items;
use std::alloc::{AllocError, Global};
use text_source::Span;
use text_tree::tree;

/// The meaning of an expression, whichever its kind.
#[cycle(terms)]
pub(crate) fn term(
    alloc: Global,
    scope: &Scope<'_, '_>,
    part: &tree::Expr,
) -> Result<Term, ResolveError>
    ensures means { IfOk result (λ m. Means scope.now part.now m) }
    ensures right { IfOk result (λ m. spec.judged scope.now part.now ≡ spec.found m) }
    ensures refused { IfErr result (spec.Refuses (spec.judged scope.now part.now).fault) }
{
    match part {
        tree::Expr::Number(at, n) => Ok(Term::Number(within(alloc, scope, positive(*at, *n))?)),
        tree::Expr::Negative(at, n) => Ok(Term::Number(within(alloc, scope, negative(*at, *n))?)),
        tree::Expr::Truth(at, holds) => Ok(Term::Truth(Cond::Constant(*at, *holds))),
        tree::Expr::Name(at) => Ok(Term::Number(name(alloc, scope, *at)?)),
        tree::Expr::Attribute(at, owner, which) => {
            Ok(Term::Number(attribute(scope, *at, *owner, *which)?))
        }
        tree::Expr::Group(_, inner) => term(alloc, scope, inner.get()),
        tree::Expr::Not(at, inner) => {
            let inner = condition(alloc, scope, inner.get())?;
            Ok(Term::Truth(Cond::Not(*at, Box::new(alloc, inner)?)))
        }
        tree::Expr::Binary(at, operator, _, left, right) => match meaning_of(*operator) {
            Meaning::Arithmetic(operator) => {
                let left = Box::new(alloc, number(alloc, scope, left.get())?)?;
                let right = Box::new(alloc, number(alloc, scope, right.get())?)?;
                let expr = Expr::Binary(*at, operator, left, right);
                Ok(Term::Number(within(alloc, scope, expr)?))
            }
            Meaning::Comparison(comparison) => {
                let left = number(alloc, scope, left.get())?;
                let right = number(alloc, scope, right.get())?;
                Ok(Term::Truth(Cond::Compare(*at, comparison, left, right)))
            }
            Meaning::And => {
                let left = Box::new(alloc, condition(alloc, scope, left.get())?)?;
                let right = Box::new(alloc, condition(alloc, scope, right.get())?)?;
                Ok(Term::Truth(Cond::And(*at, left, right)))
            }
            Meaning::Or => {
                let left = Box::new(alloc, condition(alloc, scope, left.get())?)?;
                let right = Box::new(alloc, condition(alloc, scope, right.get())?)?;
                Ok(Term::Truth(Cond::Or(*at, left, right)))
            }
        },
    }
}

fn positive(at: Span, n: u64) -> Expr
    ensures { result ≡ Expr.Number at (pos n) }
{
    Expr::Number(at, n as i128)
}

fn negative(at: Span, n: u64) -> Expr
    ensures { result ≡ Expr.Number at (neg_ℤ (pos n)) }
{
    Expr::Number(at, -(n as i128))
}

/// What a plain name stands for.
fn name(alloc: Global, scope: &Scope<'_, '_>, at: Span) -> Result<Expr, ProfileFault>
    ensures means { IfOk result (λ e. Means scope.now (t.Name at) (Term.Number e)) }
    ensures right { IfOk result (λ e. spec.judged scope.now (t.Name at) ≡ spec.found (Term.Number e)) }
    ensures refused { IfErr result (λ f. (spec.judged scope.now (t.Name at)).fault ≡ Some f) }
{
    match scope.plain(at) {
        Some(expr) => within(alloc, scope, expr),
        None => Err(ProfileFault::about(ProfileFaultKind::UnknownName, at)),
    }
}

/// What an attribute stands for.
fn attribute(
    scope: &Scope<'_, '_>,
    at: Span,
    owner: tree::Owner,
    which: tree::Attribute,
) -> Result<Expr, ProfileFault>
    ensures means { IfOk result (λ e. Means scope.now (t.Attribute at owner which) (Term.Number e)) }
    ensures right { IfOk result (λ e. spec.judged scope.now (t.Attribute at owner which) ≡ spec.found (Term.Number e)) }
    ensures refused { IfErr result (λ f. (spec.judged scope.now (t.Attribute at owner which)).fault ≡ Some f) }
{
    if !scope.has_attributes() {
        return Err(wrong_kind(at));
    }
    let subject = scope.subject(owner)?;
    Ok(Expr::Attribute(
        at,
        Attribute {
            subject,
            side: side(which),
            measure: measure(which),
        },
    ))
}

// What follows are functions of their own, so that none makes room ready for the values of another.

#[inline(never)]
fn positive_number(
    alloc: Global,
    scope: &Scope<'_, '_>,
    at: Span,
    n: u64,
) -> Result<Expr, ResolveError>
    ensures means { IfOk result (λ e. Means scope.now (t.Number at n) (Term.Number e)) }
    ensures right { IfOk result (λ e. spec.judged scope.now (t.Number at n) ≡ spec.found (Term.Number e)) }
    ensures refused { IfErr result (spec.Refuses (spec.judged scope.now (t.Number at n)).fault) }
{
    if scope.has_attributes() {
        return Ok(positive(at, n));
    }
    Ok(within(alloc, scope, positive(at, n))?)
}

#[inline(never)]
fn negative_number(
    alloc: Global,
    scope: &Scope<'_, '_>,
    at: Span,
    n: u64,
) -> Result<Expr, ResolveError>
    ensures means { IfOk result (λ e. Means scope.now (t.Negative at n) (Term.Number e)) }
    ensures right { IfOk result (λ e. spec.judged scope.now (t.Negative at n) ≡ spec.found (Term.Number e)) }
    ensures refused { IfErr result (spec.Refuses (spec.judged scope.now (t.Negative at n)).fault) }
{
    Ok(within(alloc, scope, negative(at, n))?)
}

#[inline(never)]
fn named_number(alloc: Global, scope: &Scope<'_, '_>, at: Span) -> Result<Expr, ResolveError>
    ensures means { IfOk result (λ e. Means scope.now (t.Name at) (Term.Number e)) }
    ensures right { IfOk result (λ e. spec.judged scope.now (t.Name at) ≡ spec.found (Term.Number e)) }
    ensures refused { IfErr result (spec.Refuses (spec.judged scope.now (t.Name at)).fault) }
{
    Ok(name(alloc, scope, at)?)
}

#[inline(never)]
fn own_number(
    scope: &Scope<'_, '_>,
    at: Span,
    owner: tree::Owner,
    which: tree::Attribute,
) -> Result<Expr, ResolveError>
    ensures means { IfOk result (λ e. Means scope.now (t.Attribute at owner which) (Term.Number e)) }
    ensures right { IfOk result (λ e. spec.judged scope.now (t.Attribute at owner which) ≡ spec.found (Term.Number e)) }
    ensures refused { IfErr result (spec.Refuses (spec.judged scope.now (t.Attribute at owner which)).fault) }
{
    Ok(attribute(scope, at, owner, which)?)
}

/// The meaning of an expression where a whole number is wanted. What is one by itself is read without a term around it.
#[cycle(terms)]
pub fn number(alloc: Global, scope: &Scope<'_, '_>, part: &tree::Expr) -> Result<Expr, ResolveError>
    ensures means { IfOk result (λ e. Means scope.now part.now (Term.Number e)) }
    ensures judged { IfOk result (λ e. spec.judged scope.now part.now ≡ spec.found (Term.Number e)) }
    ensures right { IfOk result (λ _. spec.fault_of TermKind.Number scope.now part.now ≡ None) }
    ensures refused { IfErr result (spec.Refuses (spec.fault_of TermKind.Number scope.now part.now)) }
{
    match part {
        tree::Expr::Number(at, n) => positive_number(alloc, scope, *at, *n),
        tree::Expr::Negative(at, n) => negative_number(alloc, scope, *at, *n),
        tree::Expr::Name(at) => named_number(alloc, scope, *at),
        tree::Expr::Attribute(at, owner, which) => own_number(scope, *at, *owner, *which),
        _ => calculated_number(alloc, scope, part),
    }
}

/// The same of an operator and its operands. A function of its own, so that no room is made ready for them where there are none.
#[cycle(terms)]
#[inline(never)]
fn calculated_number(
    alloc: Global,
    scope: &Scope<'_, '_>,
    part: &tree::Expr,
) -> Result<Expr, ResolveError>
    ensures means { IfOk result (λ e. Means scope.now part.now (Term.Number e)) }
    ensures judged { IfOk result (λ e. spec.judged scope.now part.now ≡ spec.found (Term.Number e)) }
    ensures right { IfOk result (λ _. spec.fault_of TermKind.Number scope.now part.now ≡ None) }
    ensures refused { IfErr result (spec.Refuses (spec.fault_of TermKind.Number scope.now part.now)) }
{
    match part {
        tree::Expr::Binary(at, operator, _, left, right) => match meaning_of(*operator) {
            Meaning::Arithmetic(operator) => {
                let left = Box::new(alloc, number(alloc, scope, left.get())?)?;
                let right = Box::new(alloc, number(alloc, scope, right.get())?)?;
                let expr = Expr::Binary(*at, operator, left, right);
                Ok(within(alloc, scope, expr)?)
            }
            _ => number_of_term(alloc, scope, part),
        },
        _ => number_of_term(alloc, scope, part),
    }
}

/// The same by way of a term. A function of its own, so that no room is made ready for the term where there is none.
#[cycle(terms)]
#[inline(never)]
fn number_of_term(
    alloc: Global,
    scope: &Scope<'_, '_>,
    part: &tree::Expr,
) -> Result<Expr, ResolveError>
    ensures means { IfOk result (λ e. Means scope.now part.now (Term.Number e)) }
    ensures judged { IfOk result (λ e. spec.judged scope.now part.now ≡ spec.found (Term.Number e)) }
    ensures right { IfOk result (λ _. spec.fault_of TermKind.Number scope.now part.now ≡ None) }
    ensures refused { IfErr result (spec.Refuses (spec.fault_of TermKind.Number scope.now part.now)) }
{
    let found = term(alloc, scope, part)?;
    Ok(found.number()?)
}

/// The meaning of an expression where a truth is wanted.
#[cycle(terms)]
pub(crate) fn condition(
    alloc: Global,
    scope: &Scope<'_, '_>,
    part: &tree::Expr,
) -> Result<Cond, ResolveError>
    ensures means { IfOk result (λ c. Means scope.now part.now (Term.Truth c)) }
    ensures judged { IfOk result (λ c. spec.judged scope.now part.now ≡ spec.found (Term.Truth c)) }
    ensures right { IfOk result (λ _. spec.fault_of TermKind.Truth scope.now part.now ≡ None) }
    ensures refused { IfErr result (spec.Refuses (spec.fault_of TermKind.Truth scope.now part.now)) }
{
    let found = term(alloc, scope, part)?;
    Ok(found.condition()?)
}

/// The meanings of expressions where whole numbers are wanted, in their order.
pub fn numbers(
    alloc: Global,
    scope: &Scope<'_, '_>,
    parts: &[tree::Expr],
) -> Result<Items<Expr>, ResolveError>
    ensures means { IfOk result (λ es. AllZip (λ part e. Means scope.now part (Term.Number e)) parts.now es) }
    ensures right { IfOk result (λ _. spec.first_of (spec.fault_of TermKind.Number scope.now) parts.now ≡ None) }
    ensures refused { IfErr result (spec.Refuses (spec.first_of (spec.fault_of TermKind.Number scope.now) parts.now)) }
{
    let mut found = Items::from_vec(Vec::with_capacity(alloc, parts.len())?);
    for part in parts {
        found.push(number(alloc, scope, part)?)?;
    }
    Ok(found)
}
