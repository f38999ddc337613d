//! Typed expressions of either kind.

ghost use Rattle.std.specs.Prelude.{◌≡◌, MatchResult};
ghost use Rattle.text_statements.specs.Judged as spec;
ghost use Rattle.text_statements.specs.Operators as operators;

use sem_expr::{Comparison, Cond, Expr, Operator};
use sem_profile::{ProfileFault, ProfileFaultKind};
use text_source::Span;
use text_tree::tree;

/// What an expression is of: whole numbers, or truth.
#[derive(Clone, Copy, PartialEq, Eq)]
pub enum TermKind {
    Number,
    Truth,
}

/// A typed expression of either kind.
#[derive(Drop)]
pub enum Term {
    Number(Expr),
    Truth(Cond),
}

/// What an operator means.
#[derive(Clone, Copy, PartialEq, Eq)]
pub enum Meaning {
    Arithmetic(Operator),
    Comparison(Comparison),
    And,
    Or,
}

/// What an operator means.
pub(crate) fn meaning_of(operator: tree::Operator) -> Meaning
    ensures { result ≡ operators.meaning_of operator }
{
    match operator {
        tree::Operator::Power => Meaning::Arithmetic(Operator::Power),
        tree::Operator::Times => Meaning::Arithmetic(Operator::Multiply),
        tree::Operator::Divide => Meaning::Arithmetic(Operator::Divide),
        tree::Operator::Remainder => Meaning::Arithmetic(Operator::Remainder),
        tree::Operator::Plus => Meaning::Arithmetic(Operator::Add),
        tree::Operator::Minus => Meaning::Arithmetic(Operator::Subtract),
        tree::Operator::Equal => Meaning::Comparison(Comparison::Equal),
        tree::Operator::NotEqual => Meaning::Comparison(Comparison::NotEqual),
        tree::Operator::Less => Meaning::Comparison(Comparison::Less),
        tree::Operator::Greater => Meaning::Comparison(Comparison::Greater),
        tree::Operator::LessEqual => Meaning::Comparison(Comparison::AtMost),
        tree::Operator::GreaterEqual => Meaning::Comparison(Comparison::AtLeast),
        tree::Operator::And => Meaning::And,
        tree::Operator::Or => Meaning::Or,
    }
}

/// The place of an expression of whole numbers.
fn place(expr: &Expr) -> Span
    ensures { result ≡ spec.place_of expr.now }
{
    match expr {
        Expr::Number(at, _) => *at,
        Expr::Parameter(at, _) => *at,
        Expr::Attribute(at, _) => *at,
        Expr::Binary(at, _, _, _) => *at,
    }
}

/// The place of a condition.
fn condition_place(cond: &Cond) -> Span
    ensures { result ≡ spec.condition_place cond.now }
{
    match cond {
        Cond::Constant(at, _) => *at,
        Cond::Compare(at, _, _, _) => *at,
        Cond::Not(at, _) => *at,
        Cond::And(at, _, _) => *at,
        Cond::Or(at, _, _) => *at,
    }
}

/// The fault of a part of the wrong kind.
pub(crate) fn wrong_kind(at: Span) -> ProfileFault
    ensures { result ≡ spec.wrong_kind at }
{
    ProfileFault::at(ProfileFaultKind::WrongKind, at)
}

impl Term {
    /// The place, without round brackets around it.
    pub(crate) fn place(&self) -> Span
        ensures { result ≡ (spec.found self.now).place }
    {
        match self {
            Term::Number(expr) => place(expr),
            Term::Truth(cond) => condition_place(cond),
        }
    }

    /// The expression, where it is one of whole numbers.
    pub(crate) fn number(self) -> Result<Expr, ProfileFault>
        ensures { MatchResult result (λ e. self ≡ Term.Number e) (λ f. spec.wanted TermKind.Number (spec.found self) ≡ Some f) }
    {
        match self {
            Term::Number(expr) => Ok(expr),
            Term::Truth(cond) => Err(wrong_kind(condition_place(&cond))),
        }
    }

    /// The condition, where it is one.
    pub(crate) fn condition(self) -> Result<Cond, ProfileFault>
        ensures { MatchResult result (λ c. self ≡ Term.Truth c) (λ f. spec.wanted TermKind.Truth (spec.found self) ≡ Some f) }
    {
        match self {
            Term::Number(expr) => Err(wrong_kind(place(&expr))),
            Term::Truth(cond) => Ok(cond),
        }
    }
}
