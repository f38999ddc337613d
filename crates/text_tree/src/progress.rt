//! What the rules on operators look at: how many there were in the expression, and which in the sum.

ghost use Rattle.std.specs.Prelude.{◌≡◌, ◌<◌, ◌^◌};
ghost use Rattle.text_tree.specs.Operators as spec;

use crate::tree::Operator;
use text_source::{Mark, Span, TokenKind};

/// The integer operators of a sum so far.
#[derive(Clone, Copy)]
pub enum Sum {
    Empty,
    /// Some, and none is `%`.
    Plain,
    /// The first `%` stands here.
    Percent(Span),
}

/// The operators so far: of the whole expression, and of the sum.
#[derive(Clone, Copy)]
pub struct Progress {
    pub operators: u32,
    pub sum: Sum,
}

pub(crate) fn binds(operator: Operator) -> usize
    ensures { result ≡ spec.binds operator }
{
    match operator {
        Operator::Power => 1,
        Operator::Times | Operator::Divide | Operator::Remainder => 2,
        Operator::Plus | Operator::Minus => 3,
        Operator::And => 5,
        Operator::Or => 6,
        _ => 4,
    }
}

fn operator_of(mark: Mark) -> Option<Operator>
    ensures { result ≡ spec.operator_of mark }
{
    match mark {
        Mark::Power => Some(Operator::Power),
        Mark::Times => Some(Operator::Times),
        Mark::Divide => Some(Operator::Divide),
        Mark::Remainder => Some(Operator::Remainder),
        Mark::Plus => Some(Operator::Plus),
        Mark::Minus => Some(Operator::Minus),
        Mark::Equal => Some(Operator::Equal),
        Mark::NotEqual => Some(Operator::NotEqual),
        Mark::Less => Some(Operator::Less),
        Mark::Greater => Some(Operator::Greater),
        Mark::LessEqual => Some(Operator::LessEqual),
        Mark::GreaterEqual => Some(Operator::GreaterEqual),
        Mark::And => Some(Operator::And),
        Mark::Or => Some(Operator::Or),
        _ => None,
    }
}

/// The operator of the tiers from one to another that the token is.
pub(crate) fn operator(least: usize, most: usize, next: Option<TokenKind>) -> Option<Operator>
    ensures { result ≡ spec.operator_within least most next }
{
    match next {
        Some(TokenKind::Mark(mark)) => {
            let found = operator_of(mark)?;
            if least <= binds(found) && binds(found) <= most {
                Some(found)
            } else {
                None
            }
        }
        _ => None,
    }
}

fn is_integer(operator: Operator) -> bool
    ensures { result ≡ spec.is_integer operator }
{
    binds(operator) < 4
}

/// Whether the operator is a `%` after others.
pub(crate) fn is_late(operator: Operator, sum: Sum) -> bool
    ensures { result ≡ spec.is_late operator sum }
{
    match operator {
        Operator::Remainder => match sum {
            Sum::Plain => true,
            _ => false,
        },
        _ => false,
    }
}

/// Whether the operator is an integer operator after a `%`.
pub(crate) fn follows(operator: Operator, sum: Sum) -> bool
    ensures { result ≡ spec.follows operator sum }
{
    match sum {
        Sum::Percent(_) => is_integer(operator),
        _ => false,
    }
}

fn beside(sum: Sum) -> Sum
    ensures { result ≡ spec.beside sum }
{
    match sum {
        Sum::Percent(first) => Sum::Percent(first),
        _ => Sum::Plain,
    }
}

fn with_remainder(at: Span, sum: Sum) -> Sum
    ensures { result ≡ spec.with_remainder at sum }
{
    match sum {
        Sum::Percent(first) => Sum::Percent(first),
        _ => Sum::Percent(at),
    }
}

fn after(operator: Operator, at: Span, sum: Sum) -> Sum
    ensures { result ≡ spec.after operator at sum }
{
    match operator {
        Operator::Remainder => with_remainder(at, sum),
        _ => {
            if is_integer(operator) {
                beside(sum)
            } else {
                Sum::Empty
            }
        }
    }
}

/// The progress after an operator at its place.
pub(crate) fn step(operator: Operator, at: Span, progress: Progress) -> Progress
    requires { progress.operators < 2 ^ 16 }
    ensures { result ≡ spec.step operator at progress }
{
    Progress {
        operators: progress.operators + 1,
        sum: after(operator, at, progress.sum),
    }
}

/// In round brackets another sum begins.
pub(crate) fn inside(progress: Progress) -> Progress
    ensures { result ≡ spec.inside progress }
{
    Progress {
        operators: progress.operators,
        sum: Sum::Empty,
    }
}

/// After round brackets the sum goes on.
pub(crate) fn outside(before: Progress, after: Progress) -> Progress
    ensures { result ≡ spec.outside before after }
{
    Progress {
        operators: after.operators,
        sum: before.sum,
    }
}
