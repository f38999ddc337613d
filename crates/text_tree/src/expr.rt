//! Expressions, a function for each tier of operators.

ghost use Rattle.std.specs.Prelude.{◌≡◌, ◌<◌, ◌^◌, suc, IfOk, MatchResult};
ghost use Rattle.text_tree.specs.Reading.{Reads};
ghost use Rattle.text_tree.specs.Rules.{all};
ghost use Rattle.text_tree.specs.Grammar as grammar;
ghost use Rattle.text_tree.specs.Spans as spans;
ghost use Rattle.text_tree.specs.Expr as spec;

use crate::progress::{Progress, Sum, binds, follows, inside, is_late, operator, outside, step};
use crate::refusal::ParseError;
use crate::tokens::{Tokens, stops_at};
use crate::tree::{Attribute, Expr, Operator, Owner};
use sqlite_items::Boxed;
use std::alloc::Global;
use text_source::{FaultKind, Mark, Span, TokenKind};

/// The tier of all expressions.
const WHOLE: usize = 6;

/// How deep round brackets and `!` may nest.
const MOST_NESTING: usize = 64;

/// The most operators of a whole expression.
const MOST_OPERATORS: u32 = 256;

/// An expression, and the progress after it.
#[derive(Drop)]
pub struct Counted {
    pub expr: Expr,
    pub after: Progress,
}

/// From the start of the one to the end of the other.
pub(crate) fn cover(first: Span, last: Span) -> Span
    ensures { result ≡ spans.cover first last }
{
    Span {
        from: first.from,
        to: last.to,
    }
}

fn attribute_of(word: Mark) -> Option<Attribute>
    ensures { result ≡ grammar.attribute_of word }
{
    match word {
        Mark::Uvalue => Some(Attribute::Uvalue),
        Mark::Ulength => Some(Attribute::Ulength),
        Mark::Cvalue => Some(Attribute::Cvalue),
        Mark::Clength => Some(Attribute::Clength),
        _ => None,
    }
}

/// The word after the dot.
#[tactic(auto, unfolding(crate::specs::Expr::attribute))]
fn attribute(tokens: &mut Tokens<'_>, at: Span, owner: Owner) -> Result<Expr, ParseError>
    ensures { Reads (spec.attribute at owner tokens.old) result tokens.new }
{
    match tokens.peek() {
        Some(TokenKind::Mark(word)) => match attribute_of(word) {
            Some(which) => {
                let last = tokens.take()?;
                Ok(Expr::Attribute(cover(at, last), owner, which))
            }
            None => Err(tokens.refusal()),
        },
        _ => Err(tokens.refusal()),
    }
}

/// A name, or a field's attribute.
#[tactic(auto, unfolding(crate::specs::Expr::named))]
fn named(tokens: &mut Tokens<'_>) -> Result<Expr, ParseError>
    ensures { Reads (spec.named tokens.old) result tokens.new }
{
    let at = tokens.take()?;
    if tokens.sees(Mark::Dot) {
        tokens.take()?;
        attribute(tokens, at, Owner::Field(at))
    } else {
        Ok(Expr::Name(at))
    }
}

/// An attribute of THIS.
#[tactic(auto, unfolding(crate::specs::Expr::this))]
fn this(tokens: &mut Tokens<'_>) -> Result<Expr, ParseError>
    ensures { Reads (spec.this tokens.old) result tokens.new }
{
    let at = tokens.take()?;
    tokens.expect(Mark::Dot)?;
    attribute(tokens, at, Owner::This)
}

#[tactic(auto, unfolding(crate::specs::Expr::negative))]
fn negative(tokens: &mut Tokens<'_>) -> Result<Expr, ParseError>
    ensures { Reads (spec.negative tokens.old) result tokens.new }
{
    let sign = tokens.take()?;
    match tokens.peek() {
        Some(TokenKind::Number(n)) => {
            let at = tokens.take()?;
            Ok(Expr::Negative(cover(sign, at), n))
        }
        _ => Err(tokens.refusal()),
    }
}

/// An operand that has no other expression in it.
#[tactic(auto, unfolding(crate::specs::Expr::leaf))]
fn leaf(tokens: &mut Tokens<'_>) -> Result<Expr, ParseError>
    ensures { Reads (spec.leaf tokens.old) result tokens.new }
{
    match tokens.peek() {
        Some(TokenKind::Name) => named(tokens),
        Some(TokenKind::Number(n)) => Ok(Expr::Number(tokens.take()?, n)),
        Some(TokenKind::Mark(Mark::Minus)) => negative(tokens),
        Some(TokenKind::Mark(Mark::True)) => Ok(Expr::Truth(tokens.take()?, true)),
        Some(TokenKind::Mark(Mark::False)) => Ok(Expr::Truth(tokens.take()?, false)),
        Some(TokenKind::Mark(Mark::This)) => this(tokens),
        _ => Err(tokens.refusal()),
    }
}

/// The fault at the first `%` of a sum.
fn mixed(tokens: &Tokens<'_>, sum: Sum) -> ParseError
    ensures { Reads (spec.mixed sum tokens.now) (Err result) tokens.now }
{
    match sum {
        Sum::Percent(first) => stops_at(FaultKind::MixedRemainder, first),
        _ => tokens.refusal(),
    }
}

/// Takes an operator, where the rules let it stand.
#[tactic(auto, unfolding(crate::specs::Expr::admit))]
fn admit(tokens: &mut Tokens<'_>, found: Operator, progress: Progress) -> Result<Span, ParseError>
    ensures read { Reads (spec.admit all found progress tokens.old) result tokens.new }
    ensures room { IfOk result (λ _. progress.operators < 256) }
{
    if progress.operators >= MOST_OPERATORS {
        return Err(tokens.stops(FaultKind::TooManyParts));
    }
    if is_late(found, progress.sum) {
        return Err(tokens.stops(FaultKind::MixedRemainder));
    }
    if follows(found, progress.sum) {
        return Err(mixed(tokens, progress.sum));
    }
    tokens.take()
}

fn joined(
    alloc: Global,
    found: Operator,
    at: Span,
    left: Counted,
    right: Counted,
) -> Result<Counted, ParseError>
    ensures { MatchResult result (λ c. c ≡ spec.joined found at left right) (λ e. e ≡ ParseError.Memory) }
{
    let span = cover(left.expr.span(), right.expr.span());
    Ok(Counted {
        expr: Expr::Binary(
            span,
            found,
            at,
            Boxed::new(alloc, left.expr)?,
            Boxed::new(alloc, right.expr)?,
        ),
        after: right.after,
    })
}

/// An operand, where nothing may nest any more.
#[tactic(auto, unfolding(crate::specs::Expr::flat))]
fn flat(tokens: &mut Tokens<'_>, progress: Progress) -> Result<Counted, ParseError>
    ensures { Reads (spec.flat all progress tokens.old) result tokens.new }
{
    match tokens.peek() {
        Some(TokenKind::Mark(Mark::Open)) => Err(tokens.stops(FaultKind::Nesting)),
        Some(TokenKind::Mark(Mark::Not)) => Err(tokens.stops(FaultKind::Nesting)),
        _ => Ok(Counted {
            expr: leaf(tokens)?,
            after: progress,
        }),
    }
}

/// An operand: a leaf, or what is in brackets or behind `!`.
#[cycle(expr)]
fn prim(
    alloc: Global,
    tokens: &mut Tokens<'_>,
    depth: usize,
    progress: Progress,
) -> Result<Counted, ParseError>
    ensures { Reads (spec.prim all depth progress tokens.old) result tokens.new }
{
    if depth == 0 {
        flat(tokens, progress)
    } else {
        nested(alloc, tokens, depth - 1, progress)
    }
}

/// An operand, in which so much more may nest.
#[cycle(expr)]
#[tactic(auto, unfolding(crate::specs::Expr::nested))]
fn nested(
    alloc: Global,
    tokens: &mut Tokens<'_>,
    depth: usize,
    progress: Progress,
) -> Result<Counted, ParseError>
    ensures { Reads (spec.nested all (spec.prim all depth) progress tokens.old) result tokens.new }
{
    match tokens.peek() {
        Some(TokenKind::Mark(Mark::Open)) => group(alloc, tokens, depth, progress),
        Some(TokenKind::Mark(Mark::Not)) => denial(alloc, tokens, depth, progress),
        _ => Ok(Counted {
            expr: leaf(tokens)?,
            after: progress,
        }),
    }
}

#[cycle(expr)]
#[tactic(auto, unfolding(crate::specs::Expr::group))]
fn group(
    alloc: Global,
    tokens: &mut Tokens<'_>,
    depth: usize,
    progress: Progress,
) -> Result<Counted, ParseError>
    ensures { Reads (spec.group all (spec.prim all depth) progress tokens.old) result tokens.new }
{
    let sign = tokens.take()?;
    let inner = tiers(alloc, tokens, depth, WHOLE, inside(progress))?;
    let close = tokens.expect(Mark::Close)?;
    Ok(Counted {
        after: outside(progress, inner.after),
        expr: Expr::Group(cover(sign, close), Boxed::new(alloc, inner.expr)?),
    })
}

#[cycle(expr)]
#[tactic(auto, unfolding(crate::specs::Expr::denial))]
fn denial(
    alloc: Global,
    tokens: &mut Tokens<'_>,
    depth: usize,
    progress: Progress,
) -> Result<Counted, ParseError>
    ensures { Reads (spec.denial all (spec.prim all depth) progress tokens.old) result tokens.new }
{
    let sign = tokens.take()?;
    let inner = prim(alloc, tokens, depth, progress)?;
    let span = cover(sign, inner.expr.span());
    Ok(Counted {
        after: inner.after,
        expr: Expr::Not(span, Boxed::new(alloc, inner.expr)?),
    })
}

/// An operator, found after the left operand, and its right operand of the tier.
#[cycle(expr)]
#[tactic(auto, unfolding(crate::specs::Expr::operation))]
fn operation(
    alloc: Global,
    tokens: &mut Tokens<'_>,
    depth: usize,
    tier: usize,
    left: Counted,
    found: Operator,
) -> Result<Counted, ParseError>
    requires { tier < 8 }
    ensures { Reads (spec.operation all (spec.tiers all tier (spec.prim all depth)) left found tokens.old) result tokens.new }
{
    let at = admit(tokens, found, left.after)?;
    let right = tiers(alloc, tokens, depth, tier, step(found, at, left.after))?;
    joined(alloc, found, at, left, right)
}

/// An expression of the tier.
#[cycle(expr)]
fn tiers(
    alloc: Global,
    tokens: &mut Tokens<'_>,
    depth: usize,
    tier: usize,
    progress: Progress,
) -> Result<Counted, ParseError>
    requires { tier < 8 }
    ensures { Reads (spec.tiers all tier (spec.prim all depth) progress tokens.old) result tokens.new }
{
    let first = prim(alloc, tokens, depth, progress)?;
    climb(alloc, tokens, depth, tier, first)
}

/// Goes on after an operand with operators of the tiers up to this one, at most one of them `^`.
#[cycle(expr)]
fn climb(
    alloc: Global,
    tokens: &mut Tokens<'_>,
    depth: usize,
    tier: usize,
    first: Counted,
) -> Result<Counted, ParseError>
    requires { tier < 8 }
    ensures { Reads (spec.climb all tier (spec.prim all depth) first tokens.old) result tokens.new }
{
    let mut left = first;
    let mut least = 1;
    while let Some(found) = operator(least, tier, tokens.peek()) {
        let next = binds(found);
        left = operation(alloc, tokens, depth, next - 1, left, found)?;
        least = next.max(2);
    }
    Ok(left)
}

/// A whole expression, by its tiers.
#[tactic(auto, unfolding(crate::specs::Expr::whole))]
fn tiered(alloc: Global, tokens: &mut Tokens<'_>) -> Result<Expr, ParseError>
    ensures { Reads (spec.whole all tokens.old) result tokens.new }
{
    let start = Progress {
        operators: 0,
        sum: Sum::Empty,
    };
    let found = tiers(alloc, tokens, MOST_NESTING, WHOLE, start)?;
    Ok(found.expr)
}

/// A whole expression. Most are a number or a name alone, which are read without the tiers.
pub(crate) fn whole(alloc: Global, tokens: &mut Tokens<'_>) -> Result<Expr, ParseError>
    ensures { Reads (spec.whole all tokens.old) result tokens.new }
{
    match tokens.lone() {
        Some(TokenKind::Number(n)) => Ok(Expr::Number(tokens.take()?, n)),
        Some(TokenKind::Name) => Ok(Expr::Name(tokens.take()?)),
        _ => tiered(alloc, tokens),
    }
}
