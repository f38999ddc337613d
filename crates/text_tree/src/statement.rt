//! Lists of expressions, encodings, brackets and statements.

ghost use Rattle.std.specs.Prelude.{◌≡◌, ◌<◌, [], ◌∷◌};
ghost use Rattle.text_tree.specs.Reading.{Reads};
ghost use Rattle.text_tree.specs.Reading as reading;
ghost use Rattle.text_tree.specs.Rules as rules;
ghost use Rattle.text_tree.specs.Rules.{all};
ghost use Rattle.text_tree.specs.File as spec;

use crate::expr::{cover, whole};
use crate::refusal::ParseError;
use crate::tokens::{Tokens, stops_at};
use crate::tree::{Bound, Bracket, Encoding, Expr, Item};
use sqlite_items::Items;
use std::alloc::Global;
use text_source::{FaultKind, Mark, Span, TokenKind};

/// The most arguments of a call, and the most lengths in a bracket.
const MOST_VALUES: usize = 32;

/// As many statements as a section has room for at first.
const MOSTLY_STATEMENTS: usize = 8;

/// The most statements of a section.
const MOST_STATEMENTS: usize = 128;

/// Whether as many are there as may be.
pub(crate) fn is_full(most: usize, count: usize) -> bool
    ensures { result ≡ rules.is_full all most count }
{
    most <= count
}

/// Whether no more may come.
pub(crate) fn is_out(left: usize) -> bool
    ensures { result ≡ rules.is_out all left }
{
    left == 0
}

#[tactic(auto, unfolding(crate::specs::File::name))]
pub(crate) fn name(tokens: &mut Tokens<'_>) -> Result<Span, ParseError>
    ensures { Reads (spec.name tokens.old) result tokens.new }
{
    match tokens.peek() {
        Some(TokenKind::Name) => tokens.take(),
        _ => Err(tokens.refusal()),
    }
}

pub(crate) fn is_name(next: Option<TokenKind>) -> bool
    ensures { result ≡ spec.is_name next }
{
    match next {
        Some(TokenKind::Name) => true,
        _ => false,
    }
}

fn begins_expr(next: Option<TokenKind>) -> bool
    ensures { result ≡ spec.begins_expr next }
{
    match next {
        Some(TokenKind::Name) => true,
        Some(TokenKind::Number(_)) => true,
        Some(TokenKind::Mark(mark)) => match mark {
            Mark::Minus | Mark::True | Mark::False | Mark::This | Mark::Open | Mark::Not => true,
            _ => false,
        },
        _ => false,
    }
}

fn begins_statement(only_bound: bool, tokens: &Tokens<'_>) -> bool
    ensures { result ≡ spec.begins_statement only_bound (reading.kind_at tokens.now) }
{
    is_name(tokens.peek()) || (!only_bound && tokens.sees(Mark::Enforce))
}

/// The next one of a list of expressions, after so many.
#[tactic(auto, unfolding(crate::specs::File::next_expr, crate::specs::File::limited))]
fn next_expr(alloc: Global, tokens: &mut Tokens<'_>, count: usize) -> Result<Expr, ParseError>
    ensures { Reads (spec.next_expr all count tokens.old) result tokens.new }
{
    tokens.take()?;
    if is_full(MOST_VALUES, count) && begins_expr(tokens.peek()) {
        return Err(tokens.stops(FaultKind::TooManyParts));
    }
    whole(alloc, tokens)
}

fn exprs(alloc: Global, tokens: &mut Tokens<'_>) -> Result<Items<Expr>, ParseError>
    ensures { Reads (spec.exprs all tokens.old) result tokens.new }
{
    let room = tokens.commas(MOST_VALUES).saturating_add(1);
    let mut found = Items::from_vec(Vec::with_capacity(alloc, room)?);
    found.push(whole(alloc, tokens)?)?;
    'more: while tokens.sees(Mark::Comma) {
        let count = found.len();
        found.push(next_expr(alloc, tokens, count)?)?;
    }
    Ok(found)
}

#[tactic(auto, unfolding(crate::specs::File::variable))]
fn variable(tokens: &mut Tokens<'_>, first: Span) -> Result<Option<Bracket>, ParseError>
    ensures { Reads (spec.variable all first tokens.old) result tokens.new }
{
    tokens.take()?;
    let last = tokens.expect(Mark::CloseSquare)?;
    Ok(Some(Bracket::Variable(cover(first, last))))
}

#[tactic(auto, unfolding(crate::specs::File::lengths))]
fn lengths(
    alloc: Global,
    tokens: &mut Tokens<'_>,
    first: Span,
) -> Result<Option<Bracket>, ParseError>
    ensures { Reads (spec.lengths all first tokens.old) result tokens.new }
{
    let found = exprs(alloc, tokens)?;
    let last = tokens.expect(Mark::CloseSquare)?;
    Ok(Some(Bracket::Lengths(cover(first, last), found)))
}

/// What square brackets hold, if that is not nothing.
#[tactic(auto, unfolding(crate::specs::File::filled))]
fn filled(
    alloc: Global,
    tokens: &mut Tokens<'_>,
    first: Span,
) -> Result<Option<Bracket>, ParseError>
    ensures { Reads (spec.filled all first tokens.old) result tokens.new }
{
    if tokens.sees(Mark::Variable) {
        variable(tokens, first)
    } else {
        lengths(alloc, tokens, first)
    }
}

#[tactic(auto, unfolding(crate::specs::File::bracket_of))]
fn bracket_of(alloc: Global, tokens: &mut Tokens<'_>) -> Result<Option<Bracket>, ParseError>
    ensures { Reads (spec.bracket_of all tokens.old) result tokens.new }
{
    let first = tokens.take()?;
    if tokens.sees(Mark::CloseSquare) {
        return Err(stops_at(FaultKind::EmptyBracket, first));
    }
    filled(alloc, tokens, first)
}

#[tactic(auto, unfolding(crate::specs::File::bracket))]
fn bracket(alloc: Global, tokens: &mut Tokens<'_>) -> Result<Option<Bracket>, ParseError>
    ensures { Reads (spec.bracket all tokens.old) result tokens.new }
{
    if tokens.sees(Mark::OpenSquare) {
        bracket_of(alloc, tokens)
    } else {
        Ok(None)
    }
}

#[tactic(auto, unfolding(crate::specs::File::given))]
fn given(alloc: Global, tokens: &mut Tokens<'_>) -> Result<Items<Expr>, ParseError>
    ensures { Reads (spec.given all tokens.old) result tokens.new }
{
    let found = exprs(alloc, tokens)?;
    tokens.expect(Mark::Close)?;
    Ok(found)
}

#[tactic(auto, unfolding(crate::specs::File::arguments_of))]
fn arguments_of(alloc: Global, tokens: &mut Tokens<'_>) -> Result<Items<Expr>, ParseError>
    ensures { Reads (spec.arguments_of all tokens.old) result tokens.new }
{
    tokens.take()?;
    if tokens.sees(Mark::Close) {
        tokens.take()?;
        Ok(Items::new(alloc))
    } else {
        given(alloc, tokens)
    }
}

#[tactic(auto, unfolding(crate::specs::File::arguments))]
fn arguments(alloc: Global, tokens: &mut Tokens<'_>) -> Result<Items<Expr>, ParseError>
    ensures { Reads (spec.arguments all tokens.old) result tokens.new }
{
    if tokens.sees(Mark::Open) {
        arguments_of(alloc, tokens)
    } else {
        Ok(Items::new(alloc))
    }
}

#[tactic(auto, unfolding(crate::specs::File::encoding))]
fn encoding(alloc: Global, tokens: &mut Tokens<'_>) -> Result<Encoding, ParseError>
    ensures { Reads (spec.encoding all tokens.old) result tokens.new }
{
    match tokens.peek() {
        Some(TokenKind::BitText { count, value }) => {
            let at = tokens.take()?;
            Ok(Encoding::Bits(at, usize::from(count), value))
        }
        Some(TokenKind::Name) => {
            let at = tokens.take()?;
            Ok(Encoding::Call(at, arguments(alloc, tokens)?))
        }
        _ => Err(tokens.refusal()),
    }
}

#[tactic(auto, unfolding(crate::specs::File::field))]
fn field(alloc: Global, tokens: &mut Tokens<'_>, at: Span) -> Result<Item, ParseError>
    ensures { Reads (spec.field all at tokens.old) result tokens.new }
{
    let found = bracket(alloc, tokens)?;
    tokens.expect(Mark::Semicolon)?;
    Ok(Item::Field(at, found))
}

/// What binds a field, after its name.
#[tactic(auto, unfolding(crate::specs::File::binding))]
fn binding(alloc: Global, tokens: &mut Tokens<'_>, at: Span) -> Result<Bound, ParseError>
    ensures { Reads (spec.binding all at tokens.old) result tokens.new }
{
    tokens.expect(Mark::Binds)?;
    let encoding = encoding(alloc, tokens)?;
    let bracket = bracket(alloc, tokens)?;
    tokens.expect(Mark::Semicolon)?;
    Ok(Bound {
        name: at,
        encoding,
        bracket,
    })
}

#[tactic(auto, unfolding(crate::specs::File::bound))]
fn bound(alloc: Global, tokens: &mut Tokens<'_>) -> Result<Bound, ParseError>
    ensures { Reads (spec.bound all tokens.old) result tokens.new }
{
    let at = name(tokens)?;
    binding(alloc, tokens, at)
}

#[tactic(auto, unfolding(crate::specs::File::named_item))]
fn named_item(alloc: Global, tokens: &mut Tokens<'_>) -> Result<Item, ParseError>
    ensures { Reads (spec.named_item all tokens.old) result tokens.new }
{
    let at = tokens.take()?;
    if tokens.sees(Mark::Binds) {
        Ok(Item::Bound(binding(alloc, tokens, at)?))
    } else {
        field(alloc, tokens, at)
    }
}

#[tactic(auto, unfolding(crate::specs::File::enforce))]
fn enforce(alloc: Global, tokens: &mut Tokens<'_>) -> Result<Item, ParseError>
    ensures { Reads (spec.enforce all tokens.old) result tokens.new }
{
    let at = tokens.take()?;
    tokens.expect(Mark::Open)?;
    let test = whole(alloc, tokens)?;
    tokens.expect(Mark::Close)?;
    tokens.expect(Mark::Semicolon)?;
    Ok(Item::Enforce(at, test))
}

#[tactic(auto, unfolding(crate::specs::File::item))]
fn item(alloc: Global, tokens: &mut Tokens<'_>) -> Result<Item, ParseError>
    ensures { Reads (spec.item all tokens.old) result tokens.new }
{
    match tokens.peek() {
        Some(TokenKind::Name) => named_item(alloc, tokens),
        Some(TokenKind::Mark(Mark::Enforce)) => enforce(alloc, tokens),
        _ => Err(tokens.refusal()),
    }
}

#[tactic(auto, unfolding(crate::specs::File::any_statement))]
fn any_statement(
    alloc: Global,
    tokens: &mut Tokens<'_>,
    only_bound: bool,
) -> Result<Item, ParseError>
    ensures { Reads (spec.any_statement all only_bound tokens.old) result tokens.new }
{
    if only_bound {
        Ok(Item::Bound(bound(alloc, tokens)?))
    } else {
        item(alloc, tokens)
    }
}

/// The next statement of a section, after so many.
#[tactic(auto, unfolding(crate::specs::File::statement, crate::specs::File::limited))]
fn statement(
    alloc: Global,
    tokens: &mut Tokens<'_>,
    only_bound: bool,
    count: usize,
) -> Result<Item, ParseError>
    ensures { Reads (spec.statement all only_bound count tokens.old) result tokens.new }
{
    if is_full(MOST_STATEMENTS, count) && begins_statement(only_bound, tokens) {
        return Err(tokens.stops(FaultKind::TooManyParts));
    }
    any_statement(alloc, tokens, only_bound)
}

/// The statements of a section; INITIAL and DEFAULT hold bound fields alone.
pub(crate) fn statements(
    alloc: Global,
    tokens: &mut Tokens<'_>,
    only_bound: bool,
) -> Result<Items<Item>, ParseError>
    ensures { Reads (spec.statements all only_bound tokens.old) result tokens.new }
{
    let mut found = Items::from_vec(Vec::with_capacity(alloc, MOSTLY_STATEMENTS)?);
    'more: while !tokens.sees(Mark::CloseBrace) {
        let count = found.len();
        found.push(statement(alloc, tokens, only_bound, count)?)?;
    }
    Ok(found)
}
