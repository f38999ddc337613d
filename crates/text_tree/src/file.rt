//! Sections, methods and constants.

ghost use Rattle.std.specs.Prelude.{◌≡◌, [], ◌∷◌};
ghost use Rattle.text_tree.specs.Reading as reading;
ghost use Rattle.text_tree.specs.Reading.{Reads};
ghost use Rattle.text_tree.specs.Rules.{all};
ghost use Rattle.text_tree.specs.Grammar as grammar;
ghost use Rattle.text_tree.specs.File as spec;

use crate::counts::{SectionsSoFar, Tally, is_repeated, with_part, with_section};
use crate::expr::whole;
use crate::refusal::ParseError;
use crate::statement::{is_full, is_name, is_out, name, statements};
use crate::tokens::{Tokens, stops_at};
use crate::tree::{Constant, Method, Part, Section, SectionKind};
use sqlite_items::Items;
use std::alloc::Global;
use text_source::{FaultKind, Mark, Span, TokenKind};

const MOST_CONSTANTS: usize = 1024;

const MOST_METHODS: usize = 128;

const MOST_PARAMETERS: usize = 32;

const MOST_FORMATS: usize = 64;

/// The first words of a section.
#[derive(Clone, Copy)]
pub struct SectionHead {
    pub word: Span,
    pub kind: SectionKind,
}

fn holds_bound(kind: SectionKind) -> bool
    ensures { result ≡ grammar.holds_bound kind }
{
    match kind {
        SectionKind::Initial | SectionKind::Default => true,
        _ => false,
    }
}

fn repeats(next: Option<TokenKind>, seen: SectionsSoFar) -> bool
    ensures { result ≡ spec.repeats next seen }
{
    match next {
        Some(TokenKind::Mark(word)) => is_repeated(word, seen),
        _ => false,
    }
}

fn begins_method(tokens: &Tokens<'_>) -> bool
    ensures { result ≡ spec.begins_method (reading.kind_at tokens.now) }
{
    tokens.sees(Mark::Open) || tokens.sees(Mark::OpenBrace)
}

#[tactic(auto, unfolding(crate::specs::File::called))]
fn called(tokens: &mut Tokens<'_>) -> Result<Option<Span>, ParseError>
    ensures { Reads (spec.called all tokens.old) result tokens.new }
{
    match tokens.peek() {
        Some(TokenKind::Name) => Ok(Some(tokens.take()?)),
        _ => Ok(None),
    }
}

#[tactic(auto, unfolding(crate::specs::File::format))]
fn format(tokens: &mut Tokens<'_>) -> Result<SectionHead, ParseError>
    ensures { Reads (spec.format all tokens.old) result tokens.new }
{
    let word = tokens.take()?;
    let name = called(tokens)?;
    Ok(SectionHead {
        word,
        kind: SectionKind::Compressed(name),
    })
}

/// Takes the word of a section of the kind.
#[tactic(auto, unfolding(crate::specs::File::plain))]
fn plain(tokens: &mut Tokens<'_>, kind: SectionKind) -> Result<SectionHead, ParseError>
    ensures { Reads (spec.plain all kind tokens.old) result tokens.new }
{
    let word = tokens.take()?;
    Ok(SectionHead { word, kind })
}

#[tactic(auto, unfolding(crate::specs::File::heading))]
fn heading(tokens: &mut Tokens<'_>) -> Result<SectionHead, ParseError>
    ensures { Reads (spec.heading all tokens.old) result tokens.new }
{
    match tokens.peek() {
        Some(TokenKind::Mark(Mark::Uncompressed)) => plain(tokens, SectionKind::Uncompressed),
        Some(TokenKind::Mark(Mark::Control)) => plain(tokens, SectionKind::Control),
        Some(TokenKind::Mark(Mark::Initial)) => plain(tokens, SectionKind::Initial),
        Some(TokenKind::Mark(Mark::Default)) => plain(tokens, SectionKind::Default),
        Some(TokenKind::Mark(Mark::Compressed)) => format(tokens),
        _ => Err(tokens.refusal()),
    }
}

#[tactic(auto, unfolding(crate::specs::File::section_of))]
fn section_of(alloc: Global, tokens: &mut Tokens<'_>) -> Result<Section, ParseError>
    ensures { Reads (spec.section_of all tokens.old) result tokens.new }
{
    let head = heading(tokens)?;
    tokens.expect(Mark::OpenBrace)?;
    let items = statements(alloc, tokens, holds_bound(head.kind))?;
    tokens.expect(Mark::CloseBrace)?;
    Ok(Section {
        kind: head.kind,
        word: head.word,
        items,
    })
}

/// The next section of a method, after those that were seen.
#[tactic(auto, unfolding(crate::specs::File::section))]
fn section(
    alloc: Global,
    tokens: &mut Tokens<'_>,
    seen: SectionsSoFar,
) -> Result<Section, ParseError>
    ensures { Reads (spec.section all seen tokens.old) result tokens.new }
{
    if repeats(tokens.peek(), seen) {
        return Err(tokens.stops(FaultKind::RepeatedSection));
    }
    if tokens.sees(Mark::Compressed) && is_out(seen.formats_left) {
        return Err(tokens.stops(FaultKind::TooManyParts));
    }
    section_of(alloc, tokens)
}

fn sections(alloc: Global, tokens: &mut Tokens<'_>) -> Result<Items<Section>, ParseError>
    ensures { Reads (spec.sections all tokens.old) result tokens.new }
{
    let mut found = Items::new(alloc);
    let mut seen = SectionsSoFar {
        control: false,
        initial: false,
        default: false,
        formats_left: MOST_FORMATS,
    };
    'more: while !tokens.sees(Mark::CloseBrace) {
        let next = section(alloc, tokens, seen)?;
        seen = with_section(next.kind, seen);
        found.push(next)?;
    }
    Ok(found)
}

/// The next parameter, after so many.
#[tactic(auto, unfolding(crate::specs::File::next_name, crate::specs::File::limited))]
fn next_name(tokens: &mut Tokens<'_>, count: usize) -> Result<Span, ParseError>
    ensures { Reads (spec.next_name all count tokens.old) result tokens.new }
{
    tokens.take()?;
    if is_full(MOST_PARAMETERS, count) && is_name(tokens.peek()) {
        return Err(tokens.stops(FaultKind::TooManyParts));
    }
    name(tokens)
}

fn names(alloc: Global, tokens: &mut Tokens<'_>) -> Result<Items<Span>, ParseError>
    ensures { Reads (spec.names all tokens.old) result tokens.new }
{
    let mut found = Items::new(alloc);
    found.push(name(tokens)?)?;
    'more: while tokens.sees(Mark::Comma) {
        let count = found.len();
        found.push(next_name(tokens, count)?)?;
    }
    Ok(found)
}

#[tactic(auto, unfolding(crate::specs::File::declared))]
fn declared(alloc: Global, tokens: &mut Tokens<'_>) -> Result<Items<Span>, ParseError>
    ensures { Reads (spec.declared all tokens.old) result tokens.new }
{
    let found = names(alloc, tokens)?;
    tokens.expect(Mark::Close)?;
    Ok(found)
}

#[tactic(auto, unfolding(crate::specs::File::parameters_of))]
fn parameters_of(alloc: Global, tokens: &mut Tokens<'_>) -> Result<Items<Span>, ParseError>
    ensures { Reads (spec.parameters_of all tokens.old) result tokens.new }
{
    tokens.take()?;
    if tokens.sees(Mark::Close) {
        tokens.take()?;
        Ok(Items::new(alloc))
    } else {
        declared(alloc, tokens)
    }
}

#[tactic(auto, unfolding(crate::specs::File::parameters))]
fn parameters(alloc: Global, tokens: &mut Tokens<'_>) -> Result<Items<Span>, ParseError>
    ensures { Reads (spec.parameters all tokens.old) result tokens.new }
{
    if tokens.sees(Mark::Open) {
        parameters_of(alloc, tokens)
    } else {
        Ok(Items::new(alloc))
    }
}

#[tactic(auto, unfolding(crate::specs::File::constant_of))]
fn constant_of(alloc: Global, tokens: &mut Tokens<'_>, at: Span) -> Result<Part, ParseError>
    ensures { Reads (spec.constant_of all at tokens.old) result tokens.new }
{
    tokens.take()?;
    let value = whole(alloc, tokens)?;
    tokens.expect(Mark::Semicolon)?;
    Ok(Part::Constant(Constant { name: at, value }))
}

#[tactic(auto, unfolding(crate::specs::File::stop))]
fn stop(tokens: &mut Tokens<'_>) -> Result<(), ParseError>
    ensures { Reads (spec.stop all tokens.old) result tokens.new }
{
    if tokens.sees(Mark::Semicolon) {
        tokens.take()?;
    }
    Ok(())
}

#[tactic(auto, unfolding(crate::specs::File::method_of))]
fn method_of(alloc: Global, tokens: &mut Tokens<'_>, at: Span) -> Result<Part, ParseError>
    ensures { Reads (spec.method_of all at tokens.old) result tokens.new }
{
    let parameters = parameters(alloc, tokens)?;
    tokens.expect(Mark::OpenBrace)?;
    let sections = sections(alloc, tokens)?;
    tokens.expect(Mark::CloseBrace)?;
    stop(tokens)?;
    Ok(Part::Method(Method {
        name: at,
        parameters,
        sections,
    }))
}

/// A constant after its name, where so many more may come.
#[tactic(auto, unfolding(crate::specs::File::constant))]
fn constant(
    alloc: Global,
    tokens: &mut Tokens<'_>,
    left: usize,
    at: Span,
) -> Result<Part, ParseError>
    ensures { Reads (spec.constant all left at tokens.old) result tokens.new }
{
    if is_out(left) {
        return Err(stops_at(FaultKind::TooManyParts, at));
    }
    constant_of(alloc, tokens, at)
}

/// A method after its name, where so many more may come.
#[tactic(auto, unfolding(crate::specs::File::method))]
fn method(alloc: Global, tokens: &mut Tokens<'_>, left: usize, at: Span) -> Result<Part, ParseError>
    ensures { Reads (spec.method all left at tokens.old) result tokens.new }
{
    if is_out(left) && begins_method(tokens) {
        return Err(stops_at(FaultKind::TooManyParts, at));
    }
    method_of(alloc, tokens, at)
}

/// The next constant or method, where so many more may come.
#[tactic(auto, unfolding(crate::specs::File::part))]
fn part(alloc: Global, tokens: &mut Tokens<'_>, tally: Tally) -> Result<Part, ParseError>
    ensures { Reads (spec.part all tally tokens.old) result tokens.new }
{
    let at = name(tokens)?;
    if tokens.sees(Mark::Is) {
        constant(alloc, tokens, tally.constants_left, at)
    } else {
        method(alloc, tokens, tally.methods_left, at)
    }
}

pub(crate) fn parts(alloc: Global, tokens: &mut Tokens<'_>) -> Result<Items<Part>, ParseError>
    ensures { Reads (spec.parts all tokens.old) result tokens.new }
{
    let mut found = Items::new(alloc);
    let mut tally = Tally {
        constants_left: MOST_CONSTANTS,
        methods_left: MOST_METHODS,
    };
    'more: while tokens.has_more() {
        let next = part(alloc, tokens, tally)?;
        tally = with_part(&next, tally);
        found.push(next)?;
    }
    Ok(found)
}
