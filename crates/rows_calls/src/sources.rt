//! Texts, their tokens and their places.

use crate::words::{count, parted};
use anyhow::{Context, Result, ensure};
use std::alloc::Global;
use std::fmt::Write;
use text_source::token::{Mark, Token, TokenKind};
use text_source::{Source, Span, lex, line_column};

/// `tokens TEXT`: its tokens, each as its octets, a colon and its kind: the word of a mark, `name`, a number, or how many digits a bit text has and what they
/// spell.
pub(crate) fn tokens(alloc: Global, out: &mut String, text: &str) -> Result<()> {
    let tokens = read(alloc, text)?;
    for token in &tokens {
        put_token(out, text, *token)?;
    }
    Ok(())
}

fn read(alloc: Global, text: &str) -> Result<Vec<Token>> {
    let source = Source::new(text.as_bytes())?;
    Ok(lex(alloc, &source)?)
}

fn put_token(out: &mut String, text: &str, token: Token) -> Result<()> {
    let Span { from, to } = token.span;
    out.push_str(text.get(from as usize..to as usize).context("no token")?)?;
    out.push(':')?;
    put_kind(out, token.kind)?;
    Ok(out.push(' ')?)
}

fn put_kind(out: &mut String, kind: TokenKind) -> Result<()> {
    match kind {
        TokenKind::Name => Ok(out.push_str("name")?),
        TokenKind::Number(value) => Ok(write!(out, "{value}")?),
        TokenKind::BitText { count, value } => Ok(write!(out, "{count}/{value}")?),
        TokenKind::Mark(mark) => Ok(out.push_str(word(mark))?),
    }
}

fn word(mark: Mark) -> &'static str {
    match mark {
        Mark::OpenBrace => "open_brace",
        Mark::CloseBrace => "close_brace",
        Mark::Open => "open",
        Mark::Close => "close",
        Mark::OpenSquare => "open_square",
        Mark::CloseSquare => "close_square",
        Mark::Comma => "comma",
        Mark::Semicolon => "semicolon",
        Mark::Binds => "binds",
        Mark::Is => "is",
        Mark::Dot => "dot",
        Mark::Or => "or",
        Mark::And => "and",
        Mark::Equal => "equal",
        Mark::NotEqual => "not_equal",
        Mark::Less => "less",
        Mark::Greater => "greater",
        Mark::LessEqual => "less_equal",
        Mark::GreaterEqual => "greater_equal",
        Mark::Plus => "plus",
        Mark::Minus => "minus",
        Mark::Times => "times",
        Mark::Divide => "divide",
        Mark::Remainder => "remainder",
        Mark::Power => "power",
        Mark::Not => "not",
        Mark::Uncompressed => "uncompressed",
        Mark::Control => "control",
        Mark::Initial => "initial",
        Mark::Default => "default",
        Mark::Compressed => "compressed",
        Mark::Enforce => "enforce",
        Mark::This => "this",
        Mark::Variable => "variable",
        Mark::Uvalue => "uvalue",
        Mark::Ulength => "ulength",
        Mark::Cvalue => "cvalue",
        Mark::Clength => "clength",
        Mark::True => "true",
        Mark::False => "false",
    }
}

/// `places OFFSETS of TEXT`: line and column of each offset.
pub(crate) fn places(out: &mut String, rest: &str) -> Result<()> {
    let (offsets, text) = parted(rest, " of ")?;
    let source = Source::new(text.as_bytes())?;
    for offset in offsets.split(' ') {
        put_place(out, &source, count(offset)?)?;
    }
    Ok(())
}

fn put_place(out: &mut String, source: &Source<'_>, offset: usize) -> Result<()> {
    let place = source.line_column(offset);
    let same = line_column(source.text().as_bytes(), offset) == place;
    ensure!(same && !source.is_empty(), "two places");
    Ok(write!(out, "{}:{} ", place.line, place.column)?)
}
