//! The tokens that are still to be read.

ghost use Rattle.std.specs.Prelude.{◌≡◌, List};
ghost use Rattle.text_tree.specs.Reading as spec;
ghost use Rattle.text_tree.specs.Reading.{Reads};
ghost use Rattle.text_source.specs.declared.fault.FaultKind.TheVariants as kinds;

use crate::refusal::{FaultPlace, ParseError, PlacedFault};
use std::marker::Model;
use text_source::{FaultKind, Mark, Span, Token, TokenKind, is_mark};

/// The tokens from the next one on.
#[derive(Drop)]
pub struct Tokens<'a> {
    rest: &'a [Token],
}

impl<'a> Model for Tokens<'a> {
    ghost use Rattle.std.specs.Prelude.{List};
    ghost use Rattle.std.specs.Coded.{coded_list};
    ghost use Rattle.text_source.specs.declared.token.Token.{Token};
    ghost use Rattle.text_tree.specs.Cursor.{token_code};

    ghost Value = { List Token };

    ghost coded = { coded_list token_code };

    ghost view = { λ t. t.rest.now };
}

impl<'a> Tokens<'a> {
    pub(crate) fn new(rest: &'a [Token]) -> Tokens<'a>
        ensures { result ≡ rest.now }
    {
        Tokens { rest }
    }

    /// The kind of the next token.
    pub(crate) fn peek(&self) -> Option<TokenKind>
        ensures { result ≡ spec.kind_at self.now }
    {
        match self.rest {
            [] => None,
            [first, ..] => Some(first.kind),
        }
    }

    /// The kind of the next token, where what comes after it ends an expression.
    pub(crate) fn lone(&self) -> Option<TokenKind>
        ensures { result ≡ spec.lone self.now }
    {
        match self.rest {
            [first, second, ..] if ends(second.kind) => Some(first.kind),
            _ => None,
        }
    }

    /// How many commas come before the next closing bracket, or the limit where there are more: a list has room for so many.
    pub(crate) fn commas(&self, limit: usize) -> usize {
        let mut count: usize = 0;
        for token in self.rest {
            match token.kind {
                TokenKind::Mark(Mark::Close) => return count,
                TokenKind::Mark(Mark::CloseSquare) => return count,
                TokenKind::Mark(Mark::Comma) => {
                    if count >= limit {
                        return count;
                    }
                    count = count.saturating_add(1);
                }
                _ => {}
            }
        }
        count
    }

    fn place(&self) -> FaultPlace
        ensures { result ≡ spec.place self.now }
    {
        match self.rest {
            [] => FaultPlace::End,
            [first, ..] => FaultPlace::At(first.span),
        }
    }

    /// A fault at the next token.
    pub(crate) fn stops(&self, kind: FaultKind) -> ParseError
        ensures { result ≡ ParseError.Refused (spec.refusal_of kind (spec.place self.now)) }
    {
        ParseError::Refused(PlacedFault {
            kind,
            at: self.place(),
        })
    }

    /// Why no rule reads the next token.
    pub(crate) fn refusal(&self) -> ParseError
        ensures { result ≡ ParseError.Refused (spec.refusal_of kinds.Unexpected (spec.place self.now)) }
    {
        self.stops(FaultKind::Unexpected)
    }

    /// Takes the next token, whatever it is.
    pub(crate) fn take(&mut self) -> Result<Span, ParseError>
        ensures { Reads (spec.take self.old) result self.new }
    {
        match self.rest {
            [] => Err(self.refusal()),
            [first, rest @ ..] => {
                let span = first.span;
                self.rest = rest;
                Ok(span)
            }
        }
    }

    pub(crate) fn has_more(&self) -> bool
        ensures { result ≡ spec.is_there (spec.kind_at self.now) }
    {
        !self.rest.is_empty()
    }

    pub(crate) fn sees(&self, mark: Mark) -> bool
        ensures { result ≡ spec.is_next mark (spec.kind_at self.now) }
    {
        match self.rest {
            [] => false,
            [first, ..] => is_mark(first.kind, mark),
        }
    }

    /// Takes this mark.
    pub(crate) fn expect(&mut self, mark: Mark) -> Result<Span, ParseError>
        ensures { Reads (spec.expect mark self.old) result self.new }
    {
        if self.sees(mark) {
            self.take()
        } else {
            Err(self.refusal())
        }
    }
}

/// Whether an expression ends before such a token, whatever is after it.
fn ends(kind: TokenKind) -> bool
    ensures { result ≡ spec.ends kind }
{
    match kind {
        TokenKind::Mark(mark) => match mark {
            Mark::Comma | Mark::Close | Mark::CloseSquare | Mark::Semicolon => true,
            _ => false,
        },
        _ => false,
    }
}

/// A fault at an earlier place.
pub(crate) fn stops_at(kind: FaultKind, at: Span) -> ParseError
    ensures { result ≡ ParseError.Refused (spec.refusal_of kind (FaultPlace.At at)) }
{
    ParseError::Refused(PlacedFault {
        kind,
        at: FaultPlace::At(at),
    })
}
