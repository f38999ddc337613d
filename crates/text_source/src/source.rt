//! The text of a profile and the places in it.

ghost use Rattle.std.specs.Prelude.{◌≡◌, ◌≤◌, ◌^◌, ◌↔◌, [], length, IfOk, IfErr, IsTrue, IsUtf8, slice_range};
ghost use Rattle.text_source.specs.Places as places;

use crate::fault::{Fault, FaultKind};
use crate::span::Span;
use std::marker::Model;

/// The most octets of a profile: 1 MiB.
pub const MOST_OCTETS: usize = 1_048_576;

/// The text of a profile: UTF-8 of at most 1 MiB. Contracts see its octets.
#[derive(Drop)]
pub struct Source<'a> {
    content: &'a str,
}

impl<'a> Model for Source<'a> {
    ghost use Rattle.std.specs.Prelude.{◌≤◌, ◌^◌, ℕ, List, length};

    ghost Value = { List ℕ };

    ghost view = { λ s. s.content.now };

    ghost invariant = { λ s. length s.content.now ≤ 2 ^ 20 };
}

/// A place in a text. Lines and columns count from 1, columns in characters.
#[derive(Clone, Copy, PartialEq, Eq)]
pub struct Position {
    pub line: usize,
    pub column: usize,
}

impl<'a> Source<'a> {
    /// The text of the octets, if there are at most 1 MiB of them and they are UTF-8.
    pub fn new(octets: &'a [u8]) -> Result<Source<'a>, Fault>
        ensures accepted { IfOk result (λ text. places.IsText octets.now × (text ≡ octets.now)) }
        ensures refused { IfErr result (places.IsRefused octets.now) }
    {
        if octets.len() > MOST_OCTETS {
            return Err(Fault {
                kind: FaultKind::TooLong,
                at: Span { from: 0, to: 0 },
            });
        }
        match str::from_utf8(octets) {
            Ok(content) => Ok(Source { content }),
            Err(error) => {
                let from = error.valid_up_to() as u32;
                Err(Fault {
                    kind: FaultKind::NotUtf8,
                    at: Span { from, to: from + 1 },
                })
            }
        }
    }

    /// The whole text.
    pub fn text(&self) -> &'a str
        ensures value { result.now ≡ self.now }
        ensures limit { length self.now ≤ 2 ^ 20 }
        ensures utf8 { IsUtf8 self.now }
    {
        self.content
    }

    /// How many octets the text has.
    pub fn len(&self) -> usize
        ensures value { result ≡ length self.now }
        ensures limit { length self.now ≤ 2 ^ 20 }
    {
        self.text().len()
    }

    /// Whether the text has no octets.
    pub fn is_empty(&self) -> bool
        ensures { IsTrue result ↔ (self.now ≡ []) }
    {
        self.text().is_empty()
    }

    /// The octets of a part of the text.
    pub fn octets(&self, span: Span) -> &'a [u8]
        requires order { span.from ≤ span.to }
        requires within { span.to ≤ length self.now }
        ensures { result.now ≡ slice_range self.now span.from span.to }
    {
        &self.text().as_bytes()[span.from as usize..span.to as usize]
    }

    /// The line and column of an octet of the text.
    pub fn line_column(&self, offset: usize) -> Position
        ensures line { result.line ≡ places.line_of self.now offset }
        ensures column { result.column ≡ places.column_of self.now offset }
    {
        line_column(self.text().as_bytes(), offset)
    }
}

/// The line and column of an octet. An offset past the end counts as the end.
pub fn line_column(octets: &[u8], offset: usize) -> Position
    ensures line { result.line ≡ places.line_of octets.now offset }
    ensures column { result.column ≡ places.column_of octets.now offset }
{
    let before = &octets[..offset.min(octets.len())];
    let mut line = 1;
    let mut column = 1;
    for octet in before {
        if *octet == b'\n' {
            line += 1;
            column = 1;
        } else if begins_character(*octet) {
            column += 1;
        }
    }
    Position { line, column }
}

/// Whether a character begins at the octet: in UTF-8 it goes on at those from 128 to 191.
fn begins_character(octet: u8) -> bool
    ensures { result ≡ places.begins_character octet }
{
    octet < 128 || 192 <= octet
}
