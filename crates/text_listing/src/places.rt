//! Where the octets of a text stand.

ghost use Rattle.std.specs.Prelude.{◌≡◌, ◌<◌, ◌≤◌, ◌+◌, ◌^◌, length, IfOk, IsTrue};
ghost use Rattle.text_source.specs.Places.{begins_character, line_of, column_of};
ghost use Rattle.text_listing.specs.Known.{IsPlace, AreKnown, ArePlain, is_plain, place_of};

use std::alloc::{AllocError, Global};
use std::marker::Model;
use text_source::{Position, line_column};

/// The most places that a table has: lines and columns of so many parts of a text are below 2^32.
const MOST_PLACES: usize = 0x1000_0000;

/// A place in half the room.
#[derive(Clone, Copy, PartialEq, Eq)]
pub struct ShortPlace {
    pub line: u32,
    pub column: u32,
}

/// The places of every sixteenth octet of a text, found by one walk. Contracts see the octets.
#[derive(Drop)]
pub struct Places<'a> {
    octets: &'a [u8],
    table: Vec<ShortPlace>,
}

impl<'a> Model for Places<'a> {
    ghost use Rattle.std.specs.Prelude.{List, ℕ};
    ghost use Rattle.text_listing.specs.Known.{AreKnown};

    ghost Value = { List ℕ };

    ghost view = { λ p. p.octets.now };

    ghost invariant = { λ p. AreKnown p.octets.now p.table.items };
}

impl<'a> Places<'a> {
    /// The places of these octets. The error is out of memory.
    pub fn new(alloc: Global, octets: &'a [u8]) -> Result<Places<'a>, AllocError>
        ensures { IfOk result (λ p. p ≡ octets.now) }
    {
        let table = positions(alloc, octets)?;
        Ok(Places { octets, table })
    }

    /// The line and column of an octet. An offset past the end counts as the end.
    pub fn position(&self, offset: usize) -> Position
        ensures line { result.line ≡ line_of self.now offset }
        ensures column { result.column ≡ column_of self.now offset }
    {
        if offset > self.octets.len() {
            return line_column(self.octets, offset);
        }
        match self.table.get(offset / 16) {
            Some(start) => {
                let start = place_of(*start);
                place_near(self.octets, offset / 16 * 16, offset, start)
            }
            None => line_column(self.octets, offset),
        }
    }
}

fn place_of(spot: ShortPlace) -> Position
    ensures { result ≡ place_of spot }
{
    Position {
        line: spot.line as usize,
        column: spot.column as usize,
    }
}

fn spot_of(place: Position) -> ShortPlace
    requires { (place.line < 2 ^ 32) × (place.column < 2 ^ 32) }
    ensures { place_of result ≡ place }
{
    ShortPlace {
        line: place.line as u32,
        column: place.column as u32,
    }
}

/// The place of every sixteenth octet, in their order.
fn positions(alloc: Global, octets: &[u8]) -> Result<Vec<ShortPlace>, AllocError>
    ensures { IfOk result (λ table. AreKnown octets.now table.items) }
{
    let parts = (octets.len() / 16).min(MOST_PLACES - 1);
    let mut table = Vec::with_capacity(alloc, parts + 1)?;
    let mut place = Position { line: 1, column: 1 };
    table.push(spot_of(place))?;
    for k in 0..parts {
        place = place_further(octets, k * 16, place);
        table.push(spot_of(place))?;
    }
    Ok(table)
}

/// The place of the sixteenth octet after one, found from the place of that one. Most often it is on the same line.
fn place_further(octets: &[u8], from: usize, place: Position) -> Position
    requires within { from + 16 ≤ length octets.now }
    requires here { IsPlace octets.now from place }
    ensures { IsPlace octets.now (from + 16) result }
{
    if are_plain(&octets[from..from + 16]) {
        Position {
            line: place.line,
            column: place.column + 16,
        }
    } else {
        let middle = place_half(octets, from, place);
        place_half(octets, from + 8, middle)
    }
}

/// The place of the eighth octet after one, found likewise.
fn place_half(octets: &[u8], from: usize, place: Position) -> Position
    requires within { from + 8 ≤ length octets.now }
    requires here { IsPlace octets.now from place }
    ensures { IsPlace octets.now (from + 8) result }
{
    if are_plain(&octets[from..from + 8]) {
        Position {
            line: place.line,
            column: place.column + 8,
        }
    } else {
        place_after(octets, from, from + 8, place)
    }
}

/// The place of an octet, found from that of an octet at most sixteen before it. Most often both are on one line.
fn place_near(octets: &[u8], from: usize, to: usize, place: Position) -> Position
    requires order { from ≤ to }
    requires near { to ≤ from + 16 }
    requires within { to ≤ length octets.now }
    requires here { IsPlace octets.now from place }
    ensures { IsPlace octets.now to result }
{
    if octets.len() - from >= 16 && are_plain(&octets[from..from + 16]) {
        Position {
            line: place.line,
            column: place.column + (to - from),
        }
    } else {
        place_after(octets, from, to, place)
    }
}

/// Whether each octet is a character and ends no line. All are looked at, which takes less time than to stop at one.
fn are_plain(part: &[u8]) -> bool
    ensures { IsTrue result → ArePlain part.now }
{
    let mut others = false;
    for octet in part {
        if !is_plain(*octet) {
            others = true;
        }
    }
    !others
}

/// Whether the octet is a character and ends no line.
fn is_plain(octet: u8) -> bool
    ensures { result ≡ is_plain octet }
{
    octet < 128 && octet != b'\n'
}

/// The place of an octet, found from that of an octet before it.
fn place_after(octets: &[u8], from: usize, to: usize, place: Position) -> Position
    requires order { from ≤ to }
    requires within { to ≤ length octets.now }
    requires here { IsPlace octets.now from place }
    ensures { IsPlace octets.now to result }
{
    let mut line = place.line;
    let mut column = place.column;
    for octet in &octets[from..to] {
        if *octet == b'\n' {
            line += 1;
            column = 1;
        } else if is_first(*octet) {
            column += 1;
        }
    }
    Position { line, column }
}

/// Whether a character begins at the octet: in UTF-8 it goes on at those from 128 to 191.
fn is_first(octet: u8) -> bool
    ensures { result ≡ begins_character octet }
{
    octet < 128 || 192 <= octet
}
