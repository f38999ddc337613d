//! Bits that are joined in octets, 64 of them at a time.

ghost use Rattle.std.specs.Prelude.{◌≡◌, ◌+◌, ◌*◌, ◌<◌, ◌++◌, [], length, IfOk, IfSome, OnOk};
ghost use Rattle.hex.specs.Hex.{IsBytes};
ghost use Rattle.sem_bits.specs.Octets.{bits_of};

use crate::word::Word;
use sem_bits::{Bits, octets_of};
use std::alloc::{AllocError, Global};
use std::marker::Model;

/// For how many octets room is made at once.
const ROOM: usize = 64;

/// Bits of which the first are in whole octets, eight of these at a time, and the others, at most 64, are a word.
#[derive(Drop)]
pub(crate) struct Joined {
    octets: Vec<u8>,
    tail: Word,
}

// Clauses see the list of the bits, first bit first.
impl Model for Joined {
    ghost use Rattle.std.specs.Prelude.{List, Bool, ◌++◌};
    ghost use Rattle.hex.specs.Hex.{IsBytes};
    ghost use Rattle.sem_bits.specs.Octets.{bits_of};

    ghost Value = { List Bool };

    ghost view = { λ j. bits_of j.octets.items ++ j.tail };

    ghost invariant = { λ j. IsBytes j.octets.items };
}

impl Joined {
    /// No bits.
    #[inline(always)]
    pub(crate) fn new(alloc: Global) -> Joined
        ensures { result ≡ [] }
    {
        Joined {
            octets: Vec::new(alloc),
            tail: Word::new(),
        }
    }

    /// Adds the bits at the end.
    #[inline(always)]
    pub(crate) fn add(&mut self, bits: &Word) -> Result<(), AllocError>
        ensures { OnOk result (self.new ≡ self.old ++ bits.now) }
    {
        match self.tail.joined(bits) {
            Some(both) => {
                self.tail = both;
                Ok(())
            }
            None => spill(&mut self.octets, &mut self.tail, bits),
        }
    }

    /// The bits. None above the limit of `Bits`.
    #[inline(always)]
    pub(crate) fn finish(self, alloc: Global) -> Result<Option<Bits>, AllocError>
        ensures { IfOk result (λ o. IfSome o (λ b. b ≡ self)) }
    {
        let Joined { octets, tail } = self;
        // Most levels have no more than a word.
        if octets.is_empty() {
            return Ok(Some(tail.to_bits(alloc)?));
        }
        ended(alloc, octets, &tail)
    }
}

/// Adds bits to the tail, of which the first 64 go to the octets.
#[inline(never)]
fn spill(octets: &mut Vec<u8>, tail: &mut Word, bits: &Word) -> Result<(), AllocError>
    requires over { 64 < length tail.old + length bits.now }
    requires bytes { IsBytes octets.old.items }
    ensures ok { OnOk result (bits_of octets.new.items ++ tail.new ≡ (bits_of octets.old.items ++ tail.old) ++ bits.now) }
    ensures bytes { IsBytes octets.new.items }
{
    make_room(octets)?;
    let (first, rest) = tail.filled(bits);
    octets.extend_from_slice(octets_of(first, 64).as_slice())?;
    *tail = rest;
    Ok(())
}

/// Makes room for the first octets.
#[inline(always)]
fn make_room(octets: &mut Vec<u8>) -> Result<(), AllocError>
    ensures { octets.new.items ≡ octets.old.items }
{
    if octets.is_empty() {
        octets.reserve(ROOM)?;
    }
    Ok(())
}

/// The bits of the octets and of a word after them. None above the limit of `Bits`.
#[inline(never)]
fn ended(alloc: Global, octets: Vec<u8>, tail: &Word) -> Result<Option<Bits>, AllocError>
    requires { IsBytes octets.items }
    ensures { IfOk result (λ o. IfSome o (λ b. b ≡ bits_of octets.items ++ tail.now)) }
{
    let Some(count) = bits_in(octets.len(), tail.len()) else {
        return Ok(None);
    };
    let last = octets_of(tail.value(), tail.len());
    let mut octets = octets;
    octets.extend_from_slice(&last[..(tail.len() + 7) / 8])?;
    let Some(bits) = Bits::from_octets(alloc, octets.as_slice(), count)? else {
        return Ok(None);
    };
    Ok(Some(bits))
}

/// How many bits so many octets have, with others after them.
#[inline(always)]
fn bits_in(octets: usize, more: usize) -> Option<usize>
    ensures { IfSome result (λ n. n ≡ 8 * octets + more) }
{
    octets.checked_mul(8)?.checked_add(more)
}
