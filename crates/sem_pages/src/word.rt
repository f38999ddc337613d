//! At most 64 bits, as the number that they spell.

ghost use Rattle.std.specs.Prelude.{◌≡◌, ◌+◌, ◌*◌, ◌^◌, ◌<◌, ◌≤◌, ◌++◌, ◌↔◌, [], length, IfOk, IfSome, IfNone, IsTrue};
ghost use Rattle.sem_bits.specs.Number.{num, enc};

use sem_bits::{Bits, has_spelling};
use std::alloc::{AllocError, Global};
use std::marker::Model;

/// At most 64 bits, as their count and the number that they spell. They take no allocation.
#[derive(Clone, Copy)]
pub struct Word {
    count: usize,
    value: u64,
}

// Clauses see the list of the bits, first bit first.
impl Model for Word {
    ghost use Rattle.std.specs.Prelude.{List, Bool, length, ◌≤◌, ◌<◌, ◌^◌};
    ghost use Rattle.sem_bits.specs.Number.{enc, num};
    ghost use Rattle.sem_bits.proofs.Numbers.{length-enc, num-enc};

    ghost Value = { List Bool };

    ghost view = { λ w. enc w.count w.value };

    ghost invariant = { λ w. (w.count ≤ 64) × (w.value < 2 ^ w.count) };

    ghost inverse = { λ bits. record { count = length bits; value = num bits } };

    ghost inverse_ok = { λ w within. λ i. record { count = length-enc w.count w.value i; value = num-enc w.count w.value within.1 i } };
}

impl Word {
    /// No bits.
    #[tactic(auto, using(crate::proofs::Words::no_bits))]
    pub fn new() -> Word
        ensures { result ≡ [] }
    {
        Word { count: 0, value: 0 }
    }

    /// So many bits that spell the number. None where they would be more than 64, or don't spell it.
    #[inline(always)]
    pub fn spelled(count: usize, value: u64) -> Option<Word>
        ensures { IfSome result (λ w. (length w ≡ count) × (num w ≡ value) × (count ≤ 64)) }
    {
        if count > 64 || !has_spelling(count, value) {
            return None;
        }
        Some(Word { count, value })
    }

    /// These bits, if they are at most 64.
    #[inline(always)]
    pub fn of(bits: &Bits) -> Option<Word>
        ensures { IfSome result (λ w. w ≡ bits.now) }
    {
        Some(Word {
            count: bits.len(),
            value: bits.value()?,
        })
    }

    /// How many bits there are.
    #[inline(always)]
    pub fn len(&self) -> usize
        ensures value { result ≡ length self.now }
        ensures limit { length self.now ≤ 64 }
    {
        self.count
    }

    /// Whether there are no bits.
    #[inline(always)]
    pub fn is_empty(&self) -> bool
        ensures { IsTrue result ↔ (self.now ≡ []) }
    {
        self.len() == 0
    }

    /// The number that the bits spell.
    #[inline(always)]
    pub fn value(&self) -> u64
        ensures { result ≡ num self.now }
    {
        self.value
    }

    /// Whether these are the same bits.
    #[inline(always)]
    pub fn is(&self, other: &Word) -> bool
        ensures { IsTrue result → self.now ≡ other.now }
    {
        self.count == other.count && self.value == other.value
    }

    /// Whether the bits are these.
    #[inline(always)]
    pub fn is_all_of(&self, bits: &Bits) -> bool
        ensures { IsTrue result → bits.now ≡ self.now }
    {
        match Word::of(bits) {
            Some(other) => other.is(self),
            None => false,
        }
    }

    /// The bits with others after them, if they are at most 64.
    #[inline(always)]
    pub fn joined(&self, other: &Word) -> Option<Word>
        ensures both { IfSome result (λ w. w ≡ self.now ++ other.now) }
        ensures none { IfNone result (64 < length self.now + length other.now) }
    {
        let added = other.count;
        let count = self.count + added;
        if count > 64 {
            return None;
        }
        Some(Word {
            count,
            value: beside(self.value, other.value, added),
        })
    }

    /// The first 64 bits of these with others after them, as their number, and the rest.
    #[inline(always)]
    pub(crate) fn filled(&self, other: &Word) -> (u64, Word)
        requires { 64 < length self.now + length other.now }
        ensures { self.now ++ other.now ≡ enc 64 result.0 ++ result.1 }
    {
        let room = 64 - self.count;
        if room == 0 {
            return (self.value, *other);
        }
        let left = other.count - room;
        let rest = Word {
            count: left,
            value: other.value & ((1 << left) - 1),
        };
        (beside(self.value, other.value >> left, room), rest)
    }

    /// The same bits.
    #[inline(always)]
    pub fn to_bits(&self, alloc: Global) -> Result<Bits, AllocError>
        ensures { IfOk result (λ b. b ≡ self.now) }
    {
        match Bits::from_value(alloc, self.count, self.value)? {
            Some(bits) => Ok(bits),
            None => unreachable!(),
        }
    }
}

/// The number of bits and of others after them.
#[inline(always)]
fn beside(first: u64, second: u64, count: usize) -> u64
    requires most { count ≤ 64 }
    requires room { first * 2 ^ count + second < 2 ^ 64 }
    ensures { result ≡ first * 2 ^ count + second }
{
    if count == 64 {
        second
    } else {
        (first << count) + second
    }
}
