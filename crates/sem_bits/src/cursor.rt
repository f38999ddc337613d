ghost use Rattle.std.specs.Prelude.{◌≡◌, ◌≢◌, ◌↔◌, ◌+◌, ◌^◌, ◌<◌, ◌≤◌, false, [], length, take, IsTrue, IfOk, OnErr, slice_get, slice_range};
ghost use Rattle.std.specs.Option.{SomeIff};
ghost use Rattle.sem_bits.specs.Number.{num};
ghost use Rattle.sem_bits.specs.Cursor.{Advances, Takes};

use crate::bits::Bits;
use std::alloc::{AllocError, Global};
use std::marker::Model;

/// A place in borrowed bits, which moves as bits are taken.
#[derive(Drop)]
pub struct Cursor<'a> {
    bits: &'a Bits,
    place: usize,
}

// Clauses see the bits before the place and those after it.
impl<'a> Model for Cursor<'a> {
    ghost use Rattle.std.specs.Prelude.{◌≤◌, length, take, drop};
    ghost use Rattle.sem_bits.specs.Cursor.{Place};

    ghost Value = { Place };

    ghost view = { λ c. record { used = take c.place c.bits.now; left = drop c.place c.bits.now } };

    ghost invariant = { λ c. c.place ≤ length c.bits.now };
}

impl<'a> Cursor<'a> {
    /// The place before the first bit.
    pub fn new(bits: &'a Bits) -> Cursor<'a>
        ensures { result ≡ record { used = []; left = bits.now } }
    {
        Cursor { bits, place: 0 }
    }

    /// How many bits stand before the place.
    pub fn used(&self) -> usize
        ensures { result ≡ length self.now.used }
    {
        self.place
    }

    /// How many bits stand after the place.
    pub fn rest(&self) -> usize
        ensures value { result ≡ length self.now.left }
        ensures limit { length self.now.used + length self.now.left < 2 ^ 31 }
    {
        self.bits.len() - self.place
    }

    /// The bit some places after the next one, the next at 0, or `None` where fewer are left.
    pub fn at(&self, ahead: usize) -> Option<bool>
        ensures { result ≡ slice_get self.now.left ahead }
    {
        if ahead < self.rest() {
            self.bits.get(self.place + ahead)
        } else {
            None
        }
    }

    /// The number of so many bits, the first of which stands some places after the next one, or `None` where they are
    /// more than 64 or fewer are left.
    pub fn peek(&self, ahead: usize, count: usize) -> Option<u64>
        ensures { SomeIff result ((count ≤ 64) × (ahead + count ≤ length self.now.left)) (num (slice_range self.now.left ahead (ahead + count))) }
    {
        if ahead > self.rest() {
            return None;
        }
        self.bits.number_at(self.place + ahead, count)
    }

    /// The same for up to eight bits, or `None` where they are more or fewer are left. At most two octets are looked at.
    pub fn peek_narrow(&self, ahead: usize, count: usize) -> Option<u64>
        ensures { SomeIff result ((count ≤ 8) × (ahead + count ≤ length self.now.left)) (num (slice_range self.now.left ahead (ahead + count))) }
    {
        let left = self.rest().checked_sub(ahead)?;
        if count > 8 || count > left {
            return None;
        }
        Some(self.bits.narrow_number_at(self.place + ahead, count))
    }

    /// Whether these bits come next. It takes no memory.
    #[inline(always)]
    pub fn begins_with(&self, bits: &Bits) -> bool
        ensures { IsTrue result ↔ (take (length bits.now) self.now.left ≡ bits.now) }
    {
        if bits.len() > self.rest() {
            return false;
        }
        if let Some(number) = bits.value() {
            return self.peek(0, bits.len()) == Some(number);
        }
        self.begins_with_long(bits)
    }

    /// The same of more than 64 bits, of which there are no more than are left.
    #[inline(never)]
    fn begins_with_long(&self, bits: &Bits) -> bool
        requires { length bits.now ≤ length self.now.left }
        ensures { IsTrue result ↔ (take (length bits.now) self.now.left ≡ bits.now) }
    {
        let other = Cursor::new(bits);
        let mut done = 0;
        while done < bits.len() {
            let count = (bits.len() - done).min(64);
            if self.peek(done, count) != other.peek(done, count) {
                return false;
            }
            done += count;
        }
        true
    }

    /// Goes past these bits if they come next, and says whether they do. It takes no memory.
    #[inline(always)]
    pub fn skip(&mut self, bits: &Bits) -> bool
        ensures skipped { IsTrue result → Advances self.old self.new bits.now }
        ensures stays { result ≡ false → self.new ≡ self.old }
        ensures other { result ≡ false → take (length bits.now) self.old.left ≢ bits.now }
    {
        if bits.len() > self.rest() || !self.begins_with(bits) {
            return false;
        }
        self.place += bits.len();
        true
    }

    /// A second cursor at the same place.
    pub fn fork(&self) -> Cursor<'a>
        ensures { result ≡ self.now }
    {
        Cursor {
            bits: self.bits,
            place: self.place,
        }
    }

    /// Takes that count of next bits. It is `None` just where fewer are left, and then, as where memory runs out, the
    /// place stays.
    #[tactic(auto, using(crate::proofs::CursorLists::steps))]
    pub fn take(&mut self, alloc: Global, count: usize) -> Result<Option<Bits>, AllocError>
        ensures taken { IfOk result (Takes count self.old self.new) }
        ensures err { OnErr result (self.new ≡ self.old) }
    {
        if count > self.rest() {
            return Ok(None);
        }
        let end = self.place + count;
        match self.bits.slice(alloc, self.place, end)? {
            Some(bits) => {
                self.place = end;
                Ok(Some(bits))
            }
            None => Ok(None),
        }
    }
}
