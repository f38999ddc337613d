//! Bits in octets, where there are more than 64 of them: the first is the highest of the first octet, and the places of the
//! last octet past their count are zero.
ghost use Rattle.std.specs.Prelude.{◌≡◌, ◌+◌, ◌*◌, ◌-◌, ◌/◌, ◌%◌, ◌^◌, Bool, ◌<◌, ◌≤◌, ◌↔◌, List, ◌++◌, length, IsTrue, IfOk, OnOk, OnErr, IfSome, IfNone, false, take, drop, replicate, slice_get, slice_range, slice_index_or};
ghost use Rattle.smallvec.specs.SmallVec.{HasRoomFor};
ghost use Rattle.hex.specs.Hex.{IsBytes};
ghost use Rattle.std.specs.Option.{SomeIff};
ghost use Rattle.sem_bits.specs.Octets.{bits_of, Holds};
ghost use Rattle.sem_bits.specs.Number.{num, enc};

use crate::bits::LIMIT;
use crate::word::{low_bits, part, word_of};
use smallvec::SmallVec;
use std::alloc::{AllocError, Global};
use std::marker::Model;

/// A list of bits in octets.
pub(crate) struct Long {
    octets: SmallVec<u8, 8>,
    count: usize,
}

// A call of its own, so that no caller's proof goes through the cases of the octets' vector.
impl Drop for Long {
    fn drop(self) {
        let Long {
            octets: _octets,
            count: _count,
        } = self;
    }
}

// Clauses see the list of the bits, first bit first.
impl Model for Long {
    ghost use Rattle.std.specs.Prelude.{List, Bool, take};
    ghost use Rattle.sem_bits.specs.Octets.{bits_of, Kept};

    ghost Value = { List Bool };

    ghost view = { λ b. take b.count (bits_of b.octets.items) };

    ghost invariant = { λ b. Kept b.octets.items b.count };
}

impl Long {
    /// How many bits there are.
    #[tactic(auto, using(crate::proofs::OctetsKept::keeping))]
    pub(crate) fn len(&self) -> usize
        ensures value { result ≡ length self.now }
        ensures limit { length self.now < 2 ^ 31 }
    {
        self.count
    }

    /// The bit at a place, the first at 0, or `None` past the end.
    #[inline(never)]
    #[tactic(auto, using(crate::proofs::OctetsKept::reading))]
    pub(crate) fn get(&self, place: usize) -> Option<bool>
        ensures { result ≡ slice_get self.now place }
    {
        if place < self.count {
            Some((self.octets.as_slice()[place / 8] >> (7 - place % 8)) % 2 == 1)
        } else {
            None
        }
    }

    /// Adds other bits at the end, all or none.
    #[tactic(auto, using(crate::proofs::OctetsKept::pushing))]
    pub(crate) fn append(&mut self, other: &Long) -> Result<(), AllocError>
        requires { length self.old + length other.now < 2 ^ 31 }
        ensures ok { OnOk result (self.new ≡ self.old ++ other.now) }
        ensures err { OnErr result (self.new ≡ self.old) }
    {
        let count = self.count + other.count;
        join(
            &mut self.octets,
            self.count % 8,
            other.octets.as_slice(),
            (count + 7) / 8,
        )?;
        self.count = count;
        Ok(())
    }

    /// The octet of the eight bits from eight times a place on, filled with zero bits, or `None` where no bit is there.
    #[inline(never)]
    #[tactic(auto, using(crate::proofs::OctetsKept::reading))]
    pub(crate) fn octet(&self, place: usize) -> Option<u8>
        ensures { SomeIff result (8 * place < length self.now) (num (take 8 (drop (8 * place) (self.now ++ replicate 8 false)))) }
    {
        self.octets.as_slice().get(place).copied()
    }

    /// That count of bits, read from octets, each with its highest bit first. It is `None` where there are more or fewer
    /// octets than the bits fill, a bit after them in the last octet is one, or the count is 2 ^ 31 or more.
    #[tactic(auto, using(crate::proofs::OctetsKept::reading_in))]
    pub(crate) fn from_octets(
        alloc: Global,
        octets: &[u8],
        count: usize,
    ) -> Result<Option<Long>, AllocError>
        ensures found { IfOk result (λ o. IfSome o (λ b. (length b ≡ count) × Holds octets.now b)) }
        ensures none { IfOk result (λ o. IfNone o ((b : List Bool) → length b ≡ count → count < 2 ^ 31 → Holds octets.now b → ⊥)) }
    {
        if count > LIMIT {
            return Ok(None);
        }
        if octets.len() != (count + 7) / 8 {
            return Ok(None);
        }
        if !ends_in_zeros(octets, count) {
            return Ok(None);
        }
        let octets = SmallVec::from_slice(alloc, octets)?;
        Ok(Some(Long { octets, count }))
    }

    /// The same bits again.
    #[tactic(auto, using(crate::proofs::OctetsKept::keeping))]
    pub(crate) fn copy(&self, alloc: Global) -> Result<Long, AllocError>
        ensures { IfOk result (λ b. b ≡ self.now) }
    {
        let octets = SmallVec::from_slice(alloc, self.octets.as_slice())?;
        Ok(Long {
            octets,
            count: self.count,
        })
    }

    /// The octets that hold the bits, borrowed.
    #[tactic(auto, using(crate::proofs::OctetsKept::keeping))]
    pub(crate) fn as_octets(&self) -> &[u8]
        ensures { Holds result.now self.now }
    {
        self.octets.as_slice()
    }

    /// The bits of that count which spell a number, first bit highest. They take no allocation.
    pub(crate) fn from_value(alloc: Global, len: usize, value: u64) -> Long
        requires most { len ≤ 64 }
        requires below { value < 2 ^ len }
        ensures { result ≡ enc len value }
    {
        Long {
            octets: spell(alloc, len, value),
            count: len,
        }
    }

    /// The number of so many bits from a place on, or `None` where they are more than 64 or not there.
    #[inline(never)]
    #[tactic(auto, using(crate::proofs::OctetsKept::numbers))]
    pub(crate) fn number_at(&self, place: usize, count: usize) -> Option<u64>
        requires { place ≤ length self.now }
        ensures { SomeIff result ((count ≤ 64) × (place + count ≤ length self.now)) (num (slice_range self.now place (place + count))) }
    {
        if count > 64 || count > self.len() - place {
            return None;
        }
        Some(number(self.octets.as_slice(), place, count))
    }

    /// The number of up to eight bits from a place on.
    #[tactic(auto, using(crate::proofs::OctetsKept::numbers))]
    pub(crate) fn narrow_number_at(&self, place: usize, count: usize) -> u64
        requires most { count ≤ 8 }
        requires within { place + count ≤ length self.now }
        ensures { result ≡ num (slice_range self.now place (place + count)) }
    {
        narrow_number(self.octets.as_slice(), place, count)
    }

    /// The bits from one place up to another, which is left out, or `None` where the first is above the second or the
    /// second is above the count of bits.
    #[tactic(auto, using(crate::proofs::OctetsKept::cutting))]
    pub(crate) fn slice(
        &self,
        alloc: Global,
        from: usize,
        to: usize,
    ) -> Result<Option<Long>, AllocError>
        ensures { IfOk result (λ o. SomeIff o ((from ≤ to) × (to ≤ length self.now)) (slice_range self.now from to)) }
    {
        if from > to || to > self.len() {
            return Ok(None);
        }
        let count = to - from;
        let octets = cut(alloc, self.octets.as_slice(), from, count)?;
        Ok(Some(Long { octets, count }))
    }
}

// Equal are two lists of the same bits.
impl PartialEq for Long {
    ghost use Rattle.std.specs.Prelude.{◌≡◌, ◌↔◌, IsTrue};
    ghost use Rattle.sem_bits.specs.Number.{same};
    ghost use Rattle.std.specs.Cmp.{partial_equiv_from_equiv};
    ghost use Rattle.sem_bits.specs.Same.{same_equiv};

    ghost eq = { same };

    ghost laws = { partial_equiv_from_equiv same_equiv };

    #[inline(never)]
    fn eq(&self, other: &Long) -> bool
        ensures value { result ≡ same self.now other.now }
        ensures same_list { IsTrue result ↔ (self.now ≡ other.now) }
    {
        self.count == other.count && self.octets.as_slice() == other.octets.as_slice()
    }
}

/// Adds octets after the first bits of the last octet, up to so many octets, or changes nothing; `used` is how many these
/// bits are, or 0 where the last octet is full.
#[tactic(auto, using(crate::proofs::NumberWindows::join_even))]
fn join(
    into: &mut SmallVec<u8, 8>,
    used: usize,
    octets: &[u8],
    end: usize,
) -> Result<(), AllocError>
    requires part { used < 8 }
    requires upto { length into.old.items ≤ end }
    requires within { end ≤ length into.old.items + length octets.now }
    requires small { end < 2 ^ 29 }
    ensures ok { OnOk result ((a b : List Bool) → Holds into.old.items a → Holds octets.now b → used ≡ length a % 8 → end ≡ (length a + length b + 7) / 8 → Holds into.new.items (a ++ b)) }
    ensures err { OnErr result (into.new ≡ into.old) }
{
    if used == 0 {
        return into.extend_from_slice(octets);
    }
    let more = end - into.len();
    into.reserve(more)?;
    if let Some(last) = into.pop() {
        let first = octet_or_zero(octets, 0) >> used;
        into.push_reserved(((u16::from(last) + u16::from(first)) % 256) as u8);
        gather(into, octets, 8 - used, more);
    }
    Ok(())
}

/// Whether zero bits alone follow so many bits.
#[tactic(auto, using(crate::proofs::OctetsKept::ends_even))]
fn ends_in_zeros(octets: &[u8], count: usize) -> bool
    requires { length octets.now ≡ (count + 7) / 8 }
    ensures { IsTrue result ↔ Holds octets.now (take count (bits_of octets.now)) }
{
    if count % 8 == 0 {
        return true;
    }
    let last = octets[count / 8];
    front_of(last, count % 8) == last
}

/// The octets of so many bits from a place on, zero bits after them.
fn cut(
    alloc: Global,
    octets: &[u8],
    from: usize,
    count: usize,
) -> Result<SmallVec<u8, 8>, AllocError>
    requires within { from + count ≤ 8 * length octets.now }
    requires small { from + count < 2 ^ 31 }
    ensures { IfOk result (λ v. Holds v.items (slice_range (bits_of octets.now) from (from + count))) }
{
    let whole = count / 8;
    let over = count % 8;
    let mut found = SmallVec::with_capacity(alloc, (count + 7) / 8)?;
    gather(&mut found, octets, from, whole);
    if over > 0 {
        found.push_reserved(front_of(octet_at(octets, from + 8 * whole), over));
    }
    Ok(found)
}

/// The first bits of an octet, zero bits after them.
#[tactic(auto, using(crate::proofs::NumberWindows::octets))]
fn front_of(octet: u8, over: usize) -> u8
    requires { over ≤ 8 }
    ensures { enc 8 result ≡ take over (enc 8 octet) ++ replicate (8 - over) false }
{
    (((u16::from(octet) >> (8 - over)) << (8 - over)) % 256) as u8
}

/// Adds so many octets, read from a place in octets on, where zero bits follow the last.
fn gather(into: &mut SmallVec<u8, 8>, octets: &[u8], start: usize, many: usize)
    requires room { HasRoomFor into.old many }
    requires within { start + 8 * many < 8 * length octets.now + 8 }
    requires small { start + 8 * many < 2 ^ 32 }
    ensures bits { bits_of into.new.items ≡ bits_of into.old.items ++ take (8 * many) (drop start (bits_of octets.now ++ replicate 8 false)) }
    ensures fits { IsBytes into.old.items → IsBytes into.new.items }
    ensures capacity { into.old.capacity ≤ into.new.capacity }
    ensures count { length into.new.items ≡ length into.old.items + many }
{
    if start % 8 == 0 {
        let first = start / 8;
        into.extend_from_slice(&octets[first..first + many])
            .unwrap();
        return;
    }
    for i in 0..many {
        into.push_reserved(octet_at(octets, start + 8 * i));
    }
}

/// The octet of the eight bits from a place on, where zero bits follow the last.
#[tactic(auto, using(crate::proofs::NumberWindows::octets))]
fn octet_at(octets: &[u8], start: usize) -> u8
    requires within { start ≤ 8 * length octets.now }
    requires small { start < 2 ^ 32 }
    ensures { enc 8 result ≡ take 8 (drop start (bits_of octets.now ++ replicate 8 false)) }
{
    let first = u16::from(octet_or_zero(octets, start / 8));
    let second = u16::from(octet_or_zero(octets, start / 8 + 1));
    (((first * 256 + second) >> (8 - start % 8)) % 256) as u8
}

/// The octet at a place, or zero past the last.
fn octet_or_zero(octets: &[u8], place: usize) -> u8
    ensures { result ≡ slice_index_or octets.now place 0 }
{
    if place < octets.len() {
        octets[place]
    } else {
        0
    }
}

/// The octets of the bits of that count which spell the number.
#[tactic(auto, using(crate::proofs::NumberWindows::spelling))]
fn spell(alloc: Global, len: usize, value: u64) -> SmallVec<u8, 8>
    requires most { len ≤ 64 }
    requires below { value < 2 ^ len }
    ensures { Holds result.items (enc len value) }
{
    let many = (len + 7) / 8;
    let word = value << (8 * many - len);
    let mut octets = SmallVec::new(alloc);
    for i in 0..many {
        octets.push_reserved(((word >> (8 * (many - 1 - i))) % 256) as u8);
    }
    octets
}

/// The number of up to eight bits from a place on: two octets are looked at, whatever the place.
#[tactic(auto, using(crate::proofs::NumberWindows::octets))]
fn narrow_number(octets: &[u8], place: usize, count: usize) -> u64
    requires most { count ≤ 8 }
    requires within { place + count ≤ 8 * length octets.now }
    requires small { place + count < 2 ^ 32 }
    ensures { result ≡ num (take count (drop place (bits_of octets.now))) }
{
    u64::from(octet_at(octets, place)) >> (8 - count)
}

/// The number of so many bits from a place on.
#[inline(always)]
fn number(octets: &[u8], place: usize, count: usize) -> u64
    requires most { count ≤ 64 }
    requires within { place + count ≤ 8 * length octets.now }
    requires small { place + count < 2 ^ 32 }
    ensures { result ≡ num (take count (drop place (bits_of octets.now))) }
{
    if place % 8 + count <= 64 {
        if let Some(word) = eight_at(octets, place / 8) {
            return part(word, count, 64 - place % 8 - count);
        }
    }
    number_by_octets(octets, place, count)
}

/// The same, octet by octet.
#[inline(never)]
#[tactic(auto, using(crate::proofs::NumberWindows::numbering))]
fn number_by_octets(octets: &[u8], place: usize, count: usize) -> u64
    requires most { count ≤ 64 }
    requires within { place + count ≤ 8 * length octets.now }
    requires small { place + count < 2 ^ 32 }
    ensures { result ≡ num (take count (drop place (bits_of octets.now))) }
{
    let first = place / 8;
    let end = (place + count + 7) / 8;
    if end - first > 8 {
        let word = wide_word_of(&octets[first..end]);
        return ((word >> (8 * end - place - count)) & ((1 << count) - 1)) as u64;
    }
    let word = word_of(&octets[first..end]);
    low_bits(word >> (8 * end - place - count), count)
}

/// The number that eight octets from a place on spell, first octet highest, where they are there.
#[inline(always)]
fn eight_at(octets: &[u8], first: usize) -> Option<u64>
    requires { first < 2 ^ 32 }
    ensures { IfSome result (λ w. (first + 8 ≤ length octets.now) × (w < 2 ^ 64) × (w ≡ num (bits_of (slice_range octets.now first (first + 8))))) }
{
    if first > octets.len() {
        return None;
    }
    let eight = octets[first..].first_chunk::<8>()?;
    Some(spelled_by(eight))
}

/// The number that eight octets spell, first octet highest.
#[inline(always)]
fn spelled_by(octets: &[u8; 8]) -> u64
    ensures { result ≡ num (bits_of octets.now) }
{
    u64::from_be_bytes(*octets)
}

/// The number that up to nine octets spell, first octet highest.
#[tactic(auto, using(crate::proofs::NumberWindows::numbering))]
fn wide_word_of(octets: &[u8]) -> u128
    requires { length octets.now ≤ 9 }
    ensures value { result ≡ num (bits_of octets.now) }
    ensures limit { result < 2 ^ (8 * length octets.now) }
{
    let mut word: u128 = 0;
    for octet in octets {
        word = word * 256 + u128::from(*octet);
    }
    word
}
