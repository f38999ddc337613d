//! Lists of bits. Up to 64 bits stand as the number that they spell, and take no allocation; more stand in octets.
ghost use Rattle.std.specs.Prelude.{◌≡◌, ◌+◌, ◌*◌, ◌^◌, ◌<◌, ◌≤◌, ◌↔◌, Bool, false, List, [], ◌∷◌, ◌++◌, length, take, drop, replicate, IsTrue, IfOk, OnOk, OnErr, IsErrOf, IfSome, IfNone, slice_get, slice_range};
ghost use Rattle.std.specs.Option.{SomeIff};
ghost use Rattle.sem_bits.specs.Octets.{Holds};
ghost use Rattle.sem_bits.specs.Number.{num, enc};

use crate::long::Long;
use crate::word::{beside, octet_of, octets_of, part, word_of};
use std::alloc::{AllocError, Global};
use std::marker::Model;
use thiserror::Error;

/// The greatest count of bits that a `Bits` holds.
pub const LIMIT: usize = 0x7fff_ffff;

/// Why bits could not be added. The bits are then as before.
#[derive(Debug, Drop, Error)]
pub enum BitsError {
    /// There would be more than `LIMIT` bits.
    #[error("bits above the limit")]
    Full,
    #[error("out of memory")]
    OutOfMemory,
}

impl From<AllocError> for BitsError {
    ghost use Rattle.std.specs.Prelude.{◌≡◌};
    ghost use Rattle.sem_bits.specs.declared.bits.BitsError.TheVariants.{OutOfMemory};

    ghost from_gives = { λ _ e. e ≡ OutOfMemory };

    fn from(_error: AllocError) -> BitsError {
        BitsError::OutOfMemory
    }
}

/// A list of bits, at most `LIMIT` of them.
pub struct Bits {
    form: Form,
    count: usize,
    alloc: Global,
}

/// What the bits stand as.
enum Form {
    /// At most 64 bits: the number that they spell.
    Word(u64),
    /// More of them.
    Long(Box<Long>),
}

impl Drop for Form {
    fn drop(self) {
        match self {
            Form::Word(_) => {}
            Form::Long(long) => let_go(long),
        }
    }
}

// What more than 64 bits take stays out of the way of fewer.
#[inline(never)]
fn let_go(_long: Box<Long>) {}

// A call of its own, so that no caller's proof goes through the cases.
impl Drop for Bits {
    fn drop(self) {
        let Bits {
            form: _form,
            count: _count,
            alloc: _alloc,
        } = self;
    }
}

// Clauses see the list of the bits, first bit first.
impl Model for Bits {
    ghost use Rattle.std.specs.Prelude.{List, Bool};
    ghost use Rattle.sem_bits.specs.Forms.{bits_in, IsForm};

    ghost Value = { List Bool };

    ghost view = { λ b. bits_in b.form b.count };

    ghost invariant = { λ b. IsForm b.form b.count };
}

impl Bits {
    /// No bits.
    #[tactic(auto, using(crate::proofs::Words::forms))]
    pub fn new(alloc: Global) -> Bits
        ensures { result ≡ [] }
    {
        Bits {
            form: Form::Word(0),
            count: 0,
            alloc,
        }
    }

    /// How many bits there are.
    #[tactic(auto, using(crate::proofs::Words::forms))]
    pub fn len(&self) -> usize
        ensures value { result ≡ length self.now }
        ensures limit { length self.now < 2 ^ 31 }
    {
        self.count
    }

    /// Whether there are no bits.
    pub fn is_empty(&self) -> bool
        ensures { IsTrue result ↔ (self.now ≡ []) }
    {
        self.len() == 0
    }

    /// The bit at a place, the first at 0, or `None` past the end.
    #[tactic(auto, using(crate::proofs::Words::forms))]
    pub fn get(&self, place: usize) -> Option<bool>
        ensures { result ≡ slice_get self.now place }
    {
        if place >= self.count {
            return None;
        }
        match &self.form {
            Form::Word(word) => Some((*word >> (self.count - 1 - place)) % 2 == 1),
            Form::Long(long) => long.get(place),
        }
    }

    /// Adds a bit at the end. It is `Full` just where there are `LIMIT` bits already.
    pub fn push(&mut self, bit: bool) -> Result<(), BitsError>
        ensures ok { OnOk result (self.new ≡ self.old ++ bit ∷ []) }
        ensures err { OnErr result (self.new ≡ self.old) }
        ensures full { IsErrOf result BitsError.Full ↔ (2 ^ 31 ≤ length self.old + 1) }
    {
        let one = Bits {
            form: Form::Word(u64::from(bit)),
            count: 1,
            alloc: self.alloc,
        };
        self.append(&one)
    }

    /// Adds other bits at the end, all or none. It is `Full` just where there would be more than `LIMIT` bits.
    pub fn append(&mut self, other: &Bits) -> Result<(), BitsError>
        ensures ok { OnOk result (self.new ≡ self.old ++ other.now) }
        ensures err { OnErr result (self.new ≡ self.old) }
        ensures full { IsErrOf result BitsError.Full ↔ (2 ^ 31 ≤ length self.old + length other.now) }
    {
        let added = other.len();
        let count = self.len() + added;
        if count <= 64 {
            self.form = Form::Word(beside(self.word(), other.word(), added));
            self.count = count;
            return Ok(());
        }
        if count > LIMIT {
            return Err(BitsError::Full);
        }
        self.lengthen(other)?;
        Ok(())
    }

    /// The same, where there are more than 64 bits then.
    #[inline(never)]
    fn lengthen(&mut self, other: &Bits) -> Result<(), AllocError>
        requires more { 64 < length self.old + length other.now }
        requires fit { length self.old + length other.now < 2 ^ 31 }
        ensures ok { OnOk result (self.new ≡ self.old ++ other.now) }
        ensures err { OnErr result (self.new ≡ self.old) }
    {
        match &mut self.form {
            Form::Word(word) => {
                let mut long = Long::from_value(self.alloc, self.count, *word);
                other.end(&mut long)?;
                *self = Bits::from_long(self.alloc, long)?;
                Ok(())
            }
            Form::Long(long) => {
                other.end(long)?;
                self.count += other.count;
                Ok(())
            }
        }
    }

    /// Adds these bits at the end of others, all or none.
    fn end(&self, long: &mut Long) -> Result<(), AllocError>
        requires { length long.old + length self.now < 2 ^ 31 }
        ensures ok { OnOk result (long.new ≡ long.old ++ self.now) }
        ensures err { OnErr result (long.new ≡ long.old) }
    {
        match &self.form {
            Form::Word(word) => long.append(&Long::from_value(self.alloc, self.count, *word)),
            Form::Long(other) => long.append(other),
        }
    }

    /// The number that at most 64 bits spell.
    #[tactic(auto, using(crate::proofs::Words::forms))]
    fn word(&self) -> u64
        ensures { length self.now ≤ 64 → result ≡ num self.now }
    {
        match &self.form {
            Form::Word(word) => *word,
            Form::Long(_) => 0,
        }
    }

    /// The octet of the eight bits from eight times a place on, filled with zero bits, or `None` where no bit is there.
    #[tactic(auto, using(crate::proofs::Words::forms))]
    pub fn octet(&self, place: usize) -> Option<u8>
        ensures { SomeIff result (8 * place < length self.now) (num (take 8 (drop (8 * place) (self.now ++ replicate 8 false)))) }
    {
        match &self.form {
            Form::Word(word) => {
                if place < (self.count + 7) / 8 {
                    Some(octet_of(*word, self.count, place))
                } else {
                    None
                }
            }
            Form::Long(long) => long.octet(place),
        }
    }

    /// That count of bits, read from octets, each with its highest bit first. It is `None` where there are more or fewer
    /// octets than the bits fill, a bit after them in the last octet is one, or the count is above `LIMIT`.
    pub fn from_octets(
        alloc: Global,
        octets: &[u8],
        count: usize,
    ) -> Result<Option<Bits>, AllocError>
        ensures found { IfOk result (λ o. IfSome o (λ b. (length b ≡ count) × Holds octets.now b)) }
        ensures none { IfOk result (λ o. IfNone o ((b : List Bool) → length b ≡ count → count < 2 ^ 31 → Holds octets.now b → ⊥)) }
    {
        if count <= 64 {
            return Ok(Bits::from_few_octets(alloc, octets, count));
        }
        match Long::from_octets(alloc, octets, count)? {
            Some(long) => Ok(Some(Bits::from_long(alloc, long)?)),
            None => Ok(None),
        }
    }

    /// The same for at most 64 bits.
    pub(crate) fn from_few_octets(alloc: Global, octets: &[u8], count: usize) -> Option<Bits>
        requires { count ≤ 64 }
        ensures found { IfSome result (λ b. (length b ≡ count) × Holds octets.now b) }
        ensures none { IfNone result ((b : List Bool) → length b ≡ count → Holds octets.now b → ⊥) }
    {
        if octets.len() != (count + 7) / 8 {
            return None;
        }
        let word = word_of(octets);
        let over = 8 * octets.len() - count;
        let number = word >> over;
        if number << over != word {
            return None;
        }
        Some(Bits {
            form: Form::Word(number),
            count,
            alloc,
        })
    }

    /// More than 64 bits.
    #[inline(never)]
    fn from_long(alloc: Global, long: Long) -> Result<Bits, AllocError>
        requires { 64 < length long }
        ensures { IfOk result (λ b. b ≡ long) }
    {
        let count = long.len();
        Ok(Bits {
            form: Form::Long(Box::new(alloc, long)?),
            count,
            alloc,
        })
    }

    /// The same bits again.
    pub fn copy(&self, alloc: Global) -> Result<Bits, AllocError>
        ensures { IfOk result (λ b. b ≡ self.now) }
    {
        match &self.form {
            Form::Word(word) => Ok(Bits {
                form: Form::Word(*word),
                count: self.count,
                alloc,
            }),
            Form::Long(long) => copy_long(alloc, long),
        }
    }

    /// The octets that hold the bits, each with its highest bit first, the last filled with zero bits.
    pub fn to_octets(&self, alloc: Global) -> Result<Vec<u8>, AllocError>
        ensures { IfOk result (λ v. Holds v.items self.now) }
    {
        match &self.form {
            Form::Word(word) => {
                let octets = octets_of(*word, self.count);
                Vec::from_slice(alloc, &octets[..(self.count + 7) / 8])
            }
            Form::Long(long) => Vec::from_slice(alloc, long.as_octets()),
        }
    }

    /// The same octets, borrowed, of more than 64 bits.
    #[tactic(auto, using(crate::proofs::Words::forms))]
    pub(crate) fn as_octets(&self) -> &[u8]
        requires { 64 < length self.now }
        ensures { Holds result.now self.now }
    {
        match &self.form {
            Form::Word(_) => &[],
            Form::Long(long) => long.as_octets(),
        }
    }

    /// The bits of that count which spell a number, first bit highest, or `None` where the number needs more of them
    /// or the count is above 64.
    pub fn from_value(alloc: Global, len: usize, value: u64) -> Result<Option<Bits>, AllocError>
        ensures { IfOk result (λ o. SomeIff o ((len ≤ 64) × (value < 2 ^ len)) (enc len value)) }
    {
        if !has_spelling(len, value) {
            return Ok(None);
        }
        Ok(Some(Bits {
            form: Form::Word(value),
            count: len,
            alloc,
        }))
    }

    /// The number that the bits spell, first bit highest, or `None` where there are more than 64.
    #[tactic(auto, using(crate::proofs::Words::forms))]
    pub fn value(&self) -> Option<u64>
        ensures { SomeIff result (length self.now ≤ 64) (num self.now) }
    {
        match &self.form {
            Form::Word(word) => Some(*word),
            Form::Long(_) => None,
        }
    }

    /// The number of so many bits from a place on, or `None` where they are more than 64 or not there.
    #[tactic(auto, using(crate::proofs::Words::forms))]
    pub(crate) fn number_at(&self, place: usize, count: usize) -> Option<u64>
        requires { place ≤ length self.now }
        ensures { SomeIff result ((count ≤ 64) × (place + count ≤ length self.now)) (num (slice_range self.now place (place + count))) }
    {
        match &self.form {
            Form::Word(word) => {
                if count <= self.count - place {
                    Some(part(*word, count, self.count - place - count))
                } else {
                    None
                }
            }
            Form::Long(long) => long.number_at(place, count),
        }
    }

    /// The number of up to eight bits from a place on.
    #[tactic(auto, using(crate::proofs::Words::forms))]
    pub(crate) fn narrow_number_at(&self, place: usize, count: usize) -> u64
        requires most { count ≤ 8 }
        requires within { place + count ≤ length self.now }
        ensures { result ≡ num (slice_range self.now place (place + count)) }
    {
        match &self.form {
            Form::Word(word) => part(*word, count, self.count - place - count),
            Form::Long(long) => long.narrow_number_at(place, count),
        }
    }

    /// The bits from one place up to another, which is left out, or `None` where the first is above the second or the
    /// second is above the count of bits.
    pub fn slice(&self, alloc: Global, from: usize, to: usize) -> Result<Option<Bits>, AllocError>
        ensures { IfOk result (λ o. SomeIff o ((from ≤ to) × (to ≤ length self.now)) (slice_range self.now from to)) }
    {
        if from > to || to > self.len() {
            return Ok(None);
        }
        match self.number_at(from, to - from) {
            Some(word) => Ok(Some(Bits {
                form: Form::Word(word),
                count: to - from,
                alloc,
            })),
            None => self.long_slice(alloc, from, to),
        }
    }

    /// The same where that are more than 64 bits.
    #[inline(never)]
    #[tactic(auto, using(crate::proofs::Words::forms))]
    fn long_slice(&self, alloc: Global, from: usize, to: usize) -> Result<Option<Bits>, AllocError>
        requires { from + 64 < to }
        ensures { IfOk result (λ o. SomeIff o (to ≤ length self.now) (slice_range self.now from to)) }
    {
        match &self.form {
            Form::Word(_) => Ok(None),
            Form::Long(long) => match long.slice(alloc, from, to)? {
                Some(part) => Ok(Some(Bits::from_long(alloc, part)?)),
                None => Ok(None),
            },
        }
    }
}

/// More than 64 bits again.
#[inline(never)]
fn copy_long(alloc: Global, long: &Long) -> Result<Bits, AllocError>
    requires { 64 < length long.now }
    ensures { IfOk result (λ b. b ≡ long.now) }
{
    Bits::from_long(alloc, long.copy(alloc)?)
}

// Equal are two lists of the same bits.
impl PartialEq for Bits {
    ghost use Rattle.std.specs.Prelude.{◌≡◌, ◌↔◌, IsTrue};
    ghost use Rattle.sem_bits.specs.Number.{same};
    ghost use Rattle.std.specs.Cmp.{partial_equiv_from_equiv};
    ghost use Rattle.sem_bits.specs.Same.{same_equiv};

    ghost eq = { same };

    ghost laws = { partial_equiv_from_equiv same_equiv };

    fn eq(&self, other: &Bits) -> bool
        ensures value { result ≡ same self.now other.now }
        ensures same_list { IsTrue result ↔ (self.now ≡ other.now) }
    {
        if self.count != other.count {
            return false;
        }
        match &self.form {
            Form::Word(word) => *word == other.word(),
            Form::Long(long) => match &other.form {
                Form::Word(_) => false,
                Form::Long(more) => **long == **more,
            },
        }
    }
}

impl Eq for Bits {
    ghost use Rattle.sem_bits.specs.Same.{same_equiv};

    ghost laws = { same_equiv };
}

/// Whether so many bits can spell the number: they are at most 64, and the number is below two to the power of their count.
pub fn has_spelling(len: usize, value: u64) -> bool
    ensures { IsTrue result ↔ ((len ≤ 64) × (value < 2 ^ len)) }
{
    if len < 64 {
        value >> len == 0
    } else {
        len == 64
    }
}
