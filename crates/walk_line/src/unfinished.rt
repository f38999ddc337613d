//! A packet that is not whole yet.

ghost use Rattle.std.specs.Prelude.{◌≡◌, ◌↔◌, ◌<◌, ◌≤◌, ◌+◌, ◌^◌, [], ◌∷◌, ◌++◌, drop, length, IsTrue, OnOk, OnErr};
ghost use Rattle.hex.specs.Hex.{IsBytes};
ghost use Rattle.sem_bits.specs.Number.{enc};
ghost use Rattle.sem_bits.specs.Octets.{bits_of};

use sem_bits::{Bits, BitsError};
use std::alloc::{AllocError, Global};
use std::marker::Model;

/// The octets so far of a packet, its flow's first, with the bits of those after the flow's: each octet's bits are made once.
#[derive(Drop)]
pub(crate) struct Unfinished {
    octets: Vec<u8>,
    bits: Bits,
}

// Clauses see the octets.
impl Model for Unfinished {
    ghost use Rattle.std.specs.Prelude.{◌≡◌, ℕ, List, drop};
    ghost use Rattle.hex.specs.Hex.{IsBytes};
    ghost use Rattle.sem_bits.specs.Octets.{bits_of};

    ghost Value = { List ℕ };

    ghost view = { λ u. u.octets.items };

    ghost invariant = { λ u. (u.bits ≡ bits_of (drop 1 u.octets.items)) × IsBytes u.octets.items };
}

impl Unfinished {
    /// No octets.
    pub(crate) fn new(alloc: Global) -> Unfinished
        ensures { result ≡ [] }
    {
        Unfinished {
            octets: Vec::new(alloc),
            bits: Bits::new(alloc),
        }
    }

    pub(crate) fn is_empty(&self) -> bool
        ensures { IsTrue result ↔ (self.now ≡ []) }
    {
        self.octets.is_empty()
    }

    /// The first octet, which is the flow's.
    pub(crate) fn first(&self) -> u8
        requires { 0 < length self.now }
        ensures { self.now ≡ result ∷ drop 1 self.now }
    {
        self.octets[0]
    }

    /// The bits of the octets after the flow's.
    pub(crate) fn bits(&self) -> &Bits
        ensures value { result.now ≡ bits_of (drop 1 self.now) }
        ensures fit { IsBytes (drop 1 self.now) }
    {
        &self.bits
    }

    /// Adds an octet. Where memory runs out the octets are as before.
    pub(crate) fn push(&mut self, alloc: Global, octet: u8) -> Result<(), AllocError>
        requires { length self.old ≤ 2 ^ 20 }
        ensures ok { OnOk result (self.new ≡ self.old ++ octet ∷ []) }
        ensures err { OnErr result (self.new ≡ self.old) }
    {
        self.octets.reserve(1)?;
        if !self.octets.is_empty() {
            add_octet(alloc, &mut self.bits, octet)?;
        }
        match self.octets.push(octet) {
            Ok(()) => Ok(()),
            Err(_) => unreachable!(),
        }
    }

    /// Takes all octets away.
    pub(crate) fn clear(&mut self, alloc: Global)
        ensures { self.new ≡ [] }
    {
        self.octets.clear();
        self.bits = Bits::new(alloc);
    }
}

/// Adds the bits of an octet, its highest first. Where memory runs out the bits are as before.
fn add_octet(alloc: Global, bits: &mut Bits, octet: u8) -> Result<(), AllocError>
    requires { length bits.old + 8 < 2 ^ 31 }
    ensures ok { OnOk result (bits.new ≡ bits.old ++ enc 8 octet) }
    ensures err { OnErr result (bits.new ≡ bits.old) }
{
    let Some(added) = Bits::from_value(alloc, 8, u64::from(octet))? else {
        unreachable!();
    };
    match bits.append(&added) {
        Ok(()) => Ok(()),
        Err(BitsError::Full) => unreachable!(),
        Err(BitsError::OutOfMemory) => Err(AllocError),
    }
}
