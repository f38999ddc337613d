//! The sender.

ghost use Rattle.std.specs.Prelude.{◌≡◌, ◌↔◌, ◌+◌, ◌<◌, ◌≤◌, ◌++◌, [], IsTrue, length, vec_len, vec_capacity, IfOk, IfErr, OnOk, OnErr};
ghost use Rattle.sem_context.specs.Placing.{shown};
ghost use Rattle.sem_filling.specs.Entries.{entries, next};
ghost use Rattle.walk_robust.specs.Sending as sending;
ghost use Rattle.walk_robust.specs.Answers as spec;

use crate::common_filling::best_for_all;
use crate::held::{Held, keep_staying, staying};
use crate::successors::{has_paths, next_of, others_of};
use cert_accepted::Accepted;
use sem_bits::Bits;
use sem_context::Context;
use sem_filling::{Filling, Item, advance};
use std::alloc::{AllocError, Global};
use std::marker::Model;
use std::mem::swap;
use walk_engine::{PackFault, Packed};

/// How many pairs of a context and of packets lost right before it may be held.
pub const PAIR_LIMIT: usize = 256;

/// Why the robust sender packs no packet.
#[derive(Drop)]
pub enum RobustFault {
    /// What `pack` answers in the sender's own context.
    Pack(PackFault),
    /// A filling that fits there has the item, but none that fits in all contexts that a receiver may hold.
    NoReach,
    /// After the best of these more than 256 pairs would be held.
    Contexts,
}

impl From<AllocError> for RobustFault {
    ghost use Rattle.std.specs.Prelude.{◌≡◌};
    ghost use Rattle.walk_robust.specs.declared.sender.RobustFault.TheVariants as fault;
    ghost use Rattle.walk_engine.specs.declared.writer.PackFault.TheVariants.{OutOfMemory};

    ghost from_gives = { λ _ e. e ≡ fault.Pack OutOfMemory };

    fn from(_error: AllocError) -> RobustFault {
        RobustFault::Pack(PackFault::OutOfMemory)
    }
}

/// A sender that packs each item so that a receiver reads it as that, to which never more than so many packets in a row were lost. It keeps each context that such
/// a receiver may hold, with the number of packets that were lost right before.
#[derive(Drop)]
pub struct Robust {
    pub(crate) own: Context,
    pub(crate) others: Vec<Held>,
    lost: usize,
}

impl Model for Robust {
    ghost use Rattle.walk_robust.specs.Sending.{Sending};

    ghost Value = { Sending };

    ghost view = { λ r. record { own = r.own; others = r.others.items; lost = r.lost } };
}

impl Robust {
    /// The sender and the receiver begin in this context, and so many packets in a row may be lost.
    pub fn new(alloc: Global, context: &Context, lost: u8) -> Result<Robust, AllocError>
        ensures { IfOk result (λ r. r ≡ record { own = context.now; others = []; lost = lost }) }
    {
        Ok(Robust {
            own: context.copy(alloc)?,
            others: Vec::new(alloc),
            lost: lost as usize,
        })
    }

    /// How many pairs of a context and a number of lost packets a receiver may hold.
    pub fn held(&self) -> usize
        ensures { result ≡ length (sending.held self.now) }
    {
        self.others.len() + 1
    }

    /// The sender's own context, which a receiver holds that lost nothing.
    pub fn context(&self) -> &Context
        ensures { result.now ≡ self.now.own }
    {
        &self.own
    }

    /// Writes the packed bits of an item, by the best filling that has it and fits in each context held. It goes on to what a receiver may hold then. A refusal
    /// leaves it as it was.
    pub fn pack(
        &mut self,
        alloc: Global,
        accepted: &Accepted,
        item: &Item,
    ) -> Result<Packed, RobustFault>
        ensures sent { IfOk result (λ p. spec.IsSent accepted.now self.old item.now p self.new) }
        // Pack: what `pack` answers in the own context. NoReach: a filling that fits there has the item, but none that fits in all. Contexts: the best of these leaves more than 256 pairs.
        ensures fault { IfErr result (λ e. spec.Blames e accepted.now self.old item.now) }
        ensures stays { OnErr result (self.new ≡ self.old) }
    {
        let packed = best_for_all(alloc, accepted, &self.own, self.others.as_slice(), item)?;
        match self.go_on(alloc, &packed.filling) {
            Ok(()) => Ok(packed),
            Err(fault) => Err(fault),
        }
    }

    /// Empties the sender's own context, for a reset, which is itself a packet that may be lost: so the contexts before it stay held as they do after an item. A
    /// refusal leaves the sender as it was.
    pub fn reset(&mut self, alloc: Global) -> Result<(), RobustFault>
        ensures ok { OnOk result (spec.IsEmptied self.old self.new) }
        // Contexts: more than 256 pairs would be held. Else memory ran out.
        ensures fault { IfErr result (λ e. spec.LacksRoom e self.old) }
        ensures stays { OnErr result (self.new ≡ self.old) }
    {
        let kept = self.staying();
        if are_too_many(0, kept) {
            return Err(RobustFault::Contexts);
        }
        let mut came = Vec::new(alloc);
        came.reserve(kept)?;
        self.put(Context::new(alloc), came);
        Ok(())
    }

    /// Goes on to what a receiver may hold after this filling.
    fn go_on(&mut self, alloc: Global, filling: &Filling) -> Result<(), RobustFault>
        ensures ok { OnOk result (spec.HasPacked self.old filling.now self.new) }
        ensures fault { IfErr result (λ e. spec.Overflows e self.old filling.now) }
        ensures stays { OnErr result (self.new ≡ self.old) }
    {
        if self.lost == 0 && self.others.as_slice().is_empty() {
            advance(alloc, &mut self.own, filling)?;
            return Ok(());
        }
        let left = filling.entries(alloc)?;
        let others = self.others.as_slice();
        let mut came = others_of(alloc, &self.own, others, filling, left.as_slice())?;
        let kept = self.staying();
        if are_too_many(came.as_slice().len(), kept) {
            return Err(RobustFault::Contexts);
        }
        came.reserve(kept)?;
        let own = self.next_own(alloc, filling, left.as_slice())?;
        self.put(own, came);
        Ok(())
    }

    /// The own context after the filling: the oldest one, where that stays no longer and all its entries and those of the own context are replaced, else a copy.
    fn next_own(
        &mut self,
        alloc: Global,
        filling: &Filling,
        left: &[(String, Bits)],
    ) -> Result<Context, AllocError>
        requires { shown left.now ≡ entries filling.now }
        ensures next { IfOk result (λ c. c ≡ next self.old.own filling.now) }
        ensures spared { IfOk result (λ _. spec.SparesOldest self.old self.new) }
        ensures stays { OnErr result (self.new ≡ self.old) }
    {
        if !self.spares_oldest(left) {
            return next_of(alloc, &self.own, filling);
        }
        match self.others.pop() {
            Some(oldest) => {
                let Held { gap, context } = oldest;
                let mut context = context;
                match advance(alloc, &mut context, filling) {
                    Ok(()) => Ok(context),
                    Err(error) => {
                        self.others.push_reserved(Held { gap, context });
                        Err(error)
                    }
                }
            }
            None => next_of(alloc, &self.own, filling),
        }
    }

    /// Whether the oldest context stays no longer, and it and the own one have just the paths that are left, in their order.
    fn spares_oldest(&self, left: &[(String, Bits)]) -> bool
        ensures { IsTrue result → spec.CanSpare self.now (shown left.now) }
    {
        match self.others.as_slice().last() {
            Some(oldest) => {
                oldest.gap >= self.lost
                    && has_paths(&oldest.context, left)
                    && has_paths(&self.own, left)
            }
            None => false,
        }
    }

    /// How many of the pairs stay held where the next packet is lost.
    fn staying(&self) -> usize
        ensures { result ≡ length (sending.stayed self.now.lost (sending.held self.now)) }
    {
        let others = staying(self.others.as_slice(), self.lost);
        if self.lost > 0 { others + 1 } else { others }
    }

    /// Puts what came of the pairs in their place, before those of them that stay, for which there is room.
    fn put(&mut self, own: Context, came: Vec<Held>)
        requires { vec_len came + length (sending.stayed self.old.lost (sending.held self.old)) ≤ vec_capacity came }
        ensures { self.new ≡ record { own = own; others = came.items ++ sending.stayed self.old.lost (sending.held self.old); lost = self.old.lost } }
    {
        let mut own = own;
        let mut others = came;
        swap(&mut self.own, &mut own);
        swap(&mut self.others, &mut others);
        if self.lost > 0 {
            self.others.push_reserved(Held {
                gap: 1,
                context: own,
            });
        }
        keep_staying(&mut self.others, others, self.lost);
    }
}

/// Whether so many pairs that came, so many that stay and one more are above 256.
fn are_too_many(came: usize, kept: usize) -> bool
    ensures { IsTrue result ↔ (spec.pair_limit < 1 + (came + kept)) }
{
    kept >= PAIR_LIMIT || came >= PAIR_LIMIT - kept
}
