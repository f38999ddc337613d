//! Who packs items: the plain sender in its context, or the one whose packets survive losses.

ghost use Rattle.std.specs.Prelude.{◌≡◌, [], IfOk, IfErr, OnErr};
ghost use Rattle.sem_filling.specs.Entries.{next};
ghost use Rattle.walk_engine.specs.Writing as writing;
ghost use Rattle.tool_run.specs.Senders as spec;

use cert_accepted::Accepted;
use sem_context::Context;
use sem_filling::{Item, advance};
use sqlite_items::Items;
use std::alloc::{AllocError, Global};
use walk_engine::{PackFault, Packed, pack};
use walk_loss::Lack;
use walk_robust::{Robust, RobustFault};

/// A sender of items, packed one after the other.
#[derive(Drop)]
pub(crate) enum Sender {
    /// Each by the best filling that fits in this context, which goes on.
    Plain(Context),
    /// Each by the best filling that fits in all contexts that a receiver may hold.
    Surviving(Robust),
}

impl Sender {
    /// The robust sender in the context, where so many packets in a row may be lost.
    pub(crate) fn surviving(
        alloc: Global,
        context: &Context,
        lost: u8,
    ) -> Result<Sender, AllocError>
        ensures { IfOk result (λ s. s ≡ spec.surviving context.now lost) }
    {
        Ok(Sender::Surviving(Robust::new(alloc, context, lost)?))
    }

    /// Its own context, which a receiver holds that lost nothing.
    pub(crate) fn context(&self) -> &Context
        ensures { result.now ≡ spec.own_of self.now }
    {
        match self {
            Sender::Plain(context) => context,
            Sender::Surviving(robust) => robust.context(),
        }
    }

    /// What stands against packing an item for all that a receiver may hold, format by format.
    pub(crate) fn lacks(
        &self,
        alloc: Global,
        accepted: &Accepted,
        item: &Item,
    ) -> Result<Items<Lack>, AllocError>
        requires { spec.Blames RobustFault.NoReach accepted.now self.now item.now }
        ensures { IfOk result (spec.AreLacks accepted.now self.now item.now) }
    {
        match self {
            Sender::Plain(_) => Ok(Items::new(alloc)),
            Sender::Surviving(robust) => robust.lacks(alloc, accepted, item),
        }
    }

    /// Packs an item, and goes on. A refusal leaves it as it was.
    pub(crate) fn send(
        &mut self,
        alloc: Global,
        accepted: &Accepted,
        item: &Item,
    ) -> Result<Packed, RobustFault>
        ensures sent { IfOk result (λ p. spec.Sends accepted.now self.old item.now p self.new) }
        ensures fault { IfErr result (λ e. spec.Blames e accepted.now self.old item.now) }
        ensures stays { OnErr result (self.new ≡ self.old) }
    {
        match self {
            Sender::Plain(context) => send_plain(alloc, accepted, context, item),
            Sender::Surviving(robust) => robust.pack(alloc, accepted, item),
        }
    }
}

/// Packs an item in a context, which goes on.
fn send_plain(
    alloc: Global,
    accepted: &Accepted,
    context: &mut Context,
    item: &Item,
) -> Result<Packed, RobustFault>
    ensures sent { IfOk result (λ p. spec.SendsPlain accepted.now context.old item.now p context.new) }
    ensures fault { IfErr result (λ e. spec.BlamesPlain e accepted.now context.old item.now) }
    ensures stays { OnErr result (context.new ≡ context.old) }
{
    match pack(alloc, accepted, context, item) {
        Ok(sent) => {
            advance(alloc, context, &sent.filling)?;
            Ok(sent)
        }
        Err(fault) => Err(RobustFault::Pack(fault)),
    }
}
