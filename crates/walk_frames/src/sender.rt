//! The sending end of a line of frames.

ghost use Rattle.std.specs.Prelude.{◌≡◌, ◌<◌, ◌≤◌, List, ℕ, ◌++◌, length, IfOk, IfErr, OnOk, OnErr};
ghost use Rattle.walk_line.specs.Lines.Act.{Send, Reset};
ghost use Rattle.walk_robust.specs.Answers.{Blames, LacksRoom};
ghost use Rattle.walk_frames.specs.Frames.{flow_limit};
ghost use Rattle.walk_frames.specs.Sending.{new_senders};
ghost use Rattle.walk_frames.specs.States as spec;

use crate::front::FLOW_LIMIT;
use crate::writer::{FRAME_MOST, push_packet};
use cert_accepted::Accepted;
use sem_context::Context;
use sem_filling::Item;
use std::alloc::{AllocError, Global};
use std::marker::Model;
use walk_engine::{PackFault, Packed};
use walk_line::Flow;
use walk_robust::{Robust, RobustFault};

/// The sending end: it packs the items of each flow by a robust sender of its own, as one frame each.
#[derive(Drop)]
pub struct Sender<'a> {
    alloc: Global,
    accepted: &'a Accepted,
    senders: Vec<Robust>,
}

impl<'a> Model for Sender<'a> {
    ghost use Rattle.std.specs.Prelude.{◌≡◌, length};
    ghost use Rattle.walk_frames.specs.Frames.{flow_limit};
    ghost use Rattle.walk_frames.specs.States as spec;
    ghost use Rattle.sem_expr.specs.contracts.expr.Expr as expr;
    ghost use Rattle.sem_expr.specs.contracts.expr.Cond as cond;
    ghost use Rattle.std.specs.Coded.{codes};

    ghost Value = { spec.Sender };

    ghost coded = { Prim.hlevel (codes, expr.the_row.coded, cond.the_row.coded) };

    ghost view = { λ s. record { accepted = s.accepted.now; senders = s.senders.items } };

    ghost invariant = { λ s. length s.senders.items ≡ flow_limit };
}

impl<'a> Sender<'a> {
    /// All contexts are empty, and so many frames of a flow in a row may be lost.
    pub fn new(alloc: Global, accepted: &'a Accepted, lost: u8) -> Result<Sender<'a>, AllocError>
        ensures { IfOk result (λ s. s ≡ record { accepted = accepted.now; senders = new_senders lost }) }
    {
        Ok(Sender {
            alloc,
            accepted,
            senders: fresh_senders(alloc, lost)?,
        })
    }

    /// Packs an item by the flow's sender, and adds its frame to the octets. A refusal is the robust sender's. It changes neither the senders nor the octets.
    pub fn send(&mut self, flow: Flow, item: &Item, out: &mut Vec<u8>) -> Result<(), RobustFault>
        ensures ok { OnOk result ((octets : List ℕ) × spec.IsPut self.old self.new (record { flow = flow; act = Send item.now }) octets × (out.new.items ≡ out.old.items ++ octets)) }
        ensures err { OnErr result ((self.new ≡ self.old) × (out.new.items ≡ out.old.items)) }
        ensures fault { IfErr result (spec.IsNotPut self.old (record { flow = flow; act = Send item.now })) }
    {
        let place = usize::from(flow.number());
        let sender = &mut self.senders[place];
        put_packet(self.alloc, self.accepted, sender, flow.number(), item, out)
    }

    /// Empties the context of the flow's sender, and adds the reset's frame to the octets. It is refused where more than 256 pairs would be held, or memory runs
    /// out, and changes neither then.
    pub fn reset(&mut self, flow: Flow, out: &mut Vec<u8>) -> Result<(), RobustFault>
        ensures ok { OnOk result ((octets : List ℕ) × spec.IsPut self.old self.new (record { flow = flow; act = Reset }) octets × (out.new.items ≡ out.old.items ++ octets)) }
        ensures err { OnErr result ((self.new ≡ self.old) × (out.new.items ≡ out.old.items)) }
        ensures fault { IfErr result (spec.IsNotPut self.old (record { flow = flow; act = Reset })) }
    {
        let place = usize::from(flow.number());
        let sender = &mut self.senders[place];
        put_reset(self.alloc, sender, flow.number(), out)
    }
}

/// The senders of all flows, each with an empty context.
fn fresh_senders(alloc: Global, lost: u8) -> Result<Vec<Robust>, AllocError>
    ensures { IfOk result (λ v. v.items ≡ new_senders lost) }
{
    let empty = Context::new(alloc);
    let mut senders = Vec::new(alloc);
    for _i in 0..FLOW_LIMIT {
        senders.push(Robust::new(alloc, &empty, lost)?)?;
    }
    Ok(senders)
}

/// Adds the frame of a flow's item to the octets, and moves its sender on. A refusal changes neither.
///
/// All room is made before anything changes.
fn put_packet(
    alloc: Global,
    accepted: &Accepted,
    sender: &mut Robust,
    flow: u8,
    item: &Item,
    out: &mut Vec<u8>,
) -> Result<(), RobustFault>
    requires { flow < flow_limit }
    ensures ok { OnOk result (spec.PutsOut accepted.now flow sender.old (Send item.now) sender.new out.old.items out.new.items) }
    ensures err { OnErr result ((sender.new ≡ sender.old) × (out.new.items ≡ out.old.items)) }
    ensures fault { IfErr result (λ e. Blames e accepted.now sender.old item.now) }
{
    accepted.keeps();
    let profile = accepted.profile();
    profile.keeps();
    match out.reserve(FRAME_MOST) {
        Ok(()) => {}
        Err(_) => return Err(RobustFault::Pack(PackFault::OutOfMemory)),
    }
    match sender.pack(alloc, accepted, item) {
        Ok(found) => {
            let Packed { filling, packed } = found;
            let _ = &filling;
            push_packet(flow, &packed, out);
            Ok(())
        }
        Err(fault) => Err(fault),
    }
}

/// Adds the frame of a flow's reset to the octets, and empties its sender's context. A refusal changes neither.
fn put_reset(
    alloc: Global,
    sender: &mut Robust,
    flow: u8,
    out: &mut Vec<u8>,
) -> Result<(), RobustFault>
    requires { flow < flow_limit }
    ensures ok { OnOk result (spec.PutsReset flow sender.old sender.new out.old.items out.new.items) }
    ensures err { OnErr result ((sender.new ≡ sender.old) × (out.new.items ≡ out.old.items)) }
    ensures fault { IfErr result (λ e. LacksRoom e sender.old) }
{
    match out.reserve(1) {
        Ok(()) => {}
        Err(_) => return Err(RobustFault::Pack(PackFault::OutOfMemory)),
    }
    match sender.reset(alloc) {
        Ok(()) => {
            out.push_reserved(128 + flow);
            Ok(())
        }
        Err(fault) => Err(fault),
    }
}
