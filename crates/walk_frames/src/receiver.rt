//! The receiving end of a line of frames.

ghost use Rattle.std.specs.Prelude.{◌≡◌, ◌<◌, ℕ, List, [], ◌∷◌, ◌++◌, length, drop, Option, Some, None, IfOk, IfErr, IfSome, IfNone, OnOk, OnErr, MatchResult};
ghost use Rattle.walk_frames.specs.Frames.{IsBegun, flow_limit};
ghost use Rattle.walk_frames.specs.Receiving.{Found, new_contexts};
ghost use Rattle.walk_frames.specs.States as spec;
ghost use Rattle.walk_frames.specs.declared.given.Given as given;

use crate::fault::FrameFault;
use crate::front::{FLOW_LIMIT, Front, front_of};
use crate::given::{Given, PacketRefusal};
use crate::verdict::judge;
use cert_accepted::Accepted;
use sem_context::Context;
use std::alloc::{AllocError, Global};
use std::marker::Model;
use walk_line::Flow;

/// The receiving end: it gives of each frame what its packet is read as in its flow's context, once its octets are there.
#[derive(Drop)]
pub struct Receiver<'a> {
    alloc: Global,
    accepted: &'a Accepted,
    contexts: Vec<Context>,
    rest: Vec<u8>,
    fault: Option<FrameFault>,
}

impl<'a> Model for Receiver<'a> {
    ghost use Rattle.std.specs.Prelude.{◌≡◌, length};
    ghost use Rattle.walk_frames.specs.Frames.{flow_limit};
    ghost use Rattle.walk_frames.specs.States as spec;
    ghost use Rattle.sem_expr.specs.contracts.expr.Expr as expr;
    ghost use Rattle.sem_expr.specs.contracts.expr.Cond as cond;
    ghost use Rattle.std.specs.Coded.{codes};

    ghost Value = { spec.Receiver };

    ghost coded = { Prim.hlevel (codes, expr.the_row.coded, cond.the_row.coded) };

    ghost view = { λ r. record { accepted = r.accepted.now; contexts = r.contexts.items; rest = r.rest.items; fault = r.fault } };

    ghost invariant = { λ r. length r.contexts.items ≡ flow_limit };
}

impl<'a> Receiver<'a> {
    /// All contexts are empty, and nothing was heard.
    pub fn new(alloc: Global, accepted: &'a Accepted) -> Result<Receiver<'a>, AllocError>
        ensures { IfOk result (λ r. r ≡ record { accepted = accepted.now; contexts = new_contexts; rest = []; fault = None }) }
    {
        Ok(Receiver {
            alloc,
            accepted,
            contexts: no_contexts(alloc)?,
            rest: Vec::new(alloc),
            fault: None,
        })
    }

    /// Takes the next octets of the line, and adds what each frame gives that is whole now. After a fault that of the frames before it is added, and the fault
    /// is answered from then on. A packet that is refused is no fault: it is told in its place, and the line goes on.
    pub fn feed(&mut self, piece: &[u8], out: &mut Vec<(Flow, Given)>) -> Result<(), FrameFault>
        ensures ok { OnOk result ((found : Found) × (out.new.items ≡ out.old.items ++ found) × spec.Hears self.old self.new piece.now found) }
        ensures err { IfErr result (λ e. (found : Found) × (out.new.items ≡ out.old.items ++ found) × spec.Fails self.old self.new piece.now found e) }
    {
        if let Some(fault) = self.fault {
            return Err(fault);
        }
        match self.take(piece, out) {
            Ok(()) => Ok(()),
            Err(fault) => {
                self.fault = Some(fault);
                Err(fault)
            }
        }
    }

    /// Whether the line may end here.
    pub fn finish(&self) -> Result<(), FrameFault>
        ensures { MatchResult result (λ _. spec.end_of self.now.fault self.now.rest ≡ None) (λ e. spec.end_of self.now.fault self.now.rest ≡ Some e) }
    {
        if let Some(fault) = self.fault {
            return Err(fault);
        }
        if self.rest.is_empty() {
            Ok(())
        } else {
            Err(FrameFault::Ended)
        }
    }

    /// Takes the next octets, where no fault came before.
    fn take(&mut self, piece: &[u8], out: &mut Vec<(Flow, Given)>) -> Result<(), FrameFault>
        requires { self.old.fault ≡ None }
        ensures ok { OnOk result ((found : Found) × (out.new.items ≡ out.old.items ++ found) × spec.Hears self.old self.new piece.now found) }
        ensures err { IfErr result (λ e. (found : Found) × (out.new.items ≡ out.old.items ++ found) × spec.Stops self.old.accepted self.old.contexts (self.old.rest ++ piece.now) found e) }
        ensures accepted { self.new.accepted ≡ self.old.accepted }
    {
        match self.rest.extend_from_slice(piece) {
            Ok(()) => {}
            Err(_) => return Err(FrameFault::OutOfMemory),
        }
        let octets = self.rest.as_slice();
        match take_frames(self.alloc, self.accepted, &mut self.contexts, octets, out) {
            Ok(count) => match Vec::from_slice(self.alloc, &octets[count..]) {
                Ok(left) => {
                    self.rest = left;
                    Ok(())
                }
                Err(_) => Err(FrameFault::OutOfMemory),
            },
            Err(fault) => Err(fault),
        }
    }
}

/// The contexts of all flows, each empty.
fn no_contexts(alloc: Global) -> Result<Vec<Context>, AllocError>
    ensures { IfOk result (λ v. v.items ≡ new_contexts) }
{
    let mut contexts = Vec::new(alloc);
    for _i in 0..FLOW_LIMIT {
        contexts.push(Context::new(alloc))?;
    }
    Ok(contexts)
}

/// Takes the frames at the front of these octets, and adds what they give: they are so many octets, and then there is less than a whole frame.
fn take_frames(
    alloc: Global,
    accepted: &Accepted,
    contexts: &mut Vec<Context>,
    octets: &[u8],
    out: &mut Vec<(Flow, Given)>,
) -> Result<usize, FrameFault>
    requires { length contexts.old.items ≡ flow_limit }
    ensures ok { IfOk result (λ n. (found : Found) × (out.new.items ≡ out.old.items ++ found) × spec.TakesTo accepted.now contexts.old.items contexts.new.items octets.now n found × IsBegun (drop n octets.now)) }
    ensures err { IfErr result (λ e. (found : Found) × (out.new.items ≡ out.old.items ++ found) × spec.Stops accepted.now contexts.old.items octets.now found e) }
    ensures flows { length contexts.new.items ≡ length contexts.old.items }
{
    let mut place = 0;
    loop {
        match take_frame(alloc, accepted, contexts, &octets[place..], out) {
            Ok(Some(count)) => place += count,
            Ok(None) => return Ok(place),
            Err(fault) => return Err(fault),
        }
    }
}

/// Takes the frame at the front of these octets, and adds what it gives: it is so many octets. None where there is less than a whole frame.
fn take_frame(
    alloc: Global,
    accepted: &Accepted,
    contexts: &mut Vec<Context>,
    octets: &[u8],
    out: &mut Vec<(Flow, Given)>,
) -> Result<Option<usize>, FrameFault>
    requires { length contexts.old.items ≡ flow_limit }
    ensures some { IfOk result (λ o. IfSome o (λ n. (found : Found) × (out.new.items ≡ out.old.items ++ found) × (0 < n) × spec.TakesTo accepted.now contexts.old.items contexts.new.items octets.now n found)) }
    ensures none { IfOk result (λ o. IfNone o (IsBegun octets.now × (contexts.new.items ≡ contexts.old.items) × (out.new.items ≡ out.old.items))) }
    ensures err { IfErr result (λ e. (out.new.items ≡ out.old.items) × spec.BlamesFront e octets.now) }
    ensures flows { length contexts.new.items ≡ length contexts.old.items }
{
    match front_of(octets) {
        Front::Begun => Ok(None),
        Front::NoFlow => Err(FrameFault::FlowOctet),
        Front::Reset(flow) => {
            contexts[usize::from(flow)] = Context::new(alloc);
            Ok(Some(1))
        }
        Front::Overlong(flow, _, to) => match give(
            flow,
            Given::Refused(PacketRefusal::Length),
            out,
        ) {
            Ok(()) => Ok(Some(to)),
            Err(_) => Err(FrameFault::OutOfMemory),
        },
        Front::Packet(flow, from, to) => {
            let context = &mut contexts[usize::from(flow)];
            let given = judge(alloc, accepted, context, &octets[from..to])?;
            match give(flow, given, out) {
                Ok(()) => Ok(Some(to)),
                Err(_) => Err(FrameFault::OutOfMemory),
            }
        }
    }
}

/// Adds what is given of a flow.
fn give(flow: u8, given: Given, out: &mut Vec<(Flow, Given)>) -> Result<(), AllocError>
    requires { flow < flow_limit }
    ensures ok { OnOk result (out.new.items ≡ out.old.items ++ (flow, given) ∷ []) }
    ensures err { OnErr result (out.new.items ≡ out.old.items) }
{
    let Some(flow) = Flow::new(flow) else {
        unreachable!();
    };
    match out.push((flow, given)) {
        Ok(()) => Ok(()),
        Err(_) => Err(AllocError),
    }
}
