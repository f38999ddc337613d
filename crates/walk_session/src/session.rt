//! A session: an accepted profile, and both ends of each of its flows.

ghost use Rattle.std.specs.Prelude.{◌≡◌, ◌≤◌, false, true, IfOk, IfErr, OnErr, [], length, slice_get, option_map};
ghost use Rattle.walk_session.specs.State.{State, new_flows};
ghost use Rattle.walk_session.specs.Steps as spec;

use crate::ends::{Ends, Sending};
use crate::packer::{item_of, send};
use crate::pages::{Last, keep_page, take_page};
use crate::refusal::{PackRefusal, UnpackRefusal};
use crate::unpacker::{Taken, receive};
use cert_accepted::Accepted;
use sem_pages::Page;
use std::alloc::{AllocError, Global};
use std::marker::Model;
use walk_robust::Robust;

/// An accepted profile, and both ends of each flow. Of each flow it keeps the format of the last page that was packed, by its index, and the last pages themselves,
/// one that was packed and one that was unpacked, while the contexts are what those left: the next item and the next packet mostly go by them. Of a sending end that
/// holds several contexts no page is kept.
#[derive(Drop)]
pub struct Session {
    accepted: Accepted,
    flows: Vec<Ends>,
    formats: Vec<Option<usize>>,
    sent: Vec<Option<Page>>,
    received: Vec<Option<Page>>,
}

impl Model for Session {
    ghost use Rattle.walk_session.specs.Pages.{AreKept, KeepsReceived, KeepsSent};
    ghost use Rattle.walk_session.specs.State.{State};
    ghost use Rattle.walk_session.specs.contracts.ends.Ends as ends;
    ghost use Rattle.sem_expr.specs.contracts.expr.Expr as expr;
    ghost use Rattle.sem_expr.specs.contracts.expr.Cond as cond;
    ghost use Rattle.std.specs.Coded.{codes};

    ghost Value = { State };

    ghost coded = { Prim.hlevel (codes, expr.the_row.coded, cond.the_row.coded, ends.the_row.coded) };

    ghost view = { λ s. record { accepted = s.accepted; flows = s.flows.items } };

    ghost invariant = { λ s. AreKept (KeepsSent s.accepted) s.flows.items s.sent.items × AreKept (KeepsReceived s.accepted) s.flows.items s.received.items };
}

impl Session {
    /// A session of so many flows, of which nothing was packed or unpacked.
    pub fn new(alloc: Global, accepted: Accepted, flows: u8) -> Result<Session, AllocError>
        ensures { IfOk result (λ s. s ≡ record { accepted = accepted; flows = new_flows flows }) }
    {
        let (flows, formats) = empty_flows(alloc, flows)?;
        Ok(Session {
            accepted,
            flows,
            formats,
            sent: Vec::new(alloc),
            received: Vec::new(alloc),
        })
    }

    /// The profile that was accepted.
    pub fn accepted(&self) -> &Accepted
        ensures { result.now ≡ self.now.accepted }
    {
        &self.accepted
    }

    /// How many flows there are.
    pub fn flows(&self) -> usize
        ensures { result ≡ length self.now.flows }
    {
        self.flows.len()
    }

    /// Packs one item of a flow: a header of so many bits, and the octets of the values of the asked fields. Its packet is written to the start of the room.
    /// How many bits it has. A refusal leaves the session and the room as they were.
    pub fn pack(
        &mut self,
        alloc: Global,
        flow: usize,
        header: &[u8],
        header_bits: usize,
        asked: &[u8],
        room: &mut [u8],
    ) -> Result<usize, PackRefusal>
        ensures ok { IfOk result (spec.IsPacked self.old self.new flow header.now header_bits asked.now room.old room.new) }
        ensures stays { OnErr result ((self.new ≡ self.old) × (room.new ≡ room.old)) }
        ensures fault { IfErr result (spec.IsNotPacked self.old flow header.now header_bits asked.now (length room.old)) }
    {
        if flow >= self.flows.len() {
            return Err(PackRefusal::Flow);
        }
        let fields = self.accepted.profile().asked();
        let item = match item_of(alloc, fields, header, header_bits, asked) {
            Ok(item) => item,
            Err(refusal) => return Err(refusal),
        };
        let mut last = Last {
            format: last_format(self.formats.as_slice(), flow),
            page: take_page(&mut self.sent, flow),
        };
        let ends = &mut self.flows[flow];
        let sent = send(
            alloc,
            &self.accepted,
            &mut ends.sending,
            &item,
            &mut last,
            room,
        );
        let Last { format, page } = last;
        note_format(&mut self.formats, flow, format);
        keep_page(&mut self.sent, flow, page);
        sent
    }

    /// Unpacks the packet at the front of bits of a flow. Its header and the octets of its asked values are written to the starts of the rooms. A refusal leaves
    /// the session and the rooms as they were.
    pub fn unpack(
        &mut self,
        alloc: Global,
        flow: usize,
        packed: &[u8],
        packed_bits: usize,
        header: &mut [u8],
        asked: &mut [u8],
    ) -> Result<Taken, UnpackRefusal>
        ensures ok { IfOk result (spec.IsUnpacked self.old self.new flow packed.now packed_bits header.old header.new asked.old asked.new) }
        ensures stays { OnErr result ((self.new ≡ self.old) × (header.new ≡ header.old) × (asked.new ≡ asked.old)) }
        ensures fault { IfErr result (spec.IsNotUnpacked self.old flow packed.now packed_bits (length header.old) (length asked.old)) }
    {
        if flow >= self.flows.len() {
            return Err(UnpackRefusal::Flow);
        }
        let mut page = take_page(&mut self.received, flow);
        let ends = &mut self.flows[flow];
        let context = &mut ends.receiving;
        let taken = receive(
            alloc,
            &self.accepted,
            context,
            &mut page,
            packed,
            packed_bits,
            header,
            asked,
        );
        keep_page(&mut self.received, flow, page);
        taken
    }

    /// Both ends of a flow begin anew. Whether there is such a flow.
    pub fn reset(&mut self, alloc: Global, flow: usize) -> bool
        ensures there { result ≡ true → spec.IsReset self.old self.new flow }
        ensures none { result ≡ false → (self.new ≡ self.old) × (length self.old.flows ≤ flow) }
    {
        if flow >= self.flows.len() {
            return false;
        }
        let _sent = take_page(&mut self.sent, flow);
        let _received = take_page(&mut self.received, flow);
        self.flows[flow] = Ends::new(alloc);
        true
    }

    /// From here on so many packets of a flow may be lost in a row. A receiver that lost nothing holds the context that it goes on from. Whether there is such a flow.
    pub fn endure(&mut self, alloc: Global, flow: usize, lost: u8) -> Result<bool, AllocError>
        ensures there { IfOk result (λ b. b ≡ true → spec.IsRobust self.old self.new flow lost) }
        ensures none { IfOk result (λ b. b ≡ false → (self.new ≡ self.old) × (length self.old.flows ≤ flow)) }
        ensures stays { OnErr result (self.new ≡ self.old) }
    {
        if flow >= self.flows.len() {
            return Ok(false);
        }
        let robust = robust_of(alloc, &self.flows[flow].sending, lost)?;
        let _sent = take_page(&mut self.sent, flow);
        self.flows[flow].sending = Sending::Robust(robust);
        Ok(true)
    }

    /// How many pairs of a context and of packets lost right before a receiver of the flow may hold. None where there is no such flow.
    pub fn held(&self, flow: usize) -> Option<usize>
        ensures { result ≡ option_map (λ ends. spec.held_by ends.sending) (slice_get self.now.flows flow) }
    {
        match self.flows.get(flow) {
            Some(ends) => Some(held_by(&ends.sending)),
            None => None,
        }
    }
}

/// A sender that goes on from the context of another, for so many losses.
fn robust_of(alloc: Global, sending: &Sending, lost: u8) -> Result<Robust, AllocError>
    ensures { IfOk result (λ r. r ≡ record { own = spec.own_of sending.now; others = []; lost = lost }) }
{
    match sending {
        Sending::Plain(context) => Robust::new(alloc, context, lost),
        Sending::Robust(robust) => Robust::new(alloc, robust.context(), lost),
    }
}

fn held_by(sending: &Sending) -> usize
    ensures { result ≡ spec.held_by sending.now }
{
    match sending {
        Sending::Plain(_) => 1,
        Sending::Robust(robust) => robust.held(),
    }
}

/// Both ends of so many flows, of which nothing was packed or unpacked, and no last format of each. (They are made where no profile would be let go of.)
fn empty_flows(alloc: Global, flows: u8) -> Result<(Vec<Ends>, Vec<Option<usize>>), AllocError>
    ensures { IfOk result (λ made. made.0.items ≡ new_flows flows) }
{
    let mut all = Vec::new(alloc);
    for _i in 0..flows {
        all.push(Ends::new(alloc))?;
    }
    Ok((all, no_formats(alloc, flows)?))
}

/// No last format of so many flows.
fn no_formats(alloc: Global, flows: u8) -> Result<Vec<Option<usize>>, AllocError> {
    let mut formats = Vec::new(alloc);
    for _i in 0..flows {
        formats.push(None)?;
    }
    Ok(formats)
}

fn last_format(formats: &[Option<usize>], flow: usize) -> Option<usize> {
    match formats.get(flow) {
        Some(format) => *format,
        None => None,
    }
}

fn note_format(formats: &mut Vec<Option<usize>>, flow: usize, format: Option<usize>) {
    if flow < formats.len() {
        formats[flow] = format;
    }
}
