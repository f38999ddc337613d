//! The sending end of a line.

ghost use Rattle.std.specs.Prelude.{◌≡◌, ◌<◌, ◌≤◌, ◌+◌, ◌/◌, List, ℕ, false, ◌∷◌, ◌++◌, length, vec_len, vec_capacity, IfOk, IfErr, IfSome, IsTrue, OnOk, OnErr};
ghost use Rattle.std.specs.Option.{SomeIff};
ghost use Rattle.sem_bits.specs.Octets.{Holds};
ghost use Rattle.walk_engine.specs.Writing as writing;
ghost use Rattle.walk_line.specs.Lines.{no_entries};
ghost use Rattle.walk_pages.specs.Kept.{HasPaths, IsKeptBy};
ghost use Rattle.walk_engine.specs.Reading.{Fitting};
ghost use Rattle.walk_line.specs.Lines.Act.{Send, Reset};
ghost use Rattle.walk_line.specs.States.{IsNotPut, IsPut};
ghost use Rattle.sem_filling.specs.declared.filling.Filling.{Filling};
ghost use Rattle.sem_filling.specs.Fillings.{packed};
ghost use Rattle.walk_engine.specs.Sending.{ShowsPacked};
ghost use Rattle.walk_line.specs.Steps.{AddsPacket, IsPacked};

use crate::flow::{FLOW_LIMIT, Flow, LineVersion, no_contexts};
use crate::pages::{keep_page, take_page};
use cert_accepted::Accepted;
use sem_bits::Bits;
use sem_context::Context;
use sem_filling::{Item, advance};
use sem_pages::Page;
use std::alloc::{AllocError, Global};
use std::marker::Model;
use walk_engine::{PackFault, Packed, Sent, pack, pack_page};
use walk_pages::{WrittenPage, goes_on_after};

/// The sending end: it packs the items of each flow in the flow's context. Of each flow it keeps the format of the last page, by its index, and the page itself while
/// the context is what that left: the next item mostly goes by them.
#[derive(Drop)]
pub struct Sender<'a> {
    alloc: Global,
    accepted: &'a Accepted,
    contexts: Vec<Context>,
    formats: [Option<usize>; FLOW_LIMIT as usize],
    pages: Vec<Option<Page>>,
}

impl<'a> Model for Sender<'a> {
    ghost use Rattle.std.specs.Prelude.{◌≡◌, ◌≤◌, length};
    ghost use Rattle.walk_line.specs.Lines.{flow_limit};
    ghost use Rattle.walk_line.specs.Pages.{AreKeptBy};
    ghost use Rattle.walk_line.specs.States.{Sending};
    ghost use Rattle.sem_expr.specs.contracts.expr.Expr as expr;
    ghost use Rattle.sem_expr.specs.contracts.expr.Cond as cond;
    ghost use Rattle.std.specs.Coded.{codes};

    ghost Value = { Sending };

    ghost coded = { Prim.hlevel (codes, expr.the_row.coded, cond.the_row.coded) };

    ghost view = { λ s. record { accepted = s.accepted.now; contexts = s.contexts.items } };

    ghost invariant = { λ s. (length s.contexts.items ≤ flow_limit) × AreKeptBy s.accepted.now s.contexts.items s.pages.items };
}

impl<'a> Sender<'a> {
    /// All contexts are empty.
    pub fn new(
        alloc: Global,
        accepted: &'a Accepted,
        version: LineVersion,
    ) -> Result<Sender<'a>, AllocError>
        ensures { IfOk result (λ s. s ≡ record { accepted = accepted.now; contexts = no_entries version }) }
    {
        Ok(Sender {
            alloc,
            accepted,
            contexts: no_contexts(alloc, version)?,
            formats: [None; FLOW_LIMIT as usize],
            pages: Vec::new(alloc),
        })
    }

    /// Packs an item in the flow's context, and adds the packet to the octets. A refusal is that the line has no such flow, or else
    /// that of `pack`. It changes neither the sender nor the octets.
    pub fn send(&mut self, flow: Flow, item: &Item, out: &mut Vec<u8>) -> Result<(), PackFault>
        ensures ok { OnOk result ((octets : List ℕ) × IsPut self.old self.new (record { flow = flow; act = Send item.now }) octets × (out.new.items ≡ out.old.items ++ octets)) }
        ensures err { OnErr result ((self.new ≡ self.old) × (out.new.items ≡ out.old.items)) }
        ensures fault { IfErr result (IsNotPut self.old (record { flow = flow; act = Send item.now })) }
    {
        let Some(place) = self.place(flow) else {
            return Err(PackFault::Flow);
        };
        let number = flow.number();
        let mut last = Last {
            format: self.formats[usize::from(number)],
            page: take_page(&mut self.pages, place),
        };
        let context = &mut self.contexts[place];
        let put = put_packet(
            self.alloc,
            self.accepted,
            context,
            number,
            item,
            &mut last,
            out,
        );
        let Last { format, page } = last;
        self.formats[usize::from(number)] = format;
        keep_page(&mut self.pages, place, page);
        put
    }

    /// Empties the flow's context, and adds the reset's octet to the octets. It is refused where the line has no such flow, or
    /// memory runs out, and changes neither then.
    pub fn reset(&mut self, flow: Flow, out: &mut Vec<u8>) -> Result<(), PackFault>
        ensures ok { OnOk result ((octets : List ℕ) × IsPut self.old self.new (record { flow = flow; act = Reset }) octets × (out.new.items ≡ out.old.items ++ octets)) }
        ensures err { OnErr result ((self.new ≡ self.old) × (out.new.items ≡ out.old.items)) }
        ensures fault { IfErr result (IsNotPut self.old (record { flow = flow; act = Reset })) }
    {
        let Some(at) = self.place(flow) else {
            return Err(PackFault::Flow);
        };
        match out.push(flow.reset_octet(self.contexts.len() as u8)) {
            Ok(()) => {}
            Err(_) => return Err(PackFault::OutOfMemory),
        }
        let _page = take_page(&mut self.pages, at);
        self.contexts[at] = Context::new(self.alloc);
        Ok(())
    }

    /// The place of the flow's context, or `None` where the line has no such flow.
    fn place(&self, flow: Flow) -> Option<usize>
        ensures { SomeIff result (flow < length self.now.contexts) flow }
    {
        let place = usize::from(flow.number());
        if place < self.contexts.len() {
            Some(place)
        } else {
            None
        }
    }
}

/// What a flow keeps of its last page: its format, by its index, and the page itself, while the context is what that left.
#[derive(Drop)]
struct Last {
    format: Option<usize>,
    page: Option<Page>,
}

/// Adds the packet of an item to the octets, after the flow's octet, and moves the context on. A refusal changes neither. Where a page is written, it is the last one
/// then.
fn put_packet(
    alloc: Global,
    accepted: &Accepted,
    context: &mut Context,
    flow: u8,
    item: &Item,
    last: &mut Last,
    out: &mut Vec<u8>,
) -> Result<(), PackFault>
    requires { IfSome last.old.page (IsKeptBy accepted.now context.old) }
    ensures ok { OnOk result (IsPacked accepted.now context.old context.new flow item.now out.old.items out.new.items) }
    ensures err { OnErr result ((context.new ≡ context.old) × (out.new.items ≡ out.old.items)) }
    ensures fault { IfErr result (λ e. writing.Blames e accepted.now context.old item.now) }
    ensures kept { IfSome last.new.page (IsKeptBy accepted.now context.new) }
{
    let page = last.page.take();
    let known = page.is_some();
    // In an empty context no page tells what is left in it.
    if context.len() == 0 {
        return put_best(alloc, accepted, context, flow, item, out);
    }
    match pack_page(alloc, accepted, context, item, last.format, page) {
        Ok(Sent::Page(written)) => {
            if put_page(alloc, accepted, context, flow, &written, known, out)? {
                let WrittenPage { page, .. } = written;
                last.format = Some(page.format);
                last.page = Some(page);
                return Ok(());
            }
            put_best(alloc, accepted, context, flow, item, out)
        }
        Ok(Sent::Filling(found)) => {
            put_filling(alloc, context, flow, found, out)?;
            Ok(())
        }
        Err(fault) => Err(fault),
    }
}

/// The same by a filling.
fn put_best(
    alloc: Global,
    accepted: &Accepted,
    context: &mut Context,
    flow: u8,
    item: &Item,
    out: &mut Vec<u8>,
) -> Result<(), PackFault>
    ensures ok { OnOk result (IsPacked accepted.now context.old context.new flow item.now out.old.items out.new.items) }
    ensures err { OnErr result ((context.new ≡ context.old) × (out.new.items ≡ out.old.items)) }
    ensures fault { IfErr result (λ e. writing.Blames e accepted.now context.old item.now) }
{
    let found = match pack(alloc, accepted, context, item) {
        Ok(found) => found,
        Err(fault) => return Err(fault),
    };
    put_filling(alloc, context, flow, found, out)?;
    Ok(())
}

/// Adds the packed bits of what a page shows, after the flow's octet, and moves the context on. False where the context, which stays then, has not the paths of
/// the page first: then nothing is added. Where memory runs out nothing changes. It is known, or not, that the context keeps a page.
///
/// All room is made before anything changes.
fn put_page(
    alloc: Global,
    accepted: &Accepted,
    context: &mut Context,
    flow: u8,
    written: &WrittenPage,
    known: bool,
    out: &mut Vec<u8>,
) -> Result<bool, AllocError>
    requires { IsTrue known → HasPaths accepted.now context.old }
    ensures ok { IfOk result (λ is. IsTrue is → (f : Filling) → Fitting accepted.now context.old f → ShowsPacked accepted.now f written.now → AddsPacket context.old context.new flow f out.old.items out.new.items) }
    ensures kept { IfOk result (λ is. IsTrue is → (f : Filling) → Fitting accepted.now context.old f → ShowsPacked accepted.now f written.now → IsKeptBy accepted.now context.new written.now.page) }
    ensures stays { IfOk result (λ is. is ≡ false → (context.new ≡ context.old) × (out.new.items ≡ out.old.items)) }
    ensures err { OnErr result ((context.new ≡ context.old) × (out.new.items ≡ out.old.items)) }
{
    out.reserve((written.packed.len() + 7) / 8 + 1)?;
    if !goes_on_after(alloc, accepted, context, &written.page, known)? {
        return Ok(false);
    }
    push_packet(flow, &written.packed, out);
    Ok(true)
}

/// The same of a filling.
fn put_filling(
    alloc: Global,
    context: &mut Context,
    flow: u8,
    found: Packed,
    out: &mut Vec<u8>,
) -> Result<(), AllocError>
    requires { found.packed ≡ packed found.filling }
    ensures ok { OnOk result (AddsPacket context.old context.new flow found.filling out.old.items out.new.items) }
    ensures err { OnErr result ((context.new ≡ context.old) × (out.new.items ≡ out.old.items)) }
{
    let Packed { filling, packed } = found;
    out.reserve((packed.len() + 7) / 8 + 1)?;
    advance(alloc, context, &filling)?;
    push_packet(flow, &packed, out);
    Ok(())
}

/// Adds the flow's octet, and then those that hold the bits, where there is room for them.
fn push_packet(flow: u8, bits: &Bits, out: &mut Vec<u8>)
    requires { vec_len out.old + ((length bits.now + 7) / 8 + 1) ≤ vec_capacity out.old }
    ensures { (octets : List ℕ) × Holds octets bits.now × (out.new.items ≡ out.old.items ++ flow ∷ octets) }
{
    match out.push(flow) {
        Ok(()) => {}
        Err(_) => unreachable!(),
    }
    push_bits(bits, out);
}

/// Adds the octets that hold bits, the last filled with zero bits, where there is room for them.
fn push_bits(bits: &Bits, out: &mut Vec<u8>)
    requires { vec_len out.old + (length bits.now + 7) / 8 ≤ vec_capacity out.old }
    ensures { (octets : List ℕ) × Holds octets bits.now × (out.new.items ≡ out.old.items ++ octets) }
{
    for place in 0..(bits.len() + 7) / 8 {
        let Some(octet) = bits.octet(place) else {
            unreachable!();
        };
        match out.push(octet) {
            Ok(()) => {}
            Err(_) => unreachable!(),
        }
    }
}
