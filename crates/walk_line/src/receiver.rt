//! The receiving end of a line.

ghost use Rattle.std.specs.Prelude.{◌≡◌, ◌<◌, ◌≤◌, ◌^◌, ℕ, List, [], ◌∷◌, ◌++◌, length, replicate, get_or, Option, Some, None, IfOk, IfErr, IfSome, IfNone, OnOk, MatchResult};
ghost use Rattle.walk_line.specs.Hearing.{Found, IsPart, BlamesOctet};
ghost use Rattle.walk_line.specs.Lines.{flow_limit, no_entries};
ghost use Rattle.walk_line.specs.States.{Hears, HearsFirst, Fails, FailsAt, end_of};
ghost use Rattle.walk_line.specs.Steps.{IsHeard};

use crate::fault::LineFault;
use crate::flow::{Flow, LineVersion, no_contexts};
use crate::packet::{hear, hear_whole};
use crate::unfinished::Unfinished;
use cert_accepted::Accepted;
use sem_context::Context;
use sem_filling::Item;
use sem_pages::Page;
use std::alloc::{AllocError, Global};
use std::marker::Model;

/// The receiving end: it gives the item of each packet once its octets are there. Of each flow it keeps the last page, while the context is what that left.
#[derive(Drop)]
pub struct Receiver<'a> {
    alloc: Global,
    accepted: &'a Accepted,
    contexts: Vec<Context>,
    pages: Vec<Option<Page>>,
    rest: Unfinished,
    fault: Option<LineFault>,
}

impl<'a> Model for Receiver<'a> {
    ghost use Rattle.std.specs.Prelude.{◌≡◌, ◌≤◌, ◌^◌, length};
    ghost use Rattle.walk_line.specs.Hearing.{IsPart};
    ghost use Rattle.walk_line.specs.Lines.{flow_limit};
    ghost use Rattle.walk_line.specs.Pages.{AreKeptBy};
    ghost use Rattle.walk_line.specs.States.{Receiving};
    ghost use Rattle.sem_expr.specs.contracts.expr.Expr as expr;
    ghost use Rattle.sem_expr.specs.contracts.expr.Cond as cond;
    ghost use Rattle.std.specs.Coded.{codes};

    ghost Value = { Receiving };

    ghost coded = { Prim.hlevel (codes, expr.the_row.coded, cond.the_row.coded) };

    ghost view = { λ r. record { accepted = r.accepted.now; contexts = r.contexts.items; rest = r.rest; fault = r.fault } };

    ghost invariant = { λ r. (length r.contexts.items ≤ flow_limit) × (length r.rest ≤ 2 ^ 20) × IsPart r.accepted.now r.contexts.items r.rest × AreKeptBy r.accepted.now r.contexts.items r.pages.items };
}

impl<'a> Receiver<'a> {
    /// All contexts are empty, and nothing was heard.
    pub fn new(
        alloc: Global,
        accepted: &'a Accepted,
        version: LineVersion,
    ) -> Result<Receiver<'a>, AllocError>
        ensures { IfOk result (λ r. r ≡ record { accepted = accepted.now; contexts = no_entries version; rest = []; fault = None }) }
    {
        Ok(Receiver {
            alloc,
            accepted,
            contexts: no_contexts(alloc, version)?,
            pages: Vec::new(alloc),
            rest: Unfinished::new(alloc),
            fault: None,
        })
    }

    /// Takes the next octets of the line, and adds the item of each packet that is whole now. After a fault the items of the
    /// packets before it are added, and the fault is answered from then on.
    pub fn feed(&mut self, piece: &[u8], out: &mut Vec<(Flow, Item)>) -> Result<(), LineFault>
        ensures ok { OnOk result ((found : Found) × (out.new.items ≡ out.old.items ++ found) × Hears self.old self.new piece.now found) }
        ensures err { IfErr result (λ e. (found : Found) × (out.new.items ≡ out.old.items ++ found) × Fails self.old self.new piece.now found e) }
    {
        if let Some(fault) = self.fault {
            return Err(fault);
        }
        let mut place = 0;
        while place < piece.len() {
            match self.take_next(&piece[place..], out) {
                Ok(count) => place += count,
                Err(fault) => return Err(fault),
            }
        }
        Ok(())
    }

    /// Whether the line may end here.
    pub fn finish(&self) -> Result<(), LineFault>
        ensures { MatchResult result (λ _. end_of self.now.fault self.now.rest ≡ None) (λ e. end_of self.now.fault self.now.rest ≡ Some e) }
    {
        if let Some(fault) = self.fault {
            return Err(fault);
        }
        if self.rest.is_empty() {
            Ok(())
        } else {
            Err(LineFault::Ended)
        }
    }

    /// Takes the first of these octets, or with it all others of its packet, where the packet is told at once: so many.
    fn take_next(&mut self, octets: &[u8], out: &mut Vec<(Flow, Item)>) -> Result<usize, LineFault>
        requires some { 0 < length octets.now }
        requires well { self.old.fault ≡ None }
        ensures ok { IfOk result (λ n. (found : Found) × (out.new.items ≡ out.old.items ++ found) × HearsFirst self.old self.new octets.now n found) }
        ensures err { IfErr result (λ e. (out.new.items ≡ out.old.items) × FailsAt self.old self.new (get_or octets.now 0 0) e) }
    {
        match self.take_whole(octets, out) {
            Ok(Some(count)) => Ok(count),
            Ok(None) => match self.take(octets[0], out) {
                Ok(()) => Ok(1),
                Err(fault) => Err(fault),
            },
            Err(fault) => Err(fault),
        }
    }

    /// Takes the packet that begins these octets, where nothing is left of those before and it is told at once: so many octets.
    fn take_whole(
        &mut self,
        octets: &[u8],
        out: &mut Vec<(Flow, Item)>,
    ) -> Result<Option<usize>, LineFault>
        requires some { 0 < length octets.now }
        requires well { self.old.fault ≡ None }
        ensures some { IfOk result (λ o. IfSome o (λ n. (found : Found) × (out.new.items ≡ out.old.items ++ found) × HearsFirst self.old self.new octets.now n found)) }
        ensures none { IfOk result (λ o. IfNone o ((self.new ≡ self.old) × (out.new.items ≡ out.old.items))) }
        ensures err { IfErr result (λ e. (out.new.items ≡ out.old.items) × ((octet : ℕ) → FailsAt self.old self.new octet e)) }
    {
        if !self.rest.is_empty() {
            return Ok(None);
        }
        match hear_whole(
            self.alloc,
            self.accepted,
            &mut self.contexts,
            &mut self.pages,
            octets,
            out,
        ) {
            Ok(heard) => Ok(heard),
            Err(_) => {
                self.fault = Some(LineFault::OutOfMemory);
                Err(LineFault::OutOfMemory)
            }
        }
    }

    /// Takes one octet.
    fn take(&mut self, octet: u8, out: &mut Vec<(Flow, Item)>) -> Result<(), LineFault>
        requires { self.old.fault ≡ None }
        ensures ok { OnOk result ((found : Found) × (out.new.items ≡ out.old.items ++ found) × Hears self.old self.new (octet ∷ []) found) }
        ensures err { IfErr result (λ e. (out.new.items ≡ out.old.items) × FailsAt self.old self.new octet e) }
    {
        self.pages.clear();
        match hear_octet(
            self.alloc,
            self.accepted,
            &mut self.contexts,
            &mut self.rest,
            octet,
            out,
        ) {
            Ok(()) => Ok(()),
            Err(fault) => {
                self.rest.clear(self.alloc);
                self.fault = Some(fault);
                Err(fault)
            }
        }
    }
}

/// Hears one more octet after those of a packet that is not whole.
fn hear_octet(
    alloc: Global,
    accepted: &Accepted,
    contexts: &mut Vec<Context>,
    rest: &mut Unfinished,
    octet: u8,
    out: &mut Vec<(Flow, Item)>,
) -> Result<(), LineFault>
    requires few { length rest.old ≤ 2 ^ 20 }
    requires part { IsPart accepted.now contexts.old.items rest.old }
    requires flows { length contexts.old.items ≤ flow_limit }
    ensures ok { OnOk result ((found : Found) × (out.new.items ≡ out.old.items ++ found) × IsHeard accepted.now contexts.old.items contexts.new.items (rest.old ++ octet ∷ []) rest.new found) }
    ensures flows { length contexts.new.items ≡ length contexts.old.items }
    ensures err { IfErr result (λ e. (out.new.items ≡ out.old.items) × BlamesOctet e accepted.now contexts.old.items rest.old octet) }
{
    rest.push(alloc, octet)?;
    match hear(alloc, accepted, contexts, rest, out) {
        Ok(()) => Ok(()),
        Err(fault) => Err(fault),
    }
}
