//! What is read of packets after losses, one after the other.

ghost use Rattle.std.specs.Prelude.{◌≡◌, IfOk, IsTrue, OnOk, []};
ghost use Rattle.std.specs.Option.{option_copied};
ghost use Rattle.sem_elsewhere.specs.Listed.{UsesAre};
ghost use Rattle.sem_filling.specs.Fillings as sides;
ghost use Rattle.walk_loss.specs.Reception.{IsHeard};
ghost use Rattle.walk_loss.specs.Journal as spec;

use crate::reception::{Heard, HeardKind, hear};
use crate::unserved::{Unserved, all_serve, unserved_among};
use crate::uses::{Using, uses_of};
use cert_accepted::Accepted;
use sem_context::Context;
use sem_filling::{Filling, Item};
use sqlite_items::Items;
use std::alloc::{AllocError, Global};
use walk_engine::{Packed, has_item};

/// What a receiver reads of a packet to which so many packets right before were lost, and the format of the filling that was sent, by its index in the top.
#[derive(Clone, Copy)]
pub struct Reading {
    pub lost: usize,
    pub format: usize,
    pub kind: HeardKind,
}

/// A packet that isn't read right: how many right before were lost, the number of the item from 1, the format that was sent, what is read, and the uses of
/// references that don't serve.
#[derive(Drop)]
pub struct Case {
    pub lost: usize,
    pub number: usize,
    pub format: usize,
    pub heard: Heard,
    pub unserved: Items<Unserved>,
}

/// All readings in order, and for each number of lost packets the first wrong case and the first that is refused.
#[derive(Drop)]
pub struct Journal {
    pub readings: Items<Reading>,
    pub cases: Items<Case>,
}

impl Journal {
    ghost use Rattle.walk_loss.specs.Journal.{IsJournal};
    ghost use Rattle.std.specs.Prelude.{[]};
    ghost use Rattle.cert_accepted.specs.Accepted.{Accepting};

    /// No reading.
    pub fn new(alloc: Global) -> Journal
        ensures { (a : Accepting) → IsJournal a [] result }
    {
        Journal {
            readings: Items::new(alloc),
            cases: Items::new(alloc),
        }
    }
}

/// An item that was sent: its number from 1, the packet with its filling, whether the item is that of the filling, and the uses of references of the filling.
#[derive(Clone, Copy)]
struct Sending<'a> {
    number: usize,
    item: &'a Item,
    sent: &'a Packed,
    own: bool,
    uses: &'a [Using],
}

/// Adds what receivers read of the packet of the item of that number: one in the newest of the held contexts, which was the sender's, one in the context before it,
/// to whom one packet was lost, and so on. The contexts stand from the oldest to the newest. The error is out of memory.
pub fn judge(
    alloc: Global,
    accepted: &Accepted,
    held: &[Context],
    number: usize,
    item: &Item,
    sent: &Packed,
    journal: &mut Journal,
) -> Result<(), AllocError>
    requires sent { spec.IsSent accepted.now sent.now }
    ensures { OnOk result (spec.AddsAll accepted.now held.now number item.now sent.now journal.old journal.new) }
{
    let uses = uses_of(alloc, accepted, &sent.filling)?;
    let own = has_item(item, &sent.filling);
    let sending = Sending {
        number,
        item,
        sent,
        own,
        uses: uses.as_slice(),
    };
    for lost in 0..held.len() {
        let context = &held[held.len() - 1 - lost];
        judge_in(alloc, accepted, context, lost, &sending, journal)?;
    }
    Ok(())
}

/// Adds what a receiver in the context reads.
fn judge_in(
    alloc: Global,
    accepted: &Accepted,
    context: &Context,
    lost: usize,
    sending: &Sending<'_>,
    journal: &mut Journal,
) -> Result<(), AllocError>
    requires sent { spec.IsSent accepted.now sending.now.sent.now }
    requires own { IsTrue sending.now.own → sides.item sending.now.sent.now.filling ≡ sending.now.item.now }
    requires uses { UsesAre accepted.now.profile.methods accepted.now.profile.top [] [] sending.now.sent.now.filling sending.now.uses.now }
    ensures { OnOk result (spec.AddsOne accepted.now context.now lost sending.now.number sending.now.item.now sending.now.sent.now journal.old journal.new) }
{
    let heard = hear_sent(alloc, accepted, context, sending)?;
    let kind = heard.kind();
    let format = sending.sent.filling.format;
    journal.readings.push(Reading { lost, format, kind })?;
    if is_known(journal.cases.as_slice(), lost, kind) {
        return Ok(());
    }
    let unserved = unserved_among(alloc, context, sending.uses)?;
    journal.cases.push(Case {
        lost,
        number: sending.number,
        format,
        heard,
        unserved,
    })
}

/// The same as `hear`, of a filling with the item, if it is one: where each of its uses serves it is read, and nothing has to be unpacked.
fn hear_sent(
    alloc: Global,
    accepted: &Accepted,
    context: &Context,
    sending: &Sending<'_>,
) -> Result<Heard, AllocError>
    requires sent { spec.IsSent accepted.now sending.now.sent.now }
    requires own { IsTrue sending.now.own → sides.item sending.now.sent.now.filling ≡ sending.now.item.now }
    requires uses { UsesAre accepted.now.profile.methods accepted.now.profile.top [] [] sending.now.sent.now.filling sending.now.uses.now }
    ensures { IfOk result (IsHeard accepted.now context.now sending.now.item.now sending.now.sent.now.packed) }
{
    if sending.own {
        let is_read = all_serve(alloc, context, sending.uses)?;
        if is_read {
            return Ok(Heard::Right);
        }
    }
    hear(alloc, accepted, context, sending.item, &sending.sent.packed)
}

/// Whether nothing is to be told of that kind after so many lost packets: it is right, or there is a case of it.
fn is_known(cases: &[Case], lost: usize, kind: HeardKind) -> bool
    ensures { result ≡ spec.is_known lost kind cases.now }
{
    kind == HeardKind::Right || case_of(cases, lost, kind).is_some()
}

/// The first case of that kind after so many lost packets.
pub fn case_of(cases: &[Case], lost: usize, kind: HeardKind) -> Option<&Case>
    ensures { option_copied result ≡ spec.first_case lost kind cases.now }
{
    for case in cases {
        if is_case(case, lost, kind) {
            return Some(case);
        }
    }
    None
}

fn is_case(case: &Case, lost: usize, kind: HeardKind) -> bool
    ensures { result ≡ spec.is_case lost kind case.now }
{
    case.lost == lost && case.heard.kind() == kind
}
