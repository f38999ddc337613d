//! Rows on lines of flows.

use crate::outcome::{First, Outcome};
use crate::samples::Sample;
use crate::stop::Stop;
use cert_accepted::Accepted;
use sem_filling::Item;
use std::alloc::Global;
use walk_engine::PackFault;
use walk_line::{Flow, LineFault, LineVersion, Receiver, Sender};

/// The flow of the rows.
const FLOW: u8 = 3;

/// The octet that resets it (docs/FORMATS.md).
const RESET: u8 = 0x13;

/// `send PROFILE`: the second packet of a flow. Another sender, which is refused no memory, puts the same on a line of its own.
pub(crate) fn sends(alloc: Global, accepted: &Accepted, sample: &Sample) -> Result<Outcome, Stop> {
    let due = second_packet(alloc, accepted, sample)?;
    let next = sample.next(alloc)?;
    let mut sender = begun(alloc, accepted, sample)?;
    send_next(alloc, &mut sender, &next, due.as_slice())
}

/// A sender that has put the first packet of its flow on a line.
fn begun<'a>(alloc: Global, accepted: &'a Accepted, sample: &Sample) -> Result<Sender<'a>, Stop> {
    let mut sender = Sender::new(alloc, accepted, LineVersion::One)?;
    let _ = sent(alloc, &mut sender, &sample.item(alloc)?)?;
    Ok(sender)
}

/// What the sender puts on a line for the item.
fn sent(alloc: Global, sender: &mut Sender<'_>, item: &Item) -> Result<Vec<u8>, Stop> {
    let Some(flow) = Flow::new(FLOW) else {
        return Err(Stop::Row("no flow"));
    };
    let mut line = Vec::new(alloc);
    sender.send(flow, item, &mut line)?;
    Ok(line)
}

/// The second packet of such a sender.
fn second_packet(alloc: Global, accepted: &Accepted, sample: &Sample) -> Result<Vec<u8>, Stop> {
    let mut sender = begun(alloc, accepted, sample)?;
    sent(alloc, &mut sender, &sample.next(alloc)?)
}

fn send_next(
    alloc: Global,
    sender: &mut Sender<'_>,
    item: &Item,
    due: &[u8],
) -> Result<Outcome, Stop> {
    let Some(flow) = Flow::new(FLOW) else {
        return Err(Stop::Row("no flow"));
    };
    let mut line = Vec::new(alloc);
    match sender.send(flow, item, &mut line) {
        Ok(()) => Ok(First::Answered.then(line.as_slice() == due)),
        Err(PackFault::OutOfMemory) => {
            let first = First::refused(line.is_empty());
            let is_made = sender.send(flow, item, &mut line).is_ok();
            Ok(first.then(is_made && line.as_slice() == due))
        }
        Err(_) => Ok(Outcome::Wrong),
    }
}

/// `reset PROFILE`: the reset of a flow that has sent. Where it was refused memory, the sender goes on with a packet before it is made again, so that a context
/// that went would show.
pub(crate) fn resets(alloc: Global, accepted: &Accepted, sample: &Sample) -> Result<Outcome, Stop> {
    let due = second_packet(alloc, accepted, sample)?;
    let next = sample.next(alloc)?;
    let mut sender = begun(alloc, accepted, sample)?;
    reset_flow(alloc, &mut sender, &next, due.as_slice())
}

fn reset_flow(
    alloc: Global,
    sender: &mut Sender<'_>,
    item: &Item,
    due: &[u8],
) -> Result<Outcome, Stop> {
    let Some(flow) = Flow::new(FLOW) else {
        return Err(Stop::Row("no flow"));
    };
    let mut line = Vec::new(alloc);
    match sender.reset(flow, &mut line) {
        Ok(()) => Ok(First::Answered.then(line.as_slice() == [RESET].as_slice())),
        Err(PackFault::OutOfMemory) => {
            let is_empty = line.is_empty();
            let is_made = sender.send(flow, item, &mut line).is_ok();
            let first = First::refused(is_empty && is_made && line.as_slice() == due);
            line.clear();
            let is_made = sender.reset(flow, &mut line).is_ok();
            Ok(first.then(is_made && line.as_slice() == [RESET].as_slice()))
        }
        Err(_) => Ok(Outcome::Wrong),
    }
}

/// `feed PROFILE`: the octets of two packets of a flow. A receiver that was refused memory keeps the items before, and says so again.
pub(crate) fn feeds(alloc: Global, accepted: &Accepted, sample: &Sample) -> Result<Outcome, Stop> {
    let octets = two_packets(alloc, accepted, sample)?;
    let mut receiver = Receiver::new(alloc, accepted, LineVersion::One)?;
    feed(alloc, sample, &mut receiver, octets.as_slice())
}

fn two_packets(alloc: Global, accepted: &Accepted, sample: &Sample) -> Result<Vec<u8>, Stop> {
    let mut sender = Sender::new(alloc, accepted, LineVersion::One)?;
    let mut octets = sent(alloc, &mut sender, &sample.item(alloc)?)?;
    let more = sent(alloc, &mut sender, &sample.next(alloc)?)?;
    octets.extend_from_slice(more.as_slice())?;
    Ok(octets)
}

fn feed(
    alloc: Global,
    sample: &Sample,
    receiver: &mut Receiver<'_>,
    octets: &[u8],
) -> Result<Outcome, Stop> {
    let (item, next) = (sample.item(alloc)?, sample.next(alloc)?);
    let mut heard = Vec::new(alloc);
    match receiver.feed(octets, &mut heard) {
        Ok(()) => {
            let is_whole = heard.len() == 2 && receiver.finish().is_ok();
            Ok(First::Answered.then(is_whole && is_front(heard.as_slice(), &item, &next)))
        }
        Err(LineFault::OutOfMemory) => {
            if heard.len() > 1 || !is_front(heard.as_slice(), &item, &next) {
                return Ok(Outcome::Changed);
            }
            let count = heard.len();
            let again = receiver.feed(octets, &mut heard);
            Ok(repeated(again, receiver.finish(), heard.len() == count))
        }
        Err(_) => Ok(Outcome::Wrong),
    }
}

/// Whether what was heard is a front of the two items.
fn is_front(heard: &[(Flow, Item)], item: &Item, next: &Item) -> bool {
    match heard {
        [] => true,
        [(_, one)] => one.header == item.header,
        [(_, one), (_, two)] => one.header == item.header && two.header == next.header,
        _ => false,
    }
}

/// The outcome where a receiver was refused memory: what it answers then to octets and at the end, and whether its items stay.
fn repeated(again: Result<(), LineFault>, ended: Result<(), LineFault>, are_kept: bool) -> Outcome {
    if again == Err(LineFault::OutOfMemory) && ended == Err(LineFault::OutOfMemory) && are_kept {
        Outcome::Repeated
    } else {
        Outcome::WrongAgain
    }
}
