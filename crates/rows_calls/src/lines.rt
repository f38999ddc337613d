//! Rows on flows and on what is heard of octets, however they are cut. Octets are written as bits, eight each.

use crate::words::{bits, put_bits};
use anyhow::{Result, ensure};
use cert_accepted::Accepted;
use sem_filling::Item;
use std::alloc::Global;
use std::fmt::Write;
use walk_line::{Flow, LineFault, LineVersion, Receiver};

/// `flow NUMBER`: the number of the flow, or `none`.
pub(crate) fn flow(out: &mut String, rest: &str) -> Result<()> {
    match Flow::new(rest.parse::<u8>()?) {
        Some(flow) => Ok(write!(out, "{}", flow.number())?),
        None => Ok(out.push_str("none")?),
    }
}

/// `pieces OCTETS OCTETS ..`, and of the line of 64 flows `wide OCTETS OCTETS ..`: what each piece is answered, and then `finish`; at the end the items.
pub(crate) fn pieces(
    alloc: Global,
    out: &mut String,
    accepted: &Accepted,
    version: LineVersion,
    rest: &str,
) -> Result<()> {
    let mut receiver = Receiver::new(alloc, accepted, version)?;
    let mut items = Vec::new(alloc);
    for word in rest.split(' ') {
        let piece = octets(alloc, word)?;
        put_answer(out, receiver.feed(piece.as_slice(), &mut items))?;
    }
    put_answer(out, receiver.finish())?;
    put_heard(alloc, out, items.as_slice(), None)
}

fn octets(alloc: Global, word: &str) -> Result<Vec<u8>> {
    Ok(bits(alloc, word)?.to_octets(alloc)?)
}

fn put_answer(out: &mut String, answer: Result<(), LineFault>) -> Result<()> {
    match answer {
        Ok(()) => Ok(out.push_str("ok, ")?),
        Err(fault) => Ok(write!(out, "{fault}, ")?),
    }
}

/// Says items with their flows, each after ` / `, and then the fault.
fn put_heard(
    alloc: Global,
    out: &mut String,
    items: &[(Flow, Item)],
    fault: Option<LineFault>,
) -> Result<()> {
    write!(out, "{} items", items.len())?;
    for (flow, item) in items {
        write!(out, " / {} ", flow.number())?;
        put_bits(alloc, out, &item.header)?;
    }
    match fault {
        Some(fault) => Ok(write!(out, " / line: {fault}")?),
        None => Ok(()),
    }
}

/// `cuttings OCTETS`: of how many cuttings into pieces, and of how many of them the same is heard as of all octets at once.
pub(crate) fn cuttings(
    alloc: Global,
    out: &mut String,
    accepted: &Accepted,
    rest: &str,
) -> Result<()> {
    let octets = octets(alloc, rest)?;
    ensure!(octets.len() <= 12, "too many octets");
    let whole = heard(alloc, accepted, octets.as_slice(), 0)?;
    let mut count = 0_u32;
    let mut same = 0_u32;
    for cuts in 0..4096_u32 {
        if needs(octets.len(), cuts) {
            count = count.saturating_add(1);
            if heard(alloc, accepted, octets.as_slice(), cuts)?.as_str() == whole.as_str() {
                same = same.saturating_add(1);
            }
        }
    }
    Ok(write!(out, "{count} cuttings, {same} the same: {whole}")?)
}

/// Whether the cuts all stand before the last of so many octets.
fn needs(len: usize, cuts: u32) -> bool {
    let mut left = cuts;
    for _ in 1..len {
        left /= 2;
    }
    left == 0
}

/// What is heard where a piece ends after each octet whose bit is one in `cuts`, the first octet's lowest.
fn heard(alloc: Global, accepted: &Accepted, octets: &[u8], cuts: u32) -> Result<String> {
    let mut items = Vec::new(alloc);
    let mut receiver = Receiver::new(alloc, accepted, LineVersion::One)?;
    let fault = fault_of(alloc, &mut receiver, octets, cuts, &mut items)?;
    let mut out = String::new(alloc);
    put_heard(alloc, &mut out, items.as_slice(), fault)?;
    Ok(out)
}

/// Feeds the pieces, up to the first fault.
fn fault_of(
    alloc: Global,
    receiver: &mut Receiver<'_>,
    octets: &[u8],
    cuts: u32,
    items: &mut Vec<(Flow, Item)>,
) -> Result<Option<LineFault>> {
    let mut piece = Vec::new(alloc);
    let mut left = cuts;
    for octet in octets {
        piece.push(*octet)?;
        if left % 2 == 1 {
            if let Err(fault) = receiver.feed(piece.as_slice(), items) {
                return Ok(Some(fault));
            }
            piece.clear();
        }
        left /= 2;
    }
    match receiver.feed(piece.as_slice(), items) {
        Ok(()) => Ok(receiver.finish().err()),
        Err(fault) => Ok(Some(fault)),
    }
}
