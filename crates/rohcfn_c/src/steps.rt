//! The steps of an open session.

ghost use Rattle.std.specs.Prelude.{◌≡◌};
ghost use Rattle.rohcfn_c.specs.Steps as spec;

use crate::answer::CallAnswer;
use crate::line::{cut, why_text};
use crate::opened::{Last, Opened};
use sem_profile::AskedField;
use std::alloc::{AllocError, Global};
use walk_session::most::{most_header, most_packet};
use walk_session::{PackRefusal, Taken, UnpackRefusal};

/// An item as octets: its header, of so many bits, and the values of its asked fields.
#[derive(Clone, Copy)]
pub(crate) struct ItemOctets<'a, 'b> {
    pub(crate) header: &'a [u8],
    pub(crate) header_bits: usize,
    pub(crate) asked: &'b [u8],
}

/// Bits as octets, with a packet at their front.
#[derive(Clone, Copy)]
pub(crate) struct PacketOctets<'a> {
    pub(crate) octets: &'a [u8],
    pub(crate) bits: usize,
}

/// Packs one item of a flow.
pub(crate) fn pack(
    alloc: Global,
    opened: &mut Opened,
    flow: usize,
    item: &ItemOctets<'_, '_>,
    packed: &mut [u8],
    packed_bits: &mut usize,
) -> CallAnswer
    ensures { spec.PackTold opened.old opened.new flow item.now.header.now item.now.header_bits item.now.asked.now packed.old packed.new packed_bits.old packed_bits.new result }
{
    match opened.session.pack(
        alloc,
        flow,
        item.header,
        item.header_bits,
        item.asked,
        packed,
    ) {
        Ok(bits) => {
            *packed_bits = bits;
            CallAnswer::Done
        }
        Err(refusal) => {
            *packed_bits = bits_of(refusal, *packed_bits);
            opened.last = Last::Pack(refusal);
            CallAnswer::of_pack(refusal)
        }
    }
}

/// How many bits a packet has for which there is no room, or else what was told before.
fn bits_of(refusal: PackRefusal, before: usize) -> usize
    ensures { result ≡ spec.bits_of refusal before }
{
    match refusal {
        PackRefusal::NoRoom(bits) => bits,
        PackRefusal::OutOfMemory => before,
        PackRefusal::Flow => before,
        PackRefusal::BadBits => before,
        PackRefusal::Asked => before,
        PackRefusal::HeaderLength => before,
        PackRefusal::NoFormat => before,
        PackRefusal::NoReach => before,
        PackRefusal::Contexts => before,
    }
}

/// How much an item is, and how many bits its packet took. C reads it as three counts.
#[repr(C)]
#[derive(Clone, Copy)]
pub struct Counts {
    pub header_bits: usize,
    pub asked_octets: usize,
    pub taken_bits: usize,
}

/// Unpacks one packet of a flow.
pub(crate) fn unpack(
    alloc: Global,
    opened: &mut Opened,
    flow: usize,
    packet: &PacketOctets<'_>,
    header: &mut [u8],
    asked: &mut [u8],
    counts: &mut Counts,
) -> CallAnswer
    ensures { spec.UnpackTold opened.old opened.new flow packet.now.octets.now packet.now.bits header.old header.new asked.old asked.new counts.old counts.new result }
{
    match opened
        .session
        .unpack(alloc, flow, packet.octets, packet.bits, header, asked)
    {
        Ok(taken) => {
            *counts = counts_of(taken);
            CallAnswer::Done
        }
        Err(refusal) => {
            *counts = counts_told(refusal, *counts);
            opened.last = Last::Unpack(refusal);
            CallAnswer::of_unpack(refusal)
        }
    }
}

fn counts_of(taken: Taken) -> Counts
    ensures { result ≡ spec.counts_of taken }
{
    Counts {
        header_bits: taken.header_bits,
        asked_octets: taken.asked_octets,
        taken_bits: taken.bits,
    }
}

/// The counts of an item for which there is no room, or else those that were told before.
fn counts_told(refusal: UnpackRefusal, before: Counts) -> Counts
    ensures { result ≡ spec.counts_told refusal before }
{
    match refusal {
        UnpackRefusal::NoRoom(taken) => counts_of(taken),
        UnpackRefusal::OutOfMemory => before,
        UnpackRefusal::Flow => before,
        UnpackRefusal::BadBits => before,
        UnpackRefusal::Truncated => before,
        UnpackRefusal::Refused(_) => before,
    }
}

/// Both ends of a flow begin anew.
pub(crate) fn reset(alloc: Global, opened: &mut Opened, flow: usize) -> CallAnswer
    ensures { spec.ResetTold opened.old opened.new flow result }
{
    if opened.session.reset(alloc, flow) {
        CallAnswer::Done
    } else {
        CallAnswer::NoSuch
    }
}

/// From here on so many packets of a flow may be lost in a row.
pub(crate) fn robust(alloc: Global, opened: &mut Opened, flow: usize, lost: u8) -> CallAnswer
    ensures { spec.RobustTold opened.old opened.new flow lost result }
{
    match opened.session.endure(alloc, flow, lost) {
        Ok(true) => CallAnswer::Done,
        Ok(false) => CallAnswer::NoSuch,
        Err(_) => CallAnswer::NoMemory,
    }
}

/// How many contexts a receiver of a flow may hold.
pub(crate) fn contexts(opened: &Opened, flow: usize, count: &mut usize) -> CallAnswer
    ensures { spec.ContextsTold opened.now flow count.old count.new result }
{
    match opened.session.held(flow) {
        Some(held) => {
            *count = held;
            CallAnswer::Done
        }
        None => CallAnswer::NoSuch,
    }
}

/// The most bits of a header and of a packet.
pub(crate) fn most(opened: &Opened, header: &mut usize, packet: &mut usize)
    ensures { spec.AreMost opened.now header.new packet.new }
{
    *header = most_header(opened.session.accepted());
    *packet = most_packet(opened.session.accepted());
}

/// The name of an asked field, by its place among them, and how many bits its values have.
pub(crate) fn asked(
    opened: &Opened,
    index: usize,
    name: &mut [u8],
    said: &mut usize,
    bits: &mut usize,
) -> CallAnswer
    ensures { spec.AskedTold opened.now index name.old name.new said.old said.new bits.old bits.new result }
{
    match opened.session.accepted().profile().asked().get(index) {
        Some(field) => {
            cut(field.name.as_str().as_bytes(), name, said);
            *bits = length_of(field);
            CallAnswer::Done
        }
        None => CallAnswer::NoSuch,
    }
}

/// How many bits the values of an asked field have; 0 where no value can have its length.
fn length_of(field: &AskedField) -> usize
    ensures { spec.IsLengthOf field.now result }
{
    if field.length >= 0 && field.length < 2_147_483_648 {
        field.length as usize
    } else {
        0
    }
}

/// The line of the last refusal.
pub(crate) fn why(
    alloc: Global,
    opened: &Opened,
    line: &mut [u8],
    said: &mut usize,
) -> Result<(), AllocError>
    ensures { spec.SaysWhy opened.now line.old line.new said.old said.new result }
{
    let methods = opened.session.accepted().profile().methods();
    let text = why_text(alloc, methods, opened.last)?;
    cut(text.as_str().as_bytes(), line, said);
    Ok(())
}
