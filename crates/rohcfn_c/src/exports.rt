//! What C calls.

ghost use Rattle.std.specs.Prelude.{◌≡◌};
ghost use Rattle.std.specs.declared.option.Option.TheVariants.{None};
ghost use Rattle.rohcfn_c.specs.CallAnswer.{code_of};
ghost use Rattle.rohcfn_c.specs.Opening.{Opens};
ghost use Rattle.rohcfn_c.specs.Calls as spec;

use crate::answer::CallAnswer;
use crate::handle::Handle;
use crate::opening::{ProfileTexts, open};
use crate::steps::{
    Counts, ItemOctets, PacketOctets, asked, contexts, most, pack, reset, robust, unpack, why,
};
use std::alloc::Global;

/// Opens a session of so many flows by the profile with this top, and its certificate; with no octets for that it is made. What the handle held is closed. `said`
/// is how many octets the line of a refusal has, of which as many are written as there is room for.
#[unsafe(no_mangle)]
pub extern "C" fn rohcfn_open(
    alloc: Global,
    top: &[u8],
    profile: &[u8],
    certificate: &[u8],
    flows: usize,
    handle: &mut Handle,
    line: &mut [u8],
    said: &mut usize,
) -> i32
    ensures { (told : CallAnswer) × (result ≡ code_of told) × Opens top.now profile.now certificate.now flows told handle.new.session line.old line.new said.new }
{
    let texts = ProfileTexts {
        top,
        profile,
        certificate,
    };
    let told = open(alloc, &texts, flows, handle, line, said);
    told.code()
}

/// Packs one item of a flow: a header, and the values of the asked fields.
#[unsafe(no_mangle)]
pub extern "C" fn rohcfn_pack(
    alloc: Global,
    handle: &mut Handle,
    flow: usize,
    header: &[u8],
    header_bits: usize,
    asked: &[u8],
    packed: &mut [u8],
    packed_bits: &mut usize,
) -> i32
    ensures { (told : CallAnswer) × (result ≡ code_of told) × spec.Packs flow header.now header_bits asked.now handle.old.session handle.new.session packed.old packed.new packed_bits.old packed_bits.new told }
{
    let item = ItemOctets {
        header,
        header_bits,
        asked,
    };
    let told = pack_told(alloc, handle, flow, &item, packed, packed_bits);
    told.code()
}

fn pack_told(
    alloc: Global,
    handle: &mut Handle,
    flow: usize,
    item: &ItemOctets<'_, '_>,
    packed: &mut [u8],
    packed_bits: &mut usize,
) -> CallAnswer
    ensures { spec.Packs flow item.now.header.now item.now.header_bits item.now.asked.now handle.old.session handle.new.session packed.old packed.new packed_bits.old packed_bits.new result }
{
    let Some(mut opened) = handle.take(alloc) else {
        return CallAnswer::Closed;
    };
    let told = pack(alloc, &mut opened, flow, item, packed, packed_bits);
    handle.put(opened);
    told
}

/// Unpacks one packet of a flow.
#[unsafe(no_mangle)]
pub extern "C" fn rohcfn_unpack(
    alloc: Global,
    handle: &mut Handle,
    flow: usize,
    packed: &[u8],
    packed_bits: usize,
    header: &mut [u8],
    asked: &mut [u8],
    counts: &mut Counts,
) -> i32
    ensures { (told : CallAnswer) × (result ≡ code_of told) × spec.Unpacks flow packed.now packed_bits handle.old.session handle.new.session header.old header.new asked.old asked.new counts.old counts.new told }
{
    let packet = PacketOctets {
        octets: packed,
        bits: packed_bits,
    };
    let told = unpack_told(alloc, handle, flow, &packet, header, asked, counts);
    told.code()
}

fn unpack_told(
    alloc: Global,
    handle: &mut Handle,
    flow: usize,
    packet: &PacketOctets<'_>,
    header: &mut [u8],
    asked: &mut [u8],
    counts: &mut Counts,
) -> CallAnswer
    ensures { spec.Unpacks flow packet.now.octets.now packet.now.bits handle.old.session handle.new.session header.old header.new asked.old asked.new counts.old counts.new result }
{
    let Some(mut opened) = handle.take(alloc) else {
        return CallAnswer::Closed;
    };
    let told = unpack(alloc, &mut opened, flow, packet, header, asked, counts);
    handle.put(opened);
    told
}

/// Both ends of a flow begin anew.
#[unsafe(no_mangle)]
pub extern "C" fn rohcfn_reset(alloc: Global, handle: &mut Handle, flow: usize) -> i32
    ensures { (told : CallAnswer) × (result ≡ code_of told) × spec.Resets flow handle.old.session handle.new.session told }
{
    let told = reset_told(alloc, handle, flow);
    told.code()
}

fn reset_told(alloc: Global, handle: &mut Handle, flow: usize) -> CallAnswer
    ensures { spec.Resets flow handle.old.session handle.new.session result }
{
    let Some(mut opened) = handle.take(alloc) else {
        return CallAnswer::Closed;
    };
    let told = reset(alloc, &mut opened, flow);
    handle.put(opened);
    told
}

/// From here on so many packets of a flow may be lost in a row.
#[unsafe(no_mangle)]
pub extern "C" fn rohcfn_robust(alloc: Global, handle: &mut Handle, flow: usize, lost: u8) -> i32
    ensures { (told : CallAnswer) × (result ≡ code_of told) × spec.Endures flow lost handle.old.session handle.new.session told }
{
    let told = robust_told(alloc, handle, flow, lost);
    told.code()
}

fn robust_told(alloc: Global, handle: &mut Handle, flow: usize, lost: u8) -> CallAnswer
    ensures { spec.Endures flow lost handle.old.session handle.new.session result }
{
    let Some(mut opened) = handle.take(alloc) else {
        return CallAnswer::Closed;
    };
    let told = robust(alloc, &mut opened, flow, lost);
    handle.put(opened);
    told
}

/// How many contexts a receiver of a flow may hold.
#[unsafe(no_mangle)]
pub extern "C" fn rohcfn_contexts(
    alloc: Global,
    handle: &mut Handle,
    flow: usize,
    count: &mut usize,
) -> i32
    ensures { (told : CallAnswer) × (result ≡ code_of told) × (handle.new.session ≡ handle.old.session) × spec.CountsHeld flow handle.old.session count.old count.new told }
{
    let told = contexts_told(alloc, handle, flow, count);
    told.code()
}

fn contexts_told(alloc: Global, handle: &mut Handle, flow: usize, count: &mut usize) -> CallAnswer
    ensures stays { handle.new.session ≡ handle.old.session }
    ensures told { spec.CountsHeld flow handle.old.session count.old count.new result }
{
    let Some(opened) = handle.take(alloc) else {
        return CallAnswer::Closed;
    };
    let told = contexts(&opened, flow, count);
    handle.put(opened);
    told
}

/// The most bits of a header and of a packet of the profile.
#[unsafe(no_mangle)]
pub extern "C" fn rohcfn_most(
    alloc: Global,
    handle: &mut Handle,
    header: &mut usize,
    packet: &mut usize,
) -> i32
    ensures { (told : CallAnswer) × (result ≡ code_of told) × (handle.new.session ≡ handle.old.session) × spec.TellsMost handle.old.session header.new packet.new told }
{
    let told = most_told(alloc, handle, header, packet);
    told.code()
}

fn most_told(
    alloc: Global,
    handle: &mut Handle,
    header: &mut usize,
    packet: &mut usize,
) -> CallAnswer
    ensures stays { handle.new.session ≡ handle.old.session }
    ensures told { spec.TellsMost handle.old.session header.new packet.new result }
{
    let Some(opened) = handle.take(alloc) else {
        return CallAnswer::Closed;
    };
    most(&opened, header, packet);
    handle.put(opened);
    CallAnswer::Done
}

/// The name of an asked field, by its place among them, and how many bits its values have.
#[unsafe(no_mangle)]
pub extern "C" fn rohcfn_asked(
    alloc: Global,
    handle: &mut Handle,
    index: usize,
    name: &mut [u8],
    said: &mut usize,
    bits: &mut usize,
) -> i32
    ensures { (told : CallAnswer) × (result ≡ code_of told) × (handle.new.session ≡ handle.old.session) × spec.TellsAsked index handle.old.session name.old name.new said.old said.new bits.old bits.new told }
{
    let told = asked_told(alloc, handle, index, name, said, bits);
    told.code()
}

fn asked_told(
    alloc: Global,
    handle: &mut Handle,
    index: usize,
    name: &mut [u8],
    said: &mut usize,
    bits: &mut usize,
) -> CallAnswer
    ensures stays { handle.new.session ≡ handle.old.session }
    ensures told { spec.TellsAsked index handle.old.session name.old name.new said.old said.new bits.old bits.new result }
{
    let Some(opened) = handle.take(alloc) else {
        return CallAnswer::Closed;
    };
    let told = asked(&opened, index, name, said, bits);
    handle.put(opened);
    told
}

/// The line of the last refusal, as the program prints it after `item 1: ` or `packet 1: `.
#[unsafe(no_mangle)]
pub extern "C" fn rohcfn_why(
    alloc: Global,
    handle: &mut Handle,
    line: &mut [u8],
    said: &mut usize,
) -> i32
    ensures { (told : CallAnswer) × (result ≡ code_of told) × (handle.new.session ≡ handle.old.session) × spec.TellsWhy handle.old.session line.old line.new said.new told }
{
    let told = why_told(alloc, handle, line, said);
    told.code()
}

fn why_told(alloc: Global, handle: &mut Handle, line: &mut [u8], said: &mut usize) -> CallAnswer
    ensures stays { handle.new.session ≡ handle.old.session }
    ensures told { spec.TellsWhy handle.old.session line.old line.new said.new result }
{
    let Some(opened) = handle.take(alloc) else {
        return CallAnswer::Closed;
    };
    let told = match why(alloc, &opened, line, said) {
        Ok(()) => CallAnswer::Done,
        Err(_) => CallAnswer::NoMemory,
    };
    handle.put(opened);
    told
}

/// Closes the session, if there is one.
#[unsafe(no_mangle)]
pub extern "C" fn rohcfn_close(alloc: Global, handle: &mut Handle)
    ensures { handle.new.session ≡ None }
{
    drop(handle.take(alloc));
}
