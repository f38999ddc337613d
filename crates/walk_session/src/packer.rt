//! From the octets of an item to those of its packet.

ghost use Rattle.std.specs.Prelude.{◌≡◌, IfOk, IfErr, IfSome, OnErr, length};
ghost use Rattle.walk_pages.specs.Kept.{IsKeptBy};
ghost use Rattle.walk_session.specs.Packer as spec;
ghost use Rattle.walk_session.specs.Pages.{IsKeptAt};

use crate::asked::values_of;
use crate::ends::Sending;
use crate::most::most_packet;
use crate::octets::{has_room, write_bits};
use crate::pages::Last;
use crate::refusal::PackRefusal;
use cert_accepted::Accepted;
use sem_bits::Bits;
use sem_context::Context;
use sem_filling::{Item, advance};
use sem_profile::AskedField;
use std::alloc::Global;
use walk_engine::{PackFault, Packed, Sent, pack, pack_page};
use walk_pages::{WrittenPage, goes_on_after};
use walk_robust::{Robust, RobustFault};

/// The item of a header and of the values of the asked fields, in octets.
pub(crate) fn item_of(
    alloc: Global,
    fields: &[AskedField],
    header: &[u8],
    header_bits: usize,
    asked: &[u8],
) -> Result<Item, PackRefusal>
    ensures ok { IfOk result (spec.IsGiven fields.now header.now header_bits asked.now) }
    ensures fault { IfErr result (λ e. spec.BlamesGiven e fields.now header.now header_bits asked.now) }
{
    let Some(header) = Bits::from_octets(alloc, header, header_bits)? else {
        return Err(PackRefusal::BadBits);
    };
    let Some(asked) = values_of(alloc, fields, asked)? else {
        return Err(PackRefusal::Asked);
    };
    Ok(Item { header, asked })
}

/// Packs an item, writes its packet to the start of the room, and goes on. A refusal changes neither. How many bits the packet has. Where a page is packed, it is the
/// last one then.
pub(crate) fn send(
    alloc: Global,
    accepted: &Accepted,
    sending: &mut Sending,
    item: &Item,
    last: &mut Last,
    room: &mut [u8],
) -> Result<usize, PackRefusal>
    requires { IfSome last.old.page (IsKeptAt accepted.now sending.old) }
    ensures kept { IfSome last.new.page (IsKeptAt accepted.now sending.new) }
    ensures ok { IfOk result (spec.IsSent accepted.now sending.old sending.new item.now room.old room.new) }
    ensures stays { OnErr result ((sending.new ≡ sending.old) × (room.new ≡ room.old)) }
    ensures fault { IfErr result (λ e. spec.BlamesSend e accepted.now sending.old item.now (length room.old)) }
{
    match sending {
        Sending::Plain(context) => send_plain(alloc, accepted, context, item, last, room),
        Sending::Robust(robust) => {
            last.page = None;
            send_robust(alloc, accepted, robust, item, room)
        }
    }
}

/// The same in one context.
fn send_plain(
    alloc: Global,
    accepted: &Accepted,
    context: &mut Context,
    item: &Item,
    last: &mut Last,
    room: &mut [u8],
) -> Result<usize, PackRefusal>
    requires { IfSome last.old.page (IsKeptBy accepted.now context.old) }
    ensures kept { IfSome last.new.page (IsKeptBy accepted.now context.new) }
    ensures ok { IfOk result (spec.IsSentPlain accepted.now context.old context.new item.now room.old room.new) }
    ensures stays { OnErr result ((context.new ≡ context.old) × (room.new ≡ room.old)) }
    ensures fault { IfErr result (λ e. spec.BlamesPlain e accepted.now context.old item.now (length room.old)) }
{
    let page = last.page.take();
    let known = page.is_some();
    // In an empty context no page tells what is left in it.
    if context.len() == 0 {
        return send_best(alloc, accepted, context, item, room);
    }
    match pack_page(alloc, accepted, context, item, last.format, page) {
        Ok(Sent::Page(written)) => {
            if !has_room(written.packed.len(), room) {
                return Err(PackRefusal::NoRoom(written.packed.len()));
            }
            if !goes_on_after(alloc, accepted, context, &written.page, known)? {
                return send_best(alloc, accepted, context, item, room);
            }
            write_bits(&written.packed, room);
            let count = written.packed.len();
            let WrittenPage { page, .. } = written;
            last.format = Some(page.format);
            last.page = Some(page);
            Ok(count)
        }
        Ok(Sent::Filling(found)) => put(alloc, context, &found, room),
        Err(fault) => Err(refusal_of(fault)),
    }
}

/// The same by a filling.
fn send_best(
    alloc: Global,
    accepted: &Accepted,
    context: &mut Context,
    item: &Item,
    room: &mut [u8],
) -> Result<usize, PackRefusal>
    ensures ok { IfOk result (spec.IsSentPlain accepted.now context.old context.new item.now room.old room.new) }
    ensures stays { OnErr result ((context.new ≡ context.old) × (room.new ≡ room.old)) }
    ensures fault { IfErr result (λ e. spec.BlamesPlain e accepted.now context.old item.now (length room.old)) }
{
    match pack(alloc, accepted, context, item) {
        Ok(found) => put(alloc, context, &found, room),
        Err(fault) => Err(refusal_of(fault)),
    }
}

/// Writes what was packed to the start of the room, and goes on. A refusal changes neither. How many bits the packet has.
fn put(
    alloc: Global,
    context: &mut Context,
    found: &Packed,
    room: &mut [u8],
) -> Result<usize, PackRefusal>
    ensures ok { IfOk result (spec.IsSentAs context.old context.new found.now room.old room.new) }
    ensures stays { OnErr result ((context.new ≡ context.old) × (room.new ≡ room.old)) }
    ensures fault { IfErr result (λ e. spec.BlamesRoom e found.now (length room.old)) }
{
    if !has_room(found.packed.len(), room) {
        return Err(PackRefusal::NoRoom(found.packed.len()));
    }
    advance(alloc, context, &found.filling)?;
    write_bits(&found.packed, room);
    Ok(found.packed.len())
}

/// The same for all that a receiver may hold. Room is wanted for any packet of the profile.
fn send_robust(
    alloc: Global,
    accepted: &Accepted,
    robust: &mut Robust,
    item: &Item,
    room: &mut [u8],
) -> Result<usize, PackRefusal>
    ensures ok { IfOk result (spec.IsSentRobust accepted.now robust.old robust.new item.now room.old room.new) }
    ensures stays { OnErr result ((robust.new ≡ robust.old) × (room.new ≡ room.old)) }
    ensures fault { IfErr result (λ e. spec.BlamesRobust e accepted.now robust.old item.now (length room.old)) }
{
    let most = most_packet(accepted);
    if !has_room(most, room) {
        return Err(PackRefusal::NoRoom(most));
    }
    match robust.pack(alloc, accepted, item) {
        Ok(Packed { packed, .. }) => {
            write_bits(&packed, room);
            Ok(packed.len())
        }
        Err(fault) => Err(robust_refusal_of(fault)),
    }
}

/// What is told for a fault of `pack`.
fn refusal_of(fault: PackFault) -> PackRefusal
    ensures { result ≡ spec.refusal_of fault }
{
    match fault {
        PackFault::HeaderLength => PackRefusal::HeaderLength,
        PackFault::Asked(_) => PackRefusal::Asked,
        PackFault::NoFormat => PackRefusal::NoFormat,
        PackFault::Flow => PackRefusal::Flow,
        PackFault::OutOfMemory => PackRefusal::OutOfMemory,
    }
}

/// What is told for a fault of the robust sender.
fn robust_refusal_of(fault: RobustFault) -> PackRefusal
    ensures { result ≡ spec.robust_refusal_of fault }
{
    match fault {
        RobustFault::Pack(fault) => refusal_of(fault),
        RobustFault::NoReach => PackRefusal::NoReach,
        RobustFault::Contexts => PackRefusal::Contexts,
    }
}
