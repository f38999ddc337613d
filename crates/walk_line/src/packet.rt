//! One packet of one flow, as its octets come.

ghost use Rattle.std.specs.Prelude.{◌≡◌, ◌↔◌, ◌<◌, ◌≤◌, ◌++◌, false, length, replicate, take, drop, IsTrue, IfOk, IfErr, IfSome, IfNone, OnOk};
ghost use Rattle.walk_line.specs.Hearing.{Found};
ghost use Rattle.walk_line.specs.Steps.{IsFresh, IsNew, IsTaken, IsTried, IsHeard, IsHeardWhole, BlamesPacket, BlamesBegun};
ghost use Rattle.walk_line.specs.Lines.{flow_limit};
ghost use Rattle.walk_line.specs.Pages.{AreKeptBy};
ghost use Rattle.walk_pages.specs.Kept.{IsKeptBy};

use crate::fault::LineFault;
use crate::flow::{Flow, Opening, start_of};
use crate::pages::{keep_page, take_page};
use crate::unfinished::Unfinished;
use cert_accepted::Accepted;
use sem_bits::{Bits, Cursor};
use sem_context::Context;
use sem_filling::{Item, advance};
use sem_pages::Page;
use std::alloc::{AllocError, Global};
use walk_engine::{UnpackFault, Unpacked, item_of, most_octets, unpack, unpack_drawn};
use walk_pages::{ReadPage, asked_of, goes_on_after, read_page};

/// How many octets are looked at ahead, at most: longer packets are tried octet by octet.
const AHEAD_LIMIT: usize = 1024;

/// Whether all bits that are left are zero.
fn is_zero(cursor: &Cursor<'_>) -> bool
    ensures { IsTrue result ↔ (cursor.now.left ≡ replicate (length cursor.now.left) false) }
{
    for i in 0..cursor.rest() {
        if cursor.at(i).unwrap_or(false) {
            return false;
        }
    }
    true
}

/// The item of the packet that these octets are, after its flow's, and the context then moves on; or `None` where more of them
/// are to come.
fn try_packet(
    alloc: Global,
    accepted: &Accepted,
    context: &mut Context,
    begun: &Unfinished,
) -> Result<Option<Item>, LineFault>
    requires { IsFresh accepted.now context.old (drop 1 begun.now) }
    ensures ok { IfOk result (IsTried accepted.now context.old context.new (drop 1 begun.now)) }
    ensures err { IfErr result (λ e. BlamesPacket e accepted.now context.old (drop 1 begun.now)) }
{
    let mut cursor = Cursor::new(begun.bits());
    match unpack(alloc, accepted, context, &mut cursor) {
        Ok(read) => {
            if !is_zero(&cursor) {
                return Err(LineFault::Padding);
            }
            let Unpacked {
                header,
                filling,
                ..
            } = read;
            let item = item_of(alloc, &filling, header)?;
            advance(alloc, context, &filling)?;
            Ok(Some(item))
        }
        Err(fault) => match fault {
            UnpackFault::Truncated => Ok(None),
            UnpackFault::Refused(_) => Err(LineFault::RefusedPacket),
            UnpackFault::OutOfMemory => Err(LineFault::OutOfMemory),
        },
    }
}

/// The item of the packet that begins these octets, after its flow's, and how many of them it is; and the context then moves on. None where that isn't told at
/// once, though there may be one.
fn whole_packet(
    alloc: Global,
    accepted: &Accepted,
    context: &mut Context,
    page: &mut Option<Page>,
    octets: &[u8],
) -> Result<Option<(Item, usize)>, AllocError>
    requires { IfSome page.old (IsKeptBy accepted.now context.old) }
    ensures kept { IfOk result (λ _. IfSome page.new (IsKeptBy accepted.now context.new)) }
    ensures some { IfOk result (λ o. IfSome o (λ whole. (whole.1 ≤ length octets.now) × IsTaken accepted.now context.old context.new (take whole.1 octets.now) whole.0)) }
    ensures none { IfOk result (λ o. IfNone o (context.new ≡ context.old)) }
{
    match packet_by_page(alloc, accepted, context, page, octets)? {
        Some(whole) => Ok(Some(whole)),
        None => {
            *page = None;
            packet_drawn(alloc, accepted, context, octets)
        }
    }
}

/// The same by a page, where the context has the paths of its entries. A flow's first packet finds none there.
fn packet_by_page(
    alloc: Global,
    accepted: &Accepted,
    context: &mut Context,
    page: &mut Option<Page>,
    octets: &[u8],
) -> Result<Option<(Item, usize)>, AllocError>
    requires { IfSome page.old (IsKeptBy accepted.now context.old) }
    ensures kept { IfOk result (λ _. IfSome page.new (IsKeptBy accepted.now context.new)) }
    ensures some { IfOk result (λ o. IfSome o (λ whole. (whole.1 ≤ length octets.now) × IsTaken accepted.now context.old context.new (take whole.1 octets.now) whole.0)) }
    ensures none { IfOk result (λ o. IfNone o (context.new ≡ context.old)) }
{
    let last = page.take();
    let known = last.is_some();
    if context.len() == 0 {
        return Ok(None);
    }
    let Some(bits) = Bits::from_octets(alloc, octets, octets.len().saturating_mul(8))? else {
        return Ok(None);
    };
    let mut cursor = Cursor::new(&bits);
    let Some(read) = read_page(alloc, accepted, context, &mut cursor, last)? else {
        return Ok(None);
    };
    let Some(over) = read.bits.checked_add(7) else {
        return Ok(None);
    };
    let count = over / 8;
    let Some(_own) = Bits::from_octets(alloc, &octets[..count], read.bits)? else {
        return Ok(None);
    };
    let ReadPage {
        header,
        page: own,
        ..
    } = read;
    let Some(asked) = asked_of(alloc, accepted, &own)? else {
        return Ok(None);
    };
    if !goes_on_after(alloc, accepted, context, &own, known)? {
        return Ok(None);
    }
    *page = Some(own);
    Ok(Some((Item { header, asked }, count)))
}

/// The same by a filling.
fn packet_drawn(
    alloc: Global,
    accepted: &Accepted,
    context: &mut Context,
    octets: &[u8],
) -> Result<Option<(Item, usize)>, AllocError>
    ensures some { IfOk result (λ o. IfSome o (λ whole. (whole.1 ≤ length octets.now) × IsTaken accepted.now context.old context.new (take whole.1 octets.now) whole.0)) }
    ensures none { IfOk result (λ o. IfNone o (context.new ≡ context.old)) }
{
    let Some(bits) = Bits::from_octets(alloc, octets, octets.len().saturating_mul(8))? else {
        return Ok(None);
    };
    let mut cursor = Cursor::new(&bits);
    let Some(read) = unpack_drawn(alloc, accepted, context, &mut cursor)? else {
        return Ok(None);
    };
    let Some(over) = read.bits.checked_add(7) else {
        return Ok(None);
    };
    let count = over / 8;
    let Some(_own) = Bits::from_octets(alloc, &octets[..count], read.bits)? else {
        return Ok(None);
    };
    let Unpacked {
        header,
        filling,
        ..
    } = read;
    let item = item_of(alloc, &filling, header)?;
    advance(alloc, context, &filling)?;
    Ok(Some((item, count)))
}

/// Hears the packet that begins these octets, its flow's first, where it is told at once: it is so many octets. None where it isn't; then nothing is heard.
pub(crate) fn hear_whole(
    alloc: Global,
    accepted: &Accepted,
    contexts: &mut Vec<Context>,
    pages: &mut Vec<Option<Page>>,
    octets: &[u8],
    out: &mut Vec<(Flow, Item)>,
) -> Result<Option<usize>, AllocError>
    requires some { 0 < length octets.now }
    requires flows { length contexts.old.items ≤ flow_limit }
    requires kept { AreKeptBy accepted.now contexts.old.items pages.old.items }
    ensures kept { AreKeptBy accepted.now contexts.new.items pages.new.items }
    ensures some { IfOk result (λ o. IfSome o (λ n. (found : Found) × (out.new.items ≡ out.old.items ++ found) × IsHeardWhole accepted.now contexts.old.items contexts.new.items octets.now n found)) }
    ensures none { IfOk result (λ o. IfNone o ((contexts.new.items ≡ contexts.old.items) × (out.new.items ≡ out.old.items))) }
    ensures flows { length contexts.new.items ≡ length contexts.old.items }
    ensures err { IfErr result (λ _. out.new.items ≡ out.old.items) }
{
    let Some(start) = start_of(contexts.len() as u8, octets[0]) else {
        return Ok(None);
    };
    let Opening::Packet(flow) = start else {
        return Ok(None);
    };
    let more = octets.len() - 1;
    let ahead = more.min(most_octets(accepted)).min(AHEAD_LIMIT);
    let place = usize::from(flow.number());
    let mut page = take_page(pages, place);
    let context = &mut contexts[place];
    let heard = whole_packet(alloc, accepted, context, &mut page, &octets[1..1 + ahead])?;
    keep_page(pages, place, page);
    match heard {
        Some(whole) => {
            out.push((flow, whole.0))?;
            Ok(Some(whole.1 + 1))
        }
        None => Ok(None),
    }
}

/// Hears the octets so far of a packet or reset, of which the last is new. What is left of them are those of a packet that is not whole.
pub(crate) fn hear(
    alloc: Global,
    accepted: &Accepted,
    contexts: &mut Vec<Context>,
    begun: &mut Unfinished,
    out: &mut Vec<(Flow, Item)>,
) -> Result<(), LineFault>
    requires some { 0 < length begun.old }
    requires new { IsNew accepted.now contexts.old.items begun.old }
    requires flows { length contexts.old.items ≤ flow_limit }
    ensures ok { OnOk result ((found : Found) × (out.new.items ≡ out.old.items ++ found) × IsHeard accepted.now contexts.old.items contexts.new.items begun.old begun.new found) }
    ensures flows { length contexts.new.items ≡ length contexts.old.items }
    ensures err { IfErr result (λ e. (out.new.items ≡ out.old.items) × BlamesBegun e accepted.now contexts.old.items begun.old) }
{
    let Some(start) = start_of(contexts.len() as u8, begun.first()) else {
        return Err(LineFault::FlowOctet);
    };
    match start {
        Opening::Packet(flow) => {
            let context = &mut contexts[usize::from(flow.number())];
            match try_packet(alloc, accepted, context, begun) {
                Ok(tried) => {
                    if let Some(item) = tried {
                        begun.clear(alloc);
                        out.push((flow, item))?;
                    }
                    Ok(())
                }
                Err(fault) => Err(fault),
            }
        }
        Opening::Reset(flow) => {
            contexts[usize::from(flow.number())] = Context::new(alloc);
            begun.clear(alloc);
            Ok(())
        }
    }
}
