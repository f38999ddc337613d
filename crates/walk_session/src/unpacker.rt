//! From the octets of a packet to those of its item.

ghost use Rattle.std.specs.Prelude.{◌≡◌, ℕ, List, IfOk, IfErr, IfSome, IfNone, OnErr, length};
ghost use Rattle.walk_pages.specs.Kept.{IsKeptBy};
ghost use Rattle.walk_session.specs.Octets.{IsOf};
ghost use Rattle.walk_session.specs.Unpacker as spec;

use crate::asked::octets_of;
use crate::octets::{has_room, put, write_bits};
use crate::refusal::UnpackRefusal;
use cert_accepted::Accepted;
use sem_bits::{Bits, Cursor};
use sem_context::Context;
use sem_filling::advance;
use sem_pages::Page;
use std::alloc::{AllocError, Global};
use walk_engine::{UnpackFault, Unpacked, item_of, unpack};
use walk_pages::{ReadPage, asked_of, goes_on_after, read_page};

/// How much was written of an item, and how many bits its packet took.
#[derive(Clone, Copy)]
pub struct Taken {
    pub header_bits: usize,
    /// How many octets the values of the asked fields are.
    pub asked_octets: usize,
    pub bits: usize,
}

/// Unpacks the packet at the front of bits, writes its header and the values of its asked fields to the starts of the rooms, and goes on. A refusal changes nothing.
/// What is read by a page goes by the last one, where one is kept, and leaves it for the next.
pub(crate) fn receive(
    alloc: Global,
    accepted: &Accepted,
    context: &mut Context,
    page: &mut Option<Page>,
    packed: &[u8],
    packed_bits: usize,
    header: &mut [u8],
    asked: &mut [u8],
) -> Result<Taken, UnpackRefusal>
    requires { IfSome page.old (IsKeptBy accepted.now context.old) }
    ensures kept { IfSome page.new (IsKeptBy accepted.now context.new) }
    ensures ok { IfOk result (spec.IsReceived accepted.now context.old context.new packed.now packed_bits header.old header.new asked.old asked.new) }
    ensures stays { OnErr result ((context.new ≡ context.old) × (header.new ≡ header.old) × (asked.new ≡ asked.old)) }
    ensures fault { IfErr result (λ e. spec.BlamesReceive e accepted.now context.old packed.now packed_bits (length header.old) (length asked.old)) }
{
    let Some(bits) = Bits::from_octets(alloc, packed, packed_bits)? else {
        return Err(UnpackRefusal::BadBits);
    };
    match received_at_once(alloc, accepted, context, page, &bits, header, asked)? {
        Some(taken) => Ok(taken),
        None => {
            *page = None;
            received_walked(alloc, accepted, context, &bits, header, asked)
        }
    }
}

/// The same of the bits of a packet whose page is told at once, where the context has the paths of its entries and the rooms are long enough. Else nothing
/// changes.
fn received_at_once(
    alloc: Global,
    accepted: &Accepted,
    context: &mut Context,
    page: &mut Option<Page>,
    bits: &Bits,
    header: &mut [u8],
    asked: &mut [u8],
) -> Result<Option<Taken>, AllocError>
    requires { IfSome page.old (IsKeptBy accepted.now context.old) }
    ensures kept { IfSome page.new (IsKeptBy accepted.now context.new) }
    ensures some { IfOk result (λ o. IfSome o (λ taken. (packed : List ℕ) (count : ℕ) → IsOf packed count bits.now → spec.IsReceived accepted.now context.old context.new packed count header.old header.new asked.old asked.new taken)) }
    ensures none { IfOk result (λ o. IfNone o ((context.new ≡ context.old) × (header.new ≡ header.old) × (asked.new ≡ asked.old))) }
    ensures stays { OnErr result ((context.new ≡ context.old) × (header.new ≡ header.old) × (asked.new ≡ asked.old)) }
{
    let last = page.take();
    let known = last.is_some();
    let mut cursor = Cursor::new(bits);
    let Some(read) = read_page(alloc, accepted, context, &mut cursor, last)? else {
        return Ok(None);
    };
    let ReadPage {
        header: found,
        page: own,
        bits: count,
    } = read;
    let Some(given) = asked_of(alloc, accepted, &own)? else {
        return Ok(None);
    };
    let values = octets_of(alloc, given.as_slice())?;
    if !has_room(found.len(), header) || values.len() > asked.len() {
        return Ok(None);
    }
    if !goes_on_after(alloc, accepted, context, &own, known)? {
        return Ok(None);
    }
    *page = Some(own);
    write_bits(&found, header);
    put(values.as_slice(), asked);
    Ok(Some(Taken {
        header_bits: found.len(),
        asked_octets: values.len(),
        bits: count,
    }))
}

/// The same by what `unpack` answers.
#[inline(never)]
fn received_walked(
    alloc: Global,
    accepted: &Accepted,
    context: &mut Context,
    bits: &Bits,
    header: &mut [u8],
    asked: &mut [u8],
) -> Result<Taken, UnpackRefusal>
    ensures ok { IfOk result (λ taken. (packed : List ℕ) (count : ℕ) → IsOf packed count bits.now → spec.IsReceived accepted.now context.old context.new packed count header.old header.new asked.old asked.new taken) }
    ensures stays { OnErr result ((context.new ≡ context.old) × (header.new ≡ header.old) × (asked.new ≡ asked.old)) }
    ensures fault { IfErr result (λ e. (packed : List ℕ) (count : ℕ) → IsOf packed count bits.now → spec.BlamesReceive e accepted.now context.old packed count (length header.old) (length asked.old)) }
{
    let mut cursor = Cursor::new(bits);
    match unpack(alloc, accepted, context, &mut cursor) {
        Ok(
            Unpacked {
                header: found,
                filling,
                bits: count,
            },
        ) => {
            let item = item_of(alloc, &filling, found)?;
            let values = octets_of(alloc, item.asked.as_slice())?;
            let taken = Taken {
                header_bits: item.header.len(),
                asked_octets: values.len(),
                bits: count,
            };
            if !has_room(taken.header_bits, header) {
                return Err(UnpackRefusal::NoRoom(taken));
            }
            if taken.asked_octets > asked.len() {
                return Err(UnpackRefusal::NoRoom(taken));
            }
            advance(alloc, context, &filling)?;
            write_bits(&item.header, header);
            put(values.as_slice(), asked);
            Ok(taken)
        }
        Err(fault) => Err(refusal_of(fault)),
    }
}

/// What is told for a fault of `unpack`.
fn refusal_of(fault: UnpackFault) -> UnpackRefusal
    ensures { result ≡ spec.refusal_of fault }
{
    match fault {
        UnpackFault::Truncated => UnpackRefusal::Truncated,
        UnpackFault::Refused(blamed) => UnpackRefusal::Refused(blamed),
        UnpackFault::OutOfMemory => UnpackRefusal::OutOfMemory,
    }
}
