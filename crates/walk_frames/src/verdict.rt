//! The octets of one packet, judged in its flow's context.

ghost use Rattle.std.specs.Prelude.{◌≡◌, ◌↔◌, ◌<◌, ◌^◌, false, length, replicate, IsTrue, IfOk, IfSome, IfNone};
ghost use Rattle.sem_bits.specs.Octets.{bits_of, Holds};
ghost use Rattle.sem_bits.specs.Cursor.{Place, Advances};
ghost use Rattle.sem_filling.specs.Fillings as sides;
ghost use Rattle.walk_engine.specs.Reading.{Fitting};
ghost use Rattle.walk_frames.specs.Receiving as spec;
ghost use Rattle.walk_frames.specs.Reading.{IsTold};

use crate::given::{Given, PacketRefusal};
use cert_accepted::Accepted;
use sem_bits::{Bits, Cursor};
use sem_context::Context;
use sem_filling::{Item, advance};
use std::alloc::{AllocError, Global};
use walk_engine::{UnpackFault, Unpacked, item_of, unpack};
use walk_pages::{ReadPage, asked_of, goes_on, read_page};

/// What is given of the octets of a packet. The context goes on by the filling that is read, and else stays.
pub(crate) fn judge(
    alloc: Global,
    accepted: &Accepted,
    context: &mut Context,
    body: &[u8],
) -> Result<Given, AllocError>
    requires { length body.now < 2 ^ 15 }
    ensures { IfOk result (λ g. spec.Judges g accepted.now context.old context.new body.now) }
{
    let Some(bits) = Bits::from_octets(alloc, body, body.len() * 8)? else {
        unreachable!();
    };
    match read_by_page(alloc, accepted, context, body, &bits)? {
        Some(item) => Ok(Given::Item(item)),
        None => judge_read(alloc, accepted, context, body, &bits),
    }
}

/// The item of the packet, where its page is told at once and the context has the paths of its entries; the context then goes on.
fn read_by_page(
    alloc: Global,
    accepted: &Accepted,
    context: &mut Context,
    body: &[u8],
    bits: &Bits,
) -> Result<Option<Item>, AllocError>
    requires { Holds body.now bits.now × (bits.now ≡ bits_of body.now) }
    ensures some { IfOk result (λ o. IfSome o (spec.IsRead accepted.now context.old context.new body.now)) }
    ensures none { IfOk result (λ o. IfNone o (context.new ≡ context.old)) }
{
    let _ = body;
    if context.len() == 0 {
        return Ok(None);
    }
    let mut cursor = Cursor::new(bits);
    let Some(read) = read_page(alloc, accepted, context, &mut cursor, None)? else {
        return Ok(None);
    };
    if !is_padding(&cursor) {
        return Ok(None);
    }
    let ReadPage { header, page, .. } = read;
    let Some(asked) = asked_of(alloc, accepted, &page)? else {
        return Ok(None);
    };
    if !goes_on(alloc, accepted, context, &page)? {
        return Ok(None);
    }
    Ok(Some(Item { header, asked }))
}

/// What is given of the packet, by what `unpack` answers.
#[inline(never)]
fn judge_read(
    alloc: Global,
    accepted: &Accepted,
    context: &mut Context,
    body: &[u8],
    bits: &Bits,
) -> Result<Given, AllocError>
    requires { Holds body.now bits.now × (bits.now ≡ bits_of body.now) }
    ensures { IfOk result (λ g. spec.Judges g accepted.now context.old context.new body.now) }
{
    let mut cursor = Cursor::new(bits);
    match unpack(alloc, accepted, context, &mut cursor) {
        Ok(read) => take_read(alloc, accepted, context, body, bits, &cursor, read),
        Err(fault) => match fault {
            UnpackFault::Truncated => Ok(Given::Refused(PacketRefusal::Truncated)),
            UnpackFault::Refused(at) => Ok(Given::Refused(PacketRefusal::Refused(at))),
            UnpackFault::OutOfMemory => Err(AllocError),
        },
    }
}

/// What is given of the packet whose bits were read up to the cursor's place.
fn take_read(
    alloc: Global,
    accepted: &Accepted,
    context: &mut Context,
    body: &[u8],
    bits: &Bits,
    cursor: &Cursor<'_>,
    read: Unpacked,
) -> Result<Given, AllocError>
    requires held { Holds body.now bits.now × (bits.now ≡ bits_of body.now) }
    requires told { IsTold accepted.now context.old bits.now cursor.now read }
    ensures { IfOk result (λ g. spec.Judges g accepted.now context.old context.new body.now) }
{
    let _ = accepted;
    let _ = body;
    let _ = bits;
    if cursor.rest() >= 8 {
        return Ok(Given::Refused(PacketRefusal::Length));
    }
    if !is_padding(cursor) {
        return Ok(Given::Refused(PacketRefusal::Padding));
    }
    let Unpacked {
        header,
        filling,
        ..
    } = read;
    let item = item_of(alloc, &filling, header)?;
    advance(alloc, context, &filling)?;
    Ok(Given::Item(item))
}

/// Whether fewer than eight bits are left, and all are zero.
fn is_padding(cursor: &Cursor<'_>) -> bool
    ensures { IsTrue result ↔ ((length cursor.now.left < 8) × (cursor.now.left ≡ replicate (length cursor.now.left) false)) }
{
    cursor.rest() < 8 && is_zero(cursor)
}

/// Whether all bits that are left are zero.
fn is_zero(cursor: &Cursor<'_>) -> bool
    ensures { IsTrue result ↔ (cursor.now.left ≡ replicate (length cursor.now.left) false) }
{
    for i in 0..cursor.rest() {
        if cursor.at(i).unwrap_or(false) {
            return false;
        }
    }
    true
}
