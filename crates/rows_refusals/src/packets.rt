//! Rows on packets.

use crate::outcome::{First, Outcome};
use crate::samples::Sample;
use crate::stop::Stop;
use cert_accepted::Accepted;
use sem_bits::{Bits, Cursor};
use sem_context::Context;
use sem_filling::Item;
use std::alloc::Global;
use walk_engine::{PackFault, Packed, UnpackFault, Unpacked, pack, unpack};

/// `pack PROFILE`: the packet of the item.
pub(crate) fn packs(alloc: Global, accepted: &Accepted, sample: &Sample) -> Result<Outcome, Stop> {
    let context = sample.context(alloc)?;
    packed_in(alloc, accepted, &context, &sample.item(alloc)?)
}

fn packed_in(
    alloc: Global,
    accepted: &Accepted,
    context: &Context,
    item: &Item,
) -> Result<Outcome, Stop> {
    let due = packed(alloc, accepted, context, item)?;
    match packed(alloc, accepted, context, item) {
        Ok(found) => Ok(First::Answered.then(found == due)),
        Err(PackFault::OutOfMemory) => match packed(alloc, accepted, context, item) {
            Ok(found) => Ok(First::Kept.then(found == due)),
            Err(_) => Ok(First::Kept.then(false)),
        },
        Err(_) => Ok(Outcome::Wrong),
    }
}

/// The packed bits alone.
fn packed(
    alloc: Global,
    accepted: &Accepted,
    context: &Context,
    item: &Item,
) -> Result<Bits, PackFault> {
    let Packed { packed, .. } = pack(alloc, accepted, context, item)?;
    Ok(packed)
}

/// `unpack PROFILE`: the item that bits are read as, by a cursor that took seven before.
pub(crate) fn unpacks(
    alloc: Global,
    accepted: &Accepted,
    sample: &Sample,
) -> Result<Outcome, Stop> {
    let context = sample.context(alloc)?;
    let bits = sample.bits(alloc)?;
    let mut cursor = Cursor::new(&bits);
    let _ = cursor.take(alloc, 7)?;
    read_in(alloc, accepted, &context, cursor)
}

fn read_in(
    alloc: Global,
    accepted: &Accepted,
    context: &Context,
    cursor: Cursor<'_>,
) -> Result<Outcome, Stop> {
    let mut ahead = cursor.fork();
    let due = header(alloc, accepted, context, &mut ahead)?;
    let mut cursor = cursor;
    match header(alloc, accepted, context, &mut cursor) {
        Ok(found) => Ok(First::Answered.then(found == due && cursor.used() == ahead.used())),
        Err(UnpackFault::OutOfMemory) => {
            let first = First::refused(cursor.used() == 7);
            match header(alloc, accepted, context, &mut cursor) {
                Ok(found) => Ok(first.then(found == due && cursor.used() == ahead.used())),
                Err(_) => Ok(first.then(false)),
            }
        }
        Err(_) => Ok(Outcome::Wrong),
    }
}

/// The header that is read, alone.
fn header(
    alloc: Global,
    accepted: &Accepted,
    context: &Context,
    cursor: &mut Cursor<'_>,
) -> Result<Bits, UnpackFault> {
    let Unpacked { header, .. } = unpack(alloc, accepted, context, cursor)?;
    Ok(header)
}
