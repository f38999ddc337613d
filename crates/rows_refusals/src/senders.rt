//! Rows on the sender whose packets survive losses.

use crate::outcome::{First, Outcome};
use crate::samples::Sample;
use crate::stop::Stop;
use cert_accepted::Accepted;
use sem_bits::Bits;
use sem_filling::Item;
use std::alloc::Global;
use walk_engine::{PackFault, Packed};
use walk_robust::{Robust, RobustFault};

/// How many packets in a row may be lost.
const LOST: u8 = 2;

/// `robust PROFILE`: the fifth packet of a sender, whose oldest context then stays no longer. Another sender, which is refused no memory, packs the same; the sixth
/// packets of both are compared, too, so that a context that changed would show.
pub(crate) fn robust_packs(
    alloc: Global,
    accepted: &Accepted,
    sample: &Sample,
) -> Result<Outcome, Stop> {
    let (item, next) = (sample.item(alloc)?, sample.next(alloc)?);
    let mut other = begun(alloc, accepted, sample)?;
    let due = packed(alloc, accepted, &mut other, &item)?;
    let after = packed(alloc, accepted, &mut other, &next)?;
    let mut sender = begun(alloc, accepted, sample)?;
    let outcome = pack_item(alloc, accepted, &mut sender, &item, &due)?;
    let last = packed(alloc, accepted, &mut sender, &next)?;
    if last == after {
        Ok(outcome)
    } else {
        Ok(Outcome::Wrong)
    }
}

/// A sender that has packed both items twice.
fn begun(alloc: Global, accepted: &Accepted, sample: &Sample) -> Result<Robust, Stop> {
    let mut sender = Robust::new(alloc, &sample.context(alloc)?, LOST)?;
    for _ in 0..2 {
        let _ = packed(alloc, accepted, &mut sender, &sample.item(alloc)?)?;
        let _ = packed(alloc, accepted, &mut sender, &sample.next(alloc)?)?;
    }
    Ok(sender)
}

/// The packed bits alone.
fn packed(
    alloc: Global,
    accepted: &Accepted,
    sender: &mut Robust,
    item: &Item,
) -> Result<Bits, RobustFault> {
    let Packed { packed, .. } = sender.pack(alloc, accepted, item)?;
    Ok(packed)
}

fn pack_item(
    alloc: Global,
    accepted: &Accepted,
    sender: &mut Robust,
    item: &Item,
    due: &Bits,
) -> Result<Outcome, Stop> {
    let held = sender.held();
    match packed(alloc, accepted, sender, item) {
        Ok(found) => Ok(First::Answered.then(found == *due)),
        Err(RobustFault::Pack(PackFault::OutOfMemory)) => {
            let first = First::refused(sender.held() == held);
            match packed(alloc, accepted, sender, item) {
                Ok(found) => Ok(first.then(found == *due)),
                Err(_) => Ok(first.then(false)),
            }
        }
        Err(_) => Ok(Outcome::Wrong),
    }
}
