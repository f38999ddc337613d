//! From an item to packed bits.

ghost use Rattle.std.specs.Prelude.{◌≡◌, ◌<◌, Err, IfOk, IfErr, length};
ghost use Rattle.sem_profile.specs.HeaderLimit.{header_limit};
ghost use Rattle.walk_engine.specs.Writing as spec;

use crate::asked::wrong_asked;
use crate::search::{Candidate, Packed, first_from};
use cert_accepted::Accepted;
use sem_context::Context;
use sem_filling::Item;
use sem_profile::{HEADER_LIMIT, Name};
use std::alloc::{AllocError, Global};

/// Why no packet was made of an item.
#[derive(Drop)]
pub enum PackFault {
    /// The header is above 4,096 bits.
    HeaderLength,
    /// The asked values are not those of the asked fields: the name of the first field that has none of its length, else the first name that is out of place.
    Asked(Name),
    /// No filling that fits has the item.
    NoFormat,
    /// The line has no such flow. `pack` never answers it: it is there for those who pack for a line.
    Flow,
    OutOfMemory,
}

impl From<AllocError> for PackFault {
    ghost use Rattle.std.specs.Prelude.{◌≡◌};
    ghost use Rattle.walk_engine.specs.declared.writer.PackFault.TheVariants.{OutOfMemory};

    ghost from_gives = { λ _ e. e ≡ OutOfMemory };

    fn from(_error: AllocError) -> PackFault {
        PackFault::OutOfMemory
    }
}

/// Writes the packed bits of an item, by the best filling that has it. The context goes on by what that leaves there (`advance` of sem_filling).
pub fn pack(
    alloc: Global,
    accepted: &Accepted,
    context: &Context,
    item: &Item,
) -> Result<Packed, PackFault>
    ensures packed { IfOk result (spec.IsPacked accepted.now context.now item.now) }
    // HeaderLength: the header is above 4,096 bits. Asked: the values are not those of the asked fields, and this is the name to blame. NoFormat: no filling that fits has the item.
    ensures fault { IfErr result (λ e. spec.Blames e accepted.now context.now item.now) }
    ensures long { header_limit < length item.now.header → result ≡ Err PackFault.HeaderLength }
{
    accepted.keeps();
    accepted.profile().keeps();
    match pack_from(alloc, accepted, context, item, 0) {
        Ok(found) => Ok(found.packed),
        Err(fault) => Err(fault),
    }
}

/// The same by the best filling whose number among the candidates isn't below this one: where it is one above that of a candidate before, the next best.
pub fn pack_from(
    alloc: Global,
    accepted: &Accepted,
    context: &Context,
    item: &Item,
    from: u64,
) -> Result<Candidate, PackFault>
    ensures packed { IfOk result (spec.IsPackedFrom accepted.now context.now item.now from) }
    // as for `pack`; NoFormat: no filling that fits and has the item has such a number
    ensures fault { IfErr result (λ e. spec.BlamesFrom from e accepted.now context.now item.now) }
    ensures long { header_limit < length item.now.header → result ≡ Err PackFault.HeaderLength }
{
    if item.header.len() > HEADER_LIMIT {
        return Err(PackFault::HeaderLength);
    }
    if let Some(name) = wrong_asked(accepted.profile().asked(), item.asked.as_slice()) {
        return Err(PackFault::Asked(name.share()?));
    }
    match first_from(alloc, accepted, context, item, from)? {
        Some(found) => Ok(found),
        None => Err(PackFault::NoFormat),
    }
}
