//! The search for a filling that fits in all contexts that a receiver may hold.

ghost use Rattle.std.specs.Prelude.{◌≡◌, ◌↔◌, IsTrue, IfOk, IfErr};
ghost use Rattle.walk_engine.specs.Reading.{Fitting};
ghost use Rattle.walk_robust.specs.Answers as spec;

use crate::held::Held;
use crate::sender::RobustFault;
use cert_accepted::Accepted;
use sem_context::Context;
use sem_filling::{Filling, Item};
use std::alloc::{AllocError, Global};
use walk_engine::{Candidate, PackFault, Packed, pack_from};
use walk_loss::{all_serve, uses_of};

/// The best filling for the item that fits in the sender's own context and in each of the others, with its packed bits. The candidates are those of the context
/// that is sought in: the last of the others, in which the fewest fit.
pub(crate) fn best_for_all(
    alloc: Global,
    accepted: &Accepted,
    own: &Context,
    others: &[Held],
    item: &Item,
) -> Result<Packed, RobustFault>
    ensures packed { IfOk result (spec.IsBestFor accepted.now own.now others.now item.now) }
    ensures fault { IfErr result (λ e. spec.LacksReach e accepted.now own.now others.now item.now) }
{
    accepted.keeps();
    let profile = accepted.profile();
    profile.keeps();
    let count = accepted.counts()[profile.top()];
    let sought = last_of(own, others);
    let mut from = 0;
    loop {
        match pack_from(alloc, accepted, sought, item, from) {
            Ok(found) => {
                let Candidate { packed, number } = found;
                let fits_all = fits_each(alloc, accepted, own, others, &packed.filling)?;
                if fits_all {
                    return Ok(packed);
                }
                from = number + 1;
            }
            Err(fault) => return Err(refusal(alloc, accepted, own, item, fault)),
        }
    }
}

/// The context of the last of the others, or the sender's own where there is none.
fn last_of<'a>(own: &'a Context, others: &'a [Held]) -> &'a Context
    ensures { result.now ≡ spec.last_of own.now others.now }
{
    match others.last() {
        Some(last) => &last.context,
        None => own,
    }
}

/// Why no filling fits in all contexts, where this is why none more is found in one of them.
fn refusal(
    alloc: Global,
    accepted: &Accepted,
    own: &Context,
    item: &Item,
    fault: PackFault,
) -> RobustFault
    ensures { spec.IsRefusal fault accepted.now own.now item.now result }
{
    match fault {
        PackFault::NoFormat => match pack_from(alloc, accepted, own, item, 0) {
            Ok(_) => RobustFault::NoReach,
            Err(fault) => RobustFault::Pack(fault),
        },
        fault => RobustFault::Pack(fault),
    }
}

/// Whether a filling that fits in the last context fits in each: whether in each of the further ones each reference that it uses serves.
fn fits_each(
    alloc: Global,
    accepted: &Accepted,
    own: &Context,
    others: &[Held],
    filling: &Filling,
) -> Result<bool, AllocError>
    requires { Fitting accepted.now (spec.last_of own.now others.now) filling.now }
    ensures { IfOk result (λ b. IsTrue b ↔ spec.FitsAll accepted.now own.now others.now filling.now) }
{
    if others.is_empty() {
        return Ok(true);
    }
    let uses = uses_of(alloc, accepted, filling)?;
    if !all_serve(alloc, own, uses.as_slice())? {
        return Ok(false);
    }
    for i in 0..others.len() - 1 {
        let other = &others[i];
        if !all_serve(alloc, &other.context, uses.as_slice())? {
            return Ok(false);
        }
    }
    Ok(true)
}
