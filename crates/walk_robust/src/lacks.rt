//! What stands against packing an item for all that a receiver may hold.

ghost use Rattle.std.specs.Prelude.{◌≡◌, ◌↔◌, IfOk, IfSome, IfNone, IsTrue, OnOk};
ghost use Rattle.walk_engine.specs.Reading.{Fitting};
ghost use Rattle.walk_robust.specs.Answers as answers;
ghost use Rattle.walk_robust.specs.Lacks as spec;

use crate::held::Held;
use crate::sender::Robust;
use cert_accepted::Accepted;
use sem_context::Context;
use sem_filling::{Filling, Item};
use sqlite_items::Items;
use std::alloc::{AllocError, Global};
use walk_engine::{Candidate, PackFault, pack_from};
use walk_loss::{Lack, first_unserved, uses_of};

impl Robust {
    /// What stands against each format of the top that has a filling with the item which fits in the sender's own context, where none fits in all that a receiver
    /// may hold: the first of these contexts in which the best of them doesn't fit, and there the first use of a reference that doesn't serve. The lines stand in
    /// the order of `pack`. The error is out of memory.
    pub fn lacks(
        &self,
        alloc: Global,
        accepted: &Accepted,
        item: &Item,
    ) -> Result<Items<Lack>, AllocError>
        requires { answers.HasNoReach accepted.now self.now.own self.now.others item.now }
        ensures { IfOk result (spec.AreLacks accepted.now self.now.own self.now.others item.now) }
    {
        accepted.keeps();
        let profile = accepted.profile();
        profile.keeps();
        let count = accepted.counts()[profile.top()];
        let others = self.others.as_slice();
        let mut found = Items::new(alloc);
        let mut from = 0;
        loop {
            match pack_from(alloc, accepted, &self.own, item, from) {
                Ok(next) => {
                    let Candidate { packed, number } = next;
                    let filling = &packed.filling;
                    add_lack(alloc, accepted, &self.own, others, filling, &mut found)?;
                    from = number + 1;
                }
                Err(PackFault::NoFormat) => return Ok(found),
                Err(_) => return Err(AllocError),
            }
        }
    }
}

/// Adds what the filling lacks, unless a line of its format stands there.
fn add_lack(
    alloc: Global,
    accepted: &Accepted,
    own: &Context,
    others: &[Held],
    filling: &Filling,
    found: &mut Items<Lack>,
) -> Result<(), AllocError>
    requires { Fitting accepted.now own.now filling.now }
    ensures { OnOk result (spec.AddsLack accepted.now others.now filling.now found.old found.new) }
{
    if is_told(found.as_slice(), filling.format) {
        return Ok(());
    }
    match lack_of(alloc, accepted, own, others, filling)? {
        Some(lack) => found.push(lack),
        None => Ok(()),
    }
}

/// Whether a line of the format is there.
fn is_told(found: &[Lack], format: usize) -> bool
    ensures { IsTrue result ↔ spec.IsTold found.now format }
{
    for lack in found {
        if lack.format == format {
            return true;
        }
    }
    false
}

/// What the filling lacks in the first of the contexts in which it doesn't fit, or None where it fits in all.
fn lack_of(
    alloc: Global,
    accepted: &Accepted,
    own: &Context,
    others: &[Held],
    filling: &Filling,
) -> Result<Option<Lack>, AllocError>
    requires { Fitting accepted.now own.now filling.now }
    ensures lack { IfOk result (λ o. IfSome o (spec.IsLack accepted.now others.now filling.now)) }
    ensures none { IfOk result (λ o. IfNone o (answers.FitsEach accepted.now others.now filling.now)) }
{
    let _ = own;
    let uses = uses_of(alloc, accepted, filling)?;
    for i in 0..others.len() {
        let other = &others[i];
        let first = first_unserved(alloc, &other.context, uses.as_slice())?;
        if let Some(unserved) = first {
            return Ok(Some(Lack {
                format: filling.format,
                gap: other.gap,
                unserved,
            }));
        }
    }
    Ok(None)
}
