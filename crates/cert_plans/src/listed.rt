//! Which fields of a format are listed.

ghost use Rattle.std.specs.Prelude.{◌≡◌, IfOk, false, replicate};
ghost use Rattle.cert_plans.specs.Listed.{AreFlags};

use sem_profile::Format;
use sqlite_items::Items;
use std::alloc::{AllocError, Global};

/// For each field of the format whether it is listed. The error is out of memory.
pub fn listed_flags(alloc: Global, format: &Format) -> Result<Items<bool>, AllocError>
    ensures { IfOk result (AreFlags format.now) }
{
    let mut flags = no_flags(alloc, format.fields.len())?;
    for listed in format.listing.get().as_slice() {
        if *listed < flags.len() {
            flags.set(*listed, true);
        }
    }
    Ok(flags)
}

/// That many flags, none raised.
fn no_flags(alloc: Global, count: usize) -> Result<Items<bool>, AllocError>
    ensures { IfOk result (λ flags. flags ≡ replicate count false) }
{
    let mut flags = Items::from_vec(Vec::with_capacity(alloc, count)?);
    for _ in 0..count {
        flags.push(false)?;
    }
    Ok(flags)
}
