//! How many bits a `choose` tries.

ghost use Rattle.std.specs.Prelude.{◌≡◌, IfOk};
ghost use Rattle.sem_profile.specs.Passes.{indexed};
ghost use Rattle.cert_rules.specs.Rules as rules;

use cert_rules::field_choice;
use sem_profile::Format;
use sqlite_items::Items;
use std::alloc::{AllocError, Global};

/// For each field of the format how many bits a `choose` of it tries, if it may be chosen.
pub(crate) fn choices(alloc: Global, format: &Format) -> Result<Items<Option<u32>>, AllocError>
    ensures { IfOk result (λ found. found ≡ indexed (rules.choice format.now) 0 format.now.fields) }
{
    let mut found = Items::new(alloc);
    for field in format.fields.as_slice() {
        found.push(field_choice(alloc, format, found.len(), field))?;
    }
    Ok(found)
}
