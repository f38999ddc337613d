//! Which fields a format lists.

ghost use Rattle.std.specs.Prelude.{◌≡◌};
ghost use Rattle.sem_profile.specs.Fields.{lists};

use crate::profile::Format;

/// Whether the format lists the field.
pub fn is_listed(format: &Format, field: usize) -> bool
    ensures { result ≡ lists format.now.listing field }
{
    format
        .listing
        .get()
        .as_slice()
        .iter()
        .any(|listed| *listed == field)
}
