//! The reference of a field.

ghost use Rattle.std.specs.Prelude.{◌≡◌, IfOk};
ghost use Rattle.std.specs.Option.{option_copied};
ghost use Rattle.walk_steps.specs.Finding as spec;

use crate::level_frame::LevelFrame;
use sem_bits::Bits;
use sem_filling::whole_sides::reference_below;
use sem_profile::Field;
use std::alloc::{AllocError, Global};

/// The reference of a field of the level (RFC 4997, section 4.11). The error is out of memory.
pub(crate) fn reference_in<'a>(
    alloc: Global,
    level_frame: &LevelFrame<'a>,
    coded: &'a Field,
) -> Result<Option<&'a Bits>, AllocError>
    ensures { IfOk result (λ o. option_copied o ≡ spec.reference_at level_frame.now coded.now) }
{
    reference_below(
        alloc,
        level_frame.frame.context,
        level_frame.frame.path,
        coded,
    )
}
