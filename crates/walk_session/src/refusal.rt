//! Why a step of a session is refused.

use crate::unpacker::Taken;
use std::alloc::AllocError;
use walk_read::Blamed;

/// Why no packet was written.
#[derive(Clone, Copy)]
pub enum PackRefusal {
    OutOfMemory,
    /// The session has no such flow.
    Flow,
    /// The header's octets and its count of bits don't fit each other.
    BadBits,
    /// The octets are not those of the values of the asked fields.
    Asked,
    /// The header is above 4,096 bits.
    HeaderLength,
    /// No filling that fits has the item.
    NoFormat,
    /// A filling has the item, but none that fits in all contexts that a receiver may hold.
    NoReach,
    /// After the best of these a receiver might hold too many contexts.
    Contexts,
    /// The packet has so many bits, and there is no room for its octets.
    NoRoom(usize),
}

impl From<AllocError> for PackRefusal {
    ghost use Rattle.std.specs.Prelude.{◌≡◌};
    ghost use Rattle.walk_session.specs.declared.refusal.PackRefusal.TheVariants.{OutOfMemory};

    ghost from_gives = { λ _ e. e ≡ OutOfMemory };

    fn from(_error: AllocError) -> PackRefusal {
        PackRefusal::OutOfMemory
    }
}

/// Why no item was written.
#[derive(Clone, Copy)]
pub enum UnpackRefusal {
    OutOfMemory,
    /// The session has no such flow.
    Flow,
    /// The octets and the count of bits don't fit each other.
    BadBits,
    /// The bits ran out: no packet is at their front, though one may be with further bits.
    Truncated,
    /// No packet is at the front of the bits, nor will one be with further bits.
    Refused(Blamed),
    /// There is no room for the octets of the item, of which this is told.
    NoRoom(Taken),
}

impl From<AllocError> for UnpackRefusal {
    ghost use Rattle.std.specs.Prelude.{◌≡◌};
    ghost use Rattle.walk_session.specs.declared.refusal.UnpackRefusal.TheVariants.{OutOfMemory};

    ghost from_gives = { λ _ e. e ≡ OutOfMemory };

    fn from(_error: AllocError) -> UnpackRefusal {
        UnpackRefusal::OutOfMemory
    }
}
