//! Why a profile has no certificate of the prover's order.

use crate::FieldSide;
use cert_types::Direction;
use sqlite_items::Items;
use std::alloc::AllocError;

/// Why no certificate is made. Methods and formats go by their indices.
#[derive(Drop)]
pub enum Unproved {
    /// No plan of the format in that direction learns these sides, in field order and of a field the uncompressed one first.
    NoPlan {
        method: usize,
        format: usize,
        direction: Direction,
        sides: Items<FieldSide>,
    },
    /// No tree parts the formats of the method: these are the first two of a set that no test parts.
    NoTree {
        method: usize,
        first: usize,
        second: usize,
    },
    /// A tree, a plan or the text is above a limit of certificates.
    Limit,
    OutOfMemory,
}

impl From<AllocError> for Unproved {
    ghost use Rattle.std.specs.Prelude.{◌≡◌};
    ghost use Rattle.cert_prove.specs.declared.unproved.Unproved.TheVariants.{OutOfMemory};

    ghost from_gives = { λ _ e. e ≡ OutOfMemory };

    fn from(_error: AllocError) -> Unproved {
        Unproved::OutOfMemory
    }
}
