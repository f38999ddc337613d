//! Why a format has no plan of the order.

use sem_expr::Side;
use sqlite_items::Items;
use std::alloc::AllocError;

/// A side of a field, by the field's index.
#[derive(Clone, Copy)]
pub struct FieldSide {
    pub field: usize,
    pub side: Side,
}

/// Why a format has no plan of the order in a direction.
#[derive(Drop)]
pub enum Unordered {
    /// These sides, in field order and the uncompressed one first, are never learnt, or their fields never taken or called: so no certificate has a plan.
    Lacking { sides: Items<FieldSide> },
    /// The plan of the order has more steps than a plan may have.
    TooLong,
    OutOfMemory,
}

impl From<AllocError> for Unordered {
    ghost use Rattle.std.specs.Prelude.{◌≡◌};
    ghost use Rattle.cert_prove.specs.declared.fault.Unordered.TheVariants.{OutOfMemory};

    ghost from_gives = { λ _ e. e ≡ OutOfMemory };

    fn from(_error: AllocError) -> Unordered {
        Unordered::OutOfMemory
    }
}
