//! The kinds of steps, in the prover's order.

ghost use Rattle.std.specs.Prelude.{◌≡◌, IfOk};
ghost use Rattle.cert_prove.specs.Order as spec;

use cert_types::Direction;
use sem_expr::Side;
use sqlite_items::Items;
use std::alloc::{AllocError, Global};

/// A kind of steps on a field.
#[derive(Clone, Copy)]
pub enum StepKind {
    /// The field is taken or called.
    TakeOrCall,
    /// The packer is given its value.
    Ask,
    /// Its library method gives the uncompressed side.
    Up,
    /// Its library method gives the compressed side.
    Down,
    /// A constraint gives the value of the uncompressed side.
    Solve,
    /// Its library method, else a constraint gives the length of a side.
    Length(Side),
    /// Each value of the uncompressed side is tried.
    Choose,
}

/// The kinds of a direction, in their order.
pub(crate) fn kinds_of(alloc: Global, direction: Direction) -> Result<Items<StepKind>, AllocError>
    ensures { IfOk result (λ kinds. kinds ≡ spec.kinds_of direction) }
{
    match direction {
        Direction::Read => Items::from_slice(
            alloc,
            &[
                StepKind::TakeOrCall,
                StepKind::Up,
                StepKind::Solve,
                StepKind::Length(Side::Compressed),
                StepKind::Length(Side::Uncompressed),
                StepKind::Down,
            ],
        ),
        Direction::Write => Items::from_slice(
            alloc,
            &[
                StepKind::TakeOrCall,
                StepKind::Ask,
                StepKind::Down,
                StepKind::Up,
                StepKind::Solve,
                StepKind::Length(Side::Uncompressed),
                StepKind::Length(Side::Compressed),
                StepKind::Choose,
            ],
        ),
    }
}
