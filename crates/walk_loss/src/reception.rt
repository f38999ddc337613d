//! What a receiver reads of the packed bits of an item.

ghost use Rattle.std.specs.Prelude.{◌≡◌, IfOk};
ghost use Rattle.walk_loss.specs.Reception as spec;

use cert_accepted::Accepted;
use sem_bits::{Bits, Cursor};
use sem_context::Context;
use sem_filling::{Filling, Item};
use std::alloc::{AllocError, Global};
use walk_engine::{UnpackFault, Unpacked, has_item, unpack};

/// What a receiver reads.
#[derive(Drop)]
pub enum Heard {
    /// The item.
    Right,
    /// Another item, that of this filling.
    Wrong(Filling),
    /// No item. The fault isn't out of memory.
    Refused(UnpackFault),
}

/// Which of the three it is.
#[derive(Clone, Copy, PartialEq, Eq)]
pub enum HeardKind {
    Right,
    Wrong,
    Refused,
}

impl Heard {
    ghost use Rattle.std.specs.Prelude.{◌≡◌};
    ghost use Rattle.walk_loss.specs.Reception.{kind};

    pub fn kind(&self) -> HeardKind
        ensures { result ≡ kind self.now }
    {
        match self {
            Heard::Right => HeardKind::Right,
            Heard::Wrong(_) => HeardKind::Wrong,
            Heard::Refused(_) => HeardKind::Refused,
        }
    }
}

/// What a receiver in the context reads, who gets the packed bits of an item and nothing more. The error is out of memory.
pub fn hear(
    alloc: Global,
    accepted: &Accepted,
    context: &Context,
    item: &Item,
    packed: &Bits,
) -> Result<Heard, AllocError>
    ensures { IfOk result (spec.IsHeard accepted.now context.now item.now packed.now) }
{
    let mut cursor = Cursor::new(packed);
    match unpack(alloc, accepted, context, &mut cursor) {
        Ok(read) => {
            let Unpacked { filling, .. } = read;
            Ok(judged(item, filling))
        }
        Err(UnpackFault::Truncated) => Ok(Heard::Refused(UnpackFault::Truncated)),
        Err(UnpackFault::Refused(at)) => Ok(Heard::Refused(UnpackFault::Refused(at))),
        Err(UnpackFault::OutOfMemory) => Err(AllocError),
    }
}

/// Whether the filling that was read has the item.
fn judged(item: &Item, filling: Filling) -> Heard
    ensures { spec.IsJudged item.now filling result }
{
    if has_item(item, &filling) {
        Heard::Right
    } else {
        Heard::Wrong(filling)
    }
}
