//! Where a called method is read.

ghost use Rattle.std.specs.Prelude.{◌≡◌, ◌+◌, ◌≤◌, [], drop, length, IfOk, IfErr, Some};
ghost use Rattle.sem_expr.specs.declared.expr.Side.TheVariants as sides;
ghost use Rattle.walk_steps.specs.Joined.{joined_length};
ghost use Rattle.cert_rules.specs.Facts.{before};
ghost use Rattle.cert_rules.specs.Reading.{offset_of};
ghost use Rattle.walk_read.specs.Walk as spec;
ghost use Rattle.walk_read.specs.Walking as walking;

use crate::fault::ReadFault;
use sem_bits::Cursor;
use sem_expr::Side;
use sem_filling::Filling;
use walk_steps::Partial;

/// Where the packed bits of a listed field start, counted from the cursor; past the end it is the end.
pub(crate) fn start_of(level: &Partial<'_>, field: usize, cursor: &Cursor<'_>, from: usize) -> usize
    requires within { from ≤ length cursor.now.left }
    requires measured { joined_length level.now.slots sides.Compressed (before field level.now.format.listing) ≡ Some (offset_of level.now.format level.now.slots field) }
    ensures within { result ≤ length cursor.now.left }
    ensures start { drop result cursor.now.left ≡ drop (offset_of level.now.format level.now.slots field) (drop from cursor.now.left) }
{
    let left = cursor.rest() - from;
    match level.offset(field, Side::Compressed) {
        Some(offset) => from + offset.min(left),
        None => from,
    }
}

/// What was read where no bits will come: a shortage is a refusal.
pub(crate) fn ended(read: Result<Filling, ReadFault>) -> Result<Filling, ReadFault>
    ensures { result ≡ walking.ended read }
{
    match read {
        Err(fault) => match fault {
            ReadFault::Short(at_work) => Err(ReadFault::Refused(at_work)),
            _ => Err(fault),
        },
        Ok(filling) => Ok(filling),
    }
}
