//! What a called field takes from, and the fault of the filling inside it.

ghost use Rattle.std.specs.Prelude.{◌≡◌, ◌<◌, ◌≤◌, true, Some, [], drop, length, slice_get, IfOk, IfSome, IsSomeAnd, IsTrue, string_bytes};
ghost use Rattle.sem_expr.specs.declared.expr.Side.TheVariants.{Uncompressed};
ghost use Rattle.sem_filling.specs.Fillings as fillings;
ghost use Rattle.cert_rules.specs.Rules.{headers_before};
ghost use Rattle.cert_rules.specs.Slots.{learnt_at};
ghost use Rattle.cert_candidates.specs.Knowing.{writer_knows_all};
ghost use Rattle.cert_candidates.specs.Writing.{header_offset, known_bits};
ghost use Rattle.walk_write.specs.Going as spec;

use crate::fault::WriteFault;
use cert_accepted::Accepted;
use cert_candidates::Digits;
use sem_bits::{Bits, Cursor};
use sem_expr::Side;
use sem_profile::{Format, Part};
use std::alloc::{AllocError, Global};
use walk_steps::{Call, Partial};

/// How many candidates the method has.
pub(crate) fn radix_of(accepted: &Accepted, method: usize) -> u64
    requires within { method < length accepted.now.counts }
    ensures { slice_get accepted.now.counts method ≡ Some result }
{
    accepted.counts()[method]
}

/// Whether the field is a header field.
pub(crate) fn is_header_at(format: &Format, field: usize) -> bool
    requires within { field < length format.now.fields }
    ensures { IsSomeAnd (slice_get format.now.fields field) (λ d. result ≡ fillings.is_header d.declared.part) }
{
    matches!(format.fields.as_slice()[field].declared.part, Part::Header)
}

/// Where a header field begins: so many bits after the source's place, and no more than there are.
pub(crate) fn header_from(
    level: &Partial<'_>,
    field: usize,
    source: &Cursor<'_>,
    from: usize,
) -> usize
    requires within { from ≤ length source.now.left }
    requires header { IsSomeAnd (slice_get level.now.format.fields field) (λ d. fillings.is_header d.declared.part ≡ true) }
    requires knows { writer_knows_all level.now.format level.now.slots (headers_before level.now.format field) ≡ true }
    ensures within { result ≤ length source.now.left }
    ensures skips { drop result source.now.left ≡ drop (header_offset level.now.format level.now.slots field) (drop from source.now.left) }
{
    level.keeps();
    let left = source.rest() - from;
    let Some(offset) = level.offset(field, Side::Uncompressed) else {
        return from;
    };
    from + offset.min(left)
}

/// The bits of the field's uncompressed side, none where they are not known. The error is out of memory.
pub(crate) fn own_bits(alloc: Global, level: &Partial<'_>, field: usize) -> Result<Bits, AllocError>
    ensures { IfOk result (λ bits. bits ≡ known_bits (learnt_at level.now.slots field Uncompressed)) }
{
    match level.bits(field, Side::Uncompressed) {
        Some(bits) => bits.copy(alloc),
        None => Ok(Bits::new(alloc)),
    }
}

/// The fault of a candidate where the filling inside a called field has this one, after its digit was read.
pub(crate) fn passed_on(fault: WriteFault, digits: Digits) -> WriteFault
    requires within { digits.rest < digits.span }
    requires fits { spec.CanPass fault digits }
    ensures { spec.PassesOn fault digits result }
{
    match fault {
        WriteFault::Failed(numbers) => WriteFault::Failed(digits.alike_up_to(numbers)),
        WriteFault::OutOfMemory => WriteFault::OutOfMemory,
    }
}
