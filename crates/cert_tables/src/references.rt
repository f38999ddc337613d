//! What a node of a decision tree that tests a reference asks of a context.

ghost use Rattle.std.specs.Prelude.{◌≡◌, slice_get, Some, IfOk};
ghost use Rattle.sem_context.specs.Entries as contexts;
ghost use Rattle.cert_rules.specs.Trees.{is_number, referred, references};
ghost use Rattle.cert_tables.specs.Picked as spec;

use sem_bits::Bits;
use sem_filling::Frame;
use sem_filling::whole_sides::reference_below;
use sem_profile::{Format, Method};
use std::alloc::{AllocError, Global};

/// Whether the field, by its place in the first format of the frame's method, has a reference of at most 64 bits there, whose number is the constant. No path is made for a field of the top. The error is out of memory.
pub(crate) fn refers(
    alloc: Global,
    frame: &Frame<'_>,
    field: usize,
    constant: i128,
) -> Result<bool, AllocError>
    ensures { IfOk result (λ holds. holds ≡ is_number constant (references (contexts.bits_at frame.now.context.now) frame.now.path.now (spec.formats_of (slice_get frame.now.profile.now.methods frame.now.method)) field)) }
{
    let [first, ..] = formats_of(frame.profile.methods(), frame.method) else {
        return Ok(false);
    };
    let Some(found) = first.fields.get(field) else {
        return Ok(false);
    };
    match reference_below(alloc, frame.context, frame.path, found)? {
        Some(bits) => Ok(is_spelled(bits, constant)),
        None => Ok(false),
    }
}

/// Whether at most 64 bits spell the constant.
fn is_spelled(bits: &Bits, constant: i128) -> bool
    ensures { result ≡ is_number constant (referred (Some bits.now)) }
{
    match bits.value() {
        Some(number) => constant == number as i128,
        None => false,
    }
}

/// The formats of a method, none where there is no such method.
fn formats_of(methods: &[Method], method: usize) -> &[Format]
    ensures { result.now ≡ spec.formats_of (slice_get methods.now method) }
{
    match methods.get(method) {
        Some(found) => found.formats.as_slice(),
        None => &[],
    }
}
