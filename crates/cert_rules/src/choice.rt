//! Where a field's uncompressed side may be chosen, and from how many bits.

ghost use Rattle.std.specs.Prelude.{◌≡◌, Some, option_and_then, slice_get};
ghost use Rattle.cert_rules.specs.Rules as spec;

use crate::equations::bracket_size;
use crate::fields::{is_call, is_header};
use cert_types::CHOICE_LIMIT;
use sem_profile::constants::constant_of;
use sem_profile::{Constraint, Encoding, Field, Format, Library, Shared};
use std::alloc::Global;

/// How many bits the uncompressed side of a field has where a plan may choose it: 0 up to the limit, by `irregular` of a constant or by a bracket of
/// one. None where it may not be chosen: a header field, a called field, one that is asked, and one without such a length. It takes no memory.
pub fn choice_of(alloc: Global, format: &Format, field: usize) -> Option<usize>
    ensures { result ≡ option_and_then (spec.choice format.now field) (slice_get format.now.fields field) }
{
    let bits = field_choice(alloc, format, field, format.fields.get(field)?)?;
    Some(bits as usize)
}

/// The same of a field at its index.
pub fn field_choice(alloc: Global, format: &Format, index: usize, field: &Field) -> Option<u32>
    ensures { result ≡ spec.choice format.now index field.now }
{
    let constraints = format.constraints.as_slice();
    let size = choosable(chosen_size(alloc, index, constraints, field.encoding.get()))?;
    if is_header(field) || is_call(field.encoding.get()) || field.declared.asked {
        None
    } else {
        Some(size)
    }
}

/// The number, where it is one from 0 up to the limit.
fn choosable(size: Option<i128>) -> Option<u32>
    ensures { result ≡ spec.choosable size }
{
    choosable_number(size?)
}

fn choosable_number(size: i128) -> Option<u32>
    ensures { result ≡ spec.choosable (Some size) }
{
    let Ok(bits) = u32::try_from(size) else {
        return None;
    };
    if bits <= CHOICE_LIMIT {
        Some(bits)
    } else {
        None
    }
}

fn chosen_size(
    alloc: Global,
    index: usize,
    constraints: &[Shared<Constraint>],
    encoding: &Encoding,
) -> Option<i128>
    ensures { result ≡ spec.chosen_size index constraints.now encoding.now }
{
    if let Encoding::Library(Library::Irregular { length }) = encoding {
        if let Some(size) = constant_of(alloc, length) {
            return Some(size);
        }
    }
    bracket_size(alloc, index, constraints)
}
