//! The two sides of a whole filling, and of what its format covers.

ghost use Rattle.std.specs.Prelude.{◌≡◌, ◌≢◌, [], ◌≤◌, ◌^◌, ◌<◌, ◌↔◌, IsTrue, IfOk, IfSome, MatchOption, Some, length};
ghost use Rattle.std.specs.Option.{option_copied};
ghost use Rattle.sem_context.specs.Entries.{bits_at};
ghost use Rattle.sem_filling.specs.Entries.{below};
ghost use Rattle.sem_filling.specs.Fillings.{header, packed};
ghost use Rattle.sem_filling.specs.Fits as spec;

use crate::{Filling, below, is_below};
use arrayvec::ArrayString;
use sem_bits::{Bits, BitsError, Cursor};
use sem_context::Context;
use sem_profile::{Field, Part};
use std::alloc::{AllocError, Global};

/// The longest path that is put together without an allocation.
const SHORT: usize = 64;

/// The two sides of a whole filling: its header and its packed bits.
#[derive(Drop)]
pub struct WholeSides {
    pub header: Bits,
    pub packed: Bits,
}

/// The header, unless it is above the limit of `Bits`.
pub fn header_of(alloc: Global, filling: &Filling) -> Result<Option<Bits>, AllocError>
    ensures { IfOk result (λ o. MatchOption o (2 ^ 31 ≤ length (header filling.now)) (λ b. b ≡ header filling.now)) }
{
    match filling.header(alloc) {
        Ok(bits) => Ok(Some(bits)),
        Err(BitsError::Full) => Ok(None),
        Err(BitsError::OutOfMemory) => Err(AllocError),
    }
}

/// The packed bits, unless they are above the limit of `Bits`.
pub fn packed_of(alloc: Global, filling: &Filling) -> Result<Option<Bits>, AllocError>
    ensures { IfOk result (λ o. MatchOption o (2 ^ 31 ≤ length (packed filling.now)) (λ b. b ≡ packed filling.now)) }
{
    match filling.packed(alloc) {
        Ok(bits) => Ok(Some(bits)),
        Err(BitsError::Full) => Ok(None),
        Err(BitsError::OutOfMemory) => Err(AllocError),
    }
}

/// Whether these bits are the header of the filling. It takes no memory.
pub fn is_header(bits: &Bits, filling: &Filling) -> bool
    ensures { IsTrue result ↔ (bits.now ≡ header filling.now) }
{
    let mut cursor = Cursor::new(bits);
    for field in filling.fields.as_slice() {
        if let Part::Header = field.declared.part {
            if !cursor.skip(&field.uncompressed) {
                return false;
            }
        }
    }
    cursor.rest() == 0
}

/// Whether these bits are the packed bits of the filling. It takes no memory.
pub fn is_packed(bits: &Bits, filling: &Filling) -> bool
    ensures { IsTrue result ↔ (bits.now ≡ packed filling.now) }
{
    let mut cursor = Cursor::new(bits);
    for i in filling.listing.get().as_slice() {
        if let Some(field) = filling.fields.get(*i) {
            if !cursor.skip(&field.compressed) {
                return false;
            }
        }
    }
    cursor.rest() == 0
}

/// The reference of a field at its path (RFC 4997, section 4.11): the context's bits, else the value of INITIAL. A local
/// field has none.
pub fn reference_of<'a>(context: &'a Context, field: &'a Field, path: &str) -> Option<&'a Bits>
    ensures { option_copied result ≡ spec.reference_of field.now.declared.part (bits_at context.now) path.now field.now.initial }
{
    match field.declared.part {
        Part::Local => None,
        Part::Header | Part::Control => match context.get(path) {
            Some(bits) => Some(bits),
            None => field.initial.as_ref(),
        },
    }
}

/// The reference of a field below a path, which is empty at the top, likewise. No path is made for a field of the top, and a short one takes no memory. The error is out of memory.
#[inline(always)]
pub fn reference_below<'a>(
    alloc: Global,
    context: &'a Context,
    path: &str,
    field: &'a Field,
) -> Result<Option<&'a Bits>, AllocError>
    ensures { IfOk result (λ o. option_copied o ≡ spec.reference_of field.now.declared.part (bits_at context.now) (below path.now field.now.declared.name) field.now.initial) }
{
    if path.is_empty() {
        let name = field.declared.name.as_str();
        return Ok(reference_of(context, field, name));
    }
    reference_inside(alloc, context, path, field)
}

/// The same below a path that isn't empty.
#[inline(never)]
fn reference_inside<'a>(
    alloc: Global,
    context: &'a Context,
    path: &str,
    field: &'a Field,
) -> Result<Option<&'a Bits>, AllocError>
    requires { path.now ≢ [] }
    ensures { IfOk result (λ o. option_copied o ≡ spec.reference_of field.now.declared.part (bits_at context.now) (below path.now field.now.declared.name) field.now.initial) }
{
    let name = field.declared.name.as_str();
    if path.len().saturating_add(name.len()) < SHORT {
        let mut here = ArrayString::<SHORT>::new();
        here.push_str(path);
        here.push('.');
        here.push_str(name);
        return Ok(reference_of(context, field, here.as_str()));
    }
    let here = below(alloc, path, name)?;
    Ok(reference_of(context, field, here.as_str()))
}

/// The reference of a field below a path likewise, which is looked for at a place of the context first: where it mostly stands.
#[inline(always)]
pub fn reference_near<'a>(
    alloc: Global,
    context: &'a Context,
    path: &str,
    field: &'a Field,
    place: usize,
) -> Result<Option<&'a Bits>, AllocError>
    ensures { IfOk result (λ o. option_copied o ≡ spec.reference_of field.now.declared.part (bits_at context.now) (below path.now field.now.declared.name) field.now.initial) }
{
    match entry_near(context, path, field, place) {
        Some(bits) => Ok(Some(bits)),
        None => reference_below(alloc, context, path, field),
    }
}

/// The reference of a field that has an entry, where that stands at the place.
#[inline(always)]
fn entry_near<'a>(context: &'a Context, path: &str, field: &Field, place: usize) -> Option<&'a Bits>
    ensures { IfSome result (λ b. Some b.now ≡ spec.reference_of field.now.declared.part (bits_at context.now) (below path.now field.now.declared.name) field.now.initial) }
{
    if let Part::Local = field.declared.part {
        return None;
    }
    let Some((here, bits)) = context.entry_at(place) else {
        return None;
    };
    if is_below(here, path, field.declared.name.as_str()) {
        Some(bits)
    } else {
        None
    }
}
