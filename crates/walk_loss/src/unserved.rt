//! Which of the references that a filling uses don't serve in a context.

ghost use Rattle.std.specs.Prelude.{◌≡◌, ◌↔◌, IsTrue, IfOk, IfSome, IfNone, Some, []};
ghost use Rattle.std.specs.Option.{option_copied};
ghost use Rattle.sem_context.specs.Entries.{bits_at};
ghost use Rattle.sem_filling.specs.Fits.{reference_of};
ghost use Rattle.sem_library.specs.Methods.{Lib};
ghost use Rattle.sem_elsewhere.specs.Uses.{Serves};
ghost use Rattle.walk_loss.specs.Unserved as spec;
ghost use Rattle.walk_loss.specs.Uses.{FitsAnywhere, method};

use crate::uses::{Referring, Using, copied, uses_of};
use cert_accepted::Accepted;
use sem_bits::Bits;
use sem_context::Context;
use sem_filling::Filling;
use sem_library::{lsb_down, static_down};
use sem_profile::Part;
use sqlite_items::Items;
use std::alloc::{AllocError, Global};

/// A use of a reference that doesn't serve: the path of the field, its method, the reference that the context has for it, else INITIAL, and the bits of the field's
/// uncompressed side.
#[derive(Drop)]
pub struct Unserved {
    pub path: String,
    pub method: Referring,
    pub reference: Option<Bits>,
    pub needed: Bits,
}

/// Of a format of the top, by its index: its best filling fits in the sender's own context, but not in another that a receiver may hold, to which so many packets
/// right before were lost. There this use of a reference doesn't serve.
#[derive(Drop)]
pub struct Lack {
    pub format: usize,
    pub gap: usize,
    pub unserved: Unserved,
}

/// The uses of references that don't serve in the context, of a filling that fits the top in some other one: in field order, and in the place of a field that calls
/// a method those of the filling inside. The error is out of memory.
pub fn unserved_uses(
    alloc: Global,
    accepted: &Accepted,
    context: &Context,
    filling: &Filling,
) -> Result<Items<Unserved>, AllocError>
    requires { FitsAnywhere accepted.now.profile.methods accepted.now.profile.top [] [] filling.now }
    ensures { IfOk result (spec.HasUnserved accepted.now.profile.methods (bits_at context.now) accepted.now.profile.top [] [] filling.now) }
{
    let uses = uses_of(alloc, accepted, filling)?;
    unserved_among(alloc, context, uses.as_slice())
}

/// Those of these uses that don't serve in the context, in their order.
pub fn unserved_among(
    alloc: Global,
    context: &Context,
    uses: &[Using],
) -> Result<Items<Unserved>, AllocError>
    ensures { IfOk result (spec.AreUnserved (bits_at context.now) uses.now) }
{
    let mut found = Items::new(alloc);
    for i in 0..uses.len() {
        let one = &uses[i];
        if serves_in(alloc, context, one)? {
            continue;
        }
        let line = told(alloc, context, one)?;
        found.push(line)?;
    }
    Ok(found)
}

/// The first of these uses that doesn't serve in the context, or None where each serves.
pub fn first_unserved(
    alloc: Global,
    context: &Context,
    uses: &[Using],
) -> Result<Option<Unserved>, AllocError>
    ensures first { IfOk result (λ o. IfSome o (spec.IsFirstUnserved (bits_at context.now) uses.now)) }
    ensures none { IfOk result (λ o. IfNone o (spec.TheyServe (bits_at context.now) uses.now)) }
{
    for i in 0..uses.len() {
        let one = &uses[i];
        if !serves_in(alloc, context, one)? {
            let line = told(alloc, context, one)?;
            return Ok(Some(line));
        }
    }
    Ok(None)
}

/// Whether each of these uses serves in the context.
pub fn all_serve(alloc: Global, context: &Context, uses: &[Using]) -> Result<bool, AllocError>
    ensures { IfOk result (λ b. IsTrue b ↔ spec.TheyServe (bits_at context.now) uses.now) }
{
    for i in 0..uses.len() {
        let one = &uses[i];
        if !serves_in(alloc, context, one)? {
            return Ok(false);
        }
    }
    Ok(true)
}

/// Whether the use serves in the context: by the reference that this has for it its method relates the two sides.
fn serves_in(alloc: Global, context: &Context, one: &Using) -> Result<bool, AllocError>
    ensures { IfOk result (λ b. IsTrue b ↔ Serves (bits_at context.now) one.now) }
{
    let reference = reference_in(context, one);
    match one.method {
        Referring::Static => {
            let made = static_down(alloc, reference, &one.uncompressed);
            Ok(is_made(&made, &one.compressed))
        }
        Referring::Lsb { bits, offset } => {
            let made = lsb_down(alloc, bits, offset, reference, &one.uncompressed)?;
            Ok(is_made(&made, &one.compressed))
        }
    }
}

/// The reference that the context has for a use, else the value of INITIAL. A local field has none.
fn reference_in<'a>(context: &'a Context, one: &'a Using) -> Option<&'a Bits>
    ensures { option_copied result ≡ reference_of one.now.part (bits_at context.now) one.now.path one.now.initial }
{
    match one.part {
        Part::Local => None,
        Part::Header | Part::Control => match context.get(one.path.as_str()) {
            Some(bits) => Some(bits),
            None => one.initial.as_ref(),
        },
    }
}

/// Whether the made bits are there and are these.
fn is_made(made: &Option<Bits>, bits: &Bits) -> bool
    ensures { IsTrue result ↔ (made.now ≡ Some bits.now) }
{
    match made {
        Some(own) => *own == *bits,
        None => false,
    }
}

/// What is told of a use.
fn told(alloc: Global, context: &Context, one: &Using) -> Result<Unserved, AllocError>
    ensures { IfOk result (spec.IsTold (bits_at context.now) one.now) }
{
    let reference = copied(alloc, reference_in(context, one))?;
    Ok(Unserved {
        path: String::from_str(alloc, one.path.as_str())?,
        method: one.method,
        reference,
        needed: one.uncompressed.copy(alloc)?,
    })
}
