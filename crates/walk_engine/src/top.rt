//! The top of an accepted profile, and what fits it.

ghost use Rattle.std.specs.Prelude.{◌≡◌, [], ◌+◌, ◌/◌, ◌≤◌, ◌^◌, IfOk, IfSome, IfNone, length, slice_get};
ghost use Rattle.std.specs.Option.{option_copied};
ghost use Rattle.sem_filling.specs.Fillings as sides;
ghost use Rattle.cert_accepted.specs.Standing.{Stands, HasDepth};
ghost use Rattle.walk_engine.specs.Reading.{Fitting};
ghost use Rattle.walk_engine.specs.Top.{IsMostOctets, IsTop};

use cert_accepted::frame::{format_of, sizes_of};
use cert_accepted::{Accepted, AcceptedFrame};
use sem_bits::Bits;
use sem_context::Context;
use sem_filling::{Filling, Frame, Item, WholeSides};
use sem_holds::{packed_if_fits, sides_if_fits};
use sem_profile::{MethodSizes, Profile, is_listed};
use std::alloc::{AllocError, Global};

/// Where a walk fills the top.
pub(crate) fn top_place<'a>(accepted: &'a Accepted, context: &'a Context) -> AcceptedFrame<'a>
    ensures top { IsTop accepted.now context.now result }
    ensures stands { Stands result }
    ensures deep { HasDepth result 16 }
{
    let profile = accepted.profile();
    profile.keeps();
    AcceptedFrame {
        accepted,
        frame: top_frame(profile, context),
    }
}

/// The frame of the top, which has no arguments and stands at the empty path.
fn top_frame<'a>(profile: &'a Profile, context: &'a Context) -> Frame<'a>
    ensures profile { result.profile.now ≡ profile.now }
    ensures context { result.context.now ≡ context.now }
    ensures method { result.method ≡ profile.now.top }
    ensures arguments { result.arguments.now ≡ [] }
    ensures path { result.path.now ≡ [] }
{
    Frame {
        profile,
        context,
        method: profile.top(),
        arguments: [].as_slice(),
        path: "",
    }
}

/// How many octets a packet of the top fills at most, by its bounds. It tells how far it is worth looking ahead.
pub fn most_octets(accepted: &Accepted) -> usize
    ensures { IsMostOctets accepted.now result }
{
    let profile = accepted.profile();
    profile.keeps();
    match top_sizes(accepted) {
        Some(sizes) => octets_of(sizes.whole.compressed.most),
        None => 0,
    }
}

/// The bounds of the top.
fn top_sizes(accepted: &Accepted) -> Option<&MethodSizes>
    ensures { option_copied result ≡ slice_get accepted.now.profile.sizes accepted.now.profile.top }
{
    accepted.profile().sizes().get(accepted.profile().top())
}

/// The octets that so many bits fill, and one more.
fn octets_of(bits: u128) -> usize
    requires { bits ≤ 2 ^ 18 }
    ensures { result ≡ bits / 8 + 1 }
{
    bits as usize / 8 + 1
}

/// Whether nothing fits the format of the method, both by their indices, because a field that it doesn't list must have packed bits by its bounds. A walk takes no
/// step of such a format.
pub(crate) fn never_begins(accepted: &Accepted, method: usize, format: usize) -> bool {
    let Some(found) = format_of(accepted, method, format) else {
        return false;
    };
    let Some(sizes) = sizes_of(accepted, method, format) else {
        return false;
    };
    let fields = sizes.fields.as_slice();
    for i in 0..fields.len() {
        if fields[i].compressed.least > 0 && !is_listed(found, i) {
            return true;
        }
    }
    false
}

/// The two sides of the filling, where it fits the top.
#[inline(always)]
pub(crate) fn fits(
    alloc: Global,
    accepted: &Accepted,
    context: &Context,
    filling: &Filling,
) -> Result<Option<WholeSides>, AllocError>
    ensures fits { IfOk result (λ o. IfSome o (λ _. Fitting accepted.now context.now filling.now)) }
    ensures sides { IfOk result (λ o. IfSome o (λ whole. (whole.header ≡ sides.header filling.now) × (whole.packed ≡ sides.packed filling.now))) }
    ensures none { IfOk result (λ o. IfNone o (Fitting accepted.now context.now filling.now → ⊥)) }
{
    let profile = accepted.profile();
    profile.keeps();
    sides_if_fits(alloc, &top_frame(profile, context), filling)
}

/// The packed bits of the filling, whose header is this one, where it fits the top.
#[inline(always)]
pub(crate) fn fits_with(
    alloc: Global,
    accepted: &Accepted,
    context: &Context,
    filling: &Filling,
    header: &Bits,
) -> Result<Option<Bits>, AllocError>
    requires { header.now ≡ sides.header filling.now }
    ensures fits { IfOk result (λ o. IfSome o (λ _. Fitting accepted.now context.now filling.now)) }
    ensures packed { IfOk result (λ o. IfSome o (λ bits. bits ≡ sides.packed filling.now)) }
    ensures none { IfOk result (λ o. IfNone o (Fitting accepted.now context.now filling.now → ⊥)) }
{
    let profile = accepted.profile();
    profile.keeps();
    packed_if_fits(alloc, &top_frame(profile, context), filling, header)
}

/// A law of fitting fillings: their packed bits are few.
pub(crate) fn keeps_few(accepted: &Accepted, context: &Context, filling: &Filling)
    requires { Fitting accepted.now context.now filling.now }
    ensures { length (sides.packed filling.now) ≤ 2 ^ 18 }
{
    let profile = accepted.profile();
    profile.keeps();
}

/// The item of a filling that has this header.
pub fn item_of(alloc: Global, filling: &Filling, header: Bits) -> Result<Item, AllocError>
    requires { header ≡ sides.header filling.now }
    ensures { IfOk result (λ i. i ≡ sides.item filling.now) }
{
    let asked = filling.asked_values(alloc)?;
    Ok(Item { header, asked })
}
