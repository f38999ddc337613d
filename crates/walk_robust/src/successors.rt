//! Which contexts come of those held by a filling.

ghost use Rattle.std.specs.Prelude.{◌≡◌, ◌↔◌, ◌⊎◌, IsTrue, IsSome, IfOk, Some, slice_get};
ghost use Rattle.std.specs.Map.{keys_of};
ghost use Rattle.std.specs.Option.{option_copied};
ghost use Rattle.sem_context.specs.Entries.{bits_at};
ghost use Rattle.sem_context.specs.Placing.{shown};
ghost use Rattle.sem_filling.specs.Entries.{entries, next};
ghost use Rattle.walk_robust.specs.Sending as spec;

use crate::held::Held;
use sem_bits::Bits;
use sem_context::Context;
use sem_context::path::are_same;
use sem_filling::{Filling, advance};
use std::alloc::{AllocError, Global};

/// The context after a filling.
pub(crate) fn next_of(
    alloc: Global,
    context: &Context,
    filling: &Filling,
) -> Result<Context, AllocError>
    ensures { IfOk result (λ c. c ≡ next context.now filling.now) }
{
    let mut after = context.copy(alloc)?;
    advance(alloc, &mut after, filling)?;
    Ok(after)
}

/// The contexts that come of these by the filling, which leaves these entries, each that is another map than what comes of the sender's own, and than those before
/// it.
pub(crate) fn others_of(
    alloc: Global,
    own: &Context,
    held: &[Held],
    filling: &Filling,
    left: &[(String, Bits)],
) -> Result<Vec<Held>, AllocError>
    requires { shown left.now ≡ entries filling.now }
    ensures { IfOk result (λ v. spec.HaveCome (next own.now filling.now) held.now filling.now v.items) }
{
    let alike = is_covered(own, left);
    let mut found = Vec::new(alloc);
    for i in 0..held.len() {
        let one = &held[i];
        if is_known(own, alike, found.as_slice(), &one.context, left) {
            continue;
        }
        let context = next_of(alloc, &one.context, filling)?;
        found.push(Held { gap: 0, context })?;
    }
    Ok(found)
}

/// Whether the own one, of whose paths each is left where that is known, or one of those found is the same outside of what is left.
fn is_known(
    own: &Context,
    alike: bool,
    found: &[Held],
    context: &Context,
    left: &[(String, Bits)],
) -> bool
    requires { IsTrue alike → spec.IsCovered (shown left.now) own.now }
    ensures { IsTrue result ↔ (spec.SameOutside (shown left.now) own.now context.now ⊎ spec.IsAmong (shown left.now) found.now context.now) }
{
    is_same_as_own(own, alike, context, left) || is_among(found, context, left)
}

/// Whether the own one is the same outside of what is left.
fn is_same_as_own(own: &Context, alike: bool, context: &Context, left: &[(String, Bits)]) -> bool
    requires { IsTrue alike → spec.IsCovered (shown left.now) own.now }
    ensures { IsTrue result ↔ spec.SameOutside (shown left.now) own.now context.now }
{
    if alike {
        holds_outside(context, own, left)
    } else {
        is_same_outside(own, context, left)
    }
}

/// Whether each path of the context is left.
fn is_covered(context: &Context, left: &[(String, Bits)]) -> bool
    ensures { IsTrue result → spec.IsCovered (shown left.now) context.now }
{
    for place in 0..context.len() {
        if let Some(path) = context.path_at(place) {
            if !is_left(left, place, path) {
                return false;
            }
        }
    }
    true
}

/// Whether one of these is the same outside of what is left.
pub(crate) fn is_among(found: &[Held], context: &Context, left: &[(String, Bits)]) -> bool
    ensures { IsTrue result ↔ spec.IsAmong (shown left.now) found.now context.now }
{
    for i in 0..found.len() {
        let one = &found[i];
        if is_same_outside(&one.context, context, left) {
            return true;
        }
    }
    false
}

/// Whether two contexts are the same at each path that isn't one of those that a filling leaves bits at.
fn is_same_outside(one: &Context, other: &Context, left: &[(String, Bits)]) -> bool
    ensures { IsTrue result ↔ spec.SameOutside (shown left.now) one.now other.now }
{
    holds_outside(one, other, left) && holds_outside(other, one, left)
}

/// Whether the other has what the one has at each such path.
fn holds_outside(one: &Context, other: &Context, left: &[(String, Bits)]) -> bool
    ensures { IsTrue result ↔ spec.HoldsOutside (shown left.now) one.now other.now }
{
    for place in 0..one.len() {
        if let Some(path) = one.path_at(place) {
            if !is_left(left, place, path) && !are_equal(one.get(path), other.get(path)) {
                return false;
            }
        }
    }
    true
}

fn are_equal(one: Option<&Bits>, other: Option<&Bits>) -> bool
    ensures { IsTrue result ↔ (option_copied one.entry ≡ option_copied other.entry) }
{
    match (one, other) {
        (Some(one), Some(other)) => *one == *other,
        (None, None) => true,
        _ => false,
    }
}

/// Whether bits are left at the path: mostly at that place.
fn is_left(left: &[(String, Bits)], place: usize, path: &str) -> bool
    ensures { IsTrue result ↔ IsSome (bits_at (shown left.now) path.now) }
{
    is_at(left, place, path) || is_anywhere(left, path)
}

/// Whether the path stands at the place.
fn is_at(left: &[(String, Bits)], place: usize, path: &str) -> bool
    ensures { IsTrue result ↔ (slice_get (keys_of (shown left.now)) place ≡ Some path.now) }
{
    match left.get(place) {
        Some((own, _)) => are_same(own.as_bytes(), path.as_bytes()),
        None => false,
    }
}

/// Whether the path stands anywhere.
fn is_anywhere(left: &[(String, Bits)], path: &str) -> bool
    ensures { IsTrue result ↔ IsSome (bits_at (shown left.now) path.now) }
{
    for place in 0..left.len() {
        if is_at(left, place, path) {
            return true;
        }
    }
    false
}

/// Whether the context has just the paths that are left, in their order.
pub(crate) fn has_paths(context: &Context, left: &[(String, Bits)]) -> bool
    ensures { IsTrue result → spec.HasJust (shown left.now) context.now }
{
    if context.len() != left.len() {
        return false;
    }
    for place in 0..context.len() {
        let Some(path) = context.path_at(place) else {
            return false;
        };
        if !is_at(left, place, path) {
            return false;
        }
    }
    true
}
