//! How far the parts of the whole are known, from the first on.

ghost use Rattle.std.specs.Prelude.{◌≡◌, ◌<◌, ◌^◌, length};
ghost use Rattle.walk_steps.specs.Joined.{joined_bits, joined_length};
ghost use Rattle.cert_rules.specs.Facts.{before};
ghost use Rattle.walk_steps.specs.Fronts as spec;

use crate::side_lists;
use crate::slots::length_at;
use cert_rules::Slot;
use sem_expr::Side;

/// How far the parts of a side of the whole are measured, from the first on: of so many the length is known, and they have so many bits together.
#[derive(Clone, Copy)]
pub(crate) struct Front {
    pub(crate) measured: usize,
    pub(crate) length: usize,
}

/// Those of both sides.
#[derive(Clone, Copy)]
pub(crate) struct Fronts {
    pub(crate) uncompressed: Front,
    pub(crate) compressed: Front,
}

impl Front {
    /// Before the first part.
    pub(crate) fn at_first() -> Front
        ensures { result ≡ spec.front 0 0 }
    {
        Front {
            measured: 0,
            length: 0,
        }
    }
}

/// The fronts where something was learnt of a side of a part: that of the side goes on past the parts that are measured.
pub(crate) fn go_on(
    fronts: Fronts,
    side: Side,
    slots: &[Slot],
    headers: &[usize],
    listing: &[usize],
) -> Fronts
    requires header { length (joined_bits slots.now Side.Uncompressed headers.now) < 2 ^ 31 }
    requires packed { length (joined_bits slots.now Side.Compressed listing.now) < 2 ^ 31 }
    requires before { spec.AreMeasured slots.now headers.now listing.now fronts }
    ensures { spec.AreMeasured slots.now headers.now listing.now result }
{
    match side {
        Side::Uncompressed => Fronts {
            uncompressed: measure(fronts.uncompressed, slots, Side::Uncompressed, headers),
            compressed: fronts.compressed,
        },
        Side::Compressed => Fronts {
            uncompressed: fronts.uncompressed,
            compressed: measure(fronts.compressed, slots, Side::Compressed, listing),
        },
    }
}

/// The front past the parts of known lengths.
fn measure(front: Front, slots: &[Slot], side: Side, parts: &[usize]) -> Front
    requires short { length (joined_bits slots.now side parts.now) < 2 ^ 31 }
    requires before { spec.IsMeasured slots.now side parts.now front }
    ensures { spec.IsMeasured slots.now side parts.now result }
{
    let mut next = front;
    while next.measured < parts.len() {
        let Some(count) = length_at(slots, parts[next.measured], side) else {
            return next;
        };
        next.length += count;
        next.measured += 1;
    }
    next
}

/// How many bits the parts have together, where each length is known. It takes one look where the front is past all.
pub(crate) fn length_by(front: Front, slots: &[Slot], side: Side, parts: &[usize]) -> Option<usize>
    requires measured { spec.IsMeasured slots.now side parts.now front }
    requires short { length (joined_bits slots.now side parts.now) < 2 ^ 31 }
    ensures { result ≡ joined_length slots.now side parts.now }
{
    if front.measured == parts.len() {
        return Some(front.length);
    }
    side_lists::joined_length(slots, side, parts)
}

/// How many bits the parts before the field have together, all of them if it isn't there, where each length is known. It takes one look where the front
/// stands just past the field.
pub(crate) fn offset_by(
    front: Front,
    slots: &[Slot],
    side: Side,
    parts: &[usize],
    field: usize,
) -> Option<usize>
    requires measured { spec.IsMeasured slots.now side parts.now front }
    requires short { length (joined_bits slots.now side (before field parts.now)) < 2 ^ 31 }
    ensures { result ≡ joined_length slots.now side (before field parts.now) }
{
    let before = parts_before(parts, field);
    if before.len() < parts.len() && front.measured == before.len() + 1 {
        if let Some(count) = length_at(slots, field, side) {
            return Some(front.length - count);
        }
    }
    side_lists::joined_length(slots, side, before)
}

/// Those of the fields that stand before the field, all of them if it isn't there.
fn parts_before(parts: &[usize], field: usize) -> &[usize]
    ensures { result.now ≡ before field parts.now }
{
    for (place, part) in parts.iter().enumerate() {
        if *part == field {
            return &parts[..place];
        }
    }
    parts
}
