//! What is known of the fields of a format.

ghost use Rattle.std.specs.Prelude.{◌≡◌, ◌<◌, ◌↔◌, ℕ, Bool, List, false, IsTrue, IfOk, Some, length, slice_get};
ghost use Rattle.std.specs.Option.{option_copied};
ghost use Rattle.sem_filling.specs.Bounded.{LiesBetween};
ghost use Rattle.cert_rules.specs.Slots.{HasSide, learnt_at};
ghost use Rattle.cert_rules.specs.Reading.{start_slots};
ghost use Rattle.walk_steps.specs.Sides as spec;
ghost use Rattle.walk_steps.specs.Partial.{AreUnsent};
ghost use Rattle.walk_steps.specs.Joined.{header_places};
ghost use Rattle.sem_filling.specs.Fillings as fillings;

use crate::side::{bits_of, learn, length_of};
use cert_rules::{Learnt, Slot};
use sem_bits::Bits;
use sem_expr::Side;
use sem_profile::{Bounds, Field, Format, FormatSizes, Part, is_listed};
use smallvec::SmallVec;
use sqlite_items::at;
use std::alloc::{AllocError, Global};

/// How many bits the side of the field has, where that is known.
pub(crate) fn length_at(slots: &[Slot], field: usize, side: Side) -> Option<usize>
    ensures { result ≡ spec.length_of (learnt_at slots.now field side) }
{
    let slot = at(slots, field)?;
    match side {
        Side::Uncompressed => length_of(&slot.uncompressed),
        Side::Compressed => length_of(&slot.compressed),
    }
}

/// The bits of the side of the field, where they are known.
pub(crate) fn bits_at(slots: &[Slot], field: usize, side: Side) -> Option<&Bits>
    ensures { option_copied result ≡ spec.whole_of (learnt_at slots.now field side) }
{
    let slot = at(slots, field)?;
    match side {
        Side::Uncompressed => bits_of(&slot.uncompressed),
        Side::Compressed => bits_of(&slot.compressed),
    }
}

/// Learns what was found of a side of the field. Whether it can be so; if not, nothing changes.
pub(crate) fn learn_at(
    slots: &mut Vec<Slot>,
    field: usize,
    side: Side,
    bounds: Bounds,
    found: Learnt,
) -> bool
    requires within { field < length slots.old.items }
    ensures learnt { IsTrue result → spec.LearnsAt bounds field side found slots.old.items slots.new.items }
    ensures refused { result ≡ false → (bits : List Bool) → HasSide bits (learnt_at slots.old.items field side) → HasSide bits found → LiesBetween bounds (length bits) → ⊥ }
    ensures stays { result ≡ false → slots.new.items ≡ slots.old.items }
{
    match side {
        Side::Uncompressed => learn(&mut slots[field].uncompressed, bounds, found),
        Side::Compressed => learn(&mut slots[field].compressed, bounds, found),
    }
}

/// What is known at the start of a walk: a field that is not listed has no packed bits.
pub(crate) fn at_start(alloc: Global, format: &Format) -> Result<Vec<Slot>, AllocError>
    ensures { IfOk result (λ v. v.items ≡ start_slots format.now.listing 0 format.now.fields) }
{
    let mut slots = Vec::with_capacity(alloc, format.fields.len())?;
    for (index, _) in format.fields.as_slice().iter().enumerate() {
        let compressed = if is_listed(format, index) {
            Learnt::Nothing
        } else {
            Learnt::Whole(Bits::new(alloc))
        };
        slots.push(Slot {
            uncompressed: Learnt::Nothing,
            compressed,
            inner: None,
        })?;
    }
    Ok(slots)
}

/// Whether each field that is not listed may have no packed bits, by its bounds.
pub(crate) fn are_unsent(format: &Format, sizes: &FormatSizes) -> bool
    ensures { IsTrue result ↔ AreUnsent format.now sizes.now }
{
    let sizes = sizes.fields.as_slice();
    for i in 0..sizes.len() {
        if sizes[i].compressed.least > 0 && !is_listed(format, i) {
            return false;
        }
    }
    true
}

/// Places of fields, of which most formats have few: these take no memory of their own.
pub(crate) type Places = SmallVec<usize, 8>;

/// The header fields of the format, by their indices.
pub(crate) fn headers_of(alloc: Global, fields: &[Field]) -> Result<Places, AllocError>
    ensures { IfOk result (λ places. places.items ≡ header_places 0 fields.now) }
{
    let mut places = SmallVec::new(alloc);
    for (index, field) in fields.iter().enumerate() {
        if is_header(field) {
            places.push(index)?;
        }
    }
    Ok(places)
}

fn is_header(field: &Field) -> bool
    ensures { result ≡ fillings.is_header field.now.declared.part }
{
    match field.declared.part {
        Part::Header => true,
        Part::Control | Part::Local => false,
    }
}
