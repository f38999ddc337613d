//! What is seen of the fields of a format.

ghost use Rattle.std.specs.Prelude.{◌≡◌, ◌+◌, ◌≤◌, IfOk, OnOk, Some, None, filter, length, slice_get};
ghost use Rattle.sem_expr.specs.Bounds.{bounding_of};
ghost use Rattle.sem_reasons.specs.Full as full;
ghost use Rattle.sem_reasons.specs.Looks as spec;
ghost use Rattle.sem_reasons.specs.Settings.{setting_of};
ghost use Rattle.sem_reasons.specs.Told as told;

use crate::across::{other_side, with_values};
use crate::figures::is_same_side;
use crate::places::held;
use crate::question::Question;
use crate::sight::ObservedSides;
use sem_bits::Bits;
use sem_expr::{Ranges, Side};
use sem_filling::whole_sides::reference_below;
use sem_profile::{Encoding, Field, Format, FormatSizes, Library};
use sqlite_items::{Items, at};
use std::alloc::{AllocError, Global};

/// What a look at a format of the question's method goes by: its bounds, the fields on the question's side in order, their lengths on that side where they are known, and the
/// ranges of its numbers by the bounds.
#[derive(Clone, Copy)]
pub(crate) struct Look<'a> {
    pub(crate) question: Question<'a>,
    pub(crate) format: &'a Format,
    pub(crate) sizes: &'a FormatSizes,
    pub(crate) order: &'a [usize],
    pub(crate) lengths: &'a [Option<u128>],
    pub(crate) base: &'a Ranges,
}

/// What is seen of each field. The error is out of memory.
pub(crate) fn sights(
    alloc: Global,
    look: &Look<'_>,
    format: usize,
) -> Result<Items<ObservedSides>, AllocError>
    requires { spec.IsLook look.now format }
    ensures { IfOk result (full.AreInFull (setting_of look.now.question) look.now.format.now look.now.sizes.now) }
{
    let mut found = Items::new(alloc);
    for index in 0..look.format.fields.len() {
        add_sight(alloc, look, format, index, &mut found)?;
    }
    Ok(found)
}

/// Adds what is seen of the next field.
fn add_sight(
    alloc: Global,
    look: &Look<'_>,
    format: usize,
    index: usize,
    found: &mut Items<ObservedSides>,
) -> Result<(), AllocError>
    requires { spec.IsLook look.now format }
    ensures { OnOk result (spec.SoFar look.now found.old index → spec.SoFar look.now found.new (index + 1)) }
{
    let sight = sight_at(alloc, look, format, index)?;
    found.push(sight)
}

/// What is seen of the field.
fn sight_at(
    alloc: Global,
    look: &Look<'_>,
    format: usize,
    index: usize,
) -> Result<ObservedSides, AllocError>
    requires { spec.IsLook look.now format }
    ensures { IfOk result (spec.SeenOf look.now index) }
{
    match look.format.fields.get(index) {
        Some(field) => sight_of(alloc, look, format, index, field),
        None => Ok(ObservedSides {
            uncompressed: None,
            compressed: None,
        }),
    }
}

/// What is seen of this field.
fn sight_of(
    alloc: Global,
    look: &Look<'_>,
    format: usize,
    index: usize,
    field: &Field,
) -> Result<ObservedSides, AllocError>
    requires look { spec.IsLook look.now format }
    requires at { slice_get look.now.format.now.fields index ≡ Some field.now }
    ensures { IfOk result (spec.SeenOf look.now index) }
{
    match first_told(alloc, look, format, index, field, Side::Uncompressed)? {
        Some(up) => with_header(alloc, look, format, index, field, up),
        None => without_header(alloc, look, format, index, field),
    }
}

/// What is seen where the uncompressed side is told.
fn with_header(
    alloc: Global,
    look: &Look<'_>,
    format: usize,
    index: usize,
    field: &Field,
    up: Bits,
) -> Result<ObservedSides, AllocError>
    requires look { spec.IsLook look.now format }
    requires at { slice_get look.now.format.now.fields index ≡ Some field.now }
    requires told { spec.FirstOf look.now index field.now Side.Uncompressed ≡ Some up }
    ensures { IfOk result (spec.SeenOf look.now index) }
{
    let down = packed_beside(alloc, look, format, index, field, &up)?;
    Ok(ObservedSides {
        uncompressed: Some(up),
        compressed: down,
    })
}

/// The compressed side, where the uncompressed one is told.
fn packed_beside(
    alloc: Global,
    look: &Look<'_>,
    format: usize,
    index: usize,
    field: &Field,
    up: &Bits,
) -> Result<Option<Bits>, AllocError>
    requires look { spec.IsLook look.now format }
    requires at { slice_get look.now.format.now.fields index ≡ Some field.now }
    requires told { spec.FirstOf look.now index field.now Side.Uncompressed ≡ Some up.now }
    ensures { IfOk result (spec.SeenOn look.now index field.now Side.Compressed) }
{
    match first_told(alloc, look, format, index, field, Side::Compressed)? {
        Some(down) => Ok(Some(down)),
        None => across(alloc, look, format, field, Side::Uncompressed, up),
    }
}

/// What is seen where the uncompressed side is not told first.
fn without_header(
    alloc: Global,
    look: &Look<'_>,
    format: usize,
    index: usize,
    field: &Field,
) -> Result<ObservedSides, AllocError>
    requires look { spec.IsLook look.now format }
    requires at { slice_get look.now.format.now.fields index ≡ Some field.now }
    requires none { spec.FirstOf look.now index field.now Side.Uncompressed ≡ None }
    ensures { IfOk result (spec.SeenOf look.now index) }
{
    match first_told(alloc, look, format, index, field, Side::Compressed)? {
        Some(down) => with_packed(alloc, look, format, index, field, down),
        None => Ok(ObservedSides {
            uncompressed: None,
            compressed: None,
        }),
    }
}

/// What is seen where the compressed side alone is told first.
fn with_packed(
    alloc: Global,
    look: &Look<'_>,
    format: usize,
    index: usize,
    field: &Field,
    down: Bits,
) -> Result<ObservedSides, AllocError>
    requires look { spec.IsLook look.now format }
    requires at { slice_get look.now.format.now.fields index ≡ Some field.now }
    requires none { spec.FirstOf look.now index field.now Side.Uncompressed ≡ None }
    requires told { spec.FirstOf look.now index field.now Side.Compressed ≡ Some down }
    ensures { IfOk result (spec.SeenOf look.now index) }
{
    let up = across(alloc, look, format, field, Side::Compressed, &down)?;
    Ok(ObservedSides {
        uncompressed: up,
        compressed: Some(down),
    })
}

/// What is told first of a side: no bits, where the field's method leaves it empty; else the value that is asked for; else the bits at its place.
fn first_told(
    alloc: Global,
    look: &Look<'_>,
    format: usize,
    index: usize,
    field: &Field,
    side: Side,
) -> Result<Option<Bits>, AllocError>
    requires look { spec.IsLook look.now format }
    requires at { slice_get look.now.format.now.fields index ≡ Some field.now }
    ensures { IfOk result (λ o. o ≡ spec.FirstOf look.now index field.now side) }
{
    if leaves_empty(field.encoding.get(), side) {
        return Ok(Some(Bits::new(alloc)));
    }
    match asked_side(alloc, look, index, field, side)? {
        Some(asked) => Ok(Some(asked)),
        None => placed_side(alloc, look, format, index, side),
    }
}

/// The value that is asked for, where the side is the one that has it.
fn asked_side(
    alloc: Global,
    look: &Look<'_>,
    index: usize,
    field: &Field,
    side: Side,
) -> Result<Option<Bits>, AllocError>
    requires at { slice_get look.now.format.now.fields index ≡ Some field.now }
    ensures { IfOk result (λ o. o ≡ full.asked_side (setting_of look.now.question) look.now.format.now index field.now side) }
{
    match side {
        Side::Uncompressed => asked_bits(alloc, look, index, field),
        Side::Compressed => Ok(None),
    }
}

/// The value that is asked for, if the field is an asked one.
fn asked_bits(
    alloc: Global,
    look: &Look<'_>,
    index: usize,
    field: &Field,
) -> Result<Option<Bits>, AllocError>
    requires at { slice_get look.now.format.now.fields index ≡ Some field.now }
    ensures { IfOk result (λ o. o ≡ full.asked_side (setting_of look.now.question) look.now.format.now index field.now Side.Uncompressed) }
{
    if field.declared.asked {
        asked_value(alloc, look, index)
    } else {
        Ok(None)
    }
}

/// The value that is asked for of the asked field of that index.
fn asked_value(alloc: Global, look: &Look<'_>, index: usize) -> Result<Option<Bits>, AllocError>
    requires within { index ≤ length look.now.format.now.fields }
    ensures { IfOk result (λ o. o ≡ full.asked_value (setting_of look.now.question) look.now.format.now index) }
{
    let before = asked_before(look.format.fields.as_slice(), index);
    let Some(value) = at(look.question.asked, before) else {
        return Ok(None);
    };
    let bits = value.bits.copy(alloc)?;
    Ok(Some(bits))
}

/// How many of the fields before the one of that index are asked.
fn asked_before(fields: &[Field], index: usize) -> usize
    requires within { index ≤ length fields.now }
    ensures { result ≡ told.asked_before fields.now index }
{
    asked_among(&fields[..index])
}

/// How many of these fields are asked.
fn asked_among(fields: &[Field]) -> usize
    ensures { result ≡ length (filter (λ other. other.declared.asked) fields.now) }
{
    let mut count = 0;
    for other in fields {
        if other.declared.asked {
            count += 1;
        }
    }
    count
}

/// The bits at the place of the field, where the side is the one that is asked for.
fn placed_side(
    alloc: Global,
    look: &Look<'_>,
    format: usize,
    index: usize,
    side: Side,
) -> Result<Option<Bits>, AllocError>
    requires { spec.IsLook look.now format }
    ensures { IfOk result (λ o. o ≡ full.placed_side (setting_of look.now.question) look.now.format.now look.now.sizes.now index side) }
{
    if is_same_side(side, look.question.side) {
        held(alloc, look.order, look.lengths, look.question.bits, index)
    } else {
        Ok(None)
    }
}

/// The other side, by this one.
fn across(
    alloc: Global,
    look: &Look<'_>,
    format: usize,
    field: &Field,
    side: Side,
    own: &Bits,
) -> Result<Option<Bits>, AllocError>
    requires { spec.IsLook look.now format }
    ensures { IfOk result (spec.AcrossOf look.now field.now side own.now) }
{
    match field.encoding.get() {
        Encoding::Library(library) => {
            across_library(alloc, look, format, field, library, side, own)
        }
        Encoding::Bare | Encoding::Call { .. } => Ok(None),
    }
}

/// The other side, by this one and a library method of which each argument has one value by the bounds.
fn across_library(
    alloc: Global,
    look: &Look<'_>,
    format: usize,
    field: &Field,
    library: &Library,
    side: Side,
    own: &Bits,
) -> Result<Option<Bits>, AllocError>
    requires { spec.IsLook look.now format }
    ensures { IfOk result (full.IsAcross (full.plain_library (bounding_of (told.base_ranges (setting_of look.now.question) look.now.sizes.now)) library.now) (told.reference_in (setting_of look.now.question) field.now) side own.now) }
{
    if is_crc(library) {
        return Ok(None);
    }
    let Some(method) = with_values(library, look.base) else {
        return Ok(None);
    };
    let reference = reference_below(alloc, look.question.context, look.question.path, field)?;
    let covered = Bits::new(alloc);
    other_side(alloc, method, &covered, reference, side, own)
}

fn is_crc(library: &Library) -> bool
    ensures { result ≡ told.is_crc library.now }
{
    matches!(library, Library::Crc(_))
}

/// Whether the method leaves that side of its field empty.
fn leaves_empty(encoding: &Encoding, side: Side) -> bool
    ensures { result ≡ told.leaves_empty encoding.now side }
{
    match encoding {
        Encoding::Library(library) => match library {
            Library::UncompressedValue { .. } | Library::Static => side == Side::Compressed,
            Library::CompressedValue { .. } | Library::Crc(_) => side == Side::Uncompressed,
            Library::Irregular { .. } | Library::Lsb { .. } => false,
        },
        Encoding::Bare | Encoding::Call { .. } => false,
    }
}
