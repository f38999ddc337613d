//! The filling that is made of what is known of each field.

ghost use Rattle.std.specs.Prelude.{◌≡◌, ◌≤◌, IfOk, IfSome, IfNone, length, map};
ghost use Rattle.sem_filling.specs.Fillings.{inner_of, sides_of};
ghost use Rattle.cert_rules.specs.Reading.{IsMade};
ghost use Rattle.cert_rules.specs.Slots.{slot_sides};
ghost use Rattle.walk_steps.specs.Filled as filled;
ghost use Rattle.walk_steps.specs.Partial as spec;

use cert_rules::{Learnt, Slot};
use sem_filling::{FilledField, Filling};
use sem_profile::{Declared, Field, Format};
use sqlite_items::Items;
use std::alloc::{AllocError, Global};

/// The filling of the format, by its index, that is made of what is known. None where a side of a field isn't known. The error is out of memory.
pub(crate) fn filling_of(
    alloc: Global,
    index: usize,
    format: &Format,
    slots: Vec<Slot>,
) -> Result<Option<Filling>, AllocError>
    requires each { length slots.items ≤ length format.now.fields }
    ensures made { IfOk result (λ o. IfSome o (IsMade index format.now slots.items)) }
    ensures none { IfOk result (λ o. IfNone o (spec.Lacks slots.items)) }
{
    let Some(fields) = filled_fields(alloc, format.fields.as_slice(), slots)? else {
        return Ok(None);
    };
    Ok(Some(Filling {
        format: index,
        listing: format.listing.share()?,
        fields,
    }))
}

/// The fields with what is known of each. None where a side of one isn't known. The error is out of memory.
fn filled_fields(
    alloc: Global,
    fields: &[Field],
    slots: Vec<Slot>,
) -> Result<Option<Items<FilledField>>, AllocError>
    requires each { length slots.items ≤ length fields.now }
    ensures sides { IfOk result (λ o. IfSome o (λ v. map sides_of v ≡ slot_sides fields.now slots.items)) }
    ensures inners { IfOk result (λ o. IfSome o (λ v. map inner_of v ≡ map (λ s. s.inner) slots.items)) }
    ensures none { IfOk result (λ o. IfNone o (spec.Lacks slots.items)) }
{
    let mut filled = Items::from_vec(Vec::with_capacity(alloc, fields.len())?);
    let mut index: usize = 0;
    for slot in slots {
        let Some(field) = filled_field(&fields[index].declared, slot)? else {
            return Ok(None);
        };
        filled.push(field)?;
        index += 1;
    }
    Ok(Some(filled))
}

/// The field with what is known of it. None where a side isn't known. The error is out of memory.
fn filled_field(declared: &Declared, slot: Slot) -> Result<Option<FilledField>, AllocError>
    ensures filled { IfOk result (λ o. IfSome o (filled.IsFilledWith declared.now slot)) }
    ensures none { IfOk result (λ o. IfNone o (filled.LacksSide slot)) }
{
    let Slot {
        uncompressed,
        compressed,
        inner,
    } = slot;
    let Learnt::Whole(uncompressed) = uncompressed else {
        return Ok(None);
    };
    let Learnt::Whole(compressed) = compressed else {
        return Ok(None);
    };
    Ok(Some(FilledField {
        declared: copy_of(declared)?,
        uncompressed,
        compressed,
        inner,
    }))
}

/// A copy, whose name shares its text. The error is out of memory.
fn copy_of(declared: &Declared) -> Result<Declared, AllocError>
    ensures { IfOk result (λ d. d ≡ declared.now) }
{
    Ok(Declared {
        name: declared.name.share()?,
        part: declared.part,
        asked: declared.asked,
    })
}
