//! The values of asked fields as octets: each in the octets that its bits fill, one after another.

ghost use Rattle.std.specs.Prelude.{◌≡◌, ◌≢◌, ◌<◌, ◌^◌, ℕ, pos, IfOk, IfSome, IfNone, List};
ghost use Rattle.sem_filling.specs.declared.filling.AskedValue.{AskedValue};
ghost use Rattle.walk_session.specs.Asked.{AreValues, IsValueAt, LacksValue, Spells};

use sem_bits::Bits;
use sem_filling::AskedValue;
use sem_profile::AskedField;
use sqlite_items::Items;
use std::alloc::{AllocError, Global};

/// The values of the asked fields that these octets are; None where they are none.
pub(crate) fn values_of(
    alloc: Global,
    fields: &[AskedField],
    octets: &[u8],
) -> Result<Option<Items<AskedValue>>, AllocError>
    ensures some { IfOk result (λ o. IfSome o (AreValues fields.now octets.now)) }
    ensures none { IfOk result (λ o. IfNone o ((values : List AskedValue) → AreValues fields.now octets.now values → ⊥)) }
{
    let mut values = Items::new(alloc);
    let mut place = 0;
    for field in fields {
        match value_at(alloc, field, &octets[place..])? {
            Some(found) => {
                place += found.1;
                values.push(found.0)?;
            }
            None => return Ok(None),
        }
    }
    if place < octets.len() {
        return Ok(None);
    }
    Ok(Some(values))
}

/// The value of a field at the front of octets, and how many of them it is.
fn value_at(
    alloc: Global,
    field: &AskedField,
    octets: &[u8],
) -> Result<Option<(AskedValue, usize)>, AllocError>
    ensures some { IfOk result (λ o. IfSome o (λ found. IsValueAt field.now octets.now found.0 found.1)) }
    ensures none { IfOk result (λ o. IfNone o (LacksValue field.now octets.now)) }
{
    let Some(length) = count_of(field) else {
        return Ok(None);
    };
    let count = (length + 7) / 8;
    if count > octets.len() {
        return Ok(None);
    }
    let Some(bits) = Bits::from_octets(alloc, &octets[..count], length)? else {
        return Ok(None);
    };
    let name = field.name.share()?;
    Ok(Some((AskedValue { name, bits }, count)))
}

/// The length of a field's values as a count of bits, where bits may have it.
fn count_of(field: &AskedField) -> Option<usize>
    ensures some { IfSome result (λ n. (field.now.length ≡ pos n) × (n < 2 ^ 31)) }
    ensures none { IfNone result ((n : ℕ) → n < 2 ^ 31 → field.now.length ≢ pos n) }
{
    if field.length >= 0 && field.length < 2_147_483_648 {
        Some(field.length as usize)
    } else {
        None
    }
}

/// The octets of values, one after another.
pub(crate) fn octets_of(alloc: Global, values: &[AskedValue]) -> Result<Vec<u8>, AllocError>
    ensures { IfOk result (λ v. Spells values.now v.items) }
{
    let mut octets = Vec::new(alloc);
    for value in values {
        let own = value.bits.to_octets(alloc)?;
        octets.extend_from_slice(own.as_slice())?;
    }
    Ok(octets)
}
