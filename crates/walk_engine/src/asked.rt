//! Whether an item's values are those of the asked fields.

ghost use Rattle.std.specs.Prelude.{◌≡◌};
ghost use Rattle.std.specs.Option.{option_map};
ghost use Rattle.walk_engine.specs.Asked as spec;

use sem_bits::Bits;
use sem_filling::AskedValue;
use sem_profile::{AskedField, Name};

/// The name to blame where the values aren't those of the asked fields, in their order and of their lengths.
pub(crate) fn wrong_asked<'a>(
    fields: &'a [AskedField],
    values: &'a [AskedValue],
) -> Option<&'a Name>
    ensures { option_map (λ n. n.now) result ≡ spec.wrong_asked fields.now values.now }
{
    match first_lacking(fields, values) {
        Some(name) => Some(name),
        None => first_odd(fields, values),
    }
}

/// The name of the first field whose first value isn't of its length, or that has none.
fn first_lacking<'a>(fields: &'a [AskedField], values: &[AskedValue]) -> Option<&'a Name>
    ensures { option_map (λ n. n.now) result ≡ spec.first_lacking fields.now values.now }
{
    for field in fields {
        if !has_count(field.length, first_of(field.name.as_str(), values)) {
            return Some(&field.name);
        }
    }
    None
}

/// The first value of the name.
fn first_of<'a>(name: &str, values: &'a [AskedValue]) -> Option<&'a Bits>
    ensures { option_map (λ b. b.now) result ≡ spec.first_of name.now values.now }
{
    for value in values {
        if name == value.name.as_str() {
            return Some(&value.bits);
        }
    }
    None
}

/// Whether there are bits, as many as that.
fn has_count(count: i128, bits: Option<&Bits>) -> bool
    ensures { result ≡ spec.has_count count (option_map (λ b. b.now) bits.entry) }
{
    match bits {
        Some(bits) => count == bits.len() as i128,
        None => false,
    }
}

/// The name of the first value that isn't in the place of its field.
fn first_odd<'a>(fields: &[AskedField], values: &'a [AskedValue]) -> Option<&'a Name>
    ensures { option_map (λ n. n.now) result ≡ spec.first_odd fields.now values.now }
{
    for (i, value) in values.iter().enumerate() {
        match fields.get(i) {
            Some(field) => {
                if field.name.as_str() != value.name.as_str() {
                    return Some(&value.name);
                }
            }
            None => return Some(&value.name),
        }
    }
    None
}
