//! What is wrong with the asked values of an item.

ghost use Rattle.std.specs.Prelude.{◌≡◌, ◌++◌, IfOk, codes, decimal, length, string_bytes};
ghost use Rattle.std.specs.Fmt.{signed_decimal};
ghost use Rattle.std.specs.Option.{option_map};
ghost use Rattle.walk_engine.specs.Asked as asking;
ghost use Rattle.tool_run.specs.Asked as spec;

use itoa::Buffer;
use sem_bits::Bits;
use sem_filling::AskedValue;
use sem_profile::AskedField;
use std::alloc::{AllocError, Global};

/// The first field of which the first value has another length or is missing, else that the value of the name isn't in its place.
pub(crate) fn asked_words(
    alloc: Global,
    fields: &[AskedField],
    values: &[AskedValue],
    name: &str,
) -> Result<String, AllocError>
    ensures { IfOk result (λ text. string_bytes text ≡ spec.asked_words fields.now values.now name.now) }
{
    for field in fields {
        let bits = first_of(field.name.as_str(), values);
        if !has_count(field.length, bits) {
            return count_words(alloc, field, bits);
        }
    }
    odd_words(alloc, name)
}

/// The first value of the name.
fn first_of<'a>(name: &str, values: &'a [AskedValue]) -> Option<&'a Bits>
    ensures { option_map (λ b. b.now) result ≡ asking.first_of name.now values.now }
{
    for value in values {
        if name == value.name.as_str() {
            return Some(&value.bits);
        }
    }
    None
}

/// Whether there are bits, as many as that.
fn has_count(count: i128, bits: Option<&Bits>) -> bool
    ensures { result ≡ asking.has_count count (option_map (λ b. b.now) bits.entry) }
{
    match bits {
        Some(bits) => count == bits.len() as i128,
        None => false,
    }
}

fn count_words(alloc: Global, field: &AskedField, bits: Option<&Bits>) -> Result<String, AllocError>
    ensures { IfOk result (λ text. string_bytes text ≡ spec.count_words field.now (option_map (λ b. b.now) bits.entry)) }
{
    match bits {
        Some(bits) => due_words(alloc, field.name.as_str(), bits.len(), field.length),
        None => missing_words(alloc, field.name.as_str()),
    }
}

fn missing_words(alloc: Global, name: &str) -> Result<String, AllocError>
    ensures { IfOk result (λ text. string_bytes text ≡ codes "asked " ++ name.now ++ codes " is missing") }
{
    format!(in alloc; "asked {name} is missing")
}

fn due_words(alloc: Global, name: &str, count: usize, due: i128) -> Result<String, AllocError>
    ensures { IfOk result (λ text. string_bytes text ≡ codes "asked " ++ name.now ++ codes " has " ++ decimal count ++ codes " bits, and " ++ signed_decimal due ++ codes " are due") }
{
    let mut buffer = Buffer::new();
    number_words(alloc, name, count, buffer.format(due))
}

fn number_words(alloc: Global, name: &str, count: usize, due: &str) -> Result<String, AllocError>
    ensures { IfOk result (λ text. string_bytes text ≡ codes "asked " ++ name.now ++ codes " has " ++ decimal count ++ codes " bits, and " ++ due.now ++ codes " are due") }
{
    format!(in alloc; "asked {name} has {count} bits, and {due} are due")
}

fn odd_words(alloc: Global, name: &str) -> Result<String, AllocError>
    ensures { IfOk result (λ text. string_bytes text ≡ spec.odd_words name.now) }
{
    format!(in alloc; "{name} is not asked, or not in its place")
}
