//! The texts of bits and of items, at the end of what is printed.

ghost use Rattle.std.specs.Prelude.{◌≡◌, ◌≤◌, ◌<◌, ◌*◌, ◌/◌, ◌+◌, ◌-◌, ◌^◌, [], ◌∷◌, ◌++◌, take, length, map, OnOk, codes, decimal, string_bytes};
ghost use Rattle.hex.specs.Hex.{encode_lower};
ghost use Rattle.sem_bits.specs.Number.{enc};
ghost use Rattle.sem_bits.specs.Text.{IsText};
ghost use Rattle.sem_filling.specs.Fillings as sides;
ghost use Rattle.tool_input.specs.ItemTexts.{AreValuesText, HasMore, IsItemText, IsValueText};

use itoa::Buffer;
use sem_bits::{Bits, octets_of};
use sem_filling::{AskedValue, FilledField, Filling, Item};
use std::alloc::{AllocError, Global};

/// Adds the text of bits, as `Bits::print_text` has it. That of at most 64 bits takes no allocation of its own.
pub fn push_bits(alloc: Global, text: &mut String, bits: &Bits) -> Result<(), AllocError>
    ensures { OnOk result (HasMore (λ spelled. IsText spelled bits.now) (string_bytes text.old) (string_bytes text.new)) }
{
    match bits.value() {
        Some(word) => {
            push_word(text, bits.len(), word)?;
            Ok(())
        }
        None => push_long(alloc, text, bits),
    }
}

/// Adds the text of more than 64 bits.
#[inline(never)]
fn push_long(alloc: Global, text: &mut String, bits: &Bits) -> Result<(), AllocError>
    ensures { OnOk result (HasMore (λ spelled. IsText spelled bits.now) (string_bytes text.old) (string_bytes text.new)) }
{
    let octets = bits.to_octets(alloc)?;
    let many = octets.len();
    if many > 64 {
        return push_many(alloc, text, bits.len(), octets.as_slice());
    }
    let mut digits = [0u8; 128];
    push_octets(text, bits.len(), octets.as_slice(), &mut digits[..2 * many])
}

/// Adds a count, a colon and the hex digits of any number of octets.
#[inline(never)]
fn push_many(
    alloc: Global,
    text: &mut String,
    count: usize,
    octets: &[u8],
) -> Result<(), AllocError>
    ensures { OnOk result (string_bytes text.new ≡ string_bytes text.old ++ decimal count ++ 58 ∷ encode_lower octets.now) }
{
    let digits = hex::encode(alloc, octets)?;
    push_digits(text, count, digits.as_str())
}

/// Adds the text of at most 64 bits.
fn push_word(text: &mut String, count: usize, word: u64) -> Result<(), AllocError>
    requires most { count ≤ 64 }
    requires below { word < 2 ^ count }
    ensures { OnOk result (HasMore (λ spelled. IsText spelled (enc count word)) (string_bytes text.old) (string_bytes text.new)) }
{
    let octets = octets_of(word, count);
    let many = (count + 7) / 8;
    let mut digits = [0u8; 16];
    push_octets(text, count, &octets[..many], &mut digits[..2 * many])?;
    Ok(())
}

/// Adds a count, a colon and the hex digits of octets, for which there is room.
#[inline(always)]
fn push_octets(
    text: &mut String,
    count: usize,
    octets: &[u8],
    room: &mut [u8],
) -> Result<(), AllocError>
    requires { length room.old ≡ 2 * length octets.now }
    ensures { OnOk result (string_bytes text.new ≡ string_bytes text.old ++ decimal count ++ 58 ∷ encode_lower octets.now) }
{
    hex::encode_to_slice(octets, room).unwrap();
    // Digits are a text, which the proof knows.
    let digits = unsafe { str::from_utf8_unchecked(room) };
    push_digits(text, count, digits)
}

/// Adds a count, a colon and digits.
#[inline(always)]
fn push_digits(text: &mut String, count: usize, digits: &str) -> Result<(), AllocError>
    ensures { OnOk result (string_bytes text.new ≡ string_bytes text.old ++ decimal count ++ 58 ∷ digits.now) }
{
    let mut buffer = Buffer::new();
    text.push_str(buffer.format(count))?;
    text.push(':')?;
    text.push_str(digits)
}

/// Adds the text of the item of a filling that has this header: the header, then each value of an asked field after a blank.
#[inline(always)]
pub fn push_item_of(
    alloc: Global,
    text: &mut String,
    header: &Bits,
    filling: &Filling,
) -> Result<(), AllocError>
    requires { header.now ≡ sides.header filling.now }
    ensures { OnOk result (HasMore (IsItemText (sides.item filling.now)) (string_bytes text.old) (string_bytes text.new)) }
{
    push_bits(alloc, text, header)?;
    push_asked(alloc, text, filling.fields.as_slice())?;
    Ok(())
}

/// Adds the values of the asked fields, each after a blank.
fn push_asked(alloc: Global, text: &mut String, fields: &[FilledField]) -> Result<(), AllocError>
    ensures { OnOk result (HasMore (AreValuesText (sides.asked_values (map sides.sides_of fields.now))) (string_bytes text.old) (string_bytes text.new)) }
{
    for field in fields {
        if !field.declared.asked {
            continue;
        }
        push_field(alloc, text, field)?;
    }
    Ok(())
}

/// Adds the value of an asked field, after a blank.
#[inline(never)]
fn push_field(alloc: Global, text: &mut String, field: &FilledField) -> Result<(), AllocError>
    ensures { OnOk result (HasMore (IsValueText (sides.value_of field.now)) (string_bytes text.old) (string_bytes text.new)) }
{
    push_named(text, field.declared.name.as_str())?;
    push_bits(alloc, text, &field.uncompressed)?;
    Ok(())
}

/// Adds the text of an item: its header, then each value after a blank.
#[inline(always)]
pub fn push_item_text(alloc: Global, text: &mut String, item: &Item) -> Result<(), AllocError>
    ensures { OnOk result (HasMore (IsItemText item.now) (string_bytes text.old) (string_bytes text.new)) }
{
    push_bits(alloc, text, &item.header)?;
    push_values(alloc, text, item.asked.as_slice())?;
    Ok(())
}

/// Adds the text of values, each after a blank.
fn push_values(alloc: Global, text: &mut String, values: &[AskedValue]) -> Result<(), AllocError>
    ensures { OnOk result (HasMore (AreValuesText values.now) (string_bytes text.old) (string_bytes text.new)) }
{
    for value in values {
        push_value(alloc, text, value)?;
    }
    Ok(())
}

/// Adds the value of a field, after a blank.
fn push_value(alloc: Global, text: &mut String, value: &AskedValue) -> Result<(), AllocError>
    ensures { OnOk result (HasMore (IsValueText value.now) (string_bytes text.old) (string_bytes text.new)) }
{
    push_named(text, value.name.as_str())?;
    push_bits(alloc, text, &value.bits)?;
    Ok(())
}

fn push_named(text: &mut String, name: &str) -> Result<(), AllocError>
    ensures { OnOk result (string_bytes text.new ≡ string_bytes text.old ++ codes " " ++ name.now ++ codes "=") }
{
    text.push(' ')?;
    text.push_str(name)?;
    text.push('=')
}

/// Adds a line.
#[inline(always)]
pub fn push_line(output: &mut String, line: &str) -> Result<(), AllocError>
    ensures { OnOk result (string_bytes output.new ≡ string_bytes output.old ++ line.now ++ 10 ∷ []) }
{
    output.push_str(line)?;
    output.push('\n')
}
