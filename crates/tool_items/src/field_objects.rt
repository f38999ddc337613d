//! What `fields` lists of a filling, as an object.

ghost use Rattle.std.specs.Prelude.{◌≡◌, ◌++◌, ◌+◌, IfOk, OnOk, option_map, string_bytes};
ghost use Rattle.std.specs.Option.{option_copied};
ghost use Rattle.sem_filling.specs.Fillings.{inner_of, sides_of};
ghost use Rattle.sem_filling.specs.declared.filling.Filling.{out-Filling};
ghost use Rattle.tool_items.specs.FieldObjects as spec;

use crate::fields::{HeadLine, library_word, part_word};
use sem_filling::{FilledField, Filling};
use sem_profile::{Encoding, Method};
use std::alloc::{AllocError, Global};
use tool_names::names::{callee, encoding_at, format_name, method_name};
use tool_names::objects::Object;

/// The object of a filling of the top, as a line: what it is of, its number, its format, how many bits the packet has, and its fields, each with its part, its two
/// sides and what encodes it. Behind a field stand those of the filling inside it, deeper by one. The error is out of memory.
pub fn fields_object(
    alloc: Global,
    methods: &[Method],
    top: usize,
    head: HeadLine<'_>,
    filling: &Filling,
) -> Result<String, AllocError>
    ensures { IfOk result (λ text. string_bytes text ≡ spec.fields_object methods.now top head.entry.what.now head.entry.number head.entry.bits filling.now) }
{
    let mut object = headed(alloc, head, format_name(methods, top, filling.format))?;
    object.begin_array("fields")?;
    add_fields(filling, alloc, &mut object, methods, top, 0)?;
    object.end_array()?;
    let mut text = String::new(alloc);
    object.push_line(&mut text)?;
    Ok(text)
}

/// The object of a filling, but for its fields.
fn headed(alloc: Global, head: HeadLine<'_>, format: &str) -> Result<Object, AllocError>
    ensures { IfOk result (λ object. object ≡ spec.headed head.entry.what.now head.entry.number format.now head.entry.bits) }
{
    let mut object = Object::new(alloc)?;
    object.text("kind", head.what)?;
    object.number("number", head.number)?;
    object.text("format", format)?;
    object.number("bits", head.bits)?;
    Ok(object)
}

/// Adds the fields of a filling of a method, by its number, so deep inside others.
fn add_fields(
    filling: &Filling,
    alloc: Global,
    object: &mut Object,
    methods: &[Method],
    method: usize,
    depth: usize,
) -> Result<(), AllocError>
    ensures { OnOk result (object.new ≡ object.old ++ (spec.listed methods.now filling.now).tokens method depth) }
{
    for (i, field) in filling.fields.as_slice().iter().enumerate() {
        let encoding = encoding_at(methods, method, filling.format, i);
        add_field(alloc, object, methods, encoding, depth, field)?;
        if let Some(inner) = &field.inner {
            if let Some(callee) = callee(encoding) {
                let further = further_in(depth)?;
                add_fields(inner, alloc, object, methods, callee, further)?;
            }
        }
    }
    Ok(())
}

/// One field further in.
fn further_in(depth: usize) -> Result<usize, AllocError>
    ensures { IfOk result (λ further. further ≡ depth + 1) }
{
    match depth.checked_add(1) {
        Some(further) => Ok(further),
        None => Err(AllocError),
    }
}

fn add_field(
    alloc: Global,
    object: &mut Object,
    methods: &[Method],
    encoding: Option<&Encoding>,
    depth: usize,
    field: &FilledField,
) -> Result<(), AllocError>
    ensures { OnOk result (object.new ≡ object.old ++ spec.field_tokens methods.now (option_copied encoding.entry) depth (sides_of field.now).declared (sides_of field.now).uncompressed (sides_of field.now).compressed (option_map (λ f. (out-Filling f).format) (inner_of field.now))) }
{
    let name = field.declared.name.as_str();
    add_declared(object, depth, name, part_word(field.declared.part))?;
    add_sides(alloc, object, field)?;
    add_method(object, methods, encoding, format_of(&field.inner))?;
    object.end_object()
}

/// Begins an object, with how deep it is, the field's name and its part.
fn add_declared(object: &mut Object, depth: usize, name: &str, part: &str) -> Result<(), AllocError>
    ensures { OnOk result (object.new ≡ object.old ++ spec.declared_tokens depth name.now part.now) }
{
    object.begin_element()?;
    object.number("depth", depth)?;
    object.text("name", name)?;
    object.text("part", part)
}

/// Adds both sides of a field.
fn add_sides(alloc: Global, object: &mut Object, field: &FilledField) -> Result<(), AllocError>
    ensures { OnOk result (object.new ≡ object.old ++ spec.sides_tokens (sides_of field.now).uncompressed (sides_of field.now).compressed) }
{
    object.bits(alloc, "uncompressed", &field.uncompressed)?;
    object.bits(alloc, "compressed", &field.compressed)
}

fn format_of(inner: &Option<Filling>) -> Option<usize>
    ensures { result ≡ option_map (λ f. (out-Filling f).format) inner.now }
{
    match inner {
        Some(filling) => Some(filling.format),
        None => None,
    }
}

/// Adds what encodes a field, and the format of the filling inside it.
fn add_method(
    object: &mut Object,
    methods: &[Method],
    encoding: Option<&Encoding>,
    inside: Option<usize>,
) -> Result<(), AllocError>
    ensures { OnOk result (object.new ≡ object.old ++ spec.method_members methods.now (option_copied encoding.entry) inside) }
{
    match encoding {
        None => add_none(object),
        Some(Encoding::Bare) => add_none(object),
        Some(Encoding::Library(library)) => add_library(object, library_word(library)),
        Some(Encoding::Call { method, .. }) => add_call(object, methods, *method, inside),
    }
}

fn add_none(object: &mut Object) -> Result<(), AllocError>
    ensures { OnOk result (object.new ≡ object.old ++ spec.none_members) }
{
    object.null("method")?;
    object.null("format")
}

fn add_library(object: &mut Object, word: &str) -> Result<(), AllocError>
    ensures { OnOk result (object.new ≡ object.old ++ spec.library_members word.now) }
{
    object.text("method", word)?;
    object.null("format")
}

/// Adds a method of the profile, and the format of its filling.
fn add_call(
    object: &mut Object,
    methods: &[Method],
    method: usize,
    inside: Option<usize>,
) -> Result<(), AllocError>
    ensures { OnOk result (object.new ≡ object.old ++ spec.call_members methods.now method inside) }
{
    object.text("method", method_name(methods, method))?;
    match inside {
        Some(format) => object.text("format", format_name(methods, method, format)),
        None => object.null("format"),
    }
}
