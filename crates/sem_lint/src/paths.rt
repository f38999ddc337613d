//! Paths of a context at which a profile has no field.

ghost use Rattle.std.specs.Prelude.{◌≡◌, ◌++◌, ◌∷◌, [], ◌≤◌, ◌<◌, ◌||◌, ◌&&◌, not, nat_eq, true, false, length, take, drop, ◌+◌, get_or, map, IfOk, OnOk, slice_get, option_map};
ghost use Rattle.std.specs.Bool.{Decides};
ghost use Rattle.std.specs.List.{list_all, list_any};
ghost use Rattle.std.specs.Option.{option_copied};
ghost use Rattle.sem_profile.specs.Named.{AreWords};
ghost use Rattle.sem_lint.specs.Paths as spec;

use sem_profile::{Encoding, Field, Format, Method, Part, Profile};
use sqlite_items::Items;
use std::alloc::{AllocError, Global};

/// Those of the paths at which no format has a header or control field. The error is out of memory.
pub fn unknown_paths<'a>(
    alloc: Global,
    profile: &Profile,
    given: &[&'a str],
) -> Result<Items<&'a str>, AllocError>
    ensures { IfOk result (λ found. spec.AreThose (spec.IsUnknown profile.now) (map (λ p. p.now) given.now) (map (λ p. p.now) found)) }
{
    profile.keeps();
    let mut found = Items::new(alloc);
    for path in given {
        add_unknown(alloc, profile.methods(), profile.top(), path, &mut found)?;
    }
    Ok(found)
}

/// Adds a path, where no field is there.
fn add_unknown<'a>(
    alloc: Global,
    methods: &[Method],
    top: usize,
    path: &'a str,
    found: &mut Items<&'a str>,
) -> Result<(), AllocError>
    requires { AreWords methods.now }
    ensures { OnOk result (spec.IsNoted methods.now top path.now (map (λ p. p.now) found.old) (map (λ p. p.now) found.new)) }
{
    if leads_to_field(alloc, methods, top, path.as_bytes())? {
        return Ok(());
    }
    push_path(path, found)?;
    Ok(())
}

fn push_path<'a>(path: &'a str, found: &mut Items<&'a str>) -> Result<(), AllocError>
    ensures { OnOk result (map (λ p. p.now) found.new ≡ map (λ p. p.now) found.old ++ path.now ∷ []) }
{
    found.push(path)
}

/// Whether the path leads from a method to a header or control field.
fn leads_to_field(
    alloc: Global,
    methods: &[Method],
    top: usize,
    path: &[u8],
) -> Result<bool, AllocError>
    requires { AreWords methods.now }
    ensures { IfOk result (λ is. Decides is (spec.LeadsToField methods.now top path.now)) }
{
    let mut reached = Items::new(alloc);
    reached.push(top)?;
    let mut rest = path;
    let mut place = first_dot(rest);
    while place < rest.len() {
        reached = called_from(alloc, methods, reached.as_slice(), before(rest, place))?;
        rest = behind(rest, place);
        place = first_dot(rest);
    }
    Ok(any_keeps(methods, reached.as_slice(), rest))
}

/// What stands before a place.
fn before(text: &[u8], place: usize) -> &[u8]
    requires { place < length text.now }
    ensures { result.now ≡ take place text.now }
{
    &text[..place]
}

/// What stands behind a place.
fn behind(text: &[u8], place: usize) -> &[u8]
    requires { place < length text.now }
    ensures { result.now ≡ drop (place + 1) text.now }
{
    &text[place + 1..]
}

/// The place of the first dot, or the length where there is none.
fn first_dot(text: &[u8]) -> usize
    ensures within { result ≤ length text.now }
    ensures front { list_all (λ b. not (nat_eq b 46)) (take result text.now) ≡ true }
    ensures dot { result < length text.now → get_or text.now result 0 ≡ 46 }
{
    for (place, octet) in text.iter().enumerate() {
        if *octet == b'.' {
            return place;
        }
    }
    text.len()
}

/// The methods that some of these call by a field of that name, each once.
fn called_from(
    alloc: Global,
    methods: &[Method],
    reached: &[usize],
    name: &[u8],
) -> Result<Items<usize>, AllocError>
    ensures { IfOk result (λ found. (m : _) → spec.has found m ≡ spec.any_calls methods.now reached.now name.now m) }
{
    let mut found = Items::new(alloc);
    for method in reached {
        add_called(methods, *method, name, &mut found)?;
    }
    Ok(found)
}

fn add_called(
    methods: &[Method],
    method: usize,
    name: &[u8],
    found: &mut Items<usize>,
) -> Result<(), AllocError>
    ensures { OnOk result ((m : _) → spec.has found.new m ≡ (spec.has found.old m || spec.calls methods.now method name.now m)) }
{
    let Some(method) = methods.get(method) else {
        return Ok(());
    };
    add_of_formats(method.formats.as_slice(), name, found)
}

fn add_of_formats(
    formats: &[Format],
    name: &[u8],
    found: &mut Items<usize>,
) -> Result<(), AllocError>
    ensures { OnOk result ((m : _) → spec.has found.new m ≡ (spec.has found.old m || list_any (spec.calls_in name.now m) formats.now)) }
{
    for format in formats {
        add_of_fields(format.fields.as_slice(), name, found)?;
    }
    Ok(())
}

fn add_of_fields(fields: &[Field], name: &[u8], found: &mut Items<usize>) -> Result<(), AllocError>
    ensures { OnOk result ((m : _) → spec.has found.new m ≡ (spec.has found.old m || list_any (spec.calls_by name.now m) fields.now)) }
{
    for field in fields {
        add_of_field(field, name, found)?;
    }
    Ok(())
}

fn add_of_field(field: &Field, name: &[u8], found: &mut Items<usize>) -> Result<(), AllocError>
    ensures { OnOk result ((m : _) → spec.has found.new m ≡ (spec.has found.old m || spec.calls_by name.now m field.now)) }
{
    if field.declared.name.as_str().as_bytes() != name {
        return Ok(());
    }
    match called_by(field.encoding.get()) {
        Some(method) => add_new(method, found),
        None => Ok(()),
    }
}

/// Adds a method, unless it is there.
fn add_new(method: usize, found: &mut Items<usize>) -> Result<(), AllocError>
    ensures { OnOk result ((m : _) → spec.has found.new m ≡ (spec.has found.old m || nat_eq method m)) }
{
    if is_there(found.as_slice(), method) {
        return Ok(());
    }
    found.push(method)
}

fn is_there(found: &[usize], method: usize) -> bool
    ensures { result ≡ spec.has found.now method }
{
    for known in found {
        if *known == method {
            return true;
        }
    }
    false
}

/// The method that a field calls.
pub(crate) fn called_by(encoding: &Encoding) -> Option<usize>
    ensures { result ≡ spec.called_by encoding.now }
{
    match encoding {
        Encoding::Call {
            method,
            arguments: _,
        } => Some(*method),
        Encoding::Bare | Encoding::Library(_) => None,
    }
}

/// Whether one of these methods has a header or control field of that name.
fn any_keeps(methods: &[Method], reached: &[usize], name: &[u8]) -> bool
    ensures { result ≡ list_any (λ k. spec.keeps methods.now k name.now) reached.now }
{
    for method in reached {
        if keeps(methods, *method, name) {
            return true;
        }
    }
    false
}

/// Whether a method has a header or control field of that name.
pub(crate) fn keeps(methods: &[Method], method: usize, name: &[u8]) -> bool
    ensures { result ≡ spec.keeps methods.now method name.now }
{
    match methods.get(method) {
        Some(method) => any_format_keeps(method.formats.as_slice(), name),
        None => false,
    }
}

fn any_format_keeps(formats: &[Format], name: &[u8]) -> bool
    ensures { result ≡ list_any (spec.keeps_in name.now) formats.now }
{
    for format in formats {
        if any_field_keeps(format.fields.as_slice(), name) {
            return true;
        }
    }
    false
}

fn any_field_keeps(fields: &[Field], name: &[u8]) -> bool
    ensures { result ≡ list_any (spec.keeps_by name.now) fields.now }
{
    for field in fields {
        if keeps_by(field, name) {
            return true;
        }
    }
    false
}

/// Whether it is a header or control field of that name.
pub(crate) fn keeps_by(field: &Field, name: &[u8]) -> bool
    ensures { result ≡ spec.keeps_by name.now field.now }
{
    is_kept(field) && field.declared.name.as_str().as_bytes() == name
}

pub(crate) fn is_kept(field: &Field) -> bool
    ensures { result ≡ not (spec.is_local field.now.declared.part) }
{
    match field.declared.part {
        Part::Local => false,
        Part::Header | Part::Control => true,
    }
}
