//! Methods whose formats don't call alike.
//!
//! They call alike where a header or control field that calls a method in one format calls the same method in each, and no field of one format alone calls any.
//! Then all fillings leave entries at the same paths, whatever their formats are. Of a method that doesn't call alike the first field is told that shows it.

ghost use Rattle.std.specs.Prelude.{◌≡◌, ◌++◌, slice_get, IfOk, OnOk};
ghost use Rattle.std.specs.Option.{option_copied};
ghost use Rattle.sem_lint.specs.Paths as places;
ghost use Rattle.sem_lint.specs.Unlike as spec;

use crate::paths::called_by;
use crate::spelled::is_local;
use sem_profile::{Encoding, Field, Format, Method};
use sqlite_items::Items;
use std::alloc::{AllocError, Global};

/// A call that another format hasn't: the method, the format, the field and the method that it calls, by their indices.
#[derive(Clone, Copy)]
pub struct UnlikeCall {
    pub method: usize,
    pub format: usize,
    pub field: usize,
    pub callee: usize,
}

/// The first such call of each method, in the order of the text. The error is out of memory.
pub fn unlike_calls(alloc: Global, methods: &[Method]) -> Result<Items<UnlikeCall>, AllocError>
    ensures { IfOk result (λ found. found ≡ spec.unlike_calls methods.now) }
{
    let mut found = Items::new(alloc);
    for (index, method) in methods.iter().enumerate() {
        add_of_method(&mut found, index, method)?;
    }
    Ok(found)
}

fn add_of_method(
    found: &mut Items<UnlikeCall>,
    index: usize,
    method: &Method,
) -> Result<(), AllocError>
    ensures { OnOk result (found.new ≡ found.old ++ spec.unlike_method index method.now) }
{
    match first_unlike(index, method.formats.as_slice()) {
        Some(call) => found.push(call),
        None => Ok(()),
    }
}

fn first_unlike(method: usize, formats: &[Format]) -> Option<UnlikeCall>
    ensures { result ≡ spec.unlike_formats method formats.now 0 formats.now }
{
    for (number, format) in formats.iter().enumerate() {
        let found = unlike_in(method, formats, number, format.fields.as_slice());
        if found.is_some() {
            return found;
        }
    }
    None
}

/// The first of a format's fields.
fn unlike_in(
    method: usize,
    formats: &[Format],
    number: usize,
    fields: &[Field],
) -> Option<UnlikeCall>
    ensures { result ≡ spec.unlike_fields method formats.now number 0 fields.now }
{
    for (place, field) in fields.iter().enumerate() {
        let found = unlike_at(method, formats, number, place, field);
        if found.is_some() {
            return found;
        }
    }
    None
}

fn unlike_at(
    method: usize,
    formats: &[Format],
    format: usize,
    field: usize,
    declared: &Field,
) -> Option<UnlikeCall>
    ensures { result ≡ spec.unlike_field method formats.now format field declared.now }
{
    let callee = called_by(declared.encoding.get())?;
    if is_unlike(formats, field, declared, callee) {
        Some(UnlikeCall {
            method,
            format,
            field,
            callee,
        })
    } else {
        None
    }
}

/// Whether the field that calls the method is of one format alone, or calls another method, or none, in another format.
fn is_unlike(formats: &[Format], place: usize, field: &Field, callee: usize) -> bool
    ensures { result ≡ spec.is_unlike formats.now place field.now callee }
{
    is_local(field.declared.part) || !call_it(formats, place, callee)
}

/// Whether the field calls the method in each format.
fn call_it(formats: &[Format], place: usize, callee: usize) -> bool
    ensures { result ≡ spec.call_it place callee formats.now }
{
    for format in formats {
        if !calls_it(format, place, callee) {
            return false;
        }
    }
    true
}

fn calls_it(format: &Format, place: usize, callee: usize) -> bool
    ensures { result ≡ spec.calls_it callee (slice_get format.now.fields place) }
{
    match format.fields.get(place) {
        Some(field) => calls(field.encoding.get(), callee),
        None => true,
    }
}

fn calls(encoding: &Encoding, callee: usize) -> bool
    ensures { result ≡ places.is_some_number (places.called_by encoding.now) callee }
{
    match called_by(encoding) {
        Some(method) => method == callee,
        None => false,
    }
}

/// A law of calls: none is told just where the formats of each method call alike.
#[tactic(auto, using(crate::proofs::UnlikeSilent::silent_where_alike))]
pub fn silent_where_alike()
    ensures { spec.SilentWhereAlike }
{}
