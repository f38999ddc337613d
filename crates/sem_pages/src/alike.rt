//! Whether the formats of each method call alike: then all fillings of a method leave entries at the same paths, in the same order.

ghost use Rattle.std.specs.Prelude.{IsTrue, slice_get};
ghost use Rattle.sem_elsewhere.specs.Paths.{CallAlike};
ghost use Rattle.sem_pages.specs.Alike as spec;

use sem_profile::{Encoding, Field, Format, Method, Part};

/// Whether the formats of each method call alike.
pub fn calls_alike(methods: &[Method]) -> bool
    ensures { IsTrue result → CallAlike methods.now }
{
    for method in methods {
        if !are_alike(method.formats.as_slice()) {
            return false;
        }
    }
    true
}

/// Whether the formats call alike, each as the first one, and that as each.
fn are_alike(formats: &[Format]) -> bool
    ensures { IsTrue result → spec.AreFormatsAlike formats.now }
{
    match formats.first() {
        Some(first) => are_as(first.fields.as_slice(), formats),
        None => true,
    }
}

/// Whether the formats call as these fields, and these as they.
fn are_as(first: &[Field], formats: &[Format]) -> bool
    ensures { IsTrue result → spec.AreFormatsAlike formats.now }
{
    for format in formats {
        if !call_as_one_another(format.fields.as_slice(), first) {
            return false;
        }
    }
    true
}

/// Whether the fields call as the others, and these as they.
fn call_as_one_another(fields: &[Field], others: &[Field]) -> bool
    ensures they { IsTrue result → spec.CallAs fields.now others.now }
    ensures others { IsTrue result → spec.CallAs others.now fields.now }
{
    if !call_as(fields, others) {
        return false;
    }
    call_as(others, fields)
}

/// Whether the fields call as the others.
fn call_as(fields: &[Field], others: &[Field]) -> bool
    ensures { IsTrue result → spec.CallAs fields.now others.now }
{
    for i in 0..fields.len() {
        if !calls_as(&fields[i], others, i) {
            return false;
        }
    }
    true
}

/// Whether the field calls nothing, or isn't local and the other at the place calls the same method.
fn calls_as(field: &Field, others: &[Field], place: usize) -> bool
    ensures { IsTrue result → spec.CallsAs field.now (slice_get others.now place) }
{
    let Encoding::Call { method, .. } = field.encoding.get() else {
        return true;
    };
    if let Part::Local = field.declared.part {
        return false;
    }
    match others.get(place) {
        Some(other) => calls(other, *method),
        None => false,
    }
}

/// Whether the field calls the method.
fn calls(field: &Field, method: usize) -> bool
    ensures { IsTrue result → spec.Calls method field.now }
{
    match field.encoding.get() {
        Encoding::Call { method: called, .. } => *called == method,
        Encoding::Bare | Encoding::Library(_) => false,
    }
}
