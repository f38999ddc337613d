//! The names and places of a profile's methods, formats and fields, as they are printed.

ghost use Rattle.std.specs.Prelude.{◌≡◌, ◌++◌, codes, IfOk, string_bytes};
ghost use Rattle.std.specs.Option.{option_copied};
ghost use Rattle.cert_text.specs.Text as text;
ghost use Rattle.tool_names.specs.Names as spec;

use sem_profile::{Constraint, Encoding, Field, Format, Method, Name, Shared};
use std::alloc::{AllocError, Global};
use text_source::Span;

/// The name of a method, or `-`.
pub fn method_name(methods: &[Method], method: usize) -> &str
    ensures { result.now ≡ spec.method_name methods.now method }
{
    match methods.get(method) {
        Some(method) => method.name.as_str(),
        None => "-",
    }
}

/// The name of a format of a method, or `-`.
pub fn format_name(methods: &[Method], method: usize, format: usize) -> &str
    ensures { result.now ≡ spec.format_name methods.now method format }
{
    match format_at(methods, method, format) {
        Some(format) => name_of(&format.name),
        None => "-",
    }
}

/// The name of a field of a format; "-" where there is no such field.
pub fn field_name(methods: &[Method], method: usize, format: usize, field: usize) -> &str
    ensures { result.now ≡ spec.field_name methods.now method format field }
{
    match field_at(methods, method, format, field) {
        Some(field) => field.declared.name.as_str(),
        None => "-",
    }
}

/// The names of a method and of a format of it.
pub fn names(
    alloc: Global,
    methods: &[Method],
    method: usize,
    format: usize,
) -> Result<String, AllocError>
    ensures { IfOk result (λ text. string_bytes text ≡ spec.names methods.now method format) }
{
    both(
        alloc,
        method_name(methods, method),
        format_name(methods, method, format),
    )
}

fn both(alloc: Global, name: &str, format: &str) -> Result<String, AllocError>
    ensures { IfOk result (λ text. string_bytes text ≡ name.now ++ codes " " ++ format.now) }
{
    format!(in alloc; "{name} {format}")
}

/// The name, or `-`.
fn name_of(name: &Option<Name>) -> &str
    ensures { result.now ≡ text.name_of name.now }
{
    match name {
        Some(name) => name.as_str(),
        None => "-",
    }
}

/// The format of a method by their places; None where there is none.
pub fn format_at(methods: &[Method], method: usize, format: usize) -> Option<&Format>
    ensures { option_copied result ≡ spec.format_at methods.now method format }
{
    methods.get(method)?.formats.get(format)
}

/// The field of a format by its place; None where there is none.
pub fn field_at(methods: &[Method], method: usize, format: usize, field: usize) -> Option<&Field>
    ensures { option_copied result ≡ spec.field_at methods.now method format field }
{
    format_at(methods, method, format)?.fields.get(field)
}

/// How a field of a format is encoded, where there is such a field.
pub fn encoding_at(
    methods: &[Method],
    method: usize,
    format: usize,
    field: usize,
) -> Option<&Encoding>
    ensures { option_copied result ≡ spec.encoding_at methods.now method format field }
{
    let field = field_at(methods, method, format, field)?;
    Some(field.encoding.get())
}

/// The method that a field calls.
pub fn callee(encoding: Option<&Encoding>) -> Option<usize>
    ensures { result ≡ spec.callee (option_copied encoding.entry) }
{
    match encoding {
        Some(Encoding::Call { method, .. }) => Some(*method),
        _ => None,
    }
}

/// The formats of a method, in the order of the profile text; none where there is no such method.
pub fn formats_of(methods: &[Method], method: usize) -> &[Format]
    ensures { result.now ≡ spec.formats_of methods.now method }
{
    match methods.get(method) {
        Some(method) => method.formats.as_slice(),
        None => &[],
    }
}

/// The constraints of a format, in the order of the profile text; none where there is no such format.
pub fn constraints_at(methods: &[Method], method: usize, format: usize) -> &[Shared<Constraint>]
    ensures { result.now ≡ spec.constraints_at methods.now method format }
{
    match format_at(methods, method, format) {
        Some(format) => format.constraints.as_slice(),
        None => &[],
    }
}

/// The place of a method's name.
pub fn method_place(methods: &[Method], method: usize) -> Span
    ensures { result ≡ spec.method_place methods.now method }
{
    match methods.get(method) {
        Some(method) => method.place,
        None => Span { from: 0, to: 0 },
    }
}
