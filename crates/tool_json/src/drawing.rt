//! What `draw` draws of a profile, as objects.

ghost use Rattle.std.specs.Prelude.{◌≡◌, ◌++◌, IfOk, OnOk, decimal, string_bytes};
ghost use Rattle.std.specs.Fmt.{signed_decimal};
ghost use Rattle.std.specs.Option.{option_copied};
ghost use Rattle.sem_filling.specs.Bounded.{sizes_at};
ghost use Rattle.tool_json.specs.Drawing as spec;

use itoa::Buffer;
use sem_lint::{Column, columns_at};
use sem_profile::{Bounds, Format, FormatSizes, Method, Profile};
use std::alloc::{AllocError, Global};
use tool_names::names::{callee, encoding_at, field_name, format_name, formats_of, method_name};
use tool_names::objects::Object;

/// An object for each format, those of the top first and then those of the other methods: its names, the bounds of its packed bits, and where the bits of each listed
/// field stand. The error is out of memory.
pub fn drawn_objects(alloc: Global, profile: &Profile) -> Result<String, AllocError>
    ensures { IfOk result (λ text. string_bytes text ≡ spec.drawn_objects profile.now) }
{
    let mut output = String::new(alloc);
    let top = profile.top();
    let formats = formats_of(profile.methods(), top);
    push_method(alloc, &mut output, profile, top, formats)?;
    push_others(alloc, &mut output, profile)?;
    Ok(output)
}

/// Adds the formats of the methods that aren't the top.
fn push_others(alloc: Global, output: &mut String, profile: &Profile) -> Result<(), AllocError>
    ensures { OnOk result (string_bytes output.new ≡ string_bytes output.old ++ spec.others_lines profile.now) }
{
    for (index, method) in profile.methods().iter().enumerate() {
        push_called(alloc, output, profile, index, method)?;
    }
    Ok(())
}

fn push_called(
    alloc: Global,
    output: &mut String,
    profile: &Profile,
    index: usize,
    method: &Method,
) -> Result<(), AllocError>
    ensures { OnOk result (string_bytes output.new ≡ string_bytes output.old ++ spec.called_lines profile.now index method.now) }
{
    if index == profile.top() {
        return Ok(());
    }
    push_method(alloc, output, profile, index, method.formats.as_slice())
}

/// Adds the formats of a method.
fn push_method(
    alloc: Global,
    output: &mut String,
    profile: &Profile,
    method: usize,
    formats: &[Format],
) -> Result<(), AllocError>
    ensures { OnOk result (string_bytes output.new ≡ string_bytes output.old ++ spec.method_lines profile.now method formats.now) }
{
    for (format, _) in formats.iter().enumerate() {
        push_format(alloc, output, profile, method, format)?;
    }
    Ok(())
}

fn push_format(
    alloc: Global,
    output: &mut String,
    profile: &Profile,
    method: usize,
    format: usize,
) -> Result<(), AllocError>
    ensures { OnOk result (string_bytes output.new ≡ string_bytes output.old ++ spec.format_line profile.now method format) }
{
    let object = format_object(alloc, profile, method, format)?;
    object.push_line(output)
}

fn format_object(
    alloc: Global,
    profile: &Profile,
    method: usize,
    format: usize,
) -> Result<Object, AllocError>
    ensures { IfOk result (λ object. object ≡ spec.format_tokens profile.now method format) }
{
    let methods = profile.methods();
    let columns = columns_at(alloc, profile, method, format)?;
    let bounds = packed_bounds(profile, method, format);
    let mut object = diagram(
        alloc,
        method_name(methods, method),
        format_name(methods, method, format),
    )?;
    add_bounds(&mut object, "least", "most", bounds)?;
    object.begin_array("columns")?;
    add_columns(&mut object, methods, method, format, columns.as_slice())?;
    object.end_array()?;
    Ok(object)
}

/// The object of a diagram, but for its bits.
fn diagram(alloc: Global, method: &str, format: &str) -> Result<Object, AllocError>
    ensures { IfOk result (λ object. object ≡ spec.diagram_begun method.now format.now) }
{
    let mut object = Object::new(alloc)?;
    object.text("kind", "diagram")?;
    object.text("method", method)?;
    object.text("format", format)?;
    Ok(object)
}

/// The bounds of a format's packed bits.
fn packed_bounds(profile: &Profile, method: usize, format: usize) -> Bounds
    ensures { result ≡ spec.packed_bounds profile.now.sizes method format }
{
    match sizes_of(profile, method, format) {
        Some(sizes) => sizes.whole.compressed,
        None => Bounds { least: 0, most: 0 },
    }
}

fn sizes_of(profile: &Profile, method: usize, format: usize) -> Option<&FormatSizes>
    ensures { option_copied result ≡ sizes_at profile.now.sizes method format }
{
    profile.sizes().get(method)?.formats.get(format)
}

fn add_bounds(
    object: &mut Object,
    least: &str,
    most: &str,
    bounds: Bounds,
) -> Result<(), AllocError>
    ensures { OnOk result (object.new ≡ object.old ++ spec.bounds_members least.now most.now bounds) }
{
    object.wide(least, bounds.least)?;
    object.wide(most, bounds.most)
}

/// Adds an object for each column.
fn add_columns(
    object: &mut Object,
    methods: &[Method],
    method: usize,
    format: usize,
    columns: &[Column],
) -> Result<(), AllocError>
    ensures { OnOk result (object.new ≡ object.old ++ spec.columns_tokens methods.now method format columns.now) }
{
    for column in columns {
        add_column(object, methods, method, format, *column)?;
    }
    Ok(())
}

fn add_column(
    object: &mut Object,
    methods: &[Method],
    method: usize,
    format: usize,
    column: Column,
) -> Result<(), AllocError>
    ensures { OnOk result (object.new ≡ object.old ++ spec.column_tokens methods.now method format column) }
{
    object.begin_element()?;
    object.text("field", field_name(methods, method, format, column.field))?;
    let called = callee(encoding_at(methods, method, format, column.field));
    add_called(object, methods, called)?;
    add_bounds(object, "offset_least", "offset_most", column.offset)?;
    add_bounds(object, "bits_least", "bits_most", column.width)?;
    add_constant(object, column.constant)?;
    object.end_object()
}

/// Adds the method that a field calls, if it calls one.
fn add_called(
    object: &mut Object,
    methods: &[Method],
    called: Option<usize>,
) -> Result<(), AllocError>
    ensures { OnOk result (object.new ≡ object.old ++ spec.called_member methods.now called) }
{
    match called {
        Some(method) => object.text("calls", method_name(methods, method)),
        None => object.null("calls"),
    }
}

/// Adds the number that the bits spell, if the format gives a constant.
fn add_constant(object: &mut Object, constant: Option<i128>) -> Result<(), AllocError>
    ensures { OnOk result (object.new ≡ object.old ++ spec.constant_member constant) }
{
    match constant {
        Some(number) => add_number(object, number),
        None => object.null("constant"),
    }
}

fn add_number(object: &mut Object, number: i128) -> Result<(), AllocError>
    ensures { OnOk result (object.new ≡ object.old ++ spec.number_member number) }
{
    let mut buffer = Buffer::new();
    object.text("constant", buffer.format(number))
}
