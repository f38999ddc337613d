//! The text of a certificate.

ghost use Rattle.std.specs.Prelude.{◌≡◌, ◌++◌, ◌∷◌, [], IfOk, OnOk, codes, decimal, flat_map, map, slice_get, string_bytes};
ghost use Rattle.cert_text.specs.Text as spec;

use cert_types::{Certificate, FormatPlans, MethodPlans, Node, Plans, Step, Version};
use itoa::Buffer;
use sem_expr::Side;
use sem_profile::Name;
use std::alloc::{AllocError, Global};

/// The text of a certificate: its version, of each method that it names the tree and of each format that it names there the plans, and `end`, each
/// line with a line feed. A name that the certificate doesn't have is printed as `-`.
#[tactic(auto, using(crate::proofs::TextLines::whole_spelled))]
pub fn print(alloc: Global, certificate: &Certificate) -> Result<String, AllocError>
    ensures { IfOk result (λ text. string_bytes text ≡ spec.certificate_text certificate.now) }
{
    let methods = methods_text(alloc, certificate.methods())?;
    let methods = methods.as_str();
    let version = version_word(certificate.version());
    format!(in alloc; "rohcfn-certificate {version}\n{methods}end\n")
}

pub(crate) fn version_word(version: Version) -> &'static str
    ensures { result.now ≡ spec.version_word version }
{
    match version {
        Version::One => "1",
        Version::Two => "2",
    }
}

fn methods_text(alloc: Global, methods: &[Option<MethodPlans>]) -> Result<String, AllocError>
    ensures { IfOk result (λ text. string_bytes text ≡ spec.spelled (flat_map spec.method_lines methods.now)) }
{
    let mut output = String::new(alloc);
    for method in methods {
        let text = entry_text(alloc, method)?;
        output.push_str(text.as_str())?;
    }
    Ok(output)
}

/// A method with its tree and its formats, nothing where there is none.
fn entry_text(alloc: Global, method: &Option<MethodPlans>) -> Result<String, AllocError>
    ensures { IfOk result (λ text. string_bytes text ≡ spec.spelled (spec.method_lines method.now)) }
{
    match method {
        Some(method) => method_text(alloc, method),
        None => Ok(String::new(alloc)),
    }
}

#[tactic(auto, using(crate::proofs::TextLines::method_spelled))]
fn method_text(alloc: Global, method: &MethodPlans) -> Result<String, AllocError>
    ensures { IfOk result (λ text. string_bytes text ≡ spec.spelled (spec.method_lines (Some method.now))) }
{
    let name = method.name.as_str();
    let nodes = nodes_text(alloc, method)?;
    let nodes = nodes.as_str();
    let formats = formats_text(alloc, method.formats.as_slice())?;
    let formats = formats.as_str();
    format!(in alloc; "method {name}\n{nodes}{formats}")
}

/// The nodes of a method's tree.
pub(crate) fn nodes_text(alloc: Global, method: &MethodPlans) -> Result<String, AllocError>
    ensures { IfOk result (λ text. string_bytes text ≡ spec.spelled (map (spec.node_line method.now) method.now.tree)) }
{
    let mut output = String::new(alloc);
    for node in method.tree.as_slice() {
        let line = node_text(alloc, method, *node)?;
        output.push_str(line.as_str())?;
    }
    Ok(output)
}

#[tactic(auto, using(crate::proofs::TextLines::texts_joined))]
fn node_text(alloc: Global, method: &MethodPlans, node: Node) -> Result<String, AllocError>
    ensures { IfOk result (λ text. string_bytes text ≡ spec.ended (spec.node_line method.now node)) }
{
    match node {
        Node::Bit(offset) => format!(in alloc; "bit {offset}\n"),
        Node::Parameter(parameter, constant) => {
            let name = name_at(method.parameters.as_slice(), parameter);
            format!(in alloc; "param {name} {constant}\n")
        }
        Node::Reference(field, constant) => {
            let name = first_name(method.formats.as_slice(), field);
            format!(in alloc; "ref {name} {constant}\n")
        }
        Node::Leaf(format) => {
            let name = format_name(method.formats.as_slice(), format);
            format!(in alloc; "leaf {name}\n")
        }
        Node::Nowhere => String::from_str(alloc, "none\n"),
    }
}

/// The name at an index, or `-`.
pub(crate) fn name_at(names: &[Name], index: usize) -> &str
    ensures { result.now ≡ spec.name_at names.now index }
{
    match names.get(index) {
        Some(name) => name.as_str(),
        None => "-",
    }
}

/// The name of the first format's field at an index, or `-`.
fn first_name(formats: &[FormatPlans], index: usize) -> &str
    ensures { result.now ≡ spec.name_at (spec.first_names formats.now) index }
{
    match formats {
        [first, ..] => name_at(first.fields.as_slice(), index),
        [] => "-",
    }
}

/// The name of the format at an index, or `-`.
fn format_name(formats: &[FormatPlans], index: usize) -> &str
    ensures { result.now ≡ spec.format_name (slice_get formats.now index) }
{
    match formats.get(index) {
        Some(format) => name_of(&format.name),
        None => "-",
    }
}

/// A name, or `-`.
pub(crate) fn name_of(name: &Option<Name>) -> &str
    ensures { result.now ≡ spec.name_of name.now }
{
    match name {
        Some(name) => name.as_str(),
        None => "-",
    }
}

fn formats_text(alloc: Global, formats: &[FormatPlans]) -> Result<String, AllocError>
    ensures { IfOk result (λ text. string_bytes text ≡ spec.spelled (flat_map spec.format_lines formats.now)) }
{
    let mut output = String::new(alloc);
    for format in formats {
        let text = format_text(alloc, format)?;
        output.push_str(text.as_str())?;
    }
    Ok(output)
}

/// A format with its plans, nothing where it has none.
fn format_text(alloc: Global, format: &FormatPlans) -> Result<String, AllocError>
    ensures { IfOk result (λ text. string_bytes text ≡ spec.spelled (spec.format_lines format.now)) }
{
    match &format.plans {
        Some(plans) => plans_text(
            alloc,
            name_of(&format.name),
            format.fields.as_slice(),
            plans,
        ),
        None => Ok(String::new(alloc)),
    }
}

#[tactic(auto, using(crate::proofs::TextLines::plans_spelled))]
fn plans_text(
    alloc: Global,
    name: &str,
    fields: &[Name],
    plans: &Plans,
) -> Result<String, AllocError>
    ensures { IfOk result (λ text. string_bytes text ≡ spec.spelled (spec.plans_lines name.now fields.now (Some plans.now))) }
{
    let read = steps_text(alloc, fields, plans.read.as_slice())?;
    let read = read.as_str();
    let write = steps_text(alloc, fields, plans.write.as_slice())?;
    let write = write.as_str();
    format!(in alloc; "format {name}\nread\n{read}write\n{write}")
}

fn steps_text(alloc: Global, fields: &[Name], steps: &[Step]) -> Result<String, AllocError>
    ensures { IfOk result (λ text. string_bytes text ≡ spec.spelled (map (spec.step_line fields.now) steps.now)) }
{
    let mut output = String::new(alloc);
    for step in steps {
        push_step(name_at(fields, step.field()), *step, &mut output)?;
    }
    Ok(output)
}

/// Appends the line of a step, by the name of its field.
fn push_step(name: &str, step: Step, output: &mut String) -> Result<(), AllocError>
    ensures { OnOk result (string_bytes output.new ≡ string_bytes output.old ++ spec.ended (spec.step_words name.now step)) }
{
    match step {
        Step::Take(_) => push_named("take ", name, "\n", output),
        Step::Call(_) => push_named("call ", name, "\n", output),
        Step::LibraryUp(_) => push_named("library ", name, " up\n", output),
        Step::LibraryDown(_) => push_named("library ", name, " down\n", output),
        Step::MethodLength(_, side) => push_named("length ", name, method_words(side), output),
        Step::ConstraintLength(_, side, constraint) => {
            push_numbered("length ", name, side_words(side), constraint, output)
        }
        Step::Solve(_, constraint) => push_numbered("solve ", name, " ", constraint, output),
        Step::Choose(_) => push_named("choose ", name, "\n", output),
        Step::Ask(_) => push_named("ask ", name, "\n", output),
    }
}

/// Appends a name between two texts.
fn push_named(before: &str, name: &str, after: &str, output: &mut String) -> Result<(), AllocError>
    ensures { OnOk result (string_bytes output.new ≡ string_bytes output.old ++ (before.now ++ (name.now ++ after.now))) }
{
    output.push_str(before)?;
    output.push_str(name)?;
    output.push_str(after)
}

/// The same, and then a number and a line feed.
fn push_numbered(
    before: &str,
    name: &str,
    after: &str,
    number: usize,
    output: &mut String,
) -> Result<(), AllocError>
    ensures { OnOk result (string_bytes output.new ≡ string_bytes output.old ++ (before.now ++ (name.now ++ (after.now ++ (decimal number ++ 10 ∷ []))))) }
{
    push_named(before, name, after, output)?;
    let mut buffer = Buffer::new();
    output.push_str(buffer.format(number))?;
    output.push_str("\n")
}

/// What follows the name where the library method gives the length of a side.
pub(crate) fn method_words(side: Side) -> &'static str
    ensures { result.now ≡ codes " " ++ spec.side_word side ++ codes " method\n" }
{
    match side {
        Side::Uncompressed => " U method\n",
        Side::Compressed => " C method\n",
    }
}

/// What stands between the name and the number of a constraint that gives the length of a side.
pub(crate) fn side_words(side: Side) -> &'static str
    ensures { result.now ≡ codes " " ++ spec.side_word side ++ codes " " }
{
    match side {
        Side::Uncompressed => " U ",
        Side::Compressed => " C ",
    }
}
