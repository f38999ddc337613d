//! The words of a line of a certificate.

ghost use Rattle.std.specs.Prelude.{◌≡◌, map};
ghost use Rattle.cert_text.specs.Drafts as spec;
ghost use Rattle.cert_text.specs.Text as text;

use cert_types::{Node, OFFSET_LIMIT, Step, Version};
use itoa::Buffer;
use sem_expr::Side;
use sem_profile::{Format, Method, Name, Part};

/// The number below a limit that a word spells, without leading zeros or a sign.
pub fn number_below(limit: usize, word: &str) -> Option<usize>
    ensures { result ≡ spec.number_below limit word.now }
{
    let Ok(number) = word.parse::<usize>() else {
        return None;
    };
    if number >= limit {
        return None;
    }
    let mut buffer = Buffer::new();
    if buffer.format(number) == word {
        Some(number)
    } else {
        None
    }
}

/// The number of 128 bits that a word spells, without leading zeros, with `-` where it is negative.
pub fn constant_of(word: &str) -> Option<i128>
    ensures { result ≡ spec.constant_of word.now }
{
    let Ok(number) = word.parse::<i128>() else {
        return None;
    };
    let mut buffer = Buffer::new();
    if buffer.format(number) == word {
        Some(number)
    } else {
        None
    }
}

/// The place of a name.
fn place_of(name: &str, names: &[Name]) -> Option<usize>
    ensures { result ≡ spec.place_by (λ n. n) name.now names.now }
{
    names.iter().position(|n| n.as_str() == name)
}

/// The place of the method of that name.
pub fn place_of_method(methods: &[Method], name: &str) -> Option<usize>
    ensures { result ≡ spec.method_place name.now methods.now }
{
    methods.iter().position(|m| m.name.as_str() == name)
}

/// The place of the format that goes by that name, where one without a name goes by `-`.
pub fn place_of_format(method: &Method, name: &str) -> Option<usize>
    ensures { result ≡ spec.format_place name.now method.now }
{
    method
        .formats
        .as_slice()
        .iter()
        .position(|f| name_of(&f.name) == name)
}

fn place_of_field(format: &Format, name: &str) -> Option<usize>
    ensures { result ≡ spec.field_place name.now format.now }
{
    format
        .fields
        .as_slice()
        .iter()
        .position(|d| d.declared.name.as_str() == name)
}

fn side_of(word: &str) -> Option<Side>
    ensures { result ≡ spec.side_of word.now }
{
    if word == "U" {
        return Some(Side::Uncompressed);
    }
    if word == "C" {
        return Some(Side::Compressed);
    }
    None
}

/// The version of that name.
pub fn version_of(name: &str) -> Option<Version>
    ensures { result ≡ spec.version_named name.now }
{
    if name == "1" {
        return Some(Version::One);
    }
    if name == "2" {
        return Some(Version::Two);
    }
    None
}

/// The place of the header or control field of that name.
fn place_of_reference(method: &Method, name: &str) -> Option<usize>
    ensures { result ≡ spec.reference_place name.now method.now.formats }
{
    let format = method.formats.as_slice().first()?;
    let place = place_of_field(format, name)?;
    let field = format.fields.as_slice().get(place)?;
    if is_local(field.declared.part) {
        return None;
    }
    Some(place)
}

fn is_local(part: Part) -> bool
    ensures { result ≡ spec.is_local part }
{
    match part {
        Part::Local => true,
        Part::Header | Part::Control => false,
    }
}

/// The node of a line, in certificates of that version.
pub fn node_of(version: Version, method: &Method, word: &str, more: &[&str]) -> Option<Node>
    ensures { result ≡ spec.node_of version method.now word.now (map (λ w. w.now) more.now) }
{
    match more {
        [] => bare_node(word),
        [a] => node_by(method, word, a),
        [a, b] => named_node(version, method, word, a, b),
        _ => None,
    }
}

fn bare_node(word: &str) -> Option<Node>
    ensures { result ≡ spec.bare_node word.now }
{
    if word == "none" {
        return Some(Node::Nowhere);
    }
    None
}

fn node_by(method: &Method, word: &str, name: &str) -> Option<Node>
    ensures { result ≡ spec.node_by method.now word.now name.now }
{
    if word == "bit" {
        return Some(Node::Bit(number_below(OFFSET_LIMIT, name)?));
    }
    if word == "leaf" {
        return Some(Node::Leaf(place_of_format(method, name)?));
    }
    None
}

fn named_node(
    version: Version,
    method: &Method,
    word: &str,
    name: &str,
    constant: &str,
) -> Option<Node>
    ensures { result ≡ spec.named_node version method.now word.now name.now constant.now }
{
    if word == "param" {
        return parameter_node(method, name, constant);
    }
    match version {
        Version::One => None,
        Version::Two => reference_node(method, word, name, constant),
    }
}

fn parameter_node(method: &Method, name: &str, constant: &str) -> Option<Node>
    ensures { result ≡ spec.parameter_node method.now name.now constant.now }
{
    let parameter = place_of(name, method.parameters.as_slice())?;
    Some(Node::Parameter(parameter, constant_of(constant)?))
}

fn reference_node(method: &Method, word: &str, name: &str, constant: &str) -> Option<Node>
    ensures { result ≡ spec.reference_node method.now word.now name.now constant.now }
{
    if word != "ref" {
        return None;
    }
    let field = place_of_reference(method, name)?;
    Some(Node::Reference(field, constant_of(constant)?))
}

/// The step of a line.
pub fn step_of(format: &Format, word: &str, more: &[&str]) -> Option<Step>
    ensures { result ≡ spec.step_of format.now word.now (map (λ w. w.now) more.now) }
{
    let [name, more @ ..] = more else {
        return None;
    };
    let field = place_of_field(format, name)?;
    step_on(format.constraints.len(), field, word, more)
}

fn step_on(constraints: usize, field: usize, word: &str, more: &[&str]) -> Option<Step>
    ensures { result ≡ spec.step_on constraints field word.now (map (λ w. w.now) more.now) }
{
    match more {
        [] => plain_step(field, word),
        [a] => step_by(constraints, field, word, a),
        [a, b] => length_step(constraints, field, word, a, b),
        _ => None,
    }
}

/// A step that its field tells.
fn plain_step(field: usize, word: &str) -> Option<Step>
    ensures { result ≡ spec.plain_step field word.now }
{
    if word == "take" {
        return Some(Step::Take(field));
    }
    if word == "call" {
        return Some(Step::Call(field));
    }
    if word == "choose" {
        return Some(Step::Choose(field));
    }
    if word == "ask" {
        return Some(Step::Ask(field));
    }
    None
}

fn step_by(constraints: usize, field: usize, word: &str, by: &str) -> Option<Step>
    ensures { result ≡ spec.step_by constraints field word.now by.now }
{
    if word == "solve" {
        return Some(Step::Solve(field, number_below(constraints, by)?));
    }
    if word != "library" {
        return None;
    }
    if by == "up" {
        return Some(Step::LibraryUp(field));
    }
    if by == "down" {
        return Some(Step::LibraryDown(field));
    }
    None
}

fn length_step(constraints: usize, field: usize, word: &str, side: &str, by: &str) -> Option<Step>
    ensures { result ≡ spec.length_step constraints field word.now side.now by.now }
{
    if word != "length" {
        return None;
    }
    let side = side_of(side)?;
    if by == "method" {
        return Some(Step::MethodLength(field, side));
    }
    Some(Step::ConstraintLength(field, side, number_below(constraints, by)?))
}

/// A name, or `-`.
fn name_of(name: &Option<Name>) -> &str
    ensures { result.now ≡ text.name_of name.now }
{
    match name {
        Some(name) => name.as_str(),
        None => "-",
    }
}
