//! The lines of what is wrong with a certificate.

ghost use Rattle.std.specs.Prelude.{◌≡◌, ◌++◌, codes, decimal, IfOk, string_bytes};
ghost use Rattle.cert_text.specs.Text as text;
ghost use Rattle.tool_names.specs.CheckFaults as spec;

use crate::names::{field_name, format_name, method_name, names};
use cert_rules::CheckFault;
use cert_text::CertificateError;
use cert_types::Direction;
use sem_expr::Side;
use sem_profile::Method;
use std::alloc::{AllocError, Global};

/// The line of what is wrong with a text that is no certificate of the profile.
pub fn unread_line(alloc: Global, error: CertificateError) -> Result<String, AllocError>
    ensures { IfOk result (λ text. spec.IsErrorLine error (string_bytes text)) }
{
    match error {
        CertificateError::BadWord { line } => error_text(alloc, "K1 bad word", line),
        CertificateError::UnknownName { line } => error_text(alloc, "K2 unknown name", line),
        CertificateError::AboveLimits { line } => error_text(alloc, "K3 above limits", line),
        CertificateError::OutOfMemory => Err(AllocError),
    }
}

/// The line of a fault of a certificate's text, with its code and words and the line's number from 1.
pub fn error_text(alloc: Global, words: &str, line: usize) -> Result<String, AllocError>
    ensures { IfOk result (λ text. string_bytes text ≡ spec.line_of_certificate line words.now) }
{
    format!(in alloc; "certificate:{line}: {words}")
}

/// The line of a fault: its code, and where it is by the profile's names.
pub fn verdict_line(
    alloc: Global,
    methods: &[Method],
    fault: CheckFault,
) -> Result<String, AllocError>
    ensures { IfOk result (λ text. string_bytes text ≡ spec.verdict_line methods.now fault) }
{
    match fault {
        CheckFault::NoMethod { method } => missing_method(alloc, methods, method),
        CheckFault::NoFormat { method, format } => missing_format(alloc, methods, method, format),
        CheckFault::NotEnabled {
            method,
            format,
            direction,
            step,
        } => step_line(alloc, methods, method, format, direction, step),
        CheckFault::NeverLearnt {
            method,
            format,
            direction,
            field,
            side,
        } => side_line(alloc, methods, method, format, direction, field, side),
        CheckFault::WrongLeaf {
            method,
            node,
            format,
        } => leaf_line(alloc, methods, method, node, format),
        CheckFault::ShortFormat {
            method,
            node,
            format,
        } => bit_line(alloc, methods, method, node, format),
        CheckFault::OutOfRange { method, node } => range_line(alloc, methods, method, node),
        CheckFault::BeyondWord { method, node } => beyond_line(alloc, methods, method, node),
        CheckFault::TooMany => String::from_str(alloc, "check: V6 candidates"),
        CheckFault::TooLong => String::from_str(alloc, "check: V8 length"),
    }
}

/// A method of which nothing is said.
fn missing_method(alloc: Global, methods: &[Method], method: usize) -> Result<String, AllocError>
    ensures { IfOk result (λ text. string_bytes text ≡ spec.verdict_line methods.now (CheckFault.NoMethod method)) }
{
    let name = method_name(methods, method);
    format!(in alloc; "check: V1 {name}")
}

/// A format without plans.
fn missing_format(
    alloc: Global,
    methods: &[Method],
    method: usize,
    format: usize,
) -> Result<String, AllocError>
    ensures { IfOk result (λ text. string_bytes text ≡ spec.verdict_line methods.now (CheckFault.NoFormat method format)) }
{
    let names = names(alloc, methods, method, format)?;
    let names = names.as_str();
    format!(in alloc; "check: V1 {names}")
}

/// A step that may not be taken.
fn step_line(
    alloc: Global,
    methods: &[Method],
    method: usize,
    format: usize,
    direction: Direction,
    step: usize,
) -> Result<String, AllocError>
    ensures { IfOk result (λ text. string_bytes text ≡ spec.verdict_line methods.now (CheckFault.NotEnabled method format direction step)) }
{
    let names = names(alloc, methods, method, format)?;
    let names = names.as_str();
    let direction = direction_word(direction);
    format!(in alloc; "check: V2 {names} {direction} step {step}")
}

/// A side of a field that a plan never learns.
fn side_line(
    alloc: Global,
    methods: &[Method],
    method: usize,
    format: usize,
    direction: Direction,
    field: usize,
    side: Side,
) -> Result<String, AllocError>
    ensures { IfOk result (λ text. string_bytes text ≡ spec.verdict_line methods.now (CheckFault.NeverLearnt method format direction field side)) }
{
    let names = names(alloc, methods, method, format)?;
    let field = field_name(methods, method, format, field);
    side_words(
        alloc,
        names.as_str(),
        direction_word(direction),
        field,
        side_word(side),
    )
}

fn side_words(
    alloc: Global,
    names: &str,
    direction: &str,
    field: &str,
    side: &str,
) -> Result<String, AllocError>
    ensures { IfOk result (λ text. string_bytes text ≡ codes "check: V3 " ++ names.now ++ codes " " ++ direction.now ++ codes " " ++ field.now ++ codes " " ++ side.now) }
{
    format!(in alloc; "check: V3 {names} {direction} {field} {side}")
}

/// A leaf that a format of another leaf reaches.
fn leaf_line(
    alloc: Global,
    methods: &[Method],
    method: usize,
    node: usize,
    format: usize,
) -> Result<String, AllocError>
    ensures { IfOk result (λ text. string_bytes text ≡ spec.verdict_line methods.now (CheckFault.WrongLeaf method node format)) }
{
    let name = method_name(methods, method);
    let format = format_name(methods, method, format);
    node_words(alloc, "check: V4 ", name, node, format)
}

/// A bit past the end of a format.
fn bit_line(
    alloc: Global,
    methods: &[Method],
    method: usize,
    node: usize,
    format: usize,
) -> Result<String, AllocError>
    ensures { IfOk result (λ text. string_bytes text ≡ spec.verdict_line methods.now (CheckFault.ShortFormat method node format)) }
{
    let name = method_name(methods, method);
    let format = format_name(methods, method, format);
    node_words(alloc, "check: V5 ", name, node, format)
}

fn node_words(
    alloc: Global,
    code: &str,
    name: &str,
    node: usize,
    format: &str,
) -> Result<String, AllocError>
    ensures { IfOk result (λ text. string_bytes text ≡ code.now ++ (name.now ++ codes " node " ++ decimal node) ++ codes " " ++ format.now) }
{
    format!(in alloc; "{code}{name} node {node} {format}")
}

/// A constant outside its range.
fn range_line(
    alloc: Global,
    methods: &[Method],
    method: usize,
    node: usize,
) -> Result<String, AllocError>
    ensures { IfOk result (λ text. string_bytes text ≡ spec.verdict_line methods.now (CheckFault.OutOfRange method node)) }
{
    range_words(alloc, method_name(methods, method), node)
}

fn range_words(alloc: Global, name: &str, node: usize) -> Result<String, AllocError>
    ensures { IfOk result (λ text. string_bytes text ≡ codes "check: V7 " ++ name.now ++ codes " node " ++ decimal node) }
{
    format!(in alloc; "check: V7 {name} node {node}")
}

/// A reference's constant that no 64 bits spell.
fn beyond_line(
    alloc: Global,
    methods: &[Method],
    method: usize,
    node: usize,
) -> Result<String, AllocError>
    ensures { IfOk result (λ text. string_bytes text ≡ spec.verdict_line methods.now (CheckFault.BeyondWord method node)) }
{
    beyond_words(alloc, method_name(methods, method), node)
}

fn beyond_words(alloc: Global, name: &str, node: usize) -> Result<String, AllocError>
    ensures { IfOk result (λ text. string_bytes text ≡ codes "check: V9 " ++ name.now ++ codes " node " ++ decimal node) }
{
    format!(in alloc; "check: V9 {name} node {node}")
}

/// `read` or `write`.
pub fn direction_word(direction: Direction) -> &'static str
    ensures { result.now ≡ spec.direction_word direction }
{
    match direction {
        Direction::Read => "read",
        Direction::Write => "write",
    }
}

/// `U` for the header's side, `C` for the packet's.
pub fn side_word(side: Side) -> &'static str
    ensures { result.now ≡ text.side_word side }
{
    match side {
        Side::Uncompressed => "U",
        Side::Compressed => "C",
    }
}
