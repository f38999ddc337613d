//! The lines of an answer, each as an object of JSON.

ghost use Rattle.std.specs.Prelude.{◌≡◌, ◌||◌, ◌++◌, IfOk, OnOk, flat_map, string_bytes};
ghost use Rattle.tool_json.specs.Entries as entries;
ghost use Rattle.tool_json.specs.Lines as spec;
ghost use Rattle.tool_json.specs.MessageObjects as messages;

use crate::entries::{is_heading, push_context};
use crate::message::{Telling, read_message};
use crate::messages::{certificate_json, push_message};
use std::alloc::{AllocError, Global};
use tool_input::status::Status;
use tool_words::words::Command;

/// The objects of an answer to a command that ended so, one a line: a certificate is one; of other answers each line is one, but for the empty ones, and the last
/// context is one. A line that is an object already, as those of counts, stays as it is. The error is out of memory.
pub fn as_objects(
    alloc: Global,
    command: Command,
    status: Status,
    text: &str,
) -> Result<String, AllocError>
    ensures { IfOk result (λ output. string_bytes output ≡ spec.as_objects command status text.now) }
{
    if makes_certificate(command) && is_done(status) {
        certificate_json(alloc, text)
    } else {
        lines_json(alloc, telling_of(command), text)
    }
}

/// Whether the answer to a command is a certificate, where it isn't a refusal.
fn makes_certificate(command: Command) -> bool
    ensures { result ≡ spec.makes_certificate command }
{
    match command {
        Command::Prove | Command::ExplainProve => true,
        _ => false,
    }
}

fn is_done(status: Status) -> bool
    ensures { result ≡ spec.is_done status }
{
    match status {
        Status::Done => true,
        Status::Refused | Status::Usage | Status::Failed(_) => false,
    }
}

/// Which lines there may be in the answer to a command.
fn telling_of(command: Command) -> Telling
    ensures { result ≡ spec.telling_of command }
{
    match command {
        Command::Check | Command::Prove | Command::ExplainCheck | Command::ExplainProve => {
            Telling::Judging
        }
        Command::Lint => Telling::Warning,
        Command::Why(_) | Command::WhyNot | Command::RobustWhy(_) => Telling::Reasons,
        _ => Telling::Faults,
    }
}

fn lines_json(alloc: Global, telling: Telling, text: &str) -> Result<String, AllocError>
    ensures { IfOk result (λ output. string_bytes output ≡ spec.lines_json telling text.now) }
{
    let mut output = String::new(alloc);
    let has_context = push_lines(alloc, &mut output, telling, text)?;
    if has_context {
        push_context(alloc, &mut output, text)?;
    }
    Ok(output)
}

/// Adds the objects of the lines before a heading, and tells whether there is one.
fn push_lines(
    alloc: Global,
    output: &mut String,
    telling: Telling,
    text: &str,
) -> Result<bool, AllocError>
    ensures told { IfOk result (λ found. found ≡ entries.has_heading (messages.lines_of text.now)) }
    ensures adds { OnOk result (string_bytes output.new ≡ string_bytes output.old ++ flat_map (spec.line_object telling) (entries.before_heading (messages.lines_of text.now))) }
{
    let mut found = false;
    for line in text.split('\n') {
        found = push_before(alloc, output, telling, found, line)?;
    }
    Ok(found)
}

/// Adds the object of a line that stands before a heading, and tells whether one has come.
fn push_before(
    alloc: Global,
    output: &mut String,
    telling: Telling,
    found: bool,
    line: &str,
) -> Result<bool, AllocError>
    ensures told { IfOk result (λ now. now ≡ found || entries.is_heading line.now) }
    ensures adds { OnOk result (string_bytes output.new ≡ string_bytes output.old ++ flat_map (spec.line_object telling) (entries.before_on found line.now)) }
{
    if found || is_heading(line) {
        return Ok(true);
    }
    push_line(alloc, output, telling, line)?;
    Ok(false)
}

fn push_line(
    alloc: Global,
    output: &mut String,
    telling: Telling,
    line: &str,
) -> Result<(), AllocError>
    ensures { OnOk result (string_bytes output.new ≡ string_bytes output.old ++ spec.line_object telling line.now) }
{
    if line.is_empty() {
        return Ok(());
    }
    if is_object(line.as_bytes()) {
        return push_whole(output, line);
    }
    push_message(alloc, output, read_message(telling, line))
}

/// Whether a line is an object already: it begins with a bracket.
fn is_object(line: &[u8]) -> bool
    ensures { result ≡ spec.is_object line.now }
{
    match line {
        [first, ..] => *first == b'{',
        [] => false,
    }
}

fn push_whole(output: &mut String, line: &str) -> Result<(), AllocError>
    ensures { OnOk result (string_bytes output.new ≡ string_bytes output.old ++ line.now ++ spec.end) }
{
    output.push_str(line)?;
    output.push('\n')
}
