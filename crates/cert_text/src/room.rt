//! Whether the text of a certificate is within the limit, told without the text.

ghost use Rattle.std.specs.Prelude.{◌≡◌, ◌≤◌, ◌+◌, ◌∷◌, ◌++◌, [], true, Some, length, IfOk, IfSome, codes, decimal, flat_map, map};
ghost use Rattle.cert_text.specs.Faults.{text_limit};
ghost use Rattle.cert_text.specs.Text as spec;

use crate::printer::{method_words, name_at, name_of, nodes_text, side_words, version_word};
use crate::reader::TEXT_LIMIT;
use cert_types::{Certificate, FormatPlans, MethodPlans, Plans, Step};
use itoa::Buffer;
use sem_profile::Name;
use std::alloc::{AllocError, Global};

/// Whether the text of the certificate is no longer than a text may be.
pub fn is_short(alloc: Global, certificate: &Certificate) -> Result<bool, AllocError>
    ensures { IfOk result (λ is. is ≡ true → length (spec.certificate_text certificate.now) ≤ text_limit) }
{
    let version = version_word(certificate.version());
    let Some(room) = left_by_named(TEXT_LIMIT, "rohcfn-certificate ", version, "\n") else {
        return Ok(false);
    };
    match left_by_methods(alloc, room, certificate.methods())? {
        Some(room) => Ok(room >= 4),
        None => Ok(false),
    }
}

/// The room that the text leaves, if there is room for it.
fn left_by(room: usize, text: &str) -> Option<usize>
    ensures { IfSome result (λ left. left + length text.now ≡ room) }
{
    room.checked_sub(text.len())
}

/// The same of a name between two texts.
fn left_by_named(room: usize, before: &str, name: &str, after: &str) -> Option<usize>
    ensures { IfSome result (λ left. left + length (before.now ++ (name.now ++ after.now)) ≡ room) }
{
    let room = left_by(room, before)?;
    let room = left_by(room, name)?;
    left_by(room, after)
}

/// The same of that, of a number and of a line feed.
fn left_by_numbered(
    room: usize,
    before: &str,
    name: &str,
    after: &str,
    number: usize,
) -> Option<usize>
    ensures { IfSome result (λ left. left + length (before.now ++ (name.now ++ (after.now ++ (decimal number ++ 10 ∷ [])))) ≡ room) }
{
    let room = left_by_named(room, before, name, after)?;
    let mut buffer = Buffer::new();
    left_by_named(room, buffer.format(number), "\n", "")
}

/// The same of the line of a step, by the name of its field.
fn left_by_step(room: usize, name: &str, step: Step) -> Option<usize>
    ensures { IfSome result (λ left. left + length (spec.ended (spec.step_words name.now step)) ≡ room) }
{
    match step {
        Step::Take(_) => left_by_named(room, "take ", name, "\n"),
        Step::Call(_) => left_by_named(room, "call ", name, "\n"),
        Step::LibraryUp(_) => left_by_named(room, "library ", name, " up\n"),
        Step::LibraryDown(_) => left_by_named(room, "library ", name, " down\n"),
        Step::MethodLength(_, side) => left_by_named(room, "length ", name, method_words(side)),
        Step::ConstraintLength(_, side, constraint) => {
            left_by_numbered(room, "length ", name, side_words(side), constraint)
        }
        Step::Solve(_, constraint) => left_by_numbered(room, "solve ", name, " ", constraint),
        Step::Choose(_) => left_by_named(room, "choose ", name, "\n"),
        Step::Ask(_) => left_by_named(room, "ask ", name, "\n"),
    }
}

/// The same of the lines of steps.
fn left_by_steps(room: usize, fields: &[Name], steps: &[Step]) -> Option<usize>
    ensures { IfSome result (λ left. left + length (spec.spelled (map (spec.step_line fields.now) steps.now)) ≡ room) }
{
    let mut left = room;
    for step in steps {
        let Some(next) = left_by_step(left, name_at(fields, step.field()), *step) else {
            return None;
        };
        left = next;
    }
    Some(left)
}

/// The same of a format's plans.
fn left_by_plans(room: usize, name: &str, fields: &[Name], plans: &Plans) -> Option<usize>
    ensures { IfSome result (λ left. left + (length (codes "format " ++ (name.now ++ codes "\nread\n")) + (length (spec.spelled (map (spec.step_line fields.now) plans.now.read)) + (length (codes "write\n") + length (spec.spelled (map (spec.step_line fields.now) plans.now.write))))) ≡ room) }
{
    let room = left_by_named(room, "format ", name, "\nread\n")?;
    let room = left_by_steps(room, fields, plans.read.as_slice())?;
    let room = left_by(room, "write\n")?;
    left_by_steps(room, fields, plans.write.as_slice())
}

/// The same of a format, of which nothing stands where it has no plans.
fn left_by_format(room: usize, format: &FormatPlans) -> Option<usize>
    ensures { IfSome result (λ left. left + length (spec.spelled (spec.format_lines format.now)) ≡ room) }
{
    match &format.plans {
        Some(plans) => left_by_plans(room, name_of(&format.name), format.fields.as_slice(), plans),
        None => Some(room),
    }
}

fn left_by_formats(room: usize, formats: &[FormatPlans]) -> Option<usize>
    ensures { IfSome result (λ left. left + length (spec.spelled (flat_map spec.format_lines formats.now)) ≡ room) }
{
    let mut left = room;
    for format in formats {
        let Some(next) = left_by_format(left, format) else {
            return None;
        };
        left = next;
    }
    Some(left)
}

/// The same of a method, of which these are the lines of its tree.
fn left_by_parts(room: usize, method: &MethodPlans, nodes: &str) -> Option<usize>
    ensures { IfSome result (λ left. left + (length (codes "method " ++ (method.now.name ++ codes "\n")) + (length nodes.now + length (spec.spelled (flat_map spec.format_lines method.now.formats)))) ≡ room) }
{
    let room = left_by_named(room, "method ", method.name.as_str(), "\n")?;
    let room = left_by(room, nodes)?;
    left_by_formats(room, method.formats.as_slice())
}

/// The same of an entry, of which nothing stands where there is none.
fn left_by_entry(
    alloc: Global,
    room: usize,
    method: &Option<MethodPlans>,
) -> Result<Option<usize>, AllocError>
    ensures { IfOk result (λ o. IfSome o (λ left. left + length (spec.spelled (spec.method_lines method.now)) ≡ room)) }
{
    match method {
        Some(method) => left_by_method(alloc, room, method),
        None => Ok(Some(room)),
    }
}

fn left_by_method(
    alloc: Global,
    room: usize,
    method: &MethodPlans,
) -> Result<Option<usize>, AllocError>
    ensures { IfOk result (λ o. IfSome o (λ left. left + length (spec.spelled (spec.method_lines (Some method.now))) ≡ room)) }
{
    let nodes = nodes_text(alloc, method)?;
    Ok(left_by_parts(room, method, nodes.as_str()))
}

fn left_by_methods(
    alloc: Global,
    room: usize,
    methods: &[Option<MethodPlans>],
) -> Result<Option<usize>, AllocError>
    ensures { IfOk result (λ o. IfSome o (λ left. left + length (spec.spelled (flat_map spec.method_lines methods.now)) ≡ room)) }
{
    let mut left = room;
    for method in methods {
        let Some(next) = left_by_entry(alloc, left, method)? else {
            return Ok(None);
        };
        left = next;
    }
    Ok(Some(left))
}
