//! What is answered to `prove`.

ghost use Rattle.std.specs.Prelude.{◌≡◌, ◌++◌, codes, flat_map, IfOk, string_bytes};
ghost use Rattle.tool_report.specs.Reports.{ProvesOctets};
ghost use Rattle.cert_text.specs.Text.{certificate_text};
ghost use Rattle.tool_report.specs.Prove as spec;
ghost use Rattle.tool_report.specs.Prove.{Proves};

use crate::show::error_line;
use cert_prove::{FieldSide, Unproved, prove};
use cert_text::print;
use cert_types::{Certificate, Direction, Version};
use sem_profile::{Method, Profile};
use std::alloc::{AllocError, Global};
use text_resolve::read;
use tool_input::refusals::refusal;
use tool_input::status::{Answer, Status};
use tool_names::check_faults::{direction_word, side_word};
use tool_names::names::{field_name, format_name, method_name, names};

/// The answer to `prove`: the text of the certificate of that version that is made, or the line of the profile's fault or of what is missing.
pub fn answer_prove(
    alloc: Global,
    version: Version,
    top: &str,
    profile: &[u8],
) -> Result<Answer, AllocError>
    ensures { IfOk result (ProvesOctets version top.now profile.now) }
{
    match read(alloc, profile, top.as_bytes()) {
        Ok(normal) => prove_profile(alloc, version, &normal),
        Err(error) => {
            let line = error_line(alloc, profile, error)?;
            refusal(alloc, line.as_str())
        }
    }
}

/// The answer by a profile.
fn prove_profile(alloc: Global, version: Version, profile: &Profile) -> Result<Answer, AllocError>
    ensures { IfOk result (Proves version profile.now) }
{
    match prove(alloc, profile, version) {
        Ok(certificate) => {
            certificate.keeps();
            answer_printed(alloc, &certificate)
        }
        Err(unproved) => {
            profile.keeps();
            let line = unproved_line(alloc, profile.methods(), unproved)?;
            refusal(alloc, line.as_str())
        }
    }
}

/// The answer that is the text of a certificate.
fn answer_printed(alloc: Global, certificate: &Certificate) -> Result<Answer, AllocError>
    ensures status { IfOk result (λ a. a.status ≡ Status.Done) }
    ensures output { IfOk result (λ a. string_bytes a.output ≡ certificate_text certificate.now) }
{
    let output = print(alloc, certificate)?;
    Ok(Answer {
        status: Status::Done,
        output,
    })
}

/// The line of why there is no certificate: its code, and where that is by the profile's names.
pub(crate) fn unproved_line(
    alloc: Global,
    methods: &[Method],
    unproved: Unproved,
) -> Result<String, AllocError>
    ensures { IfOk result (λ text. spec.IsUnprovedLine methods.now unproved (string_bytes text)) }
{
    match unproved {
        Unproved::NoPlan {
            method,
            format,
            direction,
            sides,
        } => plan_line(alloc, methods, method, format, direction, sides.as_slice()),
        Unproved::NoTree {
            method,
            first,
            second,
        } => tree_line(alloc, methods, method, first, second),
        Unproved::Limit => String::from_str(alloc, "prove: P3 Limit"),
        Unproved::OutOfMemory => Err(AllocError),
    }
}

/// The sides of fields that no plan of a format learns.
fn plan_line(
    alloc: Global,
    methods: &[Method],
    method: usize,
    format: usize,
    direction: Direction,
    sides: &[FieldSide],
) -> Result<String, AllocError>
    ensures { IfOk result (λ text. string_bytes text ≡ spec.plan_line methods.now method format direction sides.now) }
{
    let names = names(alloc, methods, method, format)?;
    let sides = sides_text(alloc, methods, method, format, sides)?;
    plan_words(
        alloc,
        names.as_str(),
        direction_word(direction),
        sides.as_str(),
    )
}

fn plan_words(
    alloc: Global,
    names: &str,
    direction: &str,
    sides: &str,
) -> Result<String, AllocError>
    ensures { IfOk result (λ text. string_bytes text ≡ codes "prove: P1 NoPlan " ++ names.now ++ codes " " ++ direction.now ++ sides.now) }
{
    format!(in alloc; "prove: P1 NoPlan {names} {direction}{sides}")
}

/// Sides of fields, a blank before each.
fn sides_text(
    alloc: Global,
    methods: &[Method],
    method: usize,
    format: usize,
    sides: &[FieldSide],
) -> Result<String, AllocError>
    ensures { IfOk result (λ text. string_bytes text ≡ flat_map (spec.side_words methods.now method format) sides.now) }
{
    let mut output = String::new(alloc);
    for side in sides {
        let words = side_text(alloc, methods, method, format, *side)?;
        output.push_str(words.as_str())?;
    }
    Ok(output)
}

fn side_text(
    alloc: Global,
    methods: &[Method],
    method: usize,
    format: usize,
    side: FieldSide,
) -> Result<String, AllocError>
    ensures { IfOk result (λ text. string_bytes text ≡ spec.side_words methods.now method format side) }
{
    let field = field_name(methods, method, format, side.field);
    side_words(alloc, field, side_word(side.side))
}

fn side_words(alloc: Global, field: &str, side: &str) -> Result<String, AllocError>
    ensures { IfOk result (λ text. string_bytes text ≡ codes " " ++ field.now ++ codes " " ++ side.now) }
{
    format!(in alloc; " {field} {side}")
}

/// Two formats that no tree parts.
fn tree_line(
    alloc: Global,
    methods: &[Method],
    method: usize,
    first: usize,
    second: usize,
) -> Result<String, AllocError>
    ensures { IfOk result (λ text. string_bytes text ≡ spec.tree_line methods.now method first second) }
{
    let name = method_name(methods, method);
    let first = format_name(methods, method, first);
    let second = format_name(methods, method, second);
    tree_words(alloc, name, first, second)
}

fn tree_words(alloc: Global, name: &str, first: &str, second: &str) -> Result<String, AllocError>
    ensures { IfOk result (λ text. string_bytes text ≡ codes "prove: P2 NoTree " ++ name.now ++ codes " " ++ first.now ++ codes " " ++ second.now) }
{
    format!(in alloc; "prove: P2 NoTree {name} {first} {second}")
}
