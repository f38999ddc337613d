//! Answers with the lines that explain them.

ghost use Rattle.std.specs.Prelude.{◌≡◌, ◌++◌, IfOk, string_bytes};
ghost use Rattle.tool_report.specs.Explained as spec;

use crate::check::answer_check;
use crate::profile_and_certificate::Origin;
use crate::prove::answer_prove;
use cert_check::{CheckError, check};
use cert_prove::{Unproved, prove};
use cert_text::CertificateError;
use cert_types::{Certificate, Version};
use sem_profile::Profile;
use std::alloc::{AllocError, Global};
use text_resolve::{ReadError, read};
use tool_explain::faults::fault_notes;
use tool_explain::trees::tree_notes;
use tool_explain::waits::{MissingPlan, plan_notes};
use tool_input::status::{Answer, Status};

/// The answer to `prove`, and below the line of what is missing the lines that explain it.
pub fn explain_prove(
    alloc: Global,
    version: Version,
    top: &str,
    profile: &[u8],
) -> Result<Answer, AllocError>
    ensures { IfOk result (spec.ExplainsProve version top.now profile.now) }
{
    let answer = answer_prove(alloc, version, top, profile)?;
    let notes = match answer.status {
        Status::Refused => prove_notes(alloc, version, top, profile)?,
        _ => String::new(alloc),
    };
    noted(answer, notes.as_str())
}

/// The answer to `check`, and below the line of a fault the lines that explain it.
pub fn explain_check(
    alloc: Global,
    top: &str,
    profile: &[u8],
    origin: Origin<'_>,
) -> Result<Answer, AllocError>
    ensures { IfOk result (spec.ExplainsCheck top.now profile.now origin.entry) }
{
    let answer = answer_check(alloc, top, profile, origin)?;
    let notes = match answer.status {
        Status::Refused => check_notes(alloc, top, profile, origin)?,
        _ => String::new(alloc),
    };
    noted(answer, notes.as_str())
}

/// The answer, and below a refusal these lines.
fn noted(answer: Answer, notes: &str) -> Result<Answer, AllocError>
    ensures status { IfOk result (λ a. a.status ≡ answer.status) }
    ensures output { IfOk result (λ a. string_bytes a.output ≡ string_bytes answer.output ++ spec.more_of answer.status notes.now) }
{
    let Answer { status, mut output } = answer;
    output.push_str(more_of(status, notes))?;
    Ok(Answer { status, output })
}

/// Lines that stand below a refusal alone.
fn more_of(status: Status, notes: &str) -> &str
    ensures { result.now ≡ spec.more_of status notes.now }
{
    match status {
        Status::Refused => notes,
        _ => "",
    }
}

/// What explains that no certificate is made. Nothing, where the profile is at fault.
fn prove_notes(
    alloc: Global,
    version: Version,
    top: &str,
    octets: &[u8],
) -> Result<String, AllocError> {
    match read(alloc, octets, top.as_bytes()) {
        Ok(profile) => match prove(alloc, &profile, version) {
            Ok(_) => Ok(String::new(alloc)),
            Err(unproved) => unproved_notes(alloc, octets, &profile, version, unproved),
        },
        Err(error) => profile_notes(alloc, error),
    }
}

/// What explains the fault of a profile: nothing more than its line.
fn profile_notes(alloc: Global, error: ReadError) -> Result<String, AllocError> {
    match error {
        ReadError::Text(_) | ReadError::Profile(_) => Ok(String::new(alloc)),
        ReadError::OutOfMemory => Err(AllocError),
    }
}

fn unproved_notes(
    alloc: Global,
    octets: &[u8],
    profile: &Profile,
    version: Version,
    unproved: Unproved,
) -> Result<String, AllocError> {
    match unproved {
        Unproved::NoPlan {
            method,
            format,
            direction,
            sides,
        } => {
            let plan = MissingPlan {
                method,
                format,
                direction,
                sides: sides.as_slice(),
            };
            plan_notes(alloc, octets, profile, version, plan)
        }
        Unproved::NoTree {
            method,
            first,
            second,
        } => tree_notes(alloc, octets, profile, version, method, first, second),
        Unproved::Limit => Ok(String::new(alloc)),
        Unproved::OutOfMemory => Err(AllocError),
    }
}

/// What explains the verdict on a profile and its certificate.
fn check_notes(
    alloc: Global,
    top: &str,
    octets: &[u8],
    origin: Origin<'_>,
) -> Result<String, AllocError> {
    match read(alloc, octets, top.as_bytes()) {
        Ok(profile) => origin_notes(alloc, octets, profile, origin),
        Err(error) => profile_notes(alloc, error),
    }
}

fn origin_notes(
    alloc: Global,
    octets: &[u8],
    profile: Profile,
    origin: Origin<'_>,
) -> Result<String, AllocError> {
    match origin {
        Origin::Given(given) => {
            let Ok(text) = str::from_utf8(given) else {
                return Ok(String::new(alloc));
            };
            match cert_text::read(alloc, &profile, text) {
                Ok(certificate) => verdict_notes(alloc, octets, profile, certificate, text),
                Err(error) => certificate_notes(alloc, error),
            }
        }
        Origin::Made(version) => match prove(alloc, &profile, version) {
            Ok(certificate) => verdict_notes(alloc, octets, profile, certificate, ""),
            Err(unproved) => unproved_notes(alloc, octets, &profile, version, unproved),
        },
    }
}

/// What explains a text that is no certificate: nothing more than its line.
fn certificate_notes(alloc: Global, error: CertificateError) -> Result<String, AllocError> {
    match error {
        CertificateError::BadWord { line: _ }
        | CertificateError::UnknownName { line: _ }
        | CertificateError::AboveLimits { line: _ } => Ok(String::new(alloc)),
        CertificateError::OutOfMemory => Err(AllocError),
    }
}

/// What explains the fault of a certificate, which has this text, if it has one.
fn verdict_notes(
    alloc: Global,
    octets: &[u8],
    profile: Profile,
    certificate: Certificate,
    text: &str,
) -> Result<String, AllocError> {
    match check(alloc, profile, certificate) {
        Ok(_) => Ok(String::new(alloc)),
        Err(refused) => match refused.error {
            CheckError::Fault(fault) => fault_notes(
                alloc,
                octets,
                &refused.profile,
                &refused.certificate,
                text,
                fault,
            ),
            CheckError::OutOfMemory => Err(AllocError),
        },
    }
}
