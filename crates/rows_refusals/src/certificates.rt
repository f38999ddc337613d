//! Rows on certificates.

use crate::outcome::{First, Outcome};
use crate::samples::Sample;
use crate::stop::Stop;
use cert_check::{CheckError, check};
use cert_text::{CertificateError, print};
use cert_types::Certificate;
use sem_profile::Profile;
use std::alloc::Global;

/// `read PROFILE`: the certificate that the text of the proved one is read as.
pub(crate) fn reads(alloc: Global, sample: &Sample) -> Result<Outcome, Stop> {
    let profile = sample.profile(alloc)?;
    let text = proved_text(alloc, sample, &profile)?;
    read_twice(alloc, &profile, text.as_str())
}

/// The text of the proved certificate.
fn proved_text(alloc: Global, sample: &Sample, profile: &Profile) -> Result<String, Stop> {
    let certificate = sample.certificate(alloc, profile)?;
    Ok(print(alloc, &certificate)?)
}

fn read_twice(alloc: Global, profile: &Profile, text: &str) -> Result<Outcome, Stop> {
    match cert_text::read(alloc, profile, text) {
        Ok(found) => judged(alloc, First::Answered, &found, text),
        Err(CertificateError::OutOfMemory) => read_again(alloc, profile, text),
        Err(_) => Ok(Outcome::Wrong),
    }
}

fn read_again(alloc: Global, profile: &Profile, text: &str) -> Result<Outcome, Stop> {
    match cert_text::read(alloc, profile, text) {
        Ok(found) => judged(alloc, First::Kept, &found, text),
        Err(_) => Ok(Outcome::WrongAgain),
    }
}

fn judged(
    alloc: Global,
    first: First,
    certificate: &Certificate,
    due: &str,
) -> Result<Outcome, Stop> {
    Ok(first.then(has_text(alloc, certificate, due)?))
}

/// `check PROFILE`: the profile with the proved certificate.
pub(crate) fn checks(alloc: Global, sample: &Sample) -> Result<Outcome, Stop> {
    let profile = sample.profile(alloc)?;
    let certificate = sample.certificate(alloc, &profile)?;
    let text = print(alloc, &certificate)?;
    check_twice(alloc, profile, certificate, text.as_str())
}

fn check_twice(
    alloc: Global,
    profile: Profile,
    certificate: Certificate,
    text: &str,
) -> Result<Outcome, Stop> {
    match check(alloc, profile, certificate) {
        Ok(accepted) => judged(alloc, First::Answered, accepted.certificate(), text),
        Err(refusal) => match refusal.error {
            CheckError::OutOfMemory => {
                check_again(alloc, refusal.profile, refusal.certificate, text)
            }
            CheckError::Fault(_) => Ok(Outcome::Wrong),
        },
    }
}

fn check_again(
    alloc: Global,
    profile: Profile,
    certificate: Certificate,
    text: &str,
) -> Result<Outcome, Stop> {
    let first = First::refused(has_text(alloc, &certificate, text)?);
    match check(alloc, profile, certificate) {
        Ok(accepted) => judged(alloc, first, accepted.certificate(), text),
        Err(_) => Ok(first.then(false)),
    }
}

fn has_text(alloc: Global, certificate: &Certificate, text: &str) -> Result<bool, Stop> {
    Ok(print(alloc, certificate)?.as_str() == text)
}
