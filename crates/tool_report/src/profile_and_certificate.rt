//! A profile with its certificate, or the line of what is wrong with them.

ghost use Rattle.std.specs.Prelude.{◌≡◌, IfOk, IfErr, IsTrue, string_bytes};
ghost use Rattle.std.specs.Str.{IsUtf8};
ghost use Rattle.cert_text.specs.Faults.{Blames};
ghost use Rattle.cert_check.specs.Blaming as checker;
ghost use Rattle.cert_check.specs.Right.{AreEntriesRight};
ghost use Rattle.sem_profile.specs.Resolved.{Resolved};
ghost use Rattle.tool_report.specs.Accepting as spec;
ghost use Rattle.tool_names.specs.CheckFaults as verdicts;

use crate::prove::unproved_line;
use crate::show::error_line;
use cert_accepted::Accepted;
use cert_check::{CheckError, RefusedCertificate, check, check_right};
use cert_prove::laws::ordered_is_right;
use cert_prove::prove;
use cert_text::CertificateError;
use cert_types::{Certificate, Version};
use sem_bits::LinesError;
use sem_bits::lines::lines;
use sem_profile::Profile;
use std::alloc::{AllocError, Global};
use text_resolve::read;
use tool_input::bundle::Parts;
use tool_names::check_faults::{error_text, unread_line, verdict_line};

/// Where the certificate of a profile comes from: the octets that are given, or the prover, which makes one of that version.
#[derive(Clone, Copy)]
pub enum Origin<'a> {
    Given(&'a [u8]),
    Made(Version),
}

impl<'a> Origin<'a> {
    /// By the version that is asked for, and the parts: a certificate that is among them is taken.
    pub fn of(version: Version, parts: &Parts<'a>) -> Origin<'a>
        ensures { result ≡ spec.origin_of version parts.now.certificate }
    {
        match parts.certificate {
            Some(octets) => Origin::Given(octets),
            None => Origin::Made(version),
        }
    }
}

/// What is found of a profile and its certificate: both, or the line that refuses them.
#[derive(Drop)]
pub enum Judged {
    Accepted(Accepted),
    Refused(String),
}

/// The certificate of a profile, or the line of why there is none.
#[derive(Drop)]
pub(crate) enum Found {
    Certificate(Certificate),
    /// One that is proved, so its entries are right.
    Proved(Certificate),
    Line(String),
}

/// The profile that octets stand for with its certificate, which is given or made; or the line of the first fault: of the profile, of the certificate's text, or of
/// the certificate.
pub fn accept(
    alloc: Global,
    top: &str,
    octets: &[u8],
    origin: Origin<'_>,
) -> Result<Judged, AllocError>
    ensures { IfOk result (spec.JudgesOctets top.now octets.now origin.entry) }
{
    match read(alloc, octets, top.as_bytes()) {
        Ok(profile) => judge(alloc, profile, origin),
        Err(error) => Ok(Judged::Refused(error_line(alloc, octets, error)?)),
    }
}

/// The verdict on a profile with its certificate.
fn judge(alloc: Global, profile: Profile, origin: Origin<'_>) -> Result<Judged, AllocError>
    ensures { IfOk result (spec.IsJudged profile origin.entry) }
{
    match find(alloc, &profile, origin)? {
        Found::Certificate(certificate) => verdict(alloc, profile, certificate, false),
        Found::Proved(certificate) => verdict(alloc, profile, certificate, true),
        Found::Line(line) => Ok(Judged::Refused(line)),
    }
}

/// The certificate that is given for a profile, or the one that is made.
fn find(alloc: Global, profile: &Profile, origin: Origin<'_>) -> Result<Found, AllocError>
    ensures { IfOk result (spec.IsFound profile.now origin.entry) }
{
    match origin {
        Origin::Given(octets) => read_octets(alloc, profile, octets),
        Origin::Made(version) => make(alloc, profile, version),
    }
}

/// The certificate that octets stand for.
fn read_octets(alloc: Global, profile: &Profile, octets: &[u8]) -> Result<Found, AllocError>
    ensures { IfOk result (spec.IsGiven profile.now octets.now) }
{
    match str::from_utf8(octets) {
        Ok(text) => read_text(alloc, profile, text),
        Err(_) => Ok(Found::Line(broken(alloc, octets)?)),
    }
}

/// The certificate of that version that is made for a profile.
fn make(alloc: Global, profile: &Profile, version: Version) -> Result<Found, AllocError>
    ensures { IfOk result (spec.IsMade profile.now version) }
{
    match prove(alloc, profile, version) {
        Ok(certificate) => {
            certificate.keeps();
            ordered_is_right();
            Ok(Found::Proved(certificate))
        }
        Err(unproved) => {
            profile.keeps();
            Ok(Found::Line(unproved_line(alloc, profile.methods(), unproved)?))
        }
    }
}

/// The line of octets that are no UTF-8, by their first line that isn't.
fn broken(alloc: Global, octets: &[u8]) -> Result<String, AllocError>
    requires { IsUtf8 octets.now → ⊥ }
    ensures { IfOk result (λ text. string_bytes text ≡ spec.broken_text octets.now) }
{
    match lines(alloc, octets) {
        Ok(_) => unreachable!(),
        Err(LinesError::NotText { line }) => error_text(alloc, "K1 bad word", line),
        Err(LinesError::OutOfMemory) => Err(AllocError),
    }
}

/// The certificate of a text.
fn read_text(alloc: Global, profile: &Profile, text: &str) -> Result<Found, AllocError>
    ensures { IfOk result (spec.IsGiven profile.now text.now) }
{
    match cert_text::read(alloc, profile, text) {
        Ok(certificate) => {
            certificate.keeps();
            Ok(Found::Certificate(certificate))
        }
        Err(error) => Ok(Found::Line(unread_line(alloc, error)?)),
    }
}

/// The verdict on a profile with this certificate, whose entries are known to be right or not.
fn verdict(
    alloc: Global,
    profile: Profile,
    certificate: Certificate,
    is_right: bool,
) -> Result<Judged, AllocError>
    requires { IsTrue is_right → AreEntriesRight profile.methods profile.sizes certificate }
    ensures { IfOk result (spec.IsVerdict profile certificate) }
{
    match checked(alloc, profile, certificate, is_right) {
        Ok(accepted) => {
            accepted.keeps();
            Ok(Judged::Accepted(accepted))
        }
        Err(refused) => match refused.error {
            CheckError::Fault(fault) => {
                refused.profile.keeps();
                let methods = refused.profile.methods();
                Ok(Judged::Refused(verdict_line(alloc, methods, fault)?))
            }
            CheckError::OutOfMemory => Err(AllocError),
        },
    }
}

/// The profile with this certificate, where it is valid. Entries that are known to be right are not judged.
fn checked(
    alloc: Global,
    profile: Profile,
    certificate: Certificate,
    is_right: bool,
) -> Result<Accepted, RefusedCertificate>
    requires { IsTrue is_right → AreEntriesRight profile.methods profile.sizes certificate }
    ensures profile { IfOk result (λ a. a.profile ≡ profile) }
    ensures certificate { IfOk result (λ a. a.certificate ≡ certificate) }
    ensures same_profile { IfErr result (λ r. r.profile ≡ profile) }
    ensures same_certificate { IfErr result (λ r. r.certificate ≡ certificate) }
    ensures fault { IfErr result (λ r. checker.Blames profile certificate r.error) }
{
    if is_right {
        check_right(alloc, profile, certificate)
    } else {
        check(alloc, profile, certificate)
    }
}
