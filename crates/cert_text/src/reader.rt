//! Certificates are read from their text.

ghost use Rattle.std.specs.Prelude.{◌≡◌, ◌<◌, ◌≤◌, suc, length, map, IfOk, OnOk, IfErr, Err, Some, ℕ};
ghost use Rattle.std.specs.List.{slice_split};
ghost use Rattle.std.specs.Str.Lines.{lines as lines_of};
ghost use Rattle.sem_bits.specs.Lines.{numbered_lines};
ghost use Rattle.cert_text.specs.Drafts as spec;
ghost use Rattle.cert_text.specs.Shapes.{Stops};
ghost use Rattle.cert_text.specs.Faults.{IsReading, Blames, text_limit};
ghost use Rattle.cert_text.specs.Faults as said;
ghost use Rattle.cert_text.specs.declared.reader.CertificateError.TheVariants.{AboveLimits};
ghost use Rattle.cert_text.specs.declared.draft.Stage.TheVariants as stage;

use crate::draft::Draft;
use crate::faults::{Fault, fault_of};
use cert_types::Certificate;
use sem_bits::lines::lines;
use sem_bits::{Line, LinesError};
use sem_profile::{Method, Profile};
use std::alloc::{AllocError, Global};
use thiserror::Error;

/// No text is longer, in octets.
pub const TEXT_LIMIT: usize = 1_048_576;

/// Why a text is no certificate of a profile, with the number of its line.
#[derive(Debug, Drop, Error)]
pub enum CertificateError {
    /// No line of a certificate, or one that may not come there.
    #[error("line {line}: K1 bad word")]
    BadWord { line: usize },
    /// A name that the profile doesn't have there, or a constraint's number.
    #[error("line {line}: K2 unknown name")]
    UnknownName { line: usize },
    /// A number, or a count of nodes, of steps, of a tree's depth or of the text's octets.
    #[error("line {line}: K3 above limits")]
    AboveLimits { line: usize },
    #[error("out of memory")]
    OutOfMemory,
}

impl From<AllocError> for CertificateError {
    ghost use Rattle.std.specs.Prelude.{◌≡◌};
    ghost use Rattle.cert_text.specs.declared.reader.CertificateError.TheVariants.{OutOfMemory};

    ghost from_gives = { λ _ e. e ≡ OutOfMemory };

    fn from(_error: AllocError) -> CertificateError {
        CertificateError::OutOfMemory
    }
}

/// The certificate of the profile that a text spells (docs/FORMATS.md). A text above `TEXT_LIMIT` is a fault of line 1, before all others. Else the error names the
/// first line with which no certificate of the profile goes on from those before it, or the line after the last where more would have to come.
pub fn read(alloc: Global, profile: &Profile, text: &str) -> Result<Certificate, CertificateError>
    ensures found { IfOk result (λ c. IsReading profile.now.methods (numbered_lines text.now) c) }
    ensures short { IfOk result (λ c. length text.now ≤ text_limit) }
    ensures too_long { text_limit < length text.now → result ≡ Err (AboveLimits 1) }
    ensures fault { IfErr result (λ e. Blames profile.now.methods e text.now) }
{
    if text.len() > TEXT_LIMIT {
        return Err(CertificateError::AboveLimits { line: 1 });
    }
    let lines = text_lines(alloc, text)?;
    profile.keeps();
    let draft = drafted(alloc, profile.methods(), lines.as_slice())?;
    if !draft.is_whole() {
        return Err(CertificateError::BadWord {
            line: after_last(text),
        });
    }
    Ok(Certificate::of(draft.version, draft.entries))
}

/// What the lines make, one after the other.
fn drafted(alloc: Global, methods: &[Method], lines: &[Line<'_>]) -> Result<Draft, CertificateError>
    ensures found { IfOk result (λ d. spec.read_lines methods.now spec.start (map (λ l. l.text.now) lines.now) ≡ Some d) }
    ensures fault { IfErr result (λ e. (f : Fault) (n : ℕ) → said.fault_of e ≡ Some (f, n) → Stops methods.now (map (λ l. (l.number, l.text.now)) lines.now) f n) }
{
    let mut draft = Draft::new(alloc);
    let mut found = Vec::new(alloc);
    for line in lines {
        words(line.text, &mut found)?;
        let place = draft.stands();
        if !draft.next(alloc, methods, found.as_slice())? {
            return Err(error_at(fault_of(place, methods, found.as_slice()), line.number));
        }
    }
    Ok(draft)
}

/// Puts the words of a line, parted by one space each, in place of those that were found before.
fn words<'a>(line: &'a str, found: &mut Vec<&'a str>) -> Result<(), AllocError>
    ensures { OnOk result (map (λ word. word.now) found.new.items ≡ spec.words line.now) }
{
    found.clear();
    // A loop, since `collect` goes on after a refused growth.
    for word in line.split(' ') {
        found.push(word)?;
    }
    Ok(())
}

fn error_at(fault: Fault, line: usize) -> CertificateError
    ensures { said.fault_of result ≡ Some (fault, line) }
{
    match fault {
        Fault::BadWord => CertificateError::BadWord { line },
        Fault::UnknownName => CertificateError::UnknownName { line },
        Fault::AboveLimits => CertificateError::AboveLimits { line },
    }
}

/// The lines of a text that are not empty, each with its number.
fn text_lines(alloc: Global, text: &str) -> Result<Vec<Line<'_>>, AllocError>
    ensures { IfOk result (λ v. map (λ l. (l.number, l.text.now)) v.items ≡ numbered_lines text.now) }
{
    match lines(alloc, text.as_bytes()) {
        Ok(found) => Ok(found),
        Err(LinesError::NotText { .. }) => unreachable!(),
        Err(LinesError::OutOfMemory) => Err(AllocError),
    }
}

/// The number after that of the last line.
fn after_last(text: &str) -> usize
    ensures { result ≡ suc (length (lines_of text.now)) }
{
    let mut number = 0;
    for _line in text.lines() {
        number += 1;
    }
    number + 1
}
