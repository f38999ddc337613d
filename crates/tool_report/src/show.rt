//! What is printed of a profile alone.

ghost use Rattle.std.specs.Prelude.{◌≡◌, ℕ, List, ◌++◌, IfOk, codes, decimal, string_bytes};
ghost use Rattle.text_resolve.specs.Passes.{Refuses};
ghost use Rattle.text_listing.specs.Shown as listing;
ghost use Rattle.tool_report.specs.Reports.{Shows};
ghost use Rattle.tool_report.specs.ProfileLines.{IsFaultLine, cause_line, text_line};

use sem_profile::{Profile, ProfileFault};
use std::alloc::{AllocError, Global};
use std::mem::forget;
use text_listing::{fault_text, kind_text, show};
use text_resolve::{ReadError, read};
use text_source::{Fault, line_column};
use tool_input::refusals::refusal;
use tool_input::status::{Answer, Status};

/// The listing of the profile with the top of this name: its methods, bounds and constraints. For a profile with a fault
/// its line.
///
/// The profile is not let go box by box, which would take a while: a process that shows ends with its answer.
pub fn answer_listing(alloc: Global, top: &str, octets: &[u8]) -> Result<Answer, AllocError>
    ensures { IfOk result (Shows top.now octets.now) }
{
    match read(alloc, octets, top.as_bytes()) {
        Ok(profile) => {
            let output = listing(alloc, octets, &profile)?;
            forget(profile);
            Ok(Answer {
                status: Status::Done,
                output,
            })
        }
        Err(error) => {
            let line = error_line(alloc, octets, error)?;
            refusal(alloc, line.as_str())
        }
    }
}

/// The lines of a resolved profile.
fn listing(alloc: Global, octets: &[u8], profile: &Profile) -> Result<String, AllocError>
    ensures { IfOk result (λ text. string_bytes text ≡ listing.shown octets.now profile.now.methods profile.now.sizes) }
{
    show(alloc, octets, profile.methods(), profile.sizes())
}

/// The line of a profile that has no normal form.
pub fn error_line(alloc: Global, octets: &[u8], error: ReadError) -> Result<String, AllocError>
    ensures { (top : List ℕ) → Refuses octets.now top error → IfOk result (λ text. IsFaultLine top octets.now (string_bytes text)) }
{
    match error {
        ReadError::Text(fault) => text_line(alloc, octets, fault),
        ReadError::Profile(fault) => cause_line(alloc, octets, &fault),
        ReadError::OutOfMemory => Err(AllocError),
    }
}

/// A fault of the normal form, at its line and column, with the names that it shows.
fn cause_line(alloc: Global, octets: &[u8], fault: &ProfileFault) -> Result<String, AllocError>
    ensures { IfOk result (λ text. string_bytes text ≡ cause_line octets.now fault.now) }
{
    let place = line_column(octets, fault.at.from as usize);
    let (line, column) = (place.line, place.column);
    let code = fault.kind.code();
    let words = fault_text(alloc, octets, fault)?;
    fault_line(alloc, line, column, code, words.as_str())
}

/// A fault of the text, of its tokens or of its tree, at its line and column.
fn text_line(alloc: Global, octets: &[u8], fault: Fault) -> Result<String, AllocError>
    ensures { IfOk result (λ text. string_bytes text ≡ text_line octets.now fault) }
{
    let place = line_column(octets, fault.at.from as usize);
    let (line, column) = (place.line, place.column);
    let code = fault.kind.code();
    fault_line(alloc, line, column, code, kind_text(fault.kind))
}

/// The line of a fault with its code and its words.
fn fault_line(
    alloc: Global,
    line: usize,
    column: usize,
    code: &str,
    words: &str,
) -> Result<String, AllocError>
    ensures { IfOk result (λ text. string_bytes text ≡ codes "profile:" ++ decimal line ++ codes ":" ++ decimal column ++ codes ": " ++ code.now ++ codes " " ++ words.now) }
{
    format!(in alloc; "profile:{line}:{column}: {code} {words}")
}
