//! What is answered to `check`.

ghost use Rattle.std.specs.Prelude.{◌≡◌, IfOk, codes, string_bytes};
ghost use Rattle.tool_report.specs.Reports.{ChecksOctets};

use crate::profile_and_certificate::{Judged, Origin, accept};
use std::alloc::{AllocError, Global};
use tool_input::refusals::refusal;
use tool_input::status::{Answer, Status};

/// The answer to `check`: `accepted`, or the line of the first fault.
pub fn answer_check(
    alloc: Global,
    top: &str,
    profile: &[u8],
    origin: Origin<'_>,
) -> Result<Answer, AllocError>
    ensures { IfOk result (ChecksOctets top.now profile.now origin.entry) }
{
    match accept(alloc, top, profile, origin)? {
        Judged::Accepted(_) => answer_accepted(alloc),
        Judged::Refused(line) => refusal(alloc, line.as_str()),
    }
}

/// The answer for a certificate that is valid.
fn answer_accepted(alloc: Global) -> Result<Answer, AllocError>
    ensures status { IfOk result (λ a. a.status ≡ Status.Done) }
    ensures output { IfOk result (λ a. string_bytes a.output ≡ codes "accepted\n") }
{
    let output = String::from_str(alloc, "accepted\n")?;
    Ok(Answer {
        status: Status::Done,
        output,
    })
}
