//! What is answered to `lint` and to `draw`.

ghost use Rattle.std.specs.Prelude.{◌≡◌, IfOk, string_bytes};
ghost use Rattle.tool_json.specs.Drawing.{drawn_objects};
ghost use Rattle.tool_report.specs.Surveys.{Draws, DrawsObjects, Lints, LintsBy};

use crate::show::error_line;
use sem_profile::Profile;
use std::alloc::{AllocError, Global};
use text_resolve::read;
use tool_input::bundle::Parts;
use tool_input::inputs::{BadLine, read_context};
use tool_input::refusals::{context_line, refusal};
use tool_input::status::{Answer, Status};
use tool_json::drawing::drawn_objects;
use tool_survey::draw::draw_profile;
use tool_survey::lint::lint_profile;

/// The formats of the profile by which no header can ever be packed, whatever the context holds, and warnings below them; for a profile with a fault its line, and
/// else for a part `context` with a bad line that line. A flow begins with that context.
pub fn answer_lint(
    alloc: Global,
    top: &str,
    octets: &[u8],
    parts: &Parts<'_>,
) -> Result<Answer, AllocError>
    ensures { IfOk result (Lints top.now octets.now parts.now.context) }
{
    match read(alloc, octets, top.as_bytes()) {
        Ok(profile) => lint_by(alloc, octets, &profile, parts),
        Err(error) => {
            let line = error_line(alloc, octets, error)?;
            refusal(alloc, line.as_str())
        }
    }
}

/// The same of a profile without a fault.
fn lint_by(
    alloc: Global,
    octets: &[u8],
    profile: &Profile,
    parts: &Parts<'_>,
) -> Result<Answer, AllocError>
    ensures { IfOk result (LintsBy octets.now profile.now parts.now.context) }
{
    match read_context(alloc, parts) {
        Ok(context) => lint_profile(alloc, octets, profile, &context),
        Err(BadLine::Number(number)) => {
            let line = context_line(alloc, number)?;
            refusal(alloc, line.as_str())
        }
        Err(BadLine::OutOfMemory) => Err(AllocError),
    }
}

/// The diagram of each format's packed bits; for a profile with a fault its line.
pub fn answer_draw(alloc: Global, top: &str, octets: &[u8]) -> Result<Answer, AllocError>
    ensures { IfOk result (Draws top.now octets.now) }
{
    match read(alloc, octets, top.as_bytes()) {
        Ok(profile) => draw_profile(alloc, &profile),
        Err(error) => {
            let line = error_line(alloc, octets, error)?;
            refusal(alloc, line.as_str())
        }
    }
}

/// The objects of each format's packed bits; for a profile with a fault its line.
pub fn draw_objects(alloc: Global, top: &str, octets: &[u8]) -> Result<Answer, AllocError>
    ensures { IfOk result (DrawsObjects top.now octets.now) }
{
    match read(alloc, octets, top.as_bytes()) {
        Ok(profile) => drawn(alloc, &profile),
        Err(error) => {
            let line = error_line(alloc, octets, error)?;
            refusal(alloc, line.as_str())
        }
    }
}

fn drawn(alloc: Global, profile: &Profile) -> Result<Answer, AllocError>
    ensures status { IfOk result (λ a. a.status ≡ Status.Done) }
    ensures output { IfOk result (λ a. string_bytes a.output ≡ drawn_objects profile.now) }
{
    let output = drawn_objects(alloc, profile)?;
    Ok(Answer {
        status: Status::Done,
        output,
    })
}
