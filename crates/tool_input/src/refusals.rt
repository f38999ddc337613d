//! The line that refuses.

ghost use Rattle.std.specs.Prelude.{◌≡◌, IfOk, string_bytes};
ghost use Rattle.tool_input.specs.Refusals as spec;

use crate::status::{Answer, Status};
use std::alloc::{AllocError, Global};

/// One line, and the status of a refusal.
pub fn refusal(alloc: Global, line: &str) -> Result<Answer, AllocError>
    ensures { IfOk result (spec.IsRefusal line.now) }
{
    let mut output = String::from_str(alloc, line)?;
    output.push('\n')?;
    Ok(Answer {
        status: Status::Refused,
        output,
    })
}

/// The line of a context that can't be read.
pub fn context_line(alloc: Global, number: usize) -> Result<String, AllocError>
    ensures { IfOk result (λ text. string_bytes text ≡ spec.context_line number) }
{
    format!(in alloc; "context:{number}: C1 bad line")
}
