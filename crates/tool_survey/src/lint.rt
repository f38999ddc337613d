//! What `lint` tells of a profile.

ghost use Rattle.std.specs.Prelude.{◌≡◌, ◌++◌, IfOk, OnOk, string_bytes};
ghost use Rattle.tool_survey.specs.Lint as spec;

use crate::meant::silenced;
use crate::warnings::warnings;
use sem_context::Context;
use sem_filling::obstacle::DeadFormat;
use sem_lint::dead_formats;
use sem_profile::Profile;
use std::alloc::{AllocError, Global};
use text_listing::Places;
use tool_input::status::{Answer, Status};
use tool_names::names::{format_name, method_name};
use tool_names::obstacles::{obstacle_words, place_of};

/// A line for each format of the profile by which no header can ever be packed, whatever the context holds: where in the profile the reason stands, and what it is.
/// Below them stand warnings: what the rules of sem_lint find, and methods with too many candidates. Lines of the text that end with a comment silence what is told of
/// them. The octets are those of the profile's text. A flow begins with the context. It fails only where memory is refused.
pub fn lint_profile(
    alloc: Global,
    octets: &[u8],
    profile: &Profile,
    context: &Context,
) -> Result<Answer, AllocError>
    ensures { IfOk result (spec.LintsProfile octets.now profile.now context.now) }
{
    let found = dead_formats(alloc, profile)?;
    let places = Places::new(alloc, octets)?;
    let mut output = String::new(alloc);
    for dead in found.as_slice() {
        push_line(alloc, &mut output, &places, profile, *dead)?;
    }
    let warnings = warnings(alloc, &places, profile, context)?;
    output.push_str(warnings.as_str())?;
    Ok(Answer {
        status: Status::Done,
        output: silenced(alloc, octets, output.as_str())?,
    })
}

/// Adds the line of a format.
fn push_line(
    alloc: Global,
    output: &mut String,
    places: &Places<'_>,
    profile: &Profile,
    dead: DeadFormat,
) -> Result<(), AllocError>
    ensures { OnOk result (string_bytes output.new ≡ string_bytes output.old ++ spec.lint_line places.now profile.now dead) }
{
    let words = obstacle_words(alloc, profile, dead.method, dead.format, dead.obstacle)?;
    let methods = profile.methods();
    let place = places.position(place_of(methods, dead).from as usize);
    let line = line_text(
        alloc,
        place.line,
        place.column,
        method_name(methods, dead.method),
        format_name(methods, dead.method, dead.format),
        words.as_str(),
    )?;
    output.push_str(line.as_str())
}

fn line_text(
    alloc: Global,
    line: usize,
    column: usize,
    method: &str,
    format: &str,
    words: &str,
) -> Result<String, AllocError>
    ensures { IfOk result (λ text. string_bytes text ≡ spec.lint_words line column method.now format.now words.now) }
{
    format!(in alloc;
        "{line}:{column}: warning {method}.{format}: {words}: nothing fits this format\n"
    )
}
