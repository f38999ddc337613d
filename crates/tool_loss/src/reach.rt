//! What `why --robust` prints of an item that can't be packed for all that a receiver may hold.

ghost use Rattle.std.specs.Prelude.{◌≡◌, ◌++◌, IfOk, OnOk, string_bytes};
ghost use Rattle.tool_loss.specs.Reach as spec;

use crate::loss::unserved_words;
use sem_profile::Method;
use std::alloc::{AllocError, Global};
use text_source::line_column;
use tool_items::why::reason_text;
use tool_names::names::{format_name, method_name, method_place};
use walk_loss::Lack;

/// Adds a line for each, after a line feed: where the top method stands in the profile, the format, after how many lost packets it isn't read, and the use of a
/// reference that doesn't serve then.
pub fn push_lacks(
    alloc: Global,
    output: &mut String,
    octets: &[u8],
    methods: &[Method],
    top: usize,
    lacks: &[Lack],
) -> Result<(), AllocError>
    ensures { OnOk result (string_bytes output.new ≡ string_bytes output.old ++ spec.lacks_text octets.now methods.now top lacks.now) }
{
    let at = method_place(methods, top);
    let place = line_column(octets, at.from as usize);
    for lack in lacks {
        let text = lack_line(alloc, place.line, place.column, methods, top, lack)?;
        output.push_str(text.as_str())?;
    }
    Ok(())
}

/// The line of a format, after a line feed.
fn lack_line(
    alloc: Global,
    line: usize,
    column: usize,
    methods: &[Method],
    top: usize,
    lack: &Lack,
) -> Result<String, AllocError>
    ensures { IfOk result (λ text. string_bytes text ≡ spec.lack_text line column methods.now top lack.now) }
{
    let unserved = unserved_words(alloc, &lack.unserved)?;
    let words = lack_words(alloc, lack.gap, unserved.as_str())?;
    reason_text(
        alloc,
        line,
        column,
        "",
        method_name(methods, top),
        format_name(methods, top, lack.format),
        words.as_str(),
    )
}

fn lack_words(alloc: Global, gap: usize, unserved: &str) -> Result<String, AllocError>
    ensures { IfOk result (λ text. string_bytes text ≡ spec.lack_words gap unserved.now) }
{
    format!(in alloc; "lost {gap}: {unserved}")
}
