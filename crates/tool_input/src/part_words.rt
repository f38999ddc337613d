//! The words in a part.

ghost use Rattle.std.specs.Prelude.{◌≡◌, ◌==◌, filter, not, map, length, IfOk, option_and_then, option_map};
ghost use Rattle.std.specs.Str.Lines.{lines};
ghost use Rattle.tool_input.specs.PartWords.{words_in};

use crate::inputs::pieces;
use std::alloc::{AllocError, Global};

/// The words in a part: those of its one line that isn't empty.
pub fn words_at<'a>(
    alloc: Global,
    text: Option<&'a [u8]>,
) -> Result<Option<Vec<&'a str>>, AllocError>
    ensures { IfOk result (λ words. option_map (λ words. map (λ word. word.now) words.items) words ≡ option_and_then words_in (option_map (λ text. text.now) text.entry)) }
{
    let Some(octets) = text else {
        return Ok(None);
    };
    let Ok(text) = str::from_utf8(octets) else {
        return Ok(None);
    };
    let lines = filled_lines(alloc, text)?;
    if lines.len() != 1 {
        return Ok(None);
    }
    Ok(Some(pieces(alloc, lines[0])?))
}

// The lines that aren't empty.
fn filled_lines<'a>(alloc: Global, text: &'a str) -> Result<Vec<&'a str>, AllocError>
    ensures { IfOk result (λ found. map (λ line. line.now) found.items ≡ filter (λ line. not (length line == 0)) (lines text.entry.now)) }
{
    // A loop, since `collect` goes on after a refused growth.
    let mut found = Vec::new(alloc);
    for line in text.lines() {
        if !line.is_empty() {
            found.push(line)?;
        }
    }
    Ok(found)
}
