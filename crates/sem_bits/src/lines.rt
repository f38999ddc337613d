//! The lines of a part of the input.
ghost use Rattle.std.specs.Prelude.{◌≡◌, ◌+◌, ◌==◌, map, count_by, IfOk, IfErr};
ghost use Rattle.std.specs.Str.{IsUtf8};
ghost use Rattle.sem_bits.specs.Lines.{numbered_lines, BlamesLines};

use std::alloc::{AllocError, Global};
use thiserror::Error;

/// A line of a part that is not empty.
#[derive(Clone, Copy)]
pub struct Line<'a> {
    /// Its number, where the first line is 1 and empty lines count.
    pub number: usize,
    /// Its text, without what ends the line.
    pub text: &'a str,
}

/// Why a part has no lines.
#[derive(Debug, Drop, Error)]
pub enum LinesError {
    /// The octets are not UTF-8, and first break it in the line of this number.
    #[error("line {line}: not UTF-8")]
    NotText { line: usize },
    #[error("out of memory")]
    OutOfMemory,
}

impl From<AllocError> for LinesError {
    ghost use Rattle.std.specs.Prelude.{◌≡◌};
    ghost use Rattle.sem_bits.specs.declared.lines.LinesError.TheVariants.{OutOfMemory};

    ghost from_gives = { λ _ e. e ≡ OutOfMemory };

    fn from(_error: AllocError) -> LinesError {
        LinesError::OutOfMemory
    }
}

/// The lines of octets that are not empty, each with its number. A line ends at a line feed, and a carriage return
/// directly before it is dropped; one at the very end of the octets stays. The error is `NotText` just where the octets
/// are not UTF-8.
pub fn lines(alloc: Global, octets: &[u8]) -> Result<Vec<Line<'_>>, LinesError>
    ensures text { IfOk result (λ _. IsUtf8 octets.now) }
    ensures found { IfOk result (λ v. map (λ l. (l.number, l.text.now)) v.items ≡ numbered_lines octets.now) }
    ensures fault { IfErr result (λ e. BlamesLines e octets.now) }
{
    match str::from_utf8(octets) {
        Ok(text) => Ok(numbered(alloc, text)?),
        Err(error) => Err(LinesError::NotText {
            line: line_after(&octets[..error.valid_up_to()]),
        }),
    }
}

/// The lines of a text that are not empty, each with its number.
fn numbered(alloc: Global, text: &str) -> Result<Vec<Line<'_>>, AllocError>
    ensures { IfOk result (λ v. map (λ l. (l.number, l.text.now)) v.items ≡ numbered_lines text.now) }
{
    let mut found = Vec::new(alloc);
    let mut number = 0;
    for line in text.lines() {
        number += 1;
        if line.is_empty() {
            continue;
        }
        found.push(Line { number, text: line })?;
    }
    Ok(found)
}

/// The number of the line in which these octets end.
fn line_after(octets: &[u8]) -> usize
    ensures { result ≡ 1 + count_by (λ o. o == 10) octets.now }
{
    1 + octets.iter().filter(|o| **o == b'\n').count()
}
