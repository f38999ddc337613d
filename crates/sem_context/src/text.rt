//! The text of a context.
ghost use Rattle.std.specs.Prelude.{◌≡◌, List, ℕ, Bool, map, OnOk, IfOk, IfErr, IfSome, IfNone, string_bytes};
ghost use Rattle.sem_bits.specs.Lines.{numbered_lines};
ghost use Rattle.sem_context.specs.Text.{IsContextText, AddsLine, IsEntryLine, IsReading, Blames};

use crate::context::Context;
use crate::path::is_path;
use sem_bits::lines::lines;
use sem_bits::{Bits, Line, LinesError};
use std::alloc::{AllocError, Global};
use thiserror::Error;

/// Why a text is no context.
#[derive(Debug, Drop, Error)]
pub enum ContextError {
    /// The line of this number is no path and bits, or repeats a path.
    #[error("line {line}: no path and bits, or a path that stood before")]
    BadLine { line: usize },
    #[error("out of memory")]
    OutOfMemory,
}

impl From<AllocError> for ContextError {
    ghost use Rattle.std.specs.Prelude.{◌≡◌};
    ghost use Rattle.sem_context.specs.declared.text.ContextError.TheVariants.{OutOfMemory};

    ghost from_gives = { λ _ e. e ≡ OutOfMemory };

    fn from(_error: AllocError) -> ContextError {
        ContextError::OutOfMemory
    }
}

impl Context {
    /// The text of the context: for each entry a line of its path, a space and the text of its bits, as `sn 8:01`.
    pub fn print_text(&self, alloc: Global) -> Result<String, AllocError>
        ensures { IfOk result (λ t. IsContextText self.now (string_bytes t)) }
    {
        let mut text = String::new(alloc);
        for (path, bits) in &self.kept {
            push_line(alloc, &mut text, path.as_str(), bits)?;
        }
        Ok(text)
    }

    /// The context of a text of lines such as `sn 8:01`, where empty lines are skipped. The error is `BadLine` just where a line
    /// is no path, space and bits, or repeats a path, and names the first such line; the first line is 1, and empty lines count.
    pub fn read_text(alloc: Global, text: &str) -> Result<Context, ContextError>
        ensures found { IfOk result (λ c. IsReading (numbered_lines text.now) c) }
        ensures fault { IfErr result (λ e. Blames e (numbered_lines text.now)) }
    {
        let found = text_lines(alloc, text)?;
        let mut context = Context::new(alloc);
        for line in &found {
            let Some((path, bits)) = read_entry(alloc, line.text)? else {
                return Err(ContextError::BadLine { line: line.number });
            };
            if context.get(path.as_str()).is_some() {
                return Err(ContextError::BadLine { line: line.number });
            }
            context.push_new(path, bits)?;
        }
        Ok(context)
    }
}

/// Adds the line of an entry at the end of a text.
fn push_line(alloc: Global, text: &mut String, path: &str, bits: &Bits) -> Result<(), AllocError>
    ensures { OnOk result (AddsLine (string_bytes text.old) (path.now, bits.now) (string_bytes text.new)) }
{
    let spelled = bits.print_text(alloc)?;
    text.push_str(path)?;
    text.push(' ')?;
    text.push_str(spelled.as_str())?;
    text.push('\n')?;
    Ok(())
}

/// The lines of a text that are not empty, each with its number.
fn text_lines(alloc: Global, text: &str) -> Result<Vec<Line<'_>>, AllocError>
    ensures { IfOk result (λ v. map (λ l. (l.number, l.text.now)) v.items ≡ numbered_lines text.now) }
{
    match lines(alloc, text.as_bytes()) {
        Ok(found) => Ok(found),
        Err(LinesError::NotText { .. }) => unreachable!(),
        Err(LinesError::OutOfMemory) => Err(AllocError),
    }
}

/// The path and the bits of a line, or `None` where it is no path, space and bits.
fn read_entry(alloc: Global, line: &str) -> Result<Option<(String, Bits)>, AllocError>
    ensures found { IfOk result (λ o. IfSome o (λ p. IsEntryLine line.now (string_bytes p.0, p.1))) }
    ensures none { IfOk result (λ o. IfNone o ((e : List ℕ × List Bool) → IsEntryLine line.now e → ⊥)) }
{
    let Some((path, spelled)) = line.split_once(' ') else {
        return Ok(None);
    };
    if !is_path(path) {
        return Ok(None);
    }
    let Some(bits) = Bits::read_text(alloc, spelled)? else {
        return Ok(None);
    };
    Ok(Some((String::from_str(alloc, path)?, bits)))
}
