//! Rows on contexts.

use crate::bits::pattern;
use crate::outcome::{First, Outcome};
use crate::stop::Stop;
use sem_bits::Bits;
use sem_context::{Context, ContextError};
use std::alloc::Global;

/// Whether two contexts have one text.
pub(crate) fn are_same(alloc: Global, one: &Context, other: &Context) -> Result<bool, Stop> {
    let text = one.print_text(alloc)?;
    Ok(text.as_str() == other.print_text(alloc)?.as_str())
}

/// `replace COUNT`: so many entries, half of which have paths that were there.
pub(crate) fn replace(alloc: Global, count: usize) -> Result<Outcome, Stop> {
    let mut context = replaced(alloc, Context::new(alloc), count / 2, 2)?;
    let due = replaced(alloc, context.copy(alloc)?, count, 3)?;
    replace_in(alloc, &mut context, &due, count)
}

/// A context whose entries were replaced by so many.
fn replaced(alloc: Global, context: Context, count: usize, step: usize) -> Result<Context, Stop> {
    let mut context = context;
    context.replace(entries(alloc, count, step)?)?;
    Ok(context)
}

fn replace_in(
    alloc: Global,
    context: &mut Context,
    due: &Context,
    count: usize,
) -> Result<Outcome, Stop> {
    let copy = context.copy(alloc)?;
    let is_made = context.replace(entries(alloc, count, 3)?).is_ok();
    if is_made {
        return Ok(First::Answered.then(are_same(alloc, context, due)?));
    }
    let first = First::refused(are_same(alloc, context, &copy)?);
    replace_again(alloc, context, due, count, first)
}

/// The second call, after one that was refused memory.
fn replace_again(
    alloc: Global,
    context: &mut Context,
    due: &Context,
    count: usize,
    first: First,
) -> Result<Outcome, Stop> {
    let is_made = context.replace(entries(alloc, count, 3)?).is_ok();
    Ok(first.then(is_made && are_same(alloc, context, due)?))
}

/// So many entries, of up to 90 bits each.
fn entries(alloc: Global, count: usize, step: usize) -> Result<Vec<(String, Bits)>, Stop> {
    let mut found = Vec::new(alloc);
    for number in 0..count {
        let path = format!(in alloc; "f{number}")?;
        found.push((path, pattern(alloc, 10 * (number % 10), step)?))?;
    }
    Ok(found)
}

/// `context ENTRIES`: the context that a text is read as. Where its lines end, the row has `; `.
pub(crate) fn read_text(alloc: Global, entries: &str) -> Result<Outcome, Stop> {
    let mut text = String::new(alloc);
    for entry in entries.split("; ") {
        text.push_str(entry)?;
        text.push('\n')?;
    }
    match Context::read_text(alloc, text.as_str()) {
        Ok(context) => judged(alloc, First::Answered, &context, text.as_str()),
        Err(ContextError::BadLine { .. }) => Ok(Outcome::Wrong),
        Err(ContextError::OutOfMemory) => match Context::read_text(alloc, text.as_str()) {
            Ok(context) => judged(alloc, First::Kept, &context, text.as_str()),
            Err(_) => Ok(Outcome::WrongAgain),
        },
    }
}

fn judged(alloc: Global, first: First, context: &Context, due: &str) -> Result<Outcome, Stop> {
    Ok(first.then(context.print_text(alloc)?.as_str() == due))
}
