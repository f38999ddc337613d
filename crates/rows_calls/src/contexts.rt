//! Contexts and their text.

use crate::words::{bits, parted, put_bits};
use anyhow::Result;
use sem_bits::Bits;
use sem_context::path::is_path;
use sem_context::{Context, ContextError};
use std::alloc::{AllocError, Global};
use std::fmt::Write;

/// `path TEXT`: whether it is one.
pub(crate) fn knows_path(out: &mut String, text: &str) -> Result<()> {
    Ok(write!(out, "{}", is_path(text))?)
}

/// `context TEXT`: the text of the context that it is, or the fault.
pub(crate) fn read(alloc: Global, out: &mut String, text: &str) -> Result<()> {
    match Context::read_text(alloc, text) {
        Ok(context) => put_context(alloc, out, &context),
        Err(ContextError::BadLine { line }) => Ok(write!(out, "C1 bad line {line}")?),
        Err(ContextError::OutOfMemory) => Err(AllocError.into()),
    }
}

/// Says the text of a context.
pub(crate) fn put_context(alloc: Global, out: &mut String, context: &Context) -> Result<()> {
    Ok(out.push_str(context.print_text(alloc)?.as_str())?)
}

/// `get PATH of CONTEXT`: the bits there, and how many entries there are.
pub(crate) fn found(alloc: Global, out: &mut String, rest: &str) -> Result<()> {
    let (path, text) = parted(rest, " of ")?;
    let context = Context::read_text(alloc, text)?;
    put_found(alloc, out, context.get(path))?;
    Ok(write!(out, " of {}", context.len())?)
}

fn put_found(alloc: Global, out: &mut String, found: Option<&Bits>) -> Result<()> {
    match found {
        Some(bits) => put_bits(alloc, out, bits),
        None => Ok(out.push_str("none")?),
    }
}

/// `replace CONTEXT by ENTRIES`: the text of the context after entries, which stand with `; ` between them, and that of a copy of it.
pub(crate) fn replaced(alloc: Global, out: &mut String, rest: &str) -> Result<()> {
    let (text, entries) = parted(rest, " by ")?;
    let context = after(alloc, text, entries)?;
    put_twice(alloc, out, &context)
}

fn after(alloc: Global, text: &str, entries: &str) -> Result<Context> {
    let mut context = Context::read_text(alloc, text)?;
    context.replace(read_entries(alloc, entries)?)?;
    Ok(context)
}

fn put_twice(alloc: Global, out: &mut String, context: &Context) -> Result<()> {
    put_context(alloc, out, context)?;
    out.push_str("= ")?;
    let copy = context.copy(alloc)?;
    put_context(alloc, out, &copy)
}

fn read_entries(alloc: Global, text: &str) -> Result<Vec<(String, Bits)>> {
    let mut list = Vec::new(alloc);
    for entry in text.split("; ") {
        list.push(read_entry(alloc, entry)?)?;
    }
    Ok(list)
}

fn read_entry(alloc: Global, entry: &str) -> Result<(String, Bits)> {
    let (path, spelled) = parted(entry, " ")?;
    let bits = bits(alloc, spelled)?;
    Ok((String::from_str(alloc, path)?, bits))
}
