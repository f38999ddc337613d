//! Fillings, what they leave in a context, and whether they fit.
//!
//! A filling stands in parts with ` | ` between them: `= FORMAT LISTING`, then each field by name, part, both sides and perhaps `asked`; behind a field the filling
//! inside it, from `( FORMAT LISTING` up to `)`. An empty listing is `-`.

use crate::contexts::put_context;
use crate::words::{bits, count, parted, put_bits};
use anyhow::{Context as _, Result, anyhow};
use sem_context::Context;
use sem_filling::{FilledField, Filling, Frame, advance, below};
use sem_holds::holds;
use sem_profile::{Declared, Name, Part, Profile, Shared};
use sqlite_items::Items;
use std::alloc::Global;
use std::fmt::Write;
use std::mem;
use text_resolve::read;

/// `below PATH NAME`, or `below NAME` at the top: the path.
pub(crate) fn path(alloc: Global, out: &mut String, rest: &str) -> Result<()> {
    let (path, name) = rest.split_once(' ').unwrap_or(("", rest));
    Ok(out.push_str(below(alloc, path, name)?.as_str())?)
}

/// The profile of `TOP TEXT`.
pub(crate) fn read_profile(alloc: Global, profile: &str) -> Result<Profile> {
    let (top, text) = parted(profile, " ")?;
    Ok(read(alloc, text.as_bytes(), top.as_bytes())?)
}

/// `holds CONTEXT | FILLING`: whether the filling fits the top in the context.
pub(crate) fn judged(alloc: Global, out: &mut String, profile: &str, rest: &str) -> Result<()> {
    let (context, text) = parted(rest, "| ")?;
    let context = Context::read_text(alloc, context.trim_end())?;
    let filling = read_filling(alloc, text)?;
    let fits = fitting(alloc, profile, &context, &filling, 1)? == 1;
    Ok(write!(out, "{fits}")?)
}

/// `judged TIMES CONTEXT | FILLING`: how often of so many times the filling fits.
pub(crate) fn judged_often(
    alloc: Global,
    out: &mut String,
    profile: &str,
    rest: &str,
) -> Result<()> {
    let (times, rest) = parted(rest, " ")?;
    let (context, text) = parted(rest, "| ")?;
    let context = Context::read_text(alloc, context.trim_end())?;
    let filling = read_filling(alloc, text)?;
    let fitting = fitting(alloc, profile, &context, &filling, count(times)?)?;
    Ok(write!(out, "{fitting}")?)
}

/// How often of so many times the filling fits.
fn fitting(
    alloc: Global,
    profile: &str,
    context: &Context,
    filling: &Filling,
    times: usize,
) -> Result<usize> {
    let profile = read_profile(alloc, profile)?;
    let mut fitting = 0_usize;
    for _ in 0..times {
        if fits_top(alloc, &profile, context, filling)? {
            fitting = fitting.saturating_add(1);
        }
    }
    Ok(fitting)
}

fn fits_top(
    alloc: Global,
    profile: &Profile,
    context: &Context,
    filling: &Filling,
) -> Result<bool> {
    profile.keeps();
    let Some(bounds) = profile.sizes().get(profile.top()) else {
        return Err(anyhow!("the top has no bounds"));
    };
    if !bounds.parameters.is_empty() {
        return Err(anyhow!("the top has parameters"));
    }
    let frame = Frame {
        profile,
        context,
        method: profile.top(),
        arguments: [].as_slice(),
        path: "",
    };
    Ok(holds(alloc, &frame, filling)?)
}

/// `sides CONTEXT | FILLING`: the filling's header, packed bits, item, entries, and the context after it.
pub(crate) fn sides(alloc: Global, out: &mut String, rest: &str) -> Result<()> {
    let (context, text) = parted(rest, "| ")?;
    let filling = read_filling(alloc, text)?;
    put_sides(alloc, out, &filling)?;
    put_item(alloc, out, &filling)?;
    put_entries(alloc, out, &filling)?;
    let mut context = Context::read_text(alloc, context.trim_end())?;
    advance(alloc, &mut context, &filling)?;
    put_context(alloc, out, &context)
}

fn put_sides(alloc: Global, out: &mut String, filling: &Filling) -> Result<()> {
    put_bits(alloc, out, &filling.header(alloc)?)?;
    out.push_str(" | ")?;
    put_bits(alloc, out, &filling.packed(alloc)?)?;
    Ok(out.push_str(" | ")?)
}

fn put_item(alloc: Global, out: &mut String, filling: &Filling) -> Result<()> {
    let item = filling.item(alloc)?;
    put_bits(alloc, out, &item.header)?;
    for value in item.asked.as_slice() {
        write!(out, " {}=", value.name.as_str())?;
        put_bits(alloc, out, &value.bits)?;
    }
    Ok(out.push_str(" | ")?)
}

fn put_entries(alloc: Global, out: &mut String, filling: &Filling) -> Result<()> {
    for (path, found) in &filling.entries(alloc)? {
        write!(out, "{path} ")?;
        put_bits(alloc, out, found)?;
        out.push(';')?;
    }
    Ok(out.push_str(" | ")?)
}

/// The filling that is being read, and those around it.
#[derive(Drop)]
struct Open {
    outer: Vec<Filling>,
    filling: Filling,
}

fn read_filling(alloc: Global, text: &str) -> Result<Filling> {
    let mut open = Open {
        outer: Vec::new(alloc),
        filling: empty(alloc)?,
    };
    for part in text.split(" | ") {
        open.add(alloc, part)?;
    }
    Ok(open.filling)
}

fn empty(alloc: Global) -> Result<Filling> {
    Ok(Filling {
        format: 0,
        listing: Shared::new(alloc, Items::new(alloc))?,
        fields: Items::new(alloc),
    })
}

impl Open {
    fn add(&mut self, alloc: Global, part: &str) -> Result<()> {
        if part == ")" {
            return self.close();
        }
        let (first, rest) = parted(part, " ")?;
        match first {
            "=" => self.begin(alloc, rest),
            "(" => {
                let around = mem::replace(&mut self.filling, empty(alloc)?);
                self.outer.push(around)?;
                self.begin(alloc, rest)
            }
            name => Ok(self.filling.fields.push(read_field(alloc, name, rest)?)?),
        }
    }

    fn begin(&mut self, alloc: Global, rest: &str) -> Result<()> {
        let (format, listing) = parted(rest, " ")?;
        self.filling.format = count(format)?;
        self.filling.listing = Shared::new(alloc, read_listing(alloc, listing)?)?;
        Ok(())
    }

    fn close(&mut self) -> Result<()> {
        let around = self.outer.pop().context("no filling around")?;
        let inner = mem::replace(&mut self.filling, around);
        let mut field = self.filling.fields.pop().context("no field")?;
        field.inner = Some(inner);
        Ok(self.filling.fields.push(field)?)
    }
}

/// Indices with a comma between them; none is `-`.
fn read_listing(alloc: Global, text: &str) -> Result<Items<usize>> {
    let mut listing = Items::new(alloc);
    if text != "-" {
        for index in text.split(',') {
            listing.push(count(index)?)?;
        }
    }
    Ok(listing)
}

fn read_field(alloc: Global, name: &str, rest: &str) -> Result<FilledField> {
    let (part, rest) = parted(rest, " ")?;
    let (uncompressed, rest) = parted(rest, " ")?;
    let (compressed, asked) = rest.split_once(' ').unwrap_or((rest, ""));
    let part = read_part(part)?;
    let uncompressed = bits(alloc, uncompressed)?;
    let compressed = bits(alloc, compressed)?;
    let name = Name::new(alloc, name)?.context("no name")?;
    let asked = asked == "asked";
    Ok(FilledField {
        declared: Declared { name, part, asked },
        uncompressed,
        compressed,
        inner: None,
    })
}

fn read_part(word: &str) -> Result<Part> {
    match word {
        "header" => Ok(Part::Header),
        "control" => Ok(Part::Control),
        "local" => Ok(Part::Local),
        _ => Err(anyhow!("no part")),
    }
}
