//! Rows on decision trees: where they lead, and the tables in their place.

use crate::fillings::read_profile;
use crate::words::count;
use anyhow::{Context as _, Result, anyhow};
use cert_accepted::{Accepted, Picked};
use cert_check::check;
use cert_prove::prove;
use cert_types::{Node, Version};
use sem_bits::{Bits, Cursor};
use sem_context::Context;
use sem_filling::Frame;
use sqlite_items::at;
use std::alloc::Global;
use std::fmt::Write;

/// The profile of a row `profile`, accepted with the certificate that `prove` makes.
pub(crate) fn accept(alloc: Global, profile: &str) -> Result<Accepted> {
    let profile = read_profile(alloc, profile)?;
    let Ok(certificate) = prove(alloc, &profile, Version::One) else {
        return Err(anyhow!("no certificate"));
    };
    match check(alloc, profile, certificate) {
        Ok(accepted) => Ok(accepted),
        Err(_) => Err(anyhow!("not accepted")),
    }
}

/// `tables METHOD`, the method by its number: how many entries the tables of all trees have together; how many lists of up to eight bits there are, for how many
/// of them `pick` leads where the walk from node to node leads, also behind three more bits, and for how many they run out. The context is empty, and there are
/// no arguments.
pub(crate) fn tables(
    alloc: Global,
    out: &mut String,
    accepted: &Accepted,
    rest: &str,
) -> Result<()> {
    write!(out, "{} entries, ", accepted.table_entries())?;
    picks(alloc, out, accepted, count(rest)?)
}

fn picks(alloc: Global, out: &mut String, accepted: &Accepted, method: usize) -> Result<()> {
    let nodes = tree_of(accepted, method)?;
    let mut lists = 0_u32;
    let mut alike = 0_u32;
    let mut short = 0_u32;
    for length in 0..9_usize {
        for number in 0..256_u64 {
            let Some(bits) = Bits::from_value(alloc, length, number)? else {
                continue;
            };
            let plain = walked(nodes, &bits)?;
            lists = lists.saturating_add(1);
            if is_alike(alloc, accepted, method, &bits, plain)? {
                alike = alike.saturating_add(1);
            }
            if let Picked::Short = plain {
                short = short.saturating_add(1);
            }
        }
    }
    Ok(write!(out, "{lists} lists, {alike} alike, {short} short")?)
}

/// The nodes of a method's tree.
fn tree_of(accepted: &Accepted, method: usize) -> Result<&[Node]> {
    let entry = at(accepted.certificate().methods(), method).context("no method")?;
    Ok(entry.as_ref().context("no tree")?.tree.as_slice())
}

/// Where the bits lead from node to node, in the empty context and without arguments. What a field refers to there, an initial value, isn't looked up.
fn walked(nodes: &[Node], bits: &Bits) -> Result<Picked> {
    let mut skipped = 0_usize;
    for node in nodes {
        if skipped > 0 {
            skipped = after(node, skipped.saturating_sub(1));
            continue;
        }
        match node {
            Node::Leaf(format) => return Ok(Picked::Format(*format)),
            Node::Nowhere => return Ok(Picked::Nothing),
            Node::Bit(offset) => match bits.get(*offset) {
                Some(bit) => skipped = usize::from(bit),
                None => return Ok(Picked::Short),
            },
            Node::Parameter(..) => skipped = 1,
            Node::Reference(..) => return Err(anyhow!("a test of a reference")),
        }
    }
    Ok(Picked::Nothing)
}

/// How many subtrees are to be skipped after a node that is: its own, and so many more.
fn after(node: &Node, more: usize) -> usize {
    match node {
        Node::Bit(_) | Node::Parameter(..) | Node::Reference(..) => more.saturating_add(2),
        Node::Leaf(_) | Node::Nowhere => more,
    }
}

/// Whether the tables lead there, for the bits alone and behind three more.
fn is_alike(
    alloc: Global,
    accepted: &Accepted,
    method: usize,
    bits: &Bits,
    plain: Picked,
) -> Result<bool> {
    let context = Context::new(alloc);
    let frame = Frame {
        profile: accepted.profile(),
        context: &context,
        method,
        arguments: &[],
        path: "",
    };
    let here = accepted.pick(alloc, &frame, &Cursor::new(bits))?;
    let ahead = picked_ahead(alloc, accepted, &frame, bits)?;
    Ok(is_same(here, plain) && is_same(ahead, plain))
}

/// Where the tables lead for the bits, with `101` before them.
fn picked_ahead(
    alloc: Global,
    accepted: &Accepted,
    frame: &Frame<'_>,
    bits: &Bits,
) -> Result<Picked> {
    let mut more = Bits::from_value(alloc, 3, 5)?.context("no bits")?;
    more.append(bits)?;
    Ok(accepted.pick_ahead(alloc, frame, &Cursor::new(&more), 3)?)
}

fn is_same(one: Picked, other: Picked) -> bool {
    match one {
        Picked::Format(format) => match other {
            Picked::Format(named) => format == named,
            Picked::Nothing | Picked::Short => false,
        },
        Picked::Nothing => matches!(other, Picked::Nothing),
        Picked::Short => matches!(other, Picked::Short),
    }
}
