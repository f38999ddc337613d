//! Sets of formats, as a mark for each.

ghost use Rattle.std.specs.Prelude.{◌≡◌, ℕ, ◌++◌, replicate, true, false, slice_get, IfOk, MatchOption, ◌&&◌};
ghost use Rattle.cert_trees.specs.declared.signatures.Test.TheVariants.{Lacks};
ghost use Rattle.cert_trees.specs.Judged as judged;
ghost use Rattle.cert_trees.specs.Signature as spec;

use crate::signatures::{Signature, Test};
use cert_types::Node;
use sem_profile::FormatSizes;
use sqlite_items::{Items, at};
use std::alloc::{AllocError, Global};

/// All formats.
pub(crate) fn all(alloc: Global, count: usize) -> Result<Items<bool>, AllocError>
    ensures { IfOk result (λ set. set ≡ replicate count true) }
{
    Ok(Items::from_vec(vec![in alloc; true; count]?))
}

/// The formats of the set that pass the test.
fn kept(
    alloc: Global,
    test: Test,
    tolds: &[Signature],
    set: &[bool],
) -> Result<Items<bool>, AllocError>
    ensures { IfOk result (λ left. left ≡ spec.kept test tolds.now set.now) }
{
    let mut left = Items::new(alloc);
    for place in 0..tolds.len() {
        if place >= set.len() {
            return Ok(left);
        }
        left.push(stays(&tolds[place], test, set[place]))?;
    }
    Ok(left)
}

/// Whether a format that is in the set, by its mark, stays in it.
fn stays(told: &Signature, test: Test, mark: bool) -> bool
    ensures { result ≡ (mark && spec.passes test told.now) }
{
    mark && told.passes(test)
}

/// The test that the bit at an offset isn't known to be this one.
fn lacks(offset: usize, bit: bool) -> Test
    ensures test { result ≡ Lacks offset bit }
    ensures offset { spec.IsTest result }
{
    Test::Lacks(offset as u128, bit)
}

/// Puts the sets of a node's subtrees onto the stack, that of the first one last.
pub(crate) fn push_branches(
    alloc: Global,
    sets: &mut Items<Items<bool>>,
    tolds: &[Signature],
    set: &[bool],
    node: Node,
) -> Result<(), AllocError>
    ensures pushed { IfOk result (λ u. sets.new ≡ sets.old ++ spec.branches tolds.now set.now node) }
    ensures offset { IfOk result (λ u. spec.IsNode node) }
{
    match node {
        Node::Bit(offset) => {
            sets.push(kept(alloc, lacks(offset, false), tolds, set)?)?;
            sets.push(kept(alloc, lacks(offset, true), tolds, set)?)?;
        }
        Node::Parameter(parameter, constant) => {
            sets.push(kept(alloc, Test::MayDiffer(parameter, constant), tolds, set)?)?;
            sets.push(kept(alloc, Test::MayBe(parameter, constant), tolds, set)?)?;
        }
        Node::Reference(field, constant) => {
            sets.push(kept(alloc, Test::MayLack(field, constant), tolds, set)?)?;
            sets.push(kept(alloc, Test::MayHold(field, constant), tolds, set)?)?;
        }
        Node::Leaf(_) | Node::Nowhere => {}
    }
    Ok(())
}

/// The first format of the set for which the node is wrong.
pub(crate) fn first_wrong(sizes: &[FormatSizes], set: &[bool], node: Node) -> Option<usize>
    ensures { MatchOption result ((n : ℕ) → judged.Has set.now n → judged.is_wrong sizes.now node n ≡ false) (judged.IsFirstWrong sizes.now set.now node) }
{
    for format in 0..set.len() {
        if set[format] && is_wrong(sizes, node, format) {
            return Some(format);
        }
    }
    None
}

/// Whether the node is wrong where the format reaches it.
fn is_wrong(sizes: &[FormatSizes], node: Node, format: usize) -> bool
    ensures { result ≡ judged.is_wrong sizes.now node format }
{
    match node {
        Node::Leaf(named) => format != named,
        Node::Nowhere => true,
        Node::Bit(offset) => is_short(sizes, offset, format),
        Node::Parameter(_, _) | Node::Reference(_, _) => false,
    }
}

fn is_short(sizes: &[FormatSizes], offset: usize, format: usize) -> bool
    ensures { result ≡ judged.is_short offset (slice_get sizes.now format) }
{
    match at(sizes, format) {
        Some(bounds) => bounds.whole.compressed.least <= offset as u128,
        None => false,
    }
}
