//! Sets of formats, by their numbers in file order.

ghost use Rattle.std.specs.Prelude.{◌≡◌, ◌++◌, IfOk, slice_get};
ghost use Rattle.std.specs.List.{filter, flat_map, range_with_len};
ghost use Rattle.std.specs.HashMap.{keys};
ghost use Rattle.cert_prove.specs.Known as spec;

use crate::stack::Stack;
use cert_trees::{Signature, Test};
use cert_types::{Node, OFFSET_LIMIT};
use sem_profile::FormatSizes;
use sqlite_items::{Items, at};
use std::alloc::{AllocError, Global};
use std::collections::HashMap;

/// The numbers of so many formats.
pub(crate) fn all_numbers(alloc: Global, count: usize) -> Result<Items<usize>, AllocError>
    ensures { IfOk result (λ set. set ≡ range_with_len 0 count) }
{
    let mut set = Items::new(alloc);
    for number in 0..count {
        set.push(number)?;
    }
    Ok(set)
}

// ---- tests of a set

/// Whether the format passes the test.
fn stays(tolds: &[Signature], test: Test, format: usize) -> bool
    ensures { result ≡ spec.stays tolds.now test format }
{
    match at(tolds, format) {
        Some(told) => told.passes(test),
        None => false,
    }
}

/// Whether the test loses a format of the set.
pub(crate) fn loses(tolds: &[Signature], set: &[usize], test: Test) -> bool
    ensures { result ≡ spec.loses tolds.now set.now test }
{
    for format in set {
        if !stays(tolds, test, *format) {
            return true;
        }
    }
    false
}

/// The least length of the packed bits of the format.
pub(crate) fn least(sizes: &[FormatSizes], format: usize) -> u128
    ensures { result ≡ spec.least (slice_get sizes.now format) }
{
    match at(sizes, format) {
        Some(bounds) => bounds.whole.compressed.least,
        None => 0,
    }
}

/// Whether the offset is below the least length of each format of the set.
fn are_longer(sizes: &[FormatSizes], set: &[usize], offset: u128) -> bool
    ensures { result ≡ spec.are_longer sizes.now set.now offset }
{
    for format in set {
        if least(sizes, *format) <= offset {
            return false;
        }
    }
    true
}

/// Whether a test of the bit at the offset parts the set.
pub(crate) fn bit_parts(
    tolds: &[Signature],
    sizes: &[FormatSizes],
    set: &[usize],
    offset: u128,
) -> bool
    ensures { result ≡ spec.bit_parts tolds.now sizes.now set.now offset }
{
    are_longer(sizes, set, offset)
        && loses(tolds, set, Test::Lacks(offset, false))
        && loses(tolds, set, Test::Lacks(offset, true))
}

// ---- subsets

/// The formats of the set that pass the test.
fn kept(
    alloc: Global,
    tolds: &[Signature],
    set: &[usize],
    test: Test,
) -> Result<Items<usize>, AllocError>
    ensures { IfOk result (λ left. left ≡ filter (spec.stays tolds.now test) set.now) }
{
    let mut left = Items::new(alloc);
    for format in set {
        if stays(tolds, test, *format) {
            left.push(*format)?;
        }
    }
    Ok(left)
}

/// Puts the sets that go on to a node's subtrees onto the stack, that of the first subtree at the top.
pub(crate) fn push_subsets(
    alloc: Global,
    sets: &mut Stack<Items<usize>>,
    tolds: &[Signature],
    set: &[usize],
    node: Node,
) -> Result<(), AllocError>
    ensures { IfOk result (λ u. sets.new ≡ spec.subsets_by tolds.now set.now node ++ sets.old) }
{
    match node {
        Node::Bit(offset) => {
            sets.push(kept(alloc, tolds, set, Test::Lacks(offset as u128, false))?)?;
            sets.push(kept(alloc, tolds, set, Test::Lacks(offset as u128, true))?)?;
        }
        Node::Parameter(parameter, constant) => {
            sets.push(kept(alloc, tolds, set, Test::MayDiffer(parameter, constant))?)?;
            sets.push(kept(alloc, tolds, set, Test::MayBe(parameter, constant))?)?;
        }
        Node::Reference(field, constant) => {
            sets.push(kept(alloc, tolds, set, Test::MayLack(field, constant))?)?;
            sets.push(kept(alloc, tolds, set, Test::MayHold(field, constant))?)?;
        }
        Node::Leaf(_) | Node::Nowhere => {}
    }
    Ok(())
}

// ---- offsets past the limit

/// The offsets past the limit at which a bit of a format is told.
pub(crate) fn far_offsets(alloc: Global, tolds: &[Signature]) -> Result<Items<u128>, AllocError>
    ensures { IfOk result (λ far. far ≡ flat_map (λ t. filter spec.is_far (keys t.bits)) tolds.now) }
{
    let mut far = Items::new(alloc);
    for told in tolds {
        note_far(&mut far, &told.bits)?;
    }
    Ok(far)
}

fn note_far(far: &mut Items<u128>, bits: &HashMap<u128, bool>) -> Result<(), AllocError>
    ensures { IfOk result (λ u. far.new ≡ far.old ++ filter spec.is_far (keys bits.now)) }
{
    for offset in bits.keys() {
        if *offset >= OFFSET_LIMIT as u128 {
            far.push(*offset)?;
        }
    }
    Ok(())
}
