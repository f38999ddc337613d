//! The growth of a method's tree.

ghost use Rattle.std.specs.Prelude.{◌≡◌, IfOk, IfErr};
ghost use Rattle.cert_types.specs.Kept.{IsTreeKept};
ghost use Rattle.cert_prove.specs.Growing.{OrderedTree, IsUnparted};
ghost use Rattle.cert_prove.specs.Known.{IsGrown};

use crate::depths::is_shallow;
use crate::rule::{Known, node_of};
use crate::sets::{all_numbers, far_offsets, push_subsets};
use crate::stack::Stack;
use cert_trees::all_signatures;
use cert_types::{NODE_LIMIT, Node, Version};
use sem_profile::{Format, MethodSizes};
use sqlite_items::Items;
use std::alloc::{AllocError, Global};

/// Why a method has no tree.
#[derive(Clone, Copy)]
pub enum Unparted {
    /// P2: two or more formats of the method that no test parts, these two the first of them in file order.
    Stuck { first: usize, second: usize },
    /// P3: the tree has more nodes than a certificate may have, a test past the limit of offsets, or a node that is too deep.
    Limit,
    OutOfMemory,
}

impl From<AllocError> for Unparted {
    ghost use Rattle.std.specs.Prelude.{◌≡◌};
    ghost use Rattle.cert_prove.specs.declared.tree.Unparted.TheVariants as unparted;

    ghost from_gives = { λ _ e. e ≡ unparted.OutOfMemory };

    fn from(_error: AllocError) -> Unparted {
        Unparted::OutOfMemory
    }
}

/// The nodes of the tree that the prover's order has for a method in certificates of that version (docs/DEFINITIONS.md, Trees of the prover's order), in preorder and within the limits of
/// certificates. The bounds are those of the method, lengths and offsets are in bits. Of several reasons for a refusal the one at the earliest node comes,
/// before a tree that is too deep.
pub fn part_formats(
    alloc: Global,
    version: Version,
    formats: &[Format],
    sizes: &MethodSizes,
) -> Result<Items<Node>, Unparted>
    ensures ordered { IfOk result (OrderedTree version formats.now sizes.now) }
    ensures kept { IfOk result IsTreeKept }
    ensures unparted { IfErr result (IsUnparted version formats.now sizes.now) }
{
    let nodes = grown(alloc, version, formats, sizes)?;
    if is_shallow(alloc, nodes.as_slice())? {
        Ok(nodes)
    } else {
        Err(Unparted::Limit)
    }
}

/// The nodes of the whole tree, however deep. The sets that are still to be parted wait on a stack.
fn grown(
    alloc: Global,
    version: Version,
    formats: &[Format],
    sizes: &MethodSizes,
) -> Result<Items<Node>, Unparted>
    ensures grown { IfOk result (IsGrown version formats.now sizes.now) }
    ensures unparted { IfErr result (IsUnparted version formats.now sizes.now) }
{
    let tolds = all_signatures(alloc, formats, sizes.formats.as_slice())?;
    let far = far_offsets(alloc, tolds.as_slice())?;
    let known = Known {
        sizes,
        tolds: tolds.as_slice(),
        far: far.as_slice(),
    };
    let mut sets = Stack::new(alloc);
    sets.push(all_numbers(alloc, tolds.len())?)?;
    let mut nodes = Items::new(alloc);
    for _place in 0..NODE_LIMIT {
        let Some(set) = sets.pop() else {
            return Ok(nodes);
        };
        let node = node_of(version, &known, set.as_slice())?;
        push_subsets(alloc, &mut sets, tolds.as_slice(), set.as_slice(), node)?;
        nodes.push(node)?;
    }
    if sets.is_empty() {
        Ok(nodes)
    } else {
        Err(Unparted::Limit)
    }
}
