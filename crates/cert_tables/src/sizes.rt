//! How many nodes the subtrees of a decision tree have.

ghost use Rattle.std.specs.Prelude.{◌≡◌, ◌+◌, ◌^◌, ◌<◌, ◌≤◌, drop, length, slice_get, slice_index_or, Some, IfOk};
ghost use Rattle.cert_tables.specs.Kept.{past, AreSizesFrom};

use cert_types::Node;
use sqlite_items::Items;
use std::alloc::{AllocError, Global};

/// For each node how many nodes its subtree has.
pub(crate) fn subtree_sizes(alloc: Global, nodes: &[Node]) -> Result<Items<u16>, AllocError>
    requires { length nodes.now < 2 ^ 16 }
    ensures { IfOk result (AreSizesFrom 0 nodes.now) }
{
    let mut sizes = vec![in alloc; 0u16; nodes.len()]?;
    for place in (0..nodes.len()).rev() {
        sizes[place] = size_of(nodes, place, sizes.as_slice()) as u16;
    }
    Ok(Items::from_vec(sizes))
}

/// How many nodes the subtree at the place has, from the sizes of those after it.
fn size_of(nodes: &[Node], place: usize, sizes: &[u16]) -> usize
    requires within { place < length nodes.now }
    requires sized { AreSizesFrom (place + 1) nodes.now sizes.now }
    ensures value { result ≡ past 1 (drop place nodes.now) }
    ensures within { place + result ≤ length nodes.now }
{
    match nodes[place] {
        Node::Leaf(_) | Node::Nowhere => 1,
        Node::Bit(_) | Node::Parameter(..) | Node::Reference(..) => {
            1 + two_sizes(nodes, place + 1, sizes)
        }
    }
}

/// How many nodes the two trees have of which the first begins at the place.
fn two_sizes(nodes: &[Node], place: usize, sizes: &[u16]) -> usize
    requires within { place ≤ length nodes.now }
    requires sized { AreSizesFrom place nodes.now sizes.now }
    ensures value { result ≡ past 2 (drop place nodes.now) }
    ensures within { place + result ≤ length nodes.now }
{
    let first = size_at(sizes, place);
    first + size_at(sizes, place + first)
}

/// The size at a place, 0 past the end.
pub(crate) fn size_at(sizes: &[u16], place: usize) -> usize
    ensures { result ≡ slice_index_or sizes.now place 0 }
{
    match sizes.get(place) {
        Some(size) => usize::from(*size),
        None => 0,
    }
}

/// The place of the second subtree of a test, by the place of the first.
pub(crate) fn second(nodes: &[Node], first: usize, sizes: &[u16]) -> usize
    requires within { first ≤ length nodes.now }
    requires sized { AreSizesFrom 0 nodes.now sizes.now }
    ensures value { result ≡ first + past 1 (drop first nodes.now) }
    ensures within { result ≤ length nodes.now }
{
    first + size_at(sizes, first)
}
