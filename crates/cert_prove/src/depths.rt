//! How deep a tree is.

ghost use Rattle.std.specs.Prelude.{◌≡◌, ◌↔◌, ◌≤◌, IfOk, OnOk, IsTrue};
ghost use Rattle.cert_types.specs.Kept.{owed_after};
ghost use Rattle.cert_prove.specs.Growing.{IsShallow};

use crate::stack::Stack;
use cert_types::{DEPTH_LIMIT, Node};
use std::alloc::{AllocError, Global};

/// Whether no node is deeper than a certificate's may be.
pub(crate) fn is_shallow(alloc: Global, nodes: &[Node]) -> Result<bool, AllocError>
    ensures { IfOk result (λ shallow. IsTrue shallow ↔ IsShallow nodes.now) }
{
    let mut owed = Stack::new(alloc);
    owed.push(1)?;
    for node in nodes {
        let Some(depth) = owed.pop() else {
            return Ok(true);
        };
        if depth > DEPTH_LIMIT {
            return Ok(false);
        }
        push_depths(&mut owed, *node, depth)?;
    }
    Ok(true)
}

/// Puts the depths of a node's subtrees onto the stack, where the node has this depth.
fn push_depths(owed: &mut Stack<usize>, node: Node, depth: usize) -> Result<(), AllocError>
    requires { depth ≤ 128 }
    ensures { OnOk result (owed.new ≡ owed_after node depth owed.old) }
{
    match node {
        Node::Bit(_) | Node::Parameter(_, _) | Node::Reference(_, _) => {
            owed.push(depth + 1)?;
            owed.push(depth + 1)
        }
        Node::Leaf(_) | Node::Nowhere => Ok(()),
    }
}
