//! The judgement of a decision tree.

ghost use Rattle.std.specs.Prelude.{◌≡◌, ◌+◌, List, true, IfOk, IfSome, IfNone, MatchOption, slice_get, Some, IsTrue, ◌↔◌};
ghost use Rattle.sem_expr.specs.declared.interval.Interval.{Interval};
ghost use Rattle.sem_expr.specs.Rules.{IsIn};
ghost use Rattle.sem_profile.specs.declared.profile.Format.{Format};
ghost use Rattle.cert_types.specs.declared.certificate.Node.{Node};
ghost use Rattle.cert_types.specs.Kept.{are_trees};
ghost use Rattle.cert_rules.specs.Trees.{Reach, IsRight, IsShort, PartsFormats};
ghost use Rattle.cert_trees.specs.Faults.{Stands, IsTreeFault};
ghost use Rattle.cert_trees.specs.Judged.{reaching, JudgedTo};
ghost use Rattle.cert_trees.specs.Signature.{AreSignatures};

use crate::fault::TreeFault;
use crate::sets::{all, first_wrong, push_branches};
use crate::signatures::{Signature, all_signatures};
use cert_types::Node;
use sem_expr::Interval;
use sem_profile::{Format, MethodSizes};
use sqlite_items::{Items, at};
use std::alloc::{AllocError, Global};

/// What is wrong with a method's decision tree (docs/DEFINITIONS.md, Certificates): at the first node, in preorder, at which
/// something is. The nodes are one tree, and the bounds are those of the method. It fails only where memory is out.
pub fn tree_fault(
    alloc: Global,
    formats: &[Format],
    sizes: &MethodSizes,
    nodes: &[Node],
) -> Result<Option<TreeFault>, AllocError>
    requires { are_trees 1 nodes.now ≡ true }
    ensures right { IfOk result (λ o. IfNone o (PartsFormats formats.now sizes.now nodes.now)) }
    ensures found { IfOk result (λ o. IfSome o (IsTreeFault formats.now sizes.now nodes.now)) }
{
    let tolds = all_signatures(alloc, formats, sizes.formats.as_slice())?;
    let mut sets = Items::new(alloc);
    sets.push(all(alloc, tolds.len())?)?;
    for place in 0..nodes.len() {
        let found = judge(
            alloc,
            &mut sets,
            tolds.as_slice(),
            sizes,
            place,
            nodes[place],
        )?;
        if let Some(fault) = found {
            return Ok(Some(fault));
        }
    }
    Ok(None)
}

/// Judges the node at a place: takes its set from the stack, and puts those of its subtrees there.
fn judge(
    alloc: Global,
    sets: &mut Items<Items<bool>>,
    tolds: &[Signature],
    sizes: &MethodSizes,
    place: usize,
    node: Node,
) -> Result<Option<TreeFault>, AllocError>
    ensures { IfOk result (λ o. (formats : List Format) (nodes : List Node) → AreSignatures tolds.now formats sizes.now.formats → slice_get nodes place ≡ Some node → JudgedTo formats sizes.now nodes place sets.old →
        MatchOption o (JudgedTo formats sizes.now nodes (place + 1) sets.new) (IsTreeFault formats sizes.now nodes)) }
{
    let Some(set) = sets.pop() else {
        return Ok(None);
    };
    if let Some(fault) = node_fault(sizes, set.as_slice(), place, node) {
        return Ok(Some(fault));
    }
    push_branches(alloc, sets, tolds, set.as_slice(), node)?;
    Ok(None)
}

/// What is wrong with the node at a place, where the formats of the set reach it.
fn node_fault(sizes: &MethodSizes, set: &[bool], place: usize, node: Node) -> Option<TreeFault>
    ensures { (formats : List Format) (nodes : List Node) (reach : Reach) → set.now ≡ reaching reach formats sizes.now.formats → Stands formats sizes.now nodes place node reach →
        MatchOption result (IsRight formats sizes.now reach node) (IsTreeFault formats sizes.now nodes) }
{
    match node {
        Node::Parameter(parameter, constant) => {
            if is_in_range(sizes.parameters.as_slice(), parameter, constant) {
                None
            } else {
                Some(TreeFault::OutOfRange { node: place })
            }
        }
        Node::Reference(_, constant) => {
            if is_word(constant) {
                None
            } else {
                Some(TreeFault::BeyondWord { node: place })
            }
        }
        Node::Bit(_) => {
            let format = first_wrong(sizes.formats.as_slice(), set, node)?;
            Some(TreeFault::ShortFormat {
                node: place,
                format,
            })
        }
        Node::Leaf(_) => {
            let named = first_wrong(sizes.formats.as_slice(), set, node)?;
            Some(TreeFault::WrongLeaf {
                node: place,
                format: named,
            })
        }
        Node::Nowhere => {
            let any = first_wrong(sizes.formats.as_slice(), set, node)?;
            Some(TreeFault::WrongLeaf {
                node: place,
                format: any,
            })
        }
    }
}

/// Whether the constant is in the range of the parameter, if it has one.
pub fn is_in_range(parameters: &[Interval], parameter: usize, constant: i128) -> bool
    ensures { IsTrue result ↔ ((range : Interval) → slice_get parameters.now parameter ≡ Some range → IsIn range constant) }
{
    match at(parameters, parameter) {
        Some(range) => range.from <= constant && constant <= range.to,
        None => true,
    }
}

/// Whether the constant is a number of 64 bits.
pub fn is_word(constant: i128) -> bool
    ensures { IsTrue result ↔ IsShort constant }
{
    0 <= constant && constant < 1 << 64
}
