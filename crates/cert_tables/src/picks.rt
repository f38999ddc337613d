//! Where a decision tree leads.

ghost use Rattle.std.specs.Prelude.{◌≡◌, ℕ, ◌+◌, ◌^◌, ◌<◌, ◌≤◌, ◌∷◌, true, false, ℤ, List, drop, slice_get, slice_range, Option, Some, IfOk, IfSome, length};
ghost use Rattle.sem_bits.specs.Number.{enc, num};
ghost use Rattle.sem_context.specs.Entries as contexts;
ghost use Rattle.cert_types.specs.declared.certificate.Node.TheVariants.{Bit, Leaf};
ghost use Rattle.cert_rules.specs.Trees.{is_number, references, way};
ghost use Rattle.cert_tables.specs.Kept.{past, AreSizesFrom, AreStarts, Serves};
ghost use Rattle.cert_tables.specs.Picked as spec;
ghost use Rattle.cert_tables.specs.Walking.{Shows, IsOn, IsSame, Steps};

use crate::references::refers;
use crate::sizes::second;
use crate::table::{TableStart, TreeTables};
use cert_types::Node;
use sem_bits::Cursor;
use sem_filling::Frame;
use std::alloc::{AllocError, Global};

/// Where a tree leads.
#[derive(Clone, Copy)]
pub enum Picked {
    /// To a format, by its index.
    Format(usize),
    /// To none.
    Nothing,
    /// To a test of a bit past the last.
    Short,
}

/// Where a step leads.
#[derive(Clone, Copy)]
pub(crate) enum Next {
    /// To the node at a place.
    Node(usize),
    /// To the first subtree if the field has a reference whose number is the constant, else to the second.
    Reference(usize, i128),
    /// To the end.
    End(Picked),
}

/// A decision tree, its nodes in preorder, with its tables and the entries of all tables.
#[derive(Clone, Copy)]
pub(crate) struct Tree<'a> {
    pub(crate) entries: &'a [u16],
    pub(crate) tables: &'a TreeTables,
    pub(crate) nodes: &'a [Node],
}

/// Where the tree of the frame's method leads there, for the bits so many places after the cursor's. It begins at a node to which the bits lead from the first.
/// The error is out of memory.
#[inline(never)]
pub(crate) fn follow(
    alloc: Global,
    tree: &Tree<'_>,
    begin: usize,
    frame: &Frame<'_>,
    cursor: &Cursor<'_>,
    from: usize,
) -> Result<Picked, AllocError>
    requires serves { Serves tree.now.entries.now tree.now.nodes.now tree.now.tables.now }
    requires begins { IsSame (drop from cursor.now.left) tree.now.nodes.now 0 begin }
    ensures { IfOk result (λ picked. picked ≡ spec.picked_of (way (references (contexts.bits_at frame.now.context.now) frame.now.path.now (spec.formats_of (slice_get frame.now.profile.now.methods frame.now.method))) (drop from cursor.now.left) frame.now.arguments.now 0 tree.now.nodes.now)) }
{
    let (entries, tables, nodes) = (tree.entries, tree.tables, tree.nodes);
    let sizes = tables.sizes.as_slice();
    let mut place = begin;
    while place < nodes.len() {
        let next = match step(tables, nodes, place, frame.arguments, cursor, from) {
            Next::Node(next) => next,
            Next::Reference(field, constant) => {
                let is_other = !refers(alloc, frame, field, constant)?;
                subtree(nodes, sizes, place, is_other)
            }
            Next::End(picked) => return Ok(picked),
        };
        place = looked_up(entries, tables, nodes, next, cursor, from);
    }
    Ok(Picked::Nothing)
}

/// One step from the node at the place by the node alone, whatever the references.
fn step(
    tables: &TreeTables,
    nodes: &[Node],
    place: usize,
    arguments: &[i128],
    cursor: &Cursor<'_>,
    from: usize,
) -> Next
    requires sized { AreSizesFrom 0 nodes.now tables.now.sizes }
    requires within { place < length nodes.now }
    ensures { (refs : ℕ → Option ℤ) → Steps result refs (drop from cursor.now.left) arguments.now nodes.now place }
{
    let sizes = tables.sizes.as_slice();
    match nodes[place] {
        Node::Leaf(format) => Next::End(Picked::Format(format)),
        Node::Nowhere => Next::End(Picked::Nothing),
        Node::Parameter(parameter, constant) => {
            let is_other = !is_at(arguments, parameter, constant);
            Next::Node(subtree(nodes, sizes, place, is_other))
        }
        Node::Reference(field, constant) => Next::Reference(field, constant),
        Node::Bit(offset) => match bit_at(cursor, from, offset) {
            Some(bit) => Next::Node(subtree(nodes, sizes, place, bit)),
            None => Next::End(Picked::Short),
        },
    }
}

/// The node to which the tables lead from the place, one after the other: the place itself, where none begins there or where not all its bits are there.
pub(crate) fn looked_up(
    entries: &[u16],
    tables: &TreeTables,
    nodes: &[Node],
    place: usize,
    cursor: &Cursor<'_>,
    from: usize,
) -> usize
    requires started { AreStarts entries.now nodes.now tables.now.starts }
    ensures same { IsSame (drop from cursor.now.left) nodes.now place result }
    ensures further { place ≤ result }
{
    let starts = tables.starts.as_slice();
    let mut here = place;
    while let Some(next) = entry_after(entries, starts, nodes, here, cursor, from) {
        here = next;
    }
    here
}

/// The node to which the table of the node at the place leads, where it has one and all its bits are there.
#[inline(always)]
fn entry_after(
    entries: &[u16],
    starts: &[Option<TableStart>],
    nodes: &[Node],
    place: usize,
    cursor: &Cursor<'_>,
    from: usize,
) -> Option<usize>
    requires started { AreStarts entries.now nodes.now starts.now }
    ensures on { IfSome result (λ next. (refs : ℕ → Option ℤ) (args : List ℤ) → IsOn refs (drop from cursor.now.left) args nodes.now place next) }
    ensures within { IfSome result (λ next. place < length nodes.now) }
{
    let offset = tested(nodes, place)?;
    let start = start_at(starts, place)?;
    let number = window(cursor, from, offset, start.width)?;
    entry_of(entries, start.first as usize + number)
}

/// The offset of the bit that the node at the place tests, if it tests one.
fn tested(nodes: &[Node], place: usize) -> Option<usize>
    ensures { IfSome result (λ offset. slice_get nodes.now place ≡ Some (Bit offset)) }
{
    match nodes.get(place)? {
        Node::Bit(offset) => Some(*offset),
        _ => None,
    }
}

/// The format of the leaf at the place, if a leaf stands there.
pub(crate) fn leaf_of(nodes: &[Node], place: usize) -> Option<usize>
    ensures { IfSome result (λ format. slice_get nodes.now place ≡ Some (Leaf format)) }
{
    match nodes.get(place)? {
        Node::Leaf(format) => Some(*format),
        _ => None,
    }
}

/// The entry at a place.
fn entry_of(entries: &[u16], place: usize) -> Option<usize>
    ensures { IfSome result (λ next. slice_get entries.now place ≡ Some next) }
{
    Some(usize::from(*entries.get(place)?))
}

/// Where the table at the place starts, if there is one.
fn start_at(starts: &[Option<TableStart>], place: usize) -> Option<TableStart>
    ensures { IfSome result (λ s. slice_get starts.now place ≡ Some (Some s)) }
{
    *starts.get(place)?
}

/// The number of so many bits, the first of them at an offset from a place after the cursor's, where all of them are there.
fn window(cursor: &Cursor<'_>, from: usize, offset: usize, width: u8) -> Option<usize>
    ensures few { IfSome result (λ v. v < 2 ^ width) }
    ensures shows { IfSome result (λ v. Shows (drop from cursor.now.left) (enc width v) offset) }
{
    let count = usize::from(width);
    let number = number_of(cursor, from, offset, count)?;
    Some(number as usize)
}

fn number_of(cursor: &Cursor<'_>, from: usize, offset: usize, count: usize) -> Option<u64>
    ensures { IfSome result (λ v. (from + offset + count ≤ length cursor.now.left) × (v ≡ num (slice_range cursor.now.left (from + offset) (from + offset + count)))) }
{
    let ahead = from.checked_add(offset)?;
    cursor.peek_narrow(ahead, count)
}

/// The place of the first or the second subtree of the test at a place.
fn subtree(nodes: &[Node], sizes: &[u16], place: usize, is_second: bool) -> usize
    requires within { place < length nodes.now }
    requires sized { AreSizesFrom 0 nodes.now sizes.now }
    ensures first { is_second ≡ false → result ≡ place + 1 }
    ensures second { is_second ≡ true → result ≡ (place + 1) + past 1 (drop (place + 1) nodes.now) }
{
    if is_second {
        second(nodes, place + 1, sizes)
    } else {
        place + 1
    }
}

/// The bit at an offset from a place after the cursor's, or `None` past the end.
fn bit_at(cursor: &Cursor<'_>, from: usize, offset: usize) -> Option<bool>
    ensures { result ≡ slice_get (drop from cursor.now.left) offset }
{
    if offset < cursor.rest().saturating_sub(from) {
        cursor.at(from + offset)
    } else {
        None
    }
}

/// Whether the parameter has that value.
fn is_at(arguments: &[i128], parameter: usize, constant: i128) -> bool
    ensures { result ≡ is_number constant (slice_get arguments.now parameter) }
{
    match arguments.get(parameter) {
        Some(argument) => constant == *argument,
        None => false,
    }
}
