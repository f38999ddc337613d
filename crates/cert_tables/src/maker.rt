//! How the tables are made.

ghost use Rattle.std.specs.Prelude.{◌≡◌, ℕ, true, false, List, [], ◌∷◌, ◌+◌, ◌^◌, ◌<◌, ◌≤◌, ◌++◌, drop, length, map, nat_eq, IfOk, IfSome, OnOk};
ghost use Rattle.std.specs.List.{list_any, range_with_len};
ghost use Rattle.cert_types.specs.declared.certificate.Node.TheVariants.{Bit};
ghost use Rattle.cert_tables.specs.Tables as spec;
ghost use Rattle.cert_tables.specs.Kept.{AreSizesFrom, AreStarts, IsStart, Serves};
ghost use Rattle.cert_tables.specs.Growth.{AreMarked, IsNext, AreNext, Grows};

use crate::sizes::subtree_sizes;
use crate::table::{TableStart, TreeTables};
use crate::windows::{Window, entry_at, numbers_of, width_after};
use cert_types::{MethodPlans, Node};
use sqlite_items::Items;
use std::alloc::{AllocError, Global};

/// No more entries are made.
const ENTRY_LIMIT: usize = 65_536;

/// The entries that are made so far, and whether a table was left out, so that no more are made.
#[derive(Drop)]
pub(crate) struct Making {
    pub(crate) entries: Items<u16>,
    pub(crate) is_full: bool,
}

impl Making {
    pub(crate) fn new(alloc: Global) -> Making
        ensures entries { result.entries ≡ [] }
        ensures some { result.is_full ≡ false }
    {
        Making {
            entries: Items::new(alloc),
            is_full: false,
        }
    }

    pub(crate) fn into_entries(self) -> Items<u16>
        ensures { result ≡ self.entries }
    {
        let Making {
            entries,
            is_full: _,
        } = self;
        entries
    }
}

/// Makes the tables of a method's tree, none where the certificate says nothing of the method.
pub(crate) fn entry_tables(
    alloc: Global,
    making: &mut Making,
    entry: &Option<MethodPlans>,
) -> Result<TreeTables, AllocError>
    requires { length (spec.tree_of entry.now) < 2 ^ 16 }
    ensures serves { IfOk result (Serves making.new.entries (spec.tree_of entry.now)) }
    ensures next { OnOk result (AreNext making.old making.new (spec.tables_of (spec.tree_of entry.now))) }
    ensures grows { OnOk result (Grows making.old.entries making.new.entries) }
{
    match entry {
        Some(plans) => tree_tables(alloc, making, plans.tree.as_slice()),
        None => {
            let none = Items::new(alloc);
            tree_tables(alloc, making, none.as_slice())
        }
    }
}

/// Makes the tables of a tree.
pub(crate) fn tree_tables(
    alloc: Global,
    making: &mut Making,
    nodes: &[Node],
) -> Result<TreeTables, AllocError>
    requires { length nodes.now < 2 ^ 16 }
    ensures serves { IfOk result (Serves making.new.entries nodes.now) }
    ensures next { OnOk result (AreNext making.old making.new (spec.tables_of nodes.now)) }
    ensures grows { OnOk result (Grows making.old.entries making.new.entries) }
{
    let sizes = subtree_sizes(alloc, nodes)?;
    let mut marks = vec![in alloc; false; nodes.len()]?;
    let starts = lay_tables(alloc, making, nodes, sizes.as_slice(), marks.as_mut_slice())?;
    Ok(TreeTables { sizes, starts })
}

/// Makes the tables of a tree, where the sizes of its subtrees are known and no place is marked; where each begins.
fn lay_tables(
    alloc: Global,
    making: &mut Making,
    nodes: &[Node],
    sizes: &[u16],
    marks: &mut [bool],
) -> Result<Items<Option<TableStart>>, AllocError>
    requires sized { AreSizesFrom 0 nodes.now sizes.now }
    requires few { length nodes.now < 2 ^ 16 }
    requires markable { length marks.old ≡ length nodes.now }
    requires clear { AreMarked (length marks.old) [] marks.old }
    ensures started { IfOk result (AreStarts making.new.entries nodes.now) }
    ensures next { OnOk result (AreNext making.old making.new (spec.tables_of nodes.now)) }
    ensures grows { OnOk result (Grows making.old.entries making.new.entries) }
{
    mark(marks, 0);
    let mut starts = Items::new(alloc);
    for place in 0..nodes.len() {
        let start = table_at(making, nodes, sizes, marks, place)?;
        starts.push(start)?;
    }
    Ok(starts)
}

/// Makes the table of the node at the place, if it has one.
fn table_at(
    making: &mut Making,
    nodes: &[Node],
    sizes: &[u16],
    marks: &mut [bool],
    place: usize,
) -> Result<Option<TableStart>, AllocError>
    requires within { place < length nodes.now }
    requires sized { AreSizesFrom 0 nodes.now sizes.now }
    requires few { length nodes.now < 2 ^ 16 }
    requires markable { length marks.old ≡ length nodes.now }
    ensures start { IfOk result (λ o. IfSome o (IsStart making.new.entries nodes.now place)) }
    ensures next { OnOk result ((named : List ℕ) → AreMarked (length marks.old) named marks.old → IsNext making.old making.new marks.new named place (drop place nodes.now) (drop (place + 1) nodes.now)) }
    ensures grows { OnOk result (Grows making.old.entries making.new.entries) }
{
    match nodes[place] {
        Node::Bit(offset) => {
            if making.is_full {
                return Ok(None);
            }
            if is_marked(marks, place) {
                make_table(making, nodes, sizes, marks, place, offset)
            } else {
                Ok(None)
            }
        }
        Node::Parameter(..) => Ok(None),
        Node::Reference(..) => Ok(None),
        Node::Leaf(_) => Ok(None),
        Node::Nowhere => Ok(None),
    }
}

/// Makes the table of the test at the place, of the bit at that offset, or fills up.
fn make_table(
    making: &mut Making,
    nodes: &[Node],
    sizes: &[u16],
    marks: &mut [bool],
    place: usize,
    offset: usize,
) -> Result<Option<TableStart>, AllocError>
    requires test { drop place nodes.now ≡ Bit offset ∷ drop (place + 1) nodes.now }
    requires within { place < length nodes.now }
    requires sized { AreSizesFrom 0 nodes.now sizes.now }
    requires few { length nodes.now < 2 ^ 16 }
    requires some { making.old.is_full ≡ false }
    ensures start { IfOk result (λ o. IfSome o (IsStart making.new.entries nodes.now place)) }
    ensures next { OnOk result ((named : List ℕ) → AreMarked (length marks.old) named marks.old → list_any (nat_eq place) named ≡ true → IsNext making.old making.new marks.new named place (drop place nodes.now) (drop (place + 1) nodes.now)) }
    ensures grows { OnOk result (Grows making.old.entries making.new.entries) }
{
    let width = width_after(nodes, sizes, place, offset);
    let first = making.entries.len();
    if numbers_of(width) > ENTRY_LIMIT.saturating_sub(first) {
        making.is_full = true;
        return Ok(None);
    }
    let window = Window {
        place,
        offset,
        width,
    };
    add_entries(&mut making.entries, nodes, sizes, marks, window)?;
    Ok(Some(TableStart {
        first: first as u32,
        width: width as u8,
    }))
}

/// Adds the entries of the table at the place, and marks the nodes that they name.
fn add_entries(
    entries: &mut Items<u16>,
    nodes: &[Node],
    sizes: &[u16],
    marks: &mut [bool],
    window: Window,
) -> Result<(), AllocError>
    requires within { window.place < length nodes.now }
    requires sized { AreSizesFrom 0 nodes.now sizes.now }
    requires few { length nodes.now < 2 ^ 16 }
    requires narrow { window.width ≤ 8 }
    ensures added { OnOk result (entries.new ≡ entries.old ++ map (spec.entry window.width window.offset window.place (drop window.place nodes.now)) (range_with_len 0 (2 ^ window.width))) }
    ensures marked { OnOk result ((named : List ℕ) → AreMarked (length marks.old) named marks.old → AreMarked (length marks.old) (named ++ map (spec.entry window.width window.offset window.place (drop window.place nodes.now)) (range_with_len 0 (2 ^ window.width))) marks.new) }
{
    for number in 0..numbers_of(window.width) {
        let next = entry_at(nodes, sizes, window, number);
        entries.push(next as u16)?;
        mark(marks, next);
    }
    Ok(())
}

/// Marks a place, if it is one.
fn mark(marks: &mut [bool], place: usize)
    ensures { (named : List ℕ) → AreMarked (length marks.old) named marks.old → AreMarked (length marks.old) (named ++ place ∷ []) marks.new }
{
    if place < marks.len() {
        marks[place] = true;
    }
}

/// Whether the place is marked.
fn is_marked(marks: &[bool], place: usize) -> bool
    ensures { (named : List ℕ) → AreMarked (length marks.now) named marks.now → place < length marks.now → result ≡ list_any (nat_eq place) named }
{
    if place < marks.len() {
        marks[place]
    } else {
        false
    }
}
