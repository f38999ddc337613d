//! What is kept of decision trees.

ghost use Rattle.std.specs.Prelude.{◌≡◌, drop, length, slice_get, IfOk};
ghost use Rattle.std.specs.Option.{option_copied};
ghost use Rattle.sem_context.specs.Entries as contexts;
ghost use Rattle.cert_rules.specs.Counts as counts;
ghost use Rattle.cert_rules.specs.Trees.{references};
ghost use Rattle.cert_tables.specs.Kept.{AreTables};
ghost use Rattle.cert_tables.specs.Picked.{formats_of, picks};
ghost use Rattle.cert_tables.specs.Tables.{entries_of};

use crate::maker::{Making, entry_tables};
use crate::picks::{Picked, Tree, follow, leaf_of, looked_up};
use cert_types::{Certificate, MethodPlans};
use sem_bits::Cursor;
use sem_filling::Frame;
use sqlite_items::{Items, at};
use std::alloc::{AllocError, Global};

/// Where the entries of a table begin, and how many bits it looks at.
#[derive(Clone, Copy)]
pub struct TableStart {
    pub first: u32,
    pub width: u8,
}

/// What is kept of a tree: for each node how many nodes its subtree has, and its table, if it has one.
#[derive(Drop)]
pub struct TreeTables {
    pub sizes: Items<u16>,
    pub starts: Items<Option<TableStart>>,
}

/// The tables of all trees: the entries of each table, one table after the other, and where each begins.
#[derive(Drop)]
pub struct Tables {
    pub entries: Items<u16>,
    pub trees: Items<TreeTables>,
}

impl Tables {
    /// Makes the tables of a certificate's trees.
    pub fn of(alloc: Global, certificate: &Certificate) -> Result<Tables, AllocError>
        ensures { IfOk result (AreTables certificate.now.methods) }
    {
        certificate.keeps();
        let mut making = Making::new(alloc);
        let mut trees = Items::new(alloc);
        for entry in certificate.methods() {
            let tree = entry_tables(alloc, &mut making, entry)?;
            trees.push(tree)?;
        }
        Ok(Tables {
            entries: making.into_entries(),
            trees,
        })
    }

    /// Where the tree of the frame's method leads there, for the bits so many places after the cursor's. The error is out of memory, which is taken for the path
    /// of a reference alone.
    pub fn pick(
        &self,
        alloc: Global,
        certificate: &Certificate,
        frame: &Frame<'_>,
        cursor: &Cursor<'_>,
        from: usize,
    ) -> Result<Picked, AllocError>
        requires { AreTables certificate.now.methods self.now }
        ensures { IfOk result (λ picked. picked ≡ picks certificate.now.methods frame.now.method (references (contexts.bits_at frame.now.context.now) frame.now.path.now (formats_of (slice_get frame.now.profile.now.methods frame.now.method))) frame.now.arguments.now (drop from cursor.now.left)) }
    {
        let Some(entry) = entry_at(certificate.methods(), frame.method) else {
            return Ok(Picked::Nothing);
        };
        let Some(tables) = at(self.trees.as_slice(), frame.method) else {
            return Ok(Picked::Nothing);
        };
        let (entries, nodes) = (self.entries.as_slice(), entry.tree.as_slice());
        let begin = looked_up(entries, tables, nodes, 0, cursor, from);
        if let Some(format) = leaf_of(nodes, begin) {
            return Ok(Picked::Format(format));
        }
        let tree = Tree {
            entries,
            tables,
            nodes,
        };
        follow(alloc, &tree, begin, frame, cursor, from)
    }

    /// How many entries all tables have together.
    #[tactic(auto, using(crate::proofs::TablesCounted::few_entries))]
    pub fn count(&self, certificate: &Certificate) -> u32
        requires { AreTables certificate.now.methods self.now }
        ensures { result ≡ length (entries_of certificate.now.methods) }
    {
        self.entries.len() as u32
    }
}

/// What the certificate says of a method.
fn entry_at(certificate: &[Option<MethodPlans>], method: usize) -> Option<&MethodPlans>
    ensures { option_copied result ≡ counts.entry_at certificate.now method }
{
    certificate.get(method)?.as_ref()
}
