//! Sets of methods, as a mark for each method.

ghost use Rattle.std.specs.Prelude.{◌≡◌, ℕ, ◌<◌, ◌⊎◌, length, replicate, IfOk, slice_index_or, true, false, MatchOption};
ghost use Rattle.sem_graph.specs.Calls.{Has, Marked};

use sqlite_items::Items;
use std::alloc::{AllocError, Global};

/// So many marks, none of which is set.
pub fn no_marks(alloc: Global, count: usize) -> Result<Items<bool>, AllocError>
    ensures { IfOk result (λ marks. marks ≡ replicate count false) }
{
    Ok(Items::from_vec(vec![in alloc; false; count]?))
}

/// Marks what the list names.
pub fn mark(marks: &mut Items<bool>, names: &[usize])
    requires { (k : ℕ) → Has names.now k → k < length marks.old }
    ensures each { length marks.new ≡ length marks.old }
    ensures kept { (k : ℕ) → Marked marks.old k → Marked marks.new k }
    ensures all { (k : ℕ) → Has names.now k → Marked marks.new k }
    ensures only { (k : ℕ) → Marked marks.new k → Marked marks.old k ⊎ Has names.now k }
{
    for name in names {
        marks.set(*name, true);
    }
}

/// One that is found and not done.
pub(crate) fn open(found: &[bool], done: &[bool]) -> Option<usize>
    requires { length found.now ≡ length done.now }
    ensures { MatchOption result ((k : ℕ) → Marked found.now k → Marked done.now k) (λ k. Marked found.now k × (slice_index_or done.now k true ≡ false) × (k < length done.now)) }
{
    for (at, mark) in found.iter().enumerate() {
        if *mark && !done[at] {
            return Some(at);
        }
    }
    None
}
