//! The methods that one reaches.

ghost use Rattle.std.specs.Prelude.{◌≡◌, ℕ, ◌<◌, length, IfOk};
ghost use Rattle.sem_graph.specs.Calls.{Within, Reached};

use crate::marks::{mark, no_marks, open};
use sqlite_items::Items;
use std::alloc::{AllocError, Global};

/// A mark for each method that this one reaches.
pub fn reached(
    alloc: Global,
    calls: &[Items<usize>],
    from: usize,
) -> Result<Items<bool>, AllocError>
    requires from_is { from < length calls.now }
    requires within { Within calls.now }
    ensures { IfOk result (λ marks. Reached calls.now from marks) }
{
    let mut found = no_marks(alloc, calls.len())?;
    let mut done = no_marks(alloc, calls.len())?;
    mark(&mut found, calls[from].as_slice());
    while let Some(next) = open(found.as_slice(), done.as_slice()) {
        done.set(next, true);
        mark(&mut found, calls[next].as_slice());
    }
    Ok(found)
}
