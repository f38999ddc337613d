//! What each method reaches, and an order in which a method comes after those that it calls.

ghost use Rattle.std.specs.Prelude.{◌≡◌, ◌≤◌, ◌<◌, ◌↔◌, ℕ, List, map, IsTrue, length, IfOk};
ghost use Rattle.sem_graph.specs.Calls.{Within, marked};
ghost use Rattle.sem_graph.specs.Order as spec;

use crate::reach::reached;
use crate::sort::by_rank;
use sqlite_items::Items;
use std::alloc::{AllocError, Global};

/// For each method, a mark for each method that it reaches.
pub fn table(alloc: Global, calls: &[Items<usize>]) -> Result<Items<Items<bool>>, AllocError>
    requires { Within calls.now }
    ensures { IfOk result (λ table. (length table ≡ length calls.now) × spec.Table calls.now table) }
{
    let mut table = Items::new(alloc);
    for from in 0..calls.len() {
        table.push(reached(alloc, calls, from)?)?;
    }
    Ok(table)
}

/// How many methods are marked.
pub(crate) fn rank(marks: &[bool]) -> usize
    ensures count { result ≡ marked marks.now }
    ensures within { result ≤ length marks.now }
{
    match marks {
        [first, rest @ ..] => {
            let more = rank(rest);
            if *first { more + 1 } else { more }
        }
        [] => 0,
    }
}

/// Where no method reaches itself, the count of what a method reaches falls along each call.
pub fn ranks_fall()
    ensures { spec.RanksFall }
{}

/// Where no call leads back to its caller, no method reaches itself.
pub fn calls_decide()
    ensures { spec.CallsDecide }
{}

fn is_reached(table: &[Items<bool>], from: usize, to: usize) -> bool
    ensures { result ≡ spec.is_marked table.now from to }
{
    match table.get(from) {
        Some(marks) => match marks.get(to) {
            Some(mark) => *mark,
            None => false,
        },
        None => false,
    }
}

/// Whether a call leads back to the method that makes it, by the marks of each method.
pub fn leads_back(table: &[Items<bool>], caller: usize, callee: usize) -> bool
    ensures test { result ≡ spec.leads_back table.now caller callee }
    ensures meaning { (graph : List (List ℕ)) → spec.Table graph table.now → callee < length graph → IsTrue result ↔ spec.LeadsBack graph caller callee }
{
    if callee == caller {
        return true;
    }
    is_reached(table, callee, caller)
}

fn ranks(alloc: Global, table: &[Items<bool>]) -> Result<Items<usize>, AllocError>
    ensures { IfOk result (λ ranks. ranks ≡ map marked table.now) }
{
    let mut ranks = Items::new(alloc);
    for marks in table {
        ranks.push(rank(marks.as_slice()))?;
    }
    Ok(ranks)
}

/// The methods, each after those that it calls, if none reaches itself.
pub fn order(alloc: Global, table: &[Items<bool>]) -> Result<Items<usize>, AllocError>
    ensures { IfOk result (spec.Orders table.now) }
{
    let ranks = ranks(alloc, table)?;
    by_rank(alloc, ranks.as_slice())
}
