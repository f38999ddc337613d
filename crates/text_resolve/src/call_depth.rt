//! How deep calls go from the top.

ghost use Rattle.std.specs.Prelude.{◌≡◌, ◌<◌, ◌+◌, length, IfOk};
ghost use Rattle.sem_graph.specs.Calls.{Within};
ghost use Rattle.sem_profile.specs.Precedence.{Judged};
ghost use Rattle.sem_profile.specs.Limits as limits;
ghost use Rattle.text_resolve.specs.CallDepth as spec;

use crate::reached::is_marked_at;
use sem_graph::marks::{mark, no_marks};
use sem_profile::{DEPTH_LIMIT, ProfileFault, ProfileFaultKind};
use sqlite_items::Items;
use std::alloc::{AllocError, Global};
use text_source::Span;

/// The fault of the first method in the text to which some chain of one method more than the limit leads, where these are the
/// places of the methods' names. Where there is none, no chain of calls is longer than the limit.
pub(crate) fn deep_call(
    alloc: Global,
    names: &[Span],
    calls: &[Items<usize>],
    top: usize,
) -> Result<Option<ProfileFault>, AllocError>
    requires within { Within calls.now }
    requires top { top < length calls.now }
    requires methods { length calls.now ≡ length names.now }
    ensures { IfOk result (Judged (limits.IsShallow calls.now top) (spec.IsTooDeep calls.now top names.now)) }
{
    let ends = ends_of_chains(alloc, calls, top)?;
    Ok(first_deep(names, ends.as_slice()))
}

/// A mark for each method to which some chain of one method more than the limit leads from the top.
fn ends_of_chains(
    alloc: Global,
    calls: &[Items<usize>],
    top: usize,
) -> Result<Items<bool>, AllocError>
    requires within { Within calls.now }
    requires top { top < length calls.now }
    ensures { IfOk result (spec.AreEnds calls.now top (limits.depth_limit + 1)) }
{
    let mut ends = no_marks(alloc, calls.len())?;
    ends.set(top, true);
    for _call in 0..DEPTH_LIMIT {
        ends = called_by(alloc, calls, ends.as_slice())?;
    }
    Ok(ends)
}

/// A mark for each method that a marked one calls.
fn called_by(
    alloc: Global,
    calls: &[Items<usize>],
    callers: &[bool],
) -> Result<Items<bool>, AllocError>
    requires { Within calls.now }
    ensures { IfOk result (spec.AreCalled calls.now callers.now) }
{
    let mut called = no_marks(alloc, calls.len())?;
    for (caller, callees) in calls.iter().enumerate() {
        if is_marked_at(callers, caller) {
            mark(&mut called, callees.as_slice());
        }
    }
    Ok(called)
}

fn first_deep(names: &[Span], ends: &[bool]) -> Option<ProfileFault>
    ensures { result ≡ spec.first_deep ends.now 0 names.now }
{
    for (place, name) in names.iter().enumerate() {
        if is_marked_at(ends, place) {
            return Some(ProfileFault::about(ProfileFaultKind::TooLarge, *name));
        }
    }
    None
}
