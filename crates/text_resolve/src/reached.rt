//! The methods that the top reaches.

ghost use Rattle.std.specs.Prelude.{◌≡◌, ◌<◌, ℕ, length, IfOk};
ghost use Rattle.text_resolve.specs.Reached as marking;
ghost use Rattle.sem_profile.specs.Uses as spec;

use sem_graph::reached;
use sem_profile::{Method, reversed};
use sqlite_items::Items;
use std::alloc::{AllocError, Global};

/// The methods with formats for those alone that the top reaches, by what they call. The formats of the others are let go.
pub(crate) fn reached_methods(
    alloc: Global,
    methods: Items<Method>,
    graph: &[Items<usize>],
    top: usize,
) -> Result<Items<Method>, AllocError>
    requires top { top < length methods }
    requires within { (i j : ℕ) → spec.Uses methods i j → j < length methods }
    requires graph { graph.now ≡ spec.used_graph methods }
    ensures { IfOk result (spec.AreReached methods top) }
{
    let mut is_reached = reached(alloc, graph, top)?;
    is_reached.set(top, true);
    marked_methods(alloc, methods, is_reached.as_slice())
}

/// The methods with formats for the marked ones alone.
fn marked_methods(
    alloc: Global,
    methods: Items<Method>,
    is_marked: &[bool],
) -> Result<Items<Method>, AllocError>
    ensures { IfOk result (λ kept. kept ≡ marking.marked_from is_marked.now 0 methods) }
{
    let mut rest = reversed(alloc, methods)?;
    let mut kept = Items::new(alloc);
    while let Some(method) = rest.pop() {
        let place = kept.len();
        let kept_method = if is_marked_at(is_marked, place) {
            method
        } else {
            without_formats(alloc, method)
        };
        kept.push(kept_method)?;
    }
    Ok(kept)
}

/// Whether the method at the place is marked.
pub(crate) fn is_marked_at(marks: &[bool], place: usize) -> bool
    ensures { result ≡ marking.is_marked_at marks.now place }
{
    match marks.get(place) {
        Some(mark) => *mark,
        None => false,
    }
}

fn without_formats(alloc: Global, method: Method) -> Method
    ensures { result ≡ spec.without_formats method }
{
    let Method {
        name,
        place,
        parameters,
        ..
    } = method;
    Method {
        name,
        place,
        parameters,
        formats: Items::new(alloc),
    }
}
