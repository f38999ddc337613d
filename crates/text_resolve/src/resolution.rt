//! The passes of name resolution.

ghost use Rattle.std.specs.Prelude.{◌≡◌, ◌<◌, length, IfOk, IfErr};
ghost use Rattle.sem_graph.specs.Order.{IsOrder};
ghost use Rattle.sem_profile.specs.Precedence.{Blames};
ghost use Rattle.text_methods.specs.Worded.{AreWorded};
ghost use Rattle.text_resolve.specs.Resolved as spec;
ghost use Rattle.sem_profile.specs.Asked.{AreAsked, asked_of};
ghost use Rattle.sem_profile.specs.Named.{AreNamed};
ghost use Rattle.sem_profile.specs.Rooted.{IsPlain, HaveFormats};
ghost use Rattle.sem_profile.specs.Uses.{Uses};
ghost use Rattle.sem_profile.specs.Alike.{AreAlike};
ghost use Rattle.sem_profile.specs.WellFormed.{AreWellFormed};

use crate::call_graph::used_graph;
use crate::file_names::head_of;
use crate::methods::resolved_methods;
use crate::profile_limits::too_large;
use crate::reached::reached_methods;
use crate::recursion::{CallOrder, ordered};
use crate::top::{no_top, top};
use sem_bounds::sizes;
use sem_profile::{Method, Profile, ResolveError, are_words, asked_fields};
use sqlite_items::Items;
use std::alloc::Global;
use text_source::Span;
use text_tree::Part;

/// The normal form of a file with the top of this name, or its fault.
///
/// The passes: names that are defined twice; the values of constants; the methods, where the earliest fault is answered; the top; calls that lead back; sizes; the bounds of the methods that the top reaches.
/// The first pass with a fault answers. The names of the tree are names of the text, as those of a tree that `parse` reads are. The
/// calls are followed before the methods are read, whose tree is then let go one by one; a call that leads back is told after them.
pub fn resolve(
    alloc: Global,
    text: &[u8],
    parts: Items<Part>,
    name: &[u8],
) -> Result<Profile, ResolveError>
    requires { AreWorded text.now parts }
    ensures found { IfOk result (spec.IsNormalForm text.now parts name.now) }
    ensures refused { IfErr result (Blames (spec.Cause text.now parts name.now)) }
{
    let given = parts.as_slice();
    let head = head_of(alloc, text, given)?;
    let place = top(text, given, name);
    let calls = ordered(alloc, text, &head.names.methods, given);
    if is_refused_memory(&calls) {
        return Err(ResolveError::OutOfMemory);
    }
    let methods = resolved_methods(alloc, text, parts, &head, place)?;
    let Some(top) = place else {
        return Err(ResolveError::Fault(no_top()));
    };
    let calls = calls?;
    profile_of(
        alloc,
        head.places.as_slice(),
        methods,
        calls.order.as_slice(),
        top,
    )
}

/// Whether memory was refused to what follows the calls: that is told at once, and a call that leads back later.
fn is_refused_memory(calls: &Result<CallOrder, ResolveError>) -> bool {
    match calls {
        Err(ResolveError::OutOfMemory) => true,
        _ => false,
    }
}

/// The profile of methods in their normal forms, whose names stand at these places, by an order in which callees come first.
fn profile_of(
    alloc: Global,
    names: &[Span],
    methods: Items<Method>,
    order: &[usize],
    top: usize,
) -> Result<Profile, ResolveError>
    requires order { IsOrder (Uses methods) (length methods) order.now }
    requires top { top < length methods }
    requires named { length methods ≡ length names.now }
    requires well_formed { AreWellFormed methods }
    requires alike { AreAlike methods }
    requires names { AreNamed methods }
    requires plain { IsPlain methods top }
    requires formats { HaveFormats methods }
    requires asking { AreAsked methods top (asked_of methods top) }
    ensures found { IfOk result (spec.IsProfile methods top) }
    ensures refused { IfErr result (Blames (spec.ProfileCause names.now methods top)) }
{
    let graph = used_graph(alloc, methods.as_slice())?;
    let graph = graph.as_slice();
    if let Some(fault) = too_large(alloc, names, methods.as_slice(), graph, order, top)? {
        return Err(ResolveError::Fault(fault));
    }
    let methods = reached_methods(alloc, methods, graph, top)?;
    are_words(methods.as_slice());
    let asked = asked_fields(alloc, methods.as_slice(), top)?;
    match sizes(alloc, methods.as_slice(), order) {
        Ok(sizes) => Ok(Profile::of(methods, sizes, top, asked)),
        Err(error) => Err(error),
    }
}
