//! Whether a call of a file leads back to the method that makes it, and an order in which callees come first.

ghost use Rattle.std.specs.Prelude.{◌≡◌, length, IfOk, IfErr};
ghost use Rattle.sem_graph.specs.Calls.{Calls};
ghost use Rattle.std.specs.List.{list_any};
ghost use Rattle.sem_graph.specs.Order.{IsOrder, leads_back as leads_to};
ghost use Rattle.sem_profile.specs.Precedence.{Blames};
ghost use Rattle.text_resolve.specs.Calls.{AreOwn, graph_of};
ghost use Rattle.text_resolve.specs.Parts.{method_names, methods_of};
ghost use Rattle.text_resolve.specs.Recursion as spec;

use crate::calls::{CallSite, calls_from, graph};
use sem_graph::{leads_back, order, table};
use sem_profile::{ProfileFault, ProfileFaultKind, ResolveError, Words};
use sqlite_items::Items;
use std::alloc::{AllocError, Global};
use text_source::Span;
use text_tree::Part;

/// The calls of a file, where none leads back to its caller, and the methods in an order in which callees come first.
#[derive(Drop)]
pub struct CallOrder {
    /// For each method the methods that it calls.
    pub calls: Items<Items<usize>>,
    pub order: Items<usize>,
}

/// The calls of a file in order, or the fault of the first call that leads back to its caller.
pub(crate) fn ordered(
    alloc: Global,
    text: &[u8],
    methods: &Words<'_>,
    parts: &[Part],
) -> Result<CallOrder, ResolveError>
    requires names { methods.now ≡ method_names text.now parts.now }
    requires own { AreOwn methods.now }
    ensures calls { IfOk result (λ o. o.calls ≡ graph_of text.now methods.now parts.now) }
    ensures order { IfOk result (λ o. IsOrder (Calls o.calls) (length o.calls) o.order) }
    ensures refused { IfErr result (Blames (spec.IsRecursive text.now parts.now)) }
{
    let calls = graph(alloc, text, methods, parts)?;
    let table = table(alloc, calls.as_slice())?;
    let rows = table.as_slice();
    if let Some(fault) = first_back(alloc, text, methods, parts, calls.as_slice(), rows)? {
        return Err(ResolveError::Fault(fault));
    }
    let order = order(alloc, table.as_slice())?;
    Ok(CallOrder { calls, order })
}

/// Whether a call leads back, where these are the methods that each method calls.
fn is_any_back(table: &[Items<bool>], graph: &[Items<usize>]) -> bool
    ensures { result ≡ spec.is_any_back table.now 0 graph.now }
{
    for (caller, callees) in graph.iter().enumerate() {
        if is_back_among(table, caller, callees.as_slice()) {
            return true;
        }
    }
    false
}

fn is_back_among(table: &[Items<bool>], caller: usize, callees: &[usize]) -> bool
    ensures { result ≡ list_any (leads_to table.now caller) callees.now }
{
    for callee in callees {
        if leads_back(table, caller, *callee) {
            return true;
        }
    }
    false
}

/// The fault of the first call that leads back, by what each method reaches. The graph tells which methods each calls.
fn first_back(
    alloc: Global,
    text: &[u8],
    methods: &Words<'_>,
    parts: &[Part],
    graph: &[Items<usize>],
    table: &[Items<bool>],
) -> Result<Option<ProfileFault>, AllocError>
    requires graph { graph.now ≡ graph_of text.now methods.now parts.now }
    requires own { AreOwn methods.now }
    ensures { IfOk result (λ o. o ≡ spec.first_back table.now text.now methods.now 0 (methods_of parts.now)) }
{
    if !is_any_back(table, graph) {
        return Ok(None);
    }
    let mut caller = 0;
    for part in parts {
        if let Part::Method(method) = part {
            let calls = calls_from(alloc, text, methods, method)?;
            if let Some(call) = back_in(table, caller, calls.as_slice()) {
                return Ok(Some(recursive(method.name, call)));
            }
            caller += 1;
        }
    }
    Ok(None)
}

fn back_in(table: &[Items<bool>], caller: usize, calls: &[CallSite]) -> Option<CallSite>
    ensures { result ≡ spec.back_in table.now caller calls.now }
{
    for call in calls {
        if leads_back(table, caller, call.method) {
            return Some(*call);
        }
    }
    None
}

fn recursive(caller: Span, call: CallSite) -> ProfileFault
    ensures { result ≡ spec.recursive caller call }
{
    ProfileFault {
        kind: ProfileFaultKind::Recursion,
        at: call.at,
        first: Some(caller),
        second: Some(call.at),
    }
}
