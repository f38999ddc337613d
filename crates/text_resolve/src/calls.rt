//! The calls of a file: which method binds a field to which.

ghost use Rattle.std.specs.Prelude.{◌≡◌, ◌++◌, map, position, IfOk, OnOk};
ghost use Rattle.std.specs.Str.{bytes_eq};
ghost use Rattle.text_resolve.specs.Calls as spec;

use sem_profile::{Words, word};
use sqlite_items::Items;
use std::alloc::{AllocError, Global};
use text_source::Span;
use text_statements::is_library;
use text_tree::{Encoding, Item, Method, Part, Section};

/// A call: the method that is called, by its place among the methods of the file, and where the call names it.
#[derive(Clone, Copy, PartialEq, Eq)]
pub struct CallSite {
    pub method: usize,
    pub at: Span,
}

/// The place of the method of this name. None has that of a library method, which isn't looked for.
fn place_of(methods: &Words<'_>, name: &[u8]) -> Option<usize>
    requires { spec.AreOwn methods.now }
    ensures { result ≡ position (bytes_eq name.now) methods.now }
{
    if is_library(name) {
        return None;
    }
    methods.position(name)
}

fn call_by(text: &[u8], methods: &Words<'_>, encoding: &Encoding) -> Option<CallSite>
    requires { spec.AreOwn methods.now }
    ensures { result ≡ spec.call_by text.now methods.now encoding.now }
{
    match encoding {
        Encoding::Call(name, _) => match place_of(methods, word(text, *name)) {
            Some(method) => Some(CallSite { method, at: *name }),
            None => None,
        },
        Encoding::Bits(_, _, _) => None,
    }
}

fn call_of(text: &[u8], methods: &Words<'_>, item: &Item) -> Option<CallSite>
    requires { spec.AreOwn methods.now }
    ensures { result ≡ spec.call_of text.now methods.now item.now }
{
    match item {
        Item::Bound(bound) => call_by(text, methods, &bound.encoding),
        Item::Field(_, _) => None,
        Item::Enforce(_, _) => None,
    }
}

fn push_calls(
    text: &[u8],
    methods: &Words<'_>,
    section: &Section,
    found: &mut Items<CallSite>,
) -> Result<(), AllocError>
    requires { spec.AreOwn methods.now }
    ensures { OnOk result (found.new ≡ found.old ++ spec.calls_in text.now methods.now section.now) }
{
    if section.kind.is_initial() {
        return Ok(());
    }
    for item in section.items.as_slice() {
        if let Some(call) = call_of(text, methods, item) {
            found.push(call)?;
        }
    }
    Ok(())
}

/// The calls of a method in the order of the text, by all that its sections bind, INITIAL left out.
pub(crate) fn calls_from(
    alloc: Global,
    text: &[u8],
    methods: &Words<'_>,
    method: &Method,
) -> Result<Items<CallSite>, AllocError>
    requires { spec.AreOwn methods.now }
    ensures { IfOk result (λ calls. calls ≡ spec.calls_from text.now methods.now method.now) }
{
    let mut found = Items::new(alloc);
    for section in method.sections.as_slice() {
        push_calls(text, methods, section, &mut found)?;
    }
    Ok(found)
}

fn callees(alloc: Global, calls: &[CallSite]) -> Result<Items<usize>, AllocError>
    ensures { IfOk result (λ found. found ≡ map (λ c. c.method) calls.now) }
{
    let mut found = Items::new(alloc);
    for call in calls {
        found.push(call.method)?;
    }
    Ok(found)
}

/// For each method of the file those that it calls.
pub(crate) fn graph(
    alloc: Global,
    text: &[u8],
    methods: &Words<'_>,
    parts: &[Part],
) -> Result<Items<Items<usize>>, AllocError>
    requires { spec.AreOwn methods.now }
    ensures { IfOk result (λ graph. graph ≡ spec.graph_of text.now methods.now parts.now) }
{
    let mut graph = Items::new(alloc);
    for part in parts {
        if let Part::Method(method) = part {
            let calls = calls_from(alloc, text, methods, method)?;
            graph.push(callees(alloc, calls.as_slice())?)?;
        }
    }
    Ok(graph)
}
