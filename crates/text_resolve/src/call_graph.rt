//! What the methods of a resolved profile call.

ghost use Rattle.std.specs.Prelude.{◌≡◌, ◌++◌, IfOk, OnOk};
ghost use Rattle.sem_profile.specs.Uses as spec;

use sem_profile::{Encoding, Field, Format, Method};
use sqlite_items::Items;
use std::alloc::{AllocError, Global};

fn callee_of(encoding: &Encoding) -> Option<usize>
    ensures { result ≡ spec.callee_of encoding.now }
{
    match encoding {
        Encoding::Call { method, .. } => Some(*method),
        Encoding::Library(_) => None,
        Encoding::Bare => None,
    }
}

fn format_uses(alloc: Global, format: &Format) -> Result<Items<Option<usize>>, AllocError>
    ensures { IfOk result (λ uses. uses ≡ spec.format_uses format.now) }
{
    let mut uses = Items::from_vec(Vec::with_capacity(alloc, format.fields.len())?);
    for field in format.fields.as_slice() {
        uses.push(callee_of(field.encoding.get()))?;
    }
    Ok(uses)
}

fn method_uses(alloc: Global, method: &Method) -> Result<Items<Items<Option<usize>>>, AllocError>
    ensures { IfOk result (λ uses. uses ≡ spec.method_uses method.now) }
{
    let mut uses = Items::from_vec(Vec::with_capacity(alloc, method.formats.len())?);
    for format in method.formats.as_slice() {
        uses.push(format_uses(alloc, format)?)?;
    }
    Ok(uses)
}

/// For each method, for each format, for each field the method that encodes it.
pub(crate) fn uses_of(
    alloc: Global,
    methods: &[Method],
) -> Result<Items<Items<Items<Option<usize>>>>, AllocError>
    ensures { IfOk result (λ uses. uses ≡ spec.uses_of methods.now) }
{
    let mut uses = Items::new(alloc);
    for method in methods {
        uses.push(method_uses(alloc, method)?)?;
    }
    Ok(uses)
}

fn push_callees(fields: &[Field], callees: &mut Items<usize>) -> Result<(), AllocError>
    ensures { OnOk result (callees.new ≡ callees.old ++ spec.callees_of_fields fields.now) }
{
    for field in fields {
        if let Some(callee) = callee_of(field.encoding.get()) {
            callees.push(callee)?;
        }
    }
    Ok(())
}

fn used_methods(alloc: Global, method: &Method) -> Result<Items<usize>, AllocError>
    ensures { IfOk result (λ callees. callees ≡ spec.used_methods method.now) }
{
    let mut callees = Items::new(alloc);
    for format in method.formats.as_slice() {
        push_callees(format.fields.as_slice(), &mut callees)?;
    }
    Ok(callees)
}

/// For each method those that its formats call.
pub(crate) fn used_graph(
    alloc: Global,
    methods: &[Method],
) -> Result<Items<Items<usize>>, AllocError>
    ensures { IfOk result (λ graph. graph ≡ spec.used_graph methods.now) }
{
    let mut graph = Items::new(alloc);
    for method in methods {
        graph.push(used_methods(alloc, method)?)?;
    }
    Ok(graph)
}
