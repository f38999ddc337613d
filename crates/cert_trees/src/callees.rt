//! An order of methods in which each comes after those that it calls.

ghost use Rattle.std.specs.Prelude.{◌≡◌, ◌++◌, map, IfOk};
ghost use Rattle.std.specs.List.{filter_map};
ghost use Rattle.sem_profile.specs.Methods.{IsOrder};
ghost use Rattle.cert_rules.specs.Counts.{callee};
ghost use Rattle.cert_trees.specs.Calling as spec;

use sem_graph::{order, table};
use sem_profile::{Encoding, Field, Format, Method};
use sqlite_items::Items;
use std::alloc::{AllocError, Global};

/// The methods by their places, each after those that it calls, where there is such an order and each call is of one of
/// them. It fails only where memory is out.
pub fn callees_first(alloc: Global, methods: &[Method]) -> Result<Items<usize>, AllocError>
    requires ordered { spec.HasOrder methods.now }
    requires within { spec.CallsWithin methods.now }
    ensures { IfOk result (IsOrder methods.now) }
{
    let calls = call_rows(alloc, methods)?;
    let table = table(alloc, calls.as_slice())?;
    order(alloc, table.as_slice())
}

/// For each method those that it calls.
fn call_rows(alloc: Global, methods: &[Method]) -> Result<Items<Items<usize>>, AllocError>
    ensures { IfOk result (λ rows. rows ≡ map spec.called methods.now) }
{
    let mut rows = Items::new(alloc);
    for method in methods {
        rows.push(called(alloc, method.formats.as_slice())?)?;
    }
    Ok(rows)
}

fn called(alloc: Global, formats: &[Format]) -> Result<Items<usize>, AllocError>
    ensures { IfOk result (λ row. row ≡ spec.called_in formats.now) }
{
    let mut row = Items::new(alloc);
    for format in formats {
        note_calls(&mut row, format.fields.as_slice())?;
    }
    Ok(row)
}

fn note_calls(row: &mut Items<usize>, fields: &[Field]) -> Result<(), AllocError>
    ensures { IfOk result (λ u. row.new ≡ row.old ++ filter_map (λ d. callee d.encoding) fields.now) }
{
    for field in fields {
        if let Encoding::Call { method, .. } = field.encoding.get() {
            row.push(*method)?;
        }
    }
    Ok(())
}
