//! How many fields a message has, with those of the methods that encode its fields.

ghost use Rattle.std.specs.Prelude.{◌≡◌, ◌≤◌, ℕ, length, IfOk};
ghost use Rattle.sem_graph.specs.Order.{IsOrder};
ghost use Rattle.sem_graph.specs.Measures as spec;

use crate::depth::{number_at, zeros};
use sqlite_items::Items;
use std::alloc::{AllocError, Global};

/// Greater weights are counted as this.
pub const WEIGHT_CAP: usize = 4097;

fn field_weight(weights: &[usize], callee: Option<usize>) -> usize
    requires { (j : ℕ) → spec.number_at weights.now j ≤ spec.weight_cap }
    ensures { result ≡ spec.field_weight weights.now callee }
{
    match callee {
        Some(callee) => number_at(weights, callee) + 1,
        None => 1,
    }
}

fn format_weight(weights: &[usize], fields: &[Option<usize>]) -> usize
    requires { (j : ℕ) → spec.number_at weights.now j ≤ spec.weight_cap }
    ensures { result ≡ spec.format_weight weights.now fields.now }
{
    let mut total = 0;
    for callee in fields {
        total = WEIGHT_CAP.min(total + field_weight(weights, *callee));
    }
    total
}

fn greatest_weight(weights: &[usize], formats: &[Items<Option<usize>>]) -> usize
    requires { (j : ℕ) → spec.number_at weights.now j ≤ spec.weight_cap }
    ensures { result ≡ spec.greatest_by (spec.format_weight weights.now) formats.now }
{
    let mut most = 0;
    for fields in formats {
        most = most.max(format_weight(weights, fields.as_slice()));
    }
    most
}

/// For each method the greatest number of fields in one of its formats, where a field that another method encodes counts one more than that method's fields.
pub fn weights(
    alloc: Global,
    methods: &[Items<Items<Option<usize>>>],
    order: &[usize],
) -> Result<Items<usize>, AllocError>
    requires { IsOrder (spec.FieldCalls methods.now) (length methods.now) order.now }
    ensures { IfOk result (spec.AreWeights methods.now) }
{
    let mut weights = zeros(alloc, methods.len())?;
    for method in order {
        let most = greatest_weight(weights.as_slice(), methods[*method].as_slice());
        weights.set(*method, most);
    }
    Ok(weights)
}
