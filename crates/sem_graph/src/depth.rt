//! Numbers of methods, by their places.

ghost use Rattle.std.specs.Prelude.{◌≡◌, replicate, IfOk};
ghost use Rattle.sem_graph.specs.Measures as spec;

use sqlite_items::Items;
use std::alloc::{AllocError, Global};

pub fn zeros(alloc: Global, count: usize) -> Result<Items<usize>, AllocError>
    ensures { IfOk result (λ zeros. zeros ≡ replicate count 0) }
{
    Ok(Items::from_vec(vec![in alloc; 0; count]?))
}

/// The number at the place, or 0.
pub fn number_at(values: &[usize], place: usize) -> usize
    ensures { result ≡ spec.number_at values.now place }
{
    match values.get(place) {
        Some(value) => *value,
        None => 0,
    }
}
