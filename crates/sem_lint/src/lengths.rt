//! Sides that have no length.

ghost use Rattle.std.specs.Prelude.{◌↔◌, ◌<◌, IsTrue, MatchOption};
ghost use Rattle.sem_profile.specs.BoundsFaults.{side_bounds};
ghost use Rattle.sem_lint.specs.Obstacles as spec;

use sem_expr::Side;
use sem_profile::{Bounds, Sizes};

/// The first field, with a side of it, whose least length is above its greatest.
pub(crate) fn no_length(sizes: &[Sizes]) -> Option<(usize, Side)>
    ensures { MatchOption result ((i : _) (side : _) → spec.HasNoLength sizes.now i side → ⊥) (λ x. spec.HasNoLength sizes.now x.0 x.1) }
{
    for field in 0..sizes.len() {
        if let Some(side) = side_at(sizes, field) {
            return Some((field, side));
        }
    }
    None
}

/// The first side of a field that has no length.
fn side_at(sizes: &[Sizes], field: usize) -> Option<Side>
    ensures { MatchOption result ((side : _) → spec.HasNoLength sizes.now field side → ⊥) (spec.HasNoLength sizes.now field) }
{
    match sizes.get(field) {
        Some(bounds) => side_without_length(*bounds),
        None => None,
    }
}

fn side_without_length(sizes: Sizes) -> Option<Side>
    ensures { MatchOption result ((side : _) → (side_bounds side sizes).most < (side_bounds side sizes).least → ⊥) (λ side. (side_bounds side sizes).most < (side_bounds side sizes).least) }
{
    if contradicts(sizes.uncompressed) {
        return Some(Side::Uncompressed);
    }
    if contradicts(sizes.compressed) {
        return Some(Side::Compressed);
    }
    None
}

/// Whether the least length is above the greatest.
fn contradicts(bounds: Bounds) -> bool
    ensures { IsTrue result ↔ (bounds.most < bounds.least) }
{
    bounds.most < bounds.least
}
