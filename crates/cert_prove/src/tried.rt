//! Equations whose test was tried on a set of formats and doesn't part it, so that the same one isn't tried again.
//!
//! Of one parameter all equations whose test doesn't part a set name the same constant, as any other would be excluded by it. So one place for each parameter is
//! enough to try no test of a set twice. That serves speed alone: whatever is kept here, an equation that is tried again has the same answer.

ghost use Rattle.std.specs.Prelude.{◌≡◌, Bool, Some, false, IsTrue};
ghost use Rattle.cert_trees.specs.declared.equations.Equation.{Equation as tested};
ghost use Rattle.cert_prove.specs.Tried.{AreTried};

use cert_trees::Equation;

/// How many parameters, or fields, have a place. The equations of others are tried each time.
pub(crate) const PLACES: usize = 128;

/// No equation yet.
pub(crate) const NONE: [Option<Equation>; PLACES] = [None; PLACES];

/// Whether the equation is kept: then its test doesn't part the set.
pub(crate) fn is_tried(kept: &[Option<Equation>], equation: Equation) -> bool
    ensures { (parts : tested → Bool) → AreTried parts kept.now → IsTrue result → parts equation ≡ false }
{
    match kept.get(equation.tested) {
        Some(place) => is_kept(*place, equation),
        None => false,
    }
}

fn is_kept(place: Option<Equation>, equation: Equation) -> bool
    ensures { IsTrue result → place ≡ Some equation }
{
    match place {
        Some(before) => is_same(before, equation),
        None => false,
    }
}

fn is_same(one: Equation, other: Equation) -> bool
    ensures { IsTrue result → one ≡ other }
{
    one.tested == other.tested && one.constant == other.constant && one.equal == other.equal
}

/// Keeps an equation whose test doesn't part the set. A `!=` has no test, and is told at once: it takes no place.
pub(crate) fn keep(kept: &mut [Option<Equation>], equation: Equation)
    ensures { (parts : tested → Bool) → AreTried parts kept.old → parts equation ≡ false → AreTried parts kept.new }
{
    if equation.equal && equation.tested < kept.len() {
        kept[equation.tested] = Some(equation);
    }
}
