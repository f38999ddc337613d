//! Laws of the prover's order, each as a function with no body that a proof may cite by a call.

ghost use Rattle.cert_prove.specs.Laws as laws;

/// After `NoPlan` no steps are a plan of that format in that direction, after `NoTree` no nodes part the formats of that method, in no certificate of that version.
pub fn unproved_has_none()
    ensures plan { laws.UnplannedHasNoPlan }
    ensures tree { laws.UnpartedHasNoTree }
{}

/// A certificate of the order is right in each entry, so a check refuses it for its candidates or its length alone.
pub fn ordered_is_right()
    ensures right { laws.OrderedIsRight }
    ensures refused { laws.OrderedIsRefused }
{}
