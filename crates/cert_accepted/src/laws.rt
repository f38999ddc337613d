//! Laws of where a walk stands.

ghost use Rattle.cert_accepted.specs.Standing as spec;

/// A method that a field calls has shorter chains of calls than the method of the field.
pub fn calls_are_shallower()
    ensures { spec.CallsAreShallower }
{}
