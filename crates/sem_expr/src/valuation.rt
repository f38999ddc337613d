//! What gives attributes and parameters their numbers.

ghost use Rattle.std.specs.Prelude.{◌≡◌};
ghost use Rattle.sem_expr.specs.Values.{Assignment};

use crate::expr::Attribute;

/// Gives attributes and parameters their numbers, as far as these are known, so that an expression has a value by it.
pub trait Valuation {
    ghost assignment: { Self → Assignment };

    // what it takes to be asked for the number of an attribute
    ghost is_ready: { Self → Type 0 } = { λ _. Unit {0} };

    /// The number of a parameter, where it is known.
    fn parameter(&self, index: usize) -> Option<i128>
        ensures { result ≡ (assignment self.now).parameter index };

    /// The number of an attribute, where it is known.
    fn attribute(&self, attribute: Attribute) -> Option<i128>
        requires { is_ready self.now }
        ensures { result ≡ (assignment self.now).attribute attribute };
}
