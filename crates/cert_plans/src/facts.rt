//! The facts that tell a measure of a side.

ghost use Rattle.std.specs.Prelude.{◌≡◌};
ghost use Rattle.cert_rules.specs.Facts as spec;

use cert_types::Fact;
use sem_expr::{Measure, Side};

/// What tells a measure of a side of the field.
pub(crate) fn fact_of(side: Side, measure: Measure, field: usize) -> Fact
    ensures { result ≡ spec.fact_of side measure field }
{
    match measure {
        Measure::Length => Fact::LengthOf(side, field),
        Measure::Value => Fact::BitsOf(side, field),
    }
}
