//! What holds of values and ranges.

ghost use Rattle.sem_expr.specs.Laws as laws;

/// Under numbers that lie in the given ranges, a value lies in the expression's range.
pub fn values_lie_in_ranges()
    ensures { laws.ValuesLieInRanges }
{}

/// An expression has the range that the rules give it, and where they give it none, it has none.
pub fn ranges_by_the_rules()
    ensures { laws.RangesByTheRules }
{}

/// The fault of an expression is that of its first part to which the rules give no range.
pub fn faults_by_the_rules()
    ensures { laws.FaultsByTheRules }
{}

/// A value depends on the expression's inputs alone.
pub fn value_by_inputs()
    ensures { laws.ValueByInputs }
{}

/// The value of a condition depends on its inputs alone.
pub fn truth_by_inputs()
    ensures { laws.TruthByInputs }
{}

/// A quotient is rounded towards minus infinity, and there is one by each number but 0.
pub fn quotients_are_floors()
    ensures { laws.QuotientsAreFloors }
{}

/// A power is a product of as many bases as its exponent says, and there is none of a negative exponent.
pub fn powers_multiply()
    ensures { laws.PowersMultiply }
{}

/// An interval with numbers has a negative one, has one above another number, or has only numbers from `-2^120` to `2^120`
/// where its end points tell so.
pub fn end_points_decide()
    ensures { laws.EndPointsDecide }
{}
