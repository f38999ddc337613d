//! Intervals of whole numbers, and what an operator makes of two.

ghost use Rattle.std.specs.Prelude.{◌≡◌, ◌≤ℤ◌, false, true, pos, neg_ℤ, if◌then◌else◌};
ghost use Rattle.sem_expr.specs.Rules as rules;
ghost use Rattle.sem_expr.specs.Spread.{Gives};

use crate::expr::Operator;

/// The greatest size of an end point of a range that is accepted.
pub const RANGE_LIMIT: i128 = 0x100_0000_0000_0000_0000_0000_0000_0000;

/// The greatest exponent of a power.
pub const MOST_EXPONENT: i128 = 127;

/// The whole numbers from one to another, both included; none where the first is above the second.
#[derive(Clone, Copy, PartialEq, Eq)]
pub struct Interval {
    pub from: i128,
    pub to: i128,
}

/// From `-2^120` to `2^120`.
pub(crate) const EVERY: Interval = Interval {
    from: -RANGE_LIMIT,
    to: RANGE_LIMIT,
};

impl Interval {
    /// Whether both end points are from `-2^120` to `2^120`.
    pub(crate) fn is_limited(self) -> bool
        ensures { result ≡ rules.is_limited self }
    {
        is_within(self.from) && is_within(self.to)
    }

    fn has_negative(self) -> bool
        ensures { result ≡ rules.has_negative self }
    {
        self.from < 0 || self.to < 0
    }

    fn passes(self, number: i128) -> bool
        ensures { result ≡ rules.passes number self }
    {
        number < self.from || number < self.to
    }

    fn greatest_size(self) -> i128
        requires { rules.is_limited self ≡ true }
        ensures { result ≡ pos (rules.greatest_size self) }
    {
        self.from.abs().max(self.to.abs())
    }
}

fn is_within(number: i128) -> bool
    ensures { result ≡ rules.is_within number }
{
    -RANGE_LIMIT <= number && number <= RANGE_LIMIT
}

/// Whether the operator is refused at these ranges: a power whose base may be negative or whose exponent may pass 127.
pub(crate) fn is_refused(operator: Operator, left: Interval, right: Interval) -> bool
    ensures { result ≡ rules.refuses operator left right }
{
    match operator {
        Operator::Power => left.has_negative() || right.passes(MOST_EXPONENT),
        _ => false,
    }
}

/// The range of an operator's values from those of its operands, by its rule. None only where an end point is beyond `2^120`.
pub(crate) fn combine(operator: Operator, left: Interval, right: Interval) -> Option<Interval>
    requires left_limited { rules.is_limited left ≡ true }
    requires right_limited { rules.is_limited right ≡ true }
    requires accepted { rules.refuses operator left right ≡ false }
    ensures { Gives result (rules.rule operator left right) }
{
    match operator {
        Operator::Add => Some(Interval {
            from: left.from + right.from,
            to: left.to + right.to,
        }),
        Operator::Subtract => Some(Interval {
            from: left.from - right.to,
            to: left.to - right.from,
        }),
        Operator::Multiply => product(left, right),
        Operator::Divide => Some(up_to_size(
            left.has_negative() || right.has_negative(),
            left.greatest_size(),
        )),
        Operator::Remainder => Some(up_to_size(right.has_negative(), right.greatest_size())),
        Operator::Power => power(left, right),
    }
}

fn up_to_size(negative: bool, size: i128) -> Interval
    requires { rules.is_within size ≡ true }
    ensures { result ≡ rules.from_to (if negative then neg_ℤ size else pos 0) size }
{
    Interval {
        from: if negative { -size } else { 0 },
        to: size,
    }
}

fn product(left: Interval, right: Interval) -> Option<Interval>
    ensures { Gives result (rules.multiply_rule left right) }
{
    let lowest = left.from.checked_mul(right.from)?;
    let low = left.from.checked_mul(right.to)?;
    let high = left.to.checked_mul(right.from)?;
    let highest = left.to.checked_mul(right.to)?;
    Some(Interval {
        from: lowest.min(low).min(high.min(highest)),
        to: lowest.max(low).max(high.max(highest)),
    })
}

fn power(left: Interval, right: Interval) -> Option<Interval>
    requires { rules.refuses Operator.Power left right ≡ false }
    ensures { Gives result (rules.power_rule left right) }
{
    let from = if left.from > 0 {
        left.from.checked_pow(exponent(right.from))?
    } else {
        0
    };
    let to = if left.to == 0 {
        1
    } else {
        left.to.checked_pow(exponent(right.to))?
    };
    Some(Interval { from, to })
}

fn exponent(number: i128) -> u32
    requires { number ≤ℤ pos 127 }
    ensures { result ≡ rules.exponent number }
{
    number.max(0) as u32
}
