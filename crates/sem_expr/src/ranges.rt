//! The range of the values of an expression.

ghost use Rattle.std.specs.Prelude.{◌≡◌, true, IfOk, IfNone};
ghost use Rattle.sem_expr.specs.Rules as rules;
ghost use Rattle.sem_expr.specs.Ranged.{ranged, limited, joined, fault_in};
ghost use Rattle.sem_expr.specs.Spread.{AreAccepted};
ghost use Rattle.sem_expr.specs.Bounds.{anything, bounding_of, intervals_at};

use crate::expr::{Attribute, Cond, Expr, Measure, Operator, Side, Subject};
use crate::fault::{RangeFault, RangeFaultKind};
use crate::interval::{EVERY, Interval, combine, is_refused};
use sqlite_items::Items;
use std::alloc::Global;
use text_source::Span;

/// The range of the number that some bits spell, and of how many bits there are.
#[derive(Clone, Copy, PartialEq, Eq)]
pub struct Intervals {
    pub value: Interval,
    pub length: Interval,
}

/// Those of both sides of a field.
#[derive(Clone, Copy, PartialEq, Eq)]
pub struct SideIntervals {
    pub uncompressed: Intervals,
    pub compressed: Intervals,
}

/// The ranges of the fields in field order, of the whole, and of the parameters in order.
/// Of a field or a parameter past the end of its list each range is from `-2^120` to `2^120`.
#[derive(Drop)]
pub struct Ranges {
    pub fields: Items<SideIntervals>,
    pub whole: SideIntervals,
    pub parameters: Items<Interval>,
}

/// Each number of a field may be any.
const ANY_SIDES: SideIntervals = SideIntervals {
    uncompressed: ANY,
    compressed: ANY,
};

const ANY: Intervals = Intervals {
    value: EVERY,
    length: EVERY,
};

impl Ranges {
    /// Each number may be any.
    pub fn anything(alloc: Global) -> Ranges
        ensures { result ≡ anything }
    {
        Ranges {
            fields: Items::new(alloc),
            whole: ANY_SIDES,
            parameters: Items::new(alloc),
        }
    }

    /// The range of a parameter.
    pub fn parameter(&self, index: usize) -> Interval
        ensures { result ≡ (bounding_of self.now).parameter index }
    {
        match self.parameters.get(index) {
            Some(interval) => *interval,
            None => EVERY,
        }
    }

    /// The range of an attribute.
    pub fn attribute(&self, attribute: Attribute) -> Interval
        ensures { result ≡ (bounding_of self.now).attribute attribute }
    {
        let sides = match attribute.subject {
            Subject::This => self.whole,
            Subject::Field(index) => self.field(index),
        };
        let intervals = match attribute.side {
            Side::Uncompressed => sides.uncompressed,
            Side::Compressed => sides.compressed,
        };
        match attribute.measure {
            Measure::Value => intervals.value,
            Measure::Length => intervals.length,
        }
    }

    fn field(&self, index: usize) -> SideIntervals
        ensures { result ≡ intervals_at self.now.fields index }
    {
        match self.fields.get(index) {
            Some(sides) => *sides,
            None => ANY_SIDES,
        }
    }
}

/// The range of the values of an expression, by the rules from the ranges of its parts; each end point is from `-2^120` to `2^120`.
/// The fault is that of the first part without a range, inner parts first and left to right: a range beyond the limit,
/// or a power whose base may be negative or whose exponent may pass 127.
pub fn range(expr: &Expr, ranges: &Ranges) -> Result<Interval, RangeFault>
    ensures outcome { result ≡ ranged (bounding_of ranges.now) expr.now }
    ensures limit { IfOk result (λ i. rules.is_limited i ≡ true) }
{
    match expr {
        Expr::Number(at, number) => limit(
            *at,
            Interval {
                from: *number,
                to: *number,
            },
        ),
        Expr::Parameter(at, index) => limit(*at, ranges.parameter(*index)),
        Expr::Attribute(at, attribute) => limit(*at, ranges.attribute(*attribute)),
        Expr::Binary(at, operator, left, right) => {
            let left = range(left, ranges)?;
            let right = range(right, ranges)?;
            join(*at, *operator, left, right)
        }
    }
}

/// The fault of the first expression of whole numbers in a condition that has no range, from left to right; none where each has one.
pub fn condition_fault(cond: &Cond, ranges: &Ranges) -> Option<RangeFault>
    ensures first { result ≡ fault_in (bounding_of ranges.now) cond.now }
    ensures accepted { IfNone result (AreAccepted (bounding_of ranges.now) cond.now) }
{
    match cond {
        Cond::Constant(_, _) => None,
        Cond::Compare(_, _, left, right) => match range(left, ranges) {
            Err(fault) => Some(fault),
            Ok(_) => range(right, ranges).err(),
        },
        Cond::Not(_, inner) => condition_fault(inner, ranges),
        Cond::And(_, left, right) | Cond::Or(_, left, right) => {
            match condition_fault(left, ranges) {
                Some(fault) => Some(fault),
                None => condition_fault(right, ranges),
            }
        }
    }
}

fn limit(at: Span, interval: Interval) -> Result<Interval, RangeFault>
    ensures outcome { result ≡ limited at interval }
    ensures limit { IfOk result (λ i. rules.is_limited i ≡ true) }
{
    if interval.is_limited() {
        Ok(interval)
    } else {
        Err(RangeFault {
            kind: RangeFaultKind::AboveLimit,
            at,
        })
    }
}

fn join(
    at: Span,
    operator: Operator,
    left: Interval,
    right: Interval,
) -> Result<Interval, RangeFault>
    requires left_limited { rules.is_limited left ≡ true }
    requires right_limited { rules.is_limited right ≡ true }
    ensures outcome { result ≡ joined at operator left right }
    ensures limit { IfOk result (λ i. rules.is_limited i ≡ true) }
{
    if is_refused(operator, left, right) {
        return Err(RangeFault {
            kind: RangeFaultKind::Power,
            at,
        });
    }
    match combine(operator, left, right) {
        Some(interval) => limit(at, interval),
        None => Err(RangeFault {
            kind: RangeFaultKind::AboveLimit,
            at,
        }),
    }
}
