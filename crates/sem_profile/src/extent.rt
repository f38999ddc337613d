//! The faults of ranges: of all parts of an expression, or of those that hold no parameter without a range.

ghost use Rattle.std.specs.Prelude.{◌≡◌};
ghost use Rattle.sem_expr.specs.Bounds.{bounding_of};
ghost use Rattle.sem_profile.specs.Extents as spec;

use sem_expr::{Cond, Expr, RangeFault, Ranges, range};

/// Which parts of an expression are judged.
#[derive(Clone, Copy, PartialEq, Eq)]
pub enum Extent {
    /// All of them.
    Whole,
    /// Those that hold no parameter whose range is beyond the limit, which stands for none.
    Known,
}

fn lacks(expr: &Expr, ranges: &Ranges) -> bool
    ensures { result ≡ spec.lacks (bounding_of ranges.now) expr.now }
{
    match expr {
        Expr::Number(_, _) | Expr::Attribute(_, _) => false,
        Expr::Parameter(_, _) => range(expr, ranges).is_err(),
        Expr::Binary(_, _, left, right) => lacks(left, ranges) || lacks(right, ranges),
    }
}

fn known_fault(expr: &Expr, ranges: &Ranges) -> Option<RangeFault>
    ensures { result ≡ spec.known_fault (bounding_of ranges.now) expr.now }
{
    match expr {
        Expr::Number(_, _) | Expr::Attribute(_, _) => range(expr, ranges).err(),
        Expr::Parameter(_, _) => None,
        Expr::Binary(_, _, left, right) => {
            if lacks(expr, ranges) {
                first(known_fault(left, ranges), known_fault(right, ranges))
            } else {
                range(expr, ranges).err()
            }
        }
    }
}

fn first(fault: Option<RangeFault>, other: Option<RangeFault>) -> Option<RangeFault>
    ensures { result ≡ spec.first_fault fault other }
{
    match fault {
        Some(found) => Some(found),
        None => other,
    }
}

fn known_condition_fault(cond: &Cond, ranges: &Ranges) -> Option<RangeFault>
    ensures { result ≡ spec.known_condition_fault (bounding_of ranges.now) cond.now }
{
    match cond {
        Cond::Constant(_, _) => None,
        Cond::Compare(_, _, left, right) => {
            first(known_fault(left, ranges), known_fault(right, ranges))
        }
        Cond::Not(_, inner) => known_condition_fault(inner, ranges),
        Cond::And(_, left, right) | Cond::Or(_, left, right) => first(
            known_condition_fault(left, ranges),
            known_condition_fault(right, ranges),
        ),
    }
}

/// The first fault of a range in an expression.
pub fn range_fault(extent: Extent, expr: &Expr, ranges: &Ranges) -> Option<RangeFault>
    ensures { result ≡ spec.range_fault extent (bounding_of ranges.now) expr.now }
{
    match extent {
        Extent::Whole => range(expr, ranges).err(),
        Extent::Known => known_fault(expr, ranges),
    }
}

/// The first fault of a range in a condition.
pub fn condition_range_fault(extent: Extent, cond: &Cond, ranges: &Ranges) -> Option<RangeFault>
    ensures { result ≡ spec.condition_range_fault extent (bounding_of ranges.now) cond.now }
{
    match extent {
        Extent::Whole => sem_expr::condition_fault(cond, ranges),
        Extent::Known => known_condition_fault(cond, ranges),
    }
}
