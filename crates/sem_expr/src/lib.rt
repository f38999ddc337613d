//! Expressions of the notation: their values over unbounded whole numbers, and the ranges of those values.
#![tactic(auto)]

pub use expr::{Attribute, Comparison, Cond, Expr, Measure, Operator, Side, Subject};
pub use fault::{RangeFault, RangeFaultKind};
pub use inputs::{Input, condition_inputs, expr_inputs};
pub use interval::{Interval, MOST_EXPONENT, RANGE_LIMIT};
pub use known::{Known, Numbers, SideNumbers};
pub use ranges::{Intervals, Ranges, SideIntervals, condition_fault, range};
pub use valuation::Valuation;
pub use values::{calculate, compares, decide, operand, value};

pub mod expr;
pub mod fault;
pub mod inputs;
pub mod interval;
pub mod known;
pub mod laws;
pub mod ranges;
pub mod short;
pub mod valuation;
pub mod values;
