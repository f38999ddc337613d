//! What keeps every filling from a format. Who finds it stands in sem_lint.

use sem_expr::{Interval, Side};
use text_source::Span;

/// An argument that its method never takes, by its place, and the numbers between which it is due.
#[derive(Clone, Copy, PartialEq, Eq)]
pub struct Unmet {
    pub at: Span,
    pub due: Interval,
}

/// What keeps every filling from a format, whatever the context holds and whatever the values of its method's arguments are (docs/NOTATION.md).
#[derive(Clone, Copy, PartialEq, Eq)]
pub enum Obstacle {
    /// The side of the field has no length: the least is above the greatest.
    NoLength { field: usize, side: Side },
    /// The field is encoded by `lsb` with more bits than it has in the header.
    SendsMore { field: usize },
    /// The field is a `crc` over bits that are never whole octets.
    SplitsOctets { field: usize },
    /// An argument or a condition has no value: the part of it at this place divides by 0, or has an exponent below 0.
    NoValue { at: Span },
    /// An argument is never one that its method takes.
    OutOfRange(Unmet),
    /// The constraint, by its number, is a condition that is never true, whatever lengths and values its fields have, or a bracket with none of the lengths that its
    /// side may have.
    NeverTrue { constraint: usize },
    /// The field calls a method of which each format has an obstacle.
    CallsDead { field: usize },
}

/// A format by which nothing can be packed, and why: the format and its method by their indices.
#[derive(Clone, Copy, PartialEq, Eq)]
pub struct DeadFormat {
    pub method: usize,
    pub format: usize,
    pub obstacle: Obstacle,
}
