//! Expressions, typed: of whole numbers and of truth.

use text_source::Span;

/// One of the two sides of a field.
#[derive(Clone, Copy, PartialEq, Eq)]
pub enum Side {
    Uncompressed,
    Compressed,
}

/// What an attribute counts: the number that the bits spell, the first bit highest, or how many bits there are.
#[derive(Clone, Copy, PartialEq, Eq)]
pub enum Measure {
    Value,
    Length,
}

/// Whose bits an attribute speaks of: a field's, by its index in field order, or those of the whole that the method encodes.
#[derive(Clone, Copy, PartialEq, Eq)]
pub enum Subject {
    Field(usize),
    This,
}

/// An attribute, as `f.UVALUE` or `THIS.CLENGTH`.
#[derive(Clone, Copy, PartialEq, Eq)]
pub struct Attribute {
    pub subject: Subject,
    pub side: Side,
    pub measure: Measure,
}

/// An operator of whole numbers: `+ - * / % ^`.
#[derive(Clone, Copy, PartialEq, Eq)]
pub enum Operator {
    Add,
    Subtract,
    Multiply,
    Divide,
    Remainder,
    Power,
}

/// A comparison of whole numbers: `== != < > <= >=`.
#[derive(Clone, Copy, PartialEq, Eq)]
pub enum Comparison {
    Equal,
    NotEqual,
    Less,
    Greater,
    AtMost,
    AtLeast,
}

/// An expression of whole numbers, each part with its place. A parameter goes by its index, and constants are numbers already.
#[derive(Drop)]
pub enum Expr {
    Number(Span, i128),
    Parameter(Span, usize),
    Attribute(Span, Attribute),
    Binary(Span, Operator, Box<Expr>, Box<Expr>),
}

/// An expression of truth, each part with its place.
#[derive(Drop)]
pub enum Cond {
    Constant(Span, bool),
    Compare(Span, Comparison, Expr, Expr),
    Not(Span, Box<Cond>),
    And(Span, Box<Cond>, Box<Cond>),
    Or(Span, Box<Cond>, Box<Cond>),
}
