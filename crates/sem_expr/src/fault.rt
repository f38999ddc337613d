//! Why an expression has no range.

use text_source::Span;
use thiserror::Error;

/// What is wrong with a part of an expression.
#[derive(Clone, Copy, Debug, PartialEq, Eq, Error)]
pub enum RangeFaultKind {
    #[error("value may pass 2^120")]
    AboveLimit,
    #[error("power has a negative base or an exponent above 127")]
    Power,
}

/// A part of an expression that has no range, by its place.
#[derive(Clone, Copy, Debug, PartialEq, Eq, Error)]
#[error("{kind}")]
pub struct RangeFault {
    pub kind: RangeFaultKind,
    pub at: Span,
}
