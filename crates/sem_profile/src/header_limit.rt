//! The limit of a header (docs/LIMITS.md).

/// A header has at most so many bits.
pub const HEADER_LIMIT: usize = 4_096;
