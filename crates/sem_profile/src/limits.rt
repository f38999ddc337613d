//! The limits on the methods of a profile (docs/LIMITS.md).

/// No chain of calls from the top has more methods, both ends among them.
pub const DEPTH_LIMIT: usize = 16;

/// No format has more fields.
pub const FIELD_LIMIT: usize = 128;

/// No message has more fields, with those of the methods that encode its fields.
pub const WEIGHT_LIMIT: usize = 4_096;
