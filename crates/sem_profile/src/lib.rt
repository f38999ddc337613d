//! Resolved profiles: what the notation makes of a profile's text, what the bounds on its lengths and ranges are, and what each profile keeps.
#![tactic(auto)]

pub use asked::{AskedField, asked_fields};
pub use fault::{ProfileFault, ProfileFaultKind, ResolveError, fault_of};
pub use header_limit::HEADER_LIMIT;
pub use known_words::are_words;
pub use limits::{DEPTH_LIMIT, FIELD_LIMIT, WEIGHT_LIMIT};
pub use listed::is_listed;
pub use name::Name;
pub use precedence::earlier;
pub use profile::{
    Bounds, Constraint, CrcArguments, Declared, Encoding, Field, Format, FormatSizes, Library,
    Method, MethodSizes, Part, Sizes,
};
pub use resolved::Profile;
pub use reversal::reversed;
pub use shared::Shared;
pub use words::{Words, same, word};

pub mod asked;
pub mod constants;
pub mod extent;
pub mod fault;
pub mod header_limit;
pub mod known_words;
pub mod laws;
pub mod limits;
pub mod listed;
pub mod name;
pub mod precedence;
pub mod profile;
pub mod resolved;
pub mod reversal;
pub mod shared;
pub mod words;
