//! From the octets of a profile, or the tree of its text, to its normal form.
#![tactic(auto)]

pub use passes::{ReadError, read};
pub use resolution::resolve;

pub mod call_depth;
pub mod call_graph;
pub mod calls;
pub mod file_names;
pub mod laws;
pub mod methods;
pub mod parts;
pub mod passes;
pub mod profile_limits;
pub mod reached;
pub mod recursion;
pub mod resolution;
pub mod top;
