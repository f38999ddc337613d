//! The prover: the certificate of a profile by the prover's order of the bindings of each format, with a decision tree for each method, or what is missing.
#![tactic(auto)]

pub use certificate::prove;
pub use fault::{FieldSide, Unordered};
pub use plan::{End, Followed, follow_order, order_plan};
pub use possible::Possible;
pub use tree::{Unparted, part_formats};
pub use unproved::Unproved;

pub mod certificate;
mod depths;
mod entries;
pub mod fault;
mod gaps;
mod glance;
pub mod kinds;
pub mod laws;
mod links;
mod marks;
mod needed;
pub mod order_laws;
pub mod plan;
pub mod possible;
mod rest;
mod rule;
mod sets;
mod stack;
pub mod tree;
pub mod tree_laws;
mod tried;
pub mod unproved;
mod way;
