//! The walk that reads a filling of a method from packed bits.
#![tactic(auto)]

pub use fault::{Blamed, ReadFault};
pub use walk::read_method;

mod calls;
pub mod fault;
mod plans;
mod steps;
mod take;
pub mod walk;
