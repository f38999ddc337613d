//! The bounds of the methods of a profile, and the faults of its expressions.
#![tactic(auto)]

pub use methods::sizes;

mod callers;
mod constants;
mod faults;
mod fields;
mod formats;
mod glance;
mod magnitude;
pub mod methods;
mod parameters;
pub mod ranges;
