//! The walk that writes a filling of a method, by the number of a candidate.
#![tactic(auto)]

pub use closer::refuted_closely;
pub use fault::WriteFault;
pub use looks::{refuted, refuted_format, single_format};
pub use source::HeaderSource;
pub use walk::write_method;

mod calls;
pub mod closer;
mod end;
pub mod fault;
mod foresight;
mod header_constants;
pub mod looks;
mod premises;
mod refutation;
pub mod source;
mod start;
mod steps;
mod take;
pub mod walk;
