//! When a step of a plan is enabled, which formats reach a node of a tree, and when a certificate is valid.
#![tactic(auto)]

pub use choice::{choice_of, field_choice};
pub use fault::CheckFault;
pub use slots::{Learnt, Slot};

pub mod choice;
pub mod equations;
pub mod fault;
pub mod fields;
pub mod laws;
pub mod slots;
