//! Tables in place of parts of decision trees.
#![tactic(auto)]

pub use picks::Picked;
pub use table::{TableStart, Tables, TreeTables};

mod maker;
pub mod picks;
mod references;
mod sizes;
pub mod table;
mod windows;
