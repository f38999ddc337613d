//! Whether a filling fits, by a test.
#![tactic(auto)]

pub use levels::{holds, level_fits, packed_if_fits, sides_if_fits};

mod constraints;
pub mod level;
pub mod levels;
pub mod numbers;
mod plain;
mod shape;
