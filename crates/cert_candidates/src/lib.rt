//! The candidates of an item: their order by what write plans choose, their numbers, and what a walk that writes one may rest on.
#![tactic(auto)]

pub use digits::{Digits, Start, start_of};
pub use numbers::{Candidates, number_of};
pub use spans::format_counts;

pub mod digits;
pub mod laws;
pub mod numbers;
pub mod spans;
pub mod writing_laws;
