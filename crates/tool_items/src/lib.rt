//! What is told of items and packets: `fields` prints the fields of a filling, `stats` what formats and fields cost, `advise` how fields go on from one to the next,
//! and `why` the reasons of a refusal.
#![tactic(auto)]

pub use counts::Tally;
pub use nearest::{Near, least_near, taken_by};
pub use steps::{Steps, step_of};
pub use sums::{FormatSums, PlaceSums, Sums};
pub use trends::{Lengths, Trend, Trends};
pub use valued::{FewValues, MOST, ValueCount};

pub mod advice;
pub mod advice_objects;
pub mod advise;
mod asked;
pub mod avoided;
pub mod counts;
pub mod field_objects;
pub mod fields;
pub mod inside;
pub mod laws;
pub mod nearest;
mod rows;
pub mod stats;
pub mod stats_objects;
pub mod steps;
pub mod sums;
pub mod trends;
pub mod valued;
pub mod why;
