//! The words for what a profile has: names, places, why no filling fits a format, how many candidates there are, and the lines of what is wrong with a
//! certificate; and how tables and objects of JSON are written.
#![tactic(auto)]

pub mod candidates;
pub mod check_faults;
pub mod names;
pub mod objects;
pub mod obstacles;
pub mod table;
