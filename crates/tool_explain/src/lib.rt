//! What `--explain` adds below a fault line of `prove` and of `check`. The line itself is not touched. What is added is by the rules that stand in the files here,
//! which are tested and not proved.
#![tactic(auto)]

mod counts;
pub mod faults;
mod places;
pub mod trees;
pub mod waits;
