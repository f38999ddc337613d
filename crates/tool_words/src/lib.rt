//! The command line.
#![tactic(auto)]

mod command_line;
pub mod words;
