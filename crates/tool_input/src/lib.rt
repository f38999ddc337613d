//! The parts of an input, what their lines are read as, and what an answer is.
#![tactic(auto)]

pub mod bundle;
pub mod counted;
pub mod input;
pub mod inputs;
pub mod octets;
pub mod part_words;
pub mod refusals;
pub mod status;
pub mod texts;
