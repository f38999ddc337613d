//! Fillings that are drawn up quickly, for who judges them anyhow.
#![tactic(auto)]

pub use trial::runs_out;
pub use walk::{guess, guess_item, is_hopeful};

mod guess_frame;
mod level;
mod no_guess;
mod start;
mod steps;
mod trial;
mod values;
mod walk;
