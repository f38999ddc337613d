//! A sender whose packets survive losses: it packs each item so that a receiver reads it in every context that it may then hold.
#![tactic(auto)]

pub use sender::{PAIR_LIMIT, Robust, RobustFault};

mod common_filling;
mod held;
pub mod lacks;
pub mod laws;
pub mod sender;
mod successors;
