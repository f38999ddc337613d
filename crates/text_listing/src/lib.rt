//! What is printed of a resolved profile, the texts of its faults, and where the octets of a text stand.
#![tactic(auto)]

pub use fault_texts::{fault_text, kind_text};
pub use listing::show;
pub use places::Places;

pub mod fault_texts;
pub mod listing;
pub mod places;
