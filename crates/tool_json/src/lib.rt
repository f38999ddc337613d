//! What the commands tell, as JSON lines.
#![tactic(auto)]

pub mod drawing;
pub mod entries;
pub mod lines;
pub mod message;
pub mod messages;
