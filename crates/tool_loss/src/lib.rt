//! What is told of packets after losses: what `loss` prints, as text and as objects of JSON, and why a sender whose packets survive losses refuses an item.
#![tactic(auto)]

pub mod loss;
pub mod loss_objects;
pub mod reach;
pub mod step;
pub mod told;
