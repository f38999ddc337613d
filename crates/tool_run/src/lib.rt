//! The program, octets in to octets out.
#![tactic(auto)]

mod advise;
pub mod answers;
mod asked;
mod avoidance;
pub mod events;
pub mod frames;
pub mod line;
mod loss;
pub mod packets;
pub mod program;
mod reach;
mod reasons;
mod sender;
mod senders;
mod stats;
mod way;
mod ways;
