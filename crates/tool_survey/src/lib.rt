//! What is told of a profile's formats: `draw` draws their packets, `lint` warns of those that can't be used.
#![tactic(auto)]

pub mod draw;
pub mod lint;
mod meant;
mod warnings;
