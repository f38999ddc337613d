//! Frames: a line of 64 flows, on which a lost packet harms its own flow alone.
#![tactic(auto)]

pub use fault::FrameFault;
pub use given::{Given, PacketRefusal};
pub use receiver::Receiver;
pub use runs::{RunFault, run};
pub use sender::Sender;

pub mod fault;
mod front;
pub mod given;
pub mod laws;
pub mod receiver;
pub mod runs;
pub mod sender;
mod verdict;
mod writer;
