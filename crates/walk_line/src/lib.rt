//! Several flows on one line, 16 or 64 by the line's version: each has a context of its own at both ends.
#![tactic(auto)]

pub use fault::LineFault;
pub use flow::{Flow, LineVersion};
pub use receiver::Receiver;
pub use runs::{Event, RunFault, run};
pub use sender::Sender;

pub mod fault;
pub mod flow;
pub mod laws;
mod packet;
mod pages;
pub mod receiver;
pub mod runs;
pub mod sender;
mod unfinished;
