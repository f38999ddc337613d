//! Several flows of an accepted profile, each with both of its ends, for a program that gives octets and takes octets.
#![tactic(auto)]

pub use ends::{Ends, Sending};
pub use refusal::{PackRefusal, UnpackRefusal};
pub use session::Session;
pub use unpacker::Taken;

mod asked;
pub mod ends;
pub mod laws;
pub mod most;
mod octets;
mod packer;
mod pages;
pub mod refusal;
pub mod session;
pub mod unpacker;
