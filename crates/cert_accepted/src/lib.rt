//! A profile with a certificate that is valid for it, and where a walk by it fills a method.
#![tactic(auto)]

pub use accepted::Accepted;
pub use cert_tables::Picked;
pub use frame::AcceptedFrame;

pub mod accepted;
pub mod frame;
pub mod laws;
