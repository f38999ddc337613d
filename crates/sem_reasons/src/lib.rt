//! Why no filling of a format has a header, or packed bits at the front of a packet.
#![tactic(auto)]

pub use question::Question;
pub use verdicts::{reasons, reasons_against};

mod across;
mod conflict;
pub mod figures;
pub mod laws;
mod lengths;
mod numbers;
mod observation;
mod places;
pub mod question;
mod references;
mod sight;
mod subjects;
pub mod verdicts;
