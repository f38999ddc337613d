//! The text of certificates: how it is read, and how it is printed.
#![tactic(auto)]

pub use printer::print;
pub use reader::{CertificateError, TEXT_LIMIT, read};
pub use room::is_short;

mod draft;
mod faults;
pub mod laws;
pub mod printer;
pub mod reader;
mod room;
mod words;
