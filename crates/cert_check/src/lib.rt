//! Whether a certificate is valid for a profile.
#![tactic(auto)]

pub use refusal::{CheckError, RefusedCertificate};
pub use validity::{check, check_right};

pub mod refusal;
pub mod validity;
