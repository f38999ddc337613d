//! What is answered of a profile by its octets: `show`, `prove`, `check` with what explains them, `lint` and `draw`; and who accepts a profile with its certificate
//! for the other calls.
#![tactic(auto)]

pub mod check;
pub mod explanations;
pub mod profile_and_certificate;
pub mod prove;
pub mod show;
pub mod surveys;
