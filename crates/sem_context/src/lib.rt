//! Contexts: the bits that each field had last, by the field's path, and their text.
#![tactic(auto)]

pub use context::Context;
pub use text::ContextError;

pub mod context;
mod hints;
pub mod laws;
pub mod path;
pub mod text;
