//! A method of a file in normal form: its names, what it gives its fields, and its formats with their numbered constraints.
#![tactic(auto)]

pub use constraints::Constraints;
pub use drafts::{Draft, Setting};
pub use encodings::{Encodings, encoding_fault};
pub use formats::{Resolved, section_format};
pub use kept::{Kept, KeptStatement, kept_statements};
pub use methods::{FileSetting, MethodDraft, resolved_method};

pub mod constraints;
pub mod defaults;
pub mod drafts;
pub mod encodings;
pub mod fields;
pub mod formats;
pub mod kept;
pub mod method_formats;
pub mod methods;
pub mod parameters;
