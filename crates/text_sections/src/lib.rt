//! The names and sections of one method: what stands twice, what is missing, and what each field is encoded by.
#![tactic(auto)]

pub use fields::{encoding_at, encodings, in_order, listing, mentions_point, own_encodings};
pub use mention::{Group, Mention, encoded, mentions, of_section};
pub use names::judge;
pub use table::Table;

mod faults;
pub mod fields;
mod lookups;
pub mod mention;
pub mod names;
pub mod repeats;
pub mod sections;
pub mod table;
