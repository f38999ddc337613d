//! Fillings: a format with both sides of each of its fields, and what fills the methods that they call; and when a filling fits, which is the meaning of the
//! notation. And the types of what may keep a filling from a format, which sem_lint and sem_reasons find.
#![tactic(auto)]

pub use entries::{FieldPath, advance, below, is_below};
pub use filling::{AskedValue, FilledField, Filling, Item};
pub use frame::Frame;
pub use whole_sides::WholeSides;

pub mod entries;
pub mod filling;
pub mod filling_laws;
pub mod frame;
pub mod laws;
pub mod obstacle;
pub mod reason;
pub mod sides;
pub mod whole_sides;
