//! Pages: fillings without what their formats say of them anyhow, and what is read of them.
//!
//! A page has the format of a method, by its index, and both sides of each field, of at most 64 bits. It has no names and no listing, so it is made and let go of
//! quickly. While it is read, what is seen of it (`Seen`) are the sides that are there, the values of the parameters, and at the end both sides of the whole. What
//! is found from that is so on each level that has it (`Bears`): so nothing that was found is tested again. Each value is reckoned within 64 bits, and where one
//! would not be there, nothing is read, though a filling may fit.
#![tactic(auto)]

pub use alike::calls_alike;
pub use coding::{Source, coded, encoded, natural, summed};
pub use constraints::constraint_holds;
pub use entries::{advance, asked_values, has_asked};
pub use expressions::{add_values, is_number, value};
pub use frame::PageFrame;
pub use page::{BothSides, Page, Shown};
pub use prepared::{Computed, LengthTest, Prepared, have_lengths};
pub use sides::{are_unsent, header_of, is_header, packed_of};
pub use steady::is_steady;
pub use view::View;
pub use word::Word;

mod alike;
mod chains;
mod coding;
mod constraints;
mod entries;
mod expressions;
mod frame;
mod joined;
mod page;
mod prepared;
mod sides;
mod steady;
mod view;
mod word;
