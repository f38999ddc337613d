//! What the expressions, encodings, brackets, ENFORCE and INITIAL statements of a method mean.
#![tactic(auto)]

pub use callee::{Callee, Methods, is_library};
pub use constant::constant_value;
pub use constraints::{Said, item_constraints};
pub use crc_data::{CrcData, data_of};
pub use encodings::encoding;
pub use enforce::conjuncts;
pub use initial::initial_bits;
pub use method::{Givens, JudgedGivens, given};
pub use scope::Scope;
pub use table::Constants;
pub use term::{Meaning, Term, TermKind};
pub use types::{number, numbers};

pub mod arguments;
pub mod asked;
pub mod callee;
pub mod constant;
pub mod constraints;
pub mod crc_data;
pub mod encodings;
pub mod enforce;
pub mod enforced;
pub mod initial;
pub mod initials;
pub mod method;
mod ranges;
pub mod scope;
pub mod table;
pub mod term;
pub mod types;
