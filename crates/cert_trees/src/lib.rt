//! Whether a certificate's decision trees part the formats of their methods.
#![tactic(auto)]

pub use callees::callees_first;
pub use counts::{count_candidates, format_count};
pub use equations::Equation;
pub use fault::TreeFault;
pub use faults::{is_in_range, is_word, tree_fault};
pub use signatures::{Signature, Test, all_signatures};

pub mod callees;
mod choices;
pub mod counts;
pub mod equations;
pub mod fault;
pub mod faults;
pub mod laws;
mod sets;
pub mod signatures;
mod tables;
