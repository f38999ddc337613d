//! What a receiver reads that holds another context than the sender.
#![tactic(auto)]

pub use journal::{Case, Journal, Reading, case_of, judge};
pub use reception::{Heard, HeardKind, hear};
pub use scores::{Group, Score, reach_of, score_of};
pub use unserved::{Lack, Unserved, all_serve, first_unserved, unserved_among, unserved_uses};
pub use uses::{Referring, Using, uses_of};

pub mod journal;
pub mod laws;
pub mod reception;
pub mod scores;
pub mod unserved;
pub mod uses;
