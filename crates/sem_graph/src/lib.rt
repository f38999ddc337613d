//! Graphs of calls: which method reaches which, an order in which a method comes after those that it calls, and what is counted in that order.
#![tactic(auto)]

pub use ranks::{calls_decide, leads_back, order, ranks_fall, table};
pub use reach::reached;
pub use weight::{WEIGHT_CAP, weights};

pub mod depth;
pub mod marks;
pub mod ranks;
pub mod reach;
mod sort;
pub mod weight;
