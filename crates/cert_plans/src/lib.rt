//! The rules of a plan's steps, what is known after them, and what is wrong with a plan.
#![tactic(auto)]

pub use fault::PlanFault;
pub use faults::plan_fault;
pub use few::{FewFacts, WrittenFacts};
pub use knowledge::{FieldKnowledge, Knowledge};
pub use lacks::{enables, lacking};
pub use needs::{Need, NeedRule};
pub use rules::rule_of;

mod facts;
pub mod fault;
pub mod faults;
pub mod few;
mod forms;
pub mod knowledge;
pub mod lacks;
pub mod laws;
mod library;
pub mod listed;
pub mod needs;
mod read_rules;
pub mod rules;
mod write_rules;
