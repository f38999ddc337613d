//! Plans made short, for who reads and writes pages, or draws fillings up and has them judged. Nothing is promised of them. With them stand what is prepared of a
//! format and what a look at it goes over.
#![tactic(auto)]

pub use fitting::format_left;
pub use looks::Looks;
pub use operations::{Beginning, CompiledPlan, Count, Operation, Operations, ShortBits};
pub use pages::{Length, Origin, PageOperation, PageWriting};
pub use plans::CompiledPlans;

mod compiler;
mod fitting;
mod header;
pub mod looks;
pub mod operations;
mod pages;
mod places;
pub mod plans;
mod singles;
mod steps;
