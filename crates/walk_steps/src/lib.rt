//! The steps of a walk, one function a kind of step, for both directions; and what a walk knows of one level of a filling.
#![tactic(auto)]

pub use calls::{Call, called, fill};
pub use common::common_step;
pub use fault::StepFault;
pub use level::Partial;
pub use level_frame::LevelFrame;

pub mod calls;
pub mod common;
pub mod fault;
mod filling;
mod findings;
mod fronts;
pub mod length;
pub mod level;
pub mod level_frame;
pub mod library;
mod methods;
mod reference;
mod side;
mod side_lists;
mod slots;
pub mod solutions;
mod values;
