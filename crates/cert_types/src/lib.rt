//! Certificates: for each method a decision tree, for each format a plan to read it and one to write it; and their limits.
#![tactic(auto)]

pub use certificate::{
    CANDIDATE_LIMIT, CHOICE_LIMIT, Certificate, DEPTH_LIMIT, Direction, FormatPlans, MethodPlans,
    NODE_LIMIT, Node, OFFSET_LIMIT, PACKED_LIMIT, Plans, STEP_LIMIT, Step, Version,
};
pub use rule::{Fact, Rule};

pub mod certificate;
mod names;
pub mod rule;
