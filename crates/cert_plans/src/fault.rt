//! Faults of plans.

use sem_expr::Side;

/// What is wrong with a plan.
#[derive(Clone, Copy)]
pub enum PlanFault {
    /// The step of this index, from 0, is not enabled.
    NotEnabled { step: usize },
    /// This side of the field is never learnt, or the field never taken or called.
    NeverLearnt { field: usize, side: Side },
}
