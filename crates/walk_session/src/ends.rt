//! The two ends of a flow that are here: one sends its own packets, one receives the peer's.

ghost use Rattle.std.specs.Prelude.{◌≡◌};
ghost use Rattle.walk_session.specs.State.{empty_ends};

use sem_context::Context;
use std::alloc::Global;
use walk_robust::Robust;

/// How the packets of a flow are packed.
#[derive(Drop)]
pub enum Sending {
    /// For a receiver that has read each packet before.
    Plain(Context),
    /// For one to which some were lost.
    Robust(Robust),
}

/// The two ends of a flow.
#[derive(Drop)]
pub struct Ends {
    pub sending: Sending,
    pub receiving: Context,
}

impl Ends {
    /// Both contexts are empty, and no packet may be lost.
    pub(crate) fn new(alloc: Global) -> Ends
        ensures { result ≡ empty_ends }
    {
        Ends {
            sending: Sending::Plain(Context::new(alloc)),
            receiving: Context::new(alloc),
        }
    }
}
