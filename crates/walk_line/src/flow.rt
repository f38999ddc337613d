//! Flows, and the octets that stand in a flow's place on the line.

ghost use Rattle.std.specs.Prelude.{◌≡◌, ◌<◌, ◌≤◌, ◌+◌, [], replicate, length, IfOk};
ghost use Rattle.std.specs.Option.{SomeIff};
ghost use Rattle.walk_line.specs.Lines.{flow_limit, flows_of, no_entries, reset_octet};
ghost use Rattle.walk_line.specs.Steps.{Starts};

use sem_context::Context;
use std::alloc::{AllocError, Global};
use std::marker::Model;

/// How many flows a line has. Both of its ends are to know it, since the octets don't tell.
#[derive(Clone, Copy, Debug, PartialEq, Eq)]
pub enum LineVersion {
    /// 16 flows: packets begin with 00 to 0f, resets are 10 to 1f.
    One,
    /// 64 flows: packets begin with 00 to 3f, resets are 40 to 7f.
    Two,
}

impl LineVersion {
    /// How many flows a line of this version has.
    pub fn flows(self) -> u8
        ensures { result ≡ flows_of self }
    {
        match self {
            LineVersion::One => 16,
            LineVersion::Two => 64,
        }
    }
}

/// The greatest count of flows of a line.
pub(crate) const FLOW_LIMIT: u8 = 64;

/// One of the flows of a line. A line of version 1 has those below 16.
#[derive(Clone, Copy, Debug, PartialEq, Eq)]
pub struct Flow {
    number: u8,
}

// Clauses see its number.
impl Model for Flow {
    ghost use Rattle.std.specs.Prelude.{ℕ, ◌<◌};
    ghost use Rattle.walk_line.specs.Lines.{flow_limit};

    ghost Value = { ℕ };

    ghost view = { λ f. f.number };

    ghost invariant = { λ f. f.number < flow_limit };

    ghost inverse = { λ n. record { number = n } };
}

impl Flow {
    /// The flow of that number, or `None` above 63.
    pub fn new(number: u8) -> Option<Flow>
        ensures { SomeIff result (number < flow_limit) number }
    {
        if number < FLOW_LIMIT {
            Some(Flow { number })
        } else {
            None
        }
    }

    pub fn number(&self) -> u8
        ensures value { result ≡ self.now }
        ensures below { self.now < flow_limit }
    {
        self.number
    }

    /// The octet that resets the flow on a line of so many flows: above those of the flows.
    pub(crate) fn reset_octet(&self, flows: u8) -> u8
        requires { flows ≤ flow_limit }
        ensures { result ≡ reset_octet flows self.now }
    {
        flows + self.number
    }
}

/// What begins on the line.
#[derive(Clone, Copy)]
pub(crate) enum Opening {
    Packet(Flow),
    Reset(Flow),
}

/// What begins with an octet in a flow's place on a line of so many flows, or `None` above the octets of resets.
pub(crate) fn start_of(flows: u8, octet: u8) -> Option<Opening>
    requires { flows ≤ flow_limit }
    ensures { Starts flows octet result }
{
    if octet < flows {
        return Some(Opening::Packet(Flow { number: octet }));
    }
    let number = octet - flows;
    if number < flows {
        Some(Opening::Reset(Flow { number }))
    } else {
        None
    }
}

/// The contexts of all flows of a new line, each empty.
pub(crate) fn no_contexts(alloc: Global, version: LineVersion) -> Result<Vec<Context>, AllocError>
    ensures { IfOk result (λ v. v.items ≡ no_entries version) }
{
    let mut contexts = Vec::new(alloc);
    for _i in 0..version.flows() {
        contexts.push(Context::new(alloc))?;
    }
    Ok(contexts)
}
