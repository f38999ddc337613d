//! Laws of lines.

ghost use Rattle.walk_line.specs.Laws as laws;

/// Two lines, of which the second begins where the first ends, are one.
pub fn lines_join()
    ensures { laws.LinesJoin }
{}

/// What is heard, and then of its rest and more octets, is heard of them all: so the cutting into pieces does not matter.
pub fn heard_join()
    ensures { laws.HeardJoin }
{}

/// Of octets one thing alone is heard.
pub fn heard_once()
    ensures { laws.HeardOnce }
{}

/// The octets of a line are heard as the items that were sent, with nothing left, and with the sender's contexts.
pub fn line_is_heard()
    ensures { laws.LineIsHeard }
{}

/// No fault but out of memory comes in octets that are heard with nothing left, as those of a line are.
pub fn no_fault()
    ensures { laws.NoFault }
{}

/// The packets, fillings and contexts of a flow are those of its own events alone.
pub fn one_flow()
    ensures { laws.OneFlow }
{}

/// What a flow is asked for determines its packets and its context.
pub fn alone_once()
    ensures { laws.AloneOnce }
{}

/// Two lists of events that agree on a flow give it the same packets, and the same context.
pub fn same_packets()
    ensures { laws.SamePackets }
{}
