//! What stands at the front of octets on a line: a frame, less than a whole one, or none.

ghost use Rattle.std.specs.Prelude.{◌≡◌, ◌<◌, ◌≤◌, ◌+◌, ◌^◌, ◌∷◌, List, ℕ, length};
ghost use Rattle.walk_frames.specs.Fronts as spec;

/// How many flows there are.
pub(crate) const FLOW_LIMIT: u8 = 64;

/// What stands at the front of octets.
#[derive(Clone, Copy)]
pub(crate) enum Front {
    /// A flow's packet, whose octets stand from the one place up to the other.
    Packet(u8, usize, usize),
    /// One whose length below 128 is spelled in two octets, likewise.
    Overlong(u8, usize, usize),
    /// A flow's reset.
    Reset(u8),
    /// Less than a whole frame.
    Begun,
    /// An octet that is neither a flow's nor a reset's.
    NoFlow,
}

/// What stands at the front of these octets.
pub(crate) fn front_of(octets: &[u8]) -> Front
    ensures { spec.IsFront octets.now result }
{
    let Some(first) = octets.get(0) else {
        return Front::Begun;
    };
    let flow = *first;
    if flow < FLOW_LIMIT {
        return packet_of(octets, flow);
    }
    if flow >= 128 && flow - 128 < FLOW_LIMIT {
        return Front::Reset(flow - 128);
    }
    Front::NoFlow
}

/// The packet at the front of these octets, of which the first is the flow's.
fn packet_of(octets: &[u8], flow: u8) -> Front
    requires flow { flow < 64 }
    requires first { (rest : List ℕ) × (octets.now ≡ flow ∷ rest) }
    ensures { spec.IsFront octets.now result }
{
    let Some(second) = octets.get(1) else {
        return Front::Begun;
    };
    let high = *second;
    if high < 128 {
        let to = 2 + usize::from(high);
        return if to <= octets.len() {
            Front::Packet(flow, 2, to)
        } else {
            Front::Begun
        };
    }
    let Some(third) = octets.get(2) else {
        return Front::Begun;
    };
    let count = usize::from(high - 128) * 256 + usize::from(*third);
    if 3 + count > octets.len() {
        return Front::Begun;
    }
    if count < 128 {
        Front::Overlong(flow, 3, 3 + count)
    } else {
        Front::Packet(flow, 3, 3 + count)
    }
}
