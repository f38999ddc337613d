//! What is given of a frame with a packet.

use sem_filling::Item;
use walk_read::Blamed;

/// What is given of a frame with a packet.
#[derive(Drop)]
pub enum Given {
    Item(Item),
    Refused(PacketRefusal),
}

/// Why a packet is refused.
#[derive(Clone, Copy)]
pub enum PacketRefusal {
    /// The bits ran out: no filling is at their front.
    Truncated,
    /// Nor will one be with further bits.
    Refused(Blamed),
    /// The bits after a packet's, in its last octet, are not all zero.
    Padding,
    /// The frame's length isn't that of what is read, or isn't spelled as it is.
    Length,
}
