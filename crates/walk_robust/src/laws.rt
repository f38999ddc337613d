//! Laws of packets that survive losses.

ghost use Rattle.walk_robust.specs.Laws as laws;

/// Of what the robust sender packed, each packet that comes through is read as its item, by any receiver that calls `unpack` and began in the sender's context,
/// whatever is lost, never more than so many in a row; and the receiver's context is always one of those held.
pub fn loss_does_no_harm()
    ensures { laws.LossDoesNoHarm }
{}

/// Where no packet may be lost, the robust sender answers what `pack` does.
pub fn as_pack()
    ensures { laws.AsPack }
{}

/// A reset is held as a packet is: the receiver's context is among those held after it, whether it came or was lost.
pub fn resets_are_held()
    ensures { laws.ResetsAreHeld }
{}
