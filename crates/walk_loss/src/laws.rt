//! Laws of packets that are read in another context.

ghost use Rattle.walk_loss.specs.Laws as laws;
ghost use Rattle.walk_loss.specs.Losses as losses;

/// What is written in one context is read in any other in which its filling fits, whatever bits follow: just its bits are taken, and no fault comes but out of memory.
pub fn read_elsewhere()
    ensures { laws.ReadElsewhere }
{}

/// It fits there just where each reference that it uses serves there.
pub fn fits_by_references()
    ensures { laws.FitsByReferences }
{}

/// A reading is right just where what was written fits; all others are wrong, and only there `unpack` refuses.
pub fn right_or_not()
    ensures { laws.RightOrNot }
{}

/// Where each filling fits in the last n + 1 contexts of the sender, `unpack` reads each packet that comes through as the item it was sent for, whatever is lost, never more than n in a row.
pub fn survives_losses()
    ensures { losses.SurvivesLosses }
{}

/// The same where the formats of each method call alike, and each filling fits in the last n + 1 contexts.
pub fn survives_losses_alike()
    ensures { losses.SurvivesLossesAlike }
{}

/// What a receiver reads of a packet is right where what was packed fits in its context.
pub fn right_where_it_fits()
    ensures { laws.RightWhereItFits }
{}

/// There is one verdict on a packet in a context: right, wrong or refused.
pub fn one_verdict()
    ensures { laws.OneVerdict }
{}

/// What was packed fits in a context just where none of its uses is told by `unserved_uses`.
pub fn fits_where_none_is_told()
    ensures { laws.FitsWhereNoneIsTold }
{}
