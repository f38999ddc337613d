//! Laws of sessions.

ghost use denote.Param.Send.{IsSend};
ghost use Rattle.walk_session.specs.Laws.{BeginsHeld, LostHeld, ReadBack, ReadBackHeld};
ghost use Rattle.walk_session.specs.contracts.session.Session.{the_row as session_row};

/// What one session packs, followed by any bits, another in the same context unpacks as the same item, and just its bits are taken.
pub fn read_back()
    ensures { ReadBack }
{}

/// A flow goes on for losses from a receiver in the same context: the sender holds that.
pub fn begins_held()
    ensures { BeginsHeld }
{}

/// What one session packs for losses, followed by any bits, another in a context that is held unpacks as the same item, however many packets were lost right before;
/// and the sender holds its context again.
pub fn read_back_held()
    ensures { ReadBackHeld }
{}

/// Where that packet is lost, and one more in a row may be, the context that was held stays so. So losses do no harm, as long as never more are lost in a row.
pub fn lost_held()
    ensures { LostHeld }
{}

/// A session may go to another thread.
pub fn may_cross()
    ensures { IsSend session_row }
{}
