//! Laws of handles.

ghost use denote.Param.Send.{IsSend};
ghost use Rattle.rohcfn_c.specs.contracts.handle.Handle.{the_row as handle_row};

/// A handle may go to another thread, as the session to which it leads may.
pub fn may_cross()
    ensures { IsSend handle_row }
{}
