//! Laws of frames.

ghost use Rattle.walk_frames.specs.Cutting as cutting;
ghost use Rattle.walk_frames.specs.Laws as laws;

/// The octets of frames are cut into these frames, and nothing is left.
pub fn frames_are_cut()
    ensures { cutting.FramesAreCut }
{}

/// Octets are cut in one way.
pub fn cut_once()
    ensures { cutting.CutOnce }
{}

/// What octets are cut into, and then what is left of them and more octets, is what they all are cut into: so the cutting into pieces does not matter.
pub fn cuts_join()
    ensures { cutting.CutsJoin }
{}

/// Where octets are frames, and then an octet with which none begins, these are all that come before it.
pub fn stopped_once()
    ensures { cutting.StoppedOnce }
{}

/// A receiver gives of each flow what it would give of it were it alone on the line.
pub fn each_is_heard_alone()
    ensures { laws.EachIsHeardAlone }
{}

/// A sender puts out for each flow what it would put out for it were it alone on the line.
pub fn each_is_sent_alone()
    ensures { laws.EachIsSentAlone }
{}

/// The same frames give the same items, and leave the same contexts.
pub fn given_once()
    ensures { laws.GivenOnce }
{}

/// Where nothing is lost the items that were sent are given, and the receiver has the senders' contexts.
pub fn sent_is_given()
    ensures { laws.SentIsGiven }
{}

/// Of a flow of which never more than so many frames in a row are lost, as many as its sender packs for, just the items of the frames that come through are given, in
/// order, whatever becomes of other flows.
pub fn loss_harms_its_flow_alone()
    ensures { laws.LossHarmsItsFlowAlone }
{}
