//! Whole runs of a line of frames: what is sent is given.

ghost use Rattle.std.specs.Prelude.{◌≡◌, ◌++◌, ℕ, List, None, map, IfOk, IfErr, OnOk};
ghost use Rattle.walk_line.specs.Runs.{event_of};
ghost use Rattle.walk_frames.specs.Laws.{all_sent};
ghost use Rattle.walk_frames.specs.States.{IsNotPut, IsPut};
ghost use Rattle.walk_frames.specs.Runs as spec;

use crate::sender::Sender;
use cert_accepted::Accepted;
use std::alloc::{AllocError, Global};
use walk_line::Event;
use walk_robust::RobustFault;

/// Why the events of a run are not all put out.
#[derive(Drop)]
pub enum RunFault {
    /// The event at this index, from 0, is refused; those before it were put out.
    Refused(usize, RobustFault),
    OutOfMemory,
}

impl From<AllocError> for RunFault {
    ghost use Rattle.std.specs.Prelude.{◌≡◌};
    ghost use Rattle.walk_frames.specs.declared.runs.RunFault.TheVariants.{OutOfMemory};

    ghost from_gives = { λ _ e. e ≡ OutOfMemory };

    fn from(_error: AllocError) -> RunFault {
        RunFault::OutOfMemory
    }
}

/// Puts out one event.
fn put(sender: &mut Sender<'_>, event: &Event, out: &mut Vec<u8>) -> Result<(), RobustFault>
    ensures ok { OnOk result ((octets : List ℕ) × IsPut sender.old sender.new (event_of event.now) octets × (out.new.items ≡ out.old.items ++ octets)) }
    ensures fault { IfErr result (IsNotPut sender.old (event_of event.now)) }
{
    match event {
        Event::Send(flow, item) => sender.send(*flow, item, out),
        Event::Reset(flow) => sender.reset(*flow, out),
    }
}

/// Puts out events, up to the first that is refused.
fn put_all(sender: &mut Sender<'_>, events: &[Event], out: &mut Vec<u8>) -> Result<(), RunFault>
    ensures ok { OnOk result (spec.ArePut sender.old sender.new (map event_of events.now) out.old.items out.new.items) }
    ensures fault { IfErr result (λ e. spec.BlamesEvents e sender.old (map event_of events.now)) }
{
    for (i, event) in events.iter().enumerate() {
        match put(sender, event, out) {
            Ok(()) => {}
            Err(fault) => return Err(RunFault::Refused(i, fault)),
        }
    }
    Ok(())
}

/// The octets of all events, put out by new senders, of which so many frames of a flow in a row may be lost. Where none is lost a new receiver gives of them the
/// items that were sent. A fault is that of the first event that is refused.
///
/// No receiver runs for that: by the law `sent_is_given` it would give just these.
pub fn run(
    alloc: Global,
    accepted: &Accepted,
    lost: u8,
    events: &[Event],
) -> Result<Vec<u8>, RunFault>
    ensures ok { IfOk result (λ octets. spec.IsRun accepted.now lost (map event_of events.now) octets.items) }
    ensures given { IfOk result (λ octets. spec.IsReceived accepted.now octets.items (all_sent (map event_of events.now)) None) }
    ensures fault { IfErr result (λ e. spec.BlamesRun e accepted.now lost (map event_of events.now)) }
{
    let mut octets = Vec::new(alloc);
    let mut sender = Sender::new(alloc, accepted, lost)?;
    match put_all(&mut sender, events, &mut octets) {
        Ok(()) => Ok(octets),
        Err(fault) => Err(fault),
    }
}
