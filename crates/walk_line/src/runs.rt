//! Whole runs of a line: what is sent is heard.

ghost use Rattle.std.specs.Prelude.{◌≡◌, ◌++◌, ℕ, List, None, map, IfOk, IfErr, OnOk};
ghost use Rattle.walk_line.specs.Laws.{items_sent};
ghost use Rattle.walk_line.specs.Lines.{no_entries};
ghost use Rattle.walk_line.specs.States.{IsNotPut, IsPut};
ghost use Rattle.walk_line.specs.Runs.{event_of, ArePut, IsRun, IsReceived, BlamesRun, run_fault};

use crate::flow::{Flow, LineVersion};
use crate::sender::Sender;
use cert_accepted::Accepted;
use sem_filling::Item;
use std::alloc::{AllocError, Global};
use walk_engine::PackFault;

/// What is asked of a line.
#[derive(Drop)]
pub enum Event {
    Send(Flow, Item),
    Reset(Flow),
}

/// Why the events of a run are not all put on the line.
#[derive(Drop)]
pub enum RunFault {
    /// The event at this index, from 0, is refused; those before it were put on the line.
    Refused(usize, PackFault),
    OutOfMemory,
}

impl From<AllocError> for RunFault {
    ghost use Rattle.std.specs.Prelude.{◌≡◌};
    ghost use Rattle.walk_line.specs.declared.runs.RunFault.TheVariants.{OutOfMemory};

    ghost from_gives = { λ _ e. e ≡ OutOfMemory };

    fn from(_error: AllocError) -> RunFault {
        RunFault::OutOfMemory
    }
}

/// Puts one event on the line.
fn put(sender: &mut Sender<'_>, event: &Event, out: &mut Vec<u8>) -> Result<(), PackFault>
    ensures ok { OnOk result ((octets : List ℕ) × IsPut sender.old sender.new (event_of event.now) octets × (out.new.items ≡ out.old.items ++ octets)) }
    ensures fault { IfErr result (IsNotPut sender.old (event_of event.now)) }
{
    match event {
        Event::Send(flow, item) => sender.send(*flow, item, out),
        Event::Reset(flow) => sender.reset(*flow, out),
    }
}

/// Puts events on the line, up to the first that is refused.
fn put_all(sender: &mut Sender<'_>, events: &[Event], out: &mut Vec<u8>) -> Result<(), RunFault>
    ensures ok { OnOk result (ArePut sender.old sender.new (map event_of events.now) out.old.items out.new.items) }
    ensures fault { IfErr result (λ e. BlamesRun e sender.old.accepted sender.old.contexts (map event_of events.now)) }
{
    for (i, event) in events.iter().enumerate() {
        match put(sender, event, out) {
            Ok(()) => {}
            Err(fault) => return Err(refused_at(i, fault)),
        }
    }
    Ok(())
}

/// The fault of a run at an event.
fn refused_at(index: usize, fault: PackFault) -> RunFault
    ensures { result ≡ run_fault index fault }
{
    match fault {
        PackFault::OutOfMemory => RunFault::OutOfMemory,
        _ => RunFault::Refused(index, fault),
    }
}

/// The octets of all events on a new line. They are a line of the events, of which a new receiver hears the items that were sent. A fault is that of the
/// first event that is refused.
///
/// No receiver runs for that: by the law `line_is_heard` it would hear just these.
pub fn run(
    alloc: Global,
    accepted: &Accepted,
    version: LineVersion,
    events: &[Event],
) -> Result<Vec<u8>, RunFault>
    ensures ok { IfOk result (λ octets. IsRun accepted.now version (map event_of events.now) octets.items (items_sent (map event_of events.now))) }
    ensures heard { IfOk result (λ octets. IsReceived accepted.now version octets.items (items_sent (map event_of events.now)) None) }
    ensures fault { IfErr result (λ e. BlamesRun e accepted.now (no_entries version) (map event_of events.now)) }
{
    let mut octets = Vec::new(alloc);
    let mut sender = Sender::new(alloc, accepted, version)?;
    match put_all(&mut sender, events, &mut octets) {
        Ok(()) => Ok(octets),
        Err(fault) => Err(fault),
    }
}
