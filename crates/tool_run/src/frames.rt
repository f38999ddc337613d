//! What is answered to `line --frames`.

ghost use Rattle.std.specs.Prelude.{◌≡◌, ◌++◌, ◌∷◌, [], IfOk, OnOk, codes, decimal, map, string_bytes};
ghost use Rattle.tool_input.specs.OneLine.{IsLine};
ghost use Rattle.tool_run.specs.Frames as spec;

use crate::events::read_events;
use crate::line::{bad_event_line, event_fault, print_sent, push_item};
use crate::packets::plain_line;
use crate::way::{Task, answer_by};
use cert_accepted::Accepted;
use itoa::Buffer;
use sem_profile::Method;
use std::alloc::{AllocError, Global};
use tool_input::bundle::Parts;
use tool_input::inputs::BadLine;
use tool_input::octets::read_octets;
use tool_input::refusals::refusal;
use tool_input::status::{Answer, Status};
use tool_input::texts::push_line;
use tool_names::names::{format_name, method_name};
use tool_words::words::{End, Order};
use walk_frames::{FrameFault, Given, PacketRefusal, Receiver, RunFault, run};
use walk_line::{Event, Flow};
use walk_read::Blamed;
use walk_robust::RobustFault;

/// How many octets of a line are heard at once, at most.
const PIECE: usize = 4_096;

/// The answer to `line --frames`: at the sending end the octets of the events, by senders of which so many frames of a flow in a row may be lost, and the items that
/// are sent; at the receiving end what each frame gives; or the line of the first fault.
pub(crate) fn answer_frames(
    alloc: Global,
    end: End,
    lost: u8,
    order: &Order<'_>,
    profile: &[u8],
    parts: &Parts<'_>,
) -> Result<Answer, AllocError>
    ensures { IfOk result (spec.AnswersFrames end lost order.now profile.now parts.now) }
{
    match end {
        End::Sending => match parts.events {
            Some(events) => {
                let task = Task::Frames(End::Sending, lost);
                answer_by(alloc, task, order, profile, parts, events)
            }
            None => refusal(alloc, "bundle: I4 bad part events"),
        },
        End::Receiving => match parts.octets {
            Some(octets) => {
                let task = Task::Frames(End::Receiving, lost);
                answer_by(alloc, task, order, profile, parts, octets)
            }
            None => refusal(alloc, "bundle: I4 bad part octets"),
        },
    }
}

/// The answer at an end, by an accepted profile.
pub(crate) fn answer_end(
    alloc: Global,
    end: End,
    lost: u8,
    accepted: &Accepted,
    input: &[u8],
) -> Result<Answer, AllocError>
    ensures { IfOk result (spec.AnswersEnd end lost accepted.now input.now) }
{
    match end {
        End::Sending => answer_events(alloc, lost, accepted, input),
        End::Receiving => answer_octets(alloc, lost, accepted, input),
    }
}

// ---- the sending end

/// The answer to the octets of events.
fn answer_events(
    alloc: Global,
    lost: u8,
    accepted: &Accepted,
    input: &[u8],
) -> Result<Answer, AllocError>
    ensures { IfOk result (spec.AnswersEnd End.Sending lost accepted.now input.now) }
{
    match read_events(alloc, input) {
        Ok(events) => send_all(alloc, lost, accepted, events.as_slice()),
        Err(BadLine::Number(number)) => {
            let line = bad_event_line(alloc, number)?;
            refusal(alloc, line.as_str())
        }
        Err(BadLine::OutOfMemory) => Err(AllocError),
    }
}

/// The octets of all events in hex and the items, or the line of the first event that is refused.
fn send_all(
    alloc: Global,
    lost: u8,
    accepted: &Accepted,
    events: &[Event],
) -> Result<Answer, AllocError>
    ensures { IfOk result (spec.AnswersSent lost accepted.now events.now) }
{
    match run(alloc, accepted, lost, events) {
        Ok(octets) => print_sent(alloc, octets.as_slice(), events),
        Err(RunFault::Refused(index, fault)) => {
            let line = frame_fault(alloc, index + 1, fault)?;
            refusal(alloc, line.as_str())
        }
        Err(RunFault::OutOfMemory) => Err(AllocError),
    }
}

/// The line of an event that the robust sender refuses.
fn frame_fault(alloc: Global, number: usize, fault: RobustFault) -> Result<String, AllocError>
    ensures says { IfOk result (λ text. spec.IsFrameFault fault number (string_bytes text)) }
    ensures line { IfOk result (λ text. IsLine (string_bytes text)) }
{
    match fault {
        RobustFault::Pack(fault) => event_fault(alloc, number, fault),
        RobustFault::NoReach => plain_line(alloc, "event ", number, ": F5 NoReach"),
        RobustFault::Contexts => plain_line(alloc, "event ", number, ": F6 Contexts"),
    }
}

// ---- the receiving end

/// The answer to the octets of hex digits.
fn answer_octets(
    alloc: Global,
    lost: u8,
    accepted: &Accepted,
    input: &[u8],
) -> Result<Answer, AllocError>
    ensures { IfOk result (spec.AnswersEnd End.Receiving lost accepted.now input.now) }
{
    let _ = lost;
    match read_octets(alloc, input)? {
        Some(octets) => receive_all(alloc, accepted, octets.as_slice()),
        None => refusal(alloc, "octets: I5 bad hex"),
    }
}

/// What the frames of octets give, and then the line of the fault, if one comes.
fn receive_all(alloc: Global, accepted: &Accepted, octets: &[u8]) -> Result<Answer, AllocError>
    ensures { IfOk result (spec.AnswersReceived accepted.now octets.now) }
{
    let mut output = String::new(alloc);
    let fault = push_heard(alloc, accepted, octets, &mut output)?;
    match fault {
        Some(fault) => refused_by(output, fault),
        None => Ok(Answer {
            status: Status::Done,
            output,
        }),
    }
}

/// Adds a line for each packet of the octets of a new line. They are heard piece by piece, so that no more is kept than one piece gives. The fault, if one comes.
fn push_heard(
    alloc: Global,
    accepted: &Accepted,
    octets: &[u8],
    output: &mut String,
) -> Result<Option<FrameFault>, AllocError>
    ensures { IfOk result (spec.IsHeardOut accepted.now octets.now (string_bytes output.old) (string_bytes output.new)) }
{
    let mut receiver = Receiver::new(alloc, accepted)?;
    let mut place = 0;
    while place < octets.len() {
        let count = (octets.len() - place).min(PIECE);
        let piece = &octets[place..place + count];
        match push_piece(alloc, accepted, &mut receiver, piece, output)? {
            Some(fault) => return Ok(Some(fault)),
            None => place += count,
        }
    }
    match receiver.finish() {
        Ok(()) => Ok(None),
        Err(fault) => Ok(Some(fault)),
    }
}

/// Adds a line for each packet that the next octets give. The fault, if one comes.
fn push_piece(
    alloc: Global,
    accepted: &Accepted,
    receiver: &mut Receiver<'_>,
    piece: &[u8],
    output: &mut String,
) -> Result<Option<FrameFault>, AllocError>
    ensures { IfOk result (spec.HearsPiece accepted.now.profile.methods receiver.old receiver.new piece.now (string_bytes output.old) (string_bytes output.new)) }
{
    let mut found = Vec::new(alloc);
    let heard = receiver.feed(piece, &mut found);
    push_all(
        alloc,
        accepted.profile().methods(),
        output,
        found.as_slice(),
    )?;
    match heard {
        Ok(()) => Ok(None),
        Err(fault) => match fault {
            FrameFault::OutOfMemory => Err(AllocError),
            _ => Ok(Some(fault)),
        },
    }
}

/// The lines so far, and that of a fault.
fn refused_by(output: String, fault: FrameFault) -> Result<Answer, AllocError>
    ensures { IfOk result (spec.IsRefusedBy (string_bytes output) fault) }
{
    let mut output = output;
    let line = match fault {
        FrameFault::FlowOctet => "line: L1 bad flow octet",
        FrameFault::Ended => "line: L4 ended inside a packet",
        FrameFault::OutOfMemory => return Err(AllocError),
    };
    push_line(&mut output, line)?;
    Ok(Answer {
        status: Status::Refused,
        output,
    })
}

// ---- what is given

/// A line for each of these: its flow, a blank, and its item's text or why it is refused.
fn push_all(
    alloc: Global,
    methods: &[Method],
    output: &mut String,
    found: &[(Flow, Given)],
) -> Result<(), AllocError>
    ensures { OnOk result (spec.IsPushed methods.now found.now (string_bytes output.old) (string_bytes output.new)) }
{
    for (flow, given) in found {
        push_given(alloc, methods, output, *flow, given)?;
    }
    Ok(())
}

fn push_given(
    alloc: Global,
    methods: &[Method],
    output: &mut String,
    flow: Flow,
    given: &Given,
) -> Result<(), AllocError>
    ensures { OnOk result (spec.IsGivenPushed methods.now flow given.now (string_bytes output.old) (string_bytes output.new)) }
{
    match given {
        Given::Item(item) => push_item(alloc, output, flow, item),
        Given::Refused(why) => push_refusal(alloc, methods, output, flow, *why),
    }
}

fn push_refusal(
    alloc: Global,
    methods: &[Method],
    output: &mut String,
    flow: Flow,
    why: PacketRefusal,
) -> Result<(), AllocError>
    ensures { OnOk result (string_bytes output.new ≡ string_bytes output.old ++ decimal flow ++ codes " " ++ spec.refusal_words methods.now why ++ 10 ∷ []) }
{
    let words = refusal_words(alloc, methods, why)?;
    let mut buffer = Buffer::new();
    output.push_str(buffer.format(flow.number()))?;
    output.push(' ')?;
    output.push_str(words.as_str())?;
    output.push('\n')
}

/// The words of a packet that is refused.
fn refusal_words(
    alloc: Global,
    methods: &[Method],
    why: PacketRefusal,
) -> Result<String, AllocError>
    ensures { IfOk result (λ text. string_bytes text ≡ spec.refusal_words methods.now why) }
{
    match why {
        PacketRefusal::Truncated => String::from_str(alloc, "refused U1 Truncated"),
        PacketRefusal::Refused(blamed) => blamed_words(alloc, methods, blamed),
        PacketRefusal::Padding => String::from_str(alloc, "refused padding"),
        PacketRefusal::Length => String::from_str(alloc, "refused length"),
    }
}

fn blamed_words(alloc: Global, methods: &[Method], blamed: Blamed) -> Result<String, AllocError>
    ensures { IfOk result (λ text. string_bytes text ≡ spec.blamed_words methods.now blamed) }
{
    let method = method_name(methods, blamed.method);
    match blamed.format {
        Some(format) => {
            let format = pointed(alloc, format_name(methods, blamed.method, format))?;
            refused_words(alloc, method, format.as_str())
        }
        None => refused_words(alloc, method, ""),
    }
}

fn pointed(alloc: Global, format: &str) -> Result<String, AllocError>
    ensures { IfOk result (λ text. string_bytes text ≡ codes "." ++ format.now) }
{
    format!(in alloc; ".{format}")
}

fn refused_words(alloc: Global, method: &str, format: &str) -> Result<String, AllocError>
    ensures { IfOk result (λ text. string_bytes text ≡ codes "refused U2 Refused " ++ method.now ++ format.now) }
{
    format!(in alloc; "refused U2 Refused {method}{format}")
}
