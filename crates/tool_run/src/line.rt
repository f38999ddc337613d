//! What is answered to `line`.

ghost use Rattle.std.specs.Prelude.{◌≡◌, ◌++◌, IfOk, OnOk, codes, decimal, map, string_bytes};
ghost use Rattle.walk_line.specs.Laws.{items_sent};
ghost use Rattle.walk_line.specs.Runs.{event_of};
ghost use Rattle.tool_run.specs.Line as spec;
ghost use Rattle.tool_input.specs.OneLine.{IsLine};

use crate::events::read_events;
use crate::packets::{asked_line, plain_line};
use crate::way::{Task, answer_by};
use cert_accepted::Accepted;
use itoa::Buffer;
use sem_filling::Item;
use std::alloc::{AllocError, Global};
use tool_input::bundle::Parts;
use tool_input::inputs::BadLine;
use tool_input::octets::read_octets;
use tool_input::refusals::refusal;
use tool_input::status::{Answer, Status};
use tool_input::texts::{push_item_text, push_line};
use tool_words::words::{End, Order};
use walk_engine::PackFault;
use walk_line::{Event, Flow, LineFault, LineVersion, Receiver, RunFault, run};

/// How many octets of a line are heard at once, at most.
const PIECE: usize = 4_096;

/// The answer to `line`: at the sending end the octets of the events and the items that a receiver gives of them, at the receiving end the items of
/// the octets; or the line of the first fault.
pub(crate) fn answer_line(
    alloc: Global,
    end: End,
    order: &Order<'_>,
    profile: &[u8],
    parts: &Parts<'_>,
) -> Result<Answer, AllocError>
    ensures { IfOk result (spec.AnswersLine end order.now profile.now parts.now) }
{
    match end {
        End::Sending => match parts.events {
            Some(events) => answer_by(
                alloc,
                Task::Line(End::Sending),
                order,
                profile,
                parts,
                events,
            ),
            None => refusal(alloc, "bundle: I4 bad part events"),
        },
        End::Receiving => match parts.octets {
            Some(octets) => answer_by(
                alloc,
                Task::Line(End::Receiving),
                order,
                profile,
                parts,
                octets,
            ),
            None => refusal(alloc, "bundle: I4 bad part octets"),
        },
    }
}

/// The version of a line: the second, where the wide line is asked for.
pub(crate) fn line_version(wide: bool) -> LineVersion
    ensures { result ≡ spec.line_version wide }
{
    if wide {
        LineVersion::Two
    } else {
        LineVersion::One
    }
}

/// The answer at an end of a line of a version, by an accepted profile.
pub(crate) fn answer_end(
    alloc: Global,
    end: End,
    version: LineVersion,
    accepted: &Accepted,
    input: &[u8],
) -> Result<Answer, AllocError>
    ensures { IfOk result (spec.AnswersEnd end version accepted.now input.now) }
{
    match end {
        End::Sending => answer_events(alloc, version, accepted, input),
        End::Receiving => answer_octets(alloc, version, accepted, input),
    }
}

// ---- the sending end

/// The answer to the octets of events.
fn answer_events(
    alloc: Global,
    version: LineVersion,
    accepted: &Accepted,
    input: &[u8],
) -> Result<Answer, AllocError>
    ensures { IfOk result (spec.AnswersEnd End.Sending version accepted.now input.now) }
{
    match read_events(alloc, input) {
        Ok(events) => send_all(alloc, version, accepted, events.as_slice()),
        Err(BadLine::Number(number)) => {
            let line = bad_event_line(alloc, number)?;
            refusal(alloc, line.as_str())
        }
        Err(BadLine::OutOfMemory) => Err(AllocError),
    }
}

/// The line of events that can't be read.
pub(crate) fn bad_event_line(alloc: Global, number: usize) -> Result<String, AllocError>
    ensures { IfOk result (λ text. string_bytes text ≡ spec.bad_event_text number) }
{
    format!(in alloc; "events:{number}: I3 bad event")
}

/// The octets of all events in hex and the items, or the line of the first event that is refused.
fn send_all(
    alloc: Global,
    version: LineVersion,
    accepted: &Accepted,
    events: &[Event],
) -> Result<Answer, AllocError>
    ensures { IfOk result (spec.AnswersSent version accepted.now events.now) }
{
    match run(alloc, accepted, version, events) {
        Ok(octets) => print_sent(alloc, octets.as_slice(), events),
        Err(RunFault::Refused(index, fault)) => {
            let line = event_fault(alloc, index + 1, fault)?;
            refusal(alloc, line.as_str())
        }
        Err(RunFault::OutOfMemory) => Err(AllocError),
    }
}

/// The octets in hex, and a line for each item that was sent.
pub(crate) fn print_sent(
    alloc: Global,
    octets: &[u8],
    events: &[Event],
) -> Result<Answer, AllocError>
    ensures { IfOk result (spec.IsSentPrinted octets.now (items_sent (map event_of events.now))) }
{
    let mut output = hex::encode(alloc, octets)?;
    output.push('\n')?;
    push_sent(alloc, &mut output, events)?;
    Ok(Answer {
        status: Status::Done,
        output,
    })
}

/// A line for each item that was sent.
fn push_sent(alloc: Global, output: &mut String, events: &[Event]) -> Result<(), AllocError>
    ensures { OnOk result (spec.IsPushed (items_sent (map event_of events.now)) (string_bytes output.old) (string_bytes output.new)) }
{
    for event in events {
        match event {
            Event::Send(flow, item) => push_item(alloc, output, *flow, item)?,
            Event::Reset(_flow) => {}
        }
    }
    Ok(())
}

/// The line of a refused event.
pub(crate) fn event_fault(
    alloc: Global,
    number: usize,
    fault: PackFault,
) -> Result<String, AllocError>
    ensures says { IfOk result (λ text. spec.IsEventFault fault number (string_bytes text)) }
    ensures line { IfOk result (λ text. IsLine (string_bytes text)) }
{
    match fault {
        PackFault::HeaderLength => plain_line(alloc, "event ", number, ": F1 HeaderLength"),
        PackFault::Asked(name) => {
            name.keeps();
            asked_line(alloc, "event ", number, name.as_str())
        }
        PackFault::NoFormat => plain_line(alloc, "event ", number, ": F3 NoFormat"),
        PackFault::Flow => plain_line(alloc, "event ", number, ": F4 Flow"),
        PackFault::OutOfMemory => Err(AllocError),
    }
}

// ---- the receiving end

/// The answer to the octets of hex digits.
fn answer_octets(
    alloc: Global,
    version: LineVersion,
    accepted: &Accepted,
    input: &[u8],
) -> Result<Answer, AllocError>
    ensures { IfOk result (spec.AnswersEnd End.Receiving version accepted.now input.now) }
{
    match read_octets(alloc, input)? {
        Some(octets) => receive_all(alloc, version, accepted, octets.as_slice()),
        None => refusal(alloc, "octets: I5 bad hex"),
    }
}

/// The items of octets, and then the line of the fault, if one comes.
fn receive_all(
    alloc: Global,
    version: LineVersion,
    accepted: &Accepted,
    octets: &[u8],
) -> Result<Answer, AllocError>
    ensures { IfOk result (spec.AnswersReceived version accepted.now octets.now) }
{
    let mut output = String::new(alloc);
    let fault = push_heard(alloc, version, accepted, octets, &mut output)?;
    match fault {
        Some(fault) => refused_by(output, fault),
        None => Ok(Answer {
            status: Status::Done,
            output,
        }),
    }
}

/// Adds a line for each item of the octets of a new line. They are heard piece by piece, so that no more items are kept than one piece gives. The fault, if one
/// comes.
fn push_heard(
    alloc: Global,
    version: LineVersion,
    accepted: &Accepted,
    octets: &[u8],
    output: &mut String,
) -> Result<Option<LineFault>, AllocError>
    ensures { IfOk result (spec.IsHeardOut version accepted.now octets.now (string_bytes output.old) (string_bytes output.new)) }
{
    let mut receiver = Receiver::new(alloc, accepted, version)?;
    let mut place = 0;
    while place < octets.len() {
        let count = (octets.len() - place).min(PIECE);
        let piece = &octets[place..place + count];
        match push_piece(alloc, &mut receiver, piece, output)? {
            Some(fault) => return Ok(Some(fault)),
            None => place += count,
        }
    }
    match receiver.finish() {
        Ok(()) => Ok(None),
        Err(fault) => Ok(Some(fault)),
    }
}

/// Adds a line for each item that the next octets give. The fault, if one comes.
fn push_piece(
    alloc: Global,
    receiver: &mut Receiver<'_>,
    piece: &[u8],
    output: &mut String,
) -> Result<Option<LineFault>, AllocError>
    ensures { IfOk result (spec.HearsPiece receiver.old receiver.new piece.now (string_bytes output.old) (string_bytes output.new)) }
{
    let mut items = Vec::new(alloc);
    let heard = receiver.feed(piece, &mut items);
    push_items(alloc, output, items.as_slice())?;
    match heard {
        Ok(()) => Ok(None),
        Err(fault) => match fault {
            LineFault::OutOfMemory => Err(AllocError),
            _ => Ok(Some(fault)),
        },
    }
}

/// The lines so far, and that of a fault.
fn refused_by(output: String, fault: LineFault) -> Result<Answer, AllocError>
    ensures { IfOk result (spec.IsRefusedBy (string_bytes output) fault) }
{
    let mut output = output;
    let line = match fault {
        LineFault::FlowOctet => "line: L1 bad flow octet",
        LineFault::RefusedPacket => "line: L2 refused packet",
        LineFault::Padding => "line: L3 padding not zero",
        LineFault::Ended => "line: L4 ended inside a packet",
        LineFault::OutOfMemory => return Err(AllocError),
    };
    push_line(&mut output, line)?;
    Ok(Answer {
        status: Status::Refused,
        output,
    })
}

// ---- items

/// A line for each item: its flow, a blank and its text.
fn push_items(alloc: Global, output: &mut String, items: &[(Flow, Item)]) -> Result<(), AllocError>
    ensures { OnOk result (spec.IsPushed items.now (string_bytes output.old) (string_bytes output.new)) }
{
    for (flow, item) in items {
        push_item(alloc, output, *flow, item)?;
    }
    Ok(())
}

pub(crate) fn push_item(
    alloc: Global,
    output: &mut String,
    flow: Flow,
    item: &Item,
) -> Result<(), AllocError>
    ensures { OnOk result (spec.IsItemPushed flow item.now (string_bytes output.old) (string_bytes output.new)) }
{
    let mut buffer = Buffer::new();
    output.push_str(buffer.format(flow.number()))?;
    output.push(' ')?;
    push_item_text(alloc, output, item)?;
    output.push('\n')
}
