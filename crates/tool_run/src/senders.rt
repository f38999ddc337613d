//! What is printed of items that the robust sender packs, and of those that a sender refuses.

ghost use Rattle.std.specs.Prelude.{◌≡◌, IfOk, OnOk, string_bytes};
ghost use Rattle.tool_input.specs.OneLine.{IsLine};
ghost use Rattle.tool_run.specs.Senders as senders;
ghost use Rattle.tool_run.specs.Printed as spec;

use crate::packets::{Shape, finish, item_fault, plain_line, push_written, stop_status};
use crate::reach::explain_sent;
use crate::sender::Sender;
use cert_accepted::Accepted;
use sem_filling::Item;
use std::alloc::{AllocError, Global};
use tool_input::status::Answer;
use tool_input::texts::push_line;
use walk_engine::Packed;
use walk_robust::RobustFault;

/// An item that a sender refuses: its number, which counts from 1, the item, and why.
#[derive(Drop)]
pub(crate) struct UnsentItem<'a> {
    pub number: usize,
    pub item: &'a Item,
    pub fault: RobustFault,
}

/// What is printed of each item in the shape, up to the first that is refused, and after the last the sender's own context, where it is wanted.
pub(crate) fn send_all(
    alloc: Global,
    shape: Shape<'_>,
    shows: bool,
    accepted: &Accepted,
    start: Sender,
    items: &[Item],
) -> Result<Answer, AllocError>
    ensures { IfOk result (spec.SendsItems shape.entry shows accepted.now start items.now) }
{
    let mut sender = start;
    let mut output = String::new(alloc);
    for (i, item) in items.iter().enumerate() {
        let refused = send_one(
            alloc,
            shape,
            accepted,
            &mut sender,
            &mut output,
            i + 1,
            item,
        )?;
        if refused {
            return Ok(Answer {
                status: stop_status(shape),
                output,
            });
        }
    }
    finish(alloc, shows, output, sender.context())
}

/// Adds what is printed of an item, whose number counts from 1. The sender goes on to the next. Whether it was refused.
fn send_one(
    alloc: Global,
    shape: Shape<'_>,
    accepted: &Accepted,
    sender: &mut Sender,
    output: &mut String,
    number: usize,
    item: &Item,
) -> Result<bool, AllocError>
    ensures { IfOk result (spec.IsSendStep shape.entry accepted.now sender.old sender.new (string_bytes output.old) (string_bytes output.new) number item.now) }
{
    match sender.send(alloc, accepted, item) {
        Ok(Packed { filling, packed }) => {
            push_written(alloc, shape, accepted, output, number, &packed, &filling)?;
            Ok(false)
        }
        Err(fault) => {
            let unsent = UnsentItem {
                number,
                item,
                fault,
            };
            stop_sent(alloc, shape, accepted, sender, output, unsent)?;
            Ok(true)
        }
    }
}

/// Adds what is said of a refused item.
fn stop_sent(
    alloc: Global,
    shape: Shape<'_>,
    accepted: &Accepted,
    sender: &Sender,
    output: &mut String,
    unsent: UnsentItem<'_>,
) -> Result<(), AllocError>
    requires { senders.Blames unsent.fault accepted.now sender.now unsent.item.now }
    ensures { OnOk result (spec.HasLine (spec.FaultsSent shape.entry accepted.now sender.now unsent.entry.number unsent.entry.item.now) (string_bytes output.old) (string_bytes output.new)) }
{
    match shape {
        Shape::Line => refuse_sent(alloc, accepted, sender, output, unsent),
        Shape::Tree(_) => refuse_sent(alloc, accepted, sender, output, unsent),
        Shape::Why(octets) => explain_sent(alloc, octets, accepted, sender, output, unsent),
    }
}

/// Adds the line of a refused item.
fn refuse_sent(
    alloc: Global,
    accepted: &Accepted,
    sender: &Sender,
    output: &mut String,
    unsent: UnsentItem<'_>,
) -> Result<(), AllocError>
    requires { senders.Blames unsent.fault accepted.now sender.now unsent.item.now }
    ensures { OnOk result (spec.HasLine (senders.RefusesSent accepted.now sender.now unsent.entry.number unsent.entry.item.now) (string_bytes output.old) (string_bytes output.new)) }
{
    let _ = accepted;
    let _ = sender;
    let line = sender_fault(alloc, unsent.number, unsent.fault)?;
    push_line(output, line.as_str())
}

/// The line of an item that a sender refuses.
pub(crate) fn sender_fault(
    alloc: Global,
    number: usize,
    fault: RobustFault,
) -> Result<String, AllocError>
    requires { senders.IsOfItem fault }
    ensures says { IfOk result (λ text. senders.IsSenderFault fault number (string_bytes text)) }
    ensures line { IfOk result (λ text. IsLine (string_bytes text)) }
{
    match fault {
        RobustFault::Pack(fault) => item_fault(alloc, number, fault),
        RobustFault::NoReach => plain_line(alloc, "item ", number, ": F5 NoReach"),
        RobustFault::Contexts => plain_line(alloc, "item ", number, ": F6 Contexts"),
    }
}
