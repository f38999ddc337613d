//! Why a sender refuses an item.

ghost use Rattle.std.specs.Prelude.{◌≡◌, ◌++◌, IfOk, OnOk, codes, decimal, string_bytes};
ghost use Rattle.tool_run.specs.Senders as senders;
ghost use Rattle.tool_run.specs.Printed as spec;

use crate::packets::{RefusedItem, plain_line};
use crate::reasons::explain_item;
use crate::sender::Sender;
use crate::senders::UnsentItem;
use cert_accepted::Accepted;
use sem_filling::Item;
use std::alloc::{AllocError, Global};
use tool_input::texts::push_line;
use tool_loss::reach::push_lacks;
use walk_robust::RobustFault;

/// Adds the line of an item that the sender refuses, and then what stands against each format: in the sender's own context where none fits there, else in all that a
/// receiver may hold.
pub(crate) fn explain_sent(
    alloc: Global,
    octets: &[u8],
    accepted: &Accepted,
    sender: &Sender,
    output: &mut String,
    unsent: UnsentItem<'_>,
) -> Result<(), AllocError>
    requires { senders.Blames unsent.fault accepted.now sender.now unsent.item.now }
    ensures { OnOk result (spec.HasLine (spec.ExplainsSent octets.now accepted.now sender.now unsent.entry.number unsent.entry.item.now) (string_bytes output.old) (string_bytes output.new)) }
{
    let UnsentItem {
        number,
        item,
        fault,
    } = unsent;
    match fault {
        RobustFault::Pack(fault) => {
            let own = sender.context();
            let refused = RefusedItem {
                number,
                item,
                fault,
            };
            explain_item(alloc, octets, accepted, own, output, refused)
        }
        RobustFault::NoReach => explain_reach(
            alloc, octets, accepted, sender, output, number, item,
        ),
        RobustFault::Contexts => {
            let line = plain_line(alloc, "item ", number, ": F6 Contexts")?;
            push_line(output, line.as_str())
        }
    }
}

/// The same of an item that can't be packed for all that a receiver may hold.
fn explain_reach(
    alloc: Global,
    octets: &[u8],
    accepted: &Accepted,
    sender: &Sender,
    output: &mut String,
    number: usize,
    item: &Item,
) -> Result<(), AllocError>
    requires { senders.Blames RobustFault.NoReach accepted.now sender.now item.now }
    ensures { OnOk result (spec.HasLine (spec.LacksReach octets.now accepted.now sender.now number item.now) (string_bytes output.old) (string_bytes output.new)) }
{
    let lacks = sender.lacks(alloc, accepted, item)?;
    let profile = accepted.profile();
    let mut text = plain_line(alloc, "item ", number, ": F5 NoReach")?;
    push_lacks(
        alloc,
        &mut text,
        octets,
        profile.methods(),
        profile.top(),
        lacks.as_slice(),
    )?;
    push_line(output, text.as_str())
}
