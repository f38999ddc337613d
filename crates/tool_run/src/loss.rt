//! What is answered to `loss`.

ghost use Rattle.std.specs.Prelude.{◌≡◌, IfOk, OnOk, string_bytes};
ghost use Rattle.tool_run.specs.Senders as senders;
ghost use Rattle.tool_run.specs.Loss as spec;

use crate::sender::Sender;
use crate::senders::sender_fault;
use cert_accepted::Accepted;
use sem_context::Context;
use sem_filling::Item;
use sqlite_items::Items;
use std::alloc::{AllocError, Global};
use tool_input::refusals::refusal;
use tool_input::status::{Answer, Status};
use tool_items::Tally;
use tool_loss::loss::loss_text;
use tool_loss::loss_objects::loss_objects;
use tool_words::words::Form;
use walk_loss::{Journal, judge};
use walk_robust::RobustFault;

/// Items that are sent where packets may be lost: their sender, the contexts in which a receiver may be before the next packet, what is counted of the packets so
/// far, and what receivers read of them.
#[derive(Drop)]
struct LossRun {
    sender: Sender,
    held: Items<Context>,
    tally: Tally,
    journal: Journal,
}

/// What receivers read of the packets of items where up to so many packets are lost, or the line of the first item that is refused.
pub(crate) fn lose_all(
    alloc: Global,
    accepted: &Accepted,
    form: Form,
    most: u8,
    start: Sender,
    items: &[Item],
) -> Result<Answer, AllocError>
    ensures { IfOk result (spec.LosesItems form most accepted.now start items.now) }
{
    let mut held = Items::new(alloc);
    held.push(start.context().copy(alloc)?)?;
    let tally = Tally::none();
    let journal = Journal::new(alloc);
    let mut run = LossRun {
        sender: start,
        held,
        tally,
        journal,
    };
    for (i, item) in items.iter().enumerate() {
        let refused = lose_one(alloc, accepted, most, &mut run, i + 1, item)?;
        if let Some(fault) = refused {
            return refuse(alloc, i + 1, fault);
        }
    }
    print_losses(alloc, accepted, form, most, run.tally, &run.journal)
}

/// The line of a refused item.
fn refuse(alloc: Global, number: usize, fault: RobustFault) -> Result<Answer, AllocError>
    requires { senders.IsOfItem fault }
    ensures { IfOk result (spec.IsRefusedLoss fault number) }
{
    let line = sender_fault(alloc, number, fault)?;
    refusal(alloc, line.as_str())
}

/// Packs an item, whose number counts from 1, adds what is counted of its packet and what receivers in the held contexts read of it, and holds the sender's context
/// after it. Or gives the fault.
fn lose_one(
    alloc: Global,
    accepted: &Accepted,
    most: u8,
    run: &mut LossRun,
    number: usize,
    item: &Item,
) -> Result<Option<RobustFault>, AllocError>
    ensures { IfOk result (spec.IsLossStep accepted.now most run.old run.new number item.now) }
{
    match run.sender.send(alloc, accepted, item) {
        Ok(sent) => {
            judge(
                alloc,
                accepted,
                run.held.as_slice(),
                number,
                item,
                &sent,
                &mut run.journal,
            )?;
            run.tally = run.tally.with(&sent.filling)?;
            hold(alloc, most, &mut run.held, number, run.sender.context())?;
            Ok(None)
        }
        Err(fault) => Ok(Some(fault)),
    }
}

/// Holds a context of the sender. Before the first packet a receiver has read nothing, so that context goes; and where there are more than one for each number of lost
/// packets, the oldest goes.
fn hold(
    alloc: Global,
    most: u8,
    held: &mut Items<Context>,
    number: usize,
    newest: &Context,
) -> Result<(), AllocError>
    ensures { OnOk result (held.new ≡ spec.held_after most number held.old newest.now) }
{
    let context = newest.copy(alloc)?;
    if number == 1 {
        *held = Items::new(alloc);
    }
    held.push(context)?;
    if held.len() > most as usize + 1 {
        held.remove(0);
    }
    Ok(())
}

/// What is told of the packets.
fn print_losses(
    alloc: Global,
    accepted: &Accepted,
    form: Form,
    most: u8,
    tally: Tally,
    journal: &Journal,
) -> Result<Answer, AllocError>
    ensures { IfOk result (spec.IsPrintedLoss form accepted.now most tally journal.now) }
{
    let mut output = losses_in(alloc, accepted, form, most, tally, journal)?;
    output.push('\n')?;
    Ok(Answer {
        status: Status::Done,
        output,
    })
}

/// The same in its form.
fn losses_in(
    alloc: Global,
    accepted: &Accepted,
    form: Form,
    most: u8,
    tally: Tally,
    journal: &Journal,
) -> Result<String, AllocError>
    ensures { IfOk result (λ text. string_bytes text ≡ spec.losses_in form accepted.now most tally journal.now) }
{
    let profile = accepted.profile();
    let (methods, top) = (profile.methods(), profile.top());
    let readings = journal.readings.as_slice();
    let cases = journal.cases.as_slice();
    match form {
        Form::Text => loss_text(alloc, methods, top, most, tally, readings, cases),
        Form::Json => loss_objects(alloc, methods, top, most, tally, readings, cases),
    }
}
