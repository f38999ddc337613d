//! What is answered to `advise`.

ghost use Rattle.std.specs.Prelude.{◌≡◌, IfOk, OnOk, string_bytes};
ghost use Rattle.tool_run.specs.Advise as spec;

use crate::sender::Sender;
use crate::stats::add_refused;
use cert_accepted::Accepted;
use sem_filling::Item;
use std::alloc::{AllocError, Global};
use tool_input::status::{Answer, Status};
use tool_input::texts::push_line;
use tool_items::Trends;
use tool_items::advice::{Advice, advice_of, shared_fields};
use tool_items::advice_objects::advice_objects;
use tool_items::advise::advise_text;
use tool_words::words::Form;

/// What is told of how the fields go on from item to item, where up to so many packets in a row are lost; and a line for each item that is refused. After such an
/// item the sender is as before it.
pub(crate) fn advise_all(
    alloc: Global,
    accepted: &Accepted,
    form: Form,
    lost: u8,
    start: Sender,
    items: &[Item],
) -> Result<Answer, AllocError>
    ensures { IfOk result (spec.AdvisesItems form lost accepted.now start items.now) }
{
    let profile = accepted.profile();
    let mut sender = start;
    let count = shared_fields(profile.methods(), profile.top());
    let mut trends = Trends::new(alloc, count, lost)?;
    let mut refused = String::new(alloc);
    for (i, item) in items.iter().enumerate() {
        trace_one(
            alloc,
            accepted,
            &mut sender,
            &mut trends,
            &mut refused,
            i + 1,
            item,
        )?;
    }
    print_advice(alloc, accepted, form, &trends, refused.as_str())
}

/// Packs an item, whose number counts from 1. Its filling is added to the trends, and the sender goes on to the next; or its line is added to those of the refused.
fn trace_one(
    alloc: Global,
    accepted: &Accepted,
    sender: &mut Sender,
    trends: &mut Trends,
    refused: &mut String,
    number: usize,
    item: &Item,
) -> Result<(), AllocError>
    ensures { OnOk result (spec.TracesItem accepted.now sender.old sender.new trends.old trends.new (string_bytes refused.old) (string_bytes refused.new) number item.now) }
{
    match sender.send(alloc, accepted, item) {
        Ok(sent) => trends.add(alloc, &sent.filling),
        Err(fault) => add_refused(alloc, refused, number, fault),
    }
}

/// What is told, and the lines of the refused below.
fn print_advice(
    alloc: Global,
    accepted: &Accepted,
    form: Form,
    trends: &Trends,
    refused: &str,
) -> Result<Answer, AllocError>
    ensures { IfOk result (spec.IsPrintedAdvice form trends.now refused.now) }
{
    let profile = accepted.profile();
    let advice = advice_of(alloc, profile.methods(), profile.top(), trends)?;
    let mut output = advice_in(alloc, form, &advice)?;
    push_line(&mut output, refused)?;
    Ok(Answer {
        status: Status::Done,
        output,
    })
}

/// What is told, in its form.
fn advice_in(alloc: Global, form: Form, advice: &Advice<'_>) -> Result<String, AllocError>
    ensures { IfOk result (λ text. spec.IsAdvice form advice.now (string_bytes text)) }
{
    match form {
        Form::Text => advise_text(alloc, advice),
        Form::Json => advice_objects(alloc, advice),
    }
}
