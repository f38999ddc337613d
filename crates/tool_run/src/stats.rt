//! What is answered to `stats`, and by what to `loss`, `pack --robust` and `why --robust`.

ghost use Rattle.std.specs.Prelude.{◌≡◌, ◌++◌, List, true, IfOk, OnOk, string_bytes};
ghost use Rattle.sem_filling.specs.declared.filling.Filling.{Filling};
ghost use Rattle.tool_items.specs.Sums.{AreSums};
ghost use Rattle.tool_run.specs.Senders as senders;
ghost use Rattle.tool_run.specs.Printed as spec;
ghost use Rattle.tool_words.specs.declared.words.Form.TheVariants as form_is;

use crate::advise::advise_all;
use crate::answers::bad_line;
use crate::avoidance::avoid_all;
use crate::loss::lose_all;
use crate::packets::Shape;
use crate::sender::Sender;
use crate::senders::{send_all, sender_fault};
use crate::way::{InputTask, Task, answer_by};
use cert_accepted::Accepted;
use sem_context::Context;
use sem_filling::Item;
use sem_profile::Method;
use std::alloc::{AllocError, Global};
use tool_input::bundle::Parts;
use tool_input::inputs::{BadLine, read_items};
use tool_input::refusals::refusal;
use tool_input::status::{Answer, Status};
use tool_input::texts::push_line;
use tool_items::stats::stats_text;
use tool_items::stats_objects::{push_item, stats_objects};
use tool_items::{Sums, Tally};
use tool_names::names::format_name;
use tool_words::words::{Counting, Direction, Form, Order};
use walk_engine::Packed;
use walk_robust::RobustFault;

/// What is told of items that are packed.
#[derive(Clone, Copy)]
pub(crate) enum Survey<'a> {
    /// How many there are, and how many bits they take.
    Stats(Counting),
    /// What receivers read of them where up to so many packets are lost.
    Loss(Form, u8),
    /// What is printed of each in that shape, and the last context where it is wanted, of packets that survive losses of up to so many in a row.
    RobustPack(Shape<'a>, bool, u8),
    /// How many such packets there are, and how many bits they take.
    RobustStats(u8, Counting),
    /// What receivers read of them where up to so many are lost, the first number, and as many as the second says do no harm.
    RobustLoss(Form, u8, u8),
    /// What the fields are like, and which `lsb` takes their steps where up to so many packets are lost.
    Advise(Form, u8),
    /// What stands against the format of that name, by these octets of the profile, for those that are packed by others.
    Avoid(&'a [u8], &'a str),
}

/// The answer to `stats`, `loss`, `pack --robust` or `why --robust`, by the octets of a profile and the items among the parts: what is counted of the packets, and a line for each item that is refused; or the
/// line of another fault.
pub(crate) fn answer_stats(
    alloc: Global,
    what: Survey<'_>,
    order: &Order<'_>,
    profile: &[u8],
    parts: &Parts<'_>,
) -> Result<Answer, AllocError>
    ensures { IfOk result (spec.AnswersStats what.entry order.now profile.now parts.now) }
{
    match parts.items {
        Some(items) => {
            let task = Task::Inputs(InputTask::Survey(what));
            answer_by(alloc, task, order, profile, parts, items)
        }
        None => refusal(alloc, "bundle: I4 bad part items"),
    }
}

/// The answer in a context, by the octets of items.
pub(crate) fn stats_in(
    alloc: Global,
    what: Survey<'_>,
    accepted: &Accepted,
    context: Context,
    input: &[u8],
) -> Result<Answer, AllocError>
    ensures { IfOk result (spec.AnswersStatsIn what.entry accepted.now context input.now) }
{
    match read_items(alloc, input) {
        Ok(items) => tell_all(alloc, what, accepted, context, items.as_slice()),
        Err(BadLine::Number(number)) => {
            let line = bad_line(alloc, Direction::Pack, number)?;
            refusal(alloc, line.as_str())
        }
        Err(BadLine::OutOfMemory) => Err(AllocError),
    }
}

/// What is told of the packets of items.
fn tell_all(
    alloc: Global,
    what: Survey<'_>,
    accepted: &Accepted,
    context: Context,
    items: &[Item],
) -> Result<Answer, AllocError>
    ensures { IfOk result (spec.Surveys what.entry accepted.now context items.now) }
{
    match what {
        Survey::Stats(counting) => {
            count_all(alloc, accepted, counting, Sender::Plain(context), items)
        }
        Survey::Loss(form, most) => {
            let sender = Sender::Plain(context);
            lose_all(alloc, accepted, form, most, sender, items)
        }
        Survey::RobustPack(shape, shows, lost) => {
            let sender = Sender::surviving(alloc, &context, lost)?;
            send_all(alloc, shape, shows, accepted, sender, items)
        }
        Survey::RobustStats(lost, counting) => {
            let sender = Sender::surviving(alloc, &context, lost)?;
            count_all(alloc, accepted, counting, sender, items)
        }
        Survey::Advise(form, lost) => {
            let sender = Sender::Plain(context);
            advise_all(alloc, accepted, form, lost, sender, items)
        }
        Survey::Avoid(octets, name) => { avoid_all(alloc, octets, name, accepted, context, items) }
        Survey::RobustLoss(form, most, lost) => {
            let sender = Sender::surviving(alloc, &context, lost)?;
            lose_all(alloc, accepted, form, most, sender, items)
        }
    }
}

/// What is told of the items so far: the sums over their fillings, a row for each where that is wanted, and the lines of the refused, each after a line feed.
#[derive(Drop)]
pub(crate) struct Statistics {
    pub(crate) sums: Sums,
    pub(crate) rows: String,
    pub(crate) refused: String,
}

/// What is counted of the packets of items, and a line for each item that is refused. After such an item the sender is as before it.
fn count_all(
    alloc: Global,
    accepted: &Accepted,
    counting: Counting,
    start: Sender,
    items: &[Item],
) -> Result<Answer, AllocError>
    ensures { IfOk result (spec.CountsItems accepted.now counting start items.now) }
{
    let mut sender = start;
    let mut told = Statistics {
        sums: Sums::new(alloc),
        rows: String::new(alloc),
        refused: String::new(alloc),
    };
    for (i, item) in items.iter().enumerate() {
        count_one(
            alloc,
            accepted,
            counting,
            &mut sender,
            &mut told,
            i + 1,
            item,
        )?;
    }
    print_counts(alloc, accepted, counting, &told)
}

/// Packs an item, whose number counts from 1. What is counted of its packet is added, and the sender goes on to the next; or its line is added to those of the
/// refused.
fn count_one(
    alloc: Global,
    accepted: &Accepted,
    counting: Counting,
    sender: &mut Sender,
    told: &mut Statistics,
    number: usize,
    item: &Item,
) -> Result<(), AllocError>
    ensures { OnOk result (spec.CountsItem accepted.now counting sender.old sender.new told.old told.new number item.now) }
{
    match sender.send(alloc, accepted, item) {
        Ok(sent) => add_packed(alloc, accepted, counting, told, number, &sent),
        Err(fault) => add_refused(alloc, &mut told.refused, number, fault),
    }
}

/// Adds what is counted of a packet, and its row where that is wanted.
fn add_packed(
    alloc: Global,
    accepted: &Accepted,
    counting: Counting,
    told: &mut Statistics,
    number: usize,
    sent: &Packed,
) -> Result<(), AllocError>
    ensures { OnOk result (spec.AddsPacked accepted.now counting number sent.now told.old told.new) }
{
    told.sums.add(alloc, &sent.filling)?;
    add_row(alloc, accepted, counting, &mut told.rows, number, sent)
}

/// Adds the row of an item, where such are wanted.
fn add_row(
    alloc: Global,
    accepted: &Accepted,
    counting: Counting,
    rows: &mut String,
    number: usize,
    sent: &Packed,
) -> Result<(), AllocError>
    ensures { OnOk result (counting.lists_items ≡ true → string_bytes rows.new ≡ string_bytes rows.old ++ spec.item_row counting.form accepted.now number sent.now) }
{
    if !counting.lists_items {
        return Ok(());
    }
    push_row_in(alloc, counting.form, accepted, rows, number, sent)
}

/// Adds the row of an item, or its object.
fn push_row_in(
    alloc: Global,
    form: Form,
    accepted: &Accepted,
    rows: &mut String,
    number: usize,
    sent: &Packed,
) -> Result<(), AllocError>
    ensures { OnOk result (string_bytes rows.new ≡ string_bytes rows.old ++ spec.item_row form accepted.now number sent.now) }
{
    match form {
        Form::Text => push_item_row(alloc, accepted, rows, number, sent),
        Form::Json => push_item_object(alloc, accepted, rows, number, sent),
    }
}

fn push_item_row(
    alloc: Global,
    accepted: &Accepted,
    rows: &mut String,
    number: usize,
    sent: &Packed,
) -> Result<(), AllocError>
    ensures { OnOk result (string_bytes rows.new ≡ string_bytes rows.old ++ spec.item_row form_is.Text accepted.now number sent.now) }
{
    let row = item_row(alloc, accepted, number, sent)?;
    rows.push_str(row.as_str())
}

/// Adds the object of an item.
fn push_item_object(
    alloc: Global,
    accepted: &Accepted,
    rows: &mut String,
    number: usize,
    sent: &Packed,
) -> Result<(), AllocError>
    ensures { OnOk result (string_bytes rows.new ≡ string_bytes rows.old ++ spec.item_row form_is.Json accepted.now number sent.now) }
{
    let profile = accepted.profile();
    let name = format_name(profile.methods(), profile.top(), sent.filling.format);
    push_item(alloc, rows, number, name, sent.packed.len())
}

/// The row of an item, after a line feed: its number, its format and how many bits its packet has, with tabs between them.
fn item_row(
    alloc: Global,
    accepted: &Accepted,
    number: usize,
    sent: &Packed,
) -> Result<String, AllocError>
    ensures { IfOk result (λ text. string_bytes text ≡ spec.item_row form_is.Text accepted.now number sent.now) }
{
    let profile = accepted.profile();
    let name = format_name(profile.methods(), profile.top(), sent.filling.format);
    row_text(alloc, number, name, sent.packed.len())
}

fn row_text(alloc: Global, number: usize, name: &str, bits: usize) -> Result<String, AllocError>
    ensures { IfOk result (λ text. string_bytes text ≡ spec.row_text number name.now bits) }
{
    format!(in alloc; "\n{number}\t{name}\t{bits}")
}

/// Adds the line of a refused item, after a line feed.
#[inline(never)]
pub(crate) fn add_refused(
    alloc: Global,
    refused: &mut String,
    number: usize,
    fault: RobustFault,
) -> Result<(), AllocError>
    requires { senders.IsOfItem fault }
    ensures { OnOk result (spec.IsRefusedBelow fault number (string_bytes refused.old) (string_bytes refused.new)) }
{
    let line = sender_fault(alloc, number, fault)?;
    refused.push('\n')?;
    refused.push_str(line.as_str())?;
    Ok(())
}

/// What is counted, or the row of each item, and the lines of the refused below.
fn print_counts(
    alloc: Global,
    accepted: &Accepted,
    counting: Counting,
    told: &Statistics,
) -> Result<Answer, AllocError>
    ensures { IfOk result (spec.IsPrintedStats accepted.now counting told.now) }
{
    let mut output = counts_text(alloc, accepted, counting, told)?;
    push_line(&mut output, told.refused.as_str())?;
    Ok(Answer {
        status: counted_status(counting, told.sums.all, told.refused.as_str()),
        output,
    })
}

fn counts_text(
    alloc: Global,
    accepted: &Accepted,
    counting: Counting,
    told: &Statistics,
) -> Result<String, AllocError>
    ensures { IfOk result (λ text. spec.IsCountsText accepted.now counting told.now (string_bytes text)) }
{
    if counting.lists_items {
        return listed_text(alloc, counting.form, told.rows.as_str());
    }
    let profile = accepted.profile();
    counted_in(
        alloc,
        counting.form,
        profile.methods(),
        profile.top(),
        &told.sums,
    )
}

/// What is counted, in its form.
fn counted_in(
    alloc: Global,
    form: Form,
    methods: &[Method],
    top: usize,
    sums: &Sums,
) -> Result<String, AllocError>
    ensures { IfOk result (λ text. (fs : List Filling) → AreSums fs sums.now → string_bytes text ≡ spec.counted_in form methods.now top fs) }
{
    match form {
        Form::Text => stats_text(alloc, methods, top, sums),
        Form::Json => stats_objects(alloc, methods, top, sums),
    }
}

/// The rows of items, below their heads where these are text.
fn listed_text(alloc: Global, form: Form, rows: &str) -> Result<String, AllocError>
    ensures { IfOk result (λ text. string_bytes text ≡ spec.heads_of form ++ rows.now) }
{
    match form {
        Form::Text => heads_and_rows(alloc, rows),
        Form::Json => String::from_str(alloc, rows),
    }
}

fn heads_and_rows(alloc: Global, rows: &str) -> Result<String, AllocError>
    ensures { IfOk result (λ text. string_bytes text ≡ spec.row_heads ++ rows.now) }
{
    format!(in alloc; "item\tformat\tbits{rows}")
}

/// The status after items are counted: that of a refusal where one is refused and all have to be packed, or where the mean is above what it may be.
fn counted_status(counting: Counting, all: Tally, refused: &str) -> Status
    ensures { result ≡ spec.counted_status counting all refused.now }
{
    if is_above(counting.most, all) || (counting.needs_all && !refused.is_empty()) {
        Status::Refused
    } else {
        Status::Done
    }
}

/// Whether the mean is above so many bits.
fn is_above(most: Option<u32>, all: Tally) -> bool
    ensures { result ≡ spec.is_above most all }
{
    match most {
        Some(most) => (most as u128) * (all.items as u128) < all.bits as u128,
        None => false,
    }
}
