//! Why an item or a packet is refused.

ghost use Rattle.std.specs.Prelude.{◌≡◌, ◌≢◌, ◌++◌, IfOk, OnOk, codes, string_bytes};
ghost use Rattle.walk_engine.specs.Reading as reading;
ghost use Rattle.walk_engine.specs.Writing as writing;
ghost use Rattle.sem_reasons.specs.Reasons.{Verdicts};
ghost use Rattle.tool_run.specs.Asked as words;
ghost use Rattle.tool_run.specs.Printed as spec;

use crate::asked::asked_words;
use crate::packets::{RefusedItem, RefusedPacket, item_fault, packet_fault};
use cert_accepted::Accepted;
use sem_bits::Bits;
use sem_context::Context;
use sem_expr::Side;
use sem_filling::Item;
use sem_filling::reason::Line;
use sem_lint::Judged;
use sem_reasons::{Question, reasons};
use sqlite_items::Items;
use std::alloc::{AllocError, Global};
use tool_input::texts::push_line;
use tool_items::why::push_reasons;
use walk_engine::PackFault;

/// Adds the line of a refused item, and then what is wrong with its asked values, or what stands against each format, by the octets of the profile.
pub(crate) fn explain_item(
    alloc: Global,
    octets: &[u8],
    accepted: &Accepted,
    context: &Context,
    output: &mut String,
    refused: RefusedItem<'_>,
) -> Result<(), AllocError>
    requires flow { refused.fault ≢ PackFault.Flow }
    requires blames { writing.Blames refused.fault accepted.now context.now refused.item.now }
    ensures { OnOk result (spec.HasLine (spec.ExplainsItem octets.now accepted.now context.now refused.entry.number refused.entry.item.now) (string_bytes output.old) (string_bytes output.new)) }
{
    let text = item_text(alloc, octets, accepted, context, refused)?;
    push_line(output, text.as_str())
}

fn item_text(
    alloc: Global,
    octets: &[u8],
    accepted: &Accepted,
    context: &Context,
    refused: RefusedItem<'_>,
) -> Result<String, AllocError>
    requires flow { refused.fault ≢ PackFault.Flow }
    requires blames { writing.Blames refused.fault accepted.now context.now refused.item.now }
    ensures { IfOk result (λ text. spec.ExplainsItem octets.now accepted.now context.now refused.entry.number refused.entry.item.now (string_bytes text)) }
{
    let RefusedItem {
        number,
        item,
        fault,
    } = refused;
    let more = item_more(alloc, octets, accepted, context, item, &fault)?;
    let mut text = item_fault(alloc, number, fault)?;
    text.push_str(more.as_str())?;
    Ok(text)
}

/// What follows the line of the fault.
fn item_more(
    alloc: Global,
    octets: &[u8],
    accepted: &Accepted,
    context: &Context,
    item: &Item,
    fault: &PackFault,
) -> Result<String, AllocError>
    ensures { IfOk result (λ text. spec.Follows fault.now octets.now accepted.now context.now item.now (string_bytes text)) }
{
    match fault {
        PackFault::Asked(name) => asked_line(alloc, accepted, item, name.as_str()),
        PackFault::HeaderLength => reason_lines(alloc, octets, accepted, context, item),
        PackFault::NoFormat => reason_lines(alloc, octets, accepted, context, item),
        PackFault::Flow => reason_lines(alloc, octets, accepted, context, item),
        PackFault::OutOfMemory => reason_lines(alloc, octets, accepted, context, item),
    }
}

/// What is wrong with the asked values, of which that name is blamed.
fn asked_line(
    alloc: Global,
    accepted: &Accepted,
    item: &Item,
    name: &str,
) -> Result<String, AllocError>
    ensures { IfOk result (λ text. string_bytes text ≡ codes "\n" ++ words.asked_words accepted.now.profile.asked item.now.asked name.now) }
{
    let asked = accepted.profile().asked();
    let words = asked_words(alloc, asked, item.asked.as_slice(), name)?;
    below(alloc, words.as_str())
}

fn below(alloc: Global, words: &str) -> Result<String, AllocError>
    ensures { IfOk result (λ text. string_bytes text ≡ codes "\n" ++ words.now) }
{
    format!(in alloc; "\n{words}")
}

/// The lines of what stands against each format.
fn reason_lines(
    alloc: Global,
    octets: &[u8],
    accepted: &Accepted,
    context: &Context,
    item: &Item,
) -> Result<String, AllocError>
    ensures { IfOk result (λ text. spec.ReasonsFollow octets.now accepted.now context.now item.now (string_bytes text)) }
{
    let lines = item_reasons(alloc, accepted, context, item)?;
    let asked = item.asked.as_slice();
    let mut text = String::new(alloc);
    push_reasons(
        alloc,
        &mut text,
        octets,
        accepted.profile(),
        asked,
        lines.as_slice(),
    )?;
    Ok(text)
}

/// What stands against each format by which the item might go.
fn item_reasons(
    alloc: Global,
    accepted: &Accepted,
    context: &Context,
    item: &Item,
) -> Result<Items<Line>, AllocError>
    ensures { IfOk result (Verdicts (spec.item_setting accepted.now context.now item.now) 0) }
{
    let profile = accepted.profile();
    let judged = Judged::of(alloc, profile)?;
    let question = Question {
        profile: &judged,
        context,
        method: profile.top(),
        parameters: &[],
        path: "",
        side: Side::Uncompressed,
        bits: &item.header,
        is_whole: true,
        asked: item.asked.as_slice(),
    };
    reasons(alloc, &question)
}

/// Adds the line of a refused packet, and then what stands against each format, by the octets of the profile.
pub(crate) fn explain_packet(
    alloc: Global,
    octets: &[u8],
    accepted: &Accepted,
    context: &Context,
    output: &mut String,
    refused: RefusedPacket<'_>,
) -> Result<(), AllocError>
    requires { reading.Blames refused.fault accepted.now context.now refused.packet.now }
    ensures { OnOk result (spec.HasLine (spec.ExplainsPacket octets.now accepted.now context.now refused.entry.number refused.entry.packet.now) (string_bytes output.old) (string_bytes output.new)) }
{
    let text = packet_text(alloc, octets, accepted, context, refused)?;
    push_line(output, text.as_str())
}

fn packet_text(
    alloc: Global,
    octets: &[u8],
    accepted: &Accepted,
    context: &Context,
    refused: RefusedPacket<'_>,
) -> Result<String, AllocError>
    requires { reading.Blames refused.fault accepted.now context.now refused.packet.now }
    ensures { IfOk result (λ text. spec.ExplainsPacket octets.now accepted.now context.now refused.entry.number refused.entry.packet.now (string_bytes text)) }
{
    let profile = accepted.profile();
    profile.keeps();
    let lines = packet_reasons(alloc, accepted, context, refused.packet)?;
    let mut text = packet_fault(alloc, profile.methods(), refused.number, refused.fault)?;
    push_reasons(alloc, &mut text, octets, profile, &[], lines.as_slice())?;
    Ok(text)
}

/// What stands against each format by which the packet might go.
fn packet_reasons(
    alloc: Global,
    accepted: &Accepted,
    context: &Context,
    packet: &Bits,
) -> Result<Items<Line>, AllocError>
    ensures { IfOk result (Verdicts (spec.packet_setting accepted.now context.now packet.now) 0) }
{
    let profile = accepted.profile();
    let judged = Judged::of(alloc, profile)?;
    let question = Question {
        profile: &judged,
        context,
        method: profile.top(),
        parameters: &[],
        path: "",
        side: Side::Compressed,
        bits: packet,
        is_whole: false,
        asked: &[],
    };
    reasons(alloc, &question)
}
