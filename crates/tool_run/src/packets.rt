//! The lines and the fields for items and packets.

ghost use Rattle.std.specs.Prelude.{◌≡◌, ◌≢◌, ◌∷◌, ◌++◌, [], true, IfOk, OnOk, codes, decimal, string_bytes};
ghost use Rattle.tool_input.specs.OneLine.{IsLine};
ghost use Rattle.sem_filling.specs.Fillings as sides;
ghost use Rattle.walk_engine.specs.Reading as reading;
ghost use Rattle.walk_engine.specs.Writing as writing;
ghost use Rattle.tool_run.specs.Printed as spec;

use crate::reasons::{explain_item, explain_packet};
use cert_accepted::Accepted;
use itoa::Buffer;
use sem_bits::{Bits, Cursor};
use sem_context::Context;
use sem_filling::{Filling, Item, advance};
use sem_profile::Method;
use std::alloc::{AllocError, Global};
use tool_input::status::{Answer, Status};
use tool_input::texts::{push_bits, push_item_of, push_line};
use tool_items::field_objects::fields_object;
use tool_items::fields::{HeadLine, fields_text, head_line};
use tool_names::names::{format_name, method_name};
use tool_words::words::Form;
use walk_engine::{PackFault, Packed, UnpackFault, Unpacked, pack, unpack};
use walk_read::Blamed;

/// What is printed for an item or a packet.
#[derive(Clone, Copy)]
pub enum Shape<'a> {
    /// The packed bits, or the item, in a line.
    Line,
    /// The fields of the filling, in a line each, or as an object.
    Tree(Form),
    /// The format of the filling; of one that is refused what stands against each format, at its place in these octets of the profile.
    Why(&'a [u8]),
}

/// An item that is refused: its number, which counts from 1, the item, and why.
#[derive(Drop)]
pub(crate) struct RefusedItem<'a> {
    pub number: usize,
    pub item: &'a Item,
    pub fault: PackFault,
}

/// A packet that is refused: its number, which counts from 1, the packet, and why.
#[derive(Clone, Copy)]
pub(crate) struct RefusedPacket<'a> {
    pub number: usize,
    pub packet: &'a Bits,
    pub fault: UnpackFault,
}

/// The status after an item or a packet that is refused.
pub(crate) fn stop_status(shape: Shape<'_>) -> Status
    ensures { result ≡ spec.stop_of shape.entry }
{
    match shape {
        Shape::Line | Shape::Tree(_) => Status::Refused,
        Shape::Why(_) => Status::Done,
    }
}

/// A line of packed bits or the fields for each item, up to the first that is refused, and after the last the context that is reached, where it is wanted.
pub(crate) fn pack_all(
    alloc: Global,
    shape: Shape<'_>,
    shows: bool,
    accepted: &Accepted,
    start: Context,
    items: &[Item],
) -> Result<Answer, AllocError>
    ensures { IfOk result (λ a. spec.PrintsItems shape.entry accepted.now shows start 1 items.now a.status (string_bytes a.output)) }
{
    let mut context = start;
    let mut output = String::new(alloc);
    for (i, item) in items.iter().enumerate() {
        let refused = pack_one(
            alloc,
            shape,
            accepted,
            &mut context,
            &mut output,
            i + 1,
            item,
        )?;
        if refused {
            return Ok(Answer {
                status: stop_status(shape),
                output,
            });
        }
    }
    finish(alloc, shows, output, &context)
}

/// A line for each packet, its item and how many bits it took, or its fields, likewise.
pub(crate) fn unpack_all(
    alloc: Global,
    shape: Shape<'_>,
    shows: bool,
    accepted: &Accepted,
    start: Context,
    packets: &[Bits],
) -> Result<Answer, AllocError>
    ensures { IfOk result (λ a. spec.PrintsPackets shape.entry accepted.now shows start 1 packets.now a.status (string_bytes a.output)) }
{
    let mut context = start;
    let mut output = String::new(alloc);
    for (i, packet) in packets.iter().enumerate() {
        let refused = unpack_one(
            alloc,
            shape,
            accepted,
            &mut context,
            &mut output,
            i + 1,
            packet,
        )?;
        if refused {
            return Ok(Answer {
                status: stop_status(shape),
                output,
            });
        }
    }
    finish(alloc, shows, output, &context)
}

/// The lines, and the context after them where it is wanted.
pub(crate) fn finish(
    alloc: Global,
    shows: bool,
    output: String,
    context: &Context,
) -> Result<Answer, AllocError>
    ensures { IfOk result (spec.IsFinished shows context.now (string_bytes output)) }
{
    if shows {
        with_context(alloc, output, context)
    } else {
        Ok(Answer {
            status: Status::Done,
            output,
        })
    }
}

/// The lines, and the context after them.
fn with_context(alloc: Global, output: String, context: &Context) -> Result<Answer, AllocError>
    ensures { IfOk result (spec.IsFinished true context.now (string_bytes output)) }
{
    let mut output = output;
    let text = context.print_text(alloc)?;
    output.push_str("=== context\n")?;
    output.push_str(text.as_str())?;
    Ok(Answer {
        status: Status::Done,
        output,
    })
}

// ---- items

/// Adds the line or the fields of an item, whose number counts from 1. The context goes on to the next. Whether it was refused.
fn pack_one(
    alloc: Global,
    shape: Shape<'_>,
    accepted: &Accepted,
    context: &mut Context,
    output: &mut String,
    number: usize,
    item: &Item,
) -> Result<bool, AllocError>
    ensures { IfOk result (spec.IsItemStep shape.entry accepted.now context.old context.new (string_bytes output.old) (string_bytes output.new) number item.now) }
{
    match pack(alloc, accepted, context, item) {
        Ok(Packed { filling, packed }) => {
            push_written(alloc, shape, accepted, output, number, &packed, &filling)?;
            advance(alloc, context, &filling)?;
            Ok(false)
        }
        Err(fault) => {
            let refused = RefusedItem {
                number,
                item,
                fault,
            };
            stop_item(alloc, shape, accepted, context, output, refused)?;
            Ok(true)
        }
    }
}

/// Adds what is said of a refused item.
fn stop_item(
    alloc: Global,
    shape: Shape<'_>,
    accepted: &Accepted,
    context: &Context,
    output: &mut String,
    refused: RefusedItem<'_>,
) -> Result<(), AllocError>
    requires flow { refused.fault ≢ PackFault.Flow }
    requires blames { writing.Blames refused.fault accepted.now context.now refused.item.now }
    ensures { OnOk result (spec.HasLine (spec.FaultsItem shape.entry accepted.now context.now refused.entry.number refused.entry.item.now) (string_bytes output.old) (string_bytes output.new)) }
{
    match shape {
        Shape::Line => refuse_item(alloc, output, refused.number, refused.fault),
        Shape::Tree(_) => refuse_item(alloc, output, refused.number, refused.fault),
        Shape::Why(octets) => explain_item(alloc, octets, accepted, context, output, refused),
    }
}

/// Adds the line of packed bits, or the fields of their filling, or its head line.
pub(crate) fn push_written(
    alloc: Global,
    shape: Shape<'_>,
    accepted: &Accepted,
    output: &mut String,
    number: usize,
    packed: &Bits,
    filling: &Filling,
) -> Result<(), AllocError>
    ensures { OnOk result (spec.IsWrittenText shape.entry accepted.now number packed.now filling.now (string_bytes output.old) (string_bytes output.new)) }
{
    match shape {
        Shape::Line => push_packed(alloc, output, packed),
        Shape::Tree(form) => {
            let what = "item";
            let bits = packed.len();
            let head = HeadLine { what, number, bits };
            push_fields(alloc, accepted, form, output, head, filling)
        }
        Shape::Why(_) => {
            let what = "item";
            let bits = packed.len();
            let head = HeadLine { what, number, bits };
            push_head(alloc, accepted, output, head, filling)
        }
    }
}

/// Adds the head line of a filling of the top.
fn push_head(
    alloc: Global,
    accepted: &Accepted,
    output: &mut String,
    head: HeadLine<'_>,
    filling: &Filling,
) -> Result<(), AllocError>
    ensures { OnOk result (spec.IsHeadText accepted.now head.entry.what.now head.entry.number head.entry.bits filling.now (string_bytes output.old) (string_bytes output.new)) }
{
    let profile = accepted.profile();
    let format = format_name(profile.methods(), profile.top(), filling.format);
    let text = head_line(alloc, head, format)?;
    push_line(output, text.as_str())
}

/// Adds the fields of a filling of the top.
fn push_fields(
    alloc: Global,
    accepted: &Accepted,
    form: Form,
    output: &mut String,
    head: HeadLine<'_>,
    filling: &Filling,
) -> Result<(), AllocError>
    ensures { OnOk result (spec.IsTreeText form accepted.now head.entry.what.now head.entry.number head.entry.bits filling.now (string_bytes output.old) (string_bytes output.new)) }
{
    let profile = accepted.profile();
    let (methods, top) = (profile.methods(), profile.top());
    let text = match form {
        Form::Text => fields_text(alloc, methods, top, head, filling)?,
        Form::Json => fields_object(alloc, methods, top, head, filling)?,
    };
    push_line(output, text.as_str())
}

/// Adds a line of bits.
pub(crate) fn push_packed(
    alloc: Global,
    output: &mut String,
    packed: &Bits,
) -> Result<(), AllocError>
    ensures { OnOk result (spec.IsBitsLine packed.now (string_bytes output.old) (string_bytes output.new)) }
{
    push_bits(alloc, output, packed)?;
    output.push('\n')
}

/// Adds the line of a refused item.
#[inline(never)]
fn refuse_item(
    alloc: Global,
    output: &mut String,
    number: usize,
    fault: PackFault,
) -> Result<(), AllocError>
    requires { fault ≢ PackFault.Flow }
    ensures { OnOk result (spec.IsRefusedItem fault number (string_bytes output.old) (string_bytes output.new)) }
{
    let line = item_fault(alloc, number, fault)?;
    push_line(output, line.as_str())?;
    Ok(())
}

/// The line of a refused item.
pub(crate) fn item_fault(
    alloc: Global,
    number: usize,
    fault: PackFault,
) -> Result<String, AllocError>
    requires { fault ≢ PackFault.Flow }
    ensures says { IfOk result (λ text. spec.IsItemFault fault number (string_bytes text)) }
    ensures line { IfOk result (λ text. IsLine (string_bytes text)) }
{
    match fault {
        PackFault::HeaderLength => plain_line(alloc, "item ", number, ": F1 HeaderLength"),
        PackFault::Asked(name) => {
            name.keeps();
            asked_line(alloc, "item ", number, name.as_str())
        }
        PackFault::NoFormat => plain_line(alloc, "item ", number, ": F3 NoFormat"),
        PackFault::Flow => unreachable!(),
        PackFault::OutOfMemory => Err(AllocError),
    }
}

/// The line of a fault of an item or an event, whose word with a blank is the head.
pub(crate) fn plain_line(
    alloc: Global,
    head: &str,
    number: usize,
    words: &str,
) -> Result<String, AllocError>
    ensures { IfOk result (λ text. string_bytes text ≡ head.now ++ decimal number ++ words.now) }
{
    format!(in alloc; "{head}{number}{words}")
}

/// The line of asked values that don't suit the asked fields.
pub(crate) fn asked_line(
    alloc: Global,
    head: &str,
    number: usize,
    name: &str,
) -> Result<String, AllocError>
    ensures { IfOk result (λ text. string_bytes text ≡ head.now ++ decimal number ++ codes ": F2 Asked " ++ name.now) }
{
    format!(in alloc; "{head}{number}: F2 Asked {name}")
}

// ---- packets

/// Adds the line or the fields of a packet, whose number counts from 1. The context goes on to the next. Whether it was refused.
fn unpack_one(
    alloc: Global,
    shape: Shape<'_>,
    accepted: &Accepted,
    context: &mut Context,
    output: &mut String,
    number: usize,
    packet: &Bits,
) -> Result<bool, AllocError>
    ensures { IfOk result (spec.IsPacketStep shape.entry accepted.now context.old context.new (string_bytes output.old) (string_bytes output.new) number packet.now) }
{
    let mut cursor = Cursor::new(packet);
    match unpack(alloc, accepted, context, &mut cursor) {
        Ok(
            Unpacked {
                header,
                filling,
                bits,
            },
        ) => {
            let what = "packet";
            let head = HeadLine { what, number, bits };
            push_found(alloc, shape, accepted, output, head, &header, &filling)?;
            advance(alloc, context, &filling)?;
            Ok(false)
        }
        Err(fault) => {
            let refused = RefusedPacket {
                number,
                packet,
                fault,
            };
            stop_packet(alloc, shape, accepted, context, output, refused)?;
            Ok(true)
        }
    }
}

/// Adds what is said of a refused packet.
fn stop_packet(
    alloc: Global,
    shape: Shape<'_>,
    accepted: &Accepted,
    context: &Context,
    output: &mut String,
    refused: RefusedPacket<'_>,
) -> Result<(), AllocError>
    requires { reading.Blames refused.fault accepted.now context.now refused.packet.now }
    ensures { OnOk result (spec.HasLine (spec.FaultsPacket shape.entry accepted.now context.now refused.entry.number refused.entry.packet.now) (string_bytes output.old) (string_bytes output.new)) }
{
    match shape {
        Shape::Line => refuse_packet(alloc, accepted, output, refused.number, refused.fault),
        Shape::Tree(_) => refuse_packet(alloc, accepted, output, refused.number, refused.fault),
        Shape::Why(octets) => explain_packet(alloc, octets, accepted, context, output, refused),
    }
}

/// Adds the line of a refused packet.
#[inline(never)]
fn refuse_packet(
    alloc: Global,
    accepted: &Accepted,
    output: &mut String,
    number: usize,
    fault: UnpackFault,
) -> Result<(), AllocError>
    ensures { OnOk result (spec.IsRefusedPacket accepted.now fault number (string_bytes output.old) (string_bytes output.new)) }
{
    let profile = accepted.profile();
    profile.keeps();
    let line = packet_fault(alloc, profile.methods(), number, fault)?;
    push_line(output, line.as_str())?;
    Ok(())
}

/// Adds the line of the item of a filling that was read, which has this header, or the fields of the filling.
fn push_found(
    alloc: Global,
    shape: Shape<'_>,
    accepted: &Accepted,
    output: &mut String,
    head: HeadLine<'_>,
    header: &Bits,
    filling: &Filling,
) -> Result<(), AllocError>
    requires { header.now ≡ sides.header filling.now }
    ensures { OnOk result (spec.IsFoundText shape.entry accepted.now head.entry.what.now head.entry.number head.entry.bits filling.now (string_bytes output.old) (string_bytes output.new)) }
{
    match shape {
        Shape::Line => push_read(alloc, output, header, filling, head.bits),
        Shape::Tree(form) => push_fields(alloc, accepted, form, output, head, filling),
        Shape::Why(_) => push_head(alloc, accepted, output, head, filling),
    }
}

/// Adds a line of the item of a filling that has this header, and how many bits its packet took.
fn push_read(
    alloc: Global,
    output: &mut String,
    header: &Bits,
    filling: &Filling,
    bits: usize,
) -> Result<(), AllocError>
    requires { header.now ≡ sides.header filling.now }
    ensures { OnOk result (spec.IsReadLine (sides.item filling.now) bits (string_bytes output.old) (string_bytes output.new)) }
{
    push_item_of(alloc, output, header, filling)?;
    push_took(output, bits)?;
    Ok(())
}

fn push_took(text: &mut String, bits: usize) -> Result<(), AllocError>
    ensures { OnOk result (string_bytes text.new ≡ string_bytes text.old ++ codes " took " ++ decimal bits ++ 10 ∷ []) }
{
    let mut buffer = Buffer::new();
    text.push_str(" took ")?;
    push_line(text, buffer.format(bits))
}

/// The line of a refused packet.
pub(crate) fn packet_fault(
    alloc: Global,
    methods: &[Method],
    number: usize,
    fault: UnpackFault,
) -> Result<String, AllocError>
    ensures { IfOk result (λ text. spec.IsPacketFault fault methods.now number (string_bytes text)) }
{
    match fault {
        UnpackFault::Truncated => format!(in alloc; "packet {number}: U1 Truncated"),
        UnpackFault::Refused(blamed) => refused_line(alloc, methods, number, blamed),
        UnpackFault::OutOfMemory => Err(AllocError),
    }
}

/// The line that names the method at work, and its format where the tree gave one.
fn refused_line(
    alloc: Global,
    methods: &[Method],
    number: usize,
    blamed: Blamed,
) -> Result<String, AllocError>
    ensures { IfOk result (λ text. string_bytes text ≡ spec.refused_packet methods.now number blamed) }
{
    let method = method_name(methods, blamed.method);
    match blamed.format {
        Some(format) => {
            let format = pointed(alloc, format_name(methods, blamed.method, format))?;
            refused_words(alloc, number, method, format.as_str())
        }
        None => refused_words(alloc, number, method, ""),
    }
}

fn pointed(alloc: Global, format: &str) -> Result<String, AllocError>
    ensures { IfOk result (λ text. string_bytes text ≡ codes "." ++ format.now) }
{
    format!(in alloc; ".{format}")
}

fn refused_words(
    alloc: Global,
    number: usize,
    method: &str,
    format: &str,
) -> Result<String, AllocError>
    ensures { IfOk result (λ text. string_bytes text ≡ codes "packet " ++ decimal number ++ codes ": U2 Refused " ++ method.now ++ format.now) }
{
    format!(in alloc; "packet {number}: U2 Refused {method}{format}")
}
