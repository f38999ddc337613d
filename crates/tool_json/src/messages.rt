//! What `check`, `prove`, `lint` and `why` tell, as objects of JSON: one for each line, or one for a certificate.

ghost use Rattle.std.specs.Prelude.{◌≡◌, ◌++◌, IfOk, OnOk, flat_map, option_map, string_bytes};
ghost use Rattle.tool_json.specs.Messages.{cut, spot, told, topic};
ghost use Rattle.tool_json.specs.MessageObjects as spec;
ghost use Rattle.tool_names.specs.Objects as json_spec;

use crate::message::{
    Message, MessagePlace, Subject, Telling, cut_at_blank, number_of, read_message,
};
use std::alloc::{AllocError, Global};
use tool_names::objects::Object;

/// An object for each line of a text, but for the empty ones.
pub fn messages_json(alloc: Global, telling: Telling, text: &str) -> Result<String, AllocError>
    ensures { IfOk result (λ output. string_bytes output ≡ spec.messages_json telling text.now) }
{
    let mut output = String::new(alloc);
    for line in text.split('\n') {
        push_line(alloc, &mut output, telling, line)?;
    }
    Ok(output)
}

fn push_line(
    alloc: Global,
    output: &mut String,
    telling: Telling,
    line: &str,
) -> Result<(), AllocError>
    ensures { OnOk result (string_bytes output.new ≡ string_bytes output.old ++ spec.line_json telling line.now) }
{
    if line.is_empty() {
        return Ok(());
    }
    push_message(alloc, output, read_message(telling, line))
}

/// Adds the object of what a line says.
pub fn push_message(
    alloc: Global,
    output: &mut String,
    message: Message<'_>,
) -> Result<(), AllocError>
    ensures line { OnOk result (string_bytes output.new ≡ string_bytes output.old ++ json_spec.line (spec.object (told message.entry))) }
    ensures reads_back { OnOk result (json_spec.ReadsBack (spec.object (told message.entry) ++ json_spec.closed)) }
{
    let object = message_object(alloc, message)?;
    object.push_line(output)
}

fn message_object(alloc: Global, message: Message<'_>) -> Result<Object, AllocError>
    ensures { IfOk result (λ object. object ≡ spec.object (told message.entry)) }
{
    match message {
        Message::Accepted => of_kind(alloc, "accepted"),
        Message::Fault { place, code, text } => fault_object(alloc, place, code, text),
        Message::Note { place, text } => note_object(alloc, place, text),
        Message::Warning {
            place,
            subject,
            text,
        } => warning_object(alloc, place, subject, text),
        Message::Head {
            what,
            number,
            format,
            bits,
        } => head_object(alloc, what, number, format, bits),
        Message::Reason {
            line,
            column,
            depth,
            subject,
            text,
        } => reason_object(alloc, line, column, depth, subject, text),
        Message::Avoided {
            format,
            items,
            others,
            refused,
            without,
        } => avoided_object(alloc, format, items, others, refused, without),
        Message::Against {
            items,
            first,
            by,
            bits,
        } => against_object(alloc, items, first, by, bits),
        Message::Remark { text } => remark_object(alloc, text),
    }
}

/// An object of a kind.
pub(crate) fn of_kind(alloc: Global, kind: &str) -> Result<Object, AllocError>
    ensures { IfOk result (λ object. object ≡ spec.of_kind kind.now) }
{
    let mut object = Object::new(alloc)?;
    object.text("kind", kind)?;
    Ok(object)
}

fn at_place(alloc: Global, kind: &str, place: MessagePlace<'_>) -> Result<Object, AllocError>
    ensures { IfOk result (λ object. object ≡ spec.at_place kind.now (spot place.entry)) }
{
    let mut object = of_kind(alloc, kind)?;
    object.text("part", part_of(place))?;
    object.optional_number("line", line_of(place))?;
    object.optional_number("column", column_of(place))?;
    Ok(object)
}

fn part_of<'a>(place: MessagePlace<'a>) -> &'a str
    ensures { result.now ≡ spec.part_of (spot place.entry) }
{
    match place {
        MessagePlace::At { .. } | MessagePlace::Text { .. } => "profile",
        MessagePlace::Line { part, .. } => part,
        MessagePlace::Numbered { part, .. } => part,
        MessagePlace::Part { part } => part,
    }
}

fn line_of(place: MessagePlace<'_>) -> Option<usize>
    ensures { result ≡ spec.line_of (spot place.entry) }
{
    match place {
        MessagePlace::At { line, .. } => Some(line),
        MessagePlace::Text { line, .. } => Some(line),
        MessagePlace::Line { line, .. } => Some(line),
        MessagePlace::Numbered { .. } | MessagePlace::Part { .. } => None,
    }
}

fn column_of(place: MessagePlace<'_>) -> Option<usize>
    ensures { result ≡ spec.column_of (spot place.entry) }
{
    match place {
        MessagePlace::At { column, .. } => Some(column),
        MessagePlace::Text { column, .. } => Some(column),
        MessagePlace::Line { .. } | MessagePlace::Numbered { .. } | MessagePlace::Part { .. } =>
            None,
    }
}

fn number_at(place: MessagePlace<'_>) -> Option<usize>
    ensures { result ≡ spec.number_at (spot place.entry) }
{
    match place {
        MessagePlace::Numbered { number, .. } => Some(number),
        MessagePlace::At { .. }
        | MessagePlace::Text { .. }
        | MessagePlace::Line { .. }
        | MessagePlace::Part { .. } => None,
    }
}

fn name_of<'a>(subject: Subject<'a>) -> Option<&'a str>
    ensures { option_map (λ name. name.now) result ≡ spec.name_of (topic subject.entry) }
{
    match subject {
        Subject::None => None,
        Subject::Named(name) => Some(name),
        Subject::That(name) => Some(name),
    }
}

fn fault_object(
    alloc: Global,
    place: MessagePlace<'_>,
    code: &str,
    text: &str,
) -> Result<Object, AllocError>
    ensures { IfOk result (λ object. object ≡ spec.fault_tokens (spot place.entry) code.now text.now) }
{
    let mut object = at_place(alloc, "fault", place)?;
    object.optional_number("number", number_at(place))?;
    object.text("code", code)?;
    object.text("text", text)?;
    Ok(object)
}

fn note_object(alloc: Global, place: MessagePlace<'_>, text: &str) -> Result<Object, AllocError>
    ensures { IfOk result (λ object. object ≡ spec.note_tokens (spot place.entry) text.now) }
{
    let mut object = at_place(alloc, "note", place)?;
    object.text("text", text)?;
    Ok(object)
}

fn warning_object(
    alloc: Global,
    place: MessagePlace<'_>,
    subject: Subject<'_>,
    text: &str,
) -> Result<Object, AllocError>
    ensures { IfOk result (λ object. object ≡ spec.warning_tokens (spot place.entry) (topic subject.entry) text.now) }
{
    let mut object = at_place(alloc, "warning", place)?;
    object.optional_text("subject", name_of(subject))?;
    object.text("text", text)?;
    Ok(object)
}

fn head_object(
    alloc: Global,
    what: &str,
    number: usize,
    format: &str,
    bits: usize,
) -> Result<Object, AllocError>
    ensures { IfOk result (λ object. object ≡ spec.head_tokens what.now number format.now bits) }
{
    let mut object = of_kind(alloc, what)?;
    object.number("number", number)?;
    object.text("format", format)?;
    object.number("bits", bits)?;
    Ok(object)
}

fn reason_object(
    alloc: Global,
    line: usize,
    column: usize,
    depth: usize,
    subject: &str,
    text: &str,
) -> Result<Object, AllocError>
    ensures { IfOk result (λ object. object ≡ spec.reason_tokens line column depth subject.now text.now) }
{
    let mut object = of_kind(alloc, "reason")?;
    object.number("line", line)?;
    object.number("column", column)?;
    object.number("depth", depth)?;
    object.text("subject", subject)?;
    object.text("text", text)?;
    Ok(object)
}

fn avoided_object(
    alloc: Global,
    format: &str,
    items: usize,
    others: usize,
    refused: usize,
    without: Option<usize>,
) -> Result<Object, AllocError>
    ensures { IfOk result (λ object. object ≡ spec.avoided_tokens format.now items others refused without) }
{
    let mut object = of_kind(alloc, "avoided")?;
    object.text("format", format)?;
    object.number("items", items)?;
    object.number("others", others)?;
    object.number("refused", refused)?;
    object.optional_number("without", without)?;
    Ok(object)
}

fn against_object(
    alloc: Global,
    items: usize,
    first: usize,
    by: &str,
    bits: Option<usize>,
) -> Result<Object, AllocError>
    ensures { IfOk result (λ object. object ≡ spec.against_tokens items first by.now bits) }
{
    let mut object = of_kind(alloc, "against")?;
    object.number("items", items)?;
    object.number("first", first)?;
    object.text("by", by)?;
    object.optional_number("bits", bits)?;
    Ok(object)
}

fn remark_object(alloc: Global, text: &str) -> Result<Object, AllocError>
    ensures { IfOk result (λ object. object ≡ spec.remark_tokens text.now) }
{
    let mut object = of_kind(alloc, "remark")?;
    object.text("text", text)?;
    Ok(object)
}

// ---- a certificate

/// One object for a whole certificate, with its lines but for the empty ones.
pub fn certificate_json(alloc: Global, text: &str) -> Result<String, AllocError>
    ensures { IfOk result (λ output. string_bytes output ≡ spec.certificate_json text.now) }
{
    let mut output = String::new(alloc);
    let object = certificate_object(alloc, text)?;
    object.push_line(&mut output)?;
    Ok(output)
}

fn certificate_object(alloc: Global, text: &str) -> Result<Object, AllocError>
    ensures { IfOk result (λ object. object ≡ spec.certificate text.now) }
{
    let mut object = of_kind(alloc, "certificate")?;
    object.optional_number("version", version_of(text))?;
    object.begin_array("lines")?;
    add_lines(&mut object, text)?;
    object.end_array()?;
    Ok(object)
}

fn add_lines(object: &mut Object, text: &str) -> Result<(), AllocError>
    ensures { OnOk result (object.new ≡ object.old ++ flat_map spec.element (spec.lines_of text.now)) }
{
    for line in text.split('\n') {
        add_line(object, line)?;
    }
    Ok(())
}

fn add_line(object: &mut Object, line: &str) -> Result<(), AllocError>
    ensures { OnOk result (object.new ≡ object.old ++ spec.element line.now) }
{
    if line.is_empty() {
        return Ok(());
    }
    object.element(line)
}

/// The number behind the word of the first line.
fn version_of(text: &str) -> Option<usize>
    ensures { result ≡ spec.version_of text.now }
{
    let (line, _) = cut_at_line_feed(text)?;
    version_in(line)
}

fn version_in(line: &str) -> Option<usize>
    ensures { result ≡ spec.version_by (cut 32 line.now) }
{
    let (word, number) = cut_at_blank(line)?;
    if word == "rohcfn-certificate" {
        number_of(number)
    } else {
        None
    }
}

/// What stands before the first line feed, and what after it.
fn cut_at_line_feed(text: &str) -> Option<(&str, &str)>
    ensures { option_map (λ p. (p.0.now, p.1.now)) result ≡ cut 10 text.now }
{
    text.split_once('\n')
}
