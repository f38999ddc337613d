//! A line of what a command tells, cut into what it says.

ghost use Rattle.std.specs.Prelude.{◌≡◌, codes, option_map};
ghost use Rattle.std.specs.List.{list_all};
ghost use Rattle.tool_json.specs.Messages as spec;
ghost use Rattle.tool_json.specs.declared.message.Telling.TheVariants as spec_telling;

use itoa::Buffer;

/// Which lines there may be: those of `check` and `prove`, of `lint`, of `why`, and faults alone.
#[derive(Clone, Copy)]
pub enum Telling {
    Judging,
    Warning,
    Reasons,
    Faults,
}

/// Where a line says that something is.
#[derive(Clone, Copy)]
pub enum MessagePlace<'a> {
    /// `LINE:COLUMN`, of the profile.
    At { line: usize, column: usize },
    /// `profile:LINE:COLUMN`
    Text { line: usize, column: usize },
    /// `PART:LINE`
    Line { part: &'a str, line: usize },
    /// `PART NUMBER`
    Numbered { part: &'a str, number: usize },
    /// `PART`
    Part { part: &'a str },
}

/// What a warning is of.
#[derive(Clone, Copy)]
pub enum Subject<'a> {
    None,
    /// A name before a colon.
    Named(&'a str),
    /// A name before a blank.
    That(&'a str),
}

/// What a line says.
#[derive(Clone, Copy)]
pub enum Message<'a> {
    Accepted,
    Fault {
        place: MessagePlace<'a>,
        code: &'a str,
        text: &'a str,
    },
    Note {
        place: MessagePlace<'a>,
        text: &'a str,
    },
    Warning {
        place: MessagePlace<'a>,
        subject: Subject<'a>,
        text: &'a str,
    },
    /// The head line of a packet or of an item.
    Head {
        what: &'a str,
        number: usize,
        format: &'a str,
        bits: usize,
    },
    Reason {
        line: usize,
        column: usize,
        depth: usize,
        subject: &'a str,
        text: &'a str,
    },
    /// How many items a format has, how many other ones have, how many are refused, and how many packets are without its method.
    Avoided {
        format: &'a str,
        items: usize,
        others: usize,
        refused: usize,
        without: Option<usize>,
    },
    /// How many items are of a kind, which is the first, by which format that is packed, and in how many bits the format fits, which comes later.
    Against {
        items: usize,
        first: usize,
        by: &'a str,
        bits: Option<usize>,
    },
    /// Any other line.
    Remark {
        text: &'a str,
    },
}

/// What stands before the first colon, and what after it.
pub(crate) fn cut_at_colon(text: &str) -> Option<(&str, &str)>
    ensures { option_map (λ p. (p.0.now, p.1.now)) result ≡ spec.cut 58 text.now }
{
    text.split_once(':')
}

/// What stands before the first blank, and what after it.
pub(crate) fn cut_at_blank(text: &str) -> Option<(&str, &str)>
    ensures { option_map (λ p. (p.0.now, p.1.now)) result ≡ spec.cut 32 text.now }
{
    text.split_once(' ')
}

/// What stands after a blank with which a text begins.
fn after_blank(text: &str) -> Option<&str>
    ensures { option_map (λ t. t.now) result ≡ spec.after 32 text.now }
{
    text.strip_prefix(' ')
}

/// How many blanks a text begins with, and what stands after them.
fn unindented(text: &str) -> (usize, &str)
    ensures { (result.0, result.1.now) ≡ spec.unindent 0 text.now }
{
    let mut rest = text;
    let mut blanks = 0;
    while let Some(further) = after_blank(rest) {
        rest = further;
        blanks += 1;
    }
    (blanks, rest)
}

fn in_range(least: usize, most: usize, number: usize) -> bool
    ensures { result ≡ spec.in_range least most number }
{
    least <= number && number <= most
}

fn is_word(text: &str) -> bool
    ensures { result ≡ spec.is_word text.now }
{
    !text.is_empty() && are_letters(text.as_bytes())
}

fn are_letters(octets: &[u8]) -> bool
    ensures { result ≡ list_all (spec.in_range 97 122) octets.now }
{
    octets
        .iter()
        .all(|octet| in_range(97, 122, *octet as usize))
}

fn is_code(text: &str) -> bool
    ensures { result ≡ spec.is_code text.now }
{
    match text.as_bytes() {
        [letter, digits @ ..] => {
            in_range(65, 90, *letter as usize) && in_range(1, 2, digits.len()) && are_digits(digits)
        }
        [] => false,
    }
}

fn are_digits(octets: &[u8]) -> bool
    ensures { result ≡ list_all (spec.in_range 48 57) octets.now }
{
    octets.iter().all(|octet| in_range(48, 57, *octet as usize))
}

/// The number that a text spells in decimal, without a sign and without leading zeros.
pub(crate) fn number_of(text: &str) -> Option<usize>
    ensures { result ≡ spec.number_of text.now }
{
    let Ok(number) = text.parse::<usize>() else {
        return None;
    };
    let mut buffer = Buffer::new();
    if buffer.format(number) == text {
        Some(number)
    } else {
        None
    }
}

// ---- places

/// A word, or a word and a number.
fn lone_place(front: &str) -> Option<MessagePlace<'_>>
    ensures { option_map spec.spot result ≡ spec.lone_spot front.now }
{
    match cut_at_blank(front) {
        Some((part, number)) => numbered_place(part, number),
        None => part_place(front),
    }
}

fn part_place(part: &str) -> Option<MessagePlace<'_>>
    ensures { option_map spec.spot result ≡ spec.lone_by part.now None }
{
    if is_word(part) {
        Some(MessagePlace::Part { part })
    } else {
        None
    }
}

fn numbered_place<'a>(part: &'a str, number: &'a str) -> Option<MessagePlace<'a>>
    ensures { option_map spec.spot result ≡ spec.lone_by part.now (Some (part.now, number.now)) }
{
    if !is_word(part) {
        return None;
    }
    let number = number_of(number)?;
    Some(MessagePlace::Numbered { part, number })
}

/// Two numbers, or a word and a number.
fn pair_place<'a>(front: &'a str, second: &'a str) -> Option<MessagePlace<'a>>
    ensures { option_map spec.spot result ≡ spec.pair_spot front.now second.now }
{
    let number = number_of(second)?;
    match number_of(front) {
        Some(line) => Some(MessagePlace::At {
            line,
            column: number,
        }),
        None => line_place(front, number),
    }
}

fn line_place(part: &str, line: usize) -> Option<MessagePlace<'_>>
    ensures { option_map spec.spot result ≡ spec.pair_by part.now line None }
{
    if is_word(part) {
        Some(MessagePlace::Line { part, line })
    } else {
        None
    }
}

/// The word `profile` and two numbers.
fn text_place<'a>(front: &'a str, second: &'a str, third: &'a str) -> Option<MessagePlace<'a>>
    ensures { option_map spec.spot result ≡ spec.text_spot front.now second.now third.now }
{
    if front != "profile" {
        return None;
    }
    let line = number_of(second)?;
    let column = number_of(third)?;
    Some(MessagePlace::Text { line, column })
}

/// The place at which a line begins, up to a colon and a blank, and what stands behind these.
fn placed(line: &str) -> Option<(MessagePlace<'_>, &str)>
    ensures { option_map spec.placed_text result ≡ spec.placed line.now }
{
    let (front, more) = cut_at_colon(line)?;
    match after_blank(more) {
        Some(rest) => Some((lone_place(front)?, rest)),
        None => placed_further(front, more),
    }
}

fn placed_further<'a>(front: &'a str, more: &'a str) -> Option<(MessagePlace<'a>, &'a str)>
    ensures { option_map spec.placed_text result ≡ spec.second_by front.now (spec.cut 58 more.now) }
{
    let (second, more) = cut_at_colon(more)?;
    match after_blank(more) {
        Some(rest) => Some((pair_place(front, second)?, rest)),
        None => placed_in_text(front, second, more),
    }
}

fn placed_in_text<'a>(
    front: &'a str,
    second: &'a str,
    more: &'a str,
) -> Option<(MessagePlace<'a>, &'a str)>
    ensures { option_map spec.placed_text result ≡ spec.third_by front.now second.now (spec.cut 58 more.now) }
{
    let (third, more) = cut_at_colon(more)?;
    let rest = after_blank(more)?;
    Some((text_place(front, second, third)?, rest))
}

// ---- faults, notes, warnings

/// All places but a line and a column alone have faults.
fn has_faults(place: MessagePlace<'_>) -> bool
    ensures { result ≡ spec.has_faults (spec.spot place.entry) }
{
    match place {
        MessagePlace::At { .. } => false,
        MessagePlace::Text { .. }
        | MessagePlace::Line { .. }
        | MessagePlace::Numbered { .. }
        | MessagePlace::Part { .. } => true,
    }
}

fn has_notes(place: MessagePlace<'_>) -> bool
    ensures { result ≡ spec.has_notes (spec.spot place.entry) }
{
    match place {
        MessagePlace::At { .. } | MessagePlace::Line { .. } => true,
        MessagePlace::Text { .. } | MessagePlace::Numbered { .. } | MessagePlace::Part { .. } =>
            false,
    }
}

fn has_warnings(place: MessagePlace<'_>) -> bool
    ensures { result ≡ spec.has_warnings (spec.spot place.entry) }
{
    match place {
        MessagePlace::At { .. } | MessagePlace::Part { .. } => true,
        MessagePlace::Text { .. } | MessagePlace::Line { .. } | MessagePlace::Numbered { .. } =>
            false,
    }
}

fn fault_of<'a>(place: MessagePlace<'a>, rest: &'a str) -> Option<Message<'a>>
    ensures { option_map spec.told result ≡ spec.fault_of (spec.spot place.entry) rest.now }
{
    let (code, text) = cut_at_blank(rest)?;
    if is_code(code) && has_faults(place) {
        Some(Message::Fault { place, code, text })
    } else {
        None
    }
}

fn note_of<'a>(place: MessagePlace<'a>, text: &'a str) -> Option<Message<'a>>
    ensures { option_map spec.told result ≡ spec.note_of (spec.spot place.entry) text.now }
{
    if has_notes(place) {
        Some(Message::Note { place, text })
    } else {
        None
    }
}

fn warning_of<'a>(place: MessagePlace<'a>, rest: &'a str) -> Option<Message<'a>>
    ensures { option_map spec.told result ≡ spec.warning_of (spec.spot place.entry) rest.now }
{
    if !has_warnings(place) {
        return None;
    }
    let (word, text) = cut_at_blank(rest)?;
    if word == "warning:" {
        return Some(Message::Warning {
            place,
            subject: Subject::None,
            text,
        });
    }
    if word == "warning" {
        warning_about(place, text)
    } else {
        None
    }
}

fn warning_about<'a>(place: MessagePlace<'a>, rest: &'a str) -> Option<Message<'a>>
    ensures { option_map spec.told result ≡ spec.about_by (spec.spot place.entry) (spec.cut 32 rest.now) }
{
    let (word, text) = cut_at_blank(rest)?;
    Some(Message::Warning {
        place,
        subject: subject_of(word),
        text,
    })
}

/// A name, before a colon at the end of the word, or without one.
fn subject_of(word: &str) -> Subject<'_>
    ensures { spec.topic result ≡ spec.topic_of word.now }
{
    match cut_at_colon(word) {
        Some((name, more)) => {
            if more.is_empty() {
                Subject::Named(name)
            } else {
                Subject::That(word)
            }
        }
        None => Subject::That(word),
    }
}

// ---- reasons, head lines

fn reason_of<'a>(place: MessagePlace<'a>, rest: &'a str) -> Option<Message<'a>>
    ensures { option_map spec.told result ≡ spec.reason_of (spec.spot place.entry) rest.now }
{
    match place {
        MessagePlace::At { line, column } => reason_at(line, column, rest),
        MessagePlace::Text { .. }
        | MessagePlace::Line { .. }
        | MessagePlace::Numbered { .. }
        | MessagePlace::Part { .. } => None,
    }
}

/// After a place stand two blanks for each level, a name, a colon and a blank.
fn reason_at(line: usize, column: usize, rest: &str) -> Option<Message<'_>>
    ensures { option_map spec.told result ≡ spec.reason_in line column (spec.unindent 0 rest.now) }
{
    let (blanks, text) = unindented(rest);
    if blanks % 2 == 0 {
        reason_in(line, column, blanks / 2, text)
    } else {
        None
    }
}

fn reason_in(line: usize, column: usize, depth: usize, text: &str) -> Option<Message<'_>>
    ensures { option_map spec.told result ≡ spec.reason_by line column depth (spec.cut 58 text.now) }
{
    let (subject, more) = cut_at_colon(text)?;
    let text = after_blank(more)?;
    Some(Message::Reason {
        line,
        column,
        depth,
        subject,
        text,
    })
}

fn head_of(line: &str) -> Option<Message<'_>>
    ensures { option_map spec.told result ≡ spec.head_of line.now }
{
    let (what, more) = cut_at_blank(line)?;
    if is_headed(what) {
        head_numbered(what, more)
    } else {
        None
    }
}

fn is_headed(what: &str) -> bool
    ensures { result ≡ spec.is_headed what.now }
{
    what == "item" || what == "packet"
}

fn head_numbered<'a>(what: &'a str, more: &'a str) -> Option<Message<'a>>
    ensures { option_map spec.told result ≡ spec.number_by what.now (spec.cut 32 more.now) }
{
    let (number, more) = cut_at_blank(more)?;
    let number = number_of(number)?;
    let (format, more) = cut_at_blank(more)?;
    head_of_bits(what, number, format, more)
}

fn head_of_bits<'a>(
    what: &'a str,
    number: usize,
    format: &'a str,
    more: &'a str,
) -> Option<Message<'a>>
    ensures { option_map spec.told result ≡ spec.bits_by what.now number format.now (spec.cut 32 more.now) }
{
    let (bits, last) = cut_at_blank(more)?;
    if last != "bits" {
        return None;
    }
    let bits = number_of(bits)?;
    Some(Message::Head {
        what,
        number,
        format,
        bits,
    })
}

// ---- what stands against a format

/// A word and a number, with a blank behind each, and what stands behind them.
fn counted<'a>(word: &str, text: &'a str) -> Option<(usize, &'a str)>
    ensures { option_map (λ p. (p.0, p.1.now)) result ≡ spec.counted word.now text.now }
{
    let (front, more) = cut_at_blank(text)?;
    if front == word {
        counted_on(more)
    } else {
        None
    }
}

fn counted_on(text: &str) -> Option<(usize, &str)>
    ensures { option_map (λ p. (p.0, p.1.now)) result ≡ spec.counted_on (spec.cut 32 text.now) }
{
    let (number, rest) = cut_at_blank(text)?;
    Some((number_of(number)?, rest))
}

/// A word and a number.
fn last_count(word: &str, text: &str) -> Option<usize>
    ensures { result ≡ spec.last_count word.now text.now }
{
    let (front, number) = cut_at_blank(text)?;
    if front == word {
        number_of(number)
    } else {
        None
    }
}

/// What stands behind a word and a blank.
fn behind<'a>(word: &str, text: &'a str) -> Option<&'a str>
    ensures { option_map (λ t. t.now) result ≡ spec.behind word.now text.now }
{
    let (front, rest) = cut_at_blank(text)?;
    if front == word { Some(rest) } else { None }
}

fn avoided_of(line: &str) -> Option<Message<'_>>
    ensures { option_map spec.told result ≡ spec.avoided_of line.now }
{
    let more = behind("format", line)?;
    let (format, more) = cut_at_blank(more)?;
    let (items, more) = counted("items", more)?;
    avoided_by(format, items, more)
}

fn avoided_by<'a>(format: &'a str, items: usize, more: &'a str) -> Option<Message<'a>>
    ensures { option_map spec.told result ≡ spec.others_by format.now items (spec.counted (codes "others") more.now) }
{
    let (others, more) = counted("others", more)?;
    let (refused, without) = refused_of(more)?;
    Some(Message::Avoided {
        format,
        items,
        others,
        refused,
        without,
    })
}

/// How many are refused, and how many packets are without the method, where that is told.
fn refused_of(text: &str) -> Option<(usize, Option<usize>)>
    ensures { result ≡ spec.refused_of text.now }
{
    match last_count("refused", text) {
        Some(refused) => Some((refused, None)),
        None => refused_without(text),
    }
}

fn refused_without(text: &str) -> Option<(usize, Option<usize>)>
    ensures { result ≡ spec.without_by (spec.counted (codes "refused") text.now) }
{
    let (refused, more) = counted("refused", text)?;
    let without = last_count("without", more)?;
    Some((refused, Some(without)))
}

fn against_of(line: &str) -> Option<Message<'_>>
    ensures { option_map spec.told result ≡ spec.against_of line.now }
{
    let (items, more) = counted("items", line)?;
    let (first, more) = counted("first", more)?;
    let taker = behind("by", more)?;
    against_by(items, first, taker)
}

fn against_by(items: usize, first: usize, taker: &str) -> Option<Message<'_>>
    ensures { option_map spec.told result ≡ spec.taker_by items first taker.now (spec.cut 58 taker.now) }
{
    match cut_at_colon(taker) {
        Some((by, later)) => {
            let bits = later_of(later)?;
            Some(Message::Against {
                items,
                first,
                by,
                bits: Some(bits),
            })
        }
        None => Some(Message::Against {
            items,
            first,
            by: taker,
            bits: None,
        }),
    }
}

/// In how many bits the format fits, which comes later.
fn later_of(text: &str) -> Option<usize>
    ensures { result ≡ spec.later_of text.now }
{
    let text = after_blank(text)?;
    let text = behind("it", text)?;
    let text = behind("fits", text)?;
    fits_of(text)
}

fn fits_of(text: &str) -> Option<usize>
    ensures { result ≡ spec.fits_by (spec.counted (codes "with") text.now) }
{
    let (bits, rest) = counted("with", text)?;
    if rest == "bits, and comes later" {
        Some(bits)
    } else {
        None
    }
}

/// What a line of `why` without a place says.
fn reasons_message(line: &str) -> Option<Message<'_>>
    ensures { option_map spec.told result ≡ spec.or_else (spec.head_of line.now) (spec.or_else (spec.avoided_of line.now) (spec.against_of line.now)) }
{
    match head_of(line) {
        Some(head) => Some(head),
        None => avoided_message(line),
    }
}

fn avoided_message(line: &str) -> Option<Message<'_>>
    ensures { option_map spec.told result ≡ spec.or_else (spec.avoided_of line.now) (spec.against_of line.now) }
{
    match avoided_of(line) {
        Some(avoided) => Some(avoided),
        None => against_of(line),
    }
}

// ---- lines

/// What a line says; a line of no form is a remark. It is the line that the value was cut from.
pub fn read_message(telling: Telling, line: &str) -> Message<'_>
    ensures is { spec.told result ≡ spec.told_of telling line.now }
    ensures whole { spec.told_text (spec.told result) ≡ line.now }
{
    match message_of(telling, line) {
        Some(message) => message,
        None => Message::Remark { text: line },
    }
}

fn message_of(telling: Telling, line: &str) -> Option<Message<'_>>
    ensures { option_map spec.told result ≡ spec.told_by telling line.now (spec.placed line.now) }
{
    match placed(line) {
        Some((place, rest)) => placed_message(telling, place, rest),
        None => unplaced_message(telling, line),
    }
}

fn placed_message<'a>(
    telling: Telling,
    place: MessagePlace<'a>,
    rest: &'a str,
) -> Option<Message<'a>>
    ensures { option_map spec.told result ≡ spec.or_else (spec.fault_of (spec.spot place.entry) rest.now) (spec.other_of telling (spec.spot place.entry) rest.now) }
{
    match fault_of(place, rest) {
        Some(fault) => Some(fault),
        None => other_message(telling, place, rest),
    }
}

/// What a line with a place says, but for a fault.
fn other_message<'a>(
    telling: Telling,
    place: MessagePlace<'a>,
    rest: &'a str,
) -> Option<Message<'a>>
    ensures { option_map spec.told result ≡ spec.other_of telling (spec.spot place.entry) rest.now }
{
    match telling {
        Telling::Judging => note_of(place, rest),
        Telling::Warning => warning_of(place, rest),
        Telling::Reasons => reason_of(place, rest),
        Telling::Faults => None,
    }
}

/// What a line without a place says.
fn unplaced_message(telling: Telling, line: &str) -> Option<Message<'_>>
    ensures { option_map spec.told result ≡ spec.unplaced telling line.now }
{
    match telling {
        Telling::Judging => accepted_of(line),
        Telling::Reasons => reasons_message(line),
        Telling::Warning | Telling::Faults => None,
    }
}

fn accepted_of(line: &str) -> Option<Message<'_>>
    ensures { option_map spec.told result ≡ spec.unplaced spec_telling.Judging line.now }
{
    if line == "accepted" {
        Some(Message::Accepted)
    } else {
        None
    }
}
