//! The parts of the program's input.
ghost use Rattle.std.specs.Prelude.{◌≡◌, ◌≢◌, ◌↔◌, ◌+◌, ◌<◌, ◌≤◌, List, [], ◌∷◌, ◌++◌, None, true, length, take, drop, string_bytes, IfOk, IfErr, IfSome, IfNone, OnOk, slice_index};
ghost use Rattle.std.specs.List.{AllByRecursion, flat_map};
ghost use Rattle.std.specs.Str.{chars};
ghost use Rattle.tool_input.specs.Bundle.{BlamesPart, HasSpelled, HoldsParts, IsBundle, IsSpellable, Part, escaped, full_lines, is_heading, is_hidden, is_known, is_unseen, is_within, name_in, named, parts_in, parts_of, shown_character, shown_name, shown_text, text_before, text_named, without_end};
ghost use Rattle.tool_input.specs.Bundle as spec;

use std::alloc::{AllocError, Global};
use std::fmt::Write;

/// The octets of the parts that the input has; an absent part is `None`.
#[derive(Clone, Copy)]
pub struct Parts<'a> {
    pub words: Option<&'a [u8]>,
    pub profile: Option<&'a [u8]>,
    pub certificate: Option<&'a [u8]>,
    pub context: Option<&'a [u8]>,
    pub items: Option<&'a [u8]>,
    pub packets: Option<&'a [u8]>,
    pub events: Option<&'a [u8]>,
    pub octets: Option<&'a [u8]>,
}

/// What makes an input no bundle, the first in its order.
#[derive(Clone, Copy)]
pub enum BadPart<'a> {
    /// Something stands before the first part.
    Front,
    /// A part's name, in octets, that is unknown or stands a second time.
    Named(&'a [u8]),
}

const HEADING: &[u8] = b"=== ";

const WORDS: &[u8] = b"words";

const PROFILE: &[u8] = b"profile";

const CERTIFICATE: &[u8] = b"certificate";

const CONTEXT: &[u8] = b"context";

const ITEMS: &[u8] = b"items";

const PACKETS: &[u8] = b"packets";

const EVENTS: &[u8] = b"events";

const OCTETS: &[u8] = b"octets";

/// No more characters of a bad part's name are shown.
const SHOWN_LIMIT: usize = 80;

/// The parts of an input: a line that begins with three equals signs and a blank has the name of a
/// part, whose text goes on up to the next such line. Takes no memory, and time by the input's length.
pub fn split(input: &[u8]) -> Result<Parts<'_>, BadPart<'_>>
    ensures bundle { IfOk result (λ parts. IsBundle input.now) }
    ensures parts { IfOk result (λ parts. HoldsParts parts (parts_of input.now)) }
    ensures bad { IfErr result (λ bad. BlamesPart input.now bad) }
{
    let (front, mut rest) = cut_at_heading(input);
    if !front.is_empty() {
        return Err(BadPart::Front);
    }
    let mut parts = Parts {
        words: None,
        profile: None,
        certificate: None,
        context: None,
        items: None,
        packets: None,
        events: None,
        octets: None,
    };
    while !rest.is_empty() {
        let heading = first_line(rest);
        let (text, others) = cut_at_heading(&rest[heading.len()..]);
        let name = name_of(heading);
        match with_part(parts, name, text) {
            Some(more) => parts = more,
            None => return Err(BadPart::Named(name)),
        }
        rest = others;
    }
    Ok(parts)
}

/// A bad part's name in a line, where it is text: its first 80 characters, in a form that a terminal shows and doesn't obey.
pub fn name_shown(alloc: Global, bad: BadPart<'_>) -> Result<String, AllocError>
    ensures { IfOk result (λ shown. string_bytes shown ≡ shown_name bad.entry) }
{
    match bad {
        BadPart::Front => String::from_str(alloc, "-"),
        BadPart::Named(name) => match str::from_utf8(name) {
            Ok(text) => text_shown(alloc, text),
            Err(_fault) => String::from_str(alloc, "-"),
        },
    }
}

/// A law of bundles: what is spelled from parts, each a heading and whole lines that are no headings,
/// has those parts in that order, and nothing before them.
#[tactic(auto, using(crate::proofs::BundleSpelled::spelled_back))]
pub fn spelled_bundle()
    ensures { (parts : List Part) → AllByRecursion IsSpellable parts → HasSpelled parts }
{}

// The first characters of a text, and two dots where it has more.
fn text_shown(alloc: Global, text: &str) -> Result<String, AllocError>
    ensures { IfOk result (λ shown. string_bytes shown ≡ shown_text text.now) }
{
    let mut shown = String::new(alloc);
    push_front(&mut shown, text)?;
    if is_long(text) {
        shown.push_str("..")?;
    }
    Ok(shown)
}

// Adds the first characters of a text, each as it is shown.
fn push_front(shown: &mut String, text: &str) -> Result<(), AllocError>
    ensures { OnOk result (string_bytes shown.new ≡ string_bytes shown.old ++ flat_map shown_character (take 80 (chars text.now))) }
{
    for character in text.chars().take(SHOWN_LIMIT) {
        push_shown(shown, character)?;
    }
    Ok(())
}

// Whether a text has more characters than are shown.
fn is_long(text: &str) -> bool
    ensures { result ≡ spec.is_long text.now }
{
    text.chars().count() > SHOWN_LIMIT
}

/// Adds a character as it is, but a control character escaped, so that a terminal shows it and doesn't obey.
pub fn push_shown(shown: &mut String, character: char) -> Result<(), AllocError>
    ensures { OnOk result (string_bytes shown.new ≡ string_bytes shown.old ++ shown_character character) }
{
    if is_unseen(character) {
        push_escaped(shown, u32::from(character))
    } else {
        shown.push(character)
    }
}

/// Whether a character isn't seen as itself: a control character, or one that hides itself or orders what stands beside it.
fn is_unseen(character: char) -> bool
    ensures { result ≡ is_unseen character }
{
    character.is_control() || is_hidden(u32::from(character))
}

/// Whether the number is that of such a character: the soft hyphen, the Arabic letter mark, a zero width space or joiner, a mark, embedding or isolate of a
/// direction, a line or paragraph separator, a word joiner or another format character of that block, or the byte order mark.
fn is_hidden(number: u32) -> bool
    ensures { result ≡ is_hidden number }
{
    number == 0xad
        || number == 0x61c
        || is_within(0x200b, 0x200f, number)
        || is_within(0x2028, 0x202e, number)
        || is_within(0x2060, 0x206f, number)
        || number == 0xfeff
}

fn is_within(first: u32, last: u32, number: u32) -> bool
    ensures { result ≡ is_within first last number }
{
    first <= number && number <= last
}

// Adds a character by its number, in lower-case hexadecimal digits.
fn push_escaped(shown: &mut String, number: u32) -> Result<(), AllocError>
    ensures { OnOk result (string_bytes shown.new ≡ string_bytes shown.old ++ escaped number) }
{
    write!(shown, "\\u{{{number:x}}}")
}

// The parts and one more, or nothing where its name is unknown or theirs.
fn with_part<'a>(parts: Parts<'a>, name: &[u8], text: &'a [u8]) -> Option<Parts<'a>>
    ensures known { IfSome result (λ more. is_known name.now ≡ true) }
    ensures new { IfSome result (λ more. (before : List Part) → HoldsParts parts.entry before → text_named name.now before ≡ None) }
    ensures held { IfSome result (λ more. (before : List Part) → HoldsParts parts.entry before → HoldsParts more (before ++ named name.now text.entry.now ∷ [])) }
    ensures refused { IfNone result ((before : List Part) → HoldsParts parts.entry before → is_known name.now ≡ true → text_named name.now before ≢ None) }
{
    if name == WORDS && parts.words.is_none() {
        Some(Parts {
            words: Some(text),
            ..parts
        })
    } else if name == PROFILE && parts.profile.is_none() {
        Some(Parts {
            profile: Some(text),
            ..parts
        })
    } else if name == CERTIFICATE && parts.certificate.is_none() {
        Some(Parts {
            certificate: Some(text),
            ..parts
        })
    } else if name == CONTEXT && parts.context.is_none() {
        Some(Parts {
            context: Some(text),
            ..parts
        })
    } else if name == ITEMS && parts.items.is_none() {
        Some(Parts {
            items: Some(text),
            ..parts
        })
    } else if name == PACKETS && parts.packets.is_none() {
        Some(Parts {
            packets: Some(text),
            ..parts
        })
    } else if name == EVENTS && parts.events.is_none() {
        Some(Parts {
            events: Some(text),
            ..parts
        })
    } else if name == OCTETS && parts.octets.is_none() {
        Some(Parts {
            octets: Some(text),
            ..parts
        })
    } else {
        None
    }
}

// The name in a heading: what follows the signs and the blank, less the line's end.
fn name_of(heading: &[u8]) -> &[u8]
    requires { is_heading heading.now ≡ true }
    ensures { result.now ≡ name_in heading.now }
{
    without_line_end(&heading[HEADING.len()..])
}

fn without_line_end(text: &[u8]) -> &[u8]
    ensures { result.now ≡ without_end text.now }
{
    if text.ends_with(b"\r\n") {
        &text[..text.len() - 2]
    } else if text.ends_with(b"\n") {
        &text[..text.len() - 1]
    } else {
        text
    }
}

// The text up to the first heading, and what begins with that.
fn cut_at_heading(input: &[u8]) -> (&[u8], &[u8])
    ensures text { result.0.now ≡ text_before (full_lines input.now) }
    ensures whole { input.now ≡ result.0.now ++ result.1.now }
    ensures parts { parts_in (full_lines result.1.now) ≡ parts_in (full_lines input.now) }
    ensures begins { text_before (full_lines result.1.now) ≡ [] }
{
    let mut at = 0;
    while at < input.len() {
        let line = first_line(&input[at..]);
        if line.starts_with(HEADING) {
            break;
        }
        at += line.len();
    }
    input.split_at(at)
}

// The first line, with the line feed that ends it.
fn first_line(input: &[u8]) -> &[u8]
    requires { 0 < length input.now }
    ensures some { 0 < length result.now }
    ensures within { length result.now ≤ length input.now }
    ensures front { result.now ≡ take (length result.now) input.now }
    ensures line { full_lines input.now ≡ result.now ∷ full_lines (drop (length result.now) input.now) }
{
    // Eight octets a turn, since each is then looked at in a place that is known.
    let mut from = 0;
    while input.len() - from >= 8 {
        for k in 0..8 {
            if input[from + k] == b'\n' {
                return &input[..from + k + 1];
            }
        }
        from += 8;
    }
    for at in from..input.len() {
        if input[at] == b'\n' {
            return &input[..at + 1];
        }
    }
    input
}
