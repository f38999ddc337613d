//! Statements on names, without their expressions.

ghost use Rattle.std.specs.Prelude.{◌≡◌, ◌++◌, IfOk, OnOk, map};
ghost use Rattle.text_sections.specs.Mentions as spec;

use sem_profile::{same, word};
use sqlite_items::Items;
use std::alloc::{AllocError, Global};
use text_source::Span;
use text_tree::{Encoding, Item, Section, SectionKind};

/// A name that a method gives, and what the rules of names ask of it.
#[derive(Clone, Copy, PartialEq, Eq)]
pub struct Mention {
    pub name: Span,
    /// The place of its section in the method.
    pub section: usize,
    /// Its own place in the section.
    pub item: usize,
    pub is_encoded: bool,
    /// Its encoding is `static` or `lsb`.
    pub needs_context: bool,
}

/// Sections that are looked at together.
#[derive(Clone, Copy, PartialEq, Eq)]
pub enum Group {
    /// UNCOMPRESSED
    Header,
    /// CONTROL
    Control,
    /// UNCOMPRESSED and CONTROL
    Base,
    Initial,
    Default,
    /// COMPRESSED
    Formats,
    /// COMPRESSED without a name
    Unnamed,
}

/// Whether a section belongs to the group.
pub fn is_in(group: Group, kind: SectionKind) -> bool
    ensures { result ≡ spec.is_in group kind }
{
    match group {
        Group::Header => matches!(kind, SectionKind::Uncompressed),
        Group::Control => matches!(kind, SectionKind::Control),
        Group::Base => matches!(kind, SectionKind::Uncompressed | SectionKind::Control),
        Group::Initial => matches!(kind, SectionKind::Initial),
        Group::Default => matches!(kind, SectionKind::Default),
        Group::Formats => matches!(kind, SectionKind::Compressed(_)),
        Group::Unnamed => matches!(kind, SectionKind::Compressed(None)),
    }
}

fn needs_context(text: &[u8], encoding: &Encoding) -> bool
    ensures { result ≡ spec.needs_context text.now encoding.now }
{
    match encoding {
        Encoding::Bits(_, _, _) => false,
        Encoding::Call(method, _) => {
            let name = word(text, *method);
            same(name, b"static".as_slice()) || same(name, b"lsb".as_slice())
        }
    }
}

pub(crate) fn mention_of(text: &[u8], section: usize, place: usize, item: &Item) -> Option<Mention>
    ensures { result ≡ spec.mention_of text.now section place item.now }
{
    match item {
        Item::Field(name, _) => Some(Mention {
            name: *name,
            section,
            item: place,
            is_encoded: false,
            needs_context: false,
        }),
        Item::Bound(bound) => Some(Mention {
            name: bound.name,
            section,
            item: place,
            is_encoded: true,
            needs_context: needs_context(text, &bound.encoding),
        }),
        Item::Enforce(_, _) => None,
    }
}

fn add_mentions(
    text: &[u8],
    section: usize,
    items: &[Item],
    found: &mut Items<Mention>,
) -> Result<(), AllocError>
    ensures { OnOk result (found.new ≡ found.old ++ spec.mentions_of text.now section items.now) }
{
    for (place, item) in items.iter().enumerate() {
        if let Some(mention) = mention_of(text, section, place, item) {
            found.push(mention)?;
        }
    }
    Ok(())
}

/// The mentions in one section.
pub fn of_section(
    alloc: Global,
    text: &[u8],
    place: usize,
    section: &Section,
) -> Result<Items<Mention>, AllocError>
    ensures { IfOk result (λ found. found ≡ spec.mentions_of text.now place section.now.items) }
{
    let mut found = Items::from_vec(Vec::with_capacity(alloc, section.items.len())?);
    add_mentions(text, place, section.items.as_slice(), &mut found)?;
    Ok(found)
}

/// How many statements the sections of a group have: at most so many mentions are in them.
fn count_in(sections: &[Section], group: Group) -> usize {
    let mut count: usize = 0;
    for section in sections {
        if is_in(group, section.kind) {
            count = count.saturating_add(section.items.len());
        }
    }
    count
}

/// The mentions in the sections of a group, in text order.
pub fn mentions(
    alloc: Global,
    text: &[u8],
    sections: &[Section],
    group: Group,
) -> Result<Items<Mention>, AllocError>
    ensures { IfOk result (λ found. found ≡ spec.mentions_in text.now group 0 sections.now) }
{
    let room = count_in(sections, group);
    let mut found = Items::from_vec(Vec::with_capacity(alloc, room)?);
    for (place, section) in sections.iter().enumerate() {
        if is_in(group, section.kind) {
            add_mentions(text, place, section.items.as_slice(), &mut found)?;
        }
    }
    Ok(found)
}

/// The mentions that give an encoding.
pub fn encoded(alloc: Global, mentions: &[Mention]) -> Result<Items<Mention>, AllocError>
    ensures { IfOk result (λ found. found ≡ spec.encoded mentions.now) }
{
    let mut found = Items::from_vec(Vec::with_capacity(alloc, mentions.len())?);
    for mention in mentions {
        if mention.is_encoded {
            found.push(*mention)?;
        }
    }
    Ok(found)
}

/// A name that stands in a list of names alone, as a parameter does.
pub fn listed(name: Span) -> Mention
    ensures { result ≡ spec.listed name }
{
    Mention {
        name,
        section: 0,
        item: 0,
        is_encoded: false,
        needs_context: false,
    }
}

/// The names of such a list.
pub(crate) fn all_listed(alloc: Global, names: &[Span]) -> Result<Items<Mention>, AllocError>
    ensures { IfOk result (λ found. found ≡ map spec.listed names.now) }
{
    let mut found = Items::from_vec(Vec::with_capacity(alloc, names.len())?);
    for name in names {
        found.push(listed(*name))?;
    }
    Ok(found)
}
