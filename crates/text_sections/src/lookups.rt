//! Faults of names that are looked up in tables.

ghost use Rattle.std.specs.Prelude.{◌≡◌};
ghost use Rattle.text_sections.specs.Causes as spec;
ghost use Rattle.text_sections.specs.Mentions.{first_of};
ghost use Rattle.text_sections.specs.Tables.{find_in};

use crate::faults::later;
use crate::mention::Mention;
use crate::repeats::first_among;
use crate::table::Table;
use sem_profile::{ProfileFault, ProfileFaultKind, earlier, word};

fn defined_before(text: &[u8], table: &Table<'_>, mention: Mention) -> Option<ProfileFault>
    ensures { result ≡ spec.defined_before text.now (find_in table.now) mention }
{
    match table.find(word(text, mention.name)) {
        Some(first) => Some(ProfileFault::about(
            ProfileFaultKind::DefinedTwice,
            later(first.name, mention.name),
        )),
        None => None,
    }
}

/// The mentions' first fault of being defined in the table as well.
pub(crate) fn all_defined_before(
    text: &[u8],
    table: &Table<'_>,
    mentions: &[Mention],
) -> Option<ProfileFault>
    ensures { result ≡ spec.earliest (spec.defined_before text.now (find_in table.now)) mentions.now }
{
    let mut found = None;
    for mention in mentions {
        found = earlier(found, defined_before(text, table, *mention));
    }
    found
}

fn encoded_before(text: &[u8], table: &Table<'_>, mention: Mention) -> Option<ProfileFault>
    ensures { result ≡ spec.encoded_before text.now (find_in table.now) mention }
{
    match table.find(word(text, mention.name)) {
        Some(first) => Some(ProfileFault::about(
            ProfileFaultKind::SecondEncoding,
            later(first.name, mention.name),
        )),
        None => None,
    }
}

/// The first fault of the mentions, which give encodings: that the table has one as well.
pub(crate) fn all_encoded_before(
    text: &[u8],
    table: &Table<'_>,
    mentions: &[Mention],
) -> Option<ProfileFault>
    ensures { result ≡ spec.earliest (spec.encoded_before text.now (find_in table.now)) mentions.now }
{
    if table.firsts.is_empty() {
        return None;
    }
    let mut found = None;
    for mention in mentions {
        found = earlier(found, encoded_before(text, table, *mention));
    }
    found
}

fn not_found(
    text: &[u8],
    table: &Table<'_>,
    more: &Table<'_>,
    kind: ProfileFaultKind,
    mention: Mention,
) -> Option<ProfileFault>
    ensures { result ≡ spec.not_found text.now (spec.look_in (find_in table.now) (find_in more.now)) kind mention }
{
    let name = word(text, mention.name);
    if table.find(name).or(more.find(name)).is_some() {
        None
    } else {
        Some(ProfileFault::about(kind, mention.name))
    }
}

/// The first fault of names that are in neither table.
pub(crate) fn all_not_found(
    text: &[u8],
    table: &Table<'_>,
    more: &Table<'_>,
    mentions: &[Mention],
) -> Option<ProfileFault>
    ensures { result ≡ spec.earliest (spec.unknown text.now (spec.look_in (find_in table.now) (find_in more.now))) mentions.now }
{
    let mut found = None;
    for mention in mentions {
        let next = not_found(text, table, more, ProfileFaultKind::UnknownName, *mention);
        found = earlier(found, next);
    }
    found
}

fn not_among(
    text: &[u8],
    table: &Table<'_>,
    more: &[Mention],
    mention: Mention,
) -> Option<ProfileFault>
    ensures { result ≡ spec.unknown text.now (spec.look_in (find_in table.now) (first_of text.now more.now)) mention }
{
    let name = word(text, mention.name);
    if table.find(name).is_some() || first_among(text, more, name).is_some() {
        None
    } else {
        Some(ProfileFault::about(ProfileFaultKind::UnknownName, mention.name))
    }
}

/// The first fault of names that are neither in the table nor among the other mentions, which are looked at one by one.
pub(crate) fn all_not_among(
    text: &[u8],
    table: &Table<'_>,
    more: &[Mention],
    mentions: &[Mention],
) -> Option<ProfileFault>
    ensures { result ≡ spec.earliest (spec.unknown text.now (spec.look_in (find_in table.now) (first_of text.now more.now))) mentions.now }
{
    let mut found = None;
    for mention in mentions {
        found = earlier(found, not_among(text, table, more, *mention));
    }
    found
}

fn not_encoded(
    text: &[u8],
    table: &Table<'_>,
    more: &Table<'_>,
    mention: Mention,
) -> Option<ProfileFault>
    ensures { result ≡ spec.not_encoded text.now (spec.look_in (find_in table.now) (find_in more.now)) mention }
{
    if mention.is_encoded {
        None
    } else {
        not_found(text, table, more, ProfileFaultKind::NoEncoding, mention)
    }
}

/// The first fault of mentions without an encoding, whose names are in neither table.
pub(crate) fn all_not_encoded(
    text: &[u8],
    table: &Table<'_>,
    more: &Table<'_>,
    mentions: &[Mention],
) -> Option<ProfileFault>
    ensures { result ≡ spec.earliest (spec.not_encoded text.now (spec.look_in (find_in table.now) (find_in more.now))) mentions.now }
{
    let mut found = None;
    for mention in mentions {
        found = earlier(found, not_encoded(text, table, more, *mention));
    }
    found
}

fn not_kept(text: &[u8], table: &Table<'_>, mention: Mention) -> Option<ProfileFault>
    ensures { result ≡ spec.not_kept text.now (find_in table.now) mention }
{
    if mention.needs_context && table.find(word(text, mention.name)).is_none() {
        Some(ProfileFault::about(ProfileFaultKind::NoContext, mention.name))
    } else {
        None
    }
}

/// The first fault of mentions with `static` or `lsb` whose names aren't in the table.
pub(crate) fn all_not_kept(
    text: &[u8],
    table: &Table<'_>,
    mentions: &[Mention],
) -> Option<ProfileFault>
    ensures { result ≡ spec.earliest (spec.not_kept text.now (find_in table.now)) mentions.now }
{
    let mut found = None;
    for mention in mentions {
        found = earlier(found, not_kept(text, table, *mention));
    }
    found
}
