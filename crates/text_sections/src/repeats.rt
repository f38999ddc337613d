//! Names that are given twice.

ghost use Rattle.std.specs.Prelude.{◌≡◌, ◌<◌, None, IsTrue, IfOk};
ghost use Rattle.text_sections.specs.Causes as spec;
ghost use Rattle.text_sections.specs.Marks.{mark_of};
ghost use Rattle.text_sections.specs.Mentions.{first_of};

use crate::faults::second_statement;
use crate::mention::Mention;
use crate::table::Table;
use sem_profile::{ProfileFault, same, word};
use std::alloc::{AllocError, Global};

/// How many mentions are compared with each other rather than put into a table.
pub(crate) const FEW: usize = 16;

/// How many numbers there are for names that are looked at.
const MARKS: usize = 2_039;

/// The first mention of a name that an earlier one has.
pub(crate) fn second(
    alloc: Global,
    text: &[u8],
    mentions: &[Mention],
) -> Result<Option<ProfileFault>, AllocError>
    ensures { IfOk result (spec.Answers (spec.IsSecond text.now mentions.now)) }
{
    if mentions.len() <= FEW {
        return Ok(second_of_few(text, mentions));
    }
    if are_apart(text, mentions) {
        return Ok(None);
    }
    second_of_many(alloc, text, mentions)
}

/// The first of these mentions with the name.
pub(crate) fn first_among(text: &[u8], mentions: &[Mention], name: &[u8]) -> Option<Mention>
    ensures { result ≡ first_of text.now mentions.now name.now }
{
    for mention in mentions {
        if same(name, word(text, mention.name)) {
            return Some(*mention);
        }
    }
    None
}

/// The same by comparing each with those before it.
fn second_of_few(text: &[u8], mentions: &[Mention]) -> Option<ProfileFault>
    ensures { spec.Answers (spec.IsSecond text.now mentions.now) result }
{
    for (place, mention) in mentions.iter().enumerate() {
        let name = word(text, mention.name);
        if let Some(first) = first_among(text, &mentions[..place], name) {
            return Some(second_statement(first, *mention));
        }
    }
    None
}

/// A number for a name, by its octets.
fn mark_of(name: &[u8]) -> usize
    ensures value { result ≡ mark_of name.now }
    ensures within { result < 2039 }
{
    let mut mark = 0;
    for octet in name {
        mark = (mark * 31 + *octet as usize) % MARKS;
    }
    mark
}

/// Whether the names are seen to differ at a glance: each has a number of its own.
fn are_apart(text: &[u8], mentions: &[Mention]) -> bool
    ensures { IsTrue result → spec.Answers (spec.IsSecond text.now mentions.now) None }
{
    let mut seen = [false; MARKS];
    for mention in mentions {
        let mark = mark_of(word(text, mention.name));
        if seen[mark] {
            return false;
        }
        seen[mark] = true;
    }
    true
}

/// The same by a table.
fn second_of_many(
    alloc: Global,
    text: &[u8],
    mentions: &[Mention],
) -> Result<Option<ProfileFault>, AllocError>
    ensures { IfOk result (spec.Answers (spec.IsSecond text.now mentions.now)) }
{
    let mut table = Table::with_room(alloc, mentions.len())?;
    for mention in mentions {
        if let Some(first) = table.first_or_insert(text, *mention)? {
            return Ok(Some(second_statement(first, *mention)));
        }
    }
    Ok(None)
}
