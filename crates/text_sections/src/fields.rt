//! The fields of a format, in order, and what each is encoded by.

ghost use Rattle.std.specs.Prelude.{◌≡◌, ◌++◌, None, IfOk, OnOk, map, get_or, replicate, List};
ghost use Rattle.std.specs.Option.{option_copied};
ghost use Rattle.text_sections.specs.Mentions.{encoded, first_of, mentions_in, mentions_of};
ghost use Rattle.text_sections.specs.Tables.{IsTable, find_in};
ghost use Rattle.text_sections.specs.Fields as spec;

use crate::mention::{Group, Mention, is_in, mention_of};
use crate::table::Table;
use sem_profile::word;
use sqlite_items::Items;
use std::alloc::{AllocError, Global};
use text_tree::{Encoding, Item, Section};

/// The fields of a format that gives these mentions: header fields, control fields, local ones.
pub fn in_order<'a>(
    alloc: Global,
    text: &'a [u8],
    sections: &[Section],
    own: &[Mention],
) -> Result<Table<'a>, AllocError>
    ensures { IfOk result (IsTable text.now (spec.in_field_order text.now sections.now own.now)) }
{
    let mut fields = Table::with_room(alloc, own.len())?;
    add_group(text, sections, Group::Header, &mut fields)?;
    add_group(text, sections, Group::Control, &mut fields)?;
    fields.insert_all(text, own)?;
    Ok(fields)
}

fn add_group<'a>(
    text: &'a [u8],
    sections: &[Section],
    group: Group,
    fields: &mut Table<'a>,
) -> Result<(), AllocError>
    ensures { OnOk result ((before : List Mention) → IsTable text.now before fields.old → IsTable text.now (before ++ mentions_in text.now group 0 sections.now) fields.new) }
{
    for (place, section) in sections.iter().enumerate() {
        if is_in(group, section.kind) {
            add_items(text, place, section.items.as_slice(), fields)?;
        }
    }
    Ok(())
}

fn add_items<'a>(
    text: &'a [u8],
    section: usize,
    items: &[Item],
    fields: &mut Table<'a>,
) -> Result<(), AllocError>
    ensures { OnOk result ((before : List Mention) → IsTable text.now before fields.old → IsTable text.now (before ++ mentions_of text.now section items.now) fields.new) }
{
    for (place, item) in items.iter().enumerate() {
        if let Some(mention) = mention_of(text, section, place, item) {
            fields.insert(text, mention)?;
        }
    }
    Ok(())
}

fn place(text: &[u8], fields: &Table<'_>, mention: Mention) -> usize
    ensures { result ≡ spec.place text.now fields.now.words mention }
{
    match fields.words.position(word(text, mention.name)) {
        Some(place) => place,
        None => fields.words.len(),
    }
}

/// For each mention of a format the place of its field.
pub fn listing(
    alloc: Global,
    text: &[u8],
    fields: &Table<'_>,
    own: &[Mention],
) -> Result<Items<usize>, AllocError>
    ensures { IfOk result (λ places. places ≡ map (spec.place text.now fields.now.words) own.now) }
{
    let mut places = Items::from_vec(Vec::with_capacity(alloc, own.len())?);
    for mention in own {
        places.push(place(text, fields, *mention))?;
    }
    Ok(places)
}

/// Puts a mention at the place of its field, unless one is there.
fn keep_first(found: &mut Items<Option<Mention>>, place: usize, mention: Mention)
    ensures { found.new ≡ spec.with_first found.old place mention }
{
    match found.get(place) {
        Some(None) => found.set(place, Some(mention)),
        Some(Some(_)) => {}
        None => {}
    }
}

fn nothing_yet(alloc: Global, count: usize) -> Result<Items<Option<Mention>>, AllocError>
    ensures { IfOk result (λ found. found ≡ replicate count None) }
{
    Ok(Items::from_vec(vec![in alloc; None; count]?))
}

/// For each field of a format the first of the format's mentions that encodes it. The places are those of the mentions' fields.
pub fn own_encodings(
    alloc: Global,
    text: &[u8],
    fields: &Table<'_>,
    own: &[Mention],
    places: &[usize],
) -> Result<Items<Option<Mention>>, AllocError>
    requires { places.now ≡ map (spec.place text.now fields.now.words) own.now }
    ensures { (all : List Mention) → IsTable text.now all fields.now → IfOk result (λ found. found ≡ map (spec.own_encoding text.now own.now) fields.now.firsts) }
{
    let mut found = nothing_yet(alloc, fields.firsts.len())?;
    for (k, mention) in own.iter().enumerate() {
        if mention.is_encoded {
            keep_first(&mut found, places[k], *mention);
        }
    }
    Ok(found)
}

fn choice_at(choices: &[Option<Mention>], place: usize) -> Option<Mention>
    ensures { result ≡ get_or choices.now place None }
{
    match choices.get(place) {
        Some(choice) => *choice,
        None => None,
    }
}

fn encoding(
    text: &[u8],
    base: &Table<'_>,
    own: Option<Mention>,
    default: &Table<'_>,
    field: Mention,
) -> Option<Mention>
    ensures { result ≡ spec.encoding text.now (find_in base.now) (λ name. own) (find_in default.now) field }
{
    let name = word(text, field.name);
    match base.find(name) {
        Some(found) => Some(found),
        None => match own {
            Some(found) => Some(found),
            None => default.find(name),
        },
    }
}

fn find_all(
    alloc: Global,
    text: &[u8],
    base: &Table<'_>,
    own: &[Option<Mention>],
    default: &Table<'_>,
    fields: &[Mention],
) -> Result<Items<Option<Mention>>, AllocError>
    ensures { IfOk result (λ all. all ≡ spec.encodings_by text.now (find_in base.now) (find_in default.now) fields.now own.now) }
{
    let mut all = Items::from_vec(Vec::with_capacity(alloc, fields.len())?);
    for (place, field) in fields.iter().enumerate() {
        let own = choice_at(own, place);
        all.push(encoding(text, base, own, default, *field))?;
    }
    Ok(all)
}

/// For each field of a format the mention that encodes it: in UNCOMPRESSED or CONTROL, else in the format, else in DEFAULT. The tables are those of the encoded mentions there.
/// Of the format for each field that mention is given.
pub fn encodings(
    alloc: Global,
    text: &[u8],
    base: &Table<'_>,
    own: &[Option<Mention>],
    default: &Table<'_>,
    fields: &[Mention],
) -> Result<Items<Option<Mention>>, AllocError>
    ensures { (of_base of_own of_default : List Mention) → IsTable text.now of_base base.now → own.now ≡ map (spec.own_encoding text.now of_own) fields.now → IsTable text.now of_default default.now → IfOk result (λ all. all ≡ map (spec.encoding text.now (first_of text.now of_base) (first_of text.now (encoded of_own)) (first_of text.now of_default)) fields.now) }
{
    find_all(alloc, text, base, own, default, fields)
}

/// The encoding that a mention gives.
pub fn encoding_at(sections: &[Section], mention: Mention) -> Option<&Encoding>
    ensures { option_copied result ≡ spec.encoding_at sections.now mention }
{
    let section = sections.get(mention.section)?;
    let item = section.items.get(mention.item)?;
    encoding_of(item)
}

fn encoding_of(item: &Item) -> Option<&Encoding>
    ensures { option_copied result ≡ spec.encoding_of item.now }
{
    match item {
        Item::Bound(bound) => Some(&bound.encoding),
        _ => None,
    }
}

/// Each mention shows where its statement stands.
pub fn mentions_point()
    ensures { spec.MentionsPoint }
{}
