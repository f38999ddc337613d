//! The faults of a method's names.

ghost use Rattle.std.specs.Prelude.{◌≡◌, ◌++◌, ◌⊎◌, ℕ, List, IfOk, length, map};
ghost use Rattle.std.specs.List.{filter_map};
ghost use Rattle.text_sections.specs.Tables.{IsTable};
ghost use Rattle.text_sections.specs.Mentions.{first_of, mentions_in, mentions_of, encoded as encoded_ones};
ghost use Rattle.text_sections.specs.Causes.{Answers, IsOneOf, IsSecond, look_in, not_encoded, unknown};
ghost use Rattle.text_sections.specs.Names as spec;

use crate::lookups::{
    all_defined_before, all_encoded_before, all_not_among, all_not_encoded, all_not_found,
    all_not_kept,
};
use crate::mention::{Group, Mention, all_listed, encoded, is_in, listed, mentions, of_section};
use crate::repeats::{FEW, second};
use crate::sections::incomplete;
use crate::table::Table;
use sem_profile::{ProfileFault, earlier};
use sqlite_items::Items;
use std::alloc::{AllocError, Global};
use text_source::Span;
use text_tree::{Item, Method, Section, SectionKind};

/// The mentions in the groups of a method's sections, each list in text order.
#[derive(Drop)]
pub struct Lists {
    pub base: Items<Mention>,
    pub initial: Items<Mention>,
    pub default: Items<Mention>,
    pub formats: Items<Mention>,
}

/// The lists of these sections.
pub(crate) fn split(alloc: Global, text: &[u8], sections: &[Section]) -> Result<Lists, AllocError>
    ensures { IfOk result (λ lists. lists ≡ spec.lists_of text.now sections.now) }
{
    Ok(Lists {
        base: mentions(alloc, text, sections, Group::Base)?,
        initial: mentions(alloc, text, sections, Group::Initial)?,
        default: mentions(alloc, text, sections, Group::Default)?,
        formats: mentions(alloc, text, sections, Group::Formats)?,
    })
}

/// A parameter that is a second one of its name, or has a constant's name.
pub(crate) fn judge_parameters(
    alloc: Global,
    text: &[u8],
    constants: &Table<'_>,
    parameters: &[Span],
) -> Result<Option<ProfileFault>, AllocError>
    ensures { (names : List Mention) → IsTable text.now names constants.now → IfOk result (Answers (spec.ParameterCause text.now names parameters.now)) }
{
    let parameters = all_listed(alloc, parameters)?;
    let repeated = second(alloc, text, parameters.as_slice())?;
    let shared = all_defined_before(text, constants, parameters.as_slice());
    Ok(earlier(repeated, shared))
}

fn format_name(section: &Section) -> Option<Mention>
    ensures { result ≡ spec.format_name section.now }
{
    match section.kind {
        SectionKind::Compressed(name) => match name {
            Some(name) => Some(listed(name)),
            None => None,
        },
        _ => None,
    }
}

/// The names of a method's formats.
pub(crate) fn format_names(
    alloc: Global,
    sections: &[Section],
) -> Result<Items<Mention>, AllocError>
    ensures { IfOk result (λ names. names ≡ filter_map spec.format_name sections.now) }
{
    let mut names = Items::new(alloc);
    for section in sections {
        if let Some(name) = format_name(section) {
            names.push(name)?;
        }
    }
    Ok(names)
}

/// A second encoding in a format or in DEFAULT of a field that has one for all formats.
pub(crate) fn judge_encodings(
    alloc: Global,
    text: &[u8],
    lists: &Lists,
) -> Result<Option<ProfileFault>, AllocError>
    ensures { IfOk result (Answers (spec.EncodingCause text.now lists.now)) }
{
    let base = encoded(alloc, lists.base.as_slice())?;
    let formats = encoded(alloc, lists.formats.as_slice())?;
    let defaults = encoded(alloc, lists.default.as_slice())?;
    let table = Table::of(alloc, text, base.as_slice())?;
    let in_formats = all_encoded_before(text, &table, formats.as_slice());
    let in_defaults = all_encoded_before(text, &table, defaults.as_slice());
    Ok(earlier(in_formats, in_defaults))
}

/// A name in DEFAULT that no format has. The table is that of the header and control fields.
fn judge_defaults(
    alloc: Global,
    text: &[u8],
    base: &Table<'_>,
    lists: &Lists,
) -> Result<Option<ProfileFault>, AllocError>
    ensures { IsTable text.now lists.now.base base.now → IfOk result (Answers (IsOneOf (unknown text.now (look_in (first_of text.now lists.now.base) (first_of text.now lists.now.formats))) lists.now.default)) }
{
    let none = Table::new(alloc);
    match all_not_found(text, base, &none, lists.default.as_slice()) {
        None => Ok(None),
        Some(_) => judge_defaults_among(alloc, text, base, lists),
    }
}

/// The same by what the formats mention. Few names are looked for one by one, others in a table.
fn judge_defaults_among(
    alloc: Global,
    text: &[u8],
    base: &Table<'_>,
    lists: &Lists,
) -> Result<Option<ProfileFault>, AllocError>
    ensures { IsTable text.now lists.now.base base.now → IfOk result (Answers (IsOneOf (unknown text.now (look_in (first_of text.now lists.now.base) (first_of text.now lists.now.formats))) lists.now.default)) }
{
    let defaults = lists.default.as_slice();
    if defaults.len() <= FEW {
        let formats = lists.formats.as_slice();
        return Ok(all_not_among(text, base, formats, defaults));
    }
    let formats = Table::of(alloc, text, lists.formats.as_slice())?;
    Ok(all_not_found(text, base, &formats, defaults))
}

/// A name that must be a header or control field, or a listed one, and isn't. The table is that of the header and control fields.
pub(crate) fn judge_known(
    alloc: Global,
    text: &[u8],
    base: &Table<'_>,
    lists: &Lists,
) -> Result<Option<ProfileFault>, AllocError>
    ensures { IsTable text.now lists.now.base base.now → IfOk result (Answers (spec.KnownCause text.now lists.now)) }
{
    let none = Table::new(alloc);
    let initial = all_not_found(text, base, &none, lists.initial.as_slice());
    let defaults = judge_defaults(alloc, text, base, lists)?;
    Ok(earlier(initial, defaults))
}

/// A local field with `static` or `lsb`. The table is that of the header and control fields.
pub(crate) fn judge_contexts(text: &[u8], base: &Table<'_>, lists: &Lists) -> Option<ProfileFault>
    ensures { IsTable text.now lists.now.base base.now → Answers (spec.ContextCause text.now lists.now) result }
{
    let formats = all_not_kept(text, base, lists.formats.as_slice());
    let defaults = all_not_kept(text, base, lists.default.as_slice());
    earlier(formats, defaults)
}

/// The first mentions, then the second.
pub(crate) fn joined(
    alloc: Global,
    first: &[Mention],
    second: &[Mention],
) -> Result<Items<Mention>, AllocError>
    ensures { IfOk result (λ all. all ≡ first.now ++ second.now) }
{
    let mut all = Items::from_slice(alloc, first)?;
    all.append(Items::from_slice(alloc, second)?)?;
    Ok(all)
}

/// A listed field of a format that has no encoding, neither in the table nor among the format's own mentions.
fn judge_bare(
    alloc: Global,
    text: &[u8],
    shared: &Table<'_>,
    own: &[Mention],
) -> Result<Option<ProfileFault>, AllocError>
    ensures { (encodings : List Mention) → IsTable text.now encodings shared.now → IfOk result (Answers (IsOneOf (not_encoded text.now (look_in (first_of text.now encodings) (first_of text.now (encoded_ones own.now)))) own.now)) }
{
    let none = Table::new(alloc);
    match all_not_encoded(text, shared, &none, own) {
        None => Ok(None),
        Some(_) => judge_bare_among(alloc, text, shared, own),
    }
}

/// The same by a table of the own mentions that give encodings.
fn judge_bare_among(
    alloc: Global,
    text: &[u8],
    shared: &Table<'_>,
    own: &[Mention],
) -> Result<Option<ProfileFault>, AllocError>
    ensures { (encodings : List Mention) → IsTable text.now encodings shared.now → IfOk result (Answers (IsOneOf (not_encoded text.now (look_in (first_of text.now encodings) (first_of text.now (encoded_ones own.now)))) own.now)) }
{
    let bound = encoded(alloc, own)?;
    let table = Table::of(alloc, text, bound.as_slice())?;
    Ok(all_not_encoded(text, shared, &table, own))
}

/// How many of the items are statements on names.
fn count_named(items: &[Item]) -> usize
    ensures { (text : List ℕ) (section : ℕ) → result ≡ length (mentions_of text section items.now) }
{
    let mut count = 0;
    for item in items {
        if is_named(item) {
            count += 1;
        }
    }
    count
}

/// Whether the item is a statement on a name.
fn is_named(item: &Item) -> bool
    ensures { result ≡ spec.is_named item.now }
{
    match item {
        Item::Enforce(_, _) => false,
        _ => true,
    }
}

/// The mentions of a section, where those of the formats from it on are given: the first of them, or none where it is no format.
fn own_part<'m>(section: &Section, formats: &'m [Mention]) -> &'m [Mention]
    ensures { (text : List ℕ) (place : ℕ) (more : List Mention) → formats.now ≡ spec.own_mentions text place section.now ++ more → result.now ≡ spec.own_mentions text place section.now }
{
    if !is_in(Group::Formats, section.kind) {
        return &[];
    }
    let count = count_named(section.items.as_slice());
    &formats[..count.min(formats.len())]
}

/// A second statement on a name in a section for some formats or contexts, or a listed field that has no encoding. Of a format its mentions are given.
pub(crate) fn judge_section(
    alloc: Global,
    text: &[u8],
    shared: &Table<'_>,
    place: usize,
    section: &Section,
    own: &[Mention],
) -> Result<Option<ProfileFault>, AllocError>
    requires { own.now ≡ spec.own_mentions text.now place section.now }
    ensures { (encodings : List Mention) → IsTable text.now encodings shared.now → IfOk result (Answers (spec.SectionCause text.now encodings place section.now)) }
{
    if is_in(Group::Base, section.kind) {
        return Ok(None);
    }
    if !is_in(Group::Formats, section.kind) {
        let own = of_section(alloc, text, place, section)?;
        return second(alloc, text, own.as_slice());
    }
    let repeated = second(alloc, text, own)?;
    let bare = judge_bare(alloc, text, shared, own)?;
    Ok(earlier(repeated, bare))
}

/// Such a fault of any section. The mentions of all formats are given.
pub(crate) fn judge_sections(
    alloc: Global,
    text: &[u8],
    shared: &Table<'_>,
    sections: &[Section],
    formats: &[Mention],
) -> Result<Option<ProfileFault>, AllocError>
    requires { formats.now ≡ mentions_in text.now Group.Formats 0 sections.now }
    ensures { (encodings : List Mention) → IsTable text.now encodings shared.now → IfOk result (Answers (spec.SectionsCause text.now encodings sections.now)) }
{
    let mut found = None;
    let mut rest = formats;
    for (place, section) in sections.iter().enumerate() {
        let own = own_part(section, rest);
        let next = judge_section(alloc, text, shared, place, section, own)?;
        found = earlier(found, next);
        rest = &rest[own.len()..];
    }
    Ok(found)
}

/// What is wrong with a method's sections, parameters and the names of its formats, and a second statement on a name in UNCOMPRESSED and CONTROL.
fn judge_heads(
    alloc: Global,
    text: &[u8],
    constants: &Table<'_>,
    method: &Method,
) -> Result<Option<ProfileFault>, AllocError>
    ensures { (names : List Mention) → IsTable text.now names constants.now → IfOk result (Answers (spec.HeadCause text.now names method.now)) }
{
    let sections = method.sections.as_slice();
    let parameters = judge_parameters(alloc, text, constants, method.parameters.as_slice())?;
    let formats = format_names(alloc, sections)?;
    let named = second(alloc, text, formats.as_slice())?;
    let lack = incomplete(method);
    Ok(earlier(lack, earlier(parameters, named)))
}

/// What is wrong with these lists for themselves, and with names in them that UNCOMPRESSED and CONTROL would have to give.
fn judge_lists(
    alloc: Global,
    text: &[u8],
    lists: &Lists,
) -> Result<Option<ProfileFault>, AllocError>
    ensures { IfOk result (Answers (λ f. (IsSecond text.now lists.now.base f ⊎ spec.EncodingCause text.now lists.now f) ⊎ (spec.KnownCause text.now lists.now f ⊎ spec.ContextCause text.now lists.now f))) }
{
    let base = second(alloc, text, lists.base.as_slice())?;
    let encodings = judge_encodings(alloc, text, lists)?;
    let fields = Table::of(alloc, text, lists.base.as_slice())?;
    let known = judge_known(alloc, text, &fields, lists)?;
    let contexts = judge_contexts(text, &fields, lists);
    Ok(earlier(earlier(base, encodings), earlier(known, contexts)))
}

/// The table of the fields that are encoded for all formats, or for those that don't.
fn for_all_formats<'t>(
    alloc: Global,
    text: &'t [u8],
    lists: &Lists,
) -> Result<Table<'t>, AllocError>
    ensures { IfOk result (IsTable text.now (encoded_ones (lists.now.base ++ lists.now.default))) }
{
    let all = joined(alloc, lists.base.as_slice(), lists.default.as_slice())?;
    let bound = encoded(alloc, all.as_slice())?;
    drop(all);
    Table::of(alloc, text, bound.as_slice())
}

/// What is wrong with the statements on fields in a method's sections.
fn judge_fields(
    alloc: Global,
    text: &[u8],
    sections: &[Section],
) -> Result<Option<ProfileFault>, AllocError>
    ensures { IfOk result (Answers (spec.FieldCause text.now sections.now)) }
{
    let lists = split(alloc, text, sections)?;
    let of_lists = judge_lists(alloc, text, &lists)?;
    let shared = for_all_formats(alloc, text, &lists)?;
    let own = judge_sections(alloc, text, &shared, sections, lists.formats.as_slice())?;
    Ok(earlier(of_lists, own))
}

/// The first fault of a method's names and sections. The table is that of the constants' names.
pub fn judge(
    alloc: Global,
    text: &[u8],
    constants: &Table<'_>,
    method: &Method,
) -> Result<Option<ProfileFault>, AllocError>
    ensures { (names : List Mention) → IsTable text.now names constants.now → IfOk result (Answers (spec.NameCause text.now names method.now)) }
{
    let head = judge_heads(alloc, text, constants, method)?;
    let fields = judge_fields(alloc, text, method.sections.as_slice())?;
    Ok(earlier(head, fields))
}
