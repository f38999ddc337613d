//! The fields of a format.

ghost use Rattle.std.specs.Prelude.{◌≡◌, IfOk, IfSome, IsTrue, get_or, slice_get};
ghost use Rattle.std.specs.List.{AllByRecursion};
ghost use Rattle.sem_profile.specs.Words.{word as words, is_name as is_word};
ghost use Rattle.text_methods.specs.Fields as spec;
ghost use Rattle.text_methods.specs.Kept as keeping;
ghost use Rattle.text_methods.specs.Worded.{IsNamed, AreMentionsWorded};

use crate::drafts::Setting;
use crate::kept::KeptField;
use sem_bits::Bits;
use sem_profile::{Declared, Encoding, Field, Name, Part, Shared, Words, same, word};
use sqlite_items::Items;
use std::alloc::{AllocError, Global};
use std::str::from_utf8;
use text_sections::Mention;
use text_tree::{Section, SectionKind};

/// What is kept of these fields, up to the first without a name.
pub(crate) fn kept_fields(
    alloc: Global,
    setting: &Setting<'_, '_>,
    mentions: &[Mention],
) -> Result<Items<KeptField>, AllocError>
    ensures { IfOk result (λ all. AllByRecursion (keeping.IsKeptField setting.now) all) }
{
    let mut all = Items::from_vec(Vec::with_capacity(alloc, mentions.len())?);
    for mention in mentions {
        match kept_field(alloc, setting, *mention)? {
            Some(field) => all.push(field)?,
            None => return Ok(all),
        }
    }
    Ok(all)
}

fn kept_field(
    alloc: Global,
    setting: &Setting<'_, '_>,
    mention: Mention,
) -> Result<Option<KeptField>, AllocError>
    ensures { IfOk result (λ found. IfSome found (keeping.IsKeptField setting.now)) }
{
    match name_of(alloc, word(setting.text, mention.name))? {
        Some(name) => {
            let field = field_of(alloc, setting, mention, name)?;
            Ok(Some(field))
        }
        None => Ok(None),
    }
}

/// The name of these octets, if they are one.
fn name_of(alloc: Global, octets: &[u8]) -> Result<Option<Name>, AllocError>
    ensures { IfOk result (λ found. IfSome found (λ name. name ≡ octets.now)) }
{
    match from_utf8(octets) {
        Ok(text) => Name::new(alloc, text),
        Err(_) => Ok(None),
    }
}

/// The field of a mention, but for its encoding. Its name is given.
fn field_of(
    alloc: Global,
    setting: &Setting<'_, '_>,
    mention: Mention,
    name: Name,
) -> Result<KeptField, AllocError>
    requires { name ≡ words setting.now.text.now mention.name }
    ensures { IfOk result (λ field. field ≡ keeping.kept_field setting.now mention) }
{
    let octets = word(setting.text, mention.name);
    let initial = initial_of(alloc, setting.initial_names, setting.initial_values, octets)?;
    Ok(KeptField {
        mention,
        declared: Declared {
            name,
            part: part(setting.sections, mention),
            asked: is_one_of(setting.asked, octets),
        },
        initial,
    })
}

/// The fields of a format with their encodings, in field order. What is kept of a field is shared, and so are names with the format before.
pub(crate) fn joined_fields(
    alloc: Global,
    setting: &Setting<'_, '_>,
    kept: &[KeptField],
    before: &[Field],
    mentions: &[Mention],
    encodings: &[Shared<Encoding>],
) -> Result<Items<Field>, AllocError>
    requires worded { AreMentionsWorded setting.now.text.now mentions.now }
    requires kept { AllByRecursion (keeping.IsKeptField setting.now) kept.now }
    ensures { IfOk result (λ all. all ≡ spec.joined setting.now mentions.now encodings.now) }
{
    let mut all = Items::from_vec(Vec::with_capacity(alloc, mentions.len())?);
    for (place, mention) in mentions.iter().enumerate() {
        let encoding = encoding_at(alloc, encodings, place)?;
        all.push(field(alloc, setting, kept, before, place, *mention, encoding)?)?;
    }
    Ok(all)
}

/// The encoding at a place.
fn encoding_at(
    alloc: Global,
    encodings: &[Shared<Encoding>],
    place: usize,
) -> Result<Shared<Encoding>, AllocError>
    ensures { IfOk result (λ e. e ≡ get_or encodings.now place Encoding.Bare) }
{
    match encodings.get(place) {
        Some(encoding) => encoding.share(),
        None => Shared::new(alloc, Encoding::Bare),
    }
}

fn field(
    alloc: Global,
    setting: &Setting<'_, '_>,
    kept: &[KeptField],
    before: &[Field],
    place: usize,
    mention: Mention,
    encoding: Shared<Encoding>,
) -> Result<Field, AllocError>
    requires worded { IsNamed setting.now.text.now mention.name }
    requires kept { AllByRecursion (keeping.IsKeptField setting.now) kept.now }
    ensures { IfOk result (λ f. f ≡ spec.field setting.now mention encoding) }
{
    let KeptField {
        mention: _,
        declared,
        initial,
    } = known_field(alloc, setting, kept, before, place, mention)?;
    Ok(Field {
        declared,
        encoding,
        initial,
    })
}

/// The field of a mention, which may be kept at this place.
fn known_field(
    alloc: Global,
    setting: &Setting<'_, '_>,
    kept: &[KeptField],
    before: &[Field],
    place: usize,
    mention: Mention,
) -> Result<KeptField, AllocError>
    requires worded { IsNamed setting.now.text.now mention.name }
    requires kept { AllByRecursion (keeping.IsKeptField setting.now) kept.now }
    ensures { IfOk result (λ field. field ≡ keeping.kept_field setting.now mention) }
{
    if let Some(field) = kept.get(place) {
        if field.mention == mention {
            return shared_field(alloc, field);
        }
    }
    let name = shared_name(alloc, before, place, word(setting.text, mention.name))?;
    field_of(alloc, setting, mention, name)
}

/// The name of these octets, which are one. It is shared with the format before where that has it at the same place.
fn shared_name(
    alloc: Global,
    before: &[Field],
    place: usize,
    octets: &[u8],
) -> Result<Name, AllocError>
    requires { IsTrue (is_word octets.now) }
    ensures { IfOk result (λ name. name ≡ octets.now) }
{
    if let Some(field) = before.get(place) {
        if same(field.declared.name.as_str().as_bytes(), octets) {
            return field.declared.name.share();
        }
    }
    Name::of_octets(alloc, octets)
}

/// The same field, whose name is shared.
fn shared_field(alloc: Global, field: &KeptField) -> Result<KeptField, AllocError>
    ensures { IfOk result (λ same. same ≡ field.now) }
{
    Ok(KeptField {
        mention: field.mention,
        declared: Declared {
            name: field.declared.name.share()?,
            part: field.declared.part,
            asked: field.declared.asked,
        },
        initial: copied_bits(alloc, &field.initial)?,
    })
}

fn copied_bits(alloc: Global, bits: &Option<Bits>) -> Result<Option<Bits>, AllocError>
    ensures { IfOk result (λ same. same ≡ bits.now) }
{
    match bits {
        Some(bits) => Ok(Some(bits.copy(alloc)?)),
        None => Ok(None),
    }
}

/// The bits that INITIAL gives the name.
fn initial_of(
    alloc: Global,
    names: &Words<'_>,
    values: &[Bits],
    name: &[u8],
) -> Result<Option<Bits>, AllocError>
    ensures { IfOk result (λ bits. bits ≡ spec.initial_of names.now values.now name.now) }
{
    match names.position(name) {
        Some(place) => copied(alloc, values, place),
        None => Ok(None),
    }
}

fn copied(alloc: Global, values: &[Bits], place: usize) -> Result<Option<Bits>, AllocError>
    ensures { IfOk result (λ bits. bits ≡ slice_get values.now place) }
{
    match values.get(place) {
        Some(bits) => Ok(Some(bits.copy(alloc)?)),
        None => Ok(None),
    }
}

fn is_one_of(names: &Words<'_>, name: &[u8]) -> bool
    ensures { result ≡ spec.is_one_of names.now name.now }
{
    match names.position(name) {
        Some(_) => true,
        None => false,
    }
}

fn part(sections: &[Section], mention: Mention) -> Part
    ensures { result ≡ spec.part sections.now mention }
{
    match sections.get(mention.section) {
        Some(section) => part_of(section.kind),
        None => Part::Local,
    }
}

fn part_of(kind: SectionKind) -> Part
    ensures { result ≡ spec.part_of kind }
{
    match kind {
        SectionKind::Uncompressed => Part::Header,
        SectionKind::Control => Part::Control,
        _ => Part::Local,
    }
}
