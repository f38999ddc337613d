//! Names that may be misspelled.
//!
//! A name is told where it is declared by the COMPRESSED section of one format alone, has at least three letters, and is one letter from the name of a header
//! field of its method that has at least three letters too: one letter is another one, is missing, or is one too many. Digits don't count as letters here, so
//! `crc3` and `crc7` are two names.

ghost use Rattle.std.specs.Prelude.{◌≡◌, ◌++◌, ◌||◌, ◌&&◌, ℕ, List, false, nat_eq, not, IfOk, OnOk};
ghost use Rattle.std.specs.BTreeMap.{get_by_text};
ghost use Rattle.std.specs.List.{list_all};
ghost use Rattle.std.specs.Option.{option_copied};
ghost use Rattle.std.specs.Str.{bytes_eq};
ghost use Rattle.sem_lint.specs.Spelled as spec;

use sem_profile::{Field, Format, Method, Part};
use sqlite_items::Items;
use std::alloc::{AllocError, Global};
use std::collections::BTreeMap;

/// A name that may be misspelled: the method, the format, the field that is listed and the header field that may be meant, by their indices.
#[derive(Clone, Copy)]
pub struct Misspelled {
    pub method: usize,
    pub format: usize,
    pub field: usize,
    pub meant: usize,
}

/// The first format of a method that has a field of a name, by its number, and whether another has one, too.
#[derive(Clone, Copy)]
pub struct Owner {
    pub first: usize,
    pub is_shared: bool,
}

/// The formats of a method, which goes by its index, and which of them have a field of each name.
#[derive(Drop)]
pub struct Owners<'a> {
    pub method: usize,
    pub formats: &'a [Format],
    pub table: BTreeMap<String, Owner>,
}

/// No shorter name is looked at.
const SHORTEST: usize = 3;

/// The names that may be misspelled, in the order of the text. The error is out of memory.
pub fn misspelled_names(alloc: Global, methods: &[Method]) -> Result<Items<Misspelled>, AllocError>
    ensures { IfOk result (λ found. found ≡ spec.misspelled_names methods.now) }
{
    let mut found = Items::new(alloc);
    for (index, method) in methods.iter().enumerate() {
        add_of_method(alloc, &mut found, index, method)?;
    }
    Ok(found)
}

fn add_of_method(
    alloc: Global,
    found: &mut Items<Misspelled>,
    index: usize,
    method: &Method,
) -> Result<(), AllocError>
    ensures { OnOk result (found.new ≡ found.old ++ spec.misspelled_method index method.now) }
{
    let owners = owners_in(alloc, index, method.formats.as_slice())?;
    for (number, format) in owners.formats.iter().enumerate() {
        add_of_format(found, &owners, number, format)?;
    }
    Ok(())
}

fn add_of_format(
    found: &mut Items<Misspelled>,
    owners: &Owners<'_>,
    number: usize,
    format: &Format,
) -> Result<(), AllocError>
    requires { spec.AreOwners owners.now.formats.now (get_by_text owners.now.table) }
    ensures { OnOk result (found.new ≡ found.old ++ spec.misspelled_format owners.now.method owners.now.formats.now number format.now) }
{
    for (place, field) in format.fields.as_slice().iter().enumerate() {
        add_of_field(found, owners, number, format, place, field)?;
    }
    Ok(())
}

/// Adds a field, where COMPRESSED of its format alone declares its name and a field of the header may be meant.
fn add_of_field(
    found: &mut Items<Misspelled>,
    owners: &Owners<'_>,
    number: usize,
    format: &Format,
    place: usize,
    field: &Field,
) -> Result<(), AllocError>
    requires { spec.AreOwners owners.now.formats.now (get_by_text owners.now.table) }
    ensures { OnOk result (found.new ≡ found.old ++ spec.misspelled_field owners.now.method owners.now.formats.now number format.now place field.now) }
{
    let name = field.declared.name.as_str();
    if !is_local(field.declared.part) || !is_alone(owners, number, name) {
        return Ok(());
    }
    match meant_in(format.fields.as_slice(), name.as_bytes()) {
        Some(meant) => found.push(Misspelled {
            method: owners.method,
            format: number,
            field: place,
            meant,
        }),
        None => Ok(()),
    }
}

pub(crate) fn is_local(part: Part) -> bool
    ensures { result ≡ spec.is_local part }
{
    match part {
        Part::Local => true,
        Part::Header | Part::Control => false,
    }
}

fn is_header(part: Part) -> bool
    ensures { result ≡ spec.is_header part }
{
    match part {
        Part::Header => true,
        Part::Control | Part::Local => false,
    }
}

// ---- which formats have a name

/// Whether no format but that of the number has a field of the name.
fn is_alone(owners: &Owners<'_>, number: usize, name: &str) -> bool
    requires { spec.AreOwners owners.now.formats.now (get_by_text owners.now.table) }
    ensures { result ≡ spec.is_alone owners.now.formats.now number name.now }
{
    match owners.table.get(name) {
        Some(owner) => owner.first == number && !owner.is_shared,
        None => true,
    }
}

/// The names that the formats of a method have.
fn owners_in<'a>(
    alloc: Global,
    method: usize,
    formats: &'a [Format],
) -> Result<Owners<'a>, AllocError>
    ensures method { IfOk result (λ owners. owners.method ≡ method) }
    ensures formats { IfOk result (λ owners. owners.formats.now ≡ formats.now) }
    ensures found { IfOk result (λ owners. spec.AreOwners owners.formats.now (get_by_text owners.table)) }
{
    let table = owner_table(alloc, formats)?;
    Ok(Owners {
        method,
        formats,
        table,
    })
}

fn owner_table(alloc: Global, formats: &[Format]) -> Result<BTreeMap<String, Owner>, AllocError>
    ensures { IfOk result (λ table. spec.AreOwners formats.now (get_by_text table)) }
{
    let mut table = BTreeMap::new(alloc);
    for (number, format) in formats.iter().enumerate() {
        note_format(alloc, number, format, &mut table)?;
    }
    Ok(table)
}

/// Notes the names of a format.
fn note_format(
    alloc: Global,
    number: usize,
    format: &Format,
    table: &mut BTreeMap<String, Owner>,
) -> Result<(), AllocError>
    ensures { OnOk result ((name : List ℕ) (n : ℕ) → spec.alone_by (get_by_text table.new name) n ≡ (spec.alone_by (get_by_text table.old name) n && (nat_eq number n || not (spec.has_field name format.now)))) }
{
    note_fields(alloc, number, format.fields.as_slice(), table)
}

fn note_fields(
    alloc: Global,
    number: usize,
    fields: &[Field],
    table: &mut BTreeMap<String, Owner>,
) -> Result<(), AllocError>
    ensures { OnOk result ((name : List ℕ) (n : ℕ) → spec.alone_by (get_by_text table.new name) n ≡ (spec.alone_by (get_by_text table.old name) n && list_all (spec.lets_alone number n name) fields.now)) }
{
    for field in fields {
        note_name(alloc, number, field.declared.name.as_str(), table)?;
    }
    Ok(())
}

fn note_name(
    alloc: Global,
    number: usize,
    own: &str,
    table: &mut BTreeMap<String, Owner>,
) -> Result<(), AllocError>
    ensures { OnOk result ((name : List ℕ) (n : ℕ) → spec.alone_by (get_by_text table.new name) n ≡ (spec.alone_by (get_by_text table.old name) n && (nat_eq number n || not (bytes_eq own.now name)))) }
{
    let owner = owner_with(table.get(own), number);
    table.insert(String::from_str(alloc, own)?, owner)?;
    Ok(())
}

fn owner_with(before: Option<&Owner>, number: usize) -> Owner
    ensures { result ≡ spec.owner_with (option_copied before.entry) number }
{
    match before {
        Some(owner) => Owner {
            first: owner.first,
            is_shared: owner.is_shared || owner.first != number,
        },
        None => Owner {
            first: number,
            is_shared: false,
        },
    }
}

/// The first header field that may be meant by the name.
fn meant_in(fields: &[Field], name: &[u8]) -> Option<usize>
    ensures { result ≡ spec.meant_from 0 name.now fields.now }
{
    for (place, field) in fields.iter().enumerate() {
        if may_be_meant(name, field) {
            return Some(place);
        }
    }
    None
}

fn may_be_meant(name: &[u8], field: &Field) -> bool
    ensures { result ≡ spec.may_be_meant name.now field.now }
{
    let meant = field.declared.name.as_str().as_bytes();
    is_header(field.declared.part) && is_long(name) && is_long(meant) && is_near(name, meant)
}

fn is_long(name: &[u8]) -> bool
    ensures { result ≡ spec.is_long name.now }
{
    SHORTEST <= name.len()
}

// ---- one letter apart

/// Whether two texts are one letter apart.
fn is_near(one: &[u8], other: &[u8]) -> bool
    ensures { result ≡ spec.is_near one.now other.now }
{
    let mut left = one;
    let mut right = other;
    while begin_alike(left, right) {
        left = &left[1..];
        right = &right[1..];
    }
    differ_once(left, right)
}

/// Whether both texts begin with one octet.
fn begin_alike(one: &[u8], other: &[u8]) -> bool
    ensures { result ≡ spec.begin_alike one.now other.now }
{
    let [first, ..] = one else {
        return false;
    };
    let [second, ..] = other else {
        return false;
    };
    first == second
}

/// Whether two texts that don't begin alike are one letter apart.
fn differ_once(one: &[u8], other: &[u8]) -> bool
    ensures { result ≡ spec.differ_once one.now other.now }
{
    have_other_letter(one, other) || has_letter_more(one, other) || has_letter_more(other, one)
}

fn have_other_letter(one: &[u8], other: &[u8]) -> bool
    ensures { result ≡ spec.have_other_letter one.now other.now }
{
    let [first, rest @ ..] = one else {
        return false;
    };
    let [second, others @ ..] = other else {
        return false;
    };
    first.is_ascii_alphabetic() && second.is_ascii_alphabetic() && rest == others
}

fn has_letter_more(short: &[u8], long: &[u8]) -> bool
    ensures { result ≡ spec.has_letter_more short.now long.now }
{
    let [first, rest @ ..] = long else {
        return false;
    };
    first.is_ascii_alphabetic() && rest == short
}

/// A law of names: being one letter apart says that a letter is another one, is missing, or is one too many.
#[tactic(auto, using(crate::proofs::SpelledNear::near_is_one_letter))]
pub fn near_is_one_letter()
    ensures { spec.NearIsOneLetter }
{}
