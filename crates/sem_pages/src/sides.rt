//! The two sides of the whole of a level, and whether what isn't listed is not sent.

ghost use Rattle.std.specs.Prelude.{◌≡◌, ◌+◌, ◌<◌, ◌++◌, ◌∷◌, [], ℕ, List, Bool, false, true, IsTrue, IfOk, IfSome, length, option_and_then, slice_get, unwrap_or};
ghost use Rattle.sem_filling.specs.Fillings.{header_bits, packed_bits};
ghost use Rattle.sem_profile.specs.Fields.{lists};
ghost use Rattle.sem_pages.specs.declared.page.Shown as page;
ghost use Rattle.sem_pages.specs.Comparing as comparing;
ghost use Rattle.sem_pages.specs.Pages as spec;

use crate::joined::Joined;
use crate::page::Shown;
use crate::word::Word;
use sem_bits::{Bits, Cursor};
use sem_profile::{Field, Format, Part};
use std::alloc::{AllocError, Global};

/// The uncompressed sides of the header fields, joined in field order. None where one isn't read, and above the limit of `Bits`.
#[inline(always)]
pub fn header_of(
    alloc: Global,
    fields: &[Field],
    shown: &[Shown],
) -> Result<Option<Bits>, AllocError>
    requires { length shown.now ≡ length fields.now }
    ensures { IfOk result (λ o. IfSome o (λ b. b ≡ header_bits (spec.level_by fields.now shown.now))) }
{
    let mut header = Joined::new(alloc);
    for i in 0..fields.len() {
        if !adds_header(&mut header, &fields[i], &shown[i])? {
            return Ok(None);
        }
    }
    header.finish(alloc)
}

/// How far bits are compared with others: so many of them are, and the others that come next, at most 64, aren't compared yet.
#[derive(Clone, Copy)]
struct Compared {
    place: usize,
    tail: Word,
}

/// Whether the bits are the uncompressed sides of the header fields, joined in field order. 64 bits are compared at a time. It takes no memory.
#[inline(always)]
pub fn is_header(bits: &Bits, fields: &[Field], shown: &[Shown]) -> bool
    requires { length shown.now ≡ length fields.now }
    ensures { IsTrue result → bits.now ≡ header_bits (spec.level_by fields.now shown.now) }
{
    let cursor = Cursor::new(bits);
    let mut compared = Compared {
        place: 0,
        tail: Word::new(),
    };
    for i in 0..fields.len() {
        if !goes_past(&cursor, &mut compared, &fields[i], &shown[i]) {
            return false;
        }
    }
    is_end(&cursor, &compared)
}

/// Goes past the uncompressed side of the field, if it is one of the header. False where that isn't read, or where it is found that other bits come next.
#[inline(always)]
fn goes_past(cursor: &Cursor<'_>, compared: &mut Compared, field: &Field, shown: &Shown) -> bool
    ensures { IsTrue result → (front : List Bool) → comparing.HasCome cursor.now.left compared.old front → comparing.HasCome cursor.now.left compared.new (front ++ header_bits (spec.sides_by field.now shown.now ∷ [])) }
{
    match field.declared.part {
        Part::Header => match &shown.uncompressed {
            Some(word) => goes_past_word(cursor, compared, word),
            None => false,
        },
        Part::Control | Part::Local => true,
    }
}

#[inline(always)]
fn goes_past_word(cursor: &Cursor<'_>, compared: &mut Compared, word: &Word) -> bool
    ensures { IsTrue result → (front : List Bool) → comparing.HasCome cursor.now.left compared.old front → comparing.HasCome cursor.now.left compared.new (front ++ word.now) }
{
    match compared.tail.joined(word) {
        Some(both) => {
            compared.tail = both;
            true
        }
        None => spills_past(cursor, compared, word),
    }
}

/// The same where more than 64 bits aren't compared then: the first 64 of them are.
#[inline(never)]
fn spills_past(cursor: &Cursor<'_>, compared: &mut Compared, word: &Word) -> bool
    requires { 64 < length compared.old.tail + length word.now }
    ensures { IsTrue result → (front : List Bool) → comparing.HasCome cursor.now.left compared.old front → comparing.HasCome cursor.now.left compared.new (front ++ word.now) }
{
    let (first, rest) = compared.tail.filled(word);
    let Some(found) = cursor.peek(compared.place, 64) else {
        return false;
    };
    let _most = cursor.rest();
    if found != first {
        return false;
    }
    compared.place += 64;
    compared.tail = rest;
    true
}

/// Whether the bits end with those that aren't compared yet.
#[inline(always)]
fn is_end(cursor: &Cursor<'_>, compared: &Compared) -> bool
    ensures { IsTrue result → (front : List Bool) → comparing.HasCome cursor.now.left compared.now front → cursor.now.left ≡ front }
{
    let count = compared.tail.len();
    let Some(found) = cursor.peek(compared.place, count) else {
        return false;
    };
    let most = cursor.rest();
    found == compared.tail.value() && compared.place + count == most
}

/// Adds the uncompressed side at the end, if the field is one of the header. False where it isn't read.
#[inline(always)]
fn adds_header(whole: &mut Joined, field: &Field, shown: &Shown) -> Result<bool, AllocError>
    ensures { IfOk result (λ b. IsTrue b → whole.new ≡ whole.old ++ header_bits (spec.sides_by field.now shown.now ∷ [])) }
{
    match field.declared.part {
        Part::Header => match &shown.uncompressed {
            Some(word) => {
                whole.add(word)?;
                Ok(true)
            }
            None => Ok(false),
        },
        Part::Control | Part::Local => Ok(true),
    }
}

/// Adds the compressed side of the field at the index. False where there is no such field or it isn't read.
#[inline(always)]
fn adds_packed(whole: &mut Joined, shown: &[Shown], index: usize) -> Result<bool, AllocError>
    ensures { IfOk result (λ b. IsTrue b → whole.new ≡ whole.old ++ unwrap_or (option_and_then (λ s. (page.out-Shown s).compressed) (slice_get shown.now index)) []) }
{
    match shown.get(index) {
        Some(field) => match &field.compressed {
            Some(word) => {
                whole.add(word)?;
                Ok(true)
            }
            None => Ok(false),
        },
        None => Ok(false),
    }
}

/// The compressed sides of the listed fields, joined in the listing's order. None above the limit of `Bits`, and where a listed field isn't there or isn't read.
#[inline(always)]
pub fn packed_of(
    alloc: Global,
    format: &Format,
    shown: &[Shown],
) -> Result<Option<Bits>, AllocError>
    requires { length shown.now ≡ length format.now.fields }
    ensures { IfOk result (λ o. IfSome o (λ b. b ≡ packed_bits format.now.listing (spec.level_by format.now.fields shown.now))) }
{
    let mut packed = Joined::new(alloc);
    for i in format.listing.get().as_slice() {
        if !adds_packed(&mut packed, shown, *i)? {
            return Ok(None);
        }
    }
    packed.finish(alloc)
}

/// Whether each field is read, and has no packed bits unless it is listed.
#[inline(always)]
pub fn are_unsent(listing: &[usize], shown: &[Shown]) -> bool
    ensures { IsTrue result → (i : ℕ) (s : page.Shown) → slice_get shown.now i ≡ Some s → spec.IsUnsent listing.now i s }
{
    for i in 0..shown.len() {
        if !is_unsent(listing, i, &shown[i]) {
            return false;
        }
    }
    true
}

/// The same of one field.
#[inline(always)]
fn is_unsent(listing: &[usize], index: usize, shown: &Shown) -> bool
    ensures { IsTrue result → spec.IsUnsent listing.now index shown.now }
{
    let Some(_) = &shown.uncompressed else {
        return false;
    };
    let Some(word) = &shown.compressed else {
        return false;
    };
    word.is_empty() || is_listed(listing, index)
}

fn is_listed(listing: &[usize], field: usize) -> bool
    ensures { IsTrue result → lists listing.now field ≡ true }
{
    listing.iter().any(|listed| *listed == field)
}
