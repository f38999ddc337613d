//! The search for the best filling for an item, through the numbers of the top's candidates.

ghost use Rattle.std.specs.Prelude.{◌≡◌, ◌≤◌, ◌↔◌, ◌<◌, IsTrue, IfOk, IfSome, IfNone, Some, None, length, map, slice_get};
ghost use Rattle.sem_profile.specs.HeaderLimit.{header_limit};
ghost use Rattle.sem_context.specs.Entries.{bits_at};
ghost use Rattle.sem_filling.specs.Fillings as sides;
ghost use Rattle.cert_candidates.specs.Codes as codes;
ghost use Rattle.walk_engine.specs.Searching as spec;

use crate::top::{fits_with, top_place};
use cert_accepted::Accepted;
use cert_candidates::{Candidates, number_of};
use sem_bits::{Bits, Cursor};
use sem_context::Context;
use sem_filling::whole_sides::is_header;
use sem_filling::{AskedValue, FilledField, Filling, Item};
use sem_profile::DEPTH_LIMIT;
use std::alloc::{AllocError, Global};
use walk_guess::{guess_item, is_hopeful};
use walk_write::{HeaderSource, WriteFault, refuted, refuted_closely, write_method};

/// A filling with its packed bits.
#[derive(Drop)]
pub struct Packed {
    pub filling: Filling,
    pub packed: Bits,
}

/// A filling with its packed bits, and its number among the candidates of the top, which go in the order in which `pack` prefers them.
#[derive(Drop)]
pub struct Candidate {
    pub packed: Packed,
    pub number: u64,
}

/// What a candidate tells.
#[derive(Drop)]
pub(crate) enum Tried {
    /// It is the only one of its number that may fit and have the item, and it does.
    Found(Packed),
    /// No candidate with one of so many numbers from its own on fits and has the item.
    Passed(u64),
}

/// The first candidate from this number on that fits and has the item, or None where there is none.
pub(crate) fn first_from(
    alloc: Global,
    accepted: &Accepted,
    context: &Context,
    item: &Item,
    from: u64,
) -> Result<Option<Candidate>, AllocError>
    requires { length item.now.header ≤ header_limit }
    ensures found { IfOk result (λ o. IfSome o (spec.IsFirstFrom accepted.now context.now item.now from)) }
    ensures none { IfOk result (λ o. IfNone o (spec.NoneFrom accepted.now context.now item.now from)) }
{
    accepted.keeps();
    let profile = accepted.profile();
    profile.keeps();
    let count = accepted.counts()[profile.top()];
    let mut number = from;
    while number < count {
        number += looked_past(alloc, accepted, context, item, number)?;
        if number < count {
            match try_number(alloc, accepted, context, item, number)? {
                Tried::Found(packed) => return Ok(Some(Candidate { packed, number })),
                Tried::Passed(skipped) => number += skipped,
            }
        }
    }
    Ok(None)
}

/// How many candidates from this number on fail at looks, up to one of which these tell nothing.
pub(crate) fn looked_past(
    alloc: Global,
    accepted: &Accepted,
    context: &Context,
    item: &Item,
    number: u64,
) -> Result<u64, AllocError>
    requires short { length item.now.header ≤ header_limit }
    requires below { spec.IsBelow accepted.now number }
    ensures { IfOk result (λ many. 0 < many → spec.IsPassed accepted.now context.now item.now number many) }
{
    if is_drawn_first(accepted, context, number) {
        return Ok(0);
    }
    let place = top_place(accepted, context);
    let cursor = Cursor::new(&item.header);
    let source = HeaderSource {
        cursor: &cursor,
        from: 0,
        asked: item.asked.as_slice(),
    };
    let Some(many) = refuted(alloc, &place, &source, number)? else {
        return Ok(0);
    };
    Ok(many)
}

/// What the candidate with this number tells.
pub(crate) fn try_number(
    alloc: Global,
    accepted: &Accepted,
    context: &Context,
    item: &Item,
    number: u64,
) -> Result<Tried, AllocError>
    requires short { length item.now.header ≤ header_limit }
    requires below { spec.IsBelow accepted.now number }
    ensures { IfOk result (spec.IsTried accepted.now context.now item.now number) }
{
    match guessed(alloc, accepted, context, item, number)? {
        Some(found) => Ok(Tried::Found(found)),
        None => walked(alloc, accepted, context, item, number),
    }
}

/// What the walk that writes tells of it.
#[inline(never)]
pub(crate) fn walked(
    alloc: Global,
    accepted: &Accepted,
    context: &Context,
    item: &Item,
    number: u64,
) -> Result<Tried, AllocError>
    requires short { length item.now.header ≤ header_limit }
    requires below { spec.IsBelow accepted.now number }
    ensures { IfOk result (spec.IsTried accepted.now context.now item.now number) }
{
    let place = top_place(accepted, context);
    let cursor = Cursor::new(&item.header);
    let source = HeaderSource {
        cursor: &cursor,
        from: 0,
        asked: item.asked.as_slice(),
    };
    if let Some(many) = refuted_closely(DEPTH_LIMIT, alloc, &place, &source, number)? {
        return Ok(Tried::Passed(many));
    }
    match write_method(DEPTH_LIMIT, alloc, &place, &source, number) {
        Ok(filling) => judged(alloc, accepted, context, item, filling),
        Err(WriteFault::Failed(skipped)) => Ok(Tried::Passed(skipped)),
        Err(WriteFault::OutOfMemory) => Err(AllocError),
    }
}

/// Whether the candidate is drawn up before any other look at it: the first one, where that mostly leads to a filling, and the last one, which mostly takes what
/// no other takes. In an empty context there are no references but those of INITIAL, so the first one, which leaves out most, is looked at there.
fn is_drawn_first(accepted: &Accepted, context: &Context, number: u64) -> bool {
    is_last(accepted, number)
        || number == 0 && context.len() > 0 && is_hopeful(accepted, context, number)
}

/// Whether no candidate of the top has a number above this one.
fn is_last(accepted: &Accepted, number: u64) -> bool {
    match accepted.counts().get(accepted.profile().top()) {
        Some(count) => number >= count.saturating_sub(1),
        None => false,
    }
}

/// A filling drawn up for the number, where it is the one that has it: it fits, and has the item and the number.
fn guessed(
    alloc: Global,
    accepted: &Accepted,
    context: &Context,
    item: &Item,
    number: u64,
) -> Result<Option<Packed>, AllocError>
    requires { length item.now.header ≤ header_limit }
    ensures { IfOk result (λ o. IfSome o (λ w. spec.IsTried accepted.now context.now item.now number (Tried.Found w))) }
{
    accepted.keeps();
    accepted.profile().keeps();
    let Some(filling) = guess_item(alloc, accepted, context, item, number) else {
        return Ok(None);
    };
    let has_it = has_number(alloc, accepted, &filling, number);
    if !has_it {
        return Ok(None);
    }
    packed_if_right(alloc, accepted, context, item, filling)
}

/// Whether the filling has the number, as far as that is told.
fn has_number(alloc: Global, accepted: &Accepted, filling: &Filling, number: u64) -> bool
    ensures { IsTrue result → codes.number accepted.now.profile.methods accepted.now.certificate.methods accepted.now.counts filling.now accepted.now.profile.top ≡ number }
{
    accepted.keeps();
    let profile = accepted.profile();
    profile.keeps();
    let candidates = Candidates {
        methods: profile.methods(),
        entries: accepted.certificate().methods(),
        counts: accepted.counts(),
        spans: accepted.spans(),
    };
    match number_of(alloc, filling, &candidates, profile.top()) {
        Some(own) => own == number,
        None => false,
    }
}

/// What a filling tells that is the only one which may have the number.
fn judged(
    alloc: Global,
    accepted: &Accepted,
    context: &Context,
    item: &Item,
    filling: Filling,
) -> Result<Tried, AllocError>
    requires { length item.now.header ≤ header_limit }
    ensures { IfOk result (λ t. spec.Tells accepted.now context.now item.now filling t) }
{
    match packed_if_right(alloc, accepted, context, item, filling)? {
        Some(found) => Ok(Tried::Found(found)),
        None => Ok(Tried::Passed(1)),
    }
}

/// The filling with its packed bits, where it fits and has the item.
#[inline(always)]
fn packed_if_right(
    alloc: Global,
    accepted: &Accepted,
    context: &Context,
    item: &Item,
    filling: Filling,
) -> Result<Option<Packed>, AllocError>
    requires { length item.now.header ≤ header_limit }
    ensures found { IfOk result (λ o. IfSome o (λ w. spec.IsRight accepted.now context.now item.now filling w)) }
    ensures none { IfOk result (λ o. IfNone o (spec.IsWrong accepted.now context.now item.now filling)) }
{
    match packed_of(alloc, accepted, context, item, &filling)? {
        Some(packed) => Ok(Some(Packed { filling, packed })),
        None => Ok(None),
    }
}

/// The packed bits of the filling, where it fits and has the item.
fn packed_of(
    alloc: Global,
    accepted: &Accepted,
    context: &Context,
    item: &Item,
    filling: &Filling,
) -> Result<Option<Bits>, AllocError>
    ensures found { IfOk result (λ o. IfSome o (spec.HasPacked accepted.now context.now item.now filling.now)) }
    ensures none { IfOk result (λ o. IfNone o (spec.IsWrong accepted.now context.now item.now filling.now)) }
{
    if !has_item(item, filling) {
        return Ok(None);
    }
    let judged = fits_with(alloc, accepted, context, filling, &item.header)?;
    let Some(packed) = judged else {
        return Ok(None);
    };
    Ok(Some(packed))
}

/// Whether the filling has the item. It takes no memory.
pub fn has_item(item: &Item, filling: &Filling) -> bool
    ensures { IsTrue result ↔ (sides.item filling.now ≡ item.now) }
{
    is_header(&item.header, filling) && has_values(filling.fields.as_slice(), item.asked.as_slice())
}

/// Whether the asked fields have these values, in field order.
fn has_values(fields: &[FilledField], values: &[AskedValue]) -> bool
    ensures { IsTrue result ↔ (sides.asked_values (map sides.sides_of fields.now) ≡ values.now) }
{
    let mut place = 0;
    for field in fields {
        if !field.declared.asked {
            continue;
        }
        if !is_next(field, values, place) {
            return false;
        }
        place += 1;
    }
    is_end(values, place)
}

/// Whether there is no value at the place.
fn is_end(values: &[AskedValue], place: usize) -> bool
    ensures { IsTrue result ↔ (slice_get values.now place ≡ None) }
{
    match values.get(place) {
        Some(_) => false,
        None => true,
    }
}

/// Whether the value at the place is that of the field.
fn is_next(field: &FilledField, values: &[AskedValue], place: usize) -> bool
    ensures within { IsTrue result → place < length values.now }
    ensures same { IsTrue result ↔ (slice_get values.now place ≡ Some (sides.value_of field.now)) }
{
    match values.get(place) {
        Some(value) => is_value(field, value),
        None => false,
    }
}

/// Whether the value is that of the field.
fn is_value(field: &FilledField, value: &AskedValue) -> bool
    ensures { IsTrue result ↔ (sides.value_of field.now ≡ value.now) }
{
    field.declared.name.as_str() == value.name.as_str() && field.uncompressed == value.bits
}
