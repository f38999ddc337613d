//! From an item to packed bits, by a page where that is told at once.

ghost use Rattle.std.specs.Prelude.{◌≡◌, ◌<◌, ◌≤◌, Err, Some, IsTrue, IfOk, IfErr, IfSome, IfNone, length};
ghost use Rattle.sem_filling.specs.declared.filling.Filling as filling;
ghost use Rattle.sem_pages.specs.Pages.{Shows};
ghost use Rattle.sem_profile.specs.HeaderLimit.{header_limit};
ghost use Rattle.walk_engine.specs.Searching as searching;
ghost use Rattle.walk_engine.specs.Sending as spec;
ghost use Rattle.walk_engine.specs.Writing as writing;
ghost use Rattle.walk_pages.specs.Kept.{IsKeptBy};

use crate::asked::wrong_asked;
use crate::search::{Packed, Tried, looked_past, try_number, walked};
use crate::top::top_place;
use crate::writer::PackFault;
use cert_accepted::Accepted;
use cert_candidates::Candidates;
use sem_bits::Cursor;
use sem_context::Context;
use sem_filling::Item;
use sem_pages::Page;
use sem_profile::HEADER_LIMIT;
use std::alloc::{AllocError, Global};
use walk_pages::{WrittenPage, has_operations, page_number, write_format, write_page};
use walk_write::{HeaderSource, refuted_format, single_format};

/// What was packed: a page that shows the best filling, or that itself, each with the packed bits.
#[derive(Drop)]
pub enum Sent {
    Page(WrittenPage),
    Filling(Packed),
}

/// The same as `pack`, for who needs no filling: it is a page where one is written at once. The answer doesn't hang on what is likely: the format, by its index,
/// that takes the item, as it took the one before. It is written at once, and looked at only where that fails. Nor does it hang on the last page, which the context
/// has: what is steady of that is written once more where the format is the same.
pub fn pack_page(
    alloc: Global,
    accepted: &Accepted,
    context: &Context,
    item: &Item,
    likely: Option<usize>,
    last: Option<Page>,
) -> Result<Sent, PackFault>
    requires { IfSome last (IsKeptBy accepted.now context.now) }
    ensures sent { IfOk result (spec.IsPackedAs accepted.now context.now item.now) }
    // as for `pack`
    ensures fault { IfErr result (λ e. writing.Blames e accepted.now context.now item.now) }
    ensures long { header_limit < length item.now.header → result ≡ Err PackFault.HeaderLength }
{
    if item.header.len() > HEADER_LIMIT {
        return Err(PackFault::HeaderLength);
    }
    if let Some(name) = wrong_asked(accepted.profile().asked(), item.asked.as_slice()) {
        return Err(PackFault::Asked(name.share()?));
    }
    let mut last = last;
    match first_sent(alloc, accepted, context, item, likely, &mut last)? {
        Some(found) => Ok(found),
        None => Err(PackFault::NoFormat),
    }
}

/// The first candidate that fits and has the item, or None where there is none.
fn first_sent(
    alloc: Global,
    accepted: &Accepted,
    context: &Context,
    item: &Item,
    likely: Option<usize>,
    last: &mut Option<Page>,
) -> Result<Option<Sent>, AllocError>
    requires short { length item.now.header ≤ header_limit }
    requires kept { IfSome last.old (IsKeptBy accepted.now context.now) }
    ensures found { IfOk result (λ o. IfSome o (spec.IsBestSent accepted.now context.now item.now)) }
    ensures none { IfOk result (λ o. IfNone o (searching.NoneFrom accepted.now context.now item.now 0)) }
{
    accepted.keeps();
    let profile = accepted.profile();
    profile.keeps();
    let count = accepted.counts()[profile.top()];
    let mut number = 0;
    while number < count {
        let told = sent_in_format(alloc, accepted, context, item, likely, last, number)?;
        match told {
            InFormat::Written(page) => return Ok(Some(Sent::Page(page))),
            InFormat::Passed(many) => {
                number += many;
                continue;
            }
            InFormat::Untold => {}
        }
        number += looked_past(alloc, accepted, context, item, number)?;
        if number < count {
            if let Some(written) = written(alloc, accepted, context, item, number)? {
                return Ok(Some(Sent::Page(written)));
            }
            match not_written(alloc, accepted, context, item, number)? {
                Tried::Found(packed) => return Ok(Some(Sent::Filling(packed))),
                Tried::Passed(skipped) => number += skipped,
            }
        }
    }
    Ok(None)
}

/// What is told of a format that begins with a number, and has one candidate for an item.
#[derive(Drop)]
enum InFormat {
    /// A page of the format that shows the best filling of the candidates from the number on.
    Written(WrittenPage),
    /// So many candidates from the number on fail.
    Passed(u64),
    /// Nothing is told, or the number begins no such format.
    Untold,
}

/// Writes a page of the format that begins with the number, where that has one candidate for an item: then no choice among its candidates has to be looked for.
#[tactic(auto, using(crate::proofs::SendingFirst::still_kept))]
fn sent_in_format(
    alloc: Global,
    accepted: &Accepted,
    context: &Context,
    item: &Item,
    likely: Option<usize>,
    last: &mut Option<Page>,
    number: u64,
) -> Result<InFormat, AllocError>
    requires short { length item.now.header ≤ header_limit }
    requires below { searching.IsBelow accepted.now number }
    requires kept { IfSome last.old (IsKeptBy accepted.now context.now) }
    ensures is { IfOk result (spec.IsInFormat accepted.now context.now item.now number) }
    ensures kept { IfOk result (λ _. IfSome last.new (IsKeptBy accepted.now context.now)) }
{
    accepted.keeps();
    accepted.profile().keeps();
    let place = top_place(accepted, context);
    let Some(format) = single_format(&place, number) else {
        return Ok(InFormat::Untold);
    };
    let is_likely = likely == Some(format);
    if !is_likely {
        if let Some(many) = failing(alloc, accepted, context, item, number)? {
            return Ok(InFormat::Passed(many));
        }
    }
    let page = taken_where(is_likely, last);
    if let Some(written) = write_format(alloc, accepted, context, item, format, page)? {
        return Ok(in_format(written, format));
    }
    if is_likely {
        if let Some(many) = failing(alloc, accepted, context, item, number)? {
            return Ok(InFormat::Passed(many));
        }
    }
    Ok(InFormat::Untold)
}

/// The page, which is taken, where that is asked for.
#[inline(always)]
fn taken_where(asked: bool, last: &mut Option<Page>) -> Option<Page>
    ensures taken { IfSome result (λ p. last.old ≡ Some p) }
    ensures left { IfSome last.new (λ p. last.old ≡ Some p) }
{
    if asked { last.take() } else { None }
}

/// How many candidates fail from the number on, where it begins a format that a look at it refutes.
fn failing(
    alloc: Global,
    accepted: &Accepted,
    context: &Context,
    item: &Item,
    number: u64,
) -> Result<Option<u64>, AllocError>
    requires short { length item.now.header ≤ header_limit }
    requires below { searching.IsBelow accepted.now number }
    ensures { IfOk result (λ o. IfSome o (searching.IsPassed accepted.now context.now item.now number)) }
{
    accepted.keeps();
    accepted.profile().keeps();
    let place = top_place(accepted, context);
    let cursor = Cursor::new(&item.header);
    let source = HeaderSource {
        cursor: &cursor,
        from: 0,
        asked: item.asked.as_slice(),
    };
    refuted_format(alloc, &place, &source, number)
}

/// The page, if it is of that format.
#[inline(always)]
fn in_format(written: WrittenPage, format: usize) -> InFormat
    ensures { spec.IsOfFormat written format result }
{
    if written.page.format == format {
        InFormat::Written(written)
    } else {
        InFormat::Untold
    }
}

/// What a candidate tells that is written by no page. Where there are operations for it, it mostly fails, and nothing is drawn up for it.
fn not_written(
    alloc: Global,
    accepted: &Accepted,
    context: &Context,
    item: &Item,
    number: u64,
) -> Result<Tried, AllocError>
    requires short { length item.now.header ≤ header_limit }
    requires below { searching.IsBelow accepted.now number }
    ensures { IfOk result (searching.IsTried accepted.now context.now item.now number) }
{
    if has_operations(accepted, number) {
        walked(alloc, accepted, context, item, number)
    } else {
        try_number(alloc, accepted, context, item, number)
    }
}

/// The page of the candidate with this number, where it is written at once.
fn written(
    alloc: Global,
    accepted: &Accepted,
    context: &Context,
    item: &Item,
    number: u64,
) -> Result<Option<WrittenPage>, AllocError>
    ensures { IfOk result (λ o. IfSome o (spec.IsWrittenFor accepted.now context.now item.now number)) }
{
    accepted.keeps();
    accepted.profile().keeps();
    let Some(written) = write_page(alloc, accepted, context, item, number)? else {
        return Ok(None);
    };
    let has_it = has_number(alloc, accepted, &written.page, number);
    if has_it { Ok(Some(written)) } else { Ok(None) }
}

/// Whether what the page shows has the number, as far as that is told.
fn has_number(alloc: Global, accepted: &Accepted, page: &Page, number: u64) -> bool
    ensures { IsTrue result → (f : filling.Filling) → Shows accepted.now.profile.methods accepted.now.profile.top page.now f → searching.number_in accepted.now f ≡ number }
{
    accepted.keeps();
    let profile = accepted.profile();
    profile.keeps();
    let candidates = Candidates {
        methods: profile.methods(),
        entries: accepted.certificate().methods(),
        counts: accepted.counts(),
        spans: accepted.spans(),
    };
    match page_number(page, alloc, &candidates, profile.top()) {
        Some(own) => own == number,
        None => false,
    }
}
