//! What is written by a page.

ghost use Rattle.std.specs.Prelude.{IfOk, IfSome};
ghost use Rattle.walk_pages.specs.Kept.{IsKeptBy};
ghost use Rattle.walk_pages.specs.Writer as spec;

use crate::draft::PackedPage;
use crate::writing::{Given, Target, write_top};
use cert_accepted::Accepted;
use sem_bits::{Bits, Cursor};
use sem_context::Context;
use sem_filling::Item;
use sem_pages::{Page, PageFrame, has_asked};
use std::alloc::{AllocError, Global};

/// What was written: the page, and its packed bits.
#[derive(Drop)]
pub struct WrittenPage {
    pub page: Page,
    pub packed: Bits,
}

/// Writes a page that has the item, by the number of a candidate, where that is told at once. None, though there may be one, else. It isn't promised that the
/// page has that number.
pub fn write_page(
    alloc: Global,
    accepted: &Accepted,
    context: &Context,
    item: &Item,
    number: u64,
) -> Result<Option<WrittenPage>, AllocError>
    ensures { IfOk result (λ o. IfSome o (spec.IsWritten accepted.now context.now item.now)) }
{
    write(
        alloc,
        accepted,
        context,
        item,
        Target::Candidate(number),
        None,
    )
}

/// The same in the format of the top with this index, where each call goes to the first format that its arguments leave. It isn't promised that the page is of that
/// format. What is steady of the last page, which the context keeps, is taken from that where the format is the same.
pub fn write_format(
    alloc: Global,
    accepted: &Accepted,
    context: &Context,
    item: &Item,
    format: usize,
    last: Option<Page>,
) -> Result<Option<WrittenPage>, AllocError>
    requires { IfSome last (IsKeptBy accepted.now context.now) }
    ensures { IfOk result (λ o. IfSome o (spec.IsWritten accepted.now context.now item.now)) }
{
    write(alloc, accepted, context, item, Target::Format(format), last)
}

#[inline(always)]
fn write(
    alloc: Global,
    accepted: &Accepted,
    context: &Context,
    item: &Item,
    target: Target,
    last: Option<Page>,
) -> Result<Option<WrittenPage>, AllocError>
    requires { IfSome last (IsKeptBy accepted.now context.now) }
    ensures { IfOk result (λ o. IfSome o (spec.IsWritten accepted.now context.now item.now)) }
{
    let Some(found) = top_page(alloc, accepted, context, item, target, last)? else {
        return Ok(None);
    };
    let PackedPage { page, packed } = found;
    let profile = accepted.profile();
    let has_values = has_asked(
        profile.methods(),
        profile.top(),
        &page,
        item.asked.as_slice(),
    );
    if !has_values {
        return Ok(None);
    }
    Ok(Some(WrittenPage { page, packed }))
}

/// The page of the top with the item's header.
fn top_page(
    alloc: Global,
    accepted: &Accepted,
    context: &Context,
    item: &Item,
    target: Target,
    last: Option<Page>,
) -> Result<Option<PackedPage>, AllocError>
    requires { IfSome last (IsKeptBy accepted.now context.now) }
    ensures { IfOk result (λ o. IfSome o (spec.IsTopPage accepted.now context.now item.now.header)) }
{
    let profile = accepted.profile();
    let frame = PageFrame {
        methods: profile.methods(),
        context,
        method: profile.top(),
        arguments: [].as_slice(),
        path: "",
        first: 0,
    };
    let cursor = Cursor::new(&item.header);
    let given = Given {
        header: &cursor,
        from: 0,
        asked: item.asked.as_slice(),
        target,
    };
    write_top(alloc, accepted, &frame, &given, &item.header, last)
}
