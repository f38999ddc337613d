//! What is read by a page.

ghost use Rattle.std.specs.Prelude.{◌≡◌, IfOk, IfSome, IfNone, IsTrue, OnErr, false, []};
ghost use Rattle.sem_context.specs.Entries.{bits_at};
ghost use Rattle.sem_elsewhere.specs.Paths.{CallAlike};
ghost use Rattle.sem_filling.specs.declared.filling.Filling as filling;
ghost use Rattle.sem_filling.specs.Entries.{next};
ghost use Rattle.sem_filling.specs.Fillings.{asked_values, level};
ghost use Rattle.sem_filling.specs.Fronts.{FitsTop};
ghost use Rattle.sem_pages.specs.Pages.{IsPageOf, Shows};
ghost use Rattle.walk_pages.specs.Kept.{HasPaths, IsKeptBy};
ghost use Rattle.walk_pages.specs.Reader as spec;

use crate::draft::WholePage;
use crate::methods::read_top;
use cert_accepted::Accepted;
use sem_bits::{Bits, Cursor};
use sem_context::Context;
use sem_filling::{AskedValue, WholeSides};
use sem_pages::{Page, PageFrame, advance, asked_values};
use sqlite_items::{Items, at};
use std::alloc::{AllocError, Global};

/// What was read: the page, the header, and how many bits the packet took.
#[derive(Drop)]
pub struct ReadPage {
    pub header: Bits,
    pub page: Page,
    pub bits: usize,
}

/// Reads the page whose packed bits are at the cursor's place, where that is told at once. Else the cursor stays, though a filling may be there. What is steady of
/// the last page, which the context keeps, is taken from that where the format is the same; no answer hangs on it.
pub fn read_page(
    alloc: Global,
    accepted: &Accepted,
    context: &Context,
    cursor: &mut Cursor<'_>,
    last: Option<Page>,
) -> Result<Option<ReadPage>, AllocError>
    requires { IfSome last (IsKeptBy accepted.now context.now) }
    ensures read { IfOk result (λ o. IfSome o (spec.IsRead accepted.now context.now cursor.old cursor.new)) }
    ensures none { IfOk result (λ o. IfNone o (cursor.new ≡ cursor.old)) }
    ensures stays { OnErr result (cursor.new ≡ cursor.old) }
{
    let Some(found) = top_page(alloc, accepted, context, cursor, last)? else {
        return Ok(None);
    };
    let WholePage { page, whole } = found;
    let WholeSides { header, packed } = whole;
    if !cursor.skip(&packed) {
        return Ok(None);
    }
    Ok(Some(ReadPage {
        header,
        page,
        bits: packed.len(),
    }))
}

/// The page of the top.
#[inline(always)]
fn top_page(
    alloc: Global,
    accepted: &Accepted,
    context: &Context,
    cursor: &Cursor<'_>,
    last: Option<Page>,
) -> Result<Option<WholePage>, AllocError>
    requires { IfSome last (IsKeptBy accepted.now context.now) }
    ensures { IfOk result (λ o. IfSome o (λ w. IsPageOf accepted.now.profile.methods (bits_at context.now) accepted.now.profile.top [] [] w.page w.whole.header w.whole.packed)) }
{
    let profile = accepted.profile();
    if cursor.rest() < least_of(accepted, profile.top()) {
        return Ok(None);
    }
    let frame = PageFrame {
        methods: profile.methods(),
        context,
        method: profile.top(),
        arguments: [].as_slice(),
        path: "",
        first: 0,
    };
    read_top(alloc, accepted, &frame, cursor, last)
}

/// The least count of packed bits of the method, by its bounds.
fn least_of(accepted: &Accepted, method: usize) -> usize {
    match at(accepted.profile().sizes(), method) {
        Some(sizes) => usize::try_from(sizes.whole.compressed.least).unwrap_or(usize::MAX),
        None => 0,
    }
}

/// The asked values of what the page of the top shows, in field order. None where the top has no such format.
pub fn asked_of(
    alloc: Global,
    accepted: &Accepted,
    page: &Page,
) -> Result<Option<Items<AskedValue>>, AllocError>
    ensures { IfOk result (λ o. IfSome o (λ values. (f : filling.Filling) → Shows accepted.now.profile.methods accepted.now.profile.top page.now f → values ≡ asked_values (level f))) }
{
    let profile = accepted.profile();
    asked_values(alloc, profile.methods(), profile.top(), page)
}

/// Puts what the page of the top leaves into the context. False where the context, which stays then, has not the paths of its entries first, in their order.
pub fn goes_on(
    alloc: Global,
    accepted: &Accepted,
    context: &mut Context,
    page: &Page,
) -> Result<bool, AllocError>
    ensures ok { IfOk result (λ is. IsTrue is → (f : filling.Filling) → Shows accepted.now.profile.methods accepted.now.profile.top page.now f → context.new ≡ next context.old f) }
    ensures kept { IfOk result (λ is. IsTrue is → (f : filling.Filling) → FitsTop accepted.now.profile.methods accepted.now.profile.top (bits_at context.old) f → Shows accepted.now.profile.methods accepted.now.profile.top page.now f → IsKeptBy accepted.now context.new page.now) }
    ensures stays { IfOk result (λ is. is ≡ false → context.new ≡ context.old) }
    ensures err { OnErr result (context.new ≡ context.old) }
{
    let profile = accepted.profile();
    profile.keeps();
    let is = advance(
        alloc,
        context,
        profile.methods(),
        profile.top(),
        page,
        false,
    )?;
    Ok(is)
}

/// The same of a page whose filling fits, where the context is known to keep a page, or isn't. Where it is, and the methods call alike, no path is compared.
pub fn goes_on_after(
    alloc: Global,
    accepted: &Accepted,
    context: &mut Context,
    page: &Page,
    known: bool,
) -> Result<bool, AllocError>
    requires { IsTrue known → HasPaths accepted.now context.old }
    ensures ok { IfOk result (λ is. IsTrue is → (f : filling.Filling) → FitsTop accepted.now.profile.methods accepted.now.profile.top (bits_at context.old) f → Shows accepted.now.profile.methods accepted.now.profile.top page.now f → context.new ≡ next context.old f) }
    ensures kept { IfOk result (λ is. IsTrue is → (f : filling.Filling) → FitsTop accepted.now.profile.methods accepted.now.profile.top (bits_at context.old) f → Shows accepted.now.profile.methods accepted.now.profile.top page.now f → IsKeptBy accepted.now context.new page.now) }
    ensures stays { IfOk result (λ is. is ≡ false → context.new ≡ context.old) }
    ensures err { OnErr result (context.new ≡ context.old) }
{
    let profile = accepted.profile();
    profile.keeps();
    let told = are_told(accepted, known);
    let is = advance(alloc, context, profile.methods(), profile.top(), page, told)?;
    Ok(is)
}

/// Whether a page is kept, and the methods call alike.
#[inline(always)]
fn are_told(accepted: &Accepted, known: bool) -> bool
    ensures known { IsTrue result → IsTrue known }
    ensures alike { IsTrue result → CallAlike accepted.now.profile.methods }
{
    known && accepted.calls_alike()
}
