//! The end of a level that is read.

ghost use Rattle.std.specs.Prelude.{◌≡◌, ℕ, List, Bool, Some, IfOk, IfSome, IsTrue, slice_get};
ghost use Rattle.sem_filling.specs.Fillings.{header_bits};
ghost use Rattle.sem_filling.specs.Fits.{format_at};
ghost use Rattle.sem_pages.specs.declared.page.Shown.{out-Shown};
ghost use Rattle.sem_pages.specs.Pages.{level_by};
ghost use Rattle.sem_pages.specs.Prepared.{IsPrepared};
ghost use Rattle.sem_profile.specs.declared.profile.Constraint.{Constraint};
ghost use Rattle.walk_pages.specs.Drafts as spec;

use crate::draft::{Draft, PackedPage, WholePage};
use sem_bits::Bits;
use sem_filling::WholeSides;
use sem_pages::{
    Page, PageFrame, Prepared, Shown, View, Word, are_unsent, constraint_holds, have_lengths,
    header_of, is_header, packed_of, summed,
};
use sem_profile::{Constraint, Encoding, Field, Format, Library, Shared};
use sqlite_items::{Items, at};
use std::alloc::{AllocError, Global};

/// The page of a draft of the frame's method, where each field of the format is there, and all else holds that the format says.
#[inline(always)]
pub(crate) fn ended(
    alloc: Global,
    frame: &PageFrame<'_>,
    index: usize,
    draft: Draft<'_>,
) -> Result<Option<WholePage>, AllocError>
    requires right { spec.IsRight frame.now draft }
    requires format { format_at frame.now.methods.now frame.now.method index ≡ Some draft.format.now }
    requires arguments { draft.arguments.now ≡ frame.now.arguments.now }
    requires prepared { IsPrepared draft.format.now draft.told.prepared.now }
    ensures { IfOk result (λ o. IfSome o (spec.IsWholePage frame.now)) }
{
    if draft.fields.len() != draft.format.fields.len() {
        return Ok(None);
    }
    let found = header_of(
        alloc,
        draft.format.fields.as_slice(),
        draft.fields.as_slice(),
    )?;
    let Some(header) = found else {
        return Ok(None);
    };
    let Some(found) = ended_with(alloc, frame, index, draft, &header)? else {
        return Ok(None);
    };
    let PackedPage { page, packed } = found;
    let whole = WholeSides { header, packed };
    Ok(Some(WholePage { page, whole }))
}

/// The same where the header has to be this one, for who has it.
#[inline(always)]
pub(crate) fn ended_as(
    alloc: Global,
    frame: &PageFrame<'_>,
    index: usize,
    draft: Draft<'_>,
    header: &Bits,
) -> Result<Option<PackedPage>, AllocError>
    requires right { spec.IsRight frame.now draft }
    requires format { format_at frame.now.methods.now frame.now.method index ≡ Some draft.format.now }
    requires arguments { draft.arguments.now ≡ frame.now.arguments.now }
    requires prepared { IsPrepared draft.format.now draft.told.prepared.now }
    ensures { IfOk result (λ o. IfSome o (spec.IsPackedPage frame.now header.now)) }
{
    if draft.fields.len() != draft.format.fields.len() {
        return Ok(None);
    }
    let is_same = is_header(
        header,
        draft.format.fields.as_slice(),
        draft.fields.as_slice(),
    );
    if !is_same {
        return Ok(None);
    }
    ended_with(alloc, frame, index, draft, header)
}

/// The same where the header is this one.
#[inline(always)]
fn ended_with(
    alloc: Global,
    frame: &PageFrame<'_>,
    index: usize,
    draft: Draft<'_>,
    header: &Bits,
) -> Result<Option<PackedPage>, AllocError>
    requires right { spec.IsRight frame.now draft }
    requires format { format_at frame.now.methods.now frame.now.method index ≡ Some draft.format.now }
    requires arguments { draft.arguments.now ≡ frame.now.arguments.now }
    requires prepared { IsPrepared draft.format.now draft.told.prepared.now }
    requires header { header.now ≡ header_bits (level_by draft.format.now.fields draft.fields) }
    ensures { IfOk result (λ o. IfSome o (spec.IsPackedPage frame.now header.now)) }
{
    let Draft {
        format,
        told,
        arguments,
        fields,
        ahead: _ahead,
        solved,
        choices: _choices,
    } = draft;
    let mut fields = fields;
    if !end_sums(alloc, format, arguments, &mut fields, header)? {
        return Ok(None);
    }
    let Some(packed) = packed_of(alloc, format, fields.as_slice())? else {
        return Ok(None);
    };
    if !are_unsent(format.listing.get().as_slice(), fields.as_slice()) {
        return Ok(None);
    }
    let view = View::at_end(fields.as_slice(), arguments, header, &packed);
    if !constraints_hold(format, told.prepared, &view, solved.as_slice()) {
        return Ok(None);
    }
    Ok(Some(PackedPage {
        page: Page {
            format: index,
            fields,
        },
        packed,
    }))
}

/// Whether each constraint of the format is solved or holds.
#[inline(always)]
fn constraints_hold(format: &Format, prepared: &Prepared, view: &View<'_>, solved: &[usize]) -> bool
    requires { IsPrepared format.now prepared.now }
    ensures { IsTrue result → spec.AreSettled view.now format.now solved.now }
{
    have_lengths(prepared.lengths.as_slice(), view)
        && others_hold(
            format.constraints.as_slice(),
            prepared.others.as_slice(),
            view,
            solved,
        )
}

/// Whether each of these constraints, by their indices, is solved or holds.
fn others_hold(
    constraints: &[Shared<Constraint>],
    others: &[usize],
    view: &View<'_>,
    solved: &[usize],
) -> bool
    ensures { IsTrue result → (m j : ℕ) → slice_get others.now m ≡ Some j → spec.IsSettled view.now constraints.now solved.now j }
{
    for index in others {
        if !is_settled(constraints, *index, view, solved) {
            return false;
        }
    }
    true
}

/// Whether the constraint of that index is solved or holds.
#[inline(always)]
fn is_settled(
    constraints: &[Shared<Constraint>],
    index: usize,
    view: &View<'_>,
    solved: &[usize],
) -> bool
    ensures { IsTrue result → spec.IsSettled view.now constraints.now solved.now index }
{
    if is_solved(solved, index) {
        return true;
    }
    match at(constraints, index) {
        Some(constraint) => constraint_holds(constraint.get(), view),
        None => false,
    }
}

fn is_solved(solved: &[usize], number: usize) -> bool
    ensures { IsTrue result → ((n : ℕ) × (slice_get solved.now n ≡ Some number)) }
{
    solved.iter().any(|known| *known == number)
}

/// Whether each listed field whose uncompressed side isn't there is a checksum, which is right where it is there. It has both sides then, the one without bits.
#[inline(always)]
fn end_sums(
    alloc: Global,
    format: &Format,
    arguments: &[i64],
    fields: &mut Items<Shown>,
    header: &Bits,
) -> Result<bool, AllocError>
    ensures { IfOk result (λ b. IsTrue b → spec.AreEnded format.now arguments.now header.now fields.old fields.new) }
{
    for i in format.listing.get().as_slice() {
        // Most fields are no checksums, for which nothing has to be called.
        if is_up(fields.as_slice(), *i) {
            continue;
        }
        if !is_ended(alloc, format, arguments, fields, header, *i)? {
            return Ok(false);
        }
    }
    Ok(true)
}

/// Whether the uncompressed side of the field is there.
#[inline(always)]
fn is_up(fields: &[Shown], index: usize) -> bool {
    match at(fields, index) {
        Some(shown) => shown.uncompressed.is_some(),
        None => false,
    }
}

/// The same of one field.
#[inline(never)]
fn is_ended(
    alloc: Global,
    format: &Format,
    arguments: &[i64],
    fields: &mut Items<Shown>,
    header: &Bits,
    index: usize,
) -> Result<bool, AllocError>
    ensures { IfOk result (λ b. IsTrue b → spec.AreEnded format.now arguments.now header.now fields.old fields.new) }
{
    let Some(shown) = fields.get(index) else {
        return Ok(false);
    };
    if shown.uncompressed.is_some() {
        return Ok(true);
    }
    let Some(field) = format.fields.get(index) else {
        return Ok(false);
    };
    let view = View::with_header(fields.as_slice(), arguments, header);
    let Some(sum) = sum_of(alloc, &view, field)? else {
        return Ok(false);
    };
    if !is_sum(shown, &sum) {
        return Ok(false);
    }
    let ended = Shown {
        uncompressed: Some(Word::new()),
        compressed: Some(sum),
        inner: None,
    };
    fields.set(index, ended);
    Ok(true)
}

/// Whether the packed side isn't there, or is this checksum.
#[inline(always)]
fn is_sum(shown: &Shown, sum: &Word) -> bool
    ensures { IsTrue result → (b : List Bool) → (out-Shown shown.now).compressed ≡ Some b → b ≡ sum.now }
{
    match &shown.compressed {
        Some(word) => word.is(sum),
        None => true,
    }
}

/// The packed side of a field that is a checksum.
fn sum_of(alloc: Global, view: &View<'_>, field: &Field) -> Result<Option<Word>, AllocError>
    ensures { IfOk result (λ o. IfSome o (spec.IsSummed view.now field.now)) }
{
    match field.encoding.get() {
        Encoding::Library(Library::Crc(crc)) => summed(alloc, view, crc.get()),
        _ => Ok(None),
    }
}
