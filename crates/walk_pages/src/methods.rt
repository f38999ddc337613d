//! Pages by the trees and the read plans of an accepted profile.

ghost use Rattle.std.specs.Prelude.{◌≡◌, IfOk, IfSome, IsTrue};
ghost use Rattle.walk_pages.specs.Drafts as spec;
ghost use Rattle.walk_pages.specs.Kept.{IsKeptIn};

use crate::draft::{Draft, Inside, WholePage};
use crate::ends::ended;
use crate::picks::picked;
use cert_accepted::Accepted;
use cert_compiled::PageOperation;
use sem_bits::{Bits, Cursor};
use sem_filling::FieldPath;
use sem_pages::{Page, PageFrame, add_values};
use sem_profile::{DEPTH_LIMIT, Encoding};
use smallvec::SmallVec;
use std::alloc::{AllocError, Global};

/// The page of the method whose packed bits begin so many places after the cursor's, where that is told.
#[cycle(reading)]
pub(crate) fn read_method(
    depth: usize,
    alloc: Global,
    accepted: &Accepted,
    frame: &PageFrame<'_>,
    cursor: &Cursor<'_>,
    from: usize,
) -> Result<Option<WholePage>, AllocError>
    requires { frame.now.methods.now ≡ accepted.now.profile.methods }
    ensures { IfOk result (λ o. IfSome o (spec.IsWholePage frame.now)) }
{
    let Some(start) = picked(alloc, accepted, frame, cursor, from)? else {
        return Ok(None);
    };
    let mut draft = Draft::new(alloc, start.format, start.told, frame, from)?;
    for operation in start.operations {
        if !step(depth, alloc, accepted, frame, &mut draft, operation, cursor)? {
            return Ok(None);
        }
    }
    ended(alloc, frame, start.index, draft)
}

/// The page of the top whose packed bits begin at the cursor's place, where that is told. What is steady of the last page is taken from that, where it is of the
/// same format.
pub(crate) fn read_top(
    alloc: Global,
    accepted: &Accepted,
    frame: &PageFrame<'_>,
    cursor: &Cursor<'_>,
    last: Option<Page>,
) -> Result<Option<WholePage>, AllocError>
    requires methods { frame.now.methods.now ≡ accepted.now.profile.methods }
    requires kept { IfSome last (IsKeptIn frame.now) }
    ensures { IfOk result (λ o. IfSome o (spec.IsWholePage frame.now)) }
{
    let Some(start) = picked(alloc, accepted, frame, cursor, 0)? else {
        return Ok(None);
    };
    let mut draft = Draft::after(alloc, start.index, start.format, start.told, frame, 0, last)?;
    for operation in start.operations {
        if !step(
            DEPTH_LIMIT,
            alloc,
            accepted,
            frame,
            &mut draft,
            operation,
            cursor,
        )? {
            return Ok(None);
        }
    }
    ended(alloc, frame, start.index, draft)
}

/// Does what an operation says. Whether that is done.
#[cycle(reading)]
#[inline(always)]
fn step(
    depth: usize,
    alloc: Global,
    accepted: &Accepted,
    frame: &PageFrame<'_>,
    draft: &mut Draft<'_>,
    operation: &PageOperation,
    cursor: &Cursor<'_>,
) -> Result<bool, AllocError>
    requires { frame.now.methods.now ≡ accepted.now.profile.methods }
    ensures { IfOk result (λ b. IsTrue b → spec.GoesOn frame.now draft.old draft.new) }
{
    match operation {
        PageOperation::Call { field, takes } => {
            let inside = Inside {
                field: *field,
                takes: *takes,
            };
            if let Some(count) = draft.packed_count(*field) {
                draft.pass(*takes, count);
                return Ok(true);
            }
            call(depth, alloc, accepted, frame, draft, inside, cursor)
        }
        _ => draft.operation(alloc, frame, operation, cursor),
    }
}

/// Reads what is inside a field that calls a method. Whether that is done.
#[cycle(reading)]
#[inline(never)]
fn call(
    depth: usize,
    alloc: Global,
    accepted: &Accepted,
    frame: &PageFrame<'_>,
    draft: &mut Draft<'_>,
    inside: Inside,
    cursor: &Cursor<'_>,
) -> Result<bool, AllocError>
    requires { frame.now.methods.now ≡ accepted.now.profile.methods }
    ensures { IfOk result (λ b. IsTrue b → spec.GoesOn frame.now draft.old draft.new) }
{
    let Some(found) = called(depth, alloc, accepted, frame, draft, inside, cursor)? else {
        return Ok(false);
    };
    Ok(draft.put_page(inside, found))
}

/// The page inside the field.
#[cycle(reading)]
#[inline(always)]
fn called(
    depth: usize,
    alloc: Global,
    accepted: &Accepted,
    frame: &PageFrame<'_>,
    draft: &Draft<'_>,
    inside: Inside,
    cursor: &Cursor<'_>,
) -> Result<Option<WholePage>, AllocError>
    requires { frame.now.methods.now ≡ accepted.now.profile.methods }
    ensures { IfOk result (λ o. IfSome o (spec.IsCalled frame.now draft.now inside.field)) }
{
    let Some(field) = draft.format.fields.get(inside.field) else {
        return Ok(None);
    };
    let Encoding::Call { method, arguments } = field.encoding.get() else {
        return Ok(None);
    };
    let mut values = SmallVec::<i64, 4>::new(alloc);
    if !add_values(arguments.as_slice(), &draft.view(), &mut values)? {
        return Ok(None);
    }
    let here = FieldPath::of(alloc, frame.path, field.declared.name.as_str())?;
    let inner = PageFrame {
        methods: frame.methods,
        context: frame.context,
        method: *method,
        arguments: values.as_slice(),
        path: here.as_str(),
        first: draft.place_of(frame, inside.field).saturating_add(1),
    };
    if inside.takes {
        read_inside(depth, alloc, accepted, &inner, cursor, draft.ahead)
    } else {
        let none = Bits::new(alloc);
        read_inside(depth, alloc, accepted, &inner, &Cursor::new(&none), 0)
    }
}

/// The page of a method that is called.
#[cycle(reading)]
#[inline(always)]
fn read_inside(
    depth: usize,
    alloc: Global,
    accepted: &Accepted,
    frame: &PageFrame<'_>,
    cursor: &Cursor<'_>,
    from: usize,
) -> Result<Option<WholePage>, AllocError>
    requires { frame.now.methods.now ≡ accepted.now.profile.methods }
    ensures { IfOk result (λ o. IfSome o (spec.IsWholePage frame.now)) }
{
    if depth == 0 {
        return Ok(None);
    }
    read_method(depth - 1, alloc, accepted, frame, cursor, from)
}
