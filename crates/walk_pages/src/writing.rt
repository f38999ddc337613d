//! Pages by the numbers of candidates and the write plans of an accepted profile.

ghost use Rattle.std.specs.Prelude.{◌≡◌, IfOk, IfSome, IsTrue, Some};
ghost use Rattle.sem_pages.specs.declared.frame.PageFrame.{PageFrame};
ghost use Rattle.walk_pages.specs.Drafts as spec;
ghost use Rattle.walk_pages.specs.Kept.{IsKeptIn};
ghost use Rattle.walk_pages.specs.Picks as picks;

use crate::choices::Choices;
use crate::draft::{Draft, Inside, PackedPage, Told, WholePage};
use crate::ends::{ended, ended_as};
use crate::picks::told_at;
use cert_accepted::Accepted;
use cert_compiled::{Length, Origin, PageWriting, format_left};
use sem_bits::{Bits, Cursor};
use sem_filling::whole_sides::reference_near;
use sem_filling::{AskedValue, FieldPath};
use sem_pages::{Page, PageFrame, Source, Word, add_values, natural};
use sem_profile::{DEPTH_LIMIT, Encoding, Format, Library, Method};
use smallvec::SmallVec;
use sqlite_items::at;
use std::alloc::{AllocError, Global};

/// Which filling of a method is written.
#[derive(Clone, Copy)]
pub(crate) enum Target {
    /// The candidate with this number.
    Candidate(u64),
    /// One of the format of this index, and inside it one of the first format that the arguments leave.
    Format(usize),
    /// One of the first format that the arguments leave.
    Fitting,
}

/// What is written: the header from a place of the cursor on, the values of the asked fields, and which filling.
#[derive(Clone, Copy)]
pub(crate) struct Given<'a, 'b> {
    pub(crate) header: &'a Cursor<'b>,
    pub(crate) from: usize,
    pub(crate) asked: &'a [AskedValue],
    pub(crate) target: Target,
}

impl<'a, 'b> Given<'a, 'b> {
    /// What is given of a filling inside, of which that is to be written: none of its fields is asked.
    fn inside(&self, from: usize, target: Target) -> Given<'a, 'b> {
        Given {
            header: self.header,
            from,
            asked: &self.asked[..0],
            target,
        }
    }
}

/// The page of the method that may be the filling that is to be written.
#[cycle(writing)]
pub(crate) fn write_method(
    depth: usize,
    alloc: Global,
    accepted: &Accepted,
    frame: &PageFrame<'_>,
    given: &Given<'_, '_>,
) -> Result<Option<WholePage>, AllocError>
    requires { frame.now.methods.now ≡ accepted.now.profile.methods }
    ensures { IfOk result (λ o. IfSome o (spec.IsWholePage frame.now)) }
{
    let Some(start) = start_for(accepted, frame, given.target) else {
        return Ok(None);
    };
    let mut draft = Draft::new(alloc, start.format, start.told, frame, given.from)?;
    draft.begin(start.choices);
    for operation in start.operations {
        if !step(depth, alloc, accepted, frame, &mut draft, operation, given)? {
            return Ok(None);
        }
    }
    ended(alloc, frame, start.index, draft)
}

/// The page of the top that may be the filling that is to be written, whose header is this one.
pub(crate) fn write_top(
    alloc: Global,
    accepted: &Accepted,
    frame: &PageFrame<'_>,
    given: &Given<'_, '_>,
    header: &Bits,
    last: Option<Page>,
) -> Result<Option<PackedPage>, AllocError>
    requires methods { frame.now.methods.now ≡ accepted.now.profile.methods }
    requires kept { IfSome last (IsKeptIn frame.now) }
    ensures { IfOk result (λ o. IfSome o (spec.IsPackedPage frame.now header.now)) }
{
    let Some(start) = start_for(accepted, frame, given.target) else {
        return Ok(None);
    };
    let mut draft = Draft::after(
        alloc,
        start.index,
        start.format,
        start.told,
        frame,
        given.from,
        last,
    )?;
    draft.begin(start.choices);
    for operation in start.operations {
        if !step(
            DEPTH_LIMIT,
            alloc,
            accepted,
            frame,
            &mut draft,
            operation,
            given,
        )? {
            return Ok(None);
        }
    }
    ended_as(alloc, frame, start.index, draft, header)
}

/// Does what an operation says. Whether that is done.
#[cycle(writing)]
#[inline(always)]
fn step(
    depth: usize,
    alloc: Global,
    accepted: &Accepted,
    frame: &PageFrame<'_>,
    draft: &mut Draft<'_>,
    operation: &PageWriting,
    given: &Given<'_, '_>,
) -> Result<bool, AllocError>
    requires { frame.now.methods.now ≡ accepted.now.profile.methods }
    ensures { IfOk result (λ b. IsTrue b → spec.GoesOn frame.now draft.old draft.new) }
{
    match operation {
        PageWriting::Call {
            field,
            takes,
            format,
        } => {
            let wanted = CallWriting {
                inside: Inside {
                    field: *field,
                    takes: *takes,
                },
                format: *format,
            };
            if draft.pass_up(*field, *takes) {
                return Ok(true);
            }
            if !call(depth, alloc, accepted, frame, draft, wanted, given)? {
                return Ok(false);
            }
            Ok(true)
        }
        PageWriting::Pass(count) => {
            draft.pass(true, *count);
            Ok(true)
        }
        PageWriting::Skip(field) => Ok(draft.skip_up(*field)),
        PageWriting::Field {
            field,
            origin,
            length,
        } => {
            if draft.pass_up(*field, is_taken(*origin)) {
                return Ok(true);
            }
            let wanted = FieldWriting {
                field: *field,
                origin: *origin,
                length: *length,
            };
            if !write_field(alloc, frame, draft, wanted, given)? {
                return Ok(false);
            }
            Ok(true)
        }
    }
}

/// A field that is written: where its bits come from, and how many they are.
#[derive(Clone, Copy)]
struct FieldWriting {
    field: usize,
    origin: Origin,
    length: Length,
}

/// Writes a field that calls no method, and of which nothing is read.
fn write_field(
    alloc: Global,
    frame: &PageFrame<'_>,
    draft: &mut Draft<'_>,
    wanted: FieldWriting,
    given: &Given<'_, '_>,
) -> Result<bool, AllocError>
    ensures { IfOk result (λ b. IsTrue b → spec.GoesOn frame.now draft.old draft.new) }
{
    let field = wanted.field;
    match wanted.origin {
        Origin::Library => draft.code(alloc, frame, field, false, given.header),
        Origin::Header => take_field(alloc, frame, draft, field, wanted.length, given.header),
        Origin::Asked(place) => match asked_at(given.asked, place) {
            Some(up) => draft.write(alloc, frame, field, up),
            None => Ok(false),
        },
        Origin::Chosen(width) => choose_field(alloc, frame, draft, field, width),
        Origin::Solved(number) => {
            let Some(count) = count_of(alloc, frame, draft, field, wanted.length)? else {
                return Ok(false);
            };
            draft.solve(alloc, frame, field, count, number)
        }
    }
}

/// Whether the bits are the next ones of the header.
#[inline(always)]
fn is_taken(origin: Origin) -> bool {
    matches!(origin, Origin::Header)
}

fn asked_at(asked: &[AskedValue], place: usize) -> Option<Word> {
    Word::of(&at(asked, place)?.bits)
}

/// Writes a field whose bits are the next digit.
fn choose_field(
    alloc: Global,
    frame: &PageFrame<'_>,
    draft: &mut Draft<'_>,
    field: usize,
    width: usize,
) -> Result<bool, AllocError>
    ensures { IfOk result (λ b. IsTrue b → spec.GoesOn frame.now draft.old draft.new) }
{
    if width >= 64 {
        return Ok(false);
    }
    let Some(digit) = draft.choose(1 << width) else {
        return Ok(false);
    };
    let Some(up) = Word::spelled(width, digit) else {
        return Ok(false);
    };
    draft.write(alloc, frame, field, up)
}

/// Writes a field whose bits are the next ones of the header.
fn take_field(
    alloc: Global,
    frame: &PageFrame<'_>,
    draft: &mut Draft<'_>,
    field: usize,
    length: Length,
    header: &Cursor<'_>,
) -> Result<bool, AllocError>
    ensures { IfOk result (λ b. IsTrue b → spec.GoesOn frame.now draft.old draft.new) }
{
    let Some(count) = count_of(alloc, frame, draft, field, length)? else {
        return Ok(false);
    };
    let source = Source {
        cursor: header,
        ahead: draft.ahead,
    };
    let Some(up) = source.word(count) else {
        return Ok(false);
    };
    if !draft.write(alloc, frame, field, up)? {
        return Ok(false);
    }
    draft.pass(true, count);
    Ok(true)
}

/// How many bits the uncompressed side of the field has.
#[inline(always)]
fn count_of(
    alloc: Global,
    frame: &PageFrame<'_>,
    draft: &Draft<'_>,
    field: usize,
    length: Length,
) -> Result<Option<usize>, AllocError> {
    match length {
        Length::Known(_) | Length::Given(_) => Ok(draft.count(field, length)),
        Length::Encoded => count_encoded(alloc, frame, draft, field),
    }
}

/// The same by its library method.
#[inline(never)]
fn count_encoded(
    alloc: Global,
    frame: &PageFrame<'_>,
    draft: &Draft<'_>,
    field: usize,
) -> Result<Option<usize>, AllocError> {
    let Some(declared) = draft.format.fields.get(field) else {
        return Ok(None);
    };
    match declared.encoding.get() {
        Encoding::Library(
            Library::Irregular { length } | Library::UncompressedValue { length, .. },
        ) => match natural(length, &draft.view()) {
            Some(count) => Ok(usize::try_from(count).ok()),
            None => Ok(None),
        },
        Encoding::Library(Library::Lsb { .. } | Library::Static) => {
            let place = draft.place_of(frame, field);
            match reference_near(alloc, frame.context, frame.path, declared, place)? {
                Some(reference) => Ok(Some(reference.len())),
                None => Ok(None),
            }
        }
        _ => Ok(None),
    }
}

/// A call that is written, and the format of the called method, by its index, where the arguments leave that on each level.
#[derive(Clone, Copy)]
struct CallWriting {
    inside: Inside,
    format: Option<usize>,
}

/// Writes what is inside a field that calls a method. Whether that is done.
#[cycle(writing)]
#[inline(never)]
fn call(
    depth: usize,
    alloc: Global,
    accepted: &Accepted,
    frame: &PageFrame<'_>,
    draft: &mut Draft<'_>,
    wanted: CallWriting,
    given: &Given<'_, '_>,
) -> Result<bool, AllocError>
    requires { frame.now.methods.now ≡ accepted.now.profile.methods }
    ensures { IfOk result (λ b. IsTrue b → spec.GoesOn frame.now draft.old draft.new) }
{
    let Some(target) = target_inside(accepted, draft, wanted, given.target) else {
        return Ok(false);
    };
    let inside = wanted.inside;
    let inner = given.inside(draft.ahead, target);
    let Some(found) = called(depth, alloc, accepted, frame, draft, inside, &inner)? else {
        return Ok(false);
    };
    Ok(put_written(draft, inside, found))
}

/// Which filling of the called method is written: that with the next digit, where the one of the whole has a number.
#[inline(always)]
fn target_inside(
    accepted: &Accepted,
    draft: &mut Draft<'_>,
    wanted: CallWriting,
    whole: Target,
) -> Option<Target>
    ensures { (frame : PageFrame) → spec.GoesOn frame draft.old draft.new }
{
    if let Target::Candidate(_) = whole {
        let ways = ways_of(accepted, draft, wanted.inside.field)?;
        let number = draft.choose(ways)?;
        return Some(Target::Candidate(number));
    }
    match wanted.format {
        Some(index) => Some(Target::Format(index)),
        None => Some(Target::Fitting),
    }
}

/// Puts the page inside the field, whose header is passed where it takes.
#[inline(always)]
fn put_written(draft: &mut Draft<'_>, inside: Inside, found: WholePage) -> bool
    ensures { (frame : PageFrame) → IsTrue result → spec.IsCalled frame draft.old inside.field found → spec.GoesOn frame draft.old draft.new }
{
    let count = found.whole.header.len();
    let unread = Inside {
        field: inside.field,
        takes: false,
    };
    if !draft.put_page(unread, found) {
        return false;
    }
    draft.pass(inside.takes, count);
    true
}

/// How many candidates the method has that the field calls.
#[inline(always)]
fn ways_of(accepted: &Accepted, draft: &Draft<'_>, field: usize) -> Option<u64> {
    let Encoding::Call { method, .. } = draft.format.fields.get(field)?.encoding.get() else {
        return None;
    };
    at(accepted.counts(), *method).copied()
}

/// The page inside the field.
#[cycle(writing)]
#[inline(always)]
fn called(
    depth: usize,
    alloc: Global,
    accepted: &Accepted,
    frame: &PageFrame<'_>,
    draft: &Draft<'_>,
    inside: Inside,
    given: &Given<'_, '_>,
) -> Result<Option<WholePage>, AllocError>
    requires { frame.now.methods.now ≡ accepted.now.profile.methods }
    ensures { IfOk result (λ o. IfSome o (spec.IsCalled frame.now draft.now inside.field)) }
{
    let Some(field) = draft.format.fields.get(inside.field) else {
        return Ok(None);
    };
    let Encoding::Call { method, arguments } = field.encoding.get() else {
        return Ok(None);
    };
    let mut values = SmallVec::<i64, 4>::new(alloc);
    if !add_values(arguments.as_slice(), &draft.view(), &mut values)? {
        return Ok(None);
    }
    let here = FieldPath::of(alloc, frame.path, field.declared.name.as_str())?;
    let inner = PageFrame {
        methods: frame.methods,
        context: frame.context,
        method: *method,
        arguments: values.as_slice(),
        path: here.as_str(),
        first: draft.place_of(frame, inside.field).saturating_add(1),
    };
    if !inside.takes {
        return Ok(None);
    }
    write_inside(depth, alloc, accepted, &inner, given)
}

/// The page of a method that is called.
#[cycle(writing)]
#[inline(always)]
fn write_inside(
    depth: usize,
    alloc: Global,
    accepted: &Accepted,
    frame: &PageFrame<'_>,
    given: &Given<'_, '_>,
) -> Result<Option<WholePage>, AllocError>
    requires { frame.now.methods.now ≡ accepted.now.profile.methods }
    ensures { IfOk result (λ o. IfSome o (spec.IsWholePage frame.now)) }
{
    if depth == 0 {
        return Ok(None);
    }
    write_method(depth - 1, alloc, accepted, frame, given)
}

/// Whether there are operations by which the top's candidate with this number is written.
pub fn has_operations(accepted: &Accepted, number: u64) -> bool {
    let profile = accepted.profile();
    start_of(accepted, profile.methods(), profile.top(), number).is_some()
}

/// Where a candidate begins: its format, its operations, and what is left of its number.
#[derive(Clone, Copy)]
pub(crate) struct Start<'a, 'b> {
    index: usize,
    format: &'a Format,
    told: Told<'b>,
    operations: &'b [PageWriting],
    choices: Choices,
}

/// Where the filling begins that is to be written.
#[inline(always)]
fn start_for<'a, 'b>(
    accepted: &'b Accepted,
    frame: &PageFrame<'a>,
    target: Target,
) -> Option<Start<'a, 'b>>
    ensures { IfSome result (picks.IsStart accepted.now frame.now.methods.now frame.now.method) }
{
    match target {
        Target::Candidate(number) => start_of(accepted, frame.methods, frame.method, number),
        Target::Format(index) => start_in(accepted, frame.methods, frame.method, index),
        Target::Fitting => {
            let index = format_left(
                accepted.compiled(),
                frame.methods,
                frame.method,
                frame.arguments,
            )?;
            start_in(accepted, frame.methods, frame.method, index)
        }
    }
}

/// The same in the format of that index, for who has no number.
fn start_in<'a, 'b>(
    accepted: &'b Accepted,
    methods: &'a [Method],
    method: usize,
    index: usize,
) -> Option<Start<'a, 'b>>
    ensures { IfSome result (picks.IsStart accepted.now methods.now method) }
{
    let plans = at(accepted.compiled().plan_acts.as_slice(), method)?.get(index)?;
    let operations = plans.page_writing.as_ref()?;
    Some(Start {
        index,
        format: methods.get(method)?.formats.get(index)?,
        told: told_at(accepted, method, index)?,
        operations: operations.as_slice(),
        choices: Choices::ANY,
    })
}

#[inline(always)]
fn start_of<'a, 'b>(
    accepted: &'b Accepted,
    methods: &'a [Method],
    method: usize,
    number: u64,
) -> Option<Start<'a, 'b>>
    ensures { IfSome result (picks.IsStart accepted.now methods.now method) }
{
    let spans = at(accepted.spans(), method)?;
    let mut rest = number;
    for (index, span) in spans.as_slice().iter().enumerate() {
        if rest < *span {
            let start = start_in(accepted, methods, method, index)?;
            return Some(Start {
                choices: Choices::new(rest, *span),
                ..start
            });
        }
        rest -= *span;
    }
    None
}
