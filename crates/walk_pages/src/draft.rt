//! A level that is being read.

ghost use Rattle.std.specs.Prelude.{◌≡◌, IfOk, IfSome, IsTrue, None, Some, length, slice_get};
ghost use Rattle.sem_context.specs.Entries.{bits_at};
ghost use Rattle.sem_filling.specs.Fits.{format_at};
ghost use Rattle.sem_profile.specs.declared.profile.Field as normal;
ghost use Rattle.sem_profile.specs.declared.profile.Encoding.TheVariants as encoding;
ghost use Rattle.sem_pages.specs.declared.page.Shown.{out-Shown};
ghost use Rattle.sem_pages.specs.declared.page.Shown as page;
ghost use Rattle.sem_pages.specs.declared.frame.PageFrame.{PageFrame};
ghost use Rattle.sem_pages.specs.Pages.{IsPlain};
ghost use Rattle.sem_pages.specs.Made.{AreMade};
ghost use Rattle.sem_pages.specs.Prepared.{IsPrepared};
ghost use Rattle.sem_pages.specs.Steady.{AreKept, IsSteady};
ghost use Rattle.walk_pages.specs.Drafts as spec;
ghost use Rattle.walk_pages.specs.Kept.{AreLeft, IsKeptIn};

use crate::choices::Choices;
use cert_compiled::{Length, PageOperation};
use cert_rules::equations::{length_given, remainder_form, value_given};
use sem_bits::{Bits, Cursor};
use sem_expr::{Expr, Side};
use sem_filling::WholeSides;
use sem_pages::{
    BothSides, Page, PageFrame, Prepared, Shown, Source, View, Word, coded, encoded, is_steady,
    natural, value,
};
use sem_profile::{Constraint, Encoding, Field, Format, Library, Method};
use smallvec::SmallVec;
use sqlite_items::{Items, at};
use std::alloc::{AllocError, Global};

/// A level that is being read: its format, what that tells of it, the values of the parameters, the fields so far, how many places after the cursor's what is
/// next of the source stands, the constraints that hold of each level that has what is read, by their indices, and in writing what is left of the number.
#[derive(Drop)]
pub(crate) struct Draft<'a> {
    pub(crate) format: &'a Format,
    pub(crate) told: Told<'a>,
    pub(crate) arguments: &'a [i64],
    pub(crate) fields: Items<Shown>,
    pub(crate) ahead: usize,
    pub(crate) solved: SmallVec<usize, 4>,
    pub(crate) choices: Choices,
}

/// What is told of a format before a level of it is read: by itself, and for each field how many entries of the context may stand before its own.
#[derive(Clone, Copy)]
pub(crate) struct Told<'a> {
    pub(crate) prepared: &'a Prepared,
    pub(crate) places: &'a [usize],
}

/// A call: the field that calls, and whether the page inside takes from the source.
#[derive(Clone, Copy)]
pub(crate) struct Inside {
    pub(crate) field: usize,
    pub(crate) takes: bool,
}

/// A page with both sides of its whole.
#[derive(Drop)]
pub(crate) struct WholePage {
    pub(crate) page: Page,
    pub(crate) whole: WholeSides,
}

/// A page with its packed bits, for who has its header.
#[derive(Drop)]
pub(crate) struct PackedPage {
    pub(crate) page: Page,
    pub(crate) packed: Bits,
}

impl<'a> Draft<'a> {
    /// Of the format only the constants are read.
    #[inline(always)]
    pub(crate) fn new(
        alloc: Global,
        format: &'a Format,
        told: Told<'a>,
        frame: &PageFrame<'a>,
        from: usize,
    ) -> Result<Draft<'a>, AllocError>
        requires prepared { IsPrepared format.now told.prepared.now }
        ensures { IfOk result (λ d. spec.IsRight frame.now d × (d.format.now ≡ format.now) × (d.arguments.now ≡ frame.now.arguments.now) × (d.told.prepared.now ≡ told.entry.prepared.now)) }
    {
        Ok(Draft {
            format,
            told,
            arguments: frame.arguments,
            fields: begun(alloc, told.prepared.constants.as_slice())?,
            ahead: from,
            solved: SmallVec::new(alloc),
            choices: Choices::NONE,
        })
    }

    /// Of the format what is steady of these fields, which a page of it shows, is read.
    #[inline(always)]
    pub(crate) fn again(
        alloc: Global,
        format: &'a Format,
        told: Told<'a>,
        frame: &PageFrame<'a>,
        from: usize,
        fields: Items<Shown>,
    ) -> Draft<'a>
        requires prepared { IsPrepared format.now told.prepared.now }
        requires count { length fields ≡ length format.now.fields }
        requires kept { AreKept frame.now.methods.now (bits_at frame.now.context.now) frame.now.path.now format.now fields }
        ensures { spec.IsRight frame.now result × (result.format.now ≡ format.now) × (result.arguments.now ≡ frame.now.arguments.now) × (result.told.prepared.now ≡ told.entry.prepared.now) }
    {
        let mut fields = fields;
        leave_steady(frame.methods, format.fields.as_slice(), &mut fields);
        Draft {
            format,
            told,
            arguments: frame.arguments,
            fields,
            ahead: from,
            solved: SmallVec::new(alloc),
            choices: Choices::NONE,
        }
    }

    /// Of the format what is steady of the last page is read, if that is one of the format, by its index; else the constants.
    #[inline(always)]
    pub(crate) fn after(
        alloc: Global,
        index: usize,
        format: &'a Format,
        told: Told<'a>,
        frame: &PageFrame<'a>,
        from: usize,
        last: Option<Page>,
    ) -> Result<Draft<'a>, AllocError>
        requires prepared { IsPrepared format.now told.prepared.now }
        requires format { format_at frame.now.methods.now frame.now.method index ≡ Some format.now }
        requires kept { IfSome last (IsKeptIn frame.now) }
        ensures { IfOk result (λ d. spec.IsRight frame.now d × (d.format.now ≡ format.now) × (d.arguments.now ≡ frame.now.arguments.now) × (d.told.prepared.now ≡ told.entry.prepared.now)) }
    {
        match fields_of(last, index, format) {
            Some(fields) => Ok(Draft::again(alloc, format, told, frame, from, fields)),
            None => Draft::new(alloc, format, told, frame, from),
        }
    }

    /// What is seen of it.
    #[inline(always)]
    pub(crate) fn view(&self) -> View<'_>
        ensures { result ≡ spec.seen_of self.now }
    {
        View::of(self.fields.as_slice(), self.arguments)
    }

    /// The place of the context at which the entry of the field may stand.
    #[inline(always)]
    pub(crate) fn place_of(&self, frame: &PageFrame<'_>, field: usize) -> usize {
        match at(self.told.places, field) {
            Some(place) => frame.first.saturating_add(*place),
            None => frame.first,
        }
    }

    /// Does what calls no method. Whether it is done.
    #[inline(always)]
    pub(crate) fn operation(
        &mut self,
        alloc: Global,
        frame: &PageFrame<'_>,
        operation: &PageOperation,
        cursor: &Cursor<'_>,
    ) -> Result<bool, AllocError>
        ensures { IfOk result (λ b. IsTrue b → spec.GoesOn frame.now self.old self.new) }
    {
        match operation {
            PageOperation::Code { field, takes } => {
                self.code(alloc, frame, *field, *takes, cursor)
            }
            PageOperation::Sum(field) => Ok(self.sum(*field, cursor)),
            PageOperation::Skip(field) => Ok(self.skip(*field)),
            PageOperation::Solve {
                field,
                length,
                value,
            } => match self.count(*field, *length) {
                Some(count) => self.solve(alloc, frame, *field, count, *value),
                None => Ok(false),
            },
            PageOperation::Call { .. } => Ok(false),
        }
    }

    /// Gives the field, of which nothing is read, what is read of it. False where there is no such field.
    #[inline(always)]
    pub(crate) fn put(&mut self, field: usize, shown: Shown) -> bool
        ensures { IsTrue result → spec.IsPut field shown self.old self.new }
    {
        let Some(before) = self.fields.get(field) else {
            return false;
        };
        if !is_blank(before) {
            return false;
        }
        self.fields.set(field, shown);
        true
    }

    /// Reads a field by its library method.
    #[inline(always)]
    pub(crate) fn code(
        &mut self,
        alloc: Global,
        frame: &PageFrame<'_>,
        field: usize,
        takes: bool,
        cursor: &Cursor<'_>,
    ) -> Result<bool, AllocError>
        ensures { IfOk result (λ b. IsTrue b → spec.GoesOn frame.now self.old self.new) }
    {
        if let Some(count) = self.packed_count(field) {
            self.pass(takes, count);
            return Ok(true);
        }
        let Some(declared) = self.format.fields.get(field) else {
            return Ok(false);
        };
        let source = Source {
            cursor,
            ahead: self.ahead,
        };
        let Some(both) = self.both_sides(alloc, frame, field, declared, &source)? else {
            return Ok(false);
        };
        if !self.put(field, plain(both)) {
            return Ok(false);
        }
        self.pass(takes, both.compressed.len());
        Ok(true)
    }

    /// Both sides of the field by its library method: what is prepared of it, if there is something, or what its encoding says.
    #[inline(always)]
    fn both_sides(
        &self,
        alloc: Global,
        frame: &PageFrame<'_>,
        field: usize,
        declared: &Field,
        source: &Source<'_, '_>,
    ) -> Result<Option<BothSides>, AllocError>
        ensures { IfOk result (λ o. IfSome o (λ b. spec.IsReadIn frame.now self.now field declared.now b)) }
    {
        if let Some(Some(computed)) = at(self.told.prepared.computed.as_slice(), field) {
            return Ok(computed.sides(&self.view()));
        }
        let place = self.place_of(frame, field);
        coded(alloc, frame, &self.view(), declared, place, source)
    }

    /// Gives a field that uncompressed side, and the packed one by its encoding.
    #[inline(always)]
    pub(crate) fn write(
        &mut self,
        alloc: Global,
        frame: &PageFrame<'_>,
        field: usize,
        up: Word,
    ) -> Result<bool, AllocError>
        ensures goes { IfOk result (λ b. IsTrue b → spec.GoesOn frame.now self.old self.new) }
        ensures value { IfOk result (λ b. IsTrue b → spec.HasValue field up self.old self.new) }
    {
        let Some(declared) = self.format.fields.get(field) else {
            return Ok(false);
        };
        let place = self.place_of(frame, field);
        let Some(down) = encoded(alloc, frame, &self.view(), declared, place, up)? else {
            return Ok(false);
        };
        let both = BothSides {
            uncompressed: up,
            compressed: down,
        };
        Ok(self.put(field, plain(both)))
    }

    /// Puts the page inside the field, with both sides. False where one has more than 64 bits.
    #[inline(always)]
    pub(crate) fn put_page(&mut self, inside: Inside, found: WholePage) -> bool
        ensures { (frame : PageFrame) → IsTrue result → spec.IsCalled frame self.old inside.field found → spec.GoesOn frame self.old self.new }
    {
        let WholePage { page, whole } = found;
        let Some(uncompressed) = Word::of(&whole.header) else {
            return false;
        };
        let Some(compressed) = Word::of(&whole.packed) else {
            return false;
        };
        let shown = Shown {
            uncompressed: Some(uncompressed),
            compressed: Some(compressed),
            inner: Some(page),
        };
        if !self.put(inside.field, shown) {
            return false;
        }
        self.pass(inside.takes, compressed.len());
        true
    }

    /// The next digit of the number, where the step goes on in so many ways.
    pub(crate) fn choose(&mut self, ways: u64) -> Option<u64>
        ensures { (frame : PageFrame) → spec.GoesOn frame self.old self.new }
    {
        self.choices.next(ways)
    }

    /// Begins with a number among so many candidates of the format.
    pub(crate) fn begin(&mut self, choices: Choices)
        ensures { (frame : PageFrame) → spec.GoesOn frame self.old self.new }
    {
        self.choices = choices;
    }

    /// Goes on in the source, where it takes.
    #[inline(always)]
    pub(crate) fn pass(&mut self, takes: bool, count: usize)
        ensures { (frame : PageFrame) → spec.GoesOn frame self.old self.new }
    {
        if takes {
            self.ahead = self.ahead.saturating_add(count);
        }
    }

    /// Passes the field, if it is read, and its uncompressed side, where the field takes that from the source. Whether it is read. The header is compared at the end.
    #[inline(always)]
    pub(crate) fn pass_up(&mut self, field: usize, takes: bool) -> bool
        ensures { (frame : PageFrame) → spec.GoesOn frame self.old self.new }
    {
        match self.header_count(field) {
            Some(count) => {
                self.pass(takes, count);
                true
            }
            None => false,
        }
    }

    /// Takes the bits of a checksum.
    fn sum(&mut self, field: usize, cursor: &Cursor<'_>) -> bool
        ensures { (frame : PageFrame) → IsTrue result → spec.GoesOn frame self.old self.new }
    {
        let Some(word) = self.sum_bits(field, cursor) else {
            return false;
        };
        let shown = Shown {
            uncompressed: None,
            compressed: Some(word),
            inner: None,
        };
        if !self.put(field, shown) {
            return false;
        }
        self.pass(true, word.len());
        true
    }

    /// The next bits of the source, as many as the checksum of the field has.
    fn sum_bits(&self, field: usize, cursor: &Cursor<'_>) -> Option<Word> {
        let declared = self.format.fields.get(field)?;
        let Encoding::Library(Library::Crc(crc)) = declared.encoding.get() else {
            return None;
        };
        let count = natural(&crc.get().bits, &self.view())?;
        let source = Source {
            cursor,
            ahead: self.ahead,
        };
        source.word(usize::try_from(count).ok()?)
    }

    /// Passes the packed side of the field, which is read.
    pub(crate) fn skip(&mut self, field: usize) -> bool
        ensures { (frame : PageFrame) → IsTrue result → spec.GoesOn frame self.old self.new }
    {
        let Some(count) = self.packed_count(field) else {
            return false;
        };
        self.pass(true, count);
        true
    }

    /// Passes the uncompressed side of the field, which is written.
    pub(crate) fn skip_up(&mut self, field: usize) -> bool
        ensures { (frame : PageFrame) → IsTrue result → spec.GoesOn frame self.old self.new }
    {
        let Some(count) = self.header_count(field) else {
            return false;
        };
        self.pass(true, count);
        true
    }

    fn header_count(&self, field: usize) -> Option<usize> {
        match &at(self.fields.as_slice(), field)?.uncompressed {
            Some(word) => Some(word.len()),
            None => None,
        }
    }

    /// How many packed bits the field has, once they are read.
    #[inline(always)]
    pub(crate) fn packed_count(&self, field: usize) -> Option<usize> {
        match &at(self.fields.as_slice(), field)?.compressed {
            Some(word) => Some(word.len()),
            None => None,
        }
    }

    /// Gives the field so many bits that spell the value which the constraint says.
    #[inline(never)]
    pub(crate) fn solve(
        &mut self,
        alloc: Global,
        frame: &PageFrame<'_>,
        field: usize,
        count: usize,
        number: usize,
    ) -> Result<bool, AllocError>
        ensures { IfOk result (λ b. IsTrue b → spec.GoesOn frame.now self.old self.new) }
    {
        let Some(constraint) = self.format.constraints.get(number) else {
            return Ok(false);
        };
        match value_given(field, constraint.get()) {
            Some(given) => self.solve_equation(alloc, frame, field, count, number, given),
            None => {
                let Some(found) = remaining(alloc, &self.view(), field, constraint.get()) else {
                    return Ok(false);
                };
                let Some(up) = Word::spelled(count, found) else {
                    return Ok(false);
                };
                self.write(alloc, frame, field, up)
            }
        }
    }

    /// How many bits the uncompressed side of the field has, where it isn't the encoding that says it.
    #[inline(always)]
    pub(crate) fn count(&self, field: usize, length: Length) -> Option<usize> {
        match length {
            Length::Known(count) => Some(count),
            Length::Given(number) => self.count_given(field, number),
            Length::Encoded => None,
        }
    }

    /// The length that the constraint gives the uncompressed side of the field.
    fn count_given(&self, field: usize, number: usize) -> Option<usize> {
        let constraint = self.format.constraints.get(number)?;
        let given = length_given(field, Side::Uncompressed, constraint.get())?;
        usize::try_from(natural(given, &self.view())?).ok()
    }

    /// Gives the field the value of the expression, by which the constraint is solved then.
    fn solve_equation(
        &mut self,
        alloc: Global,
        frame: &PageFrame<'_>,
        field: usize,
        count: usize,
        number: usize,
        given: &Expr,
    ) -> Result<bool, AllocError>
        ensures { IfOk result (λ b. IsTrue b → spec.IsSolved frame.now field number given.now self.old self.new) }
    {
        let Some(found) = natural(given, &self.view()) else {
            return Ok(false);
        };
        let Some(up) = Word::spelled(count, found) else {
            return Ok(false);
        };
        if !self.write(alloc, frame, field, up)? {
            return Ok(false);
        }
        self.solved.push(number)?;
        Ok(true)
    }
}

/// A level of which the constants alone are read.
#[inline(always)]
fn begun(alloc: Global, constants: &[Option<BothSides>]) -> Result<Items<Shown>, AllocError>
    ensures { IfOk result (λ v. AreMade spec.BeginsWith constants.now v (length constants.now)) }
{
    let mut fields = Vec::with_capacity(alloc, constants.len())?;
    for i in 0..constants.len() {
        match &constants[i] {
            Some(both) => fields.push(plain(*both))?,
            None => fields.push(blank())?,
        }
    }
    Ok(Items::from_vec(fields))
}

/// The fields of the page, if it is of that format.
#[inline(always)]
fn fields_of(last: Option<Page>, index: usize, format: &Format) -> Option<Items<Shown>>
    ensures { IfSome result (λ fields. (length fields ≡ length format.now.fields) × ((frame : PageFrame) → IfSome last (IsKeptIn frame) → format_at frame.methods.now frame.method index ≡ Some format.now → AreKept frame.methods.now (bits_at frame.context.now) frame.path.now format.now fields)) }
{
    let page = last?;
    if page.format != index || page.fields.len() != format.fields.len() {
        return None;
    }
    let Page { fields, .. } = page;
    Some(fields)
}

/// Leaves what is steady of the fields, and makes the others blank.
#[inline(always)]
fn leave_steady(methods: &[Method], fields: &[Field], shown: &mut Items<Shown>)
    ensures { AreLeft methods.now fields.now shown.old shown.new }
{
    for i in 0..shown.len() {
        if !is_steady_at(methods, fields, shown.as_slice(), i) {
            shown.set(i, blank());
        }
    }
}

/// Whether that of this index is steady.
#[inline(always)]
fn is_steady_at(methods: &[Method], fields: &[Field], shown: &[Shown], index: usize) -> bool
    ensures { IsTrue result → (d : normal.Field) (s : page.Shown) → slice_get fields.now index ≡ Some d → slice_get shown.now index ≡ Some s → IsSteady methods.now d s }
{
    let Some(field) = at(fields, index) else {
        return false;
    };
    let Some(shown) = at(shown, index) else {
        return false;
    };
    is_steady(methods, field, shown)
}

/// A field of which nothing is read.
#[inline(always)]
fn blank() -> Shown
    ensures { result ≡ spec.blank }
{
    Shown {
        uncompressed: None,
        compressed: None,
        inner: None,
    }
}

/// Whether nothing is read of the field.
#[inline(always)]
fn is_blank(shown: &Shown) -> bool
    ensures { IsTrue result → (((out-Shown shown.now).uncompressed ≡ None) × ((out-Shown shown.now).compressed ≡ None)) }
{
    shown.uncompressed.is_none() && shown.compressed.is_none()
}

/// Both sides, with nothing inside.
#[inline(always)]
fn plain(both: BothSides) -> Shown
    ensures { IsPlain result both.uncompressed both.compressed }
{
    Shown {
        uncompressed: Some(both.uncompressed),
        compressed: Some(both.compressed),
        inner: None,
    }
}

/// The value of the field that the constraint leaves of a remainder.
pub(crate) fn remaining(
    alloc: Global,
    view: &View<'_>,
    field: usize,
    constraint: &Constraint,
) -> Option<u64> {
    let given = remainder_form(alloc, field, constraint)?;
    let left = value(given.left, view)?;
    let more = value(given.more, view)?;
    match (left.checked_sub(more), i64::try_from(given.by)) {
        (Some(rest), Ok(by)) if by > 0 => Some(rest.rem_euclid(by) as u64),
        _ => None,
    }
}
