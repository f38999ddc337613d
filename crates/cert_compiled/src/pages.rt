//! The operations by which a page is read: those of the read plans of a format, as far as each field is read in one step.

use crate::fitting::left_by;
use cert_rules::choice_of;
use cert_types::Step;
use sem_expr::{Expr, Side, Subject};
use sem_pages::{LengthTest, Prepared};
use sem_profile::{Encoding, Format, Library, Method, Part};
use sqlite_items::{Items, at};
use std::alloc::{AllocError, Global};

/// One operation. Fields and constraints go by their indices; the source are the packed bits.
#[derive(Clone, Copy)]
pub enum PageOperation {
    /// The field's library method gives both sides. Where it `takes`, its packed bits are the next ones of the source.
    Code {
        field: usize,
        takes: bool,
    },
    /// The next bits of the source are the field's packed side, a checksum.
    Sum(usize),
    /// The next bits of the source are the field's packed side, which is known.
    Skip(usize),
    /// The field has no encoding. The constraint gives the value of its uncompressed side.
    Solve {
        field: usize,
        length: Length,
        value: usize,
    },
    /// The field calls a method. Where it `takes`, the packed bits of the filling inside are the next ones of the source.
    Call {
        field: usize,
        takes: bool,
    },
}

/// How many bits the uncompressed side of a field has.
#[derive(Clone, Copy)]
pub enum Length {
    /// So many.
    Known(usize),
    /// As many as the constraint says.
    Given(usize),
    /// As many as the field's encoding says.
    Encoded,
}

/// Where the bits of a field's uncompressed side come from in writing.
#[derive(Clone, Copy)]
pub enum Origin {
    /// The field's library method gives both sides.
    Library,
    /// The next bits of the header.
    Header,
    /// The asked value at this place.
    Asked(usize),
    /// The next digit is the number of so many bits.
    Chosen(usize),
    /// The value that the constraint says.
    Solved(usize),
}

/// One operation of writing. The source is the header.
#[derive(Clone, Copy)]
pub enum PageWriting {
    /// The uncompressed side comes from there, and the other one by the field's encoding.
    Field {
        field: usize,
        origin: Origin,
        length: Length,
    },
    /// The next bits of the header, so many, are of fields that are written.
    Pass(usize),
    /// The next bits of the header are the field's, which is written.
    Skip(usize),
    /// The field calls a method. Where it `takes`, the header of the filling inside is next. Its format is this one, by its index, where the arguments are numbers,
    /// which leave it.
    Call {
        field: usize,
        takes: bool,
        format: Option<usize>,
    },
}

/// The operations of a write plan. None of one by which a field is written otherwise.
pub(crate) fn page_writing(
    alloc: Global,
    methods: &[Method],
    format: &Format,
    prepared: &Prepared,
    plan: &[Step],
) -> Result<Option<Items<PageWriting>>, AllocError> {
    let mut pages = WritingSoFar {
        alloc,
        methods,
        format,
        are_written: constants(alloc, prepared)?,
        lengths: known_lengths(alloc, prepared)?,
        passed: 0,
        operations: Items::new(alloc),
    };
    for step in plan {
        if !pages.add(*step)? {
            return Ok(None);
        }
    }
    Ok(Some(pages.operations))
}

/// The operations so far, whether each field is written, the length of its uncompressed side, and how many bits are passed after them.
#[derive(Drop)]
struct WritingSoFar<'a> {
    alloc: Global,
    methods: &'a [Method],
    format: &'a Format,
    are_written: Vec<bool>,
    lengths: Vec<Length>,
    passed: usize,
    operations: Items<PageWriting>,
}

impl<'a> WritingSoFar<'a> {
    /// Adds the operation of a step, if it wants one. False where there is none.
    fn add(&mut self, step: Step) -> Result<bool, AllocError> {
        match step {
            Step::Take(field) => {
                if self.is_written(field) {
                    return self.skip(field);
                }
                if !self.is_reckoned(field) {
                    return Ok(false);
                }
                self.go_on()?;
                self.write(field, Origin::Header)
            }
            Step::Call(field) => {
                let takes = self.is_header(field);
                self.call(field, takes)
            }
            Step::LibraryUp(field) | Step::LibraryDown(field) => self.code(field),
            Step::ConstraintLength(field, Side::Uncompressed, number) => {
                note_given(&mut self.lengths, field, number);
                Ok(true)
            }
            Step::MethodLength(_, _) | Step::ConstraintLength(_, _, _) => Ok(true),
            Step::Solve(field, number) => self.write(field, Origin::Solved(number)),
            Step::Choose(field) => match choice_of(self.alloc, self.format, field) {
                Some(width) => self.write(field, Origin::Chosen(width)),
                None => Ok(false),
            },
            Step::Ask(field) => {
                let place = self.asked_before(field);
                self.write(field, Origin::Asked(place))
            }
        }
    }

    fn is_written(&self, field: usize) -> bool {
        match at(self.are_written.as_slice(), field) {
            Some(is_written) => *is_written,
            None => false,
        }
    }

    /// Whether the value that the field's library method gives the bits of the header, if it gives one, can be reckoned by now.
    fn is_reckoned(&self, field: usize) -> bool {
        let Some(declared) = self.format.fields.get(field) else {
            return false;
        };
        match declared.encoding.get() {
            Encoding::Library(Library::UncompressedValue { value, .. }) => self.is_told(value),
            _ => true,
        }
    }

    /// Whether each field that the expression asks for is written.
    fn is_told(&self, expr: &Expr) -> bool {
        match expr {
            Expr::Number(_, _) | Expr::Parameter(_, _) => true,
            Expr::Attribute(_, attribute) => match attribute.subject {
                Subject::Field(field) => self.is_written(field),
                Subject::This => false,
            },
            Expr::Binary(_, _, left, right) => self.is_told(left) && self.is_told(right),
        }
    }

    fn is_header(&self, field: usize) -> bool {
        match self.format.fields.get(field) {
            Some(field) => matches!(field.declared.part, Part::Header),
            None => false,
        }
    }

    fn asked_before(&self, field: usize) -> usize {
        self.format
            .fields
            .as_slice()
            .iter()
            .take(field)
            .filter(|field| field.declared.asked)
            .count()
    }

    /// What the library method gives without the source; a field with bits of its own is written with these, a checksum at the end.
    fn code(&mut self, field: usize) -> Result<bool, AllocError> {
        if self.is_written(field) {
            return Ok(true);
        }
        let Some(declared) = self.format.fields.get(field) else {
            return Ok(false);
        };
        match declared.encoding.get() {
            Encoding::Library(
                Library::UncompressedValue { .. }
                | Library::CompressedValue { .. }
                | Library::Static,
            ) => self.write(field, Origin::Library),
            Encoding::Library(_) => Ok(true),
            Encoding::Bare | Encoding::Call { .. } => Ok(false),
        }
    }

    /// Passes the bits of a field that is written.
    fn skip(&mut self, field: usize) -> Result<bool, AllocError> {
        match length_at(self.lengths.as_slice(), field) {
            Length::Known(count) => {
                self.passed = self.passed.saturating_add(count);
                Ok(true)
            }
            Length::Given(_) | Length::Encoded => {
                self.go_on()?;
                self.operations.push(PageWriting::Skip(field))?;
                Ok(true)
            }
        }
    }

    /// Adds the operation that passes what is to be passed, if anything is.
    fn go_on(&mut self) -> Result<(), AllocError> {
        if self.passed > 0 {
            self.operations.push(PageWriting::Pass(self.passed))?;
            self.passed = 0;
        }
        Ok(())
    }

    fn write(&mut self, field: usize, origin: Origin) -> Result<bool, AllocError> {
        let length = length_at(self.lengths.as_slice(), field);
        self.put(
            field,
            PageWriting::Field {
                field,
                origin,
                length,
            },
        )
    }

    fn call(&mut self, field: usize, takes: bool) -> Result<bool, AllocError> {
        let format = self.format_inside(field)?;
        self.go_on()?;
        self.put(
            field,
            PageWriting::Call {
                field,
                takes,
                format,
            },
        )
    }

    /// The format of the method that the field calls, where its arguments are numbers, which leave it.
    fn format_inside(&self, field: usize) -> Result<Option<usize>, AllocError> {
        let Some(declared) = self.format.fields.get(field) else {
            return Ok(None);
        };
        match declared.encoding.get() {
            Encoding::Call { method, arguments } => {
                left_by(self.alloc, self.methods, *method, arguments.as_slice())
            }
            Encoding::Bare | Encoding::Library(_) => Ok(None),
        }
    }

    fn put(&mut self, field: usize, operation: PageWriting) -> Result<bool, AllocError> {
        if field >= self.are_written.len() || self.are_written[field] {
            return Ok(false);
        }
        self.are_written[field] = true;
        self.operations.push(operation)?;
        Ok(true)
    }
}

/// The operations of a read plan. None of one by which a field is read otherwise.
pub(crate) fn page_operations(
    alloc: Global,
    format: &Format,
    prepared: &Prepared,
    plan: &[Step],
) -> Result<Option<Items<PageOperation>>, AllocError> {
    let mut pages = PagesSoFar {
        format,
        are_read: constants(alloc, prepared)?,
        lengths: known_lengths(alloc, prepared)?,
        operations: Items::new(alloc),
    };
    for step in plan {
        if !pages.add(*step)? {
            return Ok(None);
        }
    }
    Ok(Some(pages.operations))
}

/// The operations so far, whether each field is read, and the length of its uncompressed side.
#[derive(Drop)]
struct PagesSoFar<'a> {
    format: &'a Format,
    are_read: Vec<bool>,
    lengths: Vec<Length>,
    operations: Items<PageOperation>,
}

impl<'a> PagesSoFar<'a> {
    /// Adds the operation of a step, if it wants one. False where there is none.
    fn add(&mut self, step: Step) -> Result<bool, AllocError> {
        match step {
            Step::Take(field) => self.take(field),
            Step::Call(field) => {
                let takes = self.is_listed(field);
                self.read(field, PageOperation::Call { field, takes })
            }
            Step::LibraryUp(field) | Step::LibraryDown(field) => self.code(field),
            Step::ConstraintLength(field, Side::Uncompressed, number) => {
                note_given(&mut self.lengths, field, number);
                Ok(true)
            }
            Step::MethodLength(_, _) | Step::ConstraintLength(_, _, _) => Ok(true),
            Step::Solve(field, value) => match length_at(self.lengths.as_slice(), field) {
                Length::Encoded => Ok(false),
                length => self.read(
                    field,
                    PageOperation::Solve {
                        field,
                        length,
                        value,
                    },
                ),
            },
            Step::Choose(_) | Step::Ask(_) => Ok(false),
        }
    }

    fn library(&self, field: usize) -> Option<&'a Library> {
        match self.format.fields.get(field)?.encoding.get() {
            Encoding::Library(library) => Some(library),
            Encoding::Bare | Encoding::Call { .. } => None,
        }
    }

    fn is_listed(&self, field: usize) -> bool {
        self.format
            .listing
            .get()
            .as_slice()
            .iter()
            .any(|listed| *listed == field)
    }

    fn is_read(&self, field: usize) -> bool {
        match at(self.are_read.as_slice(), field) {
            Some(is_read) => *is_read,
            None => false,
        }
    }

    /// Adds the operation that reads the field. False where it was read.
    fn read(&mut self, field: usize, operation: PageOperation) -> Result<bool, AllocError> {
        if field >= self.are_read.len() || self.are_read[field] {
            return Ok(false);
        }
        self.are_read[field] = true;
        self.operations.push(operation)?;
        Ok(true)
    }

    /// What is next of the source.
    fn take(&mut self, field: usize) -> Result<bool, AllocError> {
        if self.is_read(field) {
            self.operations.push(PageOperation::Skip(field))?;
            return Ok(true);
        }
        match self.library(field) {
            Some(Library::Crc(_)) => self.read(field, PageOperation::Sum(field)),
            Some(_) => self.read(field, PageOperation::Code { field, takes: true }),
            None => Ok(false),
        }
    }

    /// What the library method gives without the source; else it is read with its packed bits.
    fn code(&mut self, field: usize) -> Result<bool, AllocError> {
        if self.is_read(field) {
            return Ok(true);
        }
        match self.library(field) {
            Some(
                Library::UncompressedValue { .. }
                | Library::CompressedValue { .. }
                | Library::Static,
            ) => self.read(
                field,
                PageOperation::Code {
                    field,
                    takes: false,
                },
            ),
            Some(Library::Irregular { .. } | Library::Lsb { .. } | Library::Crc(_)) => Ok(true),
            None => Ok(false),
        }
    }
}

/// For each field whether it is a constant, so that both its sides are there from the start.
fn constants(alloc: Global, prepared: &Prepared) -> Result<Vec<bool>, AllocError> {
    let mut all = Vec::with_capacity(alloc, prepared.constants.len())?;
    for constant in prepared.constants.as_slice() {
        all.push(constant.is_some())?;
    }
    Ok(all)
}

/// For each field the length of its uncompressed side, as far as the format alone tells it: that of a bracket with one number, or of a constant.
fn known_lengths(alloc: Global, prepared: &Prepared) -> Result<Vec<Length>, AllocError> {
    let mut all = Vec::with_capacity(alloc, prepared.constants.len())?;
    for constant in prepared.constants.as_slice() {
        match constant {
            Some(both) => all.push(Length::Known(both.uncompressed.len()))?,
            None => all.push(Length::Encoded)?,
        }
    }
    note_counts(&mut all, prepared.settled.as_slice());
    note_counts(&mut all, prepared.lengths.as_slice());
    Ok(all)
}

/// Notes the lengths of uncompressed sides that the tests tell.
fn note_counts(lengths: &mut Vec<Length>, tests: &[LengthTest]) {
    for test in tests {
        if matches!(test.side, Side::Uncompressed) && test.field < lengths.len() {
            lengths[test.field] = Length::Known(test.count);
        }
    }
}

/// Notes that the constraint gives the length of the field's uncompressed side, where that isn't known.
fn note_given(lengths: &mut Vec<Length>, field: usize, number: usize) {
    if field < lengths.len() && matches!(lengths[field], Length::Encoded) {
        lengths[field] = Length::Given(number);
    }
}

fn length_at(lengths: &[Length], field: usize) -> Length {
    match at(lengths, field) {
        Some(length) => *length,
        None => Length::Encoded,
    }
}
