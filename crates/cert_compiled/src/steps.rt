//! The operations of a plan, step by step.

use crate::header::{HeaderPlace, header_places, plain};
use crate::operations::{Beginning, Count, Operation, Operations, ShortBits};
use cert_rules::choice_of;
use cert_rules::equations::length_given;
use cert_rules::fields::size_of;
use cert_types::{Direction, Step};
use sem_expr::{Expr, Side};
use sem_profile::{Encoding, Format, Library, Part};
use sqlite_items::{Items, at};
use std::alloc::{AllocError, Global};

/// What is known of a side of a field: how long it is, and whether an operation has given it.
#[derive(Clone, Copy)]
struct Known {
    count: Option<Count>,
    is_given: bool,
}

/// The operations so far, what each field begins with, and what is known of both its sides; in writing, where each stands in the header; how many places of the source are passed, how many bits of these the next
/// operation is to pass, and how many they are in all, as far as numbers tell it. Of the fields from the first new one on, to before the past one, a length may be
/// known that isn't noted.
#[derive(Drop)]
pub(crate) struct OperationsSoFar<'a> {
    format: &'a Format,
    direction: Direction,
    uncompressed: Vec<Known>,
    compressed: Vec<Known>,
    beginnings: Vec<Beginning>,
    header: Vec<Option<HeaderPlace>>,
    passed: usize,
    passes: usize,
    place: Option<usize>,
    first_new: usize,
    past_new: usize,
    operations: Items<Operation>,
}

impl<'a> OperationsSoFar<'a> {
    pub(crate) fn new(
        alloc: Global,
        format: &'a Format,
        direction: Direction,
    ) -> Result<OperationsSoFar<'a>, AllocError> {
        Ok(OperationsSoFar {
            format,
            direction,
            uncompressed: unknown(alloc, format.fields.len())?,
            compressed: unknown(alloc, format.fields.len())?,
            beginnings: blank(alloc, format.fields.len())?,
            header: match direction {
                Direction::Read => Vec::new(alloc),
                Direction::Write => header_places(alloc, format)?,
            },
            passed: 0,
            passes: 0,
            place: Some(0),
            first_new: usize::MAX,
            past_new: 0,
            operations: Items::new(alloc),
        })
    }

    /// What the plan came to.
    pub(crate) fn into_operations(self) -> Operations {
        let is_hopeful = self.is_hopeful();
        Operations {
            beginnings: Items::from_vec(self.beginnings),
            done: self.operations,
            is_hopeful,
        }
    }

    /// Whether a field of `lsb` is taken from the header, and no method is called.
    fn is_hopeful(&self) -> bool {
        let is_lowered = self
            .beginnings
            .iter()
            .any(|beginning| matches!(beginning, Beginning::Lowered { .. }));
        let is_calling = self
            .operations
            .as_slice()
            .iter()
            .any(|operation| matches!(operation, Operation::Call { .. }));
        is_lowered && !is_calling
    }

    /// Adds the operations of a step. False where the step takes from the source what was passed before.
    pub(crate) fn add(&mut self, alloc: Global, step: Step) -> Result<bool, AllocError> {
        match step {
            Step::Take(field) => return self.take(field),
            Step::Call(field) => return self.call(field),
            Step::Choose(field) => return self.choose(alloc, field),
            Step::Ask(field) => self.ask(field)?,
            Step::LibraryUp(field) => self.up(field)?,
            Step::LibraryDown(field) => self.down(field)?,
            Step::MethodLength(field, side) => self.method_length(field, side)?,
            Step::ConstraintLength(field, side, number) => {
                self.constraint_length(field, side, number)?;
            }
            Step::Solve(_, _) => self.follow(step)?,
        }
        Ok(true)
    }

    fn known(&self, field: usize, side: Side) -> Known {
        let sides = match side {
            Side::Uncompressed => self.uncompressed.as_slice(),
            Side::Compressed => self.compressed.as_slice(),
        };
        at(sides, field).copied().unwrap_or(UNKNOWN)
    }

    fn know(&mut self, field: usize, side: Side, known: Known) {
        let sides = match side {
            Side::Uncompressed => &mut self.uncompressed,
            Side::Compressed => &mut self.compressed,
        };
        if field < sides.len() {
            sides[field] = known;
        }
        if known.count.is_some() && !known.is_given {
            self.first_new = self.first_new.min(field);
            self.past_new = self.past_new.max(field.saturating_add(1));
        }
    }

    fn library(&self, field: usize) -> Option<&'a Library> {
        match self.format.fields.get(field)?.encoding.get() {
            Encoding::Library(library) => Some(library),
            Encoding::Bare | Encoding::Call { .. } => None,
        }
    }

    fn is_irregular(&self, field: usize) -> bool {
        matches!(self.library(field), Some(Library::Irregular { .. }))
    }

    fn has_given(&mut self, field: usize, side: Side) {
        let known = self.known(field, side);
        self.know(
            field,
            side,
            Known {
                count: known.count,
                is_given: true,
            },
        );
    }

    fn has_both(&mut self, field: usize) {
        self.has_given(field, Side::Uncompressed);
        self.has_given(field, Side::Compressed);
    }

    /// Notes a length, the first that is told; a number is better than the reference.
    fn note(&mut self, field: usize, side: Side, count: Count) {
        let known = self.known(field, side);
        if matches!(known.count, None | Some(Count::Referred)) {
            self.know(
                field,
                side,
                Known {
                    count: Some(count),
                    is_given: known.is_given,
                },
            );
        }
    }

    fn count(&self, field: usize, side: Side) -> Count {
        self.known(field, side).count.unwrap_or(Count::Noted)
    }

    /// The side of the source.
    fn side(&self) -> Side {
        match self.direction {
            Direction::Read => Side::Compressed,
            Direction::Write => Side::Uncompressed,
        }
    }

    /// Passes what stands in the source before the field. False where the field doesn't come any more.
    fn pass_to(&mut self, field: usize) -> Result<bool, AllocError> {
        let places = match self.direction {
            Direction::Read => self.format.listing.get().len(),
            Direction::Write => self.format.fields.len(),
        };
        for place in self.passed..places {
            let Some(next) = self.at_place(place) else {
                continue;
            };
            self.passed = place.saturating_add(1);
            if next == field {
                return Ok(true);
            }
            self.pass(next)?;
        }
        Ok(false)
    }

    /// Passes a field of the source.
    fn pass(&mut self, field: usize) -> Result<(), AllocError> {
        let side = self.side();
        match self.count(field, side) {
            Count::Number(count) => {
                self.goes_on(count);
                Ok(())
            }
            count => {
                self.place = None;
                self.operations.push(Operation::Pass { field, side, count })
            }
        }
    }

    /// So many bits are passed by the next operation.
    fn goes_on(&mut self, count: usize) {
        self.passes = self.passes.saturating_add(count);
        self.place = self.place.and_then(|place| place.checked_add(count));
    }

    /// How many bits an operation is to pass that takes as many as that.
    fn passes_before(&mut self, count: Count) -> usize {
        let passes = self.passes;
        self.passes = 0;
        self.place = match (self.place, count) {
            (Some(place), Count::Number(count)) => place.checked_add(count),
            _ => None,
        };
        passes
    }

    /// The field at the place of the source, if one is there.
    fn at_place(&self, place: usize) -> Option<usize> {
        match self.direction {
            Direction::Read => self.format.listing.get().get(place).copied(),
            Direction::Write => match self.format.fields.get(place)?.declared.part {
                Part::Header => Some(place),
                Part::Control | Part::Local => None,
            },
        }
    }

    fn take(&mut self, field: usize) -> Result<bool, AllocError> {
        if !self.pass_to(field)? {
            return Ok(false);
        }
        let side = self.side();
        if self.known(field, side).is_given || self.is_constant(field, side) {
            self.pass(field)?;
            return Ok(true);
        }
        let copies = self.is_irregular(field);
        let count = self.count(field, side);
        self.has_given(field, side);
        if copies {
            self.has_both(field);
        }
        if !matches!(count, Count::Number(0)) && !self.begins_taken(field, count) {
            let passes = self.passes_before(count);
            self.operations.push(Operation::Take {
                passes,
                field,
                side,
                count,
                copies,
            })?;
        }
        Ok(true)
    }

    /// Whether the field begins with its bits of the source: it is told by numbers where these stand, and nothing else was told of the field.
    fn begins_taken(&mut self, field: usize, count: Count) -> bool {
        let Some(place) = self.source_place(field) else {
            return false;
        };
        if !self.is_blank(field) {
            return false;
        }
        let side = self.side();
        match (self.lowered(field, place, count), side, count) {
            (Some(lowered), Side::Uncompressed, _) => {
                self.has_both(field);
                self.begin(field, lowered);
            }
            (_, _, Count::Number(_) | Count::Parameter(_)) => self.begin(
                field,
                Beginning::Taken {
                    place,
                    count,
                    side,
                    copies: self.is_irregular(field),
                },
            ),
            _ => return false,
        }
        self.goes_past(field, side, count);
        true
    }

    /// Where the bits of the field stand in the source, if that is told.
    fn source_place(&self, field: usize) -> Option<usize> {
        match self.header_place(field) {
            Some(header) => Some(header.place),
            None => self.place,
        }
    }

    fn header_place(&self, field: usize) -> Option<HeaderPlace> {
        *at(self.header.as_slice(), field)?
    }

    /// Whether in writing the field begins with its bits of the header, though its method gives them, too: so nothing is looked up or reckoned for them.
    fn begins_in_header(&mut self, field: usize) -> bool {
        let Some(HeaderPlace { place, count }) = self.header_place(field) else {
            return false;
        };
        let Some(Library::Static | Library::UncompressedValue { .. }) = self.library(field) else {
            return false;
        };
        if !self.is_blank(field) {
            return false;
        }
        let side = Side::Uncompressed;
        self.know(
            field,
            side,
            Known {
                count: Some(count),
                is_given: true,
            },
        );
        self.begin(
            field,
            Beginning::Taken {
                place,
                count,
                side,
                copies: false,
            },
        );
        true
    }

    /// The source goes on after a field that begins with its bits: where no number tells how many, they are passed before what is taken next.
    fn goes_past(&mut self, field: usize, side: Side, count: Count) {
        if let Count::Number(count) = count {
            self.goes_on(count);
            return;
        }
        self.know(
            field,
            side,
            Known {
                count: Some(Count::Noted),
                is_given: true,
            },
        );
        self.passed = self.passed.saturating_sub(1);
    }

    /// What a field of `lsb` with numbers begins with in writing.
    fn lowered(&self, field: usize, place: usize, count: Count) -> Option<Beginning> {
        let Library::Lsb { bits, offset } = self.library(field)? else {
            return None;
        };
        Some(Beginning::Lowered {
            place,
            count,
            bits: number_of(bits)?,
            offset: number_of(offset)?,
        })
    }

    /// What a field of `lsb` with numbers begins with in reading, where it begins with its packed bits.
    fn raised(&self, field: usize) -> Option<Beginning> {
        let Library::Lsb { bits, offset } = self.library(field)? else {
            return None;
        };
        let Beginning::Taken {
            place,
            count: Count::Number(count),
            side: Side::Compressed,
            copies: false,
        } = self.beginning(field)
        else {
            return None;
        };
        if self.is_noted(field, Side::Uncompressed) {
            return None;
        }
        Some(Beginning::Raised {
            place,
            count,
            bits: number_of(bits)?,
            offset: number_of(offset)?,
        })
    }

    fn beginning(&self, field: usize) -> Beginning {
        at(self.beginnings.as_slice(), field)
            .copied()
            .unwrap_or(BLANK)
    }

    fn begin(&mut self, field: usize, beginning: Beginning) {
        if field < self.beginnings.len() {
            self.beginnings[field] = beginning;
        }
    }

    /// Whether an operation has noted how long the side is.
    fn is_noted(&self, field: usize, side: Side) -> bool {
        matches!(self.known(field, side).count, Some(Count::Noted))
    }

    /// Whether the field begins without bits, and no operation has noted how long it is.
    fn is_blank(&self, field: usize) -> bool {
        let is_blank = matches!(
            self.beginning(field),
            Beginning::Constants {
                uncompressed: ShortBits { count: 0, .. },
                compressed: ShortBits { count: 0, .. },
            }
        );
        is_blank
            && !self.is_noted(field, Side::Uncompressed)
            && !self.is_noted(field, Side::Compressed)
    }

    /// Whether the method of the field gives that side a constant of numbers, with which the field begins then.
    fn is_constant(&mut self, field: usize, side: Side) -> bool {
        let (length, value) = match (self.library(field), side) {
            (Some(Library::CompressedValue { length, value }), Side::Compressed) => (length, value),
            (Some(Library::UncompressedValue { length, value }), Side::Uncompressed) => {
                (length, value)
            }
            _ => return false,
        };
        let (Some(Count::Number(count)), Some(number)) = (plain(length), constant_of(value)) else {
            return false;
        };
        if !self.is_blank(field) {
            return false;
        }
        self.know(
            field,
            side,
            Known {
                count: Some(Count::Number(count)),
                is_given: true,
            },
        );
        self.begin(field, constants(side, ShortBits { count, number }));
        true
    }

    fn call(&mut self, field: usize) -> Result<bool, AllocError> {
        let takes = match self.direction {
            Direction::Read => self
                .format
                .listing
                .get()
                .as_slice()
                .iter()
                .any(|listed| *listed == field),
            Direction::Write => self.at_place(field).is_some(),
        };
        if takes && !self.pass_to(field)? {
            return Ok(false);
        }
        let passes = if takes {
            self.passes_before(Count::Noted)
        } else {
            0
        };
        self.operations.push(Operation::Call {
            passes,
            field,
            takes,
        })?;
        self.has_both(field);
        Ok(true)
    }

    fn choose(&mut self, alloc: Global, field: usize) -> Result<bool, AllocError> {
        let Some(width) = choice_of(alloc, self.format, field) else {
            return Ok(false);
        };
        let copies = self.is_irregular(field);
        self.operations.push(Operation::Choose {
            field,
            width,
            copies,
        })?;
        self.has_given(field, Side::Uncompressed);
        if copies {
            self.has_given(field, Side::Compressed);
        }
        Ok(true)
    }

    fn ask(&mut self, field: usize) -> Result<(), AllocError> {
        let mut place: usize = 0;
        for other in 0..field {
            if let Some(other) = self.format.fields.get(other) {
                if other.declared.asked {
                    place = place.saturating_add(1);
                }
            }
        }
        self.has_given(field, Side::Uncompressed);
        self.operations.push(Operation::Ask { field, place })
    }

    fn up(&mut self, field: usize) -> Result<(), AllocError> {
        if self.known(field, Side::Uncompressed).is_given {
            return Ok(());
        }
        let is_begun = self.is_constant(field, Side::Uncompressed) || self.begins_in_header(field);
        self.has_given(field, Side::Uncompressed);
        if is_begun {
            return Ok(());
        }
        if let Some(raised) = self.raised(field) {
            self.begin(field, raised);
            return Ok(());
        }
        match self.library(field) {
            Some(Library::CompressedValue { .. } | Library::Crc(_)) => Ok(()),
            Some(Library::UncompressedValue { length, value }) => {
                self.give(
                    field,
                    Side::Uncompressed,
                    length,
                    value,
                    Operation::Up(field),
                )
            }
            _ => self.operations.push(Operation::Up(field)),
        }
    }

    fn down(&mut self, field: usize) -> Result<(), AllocError> {
        if self.known(field, Side::Compressed).is_given {
            return Ok(());
        }
        let is_begun = self.is_constant(field, Side::Compressed);
        self.has_given(field, Side::Compressed);
        if is_begun {
            return Ok(());
        }
        match self.library(field) {
            Some(Library::UncompressedValue { .. } | Library::Static) => Ok(()),
            Some(Library::CompressedValue { length, value }) => {
                self.give(
                    field,
                    Side::Compressed,
                    length,
                    value,
                    Operation::Down(field),
                )
            }
            _ => self.operations.push(Operation::Down(field)),
        }
    }

    /// The operation that gives a side a constant of that length and value, or the other one where numbers don't tell it.
    fn give(
        &mut self,
        field: usize,
        side: Side,
        length: &Expr,
        value: &Expr,
        otherwise: Operation,
    ) -> Result<(), AllocError> {
        match (plain(length), constant_of(value)) {
            (Some(count), Some(number)) => self.operations.push(Operation::Give {
                field,
                side,
                count,
                number,
            }),
            _ => self.operations.push(otherwise),
        }
    }

    fn method_length(&mut self, field: usize, side: Side) -> Result<(), AllocError> {
        let count = match self.library(field) {
            Some(library) => length_by(side, library),
            None => None,
        };
        match count {
            Some(count) => {
                self.note(field, side, count);
                Ok(())
            }
            None => self.follow(Step::MethodLength(field, side)),
        }
    }

    fn constraint_length(
        &mut self,
        field: usize,
        side: Side,
        number: usize,
    ) -> Result<(), AllocError> {
        let count = match self.format.constraints.get(number) {
            Some(constraint) => length_given(field, side, constraint.get()).and_then(plain),
            None => None,
        };
        match count {
            Some(count) => {
                self.note(field, side, count);
                Ok(())
            }
            None => self.follow(Step::ConstraintLength(field, side, number)),
        }
    }

    /// Adds a step as it stands, before which each known length is noted.
    fn follow(&mut self, step: Step) -> Result<(), AllocError> {
        for field in self.first_new..self.past_new {
            self.note_length(field, Side::Uncompressed)?;
            self.note_length(field, Side::Compressed)?;
        }
        self.first_new = usize::MAX;
        self.past_new = 0;
        self.operations.push(Operation::Follow(step))
    }

    fn note_length(&mut self, field: usize, side: Side) -> Result<(), AllocError> {
        let known = self.known(field, side);
        let Some(count) = known.count else {
            return Ok(());
        };
        if known.is_given {
            return Ok(());
        }
        self.know(
            field,
            side,
            Known {
                count: Some(Count::Noted),
                is_given: false,
            },
        );
        match count {
            Count::Number(_) | Count::Parameter(_) | Count::Referred => self.operations.push(
                Operation::Give {
                    field,
                    side,
                    count,
                    number: 0,
                },
            ),
            Count::Noted => Ok(()),
        }
    }
}

const UNKNOWN: Known = Known {
    count: None,
    is_given: false,
};

fn unknown(alloc: Global, fields: usize) -> Result<Vec<Known>, AllocError> {
    let mut sides = Vec::with_capacity(alloc, fields)?;
    for _ in 0..fields {
        sides.push(UNKNOWN)?;
    }
    Ok(sides)
}

/// How many bits the side has by the method, as far as a number, a parameter or the reference tells it. Of no argument's length are sides without bits, and
/// those that have the length of the reference.
fn length_by(side: Side, library: &Library) -> Option<Count> {
    match (library, side) {
        (Library::Static | Library::Lsb { .. }, Side::Uncompressed) => Some(Count::Referred),
        _ => match size_of(side, library) {
            Some(size) => plain(size),
            None => Some(Count::Number(0)),
        },
    }
}

/// The number that an expression is.
fn number_of(expr: &Expr) -> Option<i128> {
    match expr {
        Expr::Number(_, number) => Some(*number),
        Expr::Parameter(_, _) | Expr::Attribute(_, _) | Expr::Binary(_, _, _, _) => None,
    }
}

/// The number of a constant.
fn constant_of(expr: &Expr) -> Option<u64> {
    u64::try_from(number_of(expr)?).ok()
}

const NOTHING: ShortBits = ShortBits {
    count: 0,
    number: 0,
};

const BLANK: Beginning = Beginning::Constants {
    uncompressed: NOTHING,
    compressed: NOTHING,
};

fn blank(alloc: Global, fields: usize) -> Result<Vec<Beginning>, AllocError> {
    let mut beginnings = Vec::with_capacity(alloc, fields)?;
    for _ in 0..fields {
        beginnings.push(BLANK)?;
    }
    Ok(beginnings)
}

/// A constant on that side.
fn constants(side: Side, constant: ShortBits) -> Beginning {
    match side {
        Side::Uncompressed => Beginning::Constants {
            uncompressed: constant,
            compressed: NOTHING,
        },
        Side::Compressed => Beginning::Constants {
            uncompressed: NOTHING,
            compressed: constant,
        },
    }
}
