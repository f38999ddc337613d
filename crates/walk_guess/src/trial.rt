//! How far the bits reach along the steps of read plans, where nothing fits.

use crate::guess_frame::GuessFrame;
use crate::level::Guess;
use crate::no_guess::NoGuess;
use crate::start::{add, spelled};
use crate::steps::follow;
use crate::values::add_values;
use crate::walk::top;
use cert_accepted::Accepted;
use cert_accepted::frame::{format_of, sizes_of};
use cert_types::Step;
use sem_bits::{Bits, Cursor};
use sem_context::Context;
use sem_expr::Side;
use sem_filling::{Filling, below};
use sem_profile::{Bounds, DEPTH_LIMIT, Encoding, Format, FormatSizes, is_listed};
use smallvec::SmallVec;
use sqlite_items::at;
use std::alloc::Global;

/// Whether the bits at the cursor's place run out within the steps of a format, which goes by its index and its method's. The steps are followed in the order of the
/// plans, and what each finds is tested as a walk tests it, against the bounds and against what is known. Nothing is promised of the answer: it is for who knows
/// that nothing fits the format, and that a walk takes no step of it.
pub fn runs_out(
    alloc: Global,
    accepted: &Accepted,
    context: &Context,
    cursor: &Cursor<'_>,
    method: usize,
    format: usize,
) -> bool {
    let here = top(accepted, context, &[]);
    let last = Last { method, format };
    match try_method(DEPTH_LIMIT, alloc, &here, last, cursor, 0) {
        Err(NoGuess::Short) => true,
        Err(NoGuess::Nowhere) | Err(NoGuess::OutOfMemory) | Ok(_) => false,
    }
}

/// The format after which nothing more is tried, and its method, both by their indices.
#[derive(Clone, Copy)]
struct Last {
    method: usize,
    format: usize,
}

/// What is known of a side of a field.
#[derive(Clone, Copy)]
enum Known {
    Nothing,
    Length,
    Bits,
}

/// A level whose steps are tried: what is drawn of it, what of this is known, and its bounds.
#[derive(Drop)]
struct Trial<'a> {
    guess: Guess<'a>,
    uncompressed: Vec<Known>,
    compressed: Vec<Known>,
    sizes: &'a FormatSizes,
}

impl<'a> Trial<'a> {
    fn known(&self, field: usize, side: Side) -> Known {
        let sides = match side {
            Side::Uncompressed => self.uncompressed.as_slice(),
            Side::Compressed => self.compressed.as_slice(),
        };
        match sides.get(field) {
            Some(known) => *known,
            None => Known::Nothing,
        }
    }

    fn note(&mut self, field: usize, side: Side, known: Known) {
        match side {
            Side::Uncompressed => {
                if field < self.uncompressed.len() {
                    self.uncompressed[field] = known;
                }
            }
            Side::Compressed => {
                if field < self.compressed.len() {
                    self.compressed[field] = known;
                }
            }
        }
    }

    /// How many places after the cursor's the packed bits of a listed field begin.
    fn place(&self, field: usize) -> usize {
        let mut place = self.guess.ahead;
        for listed in self.guess.format.listing.get().as_slice() {
            if *listed == field {
                return place;
            }
            place = place.saturating_add(self.guess.length(*listed, Side::Compressed));
        }
        place
    }

    /// Takes what was found of a side of the field, which had other bits before. The error is Nowhere, where it isn't within the bounds or isn't as was known.
    fn meet(
        &mut self,
        field: usize,
        side: Side,
        before: Bits,
        found: Known,
    ) -> Result<(), NoGuess> {
        let known = self.known(field, side);
        let after = self.guess.bits(field, side)?;
        if !is_within(self.sizes, field, side, after.len())
            || !agrees(known, &before, found, after)
        {
            return Err(NoGuess::Nowhere);
        }
        match (known, found) {
            (Known::Bits, Known::Length) => self.guess.set(field, side, before),
            _ => self.note(field, side, found),
        }
        Ok(())
    }
}

/// Whether what is found of a side agrees with what is known.
fn agrees(known: Known, before: &Bits, found: Known, after: &Bits) -> bool {
    match (known, found) {
        (Known::Nothing, _) => true,
        (Known::Bits, Known::Bits) => *before == *after,
        _ => before.len() == after.len(),
    }
}

/// Whether the length of a side of the field is within its bounds.
fn is_within(sizes: &FormatSizes, field: usize, side: Side, length: usize) -> bool {
    let Some(sizes) = at(sizes.fields.as_slice(), field) else {
        return false;
    };
    let Bounds { least, most } = match side {
        Side::Uncompressed => sizes.uncompressed,
        Side::Compressed => sizes.compressed,
    };
    least <= length as u128 && length as u128 <= most
}

/// The filling of the method whose bits begin so many places after the cursor's, as far as its steps go.
#[cycle(trying)]
fn try_method(
    depth: usize,
    alloc: Global,
    here: &GuessFrame<'_>,
    last: Last,
    cursor: &Cursor<'_>,
    from: usize,
) -> Result<Filling, NoGuess> {
    let index = here.read_index(alloc, cursor, from)?;
    let mut trial = begin(alloc, here, index, from)?;
    for step in plan_of(here, index)? {
        match *step {
            Step::Call(field) => try_call(depth, alloc, here, last, &mut trial, field, cursor)?,
            other => try_step(alloc, here, &mut trial, other, cursor)?,
        }
    }
    if last.method == here.frame.method && last.format == index {
        return Err(NoGuess::Nowhere);
    }
    let Trial { guess, .. } = trial;
    Ok(guess.into_filling(index)?)
}

/// A level of which nothing is known, but that a field which isn't listed has no packed bits. The error is Nowhere or out of memory.
fn begin<'a>(
    alloc: Global,
    here: &GuessFrame<'a>,
    index: usize,
    from: usize,
) -> Result<Trial<'a>, NoGuess> {
    let Some(format) = format_of(here.accepted, here.frame.method, index) else {
        return Err(NoGuess::Nowhere);
    };
    let Some(sizes) = sizes_of(here.accepted, here.frame.method, index) else {
        return Err(NoGuess::Nowhere);
    };
    let mut fields = Vec::with_capacity(alloc, format.fields.len())?;
    let mut uncompressed = Vec::with_capacity(alloc, format.fields.len())?;
    let mut compressed = Vec::with_capacity(alloc, format.fields.len())?;
    for (place, field) in format.fields.as_slice().iter().enumerate() {
        add(
            &mut fields,
            &field.declared,
            Bits::new(alloc),
            Bits::new(alloc),
        )?;
        let sent = if is_listed(format, place) {
            Known::Nothing
        } else {
            Known::Bits
        };
        if uncompressed.push(Known::Nothing).is_err() || compressed.push(sent).is_err() {
            return Err(NoGuess::OutOfMemory);
        }
    }
    Ok(Trial {
        guess: Guess {
            format,
            arguments: here.frame.arguments,
            header: None,
            fields,
            ahead: from,
        },
        uncompressed,
        compressed,
        sizes,
    })
}

/// The plan by which the format is read. The error is Nowhere.
fn plan_of<'a>(here: &GuessFrame<'a>, index: usize) -> Result<&'a [Step], NoGuess> {
    match plan_at(here.accepted, here.frame.method, index) {
        Some(plan) => Ok(plan),
        None => Err(NoGuess::Nowhere),
    }
}

fn plan_at(accepted: &Accepted, method: usize, index: usize) -> Option<&[Step]> {
    let entry = accepted.certificate().methods().get(method)?.as_ref()?;
    let plans = entry.formats.get(index)?.plans.as_ref()?;
    Some(plans.read.as_slice())
}

/// Follows a step that calls no method.
fn try_step(
    alloc: Global,
    here: &GuessFrame<'_>,
    trial: &mut Trial<'_>,
    step: Step,
    cursor: &Cursor<'_>,
) -> Result<(), NoGuess> {
    let (field, side, found) = match step {
        Step::Take(field) => return take(alloc, trial, field, cursor),
        Step::LibraryUp(field) => (field, Side::Uncompressed, Known::Bits),
        Step::Solve(field, _) => (field, Side::Uncompressed, Known::Bits),
        Step::LibraryDown(field) => (field, Side::Compressed, Known::Bits),
        Step::MethodLength(field, side) => (field, side, Known::Length),
        Step::ConstraintLength(field, side, _) => (field, side, Known::Length),
        Step::Call(_) | Step::Choose(_) | Step::Ask(_) => return Err(NoGuess::Nowhere),
    };
    let before = trial.guess.bits(field, side)?.copy(alloc)?;
    follow(alloc, here, &mut trial.guess, step)?;
    trial.meet(field, side, before, found)
}

/// Takes the packed bits of a listed field, of which the length is known. The error is Short, Nowhere or out of memory.
fn take(
    alloc: Global,
    trial: &mut Trial<'_>,
    field: usize,
    cursor: &Cursor<'_>,
) -> Result<(), NoGuess> {
    let count = trial.guess.length(field, Side::Compressed);
    let Some(number) = cursor.peek(trial.place(field), count) else {
        return Err(NoGuess::Short);
    };
    let before = trial.guess.bits(field, Side::Compressed)?.copy(alloc)?;
    let bits = spelled(alloc, count, number)?;
    trial.guess.set(field, Side::Compressed, bits);
    trial.meet(field, Side::Compressed, before, Known::Bits)
}

/// Tries what fills a field that calls a method.
#[cycle(trying)]
fn try_call(
    depth: usize,
    alloc: Global,
    here: &GuessFrame<'_>,
    last: Last,
    trial: &mut Trial<'_>,
    field: usize,
    cursor: &Cursor<'_>,
) -> Result<(), NoGuess> {
    let Some(coded) = trial.guess.format.fields.get(field) else {
        return Err(NoGuess::Nowhere);
    };
    let Encoding::Call { method, arguments } = coded.encoding.get() else {
        return Err(NoGuess::Nowhere);
    };
    let mut values = SmallVec::<i128, 4>::new(alloc);
    add_values(alloc, &trial.guess, arguments.as_slice(), &mut values)?;
    let path = below(alloc, here.frame.path, coded.declared.name.as_str())?;
    let (accepted, context) = (here.accepted, here.frame.context);
    let inner = GuessFrame::of(accepted, context, *method, values.as_slice(), path.as_str());
    let filling = try_inside(depth, alloc, &inner, last, trial, field, cursor)?;
    fill(alloc, trial, field, filling)
}

/// Tries the filling inside a field: of one that isn't listed from no bits.
#[cycle(trying)]
fn try_inside(
    depth: usize,
    alloc: Global,
    inner: &GuessFrame<'_>,
    last: Last,
    trial: &Trial<'_>,
    field: usize,
    cursor: &Cursor<'_>,
) -> Result<Filling, NoGuess> {
    if depth == 0 {
        return Err(NoGuess::Nowhere);
    }
    if is_listed(trial.guess.format, field) {
        try_method(depth - 1, alloc, inner, last, cursor, trial.place(field))
    } else {
        let none = Bits::new(alloc);
        ended(try_method(depth - 1, alloc, inner, last, &Cursor::new(&none), 0))
    }
}

/// What is found where no bits will come: it leads nowhere where they run out.
fn ended(tried: Result<Filling, NoGuess>) -> Result<Filling, NoGuess> {
    match tried {
        Ok(filling) => Ok(filling),
        Err(stop) => match stop {
            NoGuess::Short => Err(NoGuess::Nowhere),
            NoGuess::Nowhere | NoGuess::OutOfMemory => Err(stop),
        },
    }
}

/// Takes the filling inside the field, with both sides.
fn fill(
    alloc: Global,
    trial: &mut Trial<'_>,
    field: usize,
    filling: Filling,
) -> Result<(), NoGuess> {
    let header = trial.guess.bits(field, Side::Uncompressed)?.copy(alloc)?;
    let packed = trial.guess.bits(field, Side::Compressed)?.copy(alloc)?;
    trial.guess.fill(alloc, field, filling)?;
    trial.meet(field, Side::Uncompressed, header, Known::Bits)?;
    trial.meet(field, Side::Compressed, packed, Known::Bits)
}
