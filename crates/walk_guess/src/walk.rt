//! Fillings by the trees and the plans of an accepted profile.

use crate::guess_frame::{Digits, GuessFrame, Mode};
use crate::level::Guess;
use crate::no_guess::NoGuess;
use crate::start::begin_level;
use crate::steps::operation;
use crate::values::add_values;
use cert_accepted::Accepted;
use cert_compiled::Operation;
use sem_bits::Cursor;
use sem_context::Context;
use sem_filling::{AskedValue, Filling, Item, below};
use sem_profile::{DEPTH_LIMIT, Encoding};
use smallvec::SmallVec;
use sqlite_items::at;
use std::alloc::Global;

/// A filling of the top that may be the one whose packed bits are at the cursor's place. It is drawn by the tree and the read plans alone, and neither bounds
/// nor constraints nor what is known already are tested on the way: nothing is promised of it, and who asks for it judges it. None where the plan leads
/// nowhere, where fewer bits are left than any packet has, or where memory is out: a guess is no answer that is owed, so it can't be refused.
pub fn guess(
    alloc: Global,
    accepted: &Accepted,
    context: &Context,
    cursor: &Cursor<'_>,
) -> Option<Filling> {
    if cursor.rest() < least_of(accepted, accepted.profile().top()) {
        return None;
    }
    drawn(alloc, &top(accepted, context, &[]), Mode::Read, cursor)
}

/// A filling of the top that may be the candidate with this number for the item, drawn likewise by the write plans: nothing is promised of it either.
pub fn guess_item(
    alloc: Global,
    accepted: &Accepted,
    context: &Context,
    item: &Item,
    number: u64,
) -> Option<Filling> {
    let mut here = top(accepted, context, item.asked.as_slice());
    here.header = Some(&item.header);
    let source = Cursor::new(&item.header);
    drawn(alloc, &here, Mode::Write(number), &source)
}

/// Whether it is worth drawing the candidate with this number up before it is looked at in another way. Nothing is promised of this either.
pub fn is_hopeful(accepted: &Accepted, context: &Context, number: u64) -> bool {
    top(accepted, context, &[])
        .is_hopeful(number)
        .unwrap_or(false)
}

/// Where the top is drawn.
pub(crate) fn top<'a>(
    accepted: &'a Accepted,
    context: &'a Context,
    asked: &'a [AskedValue],
) -> GuessFrame<'a> {
    let mut top = GuessFrame::of(accepted, context, accepted.profile().top(), &[], "");
    top.asked = asked;
    top
}

fn drawn(alloc: Global, here: &GuessFrame<'_>, mode: Mode, source: &Cursor<'_>) -> Option<Filling> {
    match draw(DEPTH_LIMIT, alloc, here, mode, source, 0) {
        Ok(filling) => Some(filling),
        Err(_) => None,
    }
}

/// The least count of packed bits of the method, by its bounds.
fn least_of(accepted: &Accepted, method: usize) -> usize {
    match at(accepted.profile().sizes(), method) {
        Some(sizes) => usize::try_from(sizes.whole.compressed.least).unwrap_or(usize::MAX),
        None => 0,
    }
}

/// The filling of the method whose source begins so many places after the cursor's.
#[cycle(drawing)]
fn draw(
    depth: usize,
    alloc: Global,
    here: &GuessFrame<'_>,
    mode: Mode,
    source: &Cursor<'_>,
    from: usize,
) -> Result<Filling, NoGuess> {
    let start = here.start(alloc, mode, source, from)?;
    let mut digits = start.digits;
    let beginnings = start.operations.beginnings.as_slice();
    let mut guess = begin_level(alloc, here, start.format, beginnings, source, from)?;
    for next in start.operations.done.as_slice() {
        match next {
            Operation::Call {
                passes,
                field,
                takes,
            } => {
                guess.pass(*passes);
                let mode = inner_goal(here, &guess, mode, *field, &mut digits)?;
                let inside = Inside {
                    field: *field,
                    takes: *takes,
                };
                call(depth, alloc, here, &mut guess, mode, inside, source)?;
            }
            _ => operation(alloc, here, &mut guess, next, &mut digits, source)?,
        }
    }
    Ok(guess.into_filling(start.index)?)
}

/// The mode of the filling inside the field: in writing the next digit is its number. The error is Nowhere.
fn inner_goal(
    here: &GuessFrame<'_>,
    guess: &Guess<'_>,
    mode: Mode,
    field: usize,
    digits: &mut Digits,
) -> Result<Mode, NoGuess> {
    match mode {
        Mode::Read => Ok(Mode::Read),
        Mode::Write(_) => {
            let called = called_by(guess, field)?;
            let radix = here.radix(called)?;
            Ok(Mode::Write(digits.next(radix)?))
        }
    }
}

/// The method that the field calls. The error is Nowhere.
fn called_by(guess: &Guess<'_>, field: usize) -> Result<usize, NoGuess> {
    let Some(coded) = guess.format.fields.get(field) else {
        return Err(NoGuess::Nowhere);
    };
    match coded.encoding.get() {
        Encoding::Call { method, .. } => Ok(*method),
        Encoding::Bare | Encoding::Library(_) => Err(NoGuess::Nowhere),
    }
}

/// Draws what fills a field that calls a method.
#[cycle(drawing)]
#[inline(never)]
fn call(
    depth: usize,
    alloc: Global,
    here: &GuessFrame<'_>,
    guess: &mut Guess<'_>,
    mode: Mode,
    inside: Inside,
    source: &Cursor<'_>,
) -> Result<(), NoGuess> {
    let Some(coded) = guess.format.fields.get(inside.field) else {
        return Err(NoGuess::Nowhere);
    };
    let Encoding::Call { method, arguments } = coded.encoding.get() else {
        return Err(NoGuess::Nowhere);
    };
    let mut values = SmallVec::<i128, 4>::new(alloc);
    add_values(alloc, guess, arguments.as_slice(), &mut values)?;
    let (accepted, context) = (here.accepted, here.frame.context);
    let (arguments, name) = (values.as_slice(), coded.declared.name.as_str());
    let filling = if here.frame.path.is_empty() {
        let inner = GuessFrame::of(accepted, context, *method, arguments, name);
        draw_inside(depth, alloc, &inner, guess, mode, inside, source)?
    } else {
        let path = below(alloc, here.frame.path, name)?;
        let inner = GuessFrame::of(accepted, context, *method, arguments, path.as_str());
        draw_inside(depth, alloc, &inner, guess, mode, inside, source)?
    };
    guess.fill(alloc, inside.field, filling)?;
    if inside.takes {
        guess.pass(guess.length(inside.field, mode.side()));
    }
    Ok(())
}

/// A call: the field that calls, and whether the filling inside takes from the source.
#[derive(Clone, Copy)]
struct Inside {
    field: usize,
    takes: bool,
}

/// Draws the filling inside a field: where it doesn't take from the source, from the field's own bits of that side.
#[cycle(drawing)]
fn draw_inside(
    depth: usize,
    alloc: Global,
    inner: &GuessFrame<'_>,
    guess: &Guess<'_>,
    mode: Mode,
    inside: Inside,
    source: &Cursor<'_>,
) -> Result<Filling, NoGuess> {
    if depth == 0 {
        return Err(NoGuess::Nowhere);
    }
    if inside.takes {
        draw(depth - 1, alloc, inner, mode, source, guess.ahead)
    } else {
        let own = guess.bits(inside.field, mode.side())?.copy(alloc)?;
        draw(depth - 1, alloc, inner, mode, &Cursor::new(&own), 0)
    }
}
