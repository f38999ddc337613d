//! The steps of a plan, without a test on the way.

use crate::guess_frame::{Digits, GuessFrame};
use crate::level::Guess;
use crate::no_guess::NoGuess;
use crate::start::spelled;
use crate::values::{known_whole, number_of, whole_of};
use cert_compiled::{Count, Operation};
use cert_rules::equations::{length_given, remainder_form, value_given};
use cert_rules::fields::size_of;
use cert_types::Step;
use sem_bits::{Bits, Cursor};
use sem_expr::{Expr, Side, Subject};
use sem_filling::whole_sides::reference_below;
use sem_library::{crc_down, lsb_down, lsb_up};
use sem_profile::{Constraint, CrcArguments, Encoding, Field, Library};
use sqlite_items::at;
use std::alloc::Global;

/// Does what calls no method. The error is Nowhere or out of memory.
pub(crate) fn operation(
    alloc: Global,
    here: &GuessFrame<'_>,
    guess: &mut Guess<'_>,
    operation: &Operation,
    digits: &mut Digits,
    source: &Cursor<'_>,
) -> Result<(), NoGuess> {
    match operation {
        Operation::Take {
            passes,
            field,
            side,
            count,
            copies,
        } => {
            let count = count_of(alloc, here, guess, *field, *side, *count)?;
            guess.pass(*passes);
            let number = next_number(guess, count, source)?;
            put(alloc, guess, *field, *side, count, number, *copies)
        }
        Operation::Pass { field, side, count } => {
            let count = count_of(alloc, here, guess, *field, *side, *count)?;
            guess.pass(count);
            Ok(())
        }
        Operation::Give {
            field,
            side,
            count,
            number,
        } => {
            let count = count_of(alloc, here, guess, *field, *side, *count)?;
            put(alloc, guess, *field, *side, count, *number, false)
        }
        Operation::Up(field) => go_up(alloc, here, guess, *field),
        Operation::Down(field) => go_down(alloc, here, guess, *field),
        Operation::Choose {
            field,
            width,
            copies,
        } => choose(alloc, guess, *field, *width, *copies, digits),
        Operation::Ask { field, place } => ask(alloc, here, guess, *field, *place),
        Operation::Follow(step) => follow(alloc, here, guess, *step),
        Operation::Call { .. } => Err(NoGuess::Nowhere),
    }
}

/// The number of the next bits of the source, which are passed. The error is Nowhere.
fn next_number(guess: &mut Guess<'_>, count: usize, source: &Cursor<'_>) -> Result<u64, NoGuess> {
    let Some(number) = source.peek(guess.ahead, count) else {
        return Err(NoGuess::Nowhere);
    };
    guess.pass(count);
    Ok(number)
}

/// Gives the side of the field the bits that spell the number, and where it `copies` the other side as well.
fn put(
    alloc: Global,
    guess: &mut Guess<'_>,
    field: usize,
    side: Side,
    count: usize,
    number: u64,
    copies: bool,
) -> Result<(), NoGuess> {
    if copies {
        let bits = spelled(alloc, count, number)?;
        guess.set(field, other(side), bits);
    }
    let bits = spelled(alloc, count, number)?;
    guess.set(field, side, bits);
    Ok(())
}

fn other(side: Side) -> Side {
    match side {
        Side::Uncompressed => Side::Compressed,
        Side::Compressed => Side::Uncompressed,
    }
}

/// How many bits that is. The error is Nowhere or out of memory.
fn count_of(
    alloc: Global,
    here: &GuessFrame<'_>,
    guess: &Guess<'_>,
    field: usize,
    side: Side,
    count: Count,
) -> Result<usize, NoGuess> {
    match count {
        Count::Number(count) => Ok(count),
        other => looked_up(alloc, here, guess, field, side, other),
    }
}

#[inline(never)]
fn looked_up(
    alloc: Global,
    here: &GuessFrame<'_>,
    guess: &Guess<'_>,
    field: usize,
    side: Side,
    count: Count,
) -> Result<usize, NoGuess> {
    match count {
        Count::Number(count) => Ok(count),
        Count::Parameter(index) => argument_of(guess.arguments, index),
        Count::Referred => match guess.format.fields.get(field) {
            Some(coded) => Ok(reference(alloc, here, coded)?.len()),
            None => Err(NoGuess::Nowhere),
        },
        Count::Noted => Ok(guess.length(field, side)),
    }
}

/// The count that is the value of the parameter. The error is Nowhere.
pub(crate) fn argument_of(arguments: &[i128], index: usize) -> Result<usize, NoGuess> {
    match at(arguments, index) {
        Some(argument) => match usize::try_from(*argument) {
            Ok(count) => Ok(count),
            Err(_) => Err(NoGuess::Nowhere),
        },
        None => Err(NoGuess::Nowhere),
    }
}

/// Gives the field the bits of the next digit.
#[inline(never)]
fn choose(
    alloc: Global,
    guess: &mut Guess<'_>,
    field: usize,
    width: usize,
    copies: bool,
    digits: &mut Digits,
) -> Result<(), NoGuess> {
    if width > 63 {
        return Err(NoGuess::Nowhere);
    }
    let digit = digits.next(1 << width)?;
    put(
        alloc,
        guess,
        field,
        Side::Uncompressed,
        width,
        digit,
        copies,
    )
}

/// Gives the field the asked value at that place.
#[inline(never)]
fn ask(
    alloc: Global,
    here: &GuessFrame<'_>,
    guess: &mut Guess<'_>,
    field: usize,
    place: usize,
) -> Result<(), NoGuess> {
    let Some(value) = at(here.asked, place) else {
        return Err(NoGuess::Nowhere);
    };
    guess.set(field, Side::Uncompressed, value.bits.copy(alloc)?);
    Ok(())
}

/// Follows a step of a plan that learns from what was drawn. The error is Nowhere or out of memory.
#[inline(never)]
pub(crate) fn follow(
    alloc: Global,
    here: &GuessFrame<'_>,
    guess: &mut Guess<'_>,
    step: Step,
) -> Result<(), NoGuess> {
    match step {
        Step::LibraryUp(field) => go_up(alloc, here, guess, field),
        Step::LibraryDown(field) => go_down(alloc, here, guess, field),
        Step::MethodLength(field, side) => measure(alloc, here, guess, field, side),
        Step::ConstraintLength(field, side, number) => bracket(alloc, guess, field, side, number),
        Step::Solve(field, number) => solve(alloc, guess, field, number),
        Step::Take(_) | Step::Call(_) | Step::Choose(_) | Step::Ask(_) => Err(NoGuess::Nowhere),
    }
}

/// Notes how many bits the side of the field has.
fn set_length(
    alloc: Global,
    guess: &mut Guess<'_>,
    field: usize,
    side: Side,
    count: usize,
) -> Result<(), NoGuess> {
    let zeros = spelled(alloc, count, 0)?;
    guess.set(field, side, zeros);
    Ok(())
}

/// The bits of the length that is the value of the one expression, which spell that of the other.
#[inline(never)]
fn constant(
    alloc: Global,
    guess: &Guess<'_>,
    length: &Expr,
    number: &Expr,
) -> Result<Bits, NoGuess> {
    let length = reckoned(alloc, guess, length)?;
    let number = reckoned(alloc, guess, number)?;
    match (usize::try_from(length), u64::try_from(number)) {
        (Ok(count), Ok(number)) => spelled(alloc, count, number),
        _ => Err(NoGuess::Nowhere),
    }
}

/// The field of the format, with the library method that encodes it.
fn coded<'a>(guess: &Guess<'a>, field: usize) -> Result<(&'a Field, &'a Library), NoGuess> {
    let Some(coded) = guess.format.fields.get(field) else {
        return Err(NoGuess::Nowhere);
    };
    match coded.encoding.get() {
        Encoding::Library(library) => Ok((coded, library)),
        Encoding::Bare | Encoding::Call { .. } => Err(NoGuess::Nowhere),
    }
}

/// Gives the field the uncompressed side that its library method makes of the packed one.
fn go_up(
    alloc: Global,
    here: &GuessFrame<'_>,
    guess: &mut Guess<'_>,
    field: usize,
) -> Result<(), NoGuess> {
    let (coded, library) = coded(guess, field)?;
    let bits = match library {
        Library::CompressedValue { .. } | Library::Crc(_) => return Ok(()),
        Library::Irregular { .. } => guess.bits(field, Side::Compressed)?.copy(alloc)?,
        Library::UncompressedValue { length, value } => constant(alloc, guess, length, value)?,
        Library::Static | Library::Lsb { .. } => {
            referred(alloc, here, guess, field, coded, library)?
        }
    };
    guess.set(field, Side::Uncompressed, bits);
    Ok(())
}

/// The uncompressed side of a field whose method refers to the context.
#[inline(never)]
fn referred(
    alloc: Global,
    here: &GuessFrame<'_>,
    guess: &Guess<'_>,
    field: usize,
    coded: &Field,
    library: &Library,
) -> Result<Bits, NoGuess> {
    let reference = reference(alloc, here, coded)?;
    let Library::Lsb { bits, offset } = library else {
        return Ok(reference.copy(alloc)?);
    };
    let bits = reckoned(alloc, guess, bits)?;
    let offset = reckoned(alloc, guess, offset)?;
    let compressed = guess.bits(field, Side::Compressed)?;
    match lsb_up(alloc, bits, offset, Some(reference), compressed)? {
        Some(found) => Ok(found),
        None => Err(NoGuess::Nowhere),
    }
}

/// The reference of the field. The error is Nowhere, where there is none, or out of memory.
pub(crate) fn reference<'a>(
    alloc: Global,
    here: &GuessFrame<'a>,
    coded: &'a Field,
) -> Result<&'a Bits, NoGuess> {
    match reference_below(alloc, here.frame.context, here.frame.path, coded)? {
        Some(reference) => Ok(reference),
        None => Err(NoGuess::Nowhere),
    }
}

/// Gives the field the packed side that its library method makes of the uncompressed one.
fn go_down(
    alloc: Global,
    here: &GuessFrame<'_>,
    guess: &mut Guess<'_>,
    field: usize,
) -> Result<(), NoGuess> {
    let (coded, library) = coded(guess, field)?;
    let bits = match library {
        Library::UncompressedValue { .. } | Library::Static => return Ok(()),
        Library::Irregular { .. } => guess.bits(field, Side::Uncompressed)?.copy(alloc)?,
        Library::CompressedValue { length, value } => constant(alloc, guess, length, value)?,
        Library::Lsb { bits, offset } => lowered(alloc, here, guess, field, coded, bits, offset)?,
        Library::Crc(crc) => summed(alloc, guess, crc.get())?,
    };
    guess.set(field, Side::Compressed, bits);
    Ok(())
}

/// The packed side of a field that sends the last bits near its reference.
#[inline(never)]
fn lowered(
    alloc: Global,
    here: &GuessFrame<'_>,
    guess: &Guess<'_>,
    field: usize,
    coded: &Field,
    bits: &Expr,
    offset: &Expr,
) -> Result<Bits, NoGuess> {
    let reference = reference(alloc, here, coded)?;
    let bits = reckoned(alloc, guess, bits)?;
    let offset = reckoned(alloc, guess, offset)?;
    let whole = guess.bits(field, Side::Uncompressed)?;
    match lsb_down(alloc, bits, offset, Some(reference), whole)? {
        Some(found) => Ok(found),
        None => Err(NoGuess::Nowhere),
    }
}

/// The packed side of a checksum.
#[inline(never)]
fn summed(alloc: Global, guess: &Guess<'_>, crc: &CrcArguments) -> Result<Bits, NoGuess> {
    match crc.subject {
        Subject::Field(field) => sum_of(alloc, guess, crc, guess.bits(field, crc.side)?),
        Subject::This => match known_whole(guess, crc.side) {
            Some(whole) => sum_of(alloc, guess, crc, whole),
            None => match whole_of(alloc, guess, crc.side) {
                Some(whole) => sum_of(alloc, guess, crc, &whole),
                None => Err(NoGuess::Nowhere),
            },
        },
    }
}

/// The packed side of a checksum over these bits.
fn sum_of(
    alloc: Global,
    guess: &Guess<'_>,
    crc: &CrcArguments,
    covered: &Bits,
) -> Result<Bits, NoGuess> {
    let bits = reckoned(alloc, guess, &crc.bits)?;
    let polynomial = reckoned(alloc, guess, &crc.polynomial)?;
    let initial = reckoned(alloc, guess, &crc.initial)?;
    let length = reckoned(alloc, guess, &crc.length)?;
    let none = Bits::new(alloc);
    match crc_down(alloc, bits, polynomial, initial, covered, length, &none)? {
        Some(sum) => Ok(sum),
        None => Err(NoGuess::Nowhere),
    }
}

/// Notes the length that the field's library method gives a side.
fn measure(
    alloc: Global,
    here: &GuessFrame<'_>,
    guess: &mut Guess<'_>,
    field: usize,
    side: Side,
) -> Result<(), NoGuess> {
    let (coded, library) = coded(guess, field)?;
    if let Some(size) = size_of(side, library) {
        return note(alloc, guess, field, side, size);
    }
    match (library, side) {
        (Library::Static | Library::Lsb { .. }, Side::Uncompressed) => {
            let count = reference(alloc, here, coded)?.len();
            set_length(alloc, guess, field, side, count)
        }
        _ => Ok(()),
    }
}

/// Notes the length of a side of the field that the constraint gives, by its number.
#[inline(never)]
fn bracket(
    alloc: Global,
    guess: &mut Guess<'_>,
    field: usize,
    side: Side,
    number: usize,
) -> Result<(), NoGuess> {
    let Some(constraint) = guess.format.constraints.get(number) else {
        return Err(NoGuess::Nowhere);
    };
    match length_given(field, side, constraint.get()) {
        Some(size) => note(alloc, guess, field, side, size),
        None => Err(NoGuess::Nowhere),
    }
}

/// Notes the value of the expression as the length of the side.
fn note(
    alloc: Global,
    guess: &mut Guess<'_>,
    field: usize,
    side: Side,
    size: &Expr,
) -> Result<(), NoGuess> {
    match usize::try_from(reckoned(alloc, guess, size)?) {
        Ok(count) => set_length(alloc, guess, field, side, count),
        Err(_) => Err(NoGuess::Nowhere),
    }
}

/// The value of the expression. The error is Nowhere.
fn reckoned(alloc: Global, guess: &Guess<'_>, expr: &Expr) -> Result<i128, NoGuess> {
    match number_of(alloc, guess, expr) {
        Some(number) => Ok(number),
        None => Err(NoGuess::Nowhere),
    }
}

/// Gives the field, whose length was noted, the value that the constraint says, by its number.
#[inline(never)]
fn solve(alloc: Global, guess: &mut Guess<'_>, field: usize, number: usize) -> Result<(), NoGuess> {
    let Some(constraint) = guess.format.constraints.get(number) else {
        return Err(NoGuess::Nowhere);
    };
    let constraint = constraint.get();
    let number = match value_given(field, constraint) {
        Some(given) => reckoned(alloc, guess, given)?,
        None => remaining(alloc, guess, field, constraint)?,
    };
    let count = guess.length(field, Side::Uncompressed);
    let Ok(number) = u64::try_from(number) else {
        return Err(NoGuess::Nowhere);
    };
    let bits = spelled(alloc, count, number)?;
    guess.set(field, Side::Uncompressed, bits);
    Ok(())
}

/// The value of the field that the constraint leaves of a remainder. The error is Nowhere.
fn remaining(
    alloc: Global,
    guess: &Guess<'_>,
    field: usize,
    constraint: &Constraint,
) -> Result<i128, NoGuess> {
    let Some(given) = remainder_form(alloc, field, constraint) else {
        return Err(NoGuess::Nowhere);
    };
    let left = reckoned(alloc, guess, given.left)?;
    let more = reckoned(alloc, guess, given.more)?;
    match left.checked_sub(more) {
        Some(rest) if given.by > 0 => Ok(rest.rem_euclid(given.by)),
        _ => Err(NoGuess::Nowhere),
    }
}
