//! The values of expressions by a guess.

use crate::level::Guess;
use crate::no_guess::NoGuess;
use sem_bits::Bits;
use sem_expr::{Attribute, Expr, Measure, Operator, Side, Subject};
use sem_profile::Part;
use smallvec::SmallVec;
use std::alloc::Global;

/// The value of an expression, if one is found by what was drawn so far.
pub(crate) fn value(alloc: Global, guess: &Guess<'_>, expr: &Expr) -> Option<i128> {
    match short_value(guess, expr) {
        Some(number) => Some(number as i128),
        None => wide_value(alloc, guess, expr),
    }
}

/// The same, where the whole isn't asked for and each number on the way is within 64 bits.
fn short_value(guess: &Guess<'_>, expr: &Expr) -> Option<i64> {
    let Expr::Binary(_, operator, left, right) = expr else {
        return leaf(guess, expr);
    };
    let left = match &**left {
        Expr::Binary(..) => short_value(guess, left)?,
        _ => leaf(guess, left)?,
    };
    let right = match &**right {
        Expr::Binary(..) => short_value(guess, right)?,
        _ => leaf(guess, right)?,
    };
    short_calculated(*operator, left, right)
}

/// The same, where the expression has no parts: so it takes no call.
#[inline(always)]
fn leaf(guess: &Guess<'_>, expr: &Expr) -> Option<i64> {
    match expr {
        Expr::Number(_, number) => i64::try_from(*number).ok(),
        Expr::Parameter(_, index) => i64::try_from(*guess.arguments.get(*index)?).ok(),
        Expr::Attribute(_, attribute) => short_attribute(guess, *attribute),
        Expr::Binary(..) => None,
    }
}

#[inline(always)]
fn short_calculated(operator: Operator, left: i64, right: i64) -> Option<i64> {
    match operator {
        Operator::Add => left.checked_add(right),
        Operator::Subtract => left.checked_sub(right),
        Operator::Multiply => left.checked_mul(right),
        Operator::Divide if right > 0 => Some(left.div_euclid(right)),
        Operator::Remainder if right > 0 => Some(left.rem_euclid(right)),
        Operator::Power if left == 2 && 0 <= right && right < 62 => Some(1 << right),
        Operator::Power | Operator::Divide | Operator::Remainder => None,
    }
}

fn short_attribute(guess: &Guess<'_>, attribute: Attribute) -> Option<i64> {
    let Subject::Field(field) = attribute.subject else {
        return None;
    };
    match attribute.measure {
        Measure::Length => i64::try_from(guess.length(field, attribute.side)).ok(),
        Measure::Value => match guess.bits(field, attribute.side) {
            Ok(bits) => i64::try_from(bits.value()?).ok(),
            Err(_) => None,
        },
    }
}

/// The same for every number.
fn wide_value(alloc: Global, guess: &Guess<'_>, expr: &Expr) -> Option<i128> {
    match expr {
        Expr::Number(_, number) => Some(*number),
        Expr::Parameter(_, index) => guess.arguments.get(*index).copied(),
        Expr::Attribute(_, attribute) => attribute_value(alloc, guess, *attribute),
        Expr::Binary(_, operator, left, right) => {
            let left = wide_value(alloc, guess, left)?;
            let right = wide_value(alloc, guess, right)?;
            calculated(*operator, left, right)
        }
    }
}

/// The same; most are plain numbers.
pub(crate) fn number_of(alloc: Global, guess: &Guess<'_>, expr: &Expr) -> Option<i128> {
    match expr {
        Expr::Number(_, number) => Some(*number),
        _ => value(alloc, guess, expr),
    }
}

/// Adds the values of several expressions. The error is Nowhere, where one has none, or out of memory.
pub(crate) fn add_values(
    alloc: Global,
    guess: &Guess<'_>,
    exprs: &[Expr],
    found: &mut SmallVec<i128, 4>,
) -> Result<(), NoGuess> {
    for expr in exprs {
        let Some(number) = number_of(alloc, guess, expr) else {
            return Err(NoGuess::Nowhere);
        };
        if found.push(number).is_err() {
            return Err(NoGuess::OutOfMemory);
        }
    }
    Ok(())
}

fn calculated(operator: Operator, left: i128, right: i128) -> Option<i128> {
    match operator {
        Operator::Add => left.checked_add(right),
        Operator::Subtract => left.checked_sub(right),
        Operator::Multiply => left.checked_mul(right),
        Operator::Divide if right > 0 => Some(left.div_euclid(right)),
        Operator::Remainder if right > 0 => Some(left.rem_euclid(right)),
        Operator::Power => left.checked_pow(u32::try_from(right).ok()?),
        Operator::Divide | Operator::Remainder => None,
    }
}

fn attribute_value(alloc: Global, guess: &Guess<'_>, attribute: Attribute) -> Option<i128> {
    match (attribute.subject, attribute.measure) {
        (Subject::Field(field), Measure::Length) => Some(
            guess.length(field, attribute.side) as i128,
        ),
        (Subject::Field(field), Measure::Value) => match guess.bits(field, attribute.side) {
            Ok(bits) => Some(bits.value()? as i128),
            Err(_) => None,
        },
        (Subject::This, Measure::Value) => {
            Some(whole_value(alloc, guess, attribute.side)? as i128)
        }
        (Subject::This, Measure::Length) => Some(length_of(guess, attribute.side) as i128),
    }
}

/// The side of the whole, where it is known from the start.
pub(crate) fn known_whole<'a>(guess: &Guess<'a>, side: Side) -> Option<&'a Bits> {
    match side {
        Side::Uncompressed => guess.header,
        Side::Compressed => None,
    }
}

/// The number that the side of the whole spells, as far as it was drawn.
fn whole_value(alloc: Global, guess: &Guess<'_>, side: Side) -> Option<u64> {
    match known_whole(guess, side) {
        Some(whole) => whole.value(),
        None => whole_of(alloc, guess, side)?.value(),
    }
}

/// How many bits the side of the whole has, as far as they were drawn.
fn length_of(guess: &Guess<'_>, side: Side) -> usize {
    if let Some(whole) = known_whole(guess, side) {
        return whole.len();
    }
    let mut count: usize = 0;
    match side {
        Side::Uncompressed => {
            for filled in guess.fields.as_slice() {
                if filled.declared.part == Part::Header {
                    count = count.saturating_add(filled.uncompressed.len());
                }
            }
        }
        Side::Compressed => {
            for field in guess.format.listing.get().as_slice() {
                count = count.saturating_add(guess.length(*field, side));
            }
        }
    }
    count
}

/// The bits of the side of the whole, as far as they were drawn.
pub(crate) fn whole_of(alloc: Global, guess: &Guess<'_>, side: Side) -> Option<Bits> {
    let mut whole = Bits::new(alloc);
    match side {
        Side::Uncompressed => {
            for filled in guess.fields.as_slice() {
                if filled.declared.part == Part::Header {
                    whole.append(&filled.uncompressed).ok()?;
                }
            }
        }
        Side::Compressed => {
            for field in guess.format.listing.get().as_slice() {
                whole
                    .append(guess.bits(*field, Side::Compressed).ok()?)
                    .ok()?;
            }
        }
    }
    Some(whole)
}
