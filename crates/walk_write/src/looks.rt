//! Candidates that fail at a look, before anything is drawn or walked for them.

ghost use Rattle.std.specs.Prelude.{◌≡◌, ◌<◌, Some, IfOk, IfSome, OnOk, IsTrue, slice_get};
ghost use Rattle.cert_accepted.specs.Standing.{Stands};
ghost use Rattle.walk_write.specs.Going as going;
ghost use Rattle.walk_write.specs.Sources.{IsWithin, front};
ghost use Rattle.walk_write.specs.Singles.{IsSingleFrom};
ghost use Rattle.walk_write.specs.Walking.{IsBelow, Fails, Passes};

use crate::calls::radix_of;
use crate::foresight::{between, foreseen};
use crate::refutation::is_refuted;
use crate::source::HeaderSource;
use crate::start::start_at;
use cert_accepted::AcceptedFrame;
use cert_accepted::frame::is_single;
use cert_candidates::Start;
use sqlite_items::at;
use std::alloc::{AllocError, Global};

/// How many candidates fail from this number on, where their formats are refuted, or by what the choices, the asked values and the calls of their plans tell: no
/// filling with these asked values has one of their numbers. None where that isn't told, though they may fail. The last candidate isn't looked at, and of the
/// one after those that fail nothing was told, if there is one. The error is out of memory.
pub fn refuted(
    alloc: Global,
    place: &AcceptedFrame<'_>,
    source: &HeaderSource<'_>,
    number: u64,
) -> Result<Option<u64>, AllocError>
    requires stands { Stands place.now }
    requires within { IsWithin source.now }
    requires below { IsBelow place.now number }
    ensures { IfOk result (λ o. IfSome o (Fails place.now (front source.now) source.now.asked.now number)) }
{
    let last = count_of(place) - 1;
    let mut next = number;
    while next < last {
        let Some(start) = start_at(place, next) else {
            return Ok(between(number, next));
        };
        let is_on = look_from(alloc, place, start, source, &mut next)?;
        if !is_on {
            return Ok(between(number, next));
        }
    }
    Ok(between(number, next))
}

/// The format that begins with the number, by its index, where that has one candidate for an item. None where it hasn't, or another number begins it. Nothing of
/// the item is looked at.
pub fn single_format(place: &AcceptedFrame<'_>, number: u64) -> Option<usize>
    requires stands { Stands place.now }
    requires below { IsBelow place.now number }
    ensures { IfSome result (IsSingleFrom place.now number) }
{
    let start = start_at(place, number)?;
    if is_first(place, start.format, start.digits.alike())
        && is_single(place.accepted, place.frame.method, start.format)
    {
        Some(start.format)
    } else {
        None
    }
}

/// How many candidates fail from this number on, where it begins a format that is refuted. The error is out of memory.
pub fn refuted_format(
    alloc: Global,
    place: &AcceptedFrame<'_>,
    source: &HeaderSource<'_>,
    number: u64,
) -> Result<Option<u64>, AllocError>
    requires stands { Stands place.now }
    requires within { IsWithin source.now }
    requires below { IsBelow place.now number }
    ensures { IfOk result (λ o. IfSome o (Fails place.now (front source.now) source.now.asked.now number)) }
{
    let Some(start) = start_at(place, number) else {
        return Ok(None);
    };
    let alike = start.digits.alike();
    if !is_first(place, start.format, alike) {
        return Ok(None);
    }
    let is_in_vain = is_refuted(alloc, place, start.format, source.cursor, source.from)?;
    if is_in_vain {
        Ok(Some(alike))
    } else {
        Ok(None)
    }
}

/// How many candidates the method has.
fn count_of(place: &AcceptedFrame<'_>) -> u64
    requires stands { Stands place.now }
    ensures { slice_get place.now.accepted.now.counts place.now.frame.method ≡ Some result }
{
    place.accepted.keeps();
    place.accepted.profile().keeps();
    radix_of(place.accepted, place.frame.method)
}

/// How many candidates fail from a number on that begins so, where a look at it tells that.
pub(crate) fn refuted_from(
    alloc: Global,
    place: &AcceptedFrame<'_>,
    start: Start,
    source: &HeaderSource<'_>,
    number: u64,
) -> Result<Option<u64>, AllocError>
    requires stands { Stands place.now }
    requires within { IsWithin source.now }
    requires begins { going.Begins place.now number start }
    ensures { IfOk result (λ o. IfSome o (Fails place.now (front source.now) source.now.asked.now number)) }
{
    let mut next = number;
    let _is_on = look_from(alloc, place, start, source, &mut next)?;
    Ok(between(number, next))
}

/// Goes past the candidates from this number on, which begins so, that a look at it refutes. Whether the next one is worth another look.
#[inline(never)]
fn look_from(
    alloc: Global,
    place: &AcceptedFrame<'_>,
    start: Start,
    source: &HeaderSource<'_>,
    number: &mut u64,
) -> Result<bool, AllocError>
    requires stands { Stands place.now }
    requires within { IsWithin source.now }
    requires begins { going.Begins place.now number.old start }
    ensures past { OnOk result (Passes place.now (front source.now) source.now.asked.now number.old number.new) }
    ensures further { IfOk result (λ again. IsTrue again → number.old < number.new) }
{
    let _count = count_of(place);
    let alike = start.digits.alike();
    if is_first(place, start.format, alike) {
        let in_vain = is_refuted(alloc, place, start.format, source.cursor, source.from)?;
        if in_vain {
            *number += alike;
            return Ok(true);
        }
    }
    foreseen(alloc, place, start, source, number)
}

/// Whether so many candidates are all of the format. What the arguments, the header and the context tell of a format was looked at for the first of them.
fn is_first(place: &AcceptedFrame<'_>, format: usize, alike: u64) -> bool {
    match at(place.accepted.spans(), place.frame.method) {
        Some(spans) => spans.get(format) == Some(&alike),
        None => true,
    }
}
