//! How many packets are read right, refused and read wrong.

ghost use Rattle.std.specs.Prelude.{◌≡◌, ◌+◌, ◌<◌, IfOk, true};
ghost use Rattle.walk_loss.specs.Scores as spec;

use crate::journal::Reading;
use crate::reception::HeardKind;
use std::alloc::AllocError;

/// Readings that are counted together.
#[derive(Clone, Copy)]
pub enum Group {
    /// Those after so many lost packets.
    After(usize),
    /// Those of packets of a format, by its index in the top, after one lost packet or more.
    Of(usize),
}

/// How many readings there are, and how many of these are right, refused and wrong.
#[derive(Clone, Copy)]
pub struct Score {
    pub packets: usize,
    pub right: usize,
    pub refused: usize,
    pub wrong: usize,
}

/// The score of a group. The error comes where a number is above 64 bits; for that there would have to be more readings than a memory holds.
pub fn score_of(readings: &[Reading], group: Group) -> Result<Score, AllocError>
    ensures { IfOk result (λ score. score ≡ spec.score group readings.now) }
{
    Ok(Score {
        packets: count_of(readings, group)?,
        right: kind_count(readings, group, HeardKind::Right)?,
        refused: kind_count(readings, group, HeardKind::Refused)?,
        wrong: kind_count(readings, group, HeardKind::Wrong)?,
    })
}

fn count_of(readings: &[Reading], group: Group) -> Result<usize, AllocError>
    ensures { IfOk result (λ count. count ≡ spec.count group readings.now) }
{
    let mut count: usize = 0;
    for reading in readings {
        count = added(count, one_in(reading, group))?;
    }
    Ok(count)
}

fn kind_count(readings: &[Reading], group: Group, kind: HeardKind) -> Result<usize, AllocError>
    ensures { IfOk result (λ count. count ≡ spec.kind_count group kind readings.now) }
{
    let mut count: usize = 0;
    for reading in readings {
        count = added(count, kind_in(reading, group, kind))?;
    }
    Ok(count)
}

/// 1 where the reading is one of the group.
fn one_in(reading: &Reading, group: Group) -> usize
    ensures { result ≡ spec.one_in group reading.now }
{
    if is_in(reading, group) { 1 } else { 0 }
}

/// 1 where it is one of that kind.
fn kind_in(reading: &Reading, group: Group, kind: HeardKind) -> usize
    ensures { result ≡ spec.kind_in group kind reading.now }
{
    if is_in(reading, group) && reading.kind == kind {
        1
    } else {
        0
    }
}

fn is_in(reading: &Reading, group: Group) -> bool
    ensures { result ≡ spec.is_in group reading.now }
{
    match group {
        Group::After(lost) => reading.lost == lost,
        Group::Of(format) => reading.format == format && reading.lost > 0,
    }
}

/// The sum of two numbers.
fn added(left: usize, right: usize) -> Result<usize, AllocError>
    ensures { IfOk result (λ sum. sum ≡ left + right) }
{
    match left.checked_add(right) {
        Some(sum) => Ok(sum),
        None => Err(AllocError),
    }
}

/// After how many lost packets, up to so many, each packet of the format is still read right.
pub fn reach_of(readings: &[Reading], format: usize, most: usize) -> usize
    ensures { result ≡ spec.reach format most readings.now }
{
    let mut reach = most;
    for reading in readings {
        reach = lesser(reach, limit_of(reading, format, most));
    }
    reach
}

fn lesser(left: usize, right: usize) -> usize
    ensures { result ≡ spec.lesser left right }
{
    if left <= right { left } else { right }
}

/// One below the number after which this packet of the format isn't read right.
fn limit_of(reading: &Reading, format: usize, most: usize) -> usize
    ensures { result ≡ spec.limit format most reading.now }
{
    if is_in(reading, Group::Of(format)) && reading.kind != HeardKind::Right {
        reading.lost.saturating_sub(1)
    } else {
        most
    }
}
