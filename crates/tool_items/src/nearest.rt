//! Which `lsb` takes most of the steps that came.

ghost use Rattle.std.specs.Prelude.{◌≡◌, ◌≤◌, ◌*◌, ◌^◌, ◌+ℤ◌, ◌-ℤ◌, ◌&&◌, IfOk, OnOk, if◌then◌else◌, int_le, int_lt, nat_le, pos};
ghost use Rattle.std.specs.Int.RustNames.{unsigned_abs};
ghost use Rattle.tool_items.specs.Steps.{counted};
ghost use Rattle.tool_items.specs.Nearest as spec;

use crate::counts::added;
use crate::steps::{Steps, power};
use std::alloc::{AllocError, Global};

/// `lsb(bits, offset)`, which takes the steps from -offset to two to the power of the bits less the offset less one; and how many of those that came it takes.
#[derive(Clone, Copy)]
pub struct Near {
    pub bits: usize,
    pub offset: i128,
    pub taken: usize,
}

/// Steps next to each other: the first, and how many of those that came are among them.
#[derive(Clone, Copy)]
struct Window {
    first: i128,
    taken: usize,
}

/// The `lsb` with the fewest bits, 64 at most, that takes so many percent of the steps that came, if one does. Of several offsets it is one that takes the most:
/// 0 if that does, else the greatest by which the first step that is taken came. The error is out of memory, or a number above 64 bits.
pub fn least_near(alloc: Global, steps: &Steps, share: u8) -> Result<Option<Near>, AllocError>
    ensures { IfOk result (λ near. spec.IsLeastNear share steps.now.counts.entries near) }
{
    let entries = listed(alloc, steps)?;
    let all = total(entries.as_slice())?;
    for bits in 0..65 {
        let window = best_window(entries.as_slice(), bits)?;
        if is_enough(window.taken, share, all) {
            return Ok(Some(near_by(bits, window)));
        }
    }
    Ok(None)
}

/// How many of the steps that came `lsb(bits, offset)` takes. The error is out of memory, or a number above 64 bits.
pub fn taken_by(
    alloc: Global,
    steps: &Steps,
    bits: usize,
    offset: i128,
) -> Result<usize, AllocError>
    requires few { bits ≤ 64 }
    requires small { unsigned_abs offset ≤ 2 ^ 64 }
    ensures { IfOk result (λ taken. taken ≡ spec.taken bits offset steps.now.counts.entries) }
{
    let entries = listed(alloc, steps)?;
    taken_from(entries.as_slice(), -offset, bits)
}

/// The `lsb` that takes the steps of a window.
fn near_by(bits: usize, window: Window) -> Near
    requires { unsigned_abs window.first ≤ 2 ^ 64 }
    ensures bits { result.bits ≡ bits }
    ensures taken { result.taken ≡ window.taken }
    ensures offset { pos 0 -ℤ result.offset ≡ window.first }
{
    Near {
        bits,
        offset: -window.first,
        taken: window.taken,
    }
}

/// Whether so many are that share of all, in percent.
fn is_enough(taken: usize, share: u8, all: usize) -> bool
    ensures { result ≡ nat_le (share * all) (100 * taken) }
{
    share as u128 * all as u128 <= 100 * taken as u128
}

/// The steps that came with their counts, the least first.
fn listed(alloc: Global, steps: &Steps) -> Result<Vec<(i64, usize)>, AllocError>
    ensures all { IfOk result (λ entries. entries.items ≡ steps.now.counts.entries) }
    ensures sorted { IfOk result (λ entries. spec.IsSorted entries.items) }
{
    let mut entries = Vec::with_capacity(alloc, steps.counts.len())?;
    for (step, count) in steps.counts.iter() {
        entries.push((*step, *count))?;
    }
    Ok(entries)
}

/// How many steps there are.
fn total(entries: &[(i64, usize)]) -> Result<usize, AllocError>
    ensures { IfOk result (λ all. all ≡ counted spec.every entries.now) }
{
    let mut all = 0;
    for entry in entries {
        all = added(all, entry.1)?;
    }
    Ok(all)
}

/// How many of the steps are among the two to the power of the bits from the first on.
fn taken_from(entries: &[(i64, usize)], first: i128, bits: usize) -> Result<usize, AllocError>
    requires few { bits ≤ 64 }
    requires small { unsigned_abs first ≤ 2 ^ 64 }
    ensures { IfOk result (λ taken. taken ≡ counted (spec.within first (2 ^ bits)) entries.now) }
{
    let end = end_of(first, bits);
    let mut taken = 0;
    for entry in entries {
        taken = added(taken, part(first, end, entry.0, entry.1))?;
    }
    Ok(taken)
}

/// The first step past the two to the power of the bits from the first on.
fn end_of(first: i128, bits: usize) -> i128
    requires few { bits ≤ 64 }
    requires small { unsigned_abs first ≤ 2 ^ 64 }
    ensures { result ≡ first +ℤ pos (2 ^ bits) }
{
    first + power(bits) as i128
}

/// The count of a step that isn't below the first, and is below the end; of another 0.
fn part(first: i128, end: i128, step: i64, count: usize) -> usize
    ensures { result ≡ (if int_le first step && int_lt step end then count else 0) }
{
    if first <= step as i128 && (step as i128) < end {
        count
    } else {
        0
    }
}

// ---- the best window

/// The window of two to the power of the bits with the most of the steps that came: that from 0 on if none has more, else the first.
fn best_window(entries: &[(i64, usize)], bits: usize) -> Result<Window, AllocError>
    requires few { bits ≤ 64 }
    requires sorted { spec.IsSorted entries.now }
    ensures { IfOk result (λ window. spec.IsBest bits entries.now window) }
{
    let mut walk = Walk {
        start: Front {
            left: entries,
            passed: 0,
        },
        end: Front {
            left: entries,
            passed: 0,
        },
        best: Window {
            first: 0,
            taken: taken_from(entries, 0, bits)?,
        },
    };
    for entry in entries {
        walk.go_on(entry.0, bits)?;
    }
    Ok(walk.best)
}

/// Where a window from a step on begins and ends, and the best window so far.
#[derive(Drop)]
struct Walk<'a> {
    start: Front<'a>,
    end: Front<'a>,
    best: Window,
}

impl<'a> Walk<'a> {
    /// Goes on to the window from a step on.
    fn go_on(&mut self, step: i64, bits: usize) -> Result<(), AllocError>
        requires { bits ≤ 64 }
        ensures { OnOk result (spec.WalksOn step bits self.old self.new) }
    {
        let first = step as i128;
        self.start.pass(first)?;
        self.end.pass(end_of(first, bits))?;
        let taken = self.end.passed.saturating_sub(self.start.passed);
        if taken > self.best.taken {
            self.best = Window { first, taken };
        }
        Ok(())
    }
}

/// A place among the steps: those that are left, and how many came of those before it.
#[derive(Drop)]
struct Front<'a> {
    left: &'a [(i64, usize)],
    passed: usize,
}

impl<'a> Front<'a> {
    /// Goes on to the first step that isn't below a bound.
    fn pass(&mut self, bound: i128) -> Result<(), AllocError>
        ensures { OnOk result (spec.Passes bound self.old self.new) }
    {
        let left = self.left;
        for (place, entry) in left.iter().enumerate() {
            if entry.0 as i128 >= bound {
                self.left = &left[place..];
                return Ok(());
            }
            self.passed = added(self.passed, entry.1)?;
        }
        self.left = &[];
        Ok(())
    }
}
