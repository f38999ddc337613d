//! Steps: how far a value lies from one of an item before, and how many of each step there are.

ghost use Rattle.std.specs.Prelude.{◌≡◌, ◌<◌, ◌≤◌, ◌^◌, ◌∷◌, [], IfOk, OnOk, cond, length, map, pos};
ghost use Rattle.std.specs.BTreeMap.{get};
ghost use Rattle.std.specs.Map.{count_at};
ghost use Rattle.std.specs.Ordering.{int_cmp};
ghost use Rattle.sem_bits.specs.Number.{num};
ghost use Rattle.tool_items.specs.Steps as spec;

use crate::counts::added;
use sem_bits::Bits;
use std::alloc::{AllocError, Global};
use std::collections::BTreeMap;

/// How often each step came, and how many pairs of values have none: they differ in length, or have more than 64 bits.
#[derive(Drop)]
pub struct Steps {
    pub counts: BTreeMap<i64, usize>,
    pub without: usize,
}

impl Steps {
    /// Those of no pairs.
    pub fn new(alloc: Global) -> Steps
        ensures { spec.AreCounted [] result }
    {
        Steps {
            counts: BTreeMap::new(alloc),
            without: 0,
        }
    }

    /// Adds the step from an earlier value to a later one. The error is out of memory; after it the counts may be anything. It also comes where a number is above
    /// 64 bits.
    pub fn add(&mut self, earlier: &Bits, later: &Bits) -> Result<(), AllocError>
        ensures { OnOk result (spec.AddSteps (spec.step earlier.now later.now ∷ []) self.old self.new) }
    {
        match step_of(earlier, later) {
            Some(step) => count_step(&mut self.counts, step),
            None => {
                self.without = added(self.without, 1)?;
                Ok(())
            }
        }
    }

    /// Adds the steps to a value from each of some earlier ones.
    pub(crate) fn add_from(&mut self, earlier: &[Bits], later: &Bits) -> Result<(), AllocError>
        ensures { OnOk result (spec.AddSteps (map (λ from. spec.step from later.now) earlier.now) self.old self.new) }
    {
        for from in earlier {
            self.add(from, later)?;
        }
        Ok(())
    }
}

/// Counts a step once more.
fn count_step(counts: &mut BTreeMap<i64, usize>, step: i64) -> Result<(), AllocError>
    ensures { OnOk result (spec.AddsStep step counts.old.entries counts.new.entries) }
{
    let count = added(count_of(counts, step), 1)?;
    counts.insert(step, count)?;
    Ok(())
}

/// How often a step came.
fn count_of(counts: &BTreeMap<i64, usize>, step: i64) -> usize
    ensures { result ≡ count_at (get int_cmp counts.now) step }
{
    match counts.get(&step) {
        Some(count) => *count,
        None => 0,
    }
}

/// The step from an earlier value to a later one, where they have the same length, 64 bits at most.
pub fn step_of(earlier: &Bits, later: &Bits) -> Option<i64>
    ensures { result ≡ spec.step earlier.now later.now }
{
    if earlier.len() != later.len() {
        return None;
    }
    let from = earlier.value()?;
    let to = later.value()?;
    Some(step_between(later.len(), from, to))
}

/// The step from one number of so many bits to another, modulo two to the power of these: from minus half of that on, below half of it.
fn step_between(length: usize, from: u64, to: u64) -> i64
    requires short { length ≤ 64 }
    requires from { from < 2 ^ length }
    requires to { to < 2 ^ length }
    ensures { result ≡ spec.step_between length from to }
{
    let all = power(length);
    nearest(all, (to as u128 + all - from as u128) % all)
}

/// So many of all numbers further on, or back, whichever is nearer.
fn nearest(all: u128, ahead: u128) -> i64
    requires some { ahead < all }
    requires few { all ≤ 2 ^ 64 }
    ensures { result ≡ spec.nearest all ahead }
{
    if ahead * 2 < all {
        ahead as i64
    } else {
        (ahead as i128 - all as i128) as i64
    }
}

/// How many numbers so many bits spell.
#[tactic(auto, using(crate::proofs::StepsNumbers::few, crate::proofs::StepsNumbers::some))]
pub fn power(count: usize) -> u128
    requires { count ≤ 64 }
    ensures value { result ≡ 2 ^ count }
    ensures some { 1 ≤ result }
    ensures few { result ≤ 2 ^ 64 }
{
    1 << count
}
