//! By which step a number has gone on from its reference, and which steps `lsb` takes.

ghost use Rattle.std.specs.Prelude.{◌≡◌, ◌<◌, ◌≤◌, ◌^◌};
ghost use Rattle.std.specs.Int.RustNames.{unsigned_abs};
ghost use Rattle.tool_loss.specs.Step as spec;

use sem_bits::Bits;
use tool_items::steps::power;
use walk_loss::{Referring, Unserved};

/// The step of a number, and the first and the last step that are taken.
#[derive(Clone, Copy)]
pub struct Step {
    pub step: i128,
    pub from: i128,
    pub to: i128,
}

/// The step of a use of `lsb` that doesn't serve, where the reference has as many bits as the field, 64 at most, and the arguments are of that size.
pub fn step_of(unserved: &Unserved) -> Option<Step>
    ensures { result ≡ spec.step_of unserved.now }
{
    match (unserved.method, &unserved.reference) {
        (Referring::Lsb { bits, offset }, Some(reference)) => {
            near_step(bits, offset, reference, &unserved.needed)
        }
        _ => None,
    }
}

fn near_step(bits: i128, offset: i128, reference: &Bits, needed: &Bits) -> Option<Step>
    ensures { result ≡ spec.near_step bits offset reference.now needed.now }
{
    if reference.len() != needed.len() || offset.unsigned_abs() > 1 << 64 {
        return None;
    }
    let Ok(count) = usize::try_from(bits) else {
        return None;
    };
    if count > 64 {
        return None;
    }
    let from = reference.value()?;
    let to = needed.value()?;
    let step = step_between(needed.len(), from, to);
    Some(steps(count, offset, step))
}

/// That step, and the steps that `lsb(count, offset)` takes.
fn steps(count: usize, offset: i128, step: i128) -> Step
    requires few { count ≤ 64 }
    requires small { unsigned_abs offset ≤ 2 ^ 64 }
    ensures { result ≡ spec.steps count offset step }
{
    Step {
        step,
        from: -offset,
        to: power(count) as i128 - offset - 1,
    }
}

/// The step from one number of so many bits to another, modulo two to the power of these: from minus half of that on, below half of it.
fn step_between(length: usize, from: u64, to: u64) -> i128
    requires short { length ≤ 64 }
    requires from { from < 2 ^ length }
    requires to { to < 2 ^ length }
    ensures { result ≡ spec.step_between length from to }
{
    let all = power(length);
    nearest(all, (to as u128 + all - from as u128) % all)
}

/// So many of all numbers further on, or back, whichever is nearer.
fn nearest(all: u128, ahead: u128) -> i128
    requires some { ahead < all }
    requires few { all ≤ 2 ^ 64 }
    ensures { result ≡ spec.nearest all ahead }
{
    if ahead * 2 < all {
        ahead as i128
    } else {
        ahead as i128 - all as i128
    }
}
