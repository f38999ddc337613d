//! What is known of one side of a field, and what is learnt of it.

ghost use Rattle.std.specs.Prelude.{◌≡◌, ◌↔◌, Bool, List, false, IsTrue, length};
ghost use Rattle.std.specs.Option.{option_copied};
ghost use Rattle.sem_filling.specs.Bounded.{LiesBetween};
ghost use Rattle.cert_rules.specs.Slots.{HasSide};
ghost use Rattle.walk_steps.specs.Sides as spec;

use cert_rules::Learnt;
use sem_bits::Bits;
use sem_profile::Bounds;

/// How many bits the side has, where that is known.
pub(crate) fn length_of(known: &Learnt) -> Option<usize>
    ensures { result ≡ spec.length_of known.now }
{
    match known {
        Learnt::Nothing => None,
        Learnt::Length(length) => Some(*length),
        Learnt::Whole(bits) => Some(bits.len()),
    }
}

/// The bits of the side, where they are known.
pub(crate) fn bits_of(known: &Learnt) -> Option<&Bits>
    ensures { option_copied result ≡ spec.whole_of known.now }
{
    match known {
        Learnt::Nothing | Learnt::Length(_) => None,
        Learnt::Whole(bits) => Some(bits),
    }
}

/// Learns what was found of the side, a length or its bits: tests it against the bounds, then compares it with what is known.
/// Whether it can be so; if not, nothing changes.
pub(crate) fn learn(known: &mut Learnt, bounds: Bounds, found: Learnt) -> bool
    ensures learnt { IsTrue result → spec.IsJoint bounds known.old found known.new }
    // No bits within the bounds are as was known and as was found.
    ensures refused { result ≡ false → (bits : List Bool) → HasSide bits known.old → HasSide bits found → LiesBetween bounds (length bits) → ⊥ }
    ensures stays { result ≡ false → known.new ≡ known.old }
{
    match found {
        Learnt::Nothing => true,
        Learnt::Length(length) => learn_length(known, bounds, length),
        Learnt::Whole(bits) => learn_bits(known, bounds, bits),
    }
}

fn learn_length(known: &mut Learnt, bounds: Bounds, count: usize) -> bool
    ensures learnt { IsTrue result → spec.IsJoint bounds known.old (Learnt.Length count) known.new }
    ensures refused { result ≡ false → (bits : List Bool) → HasSide bits known.old → HasSide bits (Learnt.Length count) → LiesBetween bounds (length bits) → ⊥ }
    ensures stays { result ≡ false → known.new ≡ known.old }
{
    if !lies_between(bounds, count) {
        return false;
    }
    match length_of(known) {
        Some(other) => other == count,
        None => {
            *known = Learnt::Length(count);
            true
        }
    }
}

fn learn_bits(known: &mut Learnt, bounds: Bounds, bits: Bits) -> bool
    ensures learnt { IsTrue result → spec.IsJoint bounds known.old (Learnt.Whole bits) known.new }
    ensures refused { result ≡ false → HasSide bits known.old → LiesBetween bounds (length bits) → ⊥ }
    ensures stays { result ≡ false → known.new ≡ known.old }
{
    if !lies_between(bounds, bits.len()) || !agrees(known, &bits) {
        return false;
    }
    *known = Learnt::Whole(bits);
    true
}

/// Whether the bits are as is known.
fn agrees(known: &Learnt, bits: &Bits) -> bool
    ensures { IsTrue result ↔ HasSide bits.now known.now }
{
    match known {
        Learnt::Nothing => true,
        Learnt::Length(length) => bits.len() == *length,
        Learnt::Whole(others) => *bits == *others,
    }
}

fn lies_between(bounds: Bounds, count: usize) -> bool
    ensures { IsTrue result ↔ LiesBetween bounds count }
{
    bounds.least <= count as u128 && count as u128 <= bounds.most
}
