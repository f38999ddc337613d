//! Which steps have to be looked at, and which wait for a fact.

ghost use Rattle.std.specs.Prelude.{◌≡◌, ◌≢◌, ◌<◌, ◌≤◌, ◌+◌, ◌-◌, ◌*◌, ◌/◌, ◌%◌, ◌^◌, ℕ, [], ◌∷◌, length, replicate, get_or, IfOk};
ghost use Rattle.cert_types.specs.declared.rule.Fact.{Fact};
ghost use Rattle.cert_plans.specs.Knowing as knowing;
ghost use Rattle.cert_prove.specs.Marking as spec;
ghost use Rattle.cert_prove.specs.Searching as searching;

use crate::possible::Possible;
use crate::rest::Rest;
use cert_types::Fact;
use sqlite_items::Items;
use std::alloc::{AllocError, Global};

/// How many steps share a word.
const WORD: usize = 64;

/// How many rows a word of steps has: 64 for facts of bits, and 64 for the others.
const ROWS: usize = 128;

/// Which steps have to be looked at, and which wait for a fact: a bit a step.
#[derive(Drop)]
pub(crate) struct Waits {
    /// Those that have to be looked at.
    pub(crate) due: Items<u64>,
    /// For each word of steps the rows: those that wait for a fact stand in the row of its kind and of its field's number modulo 64.
    pub(crate) noted: Items<u64>,
}

/// Each of the steps has to be looked at.
pub(crate) fn all_due(alloc: Global, possible: &[Possible<'_>]) -> Result<Waits, AllocError>
    ensures due { IfOk result (λ waits. waits.due ≡ replicate (length possible.now / 64 + 1) (2 ^ 64 - 1)) }
    ensures rows { IfOk result (λ waits. length waits.noted ≡ 128 * length waits.due) }
    ensures few { IfOk result (λ waits. 128 * length waits.due < 2 ^ 64) }
{
    let words = possible.len() / WORD + 1;
    let due = Items::from_vec(vec![in alloc; u64::MAX; words]?);
    let noted = Items::from_vec(vec![in alloc; 0; words * ROWS]?);
    Ok(Waits { due, noted })
}

/// The first step that has to be looked at. It isn't before this one.
pub(crate) fn first_due(waits: &Waits, from: usize) -> usize
    requires few { 128 * length waits.now.due < 2 ^ 64 }
    requires before { (i : ℕ) → i < from → spec.IsDue waits.now.due i → ⊥ }
    ensures before { (i : ℕ) → i < result → spec.IsDue waits.now.due i → ⊥ }
    ensures onward { from ≤ result }
{
    for word in from / WORD..waits.due.len() {
        let steps = word_at(&waits.due, word);
        if steps != 0 {
            return word * WORD + steps.trailing_zeros() as usize;
        }
    }
    usize::MAX
}

/// The step needn't be looked at for this reason.
pub(crate) fn lay_aside(step: usize, why: Rest, waits: &mut Waits)
    requires rows { length waits.old.noted ≡ 128 * length waits.old.due }
    requires few { 128 * length waits.old.due < 2 ^ 64 }
    requires within { step < 64 * length waits.old.due }
    ensures many { length waits.new.due ≡ length waits.old.due }
    ensures rows { length waits.new.noted ≡ length waits.old.noted }
    ensures gone { spec.IsDue waits.new.due step → ⊥ }
    ensures others { (i : ℕ) → i ≢ step → spec.bit_in waits.new.due (i / 64) (i % 64) ≡ spec.bit_in waits.old.due (i / 64) (i % 64) }
    ensures keeps { (x : Fact) (i : ℕ) → spec.IsInRow waits.old.noted x i → spec.IsInRow waits.new.noted x i }
    ensures noted { searching.IsNotedFor waits.new.noted why step }
{
    clear(step, &mut waits.due);
    match why {
        Rest::Until(fact) => note(step, fact, &mut waits.noted),
        Rest::Due | Rest::Over => {}
    }
}

/// The step needn't be looked at.
fn clear(step: usize, due: &mut Items<u64>)
    requires { step < 64 * length due.old }
    ensures many { length due.new ≡ length due.old }
    ensures gone { spec.IsDue due.new step → ⊥ }
    ensures others { (i : ℕ) → i ≢ step → spec.bit_in due.new (i / 64) (i % 64) ≡ spec.bit_in due.old (i / 64) (i % 64) }
{
    let word = step / WORD;
    let steps = word_at(due, word) & !(1 << (step % WORD));
    due.set(word, steps);
}

/// Notes that the step waits for the fact.
fn note(step: usize, fact: Fact, noted: &mut Items<u64>)
    requires room { step / 64 * 128 + 128 ≤ length noted.old }
    requires few { length noted.old < 2 ^ 64 }
    ensures rows { length noted.new ≡ length noted.old }
    ensures keeps { (x : Fact) (i : ℕ) → spec.IsInRow noted.old x i → spec.IsInRow noted.new x i }
    ensures noted { spec.IsInRow noted.new fact step }
{
    let row = step / WORD * ROWS + row_in(fact);
    let steps = word_at(noted, row) | 1 << (step % WORD);
    noted.set(row, steps);
}

/// The row of the fact in each word.
fn row_in(fact: Fact) -> usize
    ensures row { result ≡ spec.kind_of fact * 64 + knowing.field_of fact % 64 }
    ensures within { result < 128 }
{
    match fact {
        Fact::LengthOf(_, field) => field % WORD,
        Fact::BitsOf(_, field) => WORD + field % WORD,
        Fact::Done(field) => field % WORD,
    }
}

/// The steps that wait for one of these facts have to be looked at.
pub(crate) fn wake_all(facts: &[Fact], waits: &mut Waits)
    requires rows { length waits.old.noted ≡ 128 * length waits.old.due }
    requires few { 128 * length waits.old.due < 2 ^ 64 }
    ensures { spec.AreWoken facts.now waits.old.due waits.old.noted waits.new.due waits.new.noted }
{
    for fact in facts {
        wake(*fact, waits);
    }
}

/// The steps that wait for the fact have to be looked at.
fn wake(fact: Fact, waits: &mut Waits)
    requires rows { length waits.old.noted ≡ 128 * length waits.old.due }
    requires few { 128 * length waits.old.due < 2 ^ 64 }
    ensures { spec.AreWoken (fact ∷ []) waits.old.due waits.old.noted waits.new.due waits.new.noted }
{
    let row = row_in(fact);
    for word in 0..waits.due.len() {
        wake_row(word, word * ROWS + row, waits);
    }
}

/// The steps of the row have to be looked at, and stand there no longer.
fn wake_row(word: usize, row: usize, waits: &mut Waits)
    requires word { word < length waits.old.due }
    requires row { row < length waits.old.noted }
    ensures many { length waits.new.due ≡ length waits.old.due }
    ensures rows { length waits.new.noted ≡ length waits.old.noted }
    ensures keeps { (k bit : ℕ) → spec.bit_in waits.old.due k bit ≡ 1 → spec.bit_in waits.new.due k bit ≡ 1 }
    ensures woken { (bit : ℕ) → spec.bit_in waits.old.noted row bit ≡ 1 → spec.bit_in waits.new.due word bit ≡ 1 }
    ensures others { (k bit : ℕ) → k ≢ row → spec.bit_in waits.new.noted k bit ≡ spec.bit_in waits.old.noted k bit }
{
    let woken = word_at(&waits.noted, row);
    if woken != 0 {
        let steps = word_at(&waits.due, word) | woken;
        waits.due.set(word, steps);
        waits.noted.set(row, 0);
    }
}

/// The word at the place.
fn word_at(words: &Items<u64>, place: usize) -> u64
    ensures { result ≡ get_or words.now place 0 }
{
    match words.get(place) {
        Some(word) => *word,
        None => 0,
    }
}
