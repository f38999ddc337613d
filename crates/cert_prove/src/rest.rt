//! Steps that needn't be looked at.

ghost use Rattle.std.specs.Prelude.{◌≡◌, ◌+◌, ◌-◌, ◌*◌, ◌^◌, ◌/◌, ◌<◌, true, false, List, length, replicate, map, None, option_map, IfOk, OnOk};
ghost use Rattle.cert_types.specs.declared.rule.Fact.{Fact};
ghost use Rattle.std.specs.List.{find};
ghost use Rattle.std.specs.Option.{option_copied};
ghost use Rattle.sem_profile.specs.declared.profile.Format.{Format};
ghost use Rattle.cert_plans.specs.Knowing.{shows};
ghost use Rattle.cert_plans.specs.Listed.{AreFlags};
ghost use Rattle.cert_plans.specs.Needing.{told};
ghost use Rattle.cert_prove.specs.Searching as spec;

use crate::marks::{Waits, all_due, first_due, lay_aside};
use crate::needed::needed;
use crate::possible::Possible;
use cert_plans::listed::listed_flags;
use cert_plans::{Knowledge, NeedRule, lacking};
use cert_types::Fact;
use sem_profile::Format;
use sqlite_items::Items;
use std::alloc::{AllocError, Global};

/// Why a step needn't be looked at.
#[derive(Clone, Copy)]
pub enum Rest {
    /// It has to be looked at.
    Due,
    /// It isn't enabled until this is known.
    Until(Fact),
    /// It gives nothing new any more.
    Over,
}

/// What the order goes by, beside what is known.
pub(crate) struct Agenda {
    /// What each of the steps needs, once it is written out.
    pub(crate) needs: Vec<Option<Items<Fact>>>,
    pub(crate) waits: Waits,
    /// For each field of the format whether it is listed.
    pub(crate) listed: Items<bool>,
}

// A call of its own, so that no caller's proof goes through the cases.
impl Drop for Agenda {
    fn drop(self) {
        let Agenda {
            needs: _needs,
            waits: _waits,
            listed: _listed,
        } = self;
    }
}

/// The agenda at the start: each of the steps has to be looked at, and nothing is written out.
pub(crate) fn agenda_of(
    alloc: Global,
    format: &Format,
    possible: &[Possible<'_>],
) -> Result<Agenda, AllocError>
    ensures needs { IfOk result (λ agenda. agenda.needs.items ≡ replicate (length possible.now) None) }
    ensures due { IfOk result (λ agenda. agenda.waits.due ≡ replicate (length possible.now / 64 + 1) (2 ^ 64 - 1)) }
    ensures rows { IfOk result (λ agenda. length agenda.waits.noted ≡ 128 * length agenda.waits.due) }
    ensures few { IfOk result (λ agenda. 128 * length agenda.waits.due < 2 ^ 64) }
    ensures listed { IfOk result (λ agenda. AreFlags format.now agenda.listed) }
{
    let waits = all_due(alloc, possible)?;
    let needs = unwritten(alloc, possible.len())?;
    let listed = listed_flags(alloc, format)?;
    Ok(Agenda {
        needs,
        waits,
        listed,
    })
}

/// The first of the steps that is enabled and gives something new. Why those before it needn't be looked at is noted. What a step waits for
/// is written out once, and what of it is found known is taken away. The error is out of memory.
pub(crate) fn next_step<'a, 's>(
    alloc: Global,
    known: &Knowledge,
    format: &Format,
    possible: &'s [Possible<'a>],
    needs: &mut Vec<Option<Items<Fact>>>,
    waits: &mut Waits,
) -> Result<Option<&'s Possible<'a>>, AllocError>
    requires left { spec.AreLeft (shows known.now) format.now possible.now needs.old.items }
    requires waits { spec.AreWaiting (shows known.now) format.now possible.now waits.old.due waits.old.noted None }
    ensures next { IfOk result (λ next. option_map (spec.ruled format.now) (option_copied next) ≡ find (λ p. spec.gives_more (shows known.now) p.rule) (map (spec.ruled format.now) possible.now)) }
    ensures left { OnOk result (spec.AreLeft (shows known.now) format.now possible.now needs.new.items) }
    ensures waits { IfOk result (λ next. spec.AreWaiting (shows known.now) format.now possible.now waits.new.due waits.new.noted (option_map (λ p. told format.now p.rule) (option_copied next))) }
{
    let mut place = first_due(waits, 0);
    'more: while place < possible.len() {
        let step = &possible[place];
        let rest = rest_of(alloc, known, format, &step.rule, &mut needs[place])?;
        // One that is found gives nothing new from then on.
        lay_aside(place, rest, waits);
        if is_due(rest) {
            return Ok(Some(step));
        }
        place = first_due(waits, place + 1);
    }
    Ok(None)
}

/// Nothing is written out for any of so many steps.
fn unwritten(alloc: Global, count: usize) -> Result<Vec<Option<Items<Fact>>>, AllocError>
    ensures { IfOk result (λ needs. needs.items ≡ replicate count None) }
{
    let mut needs = Vec::with_capacity(alloc, count)?;
    for _ in 0..count {
        needs.push(None)?;
    }
    Ok(needs)
}

/// Why a step of this rule isn't the next, if it isn't.
fn rest_of(
    alloc: Global,
    known: &Knowledge,
    format: &Format,
    rule: &NeedRule<'_>,
    needs: &mut Option<Items<Fact>>,
) -> Result<Rest, AllocError>
    requires { spec.StandIfWritten (shows known.now) (told format.now rule.now).needs needs.old }
    ensures left { OnOk result (spec.StandIfWritten (shows known.now) (told format.now rule.now).needs needs.new) }
    ensures rests { IfOk result (spec.RestsBy (shows known.now) (told format.now rule.now)) }
    ensures next { IfOk result (λ rest. spec.is_due rest ≡ spec.gives_more (shows known.now) (told format.now rule.now)) }
    ensures still { IfOk result (λ rest. spec.is_due rest ≡ false → spec.is_still (shows known.now) rest ≡ true) }
{
    if is_over(known, rule) {
        return Ok(Rest::Over);
    }
    match lacking_of(alloc, known, format, rule, needs)? {
        Some(fact) => Ok(Rest::Until(fact)),
        None => Ok(Rest::Due),
    }
}

/// A fact that the rule needs and that isn't known. What the rule needs is written out where some of it isn't known at the first look.
fn lacking_of(
    alloc: Global,
    known: &Knowledge,
    format: &Format,
    rule: &NeedRule<'_>,
    needs: &mut Option<Items<Fact>>,
) -> Result<Option<Fact>, AllocError>
    requires { spec.StandIfWritten (shows known.now) (told format.now rule.now).needs needs.old }
    ensures left { OnOk result (spec.StandIfWritten (shows known.now) (told format.now rule.now).needs needs.new) }
    ensures lacks { IfOk result (spec.LacksFor (shows known.now) (told format.now rule.now).needs) }
{
    match needs {
        Some(left) => Ok(last_lacking(known, left)),
        None => {
            if lacking(known, format, rule.needs.as_slice()).is_none() {
                return Ok(None);
            }
            let mut left = needed(alloc, format, rule.needs.as_slice())?;
            let fact = last_lacking(known, &mut left);
            *needs = Some(left);
            Ok(fact)
        }
    }
}

/// The last of the facts that isn't known. Those behind it are taken away.
fn last_lacking(known: &Knowledge, left: &mut Items<Fact>) -> Option<Fact>
    ensures left { (xs : List Fact) → spec.StandFor (shows known.now) xs left.old → spec.StandFor (shows known.now) xs left.new }
    ensures lacks { (xs : List Fact) → spec.StandFor (shows known.now) xs left.old → spec.LacksFor (shows known.now) xs result }
{
    'more: while let Some(last) = left.as_slice().last() {
        let fact = *last;
        if !known.has(fact) {
            return Some(fact);
        }
        let _ = left.pop();
    }
    None
}

fn is_due(rest: Rest) -> bool
    ensures { result ≡ spec.is_due rest }
{
    match rest {
        Rest::Due => true,
        Rest::Until(_) | Rest::Over => false,
    }
}

/// Whether a step of this rule gives nothing new, or is hindered.
fn is_over(known: &Knowledge, rule: &NeedRule<'_>) -> bool
    ensures { (format : Format) → result ≡ spec.gives_none (shows known.now) (told format rule.now) }
{
    known.has_few(rule.gives) || !known.lacks_few(rule.absent)
}
