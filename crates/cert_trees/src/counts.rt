//! How many candidates the write plans of a certificate have.

ghost use Rattle.std.specs.Prelude.{◌≡◌, ℕ, ◌*◌, ◌^◌, List, map, slice_get, option_and_then, option_map, unwrap_or, IfOk};
ghost use Rattle.sem_profile.specs.Methods.{IsOrder};
ghost use Rattle.sem_profile.specs.Passes.{indexed};
ghost use Rattle.cert_rules.specs.Rules.{choice};
ghost use Rattle.cert_rules.specs.Counts as rules;
ghost use Rattle.cert_rules.specs.Capped as spec;

use crate::choices::choices;
use cert_types::{FormatPlans, MethodPlans, Step};
use sem_profile::{Encoding, Format, Method};
use sqlite_items::{Items, at};
use std::alloc::{AllocError, Global};

/// For each method how many candidates its write plans have by the certificate's entries (docs/DEFINITIONS.md, Certificates):
/// the number, or the greatest of 64 bits where it is above that. In the order each method comes after those that it calls.
/// It fails only where memory is out.
pub fn count_candidates(
    alloc: Global,
    methods: &[Method],
    entries: &[Option<MethodPlans>],
    order: &[usize],
) -> Result<Items<u64>, AllocError>
    requires { IsOrder methods.now order.now }
    ensures { IfOk result (spec.AreCapped methods.now entries.now) }
{
    let mut found = Items::from_vec(vec![in alloc; 0; methods.len()]?);
    for index in order {
        let Some(method) = at(methods, *index) else {
            continue;
        };
        let count = method_count(alloc, found.as_slice(), method, entries, *index)?;
        found.set(*index, count);
    }
    Ok(found)
}

/// The candidates of a method by its entry, none where it has no entry.
fn method_count(
    alloc: Global,
    counts: &[u64],
    method: &Method,
    entries: &[Option<MethodPlans>],
    index: usize,
) -> Result<u64, AllocError>
    ensures { IfOk result (λ n. (exact : List ℕ) → counts.now ≡ map spec.capped exact → n ≡ spec.capped (rules.entry_ways exact method.now.formats (option_and_then (λ o. o) (slice_get entries.now index)))) }
{
    let Some(entry) = at(entries, index) else {
        return Ok(0);
    };
    match entry {
        Some(plans) => formats_count(
            alloc,
            counts,
            method.formats.as_slice(),
            plans.formats.as_slice(),
        ),
        None => Ok(0),
    }
}

/// The sum over the formats.
fn formats_count(
    alloc: Global,
    counts: &[u64],
    formats: &[Format],
    entries: &[FormatPlans],
) -> Result<u64, AllocError>
    ensures { IfOk result (λ n. (exact : List ℕ) → counts.now ≡ map spec.capped exact → n ≡ spec.capped (rules.method_ways exact formats.now entries.now)) }
{
    let mut total: u64 = 0;
    for place in 0..formats.len() {
        let Some(entry) = at(entries, place) else {
            return Ok(total);
        };
        let count = format_count(alloc, counts, &formats[place], entry)?;
        total = total.saturating_add(count);
    }
    Ok(total)
}

/// The candidates of a format by its write plan, none where it has no plans, and up to the same cap; `counts` has those of methods. It fails only for
/// out of memory.
pub fn format_count(
    alloc: Global,
    counts: &[u64],
    format: &Format,
    entry: &FormatPlans,
) -> Result<u64, AllocError>
    ensures { IfOk result (λ n. (exact : List ℕ) → counts.now ≡ map spec.capped exact → n ≡ spec.capped (rules.format_ways exact format.now entry.now.plans)) }
{
    match &entry.plans {
        Some(plans) => {
            let tried = choices(alloc, format)?;
            Ok(plan_count(counts, format, tried.as_slice(), plans.write.as_slice()))
        }
        None => Ok(0),
    }
}

/// The product over the steps.
fn plan_count(counts: &[u64], format: &Format, tried: &[Option<u32>], steps: &[Step]) -> u64
    requires { tried.now ≡ indexed (choice format.now) 0 format.now.fields }
    ensures { (exact : List ℕ) → counts.now ≡ map spec.capped exact → result ≡ spec.capped (rules.plan_ways exact format.now steps.now) }
{
    let mut total: u64 = 1;
    for step in steps {
        total = product(total, step_count(counts, format, tried, *step));
    }
    total
}

/// The product, up to the cap.
fn product(total: u64, ways: u64) -> u64
    ensures { result ≡ spec.capped (total * ways) }
{
    total.saturating_mul(ways)
}

fn step_count(counts: &[u64], format: &Format, tried: &[Option<u32>], step: Step) -> u64
    requires { tried.now ≡ indexed (choice format.now) 0 format.now.fields }
    ensures { (exact : List ℕ) → counts.now ≡ map spec.capped exact → result ≡ spec.capped (rules.ways exact format.now step) }
{
    match step {
        Step::Choose(field) => choice_count(tried, field),
        Step::Call(field) => call_count(counts, format, field),
        Step::Take(_) => 1,
        Step::LibraryUp(_) => 1,
        Step::LibraryDown(_) => 1,
        Step::MethodLength(_, _) => 1,
        Step::ConstraintLength(_, _, _) => 1,
        Step::Solve(_, _) => 1,
        Step::Ask(_) => 1,
    }
}

fn choice_count(tried: &[Option<u32>], field: usize) -> u64
    ensures { result ≡ spec.capped (unwrap_or (option_map (λ n. 2 ^ n) (option_and_then (λ o. o) (slice_get tried.now field))) 1) }
{
    let Some(choice) = at(tried, field) else {
        return 1;
    };
    match choice {
        Some(bits) => 2u64.saturating_pow(*bits),
        None => 1,
    }
}

/// The count of the method that the field calls, 1 where it calls none.
fn call_count(counts: &[u64], format: &Format, field: usize) -> u64
    ensures { result ≡ unwrap_or (option_and_then (slice_get counts.now) (option_and_then (λ d. rules.callee d.encoding) (slice_get format.now.fields field))) 1 }
{
    let Some(called) = at(format.fields.as_slice(), field) else {
        return 1;
    };
    match called.encoding.get() {
        Encoding::Call { method, .. } => count_at(counts, *method),
        Encoding::Bare => 1,
        Encoding::Library(_) => 1,
    }
}

fn count_at(counts: &[u64], method: usize) -> u64
    ensures { result ≡ unwrap_or (slice_get counts.now method) 1 }
{
    match at(counts, method) {
        Some(count) => *count,
        None => 1,
    }
}
