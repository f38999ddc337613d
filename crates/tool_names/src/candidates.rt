//! How many candidates a profile has by a certificate, method by method and format by format, and what multiplies.

ghost use Rattle.std.specs.Prelude.{◌≡◌, ◌^◌, ◌++◌, IfOk, OnOk, option_and_then, option_map, slice_get, unwrap_or};
ghost use Rattle.std.specs.Option.{option_copied};
ghost use Rattle.cert_types.specs.declared.certificate.Step.TheVariants as steps;
ghost use Rattle.cert_rules.specs.Counts as rules;
ghost use Rattle.cert_rules.specs.Rules.{choice};
ghost use Rattle.cert_rules.specs.Valid as valid;
ghost use Rattle.cert_rules.specs.Capped.{capped};
ghost use Rattle.tool_names.specs.Candidates as spec;

use cert_candidates::format_counts;
use cert_rules::choice_of;
use cert_trees::{callees_first, count_candidates};
use cert_types::{Certificate, MethodPlans, Plans, Step};
use sem_profile::{Encoding, Format, Profile};
use sqlite_items::Items;
use std::alloc::{AllocError, Global};

/// Numbers of candidates, as far as 64 bits go: of each method, and of each of its formats. Where nothing is said of a method it has no numbers of formats.
#[derive(Drop)]
pub struct Counts {
    pub methods: Items<u64>,
    pub formats: Items<Items<u64>>,
}

/// A field that multiplies the candidates of its format: it is chosen, or it calls a method. The count is the number of its ways, 2 or more.
#[derive(Clone, Copy)]
pub struct Factor {
    pub field: usize,
    pub count: u64,
}

/// The candidates of each method and of each format by the write plans of a certificate. The error is out of memory.
pub fn count_all(
    alloc: Global,
    profile: &Profile,
    certificate: &Certificate,
) -> Result<Counts, AllocError>
    ensures { IfOk result (spec.AreCounted profile.now.methods certificate.now.methods) }
{
    profile.keeps();
    let listed = profile.methods();
    let entries = certificate.methods();
    let order = callees_first(alloc, listed)?;
    let methods = count_candidates(alloc, listed, entries, order.as_slice())?;
    let formats = format_counts(alloc, listed, entries, methods.as_slice())?;
    Ok(Counts { methods, formats })
}

/// The candidates of a method.
pub fn method_count(counts: &Counts, method: usize) -> u64
    ensures { result ≡ spec.method_count counts.now method }
{
    match counts.methods.get(method) {
        Some(count) => *count,
        None => 0,
    }
}

/// The candidates of a format of a method.
pub fn format_count(counts: &Counts, method: usize, format: usize) -> u64
    ensures { result ≡ spec.format_count counts.now method format }
{
    match listed_count(counts, method, format) {
        Some(count) => count,
        None => 0,
    }
}

fn listed_count(counts: &Counts, method: usize, format: usize) -> Option<u64>
    ensures { result ≡ option_and_then (λ row. slice_get row format) (slice_get counts.now.formats method) }
{
    counts.formats.get(method)?.get(format).copied()
}

// ---- what multiplies

/// The steps of the write plan of a format. None, where the certificate says nothing of it.
pub fn write_steps(entries: &[Option<MethodPlans>], method: usize, format: usize) -> &[Step]
    ensures { result.now ≡ spec.write_steps entries.now method format }
{
    match plans_of(entries, method, format) {
        Some(plans) => plans.write.as_slice(),
        None => &[],
    }
}

fn plans_of(entries: &[Option<MethodPlans>], method: usize, format: usize) -> Option<&Plans>
    ensures { option_copied result ≡ spec.plans_of entries.now method format }
{
    plans_at(entry_at(entries, method)?, format)
}

fn entry_at(entries: &[Option<MethodPlans>], method: usize) -> Option<&MethodPlans>
    ensures { option_copied result ≡ rules.entry_at entries.now method }
{
    entries.get(method)?.as_ref()
}

fn plans_at(entry: &MethodPlans, format: usize) -> Option<&Plans>
    ensures { option_copied result ≡ valid.plans_at entry.now format }
{
    entry.formats.get(format)?.plans.as_ref()
}

/// What multiplies the candidates of a format by these steps of its write plan: the fields that are chosen or called with more than one way each, in the order of
/// the plan. `counts` has the candidates of each method.
pub fn factors(
    alloc: Global,
    counts: &[u64],
    format: &Format,
    steps: &[Step],
) -> Result<Items<Factor>, AllocError>
    ensures { IfOk result (λ found. found ≡ spec.factors_of counts.now format.now steps.now) }
{
    let mut found = Items::new(alloc);
    for step in steps {
        add_factor(alloc, &mut found, counts, format, *step)?;
    }
    Ok(found)
}

fn add_factor(
    alloc: Global,
    found: &mut Items<Factor>,
    counts: &[u64],
    format: &Format,
    step: Step,
) -> Result<(), AllocError>
    ensures { OnOk result (found.new ≡ found.old ++ spec.factor_of counts.now format.now step) }
{
    match step {
        Step::Choose(field) => add_several(found, field, choice_count(alloc, format, field)),
        Step::Call(field) => add_several(found, field, call_count(counts, format, field)),
        Step::Take(_)
        | Step::LibraryUp(_)
        | Step::LibraryDown(_)
        | Step::MethodLength(_, _)
        | Step::ConstraintLength(_, _, _)
        | Step::Solve(_, _)
        | Step::Ask(_) => Ok(()),
    }
}

/// Adds a field, where it has several ways.
fn add_several(found: &mut Items<Factor>, field: usize, count: u64) -> Result<(), AllocError>
    ensures { OnOk result (found.new ≡ found.old ++ spec.several field count) }
{
    if 1 < count {
        found.push(Factor { field, count })?;
    }
    Ok(())
}

/// In how many ways a field is chosen.
fn choice_count(alloc: Global, format: &Format, field: usize) -> u64
    ensures { result ≡ capped (unwrap_or (option_map (λ n. 2 ^ n) (option_and_then (choice format.now field) (slice_get format.now.fields field))) 1) }
{
    match choice_of(alloc, format, field) {
        Some(bits) => power(bits),
        None => 1,
    }
}

/// How many numbers so many bits spell, as far as 64 bits go.
fn power(bits: usize) -> u64
    ensures { result ≡ capped (2 ^ bits) }
{
    if 64 <= bits {
        return u64::MAX;
    }
    2u64.saturating_pow(bits as u32)
}

/// The candidates of the method that the field calls, 1 where it calls none.
fn call_count(counts: &[u64], format: &Format, field: usize) -> u64
    ensures { result ≡ rules.ways counts.now format.now (steps.Call field) }
{
    let Some(called) = format.fields.get(field) else {
        return 1;
    };
    match called.encoding.get() {
        Encoding::Call { method, .. } => count_at(counts, *method),
        Encoding::Bare => 1,
        Encoding::Library(_) => 1,
    }
}

fn count_at(counts: &[u64], method: usize) -> u64
    ensures { result ≡ unwrap_or (slice_get counts.now method) 1 }
{
    match counts.get(method) {
        Some(count) => *count,
        None => 1,
    }
}
