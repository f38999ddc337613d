//! How many candidates each format has.

ghost use Rattle.std.specs.Prelude.{◌≡◌, ℕ, List, map, IfOk};
ghost use Rattle.cert_rules.specs.Counts.{entry_at};
ghost use Rattle.cert_rules.specs.Capped.{capped};
ghost use Rattle.cert_rules.specs.Spans as spec;

use cert_trees::format_count;
use cert_types::{FormatPlans, MethodPlans};
use sem_profile::{Format, Method};
use sqlite_items::{Items, at};
use std::alloc::{AllocError, Global};

/// For each method how many candidates each of its formats has by the certificate's entries (docs/DEFINITIONS.md, Candidates), where `counts` are those
/// of the methods: each number, or the greatest of 64 bits where it is above that. It fails only where memory is out.
pub fn format_counts(
    alloc: Global,
    methods: &[Method],
    entries: &[Option<MethodPlans>],
    counts: &[u64],
) -> Result<Items<Items<u64>>, AllocError>
    ensures { IfOk result (spec.AreSpans methods.now entries.now counts.now) }
{
    let mut table = Items::new(alloc);
    for method in methods {
        let formats = method.formats.as_slice();
        table.push(entry_counts(alloc, formats, entries, table.len(), counts)?)?;
    }
    Ok(table)
}

/// Those of a method, by its entry.
fn entry_counts(
    alloc: Global,
    formats: &[Format],
    entries: &[Option<MethodPlans>],
    index: usize,
    counts: &[u64],
) -> Result<Items<u64>, AllocError>
    ensures { IfOk result (λ found. (exact : List ℕ) → counts.now ≡ map capped exact → found ≡ map capped (spec.entry_spans exact formats.now (entry_at entries.now index))) }
{
    let Some(entry) = at(entries, index) else {
        return Ok(Items::new(alloc));
    };
    match entry {
        Some(plans) => plan_counts(alloc, formats, plans.formats.as_slice(), counts),
        None => Ok(Items::new(alloc)),
    }
}

/// One for each format, by its write plan.
fn plan_counts(
    alloc: Global,
    formats: &[Format],
    entries: &[FormatPlans],
    counts: &[u64],
) -> Result<Items<u64>, AllocError>
    ensures { IfOk result (λ found. (exact : List ℕ) → counts.now ≡ map capped exact → found ≡ map capped (spec.spans_of exact formats.now entries.now)) }
{
    let mut found = Items::new(alloc);
    for place in 0..formats.len() {
        let Some(entry) = at(entries, place) else {
            return Ok(found);
        };
        found.push(format_count(alloc, counts, &formats[place], entry)?)?;
    }
    Ok(found)
}
