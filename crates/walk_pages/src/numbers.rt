//! The number of what a page shows, among the candidates of its method.

ghost use Rattle.std.specs.Prelude.{◌≡◌, Some, IfSome, length};
ghost use Rattle.cert_candidates.specs.Codes as codes;
ghost use Rattle.cert_candidates.specs.Numbered.{HasSpans, IsNumbered, IsInside, numbers_inside};
ghost use Rattle.cert_rules.specs.Counts.{callee};
ghost use Rattle.cert_types.specs.declared.certificate.Step.TheVariants as steps;
ghost use Rattle.sem_filling.specs.declared.filling.FilledField as filled;
ghost use Rattle.sem_filling.specs.declared.filling.Filling as filling;
ghost use Rattle.sem_filling.specs.Fits.{format_at};
ghost use Rattle.sem_pages.specs.declared.page.Page.{out-Page};
ghost use Rattle.sem_pages.specs.Pages.{Shows, StandsFor};
ghost use Rattle.sem_profile.specs.declared.profile.Field as normal;

use cert_candidates::Candidates;
use cert_candidates::numbers::{before_of, called_by, format_of, plans_of, times_choices};
use cert_types::Step;
use sem_pages::{Page, Shown};
use sem_profile::Format;
use sqlite_items::at;
use std::alloc::Global;

/// The number of what the page shows among the candidates of the method (docs/DEFINITIONS.md, Candidates); the method goes by its index. It takes no memory.
///
/// None where it isn't told, as by `number_of` of cert_candidates.
#[cycle(numbers)]
pub fn page_number(
    page: &Page,
    alloc: Global,
    candidates: &Candidates<'_>,
    method: usize,
) -> Option<u64>
    requires spans { HasSpans candidates.now }
    ensures { IfSome result (λ n. (f : filling.Filling) → Shows candidates.now.methods.now method page.now f → codes.number candidates.now.methods.now candidates.now.entries.now candidates.now.counts.now f method ≡ n) }
{
    let format = format_of(candidates.methods, method, page.format)?;
    if page.fields.len() != format.fields.len() {
        return None;
    }
    let plans = plans_of(candidates.entries, method, page.format)?;
    let before = before_of(candidates.spans, method, page.format)?;
    let digits = digits_of(
        page,
        alloc,
        candidates,
        method,
        format,
        plans.write.as_slice(),
    )?;
    before.checked_add(digits)
}

/// The digits of the steps as one number, the first digit slowest.
#[cycle(numbers)]
fn digits_of(
    page: &Page,
    alloc: Global,
    candidates: &Candidates<'_>,
    method: usize,
    format: &Format,
    steps: &[Step],
) -> Option<u64>
    requires spans { HasSpans candidates.now }
    requires format { format_at candidates.now.methods.now method (out-Page page.now).format ≡ Some format.now }
    requires count { length (out-Page page.now).fields ≡ length format.now.fields }
    ensures { IfSome result (λ n. (f : filling.Filling) → Shows candidates.now.methods.now method page.now f → codes.place candidates.now.counts.now format.now (numbers_inside candidates.now f) steps.now ≡ n) }
{
    let mut number: u64 = 0;
    for step in steps {
        let Some(next) = next_number(page, alloc, candidates, method, format, *step, number) else {
            return None;
        };
        number = next;
    }
    Some(number)
}

/// The number so far, with the digit of one more step.
#[cycle(numbers)]
#[inline(always)]
fn next_number(
    page: &Page,
    alloc: Global,
    candidates: &Candidates<'_>,
    method: usize,
    format: &Format,
    step: Step,
    number: u64,
) -> Option<u64>
    requires spans { HasSpans candidates.now }
    requires format { format_at candidates.now.methods.now method (out-Page page.now).format ≡ Some format.now }
    requires count { length (out-Page page.now).fields ≡ length format.now.fields }
    ensures { IfSome result (λ n. (f : filling.Filling) → Shows candidates.now.methods.now method page.now f → IsNumbered candidates.now.counts.now format.now (numbers_inside candidates.now f) step number n) }
{
    match step {
        Step::Choose(field) => chosen(page, alloc, candidates, method, format, field, number),
        Step::Call(field) => called(page, alloc, candidates, method, format, field, number),
        Step::Take(_)
        | Step::LibraryUp(_)
        | Step::LibraryDown(_)
        | Step::MethodLength(_, _)
        | Step::ConstraintLength(_, _, _)
        | Step::Solve(_, _)
        | Step::Ask(_) => Some(number),
    }
}

/// With that of a choice: the number of the chosen bits.
fn chosen(
    page: &Page,
    alloc: Global,
    candidates: &Candidates<'_>,
    method: usize,
    format: &Format,
    field: usize,
    number: u64,
) -> Option<u64>
    requires format { format_at candidates.now.methods.now method (out-Page page.now).format ≡ Some format.now }
    requires count { length (out-Page page.now).fields ≡ length format.now.fields }
    ensures { IfSome result (λ n. (f : filling.Filling) → Shows candidates.now.methods.now method page.now f → IsNumbered candidates.now.counts.now format.now (numbers_inside candidates.now f) (steps.Choose field) number n) }
{
    let shown = at(page.fields.as_slice(), field)?;
    let word = shown.uncompressed.as_ref()?;
    let scaled = times_choices(alloc, candidates.counts, format, field, number)?;
    scaled.checked_add(word.value())
}

/// With that of a call: the number of the page inside.
#[cycle(numbers)]
fn called(
    page: &Page,
    alloc: Global,
    candidates: &Candidates<'_>,
    method: usize,
    format: &Format,
    field: usize,
    number: u64,
) -> Option<u64>
    requires spans { HasSpans candidates.now }
    requires format { format_at candidates.now.methods.now method (out-Page page.now).format ≡ Some format.now }
    requires count { length (out-Page page.now).fields ≡ length format.now.fields }
    ensures { IfSome result (λ n. (f : filling.Filling) → Shows candidates.now.methods.now method page.now f → IsNumbered candidates.now.counts.now format.now (numbers_inside candidates.now f) (steps.Call field) number n) }
{
    let inner = called_by(format, field)?;
    let ways = *at(candidates.counts, inner)?;
    let shown = page.fields.as_slice();
    if field >= shown.len() {
        return None;
    }
    let digit = inner_number(&shown[field], alloc, candidates, inner)?;
    number.checked_mul(ways)?.checked_add(digit)
}

/// The number of the page inside a field that calls the method.
#[cycle(numbers)]
fn inner_number(
    shown: &Shown,
    alloc: Global,
    candidates: &Candidates<'_>,
    method: usize,
) -> Option<u64>
    requires spans { HasSpans candidates.now }
    ensures { IfSome result (λ n. (d : normal.Field) (g : filled.FilledField) → callee d.encoding ≡ Some method → StandsFor candidates.now.methods.now d shown.now g → IsInside candidates.now g method n) }
{
    let Some(inner) = &shown.inner else {
        return None;
    };
    page_number(inner, alloc, candidates, method)
}
