//! The number of a filling among the candidates of its method.

ghost use Rattle.std.specs.Prelude.{◌≡◌, ◌*◌, take, Some, IfSome};
ghost use Rattle.std.specs.List.{sum};
ghost use Rattle.std.specs.Option.{option_copied};
ghost use Rattle.sem_filling.specs.Fits.{format_at};
ghost use Rattle.cert_types.specs.declared.certificate.Step.TheVariants as steps;
ghost use Rattle.cert_rules.specs.Counts.{ways};
ghost use Rattle.cert_candidates.specs.Codes as spec;
ghost use Rattle.cert_candidates.specs.Numbered.{HasSpans, IsBefore, IsNumbered, IsInside, numbers_inside};

use cert_rules::choice_of;
use cert_types::{MethodPlans, Plans, Step};
use sem_filling::{FilledField, Filling};
use sem_profile::{Encoding, Format, Method};
use sqlite_items::{Items, at};
use std::alloc::Global;

/// What numbers of candidates go by: the methods, a certificate's entries for them, for each method the number of its candidates, and for each
/// method those of its formats.
#[derive(Clone, Copy)]
pub struct Candidates<'a> {
    pub methods: &'a [Method],
    pub entries: &'a [Option<MethodPlans>],
    pub counts: &'a [u64],
    pub spans: &'a [Items<u64>],
}

/// The number of a filling among the candidates of the method (docs/DEFINITIONS.md, Candidates); the method goes by its index. It takes no memory.
///
/// None where it isn't told: the filling is of no format of the method that has a write plan, a field that the plan chooses or calls isn't filled as it says,
/// or a number on the way is not below 2^64. With an accepted profile the number of a filling that fits is told; that is not proved.
#[cycle(numbers)]
pub fn number_of(
    alloc: Global,
    filling: &Filling,
    candidates: &Candidates<'_>,
    method: usize,
) -> Option<u64>
    requires spans { HasSpans candidates.now }
    ensures { IfSome result (λ n. spec.number candidates.now.methods.now candidates.now.entries.now candidates.now.counts.now filling.now method ≡ n) }
{
    let format = format_of(candidates.methods, method, filling.format)?;
    let plans = plans_of(candidates.entries, method, filling.format)?;
    let before = before_of(candidates.spans, method, filling.format)?;
    let digits = digits_of(alloc, filling, candidates, format, plans.write.as_slice())?;
    before.checked_add(digits)
}

/// The digits of the steps as one number, the first digit slowest.
#[cycle(numbers)]
fn digits_of(
    alloc: Global,
    filling: &Filling,
    candidates: &Candidates<'_>,
    format: &Format,
    steps: &[Step],
) -> Option<u64>
    requires spans { HasSpans candidates.now }
    ensures { IfSome result (λ n. spec.place candidates.now.counts.now format.now (numbers_inside candidates.now filling.now) steps.now ≡ n) }
{
    let mut number: u64 = 0;
    for step in steps {
        let Some(next) = next_number(alloc, filling, candidates, format, *step, number) else {
            return None;
        };
        number = next;
    }
    Some(number)
}

/// The number so far, with the digit of one more step.
#[cycle(numbers)]
fn next_number(
    alloc: Global,
    filling: &Filling,
    candidates: &Candidates<'_>,
    format: &Format,
    step: Step,
    number: u64,
) -> Option<u64>
    requires spans { HasSpans candidates.now }
    ensures { IfSome result (IsNumbered candidates.now.counts.now format.now (numbers_inside candidates.now filling.now) step number) }
{
    match step {
        Step::Choose(field) => chosen(alloc, filling, candidates, format, field, number),
        Step::Call(field) => called(alloc, filling, candidates, format, field, number),
        Step::Take(_)
        | Step::LibraryUp(_)
        | Step::LibraryDown(_)
        | Step::MethodLength(_, _)
        | Step::ConstraintLength(_, _, _)
        | Step::Solve(_, _)
        | Step::Ask(_) => Some(number),
    }
}

/// With that of a choice: the number of the chosen bits.
fn chosen(
    alloc: Global,
    filling: &Filling,
    candidates: &Candidates<'_>,
    format: &Format,
    field: usize,
    number: u64,
) -> Option<u64>
    ensures { IfSome result (IsNumbered candidates.now.counts.now format.now (numbers_inside candidates.now filling.now) (steps.Choose field) number) }
{
    let filled = at(filling.fields.as_slice(), field)?;
    let digit = filled.uncompressed.value()?;
    let scaled = times_choices(alloc, candidates.counts, format, field, number)?;
    scaled.checked_add(digit)
}

/// The product with the number of values of a field that is chosen. A number of 0 asks for none.
pub fn times_choices(
    alloc: Global,
    counts: &[u64],
    format: &Format,
    field: usize,
    number: u64,
) -> Option<u64>
    ensures { IfSome result (λ n. n ≡ number * ways counts.now format.now (steps.Choose field)) }
{
    if number == 0 {
        return Some(0);
    }
    let bits = choice_of(alloc, format, field)?;
    if bits < 64 {
        number.checked_mul(1 << bits)
    } else {
        None
    }
}

/// With that of a call: the number of the filling inside.
#[cycle(numbers)]
fn called(
    alloc: Global,
    filling: &Filling,
    candidates: &Candidates<'_>,
    format: &Format,
    field: usize,
    number: u64,
) -> Option<u64>
    requires spans { HasSpans candidates.now }
    ensures { IfSome result (IsNumbered candidates.now.counts.now format.now (numbers_inside candidates.now filling.now) (steps.Call field) number) }
{
    let method = called_by(format, field)?;
    let ways = *at(candidates.counts, method)?;
    let fields = filling.fields.as_slice();
    if field >= fields.len() {
        return None;
    }
    let digit = inner_number(alloc, &fields[field], candidates, method)?;
    number.checked_mul(ways)?.checked_add(digit)
}

/// The number of the filling inside a field.
#[cycle(numbers)]
fn inner_number(
    alloc: Global,
    filled: &FilledField,
    candidates: &Candidates<'_>,
    method: usize,
) -> Option<u64>
    requires spans { HasSpans candidates.now }
    ensures { IfSome result (IsInside candidates.now filled.now method) }
{
    let Some(inner) = &filled.inner else {
        return None;
    };
    number_of(alloc, inner, candidates, method)
}

/// The method that the field at an index calls.
pub fn called_by(format: &Format, field: usize) -> Option<usize>
    ensures { IfSome result (λ k. spec.called_at format.now field ≡ Some k) }
{
    match format.fields.get(field)?.encoding.get() {
        Encoding::Call { method, .. } => Some(*method),
        Encoding::Bare => None,
        Encoding::Library(_) => None,
    }
}

/// The format of the method, both by their indices.
pub fn format_of(methods: &[Method], method: usize, index: usize) -> Option<&Format>
    ensures { option_copied result ≡ format_at methods.now method index }
{
    methods.get(method)?.formats.get(index)
}

/// The plans of the format of the method, both by their indices.
pub fn plans_of(entries: &[Option<MethodPlans>], method: usize, index: usize) -> Option<&Plans>
    ensures { option_copied result ≡ spec.write_plan entries.now method index }
{
    let entry = entries.get(method)?.as_ref()?;
    entry.formats.get(index)?.plans.as_ref()
}

/// The sum over the formats of the method before one.
pub fn before_of(spans: &[Items<u64>], method: usize, format: usize) -> Option<u64>
    ensures { IfSome result (IsBefore spans.now method format) }
{
    let Some(spans) = at(spans, method) else {
        return None;
    };
    sum_before(spans.as_slice(), format)
}

fn sum_before(spans: &[u64], format: usize) -> Option<u64>
    ensures { IfSome result (λ n. sum (take format spans.now) ≡ n) }
{
    let mut total: u64 = 0;
    for place in 0..format {
        if place >= spans.len() {
            return None;
        }
        total = total.checked_add(spans[place])?;
    }
    Some(total)
}
