//! What the choices, the asked values and the calls of a plan tell, before the plan is followed: often the header has other bits than the chosen values give
//! it, or a filling inside can't have its digit.

ghost use Rattle.std.specs.Prelude.{◌≡◌, ◌+◌, ◌<◌, ◌≤◌, [], Some, ℕ, false, length, IsTrue, IfOk, IfSome, OnOk, slice_get};
ghost use Rattle.cert_types.specs.declared.certificate.Step.TheVariants as steps;
ghost use Rattle.cert_rules.specs.Counts.{ways};
ghost use Rattle.walk_write.specs.Foresight as spec;
ghost use Rattle.walk_write.specs.Going as going;
ghost use Rattle.walk_write.specs.Sources.{IsWithin, front};
ghost use Rattle.walk_write.specs.Walking as walking;

use crate::calls::radix_of;
use crate::end::plans_of;
use crate::premises::{Chosen, Premises, Values, tells_values};
use crate::refutation::{differs, has_false, is_header, is_refuted_else, offset_at};
use crate::source::HeaderSource;
use crate::start::start_at;
use crate::take::asked_before;
use cert_accepted::frame::{format_of, looks_of};
use cert_accepted::{Accepted, AcceptedFrame};
use cert_candidates::{Digits, Start};
use cert_compiled::Looks;
use cert_rules::choice_of;
use cert_types::Step;
use sem_filling::{AskedValue, FieldPath, Frame};
use sem_profile::{Encoding, Field, Format};
use smallvec::SmallVec;
use sqlite_items::at;
use std::alloc::{AllocError, Global};

/// What is chosen and asked for before a step of a plan. Most are few: these take no memory of their own.
pub(crate) type Choices = SmallVec<Chosen, 8>;

/// A format whose plan is looked through: where it is filled, by its index and as it is, with what a look goes over, and what it takes from.
#[derive(Clone, Copy)]
pub(crate) struct Outlook<'a> {
    pub(crate) place: &'a AcceptedFrame<'a>,
    pub(crate) index: usize,
    pub(crate) format: &'a Format,
    pub(crate) looks: &'a Looks,
    pub(crate) source: &'a HeaderSource<'a>,
}

/// A field that calls a method: by its index and as it is, with the method and the values of the arguments.
#[derive(Clone, Copy)]
pub(crate) struct CalledField<'a> {
    pub(crate) index: usize,
    pub(crate) field: &'a Field,
    pub(crate) method: usize,
    pub(crate) arguments: &'a [i128],
}

/// Goes past the candidates from this one on of which the choices, the asked values or the calls of their plan tell that they fail. They don't tell it always.
/// Whether the next candidate is worth another look: none that share its first digits are left. The error is out of memory.
pub(crate) fn foreseen(
    alloc: Global,
    place: &AcceptedFrame<'_>,
    start: Start,
    source: &HeaderSource<'_>,
    number: &mut u64,
) -> Result<bool, AllocError>
    requires within { IsWithin source.now }
    requires counted { spec.IsCounted place.now }
    requires begins { going.Begins place.now number.old start }
    ensures past { OnOk result (walking.Passes place.now (front source.now) source.now.asked.now number.old number.new) }
    ensures further { IfOk result (λ again. IsTrue again → number.old < number.new) }
{
    let Some(plans) = plans_of(place.accepted, place.frame.method, start.format) else {
        return Ok(false);
    };
    if start.digits.alike() == 1 && !branches(plans.write.as_slice()) {
        return Ok(false);
    }
    let Some(format) = format_of(place.accepted, place.frame.method, start.format) else {
        return Ok(false);
    };
    let Some(looks) = looks_of(place.accepted, place.frame.method, start.format) else {
        return Ok(false);
    };
    let outlook = Outlook {
        place,
        index: start.format,
        format,
        looks,
        source,
    };
    foreseen_in(
        alloc,
        &outlook,
        plans.write.as_slice(),
        start.digits,
        number,
    )
}

/// Whether a step of the plan is a call or a choice.
fn branches(plan: &[Step]) -> bool {
    plan.iter()
        .any(|step| matches!(step, Step::Call(_) | Step::Choose(_)))
}

/// The same for the plan of a format that has a call or a choice.
#[inline(never)]
fn foreseen_in(
    alloc: Global,
    outlook: &Outlook<'_>,
    plan: &[Step],
    start: Digits,
    number: &mut u64,
) -> Result<bool, AllocError>
    requires within { IsWithin outlook.now.source.now }
    requires counted { spec.IsCounted outlook.now.place.now }
    requires listed { spec.IsListed outlook.now }
    requires seen { spec.HasSeen outlook.now.place.now outlook.now.index outlook.now.format.now outlook.now.source.now.asked.now plan.now number.old start [] }
    ensures past { OnOk result (spec.PassesBy outlook.now number.old number.new) }
    ensures further { IfOk result (λ again. IsTrue again → number.old < number.new) }
{
    let mut digits = start;
    let mut choices = SmallVec::new(alloc);
    for step in plan {
        let is_over = foreseen_step(alloc, outlook, *step, &mut digits, &mut choices, number)?;
        if is_over {
            return Ok(true);
        }
    }
    Ok(false)
}

/// Reads the digit of a step, if it has one, goes past the candidates that share the digits and fail by what is told then, and reads that of the next one.
/// Whether none of those that share the digits are left.
fn foreseen_step(
    alloc: Global,
    outlook: &Outlook<'_>,
    step: Step,
    digits: &mut Digits,
    choices: &mut Choices,
    number: &mut u64,
) -> Result<bool, AllocError>
    requires within { IsWithin outlook.now.source.now }
    requires counted { spec.IsCounted outlook.now.place.now }
    requires listed { spec.IsListed outlook.now }
    requires stands { spec.StandsAt outlook.now step number.old digits.old choices.old.items }
    ensures past { OnOk result (spec.PassesBy outlook.now number.old number.new) }
    ensures over { IfOk result (λ is. IsTrue is → number.old < number.new) }
    ensures on { IfOk result (λ is. is ≡ false → spec.ReadsFrom outlook.now step number.old digits.old choices.old.items number.new digits.new choices.new.items) }
{
    match step {
        Step::Call(field) => foreseen_call(
            alloc,
            outlook,
            field,
            digits,
            choices.as_slice(),
            number,
        ),
        Step::Choose(field) => foreseen_choice(alloc, outlook, field, digits, choices, number),
        Step::Ask(field) => {
            note_asked(outlook, field, *digits, choices, *number)?;
            Ok(false)
        }
        _ => Ok(false),
    }
}

/// The same for a choice.
fn foreseen_choice(
    alloc: Global,
    outlook: &Outlook<'_>,
    field: usize,
    digits: &mut Digits,
    choices: &mut Choices,
    number: &mut u64,
) -> Result<bool, AllocError>
    requires within { IsWithin outlook.now.source.now }
    requires counted { spec.IsCounted outlook.now.place.now }
    requires listed { spec.IsListed outlook.now }
    requires stands { spec.StandsAt outlook.now (steps.Choose field) number.old digits.old choices.old.items }
    ensures past { OnOk result (spec.PassesBy outlook.now number.old number.new) }
    ensures over { IfOk result (λ is. IsTrue is → number.old < number.new) }
    ensures on { IfOk result (λ is. is ≡ false → spec.ReadsFrom outlook.now (steps.Choose field) number.old digits.old choices.old.items number.new digits.new choices.new.items) }
{
    read_choice(alloc, outlook, field, digits, choices, *number)?;
    let place = outlook.place;
    let told = Premises {
        format: outlook.format,
        arguments: place.frame.arguments,
        choices: choices.as_slice(),
        // (references aren't looked at again)
        places: &[],
    };
    let source = outlook.source;
    let has_other = differs(
        alloc,
        outlook.place,
        &told,
        outlook.looks,
        source.cursor,
        source.from,
    )?;
    if has_other {
        *number += digits.alike();
    }
    Ok(has_other)
}

/// The same for a call.
fn foreseen_call(
    alloc: Global,
    outlook: &Outlook<'_>,
    field: usize,
    digits: &mut Digits,
    choices: &[Chosen],
    number: &mut u64,
) -> Result<bool, AllocError>
    requires within { IsWithin outlook.now.source.now }
    requires counted { spec.IsCounted outlook.now.place.now }
    requires listed { spec.IsListed outlook.now }
    requires stands { spec.StandsAt outlook.now (steps.Call field) number.old digits.old choices.now }
    ensures past { OnOk result (spec.PassesBy outlook.now number.old number.new) }
    ensures over { IfOk result (λ is. IsTrue is → number.old < number.new) }
    ensures on { IfOk result (λ is. is ≡ false → spec.ReadsFrom outlook.now (steps.Call field) number.old digits.old choices.now number.new digits.new choices.now) }
{
    let told = refuted_by_call(alloc, outlook, field, *digits, choices, *number)?;
    match told {
        Some(many) => Ok(goes_past(outlook, field, digits, choices, number, many)),
        None => {
            read_call(outlook, field, digits, choices, *number);
            Ok(false)
        }
    }
}

/// The same where so many candidates fail.
fn goes_past(
    outlook: &Outlook<'_>,
    field: usize,
    digits: &mut Digits,
    choices: &[Chosen],
    number: &mut u64,
    many: u64,
) -> bool
    requires within { IsWithin outlook.now.source.now }
    requires counted { spec.IsCounted outlook.now.place.now }
    requires stands { spec.StandsAt outlook.now (steps.Call field) number.old digits.old choices.now }
    requires fail { spec.FailsFrom outlook.now number.old many }
    ensures past { spec.PassesBy outlook.now number.old number.new }
    ensures over { IsTrue result → number.old < number.new }
    ensures on { result ≡ false → spec.ReadsFrom outlook.now (steps.Call field) number.old digits.old choices.now number.new digits.new choices.now }
{
    *number += many;
    if many >= digits.alike() {
        return true;
    }
    digits.skip(many);
    read_call(outlook, field, digits, choices, *number);
    false
}

/// Notes the number of an asked field's value, where that is told.
pub(crate) fn note_asked(
    outlook: &Outlook<'_>,
    field: usize,
    digits: Digits,
    choices: &mut Choices,
    number: u64,
) -> Result<(), AllocError>
    requires stands { spec.StandsAt outlook.now (steps.Ask field) number digits choices.old.items }
    ensures { OnOk result (spec.ReadsOn outlook.now (steps.Ask field) number digits choices.old.items digits choices.new.items) }
{
    let Some(digit) = asked_digit(outlook.format, field, outlook.source.asked) else {
        return Ok(());
    };
    choices.push(Chosen { field, digit })?;
    Ok(())
}

/// The number of the value that the field is asked for, where it has at most 64 bits.
fn asked_digit(format: &Format, field: usize, asked: &[AskedValue]) -> Option<u64>
    ensures { IfSome result (spec.IsAskedFor format.now asked.now field) }
{
    let found = at(format.fields.as_slice(), field)?;
    if !found.declared.asked {
        return None;
    }
    at(asked, asked_before(format, field))?.bits.value()
}

/// Reads the digit of a choice.
pub(crate) fn read_choice(
    alloc: Global,
    outlook: &Outlook<'_>,
    field: usize,
    digits: &mut Digits,
    choices: &mut Choices,
    number: u64,
) -> Result<(), AllocError>
    requires stands { spec.StandsAt outlook.now (steps.Choose field) number digits.old choices.old.items }
    ensures { OnOk result (spec.ReadsOn outlook.now (steps.Choose field) number digits.old choices.old.items digits.new choices.new.items) }
{
    let Some(width) = choice_of(alloc, outlook.format, field) else {
        return Ok(());
    };
    let digit = digits.next(1 << width);
    choices.push(Chosen { field, digit })?;
    Ok(())
}

/// Reads the digit of a call.
pub(crate) fn read_call(
    outlook: &Outlook<'_>,
    field: usize,
    digits: &mut Digits,
    choices: &[Chosen],
    number: u64,
)
    requires stands { spec.StandsAt outlook.now (steps.Call field) number digits.old choices.now }
    ensures { spec.ReadsOn outlook.now (steps.Call field) number digits.old choices.now digits.new choices.now }
{
    let _digit = digits.next(ways_of(outlook.place.accepted, outlook.format, field));
}

/// In how many ways the call of a field goes on, 1 where it calls nothing.
fn ways_of(accepted: &Accepted, format: &Format, field: usize) -> u64
    ensures { result ≡ ways accepted.now.counts format.now (steps.Call field) }
{
    let Some(called) = at(format.fields.as_slice(), field) else {
        return 1;
    };
    match called.encoding.get() {
        Encoding::Call { method, .. } => match at(accepted.counts(), *method) {
            Some(count) => *count,
            None => 1,
        },
        Encoding::Bare => 1,
        Encoding::Library(_) => 1,
    }
}

/// How many candidates from this one on fail, where the call that comes next tells it.
fn refuted_by_call(
    alloc: Global,
    outlook: &Outlook<'_>,
    field: usize,
    before: Digits,
    choices: &[Chosen],
    number: u64,
) -> Result<Option<u64>, AllocError>
    requires within { IsWithin outlook.now.source.now }
    requires listed { spec.IsListed outlook.now }
    requires stands { spec.StandsAt outlook.now (steps.Call field) number before choices.now }
    ensures { IfOk result (λ o. IfSome o (spec.FailsFrom outlook.now number)) }
{
    let Some(found) = at(outlook.format.fields.as_slice(), field) else {
        return Ok(None);
    };
    let Encoding::Call { method, arguments } = found.encoding.get() else {
        return Ok(None);
    };
    let place = outlook.place;
    let told = Premises {
        format: outlook.format,
        arguments: place.frame.arguments,
        choices,
        places: &[],
    };
    let mut values = Values::new(alloc);
    let are_told = tells_values(&told, arguments.as_slice(), &mut values)?;
    if !are_told {
        return Ok(None);
    }
    let called = CalledField {
        index: field,
        field: found,
        method: *method,
        arguments: values.as_slice(),
    };
    let radix = radix_of(outlook.place.accepted, *method);
    let mut digits = before;
    let digit = digits.next(radix);
    let Some(many) = refuted_inside(alloc, outlook, &called, digit, radix)? else {
        return Ok(None);
    };
    Ok(Some(digits.alike_up_to(many)))
}

/// How many candidates of the called method from this one on are of formats of which no filling is inside the field.
fn refuted_inside(
    alloc: Global,
    outlook: &Outlook<'_>,
    called: &CalledField<'_>,
    number: u64,
    count: u64,
) -> Result<Option<u64>, AllocError>
    requires within { IsWithin outlook.now.source.now }
    requires listed { spec.IsListed outlook.now }
    requires there { called.now.method < length outlook.now.place.now.accepted.now.profile.methods }
    requires below { number < count }
    requires counted { slice_get outlook.now.place.now.accepted.now.counts called.now.method ≡ Some count }
    ensures { IfOk result (λ o. IfSome o (λ many. spec.RefutesAllInside outlook.now called.now number many)) }
{
    let mut next = number;
    while next < count {
        let Some(many) = alike_inside(alloc, outlook, called, next)? else {
            return Ok(between(number, next));
        };
        next += many;
    }
    Ok(between(number, next))
}

/// How many numbers are from the first up to the next one, if there are any.
pub(crate) fn between(first: u64, next: u64) -> Option<u64>
    requires { first ≤ next }
    ensures { IfSome result (λ many. (0 < many) × (first + many ≡ next)) }
{
    if first < next {
        Some(next - first)
    } else {
        None
    }
}

/// How many candidates of the called method from this one on are of its format, where no filling of that is inside the field.
fn alike_inside(
    alloc: Global,
    outlook: &Outlook<'_>,
    called: &CalledField<'_>,
    number: u64,
) -> Result<Option<u64>, AllocError>
    requires within { IsWithin outlook.now.source.now }
    requires listed { spec.IsListed outlook.now }
    requires there { called.now.method < length outlook.now.place.now.accepted.now.profile.methods }
    requires below { (n : ℕ) → slice_get outlook.now.place.now.accepted.now.counts called.now.method ≡ Some n → number < n }
    ensures { IfOk result (λ o. IfSome o (λ many. spec.RefutesAllInside outlook.now called.now number many)) }
{
    let place = outlook.place;
    // Its path is that of the field, which is made where it is looked at.
    let inner = AcceptedFrame {
        accepted: place.accepted,
        frame: Frame {
            profile: place.frame.profile,
            context: place.frame.context,
            method: called.method,
            arguments: called.arguments,
            path: place.frame.path,
        },
    };
    let Some(start) = start_at(&inner, number) else {
        return Ok(None);
    };
    let is_told = is_refuted_inside(alloc, outlook, called, start.format)?;
    if is_told {
        Ok(Some(start.digits.alike()))
    } else {
        Ok(None)
    }
}

/// Whether the arguments or the header tell that no filling of this format of the called method is inside the field. They don't tell it always.
fn is_refuted_inside(
    alloc: Global,
    outlook: &Outlook<'_>,
    called: &CalledField<'_>,
    inside: usize,
) -> Result<bool, AllocError>
    requires within { IsWithin outlook.now.source.now }
    requires listed { spec.IsListed outlook.now }
    ensures { IfOk result (λ told. IsTrue told → spec.RefutesInside outlook.now called.now inside) }
{
    let place = outlook.place;
    let Some(found) = format_of(place.accepted, called.method, inside) else {
        return Ok(false);
    };
    if has_false(found.constraints.as_slice(), called.arguments) {
        return Ok(true);
    }
    if !is_header(called.field) || !may_tell(place.accepted, called.method, inside) {
        return Ok(false);
    }
    let source = outlook.source;
    let most = source.cursor.rest() - source.from;
    let Some(offset) = offset_at(outlook.looks, called.index, most) else {
        return Ok(false);
    };
    let path = FieldPath::of(alloc, place.frame.path, called.field.declared.name.as_str())?;
    let there = AcceptedFrame {
        accepted: place.accepted,
        frame: Frame {
            profile: place.frame.profile,
            context: place.frame.context,
            method: called.method,
            arguments: called.arguments,
            path: path.as_str(),
        },
    };
    is_refuted_else(
        alloc,
        &there,
        found,
        inside,
        source.cursor,
        source.from + offset,
    )
}

/// Whether a look at a format of the method, both by their indices, may tell anything. Of most formats that are called nothing is told, for which nothing has to
/// be found.
fn may_tell(accepted: &Accepted, method: usize, format: usize) -> bool {
    match looks_of(accepted, method, format) {
        Some(looks) => !looks.conditions.is_empty() || !looks.fields.is_empty(),
        None => false,
    }
}
