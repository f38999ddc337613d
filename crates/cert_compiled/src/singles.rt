//! Formats that have one candidate for an item. Who writes one of these by a page has passed all other candidates of the format.

ghost use Rattle.std.specs.Prelude.{◌≡◌, ℕ, false, Some, slice_get, IfOk, IfSome, IsTrue, option_and_then};
ghost use Rattle.std.specs.Option.{option_copied};
ghost use Rattle.cert_compiled.specs.Single as spec;
ghost use Rattle.cert_types.specs.declared.certificate.Plans.{Plans};
ghost use Rattle.cert_types.specs.declared.certificate.Step.{Step};
ghost use Rattle.cert_rules.specs.Counts.{entry_at};

use cert_types::{FormatPlans, MethodPlans, Step};
use sem_expr::{Attribute, Comparison, Cond, Expr, Side, Subject};
use sem_profile::{Constraint, Encoding, Format, Method, Shared};
use sqlite_items::{Items, at};
use std::alloc::{AllocError, Global};

/// How many formats a method may have, at most, for a parameter that tells them apart to be looked for.
pub(crate) const MOST_FORMATS: usize = 16;

/// For each format of each method whether all fillings of it that have an item have the same number, as far as that is told. The error is out of memory.
pub(crate) fn singles_of(
    alloc: Global,
    methods: &[Method],
    entries: &[Option<MethodPlans>],
) -> Result<Items<Items<bool>>, AllocError>
    ensures { IfOk result (spec.AreSingles methods.now entries.now) }
{
    let tellers = tellers_of(alloc, methods, entries)?;
    singles_by(alloc, tellers.as_slice(), methods, entries)
}

/// The same by the parameters that tell the formats of the methods apart.
fn singles_by(
    alloc: Global,
    tellers: &[Option<usize>],
    methods: &[Method],
    entries: &[Option<MethodPlans>],
) -> Result<Items<Items<bool>>, AllocError>
    ensures { IfOk result (spec.AreLinesTold tellers.now methods.now entries.now) }
{
    let mut flags = Items::new(alloc);
    for k in 0..methods.len() {
        let entry = entry_of(entries, k);
        flags.push(line_of(alloc, tellers, &methods[k], entry)?)?;
    }
    Ok(flags)
}

/// Those of a method, by what the certificate says of it.
fn line_of(
    alloc: Global,
    tellers: &[Option<usize>],
    method: &Method,
    entry: Option<&MethodPlans>,
) -> Result<Items<bool>, AllocError>
    ensures { IfOk result (spec.IsLineTold tellers.now method.now.formats (option_copied entry.entry)) }
{
    match entry {
        Some(entry) => flags_of(
            alloc,
            tellers,
            method.formats.as_slice(),
            entry.formats.as_slice(),
        ),
        None => Ok(Items::new(alloc)),
    }
}

/// What the certificate says of the method of that index.
fn entry_of(entries: &[Option<MethodPlans>], method: usize) -> Option<&MethodPlans>
    ensures { option_copied result ≡ entry_at entries.now method }
{
    entries.get(method)?.as_ref()
}

/// For each of these formats whether its calls are told.
fn flags_of(
    alloc: Global,
    tellers: &[Option<usize>],
    formats: &[Format],
    plans: &[FormatPlans],
) -> Result<Items<bool>, AllocError>
    ensures { IfOk result (spec.AreTold tellers.now formats.now plans.now) }
{
    let mut flags = Items::new(alloc);
    for index in 0..formats.len() {
        flags.push(is_told(tellers, &formats[index], at(plans, index)))?;
    }
    Ok(flags)
}

/// Whether the calls of the format are told, which has these plans.
fn is_told(tellers: &[Option<usize>], format: &Format, entry: Option<&FormatPlans>) -> bool
    ensures { IsTrue result → (plans : Plans) → option_and_then (λ f. f.plans) (option_copied entry.entry) ≡ Some plans → spec.AreStepsTold tellers.now format.now plans.write }
{
    let Some(entry) = entry else {
        return false;
    };
    match &entry.plans {
        Some(plans) => are_steps_told(tellers, format, plans.write.as_slice()),
        None => false,
    }
}

/// Whether no step is a choice, and each call is told.
fn are_steps_told(tellers: &[Option<usize>], format: &Format, steps: &[Step]) -> bool
    ensures { IsTrue result → spec.AreStepsTold tellers.now format.now steps.now }
{
    for step in steps {
        if !is_step_told(tellers, format, *step) {
            return false;
        }
    }
    true
}

fn is_step_told(tellers: &[Option<usize>], format: &Format, step: Step) -> bool
    ensures { IsTrue result → spec.IsStepTold tellers.now format.now step }
{
    match step {
        Step::Choose(_) => false,
        Step::Call(field) => is_call_told(tellers, format, field),
        Step::Take(_)
        | Step::LibraryUp(_)
        | Step::LibraryDown(_)
        | Step::MethodLength(_, _)
        | Step::ConstraintLength(_, _, _)
        | Step::Solve(_, _)
        | Step::Ask(_) => true,
    }
}

/// Whether the field calls a method whose formats are told apart by an argument that is told.
fn is_call_told(tellers: &[Option<usize>], format: &Format, index: usize) -> bool
    ensures { IsTrue result → spec.IsCallTold tellers.now format.now index }
{
    let Some(field) = format.fields.get(index) else {
        return false;
    };
    let Encoding::Call { method, arguments } = field.encoding.get() else {
        return false;
    };
    let Some(Some(teller)) = at(tellers, *method) else {
        return false;
    };
    match arguments.get(*teller) {
        Some(argument) => is_argument_told(format, argument),
        None => false,
    }
}

/// Whether it is a number, or is that of an asked field's uncompressed side.
fn is_argument_told(format: &Format, argument: &Expr) -> bool
    ensures { IsTrue result → spec.IsTold format.now argument.now }
{
    match argument {
        Expr::Number(_, _) => true,
        Expr::Attribute(_, attribute) => is_asked(format, *attribute),
        Expr::Parameter(_, _) | Expr::Binary(_, _, _, _) => false,
    }
}

fn is_asked(format: &Format, attribute: Attribute) -> bool
    ensures { IsTrue result → spec.IsAsked format.now attribute }
{
    let Subject::Field(index) = attribute.subject else {
        return false;
    };
    let Side::Uncompressed = attribute.side else {
        return false;
    };
    match format.fields.get(index) {
        Some(field) => field.declared.asked,
        None => false,
    }
}

/// For each method a parameter, by its index, that tells its formats apart, where one is found.
fn tellers_of(
    alloc: Global,
    methods: &[Method],
    entries: &[Option<MethodPlans>],
) -> Result<Items<Option<usize>>, AllocError>
    ensures { IfOk result (spec.AreTellers methods.now entries.now) }
{
    let mut tellers = Items::new(alloc);
    for k in 0..methods.len() {
        let entry = entry_of(entries, k);
        tellers.push(teller_of(alloc, &methods[k], entry)?)?;
    }
    Ok(tellers)
}

/// A parameter that tells the method's formats apart, each of which has one candidate.
fn teller_of(
    alloc: Global,
    method: &Method,
    entry: Option<&MethodPlans>,
) -> Result<Option<usize>, AllocError>
    ensures { IfOk result (λ o. IfSome o (spec.IsTeller method.now.formats (option_copied entry.entry))) }
{
    let formats = method.formats.as_slice();
    let Some(entry) = entry else {
        return Ok(None);
    };
    if formats.len() > MOST_FORMATS || !are_plain(entry) {
        return Ok(None);
    }
    // (each parameter once: a format may have very many constraints)
    for parameter in 0..method.parameters.len() {
        if have_keys(alloc, formats, parameter)? {
            return Ok(Some(parameter));
        }
    }
    Ok(None)
}

/// Whether no write plan has a choice or a call.
fn are_plain(entry: &MethodPlans) -> bool
    ensures { IsTrue result → spec.ArePlain entry.now }
{
    for format in entry.formats.as_slice() {
        if !is_plain_format(format) {
            return false;
        }
    }
    true
}

fn is_plain_format(entry: &FormatPlans) -> bool
    ensures { IsTrue result → (plans : Plans) → entry.now.plans ≡ Some plans → (j : ℕ) (s : Step) → slice_get plans.write j ≡ Some s → spec.IsPlain s }
{
    match &entry.plans {
        Some(plans) => are_plain_steps(plans.write.as_slice()),
        None => true,
    }
}

fn are_plain_steps(steps: &[Step]) -> bool
    ensures { IsTrue result → (j : ℕ) (s : Step) → slice_get steps.now j ≡ Some s → spec.IsPlain s }
{
    for step in steps {
        if !is_plain(*step) {
            return false;
        }
    }
    true
}

fn is_plain(step: Step) -> bool
    ensures { IsTrue result → spec.IsPlain step }
{
    match step {
        Step::Choose(_) | Step::Call(_) => false,
        Step::Take(_)
        | Step::LibraryUp(_)
        | Step::LibraryDown(_)
        | Step::MethodLength(_, _)
        | Step::ConstraintLength(_, _, _)
        | Step::Solve(_, _)
        | Step::Ask(_) => true,
    }
}

/// Whether each format has a number of its own for the parameter.
fn have_keys(alloc: Global, formats: &[Format], parameter: usize) -> Result<bool, AllocError>
    ensures { IfOk result (λ b. IsTrue b → spec.HaveKeys parameter formats.now) }
{
    let mut keys = Vec::new(alloc);
    for index in 0..formats.len() {
        let Some(key) = format_key(&formats[index], parameter) else {
            return Ok(false);
        };
        if is_among(keys.as_slice(), key) {
            return Ok(false);
        }
        keys.push(key)?;
    }
    Ok(true)
}

/// Whether the number is one of these.
fn is_among(keys: &[i128], key: i128) -> bool
    ensures { result ≡ false → (n : ℕ) → slice_get keys.now n ≡ Some key → ⊥ }
{
    for found in keys {
        if *found == key {
            return true;
        }
    }
    false
}

/// The number that a constraint of the format says the parameter to be.
pub(crate) fn format_key(format: &Format, parameter: usize) -> Option<i128>
    ensures { IfSome result (spec.HasKey parameter format.now.constraints) }
{
    key_of(format.constraints.as_slice(), parameter)
}

/// The number that one of the constraints says the parameter to be.
fn key_of(constraints: &[Shared<Constraint>], parameter: usize) -> Option<i128>
    ensures { IfSome result (spec.HasKey parameter constraints.now) }
{
    for constraint in constraints {
        let key = key_in(constraint.get(), parameter);
        if key.is_some() {
            return key;
        }
    }
    None
}

/// The number that the constraint says the parameter to be.
fn key_in(constraint: &Constraint, parameter: usize) -> Option<i128>
    ensures { IfSome result (λ key. spec.Keeps parameter key constraint.now) }
{
    let Constraint::Enforce { condition, .. } = constraint else {
        return None;
    };
    let Cond::Compare(_, Comparison::Equal, Expr::Parameter(_, own), right) = condition.get() else {
        return None;
    };
    if *own != parameter {
        return None;
    }
    match right {
        Expr::Number(_, key) => Some(*key),
        _ => None,
    }
}
