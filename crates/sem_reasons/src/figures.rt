//! The numbers by which a condition goes.

ghost use Rattle.std.specs.Prelude.{◌≡◌, IfOk, OnOk, slice_get};
ghost use Rattle.sem_expr.specs.Bounds.{bounding_of};
ghost use Rattle.sem_reasons.specs.Figures as spec;

use sem_expr::{
    Attribute, Cond, Input, Interval, Measure, Ranges, Side, Subject, condition_inputs,
};
use sem_filling::reason::Figure;
use sem_profile::{Constraint, Shared};
use sqlite_items::Items;
use std::alloc::{AllocError, Global};

/// The attributes and parameters of a constraint that is a condition, in the order of the text: each that can have one number alone by the ranges, once, with that
/// number. The error is out of memory.
pub(crate) fn figures_at(
    alloc: Global,
    constraints: &[Shared<Constraint>],
    number: usize,
    ranges: &Ranges,
) -> Result<Items<Figure>, AllocError>
    ensures { IfOk result (λ found. found ≡ spec.figures_at (bounding_of ranges.now) (slice_get constraints.now number)) }
{
    match constraints.get(number) {
        Some(constraint) => figures_of(alloc, constraint.get(), ranges),
        None => Ok(Items::new(alloc)),
    }
}

fn figures_of(
    alloc: Global,
    constraint: &Constraint,
    ranges: &Ranges,
) -> Result<Items<Figure>, AllocError>
    ensures { IfOk result (λ found. found ≡ spec.figures_of (bounding_of ranges.now) constraint.now) }
{
    match constraint {
        Constraint::Bracket { .. } => Ok(Items::new(alloc)),
        Constraint::Enforce {
            condition,
            place: _,
        } => figures(alloc, condition.get(), ranges),
    }
}

fn figures(alloc: Global, condition: &Cond, ranges: &Ranges) -> Result<Items<Figure>, AllocError>
    ensures { IfOk result (λ found. found ≡ spec.figures (bounding_of ranges.now) condition.now) }
{
    let inputs = condition_inputs(alloc, condition)?;
    let mut found = Items::new(alloc);
    for input in inputs.as_slice() {
        add_figure(*input, ranges, &mut found)?;
    }
    Ok(found)
}

/// Adds the input with its number, if it is not there and has one.
fn add_figure(input: Input, ranges: &Ranges, found: &mut Items<Figure>) -> Result<(), AllocError>
    ensures { OnOk result (found.new ≡ spec.with_input (bounding_of ranges.now) found.old input) }
{
    if has_input(found.as_slice(), input) {
        return Ok(());
    }
    match lone(range_of(input, ranges)) {
        Some(value) => found.push(Figure { input, value }),
        None => Ok(()),
    }
}

fn has_input(figures: &[Figure], input: Input) -> bool
    ensures { result ≡ spec.has_input input figures.now }
{
    for figure in figures {
        if is_same_input(input, figure.input) {
            return true;
        }
    }
    false
}

fn range_of(input: Input, ranges: &Ranges) -> Interval
    ensures { result ≡ spec.range_of (bounding_of ranges.now) input }
{
    match input {
        Input::Attribute(attribute) => ranges.attribute(attribute),
        Input::Parameter(parameter) => ranges.parameter(parameter),
    }
}

/// The only number of the interval.
fn lone(interval: Interval) -> Option<i128>
    ensures { result ≡ spec.lone interval }
{
    if interval.from == interval.to {
        Some(interval.from)
    } else {
        None
    }
}

fn is_same_input(one: Input, other: Input) -> bool
    ensures { result ≡ spec.same_input one other }
{
    match (one, other) {
        (Input::Attribute(one), Input::Attribute(other)) => is_same_attribute(one, other),
        (Input::Parameter(one), Input::Parameter(other)) => one == other,
        _ => false,
    }
}

fn is_same_attribute(one: Attribute, other: Attribute) -> bool
    ensures { result ≡ spec.same_attribute one other }
{
    is_same_subject(one.subject, other.subject)
        && is_same_side(one.side, other.side)
        && is_same_measure(one.measure, other.measure)
}

fn is_same_subject(one: Subject, other: Subject) -> bool
    ensures { result ≡ spec.same_subject one other }
{
    match (one, other) {
        (Subject::Field(one), Subject::Field(other)) => one == other,
        (Subject::This, Subject::This) => true,
        _ => false,
    }
}

pub(crate) fn is_same_side(one: Side, other: Side) -> bool
    ensures { result ≡ spec.same_side one other }
{
    matches!(
        (one, other),
        (Side::Uncompressed, Side::Uncompressed) | (Side::Compressed, Side::Compressed)
    )
}

fn is_same_measure(one: Measure, other: Measure) -> bool
    ensures { result ≡ spec.same_measure one other }
{
    matches!(
        (one, other),
        (Measure::Value, Measure::Value) | (Measure::Length, Measure::Length)
    )
}
