//! What a constraint says of a length or a value: the expression that it equates with it.

ghost use Rattle.std.specs.Prelude.{◌≡◌, option_and_then, option_map};
ghost use Rattle.std.specs.Option.{option_copied};
ghost use Rattle.sem_profile.specs.Constants.{constant};
ghost use Rattle.cert_rules.specs.Facts as facts;
ghost use Rattle.cert_rules.specs.Rules as spec;
ghost use Rattle.cert_rules.specs.Congruences.{shown};
ghost use Rattle.text_source.specs.declared.span.Span.{Span};

use sem_expr::{Attribute, Comparison, Cond, Expr, Measure, Operator, Side, Subject};
use sem_profile::constants::constant_of;
use sem_profile::{Constraint, FormatSizes, Shared};
use sqlite_items::at;
use std::alloc::Global;

fn is_same_side(side: Side, other: Side) -> bool
    ensures { result ≡ facts.same_side side other }
{
    match side {
        Side::Uncompressed => matches!(other, Side::Uncompressed),
        Side::Compressed => matches!(other, Side::Compressed),
    }
}

fn is_same_measure(measure: Measure, other: Measure) -> bool
    ensures { result ≡ spec.same_measure measure other }
{
    match measure {
        Measure::Value => matches!(other, Measure::Value),
        Measure::Length => matches!(other, Measure::Length),
    }
}

fn is_same_subject(subject: Subject, other: Subject) -> bool
    ensures { result ≡ spec.same_subject subject other }
{
    match subject {
        Subject::Field(field) => is_field(other, field),
        Subject::This => matches!(other, Subject::This),
    }
}

fn is_field(subject: Subject, field: usize) -> bool
    ensures { result ≡ spec.same_subject (Subject.Field field) subject }
{
    match subject {
        Subject::Field(other) => field == other,
        Subject::This => false,
    }
}

fn is_same_attribute(attribute: Attribute, other: Attribute) -> bool
    ensures { result ≡ spec.same_attribute attribute other }
{
    is_same_subject(attribute.subject, other.subject)
        && is_same_side(attribute.side, other.side)
        && is_same_measure(attribute.measure, other.measure)
}

/// Whether the expression is the attribute alone.
fn is_attribute(attribute: Attribute, expr: &Expr) -> bool
    ensures { result ≡ spec.is_attribute attribute expr.now }
{
    match expr {
        Expr::Attribute(_, other) => is_same_attribute(*other, attribute),
        Expr::Number(_, _) | Expr::Parameter(_, _) | Expr::Binary(_, _, _, _) => false,
    }
}

/// The expression that the constraint equates with the attribute, either way round.
fn equated(attribute: Attribute, constraint: &Constraint) -> Option<&Expr>
    ensures { option_copied result ≡ spec.equated attribute constraint.now }
{
    match constraint {
        Constraint::Enforce { condition, .. } => equated_by(attribute, condition.get()),
        Constraint::Bracket { .. } => None,
    }
}

/// The same of a condition.
fn equated_by(attribute: Attribute, condition: &Cond) -> Option<&Expr>
    ensures { (place : Span) → option_copied result ≡ spec.equated attribute (Constraint.Enforce condition.now place) }
{
    match condition {
        Cond::Compare(_, Comparison::Equal, left, right) => {
            if is_attribute(attribute, left) {
                Some(right)
            } else if is_attribute(attribute, right) {
                Some(left)
            } else {
                None
            }
        }
        _ => None,
    }
}

/// The expression of a bracket of one expression on that length of the field.
fn bracketed(field: usize, side: Side, constraint: &Constraint) -> Option<&Expr>
    ensures { option_copied result ≡ spec.bracketed field side constraint.now }
{
    match constraint {
        Constraint::Bracket {
            field: other,
            side: which,
            lengths,
            ..
        } => {
            let only = sole(lengths.as_slice())?;
            if *other == field && is_same_side(*which, side) {
                Some(only)
            } else {
                None
            }
        }
        Constraint::Enforce { .. } => None,
    }
}

fn sole(exprs: &[Expr]) -> Option<&Expr>
    ensures { option_copied result ≡ spec.sole exprs.now }
{
    match exprs {
        [expr] => Some(expr),
        [] | [_, _, ..] => None,
    }
}

/// The expression that the constraint says is the length of that side of the field.
pub fn length_given(field: usize, side: Side, constraint: &Constraint) -> Option<&Expr>
    ensures { option_copied result ≡ spec.length_given field side constraint.now }
{
    match bracketed(field, side, constraint) {
        Some(length) => Some(length),
        None => equated(attribute_of(field, side, Measure::Length), constraint),
    }
}

/// The expression that the constraint says is the value of the field's uncompressed side.
pub fn value_given(field: usize, constraint: &Constraint) -> Option<&Expr>
    ensures { option_copied result ≡ spec.value_given field constraint.now }
{
    equated(
        attribute_of(field, Side::Uncompressed, Measure::Value),
        constraint,
    )
}

// ---- equations of remainders

/// An equation `(t + more) % by == left` of an attribute `t`, by its parts.
#[derive(Clone, Copy)]
pub struct Congruence<'a> {
    pub more: &'a Expr,
    pub by: i128,
    pub left: &'a Expr,
}

/// The equation of a remainder that the constraint is of the value of the field's uncompressed side, where each number that the field's bounds allow is below
/// the divisor.
pub fn remainder_given<'a>(
    alloc: Global,
    sizes: &FormatSizes,
    field: usize,
    constraint: &'a Constraint,
) -> Option<Congruence<'a>>
    ensures { option_map shown result ≡ spec.remainder_given sizes.now field constraint.now }
{
    let given = remainder_form(alloc, field, constraint)?;
    let bounds = at(sizes.fields.as_slice(), field)?;
    if is_reached(bounds.uncompressed.most, given.by) {
        Some(given)
    } else {
        None
    }
}

/// The equation of a remainder that the constraint is of the value of the field's uncompressed side, whatever the field's bounds allow.
pub fn remainder_form(
    alloc: Global,
    field: usize,
    constraint: &Constraint,
) -> Option<Congruence<'_>>
    ensures { option_map shown result ≡ spec.congruent (spec.attribute_of field Side.Uncompressed Measure.Value) constraint.now }
{
    let attribute = attribute_of(field, Side::Uncompressed, Measure::Value);
    congruent(alloc, attribute, constraint)
}

/// Whether each number of so many bits is below the divisor.
fn is_reached(bits: u128, by: i128) -> bool
    ensures { result ≡ spec.is_reached bits by }
{
    bits < 127 && 1 << bits <= by
}

/// The equation of a remainder that the constraint is, either way round.
fn congruent(alloc: Global, attribute: Attribute, constraint: &Constraint) -> Option<Congruence<'_>>
    ensures { option_map shown result ≡ spec.congruent attribute constraint.now }
{
    match constraint {
        Constraint::Enforce { condition, .. } => congruent_by(alloc, attribute, condition.get()),
        Constraint::Bracket { .. } => None,
    }
}

fn congruent_by(alloc: Global, attribute: Attribute, condition: &Cond) -> Option<Congruence<'_>>
    ensures { (place : Span) → option_map shown result ≡ spec.congruent attribute (Constraint.Enforce condition.now place) }
{
    match condition {
        Cond::Compare(_, Comparison::Equal, left, right) => {
            match reduced(alloc, attribute, left, right) {
                Some(found) => Some(found),
                None => reduced(alloc, attribute, right, left),
            }
        }
        _ => None,
    }
}

/// The equation of an expression that is a remainder, and what it is to be.
fn reduced<'a>(
    alloc: Global,
    attribute: Attribute,
    expr: &'a Expr,
    left: &'a Expr,
) -> Option<Congruence<'a>>
    ensures { option_map shown result ≡ spec.reduced attribute expr.now left.now }
{
    match expr {
        Expr::Binary(_, operator, sum, by) => {
            reduction(alloc, attribute, *operator, sum, by, left)
        }
        Expr::Number(_, _) | Expr::Parameter(_, _) | Expr::Attribute(_, _) => None,
    }
}

fn reduction<'a>(
    alloc: Global,
    attribute: Attribute,
    operator: Operator,
    sum: &'a Expr,
    by: &Expr,
    left: &'a Expr,
) -> Option<Congruence<'a>>
    ensures { option_map shown result ≡ spec.reduction attribute operator sum.now by.now left.now }
{
    match operator {
        Operator::Remainder => Some(Congruence {
            more: added(attribute, sum)?,
            by: constant_of(alloc, by)?,
            left,
        }),
        Operator::Add
        | Operator::Subtract
        | Operator::Multiply
        | Operator::Divide
        | Operator::Power => None,
    }
}

/// What the expression adds to the attribute, in either order.
fn added(attribute: Attribute, expr: &Expr) -> Option<&Expr>
    ensures { option_copied result ≡ spec.added attribute expr.now }
{
    match expr {
        Expr::Binary(_, operator, left, right) => addend(attribute, *operator, left, right),
        Expr::Number(_, _) | Expr::Parameter(_, _) | Expr::Attribute(_, _) => None,
    }
}

fn addend<'a>(
    attribute: Attribute,
    operator: Operator,
    left: &'a Expr,
    right: &'a Expr,
) -> Option<&'a Expr>
    ensures { option_copied result ≡ spec.addend attribute operator left.now right.now }
{
    match operator {
        Operator::Add => {
            if is_attribute(attribute, left) {
                Some(right)
            } else if is_attribute(attribute, right) {
                Some(left)
            } else {
                None
            }
        }
        Operator::Subtract
        | Operator::Multiply
        | Operator::Divide
        | Operator::Remainder
        | Operator::Power => None,
    }
}

fn attribute_of(field: usize, side: Side, measure: Measure) -> Attribute
    ensures { result ≡ spec.attribute_of field side measure }
{
    Attribute {
        subject: Subject::Field(field),
        side,
        measure,
    }
}

/// The value of the first bracket of one constant on the field's uncompressed length.
pub(crate) fn bracket_size(
    alloc: Global,
    field: usize,
    constraints: &[Shared<Constraint>],
) -> Option<i128>
    ensures { result ≡ spec.bracket_size field constraints.now }
{
    for constraint in constraints {
        if let Some(size) = bracket_constant(alloc, field, constraint.get()) {
            return Some(size);
        }
    }
    None
}

/// The value of a bracket of one constant on the field's uncompressed length.
fn bracket_constant(alloc: Global, field: usize, constraint: &Constraint) -> Option<i128>
    ensures { result ≡ option_and_then constant (spec.bracketed field Side.Uncompressed constraint.now) }
{
    constant_of(alloc, bracketed(field, Side::Uncompressed, constraint)?)
}
