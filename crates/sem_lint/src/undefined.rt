//! Expressions that have no value, since a part of them divides by 0 or has an exponent below 0.

ghost use Rattle.std.specs.Prelude.{◌≡◌};
ghost use Rattle.sem_profile.specs.BoundsLaws.{encoding_exprs, library_exprs};
ghost use Rattle.sem_expr.specs.Bounds.{bounding_of};
ghost use Rattle.sem_expr.specs.Ranged.{ranged};
ghost use Rattle.sem_lint.specs.Undefined as spec;

use sem_expr::{Cond, Expr, Operator, Ranges, range};
use sem_profile::{Constraint, CrcArguments, Encoding, Library, Shared};
use text_source::Span;

/// The first part of an argument that can have no value by the ranges.
pub fn undefined_argument(encoding: &Encoding, ranges: &Ranges) -> Option<Span>
    ensures { result ≡ spec.first_undefined (bounding_of ranges.now) (encoding_exprs encoding.now) }
{
    match encoding {
        Encoding::Bare => None,
        Encoding::Library(library) => undefined_in(library, ranges),
        Encoding::Call { arguments, .. } => first_undefined(arguments.as_slice(), ranges),
    }
}

fn undefined_in(library: &Library, ranges: &Ranges) -> Option<Span>
    ensures { result ≡ spec.first_undefined (bounding_of ranges.now) (library_exprs library.now) }
{
    match library {
        Library::UncompressedValue { length, value } | Library::CompressedValue { length, value } =>
            { undefined_of_two(length, value, ranges) }
        Library::Irregular { length } => undefined(length, ranges),
        Library::Static => None,
        Library::Lsb { bits, offset } => undefined_of_two(bits, offset, ranges),
        Library::Crc(crc) => undefined_of_crc(crc.get(), ranges),
    }
}

fn undefined_of_two(one: &Expr, other: &Expr, ranges: &Ranges) -> Option<Span>
    ensures { result ≡ spec.first_of (spec.undefined (bounding_of ranges.now) one.now) (spec.undefined (bounding_of ranges.now) other.now) }
{
    first_of(undefined(one, ranges), undefined(other, ranges))
}

fn undefined_of_crc(crc: &CrcArguments, ranges: &Ranges) -> Option<Span>
    ensures { result ≡ spec.first_of (spec.first_of (spec.undefined (bounding_of ranges.now) crc.now.bits) (spec.undefined (bounding_of ranges.now) crc.now.polynomial)) (spec.first_of (spec.undefined (bounding_of ranges.now) crc.now.initial) (spec.undefined (bounding_of ranges.now) crc.now.length)) }
{
    let first = undefined_of_two(&crc.bits, &crc.polynomial, ranges);
    let second = undefined_of_two(&crc.initial, &crc.length, ranges);
    first_of(first, second)
}

fn first_undefined(exprs: &[Expr], ranges: &Ranges) -> Option<Span>
    ensures { result ≡ spec.first_undefined (bounding_of ranges.now) exprs.now }
{
    for expr in exprs {
        let found = undefined(expr, ranges);
        if found.is_some() {
            return found;
        }
    }
    None
}

/// The first part of a condition that can have no value by the ranges.
pub fn undefined_condition(constraints: &[Shared<Constraint>], ranges: &Ranges) -> Option<Span>
    ensures { result ≡ spec.undefined_condition (bounding_of ranges.now) constraints.now }
{
    for constraint in constraints {
        let found = undefined_constraint(constraint.get(), ranges);
        if found.is_some() {
            return found;
        }
    }
    None
}

fn undefined_constraint(constraint: &Constraint, ranges: &Ranges) -> Option<Span>
    ensures { result ≡ spec.undefined_constraint (bounding_of ranges.now) constraint.now }
{
    match constraint {
        Constraint::Bracket { .. } => None,
        Constraint::Enforce {
            condition,
            place: _,
        } => undefined_truth(condition.get(), ranges),
    }
}

fn undefined_truth(cond: &Cond, ranges: &Ranges) -> Option<Span>
    ensures { result ≡ spec.undefined_truth (bounding_of ranges.now) cond.now }
{
    match cond {
        Cond::Constant(_, _) => None,
        Cond::Compare(_, _, left, right) => undefined_of_two(left, right, ranges),
        Cond::Not(_, inner) => undefined_truth(inner, ranges),
        Cond::And(_, left, right) | Cond::Or(_, left, right) => {
            first_of(
                undefined_truth(left, ranges),
                undefined_truth(right, ranges),
            )
        }
    }
}

/// The first part of the expression that by the ranges can only divide by 0 or have an exponent below 0, inner parts first.
pub(crate) fn undefined(expr: &Expr, ranges: &Ranges) -> Option<Span>
    ensures { result ≡ spec.undefined (bounding_of ranges.now) expr.now }
{
    match expr {
        Expr::Number(_, _) | Expr::Parameter(_, _) | Expr::Attribute(_, _) => None,
        Expr::Binary(at, operator, left, right) => {
            let inner = first_of(undefined(left, ranges), undefined(right, ranges));
            first_of(inner, lacking(*at, *operator, right, ranges))
        }
    }
}

fn lacking(at: Span, operator: Operator, right: &Expr, ranges: &Ranges) -> Option<Span>
    ensures { result ≡ spec.lacking at operator (ranged (bounding_of ranges.now) right.now) }
{
    if gives_none(operator, right, ranges) {
        Some(at)
    } else {
        None
    }
}

/// Whether there is no value with such an operand on the right.
fn gives_none(operator: Operator, right: &Expr, ranges: &Ranges) -> bool
    ensures { result ≡ spec.gives_none operator (ranged (bounding_of ranges.now) right.now) }
{
    match operator {
        Operator::Divide | Operator::Remainder => is_zero(right, ranges),
        Operator::Power => is_negative(right, ranges),
        Operator::Add | Operator::Subtract | Operator::Multiply => false,
    }
}

/// Whether the expression can have no value but 0.
fn is_zero(expr: &Expr, ranges: &Ranges) -> bool
    ensures { result ≡ spec.is_zero (ranged (bounding_of ranges.now) expr.now) }
{
    match range(expr, ranges) {
        Ok(interval) => interval.from == 0 && interval.to == 0,
        Err(_) => false,
    }
}

/// Whether the expression can have no value from 0 on.
fn is_negative(expr: &Expr, ranges: &Ranges) -> bool
    ensures { result ≡ spec.is_negative (ranged (bounding_of ranges.now) expr.now) }
{
    match range(expr, ranges) {
        Ok(interval) => interval.to < 0,
        Err(_) => false,
    }
}

fn first_of(one: Option<Span>, other: Option<Span>) -> Option<Span>
    ensures { result ≡ spec.first_of one other }
{
    match one {
        Some(at) => Some(at),
        None => other,
    }
}
