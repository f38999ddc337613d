//! Which constraints may tell something of a field.

ghost use Rattle.std.specs.Prelude.{◌≡◌, ◌<◌, ◌≤◌, ◌^◌, ◌&&◌, not, [], ◌∷◌, ◌++◌, length, nat_eq, replicate, take, IfOk, OnOk};
ghost use Rattle.cert_prove.specs.Linking as spec;

use sem_expr::{Comparison, Cond, Expr, Operator, Subject};
use sem_profile::{Constraint, Format};
use sqlite_items::Items;
use std::alloc::{AllocError, Global};

/// For each field the numbers of the constraints that may tell something of it, in one pass over the constraints.
pub(crate) fn rows(alloc: Global, format: &Format) -> Result<Vec<Items<usize>>, AllocError>
    ensures rows { IfOk result (λ rows. spec.AreRows format.now rows.items) }
    // The numbers of constraints have 64 bits.
    ensures numbers { length format.now.constraints < 2 ^ 64 }
{
    let constraints = format.constraints.as_slice();
    let mut rows = no_rows(alloc, format.fields.len())?;
    for (number, constraint) in constraints.iter().enumerate() {
        note_constraint(constraint.get(), number, &mut rows)?;
    }
    Ok(rows)
}

fn no_rows(alloc: Global, count: usize) -> Result<Vec<Items<usize>>, AllocError>
    ensures { IfOk result (λ rows. rows.items ≡ replicate count []) }
{
    let mut rows = Vec::with_capacity(alloc, count)?;
    for _ in 0..count {
        rows.push(Items::new(alloc))?;
    }
    Ok(rows)
}

/// Notes the constraint's number for the fields that it may tell something of.
fn note_constraint(
    constraint: &Constraint,
    number: usize,
    rows: &mut Vec<Items<usize>>,
) -> Result<(), AllocError>
    ensures { OnOk result (spec.IsNoted (λ i. spec.tells_of i constraint.now) number rows.old.items rows.new.items) }
{
    match constraint {
        Constraint::Bracket { field, .. } => note(*field, number, rows),
        Constraint::Enforce { condition, .. } => note_condition(condition.get(), number, rows),
    }
}

fn note_condition(
    condition: &Cond,
    number: usize,
    rows: &mut Vec<Items<usize>>,
) -> Result<(), AllocError>
    ensures { OnOk result (spec.IsNoted (λ i. spec.equates i condition.now) number rows.old.items rows.new.items) }
{
    match condition {
        Cond::Compare(_, Comparison::Equal, left, right) => note_both(left, right, number, rows),
        _ => Ok(()),
    }
}

/// Notes the number for the fields that either expression names.
fn note_both(
    left: &Expr,
    right: &Expr,
    number: usize,
    rows: &mut Vec<Items<usize>>,
) -> Result<(), AllocError>
    ensures { OnOk result (spec.IsNoted (λ i. spec.is_among i (spec.naming left.now ++ spec.naming right.now)) number rows.old.items rows.new.items) }
{
    let left = naming(left);
    let right = naming(right);
    note_all(
        &[left.first, left.second, right.first, right.second],
        number,
        rows,
    )
}

/// Notes the number for each of the fields, once.
fn note_all(
    names: &[Option<usize>],
    number: usize,
    rows: &mut Vec<Items<usize>>,
) -> Result<(), AllocError>
    ensures { OnOk result (spec.IsNoted (λ i. spec.is_among i names.now) number rows.old.items rows.new.items) }
{
    for place in 0..names.len() {
        note_new(names, place, names[place], number, rows)?;
    }
    Ok(())
}

/// Notes the number for the field, if there is one, unless it stands among the names before the place.
fn note_new(
    names: &[Option<usize>],
    place: usize,
    name: Option<usize>,
    number: usize,
    rows: &mut Vec<Items<usize>>,
) -> Result<(), AllocError>
    requires { place ≤ length names.now }
    ensures { OnOk result (spec.IsNoted (λ i. spec.is_this i name && not (spec.is_among i (take place names.now))) number rows.old.items rows.new.items) }
{
    match name {
        Some(field) => {
            if stands_before(names, place, field) {
                Ok(())
            } else {
                note(field, number, rows)
            }
        }
        None => Ok(()),
    }
}

/// Whether the field stands among the names before the place.
fn stands_before(names: &[Option<usize>], place: usize, field: usize) -> bool
    requires { place ≤ length names.now }
    ensures { result ≡ spec.is_among field (take place names.now) }
{
    for earlier in 0..place {
        if is_this(field, names[earlier]) {
            return true;
        }
    }
    false
}

fn is_this(field: usize, name: Option<usize>) -> bool
    ensures { result ≡ spec.is_this field name }
{
    match name {
        Some(other) => other == field,
        None => false,
    }
}

/// Notes the number for the field, if there is one.
fn note(field: usize, number: usize, rows: &mut Vec<Items<usize>>) -> Result<(), AllocError>
    ensures { OnOk result (spec.IsNoted (nat_eq field) number rows.old.items rows.new.items) }
{
    if field < rows.len() {
        rows[field].push(number)?;
    }
    Ok(())
}

/// The fields that an expression names.
#[derive(Clone, Copy)]
pub struct NamedFields {
    pub first: Option<usize>,
    pub second: Option<usize>,
}

const NONE: NamedFields = NamedFields {
    first: None,
    second: None,
};

/// The field of which the expression is an attribute alone, or those of whose attributes it is a remainder of a sum.
fn naming(expr: &Expr) -> NamedFields
    ensures { spec.naming expr.now ≡ result.first ∷ result.second ∷ [] }
{
    match expr {
        Expr::Attribute(_, attribute) => NamedFields {
            first: field_named(attribute.subject),
            second: None,
        },
        Expr::Binary(_, operator, sum, _) => reduced(*operator, sum),
        Expr::Number(_, _) | Expr::Parameter(_, _) => NONE,
    }
}

fn reduced(operator: Operator, sum: &Expr) -> NamedFields
    ensures { spec.reduced operator sum.now ≡ result.first ∷ result.second ∷ [] }
{
    match operator {
        Operator::Remainder => summed(sum),
        Operator::Add
        | Operator::Subtract
        | Operator::Multiply
        | Operator::Divide
        | Operator::Power => NONE,
    }
}

fn summed(expr: &Expr) -> NamedFields
    ensures { spec.summed expr.now ≡ result.first ∷ result.second ∷ [] }
{
    match expr {
        Expr::Binary(_, operator, left, right) => operands(*operator, left, right),
        Expr::Attribute(_, _) | Expr::Number(_, _) | Expr::Parameter(_, _) => NONE,
    }
}

fn operands(operator: Operator, left: &Expr, right: &Expr) -> NamedFields
    ensures { spec.operands operator left.now right.now ≡ result.first ∷ result.second ∷ [] }
{
    match operator {
        Operator::Add => NamedFields {
            first: field_of(left),
            second: field_of(right),
        },
        Operator::Subtract
        | Operator::Multiply
        | Operator::Divide
        | Operator::Remainder
        | Operator::Power => NONE,
    }
}

/// The field of which the expression is an attribute alone.
fn field_of(expr: &Expr) -> Option<usize>
    ensures { result ≡ spec.named expr.now }
{
    match expr {
        Expr::Attribute(_, attribute) => field_named(attribute.subject),
        Expr::Number(_, _) | Expr::Parameter(_, _) | Expr::Binary(_, _, _, _) => None,
    }
}

fn field_named(subject: Subject) -> Option<usize>
    ensures { result ≡ spec.field_named subject }
{
    match subject {
        Subject::Field(field) => Some(field),
        Subject::This => None,
    }
}
