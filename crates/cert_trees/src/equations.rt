//! The constraints of a format that compare a parameter, or the value of a field that is static, with a constant.

ghost use Rattle.std.specs.Prelude.{◌≡◌, IfOk, Some, slice_get};
ghost use Rattle.std.specs.List.{filter_map};
ghost use Rattle.sem_profile.specs.Constants.{constant};
ghost use Rattle.cert_rules.specs.Trees.{is_static_field};
ghost use Rattle.cert_trees.specs.Equations as spec;

use sem_expr::{Attribute, Comparison, Cond, Expr, Measure, Side, Subject};
use sem_profile::constants::constant_of;
use sem_profile::{Constraint, Encoding, Field, Library, Shared};
use sqlite_items::{Items, at};
use std::alloc::{AllocError, Global};

/// A constraint `p == c`, or `p != c`, of a parameter or of the value of a field.
#[derive(Clone, Copy)]
pub struct Equation {
    /// The parameter, or the field.
    pub tested: usize,
    pub constant: i128,
    /// Whether it says that they are equal.
    pub equal: bool,
}

impl Equation {
    /// Whether by it that is not the constant.
    pub(crate) fn excludes(self, tested: usize, constant: i128) -> bool
        ensures { result ≡ spec.excludes tested constant self }
    {
        if self.tested != tested {
            return false;
        }
        if self.equal {
            self.constant != constant
        } else {
            self.constant == constant
        }
    }

    /// Whether by it that is the constant.
    pub(crate) fn fixes(self, tested: usize, constant: i128) -> bool
        ensures { result ≡ spec.fixes tested constant self }
    {
        self.tested == tested && self.equal && self.constant == constant
    }
}

/// The equations of parameters among the constraints of a format.
pub(crate) fn equations(
    alloc: Global,
    constraints: &[Shared<Constraint>],
) -> Result<Items<Equation>, AllocError>
    ensures { IfOk result (λ es. es ≡ filter_map spec.equation_of constraints.now) }
{
    let mut found = Items::new(alloc);
    for constraint in constraints {
        if let Some(equation) = equation_of(alloc, constraint.get()) {
            found.push(equation)?;
        }
    }
    Ok(found)
}

fn equation_of(alloc: Global, constraint: &Constraint) -> Option<Equation>
    ensures { result ≡ spec.equation_of constraint.now }
{
    match constraint {
        Constraint::Bracket { .. } => None,
        Constraint::Enforce {
            condition,
            place: _,
        } => condition_equation(alloc, condition.get()),
    }
}

fn condition_equation(alloc: Global, condition: &Cond) -> Option<Equation>
    ensures { result ≡ spec.condition_equation condition.now }
{
    match condition {
        Cond::Compare(_, comparison, left, right) => {
            let equal = equality(*comparison)?;
            match paired(alloc, equal, left, right) {
                Some(equation) => Some(equation),
                None => paired(alloc, equal, right, left),
            }
        }
        Cond::Constant(_, _) | Cond::Not(_, _) | Cond::And(_, _, _) | Cond::Or(_, _, _) => None,
    }
}

/// Whether the comparison says that two numbers are equal, or that they differ.
fn equality(comparison: Comparison) -> Option<bool>
    ensures { result ≡ spec.equality comparison }
{
    match comparison {
        Comparison::Equal => Some(true),
        Comparison::NotEqual => Some(false),
        Comparison::Less | Comparison::Greater | Comparison::AtMost | Comparison::AtLeast => None,
    }
}

fn paired(alloc: Global, equal: bool, left: &Expr, right: &Expr) -> Option<Equation>
    ensures { result ≡ spec.paired equal (spec.parameter_of left.now) (constant right.now) }
{
    with_constant(alloc, equal, parameter_of(left)?, right)
}

fn parameter_of(expr: &Expr) -> Option<usize>
    ensures { result ≡ spec.parameter_of expr.now }
{
    match expr {
        Expr::Parameter(_, parameter) => Some(*parameter),
        Expr::Number(_, _) | Expr::Attribute(_, _) | Expr::Binary(_, _, _, _) => None,
    }
}

/// The equation of that with the expression, where this is a constant.
fn with_constant(alloc: Global, equal: bool, tested: usize, expr: &Expr) -> Option<Equation>
    ensures { result ≡ spec.paired equal (Some tested) (constant expr.now) }
{
    Some(Equation {
        tested,
        constant: constant_of(alloc, expr)?,
        equal,
    })
}

// ---- references

/// The equations of the values of static fields among the constraints of a format with these fields.
pub(crate) fn references(
    alloc: Global,
    fields: &[Field],
    constraints: &[Shared<Constraint>],
) -> Result<Items<Equation>, AllocError>
    ensures { IfOk result (λ es. es ≡ filter_map (spec.reference_of fields.now) constraints.now) }
{
    let mut found = Items::new(alloc);
    for constraint in constraints {
        if let Some(equation) = reference_of(alloc, fields, constraint.get()) {
            found.push(equation)?;
        }
    }
    Ok(found)
}

fn reference_of(alloc: Global, fields: &[Field], constraint: &Constraint) -> Option<Equation>
    ensures { result ≡ spec.reference_of fields.now constraint.now }
{
    match constraint {
        Constraint::Bracket { .. } => None,
        Constraint::Enforce {
            condition,
            place: _,
        } => condition_reference(alloc, fields, condition.get()),
    }
}

fn condition_reference(alloc: Global, fields: &[Field], condition: &Cond) -> Option<Equation>
    ensures { result ≡ spec.condition_by (spec.static_of fields.now) condition.now }
{
    match condition {
        Cond::Compare(_, comparison, left, right) => {
            let equal = equality(*comparison)?;
            match paired_reference(alloc, fields, equal, left, right) {
                Some(equation) => Some(equation),
                None => paired_reference(alloc, fields, equal, right, left),
            }
        }
        Cond::Constant(_, _) | Cond::Not(_, _) | Cond::And(_, _, _) | Cond::Or(_, _, _) => None,
    }
}

fn paired_reference(
    alloc: Global,
    fields: &[Field],
    equal: bool,
    left: &Expr,
    right: &Expr,
) -> Option<Equation>
    ensures { result ≡ spec.paired equal (spec.static_of fields.now left.now) (constant right.now) }
{
    with_constant(alloc, equal, static_of(fields, left)?, right)
}

/// The field whose value the expression is, where it is static.
fn static_of(fields: &[Field], expr: &Expr) -> Option<usize>
    ensures { result ≡ spec.static_of fields.now expr.now }
{
    match expr {
        Expr::Attribute(_, attribute) => static_value(fields, *attribute),
        Expr::Number(_, _) | Expr::Parameter(_, _) | Expr::Binary(_, _, _, _) => None,
    }
}

fn static_value(fields: &[Field], attribute: Attribute) -> Option<usize>
    ensures { result ≡ spec.static_value fields.now attribute.subject attribute.side attribute.measure }
{
    let Subject::Field(field) = attribute.subject else {
        return None;
    };
    let Side::Uncompressed = attribute.side else {
        return None;
    };
    let Measure::Value = attribute.measure else {
        return None;
    };
    if is_static(fields, field) {
        Some(field)
    } else {
        None
    }
}

fn is_static(fields: &[Field], field: usize) -> bool
    ensures { result ≡ is_static_field (slice_get fields.now field) }
{
    match at(fields, field) {
        Some(found) => matches!(found.encoding.get(), Encoding::Library(Library::Static)),
        None => false,
    }
}
