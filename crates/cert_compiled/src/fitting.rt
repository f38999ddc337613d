//! The format of a called method that the arguments leave, of which nothing is promised: who writes by it judges what he has.

use crate::plans::CompiledPlans;
use crate::singles::{MOST_FORMATS, format_key};
use sem_expr::short::plain;
use sem_expr::{Cond, Expr, compares};
use sem_profile::{Constraint, Format, Method};
use sqlite_items::{Items, at};
use std::alloc::{AllocError, Global};

/// A parameter of a method, by its index, and the number that each format of the method wants it to be.
#[derive(Drop)]
pub struct Teller {
    parameter: usize,
    numbers: Items<i64>,
}

impl Teller {
    /// The first format that wants the parameter to be what it is among these arguments.
    fn format(&self, arguments: &[i64]) -> Option<usize> {
        let value = at(arguments, self.parameter)?;
        for (index, number) in self.numbers.as_slice().iter().enumerate() {
            if *number == *value {
                return Some(index);
            }
        }
        None
    }
}

/// For each method a parameter for which each of its formats wants a number, if it has one.
pub(crate) fn tellers_of(
    alloc: Global,
    methods: &[Method],
) -> Result<Items<Option<Teller>>, AllocError> {
    let mut tellers = Items::new(alloc);
    for method in methods {
        tellers.push(teller_of(alloc, method)?)?;
    }
    Ok(tellers)
}

fn teller_of(alloc: Global, method: &Method) -> Result<Option<Teller>, AllocError> {
    let formats = method.formats.as_slice();
    if formats.len() > MOST_FORMATS {
        return Ok(None);
    }
    for parameter in 0..method.parameters.len() {
        if let Some(numbers) = wanted_of(alloc, formats, parameter)? {
            return Ok(Some(Teller { parameter, numbers }));
        }
    }
    Ok(None)
}

/// The numbers that the formats want the parameter to be, if each wants one that 64 bits hold.
fn wanted_of(
    alloc: Global,
    formats: &[Format],
    parameter: usize,
) -> Result<Option<Items<i64>>, AllocError> {
    let mut numbers = Items::new(alloc);
    for format in formats {
        let Some(key) = format_key(format, parameter) else {
            return Ok(None);
        };
        let Ok(number) = i64::try_from(key) else {
            return Ok(None);
        };
        numbers.push(number)?;
    }
    Ok(Some(numbers))
}

/// The format of the called method that the arguments leave, as far as that is told: by its teller, or by its constraints.
#[inline(always)]
pub fn format_left(
    compiled: &CompiledPlans,
    methods: &[Method],
    method: usize,
    arguments: &[i64],
) -> Option<usize> {
    match at(compiled.tellers.as_slice(), method) {
        Some(Some(teller)) => teller.format(arguments),
        _ => first_left(methods, method, arguments),
    }
}

/// The first format of the method, both by their indices, of which no constraint is false by the arguments alone.
fn first_left(methods: &[Method], method: usize, arguments: &[i64]) -> Option<usize> {
    let method = at(methods, method)?;
    for (index, format) in method.formats.as_slice().iter().enumerate() {
        if !has_false(format, arguments) {
            return Some(index);
        }
    }
    None
}

/// The same by these expressions, where each is a number.
pub(crate) fn left_by(
    alloc: Global,
    methods: &[Method],
    method: usize,
    arguments: &[Expr],
) -> Result<Option<usize>, AllocError> {
    let mut values = Vec::new(alloc);
    for argument in arguments {
        let Some(value) = plain(argument) else {
            return Ok(None);
        };
        values.push(value)?;
    }
    Ok(first_left(methods, method, values.as_slice()))
}

/// Whether a constraint of the format is false by the arguments alone.
fn has_false(format: &Format, arguments: &[i64]) -> bool {
    for constraint in format.constraints.as_slice() {
        if let Constraint::Enforce { condition, .. } = constraint.get() {
            if is_false(condition.get(), arguments) {
                return true;
            }
        }
    }
    false
}

fn is_false(condition: &Cond, arguments: &[i64]) -> bool {
    let Cond::Compare(_, comparison, left, right) = condition else {
        return false;
    };
    let (Some(one), Some(other)) = (operand(left, arguments), operand(right, arguments)) else {
        return false;
    };
    !compares(*comparison, one, other)
}

/// The value of a number or a parameter.
#[inline(always)]
fn operand(expr: &Expr, arguments: &[i64]) -> Option<i128> {
    match expr {
        Expr::Number(_, number) => Some(*number),
        Expr::Parameter(_, index) => match at(arguments, *index) {
            Some(value) => Some(*value as i128),
            None => None,
        },
        Expr::Attribute(_, _) | Expr::Binary(_, _, _, _) => None,
    }
}
