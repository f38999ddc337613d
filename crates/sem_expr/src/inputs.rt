//! The attributes and parameters in an expression.

ghost use Rattle.std.specs.Prelude.{◌≡◌, ◌++◌, IfOk, OnOk};
ghost use Rattle.sem_expr.specs.Inputs.{inputs_of, condition_inputs_of};

use crate::expr::{Attribute, Cond, Expr};
use sqlite_items::Items;
use std::alloc::{AllocError, Global};

/// An attribute or a parameter in an expression.
#[derive(Clone, Copy, PartialEq, Eq)]
pub enum Input {
    Attribute(Attribute),
    Parameter(usize),
}

/// The inputs of an expression: in the order of the text, each as often as it stands there.
pub fn expr_inputs(alloc: Global, expr: &Expr) -> Result<Items<Input>, AllocError>
    ensures { IfOk result (λ found. found ≡ inputs_of expr.now) }
{
    let mut found = Items::new(alloc);
    push_inputs(expr, &mut found)?;
    Ok(found)
}

/// The inputs of a condition, likewise.
pub fn condition_inputs(alloc: Global, cond: &Cond) -> Result<Items<Input>, AllocError>
    ensures { IfOk result (λ found. found ≡ condition_inputs_of cond.now) }
{
    let mut found = Items::new(alloc);
    push_condition_inputs(cond, &mut found)?;
    Ok(found)
}

fn push_inputs(expr: &Expr, found: &mut Items<Input>) -> Result<(), AllocError>
    ensures { OnOk result (found.new ≡ found.old ++ inputs_of expr.now) }
{
    match expr {
        Expr::Number(_, _) => {}
        Expr::Parameter(_, parameter) => found.push(Input::Parameter(*parameter))?,
        Expr::Attribute(_, attribute) => found.push(Input::Attribute(*attribute))?,
        Expr::Binary(_, _, left, right) => {
            push_inputs(left, found)?;
            push_inputs(right, found)?;
        }
    }
    Ok(())
}

fn push_condition_inputs(cond: &Cond, found: &mut Items<Input>) -> Result<(), AllocError>
    ensures { OnOk result (found.new ≡ found.old ++ condition_inputs_of cond.now) }
{
    match cond {
        Cond::Constant(_, _) => {}
        Cond::Compare(_, _, left, right) => {
            push_inputs(left, found)?;
            push_inputs(right, found)?;
        }
        Cond::Not(_, inner) => push_condition_inputs(inner, found)?,
        Cond::And(_, left, right) | Cond::Or(_, left, right) => {
            push_condition_inputs(left, found)?;
            push_condition_inputs(right, found)?;
        }
    }
    Ok(())
}
