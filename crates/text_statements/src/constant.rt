//! Constants: expressions that have a value without attributes and parameters.

ghost use Rattle.std.specs.Prelude.{◌≡◌, IfOk, IfErr};
ghost use Rattle.text_statements.specs.Constants as spec;

use crate::scope::Scope;
use crate::types::number;
use sem_expr::{Expr, Known, Ranges, range, value};
use sem_profile::{ProfileFault, ProfileFaultKind, ResolveError};
use std::alloc::Global;
use text_source::Span;
use text_tree::tree;

/// The value of the expression at a place.
fn evaluate(alloc: Global, at: Span, expr: &Expr) -> Result<i128, ProfileFault>
    ensures { result ≡ spec.evaluated at expr.now }
{
    match range(expr, &Ranges::anything(alloc)) {
        Err(fault) => Err(ProfileFault::of_range(fault)),
        Ok(_) => match value(expr, &Known::nothing(alloc)) {
            Some(number) => Ok(number),
            None => Err(ProfileFault::at(ProfileFaultKind::NoValue, at)),
        },
    }
}

/// The value of a constant's expression, or its fault: one of its names and kinds, of a range, or that it has none.
pub fn constant_value(
    alloc: Global,
    scope: &Scope<'_, '_>,
    part: &tree::Expr,
) -> Result<i128, ResolveError>
    ensures value { IfOk result (λ v. spec.IsValue scope.now part.now v) }
    ensures refused { IfErr result (spec.Blames (spec.ValueFault scope.now part.now)) }
{
    let expr = number(alloc, scope, part)?;
    Ok(evaluate(alloc, part.span(), &expr)?)
}
