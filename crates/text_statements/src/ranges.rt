//! The ranges of the parts of constants.

ghost use Rattle.std.specs.Prelude.{◌≡◌, Some, None, IfOk, IfErr};
ghost use Rattle.text_statements.specs.Judged.{range_fault};
ghost use Rattle.text_statements.specs.Ranges as spec;

use crate::scope::Scope;
use sem_expr::{Expr, Ranges, range};
use sem_profile::ProfileFault;
use std::alloc::Global;

/// The expression, where it has a range or ranges are not judged: they are in constants, where no attribute may stand.
pub(crate) fn within(alloc: Global, scope: &Scope<'_, '_>, expr: Expr) -> Result<Expr, ProfileFault>
    ensures same { IfOk result (λ e. e ≡ expr) }
    ensures right { IfOk result (λ _. range_fault scope.now (spec.range_of expr) ≡ None) }
    ensures refused { IfErr result (λ f. range_fault scope.now (spec.range_of expr) ≡ Some f) }
{
    if scope.has_attributes() {
        return Ok(expr);
    }
    match range(&expr, &Ranges::anything(alloc)) {
        Ok(_) => Ok(expr),
        Err(fault) => Err(ProfileFault::of_range(fault)),
    }
}
