//! The conjuncts of an ENFORCE.

ghost use Rattle.std.specs.Prelude.{◌≡◌, false, None, IfOk, IfErr};
ghost use Rattle.text_statements.specs.Judged.{fault_of, Refuses};
ghost use Rattle.text_statements.specs.Conjuncts as spec;

use crate::scope::Scope;
use crate::term::TermKind;
use crate::types::condition;
use sem_profile::{Constraint, ResolveError, Shared};
use sqlite_items::{Boxed, Items};
use std::alloc::Global;
use text_tree::tree;

/// The conjuncts of a condition: the operands of the `&&` at its top, in their order. What is in round brackets is one.
pub fn conjuncts(
    alloc: Global,
    scope: &Scope<'_, '_>,
    part: &tree::Expr,
) -> Result<Items<Shared<Constraint>>, ResolveError>
    ensures means { IfOk result (λ cs. spec.AreConjuncts scope.now part.now cs) }
    ensures right { IfOk result (λ _. fault_of TermKind.Truth scope.now part.now ≡ None) }
    ensures refused { IfErr result (Refuses (fault_of TermKind.Truth scope.now part.now)) }
{
    match part {
        tree::Expr::Binary(_, operator, _, left, right) => match operator {
            tree::Operator::And => {
                let mut found = conjuncts(alloc, scope, left.get())?;
                found.append(conjuncts(alloc, scope, right.get())?)?;
                Ok(found)
            }
            _ => one(alloc, scope, part),
        },
        _ => one(alloc, scope, part),
    }
}

/// A condition as the one conjunct.
fn one(
    alloc: Global,
    scope: &Scope<'_, '_>,
    part: &tree::Expr,
) -> Result<Items<Shared<Constraint>>, ResolveError>
    requires { spec.is_conjunction part.now ≡ false }
    ensures means { IfOk result (λ cs. spec.AreConjuncts scope.now part.now cs) }
    ensures right { IfOk result (λ _. fault_of TermKind.Truth scope.now part.now ≡ None) }
    ensures refused { IfErr result (Refuses (fault_of TermKind.Truth scope.now part.now)) }
{
    let conjunct = Constraint::Enforce {
        condition: Boxed::new(alloc, condition(alloc, scope, part)?)?,
        place: part.span(),
    };
    let mut found = Items::new(alloc);
    found.push(Shared::new(alloc, conjunct)?)?;
    Ok(found)
}
