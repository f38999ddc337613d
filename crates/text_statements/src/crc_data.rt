//! The data of a crc.

ghost use Rattle.std.specs.Prelude.{◌≡◌, None, IfOk, IfErr};
ghost use Rattle.text_statements.specs.Judged.{Refuses};
ghost use Rattle.text_statements.specs.CrcData as spec;

use crate::scope::Scope;
use crate::term::{Term, wrong_kind};
use crate::types::term;
use sem_expr::{Attribute, Expr, Measure, Side, Subject};
use sem_profile::ResolveError;
use std::alloc::Global;
use text_tree::tree;

/// The bits of a side of a field or of the whole.
#[derive(Clone, Copy, PartialEq, Eq)]
pub struct CrcData {
    pub subject: Subject,
    pub side: Side,
}

/// The data that an argument of a crc names: UVALUE or CVALUE of a field or of THIS, also in round brackets.
pub fn data_of(
    alloc: Global,
    scope: &Scope<'_, '_>,
    part: &tree::Expr,
) -> Result<CrcData, ResolveError>
    ensures means { IfOk result (λ d. spec.IsData scope.now part.now d) }
    ensures right { IfOk result (λ _. spec.data_fault scope.now part.now ≡ None) }
    ensures refused { IfErr result (Refuses (spec.data_fault scope.now part.now)) }
{
    let found = term(alloc, scope, part)?;
    match named(&found) {
        Some(data) => Ok(data),
        None => Err(ResolveError::Fault(wrong_kind(found.place()))),
    }
}

/// The data that a typed expression names.
fn named(found: &Term) -> Option<CrcData>
    ensures { result ≡ spec.named found.now }
{
    match found {
        Term::Number(expr) => match expr {
            Expr::Attribute(_, attribute) => value_of(*attribute),
            _ => None,
        },
        Term::Truth(_) => None,
    }
}

fn value_of(attribute: Attribute) -> Option<CrcData>
    ensures { result ≡ spec.value_of attribute }
{
    match attribute.measure {
        Measure::Value => Some(CrcData {
            subject: attribute.subject,
            side: attribute.side,
        }),
        Measure::Length => None,
    }
}
