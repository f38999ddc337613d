//! The arguments of an encoding.

ghost use Rattle.std.specs.Prelude.{◌≡◌, IfOk, IfErr, None};
ghost use Rattle.text_statements.specs.Judged.{Refuses};
ghost use Rattle.text_statements.specs.Arguments as spec;

use crate::{Scope, data_of, number, numbers};
use sem_expr::Expr;
use sem_profile::{CrcArguments, ProfileFault, ProfileFaultKind, ResolveError};
use sqlite_items::Items;
use std::alloc::Global;
use text_source::Span;
use text_tree::tree;

/// Two arguments.
#[derive(Drop)]
pub struct Pair {
    pub first: Expr,
    pub second: Expr,
}

fn wrong_count(name: Span) -> ResolveError
    ensures { result ≡ ResolveError.Fault (spec.wrong_count name) }
{
    ResolveError::Fault(ProfileFault::about(ProfileFaultKind::ArgumentCount, name))
}

/// No arguments, of the method at a name.
pub(crate) fn no_arguments(name: Span, arguments: &[tree::Expr]) -> Result<(), ResolveError>
    ensures means { IfOk result (λ _. spec.AreNone arguments.now) }
    ensures right { IfOk result (λ _. spec.count_fault name 0 arguments.now ≡ None) }
    ensures refused { IfErr result (Refuses (spec.count_fault name 0 arguments.now)) }
{
    match arguments {
        [] => Ok(()),
        [_, ..] => Err(wrong_count(name)),
    }
}

/// One argument, of the method at a name.
pub(crate) fn one_argument(
    alloc: Global,
    scope: &Scope<'_, '_>,
    name: Span,
    arguments: &[tree::Expr],
) -> Result<Expr, ResolveError>
    ensures means { IfOk result (spec.IsSingle scope.now arguments.now) }
    ensures right { IfOk result (λ _. spec.numbers_fault scope.now name 1 arguments.now ≡ None) }
    ensures refused { IfErr result (Refuses (spec.numbers_fault scope.now name 1 arguments.now)) }
{
    match arguments {
        [first] => number(alloc, scope, first),
        [] | [_, _, ..] => Err(wrong_count(name)),
    }
}

/// Two arguments, of the method at a name.
pub(crate) fn two_arguments(
    alloc: Global,
    scope: &Scope<'_, '_>,
    name: Span,
    arguments: &[tree::Expr],
) -> Result<Pair, ResolveError>
    ensures means { IfOk result (spec.ArePair scope.now arguments.now) }
    ensures right { IfOk result (λ _. spec.numbers_fault scope.now name 2 arguments.now ≡ None) }
    ensures refused { IfErr result (Refuses (spec.numbers_fault scope.now name 2 arguments.now)) }
{
    match arguments {
        [first, second] => {
            let first = number(alloc, scope, first)?;
            let second = number(alloc, scope, second)?;
            Ok(Pair { first, second })
        }
        [] | [_] | [_, _, _, ..] => Err(wrong_count(name)),
    }
}

/// The arguments of a crc at a name.
pub(crate) fn of_crc(
    alloc: Global,
    scope: &Scope<'_, '_>,
    name: Span,
    arguments: &[tree::Expr],
) -> Result<CrcArguments, ResolveError>
    ensures means { IfOk result (spec.AreCrc scope.now arguments.now) }
    ensures right { IfOk result (λ _. spec.crc_fault scope.now name arguments.now ≡ None) }
    ensures refused { IfErr result (Refuses (spec.crc_fault scope.now name arguments.now)) }
{
    match arguments {
        [bits, polynomial, initial, data, length] => {
            five(alloc, scope, bits, polynomial, initial, data, length)
        }
        _ => Err(wrong_count(name)),
    }
}

/// The arguments of a crc, one by one.
fn five(
    alloc: Global,
    scope: &Scope<'_, '_>,
    bits: &tree::Expr,
    polynomial: &tree::Expr,
    initial: &tree::Expr,
    covered: &tree::Expr,
    length: &tree::Expr,
) -> Result<CrcArguments, ResolveError>
    ensures means { IfOk result (spec.AreFive scope.now bits.now polynomial.now initial.now covered.now length.now) }
    ensures right { IfOk result (λ _. spec.five_fault scope.now bits.now polynomial.now initial.now covered.now length.now ≡ None) }
    ensures refused { IfErr result (Refuses (spec.five_fault scope.now bits.now polynomial.now initial.now covered.now length.now)) }
{
    let bits = number(alloc, scope, bits)?;
    let polynomial = number(alloc, scope, polynomial)?;
    let initial = number(alloc, scope, initial)?;
    let data = data_of(alloc, scope, covered)?;
    let length = number(alloc, scope, length)?;
    Ok(CrcArguments {
        bits,
        polynomial,
        initial,
        subject: data.subject,
        side: data.side,
        length,
    })
}

/// So many arguments, of the method at a name.
pub(crate) fn several(
    alloc: Global,
    scope: &Scope<'_, '_>,
    name: Span,
    count: usize,
    arguments: &[tree::Expr],
) -> Result<Items<Expr>, ResolveError>
    ensures means { IfOk result (spec.AreMany scope.now count arguments.now) }
    ensures right { IfOk result (λ _. spec.numbers_fault scope.now name count arguments.now ≡ None) }
    ensures refused { IfErr result (Refuses (spec.numbers_fault scope.now name count arguments.now)) }
{
    if arguments.len() != count {
        return Err(wrong_count(name));
    }
    numbers(alloc, scope, arguments)
}
