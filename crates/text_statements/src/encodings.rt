//! What an encoding of the tree means.

ghost use Rattle.std.specs.Prelude.{◌≡◌, pos, IfOk, IfErr, None};
ghost use Rattle.text_statements.specs.Judged.{Refuses};
ghost use Rattle.text_statements.specs.Encodings as spec;

use crate::Scope;
use crate::arguments::{no_arguments, of_crc, one_argument, several, two_arguments};
use crate::callee::{Callee, Methods};
use sem_expr::Expr;
use sem_profile::{Encoding, Library, ProfileFault, ProfileFaultKind, ResolveError, word};
use sqlite_items::Boxed;
use std::alloc::Global;
use text_source::Span;
use text_tree::tree;

/// The meaning of an encoding, or its first fault: a method that is not known, a wrong number of arguments, or an argument's.
pub fn encoding(
    alloc: Global,
    scope: &Scope<'_, '_>,
    methods: &Methods<'_, '_>,
    given: &tree::Encoding,
) -> Result<Encoding, ResolveError>
    ensures means { IfOk result (spec.Means scope.now methods.now given.now) }
    ensures right { IfOk result (λ _. spec.fault_of scope.now methods.now given.now ≡ None) }
    ensures refused { IfErr result (Refuses (spec.fault_of scope.now methods.now given.now)) }
{
    match given {
        tree::Encoding::Bits(at, count, value) => Ok(Encoding::Library(bit_text(
            *at, *count, *value,
        ))),
        tree::Encoding::Call(name, arguments) => {
            match methods.callee(word(scope.text(), *name)) {
                Some(callee) => { call(alloc, scope, methods, *name, callee, arguments.as_slice()) }
                None => Err(unknown(*name)),
            }
        }
    }
}

fn unknown(name: Span) -> ResolveError
    ensures { result ≡ ResolveError.Fault (spec.unknown name) }
{
    ResolveError::Fault(ProfileFault::about(ProfileFaultKind::UnknownName, name))
}

/// A bit text is a compressed_value of its digits.
fn bit_text(at: Span, count: usize, value: u64) -> Library
    ensures { result ≡ spec.bit_text at count value }
{
    Library::CompressedValue {
        length: Expr::Number(at, count as i128),
        value: Expr::Number(at, value as i128),
    }
}

fn call(
    alloc: Global,
    scope: &Scope<'_, '_>,
    methods: &Methods<'_, '_>,
    name: Span,
    callee: Callee,
    arguments: &[tree::Expr],
) -> Result<Encoding, ResolveError>
    ensures means { IfOk result (spec.Calls scope.now methods.now callee arguments.now) }
    ensures right { IfOk result (λ _. spec.call_fault scope.now methods.now name callee arguments.now ≡ None) }
    ensures refused { IfErr result (Refuses (spec.call_fault scope.now methods.now name callee arguments.now)) }
{
    match callee {
        Callee::UncompressedValue => {
            let found = two_arguments(alloc, scope, name, arguments)?;
            Ok(Encoding::Library(Library::UncompressedValue {
                length: found.first,
                value: found.second,
            }))
        }
        Callee::CompressedValue => {
            let found = two_arguments(alloc, scope, name, arguments)?;
            Ok(Encoding::Library(Library::CompressedValue {
                length: found.first,
                value: found.second,
            }))
        }
        Callee::Irregular => {
            let length = one_argument(alloc, scope, name, arguments)?;
            Ok(Encoding::Library(Library::Irregular { length }))
        }
        Callee::Static => {
            no_arguments(name, arguments)?;
            Ok(Encoding::Library(Library::Static))
        }
        Callee::Lsb => {
            let found = two_arguments(alloc, scope, name, arguments)?;
            Ok(Encoding::Library(Library::Lsb {
                bits: found.first,
                offset: found.second,
            }))
        }
        Callee::Crc => {
            let found = of_crc(alloc, scope, name, arguments)?;
            Ok(Encoding::Library(Library::Crc(Boxed::new(alloc, found)?)))
        }
        Callee::Own(method) => {
            let arguments = several(alloc, scope, name, methods.arity(callee), arguments)?;
            Ok(Encoding::Call { method, arguments })
        }
    }
}
