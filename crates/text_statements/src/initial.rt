//! The values that INITIAL gives.

ghost use Rattle.std.specs.Prelude.{◌≡◌, ◌∷◌, [], IfOk, IfErr};
ghost use Rattle.sem_profile.specs.Precedence.{Blames};
ghost use Rattle.text_statements.specs.Initial as spec;

use crate::{Scope, constant_value};
use sem_bits::Bits;
use sem_library::uncompressed_value_up;
use sem_profile::{ProfileFault, ProfileFaultKind, ResolveError, word};
use std::alloc::Global;
use text_source::Span;
use text_tree::{Bound, tree};

/// The bits that a statement of INITIAL gives its field: those of `uncompressed_value` with two constants.
/// Anything else is a fault at the field's name.
pub fn initial_bits(
    alloc: Global,
    scope: &Scope<'_, '_>,
    bound: &Bound,
) -> Result<Bits, ResolveError>
    ensures found { IfOk result (spec.IsInitial scope.now bound.now) }
    ensures refused { IfErr result (Blames (spec.IsNoInitial scope.now bound.now)) }
{
    match &bound.bracket {
        Some(_) => Err(no_value(bound.name)),
        None => encoded_bits(alloc, scope, bound.name, &bound.encoding),
    }
}

fn no_value(field: Span) -> ResolveError
    ensures { result ≡ ResolveError.Fault (spec.no_value field) }
{
    ResolveError::Fault(ProfileFault::at(ProfileFaultKind::NoValue, field))
}

fn encoded_bits(
    alloc: Global,
    scope: &Scope<'_, '_>,
    field: Span,
    encoding: &tree::Encoding,
) -> Result<Bits, ResolveError>
    ensures found { IfOk result (spec.IsEncoded scope.now encoding.now) }
    ensures refused { IfErr result (Blames (spec.IsNotEncoded scope.now field encoding.now)) }
{
    match encoding {
        tree::Encoding::Bits(_, _, _) => Err(no_value(field)),
        tree::Encoding::Call(name, arguments) => {
            if is_uncompressed_value(word(scope.text(), *name)) {
                argument_bits(alloc, scope, field, arguments.as_slice())
            } else {
                Err(no_value(field))
            }
        }
    }
}

fn is_uncompressed_value(name: &[u8]) -> bool
    ensures { result ≡ spec.is_uncompressed_value name.now }
{
    name == b"uncompressed_value".as_slice()
}

fn argument_bits(
    alloc: Global,
    scope: &Scope<'_, '_>,
    field: Span,
    arguments: &[tree::Expr],
) -> Result<Bits, ResolveError>
    ensures found { IfOk result (spec.AreArguments scope.now arguments.now) }
    ensures refused { IfErr result (Blames (spec.AreNoArguments scope.now field arguments.now)) }
{
    match arguments {
        [length, value] => {
            let length = constant(alloc, scope, field, length)?;
            let value = constant(alloc, scope, field, value)?;
            spelled(alloc, field, length, value)
        }
        [] | [_] | [_, _, _, ..] => Err(no_value(field)),
    }
}

/// The value of an argument. Each of its faults is one of the field.
fn constant(
    alloc: Global,
    scope: &Scope<'_, '_>,
    field: Span,
    part: &tree::Expr,
) -> Result<i128, ResolveError>
    ensures found { IfOk result (spec.IsValue scope.now part.now) }
    ensures refused { IfErr result (Blames (spec.IsNoValue scope.now field part.now)) }
{
    match constant_value(alloc, scope, part) {
        Ok(value) => Ok(value),
        Err(error) => Err(at_field(error, field)),
    }
}

fn at_field(error: ResolveError, field: Span) -> ResolveError
    ensures { result ≡ spec.at_field field error }
{
    match error {
        ResolveError::Fault(_) => no_value(field),
        ResolveError::OutOfMemory => ResolveError::OutOfMemory,
    }
}

fn spelled(alloc: Global, field: Span, length: i128, value: i128) -> Result<Bits, ResolveError>
    ensures found { IfOk result (spec.IsSpelled length value) }
    ensures refused { IfErr result (Blames (spec.IsNotSpelled field length value)) }
{
    match uncompressed_value_up(alloc, length, value, &Bits::new(alloc))? {
        Some(bits) => Ok(bits),
        None => Err(no_value(field)),
    }
}
