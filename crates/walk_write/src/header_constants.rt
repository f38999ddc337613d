//! Constants that the header lacks where they would stand, also inside the calls of a field.

ghost use Rattle.std.specs.Prelude.{◌≡◌, ◌≤◌, false, None, Bool, List, Option, IsTrue, IfOk, drop, length};
ghost use Rattle.sem_filling.specs.Fits.{format_at};
ghost use Rattle.sem_library.specs.Methods as lib;
ghost use Rattle.sem_profile.specs.Resolved.{Resolved};
ghost use Rattle.sem_profile.specs.declared.profile.Sizes.{Sizes};
ghost use Rattle.cert_compiled.specs.Offsets.{AreOffsets};
ghost use Rattle.walk_write.specs.Refutation as spec;
ghost use Rattle.walk_write.specs.Premises.{numbers};

use crate::premises::{Premises, Values, tells_values};
use crate::refutation::{has_false, is_header, offset_at};
use cert_accepted::Accepted;
use cert_accepted::frame::{format_of, looks_of};
use cert_compiled::Looks;
use sem_bits::Cursor;
use sem_expr::Expr;
use sem_profile::{Encoding, Library};
use sqlite_items::at;
use std::alloc::{AllocError, Global};

/// A call of a method with these arguments.
#[derive(Clone, Copy)]
struct MethodCall<'a> {
    method: usize,
    arguments: &'a [Expr],
}

/// Whether a field of this encoding can't hold the bits that come next there: its constant is told and isn't there, or the method that it calls has one format,
/// one of whose constraints is false by the arguments, or one of whose header fields lacks its constant. Calls without arguments aren't looked into, and no more
/// than `depth` calls, one in the other. The error is out of memory.
#[cycle(lacking)]
#[inline(always)]
pub(crate) fn lacks(
    depth: usize,
    alloc: Global,
    accepted: &Accepted,
    told: &Premises<'_>,
    encoding: &Encoding,
    source: &Cursor<'_>,
    begin: usize,
) -> Result<bool, AllocError>
    requires within { begin ≤ length source.now.left }
    ensures { IfOk result (λ is. IsTrue is → spec.Lacks accepted.now.profile (numbers told.now) encoding.now (drop begin source.now.left)) }
{
    match encoding {
        Encoding::Library(library) => Ok(lacks_constant(told, library, source, begin)),
        Encoding::Call { method, arguments } => {
            let call = MethodCall {
                method: *method,
                arguments: arguments.as_slice(),
            };
            lacks_inside(depth, alloc, accepted, told, &call, source, begin)
        }
        Encoding::Bare => Ok(false),
    }
}

/// The same for a call.
#[cycle(lacking)]
#[inline(never)]
fn lacks_inside(
    depth: usize,
    alloc: Global,
    accepted: &Accepted,
    told: &Premises<'_>,
    call: &MethodCall<'_>,
    source: &Cursor<'_>,
    begin: usize,
) -> Result<bool, AllocError>
    requires within { begin ≤ length source.now.left }
    ensures { IfOk result (λ is. IsTrue is → spec.Lacks accepted.now.profile (numbers told.now) (Encoding.Call call.now.method call.now.arguments.now) (drop begin source.now.left)) }
{
    if depth == 0 || call.arguments.is_empty() || has_more(accepted, call.method) {
        return Ok(false);
    }
    let mut values = Values::new(alloc);
    let are_told = tells_values(told, call.arguments, &mut values)?;
    if !are_told {
        return Ok(false);
    }
    let Some(format) = format_of(accepted, call.method, 0) else {
        return Ok(false);
    };
    if has_false(format.constraints.as_slice(), values.as_slice()) {
        return Ok(true);
    }
    let Some(looks) = looks_of(accepted, call.method, 0) else {
        return Ok(false);
    };
    let inner = Premises {
        format,
        arguments: values.as_slice(),
        choices: &[],
        places: &[],
    };
    lacks_field(depth - 1, alloc, accepted, &inner, looks, source, begin)
}

/// Whether a header field of the format lacks its constant. Those are looked at that are listed.
#[cycle(lacking)]
fn lacks_field(
    depth: usize,
    alloc: Global,
    accepted: &Accepted,
    told: &Premises<'_>,
    looks: &Looks,
    source: &Cursor<'_>,
    from: usize,
) -> Result<bool, AllocError>
    requires within { from ≤ length source.now.left }
    ensures { IfOk result (λ is. IsTrue is → (sizes : List Sizes) → AreOffsets told.now.format.now.fields sizes looks.now.offsets → spec.FieldLacks accepted.now.profile (numbers told.now) told.now.format.now.fields sizes (drop from source.now.left)) }
{
    let all = source.rest() - from;
    for index in looks.chosen.as_slice() {
        let Some(field) = at(told.format.fields.as_slice(), *index) else {
            continue;
        };
        let Some(offset) = offset_at(looks, *index, all) else {
            return Ok(false);
        };
        if !is_header(field) {
            continue;
        }
        let has_other = lacks(
            depth,
            alloc,
            accepted,
            told,
            field.encoding.get(),
            source,
            from + offset,
        )?;
        if has_other {
            return Ok(true);
        }
    }
    Ok(false)
}

/// Whether the method has more formats than one.
pub(crate) fn has_more(accepted: &Accepted, method: usize) -> bool
    ensures { result ≡ false → format_at accepted.now.profile.methods method 1 ≡ None }
{
    format_of(accepted, method, 1).is_some()
}

/// Whether it is a constant that is told and isn't there.
#[inline(always)]
fn lacks_constant(told: &Premises<'_>, library: &Library, source: &Cursor<'_>, begin: usize) -> bool
    requires within { begin ≤ length source.now.left }
    ensures { IsTrue result → (p : Resolved) → spec.Lacks p (numbers told.now) (Encoding.Library library.now) (drop begin source.now.left) }
{
    let Library::UncompressedValue { length, value } = library else {
        return false;
    };
    let Some(count) = told.value(length) else {
        return false;
    };
    let Some(number) = told.value(value) else {
        return false;
    };
    !is_spelled(source, begin, count, number)
}

/// Whether the bits there begin with so many that spell the number.
fn is_spelled(source: &Cursor<'_>, begin: usize, count: i128, number: i128) -> bool
    requires within { begin ≤ length source.now.left }
    ensures { result ≡ false → (ref : Option (List Bool)) → spec.IsElse (lib.uncompressed_value count number) ref (drop begin source.now.left) }
{
    if count < 0 || count > 64 {
        return false;
    }
    let Some(found) = source.peek(begin, count as usize) else {
        return false;
    };
    found as i128 == number
}
