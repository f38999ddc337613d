//! Which methods call a method.

ghost use Rattle.std.specs.Prelude.{◌≡◌, [], map, slice_get, IfOk};
ghost use Rattle.sem_bounds.specs.Callers as spec;
ghost use Rattle.sem_profile.specs.Parameters.{calls, is_call};
ghost use Rattle.sem_profile.specs.Passes.{changed};

use sem_profile::{Encoding, Format, Method};
use sqlite_items::{Items, at};
use std::alloc::{AllocError, Global};

fn ends_with(row: &[usize], place: usize) -> bool
    ensures { result ≡ spec.ends_with row.now place }
{
    match row.last() {
        Some(last) => *last == place,
        None => false,
    }
}

fn note(row: &mut Items<usize>, place: usize) -> Result<(), AllocError>
    ensures { IfOk result (λ u. row.new ≡ spec.ending place row.old) }
{
    if !ends_with(row.as_slice(), place) {
        row.push(place)?;
    }
    Ok(())
}

fn note_at(rows: &mut Vec<Items<usize>>, place: usize, method: usize) -> Result<(), AllocError>
    ensures { IfOk result (λ u. rows.new.items ≡ changed (spec.ending place) rows.old.items method (slice_get rows.old.items method)) }
{
    if let Some(row) = rows.get_mut(method) {
        note(row, place)?;
    }
    Ok(())
}

fn note_call(
    rows: &mut Vec<Items<usize>>,
    place: usize,
    encoding: &Encoding,
) -> Result<(), AllocError>
    ensures { IfOk result (λ u. rows.new.items ≡ spec.noted place (λ k. is_call k encoding.now) rows.old.items) }
{
    match encoding {
        Encoding::Bare => Ok(()),
        Encoding::Library(_) => Ok(()),
        Encoding::Call { method, .. } => note_at(rows, place, *method),
    }
}

fn note_format(
    rows: &mut Vec<Items<usize>>,
    place: usize,
    format: &Format,
) -> Result<(), AllocError>
    ensures { IfOk result (λ u. rows.new.items ≡ spec.noted place (λ k. calls k format.now) rows.old.items) }
{
    for field in format.fields.as_slice() {
        note_call(rows, place, field.encoding.get())?;
    }
    Ok(())
}

fn note_method(
    rows: &mut Vec<Items<usize>>,
    place: usize,
    method: &Method,
) -> Result<(), AllocError>
    ensures { IfOk result (λ u. rows.new.items ≡ spec.noted place (λ k. spec.is_caller k method.now) rows.old.items) }
{
    for format in method.formats.as_slice() {
        note_format(rows, place, format)?;
    }
    Ok(())
}

fn no_callers(alloc: Global, methods: &[Method]) -> Result<Vec<Items<usize>>, AllocError>
    ensures { IfOk result (λ rows. rows.items ≡ map (λ m. []) methods.now) }
{
    let mut rows = Vec::new(alloc);
    for _ in methods {
        rows.push(Items::new(alloc))?;
    }
    Ok(rows)
}

/// For each method the places of the methods that call it, in rising order.
pub(crate) fn caller_table(
    alloc: Global,
    methods: &[Method],
) -> Result<Vec<Items<usize>>, AllocError>
    ensures { IfOk result (λ rows. rows.items ≡ spec.caller_table methods.now) }
{
    let mut rows = no_callers(alloc, methods)?;
    let mut place = 0;
    for method in methods {
        note_method(&mut rows, place, method)?;
        place += 1;
    }
    Ok(rows)
}

/// The places of the callers of a method.
pub(crate) fn callers_at<'a>(rows: &'a [Items<usize>], method: usize) -> &'a [usize]
    ensures { result.now ≡ spec.row_at rows.now method }
{
    match at(rows, method) {
        Some(row) => row.as_slice(),
        None => &[],
    }
}
