//! Where the fields of a header stand, as far as brackets tell it.

use crate::operations::Count;
use sem_expr::{Expr, Side};
use sem_profile::{Constraint, Format, Part};
use std::alloc::{AllocError, Global};

/// How many places after the begin of the header a field of it stands, and how many bits it has.
#[derive(Clone, Copy)]
pub(crate) struct HeaderPlace {
    pub(crate) place: usize,
    pub(crate) count: Count,
}

/// For each field of the format its place in the header, where the brackets of the header fields before it are numbers, and its own is a number or a parameter.
pub(crate) fn header_places(
    alloc: Global,
    format: &Format,
) -> Result<Vec<Option<HeaderPlace>>, AllocError> {
    let counts = bracket_counts(alloc, format)?;
    let mut places = Vec::with_capacity(alloc, counts.len())?;
    let mut next: Option<usize> = Some(0);
    for (field, count) in format.fields.as_slice().iter().zip(counts.as_slice()) {
        let Part::Header = field.declared.part else {
            places.push(None)?;
            continue;
        };
        places.push(match (next, *count) {
            (Some(place), Some(count)) => Some(HeaderPlace { place, count }),
            _ => None,
        })?;
        next = match (next, *count) {
            (Some(place), Some(Count::Number(bits))) => place.checked_add(bits),
            _ => None,
        };
    }
    Ok(places)
}

/// For each field how many bits its uncompressed side has, where a bracket says it by a number or a parameter.
fn bracket_counts(alloc: Global, format: &Format) -> Result<Vec<Option<Count>>, AllocError> {
    let mut counts = Vec::with_capacity(alloc, format.fields.len())?;
    for _ in 0..format.fields.len() {
        counts.push(None)?;
    }
    for constraint in format.constraints.as_slice() {
        if let Constraint::Bracket {
            field,
            side: Side::Uncompressed,
            lengths,
            place: _,
        } = constraint.get()
        {
            if *field < counts.len() && lengths.len() == 1 {
                counts[*field] = lengths.get(0).and_then(plain);
            }
        }
    }
    Ok(counts)
}

/// The count that an expression is, where it is a number or a parameter.
pub(crate) fn plain(expr: &Expr) -> Option<Count> {
    match expr {
        Expr::Number(_, number) => match usize::try_from(*number) {
            Ok(count) => Some(Count::Number(count)),
            Err(_) => None,
        },
        Expr::Parameter(_, index) => Some(Count::Parameter(*index)),
        Expr::Attribute(_, _) | Expr::Binary(_, _, _, _) => None,
    }
}
