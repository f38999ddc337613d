//! Where in the text of a profile something stands.

use sem_expr::{Expr, Subject};
use sem_profile::{CrcArguments, Encoding, Field, Format, Library};
use std::alloc::{AllocError, Global};
use text_source::{Span, line_column};
use tool_names::obstacles::constraint_place;

/// `LINE:COLUMN` of a place, with a colon and a blank.
pub(crate) fn place_text(alloc: Global, octets: &[u8], place: Span) -> Result<String, AllocError> {
    let position = line_column(octets, place.from as usize);
    format!(in alloc; "{}:{}: ", position.line, position.column)
}

/// The place of a constraint, by its number: of its bracket, or of the first token of its conjunct.
pub(crate) fn constraint_at(format: &Format, number: usize) -> Option<Span> {
    let constraint = format.constraints.get(number)?;
    Some(constraint_place(constraint.get()))
}

/// Where an argument of a field's encoding names another field.
pub(crate) fn naming_place(field: &Field, named: usize) -> Option<Span> {
    match field.encoding.get() {
        Encoding::Bare => None,
        Encoding::Library(library) => in_library(library, named),
        Encoding::Call {
            method: _,
            arguments,
        } => in_all(arguments.as_slice(), named),
    }
}

fn in_library(library: &Library, named: usize) -> Option<Span> {
    match library {
        Library::UncompressedValue { length, value } => in_both(length, value, named),
        Library::CompressedValue { length, value } => in_both(length, value, named),
        Library::Irregular { length } => in_expr(length, named),
        Library::Static => None,
        Library::Lsb { bits, offset } => in_both(bits, offset, named),
        Library::Crc(crc) => in_crc(crc.get(), named),
    }
}

fn in_crc(crc: &CrcArguments, named: usize) -> Option<Span> {
    match in_both(&crc.bits, &crc.polynomial, named) {
        Some(place) => Some(place),
        None => in_both(&crc.initial, &crc.length, named),
    }
}

fn in_all(exprs: &[Expr], named: usize) -> Option<Span> {
    for expr in exprs {
        if let Some(place) = in_expr(expr, named) {
            return Some(place);
        }
    }
    None
}

fn in_both(left: &Expr, right: &Expr, named: usize) -> Option<Span> {
    match in_expr(left, named) {
        Some(place) => Some(place),
        None => in_expr(right, named),
    }
}

/// The place of the first attribute of the field in an expression.
fn in_expr(expr: &Expr, named: usize) -> Option<Span> {
    match expr {
        Expr::Number(_, _) => None,
        Expr::Parameter(_, _) => None,
        Expr::Attribute(place, attribute) => match attribute.subject {
            Subject::Field(field) => { if field == named { Some(*place) } else { None } }
            Subject::This => None,
        },
        Expr::Binary(_, _, left, right) => match in_expr(left, named) {
            Some(place) => Some(place),
            None => in_expr(right, named),
        },
    }
}
