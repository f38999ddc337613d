//! Arguments of library methods that never lie between the numbers that their method asks for.

ghost use Rattle.std.specs.Prelude.{◌≡◌, ◌↔◌, IsTrue, MatchOption, Ok};
ghost use Rattle.std.specs.Option.{option_or};
ghost use Rattle.sem_expr.specs.Bounds.{bounding_of};
ghost use Rattle.sem_expr.specs.Ranged.{ranged};
ghost use Rattle.sem_lint.specs.Attributes as attributes;
ghost use Rattle.sem_lint.specs.Demands as spec;

use crate::never::misses;
use sem_expr::{Attribute, Expr, Interval, Measure, Ranges, Side, Subject};
use sem_filling::obstacle::Unmet;
use sem_profile::{CrcArguments, Encoding, Field, Library};
use sqlite_items::at;
use text_source::Span;

/// How many bits a `crc` has.
const CRC_BITS: Interval = Interval { from: 1, to: 64 };

/// Of the first field that has such an argument, the first.
pub(crate) fn first_unmet(fields: &[Field], ranges: &Ranges) -> Option<Unmet>
    ensures { MatchOption result ((u : _) → spec.HasUnmet fields.now (bounding_of ranges.now) u → ⊥) (spec.HasUnmet fields.now (bounding_of ranges.now)) }
{
    for field in 0..fields.len() {
        if let Some(found) = unmet_at(fields, field, ranges) {
            return Some(found);
        }
    }
    None
}

fn unmet_at(fields: &[Field], index: usize, ranges: &Ranges) -> Option<Unmet>
    ensures { MatchOption result ((u : _) → spec.IsUnmetAt fields.now (bounding_of ranges.now) index u → ⊥) (spec.IsUnmetAt fields.now (bounding_of ranges.now) index) }
{
    match at(fields, index) {
        Some(field) => unmet_in(index, field.encoding.get(), ranges),
        None => None,
    }
}

fn unmet_in(index: usize, encoding: &Encoding, ranges: &Ranges) -> Option<Unmet>
    ensures { result ≡ spec.unmet_in (bounding_of ranges.now) index encoding.now }
{
    match encoding {
        Encoding::Library(library) => unmet_by(index, library, ranges),
        Encoding::Bare | Encoding::Call { .. } => None,
    }
}

fn unmet_by(index: usize, library: &Library, ranges: &Ranges) -> Option<Unmet>
    ensures { result ≡ spec.unmet_by (bounding_of ranges.now) index library.now }
{
    let field = Subject::Field(index);
    match library {
        Library::UncompressedValue { length, value } => {
            unmet_value(field, Side::Uncompressed, length, value, ranges)
        }
        Library::CompressedValue { length, value } => {
            unmet_value(field, Side::Compressed, length, value, ranges)
        }
        Library::Irregular { length } => either(
            missed(
                length,
                length_range(field, Side::Uncompressed, ranges),
                ranges,
            ),
            missed(
                length,
                length_range(field, Side::Compressed, ranges),
                ranges,
            ),
        ),
        Library::Static => None,
        Library::Lsb { bits, offset: _ } => {
            missed(bits, length_range(field, Side::Compressed, ranges), ranges)
        }
        Library::Crc(crc) => unmet_by_crc(index, crc.get(), ranges),
    }
}

/// Of a value in so many bits: the length is that of the side, and the value fits in it.
fn unmet_value(
    field: Subject,
    side: Side,
    length: &Expr,
    value: &Expr,
    ranges: &Ranges,
) -> Option<Unmet>
    ensures { result ≡ option_or (spec.missed (bounding_of ranges.now) length.now (attributes.length_range (bounding_of ranges.now) field side)) (spec.missed (bounding_of ranges.now) value.now (attributes.value_range (bounding_of ranges.now) field side)) }
{
    either(
        missed(length, length_range(field, side, ranges), ranges),
        missed(value, value_range(field, side, ranges), ranges),
    )
}

fn unmet_by_crc(index: usize, crc: &CrcArguments, ranges: &Ranges) -> Option<Unmet>
    ensures { result ≡ spec.unmet_by_crc (bounding_of ranges.now) index crc.now }
{
    let field = Subject::Field(index);
    let sent = length_range(field, Side::Compressed, ranges);
    let fitting = value_range(field, Side::Compressed, ranges);
    let covered = length_range(crc.subject, crc.side, ranges);
    either(
        either(
            missed(&crc.bits, CRC_BITS, ranges),
            missed(&crc.bits, sent, ranges),
        ),
        either(
            either(
                missed(&crc.polynomial, fitting, ranges),
                missed(&crc.initial, fitting, ranges),
            ),
            missed(&crc.length, covered, ranges),
        ),
    )
}

/// Whether the argument is never one of these numbers.
fn missed(expr: &Expr, due: Interval, ranges: &Ranges) -> Option<Unmet>
    ensures { result ≡ spec.missed (bounding_of ranges.now) expr.now due }
{
    if misses(expr, due, ranges) {
        Some(Unmet {
            at: place_of(expr),
            due,
        })
    } else {
        None
    }
}

fn place_of(expr: &Expr) -> Span
    ensures { result ≡ spec.place_of expr.now }
{
    match expr {
        Expr::Number(at, _)
        | Expr::Parameter(at, _)
        | Expr::Attribute(at, _)
        | Expr::Binary(at, _, _, _) => *at,
    }
}

/// The range of the length of a side.
pub(crate) fn length_range(subject: Subject, side: Side, ranges: &Ranges) -> Interval
    ensures { result ≡ attributes.length_range (bounding_of ranges.now) subject side }
{
    ranges.attribute(Attribute {
        subject,
        side,
        measure: Measure::Length,
    })
}

/// The range of the number that a side spells.
fn value_range(subject: Subject, side: Side, ranges: &Ranges) -> Interval
    ensures { result ≡ attributes.value_range (bounding_of ranges.now) subject side }
{
    ranges.attribute(Attribute {
        subject,
        side,
        measure: Measure::Value,
    })
}

fn either(one: Option<Unmet>, other: Option<Unmet>) -> Option<Unmet>
    ensures { result ≡ option_or one other }
{
    match one {
        Some(found) => Some(found),
        None => other,
    }
}
