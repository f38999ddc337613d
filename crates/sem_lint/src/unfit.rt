//! Library methods that can't do what they are asked.

ghost use Rattle.std.specs.Prelude.{◌≡◌, ◌↔◌, MatchOption, IsTrue};
ghost use Rattle.std.specs.Option.{option_copied};
ghost use Rattle.sem_profile.specs.BoundsFaults.{side_bounds};
ghost use Rattle.sem_profile.specs.BoundsFaults as bounds;
ghost use Rattle.sem_lint.specs.Obstacles as spec;

use sem_expr::{Side, Subject};
use sem_profile::{Bounds, CrcArguments, Encoding, Field, FormatSizes, Library, Sizes};
use sqlite_items::at;

/// The bits of an octet.
const OCTET: u128 = 8;

const EMPTY: Bounds = Bounds { least: 0, most: 0 };

/// The first field whose `lsb` sends more bits than the field has in the header.
pub(crate) fn sends_more(fields: &[Field], sizes: &[Sizes]) -> Option<usize>
    ensures { MatchOption result ((i : _) → spec.SendsMore fields.now sizes.now i → ⊥) (spec.SendsMore fields.now sizes.now) }
{
    for field in 0..fields.len() {
        if sends_more_at(fields, sizes, field) {
            return Some(field);
        }
    }
    None
}

fn sends_more_at(fields: &[Field], sizes: &[Sizes], index: usize) -> bool
    ensures { IsTrue result ↔ spec.SendsMore fields.now sizes.now index }
{
    let Some(field) = at(fields, index) else {
        return false;
    };
    let Some(bounds) = at(sizes, index) else {
        return false;
    };
    is_lsb(field.encoding.get()) && bounds.uncompressed.most < bounds.compressed.least
}

fn is_lsb(encoding: &Encoding) -> bool
    ensures { result ≡ spec.is_lsb encoding.now }
{
    match encoding {
        Encoding::Library(Library::Lsb { .. }) => true,
        _ => false,
    }
}

/// The first field that is a `crc` over bits that are never whole octets.
pub(crate) fn splits_octets(fields: &[Field], sizes: &FormatSizes) -> Option<usize>
    ensures { MatchOption result ((i : _) → spec.SplitsOctets fields.now sizes.now i → ⊥) (spec.SplitsOctets fields.now sizes.now) }
{
    for field in 0..fields.len() {
        if splits_octets_at(fields, sizes, field) {
            return Some(field);
        }
    }
    None
}

fn splits_octets_at(fields: &[Field], sizes: &FormatSizes, index: usize) -> bool
    ensures { IsTrue result ↔ spec.SplitsOctets fields.now sizes.now index }
{
    let Some(field) = at(fields, index) else {
        return false;
    };
    let Some(crc) = crc_in(field.encoding.get()) else {
        return false;
    };
    are_split(bounds_of(sizes, crc.subject, crc.side))
}

/// The arguments of a `crc`.
pub(crate) fn crc_in(encoding: &Encoding) -> Option<&CrcArguments>
    ensures { option_copied result ≡ spec.crc_in encoding.now }
{
    match encoding {
        Encoding::Library(Library::Crc(crc)) => Some(crc.get()),
        _ => None,
    }
}

/// Whether no length within the bounds is a number of whole octets.
fn are_split(bounds: Bounds) -> bool
    ensures { IsTrue result ↔ spec.AreSplit bounds }
{
    bounds.most - bounds.most % OCTET < bounds.least
}

/// The bounds of a side of a field or of the whole.
fn bounds_of(sizes: &FormatSizes, subject: Subject, side: Side) -> Bounds
    ensures { result ≡ side_bounds side (bounds.subject_sizes sizes.now subject) }
{
    let both = subject_sizes(sizes, subject);
    match side {
        Side::Uncompressed => both.uncompressed,
        Side::Compressed => both.compressed,
    }
}

fn subject_sizes(sizes: &FormatSizes, subject: Subject) -> Sizes
    ensures { result ≡ bounds.subject_sizes sizes.now subject }
{
    match subject {
        Subject::This => sizes.whole,
        Subject::Field(index) => match sizes.fields.get(index) {
            Some(field) => *field,
            None => Sizes {
                uncompressed: EMPTY,
                compressed: EMPTY,
            },
        },
    }
}
