//! The rules of steps by a field's library method (RFC 4997, section 4.11).

ghost use Rattle.std.specs.Prelude.{◌≡◌, [], ◌∷◌, option_map};
ghost use Rattle.sem_profile.specs.declared.profile.Format.{Format};
ghost use Rattle.cert_rules.specs.Rules as spec;
ghost use Rattle.cert_types.specs.declared.rule.Fact.TheVariants as fact;
ghost use Rattle.cert_plans.specs.Needing.{told, facts_of_all};

use crate::few::FewFacts;
use crate::forms::rule;
use crate::needs::{Need, NeedRule};
use cert_rules::fields::size_of;
use sem_expr::Side;
use sem_profile::{Encoding, Library};

/// The rule by which the method gives the uncompressed side, where the field has a library method.
pub(crate) fn library_up<'a>(field: usize, encoding: &'a Encoding) -> Option<NeedRule<'a>>
    ensures { (format : Format) → option_map (told format) result ≡ spec.by_library (spec.up_needs format field) (fact.LengthOf Side.Uncompressed field ∷ fact.BitsOf Side.Uncompressed field ∷ []) encoding.now }
{
    let Encoding::Library(library) = encoding else {
        return None;
    };
    let gives = FewFacts::Whole(Side::Uncompressed, field);
    Some(rule(up_needs(field, library), gives))
}

/// The rule by which the method gives the compressed side, likewise.
pub(crate) fn library_down<'a>(field: usize, encoding: &'a Encoding) -> Option<NeedRule<'a>>
    ensures { (format : Format) → option_map (told format) result ≡ spec.by_library (spec.down_needs format field) (fact.LengthOf Side.Compressed field ∷ fact.BitsOf Side.Compressed field ∷ []) encoding.now }
{
    let Encoding::Library(library) = encoding else {
        return None;
    };
    let gives = FewFacts::Whole(Side::Compressed, field);
    Some(rule(down_needs(field, library), gives))
}

/// The rule by which the method gives the length of a side, likewise.
pub(crate) fn method_length<'a>(
    field: usize,
    side: Side,
    encoding: &'a Encoding,
) -> Option<NeedRule<'a>>
    ensures { (format : Format) → option_map (told format) result ≡ spec.by_library (spec.length_needs format side) (fact.LengthOf side field ∷ []) encoding.now }
{
    let Encoding::Library(library) = encoding else {
        return None;
    };
    let gives = FewFacts::Length(side, field);
    Some(rule(length_needs(side, library), gives))
}

/// What the method needs to give the uncompressed side.
fn up_needs<'a>(field: usize, library: &'a Library) -> [Need<'a>; 3]
    ensures { (format : Format) → facts_of_all format result ≡ spec.up_needs format field library.now }
{
    match library {
        Library::UncompressedValue { length, value } => {
            [Need::Inputs(length), Need::Inputs(value), Need::Nothing]
        }
        Library::Irregular { .. } => [
            Need::Bits(Side::Compressed, field),
            Need::Nothing,
            Need::Nothing,
        ],
        Library::Lsb { bits, offset } => [
            Need::Bits(Side::Compressed, field),
            Need::Inputs(bits),
            Need::Inputs(offset),
        ],
        Library::CompressedValue { .. } | Library::Static | Library::Crc(_) => [
            Need::Nothing,
            Need::Nothing,
            Need::Nothing,
        ],
    }
}

/// What the method needs to give the compressed side.
fn down_needs<'a>(field: usize, library: &'a Library) -> [Need<'a>; 3]
    ensures { (format : Format) → facts_of_all format result ≡ spec.down_needs format field library.now }
{
    match library {
        Library::CompressedValue { length, value } => {
            [Need::Inputs(length), Need::Inputs(value), Need::Nothing]
        }
        Library::Irregular { .. } => [
            Need::Bits(Side::Uncompressed, field),
            Need::Nothing,
            Need::Nothing,
        ],
        Library::Lsb { bits, .. } => [
            Need::Bits(Side::Uncompressed, field),
            Need::Inputs(bits),
            Need::Nothing,
        ],
        Library::Crc(crc) => [Need::Crc(crc.get()), Need::Nothing, Need::Nothing],
        Library::UncompressedValue { .. } | Library::Static => [
            Need::Nothing,
            Need::Nothing,
            Need::Nothing,
        ],
    }
}

/// What the method needs to tell the length of a side.
fn length_needs<'a>(side: Side, library: &'a Library) -> [Need<'a>; 3]
    ensures { (format : Format) → facts_of_all format result ≡ spec.length_needs format side library.now }
{
    match size_of(side, library) {
        Some(length) => [Need::Inputs(length), Need::Nothing, Need::Nothing],
        None => [Need::Nothing, Need::Nothing, Need::Nothing],
    }
}
