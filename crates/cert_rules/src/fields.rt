//! What the rules ask of a field: whether it is a header field, whether it calls a method, and which argument is a length.

ghost use Rattle.std.specs.Prelude.{◌≡◌};
ghost use Rattle.std.specs.Option.{option_copied};
ghost use Rattle.sem_profile.specs.HasBounds as bounds;
ghost use Rattle.sem_filling.specs.Fillings as fillings;
ghost use Rattle.cert_rules.specs.Rules as spec;

use sem_expr::{Expr, Side};
use sem_profile::{Encoding, Field, Library, Part};

/// Whether the field is a header field.
pub fn is_header(field: &Field) -> bool
    ensures { result ≡ fillings.is_header field.now.declared.part }
{
    match field.declared.part {
        Part::Header => true,
        Part::Control | Part::Local => false,
    }
}

/// Whether the field calls a method of the profile.
pub fn is_call(encoding: &Encoding) -> bool
    ensures { result ≡ spec.is_call encoding.now }
{
    match encoding {
        Encoding::Call { .. } => true,
        Encoding::Bare | Encoding::Library(_) => false,
    }
}

/// The argument that is the length of the side, if one is.
pub fn size_of(side: Side, library: &Library) -> Option<&Expr>
    ensures { option_copied result ≡ bounds.size_of side library.now }
{
    match side {
        Side::Uncompressed => match library {
            Library::UncompressedValue { length, .. } | Library::Irregular { length } => {
                Some(length)
            }
            Library::CompressedValue { .. }
            | Library::Static
            | Library::Lsb { .. }
            | Library::Crc(_) => None,
        },
        Side::Compressed => match library {
            Library::CompressedValue { length, .. } | Library::Irregular { length } => Some(length),
            Library::Lsb { bits, .. } => Some(bits),
            Library::Crc(crc) => Some(&crc.get().bits),
            Library::UncompressedValue { .. } | Library::Static => None,
        },
    }
}
