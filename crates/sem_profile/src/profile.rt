//! The methods of a profile in their normal form, and the bounds on their lengths.

use crate::name::Name;
use crate::shared::Shared;
use sem_bits::Bits;
use sem_expr::{Cond, Expr, Interval, Side, Subject};
use sqlite_items::{Boxed, Items};
use text_source::Span;

/// Which list of a method declares a field (RFC 4997, section 4.10).
#[derive(Clone, Copy, PartialEq, Eq)]
pub enum Part {
    /// UNCOMPRESSED: a field of the header.
    Header,
    /// CONTROL: a field that is in no header, and that the context holds.
    Control,
    /// A COMPRESSED section alone: a field of that format, which is in no header and no context.
    Local,
}

/// A field as each filling shows it.
#[derive(Drop)]
pub struct Declared {
    pub name: Name,
    pub part: Part,
    /// Whether the packer is given its value: a control field of the top method, see docs/NOTATION.md.
    pub asked: bool,
}

/// A library method with its arguments (RFC 4997, section 4.11).
#[derive(Drop)]
pub enum Library {
    UncompressedValue { length: Expr, value: Expr },
    CompressedValue { length: Expr, value: Expr },
    Irregular { length: Expr },
    Static,
    Lsb { bits: Expr, offset: Expr },
    Crc(Boxed<CrcArguments>),
}

/// The arguments of `crc`. Its data are the bits of a side of a field or of the whole.
#[derive(Drop)]
pub struct CrcArguments {
    pub bits: Expr,
    pub polynomial: Expr,
    pub initial: Expr,
    pub subject: Subject,
    pub side: Side,
    pub length: Expr,
}

/// How a field is encoded in a format.
#[derive(Drop)]
pub enum Encoding {
    /// No encoding.
    Bare,
    Library(Library),
    /// A method of the profile, by its index, with its arguments.
    Call {
        method: usize,
        arguments: Items<Expr>,
    },
}

/// A field of a format.
#[derive(Drop)]
pub struct Field {
    pub declared: Declared,
    pub encoding: Shared<Encoding>,
    /// The context's value while it holds none, from INITIAL.
    pub initial: Option<Bits>,
}

/// A numbered constraint of a format.
#[derive(Drop)]
pub enum Constraint {
    /// The length of a side of the field, by its index, is the value of one of the expressions. The place is that of the bracket.
    Bracket {
        field: usize,
        side: Side,
        lengths: Items<Expr>,
        place: Span,
    },
    /// A conjunct of an ENFORCE, with the place of its first token.
    Enforce {
        condition: Boxed<Cond>,
        place: Span,
    },
}

/// A format: its fields in field order, which of them it lists by their indices, and its constraints by their numbers.
#[derive(Drop)]
pub struct Format {
    pub name: Option<Name>,
    pub fields: Items<Field>,
    pub listing: Shared<Items<usize>>,
    pub constraints: Items<Shared<Constraint>>,
}

/// A method: its name with its place in the text, its parameters and its formats.
#[derive(Drop)]
pub struct Method {
    pub name: Name,
    pub place: Span,
    pub parameters: Items<Name>,
    pub formats: Items<Format>,
}

/// The least and the greatest length, in bits. The least may be above the greatest: then no length is right.
#[derive(Clone, Copy, PartialEq, Eq)]
pub struct Bounds {
    pub least: u128,
    pub most: u128,
}

/// Bounds on the lengths of both sides.
#[derive(Clone, Copy, PartialEq, Eq)]
pub struct Sizes {
    pub uncompressed: Bounds,
    pub compressed: Bounds,
}

/// The bounds of a format: those of its fields in field order; of its header and of its packed bits.
#[derive(Drop)]
pub struct FormatSizes {
    pub fields: Items<Sizes>,
    pub whole: Sizes,
}

/// The bounds of a method: those of its formats, their hull, and the ranges of its parameters.
#[derive(Drop)]
pub struct MethodSizes {
    pub formats: Items<FormatSizes>,
    pub whole: Sizes,
    pub parameters: Items<Interval>,
}
