//! What is seen of a format.

use sem_bits::Bits;
use sqlite_items::Items;

/// The two sides of a field or of the whole, where they are told.
#[derive(Drop)]
pub struct ObservedSides {
    pub uncompressed: Option<Bits>,
    pub compressed: Option<Bits>,
}

/// What is seen of the fields of a format, in field order, and of its header and its packed bits.
#[derive(Drop)]
pub struct Observed {
    pub fields: Items<ObservedSides>,
    pub whole: ObservedSides,
}
