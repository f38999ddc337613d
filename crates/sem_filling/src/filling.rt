//! The types of fillings and items.

use sem_bits::Bits;
use sem_profile::{Declared, Name, Shared};
use sqlite_items::Items;

/// A format of a method, by its index, with both sides of each of its fields in field order.
#[derive(Drop)]
#[cycle(filling)]
pub struct Filling {
    pub format: usize,
    /// The listed fields in the order of the packet, by their indices.
    pub listing: Shared<Items<usize>>,
    pub fields: Items<FilledField>,
}

/// A field with its two sides, and the filling of the method that it calls, if it calls one.
#[derive(Drop)]
#[cycle(filling)]
pub struct FilledField {
    pub declared: Declared,
    pub uncompressed: Bits,
    pub compressed: Bits,
    pub inner: Option<Filling>,
}

/// What a packer is given and an unpacker gives: a header, and the values of the asked fields in the order of CONTROL.
#[derive(Drop)]
pub struct Item {
    pub header: Bits,
    pub asked: Items<AskedValue>,
}

/// The value of an asked field, in bits.
#[derive(Drop)]
pub struct AskedValue {
    pub name: Name,
    pub bits: Bits,
}
