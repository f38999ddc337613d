//! The types of pages.

use crate::word::Word;
use sqlite_items::Items;

/// A format of a method, by its index, with both sides of each of its fields in field order.
#[derive(Drop)]
#[cycle(page)]
pub struct Page {
    pub format: usize,
    pub fields: Items<Shown>,
}

/// Both sides of a field, each once it is read, and the page inside it where it calls a method.
#[derive(Drop)]
#[cycle(page)]
pub struct Shown {
    pub uncompressed: Option<Word>,
    pub compressed: Option<Word>,
    pub inner: Option<Page>,
}

/// Both sides of a field that is read.
#[derive(Clone, Copy)]
pub struct BothSides {
    pub uncompressed: Word,
    pub compressed: Word,
}
