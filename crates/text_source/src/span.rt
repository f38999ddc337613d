//! Parts of a text.

/// A part of a text, in octets: from the first one up to the one after the last.
#[derive(Clone, Copy, Debug, PartialEq, Eq)]
pub struct Span {
    pub from: u32,
    pub to: u32,
}
