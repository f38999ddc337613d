//! What a walk that writes takes from.

use sem_bits::Cursor;
use sem_filling::AskedValue;

/// What a candidate takes from: its header's bits begin so many places after the cursor's place, and its asked fields have these values.
#[derive(Clone, Copy)]
pub struct HeaderSource<'a> {
    pub cursor: &'a Cursor<'a>,
    pub from: usize,
    pub asked: &'a [AskedValue],
}
