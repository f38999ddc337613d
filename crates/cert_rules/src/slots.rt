//! What a walk has learnt of the fields of a format.

use sem_bits::Bits;
use sem_filling::Filling;

/// What is known of one side of a field: nothing, its length, or its bits.
#[derive(Drop)]
pub enum Learnt {
    Nothing,
    Length(usize),
    Whole(Bits),
}

/// What is known of a field: its two sides, and the filling of the method that it calls.
#[derive(Drop)]
pub struct Slot {
    pub uncompressed: Learnt,
    pub compressed: Learnt,
    pub inner: Option<Filling>,
}
