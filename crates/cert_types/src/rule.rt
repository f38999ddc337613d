//! What a step of a plan needs, and what it gives.

use sem_expr::Side;
use sqlite_items::Items;

/// What may be known of a field.
#[derive(Clone, Copy)]
pub enum Fact {
    /// The length of a side of the field.
    LengthOf(Side, usize),
    /// The bits of a side of the field.
    BitsOf(Side, usize),
    /// The field was taken or called.
    Done(usize),
}

/// A step as a rule: what must be known, what must not be, and what is known after it.
#[derive(Drop)]
pub struct Rule {
    pub needs: Items<Fact>,
    pub absent: Items<Fact>,
    pub gives: Items<Fact>,
}
