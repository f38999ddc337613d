//! What may stand against a format. Who finds it stands in sem_reasons.

use crate::obstacle::Obstacle;
use sem_bits::Bits;
use sem_expr::{Input, Side};
use sqlite_items::Items;
use text_source::Span;

/// An attribute or a parameter, and the number that it has.
#[derive(Clone, Copy)]
pub struct Figure {
    pub input: Input,
    pub value: i128,
}

/// What has no value, by its index: an argument of what encodes this field, or this constraint, which is a condition.
#[derive(Clone, Copy)]
pub enum Within {
    Argument(usize),
    Condition(usize),
}

/// What stands against a format, so that no filling of it is asked for. Fields and constraints go by their indices, lengths are in bits.
#[derive(Drop)]
pub enum Reason {
    /// No filling of the format fits, whatever is asked for.
    Dead(Obstacle),
    /// There are fewer bits than any filling of the format has.
    Short {
        length: usize,
        least: u128,
    },
    /// There are more.
    Long {
        length: usize,
        most: u128,
    },
    /// The field begins where fewer bits are left than it has.
    Cut {
        field: usize,
        left: usize,
        due: u128,
    },
    /// The field is encoded by `static` or `lsb`, and there is neither an entry at its path nor a value of INITIAL.
    NoReference {
        field: usize,
        path: String,
    },
    /// The side of the field has the bits that were found, and its method asks for others.
    Differs {
        field: usize,
        side: Side,
        found: Bits,
        due: Bits,
    },
    /// The side of the field has bits with which its method goes with no other side.
    NoSide {
        field: usize,
        side: Side,
        found: Bits,
    },
    /// The constraint is a condition that is false, by numbers of which these are known.
    Untrue {
        constraint: usize,
        figures: Items<Figure>,
    },
    /// An argument or a condition has no value: the part of it at this place divides by 0.
    Undefined {
        at: Span,
        within: Within,
    },
    /// Something stands against each format of the method that the field calls.
    Inside {
        field: usize,
    },
    /// Nothing that is looked at here.
    Nothing,
}

/// What stands against a format of a method, both by their indices. At the top the depth is 0, and a method that a field calls is one deeper.
#[derive(Drop)]
pub struct Line {
    pub depth: usize,
    pub method: usize,
    pub format: usize,
    pub reason: Reason,
}
