//! What a rule needs, told by the expressions and the places that need it. None of it is written out as a list of facts.

use crate::few::FewFacts;
use sem_expr::{Expr, Side};
use sem_profile::CrcArguments;
use sqlite_items::Items;

/// A part of what a rule needs.
#[derive(Clone, Copy)]
pub enum Need<'a> {
    Nothing,
    /// The length of a side of the field.
    Length(Side, usize),
    /// The bits of a side of the field.
    Bits(Side, usize),
    /// What the expression needs.
    Inputs(&'a Expr),
    /// What the expressions need.
    Arguments(&'a Items<Expr>),
    /// The bits that a crc covers, and what its arguments need.
    Crc(&'a CrcArguments),
    /// That the fields listed before the first place of this one are done.
    ListedBefore(usize),
    /// That the header fields before this one are done.
    HeadersBefore(usize),
}

/// A rule by its needs, of which there are at most three.
#[derive(Clone, Copy)]
pub struct NeedRule<'a> {
    pub needs: [Need<'a>; 3],
    pub absent: FewFacts,
    pub gives: FewFacts,
}
