//! What is asked for.

use sem_bits::Bits;
use sem_context::Context;
use sem_expr::{Interval, Side};
use sem_filling::AskedValue;
use sem_lint::Judged;

/// What is asked for: fillings that fit a method of the judged profile, by its index, in the context and below the path of the field that they fill, which is empty at the
/// top. Their arguments lie in the ranges. That side of each, its header or its packed bits, begins the bits, or is all of them.
/// The first of its asked fields have the asked values, in order.
#[derive(Clone, Copy)]
pub struct Question<'a> {
    pub profile: &'a Judged<'a>,
    pub context: &'a Context,
    pub method: usize,
    pub parameters: &'a [Interval],
    pub path: &'a str,
    pub side: Side,
    pub bits: &'a Bits,
    pub is_whole: bool,
    pub asked: &'a [AskedValue],
}
