//! The values of expressions by what is known.

ghost use Rattle.std.specs.Prelude.{◌≡◌, ◌<◌, ◌^◌, IfOk, length, map};
ghost use Rattle.sem_expr.specs.Known.{assignment_of, measured, numbers_at, side_numbers};
ghost use Rattle.sem_filling.specs.Fits.{vals};
ghost use Rattle.sem_filling.specs.Level.{AllRanged};
ghost use Rattle.cert_rules.specs.Numbers as numbers;
ghost use Rattle.walk_steps.specs.Fronts.{IsMeasured};
ghost use Rattle.walk_steps.specs.Joined.{joined_bits};
ghost use Rattle.walk_steps.specs.Partial.{joined_numbers, whole_numbers};
ghost use Rattle.walk_steps.specs.LevelNumbers as spec;

use crate::fronts::{Front, Fronts, length_by};
use crate::side::{bits_of, length_of};
use crate::side_lists::joined_value;
use cert_rules::{Learnt, Slot};
use sem_expr::{Attribute, Expr, Measure, Side, Subject, Valuation, value};
use sqlite_items::{Items, at};
use std::alloc::{AllocError, Global};

/// What expressions are evaluated by: what is known of the fields, the fields whose sides are joined to those of the whole, how far these are measured, and the
/// arguments.
#[derive(Clone, Copy)]
pub(crate) struct LevelNumbers<'a> {
    pub(crate) slots: &'a [Slot],
    pub(crate) headers: &'a [usize],
    pub(crate) listing: &'a [usize],
    pub(crate) fronts: Fronts,
    pub(crate) parameters: &'a [i128],
}

impl<'a> Valuation for LevelNumbers<'a> {
    ghost assignment = { λ s. assignment_of (spec.known_in s) };

    ghost is_ready = { spec.IsClear };

    fn parameter(&self, index: usize) -> Option<i128> {
        self.parameters.get(index).copied()
    }

    fn attribute(&self, attribute: Attribute) -> Option<i128> {
        match attribute.subject {
            Subject::This => whole_number(self, attribute.side, attribute.measure),
            Subject::Field(index) => {
                field_number(self.slots, index, attribute.side, attribute.measure)
            }
        }
    }
}

/// That of a side of the whole.
fn whole_number(sight: &LevelNumbers<'_>, side: Side, measure: Measure) -> Option<i128>
    requires { spec.IsClear sight.now }
    ensures { result ≡ measured (side_numbers (whole_numbers sight.now.slots.now sight.now.headers.now sight.now.listing.now) side) measure }
{
    let fronts = sight.fronts;
    match side {
        Side::Uncompressed => joined_number(
            fronts.uncompressed,
            sight.slots,
            Side::Uncompressed,
            sight.headers,
            measure,
        ),
        Side::Compressed => joined_number(
            fronts.compressed,
            sight.slots,
            Side::Compressed,
            sight.listing,
            measure,
        ),
    }
}

/// That of the parts of a side, joined.
fn joined_number(
    front: Front,
    slots: &[Slot],
    side: Side,
    parts: &[usize],
    measure: Measure,
) -> Option<i128>
    requires measured { IsMeasured slots.now side parts.now front }
    requires short { length (joined_bits slots.now side parts.now) < 2 ^ 31 }
    ensures { result ≡ measured (joined_numbers slots.now side parts.now) measure }
{
    match measure {
        Measure::Value => joined_value(slots, side, parts).map(|number| number as i128),
        Measure::Length => length_by(front, slots, side, parts).map(|count| count as i128),
    }
}

/// That of a side of the field, none where there is no such field.
fn field_number(slots: &[Slot], index: usize, side: Side, measure: Measure) -> Option<i128>
    ensures { result ≡ measured (side_numbers (numbers_at (map numbers.slot_numbers slots.now) index) side) measure }
{
    let slot = at(slots, index)?;
    match side {
        Side::Uncompressed => side_number(&slot.uncompressed, measure),
        Side::Compressed => side_number(&slot.compressed, measure),
    }
}

fn side_number(known: &Learnt, measure: Measure) -> Option<i128>
    ensures { result ≡ measured (numbers.learnt_numbers known.now) measure }
{
    match measure {
        Measure::Value => value_of(known),
        Measure::Length => length_of(known).map(|count| count as i128),
    }
}

fn value_of(known: &Learnt) -> Option<i128>
    ensures { result ≡ (numbers.learnt_numbers known.now).value }
{
    let bits = bits_of(known)?;
    bits.value().map(|number| number as i128)
}

/// The values of several expressions, where each has one.
pub(crate) fn values_in(
    alloc: Global,
    exprs: &[Expr],
    sight: &LevelNumbers<'_>,
) -> Result<Option<Items<i128>>, AllocError>
    requires ranged { AllRanged (spec.known_in sight.now) exprs.now }
    requires clear { spec.IsClear sight.now }
    ensures { IfOk result (λ o. o ≡ vals (assignment_of (spec.known_in sight.now)) exprs.now) }
{
    let mut values = Items::new(alloc);
    for expr in exprs {
        let Some(number) = value(expr, sight) else {
            return Ok(None);
        };
        values.push(number)?;
    }
    Ok(Some(values))
}
