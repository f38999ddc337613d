//! The numbers of a level, read off where an expression asks for them.

ghost use Rattle.std.specs.Prelude.{◌≡◌, ◌↔◌, [], IsTrue, IfOk, Some, None, false, map};
ghost use Rattle.sem_expr.specs.Known.{assignment_of, measured, numbers_at, side_numbers};
ghost use Rattle.sem_expr.specs.Spread.{IsRanged};
ghost use Rattle.sem_expr.specs.Values.{val};
ghost use Rattle.sem_filling.specs.Fillings.{header, packed, level};
ghost use Rattle.sem_filling.specs.Fits.{vals};
ghost use Rattle.sem_filling.specs.Numbers as fits;
ghost use Rattle.sem_filling.specs.Level as spec;

use sem_bits::Bits;
use sem_expr::{Attribute, Expr, Measure, Side, Subject, Valuation, operand};
use sem_filling::Filling;
use smallvec::SmallVec;
use std::alloc::AllocError;
use std::marker::Model;

/// The numbers of the fields, of the whole and of the arguments.
#[derive(Drop)]
pub struct FillingNumbers<'a> {
    filling: &'a Filling,
    header: &'a Bits,
    packed: &'a Bits,
    arguments: &'a [i128],
}

// Clauses see the known numbers.
impl<'a> Model for FillingNumbers<'a> {
    ghost use Rattle.std.specs.Prelude.{◌≡◌};
    ghost use Rattle.sem_expr.specs.declared.known.Known.{Known};
    ghost use Rattle.sem_filling.specs.Fillings as sides;
    ghost use Rattle.sem_filling.specs.Numbers.{known_level};

    ghost Value = { Known };

    ghost view = { λ s. known_level s.filling.now s.arguments.now };

    ghost invariant = { λ s. (s.header.now ≡ sides.header s.filling.now) × (s.packed.now ≡ sides.packed s.filling.now) };
}

impl<'a> FillingNumbers<'a> {
    /// The numbers of a filling, where its header and its packed bits are these.
    pub fn of(
        filling: &'a Filling,
        header_bits: &'a Bits,
        packed_bits: &'a Bits,
        arguments: &'a [i128],
    ) -> FillingNumbers<'a>
        requires header { header_bits.now ≡ header filling.now }
        requires packed { packed_bits.now ≡ packed filling.now }
        ensures { result ≡ fits.known_level filling.now arguments.now }
    {
        FillingNumbers {
            filling,
            header: header_bits,
            packed: packed_bits,
            arguments,
        }
    }

    /// That of a side of the whole.
    fn whole(&self, side: Side, measure: Measure) -> Option<i128>
        ensures { result ≡ measured (side_numbers self.now.whole side) measure }
    {
        match side {
            Side::Uncompressed => number_of(self.header, measure),
            Side::Compressed => number_of(self.packed, measure),
        }
    }
}

impl<'a> Valuation for FillingNumbers<'a> {
    ghost assignment = { assignment_of };

    fn parameter(&self, index: usize) -> Option<i128> {
        self.arguments.get(index).copied()
    }

    fn attribute(&self, attribute: Attribute) -> Option<i128> {
        match attribute.subject {
            Subject::This => self.whole(attribute.side, attribute.measure),
            Subject::Field(index) => {
                field_number(self.filling, index, attribute.side, attribute.measure)
            }
        }
    }
}

/// That of a side of the field, none where there is no such field.
fn field_number(filling: &Filling, index: usize, side: Side, measure: Measure) -> Option<i128>
    ensures { result ≡ measured (side_numbers (numbers_at (map fits.numbers_of (level filling.now)) index) side) measure }
{
    let filled = filling.fields.get(index)?;
    match side {
        Side::Uncompressed => number_of(&filled.uncompressed, measure),
        Side::Compressed => number_of(&filled.compressed, measure),
    }
}

/// The number that bits spell, up to 64 of them, or how many they are.
fn number_of(bits: &Bits, measure: Measure) -> Option<i128>
    ensures { result ≡ measured (fits.numbers bits.now) measure }
{
    match measure {
        Measure::Value => bits.value().map(|number| number as i128),
        Measure::Length => Some(bits.len() as i128),
    }
}

/// The value of an expression, where it has one.
pub fn number_in(expression: &Expr, seen: &FillingNumbers<'_>) -> Option<i128>
    requires { IsRanged (assignment_of seen.now) expression.now }
    ensures { result ≡ val (assignment_of seen.now) expression.now }
{
    operand(expression, seen)
}

/// Whether the expression, which is no plain number, has that value.
#[inline(never)]
fn comes_to(expression: &Expr, seen: &FillingNumbers<'_>, number: i128) -> bool
    requires { IsRanged (assignment_of seen.now) expression.now }
    ensures { IsTrue result ↔ (val (assignment_of seen.now) expression.now ≡ Some number) }
{
    operand(expression, seen) == Some(number)
}

/// Whether the expression has that value.
#[inline(always)]
pub(crate) fn is_number(expression: &Expr, seen: &FillingNumbers<'_>, number: i128) -> bool
    requires { IsRanged (assignment_of seen.now) expression.now }
    ensures { IsTrue result ↔ (val (assignment_of seen.now) expression.now ≡ Some number) }
{
    match expression {
        Expr::Number(_, own) => *own == number,
        _ => comes_to(expression, seen, number),
    }
}

/// Makes an empty list that of the values of several expressions. Whether each of them has one.
pub fn add_values(
    expressions: &[Expr],
    seen: &FillingNumbers<'_>,
    values: &mut SmallVec<i128, 4>,
) -> Result<bool, AllocError>
    requires ranged { spec.AllRanged seen.now expressions.now }
    requires empty { values.old.items ≡ [] }
    ensures all { IfOk result (λ all. IsTrue all → vals (assignment_of seen.now) expressions.now ≡ Some values.new.items) }
    ensures none { IfOk result (λ all. all ≡ false → vals (assignment_of seen.now) expressions.now ≡ None) }
{
    for expression in expressions {
        let Some(number) = number_in(expression, seen) else {
            return Ok(false);
        };
        values.push(number)?;
    }
    Ok(true)
}
