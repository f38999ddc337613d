//! A level as its expressions see it on the way.

ghost use Rattle.std.specs.Prelude.{◌≡◌, IfSome, None, Some};
ghost use Rattle.sem_expr.specs.declared.expr.Subject.TheVariants as subject;
ghost use Rattle.sem_filling.specs.Fits.{measured};
ghost use Rattle.sem_pages.specs.Pages as spec;

use crate::page::Shown;
use crate::word::Word;
use sem_bits::Bits;
use sem_expr::{Attribute, Measure, Side, Subject};
use std::marker::Model;

/// What is seen of a level: what is there of its fields, the values of the parameters, and each side of the whole, once it is known.
#[derive(Drop)]
pub struct View<'a> {
    fields: &'a [Shown],
    arguments: &'a [i64],
    header: Option<&'a Bits>,
    packed: Option<&'a Bits>,
}

// Clauses see what is seen.
impl<'a> Model for View<'a> {
    ghost use Rattle.std.specs.Coded.{codes};
    ghost use Rattle.std.specs.Option.{option_copied};
    ghost use Rattle.sem_pages.specs.contracts.page.Shown as shown;
    ghost use Rattle.sem_pages.specs.Pages.{Seen};

    ghost Value = { Seen };

    ghost coded = { Prim.hlevel (codes, shown.the_row.coded) };

    ghost view = { λ v. record { fields = v.fields.now; arguments = v.arguments.now; header = option_copied v.header; packed = option_copied v.packed } };
}

impl<'a> View<'a> {
    /// What is seen on the way.
    #[inline(always)]
    pub fn of(fields: &'a [Shown], arguments: &'a [i64]) -> View<'a>
        ensures { result ≡ spec.seen_in fields.now arguments.now }
    {
        View {
            fields,
            arguments,
            header: None,
            packed: None,
        }
    }

    /// What is seen once the header is known.
    #[inline(always)]
    pub fn with_header(fields: &'a [Shown], arguments: &'a [i64], header: &'a Bits) -> View<'a>
        ensures { result ≡ record { fields = fields.now; arguments = arguments.now; header = Some header.now; packed = None } }
    {
        View {
            fields,
            arguments,
            header: Some(header),
            packed: None,
        }
    }

    /// What is seen at the end.
    #[inline(always)]
    pub fn at_end(
        fields: &'a [Shown],
        arguments: &'a [i64],
        header: &'a Bits,
        packed: &'a Bits,
    ) -> View<'a>
        ensures { result ≡ spec.seen_at_end fields.now arguments.now record { header = header.now; packed = packed.now } }
    {
        View {
            fields,
            arguments,
            header: Some(header),
            packed: Some(packed),
        }
    }

    /// The value of a parameter.
    #[inline(always)]
    pub fn parameter(&self, index: usize) -> Option<i64>
        ensures { result ≡ (spec.numbers_seen self.now).parameter index }
    {
        self.arguments.get(index).copied()
    }

    /// The number of an attribute, where it is known and 64 bits hold it.
    #[inline(always)]
    pub fn attribute(&self, attribute: Attribute) -> Option<i64>
        ensures { IfSome result (λ v. (spec.numbers_seen self.now).attribute attribute ≡ Some v) }
    {
        match attribute.subject {
            Subject::Field(index) => {
                let word = self.word(index, attribute.side)?;
                number_of(&word, attribute.measure)
            }
            Subject::This => {
                let bits = self.whole_side(attribute.side)?;
                number_of_bits(bits, attribute.measure)
            }
        }
    }

    /// The bits of the side of the field, once they are read.
    #[inline(always)]
    pub fn word(&self, index: usize, side: Side) -> Option<Word>
        ensures { IfSome result (λ w. spec.seen_side self.now (subject.Field index) side ≡ Some w) }
    {
        let shown = self.fields.get(index)?;
        match side {
            Side::Uncompressed => shown.uncompressed,
            Side::Compressed => shown.compressed,
        }
    }

    /// The bits of the side of the whole, once they are known.
    pub fn whole_side(&self, side: Side) -> Option<&Bits>
        ensures { IfSome result (λ b. spec.seen_side self.now subject.This side ≡ Some b.now) }
    {
        match side {
            Side::Uncompressed => self.header,
            Side::Compressed => self.packed,
        }
    }
}

/// The number that the bits spell, or how many they are, where 64 bits with a sign hold it.
#[inline(always)]
fn number_of(word: &Word, measure: Measure) -> Option<i64>
    ensures { IfSome result (λ v. measured measure word.now ≡ v) }
{
    match measure {
        Measure::Value => match i64::try_from(word.value()) {
            Ok(number) => Some(number),
            Err(_) => None,
        },
        Measure::Length => Some(word.len() as i64),
    }
}

/// The same of any bits.
#[inline(never)]
fn number_of_bits(bits: &Bits, measure: Measure) -> Option<i64>
    ensures { IfSome result (λ v. measured measure bits.now ≡ v) }
{
    match measure {
        Measure::Value => match i64::try_from(bits.value()?) {
            Ok(number) => Some(number),
            Err(_) => None,
        },
        Measure::Length => Some(bits.len() as i64),
    }
}
