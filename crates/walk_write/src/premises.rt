//! The values that the arguments and the choices tell, before a plan is followed.

ghost use Rattle.std.specs.Prelude.{◌≡◌, Some, [], IfOk, IfSome, IsTrue, slice_get};
ghost use Rattle.sem_expr.specs.Values.{apply, val};
ghost use Rattle.sem_filling.specs.Fits.{vals};
ghost use Rattle.walk_write.specs.Premises as spec;

use sem_expr::{Attribute, Expr, Measure, Operator, Side, Subject};
use sem_profile::{Encoding, Format, Library};
use smallvec::SmallVec;
use sqlite_items::at;
use std::alloc::AllocError;

/// A place of the context at which no entry stands.
pub(crate) const NOWHERE: usize = usize::MAX;

/// A field with the digit that chooses its bits.
#[derive(Clone, Copy, Default)]
pub(crate) struct Chosen {
    pub(crate) field: usize,
    pub(crate) digit: u64,
}

/// What is told of a format's fields: by the arguments, and by the choices so far.
#[derive(Clone, Copy)]
pub(crate) struct Premises<'a> {
    pub(crate) format: &'a Format,
    pub(crate) arguments: &'a [i128],
    pub(crate) choices: &'a [Chosen],
    /// For each field the place of the context at which its entry may stand; of fields without one nothing is said.
    pub(crate) places: &'a [usize],
}

impl<'a> Premises<'a> {
    /// The place of the context at which the entry of the field may stand.
    #[inline(always)]
    pub(crate) fn place_of(&self, field: usize) -> usize {
        match at(self.places, field) {
            Some(place) => *place,
            None => NOWHERE,
        }
    }

    /// The value of an expression, where what is told is enough for it. It isn't always found where it is.
    pub(crate) fn value(&self, expr: &Expr) -> Option<i128>
        ensures { IfSome result (λ v. val (spec.numbers self.now) expr.now ≡ Some v) }
    {
        // Most are numbers, for which nothing has to be called.
        match expr {
            Expr::Number(_, number) => Some(*number),
            _ => self.value_of(expr),
        }
    }

    #[inline(never)]
    fn value_of(&self, expr: &Expr) -> Option<i128>
        ensures { IfSome result (λ v. val (spec.numbers self.now) expr.now ≡ Some v) }
    {
        match expr {
            Expr::Number(_, number) => Some(*number),
            Expr::Parameter(_, index) => self.arguments.get(*index).copied(),
            Expr::Attribute(_, attribute) => self.attribute(*attribute),
            Expr::Binary(_, operator, left, right) => {
                // Of a long sum the last term is on the right: where that isn't told, nothing else has to be found.
                let right = self.value_of(right)?;
                let left = self.value_of(left)?;
                reckoned(*operator, left, right)
            }
        }
    }

    /// Whether one of the expressions has the field that was chosen last, or nothing is chosen. Else all that they are told was told before that choice.
    pub(crate) fn are_news(&self, exprs: &[Expr]) -> bool {
        match self.choices.last() {
            Some(chosen) => exprs.iter().any(|expr| has_field(expr, chosen.field)),
            None => true,
        }
    }

    fn attribute(&self, attribute: Attribute) -> Option<i128>
        ensures { IfSome result (λ v. spec.told_attribute self.now.format.now self.now.choices.now attribute ≡ Some v) }
    {
        let Subject::Field(field) = attribute.subject else {
            return None;
        };
        let Measure::Value = attribute.measure else {
            return None;
        };
        if !shows_choice(self.format, field, attribute.side) {
            return None;
        }
        let digit = digit_of(self.choices, field)?;
        Some(digit as i128)
    }
}

/// The values of a call's arguments. Most are few: these take no memory of their own.
pub(crate) type Values = SmallVec<i128, 4>;

/// Whether the value of each expression is told: then these are put into the list, which is empty before.
pub(crate) fn tells_values(
    told: &Premises<'_>,
    exprs: &[Expr],
    values: &mut Values,
) -> Result<bool, AllocError>
    requires empty { values.old.items ≡ [] }
    ensures { IfOk result (λ is. IsTrue is → vals (spec.numbers told.now) exprs.now ≡ Some values.new.items) }
{
    for expr in exprs {
        let Some(number) = told.value(expr) else {
            return Ok(false);
        };
        values.push(number)?;
    }
    Ok(true)
}

/// A sum, difference or product, where it has 128 bits; other operators aren't tried.
fn reckoned(operator: Operator, left: i128, right: i128) -> Option<i128>
    ensures { IfSome result (λ v. apply operator left right ≡ Some v) }
{
    match operator {
        Operator::Add => left.checked_add(right),
        Operator::Subtract => left.checked_sub(right),
        Operator::Multiply => left.checked_mul(right),
        Operator::Divide | Operator::Remainder | Operator::Power => None,
    }
}

/// Whether the side of a field is its uncompressed one, or is equal to that by its encoding.
fn shows_choice(format: &Format, field: usize, side: Side) -> bool
    ensures { result ≡ spec.shows_choice (slice_get format.now.fields field) side }
{
    match side {
        Side::Uncompressed => true,
        Side::Compressed => match at(format.fields.as_slice(), field) {
            Some(found) => is_irregular(found.encoding.get()),
            None => false,
        },
    }
}

fn is_irregular(encoding: &Encoding) -> bool
    ensures { result ≡ spec.is_irregular encoding.now }
{
    matches!(encoding, Encoding::Library(Library::Irregular { .. }))
}

/// Whether the expression has an attribute of the field.
fn has_field(expr: &Expr, field: usize) -> bool {
    match expr {
        Expr::Number(_, _) | Expr::Parameter(_, _) => false,
        Expr::Attribute(_, attribute) => attribute.subject == Subject::Field(field),
        Expr::Binary(_, _, left, right) => has_field(left, field) || has_field(right, field),
    }
}

/// The digit that chooses the bits of the field.
fn digit_of(choices: &[Chosen], field: usize) -> Option<u64>
    ensures { result ≡ spec.digit_of choices.now field }
{
    for chosen in choices {
        if chosen.field == field {
            return Some(chosen.digit);
        }
    }
    None
}
