//! What a format alone tells of each of its levels: so it is found once, and not for each packet.

ghost use Rattle.std.specs.Prelude.{◌≡◌, ◌+◌, ℕ, pos, List, IfOk, IfSome, IsTrue, OnOk, Some, length, slice_get};
ghost use Rattle.sem_profile.specs.declared.profile.Constraint.{Constraint};
ghost use Rattle.sem_pages.specs.declared.prepared.LengthTest.{LengthTest};
ghost use Rattle.sem_profile.specs.declared.profile.Field as normal;
ghost use Rattle.sem_pages.specs.Made.{AreMade};
ghost use Rattle.sem_pages.specs.Prepared as spec;

use crate::chains::{Chain, Operand, operand_of, value_by};
use crate::page::BothSides;
use crate::view::View;
use crate::word::Word;
use sem_expr::short::short;
use sem_expr::{Expr, Side};
use sem_profile::{Constraint, Encoding, Field, Format, Library};
use sqlite_items::{Items, at};
use std::alloc::{AllocError, Global};

/// A test of a bracket with one number: the side of the field has so many bits.
#[derive(Clone, Copy)]
pub struct LengthTest {
    pub field: usize,
    pub side: Side,
    pub count: usize,
}

/// A field that is worked out: it has no packed bits, and its uncompressed side is so many bits, which spell the value of the operand among the chains.
#[derive(Drop)]
pub struct Computed {
    pub(crate) count: usize,
    pub(crate) value: Operand,
    pub(crate) chains: Items<Chain>,
}

impl Computed {
    /// Both sides by what is seen, where the value is found and the bits can spell it.
    #[inline(always)]
    pub fn sides(&self, view: &View<'_>) -> Option<BothSides>
        ensures { (d : normal.Field) → spec.IsComputed d self.now → IfSome result (λ b. spec.IsReadOn view.now d b.uncompressed b.compressed) }
    {
        let value = value_by(self.chains.as_slice(), self.value, view)?;
        let number = u64::try_from(value).ok()?;
        let uncompressed = Word::spelled(self.count, number)?;
        Some(BothSides {
            uncompressed,
            compressed: Word::new(),
        })
    }
}

/// What a format tells of its levels: both sides of the fields that are constants, and how others are worked out, each in field order; the tests of its brackets with
/// one number; and its other constraints, by their indices.
#[derive(Drop)]
pub struct Prepared {
    pub constants: Items<Option<BothSides>>,
    pub computed: Items<Option<Computed>>,
    pub lengths: Items<LengthTest>,
    pub settled: Items<LengthTest>,
    pub others: Items<usize>,
}

impl Prepared {
    /// What the format tells. The error is out of memory.
    pub fn of(alloc: Global, format: &Format) -> Result<Prepared, AllocError>
        ensures { IfOk result (spec.IsPrepared format.now) }
    {
        let constants = constants_of(alloc, format.fields.as_slice())?;
        let computed = all_computed(alloc, format.fields.as_slice())?;
        let mut tests = Tests {
            lengths: Items::new(alloc),
            settled: Items::new(alloc),
            others: Items::new(alloc),
        };
        let fields = format.fields.as_slice();
        let constraints = format.constraints.as_slice();
        for j in 0..constraints.len() {
            cover(j, constraints[j].get(), fields, &mut tests)?;
        }
        let Tests {
            lengths,
            settled,
            others,
        } = tests;
        Ok(Prepared {
            constants,
            computed,
            lengths,
            settled,
            others,
        })
    }
}

/// How constraints are tested: by a length, by nothing, since the encoding of the field settles it, or by its value.
#[derive(Drop)]
struct Tests {
    lengths: Items<LengthTest>,
    settled: Items<LengthTest>,
    others: Items<usize>,
}

/// Both sides of each field that is a constant.
fn constants_of(alloc: Global, fields: &[Field]) -> Result<Items<Option<BothSides>>, AllocError>
    ensures { IfOk result (spec.AreConstants fields.now) }
{
    let mut constants = Items::new(alloc);
    for field in fields {
        constants.push(constant_of(field))?;
    }
    Ok(constants)
}

/// Both sides of a field, where they are the same on each level: its library method has numbers for all that it asks for.
fn constant_of(field: &Field) -> Option<BothSides>
    ensures { IfSome result (λ b. spec.IsConstant field.now b.uncompressed b.compressed) }
{
    match field.encoding.get() {
        Encoding::Library(library) => constant_by(library),
        Encoding::Bare | Encoding::Call { .. } => None,
    }
}

/// The same by its library method.
fn constant_by(library: &Library) -> Option<BothSides>
    ensures { IfSome result (λ b. spec.IsConstantBy library.now b.uncompressed b.compressed) }
{
    match library {
        Library::UncompressedValue { length, value } => Some(BothSides {
            uncompressed: spelled(length, value)?,
            compressed: Word::new(),
        }),
        Library::CompressedValue { length, value } => Some(BothSides {
            uncompressed: Word::new(),
            compressed: spelled(length, value)?,
        }),
        Library::Irregular { .. } | Library::Static | Library::Lsb { .. } | Library::Crc(_) => None,
    }
}

/// How each field is worked out, if it is.
fn all_computed(alloc: Global, fields: &[Field]) -> Result<Items<Option<Computed>>, AllocError>
    ensures { IfOk result (λ all. AreMade spec.HasComputed fields.now all (length fields.now)) }
{
    let mut all = Items::new(alloc);
    for field in fields {
        all.push(computed_of(alloc, field)?)?;
    }
    Ok(all)
}

/// How a field is worked out: by `uncompressed_value` with a number of bits and an expression, which isn't a number.
fn computed_of(alloc: Global, field: &Field) -> Result<Option<Computed>, AllocError>
    ensures { IfOk result (λ o. IfSome o (spec.IsComputed field.now)) }
{
    match field.encoding.get() {
        Encoding::Library(library) => computed_by(alloc, library),
        Encoding::Bare | Encoding::Call { .. } => Ok(None),
    }
}

/// The same by its library method.
fn computed_by(alloc: Global, library: &Library) -> Result<Option<Computed>, AllocError>
    ensures { IfOk result (λ o. IfSome o (spec.IsComputedBy library.now)) }
{
    match library {
        Library::UncompressedValue { length, value } => worked_out(alloc, length, value),
        _ => Ok(None),
    }
}

/// The same of the two expressions.
fn worked_out(alloc: Global, length: &Expr, value: &Expr) -> Result<Option<Computed>, AllocError>
    ensures { IfOk result (λ o. IfSome o (spec.IsWorkedOut length.now value.now)) }
{
    let Some(count) = bits_in(length) else {
        return Ok(None);
    };
    if number_of(value).is_some() {
        return Ok(None);
    }
    let mut chains = Items::new(alloc);
    let Some(value) = operand_of(alloc, value, &mut chains)? else {
        return Ok(None);
    };
    Ok(Some(Computed {
        count,
        value,
        chains,
    }))
}

/// The count of bits that the expression is, where it is one.
fn bits_in(length: &Expr) -> Option<usize>
    ensures { IfSome result (λ n. spec.IsNumber length.now (pos n)) }
{
    usize::try_from(number_of(length)?).ok()
}

/// The bits that are as many as the one number says, at most 64, and spell the other.
fn spelled(length: &Expr, value: &Expr) -> Option<Word>
    ensures { IfSome result (λ w. spec.IsSpelled length.now value.now w) }
{
    let count = u64::try_from(number_of(length)?).ok()?;
    let number = u64::try_from(number_of(value)?).ok()?;
    Word::spelled(usize::try_from(count).ok()?, number)
}

/// The number that the expression is, if it is one and 64 bits with a sign hold it.
fn number_of(expr: &Expr) -> Option<i64>
    ensures { IfSome result (λ v. spec.IsNumber expr.now v) }
{
    match expr {
        Expr::Number(_, number) => short(*number),
        Expr::Parameter(_, _) | Expr::Attribute(_, _) | Expr::Binary(_, _, _, _) => None,
    }
}

/// Notes how the constraint of this index is tested, where those before it are noted.
fn cover(
    j: usize,
    constraint: &Constraint,
    fields: &[Field],
    tests: &mut Tests,
) -> Result<(), AllocError>
    ensures { OnOk result ((all : List Constraint) → slice_get all j ≡ Some constraint.now → spec.AreCovered fields.now all tests.old.lengths tests.old.others j → spec.AreCovered fields.now all tests.new.lengths tests.new.others (j + 1)) }
{
    match test_of(constraint) {
        Some(test) => {
            if is_settled(fields, &test) {
                tests.settled.push(test)?;
                return Ok(());
            }
            tests.lengths.push(test)?;
            Ok(())
        }
        None => {
            tests.others.push(j)?;
            Ok(())
        }
    }
}

/// Whether the encoding of the field settles the test: each side that it gives has so many bits.
fn is_settled(fields: &[Field], test: &LengthTest) -> bool
    ensures { IsTrue result → spec.IsSettled fields.now test.now }
{
    match at(fields, test.field) {
        Some(field) => has_count(field, test.side, test.count),
        None => false,
    }
}

/// Whether the side of the field has so many bits by its encoding.
fn has_count(field: &Field, side: Side, count: usize) -> bool
    ensures { IsTrue result → spec.HasCount field.now side count }
{
    match field.encoding.get() {
        Encoding::Library(library) => has_count_by(library, side, count),
        Encoding::Bare | Encoding::Call { .. } => false,
    }
}

/// The same by its library method.
fn has_count_by(library: &Library, side: Side, count: usize) -> bool
    ensures { IsTrue result → spec.HasCountBy library.now side count }
{
    match library {
        Library::UncompressedValue { length, .. } => match side {
            Side::Uncompressed => is_count(length, count),
            Side::Compressed => count == 0,
        },
        Library::CompressedValue { length, .. } => match side {
            Side::Uncompressed => count == 0,
            Side::Compressed => is_count(length, count),
        },
        Library::Irregular { length } => is_count(length, count),
        Library::Static => match side {
            Side::Uncompressed => false,
            Side::Compressed => count == 0,
        },
        Library::Lsb { .. } | Library::Crc(_) => false,
    }
}

/// Whether the expression is this count, whatever is known.
fn is_count(expr: &Expr, count: usize) -> bool
    ensures { IsTrue result → spec.IsNumber expr.now (pos count) }
{
    match bits_in(expr) {
        Some(bits) => bits == count,
        None => false,
    }
}

/// The test of a constraint, where it is a bracket with one number.
fn test_of(constraint: &Constraint) -> Option<LengthTest>
    ensures { IfSome result (spec.IsTest constraint.now) }
{
    match constraint {
        Constraint::Bracket {
            field,
            side,
            lengths,
            place: _,
        } => Some(LengthTest {
            field: *field,
            side: *side,
            count: count_of(lengths.as_slice())?,
        }),
        Constraint::Enforce { .. } => None,
    }
}

/// The count that the one length is, where that is a number.
fn count_of(lengths: &[Expr]) -> Option<usize>
    ensures { IfSome result (spec.IsOneCount lengths.now) }
{
    if lengths.len() != 1 {
        return None;
    }
    usize::try_from(number_of(&lengths[0])?).ok()
}

/// Whether what is seen passes the tests.
#[inline(always)]
pub fn have_lengths(tests: &[LengthTest], view: &View<'_>) -> bool
    ensures { IsTrue result → (m : ℕ) (t : LengthTest) → slice_get tests.now m ≡ Some t → spec.Passes view.now t }
{
    for test in tests {
        if !has_length(test, view) {
            return false;
        }
    }
    true
}

/// The same of one test.
#[inline(always)]
fn has_length(test: &LengthTest, view: &View<'_>) -> bool
    ensures { IsTrue result → spec.Passes view.now test.now }
{
    match view.word(test.field, test.side) {
        Some(word) => word.len() == test.count,
        None => false,
    }
}
