//! What each format tells of its packed bits and of parameters.

ghost use Rattle.std.specs.Prelude.{◌≡◌, IfOk};
ghost use Rattle.std.specs.List.{list_any};
ghost use Rattle.cert_trees.specs.declared.signatures.Test.TheVariants.{Lacks};
ghost use Rattle.cert_trees.specs.Equations as equations_spec;
ghost use Rattle.cert_trees.specs.Signature as spec;

use crate::equations::{Equation, equations, references};
use crate::tables::known_bits;
use sem_profile::{Format, FormatSizes};
use sqlite_items::{Items, at};
use std::alloc::{AllocError, Global};
use std::collections::HashMap;

/// What a format tells: its known bits by their offsets, its equations of parameters, and those of the values of fields that are static in it, which are their
/// references.
#[derive(Drop)]
pub struct Signature {
    pub bits: HashMap<u128, bool>,
    pub equations: Items<Equation>,
    pub references: Items<Equation>,
}

/// A test that a format may not pass.
#[derive(Clone, Copy)]
pub enum Test {
    /// The bit at the offset isn't known to be this one.
    Lacks(u128, bool),
    /// The parameter may be the constant.
    MayBe(usize, i128),
    /// The parameter may be another number.
    MayDiffer(usize, i128),
    /// The field's reference may be the constant.
    MayHold(usize, i128),
    /// The field may have another reference, or none.
    MayLack(usize, i128),
}

impl Signature {
    /// Whether the format passes the test.
    pub fn passes(&self, test: Test) -> bool
        ensures { result ≡ spec.passes test self.now }
    {
        match test {
            Test::Lacks(offset, bit) => self.lacks(offset, bit),
            Test::MayBe(parameter, constant) => !any_excludes(
                self.equations.as_slice(),
                parameter,
                constant,
            ),
            Test::MayDiffer(parameter, constant) => !any_fixes(
                self.equations.as_slice(),
                parameter,
                constant,
            ),
            Test::MayHold(field, constant) => !any_excludes(
                self.references.as_slice(),
                field,
                constant,
            ),
            Test::MayLack(field, constant) => !any_fixes(
                self.references.as_slice(),
                field,
                constant,
            ),
        }
    }

    fn lacks(&self, offset: u128, bit: bool) -> bool
        ensures { result ≡ spec.passes (Lacks offset bit) self.now }
    {
        match self.bits.get(&offset) {
            Some(known) => *known != bit,
            None => true,
        }
    }
}

/// Whether by one of the equations that is not the constant.
fn any_excludes(equations: &[Equation], tested: usize, constant: i128) -> bool
    ensures { result ≡ list_any (equations_spec.excludes tested constant) equations.now }
{
    for equation in equations {
        if equation.excludes(tested, constant) {
            return true;
        }
    }
    false
}

/// Whether by one of the equations it is.
fn any_fixes(equations: &[Equation], tested: usize, constant: i128) -> bool
    ensures { result ≡ list_any (equations_spec.fixes tested constant) equations.now }
{
    for equation in equations {
        if equation.fixes(tested, constant) {
            return true;
        }
    }
    false
}

fn signature_of(
    alloc: Global,
    format: &Format,
    sizes: &FormatSizes,
) -> Result<Signature, AllocError>
    ensures { IfOk result (λ told. spec.IsSignature told format.now sizes.now) }
{
    Ok(Signature {
        bits: known_bits(
            alloc,
            format.fields.as_slice(),
            sizes.fields.as_slice(),
            format.listing.get().as_slice(),
        )?,
        equations: equations(alloc, format.constraints.as_slice())?,
        references: references(
            alloc,
            format.fields.as_slice(),
            format.constraints.as_slice(),
        )?,
    })
}

/// What each format that has bounds tells. It fails only where memory is out.
pub fn all_signatures(
    alloc: Global,
    formats: &[Format],
    sizes: &[FormatSizes],
) -> Result<Vec<Signature>, AllocError>
    ensures { IfOk result (λ tolds. spec.AreSignatures tolds.items formats.now sizes.now) }
{
    let mut tolds = Vec::new(alloc);
    for place in 0..formats.len() {
        let Some(bounds) = at(sizes, place) else {
            return Ok(tolds);
        };
        tolds.push(signature_of(alloc, &formats[place], bounds)?)?;
    }
    Ok(tolds)
}
