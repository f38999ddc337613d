//! The asked fields of a profile.

ghost use Rattle.std.specs.Prelude.{◌≡◌, IfOk};
ghost use Rattle.sem_profile.specs.Asked as spec;

use crate::constants::constant_of;
use crate::{Constraint, Field, Format, Method, Name, Shared};
use sem_expr::{Expr, Side};
use sqlite_items::Items;
use std::alloc::{AllocError, Global};

/// A control field of the top whose value the packer is given (docs/NOTATION.md).
#[derive(Drop)]
pub struct AskedField {
    pub name: Name,
    /// How many bits its value has. No value has a negative number of bits.
    pub length: i128,
}

/// The asked fields of the top, by its first format, in the order of CONTROL.
pub fn asked_fields(
    alloc: Global,
    methods: &[Method],
    top: usize,
) -> Result<Items<AskedField>, AllocError>
    ensures { IfOk result (λ asked. asked ≡ spec.asked_of methods.now top) }
{
    match methods.get(top) {
        Some(method) => asked_by(alloc, method.formats.as_slice()),
        None => Ok(Items::new(alloc)),
    }
}

fn asked_by(alloc: Global, formats: &[Format]) -> Result<Items<AskedField>, AllocError>
    ensures { IfOk result (λ asked. asked ≡ spec.asked_by formats.now) }
{
    match formats {
        [] => Ok(Items::new(alloc)),
        [format, ..] => asked_in(alloc, format),
    }
}

/// The asked fields of a format with their lengths, in field order.
fn asked_in(alloc: Global, format: &Format) -> Result<Items<AskedField>, AllocError>
    ensures { IfOk result (λ asked. asked ≡ spec.asked_in format.now) }
{
    let constraints = format.constraints.as_slice();
    let mut asked = Items::new(alloc);
    for (index, field) in format.fields.as_slice().iter().enumerate() {
        if let Some(found) = asked_at(alloc, constraints, index, field)? {
            asked.push(found)?;
        }
    }
    Ok(asked)
}

fn asked_at(
    alloc: Global,
    constraints: &[Shared<Constraint>],
    index: usize,
    field: &Field,
) -> Result<Option<AskedField>, AllocError>
    ensures { IfOk result (λ asked. asked ≡ spec.asked_at constraints.now index field.now) }
{
    if !field.declared.asked {
        return Ok(None);
    }
    match length_of(alloc, constraints, index) {
        Some(length) => Ok(Some(AskedField {
            name: field.declared.name.share()?,
            length,
        })),
        None => Ok(None),
    }
}

/// How many bits the first bracket of one constant gives the uncompressed side of the field. It takes no memory.
fn length_of(alloc: Global, constraints: &[Shared<Constraint>], index: usize) -> Option<i128>
    ensures { result ≡ spec.length_of constraints.now index }
{
    for constraint in constraints {
        if let Some(length) = length_by(alloc, index, constraint.get()) {
            return Some(length);
        }
    }
    None
}

fn length_by(alloc: Global, index: usize, constraint: &Constraint) -> Option<i128>
    ensures { result ≡ spec.length_by index constraint.now }
{
    match constraint {
        Constraint::Bracket {
            field,
            side: Side::Uncompressed,
            lengths,
            ..
        } => {
            if *field == index {
                constant_alone(alloc, lengths.as_slice())
            } else {
                None
            }
        }
        _ => None,
    }
}

fn constant_alone(alloc: Global, lengths: &[Expr]) -> Option<i128>
    ensures { result ≡ spec.constant_alone lengths.now }
{
    match lengths {
        [length] => constant_of(alloc, length),
        [] | [_, _, ..] => None,
    }
}
