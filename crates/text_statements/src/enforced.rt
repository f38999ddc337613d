//! Which fields ENFORCE statements set.

ghost use Rattle.std.specs.Prelude.{◌≡◌, IfOk, OnOk};
ghost use Rattle.text_statements.specs.Enforced as spec;

use sem_profile::{Words, word};
use std::alloc::AllocError;
use text_source::Span;
use text_tree::{Attribute, Expr, Item, Operator, Owner};

/// Adds the names of the fields that the ENFORCE statements set.
pub(crate) fn add_set_names<'t>(
    text: &'t [u8],
    items: &[Item],
    names: &mut Words<'t>,
) -> Result<(), AllocError>
    ensures { OnOk result (names.new ≡ spec.with_words text.now names.old (spec.set_by_items items.now)) }
{
    for item in items {
        if let Item::Enforce(_, condition) = item {
            add_conjuncts(text, condition, &mut *names)?;
        }
    }
    Ok(())
}

/// Adds the names of the fields that the conjuncts of a condition set.
fn add_conjuncts<'t>(text: &'t [u8], part: &Expr, names: &mut Words<'t>) -> Result<(), AllocError>
    ensures { OnOk result (names.new ≡ spec.with_words text.now names.old (spec.setting part.now).conjuncts) }
{
    match part {
        Expr::Binary(_, operator, _, left, right) => match operator {
            Operator::And => {
                add_conjuncts(text, left.get(), &mut *names)?;
                add_conjuncts(text, right.get(), names)
            }
            _ => add_equation(text, part, names),
        },
        _ => add_equation(text, part, names),
    }
}

/// Adds the names of the fields that a part sets as one equation, round brackets aside.
fn add_equation<'t>(text: &'t [u8], part: &Expr, names: &mut Words<'t>) -> Result<(), AllocError>
    ensures { OnOk result (names.new ≡ spec.with_words text.now names.old (spec.setting part.now).equation) }
{
    match part {
        Expr::Group(_, inside) => add_equation(text, inside.get(), names),
        Expr::Binary(_, operator, _, left, right) => match operator {
            Operator::Equal => {
                add_alone(text, left.get(), &mut *names)?;
                add_alone(text, right.get(), names)
            }
            _ => Ok(()),
        },
        _ => Ok(()),
    }
}

fn add_alone<'t>(text: &'t [u8], part: &Expr, names: &mut Words<'t>) -> Result<(), AllocError>
    ensures { OnOk result (names.new ≡ spec.with_words text.now names.old (spec.listed (spec.setting part.now).alone)) }
{
    if let Some(name) = alone(part) {
        names.insert(word(text, name))?;
    }
    Ok(())
}

/// The field whose UVALUE the part is by itself, round brackets aside.
fn alone(part: &Expr) -> Option<Span>
    ensures { result ≡ (spec.setting part.now).alone }
{
    match part {
        Expr::Group(_, inside) => alone(inside.get()),
        Expr::Attribute(_, owner, attribute) => value_of(*owner, *attribute),
        _ => None,
    }
}

/// The field whose UVALUE the attribute is.
fn value_of(owner: Owner, attribute: Attribute) -> Option<Span>
    ensures { result ≡ spec.value_of owner attribute }
{
    match attribute {
        Attribute::Uvalue => match owner {
            Owner::Field(name) => Some(name),
            Owner::This => None,
        },
        _ => None,
    }
}
