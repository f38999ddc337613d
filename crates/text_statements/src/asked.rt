//! Which control fields are asked.

ghost use Rattle.std.specs.Prelude.{◌≡◌, [], IfOk, OnOk};
ghost use Rattle.std.specs.Option.{option_map};
ghost use Rattle.text_statements.specs.Asked as spec;
ghost use Rattle.text_statements.specs.Enforced.{set_names, with_words, set_by_items};

use crate::enforced::add_set_names;
use crate::{Scope, constant_value};
use sem_profile::{Words, fault_of, word};
use std::alloc::{AllocError, Global};
use text_source::Span;
use text_tree::{Bracket, Expr, Item, Section, SectionKind};

/// The names of the asked fields of the sections CONTROL.
pub(crate) fn asked_names<'t>(
    alloc: Global,
    text: &'t [u8],
    scope: &Scope<'_, '_>,
    sections: &[Section],
) -> Result<Words<'t>, AllocError>
    requires { scope.now.text ≡ text.now }
    ensures { IfOk result (spec.AreAsked scope.now (set_names text.now (spec.control_items sections.now)) (spec.control_items sections.now)) }
{
    let set = names_set(alloc, text, sections)?;
    let mut asked = Words::new(alloc);
    for section in sections {
        if is_control(section.kind) {
            ask_items(
                alloc,
                text,
                scope,
                &set,
                section.items.as_slice(),
                &mut asked,
            )?;
        }
    }
    Ok(asked)
}

/// The names of the fields that ENFORCE statements of the sections CONTROL set.
fn names_set<'t>(
    alloc: Global,
    text: &'t [u8],
    sections: &[Section],
) -> Result<Words<'t>, AllocError>
    ensures { IfOk result (λ names. names ≡ set_names text.now (spec.control_items sections.now)) }
{
    let mut names = Words::new(alloc);
    for section in sections {
        if is_control(section.kind) {
            add_set_names(text, section.items.as_slice(), &mut names)?;
        }
    }
    Ok(names)
}

fn is_control(kind: SectionKind) -> bool
    ensures { result ≡ spec.is_control kind }
{
    match kind {
        SectionKind::Control => true,
        _ => false,
    }
}

fn ask_items<'t>(
    alloc: Global,
    text: &'t [u8],
    scope: &Scope<'_, '_>,
    set: &Words<'_>,
    items: &[Item],
    asked: &mut Words<'t>,
) -> Result<(), AllocError>
    requires { scope.now.text ≡ text.now }
    ensures { OnOk result (spec.AskedOn scope.now set.now items.now asked.old asked.new) }
{
    for item in items {
        if let Some(name) = asked_name(alloc, scope, &*set, item)? {
            asked.insert(word(text, name))?;
        }
    }
    Ok(())
}

/// The name of the field that the statement declares, if the field is asked.
fn asked_name(
    alloc: Global,
    scope: &Scope<'_, '_>,
    set: &Words<'_>,
    item: &Item,
) -> Result<Option<Span>, AllocError>
    ensures { IfOk result (spec.Asks scope.now set.now item.now) }
{
    match item {
        Item::Field(name, bracket) => match only_length(bracket) {
            Some(length) => asked_field(alloc, scope, set, *name, length),
            None => Ok(None),
        },
        Item::Bound(_) => Ok(None),
        Item::Enforce(_, _) => Ok(None),
    }
}

/// The expression of a bracket that holds one.
fn only_length(bracket: &Option<Bracket>) -> Option<&Expr>
    ensures { option_map (λ e. e.now) result ≡ spec.only_length bracket.now }
{
    match bracket {
        None => None,
        Some(bracket) => length_in(bracket),
    }
}

fn length_in(bracket: &Bracket) -> Option<&Expr>
    ensures { option_map (λ e. e.now) result ≡ spec.length_in bracket.now }
{
    match bracket {
        Bracket::Variable(_) => None,
        Bracket::Lengths(_, lengths) => single(lengths.as_slice()),
    }
}

fn single(lengths: &[Expr]) -> Option<&Expr>
    ensures { option_map (λ e. e.now) result ≡ spec.single lengths.now }
{
    match lengths {
        [length] => Some(length),
        [] | [_, _, ..] => None,
    }
}

/// The name of a field whose bracket holds one length, if the field is asked.
fn asked_field(
    alloc: Global,
    scope: &Scope<'_, '_>,
    set: &Words<'_>,
    name: Span,
    length: &Expr,
) -> Result<Option<Span>, AllocError>
    ensures { IfOk result (spec.FieldAsks scope.now set.now name length.now) }
{
    if is_set(set, word(scope.text(), name)) {
        return Ok(None);
    }
    match constant_value(alloc, scope, length) {
        Ok(_) => Ok(Some(name)),
        Err(error) => {
            let _fault = fault_of(error)?;
            Ok(None)
        }
    }
}

fn is_set(set: &Words<'_>, name: &[u8]) -> bool
    ensures { result ≡ spec.is_set set.now name.now }
{
    match set.position(name) {
        Some(_) => true,
        None => false,
    }
}
