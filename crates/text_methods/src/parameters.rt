//! The parameters of a method.

ghost use Rattle.std.specs.Prelude.{◌≡◌, map, IfOk};
ghost use Rattle.std.specs.List.{AllByRecursion};
ghost use Rattle.sem_profile.specs.Words.{word as words};
ghost use Rattle.text_methods.specs.Worded.{IsNamed};
ghost use Rattle.text_methods.specs.Parameters as spec;

use sem_profile::{Name, Words, word};
use sqlite_items::Items;
use std::alloc::{AllocError, Global};
use text_source::Span;

/// The table of the parameters' names.
pub(crate) fn parameter_table<'t>(
    alloc: Global,
    text: &'t [u8],
    parameters: &[Span],
) -> Result<Words<'t>, AllocError>
    ensures { IfOk result (λ names. names ≡ spec.distinct_words text.now parameters.now) }
{
    let mut names = Words::new(alloc);
    for parameter in parameters {
        names.insert(word(text, *parameter))?;
    }
    Ok(names)
}

/// The parameters' names in their order.
pub(crate) fn parameter_names(
    alloc: Global,
    text: &[u8],
    parameters: &[Span],
) -> Result<Items<Name>, AllocError>
    requires { AllByRecursion (IsNamed text.now) parameters.now }
    ensures { IfOk result (λ names. names ≡ map (words text.now) parameters.now) }
{
    let mut names = Items::new(alloc);
    for parameter in parameters {
        names.push(Name::of_octets(alloc, word(text, *parameter))?)?;
    }
    Ok(names)
}
