//! The table of a file's constants.

ghost use Rattle.std.specs.Prelude.{◌≡◌, [], IfOk, IfErr};
ghost use Rattle.text_statements.specs.Constants as spec;

use crate::constant::constant_value;
use crate::scope::Scope;
use sem_profile::{ResolveError, Words, word};
use sqlite_items::Items;
use std::alloc::{AllocError, Global};
use text_tree::tree;

/// The names of the constants and their values, each in the order of the text.
#[derive(Drop)]
pub struct Constants<'a> {
    pub names: Words<'a>,
    pub values: Items<i128>,
}

impl<'a> Constants<'a> {
    /// The constants among the parts of a file. Each is judged with the earlier ones alone; the fault is that of the first that
    /// has no value. It is asked where no name is defined twice.
    pub fn of_parts(
        alloc: Global,
        text: &'a [u8],
        parts: &[tree::Part],
    ) -> Result<Constants<'a>, ResolveError>
        requires { spec.AreDistinct (spec.constant_names text.now parts.now) }
        ensures names { IfOk result (λ c. c.names ≡ spec.constant_names text.now parts.now) }
        ensures values { IfOk result (λ c. spec.AreValues text.now (spec.constant_names text.now parts.now) (spec.constants_in parts.now) c.values) }
        ensures refused { IfErr result (spec.Blames (spec.IsFirstFault text.now (spec.constant_names text.now parts.now) (spec.constants_in parts.now))) }
    {
        let names = names_in(alloc, text, parts)?;
        let values = values_in(alloc, text, &names, parts)?;
        Ok(Constants { names, values })
    }
}

fn names_in<'a>(
    alloc: Global,
    text: &'a [u8],
    parts: &[tree::Part],
) -> Result<Words<'a>, AllocError>
    requires { spec.AreDistinct (spec.constant_names text.now parts.now) }
    ensures { IfOk result (λ names. names ≡ spec.constant_names text.now parts.now) }
{
    let mut names = Words::new(alloc);
    for part in parts {
        match part {
            tree::Part::Constant(constant) => {
                names.insert(word(text, constant.name))?;
            }
            tree::Part::Method(_) => {}
        }
    }
    Ok(names)
}

fn values_in<'t>(
    alloc: Global,
    text: &'t [u8],
    names: &Words<'t>,
    parts: &[tree::Part],
) -> Result<Items<i128>, ResolveError>
    ensures values { IfOk result (λ values. spec.AreValues text.now names.now (spec.constants_in parts.now) values) }
    ensures refused { IfErr result (spec.Blames (spec.IsFirstFault text.now names.now (spec.constants_in parts.now))) }
{
    let none = Words::new(alloc);
    let mut found = Items::new(alloc);
    for part in parts {
        match part {
            tree::Part::Constant(constant) => {
                let scope = Scope::of_constants(text, &*names, found.as_slice(), &none);
                let value = constant_value(alloc, &scope, &constant.value)?;
                found.push(value)?;
            }
            tree::Part::Method(_) => {}
        }
    }
    Ok(found)
}
