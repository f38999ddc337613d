//! What a certificate says of a method and of a format, with the names that its text shows.

ghost use Rattle.std.specs.Prelude.{◌≡◌, map, IfOk};
ghost use Rattle.cert_types.specs.Of as spec;

use crate::certificate::{FormatPlans, MethodPlans, Node, Plans};
use sem_profile::{Field, Format, Method, Name};
use sqlite_items::Items;
use std::alloc::{AllocError, Global};

impl FormatPlans {
    /// What is said of a format, with its names: these plans, if any.
    pub fn of(
        alloc: Global,
        format: &Format,
        plans: Option<Plans>,
    ) -> Result<FormatPlans, AllocError>
        ensures { IfOk result (λ entry. entry ≡ spec.of_format format.now plans) }
    {
        Ok(FormatPlans {
            name: shared_name(&format.name)?,
            fields: field_names(alloc, format.fields.as_slice())?,
            plans,
        })
    }
}

impl MethodPlans {
    /// What is said of a method, with its names: the nodes of its tree, and what is said of its formats.
    pub fn of(
        alloc: Global,
        method: &Method,
        tree: Items<Node>,
        formats: Items<FormatPlans>,
    ) -> Result<MethodPlans, AllocError>
        ensures { IfOk result (λ entry. entry ≡ spec.of_method method.now tree formats) }
    {
        Ok(MethodPlans {
            name: method.name.share()?,
            parameters: shared(alloc, method.parameters.as_slice())?,
            tree,
            formats,
        })
    }
}

fn shared_name(name: &Option<Name>) -> Result<Option<Name>, AllocError>
    ensures { IfOk result (λ other. other ≡ name.now) }
{
    match name {
        Some(name) => Ok(Some(name.share()?)),
        None => Ok(None),
    }
}

fn shared(alloc: Global, names: &[Name]) -> Result<Items<Name>, AllocError>
    ensures { IfOk result (λ others. others ≡ names.now) }
{
    let mut others = Items::new(alloc);
    for name in names {
        others.push(name.share()?)?;
    }
    Ok(others)
}

fn field_names(alloc: Global, fields: &[Field]) -> Result<Items<Name>, AllocError>
    ensures { IfOk result (λ names. names ≡ map (λ d. d.declared.name) fields.now) }
{
    let mut names = Items::new(alloc);
    for field in fields {
        names.push(field.declared.name.share()?)?;
    }
    Ok(names)
}
