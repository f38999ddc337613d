//! The statements of DEFAULT, in use or not.

ghost use Rattle.std.specs.Prelude.{◌≡◌, IfOk, fold};
ghost use Rattle.sem_profile.specs.Precedence.{earlier as first};
ghost use Rattle.text_sections.specs.Tables.{IsTable};
ghost use Rattle.text_methods.specs.Defaults as spec;

use crate::{Setting, encoding_fault};
use sem_expr::Side;
use sem_profile::{ProfileFault, earlier, fault_of};
use std::alloc::{AllocError, Global};
use text_sections::mention::is_in;
use text_sections::{Group, Table, mentions};
use text_statements::{Methods, Scope, item_constraints};
use text_tree::{Item, Section};

/// The earliest fault in the statements of DEFAULT, where a field may be any that some format of the method has.
pub(crate) fn default_fault(
    alloc: Global,
    setting: &Setting<'_, '_>,
) -> Result<Option<ProfileFault>, AllocError>
    ensures { IfOk result (λ fault. fault ≡ spec.default_fault setting.now) }
{
    let fields = all_fields(alloc, setting.text, setting.sections)?;
    let scope = Scope::new(
        setting.text,
        setting.constants,
        setting.values,
        setting.parameters,
        &fields.words,
    );
    let mut fault = None;
    for section in setting.sections {
        fault = section_fault(alloc, &scope, setting.methods, section, fault)?;
    }
    Ok(fault)
}

/// The fields that some format of a method has.
fn all_fields<'t>(
    alloc: Global,
    text: &'t [u8],
    sections: &[Section],
) -> Result<Table<'t>, AllocError>
    ensures firsts { IfOk result (λ table. table.firsts ≡ spec.all_fields text.now sections.now) }
    ensures words { IfOk result (λ table. table.words ≡ spec.names_of text.now (spec.all_fields text.now sections.now)) }
{
    let mut all = mentions(alloc, text, sections, Group::Base)?;
    all.append(mentions(alloc, text, sections, Group::Formats)?)?;
    Table::of(alloc, text, all.as_slice())
}

fn section_fault(
    alloc: Global,
    scope: &Scope<'_, '_>,
    methods: &Methods<'_, '_>,
    section: &Section,
    found: Option<ProfileFault>,
) -> Result<Option<ProfileFault>, AllocError>
    ensures { IfOk result (λ fault. fault ≡ fold (λ f item. first f (spec.bound_fault scope.now methods.now item)) found (spec.default_part section.now)) }
{
    if is_in(Group::Default, section.kind) {
        return items_fault(alloc, scope, methods, section.items.as_slice(), found);
    }
    Ok(found)
}

fn items_fault(
    alloc: Global,
    scope: &Scope<'_, '_>,
    methods: &Methods<'_, '_>,
    items: &[Item],
    found: Option<ProfileFault>,
) -> Result<Option<ProfileFault>, AllocError>
    ensures { IfOk result (λ fault. fault ≡ fold (λ f item. first f (spec.bound_fault scope.now methods.now item)) found items.now) }
{
    let mut fault = found;
    for item in items {
        fault = earlier(fault, item_fault(alloc, scope, methods, item)?);
    }
    Ok(fault)
}

fn item_fault(
    alloc: Global,
    scope: &Scope<'_, '_>,
    methods: &Methods<'_, '_>,
    item: &Item,
) -> Result<Option<ProfileFault>, AllocError>
    ensures { IfOk result (λ fault. fault ≡ spec.bound_fault scope.now methods.now item.now) }
{
    match item {
        Item::Bound(bound) => {
            let first = encoding_fault(alloc, scope, methods, bound)?;
            let second = bracket_fault(alloc, scope, item)?;
            Ok(earlier(first, second))
        }
        Item::Field(_, _) => Ok(None),
        Item::Enforce(_, _) => Ok(None),
    }
}

fn bracket_fault(
    alloc: Global,
    scope: &Scope<'_, '_>,
    item: &Item,
) -> Result<Option<ProfileFault>, AllocError>
    ensures { IfOk result (λ fault. fault ≡ spec.item_fault scope.now item.now) }
{
    match item_constraints(alloc, scope, Side::Compressed, item) {
        Ok(_) => Ok(None),
        Err(error) => Ok(Some(fault_of(error)?)),
    }
}
