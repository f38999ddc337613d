//! The constraints of a format.

ghost use Rattle.std.specs.Prelude.{◌≡◌, ◌++◌, ◌∷◌, map, None, List, IfOk, OnOk};
ghost use Rattle.text_sections.specs.Causes.{earliest};
ghost use Rattle.text_methods.specs.Constraints as spec;
ghost use Rattle.text_methods.specs.Kept.{AreItemsSaid, AreSaid, IsSaid};

use crate::kept::Kept;
use sem_expr::Side;
use sem_profile::{Constraint, ProfileFault, Shared, earlier, fault_of};
use sqlite_items::Items;
use std::alloc::{AllocError, Global};
use text_sections::mention::is_in;
use text_sections::{Group, Mention};
use text_statements::{Scope, item_constraints};
use text_tree::{Item, Section};

/// For how many constraints a format has room at first, at most.
const ROOM: usize = 128;

/// The constraints of a format by their numbers, and the earliest fault in its statements. With a fault some are missing.
#[derive(Drop)]
pub struct Constraints {
    pub found: Items<Shared<Constraint>>,
    pub fault: Option<ProfileFault>,
}

/// The constraints of a format's statements: those of UNCOMPRESSED, of CONTROL, of DEFAULT as far as they encode its fields, and its own.
/// For each field the statement that encodes it is chosen. What is kept of a statement is shared.
pub(crate) fn format_constraints(
    alloc: Global,
    scope: &Scope<'_, '_>,
    sections: &[Section],
    kept: &Kept<'_>,
    chosen: &[Option<Mention>],
    own: &[Item],
) -> Result<Constraints, AllocError>
    requires { AreSaid scope.now kept.now sections.now }
    ensures fault { IfOk result (λ c. c.fault ≡ earliest (spec.statement_fault scope.now) (spec.statements scope.now chosen.now sections.now own.now)) }
    ensures found { IfOk result (λ c. c.fault ≡ None → spec.AreNumbered scope.now (spec.statements scope.now chosen.now sections.now own.now) c.found) }
{
    let room = count_base(sections).saturating_add(own.len()).min(ROOM);
    let mut all = Constraints {
        found: Items::from_vec(Vec::with_capacity(alloc, room)?),
        fault: None,
    };
    add_group(alloc, scope, kept, Group::Header, sections, &mut all)?;
    add_group(alloc, scope, kept, Group::Control, sections, &mut all)?;
    add_defaults(alloc, scope, chosen, sections, &mut all)?;
    add_items(alloc, scope, Side::Compressed, own, &mut all)?;
    Ok(all)
}

/// How many statements UNCOMPRESSED and CONTROL have.
fn count_base(sections: &[Section]) -> usize {
    let mut count: usize = 0;
    for section in sections {
        if is_in(Group::Base, section.kind) {
            count = count.saturating_add(section.items.len());
        }
    }
    count
}

fn add_statement(
    alloc: Global,
    scope: &Scope<'_, '_>,
    side: Side,
    item: &Item,
    all: &mut Constraints,
) -> Result<(), AllocError>
    ensures { OnOk result ((rest whole : List spec.Statement) → spec.Leads scope.now (spec.on side item.now ∷ rest) whole all.old.found all.old.fault → spec.Leads scope.now rest whole all.new.found all.new.fault) }
{
    match item_constraints(alloc, scope, side, item) {
        Ok(said) => said.add_to(&mut all.found)?,
        Err(error) => all.fault = earlier(all.fault, Some(fault_of(error)?)),
    }
    Ok(())
}

fn add_items(
    alloc: Global,
    scope: &Scope<'_, '_>,
    side: Side,
    items: &[Item],
    all: &mut Constraints,
) -> Result<(), AllocError>
    ensures { OnOk result ((rest whole : List spec.Statement) → spec.Leads scope.now (map (spec.on side) items.now ++ rest) whole all.old.found all.old.fault → spec.Leads scope.now rest whole all.new.found all.new.fault) }
{
    for item in items {
        add_statement(alloc, scope, side, item, all)?;
    }
    Ok(())
}

/// The statements of a group of UNCOMPRESSED and CONTROL.
fn add_group(
    alloc: Global,
    scope: &Scope<'_, '_>,
    kept: &Kept<'_>,
    group: Group,
    sections: &[Section],
    all: &mut Constraints,
) -> Result<(), AllocError>
    requires { AreSaid scope.now kept.now sections.now }
    ensures { OnOk result ((rest whole : List spec.Statement) → spec.Leads scope.now (spec.of_group Side.Uncompressed group sections.now ++ rest) whole all.old.found all.old.fault → spec.Leads scope.now rest whole all.new.found all.new.fault) }
{
    for (number, section) in sections.iter().enumerate() {
        if is_in(group, section.kind) {
            add_base(alloc, scope, kept, number, section.items.as_slice(), all)?;
        }
    }
    Ok(())
}

/// The statements of the section of this number, of UNCOMPRESSED or CONTROL.
fn add_base(
    alloc: Global,
    scope: &Scope<'_, '_>,
    kept: &Kept<'_>,
    section: usize,
    items: &[Item],
    all: &mut Constraints,
) -> Result<(), AllocError>
    requires { AreItemsSaid scope.now kept.now section items.now }
    ensures { OnOk result ((rest whole : List spec.Statement) → spec.Leads scope.now (map (spec.on Side.Uncompressed) items.now ++ rest) whole all.old.found all.old.fault → spec.Leads scope.now rest whole all.new.found all.new.fault) }
{
    for (place, item) in items.iter().enumerate() {
        add_kept(alloc, scope, kept, section, place, item, all)?;
    }
    Ok(())
}

fn add_kept(
    alloc: Global,
    scope: &Scope<'_, '_>,
    kept: &Kept<'_>,
    section: usize,
    place: usize,
    item: &Item,
    all: &mut Constraints,
) -> Result<(), AllocError>
    requires { IsSaid scope.now kept.now section place item.now }
    ensures { OnOk result ((rest whole : List spec.Statement) → spec.Leads scope.now (spec.on Side.Uncompressed item.now ∷ rest) whole all.old.found all.old.fault → spec.Leads scope.now rest whole all.new.found all.new.fault) }
{
    match kept.constraints(section, place) {
        Some(constraints) => add_shared(constraints.as_slice(), &mut all.found)?,
        None => add_statement(alloc, scope, Side::Uncompressed, item, all)?,
    }
    Ok(())
}

fn add_shared(
    constraints: &[Shared<Constraint>],
    found: &mut Items<Shared<Constraint>>,
) -> Result<(), AllocError>
    ensures { OnOk result (found.new ≡ found.old ++ constraints.now) }
{
    for constraint in constraints {
        found.push(constraint.share()?)?;
    }
    Ok(())
}

/// The fields' chosen statements in DEFAULT.
fn add_defaults(
    alloc: Global,
    scope: &Scope<'_, '_>,
    chosen: &[Option<Mention>],
    sections: &[Section],
    all: &mut Constraints,
) -> Result<(), AllocError>
    ensures { OnOk result ((rest whole : List spec.Statement) → spec.Leads scope.now (spec.defaults_from scope.now chosen.now 0 sections.now ++ rest) whole all.old.found all.old.fault → spec.Leads scope.now rest whole all.new.found all.new.fault) }
{
    for (place, section) in sections.iter().enumerate() {
        if is_in(Group::Default, section.kind) {
            add_used(alloc, scope, chosen, place, section.items.as_slice(), all)?;
        }
    }
    Ok(())
}

fn add_used(
    alloc: Global,
    scope: &Scope<'_, '_>,
    chosen: &[Option<Mention>],
    section: usize,
    items: &[Item],
    all: &mut Constraints,
) -> Result<(), AllocError>
    ensures { OnOk result ((rest whole : List spec.Statement) → spec.Leads scope.now (spec.used_from scope.now chosen.now section 0 items.now ++ rest) whole all.old.found all.old.fault → spec.Leads scope.now rest whole all.new.found all.new.fault) }
{
    for (place, item) in items.iter().enumerate() {
        if is_used(scope, chosen, section, place, item) {
            add_statement(alloc, scope, Side::Compressed, item, all)?;
        }
    }
    Ok(())
}

/// Whether a statement of DEFAULT is the chosen one of its field.
fn is_used(
    scope: &Scope<'_, '_>,
    chosen: &[Option<Mention>],
    section: usize,
    place: usize,
    item: &Item,
) -> bool
    ensures { result ≡ spec.is_used scope.now chosen.now section place item.now }
{
    match item {
        Item::Bound(bound) => is_at(section, place, choice_of(chosen, scope.field(bound.name))),
        _ => false,
    }
}

/// The choice of a field.
pub(crate) fn choice_of(chosen: &[Option<Mention>], field: Option<usize>) -> Option<Mention>
    ensures { result ≡ spec.choice_of chosen.now field }
{
    match field {
        Some(index) => match chosen.get(index) {
            Some(choice) => *choice,
            None => None,
        },
        None => None,
    }
}

/// Whether a choice is the statement at this place of the section of this number.
pub(crate) fn is_at(section: usize, place: usize, choice: Option<Mention>) -> bool
    ensures { result ≡ spec.is_at section place choice }
{
    match choice {
        Some(mention) => mention.section == section && mention.item == place,
        None => false,
    }
}
