//! What UNCOMPRESSED, CONTROL and DEFAULT say, kept once for all formats of a method.

ghost use Rattle.std.specs.Prelude.{◌≡◌, None, IfOk, IfSome};
ghost use Rattle.std.specs.List.{AllZip};
ghost use Rattle.std.specs.Option.{option_copied};
ghost use Rattle.text_statements.specs.Encodings as encodings;
ghost use Rattle.text_methods.specs.Kept as spec;

use crate::drafts::Setting;
use crate::fields::kept_fields;
use sem_bits::Bits;
use sem_expr::Side;
use sem_profile::{Constraint, Declared, Encoding, Shared, fault_of};
use sqlite_items::Items;
use std::alloc::{AllocError, Global};
use text_sections::mention::is_in;
use text_sections::{Group, Mention, Table, in_order};
use text_statements::{Methods, Scope, encoding, item_constraints};
use text_tree::{Bound, Item, Section};

/// The constraints and the encoding of a statement. What is None has to be resolved in each format.
#[derive(Drop)]
pub struct KeptStatement {
    pub constraints: Option<Items<Shared<Constraint>>>,
    pub encoding: Option<Shared<Encoding>>,
}

/// A field that a mention gives, but for its encoding.
#[derive(Drop)]
pub struct KeptField {
    pub mention: Mention,
    pub declared: Declared,
    pub initial: Option<Bits>,
}

/// What all formats of a method have in common.
#[derive(Drop)]
pub struct Kept<'t> {
    /// The statements of the method's sections in their order: those of UNCOMPRESSED and CONTROL, the encodings of DEFAULT, and none of other sections.
    pub sections: Items<Items<KeptStatement>>,
    /// The table of the header and control fields.
    pub table: Table<'t>,
    /// These fields in their order, as far as they are kept.
    pub fields: Items<KeptField>,
    /// The encoding of a field that no statement encodes.
    pub bare: Shared<Encoding>,
}

impl<'t> Kept<'t> {
    /// The constraints that are kept of a statement, by the numbers of its section and its place there.
    pub(crate) fn constraints(
        &self,
        section: usize,
        place: usize,
    ) -> Option<&Items<Shared<Constraint>>>
        ensures { option_copied result ≡ spec.constraints_at self.now section place }
    {
        let statements = self.sections.get(section)?;
        let statement = statements.get(place)?;
        match &statement.constraints {
            Some(constraints) => Some(constraints),
            None => None,
        }
    }

    /// The encoding that is kept of the statement of a mention.
    pub(crate) fn encoding(&self, mention: Mention) -> Option<&Shared<Encoding>>
        ensures { option_copied result ≡ spec.encoding_kept self.now mention }
    {
        let statements = self.sections.get(mention.section)?;
        let statement = statements.get(mention.item)?;
        match &statement.encoding {
            Some(encoding) => Some(encoding),
            None => None,
        }
    }
}

/// What the statements of UNCOMPRESSED, CONTROL and DEFAULT say in each format of the method of this setting, as far as they name no local field.
pub fn kept_statements<'t>(alloc: Global, setting: &Setting<'_, 't>) -> Result<Kept<'t>, AllocError>
    ensures { IfOk result (spec.HasKept setting.now) }
{
    let found = in_order(alloc, setting.text, setting.sections, &[])?;
    let table = found.settled(alloc)?;
    let scope = Scope::new(
        setting.text,
        setting.constants,
        setting.values,
        setting.parameters,
        &table.words,
    );
    let sections = kept_sections(alloc, &scope, setting.methods, setting.sections)?;
    let fields = kept_fields(alloc, setting, table.firsts.as_slice())?;
    let bare = Shared::new(alloc, Encoding::Bare)?;
    Ok(Kept {
        sections,
        table,
        fields,
        bare,
    })
}

fn kept_sections(
    alloc: Global,
    scope: &Scope<'_, '_>,
    methods: &Methods<'_, '_>,
    sections: &[Section],
) -> Result<Items<Items<KeptStatement>>, AllocError>
    ensures { IfOk result (AllZip (spec.SectionIsKept scope.now methods.now) sections.now) }
{
    let mut kept = Items::from_vec(Vec::with_capacity(alloc, sections.len())?);
    for section in sections {
        kept.push(kept_section(alloc, scope, methods, section)?)?;
    }
    Ok(kept)
}

fn kept_section(
    alloc: Global,
    scope: &Scope<'_, '_>,
    methods: &Methods<'_, '_>,
    section: &Section,
) -> Result<Items<KeptStatement>, AllocError>
    ensures { IfOk result (spec.SectionIsKept scope.now methods.now section.now) }
{
    if is_in(Group::Base, section.kind) {
        kept_items(alloc, scope, methods, section.items.as_slice())
    } else if is_in(Group::Default, section.kind) {
        kept_encodings(alloc, scope, methods, section.items.as_slice())
    } else {
        Ok(Items::new(alloc))
    }
}

/// The encodings of the statements alone.
fn kept_encodings(
    alloc: Global,
    scope: &Scope<'_, '_>,
    methods: &Methods<'_, '_>,
    items: &[Item],
) -> Result<Items<KeptStatement>, AllocError>
    ensures { IfOk result (AllZip (spec.IsKept scope.now methods.now) items.now) }
{
    let mut kept = Items::from_vec(Vec::with_capacity(alloc, items.len())?);
    for item in items {
        let encoding = kept_encoding(alloc, scope, methods, item)?;
        kept.push(KeptStatement {
            constraints: None,
            encoding,
        })?;
    }
    Ok(kept)
}

fn kept_items(
    alloc: Global,
    scope: &Scope<'_, '_>,
    methods: &Methods<'_, '_>,
    items: &[Item],
) -> Result<Items<KeptStatement>, AllocError>
    ensures { IfOk result (AllZip (spec.IsKept scope.now methods.now) items.now) }
{
    let mut kept = Items::from_vec(Vec::with_capacity(alloc, items.len())?);
    for item in items {
        kept.push(kept_statement(alloc, scope, methods, item)?)?;
    }
    Ok(kept)
}

fn kept_statement(
    alloc: Global,
    scope: &Scope<'_, '_>,
    methods: &Methods<'_, '_>,
    item: &Item,
) -> Result<KeptStatement, AllocError>
    ensures { IfOk result (spec.IsKept scope.now methods.now item.now) }
{
    let constraints = kept_constraints(alloc, scope, item)?;
    let encoding = kept_encoding(alloc, scope, methods, item)?;
    Ok(KeptStatement {
        constraints,
        encoding,
    })
}

/// The constraints of a statement, where it has no fault and its field is in the scope.
fn kept_constraints(
    alloc: Global,
    scope: &Scope<'_, '_>,
    item: &Item,
) -> Result<Option<Items<Shared<Constraint>>>, AllocError>
    ensures { IfOk result (λ kept. IfSome kept (spec.Says scope.now item.now)) }
{
    if !names_field(scope, item) {
        return Ok(None);
    }
    match item_constraints(alloc, scope, Side::Uncompressed, item) {
        Ok(said) => {
            let found = said.listed(alloc)?;
            Ok(Some(found))
        }
        Err(error) => {
            let _fault = fault_of(error)?;
            Ok(None)
        }
    }
}

/// Whether the field of a statement is in the scope. An ENFORCE has none.
fn names_field(scope: &Scope<'_, '_>, item: &Item) -> bool
    ensures { result ≡ spec.names_field scope.now item.now }
{
    match item {
        Item::Field(name, _) => scope.field(*name).is_some(),
        Item::Bound(bound) => scope.field(bound.name).is_some(),
        Item::Enforce(_, _) => true,
    }
}

/// The encoding that a statement gives, where it has no fault.
fn kept_encoding(
    alloc: Global,
    scope: &Scope<'_, '_>,
    methods: &Methods<'_, '_>,
    item: &Item,
) -> Result<Option<Shared<Encoding>>, AllocError>
    ensures { IfOk result (λ kept. IfSome kept (spec.Gives scope.now methods.now item.now)) }
{
    match item {
        Item::Bound(bound) => bound_encoding(alloc, scope, methods, bound),
        _ => Ok(None),
    }
}

fn bound_encoding(
    alloc: Global,
    scope: &Scope<'_, '_>,
    methods: &Methods<'_, '_>,
    bound: &Bound,
) -> Result<Option<Shared<Encoding>>, AllocError>
    ensures { IfOk result (λ kept. IfSome kept (spec.IsGiven scope.now methods.now bound.now.encoding)) }
{
    match encoding(alloc, scope, methods, &bound.encoding) {
        Ok(found) => {
            let shared = Shared::new(alloc, found)?;
            Ok(Some(shared))
        }
        Err(error) => {
            let _fault = fault_of(error)?;
            Ok(None)
        }
    }
}
