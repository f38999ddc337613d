//! The encodings of a format's fields.

ghost use Rattle.std.specs.Prelude.{◌≡◌, true, Some, None, IfOk, IfErr};
ghost use Rattle.std.specs.List.{AllZip};
ghost use Rattle.sem_profile.specs.Faults as faults;
ghost use Rattle.text_statements.specs.Judged.{Refuses};
ghost use Rattle.text_statements.specs.Encodings.{fault_of as first_fault};
ghost use Rattle.text_sections.specs.Causes.{earliest};
ghost use Rattle.text_methods.specs.Encodings as spec;
ghost use Rattle.text_methods.specs.Kept.{AreGiven};

use crate::constraints::{choice_of, is_at};
use crate::kept::Kept;
use sem_profile::{Encoding, ProfileFault, ResolveError, Shared, earlier, fault_of};
use sqlite_items::Items;
use std::alloc::{AllocError, Global};
use text_sections::{Mention, encoding_at};
use text_statements::{Methods, Scope, encoding};
use text_tree::{Bound, Item, Section};

/// The encodings of a format's fields, in field order, and the earliest fault of encodings. With a fault some are missing.
#[derive(Drop)]
pub struct Encodings {
    pub found: Items<Shared<Encoding>>,
    pub fault: Option<ProfileFault>,
}

/// A section of a method: its number among the method's sections, its statements, and the place of the field that each mention of them stands for.
#[derive(Clone, Copy)]
pub(crate) struct OwnSection<'a> {
    pub number: usize,
    pub items: &'a [Item],
    pub listing: &'a [usize],
}

/// The encodings of the fields whose encoding statements these are, and the earliest fault in them and in all that the section's statements
/// give, whether a field is encoded by them or not.
#[tactic(auto, unfolding(crate::specs::Encodings::format_fault))]
pub(crate) fn format_encodings(
    alloc: Global,
    scope: &Scope<'_, '_>,
    methods: &Methods<'_, '_>,
    sections: &[Section],
    kept: &Kept<'_>,
    chosen: &[Option<Mention>],
    own: &OwnSection<'_>,
) -> Result<Encodings, AllocError>
    requires given { AreGiven scope.now methods.now kept.now sections.now }
    requires bare { kept.now.bare ≡ Encoding.Bare }
    requires own { spec.items_at sections.now own.now.number ≡ Some own.now.items.now }
    ensures fault { IfOk result (λ e. e.fault ≡ spec.format_fault scope.now methods.now sections.now chosen.now own.now.items.now) }
    ensures found { IfOk result (λ e. e.fault ≡ None → AllZip (spec.FieldMeans scope.now methods.now sections.now) chosen.now e.found) }
{
    let encodings = field_encodings(alloc, scope, methods, sections, kept, chosen)?;
    let fine = fine_ones(chosen, &encodings.fault);
    let own_fault = own_fault(alloc, scope, methods, fine, own)?;
    Ok(Encodings {
        found: encodings.found,
        fault: earlier(encodings.fault, own_fault),
    })
}

/// The encodings of the fields whose encoding statements these are.
fn field_encodings(
    alloc: Global,
    scope: &Scope<'_, '_>,
    methods: &Methods<'_, '_>,
    sections: &[Section],
    kept: &Kept<'_>,
    chosen: &[Option<Mention>],
) -> Result<Encodings, AllocError>
    requires given { AreGiven scope.now methods.now kept.now sections.now }
    requires bare { kept.now.bare ≡ Encoding.Bare }
    ensures fault { IfOk result (λ e. e.fault ≡ earliest (spec.field_fault scope.now methods.now sections.now) chosen.now) }
    ensures found { IfOk result (λ e. e.fault ≡ None → AllZip (spec.FieldMeans scope.now methods.now sections.now) chosen.now e.found) }
{
    let mut found = Items::from_vec(Vec::with_capacity(alloc, chosen.len())?);
    let mut fault = None;
    for choice in chosen {
        match field_encoding(alloc, scope, methods, sections, kept, choice) {
            Ok(encoding) => found.push(encoding)?,
            Err(error) => fault = earlier(fault, Some(fault_of(error)?)),
        }
    }
    Ok(Encodings { found, fault })
}

/// The encoding of a field: what is kept of the chosen statement, or else what it means.
fn field_encoding(
    alloc: Global,
    scope: &Scope<'_, '_>,
    methods: &Methods<'_, '_>,
    sections: &[Section],
    kept: &Kept<'_>,
    choice: &Option<Mention>,
) -> Result<Shared<Encoding>, ResolveError>
    requires given { AreGiven scope.now methods.now kept.now sections.now }
    requires bare { kept.now.bare ≡ Encoding.Bare }
    ensures means { IfOk result (spec.FieldMeans scope.now methods.now sections.now choice.now) }
    ensures right { IfOk result (λ _. spec.field_fault scope.now methods.now sections.now choice.now ≡ None) }
    ensures refused { IfErr result (Refuses (spec.field_fault scope.now methods.now sections.now choice.now)) }
{
    let Some(mention) = choice else {
        return Ok(kept.bare.share()?);
    };
    if let Some(encoding) = kept.encoding(*mention) {
        return Ok(encoding.share()?);
    }
    let encoding = resolved_encoding(alloc, scope, methods, sections, choice)?;
    Ok(Shared::new(alloc, encoding)?)
}

fn resolved_encoding(
    alloc: Global,
    scope: &Scope<'_, '_>,
    methods: &Methods<'_, '_>,
    sections: &[Section],
    choice: &Option<Mention>,
) -> Result<Encoding, ResolveError>
    ensures means { IfOk result (spec.FieldMeans scope.now methods.now sections.now choice.now) }
    ensures right { IfOk result (λ _. spec.field_fault scope.now methods.now sections.now choice.now ≡ None) }
    ensures refused { IfErr result (Refuses (spec.field_fault scope.now methods.now sections.now choice.now)) }
{
    let Some(mention) = choice else {
        return Ok(Encoding::Bare);
    };
    match encoding_at(sections, *mention) {
        Some(given) => encoding(alloc, scope, methods, given),
        None => Ok(Encoding::Bare),
    }
}

/// The choices whose encodings have no fault: all where none was found.
fn fine_ones<'a>(
    chosen: &'a [Option<Mention>],
    fault: &Option<ProfileFault>,
) -> &'a [Option<Mention>]
    ensures { result.now ≡ spec.fine_ones fault.now chosen.now }
{
    match fault {
        None => chosen,
        Some(_) => &[],
    }
}

/// The earliest fault in the encodings that the statements of a section give. Those that are chosen by the fine ones have none,
/// and these are found by the fields that the section's mentions stand for.
fn own_fault(
    alloc: Global,
    scope: &Scope<'_, '_>,
    methods: &Methods<'_, '_>,
    fine: &[Option<Mention>],
    own: &OwnSection<'_>,
) -> Result<Option<ProfileFault>, AllocError>
    requires { spec.AreFine scope.now methods.now fine.now own.now.number own.now.items.now }
    ensures { IfOk result (λ fault. fault ≡ earliest (spec.own_fault scope.now methods.now) own.now.items.now) }
{
    let mut fault = None;
    let mut next = 0;
    for (place, item) in own.items.iter().enumerate() {
        let is_fine = is_at(
            own.number,
            place,
            choice_of(fine, own.listing.get(next).copied()),
        );
        fault = earlier(fault, item_fault(alloc, scope, methods, item, is_fine)?);
        next = after(item, next);
    }
    Ok(fault)
}

/// The place of the next mention, after a statement. An ENFORCE has none.
fn after(item: &Item, place: usize) -> usize {
    match item {
        Item::Enforce(_, _) => place,
        _ => place.wrapping_add(1),
    }
}

/// The first fault in the encoding of a statement, if it gives one.
fn item_fault(
    alloc: Global,
    scope: &Scope<'_, '_>,
    methods: &Methods<'_, '_>,
    item: &Item,
    is_fine: bool,
) -> Result<Option<ProfileFault>, AllocError>
    requires { is_fine ≡ true → spec.own_fault scope.now methods.now item.now ≡ None }
    ensures { IfOk result (λ fault. fault ≡ spec.own_fault scope.now methods.now item.now) }
{
    if is_fine {
        return Ok(None);
    }
    match item {
        Item::Bound(bound) => encoding_fault(alloc, scope, methods, bound),
        _ => Ok(None),
    }
}

/// The first fault in the encoding of a statement.
pub fn encoding_fault(
    alloc: Global,
    scope: &Scope<'_, '_>,
    methods: &Methods<'_, '_>,
    bound: &Bound,
) -> Result<Option<ProfileFault>, AllocError>
    ensures { IfOk result (λ fault. fault ≡ first_fault scope.now methods.now bound.now.encoding) }
{
    match encoding(alloc, scope, methods, &bound.encoding) {
        Ok(_) => Ok(None),
        Err(error) => Ok(Some(fault_of(error)?)),
    }
}
