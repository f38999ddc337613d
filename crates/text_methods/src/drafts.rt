//! The parts of a format.

ghost use Rattle.std.specs.Prelude.{◌≡◌, Some, IfOk, map, slice_get};
ghost use Rattle.text_sections.specs.Fields.{in_field_order, place};
ghost use Rattle.text_sections.specs.Tables.{IsTable};
ghost use Rattle.text_methods.specs.Drafts as spec;
ghost use Rattle.text_methods.specs.Kept.{HasKept};

use crate::constraints::format_constraints;
use crate::encodings::{OwnSection, format_encodings};
use crate::kept::Kept;
use sem_bits::Bits;
use sem_profile::{Constraint, Encoding, ProfileFault, Shared, Words, earlier};
use sqlite_items::Items;
use std::alloc::{AllocError, Global};
use text_sections::{Mention, Table, encodings, listing, of_section, own_encodings};
use text_statements::{Methods, Scope};
use text_tree::Section;

/// What all formats of a method have in common. The values are those of the constants in their order.
#[derive(Drop)]
pub struct Setting<'a, 't> {
    pub text: &'t [u8],
    pub constants: &'a Words<'t>,
    pub values: &'a [i128],
    pub parameters: &'a Words<'t>,
    pub methods: &'a Methods<'a, 't>,
    pub sections: &'a [Section],
    /// The encoded fields of UNCOMPRESSED and CONTROL.
    pub base: &'a Table<'t>,
    /// The encoded fields of DEFAULT.
    pub default: &'a Table<'t>,
    /// The names that INITIAL gives values, and these, side by side.
    pub initial_names: &'a Words<'t>,
    pub initial_values: &'a [Bits],
    /// The names of the asked fields.
    pub asked: &'a Words<'t>,
}

/// The parts of a format, and the earliest fault in them: fields in field order, their encodings, which of them the format lists, and its constraints. With a fault some are missing.
#[derive(Drop)]
pub struct Draft<'t> {
    pub fields: Table<'t>,
    pub listing: Items<usize>,
    pub encodings: Items<Shared<Encoding>>,
    pub constraints: Items<Shared<Constraint>>,
    pub fault: Option<ProfileFault>,
}

/// The parts of the format of a COMPRESSED section, which is the method's section of this number.
pub(crate) fn draft_format<'t>(
    alloc: Global,
    setting: &Setting<'_, 't>,
    kept: &Kept<'t>,
    number: usize,
    section: &Section,
) -> Result<Draft<'t>, AllocError>
    requires kept { HasKept setting.now kept.now }
    requires section { slice_get setting.now.sections.now number ≡ Some section.now }
    ensures fields { IfOk result (λ d. d.fields.firsts ≡ spec.fields setting.now number section.now) }
    ensures draft { IsTable setting.now.text.now (spec.base setting.now) setting.now.base.now → IsTable setting.now.text.now (spec.default setting.now) setting.now.default.now → IfOk result (spec.IsDraft setting.now number section.now) }
{
    let text = setting.text;
    let own = of_section(alloc, text, number, section)?;
    let fields = format_fields(alloc, setting, kept, own.as_slice())?;
    let listing = listing(alloc, text, &fields, own.as_slice())?;
    let chosen = choices(alloc, setting, &fields, own.as_slice(), listing.as_slice())?;
    let scope = Scope::new(
        text,
        setting.constants,
        setting.values,
        setting.parameters,
        &fields.words,
    );
    let chosen = chosen.as_slice();
    let items = section.items.as_slice();
    let own_section = OwnSection {
        number,
        items,
        listing: listing.as_slice(),
    };
    let encodings = format_encodings(
        alloc,
        &scope,
        setting.methods,
        setting.sections,
        kept,
        chosen,
        &own_section,
    )?;
    let constraints = format_constraints(alloc, &scope, setting.sections, kept, chosen, items)?;
    let fault = earlier(encodings.fault, constraints.fault);
    Ok(Draft {
        fields,
        listing,
        encodings: encodings.found,
        constraints: constraints.found,
        fault,
    })
}

/// The fields of a format that gives these mentions.
fn format_fields<'t>(
    alloc: Global,
    setting: &Setting<'_, 't>,
    kept: &Kept<'t>,
    own: &[Mention],
) -> Result<Table<'t>, AllocError>
    requires { HasKept setting.now kept.now }
    ensures { IfOk result (IsTable setting.now.text.now (in_field_order setting.now.text.now setting.now.sections.now own.now)) }
{
    kept.table.with(alloc, setting.text, own)
}

/// For each field the statement that encodes it. The section's own mentions are given, and the places of their fields.
fn choices(
    alloc: Global,
    setting: &Setting<'_, '_>,
    fields: &Table<'_>,
    own: &[Mention],
    listing: &[usize],
) -> Result<Items<Option<Mention>>, AllocError>
    requires fields { IsTable setting.now.text.now (in_field_order setting.now.text.now setting.now.sections.now own.now) fields.now }
    requires listing { listing.now ≡ map (place setting.now.text.now fields.now.words) own.now }
    ensures { IsTable setting.now.text.now (spec.base setting.now) setting.now.base.now → IsTable setting.now.text.now (spec.default setting.now) setting.now.default.now → IfOk result (λ all. all ≡ spec.chosen_by setting.now own.now fields.now.firsts) }
{
    let own = own_encodings(alloc, setting.text, fields, own, listing)?;
    encodings(
        alloc,
        setting.text,
        setting.base,
        own.as_slice(),
        setting.default,
        fields.firsts.as_slice(),
    )
}
