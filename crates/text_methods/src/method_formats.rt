//! The formats of a method.

ghost use Rattle.std.specs.Prelude.{◌≡◌, ◌+◌, ◌∷◌, List, Some, IfOk, OnOk, slice_get};
ghost use Rattle.text_tree.specs.declared.tree.Section.{Section as GivenSection};
ghost use Rattle.sem_profile.specs.Precedence.{Judged};
ghost use Rattle.text_sections.specs.Tables.{IsTable};
ghost use Rattle.text_methods.specs.Drafts as drafts;
ghost use Rattle.text_methods.specs.Kept.{HasKept};
ghost use Rattle.text_methods.specs.Worded.{AreSectionsWorded, SectionIsWorded};
ghost use Rattle.text_methods.specs.MethodFormats as spec;

use crate::{Kept, Setting, section_format};
use sem_profile::{Field, Format, ProfileFault, earlier};
use sqlite_items::Items;
use std::alloc::{AllocError, Global};
use text_sections::Group;
use text_sections::mention::is_in;
use text_tree::Section;

/// The formats of a method in the order of the text, and the earliest fault in them. With a fault they are not whole.
#[derive(Drop)]
pub struct Formats {
    pub found: Items<Format>,
    pub fault: Option<ProfileFault>,
}

/// The formats of the method of this setting. They share what is kept of UNCOMPRESSED and CONTROL.
pub(crate) fn listed_formats<'t>(
    alloc: Global,
    setting: &Setting<'_, 't>,
    kept: &Kept<'t>,
) -> Result<Formats, AllocError>
    requires sections { AreSectionsWorded setting.now.text.now setting.now.sections.now }
    requires kept { HasKept setting.now kept.now }
    ensures { IsTable setting.now.text.now (drafts.base setting.now) setting.now.base.now → IsTable setting.now.text.now (drafts.default setting.now) setting.now.default.now → IfOk result (λ all. Judged (spec.AreFormats setting.now 0 setting.now.sections.now all.found) (spec.FormatCause setting.now) all.fault) }
{
    let mut all = Formats {
        found: Items::new(alloc),
        fault: None,
    };
    for (place, section) in setting.sections.iter().enumerate() {
        add_section(alloc, setting, kept, place, section, &mut all)?;
    }
    Ok(all)
}

fn add_section<'t>(
    alloc: Global,
    setting: &Setting<'_, 't>,
    kept: &Kept<'t>,
    place: usize,
    section: &Section,
    all: &mut Formats,
) -> Result<(), AllocError>
    requires sections { AreSectionsWorded setting.now.text.now setting.now.sections.now }
    requires section { SectionIsWorded setting.now.text.now section.now }
    requires kept { HasKept setting.now kept.now }
    requires own { slice_get setting.now.sections.now place ≡ Some section.now }
    ensures { IsTable setting.now.text.now (drafts.base setting.now) setting.now.base.now → IsTable setting.now.text.now (drafts.default setting.now) setting.now.default.now → OnOk result ((rest : List GivenSection) → spec.Leads setting.now place (section.now ∷ rest) all.old → spec.Leads setting.now (place + 1) rest all.new) }
{
    if is_in(Group::Formats, section.kind) {
        let before = last_fields(all.found.as_slice());
        let resolved = section_format(alloc, setting, kept, before, place, section)?;
        all.found.push(resolved.format)?;
        all.fault = earlier(all.fault, resolved.fault);
    }
    Ok(())
}

/// The fields of the last of these formats.
fn last_fields(formats: &[Format]) -> &[Field] {
    match formats {
        [.., last] => last.fields.as_slice(),
        [] => &[],
    }
}
