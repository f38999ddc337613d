//! The format that a section gives.

ghost use Rattle.std.specs.Prelude.{◌≡◌, Some, IfOk, IfSome, slice_get};
ghost use Rattle.std.specs.Option.{option_map};
ghost use Rattle.sem_profile.specs.Words.{word as words};
ghost use Rattle.text_sections.specs.Tables.{IsTable};
ghost use Rattle.text_methods.specs.Drafts as drafts;
ghost use Rattle.text_methods.specs.Formats as spec;
ghost use Rattle.text_methods.specs.Kept.{HasKept};
ghost use Rattle.text_methods.specs.Worded as worded;

use crate::drafts::{Setting, draft_format};
use crate::fields::joined_fields;
use crate::kept::Kept;
use sem_profile::{Field, Format, Name, ProfileFault, Shared, word};
use std::alloc::{AllocError, Global};
use text_source::Span;
use text_tree::{Section, SectionKind};

/// A format, and the earliest fault in it. With a fault the format is not whole.
#[derive(Drop)]
pub struct Resolved {
    pub format: Format,
    pub fault: Option<ProfileFault>,
}

/// The format of a COMPRESSED section, which is the method's section of this number. It shares what is kept of UNCOMPRESSED, CONTROL and DEFAULT,
/// and names with the fields of the format before.
pub fn section_format<'t>(
    alloc: Global,
    setting: &Setting<'_, 't>,
    kept: &Kept<'t>,
    before: &[Field],
    number: usize,
    section: &Section,
) -> Result<Resolved, AllocError>
    requires sections { worded.AreSectionsWorded setting.now.text.now setting.now.sections.now }
    requires section { worded.SectionIsWorded setting.now.text.now section.now }
    requires kept { HasKept setting.now kept.now }
    requires own { slice_get setting.now.sections.now number ≡ Some section.now }
    ensures { IsTable setting.now.text.now (drafts.base setting.now) setting.now.base.now → IsTable setting.now.text.now (drafts.default setting.now) setting.now.default.now → IfOk result (spec.IsResolved setting.now number section.now) }
{
    let draft = draft_format(alloc, setting, kept, number, section)?;
    let name = format_name(alloc, setting.text, section.kind)?;
    let fields = joined_fields(
        alloc,
        setting,
        kept.fields.as_slice(),
        before,
        draft.fields.firsts.as_slice(),
        draft.encodings.as_slice(),
    )?;
    Ok(Resolved {
        format: Format {
            name,
            fields,
            listing: Shared::new(alloc, draft.listing)?,
            constraints: draft.constraints,
        },
        fault: draft.fault,
    })
}

fn format_name(alloc: Global, text: &[u8], kind: SectionKind) -> Result<Option<Name>, AllocError>
    requires { worded.KindIsWorded text.now kind }
    ensures { IfOk result (λ n. n ≡ spec.name text.now kind) }
{
    match kind {
        SectionKind::Compressed(given) => optional_name(alloc, text, given),
        _ => Ok(None),
    }
}

fn optional_name(
    alloc: Global,
    text: &[u8],
    given: Option<Span>,
) -> Result<Option<Name>, AllocError>
    requires { IfSome given (worded.IsNamed text.now) }
    ensures { IfOk result (λ n. n ≡ option_map (words text.now) given) }
{
    match given {
        Some(span) => {
            let name = Name::of_octets(alloc, word(text, span))?;
            Ok(Some(name))
        }
        None => Ok(None),
    }
}
