//! Formats of which a field lacks its reference.

ghost use Rattle.std.specs.Prelude.{◌≡◌, IfOk, MatchOption, Some};
ghost use Rattle.std.specs.Option.{option_copied};
ghost use Rattle.sem_filling.specs.Fits.{format_at};
ghost use Rattle.sem_reasons.specs.Reasons as spec;
ghost use Rattle.sem_reasons.specs.Settings.{setting_of};

use crate::conflict::wants_reference;
use crate::question::Question;
use sem_filling::below;
use sem_filling::reason::Reason;
use sem_filling::whole_sides::reference_below;
use sem_profile::{Field, Format};
use sqlite_items::at;
use std::alloc::{AllocError, Global};

/// The first field of the format that wants a reference where there is none. The error is out of memory.
pub(crate) fn unreferenced(
    alloc: Global,
    question: &Question<'_>,
    number: usize,
    format: &Format,
) -> Result<Option<Reason>, AllocError>
    requires { format_at question.now.profile.now.methods question.now.method number ≡ Some format.now }
    ensures { IfOk result (λ o. MatchOption o (spec.HasReferences (setting_of question.now) number) (spec.Stands (setting_of question.now) number)) }
{
    let fields = format.fields.as_slice();
    let Some(index) = lacking(alloc, question, fields)? else {
        return Ok(None);
    };
    let Some(field) = at(fields, index) else {
        return Ok(None);
    };
    let path = below(alloc, question.path, field.declared.name.as_str())?;
    Ok(Some(Reason::NoReference { field: index, path }))
}

/// The index of the first of these fields.
fn lacking(
    alloc: Global,
    question: &Question<'_>,
    fields: &[Field],
) -> Result<Option<usize>, AllocError>
    ensures { IfOk result (λ o. o ≡ spec.lacking (setting_of question.now) 0 fields.now) }
{
    for (index, field) in fields.iter().enumerate() {
        if lacks(alloc, question, field)? {
            return Ok(Some(index));
        }
    }
    Ok(None)
}

/// Whether the field wants a reference and has none.
fn lacks(alloc: Global, question: &Question<'_>, field: &Field) -> Result<bool, AllocError>
    ensures { IfOk result (λ b. b ≡ spec.lacks (setting_of question.now) field.now) }
{
    if !wants_reference(field.encoding.get()) {
        return Ok(false);
    }
    let reference = reference_below(alloc, question.context, question.path, field)?;
    Ok(reference.is_none())
}
