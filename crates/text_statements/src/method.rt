//! What a method gives its fields beside encodings.

ghost use Rattle.std.specs.Prelude.{◌≡◌, IfOk};
ghost use Rattle.sem_profile.specs.Precedence.{Judged};
ghost use Rattle.text_statements.specs.Givens as spec;

use crate::Scope;
use crate::asked::asked_names;
use crate::initials::read_initials;
use sem_bits::Bits;
use sem_profile::{ProfileFault, Words};
use sqlite_items::Items;
use std::alloc::{AllocError, Global};
use text_tree::Section;

/// What a method gives its fields beside encodings.
#[derive(Drop)]
pub struct Givens<'t> {
    /// The fields that INITIAL names, each once, and their bits.
    pub names: Words<'t>,
    pub values: Items<Bits>,
    /// The names of the asked fields.
    pub asked: Words<'t>,
}

/// The givens, and the earliest fault of INITIAL. With a fault the givens are not whole.
#[derive(Drop)]
pub struct JudgedGivens<'t> {
    pub givens: Givens<'t>,
    pub fault: Option<ProfileFault>,
}

/// What the sections INITIAL and CONTROL of a method give. Only the top method has asked fields.
pub fn given<'t>(
    alloc: Global,
    text: &'t [u8],
    scope: &Scope<'_, '_>,
    sections: &[Section],
    is_top: bool,
) -> Result<JudgedGivens<'t>, AllocError>
    requires { scope.now.text ≡ text.now }
    ensures { IfOk result (λ g. Judged (spec.AreGiven scope.now sections.now is_top g.givens) (spec.IsNotGiven scope.now sections.now) g.fault) }
{
    let read = read_initials(alloc, text, scope, sections)?;
    let asked = if is_top {
        asked_names(alloc, text, scope, sections)?
    } else {
        Words::new(alloc)
    };
    Ok(JudgedGivens {
        givens: Givens {
            names: read.names,
            values: read.values,
            asked,
        },
        fault: read.fault,
    })
}
