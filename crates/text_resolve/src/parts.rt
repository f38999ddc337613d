//! The constants and methods of a file, by their names.

ghost use Rattle.std.specs.Prelude.{◌≡◌, IfOk, IfErr};
ghost use Rattle.sem_profile.specs.Precedence.{Blames};
ghost use Rattle.text_resolve.specs.Parts as spec;
ghost use Rattle.text_resolve.specs.Twice.{AreTables, Twice};

use sem_profile::{ProfileFault, ProfileFaultKind, ResolveError, Words, word};
use std::alloc::Global;
use text_source::Span;
use text_statements::is_library;
use text_tree::Part;

/// The names of the constants and of the methods of a file, each in the order of the text.
#[derive(Drop)]
pub struct FileNames<'a> {
    pub constants: Words<'a>,
    pub methods: Words<'a>,
}

/// The tables of a file, or the fault of the first name that is defined twice: of constants, of methods, or by a method with a
/// library method's name.
pub(crate) fn tables<'a>(
    alloc: Global,
    text: &'a [u8],
    parts: &[Part],
) -> Result<FileNames<'a>, ResolveError>
    ensures found { IfOk result (λ t. AreTables text.now parts.now t.constants t.methods) }
    ensures refused { IfErr result (Blames (Twice text.now parts.now)) }
{
    let mut constants = Words::new(alloc);
    let mut methods = Words::new(alloc);
    for part in parts {
        match part {
            Part::Constant(constant) => {
                if !constants.insert(word(text, constant.name))? {
                    return Err(second(constant.name));
                }
            }
            Part::Method(method) => {
                if is_library(word(text, method.name)) {
                    return Err(second(method.name));
                }
                if !methods.insert(word(text, method.name))? {
                    return Err(second(method.name));
                }
            }
        }
    }
    Ok(FileNames { constants, methods })
}

fn second(name: Span) -> ResolveError
    ensures { result ≡ ResolveError.Fault (spec.twice_at name) }
{
    ResolveError::Fault(ProfileFault::about(ProfileFaultKind::DefinedTwice, name))
}
