//! The names of a file, the values of its constants, and how many parameters its methods have.

ghost use Rattle.std.specs.Prelude.{◌≡◌, IfOk, IfErr};
ghost use Rattle.sem_profile.specs.Precedence.{Blames};
ghost use Rattle.text_statements.specs.Constants.{AreValues};
ghost use Rattle.text_resolve.specs.FileNames as spec;
ghost use Rattle.text_resolve.specs.Parts.{constants_of, constant_names, method_places};
ghost use Rattle.text_resolve.specs.Twice.{AreTables};

use crate::parts::{FileNames, tables};
use sem_profile::ResolveError;
use sqlite_items::Items;
use std::alloc::{AllocError, Global};
use text_source::Span;
use text_statements::Constants;
use text_tree::Part;

/// What is known of a file before its methods are read.
#[derive(Drop)]
pub struct FileHead<'a> {
    pub names: FileNames<'a>,
    pub constants: Constants<'a>,
    /// For each method how many parameters it has.
    pub arities: Items<usize>,
    /// For each method the place of its name.
    pub places: Items<Span>,
}

/// The head of a file, or the fault of the first name that is defined twice; where none is, that of the first constant without
/// a value.
pub(crate) fn head_of<'a>(
    alloc: Global,
    text: &'a [u8],
    parts: &[Part],
) -> Result<FileHead<'a>, ResolveError>
    ensures tables { IfOk result (λ h. AreTables text.now parts.now h.names.constants h.names.methods) }
    ensures names { IfOk result (λ h. h.constants.names ≡ constant_names text.now parts.now) }
    ensures values { IfOk result (λ h. AreValues text.now (constant_names text.now parts.now) (constants_of parts.now) h.constants.values) }
    ensures arities { IfOk result (λ h. h.arities ≡ spec.arities_of parts.now) }
    ensures places { IfOk result (λ h. h.places ≡ method_places parts.now) }
    ensures refused { IfErr result (Blames (spec.HeadCause text.now parts.now)) }
{
    let names = tables(alloc, text, parts)?;
    let constants = Constants::of_parts(alloc, text, parts)?;
    let arities = arities(alloc, parts)?;
    let places = places(alloc, parts)?;
    Ok(FileHead {
        names,
        constants,
        arities,
        places,
    })
}

fn arities(alloc: Global, parts: &[Part]) -> Result<Items<usize>, AllocError>
    ensures { IfOk result (λ arities. arities ≡ spec.arities_of parts.now) }
{
    let mut arities = Items::new(alloc);
    for part in parts {
        if let Part::Method(method) = part {
            arities.push(method.parameters.len())?;
        }
    }
    Ok(arities)
}

fn places(alloc: Global, parts: &[Part]) -> Result<Items<Span>, AllocError>
    ensures { IfOk result (λ places. places ≡ method_places parts.now) }
{
    let mut places = Items::new(alloc);
    for part in parts {
        if let Part::Method(method) = part {
            places.push(method.name)?;
        }
    }
    Ok(places)
}
