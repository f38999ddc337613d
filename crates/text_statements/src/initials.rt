//! The values of INITIAL.

ghost use Rattle.std.specs.Prelude.{◌≡◌, ◌∷◌, [], IfOk, OnOk};
ghost use Rattle.text_statements.specs.Initials as spec;

use crate::{Scope, initial_bits};
use sem_bits::Bits;
use sem_profile::{ProfileFault, Words, earlier, fault_of, word};
use sqlite_items::Items;
use std::alloc::{AllocError, Global};
use text_tree::{Bound, Item, Section};

/// The fields that statements of INITIAL name, each once, and their bits; and the earliest fault of the statements.
#[derive(Drop)]
pub struct Initials<'t> {
    pub names: Words<'t>,
    pub values: Items<Bits>,
    pub fault: Option<ProfileFault>,
}

/// The values that the sections INITIAL give. Of a field's several statements the first counts.
pub(crate) fn read_initials<'t>(
    alloc: Global,
    text: &'t [u8],
    scope: &Scope<'_, '_>,
    sections: &[Section],
) -> Result<Initials<'t>, AllocError>
    requires { scope.now.text ≡ text.now }
    ensures { IfOk result (spec.AreRead scope.now (spec.bounds_in sections.now)) }
{
    let mut initials = Initials {
        names: Words::new(alloc),
        values: Items::new(alloc),
        fault: None,
    };
    for section in sections {
        if section.kind.is_initial() {
            read_items(alloc, text, scope, section.items.as_slice(), &mut initials)?;
        }
    }
    Ok(initials)
}

fn read_items<'t>(
    alloc: Global,
    text: &'t [u8],
    scope: &Scope<'_, '_>,
    items: &[Item],
    initials: &mut Initials<'t>,
) -> Result<(), AllocError>
    requires { scope.now.text ≡ text.now }
    ensures { OnOk result (spec.ReadOn scope.now (spec.bounds_of items.now) initials.old initials.new) }
{
    for item in items {
        if let Item::Bound(bound) = item {
            read_bound(alloc, text, scope, bound, &mut *initials)?;
        }
    }
    Ok(())
}

fn read_bound<'t>(
    alloc: Global,
    text: &'t [u8],
    scope: &Scope<'_, '_>,
    bound: &Bound,
    initials: &mut Initials<'t>,
) -> Result<(), AllocError>
    requires { scope.now.text ≡ text.now }
    ensures { OnOk result (spec.ReadOn scope.now (bound.now ∷ []) initials.old initials.new) }
{
    match initial_bits(alloc, scope, bound) {
        Ok(bits) => keep(word(text, bound.name), bits, initials),
        Err(error) => {
            let fault = fault_of(error)?;
            initials.fault = earlier(initials.fault, Some(fault));
            Ok(())
        }
    }
}

/// Keeps the bits of a field, unless it has some.
fn keep<'t>(name: &'t [u8], bits: Bits, initials: &mut Initials<'t>) -> Result<(), AllocError>
    ensures { OnOk result (initials.new ≡ spec.with_value initials.old name.now bits) }
{
    if initials.names.insert(name)? {
        initials.values.push(bits)?;
    }
    Ok(())
}
