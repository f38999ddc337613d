//! The methods of a file in their normal form.

ghost use Rattle.std.specs.Prelude.{◌≡◌, ◌+◌, ◌∷◌, ◌++◌, [], List, Option, ℕ, length, IfOk, IfErr, OnOk};
ghost use Rattle.text_tree.specs.declared.tree.Method.{Method as TreeMethod};
ghost use Rattle.text_tree.specs.declared.tree.Part.{Part as GivenPart};
ghost use Rattle.sem_profile.specs.Precedence.{Blames, Judged};
ghost use Rattle.text_sections.specs.Tables.{IsTable};
ghost use Rattle.text_methods.specs.Worded.{AreWorded, MethodIsWorded, PartIsWorded};
ghost use Rattle.text_resolve.specs.Methods as spec;
ghost use Rattle.text_resolve.specs.Parts.{methods_of};

use crate::file_names::FileHead;
use sem_profile::{Method, ProfileFault, ResolveError, earlier, reversed};
use sqlite_items::Items;
use std::alloc::{AllocError, Global};
use text_methods::{FileSetting, resolved_method};
use text_sections::mention::listed;
use text_sections::{Mention, Table};
use text_statements::Methods;
use text_tree::{Part, tree};

/// The methods so far in the order of the text, and the earliest fault in them.
#[derive(Drop)]
pub struct Drafts {
    pub found: Items<Method>,
    pub fault: Option<ProfileFault>,
}

/// The methods of a file with this head, or the earliest fault in them. The top is a place among the methods, if there is one. The
/// tree of each method is let go once that has its normal form.
pub(crate) fn resolved_methods<'t>(
    alloc: Global,
    text: &'t [u8],
    parts: Items<Part>,
    head: &FileHead<'t>,
    top: Option<usize>,
) -> Result<Items<Method>, ResolveError>
    requires head { spec.IsHead text.now parts head.now }
    requires words { AreWorded text.now parts }
    ensures found { IfOk result (spec.HaveForm text.now parts top) }
    ensures refused { IfErr result (Blames (spec.FormCause text.now parts)) }
{
    let mentions = constant_mentions(alloc, parts.as_slice())?;
    let listed = Table::of(alloc, text, mentions.as_slice())?;
    let methods = Methods {
        names: &head.names.methods,
        arities: head.arities.as_slice(),
    };
    let file = FileSetting {
        text,
        constants: &head.constants.names,
        values: head.constants.values.as_slice(),
        methods: &methods,
        listed: &listed,
    };
    let drafts = all_drafts(alloc, &file, parts, top)?;
    match drafts.fault {
        Some(fault) => Err(ResolveError::Fault(fault)),
        None => Ok(drafts.found),
    }
}

fn all_drafts(
    alloc: Global,
    file: &FileSetting<'_, '_>,
    parts: Items<Part>,
    top: Option<usize>,
) -> Result<Drafts, AllocError>
    requires table { IsTable file.now.text.now (spec.constant_mentions parts) file.now.listed.now }
    requires words { AreWorded file.now.text.now parts }
    ensures { IfOk result (λ d. Judged (spec.AreMethods file.now (spec.constant_mentions parts) top 0 (methods_of parts) d.found) (spec.InMethod file.now parts) d.fault) }
{
    let mut drafts = Drafts {
        found: Items::new(alloc),
        fault: None,
    };
    let mut rest = reversed(alloc, parts)?;
    while let Some(part) = rest.pop() {
        add_part(alloc, file, part, top, &mut drafts)?;
    }
    Ok(drafts)
}

/// Adds the method that the part is, if it is one. The part is let go.
fn add_part(
    alloc: Global,
    file: &FileSetting<'_, '_>,
    part: Part,
    top: Option<usize>,
    drafts: &mut Drafts,
) -> Result<(), AllocError>
    requires { PartIsWorded file.now.text.now part }
    ensures { (parts rest : List GivenPart) → IsTable file.now.text.now (spec.constant_mentions parts) file.now.listed.now
        → OnOk result (spec.Leads file.now parts top (length drafts.old.found) (methods_of (part ∷ rest)) drafts.old
        → spec.Leads file.now parts top (length drafts.new.found) (methods_of rest) drafts.new) }
{
    match part {
        Part::Method(method) => {
            let place = drafts.found.len();
            add_method(alloc, file, &method, is_at(top, place), drafts)?;
            Ok(())
        }
        Part::Constant(_constant) => Ok(()),
    }
}

/// The places where constants are named.
fn constant_mentions(alloc: Global, parts: &[Part]) -> Result<Items<Mention>, AllocError>
    ensures { IfOk result (λ all. all ≡ spec.constant_mentions parts.now) }
{
    let mut all = Items::new(alloc);
    for part in parts {
        if let Part::Constant(constant) = part {
            all.push(listed(constant.name))?;
        }
    }
    Ok(all)
}

fn is_at(top: Option<usize>, place: usize) -> bool
    ensures { result ≡ spec.is_at top place }
{
    match top {
        Some(top) => top == place,
        None => false,
    }
}

fn add_method(
    alloc: Global,
    file: &FileSetting<'_, '_>,
    method: &tree::Method,
    is_top: bool,
    drafts: &mut Drafts,
) -> Result<(), AllocError>
    requires { MethodIsWorded file.now.text.now method.now }
    ensures leads { (parts : List GivenPart) (top : Option ℕ) (k : ℕ) → IsTable file.now.text.now (spec.constant_mentions parts) file.now.listed.now → is_top ≡ spec.is_at top k → OnOk result ((rest : List TreeMethod) → spec.Leads file.now parts top k (method.now ∷ rest) drafts.old → spec.Leads file.now parts top (k + 1) rest drafts.new) }
    ensures one { OnOk result (length drafts.new.found ≡ length drafts.old.found + 1) }
{
    let draft = resolved_method(alloc, file, method, is_top)?;
    drafts.found.push(draft.method)?;
    drafts.fault = earlier(drafts.fault, draft.fault);
    Ok(())
}
