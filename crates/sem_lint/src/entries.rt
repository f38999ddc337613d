//! Entries that may be in the context, found by their paths. A look-up goes by the order of the paths, so no choice of names makes it slow.

ghost use Rattle.std.specs.Prelude.{◌≡◌, ◌||◌, ◌++◌, ℕ, List, true, IfOk, OnOk, string_bytes};
ghost use Rattle.std.specs.BTreeSet.{contains_text};
ghost use Rattle.std.specs.List.{list_any};
ghost use Rattle.std.specs.Str.{bytes_eq};
ghost use Rattle.sem_lint.specs.Entries as spec;
ghost use Rattle.sem_lint.specs.NeedsSteps as steps;
ghost use Rattle.sem_lint.specs.Paths as paths;

use crate::paths::is_kept;
use sem_profile::{Field, Format};
use std::alloc::{AllocError, Global};
use std::collections::{BTreeMap, BTreeSet};

/// A field that leaves an entry: its site, its format and itself, by their numbers.
#[derive(Clone, Copy)]
pub struct EntrySource {
    pub place: usize,
    pub format: usize,
    pub field: usize,
}

/// The path of an entry of that name.
pub(crate) fn entry_path(alloc: Global, path: &str, name: &str) -> Result<String, AllocError>
    ensures { IfOk result (λ text. string_bytes text ≡ path.now ++ name.now) }
{
    let mut entry = String::from_str(alloc, path)?;
    entry.push_str(name)?;
    Ok(entry)
}

/// The paths of the context at the start.
pub(crate) fn given_paths(alloc: Global, given: &[&str]) -> Result<BTreeSet<String>, AllocError>
    ensures { IfOk result (λ paths. (p : _) → contains_text paths p ≡ list_any (bytes_eq p) (steps.texts given.now)) }
{
    let mut paths = BTreeSet::new(alloc);
    for path in given {
        put_path(alloc, path, &mut paths)?;
    }
    Ok(paths)
}

fn put_path(alloc: Global, path: &str, paths: &mut BTreeSet<String>) -> Result<(), AllocError>
    ensures { OnOk result ((p : _) → contains_text paths.new p ≡ (contains_text paths.old p || bytes_eq p path.now)) }
{
    let own = String::from_str(alloc, path)?;
    paths.insert(own)?;
    Ok(())
}

/// Lists what the formats of a site leave below a path.
pub(crate) fn list_formats(
    alloc: Global,
    path: &str,
    place: usize,
    formats: &[Format],
    left: &mut BTreeMap<String, EntrySource>,
) -> Result<(), AllocError>
    ensures { OnOk result (spec.ListsEach path.now paths.keeps_in formats.now left.old left.new) }
{
    for (number, format) in formats.iter().enumerate() {
        list_fields(alloc, path, place, number, format.fields.as_slice(), left)?;
    }
    Ok(())
}

fn list_fields(
    alloc: Global,
    path: &str,
    place: usize,
    format: usize,
    fields: &[Field],
    left: &mut BTreeMap<String, EntrySource>,
) -> Result<(), AllocError>
    ensures { OnOk result (spec.ListsEach path.now paths.keeps_by fields.now left.old left.new) }
{
    for (index, field) in fields.iter().enumerate() {
        let source = EntrySource {
            place,
            format,
            field: index,
        };
        list_field(alloc, path, source, field, left)?;
    }
    Ok(())
}

/// Lists the entry that a field leaves, unless it is listed.
fn list_field(
    alloc: Global,
    path: &str,
    source: EntrySource,
    field: &Field,
    left: &mut BTreeMap<String, EntrySource>,
) -> Result<(), AllocError>
    ensures { OnOk result (spec.ListsField path.now field.now left.old left.new) }
{
    if !is_kept(field) {
        return Ok(());
    }
    let entry = entry_path(alloc, path, field.declared.name.as_str())?;
    list_entry(entry, source, left)
}

fn list_entry(
    entry: String,
    source: EntrySource,
    left: &mut BTreeMap<String, EntrySource>,
) -> Result<(), AllocError>
    ensures stay { OnOk result (spec.Stay left.old left.new) }
    ensures there { OnOk result (spec.Has left.new (string_bytes entry)) }
{
    if left.contains_key(entry.as_str()) {
        return Ok(());
    }
    left.insert(entry, source)?;
    Ok(())
}
