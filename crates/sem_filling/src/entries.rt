//! What a filling leaves in the context.

ghost use Rattle.std.specs.Prelude.{◌≡◌, ◌++◌, [], map, IfOk, IfSome, IsTrue, OnOk, OnErr, string_bytes};
ghost use Rattle.std.specs.Map.{keys_of};
ghost use Rattle.sem_context.specs.Entries.{IsFront};
ghost use Rattle.sem_filling.specs.Entries.{Path, below, own_entry, entries, entries_below, next, GoesOn};
ghost use Rattle.sem_filling.specs.FillingLaws.{entries_at};

use crate::filling::{FilledField, Filling};
use sem_bits::Bits;
use sem_context::Context;
use sem_context::path::are_same;
use sem_profile::Part;
use std::alloc::{AllocError, Global};
use std::marker::Model;

/// For how many bits of entries room is made at once, at most: a context may have many more entries than a filling.
const MANY: usize = 128;

impl Filling {
    ghost use Rattle.std.specs.Prelude.{◌≡◌, map, IfOk, string_bytes};
    ghost use Rattle.sem_filling.specs.Entries.{entries};

    /// The bits that each header and control field leaves in the context, with its path: a field before those of the filling
    /// inside it, and all in field order.
    pub fn entries(&self, alloc: Global) -> Result<Vec<(String, Bits)>, AllocError>
        ensures { IfOk result (λ v. map (λ e. (string_bytes e.0, e.1)) v.items ≡ entries self.now) }
    {
        let mut found = Vec::with_capacity(alloc, self.fields.len())?;
        add_entries(alloc, &mut found, self, "")?;
        Ok(found)
    }
}

/// The path of a field of that name below a path, which is empty at the top.
pub fn below(alloc: Global, path: &str, name: &str) -> Result<String, AllocError>
    ensures { IfOk result (λ p. string_bytes p ≡ below path.now name.now) }
{
    if path.is_empty() {
        return String::from_str(alloc, name);
    }
    let mut here = String::with_capacity(alloc, path.len() + 1 + name.len())?;
    here.push_str(path)?;
    here.push('.')?;
    here.push_str(name)?;
    Ok(here)
}

/// The path of a field below another. At the top that is the field's name, and takes no memory.
#[derive(Drop)]
pub struct FieldPath<'a> {
    name: &'a str,
    below: Option<String>,
}

impl<'a> Model for FieldPath<'a> {
    ghost use Rattle.std.specs.Prelude.{option_map, string_bytes};
    ghost use Rattle.sem_filling.specs.Entries.{Path, name_or_path};

    ghost Value = { Path };

    ghost view = { λ p. name_or_path p.name.now (option_map string_bytes p.below) };
}

impl<'a> FieldPath<'a> {
    /// The path of a field of that name below a path, which is empty at the top. The error is out of memory.
    pub fn of(alloc: Global, path: &str, name: &'a str) -> Result<FieldPath<'a>, AllocError>
        ensures { IfOk result (λ p. p ≡ below path.now name.now) }
    {
        let below = if path.is_empty() {
            None
        } else {
            Some(below(alloc, path, name)?)
        };
        Ok(FieldPath { name, below })
    }

    pub fn as_str(&self) -> &str
        ensures { result.now ≡ self.now }
    {
        match &self.below {
            Some(path) => path.as_str(),
            None => self.name,
        }
    }
}

/// Adds the entries of a filling that stands below a path.
fn add_entries(
    alloc: Global,
    found: &mut Vec<(String, Bits)>,
    filling: &Filling,
    path: &str,
) -> Result<(), AllocError>
    ensures { OnOk result (map (λ e. (string_bytes e.0, e.1)) found.new.items ≡ map (λ e. (string_bytes e.0, e.1)) found.old.items ++ entries_below filling.now path.now) }
{
    for field in filling.fields.as_slice() {
        let name = field.declared.name.as_str();
        let part = field.declared.part;
        if let Some(inner) = &field.inner {
            let here = FieldPath::of(alloc, path, name)?;
            add_own(alloc, found, part, here.as_str(), &field.uncompressed)?;
            add_entries(alloc, found, inner, here.as_str())?;
        } else {
            add_last(alloc, found, part, path, name, &field.uncompressed)?;
        }
    }
    Ok(())
}

/// Adds the entry that a field of that part leaves at its path; a local field leaves none.
fn add_own(
    alloc: Global,
    found: &mut Vec<(String, Bits)>,
    part: Part,
    path: &str,
    bits: &Bits,
) -> Result<(), AllocError>
    ensures { OnOk result (map (λ e. (string_bytes e.0, e.1)) found.new.items ≡ map (λ e. (string_bytes e.0, e.1)) found.old.items ++ own_entry part path.now bits.now) }
{
    match part {
        Part::Header | Part::Control => {
            found.push((String::from_str(alloc, path)?, bits.copy(alloc)?))?;
            Ok(())
        }
        Part::Local => Ok(()),
    }
}

/// Adds the entry that a field of that part and name leaves below a path. For a local field, which leaves none, no path is made.
fn add_last(
    alloc: Global,
    found: &mut Vec<(String, Bits)>,
    part: Part,
    path: &str,
    name: &str,
    bits: &Bits,
) -> Result<(), AllocError>
    ensures { OnOk result (map (λ e. (string_bytes e.0, e.1)) found.new.items ≡ map (λ e. (string_bytes e.0, e.1)) found.old.items ++ own_entry part (below path.now name.now) bits.now) }
{
    match part {
        Part::Header | Part::Control => {
            found.push((below(alloc, path, name)?, bits.copy(alloc)?))?;
            Ok(())
        }
        Part::Local => Ok(()),
    }
}

/// The bits of the entries that a filling leaves, where the first entries of the context have their paths, in their order. So they are put there without a path.
/// They stand in the room, which is an empty list.
fn values_in_order(
    alloc: Global,
    room: Vec<Bits>,
    context: &Context,
    filling: &Filling,
) -> Result<Option<Vec<Bits>>, AllocError>
    requires { room.items ≡ [] }
    ensures { IfOk result (λ o. IfSome o (λ values. IsFront (keys_of context.now) values.items (entries filling.now))) }
{
    let mut values = room;
    values.reserve(context.len().min(MANY))?;
    if !add_in_order(alloc, &mut values, context, filling, "")? {
        return Ok(None);
    }
    Ok(Some(values))
}

/// Adds the bits of the entries of a filling below a path, where those of the context that come next have their paths. Whether they have.
fn add_in_order(
    alloc: Global,
    values: &mut Vec<Bits>,
    context: &Context,
    filling: &Filling,
    path: &str,
) -> Result<bool, AllocError>
    ensures { IfOk result (λ is. IsTrue is → GoesOn (keys_of context.now) values.old.items values.new.items (entries_below filling.now path.now)) }
{
    for field in filling.fields.as_slice() {
        if leaves_nothing(field) {
            continue;
        }
        let Some(here) = add_next(
            alloc,
            values,
            context,
            field.declared.part,
            path,
            field.declared.name.as_str(),
            &field.uncompressed,
        )?
        else {
            return Ok(false);
        };
        if let Some(inner) = &field.inner {
            if !add_in_order(alloc, values, context, inner, here)? {
                return Ok(false);
            }
        }
    }
    Ok(true)
}

/// Whether a field leaves no entry: a local one with no filling inside.
fn leaves_nothing(field: &FilledField) -> bool
    ensures { IsTrue result → (path : Path) → entries_at path field.now ≡ [] }
{
    match field.declared.part {
        Part::Header | Part::Control => false,
        Part::Local => field.inner.is_none(),
    }
}

/// Adds the bits of the entry that a field of that part and name leaves below a path, where the context's entry that comes next has this path, which is given.
fn add_next<'a>(
    alloc: Global,
    values: &mut Vec<Bits>,
    context: &'a Context,
    part: Part,
    path: &str,
    name: &str,
    bits: &Bits,
) -> Result<Option<&'a str>, AllocError>
    ensures { IfOk result (λ o. IfSome o (λ here. (here.now ≡ below path.now name.now) × GoesOn (keys_of context.now) values.old.items values.new.items (own_entry part here.now bits.now))) }
{
    if let Part::Local = part {
        return Ok(None);
    }
    let Some(here) = context.path_at(values.len()) else {
        return Ok(None);
    };
    if !is_below(here, path, name) {
        return Ok(None);
    }
    values.push(bits.copy(alloc)?)?;
    Ok(Some(here))
}

/// Whether a path is that of a field of that name below another.
#[inline(always)]
pub fn is_below(here: &str, path: &str, name: &str) -> bool
    ensures { IsTrue result → here.now ≡ below path.now name.now }
{
    let octets = here.as_bytes();
    if path.is_empty() {
        return are_same(octets, name.as_bytes());
    }
    let front = path.len();
    if front >= octets.len() || octets[front] != b'.' {
        return false;
    }
    are_same(&octets[front + 1..], name.as_bytes()) && are_same(&octets[..front], path.as_bytes())
}

/// Puts what a filling leaves into the context: a path that is there keeps its place, a new one goes last, and of two entries
/// for one path the later counts. Where memory runs out the context is as before.
pub fn advance(alloc: Global, context: &mut Context, filling: &Filling) -> Result<(), AllocError>
    ensures ok { OnOk result (context.new ≡ next context.old filling.now) }
    ensures err { OnErr result (context.new ≡ context.old) }
{
    let room = context.take_room();
    if let Some(values) = values_in_order(alloc, room, context, filling)? {
        context.put_in_order(values);
        return Ok(());
    }
    let entries = filling.entries(alloc)?;
    context.replace(entries)
}
