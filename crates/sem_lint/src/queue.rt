//! Formats that wait while what is known of sites grows.
//!
//! A format at a site takes its *turn*: it is looked at from the field on at which it stopped. Where a field lacks what it needs, the turn waits for just that: an
//! entry of the context, or a site that can be used. Where none does, the site can be used, and the turn waits for the site to be reached, unless it is. What has
//! become known wakes the turns that wait for it, so a field is looked at once or twice, however many sites there are. What is noted on the way is true; that
//! nothing is missed is for the caller to see.

ghost use Rattle.std.specs.Prelude.{◌≡◌, OnOk, Some, slice_get};
ghost use Rattle.sem_lint.specs.Entries as entries;
ghost use Rattle.sem_lint.specs.NeedsSteps as steps;
ghost use Rattle.sem_lint.specs.Sites as sites;

use crate::entries::entry_path;
use crate::growth::{
    Flags, Ground, Growth, NEITHER, add_format, is_dead, is_reached, is_served, needs_reference,
};
use crate::paths::{called_by, is_kept};
use crate::sites::{Site, find_site, format_at, inner_path};
use sem_profile::{Field, Format};
use sqlite_items::Items;
use std::alloc::{AllocError, Global};
use std::collections::BTreeMap;

/// A format at a site, by their numbers, and the first of its fields that is to be looked at.
#[derive(Clone, Copy)]
struct Turn {
    place: usize,
    format: usize,
    field: usize,
}

/// The turns of all formats at all sites.
#[derive(Drop)]
struct Waiting {
    /// Those to be taken, the next one last.
    turns: Vec<Turn>,
    /// Those that wait for an entry, by its path.
    entries: BTreeMap<String, Vec<Turn>>,
    /// Those that wait for a site, by its number: until it can be used, and until it is reached.
    usable: Vec<Vec<Turn>>,
    reached: Vec<Vec<Turn>>,
    /// What was known of each site when turns were last woken for it.
    seen: Vec<Flags>,
}

/// Notes what becomes known where each format takes its turn.
pub(crate) fn spread(
    alloc: Global,
    ground: &Ground<'_>,
    known: &mut Growth,
) -> Result<(), AllocError>
    requires sites { sites.AreSites ground.now.methods.now ground.now.top ground.now.sites.now }
    requires begun { steps.IsBegun ground.now known.old.flags }
    requires listed { entries.IsListed ground.now known.old }
    ensures begun { OnOk result (steps.IsBegun ground.now known.new.flags) }
    ensures listed { OnOk result (entries.IsListed ground.now known.new) }
{
    let mut waiting = all_turns(alloc, ground)?;
    for _ in 0..u64::MAX {
        let Some(turn) = waiting.turns.pop() else {
            return Ok(());
        };
        take_turn(alloc, ground, known, &mut waiting, turn)?;
    }
    Ok(())
}

/// A turn for each format at each site, the first one on top.
fn all_turns(alloc: Global, ground: &Ground<'_>) -> Result<Waiting, AllocError> {
    let mut waiting = Waiting {
        turns: Vec::new(alloc),
        entries: BTreeMap::new(alloc),
        usable: Vec::new(alloc),
        reached: Vec::new(alloc),
        seen: Vec::new(alloc),
    };
    for site in ground.sites {
        waiting.usable.push(Vec::new(alloc))?;
        waiting.reached.push(Vec::new(alloc))?;
        waiting.seen.push(NEITHER)?;
    }
    for place in (0..ground.sites.len()).rev() {
        push_turns(ground, place, &mut waiting)?;
    }
    Ok(waiting)
}

/// Adds a turn for each format of a site.
fn push_turns(ground: &Ground<'_>, place: usize, waiting: &mut Waiting) -> Result<(), AllocError> {
    for format in (0..formats_at(ground, place).len()).rev() {
        waiting.turns.push(Turn {
            place,
            format,
            field: 0,
        })?;
    }
    Ok(())
}

/// The formats of a site's method.
fn formats_at<'a>(ground: &Ground<'a>, place: usize) -> &'a [Format] {
    let Some(site) = ground.sites.get(place) else {
        return &[];
    };
    match ground.methods.get(site.method) {
        Some(method) => method.formats.as_slice(),
        None => &[],
    }
}

/// Looks at a format from its turn's field on: it waits for what that lacks, or it can be used.
fn take_turn(
    alloc: Global,
    ground: &Ground<'_>,
    known: &mut Growth,
    waiting: &mut Waiting,
    turn: Turn,
) -> Result<(), AllocError>
    requires sites { sites.AreSites ground.now.methods.now ground.now.top ground.now.sites.now }
    requires begun { steps.IsBegun ground.now known.old.flags }
    requires listed { entries.IsListed ground.now known.old }
    ensures begun { OnOk result (steps.IsBegun ground.now known.new.flags) }
    ensures listed { OnOk result (entries.IsListed ground.now known.new) }
{
    let Some(site) = ground.sites.get(turn.place) else {
        return Ok(());
    };
    let Some(format) = format_at(ground.methods, site.method, turn.format) else {
        return Ok(());
    };
    if is_dead(ground.dead, site.method, turn.format) {
        return Ok(());
    }
    let fields = format.fields.as_slice();
    match first_lacking(alloc, ground, known, site, fields, turn.field)? {
        Some(field) => wait(alloc, ground, site, fields, Turn { field, ..turn }, waiting),
        None => use_format(alloc, ground, known, site, format, turn, waiting),
    }
}

/// The place of the first field from one on that lacks what it needs.
fn first_lacking(
    alloc: Global,
    ground: &Ground<'_>,
    known: &Growth,
    site: &Site,
    fields: &[Field],
    from: usize,
) -> Result<Option<usize>, AllocError>
    requires sites { sites.AreSites ground.now.methods.now ground.now.top ground.now.sites.now }
    requires listed { entries.IsListed ground.now known.now }
{
    let path = site.path.as_str();
    for place in from..fields.len() {
        let Some(field) = fields.get(place) else {
            return Ok(None);
        };
        if !is_served(alloc, ground, known, path, field)? {
            return Ok(Some(place));
        }
    }
    Ok(None)
}

/// Notes that a format can be used, and wakes the turns that wait for what that makes known.
fn use_format(
    alloc: Global,
    ground: &Ground<'_>,
    known: &mut Growth,
    site: &Site,
    format: &Format,
    turn: Turn,
    waiting: &mut Waiting,
) -> Result<(), AllocError>
    requires sites { sites.AreSites ground.now.methods.now ground.now.top ground.now.sites.now }
    requires begun { steps.IsBegun ground.now known.old.flags }
    requires listed { entries.IsListed ground.now known.old }
    requires site { slice_get ground.now.sites.now turn.place ≡ Some site.now }
    requires format { sites.format_in ground.now.methods.now site.now.method turn.format ≡ Some format.now }
    ensures begun { OnOk result (steps.IsBegun ground.now known.new.flags) }
    ensures listed { OnOk result (entries.IsListed ground.now known.new) }
{
    add_format(alloc, ground, turn.place, site, turn.format, format, known)?;
    let fields = format.fields.as_slice();
    wake_all(
        alloc,
        ground,
        known.flags.as_slice(),
        site,
        fields,
        turn,
        waiting,
    )
}

// ---- waiting

/// Lets a turn wait for what its field lacks.
fn wait(
    alloc: Global,
    ground: &Ground<'_>,
    site: &Site,
    fields: &[Field],
    turn: Turn,
    waiting: &mut Waiting,
) -> Result<(), AllocError> {
    let Some(field) = fields.get(turn.field) else {
        return Ok(());
    };
    let path = site.path.as_str();
    let name = field.declared.name.as_str();
    if needs_reference(field) {
        let entry = entry_path(alloc, path, name)?;
        return wait_for_entry(alloc, entry, turn, &mut waiting.entries);
    }
    let Some(place) = place_inside(alloc, ground, path, field)? else {
        return Ok(());
    };
    push_row(waiting.usable.as_mut_slice(), place, turn)
}

fn wait_for_entry(
    alloc: Global,
    entry: String,
    turn: Turn,
    entries: &mut BTreeMap<String, Vec<Turn>>,
) -> Result<(), AllocError> {
    let mut turns = match entries.remove(entry.as_str()) {
        Some(turns) => turns,
        None => Vec::new(alloc),
    };
    turns.push(turn)?;
    entries.insert(entry, turns)?;
    Ok(())
}

fn push_row(rows: &mut [Vec<Turn>], place: usize, turn: Turn) -> Result<(), AllocError> {
    if let Some(row) = rows.get_mut(place) {
        row.push(turn)?;
    }
    Ok(())
}

/// The number of the site of the method that a field calls.
fn place_inside(
    alloc: Global,
    ground: &Ground<'_>,
    path: &str,
    field: &Field,
) -> Result<Option<usize>, AllocError> {
    let Some(method) = called_by(field.encoding.get()) else {
        return Ok(None);
    };
    let inner = inner_path(alloc, path, field.declared.name.as_str())?;
    Ok(find_site(ground.sites, method, inner.as_str()))
}

// ---- waking

/// Wakes the turns that wait for what a format that can be used has made known. Where its site isn't reached yet, its own turn waits for that.
fn wake_all(
    alloc: Global,
    ground: &Ground<'_>,
    flags: &[Flags],
    site: &Site,
    fields: &[Field],
    turn: Turn,
    waiting: &mut Waiting,
) -> Result<(), AllocError> {
    let (place, format) = (turn.place, turn.format);
    if !is_reached(flags, place) {
        let last = Turn {
            place,
            format,
            field: fields.len(),
        };
        push_row(waiting.reached.as_mut_slice(), place, last)?;
    }
    wake(alloc, ground, flags, place, waiting)?;
    for field in fields {
        if let Some(inside) = place_inside(alloc, ground, site.path.as_str(), field)? {
            wake(alloc, ground, flags, inside, waiting)?;
        }
    }
    Ok(())
}

/// Wakes the turns that wait for what is newly known of a site.
fn wake(
    alloc: Global,
    ground: &Ground<'_>,
    flags: &[Flags],
    place: usize,
    waiting: &mut Waiting,
) -> Result<(), AllocError> {
    let now = flags_at(flags, place);
    let before = flags_at(waiting.seen.as_slice(), place);
    if now.usable && !before.usable {
        wake_row(waiting.usable.as_mut_slice(), place, &mut waiting.turns)?;
    }
    if now.reached && !before.reached {
        wake_row(waiting.reached.as_mut_slice(), place, &mut waiting.turns)?;
    }
    if now.usable && now.reached && !(before.usable && before.reached) {
        wake_entries(alloc, ground, place, waiting)?;
    }
    if let Some(seen) = waiting.seen.get_mut(place) {
        *seen = now;
    }
    Ok(())
}

fn flags_at(flags: &[Flags], place: usize) -> Flags {
    match flags.get(place) {
        Some(flags) => *flags,
        None => NEITHER,
    }
}

fn wake_row(rows: &mut [Vec<Turn>], place: usize, turns: &mut Vec<Turn>) -> Result<(), AllocError> {
    if let Some(row) = rows.get_mut(place) {
        turns.extend_from_slice(row.as_slice())?;
        row.clear();
    }
    Ok(())
}

/// Wakes the turns that wait for an entry that a site leaves.
fn wake_entries(
    alloc: Global,
    ground: &Ground<'_>,
    place: usize,
    waiting: &mut Waiting,
) -> Result<(), AllocError> {
    let Some(site) = ground.sites.get(place) else {
        return Ok(());
    };
    for format in formats_at(ground, place) {
        wake_kept(alloc, site, format.fields.as_slice(), waiting)?;
    }
    Ok(())
}

fn wake_kept(
    alloc: Global,
    site: &Site,
    fields: &[Field],
    waiting: &mut Waiting,
) -> Result<(), AllocError> {
    for field in fields {
        if is_kept(field) {
            let entry = entry_path(alloc, site.path.as_str(), field.declared.name.as_str())?;
            wake_entry(entry.as_str(), waiting)?;
        }
    }
    Ok(())
}

fn wake_entry(entry: &str, waiting: &mut Waiting) -> Result<(), AllocError> {
    if let Some(turns) = waiting.entries.remove(entry) {
        waiting.turns.extend_from_slice(turns.as_slice())?;
    }
    Ok(())
}
