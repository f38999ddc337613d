//! What is known of sites while it grows: which can be used, and which are reached.

ghost use Rattle.std.specs.Prelude.{◌≡◌, ◌++◌, ◌<◌, ℕ, List, true, false, ◌||◌, ◌&&◌, length, map, not, replicate, slice_get, string_bytes, Some, IfOk, OnOk, IfSome, IfNone};
ghost use Rattle.std.specs.Bool.{Decides};
ghost use Rattle.std.specs.List.{list_any};
ghost use Rattle.std.specs.Str.{bytes_eq};
ghost use Rattle.sem_lint.specs.Entries as entries;
ghost use Rattle.sem_lint.specs.Needs as spec;
ghost use Rattle.sem_lint.specs.NeedsSteps as steps;
ghost use Rattle.sem_lint.specs.Sites as sites;

use crate::entries::{EntrySource, entry_path, given_paths, list_formats};
use crate::paths::{called_by, keeps};
use crate::queue::spread;
use crate::sites::{Site, find_site, inner_path, keeps_at};
use sem_profile::{Encoding, Field, Format, Library, Method};
use sqlite_items::Items;
use std::alloc::{AllocError, Global};
use std::collections::{BTreeMap, BTreeSet};

/// What is known of a site.
#[derive(Clone, Copy)]
pub struct Flags {
    /// A format of it can be used.
    pub usable: bool,
    /// It is reached.
    pub reached: bool,
}

pub(crate) const NEITHER: Flags = Flags {
    usable: false,
    reached: false,
};

/// What is known of all sites, and the entries that may be in the context by that.
#[derive(Drop)]
pub struct Growth {
    pub flags: Items<Flags>,
    /// The paths of the context at the start.
    pub given: BTreeSet<String>,
    /// A field that leaves an entry, by the path of the entry.
    pub left: BTreeMap<String, EntrySource>,
}

/// What stays as it is: the methods of a profile and its top, which of their formats have an obstacle, the paths of the context at the start, and all sites.
#[derive(Clone, Copy)]
pub struct Ground<'a> {
    pub methods: &'a [Method],
    pub top: usize,
    pub dead: &'a [Items<bool>],
    pub given: &'a [&'a str],
    pub sites: &'a [Site],
}

// ---- what a field needs

/// Whether an entry of that name below that path may be in the context.
fn may_be(
    alloc: Global,
    ground: &Ground<'_>,
    known: &Growth,
    path: &str,
    name: &str,
) -> Result<bool, AllocError>
    requires { entries.IsListed ground.now known.now }
    ensures { IfOk result (λ is. Decides is (steps.MayBe ground.now known.now.flags path.now name.now)) }
{
    let entry = entry_path(alloc, path, name)?;
    Ok(may_be_entry(ground, known, path, name, entry.as_str()))
}

fn may_be_entry(ground: &Ground<'_>, known: &Growth, path: &str, name: &str, entry: &str) -> bool
    requires listed { entries.IsListed ground.now known.now }
    requires entry { entry.now ≡ path.now ++ name.now }
    ensures { Decides result (steps.MayBe ground.now known.now.flags path.now name.now) }
{
    if known.given.contains(entry) {
        return true;
    }
    is_left(ground, known, path, name, entry)
}

/// Whether a site leaves the entry, by the field that is listed for it.
fn is_left(ground: &Ground<'_>, known: &Growth, path: &str, name: &str, entry: &str) -> bool
    requires listed { entries.IsListed ground.now known.now }
    requires entry { entry.now ≡ path.now ++ name.now }
    ensures { Decides result (steps.IsLeft ground.now known.now.flags path.now name.now) }
{
    let Some(source) = known.left.get(entry) else {
        return false;
    };
    let flags = known.flags.as_slice();
    if is_source(ground, flags, path, name, *source) {
        return true;
    }
    is_left_somewhere(ground, flags, path, name)
}

/// Whether the field leaves the entry.
fn is_source(
    ground: &Ground<'_>,
    flags: &[Flags],
    path: &str,
    name: &str,
    source: EntrySource,
) -> bool
    ensures { result ≡ true → steps.IsLeft ground.now flags.now path.now name.now }
{
    match ground.sites.get(source.place) {
        Some(site) => leaves_by(ground, flags, path, name, source, site),
        None => false,
    }
}

fn leaves_by(
    ground: &Ground<'_>,
    flags: &[Flags],
    path: &str,
    name: &str,
    source: EntrySource,
    site: &Site,
) -> bool
    ensures { result ≡ true → steps.leaves ground.now.methods.now flags.now path.now name.now source.place site.now ≡ true }
{
    let (method, format, field) = (site.method, source.format, source.field);
    if !keeps_at(ground.methods, method, format, field, name.as_bytes()) {
        return false;
    }
    is_used_below(flags, path, source.place, site)
}

/// Whether a site stands below the path, can be used and is reached.
fn is_used_below(flags: &[Flags], path: &str, place: usize, site: &Site) -> bool
    ensures { result ≡ (steps.is_usable flags.now place && (steps.is_reached flags.now place && bytes_eq (string_bytes site.now.path) path.now)) }
{
    is_usable(flags, place) && is_reached(flags, place) && site.path.as_str() == path
}

/// The same by a look at each site. The field that is listed for an entry leaves it where names have no dots, so this isn't called.
fn is_left_somewhere(ground: &Ground<'_>, flags: &[Flags], path: &str, name: &str) -> bool
    ensures { Decides result (steps.IsLeft ground.now flags.now path.now name.now) }
{
    for (place, site) in ground.sites.iter().enumerate() {
        if leaves(ground, flags, path, name, place, site) {
            return true;
        }
    }
    false
}

fn leaves(
    ground: &Ground<'_>,
    flags: &[Flags],
    path: &str,
    name: &str,
    place: usize,
    site: &Site,
) -> bool
    ensures { result ≡ steps.leaves ground.now.methods.now flags.now path.now name.now place site.now }
{
    is_usable(flags, place)
        && is_reached(flags, place)
        && site.path.as_str() == path
        && keeps(ground.methods, site.method, name.as_bytes())
}

fn is_usable(flags: &[Flags], place: usize) -> bool
    ensures { result ≡ steps.is_usable flags.now place }
{
    match flags.get(place) {
        Some(flags) => flags.usable,
        None => false,
    }
}

pub(crate) fn is_reached(flags: &[Flags], place: usize) -> bool
    ensures { result ≡ steps.is_reached flags.now place }
{
    match flags.get(place) {
        Some(flags) => flags.reached,
        None => false,
    }
}

/// Whether the site of a called method can be used.
fn is_usable_inside(
    alloc: Global,
    ground: &Ground<'_>,
    flags: &[Flags],
    method: usize,
    path: &str,
    name: &str,
) -> Result<bool, AllocError>
    requires { sites.AreSites ground.now.methods.now ground.now.top ground.now.sites.now }
    ensures { IfOk result (λ is. Decides is (steps.Usable ground.now flags.now method (sites.inner_path path.now name.now))) }
{
    let inner = inner_path(alloc, path, name)?;
    Ok(is_usable_at(ground, flags, method, inner.as_str()))
}

fn is_usable_at(ground: &Ground<'_>, flags: &[Flags], method: usize, path: &str) -> bool
    requires { sites.AreSites ground.now.methods.now ground.now.top ground.now.sites.now }
    ensures { Decides result (steps.Usable ground.now flags.now method path.now) }
{
    match find_site(ground.sites, method, path) {
        Some(place) => is_usable(flags, place),
        None => false,
    }
}

/// Whether a field is encoded by what needs a reference, and INITIAL gives it none.
pub(crate) fn needs_reference(field: &Field) -> bool
    ensures { result ≡ spec.needs_reference field.now }
{
    takes_reference(field.encoding.get()) && field.initial.is_none()
}

pub(crate) fn takes_reference(encoding: &Encoding) -> bool
    ensures { result ≡ spec.takes_reference encoding.now }
{
    match encoding {
        Encoding::Library(Library::Static) => true,
        Encoding::Library(Library::Lsb { .. }) => true,
        _ => false,
    }
}

pub(crate) fn is_served(
    alloc: Global,
    ground: &Ground<'_>,
    known: &Growth,
    path: &str,
    field: &Field,
) -> Result<bool, AllocError>
    requires sites { sites.AreSites ground.now.methods.now ground.now.top ground.now.sites.now }
    requires listed { entries.IsListed ground.now known.now }
    ensures { IfOk result (λ is. Decides is (steps.Served ground.now known.now.flags path.now field.now)) }
{
    let name = field.declared.name.as_str();
    if needs_reference(field) {
        return may_be(alloc, ground, known, path, name);
    }
    match called_by(field.encoding.get()) {
        Some(method) => is_usable_inside(alloc, ground, known.flags.as_slice(), method, path, name),
        None => Ok(true),
    }
}

/// The place of the first field that lacks what it needs.
pub(crate) fn first_unserved(
    alloc: Global,
    ground: &Ground<'_>,
    known: &Growth,
    path: &str,
    fields: &[Field],
) -> Result<Option<usize>, AllocError>
    requires sites { sites.AreSites ground.now.methods.now ground.now.top ground.now.sites.now }
    requires listed { entries.IsListed ground.now known.now }
    ensures found { IfOk result (λ o. IfSome o (steps.Unserved ground.now known.now.flags path.now fields.now)) }
    ensures none { IfOk result (λ o. IfNone o (steps.AllServed ground.now known.now.flags path.now fields.now)) }
{
    for (place, field) in fields.iter().enumerate() {
        if !is_served(alloc, ground, known, path, field)? {
            return Ok(Some(place));
        }
    }
    Ok(None)
}

/// Whether the format of that number of a method can be used.
fn is_used(
    alloc: Global,
    ground: &Ground<'_>,
    known: &Growth,
    site: &Site,
    number: usize,
    format: &Format,
) -> Result<bool, AllocError>
    requires sites { sites.AreSites ground.now.methods.now ground.now.top ground.now.sites.now }
    requires listed { entries.IsListed ground.now known.now }
    ensures { IfOk result (λ is. Decides is (steps.Used ground.now known.now.flags (string_bytes site.now.path) site.now.method number format.now)) }
{
    if is_dead(ground.dead, site.method, number) {
        return Ok(false);
    }
    let fields = format.fields.as_slice();
    let lacking = first_unserved(alloc, ground, known, site.path.as_str(), fields)?;
    Ok(lacking.is_none())
}

/// Whether the table says that a format has an obstacle.
pub(crate) fn is_dead(dead: &[Items<bool>], method: usize, format: usize) -> bool
    ensures { result ≡ spec.is_dead dead.now method format }
{
    let Some(row) = dead.get(method) else {
        return false;
    };
    match row.get(format) {
        Some(dead) => *dead,
        None => false,
    }
}

// ---- growth

/// What is known of all sites: those that can be used and those that are reached.
pub(crate) fn grow(alloc: Global, ground: &Ground<'_>) -> Result<Growth, AllocError>
    requires { sites.AreSites ground.now.methods.now ground.now.top ground.now.sites.now }
    ensures grown { IfOk result (λ known. steps.IsGrown ground.now known.flags) }
    ensures listed { IfOk result (entries.IsListed ground.now) }
{
    let mut known = first_known(alloc, ground)?;
    spread(alloc, ground, &mut known)?;
    let mut changes = true;
    while changes {
        changes = add_round(alloc, ground, &mut known)?;
    }
    Ok(known)
}

/// The top is reached, and nothing else is known.
fn first_known(alloc: Global, ground: &Ground<'_>) -> Result<Growth, AllocError>
    requires { sites.AreSites ground.now.methods.now ground.now.top ground.now.sites.now }
    ensures begun { IfOk result (λ known. steps.IsBegun ground.now known.flags) }
    ensures listed { IfOk result (entries.IsListed ground.now) }
{
    let mut known = nothing_known(alloc, ground)?;
    reach_top(alloc, ground, &mut known)?;
    Ok(known)
}

fn nothing_known(alloc: Global, ground: &Ground<'_>) -> Result<Growth, AllocError>
    ensures none { IfOk result (λ known. known.flags ≡ replicate (length ground.now.sites.now) (record { usable = false; reached = false })) }
    ensures listed { IfOk result (entries.IsListed ground.now) }
{
    let given = given_paths(alloc, ground.given)?;
    let flags = no_flags(alloc, ground.sites.len())?;
    Ok(Growth {
        flags,
        given,
        left: BTreeMap::new(alloc),
    })
}

fn no_flags(alloc: Global, count: usize) -> Result<Items<Flags>, AllocError>
    ensures { IfOk result (λ flags. flags ≡ replicate count (record { usable = false; reached = false })) }
{
    Ok(Items::from_vec(vec![in alloc; NEITHER; count]?))
}

fn reach_top(alloc: Global, ground: &Ground<'_>, known: &mut Growth) -> Result<(), AllocError>
    requires sites { sites.AreSites ground.now.methods.now ground.now.top ground.now.sites.now }
    requires none { known.old.flags ≡ replicate (length ground.now.sites.now) (record { usable = false; reached = false }) }
    requires listed { entries.IsListed ground.now known.old }
    ensures begun { OnOk result (steps.IsBegun ground.now known.new.flags) }
    ensures listed { OnOk result (entries.IsListed ground.now known.new) }
{
    let Some(place) = find_site(ground.sites, ground.top, "") else {
        return Ok(());
    };
    note_reached(alloc, ground, place, known)?;
    Ok(())
}

/// Whether one or both are so.
fn either(one: bool, other: bool) -> bool
    ensures { result ≡ (one || other) }
{
    one || other
}

/// Adds what each site adds. Whether anything was added.
fn add_round(alloc: Global, ground: &Ground<'_>, known: &mut Growth) -> Result<bool, AllocError>
    requires sites { sites.AreSites ground.now.methods.now ground.now.top ground.now.sites.now }
    requires listed { entries.IsListed ground.now known.old }
    ensures grows { IfOk result (λ changes. steps.Grows ground.now known.old.flags known.new.flags changes) }
    ensures done { IfOk result (λ changes. changes ≡ false → (j : ℕ) → steps.AreDone ground.now known.new.flags j) }
    ensures listed { OnOk result (entries.IsListed ground.now known.new) }
{
    let mut changes = false;
    for (place, site) in ground.sites.iter().enumerate() {
        let more = add_site(alloc, ground, place, site, known)?;
        changes = either(more, changes);
    }
    Ok(changes)
}

/// Adds what the formats of a site add. Whether anything was added.
fn add_site(
    alloc: Global,
    ground: &Ground<'_>,
    place: usize,
    site: &Site,
    known: &mut Growth,
) -> Result<bool, AllocError>
    requires sites { sites.AreSites ground.now.methods.now ground.now.top ground.now.sites.now }
    requires listed { entries.IsListed ground.now known.old }
    requires site { slice_get ground.now.sites.now place ≡ Some site.now }
    ensures grows { IfOk result (λ changes. steps.Grows ground.now known.old.flags known.new.flags changes) }
    ensures done { IfOk result (λ changes. changes ≡ false → steps.AreDone ground.now known.new.flags place) }
    ensures listed { OnOk result (entries.IsListed ground.now known.new) }
{
    let Some(method) = ground.methods.get(site.method) else {
        return Ok(false);
    };
    let formats = method.formats.as_slice();
    let changes = add_formats(alloc, ground, place, site, formats, known)?;
    Ok(changes)
}

/// The same of its method's formats.
fn add_formats(
    alloc: Global,
    ground: &Ground<'_>,
    place: usize,
    site: &Site,
    formats: &[Format],
    known: &mut Growth,
) -> Result<bool, AllocError>
    requires sites { sites.AreSites ground.now.methods.now ground.now.top ground.now.sites.now }
    requires listed { entries.IsListed ground.now known.old }
    requires site { slice_get ground.now.sites.now place ≡ Some site.now }
    requires formats { steps.AreFormatsOf ground.now site.now.method formats.now }
    ensures grows { IfOk result (λ changes. steps.Grows ground.now known.old.flags known.new.flags changes) }
    ensures done { IfOk result (λ changes. changes ≡ false → steps.FormatsDone ground.now known.new.flags place site.now formats.now) }
    ensures listed { OnOk result (entries.IsListed ground.now known.new) }
{
    let mut changes = false;
    for (number, format) in formats.iter().enumerate() {
        let more = add_format(alloc, ground, place, site, number, format, known)?;
        changes = either(more, changes);
    }
    Ok(changes)
}

/// Where a format of the site can be used, the site can; and where that is reached, so are those that the format calls. Whether that adds anything.
pub(crate) fn add_format(
    alloc: Global,
    ground: &Ground<'_>,
    place: usize,
    site: &Site,
    number: usize,
    format: &Format,
    known: &mut Growth,
) -> Result<bool, AllocError>
    requires sites { sites.AreSites ground.now.methods.now ground.now.top ground.now.sites.now }
    requires listed { entries.IsListed ground.now known.old }
    requires site { slice_get ground.now.sites.now place ≡ Some site.now }
    requires format { sites.format_in ground.now.methods.now site.now.method number ≡ Some format.now }
    ensures grows { IfOk result (λ changes. steps.Grows ground.now known.old.flags known.new.flags changes) }
    ensures done { IfOk result (λ changes. changes ≡ false → steps.IsDone ground.now known.new.flags place site.now.method (string_bytes site.now.path) number format.now) }
    ensures listed { OnOk result (entries.IsListed ground.now known.new) }
{
    if !is_used(alloc, ground, known, site, number, format)? {
        return Ok(false);
    }
    add_used(alloc, ground, place, site, number, format, known)
}

/// The same of a format that can be used.
fn add_used(
    alloc: Global,
    ground: &Ground<'_>,
    place: usize,
    site: &Site,
    number: usize,
    format: &Format,
    known: &mut Growth,
) -> Result<bool, AllocError>
    requires sites { sites.AreSites ground.now.methods.now ground.now.top ground.now.sites.now }
    requires listed { entries.IsListed ground.now known.old }
    requires site { slice_get ground.now.sites.now place ≡ Some site.now }
    requires format { sites.format_in ground.now.methods.now site.now.method number ≡ Some format.now }
    requires used { steps.Used ground.now known.old.flags (string_bytes site.now.path) site.now.method number format.now }
    ensures grows { IfOk result (λ changes. steps.Grows ground.now known.old.flags known.new.flags changes) }
    ensures done { IfOk result (λ changes. changes ≡ false → steps.IsDone ground.now known.new.flags place site.now.method (string_bytes site.now.path) number format.now) }
    ensures listed { OnOk result (entries.IsListed ground.now known.new) }
{
    let first = note_usable(alloc, ground, place, known)?;
    if !is_reached(known.flags.as_slice(), place) {
        return Ok(first);
    }
    let path = site.path.as_str();
    let more = add_calls(alloc, ground, path, format.fields.as_slice(), known)?;
    Ok(either(more, first))
}

/// Notes that the sites of the calls of these fields are reached. Whether that is new of any.
fn add_calls(
    alloc: Global,
    ground: &Ground<'_>,
    path: &str,
    fields: &[Field],
    known: &mut Growth,
) -> Result<bool, AllocError>
    requires sites { sites.AreSites ground.now.methods.now ground.now.top ground.now.sites.now }
    requires listed { entries.IsListed ground.now known.old }
    ensures adds { IfOk result (λ changes. steps.AddsCalls ground.now path.now fields.now known.old.flags known.new.flags changes) }
    ensures listed { OnOk result (entries.IsListed ground.now known.new) }
{
    let mut changes = false;
    for field in fields {
        let more = add_call(alloc, ground, path, field, known)?;
        changes = either(more, changes);
    }
    Ok(changes)
}

fn add_call(
    alloc: Global,
    ground: &Ground<'_>,
    path: &str,
    field: &Field,
    known: &mut Growth,
) -> Result<bool, AllocError>
    requires sites { sites.AreSites ground.now.methods.now ground.now.top ground.now.sites.now }
    requires listed { entries.IsListed ground.now known.old }
    ensures adds { IfOk result (λ changes. steps.AddsCall ground.now path.now field.now known.old.flags known.new.flags changes) }
    ensures listed { OnOk result (entries.IsListed ground.now known.new) }
{
    let Some(method) = called_by(field.encoding.get()) else {
        return Ok(false);
    };
    let inner = inner_path(alloc, path, field.declared.name.as_str())?;
    let Some(place) = find_site(ground.sites, method, inner.as_str()) else {
        return Ok(false);
    };
    let changes = note_reached(alloc, ground, place, known)?;
    Ok(changes)
}

/// Notes that a site can be used, and lists what it leaves. Whether that is new.
fn note_usable(
    alloc: Global,
    ground: &Ground<'_>,
    place: usize,
    known: &mut Growth,
) -> Result<bool, AllocError>
    requires { entries.IsListed ground.now known.old }
    ensures sets { IfOk result (steps.SetsUsable place known.old.flags known.new.flags) }
    ensures listed { OnOk result (entries.IsListed ground.now known.new) }
{
    if !set_usable(&mut known.flags, place) {
        return Ok(false);
    }
    list_site(alloc, ground, place, known)?;
    Ok(true)
}

/// Notes that a site is reached, and lists what it leaves. Whether that is new.
fn note_reached(
    alloc: Global,
    ground: &Ground<'_>,
    place: usize,
    known: &mut Growth,
) -> Result<bool, AllocError>
    requires { entries.IsListed ground.now known.old }
    ensures sets { IfOk result (steps.SetsReached place known.old.flags known.new.flags) }
    ensures listed { OnOk result (entries.IsListed ground.now known.new) }
{
    if !set_reached(&mut known.flags, place) {
        return Ok(false);
    }
    list_site(alloc, ground, place, known)?;
    Ok(true)
}

/// Lists what a site leaves, where it can be used and is reached.
fn list_site(
    alloc: Global,
    ground: &Ground<'_>,
    place: usize,
    known: &mut Growth,
) -> Result<(), AllocError>
    requires { entries.IsListedBut ground.now place known.old }
    ensures flags { OnOk result (known.new.flags ≡ known.old.flags) }
    ensures listed { OnOk result (entries.IsListed ground.now known.new) }
{
    let Some(site) = ground.sites.get(place) else {
        return Ok(());
    };
    if !is_in_use(known.flags.as_slice(), place) {
        return Ok(());
    }
    let Some(method) = ground.methods.get(site.method) else {
        return Ok(());
    };
    let formats = method.formats.as_slice();
    list_formats(alloc, site.path.as_str(), place, formats, &mut known.left)
}

/// Whether a site can be used and is reached.
fn is_in_use(flags: &[Flags], place: usize) -> bool
    ensures { result ≡ (steps.is_usable flags.now place && steps.is_reached flags.now place) }
{
    is_usable(flags, place) && is_reached(flags, place)
}

/// Notes that a site can be used. Whether that is new.
fn set_usable(flags: &mut Items<Flags>, place: usize) -> bool
    ensures { steps.SetsUsable place flags.old flags.new result }
{
    if flags.len() <= place {
        return false;
    }
    if is_usable(flags.as_slice(), place) {
        return false;
    }
    let reached = is_reached(flags.as_slice(), place);
    flags.set(
        place,
        Flags {
            usable: true,
            reached,
        },
    );
    true
}

/// Notes that a site is reached. Whether that is new.
fn set_reached(flags: &mut Items<Flags>, place: usize) -> bool
    ensures { steps.SetsReached place flags.old flags.new result }
{
    if flags.len() <= place {
        return false;
    }
    if is_reached(flags.as_slice(), place) {
        return false;
    }
    let usable = is_usable(flags.as_slice(), place);
    flags.set(
        place,
        Flags {
            usable,
            reached: true,
        },
    );
    true
}
