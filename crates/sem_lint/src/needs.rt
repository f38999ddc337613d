//! Formats that ask for what no format that can come before leaves in the context.
//!
//! The rule goes by *sites*: the top, and each method at each path at which a format calls it. A field *needs a reference* where it is encoded by `static` or by
//! `lsb` and INITIAL gives it no value. A format *can be used* at a site where it has no obstacle, each reference that it needs may be in the context, and each
//! method that it calls has a format that can be used there. The entries of a site may be in the context as soon as it is reached and a format can be used there:
//! the top is reached, and so is what a format calls that can be used where it is reached. This grows from the given context until nothing is added. A format is
//! told where its method is reached and it can be used at no site at which its method is reached. So a format that is told packs nothing in a flow that begins
//! with that context. A profile with more than `SITE_LIMIT` sites is not looked at.

ghost use Rattle.std.specs.Prelude.{◌≡◌, ◌+◌, ◌++◌, ◌<◌, ℕ, List, length, slice_get, option_and_then, string_bytes, Some, IfOk, IfSome, IfNone, OnOk};
ghost use Rattle.std.specs.Bool.{Decides};
ghost use Rattle.std.specs.Option.{option_copied};
ghost use Rattle.sem_profile.specs.declared.profile.Format.{Format};
ghost use Rattle.sem_lint.specs.Entries as entries;
ghost use Rattle.sem_lint.specs.Needs as spec;
ghost use Rattle.sem_lint.specs.NeedsSteps as steps;
ghost use Rattle.sem_lint.specs.NeedsTold as told;
ghost use Rattle.sem_lint.specs.Sites as sites;

use crate::entries::entry_path;
use crate::growth::{Ground, Growth, first_unserved, grow, is_dead, is_reached};
use crate::marks::Judged;
use crate::obstacle::obstacle_of;
use crate::paths::called_by;
use crate::sites::{SITE_LIMIT, Site, all_sites, field_at, format_at, inner_path};
use sem_profile::{Field, Format, Method, Profile};
use sqlite_items::Items;
use std::alloc::{AllocError, Global};

/// A format that can never be used, with the path of a field that lacks what it needs: the format and its method by their indices.
#[derive(Drop)]
pub struct Needing {
    pub method: usize,
    pub format: usize,
    pub path: String,
}

/// The formats that can never be used in a flow that begins with entries at these paths, in the order of the text, each with what it lacks. None of a profile with more
/// than `SITE_LIMIT` sites. The error is out of memory.
pub fn needing_formats(
    alloc: Global,
    profile: &Profile,
    given: &[&str],
) -> Result<Items<Needing>, AllocError>
    ensures { IfOk result (spec.AreNeeding profile.now (steps.texts given.now)) }
{
    let dead = dead_flags(alloc, profile)?;
    needing_among(alloc, profile, given, dead.as_slice())
}

/// Which formats of each method have an obstacle.
pub(crate) fn dead_flags(alloc: Global, profile: &Profile) -> Result<Items<Items<bool>>, AllocError>
    ensures { IfOk result (spec.TellsObstacles profile.now) }
{
    let judged = Judged::of(alloc, profile)?;
    dead_rows(alloc, &judged, profile.methods())
}

fn dead_rows(
    alloc: Global,
    judged: &Judged<'_>,
    methods: &[Method],
) -> Result<Items<Items<bool>>, AllocError>
    requires { methods.now ≡ judged.now.methods }
    ensures { IfOk result (spec.TellsObstacles judged.now) }
{
    let mut all = Items::new(alloc);
    for (index, method) in methods.iter().enumerate() {
        all.push(dead_row(alloc, judged, index, method)?)?;
    }
    Ok(all)
}

fn dead_row(
    alloc: Global,
    judged: &Judged<'_>,
    index: usize,
    method: &Method,
) -> Result<Items<bool>, AllocError>
    ensures { IfOk result (told.TellsRow judged.now index (length method.now.formats)) }
{
    let mut row = Items::new(alloc);
    for format in 0..method.formats.len() {
        row.push(has_obstacle(alloc, judged, index, format)?)?;
    }
    Ok(row)
}

fn has_obstacle(
    alloc: Global,
    judged: &Judged<'_>,
    method: usize,
    format: usize,
) -> Result<bool, AllocError>
    ensures { IfOk result (told.TellsOne judged.now method format) }
{
    let obstacle = obstacle_of(alloc, judged, method, format)?;
    Ok(obstacle.is_some())
}

/// The same by a table that says which formats have an obstacle.
fn needing_among(
    alloc: Global,
    profile: &Profile,
    given: &[&str],
    dead: &[Items<bool>],
) -> Result<Items<Needing>, AllocError>
    requires { spec.TellsObstacles profile.now dead.now }
    ensures { IfOk result (spec.AreNeeding profile.now (steps.texts given.now)) }
{
    let methods = profile.methods();
    let top = profile.top();
    let Some(sites) = all_sites(alloc, methods, top)? else {
        return Ok(Items::new(alloc));
    };
    let ground = Ground {
        methods,
        top,
        dead,
        given,
        sites: sites.as_slice(),
    };
    needing_on(alloc, &ground)
}

// ---- what is told

/// Those on the ground of all sites.
fn needing_on(alloc: Global, ground: &Ground<'_>) -> Result<Items<Needing>, AllocError>
    requires { sites.AreSites ground.now.methods.now ground.now.top ground.now.sites.now }
    ensures { IfOk result (told.NeedingFrom ground.now 0 0) }
{
    let known = grow(alloc, ground)?;
    listed(alloc, ground, &known)
}

/// Those by what is known of the sites.
fn listed(alloc: Global, ground: &Ground<'_>, known: &Growth) -> Result<Items<Needing>, AllocError>
    requires sites { sites.AreSites ground.now.methods.now ground.now.top ground.now.sites.now }
    requires grown { steps.IsGrown ground.now known.now.flags }
    requires listed { entries.IsListed ground.now known.now }
    ensures { IfOk result (told.NeedingFrom ground.now 0 0) }
{
    let mut found = Items::new(alloc);
    for (index, method) in ground.methods.iter().enumerate() {
        add_method(alloc, ground, known, index, method, &mut found)?;
    }
    Ok(found)
}

/// Adds those of a method.
fn add_method(
    alloc: Global,
    ground: &Ground<'_>,
    known: &Growth,
    index: usize,
    method: &Method,
    found: &mut Items<Needing>,
) -> Result<(), AllocError>
    requires sites { sites.AreSites ground.now.methods.now ground.now.top ground.now.sites.now }
    requires grown { steps.IsGrown ground.now known.now.flags }
    requires method { slice_get ground.now.methods.now index ≡ Some method.now }
    requires listed { entries.IsListed ground.now known.now }
    ensures { OnOk result (told.SoFar ground.now index 0 found.old → told.SoFar ground.now (index + 1) 0 found.new) }
{
    for number in 0..method.formats.len() {
        add_format(alloc, ground, known, index, number, found)?;
    }
    Ok(())
}

/// Adds a format, if it is never used.
fn add_format(
    alloc: Global,
    ground: &Ground<'_>,
    known: &Growth,
    method: usize,
    number: usize,
    found: &mut Items<Needing>,
) -> Result<(), AllocError>
    requires sites { sites.AreSites ground.now.methods.now ground.now.top ground.now.sites.now }
    requires grown { steps.IsGrown ground.now known.now.flags }
    requires listed { entries.IsListed ground.now known.now }
    ensures { OnOk result (told.IsNoted ground.now method number found.old found.new) }
{
    let Some(path) = never_used(alloc, ground, known, method, number)? else {
        return Ok(());
    };
    found.push(Needing {
        method,
        format: number,
        path,
    })?;
    Ok(())
}

/// What a format lacks that is never used, at the first site at which its method is reached.
fn never_used(
    alloc: Global,
    ground: &Ground<'_>,
    known: &Growth,
    method: usize,
    number: usize,
) -> Result<Option<String>, AllocError>
    requires sites { sites.AreSites ground.now.methods.now ground.now.top ground.now.sites.now }
    requires grown { steps.IsGrown ground.now known.now.flags }
    requires listed { entries.IsListed ground.now known.now }
    ensures found { IfOk result (λ o. IfSome o (λ path. told.NeverUsed ground.now method number (string_bytes path))) }
    ensures none { IfOk result (λ o. IfNone o ((path : List ℕ) → told.NeverUsed ground.now method number path → ⊥)) }
{
    let Some(format) = format_at(ground.methods, method, number) else {
        return Ok(None);
    };
    if is_dead(ground.dead, method, number) {
        return Ok(None);
    }
    let Some(place) = first_reached(ground, known, method) else {
        return Ok(None);
    };
    if is_served_somewhere(alloc, ground, known, method, format)? {
        return Ok(None);
    }
    let path = lacking_at(alloc, ground, known, place, method, number, format)?;
    Ok(Some(path))
}

/// The place of the first site that is the method and is reached.
fn first_reached(ground: &Ground<'_>, known: &Growth, method: usize) -> Option<usize>
    ensures found { IfSome result (told.IsReachedAt ground.now known.now.flags method) }
    ensures none { IfNone result ((j : ℕ) → told.IsReachedAt ground.now known.now.flags method j → ⊥) }
{
    for (place, site) in ground.sites.iter().enumerate() {
        if is_reached_as(known, method, place, site) {
            return Some(place);
        }
    }
    None
}

/// Whether a site is the method and is reached.
fn is_reached_as(known: &Growth, method: usize, place: usize, site: &Site) -> bool
    ensures { result ≡ told.is_reached_as known.now.flags method place site.now }
{
    site.method == method && is_reached(known.flags.as_slice(), place)
}

/// Whether at some site at which its method is reached the format has all that it needs.
fn is_served_somewhere(
    alloc: Global,
    ground: &Ground<'_>,
    known: &Growth,
    method: usize,
    format: &Format,
) -> Result<bool, AllocError>
    requires sites { sites.AreSites ground.now.methods.now ground.now.top ground.now.sites.now }
    requires listed { entries.IsListed ground.now known.now }
    ensures { IfOk result (λ is. Decides is (told.IsServedSomewhere ground.now known.now.flags method format.now)) }
{
    for (place, site) in ground.sites.iter().enumerate() {
        if is_served_at(alloc, ground, known, method, format, place, site)? {
            return Ok(true);
        }
    }
    Ok(false)
}

fn is_served_at(
    alloc: Global,
    ground: &Ground<'_>,
    known: &Growth,
    method: usize,
    format: &Format,
    place: usize,
    site: &Site,
) -> Result<bool, AllocError>
    requires sites { sites.AreSites ground.now.methods.now ground.now.top ground.now.sites.now }
    requires site { slice_get ground.now.sites.now place ≡ Some site.now }
    requires listed { entries.IsListed ground.now known.now }
    ensures { IfOk result (λ is. Decides is (told.IsServedAt ground.now known.now.flags method format.now place)) }
{
    if !is_reached_as(known, method, place, site) {
        return Ok(false);
    }
    let path = site.path.as_str();
    let lacking = first_unserved(alloc, ground, known, path, format.fields.as_slice())?;
    Ok(lacking.is_none())
}

/// A field that lacks something: its format and itself, by their indices.
#[derive(Clone, Copy)]
struct Lack {
    format: usize,
    field: usize,
}

/// What a format lacks at a site at which it doesn't have all that it needs.
fn lacking_at(
    alloc: Global,
    ground: &Ground<'_>,
    known: &Growth,
    place: usize,
    method: usize,
    number: usize,
    format: &Format,
) -> Result<String, AllocError>
    requires sites { sites.AreSites ground.now.methods.now ground.now.top ground.now.sites.now }
    requires grown { steps.IsGrown ground.now known.now.flags }
    requires format { sites.format_in ground.now.methods.now method number ≡ Some format.now }
    requires place { told.IsReachedAt ground.now known.now.flags method place }
    requires lacks { told.IsServedSomewhere ground.now known.now.flags method format.now → ⊥ }
    requires listed { entries.IsListed ground.now known.now }
    ensures { IfOk result (λ text. told.LacksAt ground.now method number place (string_bytes text)) }
{
    let Some(site) = ground.sites.get(place) else {
        unreachable!();
    };
    let path = site.path.as_str();
    let Some(field) = first_unserved(alloc, ground, known, path, format.fields.as_slice())? else {
        unreachable!();
    };
    let lack = Lack {
        format: number,
        field,
    };
    lacking_path(SITE_LIMIT, alloc, ground, known, path, method, lack)
}

/// The path of a field that lacks something; of a field that calls a method, what a format of that lacks, and so on, so many calls deep at most.
fn lacking_path(
    depth: usize,
    alloc: Global,
    ground: &Ground<'_>,
    known: &Growth,
    path: &str,
    method: usize,
    lack: Lack,
) -> Result<String, AllocError>
    requires sites { sites.AreSites ground.now.methods.now ground.now.top ground.now.sites.now }
    requires grown { steps.IsGrown ground.now known.now.flags }
    requires site { sites.Holds ground.now.sites.now method path.now }
    requires lacks { told.FieldLacks ground.now known.now.flags path.now method lack.format lack.field }
    requires listed { entries.IsListed ground.now known.now }
    ensures { IfOk result (λ text. told.LacksBelow ground.now path.now method lack.format (string_bytes text)) }
{
    let Some(field) = field_at(ground.methods, method, lack.format, lack.field) else {
        unreachable!();
    };
    let name = field.declared.name.as_str();
    let own = entry_path(alloc, path, name)?;
    if depth == 0 {
        return Ok(own);
    }
    let Some(called) = called_by(field.encoding.get()) else {
        return Ok(own);
    };
    let inner = inner_path(alloc, path, name)?;
    let Some(next) = first_lack(alloc, ground, known, called, inner.as_str())? else {
        return Ok(own);
    };
    let told = lacking_path(
        depth - 1,
        alloc,
        ground,
        known,
        inner.as_str(),
        called,
        next,
    )?;
    Ok(told)
}

/// The first field of a method's formats that lacks something below a path.
fn first_lack(
    alloc: Global,
    ground: &Ground<'_>,
    known: &Growth,
    method: usize,
    path: &str,
) -> Result<Option<Lack>, AllocError>
    requires sites { sites.AreSites ground.now.methods.now ground.now.top ground.now.sites.now }
    requires listed { entries.IsListed ground.now known.now }
    ensures { IfOk result (λ o. IfSome o (λ lack. told.FieldLacks ground.now known.now.flags path.now method lack.format lack.field)) }
{
    let Some(found) = ground.methods.get(method) else {
        return Ok(None);
    };
    for number in 0..found.formats.len() {
        if let Some(field) = lack_of(alloc, ground, known, method, number, path)? {
            return Ok(Some(Lack {
                format: number,
                field,
            }));
        }
    }
    Ok(None)
}

/// The first field of a format that lacks something below a path.
fn lack_of(
    alloc: Global,
    ground: &Ground<'_>,
    known: &Growth,
    method: usize,
    number: usize,
    path: &str,
) -> Result<Option<usize>, AllocError>
    requires sites { sites.AreSites ground.now.methods.now ground.now.top ground.now.sites.now }
    requires listed { entries.IsListed ground.now known.now }
    ensures { IfOk result (λ o. IfSome o (told.FieldLacks ground.now known.now.flags path.now method number)) }
{
    let Some(format) = format_at(ground.methods, method, number) else {
        return Ok(None);
    };
    first_unserved(alloc, ground, known, path, format.fields.as_slice())
}
