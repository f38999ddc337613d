//! Methods at the paths at which they are called.

ghost use Rattle.std.specs.Prelude.{◌≡◌, ◌<◌, List, true, length, option_and_then, Some, option_map, slice_get, string_bytes, IfOk, IfSome, IfNone, OnOk};
ghost use Rattle.std.specs.Option.{option_copied};
ghost use Rattle.sem_profile.specs.declared.profile.Format.{Format};
ghost use Rattle.sem_lint.specs.Paths.{keeps};
ghost use Rattle.sem_lint.specs.Sites as spec;
ghost use Rattle.sem_lint.specs.SitesSteps as steps;

use crate::paths::{called_by, keeps_by};
use sem_profile::{Field, Format, Method};
use sqlite_items::Items;
use std::alloc::{AllocError, Global};

/// A profile with more sites is not looked at.
pub const SITE_LIMIT: usize = 256;

/// A method at a path at which it is called. The path ends with a dot, unless it is that of the top.
#[derive(Drop)]
pub struct Site {
    pub method: usize,
    pub path: String,
}

/// All sites. None where there are more than the limit.
pub(crate) fn all_sites(
    alloc: Global,
    methods: &[Method],
    top: usize,
) -> Result<Option<Items<Site>>, AllocError>
    ensures all { IfOk result (λ o. IfSome o (spec.AreSites methods.now top)) }
    ensures more { IfOk result (λ o. IfNone o (spec.AreMore methods.now top 256)) }
{
    let mut sites = first_site(alloc, top)?;
    for place in 0..SITE_LIMIT {
        if sites.len() <= place {
            return Ok(Some(sites));
        }
        add_called(alloc, methods, place, &mut sites)?;
    }
    if SITE_LIMIT < sites.len() {
        return Ok(None);
    }
    Ok(Some(sites))
}

/// The site of the top alone.
fn first_site(alloc: Global, top: usize) -> Result<Items<Site>, AllocError>
    ensures { IfOk result (steps.IsFirst top) }
{
    let mut sites = Items::new(alloc);
    sites.push(Site {
        method: top,
        path: String::new(alloc),
    })?;
    Ok(sites)
}

/// Adds the sites that the formats of a site call, which are not there yet.
fn add_called(
    alloc: Global,
    methods: &[Method],
    place: usize,
    sites: &mut Items<Site>,
) -> Result<(), AllocError>
    requires { place < length sites.old }
    ensures { OnOk result (steps.IsFollowed methods.now place sites.old sites.new) }
{
    let site = copied(alloc, &sites.as_slice()[place])?;
    let Some(method) = methods.get(site.method) else {
        return Ok(());
    };
    add_of_formats(alloc, site.path.as_str(), method.formats.as_slice(), sites)?;
    Ok(())
}

fn copied(alloc: Global, site: &Site) -> Result<Site, AllocError>
    ensures { IfOk result (λ s. (s.method ≡ site.now.method) × (string_bytes s.path ≡ string_bytes site.now.path)) }
{
    Ok(Site {
        method: site.method,
        path: String::from_str(alloc, site.path.as_str())?,
    })
}

fn add_of_formats(
    alloc: Global,
    path: &str,
    formats: &[Format],
    sites: &mut Items<Site>,
) -> Result<(), AllocError>
    ensures { OnOk result (steps.Step path.now (steps.CallsInFormats formats.now) sites.old sites.new) }
{
    for format in formats {
        add_of_fields(alloc, path, format.fields.as_slice(), sites)?;
    }
    Ok(())
}

fn add_of_fields(
    alloc: Global,
    path: &str,
    fields: &[Field],
    sites: &mut Items<Site>,
) -> Result<(), AllocError>
    ensures { OnOk result (steps.Step path.now (steps.CallsIn fields.now) sites.old sites.new) }
{
    for field in fields {
        add_of_field(alloc, path, field, sites)?;
    }
    Ok(())
}

fn add_of_field(
    alloc: Global,
    path: &str,
    field: &Field,
    sites: &mut Items<Site>,
) -> Result<(), AllocError>
    ensures { OnOk result (steps.Step path.now (steps.CallsOf field.now) sites.old sites.new) }
{
    let Some(method) = called_by(field.encoding.get()) else {
        return Ok(());
    };
    let inner = inner_path(alloc, path, field.declared.name.as_str())?;
    add_site(method, inner, sites)?;
    Ok(())
}

/// The path below which the fields of a called method stand.
pub(crate) fn inner_path(alloc: Global, path: &str, name: &str) -> Result<String, AllocError>
    ensures { IfOk result (λ text. string_bytes text ≡ spec.inner_path path.now name.now) }
{
    let mut inner = String::from_str(alloc, path)?;
    push_inner(&mut inner, name)?;
    Ok(inner)
}

fn push_inner(inner: &mut String, name: &str) -> Result<(), AllocError>
    ensures { OnOk result (string_bytes inner.new ≡ spec.inner_path (string_bytes inner.old) name.now) }
{
    inner.push_str(name)?;
    inner.push_str(".")
}

/// Adds a site, unless it is there.
fn add_site(method: usize, path: String, sites: &mut Items<Site>) -> Result<(), AllocError>
    ensures { OnOk result (steps.Adds method (string_bytes path) sites.old sites.new) }
{
    if find_site(sites.as_slice(), method, path.as_str()).is_some() {
        return Ok(());
    }
    sites.push(Site { method, path })?;
    Ok(())
}

/// The place of a site.
pub(crate) fn find_site(sites: &[Site], method: usize, path: &str) -> Option<usize>
    ensures found { IfSome result (λ j. spec.SiteAt sites.now j method path.now) }
    ensures none { IfNone result (spec.Holds sites.now method path.now → ⊥) }
{
    for (place, site) in sites.iter().enumerate() {
        if is_site(site, method, path) {
            return Some(place);
        }
    }
    None
}

fn is_site(site: &Site, method: usize, path: &str) -> bool
    ensures { result ≡ spec.is_site method path.now site.now }
{
    site.method == method && site.path.as_str() == path
}

// ---- parts of methods

/// The format of a number, in the method of a number.
pub(crate) fn format_at(methods: &[Method], method: usize, number: usize) -> Option<&Format>
    ensures { option_copied result ≡ spec.format_in methods.now method number }
{
    methods.get(method)?.formats.get(number)
}

/// A field of it.
pub(crate) fn field_at(
    methods: &[Method],
    method: usize,
    number: usize,
    place: usize,
) -> Option<&Field>
    ensures { option_copied result ≡ option_and_then (λ (f : Format). slice_get f.fields place) (spec.format_in methods.now method number) }
{
    format_at(methods, method, number)?.fields.get(place)
}

/// Whether that field is a header or control field of that name.
pub(crate) fn keeps_at(
    methods: &[Method],
    method: usize,
    format: usize,
    field: usize,
    name: &[u8],
) -> bool
    ensures { result ≡ true → keeps methods.now method name.now ≡ true }
{
    match field_at(methods, method, format, field) {
        Some(field) => keeps_by(field, name),
        None => false,
    }
}
