//! The formats of a profile by which nothing can be packed.

ghost use Rattle.std.specs.Prelude.{◌≡◌, ◌+◌, IfOk, OnOk, Some, slice_get};
ghost use Rattle.sem_lint.specs.Listing as spec;

use crate::marks::Judged;
use crate::obstacle::obstacle_of;
use sem_filling::obstacle::DeadFormat;
use sem_profile::{Method, Profile};
use sqlite_items::Items;
use std::alloc::{AllocError, Global};

/// For each format that has an obstacle one of its obstacles, in the order of the text. No header can ever be packed by such a format, in any context. The error is
/// out of memory.
pub fn dead_formats(alloc: Global, profile: &Profile) -> Result<Items<DeadFormat>, AllocError>
    ensures found { IfOk result (spec.AreDead profile.now 0 0) }
{
    let judged = Judged::of(alloc, profile)?;
    dead_in(alloc, &judged, profile.methods())
}

/// The same of a judged profile with these methods.
fn dead_in(
    alloc: Global,
    judged: &Judged<'_>,
    methods: &[Method],
) -> Result<Items<DeadFormat>, AllocError>
    requires { methods.now ≡ judged.now.methods }
    ensures { IfOk result (spec.AreDead judged.now 0 0) }
{
    let mut found = Items::new(alloc);
    for (index, method) in methods.iter().enumerate() {
        add_method(alloc, judged, index, method, &mut found)?;
    }
    Ok(found)
}

/// Adds those of a method.
fn add_method(
    alloc: Global,
    judged: &Judged<'_>,
    index: usize,
    method: &Method,
    found: &mut Items<DeadFormat>,
) -> Result<(), AllocError>
    requires { slice_get judged.now.methods index ≡ Some method.now }
    ensures { OnOk result (spec.SoFar judged.now index 0 found.old → spec.SoFar judged.now (index + 1) 0 found.new) }
{
    for format in 0..method.formats.len() {
        add_format(alloc, judged, index, format, found)?;
    }
    Ok(())
}

/// Adds a format, if it has an obstacle.
fn add_format(
    alloc: Global,
    judged: &Judged<'_>,
    method: usize,
    format: usize,
    found: &mut Items<DeadFormat>,
) -> Result<(), AllocError>
    ensures { OnOk result (spec.IsNoted judged.now method format found.old found.new) }
{
    if let Some(obstacle) = obstacle_of(alloc, judged, method, format)? {
        found.push(DeadFormat {
            method,
            format,
            obstacle,
        })?;
    }
    Ok(())
}
