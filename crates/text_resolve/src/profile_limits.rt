//! The limits on the methods of a profile.

ghost use Rattle.std.specs.Prelude.{◌≡◌, ◌<◌, ℕ, length, slice_get, Some, IfOk};
ghost use Rattle.std.specs.List.{list_any};
ghost use Rattle.sem_graph.specs.Order.{IsOrder};
ghost use Rattle.sem_profile.specs.Precedence.{Judged, earliest};
ghost use Rattle.sem_profile.specs.Limits as limits;
ghost use Rattle.text_resolve.specs.ProfileLimits as spec;
ghost use Rattle.sem_profile.specs.Uses.{Uses, used_graph};

use crate::call_depth::deep_call;
use crate::call_graph::uses_of;
use sem_graph::depth::number_at;
use sem_graph::weights;
use sem_profile::{
    FIELD_LIMIT, Format, Method, ProfileFault, ProfileFaultKind, WEIGHT_LIMIT, earlier,
};
use sqlite_items::Items;
use std::alloc::{AllocError, Global};
use text_source::Span;

/// The earliest fault of sizes: calls deeper than 16 methods from the top, a format of more than 128 fields (of any method),
/// more than 4,096 fields on all paths from the top. The graph is that of the calls in use, and the names go by their places.
pub(crate) fn too_large(
    alloc: Global,
    names: &[Span],
    methods: &[Method],
    graph: &[Items<usize>],
    order: &[usize],
    top: usize,
) -> Result<Option<ProfileFault>, AllocError>
    requires order { IsOrder (Uses methods.now) (length methods.now) order.now }
    requires top { top < length methods.now }
    requires named { length methods.now ≡ length names.now }
    requires graph { graph.now ≡ used_graph methods.now }
    ensures { IfOk result (Judged (limits.IsWithinLimits methods.now top) (spec.IsTooLarge names.now methods.now top)) }
{
    let deep = deep_call(alloc, names, graph, top)?;
    let heavy = heavy_top(alloc, methods, order, top)?;
    Ok(earlier(earlier(deep, first_long(methods)), heavy))
}

fn too_large_at(method: &Method) -> ProfileFault
    ensures { result ≡ spec.too_large_at method.now }
{
    ProfileFault::about(ProfileFaultKind::TooLarge, method.place)
}

fn has_long_format(formats: &[Format]) -> bool
    ensures { result ≡ list_any spec.is_long formats.now }
{
    for format in formats {
        if format.fields.len() > FIELD_LIMIT {
            return true;
        }
    }
    false
}

fn long_format(method: &Method) -> Option<ProfileFault>
    ensures { result ≡ spec.long_format method.now }
{
    if has_long_format(method.formats.as_slice()) {
        Some(too_large_at(method))
    } else {
        None
    }
}

fn first_long(methods: &[Method]) -> Option<ProfileFault>
    ensures { result ≡ earliest spec.long_format methods.now }
{
    let mut found = None;
    for method in methods {
        found = earlier(found, long_format(method));
    }
    found
}

fn heavy_top(
    alloc: Global,
    methods: &[Method],
    order: &[usize],
    top: usize,
) -> Result<Option<ProfileFault>, AllocError>
    requires order { IsOrder (Uses methods.now) (length methods.now) order.now }
    requires top { top < length methods.now }
    ensures { IfOk result (Judged (limits.IsLight methods.now top) (spec.IsHeavy methods.now top)) }
{
    let uses = uses_of(alloc, methods)?;
    let weights = weights(alloc, uses.as_slice(), order)?;
    if number_at(weights.as_slice(), top) > WEIGHT_LIMIT {
        Ok(Some(too_large_at(&methods[top])))
    } else {
        Ok(None)
    }
}
