//! The bounds of methods.

ghost use Rattle.std.specs.Prelude.{◌≡◌, ℕ, ◌<◌, length, map, slice_set, IfOk, IfErr};
ghost use Rattle.sem_profile.specs.Precedence.{Judged};
ghost use Rattle.sem_bounds.specs.Callers as calling;
ghost use Rattle.sem_profile.specs.Formats as formats;
ghost use Rattle.sem_profile.specs.Methods as spec;
ghost use Rattle.sem_profile.specs.Outcome as outcome;
ghost use Rattle.sem_profile.specs.Parameters.{RangedFrom};
ghost use Rattle.sem_bounds.specs.Weights.{AreLight};

use crate::callers::{caller_table, callers_at};
use crate::faults::methods_fault;
use crate::fields::NO_BITS;
use crate::formats::format_sizes;
use crate::parameters::{BEYOND, ONLY_ZERO, parameter_ranges, set_parameters};
use sem_expr::Interval;
use sem_profile::extent::Extent;
use sem_profile::{
    Bounds, FormatSizes, HEADER_LIMIT, Method, MethodSizes, ProfileFault, ProfileFaultKind,
    ResolveError, Sizes, earlier,
};
use sqlite_items::{Items, at};
use std::alloc::{AllocError, Global};

fn hull(bounds: Bounds, other: Bounds) -> Bounds
    ensures { result ≡ spec.hull bounds other }
{
    Bounds {
        least: bounds.least.min(other.least),
        most: bounds.most.max(other.most),
    }
}

fn sides_hull(sizes: Sizes, other: Sizes) -> Sizes
    ensures { result ≡ spec.sides_hull sizes other }
{
    Sizes {
        uncompressed: hull(sizes.uncompressed, other.uncompressed),
        compressed: hull(sizes.compressed, other.compressed),
    }
}

fn formats_hull(formats: &[FormatSizes]) -> Sizes
    ensures { result ≡ spec.formats_hull formats.now }
{
    let [first, rest @ ..] = formats else {
        return Sizes {
            uncompressed: NO_BITS,
            compressed: NO_BITS,
        };
    };
    let mut whole = first.whole;
    for format in rest {
        whole = sides_hull(whole, format.whole);
    }
    whole
}

fn formats_sizes(
    alloc: Global,
    table: &[MethodSizes],
    method: &Method,
) -> Result<Items<FormatSizes>, AllocError>
    requires { spec.SumsAreNumbers table.now method.now }
    ensures { IfOk result (λ fs. fs ≡ map (formats.format_sizes table.now) method.now.formats) }
{
    let mut sizes = Items::new(alloc);
    for format in method.formats.as_slice() {
        sizes.push(format_sizes(alloc, table, format)?)?;
    }
    Ok(sizes)
}

fn method_sizes(
    alloc: Global,
    table: &[MethodSizes],
    method: &Method,
) -> Result<MethodSizes, AllocError>
    requires { spec.SumsAreNumbers table.now method.now }
    ensures { IfOk result (spec.HasSizes table.now method.now) }
{
    let formats = formats_sizes(alloc, table, method)?;
    let whole = formats_hull(formats.as_slice());
    Ok(MethodSizes {
        formats,
        whole,
        parameters: Items::new(alloc),
    })
}

fn no_sizes(alloc: Global, count: usize) -> Result<Vec<MethodSizes>, AllocError>
    ensures { IfOk result (λ t. length t.items ≡ count) }
{
    let mut table = Vec::new(alloc);
    for _ in 0..count {
        table.push(MethodSizes {
            formats: Items::new(alloc),
            whole: Sizes {
                uncompressed: NO_BITS,
                compressed: NO_BITS,
            },
            parameters: Items::new(alloc),
        })?;
    }
    Ok(table)
}

fn set_sizes(table: &mut Vec<MethodSizes>, index: usize, sizes: MethodSizes)
    requires { index < length table.old.items }
    ensures { table.new.items ≡ slice_set table.old.items index sizes }
{
    table[index] = sizes;
}

fn filled(
    alloc: Global,
    methods: &[Method],
    order: &[usize],
) -> Result<Vec<MethodSizes>, AllocError>
    requires order { spec.IsOrder methods.now order.now }
    requires light { AreLight methods.now }
    ensures { IfOk result (λ t. spec.SizedBefore methods.now order.now (length order.now) t.items) }
{
    let mut table = no_sizes(alloc, methods.len())?;
    for index in order {
        let Some(method) = at(methods, *index) else {
            continue;
        };
        let sizes = method_sizes(alloc, table.as_slice(), method)?;
        set_sizes(&mut table, *index, sizes);
    }
    Ok(table)
}

fn with_ranges(
    alloc: Global,
    methods: &[Method],
    order: &[usize],
    callers: &[Items<usize>],
    sized: Vec<MethodSizes>,
    none: Interval,
) -> Result<Vec<MethodSizes>, AllocError>
    requires callers { callers.now ≡ calling.caller_table methods.now }
    requires order { spec.IsOrder methods.now order.now }
    requires sized { spec.SizedBefore methods.now order.now (length order.now) sized.items }
    ensures sized { IfOk result (λ t. spec.SizedBefore methods.now order.now (length order.now) t.items) }
    ensures ranged { IfOk result (λ t. RangedFrom none methods.now order.now 0 t.items) }
{
    let mut table = sized;
    let mut left = order.len();
    while left > 0 {
        left -= 1;
        let index = order[left];
        let Some(method) = at(methods, index) else {
            continue;
        };
        let row = callers_at(callers, index);
        let sizes = table.as_slice();
        let parameters = parameter_ranges(alloc, methods, sizes, row, index, method, none)?;
        set_parameters(&mut table, index, parameters);
    }
    Ok(table)
}

fn is_short(sizes: Sizes) -> bool
    ensures { result ≡ spec.is_short sizes }
{
    sizes.uncompressed.most <= HEADER_LIMIT as u128
}

fn too_wide(methods: &[Method], table: &[MethodSizes], index: usize) -> Option<ProfileFault>
    ensures { Judged (spec.IsShortAt methods.now table.now index) (spec.IsWide methods.now table.now) result }
{
    let method = at(methods, index)?;
    let sizes = at(table, index)?;
    if is_short(sizes.whole) {
        None
    } else {
        Some(ProfileFault::about(ProfileFaultKind::TooLarge, method.place))
    }
}

fn widest(methods: &[Method], table: &[MethodSizes]) -> Option<ProfileFault>
    ensures { Judged ((k : ℕ) → k < length methods.now → spec.IsShortAt methods.now table.now k) (spec.IsWide methods.now table.now) result }
{
    let mut found = None;
    for index in 0..methods.len() {
        found = earlier(found, too_wide(methods, table, index));
    }
    found
}

fn earliest(
    alloc: Global,
    extent: Extent,
    methods: &[Method],
    table: &[MethodSizes],
) -> Result<Option<ProfileFault>, AllocError>
    requires { spec.ArePacked methods.now table.now }
    ensures { IfOk result (Judged (outcome.IsFine extent methods.now table.now) (outcome.IsFaulty extent methods.now table.now)) }
{
    let fault = methods_fault(alloc, extent, methods, table)?;
    Ok(earlier(widest(methods, table), fault))
}

/// The bounds of the methods and the ranges of their parameters. Each method comes after those that it calls in the order.
/// A fault is `TooLarge` of a method whose header may have more than 4,096 bits, or that of an expression: `WideValue`, `AboveLimit` or `Power`.
/// A part that holds a parameter whose arguments have no range is not judged.
///
/// It asks that a method's formats have at most 4,096 fields, those of the methods that encode them among them, and that each method with a format is
/// called with as many arguments as it has parameters, or has none.
pub fn sizes(
    alloc: Global,
    methods: &[Method],
    order: &[usize],
) -> Result<Items<MethodSizes>, ResolveError>
    requires order { spec.IsOrder methods.now order.now }
    requires light { AreLight methods.now }
    requires called { calling.AreCalled methods.now }
    ensures ok { IfOk result (outcome.AreSizes methods.now) }
    ensures err { IfErr result (outcome.Blames methods.now order.now) }
{
    let sized = filled(alloc, methods, order)?;
    let callers = caller_table(alloc, methods)?;
    let rows = callers.as_slice();
    let table = with_ranges(alloc, methods, order, rows, sized, ONLY_ZERO)?;
    let Some(_) = earliest(alloc, Extent::Whole, methods, table.as_slice())? else {
        return Ok(Items::from_vec(table));
    };
    // So a part has a fault that holds no such parameter, and that one is answered.
    let known = with_ranges(alloc, methods, order, rows, table, BEYOND)?;
    match earliest(alloc, Extent::Known, methods, known.as_slice())? {
        Some(fault) => Err(ResolveError::Fault(fault)),
        None => unreachable!(),
    }
}
