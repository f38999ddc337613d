//! The ranges of parameters.

ghost use Rattle.std.specs.Prelude.{◌≡◌, ◌<◌, None, length, map, slice_get, IfOk};
ghost use Rattle.std.specs.Option.{option_copied, unwrap_or};
ghost use Rattle.sem_bounds.specs.Callers as calling;
ghost use Rattle.sem_profile.specs.Parameters as spec;
ghost use Rattle.sem_profile.specs.Passes.{changed};

use crate::ranges::format_ranges;
use sem_expr::{Expr, Interval, Ranges, range};
use sem_profile::{Encoding, Format, FormatSizes, Method, MethodSizes, Name};
use sqlite_items::{Items, at};
use std::alloc::{AllocError, Global};

/// What stands for no range in a profile.
pub(crate) const ONLY_ZERO: Interval = Interval { from: 0, to: 0 };

/// What stands for no range while faults are looked for: it is beyond the limit of ranges.
pub(crate) const BEYOND: Interval = Interval {
    from: 0x200_0000_0000_0000_0000_0000_0000_0000,
    to: 0x200_0000_0000_0000_0000_0000_0000_0000,
};

fn joined(found: Option<Interval>, more: Option<Interval>) -> Option<Interval>
    ensures { result ≡ spec.joined found more }
{
    let Some(interval) = found else {
        return more;
    };
    let Some(other) = more else {
        return found;
    };
    Some(Interval {
        from: interval.from.min(other.from),
        to: interval.to.max(other.to),
    })
}

fn argument_range(ranges: &Ranges, arguments: &[Expr], place: usize) -> Option<Interval>
    ensures { result ≡ spec.argument_range ranges.now arguments.now place }
{
    match at(arguments, place) {
        Some(argument) => range(argument, ranges).ok(),
        None => None,
    }
}

fn with_arguments(
    alloc: Global,
    ranges: &Ranges,
    arguments: &[Expr],
    found: &[Option<Interval>],
) -> Result<Items<Option<Interval>>, AllocError>
    ensures { IfOk result (λ r. r ≡ spec.with_arguments ranges.now arguments.now found.now) }
{
    let mut next = Items::new(alloc);
    for interval in found {
        let place = next.len();
        next.push(joined(*interval, argument_range(ranges, arguments, place)))?;
    }
    Ok(next)
}

fn with_call(
    alloc: Global,
    ranges: &Ranges,
    method: usize,
    found: Items<Option<Interval>>,
    encoding: &Encoding,
) -> Result<Items<Option<Interval>>, AllocError>
    ensures { IfOk result (λ r. r ≡ spec.with_call ranges.now method found encoding.now) }
{
    match encoding {
        Encoding::Call {
            method: called,
            arguments,
        } => {
            if *called == method {
                with_arguments(alloc, ranges, arguments.as_slice(), found.as_slice())
            } else {
                Ok(found)
            }
        }
        Encoding::Bare => Ok(found),
        Encoding::Library(_) => Ok(found),
    }
}

fn is_call(method: usize, encoding: &Encoding) -> bool
    ensures { result ≡ spec.is_call method encoding.now }
{
    match encoding {
        Encoding::Bare => false,
        Encoding::Library(_) => false,
        Encoding::Call { method: called, .. } => *called == method,
    }
}

fn calls(method: usize, format: &Format) -> bool
    ensures { result ≡ spec.calls method format.now }
{
    format
        .fields
        .as_slice()
        .iter()
        .any(|field| is_call(method, field.encoding.get()))
}

fn with_fields(
    alloc: Global,
    ranges: &Ranges,
    method: usize,
    found: Items<Option<Interval>>,
    format: &Format,
) -> Result<Items<Option<Interval>>, AllocError>
    ensures { IfOk result (λ r. r ≡ spec.with_fields ranges.now method found format.now) }
{
    let mut all = found;
    for field in format.fields.as_slice() {
        all = with_call(alloc, ranges, method, all, field.encoding.get())?;
    }
    Ok(all)
}

fn with_format(
    alloc: Global,
    parameters: &[Interval],
    method: usize,
    found: Items<Option<Interval>>,
    format: &Format,
    sizes: Option<&FormatSizes>,
) -> Result<Items<Option<Interval>>, AllocError>
    ensures { IfOk result (λ r. r ≡ spec.with_format parameters.now method found format.now (option_copied sizes.entry)) }
{
    match sizes {
        Some(sizes) => {
            if !calls(method, format) {
                return Ok(found);
            }
            let ranges = format_ranges(alloc, sizes, parameters)?;
            with_fields(alloc, &ranges, method, found, format)
        }
        None => Ok(found),
    }
}

fn with_method(
    alloc: Global,
    formats: &[FormatSizes],
    parameters: &[Interval],
    method: usize,
    found: Items<Option<Interval>>,
    caller: &Method,
) -> Result<Items<Option<Interval>>, AllocError>
    ensures { IfOk result (λ r. r ≡ spec.with_method formats.now parameters.now method found caller.now) }
{
    let mut all = found;
    let mut place = 0;
    for format in caller.formats.as_slice() {
        all = with_format(alloc, parameters, method, all, format, at(formats, place))?;
        place += 1;
    }
    Ok(all)
}

fn with_entry(
    alloc: Global,
    entry: Option<&MethodSizes>,
    method: usize,
    found: Items<Option<Interval>>,
    caller: &Method,
) -> Result<Items<Option<Interval>>, AllocError>
    ensures { IfOk result (λ r. r ≡ spec.with_entry (option_copied entry.entry) method found caller.now) }
{
    match entry {
        Some(sizes) => with_method(
            alloc,
            sizes.formats.as_slice(),
            sizes.parameters.as_slice(),
            method,
            found,
            caller,
        ),
        None => Ok(found),
    }
}

fn with_caller(
    alloc: Global,
    methods: &[Method],
    table: &[MethodSizes],
    method: usize,
    found: Items<Option<Interval>>,
    place: usize,
) -> Result<Items<Option<Interval>>, AllocError>
    ensures { IfOk result (λ r. r ≡ calling.with_caller table.now method found place (slice_get methods.now place)) }
{
    match at(methods, place) {
        Some(caller) => with_entry(alloc, at(table, place), method, found, caller),
        None => Ok(found),
    }
}

/// The ranges so far, with those of the arguments of all calls of a method, from the methods that call it.
fn gathered(
    alloc: Global,
    methods: &[Method],
    table: &[MethodSizes],
    callers: &[usize],
    method: usize,
    found: Items<Option<Interval>>,
) -> Result<Items<Option<Interval>>, AllocError>
    requires { callers.now ≡ calling.callers_of method methods.now }
    ensures { IfOk result (λ r. r ≡ spec.gathered methods.now table.now method found) }
{
    if found.is_empty() {
        return Ok(found);
    }
    let mut all = found;
    for place in callers {
        all = with_caller(alloc, methods, table, method, all, *place)?;
    }
    Ok(all)
}

fn unknown(alloc: Global, parameters: &[Name]) -> Result<Items<Option<Interval>>, AllocError>
    ensures { IfOk result (λ r. r ≡ map (λ p. None) parameters.now) }
{
    let mut found = Items::new(alloc);
    for _ in parameters {
        found.push(None)?;
    }
    Ok(found)
}

fn settled(
    alloc: Global,
    found: &[Option<Interval>],
    none: Interval,
) -> Result<Items<Interval>, AllocError>
    ensures { IfOk result (λ r. r ≡ map (λ o. unwrap_or o none) found.now) }
{
    let mut ranges = Items::new(alloc);
    for interval in found {
        ranges.push(interval.unwrap_or(none))?;
    }
    Ok(ranges)
}

/// The ranges of a method's parameters, where the last interval stands for none.
pub(crate) fn parameter_ranges(
    alloc: Global,
    methods: &[Method],
    table: &[MethodSizes],
    callers: &[usize],
    index: usize,
    method: &Method,
    none: Interval,
) -> Result<Items<Interval>, AllocError>
    requires { callers.now ≡ calling.callers_of index methods.now }
    ensures { IfOk result (λ r. r ≡ spec.parameter_ranges none methods.now table.now index method.now) }
{
    let start = unknown(alloc, method.parameters.as_slice())?;
    let found = gathered(alloc, methods, table, callers, index, start)?;
    settled(alloc, found.as_slice(), none)
}

pub(crate) fn set_parameters(
    table: &mut Vec<MethodSizes>,
    index: usize,
    parameters: Items<Interval>,
)
    ensures { table.new.items ≡ changed (spec.with_parameters parameters) table.old.items index (slice_get table.old.items index) }
{
    if let Some(sizes) = table.get_mut(index) {
        sizes.parameters = parameters;
    }
}
