//! Why no filling fits a format.

ghost use Rattle.std.specs.Prelude.{◌≡◌, ◌↔◌, IsTrue, IfOk, IfSome, IfNone, MatchOption, slice_get};
ghost use Rattle.std.specs.Option.{option_copied};
ghost use Rattle.sem_expr.specs.Bounds.{bounding_of};
ghost use Rattle.sem_filling.specs.Fits.{format_at};
ghost use Rattle.sem_lint.specs.Marks.{CallsMarked, marked_at};
ghost use Rattle.sem_lint.specs.Obstacles as spec;

use crate::demands::first_unmet;
use crate::lengths::no_length;
use crate::marks::Judged;
use crate::never::first_untrue;
use crate::undefined::{undefined_argument, undefined_condition};
use crate::unfit::{sends_more, splits_octets};
use sem_bounds::ranges::format_ranges;
use sem_expr::{Interval, Ranges};
use sem_filling::obstacle::Obstacle;
use sem_profile::{Constraint, Encoding, Field, Format, FormatSizes, MethodSizes, Profile, Shared};
use sqlite_items::at;
use std::alloc::{AllocError, Global};
use text_source::Span;

/// An obstacle of a format of a method, both by their indices. None where it has none of these. The error is out of memory.
pub fn obstacle_of(
    alloc: Global,
    judged: &Judged<'_>,
    method: usize,
    format: usize,
) -> Result<Option<Obstacle>, AllocError>
    // no filling of the format fits its method, in any context
    ensures dead { IfOk result (λ r. IfSome r (λ o. spec.IsDead judged.now method format)) }
    ensures found { IfOk result (λ r. IfSome r (spec.Hinders judged.now method format)) }
    ensures none { IfOk result (λ r. IfNone r ((o : _) → spec.Hinders judged.now method format o → ⊥)) }
{
    judged.profile().keeps();
    let own = own_obstacle(alloc, judged.profile(), method, format)?;
    if own.is_some() {
        return Ok(own);
    }
    Ok(calls_dead(judged, method, format))
}

/// One that stands in the format alone. None where none does.
pub(crate) fn own_obstacle(
    alloc: Global,
    profile: &Profile,
    method: usize,
    format: usize,
) -> Result<Option<Obstacle>, AllocError>
    ensures { IfOk result (λ r. MatchOption r ((o : _) → spec.Stands profile.now method format o → ⊥) (spec.Stands profile.now method format)) }
{
    let Some(found) = format_of(profile, method, format) else {
        return Ok(None);
    };
    let Some(whole) = whole_of(profile, method) else {
        return Ok(None);
    };
    let Some(sizes) = sizes_of(whole, format) else {
        return Ok(None);
    };
    standing(alloc, found, sizes, whole.parameters.as_slice())
}

/// The first field that calls a method of which each format has an obstacle.
fn calls_dead(judged: &Judged<'_>, method: usize, format: usize) -> Option<Obstacle>
    ensures { MatchOption result ((i j : _) → spec.CallsAt judged.now method format i j → spec.IsLifeless judged.now j → ⊥) (spec.Hinders judged.now method format) }
{
    let Some(found) = format_of(judged.profile(), method, format) else {
        return None;
    };
    match marked_call(found.fields.as_slice(), judged.lifeless()) {
        Some(field) => Some(Obstacle::CallsDead { field }),
        None => None,
    }
}

/// The first field that calls a marked method.
pub(crate) fn marked_call(fields: &[Field], marks: &[bool]) -> Option<usize>
    ensures { MatchOption result ((i : _) → CallsMarked marks.now fields.now i → ⊥) (CallsMarked marks.now fields.now) }
{
    for field in 0..fields.len() {
        if calls_marked(fields, field, marks) {
            return Some(field);
        }
    }
    None
}

fn calls_marked(fields: &[Field], index: usize, marks: &[bool]) -> bool
    ensures { IsTrue result ↔ CallsMarked marks.now fields.now index }
{
    let Some(field) = at(fields, index) else {
        return false;
    };
    match field.encoding.get() {
        Encoding::Call { method, .. } => is_marked(marks, *method),
        Encoding::Bare | Encoding::Library(_) => false,
    }
}

pub(crate) fn is_marked(marks: &[bool], method: usize) -> bool
    ensures { result ≡ marked_at marks.now method }
{
    match marks.get(method) {
        Some(mark) => *mark,
        None => false,
    }
}

/// The format of a method, both by their indices. None where there is none.
fn format_of(profile: &Profile, method: usize, format: usize) -> Option<&Format>
    ensures { option_copied result ≡ format_at profile.now.methods method format }
{
    profile.methods().get(method)?.formats.get(format)
}

/// The bounds of a method. None where there is none.
fn whole_of(profile: &Profile, method: usize) -> Option<&MethodSizes>
    ensures { option_copied result ≡ slice_get profile.now.sizes method }
{
    profile.sizes().get(method)
}

/// Those of a format among them. None where there is none.
fn sizes_of(whole: &MethodSizes, format: usize) -> Option<&FormatSizes>
    ensures { option_copied result ≡ slice_get whole.now.formats format }
{
    whole.formats.get(format)
}

/// An obstacle that stands in a format with these bounds, under these ranges of parameters.
fn standing(
    alloc: Global,
    format: &Format,
    sizes: &FormatSizes,
    parameters: &[Interval],
) -> Result<Option<Obstacle>, AllocError>
    ensures { IfOk result (λ r. MatchOption r ((o : _) → spec.StandsIn format.now sizes.now parameters.now o → ⊥) (spec.StandsIn format.now sizes.now parameters.now)) }
{
    let ranges = format_ranges(alloc, sizes, parameters)?;
    Ok(standing_under(format, sizes, &ranges))
}

/// The same under these ranges of its numbers.
fn standing_under(format: &Format, sizes: &FormatSizes, ranges: &Ranges) -> Option<Obstacle>
    ensures { MatchOption result ((o : _) → spec.StandsUnder format.now sizes.now (bounding_of ranges.now) o → ⊥) (spec.StandsUnder format.now sizes.now (bounding_of ranges.now)) }
{
    let fields = format.fields.as_slice();
    let constraints = format.constraints.as_slice();
    if let Some((field, side)) = no_length(sizes.fields.as_slice()) {
        return Some(Obstacle::NoLength { field, side });
    }
    if let Some(field) = sends_more(fields, sizes.fields.as_slice()) {
        return Some(Obstacle::SendsMore { field });
    }
    if let Some(field) = splits_octets(fields, sizes) {
        return Some(Obstacle::SplitsOctets { field });
    }
    if let Some(at) = no_value(fields, constraints, ranges) {
        return Some(Obstacle::NoValue { at });
    }
    if let Some(found) = first_unmet(fields, ranges) {
        return Some(Obstacle::OutOfRange(found));
    }
    match first_untrue(constraints, ranges) {
        Some(constraint) => Some(Obstacle::NeverTrue { constraint }),
        None => None,
    }
}

/// The first argument that has no value, else the first condition.
fn no_value(fields: &[Field], constraints: &[Shared<Constraint>], ranges: &Ranges) -> Option<Span>
    ensures { MatchOption result ((at : _) → spec.HasNoValue fields.now constraints.now (bounding_of ranges.now) at → ⊥) (spec.HasNoValue fields.now constraints.now (bounding_of ranges.now)) }
{
    match valueless(fields, ranges) {
        Some(at) => Some(at),
        None => undefined_condition(constraints, ranges),
    }
}

/// The first argument of a field that has no value.
fn valueless(fields: &[Field], ranges: &Ranges) -> Option<Span>
    ensures { MatchOption result ((at : _) → spec.LacksValue fields.now (bounding_of ranges.now) at → ⊥) (spec.LacksValue fields.now (bounding_of ranges.now)) }
{
    for field in 0..fields.len() {
        if let Some(at) = valueless_at(fields, field, ranges) {
            return Some(at);
        }
    }
    None
}

fn valueless_at(fields: &[Field], index: usize, ranges: &Ranges) -> Option<Span>
    ensures { MatchOption result ((at : _) → spec.LacksAt fields.now (bounding_of ranges.now) index at → ⊥) (spec.LacksAt fields.now (bounding_of ranges.now) index) }
{
    match at(fields, index) {
        Some(field) => undefined_argument(field.encoding.get(), ranges),
        None => None,
    }
}
