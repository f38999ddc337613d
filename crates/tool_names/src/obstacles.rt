//! What keeps every filling from a format: its place in the profile, and its words.

ghost use Rattle.std.specs.Prelude.{◌≡◌, ◌++◌, codes, IfOk, Some, option_and_then, slice_get, string_bytes, unwrap_or};
ghost use Rattle.sem_filling.specs.Bounded.{sizes_at};
ghost use Rattle.cert_rules.specs.Facts.{same_side};
ghost use Rattle.tool_names.specs.Names.{constraints_at};
ghost use Rattle.tool_names.specs.Obstacles as spec;

use crate::names::{constraints_at, field_at, field_name, method_name, method_place};
use itoa::Buffer;
use sem_expr::{Interval, Side};
use sem_filling::obstacle::{DeadFormat, Obstacle};
use sem_profile::{Bounds, Constraint, Encoding, Method, Profile, Shared, Sizes};
use std::alloc::{AllocError, Global};
use text_source::Span;

/// Where in the profile the reason stands.
pub fn place_of(methods: &[Method], dead: DeadFormat) -> Span
    ensures { result ≡ spec.place_of methods.now dead }
{
    let constraints = constraints_at(methods, dead.method, dead.format);
    let at = method_place(methods, dead.method);
    match dead.obstacle {
        Obstacle::NoLength { field, side } => bracket_or(constraints, field, side, at),
        Obstacle::SendsMore { field } => bracket_or(constraints, field, Side::Compressed, at),
        Obstacle::SplitsOctets { field } => bracket_or(constraints, field, Side::Compressed, at),
        Obstacle::CallsDead { field } => bracket_or(constraints, field, Side::Compressed, at),
        Obstacle::NoValue { at: part } => part,
        Obstacle::OutOfRange(unmet) => unmet.at,
        Obstacle::NeverTrue { constraint } => match constraints.get(constraint) {
            Some(found) => constraint_place(found.get()),
            None => at,
        },
    }
}

/// The place of the first bracket of this side of the field, or another.
pub fn bracket_or(constraints: &[Shared<Constraint>], field: usize, side: Side, other: Span) -> Span
    ensures { result ≡ unwrap_or (spec.first_bracket field side constraints.now) other }
{
    match first_bracket(constraints, field, side) {
        Some(place) => place,
        None => other,
    }
}

fn first_bracket(constraints: &[Shared<Constraint>], field: usize, side: Side) -> Option<Span>
    ensures { result ≡ spec.first_bracket field side constraints.now }
{
    for constraint in constraints {
        if let Some(place) = bracket_of(constraint.get(), field, side) {
            return Some(place);
        }
    }
    None
}

fn bracket_of(constraint: &Constraint, field: usize, side: Side) -> Option<Span>
    ensures { result ≡ spec.bracket_of field side constraint.now }
{
    match constraint {
        Constraint::Bracket {
            field: other,
            side: which,
            lengths: _,
            place,
        } => {
            if field == *other && is_same(side, *which) {
                Some(*place)
            } else {
                None
            }
        }
        Constraint::Enforce { .. } => None,
    }
}

fn is_same(one: Side, other: Side) -> bool
    ensures { result ≡ same_side one other }
{
    match one {
        Side::Uncompressed => match other {
            Side::Uncompressed => true,
            Side::Compressed => false,
        },
        Side::Compressed => match other {
            Side::Uncompressed => false,
            Side::Compressed => true,
        },
    }
}

/// The place of a bracket, or of the first token of a conjunct.
pub fn constraint_place(constraint: &Constraint) -> Span
    ensures { result ≡ spec.constraint_place constraint.now }
{
    match constraint {
        Constraint::Bracket {
            field: _,
            side: _,
            lengths: _,
            place,
        } => *place,
        Constraint::Enforce {
            condition: _,
            place,
        } => *place,
    }
}

/// What keeps every filling from a format.
pub fn obstacle_words(
    alloc: Global,
    profile: &Profile,
    method: usize,
    format: usize,
    obstacle: Obstacle,
) -> Result<String, AllocError>
    ensures { IfOk result (λ text. string_bytes text ≡ spec.obstacle_words profile.now method format obstacle) }
{
    let methods = profile.methods();
    match obstacle {
        Obstacle::NoLength { field, side } => length_words(
            alloc,
            field_name(methods, method, format, field),
            bounds_at(profile, method, format, field, side),
            side,
        ),
        Obstacle::SendsMore { field } => lsb_words(
            alloc,
            field_name(methods, method, format, field),
            bounds_at(profile, method, format, field, Side::Compressed).least,
            bounds_at(profile, method, format, field, Side::Uncompressed).most,
        ),
        Obstacle::SplitsOctets { field } => {
            crc_words(alloc, field_name(methods, method, format, field))
        }
        Obstacle::NoValue { at: _ } => String::from_str(
            alloc,
            "this has no value: it divides by 0, or its exponent is below 0",
        ),
        Obstacle::OutOfRange(unmet) => range_words(alloc, unmet.due),
        Obstacle::NeverTrue { constraint } => {
            never_words(alloc, profile, method, format, constraint)
        }
        Obstacle::CallsDead { field } => call_words(
            alloc,
            field_name(methods, method, format, field),
            called_name(methods, method, format, field),
        ),
    }
}

/// Of a condition that is never true, or a bracket with no length that its side may have.
fn never_words(
    alloc: Global,
    profile: &Profile,
    method: usize,
    format: usize,
    constraint: usize,
) -> Result<String, AllocError>
    ensures { IfOk result (λ text. string_bytes text ≡ spec.constraint_words profile.now method format (slice_get (constraints_at profile.now.methods method format) constraint)) }
{
    match constraints_at(profile.methods(), method, format).get(constraint) {
        Some(found) => constraint_words(alloc, profile, method, format, found.get()),
        None => String::from_str(alloc, "the condition is never true"),
    }
}

fn constraint_words(
    alloc: Global,
    profile: &Profile,
    method: usize,
    format: usize,
    constraint: &Constraint,
) -> Result<String, AllocError>
    ensures { IfOk result (λ text. string_bytes text ≡ spec.constraint_words profile.now method format (Some constraint.now)) }
{
    match constraint {
        Constraint::Bracket {
            field,
            side,
            lengths: _,
            place: _,
        } => bracket_words(
            alloc,
            field_name(profile.methods(), method, format, *field),
            bounds_at(profile, method, format, *field, *side),
            *side,
        ),
        Constraint::Enforce {
            condition: _,
            place: _,
        } => String::from_str(alloc, "the condition is never true"),
    }
}

fn bracket_words(
    alloc: Global,
    name: &str,
    bounds: Bounds,
    side: Side,
) -> Result<String, AllocError>
    ensures { IfOk result (λ text. string_bytes text ≡ spec.bracket_words name.now bounds side) }
{
    let lengths = length_words(alloc, name, bounds, side)?;
    none_words(alloc, lengths.as_str())
}

fn none_words(alloc: Global, lengths: &str) -> Result<String, AllocError>
    ensures { IfOk result (λ text. string_bytes text ≡ lengths.now ++ codes ", and this bracket has no such length") }
{
    format!(in alloc; "{lengths}, and this bracket has no such length")
}

fn range_words(alloc: Global, due: Interval) -> Result<String, AllocError>
    ensures { IfOk result (λ text. string_bytes text ≡ spec.range_words due.from due.to) }
{
    let mut first = Buffer::new();
    let mut last = Buffer::new();
    due_words(alloc, first.format(due.from), last.format(due.to))
}

fn due_words(alloc: Global, from: &str, to: &str) -> Result<String, AllocError>
    ensures { IfOk result (λ text. string_bytes text ≡ codes "this argument has to be from " ++ from.now ++ codes " to " ++ to.now ++ codes ", and never is") }
{
    format!(in alloc; "this argument has to be from {from} to {to}, and never is")
}

/// The name of the method that a field calls, or `-`.
fn called_name(methods: &[Method], method: usize, format: usize, field: usize) -> &str
    ensures { result.now ≡ spec.called_name methods.now method format field }
{
    match callee_at(methods, method, format, field) {
        Some(called) => method_name(methods, called),
        None => "-",
    }
}

fn callee_at(methods: &[Method], method: usize, format: usize, field: usize) -> Option<usize>
    ensures { result ≡ spec.callee_at methods.now method format field }
{
    match field_at(methods, method, format, field) {
        Some(found) => called_by(found.encoding.get()),
        None => None,
    }
}

fn called_by(encoding: &Encoding) -> Option<usize>
    ensures { result ≡ spec.called_by encoding.now }
{
    match encoding {
        Encoding::Call { method, .. } => Some(*method),
        Encoding::Bare | Encoding::Library(_) => None,
    }
}

fn call_words(alloc: Global, name: &str, called: &str) -> Result<String, AllocError>
    ensures { IfOk result (λ text. string_bytes text ≡ spec.call_words name.now called.now) }
{
    format!(in alloc; "{name} calls {called}, by which nothing can be packed")
}

fn field_bounds(profile: &Profile, method: usize, format: usize, field: usize) -> Option<Sizes>
    ensures { result ≡ option_and_then (λ s. slice_get s.fields field) (sizes_at profile.now.sizes method format) }
{
    profile
        .sizes()
        .get(method)?
        .formats
        .get(format)?
        .fields
        .get(field)
        .copied()
}

/// The bounds of a side of a field.
fn bounds_at(profile: &Profile, method: usize, format: usize, field: usize, side: Side) -> Bounds
    ensures { result ≡ spec.bounds_at profile.now.sizes method format field side }
{
    match field_bounds(profile, method, format, field) {
        Some(sizes) => match side {
            Side::Uncompressed => sizes.uncompressed,
            Side::Compressed => sizes.compressed,
        },
        None => Bounds { least: 0, most: 0 },
    }
}

fn length_words(alloc: Global, name: &str, bounds: Bounds, side: Side) -> Result<String, AllocError>
    ensures { IfOk result (λ text. string_bytes text ≡ spec.length_words name.now bounds side) }
{
    length_text(alloc, name, bounds.least, bounds.most, side_name(side))
}

fn length_text(
    alloc: Global,
    name: &str,
    least: u128,
    most: u128,
    side: &str,
) -> Result<String, AllocError>
    ensures { IfOk result (λ text. string_bytes text ≡ spec.length_text name.now least most side.now) }
{
    format!(in alloc; "{name} has at least {least} and at most {most} bits {side}")
}

fn side_name(side: Side) -> &'static str
    ensures { result.now ≡ spec.side_name side }
{
    match side {
        Side::Uncompressed => "uncompressed",
        Side::Compressed => "compressed",
    }
}

fn lsb_words(alloc: Global, name: &str, sent: u128, most: u128) -> Result<String, AllocError>
    ensures { IfOk result (λ text. string_bytes text ≡ spec.lsb_words name.now sent most) }
{
    format!(in alloc; "lsb of {sent} bits on {name}, which has at most {most}")
}

fn crc_words(alloc: Global, name: &str) -> Result<String, AllocError>
    ensures { IfOk result (λ text. string_bytes text ≡ spec.crc_words name.now) }
{
    format!(in alloc; "crc {name} is over bits that are never whole octets")
}
