//! Which filling stands at a path inside another one.

ghost use Rattle.std.specs.Prelude.{◌≡◌, ◌<◌, IfOk, IfSome, Some, length, slice_get};
ghost use Rattle.sem_expr.specs.Known.{assignment_of};
ghost use Rattle.sem_filling.specs.Fillings.{fields_of, inner_of};
ghost use Rattle.sem_filling.specs.Ready.{ArgumentsLieAt, IsReady};
ghost use Rattle.tool_items.specs.Inside as spec;

use sem_filling::whole_sides::{header_of, packed_of};
use sem_filling::{FilledField, Filling, below};
use sem_holds::level::{Level, level_of};
use sem_holds::numbers::add_values;
use sem_profile::{Encoding, Profile};
use smallvec::SmallVec;
use sqlite_items::Items;
use std::alloc::{AllocError, Global};

/// Where a filling stands: of which method it is, by its number, under which values of the method's arguments, and below which path.
#[derive(Drop)]
pub struct Standing<'a> {
    pub method: usize,
    pub arguments: Items<i128>,
    pub path: String,
    pub filling: &'a Filling,
}

/// The filling to which names lead from a filling of the method, under these arguments and below the path: each name, parted from the next by a point, is of a field
/// that calls a method in the filling before. None where a name leads nowhere. The error is out of memory.
#[cycle(descending)]
pub fn standing_at<'a>(
    alloc: Global,
    profile: &Profile,
    method: usize,
    arguments: &[i128],
    path: &str,
    filling: &'a Filling,
    names: &str,
) -> Result<Option<Standing<'a>>, AllocError>
    requires within { method < length profile.now.methods }
    requires arguments { ArgumentsLieAt profile.now method arguments.now }
    ensures { IfOk result (λ o. IfSome o (spec.StandsBelow profile.now method arguments.now path.now filling.now)) }
{
    profile.keeps();
    let Some(header) = header_of(alloc, filling)? else {
        return Ok(None);
    };
    let Some(packed) = packed_of(alloc, filling)? else {
        return Ok(None);
    };
    let level = level_of(profile, method, arguments, filling, &header, &packed);
    let Some(level) = level else {
        return Ok(None);
    };
    standing_among(alloc, profile, path, &level, filling, names)
}

/// The same from the fields of its level.
#[cycle(descending)]
fn standing_among<'a>(
    alloc: Global,
    profile: &Profile,
    path: &str,
    level: &Level<'_>,
    filling: &'a Filling,
    names: &str,
) -> Result<Option<Standing<'a>>, AllocError>
    requires ready { IsReady profile.now level.now.format.now level.now.known }
    requires count { length (fields_of filling.now) ≡ length level.now.format.now.fields }
    ensures { IfOk result (λ o. IfSome o (spec.StandsAmong profile.now path.now level.now.format.now (assignment_of level.now.known) filling.now)) }
{
    let (name, rest) = parted(names);
    let fields = filling.fields.as_slice();
    match place_of(fields, name) {
        Some(place) => standing_in(alloc, profile, path, level, place, &fields[place], rest),
        None => Ok(None),
    }
}

/// The place of the field of that name.
fn place_of(fields: &[FilledField], name: &str) -> Option<usize>
    ensures { IfSome result (λ place. place < length fields.now) }
{
    fields
        .iter()
        .position(|field| field.declared.name.as_str() == name)
}

/// The name before the first point, and what follows it.
fn parted(names: &str) -> (&str, Option<&str>) {
    match names.split_once('.') {
        Some((name, rest)) => (name, Some(rest)),
        None => (names, None),
    }
}

/// The filling to which the field at the place leads, and from there these names, if any follow.
#[cycle(descending)]
fn standing_in<'a>(
    alloc: Global,
    profile: &Profile,
    path: &str,
    level: &Level<'_>,
    place: usize,
    filled: &'a FilledField,
    names: Option<&str>,
) -> Result<Option<Standing<'a>>, AllocError>
    requires within { place < length level.now.format.now.fields }
    requires ready { IsReady profile.now level.now.format.now level.now.known }
    ensures { IfOk result (λ o. IfSome o (spec.StandsInField profile.now path.now level.now.format.now (assignment_of level.now.known) place filled.now)) }
{
    let field = &level.format.fields.as_slice()[place];
    let Encoding::Call { method, arguments } = field.encoding.get() else {
        return Ok(None);
    };
    let mut values = SmallVec::<i128, 4>::new(alloc);
    if !add_values(arguments.as_slice(), &level.known, &mut values)? {
        return Ok(None);
    }
    let here = below(alloc, path, field.declared.name.as_str())?;
    standing_within(
        alloc,
        profile,
        *method,
        values.as_slice(),
        here.as_str(),
        filled,
        names,
    )
}

/// The filling inside a field, which is of the method under these arguments and stands at the path; and from there these names, if any follow.
#[cycle(descending)]
fn standing_within<'a>(
    alloc: Global,
    profile: &Profile,
    method: usize,
    arguments: &[i128],
    path: &str,
    filled: &'a FilledField,
    names: Option<&str>,
) -> Result<Option<Standing<'a>>, AllocError>
    requires within { method < length profile.now.methods }
    requires arguments { ArgumentsLieAt profile.now method arguments.now }
    ensures { IfOk result (λ o. IfSome o (spec.StandsWithin profile.now method arguments.now path.now (inner_of filled.now))) }
{
    let Some(inner) = &filled.inner else {
        return Ok(None);
    };
    match names {
        Some(names) => standing_at(alloc, profile, method, arguments, path, inner, names),
        None => Ok(Some(Standing {
            method,
            arguments: Items::from_slice(alloc, arguments)?,
            path: String::from_str(alloc, path)?,
            filling: inner,
        })),
    }
}
