//! Methods of which each format has an obstacle.

ghost use Rattle.std.specs.Prelude.{◌≡◌, ◌↔◌, IsTrue, IfOk, MatchOption, slice_get, Some, ℕ};
ghost use Rattle.sem_lint.specs.Marks as spec;

use crate::obstacle::{is_marked, marked_call, own_obstacle};
use sem_graph::marks::no_marks;
use sem_profile::{Format, Method, Profile};
use sqlite_items::{Items, at};
use std::alloc::{AllocError, Global};
use std::marker::Model;

/// A profile, with a mark for each method of which each format has an obstacle.
#[derive(Drop)]
pub struct Judged<'a> {
    profile: &'a Profile,
    lifeless: Items<bool>,
}

impl<'a> Model for Judged<'a> {
    ghost use Rattle.sem_profile.specs.Resolved.{Resolved};
    ghost use Rattle.sem_expr.specs.contracts.expr.Expr as expr;
    ghost use Rattle.sem_expr.specs.contracts.expr.Cond as cond;
    ghost use Rattle.sem_lint.specs.Marks.{AreMarked};
    ghost use Rattle.std.specs.Coded.{codes};

    ghost Value = { Resolved };

    ghost coded = { Prim.hlevel (codes, expr.the_row.coded, cond.the_row.coded) };

    ghost view = { λ j. j.profile.now };

    ghost invariant = { λ j. AreMarked j.profile.now j.lifeless };
}

impl<'a> Judged<'a> {
    /// The profile, judged. The error is out of memory.
    pub fn of(alloc: Global, profile: &'a Profile) -> Result<Judged<'a>, AllocError>
        ensures { IfOk result (λ j. j ≡ profile.now) }
    {
        let lifeless = lifeless(alloc, profile)?;
        Ok(Judged { profile, lifeless })
    }

    /// The profile.
    pub fn profile(&self) -> &'a Profile
        ensures { result.now ≡ self.now }
    {
        self.profile
    }

    /// The marks.
    pub(crate) fn lifeless(&self) -> &[bool]
        ensures { spec.AreMarked self.now result.now }
    {
        self.lifeless.as_slice()
    }
}

/// A mark for each method of which each format has an obstacle.
fn lifeless(alloc: Global, profile: &Profile) -> Result<Items<bool>, AllocError>
    ensures { IfOk result (spec.AreMarked profile.now) }
{
    let own = own_marks(alloc, profile)?;
    all_marked(alloc, profile, own.as_slice())
}

/// The same by these obstacles of formats: one method after the other is marked, as long as there is one that isn't.
fn all_marked(
    alloc: Global,
    profile: &Profile,
    own: &[Items<bool>],
) -> Result<Items<bool>, AllocError>
    requires { spec.AreOwn profile.now own.now }
    ensures { IfOk result (spec.AreMarked profile.now) }
{
    let mut marks = no_marks(alloc, profile.methods().len())?;
    for _round in 0..profile.methods().len() {
        let Some(method) = next_lifeless(profile, own, marks.as_slice()) else {
            return Ok(marks);
        };
        marks.set(method, true);
    }
    Ok(marks)
}

/// For each format whether an obstacle stands in it alone.
fn own_marks(alloc: Global, profile: &Profile) -> Result<Items<Items<bool>>, AllocError>
    ensures { IfOk result (spec.AreOwn profile.now) }
{
    let mut rows = Items::new(alloc);
    for (index, method) in profile.methods().iter().enumerate() {
        rows.push(own_row(alloc, profile, index, method)?)?;
    }
    Ok(rows)
}

fn own_row(
    alloc: Global,
    profile: &Profile,
    index: usize,
    method: &Method,
) -> Result<Items<bool>, AllocError>
    requires { slice_get profile.now.methods index ≡ Some method.now }
    ensures { IfOk result (spec.IsRow profile.now index) }
{
    let mut row = Items::new(alloc);
    for format in 0..method.formats.len() {
        row.push(has_own(alloc, profile, index, format)?)?;
    }
    Ok(row)
}

/// Whether an obstacle stands in the format alone.
fn has_own(
    alloc: Global,
    profile: &Profile,
    method: usize,
    format: usize,
) -> Result<bool, AllocError>
    ensures { IfOk result (spec.IsOwn profile.now method format) }
{
    match own_obstacle(alloc, profile, method, format)? {
        Some(_) => Ok(true),
        None => Ok(false),
    }
}

/// The first method that isn't marked, and of which each format has an obstacle of its own or calls a marked method.
fn next_lifeless(profile: &Profile, own: &[Items<bool>], marks: &[bool]) -> Option<usize>
    ensures { MatchOption result ((k : ℕ) → spec.IsNext profile.now own.now marks.now k → ⊥) (spec.IsNext profile.now own.now marks.now) }
{
    for method in 0..profile.methods().len() {
        if is_next(profile, own, marks, method) {
            return Some(method);
        }
    }
    None
}

fn is_next(profile: &Profile, own: &[Items<bool>], marks: &[bool], method: usize) -> bool
    ensures { IsTrue result ↔ spec.IsNext profile.now own.now marks.now method }
{
    if is_marked(marks, method) {
        return false;
    }
    match at(profile.methods(), method) {
        Some(found) => are_held(found.formats.as_slice(), own, marks, method),
        None => false,
    }
}

/// Whether each of the formats has an obstacle of its own, or calls a marked method.
fn are_held(formats: &[Format], own: &[Items<bool>], marks: &[bool], method: usize) -> bool
    ensures { IsTrue result ↔ spec.AreHeldIn own.now marks.now method formats.now }
{
    for format in 0..formats.len() {
        if !is_held(formats, own, marks, method, format) {
            return false;
        }
    }
    true
}

fn is_held(
    formats: &[Format],
    own: &[Items<bool>],
    marks: &[bool],
    method: usize,
    format: usize,
) -> bool
    ensures { IsTrue result ↔ ((f : _) → slice_get formats.now format ≡ Some f → spec.IsHeld marks.now (spec.own_at own.now method format) f.fields) }
{
    match at(formats, format) {
        Some(found) => {
            is_own(own, method, format) || marked_call(found.fields.as_slice(), marks).is_some()
        }
        None => true,
    }
}

fn is_own(own: &[Items<bool>], method: usize, format: usize) -> bool
    ensures { result ≡ spec.own_at own.now method format }
{
    match own.get(method) {
        Some(row) => is_marked(row.as_slice(), format),
        None => false,
    }
}
