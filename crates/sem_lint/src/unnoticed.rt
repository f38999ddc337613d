//! Formats by which a wrong reference is not noticed.
//!
//! A field is *checked* where its format has a `crc` over what THIS or the field is in the header. A method is *open* where no checksum is over all that it encodes:
//! the top is, and what fields that aren't checked call in the formats of an open method. A method is *loose* where a format of it has a field with `static` or
//! `lsb` that isn't checked, or one that isn't checked and calls a loose method. Of each open method the first format is told that makes it loose. Formats with an
//! obstacle don't count.

ghost use Rattle.std.specs.Prelude.{◌≡◌, ◌++◌, IfOk, OnOk};
ghost use Rattle.sem_graph.specs.Order.{is_marked};
ghost use Rattle.sem_lint.specs.Needs as needs;
ghost use Rattle.sem_lint.specs.Paths as places;
ghost use Rattle.sem_lint.specs.Unnoticed as spec;

use crate::growth::{is_dead, takes_reference};
use crate::needs::dead_flags;
use crate::obstacle::is_marked;
use crate::paths::called_by;
use crate::unfit::crc_in;
use sem_expr::{Side, Subject};
use sem_graph::table;
use sem_profile::{Encoding, Field, Format, Method, Profile};
use sqlite_items::Items;
use std::alloc::{AllocError, Global};

/// A format by which a wrong reference is not noticed: itself and its method, by their indices.
#[derive(Clone, Copy)]
pub struct Unnoticed {
    pub method: usize,
    pub format: usize,
}

/// What makes a method loose: which methods each reaches by fields that aren't checked, and which have a field with `static` or `lsb` that isn't checked.
#[derive(Clone, Copy)]
struct Looseness<'a> {
    reached: &'a [Items<bool>],
    own: &'a [bool],
}

/// Of each open method the first format by which a wrong reference is not noticed, in the order of the text. The error is out of memory.
pub fn unnoticed_formats(alloc: Global, profile: &Profile) -> Result<Items<Unnoticed>, AllocError>
    ensures { IfOk result (spec.AreUnnoticed profile.now) }
{
    let dead = dead_flags(alloc, profile)?;
    unnoticed_of(alloc, profile, dead.as_slice())
}

/// The same by a table that says which formats have an obstacle.
fn unnoticed_of(
    alloc: Global,
    profile: &Profile,
    dead: &[Items<bool>],
) -> Result<Items<Unnoticed>, AllocError>
    requires { needs.TellsObstacles profile.now dead.now }
    ensures { IfOk result (spec.AreUnnoticed profile.now) }
{
    profile.keeps();
    let methods = profile.methods();
    let graph = graph_of(alloc, dead, methods)?;
    let own = own_of(alloc, dead, methods)?;
    let reached = table(alloc, graph.as_slice())?;
    let top = profile.top();
    let loose = Looseness {
        reached: reached.as_slice(),
        own: own.as_slice(),
    };
    unnoticed_among(alloc, methods, dead, &loose, top)
}

// ---- checksums

/// Whether the format has a checksum over what THIS or the field is in the header.
fn is_checked(format: &Format, place: usize) -> bool
    ensures { result ≡ spec.is_checked format.now place }
{
    for field in format.fields.as_slice() {
        if covers(field.encoding.get(), place) {
            return true;
        }
    }
    false
}

fn covers(encoding: &Encoding, place: usize) -> bool
    ensures { result ≡ spec.covers place encoding.now }
{
    match crc_in(encoding) {
        Some(crc) => is_of_header(crc.side) && is_over(crc.subject, place),
        None => false,
    }
}

fn is_of_header(side: Side) -> bool
    ensures { result ≡ spec.is_of_header side }
{
    match side {
        Side::Uncompressed => true,
        Side::Compressed => false,
    }
}

fn is_over(subject: Subject, place: usize) -> bool
    ensures { result ≡ spec.is_over place subject }
{
    match subject {
        Subject::This => true,
        Subject::Field(field) => field == place,
    }
}

// ---- calls

/// Whom each method calls by a field that isn't checked, in a format without an obstacle.
fn graph_of(
    alloc: Global,
    dead: &[Items<bool>],
    methods: &[Method],
) -> Result<Items<Items<usize>>, AllocError>
    ensures { IfOk result (λ graph. graph ≡ spec.graph_of dead.now methods.now) }
{
    let mut graph = Items::new(alloc);
    for (index, method) in methods.iter().enumerate() {
        graph.push(callees(alloc, dead, index, method)?)?;
    }
    Ok(graph)
}

fn callees(
    alloc: Global,
    dead: &[Items<bool>],
    index: usize,
    method: &Method,
) -> Result<Items<usize>, AllocError>
    ensures { IfOk result (λ found. found ≡ spec.callees dead.now index method.now) }
{
    let mut found = Items::new(alloc);
    for (number, format) in method.formats.as_slice().iter().enumerate() {
        add_of_format(&mut found, dead, index, number, format)?;
    }
    Ok(found)
}

fn add_of_format(
    found: &mut Items<usize>,
    dead: &[Items<bool>],
    method: usize,
    number: usize,
    format: &Format,
) -> Result<(), AllocError>
    ensures { OnOk result (found.new ≡ found.old ++ spec.callees_in dead.now method number format.now) }
{
    if is_dead(dead, method, number) {
        return Ok(());
    }
    add_of_fields(found, format)
}

fn add_of_fields(found: &mut Items<usize>, format: &Format) -> Result<(), AllocError>
    ensures { OnOk result (found.new ≡ found.old ++ spec.callees_of format.now) }
{
    for (place, field) in format.fields.as_slice().iter().enumerate() {
        add_of_field(found, format, place, field)?;
    }
    Ok(())
}

fn add_of_field(
    found: &mut Items<usize>,
    format: &Format,
    place: usize,
    field: &Field,
) -> Result<(), AllocError>
    ensures { OnOk result (found.new ≡ found.old ++ spec.callee_of format.now place field.now) }
{
    let Some(callee) = called_by(field.encoding.get()) else {
        return Ok(());
    };
    if is_checked(format, place) {
        return Ok(());
    }
    found.push(callee)
}

// ---- references

/// Which methods have a field with `static` or `lsb` that isn't checked, in a format without an obstacle.
fn own_of(
    alloc: Global,
    dead: &[Items<bool>],
    methods: &[Method],
) -> Result<Items<bool>, AllocError>
    ensures { IfOk result (λ own. own ≡ spec.own_of dead.now methods.now) }
{
    let mut own = Items::new(alloc);
    for (index, method) in methods.iter().enumerate() {
        own.push(refers_in(dead, index, method.formats.as_slice()))?;
    }
    Ok(own)
}

fn refers_in(dead: &[Items<bool>], method: usize, formats: &[Format]) -> bool
    ensures { result ≡ spec.refers_in dead.now method formats.now }
{
    for (number, format) in formats.iter().enumerate() {
        if refers_by(dead, method, number, format) {
            return true;
        }
    }
    false
}

fn refers_by(dead: &[Items<bool>], method: usize, number: usize, format: &Format) -> bool
    ensures { result ≡ spec.refers_by dead.now method number format.now }
{
    !is_dead(dead, method, number) && has_reference(format)
}

fn has_reference(format: &Format) -> bool
    ensures { result ≡ spec.any_place (spec.is_reference format.now) 0 format.now.fields }
{
    for (place, field) in format.fields.as_slice().iter().enumerate() {
        if is_reference(format, place, field) {
            return true;
        }
    }
    false
}

/// Whether the field has `static` or `lsb`, and isn't checked.
fn is_reference(format: &Format, place: usize, field: &Field) -> bool
    ensures { result ≡ spec.is_reference format.now place field.now }
{
    takes_reference(field.encoding.get()) && !is_checked(format, place)
}

// ---- what is told

fn unnoticed_among(
    alloc: Global,
    methods: &[Method],
    dead: &[Items<bool>],
    loose: &Looseness<'_>,
    top: usize,
) -> Result<Items<Unnoticed>, AllocError>
    ensures { IfOk result (λ found. found ≡ spec.unnoticed_among methods.now dead.now (spec.loose_by loose.now.reached.now loose.now.own.now) (spec.open_by loose.now.reached.now top)) }
{
    let mut found = Items::new(alloc);
    for (index, method) in methods.iter().enumerate() {
        add_of_method(&mut found, dead, loose, top, index, method)?;
    }
    Ok(found)
}

fn add_of_method(
    found: &mut Items<Unnoticed>,
    dead: &[Items<bool>],
    loose: &Looseness<'_>,
    top: usize,
    index: usize,
    method: &Method,
) -> Result<(), AllocError>
    ensures { OnOk result (found.new ≡ found.old ++ spec.unnoticed_method dead.now (spec.loose_by loose.now.reached.now loose.now.own.now) (spec.open_by loose.now.reached.now top) index method.now) }
{
    if !is_open(loose.reached, top, index) {
        return Ok(());
    }
    match first_wrong(dead, loose, index, method.formats.as_slice()) {
        Some(format) => found.push(Unnoticed {
            method: index,
            format,
        }),
        None => Ok(()),
    }
}

/// The first format that makes its method loose.
fn first_wrong(
    dead: &[Items<bool>],
    loose: &Looseness<'_>,
    method: usize,
    formats: &[Format],
) -> Option<usize>
    ensures { result ≡ spec.first_wrong dead.now (spec.loose_by loose.now.reached.now loose.now.own.now) method formats.now }
{
    for (number, format) in formats.iter().enumerate() {
        if is_wrong_format(dead, loose, method, number, format) {
            return Some(number);
        }
    }
    None
}

fn is_wrong_format(
    dead: &[Items<bool>],
    loose: &Looseness<'_>,
    method: usize,
    number: usize,
    format: &Format,
) -> bool
    ensures { result ≡ spec.is_wrong_format dead.now (spec.loose_by loose.now.reached.now loose.now.own.now) method number format.now }
{
    !is_dead(dead, method, number) && has_wrong_field(loose, format)
}

fn has_wrong_field(loose: &Looseness<'_>, format: &Format) -> bool
    ensures { result ≡ spec.any_place (spec.is_wrong_field (spec.loose_by loose.now.reached.now loose.now.own.now) format.now) 0 format.now.fields }
{
    for (place, field) in format.fields.as_slice().iter().enumerate() {
        if is_wrong_field(loose, format, place, field) {
            return true;
        }
    }
    false
}

/// Whether the field has `static` or `lsb` or calls a loose method, and isn't checked.
fn is_wrong_field(loose: &Looseness<'_>, format: &Format, place: usize, field: &Field) -> bool
    ensures { result ≡ spec.is_wrong_field (spec.loose_by loose.now.reached.now loose.now.own.now) format.now place field.now }
{
    let encoding = field.encoding.get();
    (takes_reference(encoding) || calls_loose(loose, encoding)) && !is_checked(format, place)
}

fn calls_loose(loose: &Looseness<'_>, encoding: &Encoding) -> bool
    ensures { result ≡ spec.calls_loose (spec.loose_by loose.now.reached.now loose.now.own.now) (places.called_by encoding.now) }
{
    match called_by(encoding) {
        Some(method) => is_loose(loose, method),
        None => false,
    }
}

fn is_loose(loose: &Looseness<'_>, method: usize) -> bool
    ensures { result ≡ spec.loose_by loose.now.reached.now loose.now.own.now method }
{
    is_marked(loose.own, method) || reaches_own(loose, method)
}

fn reaches_own(loose: &Looseness<'_>, method: usize) -> bool
    ensures { result ≡ spec.reaches_own loose.now.reached.now loose.now.own.now method }
{
    for (index, refers) in loose.own.iter().enumerate() {
        if *refers && is_reached(loose.reached, method, index) {
            return true;
        }
    }
    false
}

fn is_open(reached: &[Items<bool>], top: usize, method: usize) -> bool
    ensures { result ≡ spec.open_by reached.now top method }
{
    method == top || is_reached(reached, top, method)
}

fn is_reached(reached: &[Items<bool>], from: usize, to: usize) -> bool
    ensures { result ≡ is_marked reached.now from to }
{
    match reached.get(from) {
        Some(marks) => is_marked(marks.as_slice(), to),
        None => false,
    }
}

/// A law of what is told: no format is that stands alone, so that all its fillings fit in each context.
#[tactic(auto, using(crate::proofs::UnnoticedAlone::alone_is_silent))]
pub fn alone_is_silent()
    ensures { spec.AloneIsSilent }
{}
