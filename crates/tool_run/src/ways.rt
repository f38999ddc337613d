//! Where formats of called methods stand: the names of the fields on the way and of the format, parted by points.

use sem_profile::{Encoding, Field, Format, Profile};
use std::alloc::{AllocError, Global};
use strsim::damerau_levenshtein;
use tool_names::names::{format_name, formats_of};

/// Names of which so few edits lead from one to the other are near.
const NEAR: usize = 2;

/// Whether a method that is called at the path has a format of that name.
pub(crate) fn leads_to(
    alloc: Global,
    profile: &Profile,
    path: &str,
    format: &str,
) -> Result<bool, AllocError> {
    let methods = methods_at(alloc, profile, path)?;
    for method in methods.as_slice() {
        for number in 0..formats_of(profile.methods(), *method).len() {
            if format_name(profile.methods(), *method, number) == format {
                return Ok(true);
            }
        }
    }
    Ok(false)
}

/// The methods that are called at the path, by their numbers.
fn methods_at(alloc: Global, profile: &Profile, path: &str) -> Result<Vec<usize>, AllocError> {
    let mut methods = Vec::new(alloc);
    methods.push(profile.top())?;
    for name in path.split('.') {
        methods = called_by(alloc, profile, methods.as_slice(), name)?;
    }
    Ok(methods)
}

/// The methods that fields of that name call in any format of the callers.
fn called_by(
    alloc: Global,
    profile: &Profile,
    callers: &[usize],
    name: &str,
) -> Result<Vec<usize>, AllocError> {
    let mut called = Vec::new(alloc);
    for caller in callers {
        for format in formats_of(profile.methods(), *caller) {
            for field in format.fields.as_slice() {
                if field.declared.name.as_str() == name {
                    add_callee(&mut called, field)?;
                }
            }
        }
    }
    Ok(called)
}

/// Adds the method that a field calls, unless it is there.
fn add_callee(called: &mut Vec<usize>, field: &Field) -> Result<(), AllocError> {
    if let Encoding::Call { method, .. } = field.encoding.get() {
        if !called.as_slice().contains(method) {
            called.push(*method)?;
        }
    }
    Ok(())
}

/// The names that are near one that leads nowhere, parted by blanks, after `, near are`: of formats, where its path leads to a method, else of the fields that call
/// methods where it leads no further. Nothing where none is near.
pub(crate) fn near_names(
    alloc: Global,
    profile: &Profile,
    name: &str,
) -> Result<String, AllocError> {
    let mut methods = Vec::new(alloc);
    methods.push(profile.top())?;
    match name.rsplit_once('.') {
        Some((path, format)) => near_inside(alloc, profile, methods, path, format),
        None => near_formats(alloc, profile, methods.as_slice(), "", name),
    }
}

/// The same of a format behind a path, which begins in these methods.
fn near_inside(
    alloc: Global,
    profile: &Profile,
    top: Vec<usize>,
    path: &str,
    format: &str,
) -> Result<String, AllocError> {
    let mut methods = top;
    let mut before = String::new(alloc);
    for name in path.split('.') {
        let called = called_by(alloc, profile, methods.as_slice(), name)?;
        if called.is_empty() {
            let fields = callers(alloc, profile, methods.as_slice())?;
            return near(alloc, before.as_str(), name, fields.as_slice());
        }
        methods = called;
        before.push_str(name)?;
        before.push('.')?;
    }
    near_formats(alloc, profile, methods.as_slice(), before.as_str(), format)
}

/// The same of a format of these methods.
fn near_formats(
    alloc: Global,
    profile: &Profile,
    methods: &[usize],
    path: &str,
    format: &str,
) -> Result<String, AllocError> {
    let formats = formats(alloc, profile, methods)?;
    near(alloc, path, format, formats.as_slice())
}

/// The names of the fields that call methods in formats of these methods.
fn callers<'a>(
    alloc: Global,
    profile: &'a Profile,
    methods: &[usize],
) -> Result<Vec<&'a str>, AllocError> {
    let mut names = Vec::new(alloc);
    for method in methods {
        for format in formats_of(profile.methods(), *method) {
            add_callers(&mut names, format)?;
        }
    }
    Ok(names)
}

fn add_callers<'a>(names: &mut Vec<&'a str>, format: &'a Format) -> Result<(), AllocError> {
    for field in format.fields.as_slice() {
        if let Encoding::Call { .. } = field.encoding.get() {
            names.push(field.declared.name.as_str())?;
        }
    }
    Ok(())
}

/// The names of the formats of these methods.
fn formats<'a>(
    alloc: Global,
    profile: &'a Profile,
    methods: &[usize],
) -> Result<Vec<&'a str>, AllocError> {
    let mut names = Vec::new(alloc);
    for method in methods {
        for number in 0..formats_of(profile.methods(), *method).len() {
            names.push(format_name(profile.methods(), *method, number))?;
        }
    }
    Ok(names)
}

/// Those of the names that are near this one, each once, after the path.
fn near(alloc: Global, path: &str, name: &str, names: &[&str]) -> Result<String, AllocError> {
    let mut text = String::new(alloc);
    let mut found = Vec::new(alloc);
    for other in names {
        if damerau_levenshtein(alloc, name, other)? <= NEAR && !is_among(found.as_slice(), other) {
            text.push_str(if found.is_empty() { ", near are " } else { " " })?;
            text.push_str(path)?;
            text.push_str(other)?;
            found.push(*other)?;
        }
    }
    Ok(text)
}

fn is_among(names: &[&str], name: &str) -> bool {
    names.iter().any(|other| *other == name)
}
