//! Where the entries of a level may stand in a context: each behind those of the fields before its own. Nothing is promised of that.

use sem_profile::{DEPTH_LIMIT, Encoding, Field, Format, Method, Part};
use sqlite_items::{Items, at};
use std::alloc::{AllocError, Global};

/// For each method how many entries a level of its first format leaves, with those inside.
pub(crate) fn entry_counts(alloc: Global, methods: &[Method]) -> Result<Vec<usize>, AllocError> {
    let mut counts = vec![in alloc; 0; methods.len()]?;
    // Each turn counts what is one call deeper.
    for _ in 0..DEPTH_LIMIT {
        let mut has_changed = false;
        for k in 0..methods.len() {
            let count = first_entries(counts.as_slice(), &methods[k]);
            if k < counts.len() && counts[k] != count {
                counts[k] = count;
                has_changed = true;
            }
        }
        if !has_changed {
            break;
        }
    }
    Ok(counts)
}

fn first_entries(counts: &[usize], method: &Method) -> usize {
    match method.formats.get(0) {
        Some(format) => level_entries(counts, format),
        None => 0,
    }
}

fn level_entries(counts: &[usize], format: &Format) -> usize {
    let mut count: usize = 0;
    for field in format.fields.as_slice() {
        count = count.saturating_add(field_entries(counts, field));
    }
    count
}

/// How many entries the field leaves, with those inside.
fn field_entries(counts: &[usize], field: &Field) -> usize {
    let own = match field.declared.part {
        Part::Header | Part::Control => 1,
        Part::Local => 0,
    };
    match field.encoding.get() {
        Encoding::Call { method, .. } => match at(counts, *method) {
            Some(inside) => inside.saturating_add(own),
            None => own,
        },
        Encoding::Bare | Encoding::Library(_) => own,
    }
}

/// For each field of the format how many entries stand before its own.
pub(crate) fn places_of(
    alloc: Global,
    counts: &[usize],
    format: &Format,
) -> Result<Items<usize>, AllocError> {
    let mut places = Items::new(alloc);
    let mut next: usize = 0;
    for field in format.fields.as_slice() {
        places.push(next)?;
        next = next.saturating_add(field_entries(counts, field));
    }
    Ok(places)
}
