//! What two formats are known to begin with, which no tree parts.

use crate::places::place_text;
use cert_trees::{Signature, all_signatures};
use cert_types::Version;
use sem_profile::Profile;
use std::alloc::{AllocError, Global};
use tool_names::names::{format_name, method_place};

/// So many bits are shown at most.
const SHOWN: u128 = 64;

/// The first bits of two formats of a method, as far as they are known of all packets, and that this is no proof of two readings: only that no test of a certificate of
/// that version parts the two.
pub fn tree_notes(
    alloc: Global,
    octets: &[u8],
    profile: &Profile,
    version: Version,
    method: usize,
    first: usize,
    second: usize,
) -> Result<String, AllocError> {
    let methods = profile.methods();
    let Some(found) = methods.get(method) else {
        return Ok(String::new(alloc));
    };
    let Some(sizes) = profile.sizes().get(method) else {
        return Ok(String::new(alloc));
    };
    let tolds = all_signatures(alloc, found.formats.as_slice(), sizes.formats.as_slice())?;
    let Some(one) = tolds.get(first) else {
        return Ok(String::new(alloc));
    };
    let Some(other) = tolds.get(second) else {
        return Ok(String::new(alloc));
    };
    let count = shown(one, SHOWN).max(shown(other, SHOWN));
    let place = place_text(alloc, octets, method_place(methods, method))?;
    let bits = bits_text(alloc, one, count)?;
    let others = bits_text(alloc, other, count)?;
    format!(in alloc;
        "{}{} begins with {}, {} with {}; a point is a bit that is not known\n{}this is no proof that a packet has two readings: only that {} parts the two\n",
        place.as_str(),
        format_name(methods, method, first),
        bits.as_str(),
        format_name(methods, method, second),
        others.as_str(),
        place.as_str(),
        tests_named(version)
    )
}

/// What the tests of a tree look at, in a certificate of that version.
fn tests_named(version: Version) -> &'static str {
    match version {
        Version::One => "no bit and no parameter",
        Version::Two => "no bit, no parameter and no reference",
    }
}

/// How many bits are shown for a format: up to its last known one below the limit, and eight at least.
fn shown(told: &Signature, limit: u128) -> u128 {
    let mut count: u128 = 8;
    for offset in 0..limit {
        if is_known(told, offset) {
            count = count.max(offset.saturating_add(1));
        }
    }
    count
}

fn is_known(told: &Signature, offset: u128) -> bool {
    told.bits.get(&offset).is_some()
}

fn bits_text(alloc: Global, told: &Signature, count: u128) -> Result<String, AllocError> {
    let mut text = String::new(alloc);
    for offset in 0..count {
        text.push(match told.bits.get(&offset) {
            Some(bit) => { if *bit { '1' } else { '0' } }
            None => '.',
        })?;
    }
    Ok(text)
}
