//! Paths of fields.
ghost use Rattle.std.specs.Prelude.{◌≡◌, ◌↔◌, ◌≤◌, IsTrue, length};
ghost use Rattle.sem_context.specs.Path.{IsPath};

use text_source::names::is_name;

/// Whether a text is a path: one or more names, each a letter and then letters, digits and underscores, joined by dots.
pub fn is_path(text: &str) -> bool
    ensures { IsTrue result ↔ IsPath text.now }
{
    text.split('.').all(|name| is_name(name.as_bytes()))
}

/// Whether two names or paths have the same octets. That is less work than the comparison of texts, since they are short: up to sixteen octets are the same where
/// the first eight and the last eight are.
#[inline(always)]
pub fn are_same(octets: &[u8], others: &[u8]) -> bool
    ensures { IsTrue result ↔ (octets.now ≡ others.now) }
{
    if octets.len() != others.len() {
        return false;
    }
    if octets.len() > 16 {
        return are_many_same(octets, others);
    }
    if octets.len() >= 8 {
        return are_ends_of_eight_same(octets, others);
    }
    if octets.len() >= 4 {
        return are_ends_of_four_same(octets, others);
    }
    are_few_same(octets, others)
}

/// The same of as many octets, eight at a time, and then one by one.
#[inline(never)]
fn are_many_same(octets: &[u8], others: &[u8]) -> bool
    ensures { IsTrue result ↔ (octets.now ≡ others.now) }
{
    let mut rest = octets;
    let mut other = others;
    while let Some((eight, more)) = rest.split_first_chunk::<8>() {
        let Some((other_eight, beyond)) = other.split_first_chunk::<8>() else {
            return false;
        };
        if *eight != *other_eight {
            return false;
        }
        rest = more;
        other = beyond;
    }
    are_few_same(rest, other)
}

/// The same of eight to sixteen octets.
#[inline(always)]
fn are_ends_of_eight_same(octets: &[u8], others: &[u8]) -> bool
    requires same { length octets.now ≡ length others.now }
    requires least { 8 ≤ length octets.now }
    requires most { length octets.now ≤ 16 }
    ensures { IsTrue result ↔ (octets.now ≡ others.now) }
{
    let Some(first) = octets.first_chunk::<8>() else {
        return false;
    };
    let Some(other_first) = others.first_chunk::<8>() else {
        return false;
    };
    let Some(last) = octets.last_chunk::<8>() else {
        return false;
    };
    let Some(other_last) = others.last_chunk::<8>() else {
        return false;
    };
    *first == *other_first && *last == *other_last
}

/// The same of four to eight octets.
#[inline(always)]
fn are_ends_of_four_same(octets: &[u8], others: &[u8]) -> bool
    requires same { length octets.now ≡ length others.now }
    requires least { 4 ≤ length octets.now }
    requires most { length octets.now ≤ 8 }
    ensures { IsTrue result ↔ (octets.now ≡ others.now) }
{
    let Some(first) = octets.first_chunk::<4>() else {
        return false;
    };
    let Some(other_first) = others.first_chunk::<4>() else {
        return false;
    };
    let Some(last) = octets.last_chunk::<4>() else {
        return false;
    };
    let Some(other_last) = others.last_chunk::<4>() else {
        return false;
    };
    *first == *other_first && *last == *other_last
}

/// The same of a few octets.
#[inline(never)]
fn are_few_same(octets: &[u8], others: &[u8]) -> bool
    ensures { IsTrue result ↔ (octets.now ≡ others.now) }
{
    if octets.len() != others.len() {
        return false;
    }
    for place in 0..octets.len() {
        if octets[place] != others[place] {
            return false;
        }
    }
    true
}
