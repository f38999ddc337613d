//! Warnings that are meant: a comment at the end of a profile's line silences what is warned of there.

ghost use Rattle.std.specs.Prelude.{◌≡◌, ◌<◌, ◌++◌, false, replicate, IfOk, OnOk, string_bytes};
ghost use Rattle.tool_survey.specs.Meant as spec;

use std::alloc::{AllocError, Global};

const MARK: &[u8] = b"// lint: meant";

/// The lines of a text that `lint` prints of a profile, but for those that begin with the number of a line of the profile that ends with the mark. For each such
/// line of which nothing is warned one that says so is added. Empty lines are left out.
pub(crate) fn silenced(alloc: Global, octets: &[u8], text: &str) -> Result<String, AllocError>
    ensures { IfOk result (λ shown. string_bytes shown ≡ spec.silenced octets.now text.now) }
{
    let meant = meant_lines(alloc, octets)?;
    let mut used = none_used(alloc, meant.len())?;
    let mut shown = String::new(alloc);
    for line in text.split('\n') {
        push_shown(&mut shown, meant.as_slice(), line)?;
        note_used(&mut used, line);
    }
    push_unused(alloc, &mut shown, meant.as_slice(), used.as_slice())?;
    Ok(shown)
}

/// Of each line of the octets whether it ends with the mark, or with the mark and a carriage return.
fn meant_lines(alloc: Global, octets: &[u8]) -> Result<Vec<bool>, AllocError>
    ensures { IfOk result (λ meant. meant.items ≡ spec.meant_lines octets.now) }
{
    let mut meant = Vec::new(alloc);
    let mut start = 0;
    for place in 0..octets.len() {
        if octets[place] == b'\n' {
            meant.push(is_meant(&octets[start..place]))?;
            start = place + 1;
        }
    }
    meant.push(is_meant(&octets[start..]))?;
    Ok(meant)
}

fn is_meant(line: &[u8]) -> bool
    ensures { result ≡ spec.is_meant line.now }
{
    line.ends_with(MARK) || line.ends_with(b"// lint: meant\r")
}

fn none_used(alloc: Global, count: usize) -> Result<Vec<bool>, AllocError>
    ensures { IfOk result (λ used. used.items ≡ replicate count false) }
{
    let mut used = Vec::new(alloc);
    for _ in 0..count {
        used.push(false)?;
    }
    Ok(used)
}

/// The number at the front of a line, 0 where there is none.
fn number_of(line: &str) -> usize
    ensures { result ≡ spec.number_of line.now }
{
    number_from(0, line.as_bytes())
}

/// The number that goes on with the first of these octets, as long as they are digits, nine in all.
#[tactic(auto, unfolding(crate::specs::Meant::number_from))]
fn number_from(number: usize, octets: &[u8]) -> usize
    requires { number < 1000000000 }
    ensures { result ≡ spec.number_from number octets.now }
{
    match octets {
        [octet, rest @ ..] => {
            if is_digit(*octet) && number < 100_000_000 {
                number_from(number * 10 + (*octet - b'0') as usize, rest)
            } else {
                number
            }
        }
        [] => number,
    }
}

fn is_digit(octet: u8) -> bool
    ensures { result ≡ spec.is_digit octet }
{
    48 <= octet && octet <= 57
}

/// Whether the line of that number, from 1, is one of the marked.
fn is_marked(meant: &[bool], number: usize) -> bool
    ensures { result ≡ spec.is_marked meant.now number }
{
    if number == 0 {
        return false;
    }
    match meant.get(number - 1) {
        Some(meant) => *meant,
        None => false,
    }
}

fn push_shown(shown: &mut String, meant: &[bool], line: &str) -> Result<(), AllocError>
    ensures { OnOk result (string_bytes shown.new ≡ string_bytes shown.old ++ spec.shown_line meant.now line.now) }
{
    if line.is_empty() || is_marked(meant, number_of(line)) {
        return Ok(());
    }
    shown.push_str(line)?;
    shown.push('\n')
}

/// Notes that a line of the text begins with its number.
fn note_used(used: &mut Vec<bool>, line: &str)
    ensures { spec.Notes line.now used.old.items used.new.items }
{
    let number = number_of(line);
    if number == 0 {
        return;
    }
    if number - 1 < used.len() {
        used[number - 1] = true;
    }
}

/// Adds a line for each marked one that isn't used.
fn push_unused(
    alloc: Global,
    shown: &mut String,
    meant: &[bool],
    used: &[bool],
) -> Result<(), AllocError>
    ensures { OnOk result (string_bytes shown.new ≡ string_bytes shown.old ++ spec.unused_by used.now meant.now) }
{
    for (index, is_meant) in meant.iter().enumerate() {
        push_unused_at(alloc, shown, used, index, *is_meant)?;
    }
    Ok(())
}

fn push_unused_at(
    alloc: Global,
    shown: &mut String,
    used: &[bool],
    index: usize,
    is_meant: bool,
) -> Result<(), AllocError>
    ensures { OnOk result (string_bytes shown.new ≡ string_bytes shown.old ++ spec.unused_line (spec.at used.now index) index is_meant) }
{
    if !is_meant || at(used, index) {
        return Ok(());
    }
    let Some(line) = index.checked_add(1) else {
        return Err(AllocError);
    };
    let words = unused_words(alloc, line)?;
    shown.push_str(words.as_str())
}

fn at(marks: &[bool], index: usize) -> bool
    ensures { result ≡ spec.at marks.now index }
{
    match marks.get(index) {
        Some(mark) => *mark,
        None => false,
    }
}

fn unused_words(alloc: Global, line: usize) -> Result<String, AllocError>
    ensures { IfOk result (λ text. string_bytes text ≡ spec.unused_words line) }
{
    format!(in alloc;
        "{line}:1: warning: nothing is warned of on this line, which says that it is meant\n"
    )
}
