//! What is wrong with a line of a certificate's text.

ghost use Rattle.std.specs.Prelude.{◌≡◌, map, option_and_then, slice_get};
ghost use Rattle.std.specs.Char.{is_ascii_digit};
ghost use Rattle.std.specs.List.{list_all};
ghost use Rattle.std.specs.Option.{option_copied};
ghost use Rattle.cert_text.specs.Drafts.{number_below, constant_of, method_place};
ghost use Rattle.cert_types.specs.Kept.{offset_limit};
ghost use Rattle.cert_text.specs.Shapes as spec;
ghost use Rattle.cert_text.specs.Table as table;

use crate::draft::{Stage, Standing};
use crate::words::{constant_of, node_of, number_below, place_of_format, place_of_method, step_of};
use cert_types::{OFFSET_LIMIT, Version};
use sem_profile::{Format, Method};

/// What may be wrong with a line.
#[derive(Clone, Copy)]
pub enum Fault {
    BadWord,
    UnknownName,
    AboveLimits,
}

/// What is wrong with a line that can't come next: its shape, its numbers, its names, its place, the counts.
pub fn fault_of(place: Standing, methods: &[Method], words: &[&str]) -> Fault
    ensures { result ≡ spec.fault_told place methods.now (map (λ w. w.now) words.now) }
{
    match line_fault(place.version, words) {
        Some(fault) => fault,
        None => words_fault(place, methods, words),
    }
}

/// What is wrong with a line of a right shape.
fn words_fault(place: Standing, methods: &[Method], words: &[&str]) -> Fault
    ensures { result ≡ spec.words_fault place methods.now (map (λ w. w.now) words.now) }
{
    let [word, more @ ..] = words else {
        return Fault::BadWord;
    };
    shaped_fault(place, methods, word, more)
}

fn shaped_fault(place: Standing, methods: &[Method], word: &str, more: &[&str]) -> Fault
    ensures { result ≡ spec.shaped_fault place methods.now word.now (map (λ w. w.now) more.now) }
{
    if is_unknown(place, methods, word, more) {
        return Fault::UnknownName;
    }
    if goes_on(place.stage, word) {
        return Fault::AboveLimits;
    }
    Fault::BadWord
}

/// Whether a line of a right shape names what is not there.
fn is_unknown(place: Standing, methods: &[Method], word: &str, more: &[&str]) -> bool
    ensures { result ≡ spec.is_unknown place methods.now word.now (map (λ w. w.now) more.now) }
{
    if word == "method" {
        return lacks_method(methods, more);
    }
    if word == "format" {
        return lacks_format(method_of(place, methods), more);
    }
    if is_node(word) {
        return lacks_node(place.version, method_of(place, methods), word, more);
    }
    if is_step(word) {
        return lacks_step(format_of(place, methods), word, more);
    }
    false
}

/// The method whose lines are being read.
fn method_of<'a>(place: Standing, methods: &'a [Method]) -> Option<&'a Method>
    ensures { option_copied result ≡ spec.standing_method place methods.now }
{
    match place.stage {
        Stage::Version | Stage::Between | Stage::End => None,
        Stage::Tree | Stage::Formats | Stage::Head | Stage::Read | Stage::Write => methods.get(
            place.method,
        ),
    }
}

/// The format whose lines are being read.
fn format_of<'a>(place: Standing, methods: &'a [Method]) -> Option<&'a Format>
    ensures { option_copied result ≡ spec.standing_format place methods.now }
{
    match place.stage {
        Stage::Version | Stage::Between | Stage::Tree | Stage::Formats | Stage::End => None,
        Stage::Head | Stage::Read | Stage::Write => {
            let method = methods.get(place.method)?;
            method.formats.as_slice().get(place.format)
        }
    }
}

/// Whether the profile has no method of the name that the top reaches.
fn lacks_method(methods: &[Method], more: &[&str]) -> bool
    ensures { result ≡ spec.lacks_method methods.now (map (λ w. w.now) more.now) }
{
    let [name, ..] = more else {
        return true;
    };
    is_bare(method_named(methods, name))
}

fn method_named<'a>(methods: &'a [Method], name: &str) -> Option<&'a Method>
    ensures { option_copied result ≡ option_and_then (slice_get methods.now) (method_place name.now methods.now) }
{
    let place = place_of_method(methods, name)?;
    methods.get(place)
}

/// Whether it has no formats: the top reaches those that have some.
fn is_bare(method: Option<&Method>) -> bool
    ensures { result ≡ spec.is_bare (option_copied method.entry) }
{
    match method {
        Some(method) => method.formats.is_empty(),
        None => true,
    }
}

/// Whether the method has no format of the name.
fn lacks_format(method: Option<&Method>, more: &[&str]) -> bool
    ensures { result ≡ spec.lacks_format (option_copied method.entry) (map (λ w. w.now) more.now) }
{
    let Some(method) = method else {
        return false;
    };
    let [name, ..] = more else {
        return true;
    };
    place_of_format(method, name).is_none()
}

/// Whether the method has no such node.
fn lacks_node(version: Version, method: Option<&Method>, word: &str, more: &[&str]) -> bool
    ensures { result ≡ spec.lacks_node version (option_copied method.entry) word.now (map (λ w. w.now) more.now) }
{
    match method {
        Some(method) => node_of(version, method, word, more).is_none(),
        None => false,
    }
}

/// Whether the format has no such step.
fn lacks_step(format: Option<&Format>, word: &str, more: &[&str]) -> bool
    ensures { result ≡ spec.lacks_step (option_copied format.entry) word.now (map (λ w. w.now) more.now) }
{
    match format {
        Some(format) => step_of(format, word, more).is_none(),
        None => false,
    }
}

/// Whether it is a node where the tree goes on, or a step where a plan does.
fn goes_on(stage: Stage, word: &str) -> bool
    ensures { result ≡ spec.goes_on stage word.now }
{
    match stage {
        Stage::Tree => is_node(word),
        Stage::Read | Stage::Write => is_step(word),
        Stage::Version | Stage::Between | Stage::Formats | Stage::Head | Stage::End => false,
    }
}

fn is_node(word: &str) -> bool
    ensures { result ≡ spec.is_node word.now }
{
    word == "bit" || word == "param" || word == "ref" || word == "leaf" || word == "none"
}

fn is_step(word: &str) -> bool
    ensures { result ≡ spec.is_step word.now }
{
    is_plain_step(word) || word == "library" || word == "length" || word == "solve"
}

fn is_plain_step(word: &str) -> bool
    ensures { result ≡ spec.is_plain_step word.now }
{
    word == "take" || word == "call" || word == "choose" || word == "ask"
}

/// What is wrong with a line by its words alone: its shape, or a number that is too large.
fn line_fault(version: Version, words: &[&str]) -> Option<Fault>
    ensures { result ≡ spec.line_fault version (map (λ w. w.now) words.now) }
{
    match words {
        [word] => one_fault(word),
        [word, name] => two_fault(word, name),
        [word, name, last] => three_fault(version, word, name, last),
        [word, name, side, last] => four_fault(word, name, side, last),
        _ => Some(Fault::BadWord),
    }
}

fn one_fault(word: &str) -> Option<Fault>
    ensures { result ≡ spec.one_fault word.now }
{
    if word == "none" || word == "read" || word == "write" || word == "end" {
        return None;
    }
    Some(Fault::BadWord)
}

fn two_fault(word: &str, name: &str) -> Option<Fault>
    ensures { result ≡ spec.two_fault word.now name.now }
{
    if word == "bit" {
        return offset_fault(name);
    }
    if word == "rohcfn-certificate" && (name == "1" || name == "2") {
        return None;
    }
    if name.is_empty() {
        return Some(Fault::BadWord);
    }
    if word == "method" || word == "format" || word == "leaf" || is_plain_step(word) {
        return None;
    }
    Some(Fault::BadWord)
}

fn three_fault(version: Version, word: &str, name: &str, last: &str) -> Option<Fault>
    ensures { result ≡ spec.three_fault version word.now name.now last.now }
{
    if name.is_empty() {
        return Some(Fault::BadWord);
    }
    if word == "param" {
        return constant_fault(last);
    }
    if word == "solve" {
        return number_fault(last);
    }
    if word == "library" && (last == "up" || last == "down") {
        return None;
    }
    match version {
        Version::One => Some(Fault::BadWord),
        Version::Two => reference_fault(word, last),
    }
}

fn reference_fault(word: &str, last: &str) -> Option<Fault>
    ensures { result ≡ spec.reference_fault word.now last.now }
{
    if word == "ref" {
        return constant_fault(last);
    }
    Some(Fault::BadWord)
}

fn four_fault(word: &str, name: &str, side: &str, last: &str) -> Option<Fault>
    ensures { result ≡ spec.four_fault word.now name.now side.now last.now }
{
    if word != "length" || name.is_empty() || !(side == "U" || side == "C") {
        return Some(Fault::BadWord);
    }
    if last == "method" {
        return None;
    }
    number_fault(last)
}

/// The offset of a bit.
fn offset_fault(word: &str) -> Option<Fault>
    ensures { result ≡ spec.number_fault (table.is_number word.now) (number_below offset_limit word.now) }
{
    if !is_number(word.as_bytes()) {
        return Some(Fault::BadWord);
    }
    match number_below(OFFSET_LIMIT, word) {
        Some(_) => None,
        None => Some(Fault::AboveLimits),
    }
}

/// The number of a constraint.
fn number_fault(word: &str) -> Option<Fault>
    ensures { result ≡ spec.number_fault (table.is_number word.now) (constant_of word.now) }
{
    if !is_number(word.as_bytes()) {
        return Some(Fault::BadWord);
    }
    wide_fault(word)
}

/// The constant of a parameter or a reference.
fn constant_fault(word: &str) -> Option<Fault>
    ensures { result ≡ spec.number_fault (table.is_signed word.now) (constant_of word.now) }
{
    if !is_signed(word.as_bytes()) {
        return Some(Fault::BadWord);
    }
    wide_fault(word)
}

fn wide_fault(word: &str) -> Option<Fault>
    ensures { result ≡ spec.in_range (constant_of word.now) }
{
    match constant_of(word) {
        Some(_) => None,
        None => Some(Fault::AboveLimits),
    }
}

/// Digits without a leading zero, with `-` before them where the number is negative.
fn is_signed(octets: &[u8]) -> bool
    ensures { result ≡ table.is_signed octets.now }
{
    match octets {
        [b'-', rest @ ..] => is_number(rest) && rest != b"0".as_slice(),
        _ => is_number(octets),
    }
}

/// Digits without a leading zero.
fn is_number(octets: &[u8]) -> bool
    ensures { result ≡ table.is_number octets.now }
{
    !octets.is_empty() && are_digits(octets) && !has_leading_zero(octets)
}

fn are_digits(octets: &[u8]) -> bool
    ensures { result ≡ list_all is_ascii_digit octets.now }
{
    octets.iter().all(|b| b.is_ascii_digit())
}

fn has_leading_zero(octets: &[u8]) -> bool
    ensures { result ≡ table.has_leading_zero octets.now }
{
    match octets {
        [first, _, ..] => *first == b'0',
        _ => false,
    }
}
