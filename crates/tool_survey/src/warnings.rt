//! The warnings of `lint`: what the rules of sem_lint find, and methods with too many candidates.

ghost use Rattle.std.specs.Prelude.{◌≡◌, ◌++◌, [], IfOk, OnOk, codes, decimal, map, string_bytes, true};
ghost use Rattle.std.specs.Map.{keys_of};
ghost use Rattle.tool_survey.specs.Warnings as spec;

use cert_prove::{Unproved, prove};
use cert_types::{CANDIDATE_LIMIT, Certificate, MethodPlans, Version};
use sem_context::Context;
use sem_lint::{
    Misspelled, Needing, UnlikeCall, Unnoticed, misspelled_names, needing_formats, unknown_paths,
    unlike_calls, unnoticed_formats,
};
use sem_profile::{Format, Method, Profile};
use sqlite_items::Items;
use std::alloc::{AllocError, Global};
use text_listing::Places;
use tool_names::candidates::{
    Counts, Factor, count_all, factors, format_count, method_count, write_steps,
};
use tool_names::names::{field_name, format_name, method_name, method_place};

/// What there is to warn of: what the rules find, the lines on candidates, and the paths of the given context that no format has.
#[derive(Clone, Copy)]
struct Findings<'a> {
    needing: &'a [Needing],
    misspelled: &'a [Misspelled],
    unnoticed: &'a [Unnoticed],
    unlike: &'a [UnlikeCall],
    candidates: &'a str,
    unknown: &'a [&'a str],
}

/// A line for each format that needs what can't be in the context, for each name that may be misspelled, for formats by which a wrong reference is not noticed, for
/// each method whose formats don't call alike, for each method with too many candidates and below it for each of its formats, and for each path of the given
/// context that no format has.
pub(crate) fn warnings(
    alloc: Global,
    places: &Places<'_>,
    profile: &Profile,
    context: &Context,
) -> Result<String, AllocError>
    ensures { IfOk result (λ text. spec.AreWarnings places.now profile.now (keys_of context.now) (string_bytes text)) }
{
    let methods = profile.methods();
    let given = paths_of(alloc, context)?;
    let needing = needing_formats(alloc, profile, given.as_slice())?;
    let misspelled = misspelled_names(alloc, methods)?;
    let unnoticed = unnoticed_formats(alloc, profile)?;
    let unlike = unlike_calls(alloc, methods)?;
    let candidates = candidate_lines(alloc, places, profile)?;
    let unknown = unknown_paths(alloc, profile, given.as_slice())?;
    let found = Findings {
        needing: needing.as_slice(),
        misspelled: misspelled.as_slice(),
        unnoticed: unnoticed.as_slice(),
        unlike: unlike.as_slice(),
        candidates: candidates.as_str(),
        unknown: unknown.as_slice(),
    };
    all_lines(alloc, places, methods, &found)
}

fn all_lines(
    alloc: Global,
    places: &Places<'_>,
    methods: &[Method],
    found: &Findings<'_>,
) -> Result<String, AllocError>
    ensures { IfOk result (λ text. string_bytes text ≡ spec.warning_lines places.now methods.now found.now.needing.now found.now.misspelled.now found.now.unnoticed.now found.now.unlike.now found.now.candidates.now (map (λ p. p.now) found.now.unknown.now)) }
{
    let mut text = String::new(alloc);
    push_all_needing(alloc, &mut text, places, methods, found.needing)?;
    push_all_misspelled(alloc, &mut text, places, methods, found.misspelled)?;
    push_all_unnoticed(alloc, &mut text, places, methods, found.unnoticed)?;
    push_all_unlike(alloc, &mut text, places, methods, found.unlike)?;
    text.push_str(found.candidates)?;
    push_all_unknown(alloc, &mut text, found.unknown)?;
    Ok(text)
}

/// The paths of a context, in its order.
fn paths_of(alloc: Global, context: &Context) -> Result<Items<&str>, AllocError>
    ensures { IfOk result (λ paths. map (λ p. p.now) paths ≡ keys_of context.now) }
{
    let mut paths = Items::new(alloc);
    for place in 0..context.len() {
        if let Some(path) = context.path_at(place) {
            paths.push(path)?;
        }
    }
    Ok(paths)
}

// ---- where a line begins

/// `LINE:COLUMN: warning METHOD`, at the place of the method's name.
fn method_head(
    alloc: Global,
    places: &Places<'_>,
    methods: &[Method],
    method: usize,
) -> Result<String, AllocError>
    ensures { IfOk result (λ text. string_bytes text ≡ spec.method_head places.now methods.now method) }
{
    let place = places.position(method_place(methods, method).from as usize);
    head_words(
        alloc,
        place.line,
        place.column,
        method_name(methods, method),
    )
}

fn head_words(alloc: Global, line: usize, column: usize, method: &str) -> Result<String, AllocError>
    ensures { IfOk result (λ text. string_bytes text ≡ spec.head_words line column method.now) }
{
    format!(in alloc; "{line}:{column}: warning {method}")
}

/// `LINE:COLUMN: warning METHOD.FORMAT`, at the place of the method's name.
fn format_head(
    alloc: Global,
    places: &Places<'_>,
    methods: &[Method],
    method: usize,
    format: usize,
) -> Result<String, AllocError>
    ensures { IfOk result (λ text. string_bytes text ≡ spec.format_head places.now methods.now method format) }
{
    let mut text = method_head(alloc, places, methods, method)?;
    push_format_name(&mut text, format_name(methods, method, format))?;
    Ok(text)
}

fn push_format_name(text: &mut String, name: &str) -> Result<(), AllocError>
    ensures { OnOk result (string_bytes text.new ≡ string_bytes text.old ++ codes "." ++ name.now) }
{
    text.push_str(".")?;
    text.push_str(name)
}

// ---- what the rules find

fn push_all_needing(
    alloc: Global,
    text: &mut String,
    places: &Places<'_>,
    methods: &[Method],
    found: &[Needing],
) -> Result<(), AllocError>
    ensures { OnOk result (string_bytes text.new ≡ string_bytes text.old ++ spec.needing_lines places.now methods.now found.now) }
{
    for needing in found {
        push_needing(alloc, text, places, methods, needing)?;
    }
    Ok(())
}

fn push_needing(
    alloc: Global,
    text: &mut String,
    places: &Places<'_>,
    methods: &[Method],
    needing: &Needing,
) -> Result<(), AllocError>
    ensures { OnOk result (string_bytes text.new ≡ string_bytes text.old ++ spec.needing_line places.now methods.now needing.now) }
{
    let head = format_head(alloc, places, methods, needing.method, needing.format)?;
    let line = needing_words(alloc, head.as_str(), needing.path.as_str())?;
    text.push_str(line.as_str())
}

fn needing_words(alloc: Global, head: &str, path: &str) -> Result<String, AllocError>
    ensures { IfOk result (λ text. string_bytes text ≡ spec.needing_words head.now path.now) }
{
    format!(in alloc;
        "{head} is never used: it needs {path} in the context, which no format that can come before puts there\n"
    )
}

fn push_all_misspelled(
    alloc: Global,
    text: &mut String,
    places: &Places<'_>,
    methods: &[Method],
    found: &[Misspelled],
) -> Result<(), AllocError>
    ensures { OnOk result (string_bytes text.new ≡ string_bytes text.old ++ spec.misspelled_lines places.now methods.now found.now) }
{
    for name in found {
        push_misspelled(alloc, text, places, methods, *name)?;
    }
    Ok(())
}

fn push_misspelled(
    alloc: Global,
    text: &mut String,
    places: &Places<'_>,
    methods: &[Method],
    name: Misspelled,
) -> Result<(), AllocError>
    ensures { OnOk result (string_bytes text.new ≡ string_bytes text.old ++ spec.misspelled_line places.now methods.now name) }
{
    let head = format_head(alloc, places, methods, name.method, name.format)?;
    let line = misspelled_words(
        alloc,
        head.as_str(),
        field_name(methods, name.method, name.format, name.field),
        field_name(methods, name.method, name.format, name.meant),
    )?;
    text.push_str(line.as_str())
}

fn misspelled_words(
    alloc: Global,
    head: &str,
    name: &str,
    meant: &str,
) -> Result<String, AllocError>
    ensures { IfOk result (λ text. string_bytes text ≡ spec.misspelled_words head.now name.now meant.now) }
{
    format!(in alloc;
        "{head}: {name} is listed here alone, and {meant} is a field of the header: is it meant?\n"
    )
}

fn push_all_unnoticed(
    alloc: Global,
    text: &mut String,
    places: &Places<'_>,
    methods: &[Method],
    found: &[Unnoticed],
) -> Result<(), AllocError>
    ensures { OnOk result (string_bytes text.new ≡ string_bytes text.old ++ spec.unnoticed_lines places.now methods.now found.now) }
{
    for format in found {
        push_unnoticed(alloc, text, places, methods, *format)?;
    }
    Ok(())
}

fn push_unnoticed(
    alloc: Global,
    text: &mut String,
    places: &Places<'_>,
    methods: &[Method],
    found: Unnoticed,
) -> Result<(), AllocError>
    ensures { OnOk result (string_bytes text.new ≡ string_bytes text.old ++ spec.unnoticed_line places.now methods.now found) }
{
    let head = format_head(alloc, places, methods, found.method, found.format)?;
    let line = unnoticed_words(alloc, head.as_str())?;
    text.push_str(line.as_str())
}

fn unnoticed_words(alloc: Global, head: &str) -> Result<String, AllocError>
    ensures { IfOk result (λ text. string_bytes text ≡ spec.unnoticed_words head.now) }
{
    format!(in alloc; "{head}: a wrong reference is not noticed\n")
}

fn push_all_unlike(
    alloc: Global,
    text: &mut String,
    places: &Places<'_>,
    methods: &[Method],
    found: &[UnlikeCall],
) -> Result<(), AllocError>
    ensures { OnOk result (string_bytes text.new ≡ string_bytes text.old ++ spec.unlike_lines places.now methods.now found.now) }
{
    for call in found {
        push_unlike(alloc, text, places, methods, *call)?;
    }
    Ok(())
}

fn push_unlike(
    alloc: Global,
    text: &mut String,
    places: &Places<'_>,
    methods: &[Method],
    call: UnlikeCall,
) -> Result<(), AllocError>
    ensures { OnOk result (string_bytes text.new ≡ string_bytes text.old ++ spec.unlike_line places.now methods.now call) }
{
    let head = method_head(alloc, places, methods, call.method)?;
    let line = unlike_words(
        alloc,
        head.as_str(),
        field_name(methods, call.method, call.format, call.field),
        method_name(methods, call.callee),
    )?;
    text.push_str(line.as_str())
}

fn unlike_words(alloc: Global, head: &str, name: &str, callee: &str) -> Result<String, AllocError>
    ensures { IfOk result (λ text. string_bytes text ≡ spec.unlike_words head.now name.now callee.now) }
{
    format!(in alloc;
        "{head}: {name} calls {callee} in one format and not in another: losses multiply what a receiver may hold\n"
    )
}

fn push_all_unknown(alloc: Global, text: &mut String, paths: &[&str]) -> Result<(), AllocError>
    ensures { OnOk result (string_bytes text.new ≡ string_bytes text.old ++ spec.unknown_lines (map (λ p. p.now) paths.now)) }
{
    for path in paths {
        push_unknown(alloc, text, path)?;
    }
    Ok(())
}

fn push_unknown(alloc: Global, text: &mut String, path: &str) -> Result<(), AllocError>
    ensures { OnOk result (string_bytes text.new ≡ string_bytes text.old ++ spec.unknown_line path.now) }
{
    let line = unknown_words(alloc, path)?;
    text.push_str(line.as_str())
}

fn unknown_words(alloc: Global, path: &str) -> Result<String, AllocError>
    ensures { IfOk result (λ text. string_bytes text ≡ spec.unknown_line path.now) }
{
    format!(in alloc; "context: warning {path}: no format has a field there\n")
}

// ---- candidates

/// The methods of a profile, what a certificate says of each, and the numbers of candidates by that.
#[derive(Clone, Copy)]
struct CountedMethods<'a> {
    methods: &'a [Method],
    entries: &'a [Option<MethodPlans>],
    counts: &'a Counts,
}

/// A line for each method that has more candidates than the limit by the certificate that the prover makes, and below it one for each of its formats. No lines, where the
/// prover makes none.
fn candidate_lines(
    alloc: Global,
    places: &Places<'_>,
    profile: &Profile,
) -> Result<String, AllocError>
    ensures { IfOk result (λ text. spec.AreCandidates places.now profile.now (string_bytes text)) }
{
    match prove(alloc, profile, Version::One) {
        Ok(certificate) => counted_lines(alloc, places, profile, &certificate),
        Err(unproved) => no_lines(alloc, unproved),
    }
}

fn no_lines(alloc: Global, unproved: Unproved) -> Result<String, AllocError>
    ensures empty { IfOk result (λ text. string_bytes text ≡ []) }
    ensures refused { IfOk result (λ text. spec.is_of_profile unproved ≡ true) }
{
    match unproved {
        Unproved::NoPlan { .. } => Ok(String::new(alloc)),
        Unproved::NoTree { .. } => Ok(String::new(alloc)),
        Unproved::Limit => Ok(String::new(alloc)),
        Unproved::OutOfMemory => Err(AllocError),
    }
}

fn counted_lines(
    alloc: Global,
    places: &Places<'_>,
    profile: &Profile,
    certificate: &Certificate,
) -> Result<String, AllocError>
    ensures { IfOk result (λ text. spec.AreCountedLines places.now profile.now certificate.now.methods (string_bytes text)) }
{
    let counts = count_all(alloc, profile, certificate)?;
    let mut text = String::new(alloc);
    let counted = CountedMethods {
        methods: profile.methods(),
        entries: certificate.methods(),
        counts: &counts,
    };
    push_all_crowded(alloc, &mut text, places, &counted)?;
    Ok(text)
}

fn push_all_crowded(
    alloc: Global,
    text: &mut String,
    places: &Places<'_>,
    counted: &CountedMethods<'_>,
) -> Result<(), AllocError>
    ensures { OnOk result (string_bytes text.new ≡ string_bytes text.old ++ spec.candidates_text places.now counted.now.methods.now counted.now.entries.now counted.now.counts.now) }
{
    for (index, method) in counted.methods.iter().enumerate() {
        push_crowded(alloc, text, places, counted, index, method)?;
    }
    Ok(())
}

/// The lines of a method, where it has more candidates than the limit.
fn push_crowded(
    alloc: Global,
    text: &mut String,
    places: &Places<'_>,
    counted: &CountedMethods<'_>,
    index: usize,
    method: &Method,
) -> Result<(), AllocError>
    ensures { OnOk result (string_bytes text.new ≡ string_bytes text.old ++ spec.crowded_lines places.now counted.now.methods.now counted.now.entries.now counted.now.counts.now index method.now) }
{
    let count = method_count(counted.counts, index);
    if count <= CANDIDATE_LIMIT {
        return Ok(());
    }
    let head = method_head(alloc, places, counted.methods, index)?;
    let shown = count_text(alloc, count)?;
    let line = crowded_words(alloc, head.as_str(), shown.as_str())?;
    text.push_str(line.as_str())?;
    push_all_ways(
        alloc,
        text,
        places,
        counted,
        index,
        method.formats.as_slice(),
    )
}

/// A number of candidates, as far as 64 bits go.
fn count_text(alloc: Global, count: u64) -> Result<String, AllocError>
    ensures { IfOk result (λ text. string_bytes text ≡ spec.count_text count) }
{
    if count == u64::MAX {
        return or_more(alloc, count);
    }
    format!(in alloc; "{count}")
}

fn or_more(alloc: Global, count: u64) -> Result<String, AllocError>
    ensures { IfOk result (λ text. string_bytes text ≡ decimal count ++ codes " or more") }
{
    format!(in alloc; "{count} or more")
}

fn crowded_words(alloc: Global, head: &str, count: &str) -> Result<String, AllocError>
    ensures { IfOk result (λ text. string_bytes text ≡ spec.crowded_words head.now count.now) }
{
    format!(in alloc; "{head}: {count} candidates an item, and the limit is {CANDIDATE_LIMIT}\n")
}

fn push_all_ways(
    alloc: Global,
    text: &mut String,
    places: &Places<'_>,
    counted: &CountedMethods<'_>,
    method: usize,
    formats: &[Format],
) -> Result<(), AllocError>
    ensures { OnOk result (string_bytes text.new ≡ string_bytes text.old ++ spec.ways_lines places.now counted.now.methods.now counted.now.entries.now counted.now.counts.now method formats.now) }
{
    for (index, format) in formats.iter().enumerate() {
        push_ways(alloc, text, places, counted, method, index, format)?;
    }
    Ok(())
}

/// The line of a format: its candidates, and what multiplies.
fn push_ways(
    alloc: Global,
    text: &mut String,
    places: &Places<'_>,
    counted: &CountedMethods<'_>,
    method: usize,
    index: usize,
    format: &Format,
) -> Result<(), AllocError>
    ensures { OnOk result (string_bytes text.new ≡ string_bytes text.old ++ spec.ways_line places.now counted.now.methods.now counted.now.entries.now counted.now.counts.now method index format.now) }
{
    let CountedMethods {
        methods,
        entries,
        counts,
    } = *counted;
    let steps = write_steps(entries, method, index);
    let found = factors(alloc, counts.methods.as_slice(), format, steps)?;
    let head = format_head(alloc, places, methods, method, index)?;
    let words = factors_text(alloc, methods, method, index, found.as_slice())?;
    let count = format_count(counts, method, index);
    let shown = count_text(alloc, count)?;
    let line = ways_words(
        alloc,
        head.as_str(),
        shown.as_str(),
        candidate_word(count),
        words.as_str(),
    )?;
    text.push_str(line.as_str())
}

fn candidate_word(count: u64) -> &'static str
    ensures { result.now ≡ spec.candidate_word count }
{
    if count == 1 {
        " candidate"
    } else {
        " candidates"
    }
}

fn ways_words(
    alloc: Global,
    head: &str,
    count: &str,
    word: &str,
    factors: &str,
) -> Result<String, AllocError>
    ensures { IfOk result (λ text. string_bytes text ≡ spec.ways_words head.now count.now word.now factors.now) }
{
    format!(in alloc; "{head}: {count}{word}{factors}\n")
}

/// ` = FIELD N x FIELD N ..`, nothing where nothing multiplies.
fn factors_text(
    alloc: Global,
    methods: &[Method],
    method: usize,
    format: usize,
    found: &[Factor],
) -> Result<String, AllocError>
    ensures { IfOk result (λ text. string_bytes text ≡ spec.factors_text methods.now method format found.now) }
{
    let mut text = String::new(alloc);
    for (place, factor) in found.iter().enumerate() {
        push_factor(alloc, &mut text, methods, method, format, place, *factor)?;
    }
    Ok(text)
}

fn push_factor(
    alloc: Global,
    text: &mut String,
    methods: &[Method],
    method: usize,
    format: usize,
    place: usize,
    factor: Factor,
) -> Result<(), AllocError>
    ensures { OnOk result (string_bytes text.new ≡ string_bytes text.old ++ spec.factor_text methods.now method format place factor) }
{
    let name = field_name(methods, method, format, factor.field);
    let shown = count_text(alloc, factor.count)?;
    let words = factor_words(alloc, sign_at(place), name, shown.as_str())?;
    text.push_str(words.as_str())
}

fn sign_at(place: usize) -> &'static str
    ensures { result.now ≡ spec.sign_at place }
{
    if place == 0 { " = " } else { " x " }
}

fn factor_words(alloc: Global, sign: &str, name: &str, count: &str) -> Result<String, AllocError>
    ensures { IfOk result (λ text. string_bytes text ≡ spec.factor_words sign.now name.now count.now) }
{
    format!(in alloc; "{sign}{name} {count}")
}
