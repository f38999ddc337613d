//! Answers rows on bits, texts, expressions, library methods, contexts, fillings, trees and lines of flows: line N of the output answers line N of the input, and is empty where
//! that is empty or a comment (`#`). In a row `%0a` stands for the octet 0a and so on, and so it does in an answer for what isn't visible ASCII.
#![tactic(auto)]

mod bits;
mod contexts;
mod expressions;
mod fillings;
mod library;
mod lines;
mod octets;
mod sources;
mod trees;
mod words;

use anyhow::Result;
use cert_accepted::Accepted;
use percent_encoding::{CONTROLS, percent_decode, utf8_percent_encode};
use std::alloc::Global;
use walk_line::LineVersion;

fn main(rt: HostRuntime) -> Result<()> {
    let alloc = rt.alloc();
    let mut profile = String::new(alloc);
    for line in rt.lines(alloc) {
        let shown = shown(alloc, &mut profile, line?.as_str())?;
        println!(rt; "{shown}")?;
    }
    Ok(())
}

/// The line that answers a line.
fn shown(alloc: Global, profile: &mut String, line: &str) -> Result<String> {
    let mut shown = String::new(alloc);
    if line.is_empty() || line.starts_with('#') {
        return Ok(shown);
    }
    let text = answered(alloc, profile, line)?;
    utf8_percent_encode(text.trim_end_matches(' '), CONTROLS).append_to(&mut shown)?;
    Ok(shown)
}

/// The answer to a row. The profile is that of the last row that gave one.
fn answered(alloc: Global, profile: &mut String, row: &str) -> Result<String> {
    let mut octets = Vec::new(alloc);
    percent_decode(row.as_bytes()).append_to(&mut octets)?;
    let mut out = String::new(alloc);
    answer(alloc, &mut out, profile, octets.as_slice())?;
    Ok(out)
}

fn answer(alloc: Global, out: &mut String, profile: &mut String, row: &[u8]) -> Result<()> {
    if row.starts_with(b"lines") {
        return bits::cut_lines(alloc, out, row.get(6..).unwrap_or_default());
    }
    let row = str::from_utf8(row)?;
    let (verb, rest) = row.split_once(' ').unwrap_or((row, ""));
    match verb {
        "profile" => keep(profile, rest),
        "holds" => fillings::judged(alloc, out, profile.as_str(), rest),
        "judged" => fillings::judged_often(alloc, out, profile.as_str(), rest),
        "flow" => lines::flow(out, rest),
        "pieces" | "wide" | "cuttings" | "tables" => accepted(
            alloc,
            out,
            profile.as_str(),
            verb,
            rest,
        ),
        "sides" => fillings::sides(alloc, out, rest),
        "below" => fillings::path(alloc, out, rest),
        "path" => contexts::knows_path(out, rest),
        "context" => contexts::read(alloc, out, rest),
        "get" => contexts::found(alloc, out, rest),
        "replace" => contexts::replaced(alloc, out, rest),
        "range" => expressions::ranged(alloc, out, rest),
        "value" => expressions::valued(alloc, out, rest),
        "decide" => expressions::decided(alloc, out, rest),
        "tokens" => sources::tokens(alloc, out, rest),
        "places" => sources::places(out, rest),
        "text" => bits::read(alloc, out, rest),
        "zeros" => bits::read_zeros(alloc, out, rest),
        "cursor" => bits::moved(alloc, out, rest),
        "peek" => octets::peeked(alloc, out, rest),
        "octet" => octets::octet(alloc, out, rest),
        "cut" => octets::cut(alloc, out, rest),
        "registers" => library::registers(alloc, out, rest),
        "register" => library::register(alloc, out, rest),
        _ => library::answer(alloc, out, verb, rest),
    }
}

/// `profile TOP TEXT`: the profile of the rows that follow, which read it anew.
fn keep(profile: &mut String, rest: &str) -> Result<()> {
    profile.clear();
    Ok(profile.push_str(rest)?)
}

/// The answer to a row on the profile, accepted with the certificate that `prove` makes.
fn accepted(alloc: Global, out: &mut String, profile: &str, verb: &str, rest: &str) -> Result<()> {
    by_accepted(alloc, out, &trees::accept(alloc, profile)?, verb, rest)
}

fn by_accepted(
    alloc: Global,
    out: &mut String,
    accepted: &Accepted,
    verb: &str,
    rest: &str,
) -> Result<()> {
    match verb {
        "pieces" => lines::pieces(alloc, out, accepted, LineVersion::One, rest),
        "wide" => lines::pieces(alloc, out, accepted, LineVersion::Two, rest),
        "cuttings" => lines::cuttings(alloc, out, accepted, rest),
        _ => trees::tables(alloc, out, accepted, rest),
    }
}
