//! Makes calls whose growths may be refused from outside: line N of the output answers line N of the input, and is empty where that is empty or a comment (`#`).
//! Where the call of a row is refused memory, what it was given is compared with what that was before, and the call is made again.
//!
//! The status is 0 where all is as it should be, 1 where a comparison fails, 2 where a row can't be made, and 3 where memory is refused outside of the calls.
#![tactic(auto)]

mod bits;
mod certificates;
mod contexts;
mod flows;
mod outcome;
mod packets;
mod samples;
mod senders;
mod stop;

use cert_accepted::Accepted;
use outcome::Outcome;
use samples::{Sample, sample_of};
use std::alloc::Global;
use std::io;
use std::io::Eprint;
use std::process::ExitCode;
use stop::{Stop, count, parted};

fn main(rt: HostRuntime) -> ExitCode {
    let alloc = rt.alloc();
    let mut is_failed = false;
    for line in rt.lines(alloc) {
        let outcome = match answered(alloc, line) {
            Ok(outcome) => outcome,
            Err(stop) => return stopped(&rt, stop),
        };
        if let Err(fault) = println!(rt; "{outcome}") {
            return stopped(&rt, Stop::from(fault));
        }
        is_failed = is_failed || outcome.is_failed();
    }
    ExitCode::from(if is_failed { 1 } else { 0 })
}

/// The exit status where a row isn't made, which one line on standard error tells.
fn stopped(rt: &impl Eprint, stop: Stop) -> ExitCode {
    let _ = eprintln!(rt; "error: {stop}");
    ExitCode::from(stop.code())
}

fn answered(alloc: Global, line: io::Result<String>) -> Result<Outcome, Stop> {
    let row = line?;
    if row.is_empty() || row.starts_with('#') {
        return Ok(Outcome::NoRow);
    }
    let (call, rest) = parted(row.as_str())?;
    outcome_of(alloc, call, rest)
}

fn outcome_of(alloc: Global, call: &str, rest: &str) -> Result<Outcome, Stop> {
    match call {
        "append" => {
            let (before, more) = parted(rest)?;
            bits::append(alloc, count(before)?, count(more)?)
        }
        "push" => bits::push(alloc, count(rest)?),
        "take" => {
            let (before, more) = parted(rest)?;
            bits::take(alloc, count(before)?, count(more)?)
        }
        "bits" => bits::read_text(alloc, rest),
        "replace" => contexts::replace(alloc, count(rest)?),
        "context" => contexts::read_text(alloc, rest),
        "read" => certificates::reads(alloc, &sample_of(rest)?),
        "check" => certificates::checks(alloc, &sample_of(rest)?),
        _ => outcome_by(alloc, call, &sample_of(rest)?),
    }
}

/// The outcome of a call by the sample's profile, which is accepted and let go of here alone.
fn outcome_by(alloc: Global, call: &str, sample: &Sample) -> Result<Outcome, Stop> {
    let accepted = sample.accepted(alloc)?;
    accepted_outcome(alloc, call, &accepted, sample)
}

fn accepted_outcome(
    alloc: Global,
    call: &str,
    accepted: &Accepted,
    sample: &Sample,
) -> Result<Outcome, Stop> {
    match call {
        "pack" => packets::packs(alloc, accepted, sample),
        "unpack" => packets::unpacks(alloc, accepted, sample),
        "robust" => senders::robust_packs(alloc, accepted, sample),
        "send" => flows::sends(alloc, accepted, sample),
        "reset" => flows::resets(alloc, accepted, sample),
        "feed" => flows::feeds(alloc, accepted, sample),
        _ => Err(Stop::Row("no such call")),
    }
}
