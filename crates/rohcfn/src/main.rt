//! Packs and unpacks headers by a profile in the ROHC formal notation.
#![tactic(auto)]

use std::alloc::{AllocError, Global};
use std::env::{Args, Env, FillError};
use std::io::Eprint;
use std::process::ExitCode;
use std::{env, io};
use tool_input::bundle::push_shown;
use tool_input::counted::Uncounted;
use tool_input::status::{Failure, Status};
use tool_run::program::run;

fn main(rt: HostRuntime) -> ExitCode {
    let alloc = rt.alloc();
    let args = match env::args(&(AfterName(&rt), alloc)) {
        Ok(args) => args,
        Err(fault) if fault.kind() == io::ErrorKind::InvalidData => {
            let _ = eprintln!(rt; "error: a word is not UTF-8");
            return ExitCode::from(Status::Usage.code());
        }
        Err(_) => return failed(&rt, Failure::Memory),
    };
    let Ok(words) = words_of(alloc, args) else {
        return failed(&rt, Failure::Memory);
    };
    let Ok(texts) = texts_of(alloc, words.as_slice()) else {
        return failed(&rt, Failure::Memory);
    };
    let outcome = run(
        alloc,
        texts.as_slice(),
        &mut Uncounted(rt.reader()),
        &mut Uncounted(io::writer(&rt)),
    );
    if let Status::Failed(failure) = outcome.status {
        return failed(&rt, failure);
    }
    if let Some(usage) = &outcome.usage {
        let Ok(shown) = shown(alloc, usage.as_str()) else {
            return failed(&rt, Failure::Memory);
        };
        if eprint!(rt; "{shown}").is_err() {
            return failed(&rt, Failure::Writing);
        }
    }
    ExitCode::from(outcome.status.code())
}

// The arguments after the program's name, which is no word and may be any octets.
#[derive(Drop)]
struct AfterName<'a, R>(&'a R);

impl<R: Env> Env for AfterName<'_, R> {
    fn arg(&self, i: usize, buf: &mut [u8]) -> Result<usize, FillError> {
        self.0.arg(i.saturating_add(1), buf)
    }

    fn var(&self, name: &str, buf: &mut [u8]) -> Result<usize, FillError> {
        self.0.var(name, buf)
    }

    fn var_at(&self, i: usize, buf: &mut [u8]) -> Result<usize, FillError> {
        self.0.var_at(i, buf)
    }
}

// A text for the person who called, with the words of the call in a form that a terminal shows and doesn't obey.
fn shown(alloc: Global, text: &str) -> Result<String, AllocError> {
    let mut shown = String::new(alloc);
    for character in text.chars() {
        if character == '\n' {
            shown.push(character)?;
        } else {
            push_shown(&mut shown, character)?;
        }
    }
    Ok(shown)
}

// The words, in a list that tells out of memory.
fn words_of(alloc: Global, args: Args<Global>) -> Result<Vec<String>, AllocError> {
    // A loop, since `collect` goes on after a refused growth.
    let mut words = Vec::new(alloc);
    for word in args {
        words.push(word)?;
    }
    Ok(words)
}

// The texts of words.
fn texts_of(alloc: Global, words: &[String]) -> Result<Vec<&str>, AllocError> {
    // A loop, since `collect` goes on after a refused growth.
    let mut texts = Vec::new(alloc);
    for word in words {
        texts.push(word.as_str())?;
    }
    Ok(texts)
}

// The exit status of a failure, which one line on standard error tells.
fn failed(rt: &impl Eprint, failure: Failure) -> ExitCode {
    let _ = eprintln!(rt; "error: {failure}");
    ExitCode::from(Status::Failed(failure).code())
}
