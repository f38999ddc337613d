//! The program over a reader and a writer.
ghost use Rattle.std.specs.Prelude.{◌≡◌, ◌≤◌, List, ℕ, ◌++◌, true, false, map, length, IfOk, IfErr};
ghost use Rattle.std.specs.Io.KnownBytes.{Appends};
ghost use Rattle.tool_input.specs.Bundle.{shown_name};
ghost use Rattle.tool_input.specs.Counted.{HasStopped, IsSoFar, MayTake, most_octets};
ghost use Rattle.tool_input.specs.Input.{BlamesRead};
ghost use Rattle.tool_run.specs.Program.{Fails, ForInput, RefusesBy, Replies, RepliesBy, RunGives, bad_part_line, large_line};

use crate::answers::answer;
use std::alloc::{AllocError, Global};
use tool_input::bundle::{BadPart, Parts, name_shown, split};
use tool_input::counted::{CountedRead, CountedWrite};
use tool_input::input::{Input, read_input};
use tool_input::part_words::words_at;
use tool_input::status::{Answer, Failure, Status};
use tool_words::words::{WordsError, read_order};

/// How a run ended, and the text for the person who called, of a usage fault or a request for help.
#[derive(Drop)]
pub struct Outcome {
    pub status: Status,
    pub usage: Option<String>,
}

// What is to be written, or told to the person who called.
#[derive(Drop)]
enum Reply {
    Print(Status, String),
    Tell(Status, String),
}

/// Runs the program on the words that follow its name, or with none on those of its input.
///
/// It reads until the reader ends, fails in any way, or has given 4 MiB and one octet, and asks it no more then
/// (`CountedRead`); it writes until all is written, a write fails or takes nothing, and asks the writer no more then
/// (`CountedWrite`). What is written is what the input asks for, or the front of that: some input, where it is not known
/// what the reader gives. The status is that of a failed read only where a read has failed, and that of a failed write only
/// where a write has failed or taken nothing; that it is that of memory only where memory was refused is not said here,
/// nor is the text of `usage`.
pub fn run<R: CountedRead, W: CountedWrite>(
    alloc: Global,
    words: &[&str],
    reader: &mut R,
    writer: &mut W,
) -> Outcome
    requires reader { IsSoFar (R.account reader.old) 0 }
    requires writer { MayTake (W.is_over writer.old) }
    ensures gives { ForInput (R.remaining reader.old) (λ input. RunGives (map (λ word. word.now) words.entry.now) input result (W.contents writer.old) (W.contents writer.new)) }
    ensures failed { Fails result.status (R.account reader.new) (W.is_over writer.new) }
{
    match reply_from(alloc, words, reader) {
        Ok(Reply::Print(status, output)) => {
            if write_out(writer, output.as_bytes()) {
                Outcome {
                    status,
                    usage: None,
                }
            } else {
                Outcome {
                    status: Status::Failed(Failure::Writing),
                    usage: None,
                }
            }
        }
        Ok(Reply::Tell(status, text)) => Outcome {
            status,
            usage: Some(text),
        },
        Err(failure) => Outcome {
            status: Status::Failed(failure),
            usage: None,
        },
    }
}

// Reads the input, and makes the reply to it.
#[tactic(auto, using(crate::proofs::ProgramReplies::large_refused))]
fn reply_from<R: CountedRead>(
    alloc: Global,
    words: &[&str],
    reader: &mut R,
) -> Result<Reply, Failure>
    requires { IsSoFar (R.account reader.old) 0 }
    ensures replies { ForInput (R.remaining reader.old) (λ input. IfOk result (λ reply. Replies (map (λ word. word.now) words.entry.now) input reply)) }
    ensures failed { IfErr result (λ why. BlamesRead why (R.account reader.new)) }
{
    match read_input(alloc, reader)? {
        Input::Whole(input) => Ok(reply_to(alloc, words, input.as_slice())?),
        Input::Large => Ok(refused_input(alloc)?),
    }
}

// The fault line of an input that is too long.
fn refused_input(alloc: Global) -> Result<Reply, AllocError>
    ensures { IfOk result (λ reply. RefusesBy large_line reply) }
{
    let output = String::from_str(alloc, "bundle: I6 above 4 MiB\n")?;
    Ok(Reply::Print(Status::Refused, output))
}

// Writes all octets, a write at a time, and tells whether each took some.
fn write_out<W: CountedWrite>(writer: &mut W, output: &[u8]) -> bool
    requires { MayTake (W.is_over writer.old) }
    ensures whole { result ≡ true → Appends (W.contents writer.old) (W.contents writer.new) output.now }
    ensures front { (sent : List ℕ) × (rest : List ℕ) × (output.now ≡ sent ++ rest) × Appends (W.contents writer.old) (W.contents writer.new) sent }
    ensures stopped { result ≡ false → HasStopped (W.is_over writer.new) }
{
    let mut at = 0;
    while at < output.len() {
        match writer.write_next(&output[at..]) {
            Ok(0) => return false,
            Ok(count) => at += count,
            Err(_fault) => return false,
        }
    }
    true
}

// The reply to an input.
fn reply_to(alloc: Global, given: &[&str], input: &[u8]) -> Result<Reply, AllocError>
    requires { length input.now ≤ most_octets }
    ensures { IfOk result (λ reply. Replies (map (λ word. word.now) given.entry.now) input.now reply) }
{
    let parts = match split(input) {
        Ok(parts) => parts,
        Err(bad) => return refused_bundle(alloc, bad),
    };
    if !given.is_empty() {
        return reply_by(alloc, given, &parts);
    }
    match words_at(alloc, parts.words)? {
        Some(words) => reply_by(alloc, words.as_slice(), &parts),
        None => refused_part(alloc, "words"),
    }
}

// The fault line of an input that is no bundle.
fn refused_bundle(alloc: Global, bad: BadPart<'_>) -> Result<Reply, AllocError>
    ensures { IfOk result (λ reply. RefusesBy (bad_part_line (shown_name bad.entry)) reply) }
{
    let name = name_shown(alloc, bad)?;
    refused_part(alloc, name.as_str())
}

// The fault line of a part.
fn refused_part(alloc: Global, name: &str) -> Result<Reply, AllocError>
    ensures { IfOk result (λ reply. RefusesBy (bad_part_line name.now) reply) }
{
    let output = format!(in alloc; "bundle: I4 bad part {name}\n")?;
    Ok(Reply::Print(Status::Refused, output))
}

// The reply to words, with the parts of an input.
fn reply_by(alloc: Global, words: &[&str], parts: &Parts<'_>) -> Result<Reply, AllocError>
    ensures { IfOk result (λ reply. RepliesBy (map (λ word. word.now) words.entry.now) parts.now reply) }
{
    match read_order(alloc, words) {
        Ok(order) => {
            let Answer { status, output } = answer(alloc, &order, parts)?;
            Ok(Reply::Print(status, output))
        }
        Err(WordsError::Help(text)) => Ok(Reply::Tell(Status::Done, text)),
        Err(WordsError::Usage(text)) => Ok(Reply::Tell(Status::Usage, text)),
        Err(WordsError::OutOfMemory) => Err(AllocError),
    }
}
