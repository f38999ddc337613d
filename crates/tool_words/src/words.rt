//! What the words of a call ask for.
ghost use Rattle.std.specs.Prelude.{◌≡◌, ◌↔◌, None, Some, map, IfOk, IfErr, option_map};
ghost use Rattle.clap.specs.Words.{first_of, found_of, kind_of, rows_of, subcommand_rows_of};
ghost use Rattle.tool_words.specs.Words.{ReadsLost, ReadsMost, ReadsRobust, ReadsWords, RefusesError, RefusesWords, asked, asked_in, asked_of, bits_spelled, check_at, command_in, command_named, counting_in, direction_at, end_at, form_asked, prove_at, is_set, lost_in, lost_spelled, robust_by, robust_command, robust_run, robust_why, text_or_empty, version_asked, why_named, line_named};

use crate::command_line::{INPUT, program};
use cert_types::Version;
use clap::ArgMatches;
use clap::error::ErrorKind;
use itoa::Buffer;
use std::alloc::{AllocError, AllocFailed, Global};
use thiserror::Error;

/// What the program does.
#[derive(Clone, Copy, PartialEq, Eq)]
pub enum Command {
    /// Lists what the part `profile` says.
    Show,
    /// Tells by which formats of the part `profile` nothing can be packed.
    Lint,
    /// Draws the packed bits of each format of the part `profile`.
    Draw,
    /// Checks the part `certificate` against the part `profile`.
    Check,
    /// Makes a certificate for the part `profile`.
    Prove,
    /// Checks likewise, and explains a refusal below its line.
    ExplainCheck,
    /// Makes one likewise, and explains a refusal below its line.
    ExplainProve,
    /// Turns lines into lines by the part `profile`.
    Run(Direction),
    /// Lists for each line the fields of the filling that it belongs to.
    Fields(Direction),
    /// Tells for each line that is refused what stands against each format.
    Why(Direction),
    /// Tells of each item that is packed by another format than the named one what stands against that one.
    WhyNot,
    /// Counts the formats and the packed bits of the items, by the part `profile`.
    Stats(Counting),
    /// Tells what is read of the items after losses of up to so many packets in a row, by the part `profile`.
    Loss(u8),
    /// Turns items into lines, by packets that survive losses of up to so many in a row.
    RobustPack(u8),
    /// Counts those packets.
    RobustStats(u8, Counting),
    /// Tells what is read of them after losses of up to so many in a row, the first number, where they survive as many as the second says.
    RobustLoss(u8, u8),
    /// Tells for the first item that is refused such a packet what stands against each format.
    RobustWhy(u8),
    /// Tells what the fields of the items are like, and which `lsb` serves after losses of up to so many packets in a row.
    Advise(u8),
    /// Sends or receives packets of several flows on one line, by the part `profile`.
    Line(End),
    /// Sends the part `events` as frames of 64 flows, by packets that survive losses of up to so many in a row of their flow.
    SendFrames(u8),
    /// Receives the part `octets` as such frames.
    ReceiveFrames,
}

/// What `stats` lists beside its sums, and when it ends with status 1.
#[derive(Clone, Copy, PartialEq, Eq)]
pub struct Counting {
    /// A line for each item.
    pub lists_items: bool,
    /// Each item has to be packed.
    pub needs_all: bool,
    /// The mean may be so many bits at most.
    pub most: Option<u32>,
    /// The form in which it is told.
    pub form: Form,
}

/// The form of an answer.
#[derive(Clone, Copy, PartialEq, Eq)]
pub enum Form {
    /// Lines of text.
    Text,
    /// Objects of JSON, one a line.
    Json,
}

/// An end of a line of flows.
#[derive(Clone, Copy, PartialEq, Eq)]
pub enum End {
    /// Sends the part `events`.
    Sending,
    /// Receives the part `octets`.
    Receiving,
}

/// From which lines to which.
#[derive(Clone, Copy, PartialEq, Eq)]
pub enum Direction {
    /// Items to packed bits.
    Pack,
    /// Packed bits to items.
    Unpack,
}

/// A call: the command, the name of the method at which it starts, whether the last context is printed, the version of a certificate that is made, whether the
/// line is the wide one, that of version 2, whether a warning ends with status 1, the form of the answer, and the format of `--not`, which is empty where none is given.
#[derive(Clone, Copy)]
pub struct Order<'a> {
    pub command: Command,
    pub top: &'a str,
    pub shows_context: bool,
    pub version: Version,
    pub is_wide: bool,
    pub is_strict: bool,
    pub form: Form,
    pub avoided: &'a str,
}

/// Why words are no order. The text is clap's, for the person who called.
#[derive(Debug, Drop, Error)]
pub enum WordsError {
    #[error("{0}")]
    Help(String),
    #[error("{0}")]
    Usage(String),
    #[error("out of memory")]
    OutOfMemory,
}

impl From<AllocError> for WordsError {
    ghost use Rattle.tool_words.specs.declared.words.WordsError.TheVariants.{OutOfMemory};

    ghost from_gives = { λ _ error. error ≡ OutOfMemory };

    fn from(_error: AllocError) -> WordsError {
        WordsError::OutOfMemory
    }
}

/// Reads the words that follow the program's name: a command, `pack`, `unpack`, `fields`, `why`, `stats`, `loss`, `advise`, `show`, `lint`,
/// `draw`, `check`, `prove` or `line`, and its flags: `--top NAME`, for all commands but `show`, `lint` and `draw` also `--v2`, for `pack`, `unpack`, `fields` and `why` also
/// `--context`, for `fields` and `why` also `--items`, for `why --items` also `--not FORMAT`, for `loss` and `advise` also `--lost N`, for `pack`, `stats`, `loss` and
/// `why --items` also `--robust N`, for `stats` also `--by-item`, `--all` and `--at-most BITS`, for `lint` also `--strict`, for `check` and `prove` also `--explain`,
/// for `lint`, `draw`, `check`, `prove`, `fields`, `why`, `stats`, `loss` and `advise` also `--json`, and for `line` also `--receive`, `--wide` and `--frames`, and with
/// the last `--robust N`. `--not` and `--robust` don't go together, nor do `--frames` and `--wide`, nor `--receive` and `--robust`.
///
/// The clauses say it by clap's own account of a command line (`asked_of`), on which clap's parse is
/// proved exact. N is a decimal number from 0 to 63 without a sign or a leading zero (`lost_is_read`, `robust_is_read`), and that
/// of `--lost` is 8 where it isn't given; BITS is such a number from 0 to 65536. Words that ask for help alone are no usage fault. The clauses say nothing of the
/// text, and not which usage fault it tells.
pub fn read_order<'a>(alloc: Global, words: &'a [&'a str]) -> Result<Order<'a>, WordsError>
    ensures order { IfOk result (λ order. asked_of (map (λ word. word.now) words.entry.now) ≡ Some (asked order)) }
    ensures refused { IfErr result (λ error. RefusesWords (map (λ word. word.now) words.entry.now) error) }
{
    let command = program(alloc)?;
    match command.try_get_matches_from(words) {
        Ok(matches) => match order_in(&matches) {
            Some(order) => Ok(order),
            None => Err(WordsError::Usage(no_order(alloc, &matches)?)),
        },
        Err(error) => Err(refusal(alloc, &error)?),
    }
}

/// A law of words: what some of them ask for.
#[tactic(auto, using(crate::proofs::WordsRead::words_are_read))]
pub fn words_written_out()
    ensures { ReadsWords }
{}

/// A law of the texts that `--lost` takes: which ones they are, and which number each asks for.
#[tactic(auto, using(crate::proofs::WordsNumbers::lost_is_read))]
pub fn lost_is_read()
    ensures { ReadsLost }
{}

/// A law of the texts that `--at-most` takes: which ones they are, and which number each asks for.
#[tactic(auto, using(crate::proofs::WordsNumbers::most_is_read))]
pub fn most_is_read()
    ensures { ReadsMost }
{}

/// A law of the texts that `--robust` takes: which ones they are, and what `pack`, `stats`, `loss` and `why` ask for with each.
#[tactic(auto, using(crate::proofs::WordsNumbers::robust_is_read))]
pub fn robust_is_read()
    ensures { ReadsRobust }
{}

// The most that `--lost` and `--robust` may say.
const MOST_LOST: u8 = 63;

const NO_ORDER: &str = "error: a command and --top NAME are needed\n";

const NO_ITEMS: &str = "error: '--robust <N>' goes with '--items': packets are read and not sent\n";

const NO_FRAMES: &str =
    "error: '--robust <N>' goes with '--frames', and without '--receive' and '--wide'\n";

const NO_WIDE: &str = "error: '--frames' has 64 flows, and goes without '--wide'\n";

const NOT_ALONE: &str = "error: '--not <FORMAT>' goes with '--items', and without '--robust <N>'\n";

// The most bits that `--at-most` may say: those of the longest header.
const MOST_BITS: u32 = 65536;

// The order in what clap read.
fn order_in<'a>(matches: &ArgMatches<'a>) -> Option<Order<'a>>
    ensures { option_map asked result ≡ asked_in (subcommand_rows_of matches.now) }
{
    let (name, flags) = matches.subcommand()?;
    let command = command_in(name, flags)?;
    let top = text_of(flags, "top")?;
    Some(Order {
        command,
        top,
        shows_context: has(flags, "context"),
        version: version_asked(has(flags, "v2")),
        is_wide: has(flags, "wide"),
        is_strict: has(flags, "strict"),
        form: form_asked(has(flags, "json")),
        avoided: text_or_empty(text_of(flags, "not")),
    })
}

// The command by its name and the values of its flags.
fn command_in(name: &str, flags: &ArgMatches<'_>) -> Option<Command>
    ensures { result ≡ command_in name.now (rows_of (found_of flags.now)) }
{
    let plain = command_of(name, flags)?;
    robust_in(text_of(flags, "robust"), plain)
}

// The text of an option, where it is given or has a default.
fn text_of<'a>(flags: &ArgMatches<'a>, name: &str) -> Option<&'a str>
    ensures { option_map (λ text. text.now) result ≡ first_of name.now (rows_of (found_of flags.now)) }
{
    flags.get_str(name)
}

// Whether a flag is given.
fn has(flags: &ArgMatches<'_>, name: &str) -> bool
    ensures { result ≡ is_set (first_of name.now (rows_of (found_of flags.now))) }
{
    is_set(text_of(flags, name))
}

fn text_or_empty(text: Option<&str>) -> &str
    ensures { result.now ≡ text_or_empty (option_map (λ text. text.now) text.entry) }
{
    match text {
        Some(text) => text,
        None => "",
    }
}

// The version of a certificate that is made, by whether the second is asked for.
fn version_asked(second: bool) -> Version
    ensures { result ≡ version_asked second }
{
    if second { Version::Two } else { Version::One }
}

// The form of the answer, by whether objects are asked for.
fn form_asked(objects: bool) -> Form
    ensures { result ≡ form_asked objects }
{
    if objects { Form::Json } else { Form::Text }
}

// Whether the text of a flag says that it was given.
fn is_set(text: Option<&str>) -> bool
    ensures { result ≡ is_set (option_map (λ text. text.now) text.entry) }
{
    match text {
        Some(text) => text == "true",
        None => false,
    }
}

// The number of lost packets in the text of an option.
fn lost_in(text: Option<&str>) -> Option<u8>
    ensures { result ≡ lost_in (option_map (λ text. text.now) text.entry) }
{
    match text {
        Some(text) => lost_spelled(text),
        None => None,
    }
}

// The command, or where the option is there that of the robust sender.
fn robust_in(text: Option<&str>, command: Command) -> Option<Command>
    ensures { result ≡ robust_by (option_map (λ text. text.now) text.entry) command }
{
    match text {
        Some(text) => robust_spelled(text, command),
        None => Some(command),
    }
}

// The command of the robust sender, whose number of lost packets the text spells.
fn robust_spelled(text: &str, command: Command) -> Option<Command>
    ensures { result ≡ robust_by (Some text.now) command }
{
    match lost_spelled(text) {
        Some(lost) => robust_of(command, lost),
        None => None,
    }
}

fn robust_of(command: Command, lost: u8) -> Option<Command>
    ensures { result ≡ robust_command command lost }
{
    match command {
        Command::Run(direction) => robust_run(direction, lost),
        Command::Why(direction) => robust_why(direction, lost),
        Command::Stats(counting) => Some(Command::RobustStats(lost, counting)),
        Command::Loss(most) => Some(Command::RobustLoss(most, lost)),
        Command::SendFrames(_none) => Some(Command::SendFrames(lost)),
        _ => None,
    }
}

fn robust_run(direction: Direction, lost: u8) -> Option<Command>
    ensures { result ≡ robust_run direction lost }
{
    match direction {
        Direction::Pack => Some(Command::RobustPack(lost)),
        Direction::Unpack => None,
    }
}

fn robust_why(direction: Direction, lost: u8) -> Option<Command>
    ensures { result ≡ robust_why direction lost }
{
    match direction {
        Direction::Pack => Some(Command::RobustWhy(lost)),
        Direction::Unpack => None,
    }
}

// The number of lost packets that a text spells, without a sign or a leading zero.
fn lost_spelled(text: &str) -> Option<u8>
    ensures { result ≡ lost_spelled text.now }
{
    let Ok(lost) = text.parse::<u8>() else {
        return None;
    };
    if lost > MOST_LOST {
        return None;
    }
    let mut buffer = Buffer::new();
    if buffer.format(lost) == text {
        Some(lost)
    } else {
        None
    }
}

// What is told of words that clap takes and that are no order.
fn no_order<'a>(alloc: Global, matches: &ArgMatches<'a>) -> Result<String, AllocError> {
    match misspelled(matches) {
        Some(
            BadNumber {
                option,
                value,
                text,
                most,
            },
        ) => format!(in alloc;
            "error: invalid value '{text}' for '--{option} <{value}>': a number from 0 to {most} is needed\n\nFor more information, try '--help'.\n\n{INPUT}"
        ),
        None => format!(in alloc; "{}\n{INPUT}", lacking(matches)),
    }
}

// An option whose text spells no number that it takes.
struct BadNumber<'a> {
    option: &'static str,
    value: &'static str,
    text: &'a str,
    most: u32,
}

// What is lacking to an order.
fn lacking<'a>(matches: &ArgMatches<'a>) -> &'static str {
    match matches.subcommand() {
        Some(("why", flags)) if flags.get_str("not").is_some() => NOT_ALONE,
        Some(("why", flags)) if flags.get_str("robust").is_some() => NO_ITEMS,
        Some(("line", flags)) if flags.get_str("robust").is_some() => NO_FRAMES,
        Some(("line", flags)) if has(flags, "frames") => NO_WIDE,
        _ => NO_ORDER,
    }
}

// The option that has a text that isn't a number of its.
fn misspelled<'a>(matches: &ArgMatches<'a>) -> Option<BadNumber<'a>> {
    let (_, flags) = matches.subcommand()?;
    for option in ["lost", "robust"] {
        if let Some(text) = not_spelled(flags.get_str(option)) {
            return Some(BadNumber {
                option,
                value: "N",
                text,
                most: MOST_LOST as u32,
            });
        }
    }
    let text = flags.get_str("at-most")?;
    if bits_spelled(text).is_some() {
        return None;
    }
    Some(BadNumber {
        option: "at-most",
        value: "BITS",
        text,
        most: MOST_BITS,
    })
}

// The text, where it spells no such number.
fn not_spelled<'a>(text: Option<&'a str>) -> Option<&'a str> {
    let text = text?;
    if lost_spelled(text).is_some() {
        return None;
    }
    Some(text)
}

// The command by its name and the values of its flags, but `--robust`.
fn command_of(name: &str, flags: &ArgMatches<'_>) -> Option<Command>
    ensures { result ≡ command_named name.now (rows_of (found_of flags.now)) }
{
    if name == "pack" {
        Some(Command::Run(Direction::Pack))
    } else if name == "unpack" {
        Some(Command::Run(Direction::Unpack))
    } else if name == "fields" {
        Some(Command::Fields(direction_of(has(flags, "items"))))
    } else if name == "why" {
        why_of(has(flags, "items"), text_of(flags, "not"))
    } else if name == "stats" {
        stats_of(flags)
    } else if name == "loss" {
        loss_of(lost_in(text_of(flags, "lost")))
    } else if name == "advise" {
        advise_of(lost_in(text_of(flags, "lost")))
    } else if name == "show" {
        Some(Command::Show)
    } else if name == "lint" {
        Some(Command::Lint)
    } else if name == "draw" {
        Some(Command::Draw)
    } else if name == "check" {
        Some(check_of(has(flags, "explain")))
    } else if name == "prove" {
        Some(prove_of(has(flags, "explain")))
    } else if name == "line" {
        line_of(
            has(flags, "receive"),
            has(flags, "frames"),
            has(flags, "wide"),
        )
    } else {
        None
    }
}

fn line_of(receives: bool, frames: bool, wide: bool) -> Option<Command>
    ensures { result ≡ line_named receives frames wide }
{
    if !frames {
        return Some(Command::Line(end_of(receives)));
    }
    if wide {
        return None;
    }
    if receives {
        Some(Command::ReceiveFrames)
    } else {
        Some(Command::SendFrames(0))
    }
}

fn why_of(packs: bool, avoided: Option<&str>) -> Option<Command>
    ensures { result ≡ why_named packs (option_map (λ text. text.now) avoided.entry) }
{
    match avoided {
        None => Some(Command::Why(direction_of(packs))),
        Some(_name) if packs => Some(Command::WhyNot),
        Some(_name) => None,
    }
}

fn stats_of(flags: &ArgMatches<'_>) -> Option<Command>
    ensures { result ≡ option_map Command.Stats (counting_in (rows_of (found_of flags.now))) }
{
    match counting_in(flags) {
        Some(counting) => Some(Command::Stats(counting)),
        None => None,
    }
}

// What `stats` lists and wants.
fn counting_in(flags: &ArgMatches<'_>) -> Option<Counting>
    ensures { result ≡ counting_in (rows_of (found_of flags.now)) }
{
    let lists_items = has(flags, "by-item");
    let needs_all = has(flags, "all");
    let form = form_asked(has(flags, "json"));
    let Some(text) = text_of(flags, "at-most") else {
        return Some(Counting {
            lists_items,
            needs_all,
            most: None,
            form,
        });
    };
    let most = bits_spelled(text)?;
    Some(Counting {
        lists_items,
        needs_all,
        most: Some(most),
        form,
    })
}

// The number of bits that a text spells, without a sign or a leading zero.
fn bits_spelled(text: &str) -> Option<u32>
    ensures { result ≡ bits_spelled text.now }
{
    let Ok(bits) = text.parse::<u32>() else {
        return None;
    };
    if bits > MOST_BITS {
        return None;
    }
    let mut buffer = Buffer::new();
    if buffer.format(bits) == text {
        Some(bits)
    } else {
        None
    }
}

fn advise_of(lost: Option<u8>) -> Option<Command>
    ensures { result ≡ option_map Command.Advise lost }
{
    match lost {
        Some(lost) => Some(Command::Advise(lost)),
        None => None,
    }
}

fn loss_of(lost: Option<u8>) -> Option<Command>
    ensures { result ≡ option_map Command.Loss lost }
{
    match lost {
        Some(lost) => Some(Command::Loss(lost)),
        None => None,
    }
}

fn direction_of(packs: bool) -> Direction
    ensures { result ≡ direction_at packs }
{
    if packs {
        Direction::Pack
    } else {
        Direction::Unpack
    }
}

fn check_of(explains: bool) -> Command
    ensures { result ≡ check_at explains }
{
    if explains {
        Command::ExplainCheck
    } else {
        Command::Check
    }
}

fn prove_of(explains: bool) -> Command
    ensures { result ≡ prove_at explains }
{
    if explains {
        Command::ExplainProve
    } else {
        Command::Prove
    }
}

fn end_of(receives: bool) -> End
    ensures { result ≡ end_at receives }
{
    if receives {
        End::Receiving
    } else {
        End::Sending
    }
}

// What clap's refusal is to the caller.
fn refusal(alloc: Global, error: &clap::Error) -> Result<WordsError, AllocError>
    ensures { IfOk result (λ told. RefusesError (kind_of error.now) told) }
{
    let kind = error.kind();
    if kind == ErrorKind::OutOfMemory {
        return Ok(WordsError::OutOfMemory);
    }
    if kind == ErrorKind::DisplayHelp {
        let text = format!(in alloc; "{error}")?;
        return Ok(WordsError::Help(text));
    }
    let text = format!(in alloc; "{error}\n{INPUT}")?;
    Ok(WordsError::Usage(text))
}
