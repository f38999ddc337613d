//! The command line: which commands there are, and the flags and options of each.
ghost use Rattle.std.specs.Prelude.{◌≡◌, false, IfOk};
ghost use Rattle.clap.specs.Words.{App, Rule, app_of, rule_of, with_rule};
ghost use Rattle.tool_words.specs.Words.{IsAdded, IsCommand, bare_program, flag_rule, header_program, option_rule, program, with_all, with_avoided, with_checks, with_drawing, with_explain, with_flags, with_items, with_json, with_list, with_listed, with_losses, with_lost, with_reasons, with_receive, with_robust, with_sending, with_strict, with_top, with_version, with_wide, with_frames, with_line};

use clap::{Arg, ArgAction};
use std::alloc::{AllocError, Global};

// What is taken where `--lost` isn't given.
const USUALLY_LOST: &str = "8";

const ROBUST_HELP: &str = "Packets survive losses of up to N in a row, 0 to 63";

const JSON_HELP: &str = "Prints objects of JSON, one a line";

// What goes in and comes out, with an example for each command. It ends each text for the person who called.
pub(crate) const INPUT: &str = "\
A bundle is read from standard input: parts, each after a line `=== PART`. For example:

  rohcfn show --top plain <BUNDLE            profile > the methods, bounds and constraints
  rohcfn lint --top plain <BUNDLE            profile > a line for each format by which nothing can be packed
  rohcfn draw --top plain <BUNDLE            profile > a diagram of the packed bits of each format
  rohcfn prove --top plain <BUNDLE           profile > a certificate
  rohcfn check --top plain <BUNDLE           profile > `accepted`
  rohcfn check --top plain --explain <BUNDLE the same, and below a refusal what explains it
  rohcfn pack --top plain <BUNDLE            profile, items > a line of bits for each item
  rohcfn pack --top plain --robust 3 <BUNDLE the same, of packets that survive 3 lost in a row
  rohcfn unpack --top plain <BUNDLE          profile, packets > the item of each packet
  rohcfn fields --top plain <BUNDLE          profile, packets > the fields of each packet
  rohcfn fields --top plain --items <BUNDLE  profile, items > the fields of each item's packet
  rohcfn why --top plain <BUNDLE             profile, packets > why the first that is refused is
  rohcfn why --top plain --items <BUNDLE     profile, items > the same of the first item that is
                                             (with --robust N, of packets that survive losses)
  rohcfn why --top plain --items --not f <BUNDLE
                                             profile, items > why items aren't packed by the format f
  rohcfn stats --top plain <BUNDLE           profile, items > the items and packed bits of each format
                                             (with --by-item, a line for each item)
  rohcfn loss --top plain <BUNDLE            profile, items > what is read of them after lost packets
  rohcfn loss --top plain --lost 2 <BUNDLE   the same, where at most 2 in a row are lost, and not 8
  rohcfn advise --top plain <BUNDLE          profile, items > what each field is like, which lsb serves
  rohcfn line --top plain <BUNDLE            profile, events > octets in hex, then `FLOW ITEM` lines
  rohcfn line --top plain --receive <BUNDLE  profile, octets > `FLOW ITEM` lines
  rohcfn line --top plain --frames <BUNDLE   the same with frames, each of which may be lost
                                             (with --robust N, of packets that survive losses)
  rohcfn stats --top plain --json <BUNDLE    the same as objects of JSON, one a line; so with lint, draw, prove, check,
                                             fields, why, loss and advise

The parts certificate and context may be there as well. Where no certificate is there one is made,
with --v2 of version 2. A line has 16 flows, with --wide or --frames 64. Without words the program
takes those of the part words. Each format, and the lines of faults: docs/FORMATS.md.
";

// The program's command line.
pub(crate) fn program<'a>(alloc: Global) -> Result<clap::Command<'a>, AllocError>
    ensures { IfOk result (λ command. app_of command ≡ program) }
{
    let show = with_top(
        alloc,
        "show",
        "Shows the methods, bounds and constraints of the part profile",
    );
    let one = added(header_program(alloc), show);
    let lint = with_strict(
        alloc,
        "lint",
        "Tells by which formats of the part profile nothing can be packed",
    );
    let two = added(one, lint);
    let draw = with_drawing(
        alloc,
        "draw",
        "Draws the packed bits of each format of the part profile",
    );
    let three = added(two, draw);
    let check = with_explain(
        alloc,
        "check",
        "Checks the part certificate against the part profile",
    );
    let four = added(three, check);
    let prove = with_explain(alloc, "prove", "Makes a certificate for the part profile");
    let five = added(four, prove);
    let line = with_line(alloc, "line", "Sends the part events on a line of flows");
    added(five, line)
}

// The same with the commands alone that take items or packets. (No command is held across a `?`, which would cost the proof minutes.)
fn header_program<'a>(alloc: Global) -> Result<clap::Command<'a>, AllocError>
    ensures { IfOk result (λ command. app_of command ≡ header_program) }
{
    let pack = with_sending(alloc, "pack", "Packs the part items");
    let one = added(bare_program(alloc), pack);
    let unpack = with_flags(alloc, "unpack", "Unpacks the part packets");
    let two = added(one, unpack);
    let fields = with_items(alloc, "fields", "Lists the fields of the part packets");
    let three = added(two, fields);
    let why = with_reasons(alloc, "why", "Tells why one of the part packets is refused");
    let four = added(three, why);
    let stats = with_checks(alloc, "stats", "Counts the packed bits of the part items");
    let five = added(four, stats);
    let loss = with_losses(
        alloc,
        "loss",
        "Tells what is read of the part items after lost packets",
    );
    let six = added(five, loss);
    let advise = with_lost(
        alloc,
        "advise",
        "Tells what the fields of the part items are like",
    );
    added(six, advise)
}

// The program's own command line, without its commands.
fn bare_program<'a>(alloc: Global) -> Result<clap::Command<'a>, AllocError>
    ensures { IfOk result (λ command. app_of command ≡ bare_program) }
{
    Ok(
        clap::Command::new(alloc, "rohcfn")
            .about("Packs and unpacks headers by a profile in the ROHC formal notation")
            .after_help(INPUT)
            .bin_name("rohcfn")?
            .no_binary_name(true)
            .subcommand_required(true),
    )
}

// The command with one more below it, where there are both.
fn added<'a>(
    command: Result<clap::Command<'a>, AllocError>,
    below: Result<clap::Command<'a>, AllocError>,
) -> Result<clap::Command<'a>, AllocError>
    ensures { IsAdded command.entry below.entry result }
{
    let command = command?;
    let below = below?;
    command.subcommand(below)
}

// The flag of that name, which takes no value.
fn flag<'a>(alloc: Global, name: &'a str, help: &'a str) -> Arg<'a>
    ensures rule { rule_of result ≡ flag_rule name.entry.now }
    ensures local { result.global ≡ false }
{
    Arg::new(alloc, name)
        .long(name)
        .help(help)
        .action(ArgAction::SetTrue)
}

// The option of that name, which takes a value.
fn option<'a>(alloc: Global, name: &'a str, value: &'a str, help: &'a str) -> Arg<'a>
    ensures rule { rule_of result ≡ option_rule name.entry.now }
    ensures local { result.global ≡ false }
{
    Arg::new(alloc, name)
        .long(name)
        .value_name(value)
        .help(help)
}

// The command, where there is one, with that argument. (It is handed on as the `Result` that it came as, so that nothing is held across a `?`.)
fn taking<'a>(
    command: Result<clap::Command<'a>, AllocError>,
    arg: Arg<'a>,
) -> Result<clap::Command<'a>, AllocError>
    requires { arg.global ≡ false }
    ensures { (app : App) (rule : Rule) → IsCommand app command.entry → rule_of arg.entry ≡ rule → IsCommand (with_rule app rule) result }
{
    command?.arg(arg)
}

// A command with the flag `--top`.
fn with_top<'a>(
    alloc: Global,
    name: &'a str,
    about: &'a str,
) -> Result<clap::Command<'a>, AllocError>
    ensures { IsCommand (with_top name.entry.now) result }
{
    clap::Command::new(alloc, name)
        .about(about)
        .after_help(INPUT)
        .arg(option(alloc, "top", "NAME", "The method at which a header starts").required(true))
}

// A command that may make a certificate, with the flags `--top` and `--v2`.
fn with_version<'a>(
    alloc: Global,
    name: &'a str,
    about: &'a str,
) -> Result<clap::Command<'a>, AllocError>
    ensures { IsCommand (with_version name.entry.now) result }
{
    taking(
        with_top(alloc, name, about),
        flag(
            alloc,
            "v2",
            "Makes a certificate of version 2, where none is given",
        ),
    )
}

// A command with the flags `--top` and `--json`.
fn with_drawing<'a>(
    alloc: Global,
    name: &'a str,
    about: &'a str,
) -> Result<clap::Command<'a>, AllocError>
    ensures { IsCommand (with_drawing name.entry.now) result }
{
    taking(with_top(alloc, name, about), flag(alloc, "json", JSON_HELP))
}

// A command with the flags `--top`, `--v2` and `--json`.
fn with_json<'a>(
    alloc: Global,
    name: &'a str,
    about: &'a str,
) -> Result<clap::Command<'a>, AllocError>
    ensures { IsCommand (with_json name.entry.now) result }
{
    taking(
        with_version(alloc, name, about),
        flag(alloc, "json", JSON_HELP),
    )
}

// A command with the flags `--top`, `--json` and `--strict`.
fn with_strict<'a>(
    alloc: Global,
    name: &'a str,
    about: &'a str,
) -> Result<clap::Command<'a>, AllocError>
    ensures { IsCommand (with_strict name.entry.now) result }
{
    taking(
        with_drawing(alloc, name, about),
        flag(
            alloc,
            "strict",
            "Ends with status 1 where anything is warned of",
        ),
    )
}

// A command with the flags `--top`, `--v2` and `--json`, and the option `--lost`.
fn with_lost<'a>(
    alloc: Global,
    name: &'a str,
    about: &'a str,
) -> Result<clap::Command<'a>, AllocError>
    ensures { IsCommand (with_lost name.entry.now) result }
{
    taking(
        with_json(alloc, name, about),
        option(
            alloc,
            "lost",
            "N",
            "How many packets in a row are lost at most, 0 to 63",
        )
        .default_value(USUALLY_LOST),
    )
}

// A command with the flags `--top`, `--v2` and `--json`, and the option `--robust`.
fn with_robust<'a>(
    alloc: Global,
    name: &'a str,
    about: &'a str,
) -> Result<clap::Command<'a>, AllocError>
    ensures { IsCommand (with_robust name.entry.now) result }
{
    taking(
        with_json(alloc, name, about),
        option(alloc, "robust", "N", ROBUST_HELP),
    )
}

// A command with the flags `--top`, `--v2`, `--json` and `--by-item`, and the option `--robust`.
fn with_list<'a>(
    alloc: Global,
    name: &'a str,
    about: &'a str,
) -> Result<clap::Command<'a>, AllocError>
    ensures { IsCommand (with_list name.entry.now) result }
{
    taking(
        with_robust(alloc, name, about),
        flag(
            alloc,
            "by-item",
            "Lists the format and the bits of each item instead",
        ),
    )
}

// The same with the flag `--all`.
fn with_all<'a>(
    alloc: Global,
    name: &'a str,
    about: &'a str,
) -> Result<clap::Command<'a>, AllocError>
    ensures { IsCommand (with_all name.entry.now) result }
{
    taking(
        with_list(alloc, name, about),
        flag(alloc, "all", "Ends with status 1 where an item is refused"),
    )
}

// The same with the option `--at-most`.
fn with_checks<'a>(
    alloc: Global,
    name: &'a str,
    about: &'a str,
) -> Result<clap::Command<'a>, AllocError>
    ensures { IsCommand (with_checks name.entry.now) result }
{
    taking(
        with_all(alloc, name, about),
        option(
            alloc,
            "at-most",
            "BITS",
            "Ends with status 1 where the mean is above so many bits",
        ),
    )
}

// A command with the flags `--top`, `--v2` and `--json`, and the options `--lost` and `--robust`.
fn with_losses<'a>(
    alloc: Global,
    name: &'a str,
    about: &'a str,
) -> Result<clap::Command<'a>, AllocError>
    ensures { IsCommand (with_losses name.entry.now) result }
{
    taking(
        with_lost(alloc, name, about),
        option(alloc, "robust", "N", ROBUST_HELP),
    )
}

// A command that makes or checks a certificate, with the flags `--top`, `--v2`, `--json` and `--explain`.
fn with_explain<'a>(
    alloc: Global,
    name: &'a str,
    about: &'a str,
) -> Result<clap::Command<'a>, AllocError>
    ensures { IsCommand (with_explain name.entry.now) result }
{
    taking(
        with_json(alloc, name, about),
        flag(alloc, "explain", "Explains a refusal below its line"),
    )
}

// A command with the flags `--top`, `--v2` and `--context`.
fn with_flags<'a>(
    alloc: Global,
    name: &'a str,
    about: &'a str,
) -> Result<clap::Command<'a>, AllocError>
    ensures { IsCommand (with_flags name.entry.now) result }
{
    taking(
        with_version(alloc, name, about),
        flag(alloc, "context", "Prints the last context after the lines"),
    )
}

// A command with the flags `--top`, `--v2` and `--context`, and the option `--robust`.
fn with_sending<'a>(
    alloc: Global,
    name: &'a str,
    about: &'a str,
) -> Result<clap::Command<'a>, AllocError>
    ensures { IsCommand (with_sending name.entry.now) result }
{
    taking(
        with_flags(alloc, name, about),
        option(alloc, "robust", "N", ROBUST_HELP),
    )
}

// A command with the flags `--top`, `--v2`, `--context` and `--json`.
fn with_listed<'a>(
    alloc: Global,
    name: &'a str,
    about: &'a str,
) -> Result<clap::Command<'a>, AllocError>
    ensures { IsCommand (with_listed name.entry.now) result }
{
    taking(
        with_flags(alloc, name, about),
        flag(alloc, "json", JSON_HELP),
    )
}

// A command with the flags `--top`, `--v2`, `--context`, `--json` and `--items`.
fn with_items<'a>(
    alloc: Global,
    name: &'a str,
    about: &'a str,
) -> Result<clap::Command<'a>, AllocError>
    ensures { IsCommand (with_items name.entry.now) result }
{
    taking(
        with_listed(alloc, name, about),
        flag(alloc, "items", "Lists those of the part items instead"),
    )
}

// A command with the flags `--top`, `--v2`, `--context`, `--json` and `--items`, and the option `--not`.
fn with_avoided<'a>(
    alloc: Global,
    name: &'a str,
    about: &'a str,
) -> Result<clap::Command<'a>, AllocError>
    ensures { IsCommand (with_avoided name.entry.now) result }
{
    taking(
        with_items(alloc, name, about),
        option(
            alloc,
            "not",
            "FORMAT",
            "Tells why items that are packed aren't packed by this format",
        ),
    )
}

// The same with the option `--robust`.
fn with_reasons<'a>(
    alloc: Global,
    name: &'a str,
    about: &'a str,
) -> Result<clap::Command<'a>, AllocError>
    ensures { IsCommand (with_reasons name.entry.now) result }
{
    taking(
        with_avoided(alloc, name, about),
        option(alloc, "robust", "N", ROBUST_HELP),
    )
}

// A command with the flags `--top`, `--v2` and `--receive`.
fn with_receive<'a>(
    alloc: Global,
    name: &'a str,
    about: &'a str,
) -> Result<clap::Command<'a>, AllocError>
    ensures { IsCommand (with_receive name.entry.now) result }
{
    taking(
        with_version(alloc, name, about),
        flag(alloc, "receive", "Receives the part octets instead"),
    )
}

// A command with the flags `--top`, `--v2`, `--receive` and `--wide`.
fn with_wide<'a>(
    alloc: Global,
    name: &'a str,
    about: &'a str,
) -> Result<clap::Command<'a>, AllocError>
    ensures { IsCommand (with_wide name.entry.now) result }
{
    taking(
        with_receive(alloc, name, about),
        flag(alloc, "wide", "Takes a line of 64 flows in place of 16"),
    )
}

// The same with the flag `--frames`.
fn with_frames<'a>(
    alloc: Global,
    name: &'a str,
    about: &'a str,
) -> Result<clap::Command<'a>, AllocError>
    ensures { IsCommand (with_frames name.entry.now) result }
{
    taking(
        with_wide(alloc, name, about),
        flag(
            alloc,
            "frames",
            "Takes a line of 64 flows with each packet in a frame",
        ),
    )
}

// The same with the option `--robust`.
fn with_line<'a>(
    alloc: Global,
    name: &'a str,
    about: &'a str,
) -> Result<clap::Command<'a>, AllocError>
    ensures { IsCommand (with_line name.entry.now) result }
{
    taking(
        with_frames(alloc, name, about),
        option(alloc, "robust", "N", ROBUST_HELP),
    )
}
