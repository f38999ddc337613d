//! Why items that are packed aren't packed by a format of the top, or of a method that is called inside.

ghost use Rattle.std.specs.Prelude.{◌≡◌, IfOk, IfSome, IsTrue, MatchOption, OnOk, string_bytes};
ghost use Rattle.sem_filling.specs.Fillings.{header};
ghost use Rattle.sem_filling.specs.Ready.{ArgumentsLieAt};
ghost use Rattle.sem_reasons.specs.Reasons.{IsVerdict};
ghost use Rattle.tool_run.specs.Avoidance as spec;
ghost use Rattle.walk_engine.specs.Writing as writing;

use crate::ways::{leads_to, near_names};
use cert_accepted::Accepted;
use sem_bits::Bits;
use sem_context::Context;
use sem_expr::{Interval, Side};
use sem_filling::reason::{Line, Reason};
use sem_filling::whole_sides::header_of;
use sem_filling::{Filling, Item, advance, below};
use sem_lint::Judged;
use sem_profile::Profile;
use sem_reasons::{Question, reasons_against};
use sqlite_items::Items;
use std::alloc::{AllocError, Global};
use tool_input::refusals::refusal;
use tool_input::status::{Answer, Status};
use tool_input::texts::push_line;
use tool_items::avoided::{Fate, Verdicts, avoided_text};
use tool_items::inside::{Standing, standing_at};
use tool_names::names::{format_name, formats_of};
use walk_engine::{Candidate, PackFault, Packed, pack_from};

/// After how many candidates no further one is asked whether it has the format inside.
const TRIES: usize = 256;

/// What stands against the format of that name for the items that are packed by others, each in the context that those before it leave; or the line that there is no
/// such format. The octets are those of the profile.
pub(crate) fn avoid_all(
    alloc: Global,
    octets: &[u8],
    name: &str,
    accepted: &Accepted,
    start: Context,
    items: &[Item],
) -> Result<Answer, AllocError>
    ensures { IfOk result (spec.AnswersAvoided octets.now name.now accepted.now start items.now) }
{
    match aim_of(alloc, accepted.profile(), name)? {
        Some(aim) => avoid_format(alloc, octets, name, accepted, start, items, aim),
        None => unknown_format(alloc, accepted.profile(), name),
    }
}

/// Which format is asked for.
#[derive(Clone, Copy)]
pub(crate) enum Aim<'a> {
    /// One of the top, by its number.
    Top(usize),
    /// One of that name, of the method that is called at the path.
    Inside { path: &'a str, format: &'a str },
}

/// The format of the name: of the top, or behind a path and a point.
fn aim_of<'a>(
    alloc: Global,
    profile: &Profile,
    name: &'a str,
) -> Result<Option<Aim<'a>>, AllocError>
    ensures { IfOk result (λ o. MatchOption o (spec.HasNoFormat profile.now name.now) (λ aim. spec.IsNamed profile.now name.now (spec.wanted aim))) }
{
    if let Some(format) = format_of(profile, name) {
        return Ok(Some(Aim::Top(format)));
    }
    match name.rsplit_once('.') {
        Some((path, format)) => inside_of(alloc, profile, name, path, format),
        None => Ok(None),
    }
}

/// The format behind the path, if calls lead there.
fn inside_of<'a>(
    alloc: Global,
    profile: &Profile,
    name: &str,
    path: &'a str,
    format: &'a str,
) -> Result<Option<Aim<'a>>, AllocError>
    ensures { IfOk result (λ o. IfSome o (λ aim. spec.IsNamed profile.now name.now (spec.wanted aim))) }
{
    let whole = below(alloc, path, format)?;
    if whole.as_str() == name && leads_to(alloc, profile, path, format)? {
        return Ok(Some(Aim::Inside { path, format }));
    }
    Ok(None)
}

/// The format of the top of that name.
fn format_of(profile: &Profile, name: &str) -> Option<usize>
    ensures { MatchOption result (spec.HasNoFormat profile.now name.now) (spec.IsFormat profile.now name.now) }
{
    format_in(profile, profile.top(), name)
}

/// The format of a method of that name.
fn format_in(profile: &Profile, method: usize, name: &str) -> Option<usize>
    ensures { MatchOption result (spec.LacksFormat profile.now method name.now) (λ n. spec.HasName profile.now method n name.now) }
{
    let methods = profile.methods();
    for format in 0..formats_of(methods, method).len() {
        if format_name(methods, method, format) == name {
            return Some(format);
        }
    }
    None
}

/// The line that there is no format of the name, with the names that are near.
fn unknown_format(alloc: Global, profile: &Profile, name: &str) -> Result<Answer, AllocError>
    ensures { IfOk result spec.IsUnknown }
{
    let near = near_names(alloc, profile, name)?;
    let line = format!(in alloc; "words: N1 no such format{near}")?;
    refusal(alloc, line.as_str())
}

/// A format that is asked for, of an accepted profile; and what hinders formats of the profile.
#[derive(Clone, Copy)]
struct Sought<'a> {
    accepted: &'a Accepted,
    judged: &'a Judged<'a>,
    aim: Aim<'a>,
}

/// What stands against the format.
fn avoid_format(
    alloc: Global,
    octets: &[u8],
    name: &str,
    accepted: &Accepted,
    start: Context,
    items: &[Item],
    aim: Aim<'_>,
) -> Result<Answer, AllocError>
    requires { spec.IsNamed accepted.now.profile name.now (spec.wanted aim) }
    ensures { IfOk result (spec.AnswersAvoided octets.now name.now accepted.now start items.now) }
{
    let profile = accepted.profile();
    let judged = Judged::of(alloc, profile)?;
    let sought = Sought {
        accepted,
        judged: &judged,
        aim,
    };
    let mut context = start;
    let mut verdicts = Verdicts::new(alloc);
    for (i, item) in items.iter().enumerate() {
        add_item(alloc, &sought, &mut context, &mut verdicts, i + 1, item)?;
    }
    let asking = asking_items(aim, items);
    let mut output = avoided_text(alloc, octets, profile, name, asking, &verdicts)?;
    push_line(&mut output, "")?;
    Ok(Answer {
        status: Status::Done,
        output,
    })
}

/// The items whose asked values are those of the format: none of a called method.
fn asking_items<'a>(aim: Aim<'_>, items: &'a [Item]) -> &'a [Item]
    ensures { result.now ≡ spec.asking (spec.wanted aim.entry) items.now }
{
    match aim {
        Aim::Top(_) => items,
        Aim::Inside { .. } => &[],
    }
}

/// Adds what becomes of the format for an item, whose number counts from 1. The context goes on by the packet.
fn add_item(
    alloc: Global,
    sought: &Sought<'_>,
    context: &mut Context,
    verdicts: &mut Verdicts,
    number: usize,
    item: &Item,
) -> Result<(), AllocError>
    requires { spec.IsWhole sought.now }
    ensures { OnOk result (spec.AddsItem sought.now context.old context.new verdicts.old verdicts.new number item.now) }
{
    let accepted = sought.accepted;
    accepted.keeps();
    accepted.profile().keeps();
    match pack_from(alloc, accepted, context, item, 0) {
        Ok(best) => {
            let fate = fate_of(alloc, sought, context, item, &best)?;
            advance(alloc, context, &best.packed.filling)?;
            verdicts.add(alloc, number, fate)
        }
        Err(PackFault::OutOfMemory) => Err(AllocError),
        Err(_fault) => verdicts.add(alloc, number, Fate::Refused),
    }
}

/// What becomes of the format, by the best candidate for the item.
fn fate_of(
    alloc: Global,
    sought: &Sought<'_>,
    context: &Context,
    item: &Item,
    best: &Candidate,
) -> Result<Fate, AllocError>
    requires whole { spec.IsWhole sought.now }
    requires best { writing.IsPacked sought.now.accepted.now context.now item.now best.now.packed }
    ensures { IfOk result (spec.IsFateOf sought.now context.now item.now) }
{
    match sought.aim {
        Aim::Top(format) => fate_at_top(alloc, sought, context, item, best, format),
        Aim::Inside { path, format } => {
            fate_inside(alloc, sought, context, item, best, path, format)
        }
    }
}

/// What becomes of a format of the top, by its number.
fn fate_at_top(
    alloc: Global,
    sought: &Sought<'_>,
    context: &Context,
    item: &Item,
    best: &Candidate,
    format: usize,
) -> Result<Fate, AllocError>
    requires whole { spec.IsWhole sought.now }
    requires best { writing.IsPacked sought.now.accepted.now context.now item.now best.now.packed }
    ensures { IfOk result (spec.IsFate sought.now.accepted.now context.now item.now (spec.at_top format)) }
{
    let taken = best.packed.filling.format;
    if taken == format {
        return Ok(Fate::Taken);
    }
    let method = sought.accepted.profile().top();
    let lines = lines_against(alloc, sought, context, item, format)?;
    if taken < format && is_open(lines.as_slice()) {
        if let Some(bits) = later_bits(alloc, sought, context, item, best.number, format)? {
            return Ok(Fate::Later {
                method,
                taken,
                bits,
            });
        }
    }
    Ok(Fate::Against {
        method,
        taken,
        lines,
    })
}

/// What becomes of a format of that name, of the method that is called at the path.
fn fate_inside(
    alloc: Global,
    sought: &Sought<'_>,
    context: &Context,
    item: &Item,
    best: &Candidate,
    path: &str,
    name: &str,
) -> Result<Fate, AllocError>
    requires whole { spec.IsWhole sought.now }
    requires best { writing.IsPacked sought.now.accepted.now context.now item.now best.now.packed }
    ensures { IfOk result (spec.IsFate sought.now.accepted.now context.now item.now (spec.inside path.now name.now)) }
{
    let profile = sought.accepted.profile();
    let Some(part) = part_at(alloc, profile, &best.packed.filling, path)? else {
        return Ok(Fate::Absent);
    };
    let Some(format) = format_in(profile, part.method, name) else {
        return Ok(Fate::Absent);
    };
    let (method, taken) = (part.method, part.filling.format);
    if taken == format {
        return Ok(Fate::Taken);
    }
    let Some(lines) = lines_inside(alloc, sought, context, &part, format)? else {
        return Ok(Fate::Absent);
    };
    if is_open(lines.as_slice()) {
        if let Some(bits) = inner_bits(alloc, sought, context, item, best.number, path, name)? {
            return Ok(Fate::Later {
                method,
                taken,
                bits,
            });
        }
    }
    Ok(Fate::Against {
        method,
        taken,
        lines,
    })
}

/// The part of a filling of the top that stands at the path, if one does.
fn part_at<'a>(
    alloc: Global,
    profile: &Profile,
    filling: &'a Filling,
    path: &str,
) -> Result<Option<Standing<'a>>, AllocError>
    ensures { IfOk result (λ o. IfSome o (spec.IsPart profile.now filling.now path.now)) }
{
    profile.keeps();
    match standing_at(alloc, profile, profile.top(), &[], "", filling, path)? {
        Some(part) if part.path.as_str() == path => Ok(Some(part)),
        _ => Ok(None),
    }
}

/// Whether nothing simple is found.
fn is_open(lines: &[Line]) -> bool {
    matches!(
        lines,
        [Line {
            reason: Reason::Nothing,
            ..
        }]
    )
}

/// How many bits the packet of the item has by the format, whose candidates come after this number; None where no filling of the format fits.
fn later_bits(
    alloc: Global,
    sought: &Sought<'_>,
    context: &Context,
    item: &Item,
    after: u64,
    format: usize,
) -> Result<Option<usize>, AllocError>
    ensures { IfOk result (λ o. IfSome o (spec.FitsBy sought.now.accepted.now context.now item.now (spec.at_top format))) }
{
    let mut number = after;
    for _ in after..u64::MAX {
        let Some(from) = number.checked_add(1) else {
            return Ok(None);
        };
        match pack_from(alloc, sought.accepted, context, item, from) {
            Ok(next) => {
                if next.packed.filling.format == format {
                    return Ok(Some(next.packed.packed.len()));
                }
                if next.packed.filling.format > format {
                    return Ok(None);
                }
                number = next.number;
            }
            Err(PackFault::OutOfMemory) => return Err(AllocError),
            Err(_) => return Ok(None),
        }
    }
    Ok(None)
}

/// How many bits the packet of the item has by the first candidate after this number that has a format of that name inside; None where none of the next ones has.
fn inner_bits(
    alloc: Global,
    sought: &Sought<'_>,
    context: &Context,
    item: &Item,
    after: u64,
    path: &str,
    name: &str,
) -> Result<Option<usize>, AllocError>
    ensures { IfOk result (λ o. IfSome o (spec.FitsBy sought.now.accepted.now context.now item.now (spec.inside path.now name.now))) }
{
    let mut number = after;
    for _ in 0..TRIES {
        let Some(from) = number.checked_add(1) else {
            return Ok(None);
        };
        match pack_from(alloc, sought.accepted, context, item, from) {
            Ok(next) => {
                if has_inside(alloc, sought.accepted.profile(), &next, path, name)? {
                    return Ok(Some(next.packed.packed.len()));
                }
                number = next.number;
            }
            Err(PackFault::OutOfMemory) => return Err(AllocError),
            Err(_) => return Ok(None),
        }
    }
    Ok(None)
}

/// Whether the part of the candidate at the path has a format of that name.
fn has_inside(
    alloc: Global,
    profile: &Profile,
    candidate: &Candidate,
    path: &str,
    name: &str,
) -> Result<bool, AllocError>
    ensures { IfOk result (λ is. IsTrue is → spec.GoesBy profile.now candidate.now.packed.filling (spec.inside path.now name.now)) }
{
    match part_at(alloc, profile, &candidate.packed.filling, path)? {
        Some(part) => {
            Ok(format_name(profile.methods(), part.method, part.filling.format) == name)
        }
        None => Ok(false),
    }
}

/// What stands against a format of the top for the item.
fn lines_against(
    alloc: Global,
    sought: &Sought<'_>,
    context: &Context,
    item: &Item,
    format: usize,
) -> Result<Items<Line>, AllocError>
    requires { spec.IsWhole sought.now }
    ensures { IfOk result (IsVerdict (spec.item_setting sought.now.accepted.now context.now item.now) format) }
{
    let question = Question {
        profile: sought.judged,
        context,
        method: sought.accepted.profile().top(),
        parameters: &[],
        path: "",
        side: Side::Uncompressed,
        bits: &item.header,
        is_whole: true,
        asked: item.asked.as_slice(),
    };
    reasons_against(alloc, &question, format)
}

/// What stands against a format of its method for the header of a part, whatever the arguments are; where nothing is found, under those of the part. None where the
/// header is above the limit of `Bits`, which no part of a packet has.
fn lines_inside(
    alloc: Global,
    sought: &Sought<'_>,
    context: &Context,
    part: &Standing<'_>,
    format: usize,
) -> Result<Option<Items<Line>>, AllocError>
    requires whole { spec.IsWhole sought.now }
    requires lie { ArgumentsLieAt sought.now.accepted.now.profile part.now.method part.now.arguments }
    ensures { IfOk result (λ o. IfSome o (spec.AreOfPart sought.now.accepted.now context.now part.now format)) }
{
    let Some(header) = header_of(alloc, part.filling)? else {
        return Ok(None);
    };
    let Some(sizes) = sought.accepted.profile().sizes().get(part.method) else {
        return Ok(None);
    };
    let ranges = sizes.parameters.as_slice();
    let lines = lines_under(alloc, sought, context, part, &header, ranges, format)?;
    if !is_open(lines.as_slice()) {
        return Ok(Some(lines));
    }
    let points = points(alloc, part.arguments.as_slice())?;
    let ranges = points.as_slice();
    Ok(Some(lines_under(alloc, sought, context, part, &header, ranges, format)?))
}

/// The same where the arguments lie in these ranges.
fn lines_under(
    alloc: Global,
    sought: &Sought<'_>,
    context: &Context,
    part: &Standing<'_>,
    header_bits: &Bits,
    ranges: &[Interval],
    format: usize,
) -> Result<Items<Line>, AllocError>
    requires whole { spec.IsWhole sought.now }
    requires header { header_bits.now ≡ header part.now.filling.now }
    ensures { IfOk result (IsVerdict (spec.part_setting sought.now.accepted.now context.now part.now ranges.now) format) }
{
    let question = Question {
        profile: sought.judged,
        context,
        method: part.method,
        parameters: ranges,
        path: part.path.as_str(),
        side: Side::Uncompressed,
        bits: header_bits,
        is_whole: true,
        asked: &[],
    };
    reasons_against(alloc, &question, format)
}

/// For each value the range that holds it alone.
fn points(alloc: Global, values: &[i128]) -> Result<Vec<Interval>, AllocError>
    ensures { IfOk result (λ ranges. ranges.items ≡ spec.points values.now) }
{
    let mut ranges = Vec::with_capacity(alloc, values.len())?;
    for value in values {
        ranges.push(Interval {
            from: *value,
            to: *value,
        })?;
    }
    Ok(ranges)
}
