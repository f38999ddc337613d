//! What stands against each format.

ghost use Rattle.std.specs.Prelude.{◌≡◌, ◌<◌, ◌+◌, drop, IfOk, IfSome, MatchOption, OnOk, Some, slice_get};
ghost use Rattle.std.specs.Option.{option_copied};
ghost use Rattle.sem_expr.specs.Bounds.{bounding_of};
ghost use Rattle.sem_filling.specs.Bounded.{sizes_at};
ghost use Rattle.sem_filling.specs.Fits.{format_at};
ghost use Rattle.sem_lint.specs.Never.{IsUntrue};
ghost use Rattle.sem_profile.specs.declared.profile.Encoding.TheVariants as encoding;
ghost use Rattle.sem_reasons.specs.Conflicts.{AreClear, HasValues, IsClearAt, IsSighted, IsUncut, SeesNone};
ghost use Rattle.sem_reasons.specs.Full as full;
ghost use Rattle.sem_reasons.specs.Listing as listing;
ghost use Rattle.sem_reasons.specs.Places as places;
ghost use Rattle.sem_reasons.specs.Reasons as spec;
ghost use Rattle.sem_reasons.specs.Settings.{setting_of};

use crate::conflict::{Sighted, conflict};
use crate::figures::figures_at;
use crate::lengths::lengths;
use crate::numbers::ranges_seen;
use crate::observation::{Look, sights};
use crate::places::{begin_of, length_in, order_of};
use crate::question::Question;
use crate::references::unreferenced;
use crate::sight::{Observed, ObservedSides};
use crate::subjects::joined;
use sem_bits::Bits;
use sem_bounds::ranges::format_ranges;
use sem_expr::{Expr, Interval, Ranges, Side, range};
use sem_filling::below;
use sem_filling::reason::{Line, Reason, Within};
use sem_lint::undefined::{undefined_argument, undefined_condition};
use sem_lint::{Judged, first_untrue, obstacle_of};
use sem_profile::{Bounds, Constraint, DEPTH_LIMIT, Encoding, Field, Format, FormatSizes, Shared};
use sqlite_items::Items;
use std::alloc::{AllocError, Global};
use std::slice::from_ref;
use text_source::Span;

/// How many fields and conditions of called methods are looked at, in equal shares for the formats.
const EFFORT_LIMIT: usize = 1 << 16;

/// For each format of the question's method, in the order of the text, what stands against it: a line, or several where that is in the methods that a field calls, or
/// that nothing is found. What a look into called methods has not found within the format's share of the effort isn't told. The error is out of memory.
pub fn reasons(alloc: Global, question: &Question<'_>) -> Result<Items<Line>, AllocError>
    ensures { IfOk result (spec.Verdicts (setting_of question.now) 0) }
{
    let mut lines = Items::new(alloc);
    let share = share_of(question);
    for format in 0..formats_of(question) {
        add_verdict(alloc, question, format, share, &mut lines)?;
    }
    Ok(lines)
}

/// The same of one format. Past the formats of the method it is that nothing is found.
pub fn reasons_against(
    alloc: Global,
    question: &Question<'_>,
    format: usize,
) -> Result<Items<Line>, AllocError>
    ensures { IfOk result (spec.IsVerdict (setting_of question.now) format) }
{
    let mut lines = Items::new(alloc);
    add_verdict(alloc, question, format, share_of(question), &mut lines)?;
    Ok(lines)
}

/// The share of the effort that each format of the method has.
fn share_of(question: &Question<'_>) -> usize {
    EFFORT_LIMIT / formats_of(question).max(1)
}

/// How many formats the method has.
fn formats_of(question: &Question<'_>) -> usize
    ensures { result ≡ spec.formats_of (setting_of question.now) }
{
    match question.profile.profile().methods().get(question.method) {
        Some(method) => method.formats.len(),
        None => 0,
    }
}

/// Adds what stands against a format.
fn add_verdict(
    alloc: Global,
    question: &Question<'_>,
    format: usize,
    share: usize,
    lines: &mut Items<Line>,
) -> Result<(), AllocError>
    ensures { OnOk result (listing.AddsVerdict (setting_of question.now) format lines.old lines.new) }
{
    match at_once(alloc, question, format)? {
        Some(reason) => lines.push(line(question, 0, format, reason)),
        None => add_look(alloc, question, format, share, lines),
    }
}

/// Adds what a look at the fields of a format tells against it, where nothing does without one.
fn add_look(
    alloc: Global,
    question: &Question<'_>,
    format: usize,
    share: usize,
    lines: &mut Items<Line>,
) -> Result<(), AllocError>
    requires { spec.IsOpen (setting_of question.now) format }
    ensures { OnOk result (listing.AddsVerdict (setting_of question.now) format lines.old lines.new) }
{
    let mut effort = share;
    match told(DEPTH_LIMIT, &mut effort, alloc, question, 0, format)? {
        Some(more) => lines.append(more),
        None => add_rest(alloc, question, format, lines),
    }
}

/// Adds that a field lacks its reference, or that nothing stands against the format.
fn add_rest(
    alloc: Global,
    question: &Question<'_>,
    format: usize,
    lines: &mut Items<Line>,
) -> Result<(), AllocError>
    requires is_open { spec.IsOpen (setting_of question.now) format }
    requires none { SeesNone (setting_of question.now) format }
    ensures { OnOk result (listing.AddsVerdict (setting_of question.now) format lines.old lines.new) }
{
    match rest_at(alloc, question, format)? {
        Some(reason) => lines.push(line(question, 0, format, reason)),
        None => lines.push(line(question, 0, format, Reason::Nothing)),
    }
}

/// The first field that lacks its reference.
fn rest_at(
    alloc: Global,
    question: &Question<'_>,
    format: usize,
) -> Result<Option<Reason>, AllocError>
    ensures { IfOk result (λ o. MatchOption o (spec.HasReferences (setting_of question.now) format) (spec.Stands (setting_of question.now) format)) }
{
    match format_of(question.profile, question.method, format) {
        Some(found) => unreferenced(alloc, question, format, found),
        None => Ok(None),
    }
}

fn line(question: &Question<'_>, depth: usize, format: usize, reason: Reason) -> Line
    ensures { result ≡ spec.line_of (setting_of question.now) depth format reason }
{
    Line {
        depth,
        method: question.method,
        format,
        reason,
    }
}

/// The lines that tell why no filling of the format is asked for, where something is found.
#[cycle(telling)]
fn told(
    left: usize,
    effort: &mut usize,
    alloc: Global,
    question: &Question<'_>,
    depth: usize,
    format: usize,
) -> Result<Option<Items<Line>>, AllocError>
    ensures { IfOk result (λ o. MatchOption o (SeesNone (setting_of question.now) format) (spec.Tells (setting_of question.now) depth format)) }
{
    if let Some(reason) = at_once(alloc, question, format)? {
        return Ok(Some(alone(alloc, question, depth, format, reason)?));
    }
    let Some(found) = format_of(question.profile, question.method, format) else {
        return Ok(None);
    };
    let Some(sizes) = sizes_of(question.profile, question.method, format) else {
        return Ok(None);
    };
    spend(effort, found);
    let order = order_of(alloc, found, question.side)?;
    let base = format_ranges(alloc, sizes, question.parameters)?;
    let lengths = lengths(alloc, question, found.fields.as_slice(), sizes, &base)?;
    let look = Look {
        question: *question,
        format: found,
        sizes,
        order: order.as_slice(),
        lengths: lengths.as_slice(),
        base: &base,
    };
    let seen = seen_of(alloc, &look, format)?;
    let ranges = ranges_seen(alloc, &seen, &base)?;
    let sighted = Sighted {
        look,
        number: format,
        seen: &seen,
        ranges: &ranges,
    };
    told_by(left, effort, alloc, &sighted, depth)
}

/// Takes what a look at the format costs.
fn spend(effort: &mut usize, format: &Format) {
    *effort = effort
        .saturating_sub(format.fields.len())
        .saturating_sub(format.constraints.len())
        .saturating_sub(1);
}

/// One line of this reason.
fn alone(
    alloc: Global,
    question: &Question<'_>,
    depth: usize,
    format: usize,
    reason: Reason,
) -> Result<Items<Line>, AllocError>
    requires { spec.Stands (setting_of question.now) format reason }
    ensures { IfOk result (spec.Tells (setting_of question.now) depth format) }
{
    let mut lines = Items::new(alloc);
    lines.push(line(question, depth, format, reason))?;
    Ok(lines)
}

/// What stands against the format without a look at its fields.
fn at_once(
    alloc: Global,
    question: &Question<'_>,
    format: usize,
) -> Result<Option<Reason>, AllocError>
    ensures { IfOk result (λ o. MatchOption o (spec.IsOpen (setting_of question.now) format) (spec.Stands (setting_of question.now) format)) }
{
    if let Some(obstacle) = obstacle_of(alloc, question.profile, question.method, format)? {
        return Ok(Some(Reason::Dead(obstacle)));
    }
    Ok(of_length(question, format))
}

/// Whether there are fewer or more bits than a filling of the format has.
fn of_length(question: &Question<'_>, format: usize) -> Option<Reason>
    ensures { MatchOption result (spec.HasRoom (setting_of question.now) format) (spec.Stands (setting_of question.now) format) }
{
    let Some(sizes) = sizes_of(question.profile, question.method, format) else {
        return None;
    };
    let bounds = whole_bounds(sizes, question.side);
    let length = question.bits.len();
    if (length as u128) < bounds.least {
        return Some(Reason::Short {
            length,
            least: bounds.least,
        });
    }
    if question.is_whole && bounds.most < length as u128 {
        return Some(Reason::Long {
            length,
            most: bounds.most,
        });
    }
    None
}

fn whole_bounds(sizes: &FormatSizes, side: Side) -> Bounds
    ensures { result ≡ places.side_bounds side sizes.now.whole }
{
    match side {
        Side::Uncompressed => sizes.whole.uncompressed,
        Side::Compressed => sizes.whole.compressed,
    }
}

/// All that is seen of the format: of its fields and of the whole.
fn seen_of(alloc: Global, look: &Look<'_>, format: usize) -> Result<Observed, AllocError>
    requires { listing.IsLook look.now format }
    ensures { IfOk result (full.IsFullView (setting_of look.now.question) format look.now.format.now look.now.sizes.now) }
{
    let fields = sights(alloc, look, format)?;
    let header = whole_side(alloc, fields.as_slice(), look.format, Side::Uncompressed)?;
    let packed = whole_side(alloc, fields.as_slice(), look.format, Side::Compressed)?;
    Ok(Observed {
        fields,
        whole: ObservedSides {
            uncompressed: header,
            compressed: packed,
        },
    })
}

fn whole_side(
    alloc: Global,
    sights: &[ObservedSides],
    format: &Format,
    side: Side,
) -> Result<Option<Bits>, AllocError>
    ensures { IfOk result (λ o. o ≡ full.whole_seen sights.now side format.now) }
{
    let order = order_of(alloc, format, side)?;
    joined(alloc, sights, side, order.as_slice())
}

/// The lines that tell it by what is seen: of the first field with which something is wrong, in the order of the bits and then those that have none there, else of
/// the first condition that is false.
#[cycle(telling)]
fn told_by(
    left: usize,
    effort: &mut usize,
    alloc: Global,
    sighted: &Sighted<'_>,
    depth: usize,
) -> Result<Option<Items<Line>>, AllocError>
    requires { IsSighted sighted.now }
    ensures { IfOk result (λ o. MatchOption o (SeesNone (setting_of sighted.now.look.question) sighted.now.number) (spec.Tells (setting_of sighted.now.look.question) depth sighted.now.number)) }
{
    match told_by_fields(left, effort, alloc, sighted, depth)? {
        Some(lines) => Ok(Some(lines)),
        None => told_by_condition(alloc, sighted, depth),
    }
}

/// The same by the first field with which something is wrong.
#[cycle(telling)]
fn told_by_fields(
    left: usize,
    effort: &mut usize,
    alloc: Global,
    sighted: &Sighted<'_>,
    depth: usize,
) -> Result<Option<Items<Line>>, AllocError>
    requires { IsSighted sighted.now }
    ensures { IfOk result (λ o. MatchOption o (AreClear sighted.now) (spec.Tells (setting_of sighted.now.look.question) depth sighted.now.number)) }
{
    for next in sighted.look.order {
        if let Some(lines) = told_by_field(left, effort, alloc, sighted, depth, *next)? {
            return Ok(Some(lines));
        }
    }
    for index in 0..sighted.look.format.fields.len() {
        if !sighted.look.order.contains(&index) {
            if let Some(lines) = told_by_field(left, effort, alloc, sighted, depth, index)? {
                return Ok(Some(lines));
            }
        }
    }
    Ok(None)
}

/// The same by the first condition that is false, else by the first that has no value.
fn told_by_condition(
    alloc: Global,
    sighted: &Sighted<'_>,
    depth: usize,
) -> Result<Option<Items<Line>>, AllocError>
    requires sighted { IsSighted sighted.now }
    requires clear { AreClear sighted.now }
    ensures { IfOk result (λ o. MatchOption o (SeesNone (setting_of sighted.now.look.question) sighted.now.number) (spec.Tells (setting_of sighted.now.look.question) depth sighted.now.number)) }
{
    let constraints = sighted.look.format.constraints.as_slice();
    let Some(constraint) = first_untrue(constraints, sighted.ranges) else {
        return told_by_truth(alloc, sighted, depth);
    };
    let figures = figures_at(alloc, constraints, constraint, sighted.ranges)?;
    let reason = Reason::Untrue {
        constraint,
        figures,
    };
    let lines = alone(alloc, &sighted.look.question, depth, sighted.number, reason)?;
    Ok(Some(lines))
}

/// The same by the first condition that has no value, where none is false.
fn told_by_truth(
    alloc: Global,
    sighted: &Sighted<'_>,
    depth: usize,
) -> Result<Option<Items<Line>>, AllocError>
    requires sighted { IsSighted sighted.now }
    requires clear { AreClear sighted.now }
    requires none { (j : _) → IsUntrue sighted.now.look.format.now.constraints (bounding_of sighted.now.ranges.now) j → ⊥ }
    ensures { IfOk result (λ o. MatchOption o (SeesNone (setting_of sighted.now.look.question) sighted.now.number) (spec.Tells (setting_of sighted.now.look.question) depth sighted.now.number)) }
{
    let constraints = sighted.look.format.constraints.as_slice();
    for number in 0..constraints.len() {
        if let Some(at) = undefined_at(constraints, number, sighted.ranges) {
            let reason = Reason::Undefined {
                at,
                within: Within::Condition(number),
            };
            let lines = alone(alloc, &sighted.look.question, depth, sighted.number, reason)?;
            return Ok(Some(lines));
        }
    }
    Ok(None)
}

/// The part of this constraint that can have no value by the ranges, where it is a condition.
fn undefined_at(constraints: &[Shared<Constraint>], number: usize, ranges: &Ranges) -> Option<Span>
    ensures { result ≡ spec.undefined_at (bounding_of ranges.now) constraints.now number }
{
    match constraints.get(number) {
        Some(constraint) => undefined_condition(from_ref(constraint), ranges),
        None => None,
    }
}

/// The same by the length of a field that begins where fewer bits are left.
fn told_by_length(
    alloc: Global,
    sighted: &Sighted<'_>,
    depth: usize,
    index: usize,
) -> Result<Option<Items<Line>>, AllocError>
    requires { IsSighted sighted.now }
    ensures { IfOk result (λ o. MatchOption o (IsUncut sighted.now index) (spec.Tells (setting_of sighted.now.look.question) depth sighted.now.number)) }
{
    let look = &sighted.look;
    let many = look.question.bits.len();
    let Some(offset) = begin_of(look.order, look.lengths, index) else {
        return Ok(None);
    };
    let Some(due) = length_in(look.lengths, index) else {
        return Ok(None);
    };
    if offset > many {
        return Ok(None);
    }
    let left = many - offset;
    if left as u128 >= due {
        return Ok(None);
    }
    let reason = Reason::Cut {
        field: index,
        left,
        due,
    };
    let lines = alone(alloc, &look.question, depth, sighted.number, reason)?;
    Ok(Some(lines))
}

/// The same by an argument that has no value.
fn told_by_argument(
    alloc: Global,
    sighted: &Sighted<'_>,
    depth: usize,
    index: usize,
    field: &Field,
) -> Result<Option<Items<Line>>, AllocError>
    requires sighted { IsSighted sighted.now }
    requires at { slice_get sighted.now.look.format.now.fields index ≡ Some field.now }
    ensures { IfOk result (λ o. MatchOption o (HasValues sighted.now field.now) (spec.Tells (setting_of sighted.now.look.question) depth sighted.now.number)) }
{
    let Some(at) = undefined_argument(field.encoding.get(), sighted.ranges) else {
        return Ok(None);
    };
    let reason = Reason::Undefined {
        at,
        within: Within::Argument(index),
    };
    let lines = alone(alloc, &sighted.look.question, depth, sighted.number, reason)?;
    Ok(Some(lines))
}

/// The same by a field.
#[cycle(telling)]
fn told_by_field(
    left: usize,
    effort: &mut usize,
    alloc: Global,
    sighted: &Sighted<'_>,
    depth: usize,
    index: usize,
) -> Result<Option<Items<Line>>, AllocError>
    requires { IsSighted sighted.now }
    ensures { IfOk result (λ o. MatchOption o (IsClearAt sighted.now index) (spec.Tells (setting_of sighted.now.look.question) depth sighted.now.number)) }
{
    if let Some(lines) = told_by_length(alloc, sighted, depth, index)? {
        return Ok(Some(lines));
    }
    match sighted.look.format.fields.get(index) {
        Some(field) => told_by_encoding(left, effort, alloc, sighted, depth, index, field),
        None => Ok(None),
    }
}

/// The same by what encodes a field, to which its length is no contradiction.
#[cycle(telling)]
fn told_by_encoding(
    left: usize,
    effort: &mut usize,
    alloc: Global,
    sighted: &Sighted<'_>,
    depth: usize,
    index: usize,
    field: &Field,
) -> Result<Option<Items<Line>>, AllocError>
    requires sighted { IsSighted sighted.now }
    requires at { slice_get sighted.now.look.format.now.fields index ≡ Some field.now }
    requires uncut { IsUncut sighted.now index }
    ensures { IfOk result (λ o. MatchOption o (IsClearAt sighted.now index) (spec.Tells (setting_of sighted.now.look.question) depth sighted.now.number)) }
{
    if let Some(lines) = told_by_argument(alloc, sighted, depth, index, field)? {
        return Ok(Some(lines));
    }
    if left > 0 {
        let lines = told_by_call(left - 1, effort, alloc, sighted, depth, index, field)?;
        if lines.is_some() {
            return Ok(lines);
        }
    }
    told_by_conflict(alloc, sighted, depth, index, field)
}

/// The same by what its library method relates, where each of its arguments has a value.
fn told_by_conflict(
    alloc: Global,
    sighted: &Sighted<'_>,
    depth: usize,
    index: usize,
    field: &Field,
) -> Result<Option<Items<Line>>, AllocError>
    requires sighted { IsSighted sighted.now }
    requires at { slice_get sighted.now.look.format.now.fields index ≡ Some field.now }
    requires uncut { IsUncut sighted.now index }
    requires values { HasValues sighted.now field.now }
    ensures { IfOk result (λ o. MatchOption o (IsClearAt sighted.now index) (spec.Tells (setting_of sighted.now.look.question) depth sighted.now.number)) }
{
    let Some(reason) = conflict(alloc, sighted, index, field)? else {
        return Ok(None);
    };
    let lines = alone(alloc, &sighted.look.question, depth, sighted.number, reason)?;
    Ok(Some(lines))
}

/// The same by a field that calls a method, where something stands against each format of that.
#[cycle(telling)]
fn told_by_call(
    left: usize,
    effort: &mut usize,
    alloc: Global,
    sighted: &Sighted<'_>,
    depth: usize,
    index: usize,
    field: &Field,
) -> Result<Option<Items<Line>>, AllocError>
    requires sighted { IsSighted sighted.now }
    requires at { slice_get sighted.now.look.format.now.fields index ≡ Some field.now }
    ensures { IfOk result (λ o. IfSome o (spec.Tells (setting_of sighted.now.look.question) depth sighted.now.number)) }
{
    let Encoding::Call { method, arguments } = field.encoding.get() else {
        return Ok(None);
    };
    let look = &sighted.look;
    let Some(offset) = begin_of(look.order, look.lengths, index) else {
        return Ok(None);
    };
    let Some(parameters) = all_ranged(alloc, arguments.as_slice(), sighted.ranges)? else {
        return Ok(None);
    };
    let Some(bits) = rest_of(alloc, look.question.bits, offset)? else {
        return Ok(None);
    };
    let path = below(alloc, look.question.path, field.declared.name.as_str())?;
    let inner = Question {
        profile: look.question.profile,
        context: look.question.context,
        method: *method,
        parameters: parameters.as_slice(),
        path: path.as_str(),
        side: look.question.side,
        bits: &bits,
        is_whole: false,
        asked: &[],
    };
    let Some(deeper) = depth.checked_add(1) else {
        return Ok(None);
    };
    let Some(more) = all_told(left, effort, alloc, &inner, deeper)? else {
        return Ok(None);
    };
    let mut lines = Items::new(alloc);
    lines.push(line(
        &look.question,
        depth,
        sighted.number,
        Reason::Inside { field: index },
    ))?;
    lines.append(more)?;
    Ok(Some(lines))
}

/// The lines that tell it of each format of the method, where something is found against each before the effort ends.
#[cycle(telling)]
fn all_told(
    left: usize,
    effort: &mut usize,
    alloc: Global,
    question: &Question<'_>,
    depth: usize,
) -> Result<Option<Items<Line>>, AllocError>
    ensures { IfOk result (λ o. IfSome o (spec.TellAll (setting_of question.now) depth 0)) }
{
    let mut lines = Items::new(alloc);
    for format in 0..formats_of(question) {
        if *effort == 0 {
            return Ok(None);
        }
        let Some(more) = told(left, effort, alloc, question, depth, format)? else {
            return Ok(None);
        };
        lines.append(more)?;
    }
    Ok(Some(lines))
}

/// The bits from the offset on. None where there are fewer.
fn rest_of(alloc: Global, bits: &Bits, offset: usize) -> Result<Option<Bits>, AllocError>
    ensures { IfOk result (λ o. IfSome o (λ rest. rest ≡ drop offset bits.now)) }
{
    bits.slice(alloc, offset, bits.len())
}

/// The ranges of the expressions, where each has one.
fn all_ranged(
    alloc: Global,
    exprs: &[Expr],
    ranges: &Ranges,
) -> Result<Option<Items<Interval>>, AllocError>
    ensures { IfOk result (λ o. IfSome o (λ found. spec.all_ranged (bounding_of ranges.now) exprs.now ≡ Some found)) }
{
    let mut found = Items::new(alloc);
    for expr in exprs {
        let Ok(interval) = range(expr, ranges) else {
            return Ok(None);
        };
        found.push(interval)?;
    }
    Ok(Some(found))
}

fn format_of<'a>(judged: &'a Judged<'a>, method: usize, format: usize) -> Option<&'a Format>
    ensures { option_copied result ≡ format_at judged.now.methods method format }
{
    judged.profile().methods().get(method)?.formats.get(format)
}

fn sizes_of<'a>(judged: &'a Judged<'a>, method: usize, format: usize) -> Option<&'a FormatSizes>
    ensures { option_copied result ≡ sizes_at judged.now.sizes method format }
{
    judged.profile().sizes().get(method)?.formats.get(format)
}
