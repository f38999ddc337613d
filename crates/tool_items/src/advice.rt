//! What `advise` tells of a trace, as values: how each field goes on from item to item, and which `lsb` takes its steps.

ghost use Rattle.std.specs.Prelude.{◌≡◌, ◌≤◌, IfOk};
ghost use Rattle.tool_items.specs.Advise as spec;

use crate::fields::part_word;
use crate::steps::power;
use crate::{FewValues, Lengths, Steps, Trend, Trends, least_near, taken_by};
use sem_expr::{Expr, Ranges, range};
use sem_profile::{Encoding, Field, Library, Method, Part};
use sqlite_items::Items;
use std::alloc::{AllocError, Global};
use tool_names::names::{encoding_at, field_at, field_name, format_at, format_name, formats_of};

/// What is told of the fields of the top: of how many items, where up to so many packets in a row are lost; how each field goes on; for each that has `lsb` or goes
/// on by steps which `lsb` takes these; and what each `lsb` of a format takes.
#[derive(Drop)]
pub struct Advice<'a> {
    pub items: usize,
    pub lost: u8,
    pub fields: Items<FieldAdvice<'a>>,
    pub nears: Items<NearAdvice<'a>>,
    pub owns: Items<OwnAdvice<'a>>,
}

/// How a field goes on from item to item. Its values have so many bits.
#[derive(Drop)]
pub struct FieldAdvice<'a> {
    pub name: &'a str,
    pub part: &'static str,
    pub lengths: Option<Lengths>,
    pub way: Way,
    /// How many percent of the steps are 0, of few values.
    pub same: Option<u128>,
    pub values: &'a FewValues,
    pub steps: StepRange,
    /// How many pairs of items have no step.
    pub without: usize,
}

/// The way in which a field goes on.
#[derive(Clone, Copy, PartialEq, Eq)]
pub enum Way {
    /// There are no items.
    Unknown,
    Constant,
    Few,
    Steps,
    Random,
}

/// The least and the greatest step, and the most frequent, of several the least, with how many percent of the steps it is.
#[derive(Clone, Copy)]
pub struct StepRange {
    pub least: i64,
    pub most: i64,
    pub frequent: i64,
    pub share: u128,
}

/// Which `lsb` takes 90, 99 and 100 percent of the steps of a field, where up to so many packets in a row are lost.
#[derive(Clone, Copy)]
pub struct NearAdvice<'a> {
    pub field: &'a str,
    pub lost: u8,
    pub most: Nearest,
    pub nearly_all: Nearest,
    pub all: Nearest,
}

/// The encoding that takes steps.
#[derive(Clone, Copy)]
pub enum Nearest {
    /// There are no steps.
    Unknown,
    /// `lsb` would have as many bits as the field.
    Irregular,
    Lsb { bits: usize, offset: i128 },
}

/// What the `lsb` of a field in a format takes.
#[derive(Clone, Copy)]
pub struct OwnAdvice<'a> {
    pub field: &'a str,
    pub format: &'a str,
    /// What it takes, where its arguments are the same in every item.
    pub taken: Option<Taken>,
}

/// The arguments of `lsb`, and how many percent of the steps it takes where none is lost, and of those where more may be; none where there are no steps.
#[derive(Clone, Copy)]
pub struct Taken {
    pub bits: i128,
    pub offset: i128,
    pub next: Option<u128>,
    pub all: Option<u128>,
}

/// How many fields the formats of the top have in common: those of the header and of CONTROL, which stand first in each.
pub fn shared_fields(methods: &[Method], top: usize) -> usize
    ensures { result ≡ spec.shared_fields methods.now top }
{
    match format_at(methods, top, 0) {
        Some(format) => shared(format.fields.as_slice()),
        None => 0,
    }
}

/// How many fields stand before the first local one.
fn shared(fields: &[Field]) -> usize
    ensures { result ≡ spec.shared fields.now }
{
    for (place, field) in fields.iter().enumerate() {
        if let Part::Local = field.declared.part {
            return place;
        }
    }
    fields.len()
}

/// What is told of trends. The error is out of memory.
pub fn advice_of<'a>(
    alloc: Global,
    methods: &'a [Method],
    top: usize,
    trends: &'a Trends,
) -> Result<Advice<'a>, AllocError>
    ensures items { IfOk result (λ advice. advice.items ≡ trends.now.items) }
    ensures lost { IfOk result (λ advice. advice.lost ≡ trends.now.lost) }
{
    let fields = field_advice(alloc, methods, top, trends)?;
    let nears = near_advice(alloc, methods, top, trends)?;
    let owns = own_advice(alloc, methods, top, trends)?;
    Ok(Advice {
        items: trends.items,
        lost: trends.lost,
        fields,
        nears,
        owns,
    })
}

// ---- how each field goes on

fn field_advice<'a>(
    alloc: Global,
    methods: &'a [Method],
    top: usize,
    trends: &'a Trends,
) -> Result<Items<FieldAdvice<'a>>, AllocError> {
    let mut fields = Items::new(alloc);
    for (place, trend) in trends.fields.iter().enumerate() {
        fields.push(of_field(alloc, methods, top, trends.items, place, trend)?)?;
    }
    Ok(fields)
}

fn of_field<'a>(
    alloc: Global,
    methods: &'a [Method],
    top: usize,
    items: usize,
    place: usize,
    trend: &'a Trend,
) -> Result<FieldAdvice<'a>, AllocError> {
    Ok(FieldAdvice {
        name: field_name(methods, top, 0, place),
        part: part_of(methods, top, place),
        lengths: trend.lengths,
        way: way_of(alloc, trend, items)?,
        same: same_share(&trend.next),
        values: &trend.values,
        steps: step_range(&trend.next),
        without: trend.next.without,
    })
}

/// The part of a field of the top.
fn part_of(methods: &[Method], top: usize, place: usize) -> &'static str {
    match field_at(methods, top, 0, place) {
        Some(field) => part_word(field.declared.part),
        None => "-",
    }
}

/// One value is constant. Few values are those that are all kept, and fewer than half as many as items. Steps are those of which 90 percent are taken by an `lsb`
/// with at most half of the field's bits, where nine pairs in ten have one.
fn way_of(alloc: Global, trend: &Trend, items: usize) -> Result<Way, AllocError> {
    if items == 0 {
        return Ok(Way::Unknown);
    }
    let values = trend.values.kept.len();
    if trend.values.others == 0 {
        if values == 1 {
            return Ok(Way::Constant);
        }
        if values < items.div_ceil(2) {
            return Ok(Way::Few);
        }
    }
    if goes_by_steps(alloc, trend)? {
        return Ok(Way::Steps);
    }
    Ok(Way::Random)
}

fn goes_by_steps(alloc: Global, trend: &Trend) -> Result<bool, AllocError> {
    let Some(lengths) = trend.lengths else {
        return Ok(false);
    };
    let all = steps_in(&trend.next);
    let pairs = all.saturating_add(trend.next.without as u128);
    if all == 0 || all.saturating_mul(10) < pairs.saturating_mul(9) {
        return Ok(false);
    }
    match least_near(alloc, &trend.next, 90)? {
        Some(near) => Ok(near.bits <= lengths.most / 2),
        None => Ok(false),
    }
}

/// How many steps there are.
fn steps_in(steps: &Steps) -> u128 {
    let mut all = 0u128;
    for (step, count) in &steps.counts {
        let _ = step;
        all = all.saturating_add(*count as u128);
    }
    all
}

/// How many percent of the steps are 0: how often the value is that of the item before.
fn same_share(steps: &Steps) -> Option<u128> {
    let all = steps_in(steps);
    if all == 0 {
        return None;
    }
    Some(share_of(count_at(steps, 0) as u128, all))
}

/// How often a step came.
fn count_at(steps: &Steps, step: i64) -> usize {
    match steps.counts.get(&step) {
        Some(count) => *count,
        None => 0,
    }
}

fn step_range(steps: &Steps) -> StepRange {
    let mut least = 0;
    let mut most = 0;
    let mut frequent = 0;
    let mut often = 0;
    let mut is_first = true;
    for (step, count) in &steps.counts {
        if is_first {
            least = *step;
        }
        is_first = false;
        most = *step;
        if *count > often {
            frequent = *step;
            often = *count;
        }
    }
    StepRange {
        least,
        most,
        frequent,
        share: share_of(often as u128, steps_in(steps)),
    }
}

/// How many percent of all so many are, rounded down.
fn share_of(count: u128, all: u128) -> u128 {
    if all == 0 {
        0
    } else {
        count.saturating_mul(100) / all
    }
}

// ---- which `lsb` takes the steps

/// What is told of each field that has `lsb` or goes on by steps.
fn near_advice<'a>(
    alloc: Global,
    methods: &'a [Method],
    top: usize,
    trends: &'a Trends,
) -> Result<Items<NearAdvice<'a>>, AllocError> {
    let mut nears = Items::new(alloc);
    for (place, trend) in trends.fields.iter().enumerate() {
        if is_told(alloc, methods, top, trends.items, place, trend)? {
            add_near(alloc, &mut nears, methods, top, trends.lost, place, trend)?;
        }
    }
    Ok(nears)
}

/// Whether a field is told of: where a format has `lsb` for it, or it goes on by steps.
fn is_told(
    alloc: Global,
    methods: &[Method],
    top: usize,
    items: usize,
    place: usize,
    trend: &Trend,
) -> Result<bool, AllocError> {
    for (number, format) in formats_of(methods, top).iter().enumerate() {
        let _ = format;
        if lsb_at(methods, top, number, place).is_some() {
            return Ok(true);
        }
    }
    Ok(way_of(alloc, trend, items)? == Way::Steps)
}

/// The arguments of `lsb`, as they stand in a profile.
#[derive(Clone, Copy)]
struct Arguments<'a> {
    bits: &'a Expr,
    offset: &'a Expr,
}

/// Those of a field of a format of the top, if it has `lsb` there.
fn lsb_at(methods: &[Method], top: usize, format: usize, place: usize) -> Option<Arguments<'_>> {
    match encoding_at(methods, top, format, place) {
        Some(Encoding::Library(Library::Lsb { bits, offset })) => Some(Arguments { bits, offset }),
        _ => None,
    }
}

/// Adds what is told of a field: where none is lost, and where more may be also for these.
fn add_near<'a>(
    alloc: Global,
    nears: &mut Items<NearAdvice<'a>>,
    methods: &'a [Method],
    top: usize,
    lost: u8,
    place: usize,
    trend: &Trend,
) -> Result<(), AllocError> {
    let field = field_name(methods, top, 0, place);
    let most = most_bits(trend.lengths);
    nears.push(near_of(alloc, field, 0, most, &trend.next)?)?;
    if lost > 0 {
        nears.push(near_of(alloc, field, lost, most, &trend.all)?)?;
    }
    Ok(())
}

/// How many bits the longest value has.
fn most_bits(lengths: Option<Lengths>) -> usize {
    match lengths {
        Some(lengths) => lengths.most,
        None => 0,
    }
}

/// What takes the steps of a field with values of so many bits, where up to so many packets in a row are lost.
fn near_of<'a>(
    alloc: Global,
    field: &'a str,
    lost: u8,
    most: usize,
    steps: &Steps,
) -> Result<NearAdvice<'a>, AllocError> {
    Ok(NearAdvice {
        field,
        lost,
        most: nearest_to(alloc, steps, most, 90)?,
        nearly_all: nearest_to(alloc, steps, most, 99)?,
        all: nearest_to(alloc, steps, most, 100)?,
    })
}

/// The `lsb` with the fewest bits that takes so many percent of the steps. Where these aren't fewer than the field has, `irregular` does as well.
fn nearest_to(alloc: Global, steps: &Steps, most: usize, share: u8) -> Result<Nearest, AllocError> {
    if steps_in(steps) == 0 {
        return Ok(Nearest::Unknown);
    }
    match least_near(alloc, steps, share)? {
        Some(near) if near.bits < most => Ok(Nearest::Lsb {
            bits: near.bits,
            offset: near.offset,
        }),
        _ => Ok(Nearest::Irregular),
    }
}

// ---- what each `lsb` takes

/// What is told of each field of a format that has `lsb`, field by field.
fn own_advice<'a>(
    alloc: Global,
    methods: &'a [Method],
    top: usize,
    trends: &'a Trends,
) -> Result<Items<OwnAdvice<'a>>, AllocError> {
    let mut owns = Items::new(alloc);
    for (place, trend) in trends.fields.iter().enumerate() {
        add_own(alloc, &mut owns, methods, top, place, trend)?;
    }
    Ok(owns)
}

/// Adds what is told of a field, for each format that has `lsb` for it.
fn add_own<'a>(
    alloc: Global,
    owns: &mut Items<OwnAdvice<'a>>,
    methods: &'a [Method],
    top: usize,
    place: usize,
    trend: &Trend,
) -> Result<(), AllocError> {
    let field = field_name(methods, top, 0, place);
    for (number, format) in formats_of(methods, top).iter().enumerate() {
        let _ = format;
        if let Some(arguments) = lsb_at(methods, top, number, place) {
            owns.push(OwnAdvice {
                field,
                format: format_name(methods, top, number),
                taken: taken_with(alloc, arguments, trend)?,
            })?;
        }
    }
    Ok(())
}

/// What an `lsb` takes. Where its arguments aren't the same in every item, that isn't told.
fn taken_with(
    alloc: Global,
    arguments: Arguments<'_>,
    trend: &Trend,
) -> Result<Option<Taken>, AllocError> {
    let Some(bits) = constant(alloc, arguments.bits) else {
        return Ok(None);
    };
    let Some(offset) = constant(alloc, arguments.offset) else {
        return Ok(None);
    };
    let most = most_bits(trend.lengths);
    Ok(Some(Taken {
        bits,
        offset,
        next: taken_share(alloc, &trend.next, most, bits, offset)?,
        all: taken_share(alloc, &trend.all, most, bits, offset)?,
    }))
}

/// The value of an expression that has the same in every item.
fn constant(alloc: Global, expr: &Expr) -> Option<i128> {
    let Ok(interval) = range(expr, &Ranges::anything(alloc)) else {
        return None;
    };
    if interval.from == interval.to {
        Some(interval.from)
    } else {
        None
    }
}

/// The share of the steps that `lsb` takes, where there are steps, of values of so many bits.
fn taken_share(
    alloc: Global,
    steps: &Steps,
    most: usize,
    bits: i128,
    offset: i128,
) -> Result<Option<u128>, AllocError> {
    let all = steps_in(steps);
    if all == 0 {
        return Ok(None);
    }
    let Ok(count) = usize::try_from(bits) else {
        return Ok(None);
    };
    let taken = taken_around(alloc, steps, most, count, offset)?;
    Ok(Some(share_of(taken, all)))
}

/// How many of the steps `lsb` takes, modulo two to the power of the bits of the longest value. With as many bits it takes all.
fn taken_around(
    alloc: Global,
    steps: &Steps,
    most: usize,
    bits: usize,
    offset: i128,
) -> Result<u128, AllocError> {
    let length = most.min(64);
    if bits >= length {
        return Ok(steps_in(steps));
    }
    let ahead = offset_below(offset, length) as i128;
    let here = taken_by(alloc, steps, bits, ahead)?;
    let around = taken_by(alloc, steps, bits, ahead - power(length) as i128)?;
    Ok(here as u128 + around as u128)
}

/// The offset modulo two to the power of so many bits.
fn offset_below(offset: i128, bits: usize) -> u64
    requires { bits ≤ 64 }
{
    let all = power(bits);
    let back = offset.unsigned_abs() % all;
    if offset < 0 && back > 0 {
        (all - back) as u64
    } else {
        back as u64
    }
}
