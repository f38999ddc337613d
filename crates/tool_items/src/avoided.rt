//! What `why --not` prints: what stands against a format, of the top or of a method that is called inside, for the items that are packed by others.

ghost use Rattle.std.specs.Prelude.{◌≡◌, ◌++◌, [], IfOk, OnOk, codes, decimal, string_bytes};
ghost use Rattle.tool_items.specs.Avoided as spec;
ghost use Rattle.tool_names.specs.Names.{format_name as name_of};

use crate::why::push_reasons;
use sem_expr::Side;
use sem_filling::reason::{Line, Reason};
use sem_filling::{AskedValue, Item};
use sem_profile::Profile;
use sqlite_items::Items;
use std::alloc::{AllocError, Global};
use std::collections::BTreeMap;
use tool_names::names::format_name;

/// What becomes of a format for an item.
#[derive(Drop)]
pub enum Fate {
    /// The item is refused.
    Refused,
    /// The item is packed, and no method that has the format is called at the path.
    Absent,
    /// The item is packed by the format.
    Taken,
    /// It is packed by another one of the method, both by their numbers, and this stands against the format.
    Against {
        method: usize,
        taken: usize,
        lines: Items<Line>,
    },
    /// It is packed by another one of the method, which comes first; the format fits, too, with so many bits of the whole packet.
    Later {
        method: usize,
        taken: usize,
        bits: usize,
    },
}

/// What becomes of the format for the item of that number, counted from 1.
#[derive(Drop)]
pub struct Verdict {
    pub number: usize,
    pub fate: Fate,
}

/// What becomes of a format for items: how many are packed by it, by others, not at all, and without its method; and of the others one verdict for each kind of
/// reasons. Verdicts are of one kind where the same is found at the same fields, whatever the bits there are; for each kind stands how many there are.
#[derive(Drop)]
pub struct Verdicts {
    pub taken: usize,
    pub others: usize,
    pub refused: usize,
    pub without: usize,
    pub kept: Items<Verdict>,
    counts: Vec<usize>,
    /// The place of each kind. A look-up goes by the order of the kinds' texts, so no choice of items makes it slow.
    places: BTreeMap<String, usize>,
}

impl Verdicts {
    /// Those of no items.
    pub fn new(alloc: Global) -> Verdicts
        ensures { result.kept ≡ [] }
    {
        Verdicts {
            taken: 0,
            others: 0,
            refused: 0,
            without: 0,
            kept: Items::new(alloc),
            counts: Vec::new(alloc),
            places: BTreeMap::new(alloc),
        }
    }

    /// Adds what becomes of the format for the item of a number.
    pub fn add(&mut self, alloc: Global, number: usize, fate: Fate) -> Result<(), AllocError>
        ensures { OnOk result (spec.Keeps number fate self.old.kept self.new.kept) }
    {
        match &fate {
            Fate::Refused => {
                self.refused = more(self.refused)?;
                return Ok(());
            }
            Fate::Absent => {
                self.without = more(self.without)?;
                return Ok(());
            }
            Fate::Taken => {
                self.taken = more(self.taken)?;
                return Ok(());
            }
            Fate::Against { .. } | Fate::Later { .. } => self.others = more(self.others)?,
        }
        let kind = kind_of(alloc, &fate)?;
        if let Some(place) = self.places.get(kind.as_str()) {
            let place = *place;
            if place < self.counts.len() {
                self.counts[place] = more(self.counts[place])?;
            }
            return Ok(());
        }
        self.places.insert(kind, self.counts.len())?;
        self.counts.push(1)?;
        self.kept.push(Verdict { number, fate })
    }

    /// The places of the kinds, those with most verdicts first, and of as many that which came first.
    fn order(&self, alloc: Global) -> Result<Vec<usize>, AllocError> {
        let mut order = Vec::new(alloc);
        for place in 0..self.counts.len() {
            order.push(place)?;
        }
        order.sort_by(|left, right| count_at(self, *right).cmp(&count_at(self, *left)))?;
        Ok(order)
    }
}

/// One more. The error comes where a number is above 64 bits.
fn more(count: usize) -> Result<usize, AllocError> {
    match count.checked_add(1) {
        Some(sum) => Ok(sum),
        None => Err(AllocError),
    }
}

/// A line of how many items there are, and then for each kind of verdicts, those of most items first, how many there are, which item is the first, by which format
/// it is packed, and what stands against the format that is asked for. No line feed stands after the last line.
pub fn avoided_text(
    alloc: Global,
    octets: &[u8],
    profile: &Profile,
    name: &str,
    items: &[Item],
    verdicts: &Verdicts,
) -> Result<String, AllocError>
    ensures { IfOk result (λ text. spec.IsAvoidedText octets.now profile.now name.now items.now verdicts.now (string_bytes text)) }
{
    let mut text = head_text(
        alloc,
        name,
        verdicts.taken,
        verdicts.others,
        verdicts.refused,
    )?;
    push_without(alloc, &mut text, verdicts.without)?;
    let order = verdicts.order(alloc)?;
    for place in order.as_slice() {
        let Some(verdict) = verdicts.kept.get(*place) else {
            continue;
        };
        let count = count_at(verdicts, *place);
        push_block(alloc, &mut text, octets, profile, items, count, verdict)?;
    }
    Ok(text)
}

fn count_at(verdicts: &Verdicts, place: usize) -> usize {
    match verdicts.counts.get(place) {
        Some(count) => *count,
        None => 0,
    }
}

fn head_text(
    alloc: Global,
    name: &str,
    taken: usize,
    others: usize,
    refused: usize,
) -> Result<String, AllocError>
    ensures { IfOk result (λ text. string_bytes text ≡ spec.head_text name.now taken others refused) }
{
    format!(in alloc; "format {name} items {taken} others {others} refused {refused}")
}

/// Adds how many packets have no method with the format, where there are any.
fn push_without(alloc: Global, output: &mut String, without: usize) -> Result<(), AllocError>
    ensures { OnOk result (string_bytes output.new ≡ string_bytes output.old ++ spec.without_words without) }
{
    if without == 0 {
        return Ok(());
    }
    let words = without_words(alloc, without)?;
    output.push_str(words.as_str())
}

fn without_words(alloc: Global, without: usize) -> Result<String, AllocError>
    ensures { IfOk result (λ text. string_bytes text ≡ spec.counted_without without) }
{
    format!(in alloc; " without {without}")
}

/// Adds what is told of one kind, after a line feed.
fn push_block(
    alloc: Global,
    output: &mut String,
    octets: &[u8],
    profile: &Profile,
    items: &[Item],
    count: usize,
    verdict: &Verdict,
) -> Result<(), AllocError>
    ensures { OnOk result (string_bytes output.new ≡ string_bytes output.old ++ spec.block_text octets.now profile.now items.now count verdict.now) }
{
    let head = block_head(alloc, count, verdict.number)?;
    output.push_str(head.as_str())?;
    push_fate(alloc, output, octets, profile, items, verdict)
}

fn block_head(alloc: Global, count: usize, number: usize) -> Result<String, AllocError>
    ensures { IfOk result (λ text. string_bytes text ≡ spec.block_head count number) }
{
    format!(in alloc; "\nitems {count} first {number}")
}

/// Adds by which format the item is packed, and what stands against the other one.
fn push_fate(
    alloc: Global,
    output: &mut String,
    octets: &[u8],
    profile: &Profile,
    items: &[Item],
    verdict: &Verdict,
) -> Result<(), AllocError>
    ensures { OnOk result (string_bytes output.new ≡ string_bytes output.old ++ spec.fate_text octets.now profile.now (spec.asked_of items.now verdict.now.number) verdict.now.fate) }
{
    match &verdict.fate {
        Fate::Refused | Fate::Absent | Fate::Taken => Ok(()),
        Fate::Against {
            method,
            taken,
            lines,
        } => {
            push_taken(output, profile, *method, *taken)?;
            let asked = asked_of(items, verdict.number);
            push_reasons(alloc, output, octets, profile, asked, lines.as_slice())
        }
        Fate::Later {
            method,
            taken,
            bits,
        } => {
            push_taken(output, profile, *method, *taken)?;
            push_later(alloc, output, *bits)
        }
    }
}

/// The asked values of the item of a number, counted from 1.
fn asked_of(items: &[Item], number: usize) -> &[AskedValue]
    ensures { result.now ≡ spec.asked_of items.now number }
{
    if number == 0 {
        return &[];
    }
    match items.get(number - 1) {
        Some(item) => item.asked.as_slice(),
        None => &[],
    }
}

fn push_taken(
    output: &mut String,
    profile: &Profile,
    method: usize,
    taken: usize,
) -> Result<(), AllocError>
    ensures { OnOk result (string_bytes output.new ≡ string_bytes output.old ++ codes " by " ++ name_of profile.now.methods method taken) }
{
    output.push_str(" by ")?;
    output.push_str(format_name(profile.methods(), method, taken))
}

fn push_later(alloc: Global, output: &mut String, bits: usize) -> Result<(), AllocError>
    ensures { OnOk result (string_bytes output.new ≡ string_bytes output.old ++ spec.later_words bits) }
{
    let words = later_words(alloc, bits)?;
    output.push_str(words.as_str())
}

fn later_words(alloc: Global, bits: usize) -> Result<String, AllocError>
    ensures { IfOk result (λ text. string_bytes text ≡ spec.later_words bits) }
{
    format!(in alloc; ": it fits with {bits} bits, and comes later")
}

// ---- kinds

/// A text that verdicts of one kind have in common.
fn kind_of(alloc: Global, fate: &Fate) -> Result<String, AllocError> {
    let mut kind = String::new(alloc);
    if let Fate::Against { lines, .. } = fate {
        for line in lines.as_slice() {
            push_kind(alloc, &mut kind, line)?;
        }
    }
    Ok(kind)
}

/// Adds what a line has in common with others of its kind.
fn push_kind(alloc: Global, kind: &mut String, line: &Line) -> Result<(), AllocError> {
    let (word, place) = match &line.reason {
        Reason::Dead(_) => ("dead", 0),
        Reason::Short { .. } => ("short", 0),
        Reason::Long { .. } => ("long", 0),
        Reason::Cut { field, .. } => ("cut", *field),
        Reason::NoReference { field, .. } => ("reference", *field),
        Reason::Differs { field, side, .. } => (differing(*side), *field),
        Reason::NoSide { field, side, .. } => (lacking(*side), *field),
        Reason::Untrue { constraint, .. } => ("untrue", *constraint),
        Reason::Undefined { at, .. } => ("undefined", at.from as usize),
        Reason::Inside { field } => ("inside", *field),
        Reason::Nothing => ("nothing", 0),
    };
    let (depth, method, format) = (line.depth, line.method, line.format);
    let text = format!(in alloc; "{depth} {method} {format} {word} {place};")?;
    kind.push_str(text.as_str())
}

fn differing(side: Side) -> &'static str {
    match side {
        Side::Uncompressed => "header differs",
        Side::Compressed => "packet differs",
    }
}

fn lacking(side: Side) -> &'static str {
    match side {
        Side::Uncompressed => "header lacks",
        Side::Compressed => "packet lacks",
    }
}
