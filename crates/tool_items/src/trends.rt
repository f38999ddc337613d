//! How each field goes on from item to item.

ghost use Rattle.std.specs.Prelude.{◌≡◌, ◌+◌, ◌∷◌, [], IfOk, OnOk, length, take};
ghost use Rattle.tool_items.specs.Trends as spec;

use crate::counts::added;
use crate::steps::Steps;
use crate::valued::FewValues;
use sem_bits::Bits;
use sem_filling::Filling;
use sqlite_items::Items;
use std::alloc::{AllocError, Global};

/// How many bits values have: the fewest and the most.
#[derive(Clone, Copy)]
pub struct Lengths {
    pub least: usize,
    pub most: usize,
}

/// How a field goes on from item to item.
#[derive(Drop)]
pub struct Trend {
    /// How many bits its values have, of no items nothing.
    pub lengths: Option<Lengths>,
    pub values: FewValues,
    /// The steps from the item before.
    pub next: Steps,
    /// The steps from each of the items that may be the last that came through.
    pub all: Steps,
    /// The last values, the latest first, as many as there are references.
    recent: Vec<Bits>,
}

/// How the first fields of fillings go on from one filling to the next, where up to so many in a row are lost.
#[derive(Drop)]
pub struct Trends {
    pub lost: u8,
    pub items: usize,
    pub fields: Vec<Trend>,
}

impl Trends {
    /// Those of no fillings, for so many fields.
    pub fn new(alloc: Global, count: usize, lost: u8) -> Result<Trends, AllocError>
        ensures { IfOk result (λ trends. spec.AreTrends count lost [] trends) }
    {
        let mut fields = Vec::new(alloc);
        for _ in 0..count {
            fields.push(Trend::none(alloc))?;
        }
        Ok(Trends {
            lost,
            items: 0,
            fields,
        })
    }

    /// Adds a filling. The error is out of memory; after it the trends may be anything. It also comes where a number is above 64 bits.
    pub fn add(&mut self, alloc: Global, filling: &Filling) -> Result<(), AllocError>
        ensures { OnOk result (spec.AddsFilling filling.now self.old self.new) }
    {
        self.items = added(self.items, 1)?;
        add_fields(alloc, filling, self.lost, &mut self.fields)?;
        Ok(())
    }
}

/// Adds the values of the first fields of a filling.
fn add_fields(
    alloc: Global,
    filling: &Filling,
    lost: u8,
    fields: &mut Vec<Trend>,
) -> Result<(), AllocError>
    ensures { OnOk result (spec.AddsFields lost filling.now fields.old.items fields.new.items) }
{
    for place in 0..fields.len() {
        add_field(alloc, filling, lost, place, &mut fields[place])?;
    }
    Ok(())
}

/// Adds the value of the field at a place, if it is there.
fn add_field(
    alloc: Global,
    filling: &Filling,
    lost: u8,
    place: usize,
    trend: &mut Trend,
) -> Result<(), AllocError>
    ensures { OnOk result (spec.AddsAt lost place filling.now trend.old trend.new) }
{
    match filling.fields.get(place) {
        Some(field) => {
            trend.add(alloc, lost, &field.uncompressed)?;
            Ok(())
        }
        None => Ok(()),
    }
}

impl Trend {
    /// That of no items.
    fn none(alloc: Global) -> Trend
        ensures { (lost : _) → spec.IsTrend lost [] result }
    {
        Trend {
            lengths: None,
            values: FewValues::new(alloc),
            next: Steps::new(alloc),
            all: Steps::new(alloc),
            recent: Vec::new(alloc),
        }
    }

    /// Adds the value of an item, where up to so many in a row are lost.
    fn add(&mut self, alloc: Global, lost: u8, value: &Bits) -> Result<(), AllocError>
        ensures { OnOk result (spec.AddsValue lost value.now self.old self.new) }
    {
        self.lengths = Some(lengths_with(self.lengths, value.len()));
        self.values.add(alloc, value)?;
        add_next(&mut self.next, self.recent.as_slice(), value)?;
        self.all.add_from(self.recent.as_slice(), value)?;
        keep(alloc, &mut self.recent, lost, value)?;
        Ok(())
    }
}

/// Adds the step from the latest value.
fn add_next(next: &mut Steps, recent: &[Bits], value: &Bits) -> Result<(), AllocError>
    ensures { OnOk result (spec.AddsNext recent.now value.now next.old next.new) }
{
    match recent.first() {
        Some(latest) => next.add(latest, value),
        None => Ok(()),
    }
}

/// Keeps a value as the latest.
fn keep(alloc: Global, recent: &mut Vec<Bits>, lost: u8, value: &Bits) -> Result<(), AllocError>
    ensures { OnOk result (recent.new.items ≡ take (lost + 1) (value.now ∷ recent.old.items)) }
{
    let copy = value.copy(alloc)?;
    recent.insert(0, copy)?;
    recent.truncate(lost as usize + 1);
    Ok(())
}

/// The same with a value more, of so many bits.
fn lengths_with(lengths: Option<Lengths>, bits: usize) -> Lengths
    ensures { result ≡ spec.lengths_with lengths bits }
{
    match lengths {
        Some(known) => Lengths {
            least: known.least.min(bits),
            most: known.most.max(bits),
        },
        None => Lengths {
            least: bits,
            most: bits,
        },
    }
}
