//! Sums over fillings, kept by format and place. So they take the memory of a table of what came, however many fillings are added.

ghost use Rattle.std.specs.Prelude.{◌≡◌, ◌<◌, ◌≤◌, ◌++◌, ◌∷◌, [], OnOk, length};
ghost use Rattle.tool_items.specs.Adding as spec;
ghost use Rattle.tool_items.specs.Sums.{AreSums, level_of, row_of, spot_of, no_level, no_row, no_spot};

use crate::counts::{Tally, added};
use sem_filling::{FilledField, Filling};
use std::alloc::{AllocError, Global};

/// Sums over fillings of a method: of all, and of those of each format, by its index. A format without an entry has no filling.
#[derive(Drop)]
#[cycle(sums)]
pub struct Sums {
    pub all: Tally,
    pub formats: Vec<FormatSums>,
}

/// Sums over fillings of one format: of all, and of its listed fields, in the listing's order.
#[derive(Drop)]
#[cycle(sums)]
pub struct FormatSums {
    pub all: Tally,
    pub places: Vec<PlaceSums>,
}

/// Sums over a listed field in fillings of one format: its packed bits, and the fillings inside it.
#[derive(Drop)]
#[cycle(sums)]
pub struct PlaceSums {
    pub bits: usize,
    pub inside: Sums,
}

impl Sums {
    /// Those of no fillings.
    pub fn new(alloc: Global) -> Sums
        ensures none { level_of result ≡ no_level }
        ensures sums { AreSums [] result }
    {
        Sums {
            all: Tally::none(),
            formats: Vec::new(alloc),
        }
    }

    /// Adds a filling. The error is out of memory; after it the sums may be anything. It also comes where a number is above 64 bits.
    pub fn add(&mut self, alloc: Global, filling: &Filling) -> Result<(), AllocError>
        ensures { OnOk result (spec.Adds filling.now self.old self.new) }
    {
        add_filling(filling, alloc, self)
    }
}

impl FormatSums {
    /// Those of no fillings.
    fn none(alloc: Global) -> FormatSums
        ensures { row_of result ≡ no_row }
    {
        FormatSums {
            all: Tally::none(),
            places: Vec::new(alloc),
        }
    }
}

impl PlaceSums {
    /// Those of no fillings.
    fn none(alloc: Global) -> PlaceSums
        ensures { spot_of result ≡ no_spot }
    {
        PlaceSums {
            bits: 0,
            inside: Sums::new(alloc),
        }
    }
}

/// Adds a filling to the sums.
#[cycle(adding)]
fn add_filling(filling: &Filling, alloc: Global, sums: &mut Sums) -> Result<(), AllocError>
    ensures { OnOk result (spec.Adds filling.now sums.old sums.new) }
{
    sums.all = sums.all.with(filling)?;
    let count = added(filling.format, 1)?;
    reach_formats(alloc, &mut sums.formats, count)?;
    add_to_format(filling, alloc, &mut sums.formats[filling.format])
}

/// Adds a filling to the sums of its format.
#[cycle(adding)]
fn add_to_format(
    filling: &Filling,
    alloc: Global,
    format: &mut FormatSums,
) -> Result<(), AllocError>
    ensures { OnOk result (spec.FormatAdds filling.now format.old format.new) }
{
    format.all = format.all.with(filling)?;
    let listing = filling.listing.get().as_slice();
    reach_places(alloc, &mut format.places, listing.len())?;
    for place in 0..listing.len() {
        add_listed(filling, alloc, listing[place], &mut format.places[place])?;
    }
    Ok(())
}

/// Adds a listed field, by its index, to the sums of its place.
#[cycle(adding)]
fn add_listed(
    filling: &Filling,
    alloc: Global,
    field: usize,
    place: &mut PlaceSums,
) -> Result<(), AllocError>
    ensures { OnOk result (spec.ListedAdds filling.now field place.old place.new) }
{
    match filling.fields.get(field) {
        Some(field) => add_to_place(field, alloc, place),
        None => Ok(()),
    }
}

/// Adds a field to the sums of its place.
#[cycle(adding)]
fn add_to_place(field: &FilledField, alloc: Global, place: &mut PlaceSums) -> Result<(), AllocError>
    ensures { OnOk result (spec.FieldAdds field.now place.old place.new) }
{
    place.bits = added(place.bits, field.compressed.len())?;
    if let Some(inner) = &field.inner {
        add_filling(inner, alloc, &mut place.inside)?;
    }
    Ok(())
}

/// Makes sums of nothing, until there are those of so many formats.
fn reach_formats(
    alloc: Global,
    formats: &mut Vec<FormatSums>,
    count: usize,
) -> Result<(), AllocError>
    ensures { OnOk result (spec.SameFormats formats.old.items formats.new.items × count ≤ length formats.new.items) }
{
    for reached in formats.len()..count {
        formats.push(FormatSums::none(alloc))?;
    }
    Ok(())
}

/// Makes sums of nothing, until there are those of so many places.
fn reach_places(alloc: Global, places: &mut Vec<PlaceSums>, count: usize) -> Result<(), AllocError>
    ensures { OnOk result (spec.SamePlaces places.old.items places.new.items × count ≤ length places.new.items) }
{
    for reached in places.len()..count {
        places.push(PlaceSums::none(alloc))?;
    }
    Ok(())
}
