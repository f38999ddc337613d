//! The few values that a field has.

ghost use Rattle.std.specs.Prelude.{◌≡◌, [], IfSome, IfNone, OnOk};
ghost use Rattle.tool_items.specs.Values as spec;

use crate::counts::added;
use sem_bits::Bits;
use sqlite_items::Items;
use std::alloc::{AllocError, Global};

/// How many values are kept at most.
pub const MOST: usize = 8;

/// A value, and how many items have it.
#[derive(Drop)]
pub struct ValueCount {
    pub bits: Bits,
    pub count: usize,
}

/// The first values that differ, `MOST` at most, and how many items have another.
#[derive(Drop)]
pub struct FewValues {
    pub kept: Items<ValueCount>,
    pub others: usize,
}

impl FewValues {
    /// Those of no items.
    pub fn new(alloc: Global) -> FewValues
        ensures { spec.AreValues [] result }
    {
        FewValues {
            kept: Items::new(alloc),
            others: 0,
        }
    }

    /// Adds the value of an item. The error is out of memory; after it the counts may be anything. It also comes where a number is above 64 bits.
    pub fn add(&mut self, alloc: Global, value: &Bits) -> Result<(), AllocError>
        ensures { OnOk result (spec.AddsValue value.now self.old self.new) }
    {
        match place_of(self.kept.as_slice(), value) {
            Some(place) => self.add_at(alloc, place, value),
            None => self.add_new(alloc, value),
        }
    }

    /// Adds a value that is kept at a place.
    fn add_at(&mut self, alloc: Global, place: usize, value: &Bits) -> Result<(), AllocError>
        requires { spec.IsKeptAt value.now place self.old.kept }
        ensures { OnOk result (spec.AddsValue value.now self.old self.new) }
    {
        let count = added(self.kept.as_slice()[place].count, 1)?;
        let bits = value.copy(alloc)?;
        self.kept.set(place, ValueCount { bits, count });
        Ok(())
    }

    /// Adds a value that isn't kept.
    fn add_new(&mut self, alloc: Global, value: &Bits) -> Result<(), AllocError>
        requires { spec.IsKeptNowhere value.now self.old.kept }
        ensures { OnOk result (spec.AddsValue value.now self.old self.new) }
    {
        if self.kept.len() == MOST {
            self.others = added(self.others, 1)?;
            return Ok(());
        }
        let bits = value.copy(alloc)?;
        self.kept.push(ValueCount { bits, count: 1 })?;
        Ok(())
    }
}

/// The place at which a value is kept.
fn place_of(kept: &[ValueCount], value: &Bits) -> Option<usize>
    ensures at { IfSome result (λ place. spec.IsKeptAt value.now place kept.now) }
    ensures nowhere { IfNone result (spec.IsKeptNowhere value.now kept.now) }
{
    for (place, one) in kept.iter().enumerate() {
        if one.bits == *value {
            return Some(place);
        }
    }
    None
}
