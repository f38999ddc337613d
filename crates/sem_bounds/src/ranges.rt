//! The ranges of attributes by the bounds of a format.

ghost use Rattle.std.specs.Prelude.{◌≡◌, IfOk, map};
ghost use Rattle.sem_profile.specs.Ranging as spec;

use sem_expr::{Interval, Intervals, Ranges, SideIntervals};
use sem_profile::{Bounds, FormatSizes, Sizes};
use sqlite_items::Items;
use std::alloc::{AllocError, Global};

/// The greatest length whose values are asked for.
pub(crate) const WIDEST_VALUE: u128 = 64;

/// Bits that are more than these range as these do, beyond the limit of ranges.
const WIDEST_RANGE: u128 = 126;

/// The greatest length of a range.
const GREATEST: u128 = 0x1_0000_0000_0000_0000;

fn value_range(most: u128) -> Interval
    ensures { result ≡ spec.value_range most }
{
    let many: u128 = 1 << most.min(WIDEST_RANGE);
    Interval {
        from: 0,
        to: (many - 1) as i128,
    }
}

fn length_range(bounds: Bounds) -> Interval
    ensures { result ≡ spec.length_range bounds }
{
    Interval {
        from: bounds.least.min(bounds.most).min(GREATEST) as i128,
        to: bounds.most.min(GREATEST) as i128,
    }
}

fn intervals_of(bounds: Bounds) -> Intervals
    ensures { result ≡ spec.intervals_of bounds }
{
    Intervals {
        value: value_range(bounds.most),
        length: length_range(bounds),
    }
}

fn side_ranges(sizes: Sizes) -> SideIntervals
    ensures { result ≡ spec.side_ranges sizes }
{
    SideIntervals {
        uncompressed: intervals_of(sizes.uncompressed),
        compressed: intervals_of(sizes.compressed),
    }
}

fn fields_ranges(alloc: Global, sizes: &[Sizes]) -> Result<Items<SideIntervals>, AllocError>
    ensures { IfOk result (λ r. r ≡ map spec.side_ranges sizes.now) }
{
    let mut ranges = Vec::with_capacity(alloc, sizes.len())?;
    for size in sizes {
        ranges.push(side_ranges(*size))?;
    }
    Ok(Items::from_vec(ranges))
}

/// The ranges in a format, from its bounds and from the ranges of the method's parameters. The error is out of memory.
pub fn format_ranges(
    alloc: Global,
    sizes: &FormatSizes,
    parameters: &[Interval],
) -> Result<Ranges, AllocError>
    ensures { IfOk result (λ r. r ≡ spec.format_ranges sizes.now parameters.now) }
{
    Ok(Ranges {
        fields: fields_ranges(alloc, sizes.fields.as_slice())?,
        whole: side_ranges(sizes.whole),
        parameters: Items::from_slice(alloc, parameters)?,
    })
}
