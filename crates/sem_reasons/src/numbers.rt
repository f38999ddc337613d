//! The ranges of a format's numbers, by what is seen of its fields.

ghost use Rattle.std.specs.Prelude.{◌≡◌, IfOk, Some};
ghost use Rattle.std.specs.Option.{option_copied};
ghost use Rattle.sem_reasons.specs.Told as spec;

use crate::sight::{Observed, ObservedSides};
use crate::subjects::seen_at;
use sem_bits::Bits;
use sem_expr::{Interval, Intervals, Ranges, Side, SideIntervals};
use sqlite_items::Items;
use std::alloc::{AllocError, Global};

/// The ranges where that much is seen. The error is out of memory.
pub(crate) fn ranges_seen(
    alloc: Global,
    seen: &Observed,
    base: &Ranges,
) -> Result<Ranges, AllocError>
    ensures { IfOk result (λ ranges. ranges ≡ spec.ranges_seen seen.now base.now) }
{
    let fields = fields_seen(alloc, seen.fields.as_slice(), base.fields.as_slice())?;
    let parameters = Items::from_slice(alloc, base.parameters.as_slice())?;
    let whole = seen_intervals(
        base.whole,
        seen.whole.uncompressed.as_ref(),
        seen.whole.compressed.as_ref(),
    );
    Ok(Ranges {
        fields,
        whole,
        parameters,
    })
}

fn fields_seen(
    alloc: Global,
    sights: &[ObservedSides],
    base: &[SideIntervals],
) -> Result<Items<SideIntervals>, AllocError>
    ensures { IfOk result (λ ranges. ranges ≡ spec.fields_from sights.now 0 base.now) }
{
    let mut found = Items::new(alloc);
    for (field, range) in base.iter().enumerate() {
        let up = seen_at(sights, field, Side::Uncompressed);
        let down = seen_at(sights, field, Side::Compressed);
        found.push(seen_intervals(*range, up, down))?;
    }
    Ok(found)
}

fn seen_intervals(range: SideIntervals, up: Option<&Bits>, down: Option<&Bits>) -> SideIntervals
    ensures { result ≡ spec.seen_intervals range (option_copied up.entry) (option_copied down.entry) }
{
    SideIntervals {
        uncompressed: seen_numbers(range.uncompressed, up),
        compressed: seen_numbers(range.compressed, down),
    }
}

fn seen_numbers(range: Intervals, bits: Option<&Bits>) -> Intervals
    ensures { result ≡ spec.seen_numbers range (option_copied bits.entry) }
{
    match bits {
        Some(bits) => numbers_of(range, bits),
        None => range,
    }
}

/// The number that the bits spell, if they are at most 64, and how many they are.
fn numbers_of(range: Intervals, bits: &Bits) -> Intervals
    ensures { result ≡ spec.seen_numbers range (Some bits.now) }
{
    let length = only(bits.len() as i128);
    match bits.value() {
        Some(value) => Intervals {
            value: only(i128::from(value)),
            length,
        },
        None => Intervals {
            value: range.value,
            length,
        },
    }
}

fn only(number: i128) -> Interval
    ensures { (result.from ≡ number) × (result.to ≡ number) }
{
    Interval {
        from: number,
        to: number,
    }
}
