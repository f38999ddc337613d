//! The bounds of a format.

ghost use Rattle.std.specs.Prelude.{◌≡◌, IfOk, map};
ghost use Rattle.sem_profile.specs.Formats as spec;
ghost use Rattle.sem_profile.specs.Passes.{indexed};

use crate::fields::{NO_BITS, fields_sizes};
use sem_profile::{Bounds, Field, Format, FormatSizes, MethodSizes, Part, Sizes};
use sqlite_items::Items;
use std::alloc::{AllocError, Global};

fn plus(bounds: Bounds, other: Bounds) -> Bounds
    requires { spec.AreNumbers (spec.plus bounds other) }
    ensures { result ≡ spec.plus bounds other }
{
    Bounds {
        least: bounds.least + other.least,
        most: bounds.most + other.most,
    }
}

pub(crate) fn sizes_at(fields: &[Sizes], index: usize) -> Sizes
    ensures { result ≡ spec.sizes_at fields.now index }
{
    match fields.get(index) {
        Some(sizes) => *sizes,
        None => Sizes {
            uncompressed: NO_BITS,
            compressed: NO_BITS,
        },
    }
}

fn is_header(part: Part) -> bool
    ensures { result ≡ spec.is_header part }
{
    match part {
        Part::Header => true,
        Part::Control | Part::Local => false,
    }
}

fn header_bounds(sizes: &[Sizes], index: usize, field: &Field) -> Bounds
    ensures { result ≡ spec.header_bounds sizes.now index field.now }
{
    if is_header(field.declared.part) {
        sizes_at(sizes, index).uncompressed
    } else {
        NO_BITS
    }
}

fn header_total(sizes: &[Sizes], fields: &[Field]) -> Bounds
    requires { spec.AreNumbers (spec.total (indexed (spec.header_bounds sizes.now) 0 fields.now)) }
    ensures { result ≡ spec.total (indexed (spec.header_bounds sizes.now) 0 fields.now) }
{
    let mut sum = NO_BITS;
    let mut place = 0;
    for field in fields {
        sum = plus(sum, header_bounds(sizes, place, field));
        place += 1;
    }
    sum
}

fn packed_total(sizes: &[Sizes], listing: &[usize]) -> Bounds
    requires { spec.AreNumbers (spec.total (map (λ i. (spec.sizes_at sizes.now i).compressed) listing.now)) }
    ensures { result ≡ spec.total (map (λ i. (spec.sizes_at sizes.now i).compressed) listing.now) }
{
    let mut sum = NO_BITS;
    for listed in listing {
        sum = plus(sum, sizes_at(sizes, *listed).compressed);
    }
    sum
}

fn whole_sizes(format: &Format, fields: &[Sizes]) -> Sizes
    requires { spec.HaveNumbers (spec.whole_sizes format.now fields.now) }
    ensures { result ≡ spec.whole_sizes format.now fields.now }
{
    Sizes {
        uncompressed: header_total(fields, format.fields.as_slice()),
        compressed: packed_total(fields, format.listing.get().as_slice()),
    }
}

/// The bounds of a format from those of the methods.
pub(crate) fn format_sizes(
    alloc: Global,
    methods: &[MethodSizes],
    format: &Format,
) -> Result<FormatSizes, AllocError>
    requires { spec.HaveNumbers (spec.format_sizes methods.now format.now).whole }
    ensures { IfOk result (λ s. s ≡ spec.format_sizes methods.now format.now) }
{
    let fields = fields_sizes(alloc, methods, format)?;
    let whole = whole_sizes(format, fields.as_slice());
    Ok(FormatSizes { fields, whole })
}
