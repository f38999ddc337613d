//! The bounds on the lengths of the fields of a format.

ghost use Rattle.std.specs.Prelude.{◌≡◌, IfOk, fold};
ghost use Rattle.sem_profile.specs.Constants.{constant};
ghost use Rattle.sem_profile.specs.Fields as spec;
ghost use Rattle.sem_profile.specs.Passes.{indexed, narrow, changed};

use crate::constants::constant_of;
use sem_expr::{Expr, Side};
use sem_profile::{Bounds, Constraint, Encoding, Field, Format, Library, MethodSizes, Sizes};
use sqlite_items::Items;
use std::alloc::{AllocError, Global};

/// No bits.
pub(crate) const NO_BITS: Bounds = Bounds { least: 0, most: 0 };

/// The greatest length of a field that no method of the profile encodes.
const WIDEST: u128 = 64;

/// The greatest number that a bracket gives a bound.
const GREATEST: u128 = 0x1_0000_0000_0000_0000;

fn counted(value: i128) -> u128
    ensures { result ≡ spec.counted value }
{
    (value.max(0) as u128).min(GREATEST)
}

fn up_to_widest() -> Bounds
    ensures { result ≡ spec.bounds 0 64 }
{
    Bounds {
        least: 0,
        most: WIDEST,
    }
}

fn by_length(alloc: Global, length: &Expr) -> Bounds
    ensures { result ≡ spec.by_length (constant length.now) }
{
    match constant_of(alloc, length) {
        Some(value) if 0 <= value && value <= 64 => Bounds {
            least: counted(value),
            most: counted(value),
        },
        _ => up_to_widest(),
    }
}

fn library_sizes(alloc: Global, library: &Library) -> Sizes
    ensures { result ≡ spec.library_sizes library.now }
{
    match library {
        Library::UncompressedValue { length, .. } => Sizes {
            uncompressed: by_length(alloc, length),
            compressed: NO_BITS,
        },
        Library::CompressedValue { length, .. } => Sizes {
            uncompressed: NO_BITS,
            compressed: by_length(alloc, length),
        },
        Library::Irregular { length } => {
            let bounds = by_length(alloc, length);
            Sizes {
                uncompressed: bounds,
                compressed: bounds,
            }
        }
        Library::Static => Sizes {
            uncompressed: up_to_widest(),
            compressed: NO_BITS,
        },
        Library::Lsb { bits, .. } => Sizes {
            uncompressed: up_to_widest(),
            compressed: by_length(alloc, bits),
        },
        Library::Crc(arguments) => Sizes {
            uncompressed: NO_BITS,
            compressed: by_length(alloc, &arguments.get().bits),
        },
    }
}

fn whole_at(methods: &[MethodSizes], method: usize) -> Sizes
    ensures { result ≡ spec.whole_at methods.now method }
{
    match methods.get(method) {
        Some(sizes) => sizes.whole,
        None => Sizes {
            uncompressed: NO_BITS,
            compressed: NO_BITS,
        },
    }
}

fn encoding_sizes(alloc: Global, methods: &[MethodSizes], encoding: &Encoding) -> Sizes
    ensures { result ≡ spec.encoding_sizes methods.now encoding.now }
{
    match encoding {
        Encoding::Bare => Sizes {
            uncompressed: up_to_widest(),
            compressed: NO_BITS,
        },
        Encoding::Library(library) => library_sizes(alloc, library),
        Encoding::Call { method, .. } => whole_at(methods, *method),
    }
}

fn lists(listing: &[usize], field: usize) -> bool
    ensures { result ≡ spec.lists listing.now field }
{
    listing.iter().any(|listed| *listed == field)
}

fn where_listed(listed: bool, sizes: Sizes) -> Sizes
    ensures { result ≡ spec.where_listed listed sizes }
{
    Sizes {
        uncompressed: sizes.uncompressed,
        compressed: if listed { sizes.compressed } else { NO_BITS },
    }
}

fn encoded_sizes(
    alloc: Global,
    methods: &[MethodSizes],
    format: &Format,
    index: usize,
    field: &Field,
) -> Sizes
    ensures { result ≡ spec.encoded_sizes methods.now format.now index field.now }
{
    let listed = lists(format.listing.get().as_slice(), index);
    where_listed(listed, encoding_sizes(alloc, methods, field.encoding.get()))
}

fn enclosing(found: Option<Bounds>, number: u128) -> Bounds
    ensures { result ≡ spec.enclosing found number }
{
    match found {
        None => Bounds {
            least: number,
            most: number,
        },
        Some(bounds) => Bounds {
            least: bounds.least.min(number),
            most: bounds.most.max(number),
        },
    }
}

fn bracket_bounds(alloc: Global, lengths: &[Expr]) -> Option<Bounds>
    ensures { result ≡ spec.bracket_bounds lengths.now }
{
    let mut found = None;
    for length in lengths {
        let value = constant_of(alloc, length)?;
        found = Some(enclosing(found, counted(value)));
    }
    found
}

fn meet(bounds: Bounds, other: Bounds) -> Bounds
    ensures { result ≡ spec.meet bounds other }
{
    Bounds {
        least: bounds.least.max(other.least),
        most: bounds.most.min(other.most),
    }
}

fn narrowed_by(bracket: Option<Bounds>, side: Side, sizes: Sizes) -> Sizes
    ensures { result ≡ spec.narrowed_by bracket side sizes }
{
    let Some(bounds) = bracket else {
        return sizes;
    };
    match side {
        Side::Uncompressed => Sizes {
            uncompressed: meet(sizes.uncompressed, bounds),
            compressed: sizes.compressed,
        },
        Side::Compressed => Sizes {
            uncompressed: sizes.uncompressed,
            compressed: meet(sizes.compressed, bounds),
        },
    }
}

fn narrow(alloc: Global, sizes: &mut Items<Sizes>, constraint: &Constraint)
    ensures { sizes.new ≡ narrow sizes.old constraint.now }
{
    if let Constraint::Bracket {
        field,
        side,
        lengths,
        ..
    } = constraint
    {
        let bracket = bracket_bounds(alloc, lengths.as_slice());
        if let Some(old) = sizes.get(*field) {
            let new = narrowed_by(bracket, *side, *old);
            sizes.set(*field, new);
        }
    }
}

fn encoded_fields(
    alloc: Global,
    methods: &[MethodSizes],
    format: &Format,
) -> Result<Items<Sizes>, AllocError>
    ensures { IfOk result (λ t. t ≡ indexed (spec.encoded_sizes methods.now format.now) 0 format.now.fields) }
{
    let mut sizes = Vec::with_capacity(alloc, format.fields.len())?;
    for field in format.fields.as_slice() {
        let index = sizes.len();
        sizes.push(encoded_sizes(alloc, methods, format, index, field))?;
    }
    Ok(Items::from_vec(sizes))
}

/// The bounds of the fields of a format, from those of the methods. It passes once over the constraints.
pub(crate) fn fields_sizes(
    alloc: Global,
    methods: &[MethodSizes],
    format: &Format,
) -> Result<Items<Sizes>, AllocError>
    ensures { IfOk result (λ t. t ≡ indexed (spec.field_sizes methods.now format.now) 0 format.now.fields) }
{
    let mut sizes = encoded_fields(alloc, methods, format)?;
    for constraint in format.constraints.as_slice() {
        narrow(alloc, &mut sizes, constraint.get());
    }
    Ok(sizes)
}
