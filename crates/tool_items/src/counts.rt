//! What is counted of a filling.

ghost use Rattle.std.specs.Prelude.{◌≡◌, ◌+◌, [], IfOk, length};
ghost use Rattle.sem_filling.specs.Fillings.{packed};
ghost use Rattle.tool_items.specs.Counts as spec;

use sem_filling::Filling;
use std::alloc::AllocError;

/// How many fillings there are, and how many packed bits of theirs.
#[derive(Clone, Copy)]
pub struct Tally {
    pub items: usize,
    pub bits: usize,
}

impl Tally {
    /// That of no fillings.
    pub fn none() -> Tally
        ensures { result ≡ spec.tally [] }
    {
        Tally { items: 0, bits: 0 }
    }

    /// The same with a filling more. The error comes where a number is above 64 bits; for that there would have to be more bits than a memory holds.
    pub fn with(self, filling: &Filling) -> Result<Tally, AllocError>
        ensures { IfOk result (λ more. more ≡ spec.one_more filling.now self) }
    {
        let items = added(self.items, 1)?;
        let bits = added(self.bits, packed_length(filling)?)?;
        Ok(Tally { items, bits })
    }
}

/// How many packed bits there are.
#[tactic(auto, using(crate::proofs::CountsAdding::bits_more))]
fn packed_length(filling: &Filling) -> Result<usize, AllocError>
    ensures { IfOk result (λ bits. bits ≡ length (packed filling.now)) }
{
    let mut bits: usize = 0;
    for place in filling.listing.get().as_slice() {
        bits = added(bits, side_length(filling, *place))?;
    }
    Ok(bits)
}

/// How many bits the compressed side of a field has, by its index; 0 past the fields.
fn side_length(filling: &Filling, place: usize) -> usize
    ensures { result ≡ spec.side_length filling.now place }
{
    match filling.fields.get(place) {
        Some(field) => field.compressed.len(),
        None => 0,
    }
}

/// The sum of two numbers.
pub(crate) fn added(left: usize, right: usize) -> Result<usize, AllocError>
    ensures { IfOk result (λ sum. sum ≡ left + right) }
{
    match left.checked_add(right) {
        Some(sum) => Ok(sum),
        None => Err(AllocError),
    }
}
