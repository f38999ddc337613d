//! What a level of a filling makes known to its expressions.

ghost use Rattle.std.specs.Prelude.{◌≡◌, IfSome, IfNone};
ghost use Rattle.sem_filling.specs.Fillings.{header, packed};
ghost use Rattle.std.specs.Option.{option_copied};
ghost use Rattle.sem_filling.specs.Fits.{format_at};
ghost use Rattle.sem_filling.specs.Bounded.{sizes_at};
ghost use Rattle.sem_filling.specs.Ready as ready;

use crate::numbers::FillingNumbers;
use crate::shape::{is_bounded, is_shaped};
use sem_bits::Bits;
use sem_filling::Filling;
use sem_profile::{Format, FormatSizes, Profile};

/// A level of a filling: its format, the two sides of the whole, and the numbers that its expressions may ask for.
#[derive(Drop)]
pub struct Level<'a> {
    pub format: &'a Format,
    pub filling: &'a Filling,
    pub header: &'a Bits,
    pub packed: &'a Bits,
    pub known: FillingNumbers<'a>,
}

/// The format of a filling, with its bounds.
#[derive(Drop)]
struct FormatPlace<'a> {
    format: &'a Format,
    sizes: &'a FormatSizes,
}

/// The level of a filling of the method, where its header and its packed bits are these. None where no filling that fits is
/// like it.
#[inline(always)]
pub fn level_of<'a>(
    profile: &'a Profile,
    method: usize,
    arguments: &'a [i128],
    filling: &'a Filling,
    header_bits: &'a Bits,
    packed_bits: &'a Bits,
) -> Option<Level<'a>>
    requires header { header_bits.now ≡ header filling.now }
    requires packed { packed_bits.now ≡ packed filling.now }
    ensures shown { IfSome result (λ l. (l.filling.now ≡ filling.now) × ready.IsShown l.format.now filling.now l.header.now l.packed.now) }
    ensures found { IfSome result (λ l. ready.HasLevel profile.now method arguments.now filling.now l.format.now l.known) }
    ensures none { IfNone result (ready.NeverFits profile.now.methods method arguments.now filling.now) }
{
    profile.keeps();
    let place = place_of(profile, method, filling)?;
    if !is_bounded(place.sizes, filling, header_bits, packed_bits) {
        return None;
    }
    let known = FillingNumbers::of(filling, header_bits, packed_bits, arguments);
    Some(Level {
        format: place.format,
        filling,
        header: header_bits,
        packed: packed_bits,
        known,
    })
}

/// The format of a filling of the method, if it has the fields and the listing of one.
#[inline(always)]
fn place_of<'a>(profile: &'a Profile, method: usize, filling: &Filling) -> Option<FormatPlace<'a>>
    ensures found { IfSome result (λ p. ready.IsPlace profile.now method filling.now p.format.now p.sizes.now) }
    ensures none { IfNone result (ready.NeverPlaced profile.now.methods method filling.now) }
{
    profile.keeps();
    let format = format_of(profile, method, filling.format)?;
    if !is_shaped(format, filling) {
        return None;
    }
    let sizes = sizes_of(profile, method, filling.format)?;
    Some(FormatPlace { format, sizes })
}

#[inline(always)]
fn format_of(profile: &Profile, method: usize, index: usize) -> Option<&Format>
    ensures { option_copied result ≡ format_at profile.now.methods method index }
{
    profile.methods().get(method)?.formats.get(index)
}

#[inline(always)]
fn sizes_of(profile: &Profile, method: usize, index: usize) -> Option<&FormatSizes>
    ensures { option_copied result ≡ sizes_at profile.now.sizes method index }
{
    profile.sizes().get(method)?.formats.get(index)
}
