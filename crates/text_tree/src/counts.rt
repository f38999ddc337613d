//! What stands before a section of a method, or before a part of a profile.

ghost use Rattle.std.specs.Prelude.{◌≡◌};
ghost use Rattle.text_tree.specs.Counts as spec;

use crate::tree::{Part, SectionKind};
use text_source::Mark;

/// The sections of a method so far, and how many more formats may come.
#[derive(Clone, Copy)]
pub struct SectionsSoFar {
    pub control: bool,
    pub initial: bool,
    pub default: bool,
    pub formats_left: usize,
}

/// How many more parts may come.
#[derive(Clone, Copy)]
pub struct Tally {
    pub constants_left: usize,
    pub methods_left: usize,
}

/// Whether the word begins a section that may stand only once, and is there.
pub(crate) fn is_repeated(word: Mark, seen: SectionsSoFar) -> bool
    ensures { result ≡ spec.is_repeated word seen }
{
    match word {
        Mark::Control => seen.control,
        Mark::Initial => seen.initial,
        Mark::Default => seen.default,
        _ => false,
    }
}

/// With one more section.
pub(crate) fn with_section(kind: SectionKind, seen: SectionsSoFar) -> SectionsSoFar
    ensures { result ≡ spec.with_section kind seen }
{
    match kind {
        SectionKind::Uncompressed => seen,
        SectionKind::Control => SectionsSoFar {
            control: true,
            ..seen
        },
        SectionKind::Initial => SectionsSoFar {
            initial: true,
            ..seen
        },
        SectionKind::Default => SectionsSoFar {
            default: true,
            ..seen
        },
        SectionKind::Compressed(_) => SectionsSoFar {
            formats_left: seen.formats_left.saturating_sub(1),
            ..seen
        },
    }
}

/// With one more part.
pub(crate) fn with_part(part: &Part, tally: Tally) -> Tally
    ensures { result ≡ spec.with_part part.now tally }
{
    match part {
        Part::Constant(_) => Tally {
            constants_left: tally.constants_left.saturating_sub(1),
            ..tally
        },
        Part::Method(_) => Tally {
            methods_left: tally.methods_left.saturating_sub(1),
            ..tally
        },
    }
}
