//! The test that the prover's order has for a set of formats.

ghost use Rattle.std.specs.Prelude.{◌≡◌, ℕ, ◌<◌, min, List, true, false, Some, slice_get, MatchOption, MatchResult};
ghost use Rattle.std.specs.List.{find, flat_map, list_any};
ghost use Rattle.sem_profile.specs.declared.profile.Format.{Format};
ghost use Rattle.cert_types.specs.Kept.{offset_limit};
ghost use Rattle.cert_rules.specs.Trees.{Reach};
ghost use Rattle.cert_prove.specs.Tree as parting;
ghost use Rattle.cert_prove.specs.Tree.{all_of};
ghost use Rattle.cert_prove.specs.Growing.{those};
ghost use Rattle.cert_prove.specs.Known as spec;
ghost use Rattle.cert_prove.specs.Tried.{AreTried};

use crate::sets::{bit_parts, least, loses};
use crate::tree::Unparted;
use crate::tried::{NONE, is_tried, keep};
use cert_trees::{Equation, Signature, Test, is_in_range, is_word};
use cert_types::{Node, OFFSET_LIMIT, Version};
use sem_expr::Interval;
use sem_profile::{FormatSizes, MethodSizes};
use sqlite_items::at;

/// What is known of the formats of a method: the bounds, the signature of each, and the offsets past the limit at which one of them knows a bit.
#[derive(Clone, Copy)]
pub(crate) struct Known<'a> {
    pub sizes: &'a MethodSizes,
    pub tolds: &'a [Signature],
    pub far: &'a [u128],
}

/// The node of a set of formats: none for the empty one, a leaf for one format, else a test.
pub(crate) fn node_of(version: Version, known: &Known<'_>, set: &[usize]) -> Result<Node, Unparted>
    ensures { (formats : List Format) (reach : Reach) → spec.AreKnown formats known.now.sizes.now known.now.tolds.now known.now.far.now → spec.AreOf formats known.now.sizes.now reach set.now →
        MatchResult result (spec.IsNext version known.now.sizes.now.parameters (those reach (all_of formats known.now.sizes.now))) (spec.HasNoNode version known.now.sizes.now.parameters (those reach (all_of formats known.now.sizes.now))) }
{
    let Some(first) = at(set, 0) else {
        return Ok(Node::Nowhere);
    };
    let Some(second) = at(set, 1) else {
        return Ok(Node::Leaf(*first));
    };
    test_of(version, known, set, *first, *second)
}

/// The test of a set, whose first two formats these are.
fn test_of(
    version: Version,
    known: &Known<'_>,
    set: &[usize],
    first: usize,
    second: usize,
) -> Result<Node, Unparted>
    ensures { (formats : List Format) (reach : Reach) → spec.AreKnown formats known.now.sizes.now known.now.tolds.now known.now.far.now → spec.AreOf formats known.now.sizes.now reach set.now → slice_get set.now 0 ≡ Some first → slice_get set.now 1 ≡ Some second →
        MatchResult result (spec.IsNext version known.now.sizes.now.parameters (those reach (all_of formats known.now.sizes.now))) (spec.HasNoNode version known.now.sizes.now.parameters (those reach (all_of formats known.now.sizes.now))) }
{
    let Known { sizes, tolds, far } = *known;
    let bounds = sizes.formats.as_slice();
    let shortest = least(bounds, first);
    if let Some(offset) = near_offset(tolds, bounds, set, tried(shortest)) {
        return Ok(Node::Bit(offset));
    }
    if far_bit_parts(tolds, bounds, set, far) {
        return Err(Unparted::Limit);
    }
    if let Some(equation) = first_equation(tolds, sizes.parameters.as_slice(), set) {
        return Ok(Node::Parameter(equation.tested, equation.constant));
    }
    match first_reference(version, tolds, set) {
        Some(equation) => Ok(Node::Reference(equation.tested, equation.constant)),
        None => Err(Unparted::Stuck { first, second }),
    }
}

// ---- bits

/// How many offsets are below the length and below the limit.
fn tried(length: u128) -> usize
    ensures { result ≡ min length offset_limit }
{
    if length < OFFSET_LIMIT as u128 {
        length as usize
    } else {
        OFFSET_LIMIT
    }
}

/// The least offset, of so many, at which a test of the bit parts the set.
fn near_offset(
    tolds: &[Signature],
    sizes: &[FormatSizes],
    set: &[usize],
    count: usize,
) -> Option<usize>
    ensures { MatchOption result ((o : ℕ) → o < count → spec.bit_parts tolds.now sizes.now set.now o ≡ false)
        (λ o. (o < count) × (spec.bit_parts tolds.now sizes.now set.now o ≡ true) × ((q : ℕ) → q < o → spec.bit_parts tolds.now sizes.now set.now q ≡ false)) }
{
    for offset in 0..count {
        if bit_parts(tolds, sizes, set, offset as u128) {
            return Some(offset);
        }
    }
    None
}

/// Whether a test of the bit at one of these offsets parts the set.
fn far_bit_parts(tolds: &[Signature], sizes: &[FormatSizes], set: &[usize], far: &[u128]) -> bool
    ensures { result ≡ list_any (spec.bit_parts tolds.now sizes.now set.now) far.now }
{
    for offset in far {
        if bit_parts(tolds, sizes, set, *offset) {
            return true;
        }
    }
    false
}

// ---- parameters

/// The first equation of the formats of the set that parts it.
fn first_equation(tolds: &[Signature], ranges: &[Interval], set: &[usize]) -> Option<Equation>
    ensures { result ≡ find (spec.equation_parts tolds.now ranges.now set.now) (flat_map (λ n. spec.told_equations (slice_get tolds.now n)) set.now) }
{
    let mut tried = NONE;
    for format in set {
        if let Some(equation) = equation_of(tolds, ranges, set, *format, &mut tried) {
            return Some(equation);
        }
    }
    None
}

/// The first equation of the format that parts the set.
fn equation_of(
    tolds: &[Signature],
    ranges: &[Interval],
    set: &[usize],
    format: usize,
    tried: &mut [Option<Equation>],
) -> Option<Equation>
    ensures first { AreTried (spec.equation_parts tolds.now ranges.now set.now) tried.old → result ≡ find (spec.equation_parts tolds.now ranges.now set.now) (spec.told_equations (slice_get tolds.now format)) }
    ensures tried { AreTried (spec.equation_parts tolds.now ranges.now set.now) tried.old → AreTried (spec.equation_parts tolds.now ranges.now set.now) tried.new }
{
    let told = at(tolds, format)?;
    for equation in told.equations.as_slice() {
        if parts_anew(tolds, ranges, set, tried, *equation) {
            return Some(*equation);
        }
    }
    None
}

/// Whether a test of the equation parts the set. One that was tried on it isn't tried again.
fn parts_anew(
    tolds: &[Signature],
    ranges: &[Interval],
    set: &[usize],
    tried: &mut [Option<Equation>],
    equation: Equation,
) -> bool
    ensures parts { AreTried (spec.equation_parts tolds.now ranges.now set.now) tried.old → result ≡ spec.equation_parts tolds.now ranges.now set.now equation }
    ensures tried { AreTried (spec.equation_parts tolds.now ranges.now set.now) tried.old → AreTried (spec.equation_parts tolds.now ranges.now set.now) tried.new }
{
    if is_tried(tried, equation) {
        return false;
    }
    if equation_parts(tolds, ranges, set, equation) {
        return true;
    }
    keep(tried, equation);
    false
}

/// Whether a test of the equation's parameter and constant parts the set.
fn equation_parts(
    tolds: &[Signature],
    ranges: &[Interval],
    set: &[usize],
    equation: Equation,
) -> bool
    ensures { result ≡ spec.equation_parts tolds.now ranges.now set.now equation }
{
    equation.equal
        && is_in_range(ranges, equation.tested, equation.constant)
        && loses(tolds, set, Test::MayBe(equation.tested, equation.constant))
}

// ---- references

/// The first equation of a static field among the formats of the set that parts it, in certificates of version two.
fn first_reference(version: Version, tolds: &[Signature], set: &[usize]) -> Option<Equation>
    ensures { result ≡ find (spec.reference_parts tolds.now set.now) (spec.references_by version tolds.now set.now) }
{
    match version {
        Version::One => None,
        Version::Two => first_told(tolds, set),
    }
}

fn first_told(tolds: &[Signature], set: &[usize]) -> Option<Equation>
    ensures { result ≡ find (spec.reference_parts tolds.now set.now) (flat_map (λ n. spec.told_references (slice_get tolds.now n)) set.now) }
{
    let mut tried = NONE;
    for format in set {
        if let Some(equation) = reference_of(tolds, set, *format, &mut tried) {
            return Some(equation);
        }
    }
    None
}

/// The first such equation of the format.
fn reference_of(
    tolds: &[Signature],
    set: &[usize],
    format: usize,
    tried: &mut [Option<Equation>],
) -> Option<Equation>
    ensures first { AreTried (spec.reference_parts tolds.now set.now) tried.old → result ≡ find (spec.reference_parts tolds.now set.now) (spec.told_references (slice_get tolds.now format)) }
    ensures tried { AreTried (spec.reference_parts tolds.now set.now) tried.old → AreTried (spec.reference_parts tolds.now set.now) tried.new }
{
    let told = at(tolds, format)?;
    for equation in told.references.as_slice() {
        if reference_parts_anew(tolds, set, tried, *equation) {
            return Some(*equation);
        }
    }
    None
}

/// Whether a test of the equation of a field parts the set. One that was tried on it isn't tried again.
fn reference_parts_anew(
    tolds: &[Signature],
    set: &[usize],
    tried: &mut [Option<Equation>],
    equation: Equation,
) -> bool
    ensures parts { AreTried (spec.reference_parts tolds.now set.now) tried.old → result ≡ spec.reference_parts tolds.now set.now equation }
    ensures tried { AreTried (spec.reference_parts tolds.now set.now) tried.old → AreTried (spec.reference_parts tolds.now set.now) tried.new }
{
    if is_tried(tried, equation) {
        return false;
    }
    if reference_parts(tolds, set, equation) {
        return true;
    }
    keep(tried, equation);
    false
}

/// Whether a test of the equation's field and constant parts the set.
fn reference_parts(tolds: &[Signature], set: &[usize], equation: Equation) -> bool
    ensures { result ≡ spec.reference_parts tolds.now set.now equation }
{
    equation.equal
        && is_short(equation.constant)
        && loses(
            tolds,
            set,
            Test::MayHold(equation.tested, equation.constant),
        )
}

fn is_short(constant: i128) -> bool
    ensures { result ≡ parting.is_word constant }
{
    is_word(constant)
}
