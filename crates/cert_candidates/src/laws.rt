//! Laws of the order and of the numbers of fillings, and of a search through them.

ghost use Rattle.cert_candidates.specs.Example as example;
ghost use Rattle.cert_candidates.specs.Laws as laws;

/// The code and the number of a filling, level by level.
pub fn by_levels()
    ensures code { laws.CodeByLevel }
    ensures number { laws.NumberByLevel }
{}

/// The numbers, and the code and the number of a filling, of a small example.
pub fn an_example()
    ensures { example.ExampleIsNumbered }
{}

/// At most one filling is the best for an item.
pub fn best_is_one()
    ensures { laws.BestIsOne }
{}

/// What fits is a candidate, where the certificate is valid.
pub fn fitting_are_candidates()
    ensures { laws.FittingAreCandidates }
{}

/// The number of a candidate is below the method's count.
pub fn number_below()
    ensures { laws.NumberBelow }
{}

/// The order by numbers is the order by codes.
pub fn same_order()
    ensures { laws.SameOrder }
{}

/// The filling with the first number that fits is the best.
pub fn first_is_best()
    ensures { laws.FirstIsBest }
{}

/// The digits of a number, read one by one.
pub fn digits()
    ensures begun { laws.DigitsBegun }
    ensures start { laws.DigitsStart }
    ensures known { laws.DigitsKnown }
    ensures onward { laws.DigitsOnward }
    ensures back { laws.DigitsBack }
    ensures end { laws.DigitsEnd }
    ensures skip { laws.DigitsSkip }
    ensures shared { laws.DigitsShared }
    ensures choice { laws.DigitOfChoice }
    ensures call { laws.DigitOfCall }
{}

/// The numbers of candidates that are kept with an accepted profile are the true ones, of methods and of formats.
pub fn kept_counts()
    ensures counts { laws.KeptAreCounts }
    ensures formats { laws.SpansAreKept }
    ensures sums { laws.SpansAddUp }
{}

/// How a number is read by a write plan, from its format to its last digit.
pub fn reading()
    ensures starts { laws.ReadingStarts }
    ensures passes { laws.ReadingPasses }
    ensures parts { laws.ReadingParts }
    ensures choice { laws.WaysOfChoice }
    ensures call { laws.WaysOfCall }
    ensures reaches { laws.ReadingReaches }
    ensures ends { laws.ReadingEnds }
{}

/// A search through the numbers: what is passed, and what ends it, a filling that is the best, or the last number.
pub fn packing()
    ensures starts { laws.PackStarts }
    ensures passes { laws.PackPasses }
    ensures found { laws.PackFound }
    ensures none { laws.PackNone }
{}
