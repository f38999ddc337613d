//! Laws of counts.

ghost use Rattle.cert_rules.specs.Capped as capped;

/// Counts up to the cap tell whether the true ones are above the limit of candidates; there is one for each method.
pub fn capped_counts()
    ensures tells { capped.CappedTells }
    ensures each { capped.EachIsCounted }
{}
