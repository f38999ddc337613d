//! Laws of the steps of a walk that writes.

ghost use Rattle.cert_candidates.specs.Knowing as knowing;
ghost use Rattle.cert_candidates.specs.WritingLaws as laws;

/// What is known at the start is what the rules take as known; what an enabled step needs is known, and slots that grow know what they knew. A step
/// that both directions have needs and gives the same in both.
pub fn knowing()
    ensures start { knowing.StartKnown }
    ensures needs { knowing.NeedsKnown }
    ensures grown { knowing.GrownKnow }
    ensures common { knowing.CommonKnown }
{}

/// Where a walk stands: what fits the top and has the item begins its header, and what a walk may still write is ahead for the steps of both directions.
pub fn standing()
    ensures top { laws.TopBegins }
    ensures ahead { laws.BeginsAhead }
{}

/// What each step finds of a filling that begins the source.
pub fn steps()
    ensures take { laws.TakeLaw }
    ensures call { laws.CallLaw }
    ensures ask { laws.AskLaw }
    ensures choose { laws.ChooseLaw }
    ensures filled { laws.FilledLaw }
{}

/// How a walk goes on from step to step.
pub fn going_on()
    ensures starts { laws.WritingStarts }
    ensures passes { laws.WritingPasses }
    ensures chooses { laws.WritingChooses }
    ensures calls { laws.WritingCalls }
{}

/// How many numbers a failed step passes.
pub fn failing()
    ensures step { laws.WritingFails }
    ensures call { laws.CallFails }
{}

/// How a walk ends, and what it tells a search for the best filling.
pub fn ending()
    ensures ends { laws.WritingEnds }
    ensures passes { laws.TopPasses }
    ensures refuses { laws.TopRefuses }
{}

/// At most one filling that begins a site has a given number, where called methods ask nothing.
pub fn one_numbered()
    ensures { laws.OneNumbered }
{}
