//! Laws of certificates, and of the steps of a walk that reads.

ghost use Rattle.cert_rules.specs.Example as example;
ghost use Rattle.cert_rules.specs.Laws as laws;
ghost use Rattle.cert_rules.specs.Numbers as numbers;
ghost use Rattle.cert_rules.specs.Plans as plans;
ghost use Rattle.cert_rules.specs.Reading as reading;
ghost use Rattle.cert_rules.specs.Refusals as refusals;
ghost use Rattle.cert_rules.specs.Worked as worked;
ghost use Rattle.std.specs.Global.{Global};
ghost use Rattle.std.specs.Prelude.{Box};

/// Where a certificate is valid, each method is determinate under any arguments and at any path.
pub fn determinate()
    ensures { laws.ValidIsDeterminate }
{}

/// The way through a tree leads to the format of each filling ahead; where a bit is past the end, the filling is longer than the bits.
pub fn tree_leads()
    ensures leads { reading.TreeLeads }
    ensures below { reading.CutOffBelow }
{}

/// What is known at the start is so of each filling, and is what the rules take as known.
pub fn start()
    ensures has { reading.StartHas }
    ensures knows { reading.StartKnows }
{}

/// What an enabled step needs is known, and slots that grow know what they knew.
pub fn knowing()
    ensures needs { reading.NeedsKnown }
    ensures grown { reading.GrownKnow }
{}

/// What each step finds of a filling ahead.
pub fn steps()
    ensures up { reading.UpLaw }
    ensures down { reading.DownLaw }
    ensures length { reading.LengthLaw }
    ensures constraint { reading.ConstraintLaw }
    ensures solve { reading.SolveLaw }
    ensures remainder { reading.RemainderLaw }
    ensures take { reading.TakeLaw }
    ensures call { reading.CallLaw }
{}

/// Where the slots know all, the filling that is made of them is the only one ahead.
pub fn only_made()
    ensures { reading.OnlyMade }
{}

/// What slots know, as expressions take it; within the fields' bounds the values that a format asks for are narrow, and no field ends past the greatest length of the format.
pub fn known_numbers()
    ensures values { numbers.ValuesKnown }
    ensures narrow { numbers.WithinIsNarrow }
    ensures ends { numbers.EndsWithin }
    ensures lie { numbers.SlotsLie }
    ensures given { numbers.GivenIsSound }
{}

/// The certificate of a small profile is valid: so there are valid certificates.
pub fn an_example()
    ensures { example.PlainIsValid }
{}

/// Of version two, a tree that a reference parts is right, and so are plans with an equation of a remainder, by a divisor that is large enough alone.
pub fn worked()
    ensures mode { worked.ModeIsRight }
    ensures turn { (b : Box (Unit {0}) Global) → worked.TurnIsRight b }
{}

/// Where the methods stand in an order, callees first, a certificate has one list of counts of candidates.
pub fn one_count()
    ensures { laws.OneCount }
{}

/// What a certificate of either version has, one of the second version has: its rules, and so its plans.
pub fn versions()
    ensures rules { plans.RulesGoOn }
    ensures plans { plans.PlansGoOn }
{}

/// A fault of a certificate is there only where it is not valid.
pub fn faults_exclude()
    ensures { refusals.FaultsExclude }
{}
