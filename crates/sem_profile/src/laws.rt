//! What holds of profiles with bounds.

ghost use Rattle.sem_profile.specs.Calling as calling;
ghost use Rattle.sem_profile.specs.HasBounds as rules;
ghost use Rattle.sem_profile.specs.BoundsLaws as laws;

/// Where a format has no fault, each of its expressions has a range and asks for no value of more than 64 bits.
pub fn faultless_is_sound()
    ensures { laws.FaultlessIsSound }
{}

/// Each bound of a field is one that a rule gives; those of a format are sums over its fields.
pub fn bounds_by_rules()
    ensures { rules.BoundsByRules }
{}

/// The values of the arguments of each call lie in the ranges of the parameters of the called method.
pub fn arguments_lie_in_parameters()
    ensures { calling.ArgumentsLieInParameters }
{}
