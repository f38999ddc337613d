//! Which of several faults is answered.

ghost use Rattle.std.specs.Prelude.{◌≡◌};
ghost use Rattle.sem_profile.specs.Precedence as spec;

use crate::fault::ProfileFault;

/// The fault that starts first; of equal starts the one whose kind has the least number; of two like these the first.
pub fn earlier(first: Option<ProfileFault>, second: Option<ProfileFault>) -> Option<ProfileFault>
    ensures { result ≡ spec.earlier first second }
{
    let Some(one_fault) = first else {
        return second;
    };
    let Some(other) = second else {
        return first;
    };
    if comes_before(other, one_fault) {
        second
    } else {
        first
    }
}

fn comes_before(fault: ProfileFault, other: ProfileFault) -> bool
    ensures { result ≡ spec.comes_before fault other }
{
    if fault.at.from == other.at.from {
        fault.kind.number() < other.kind.number()
    } else {
        fault.at.from < other.at.from
    }
}
