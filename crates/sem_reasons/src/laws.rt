//! Laws of reasons, each as a function with no body that a proof may cite by a call.
ghost use Rattle.sem_reasons.specs.Laws.{ReasonsAreTrue};

/// What stands against a format is true: no filling of it is asked for.
pub fn reasons_are_true()
    ensures { ReasonsAreTrue }
{}
