//! Laws of fillings, each as a function with no body that a proof may cite by a call.
ghost use Rattle.sem_filling.specs.FillingLaws.{EntriesByLevels, SameFillings, NextByPaths};

/// The entries of a filling below a path are, field by field, the field's own entry and then those of the filling inside it.
pub fn entries_by_levels()
    ensures { EntriesByLevels }
{}

/// A filling is its format's index, its listing, its fields' sides, and the fillings inside its fields.
pub fn same_fillings()
    ensures { SameFillings }
{}

/// After a filling a path has the bits of the filling's last entry for it, or else those that the context held.
pub fn next_by_paths()
    ensures { NextByPaths }
{}
