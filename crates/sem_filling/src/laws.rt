//! Laws of the relation.

ghost use Rattle.sem_filling.specs.Bounded as bounded;
ghost use Rattle.sem_filling.specs.Laws as laws;

/// In every fitting filling each length lies between the least and the greatest of its field, and those of the whole in its format's and its method's.
pub fn lengths_lie_in_bounds()
    ensures { bounded.LengthsLieInBounds }
{}

/// The arguments of all fillings in a fitting one lie in the ranges of the parameters, where its own do.
pub fn arguments_lie_in_ranges()
    ensures { bounded.ArgumentsLieInRanges }
{}

/// Two fillings that fit one method are one where they have one format, the same sides, and the same filling inside each field.
pub fn determined_by_level()
    ensures { laws.DeterminedByLevel }
{}

/// Two fillings that fit one method are one where they have the same sides at all levels.
pub fn determined_by_sides()
    ensures { laws.DeterminedBySides }
{}

/// The reference of a header or control field is the context's entry, else the initial value; a local field has none.
pub fn a_reference()
    ensures { laws.AReference }
{}

/// Bits that begin with a filling's packed bits fall apart, at each listed field, into the sides before it, its own, those after it, and the rest.
pub fn front_splits()
    ensures { laws.FrontSplits }
{}

/// Bits that begin with a filling's header fall apart, at each header field, into the sides before it, its own, those after it, and the rest.
pub fn header_splits()
    ensures { laws.HeaderSplits }
{}

/// A header has at most 4,096 bits, and packed bits at most 2^18.
pub fn sides_are_short()
    ensures { bounded.SidesAreShort }
{}

/// Packed bits followed by any others are read as the filling that they were packed from, where the method is determinate.
pub fn read_back()
    ensures { laws.ReadsBack }
{}
