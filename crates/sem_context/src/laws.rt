//! Laws of contexts and their text, each as a function with no body that a proof may cite by a call.
ghost use Rattle.std.specs.Prelude.{◌≡◌, ℕ, Bool, List, [], ◌∷◌, ◌++◌, None, IsSome, reverse};
ghost use Rattle.std.specs.Map.{keys_of};
ghost use Rattle.std.specs.Option.{option_or};
ghost use Rattle.sem_bits.specs.Lines.{numbered_lines};
ghost use Rattle.sem_context.specs.Entries.{Entries, AreDistinct, bits_at, with_entry, overridden};
ghost use Rattle.sem_context.specs.Text.{IsContextText, IsReading, IsFirstFault, AreReadable};

/// After entries were overridden by others, a path has the bits that the last of the others gives it, or else what it had. A
/// path that was there keeps its place, a new one goes last, and no path stands twice.
pub fn overriding()
    ensures value { (es others : Entries) (path : List ℕ) → bits_at (overridden es others) path ≡ option_or (bits_at (reverse others) path) (bits_at es path) }
    ensures present { (es : Entries) (path : List ℕ) (bits : List Bool) → IsSome (bits_at es path) → keys_of (with_entry es path bits) ≡ keys_of es }
    ensures absent { (es : Entries) (path : List ℕ) (bits : List Bool) → bits_at es path ≡ None → with_entry es path bits ≡ es ++ (path, bits) ∷ [] }
    ensures distinct { (es others : Entries) → AreDistinct es → AreDistinct (overridden es others) }
{}

/// The printed text of entries is read as these entries, as no others, and with no line at fault, where each path is names
/// joined by dots, no path stands twice, and no entry has more than 65,536 bits.
pub fn text_reads_back()
    ensures reads { (text : List ℕ) (es : Entries) → IsContextText es text → AreReadable es → AreDistinct es → IsReading (numbered_lines text) es }
    ensures only { (text : List ℕ) (es others : Entries) → IsContextText es text → AreReadable es → AreDistinct es → IsReading (numbered_lines text) others → others ≡ es }
    ensures no_fault { (text : List ℕ) (es : Entries) (number : ℕ) → IsContextText es text → AreReadable es → AreDistinct es → IsFirstFault (numbered_lines text) number → ⊥ }
{}

/// Lines have one reading, or one of them is at fault, and not both.
pub fn one_reading()
    ensures only { (lines : List (ℕ × List ℕ)) (es others : Entries) → IsReading lines es → IsReading lines others → es ≡ others }
    ensures no_fault { (lines : List (ℕ × List ℕ)) (number : ℕ) (es : Entries) → IsReading lines es → IsFirstFault lines number → ⊥ }
{}
