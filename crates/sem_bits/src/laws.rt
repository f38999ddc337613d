//! Laws of the definitions, each as a function with no body that a proof may cite by a call.
ghost use Rattle.std.specs.Prelude.{◌≡◌, ℕ, ◌+◌, ◌*◌, ◌^◌, ◌<◌, Bool, List, [], ◌∷◌, ◌++◌, length};
ghost use Rattle.sem_bits.specs.Number.{num, enc, bit};
ghost use Rattle.sem_bits.specs.Octets.{Holds};
ghost use Rattle.sem_bits.specs.Text.{IsText, ReadsAs};

/// The number after one more bit is twice the number before, and the bit.
pub fn number_of_one_more()
    ensures empty { num [] ≡ 0 }
    ensures push { (bs : List Bool) (b : Bool) → num (bs ++ b ∷ []) ≡ 2 * num bs + bit b }
{}

/// A number below two to the power of a count is spelled by one list of that count, and by no other.
pub fn one_spelling()
    ensures length { (n v : ℕ) → length (enc n v) ≡ n }
    ensures value { (n v : ℕ) → v < 2 ^ n → num (enc n v) ≡ v }
    ensures only { (bs : List Bool) → enc (length bs) (num bs) ≡ bs }
    ensures below { (bs : List Bool) → num bs < 2 ^ length bs }
{}

/// Octets hold one list of bits of each count, and bits are held by one list of octets.
pub fn octets_hold_one()
    ensures bits { (o : List ℕ) (a b : List Bool) → Holds o a → Holds o b → length a ≡ length b → a ≡ b }
    ensures octets { (o p : List ℕ) (b : List Bool) → Holds o b → Holds p b → o ≡ p }
{}

/// The printed text of bits is read as these bits.
pub fn text_reads_back()
    ensures { (text : List ℕ) (b : List Bool) → IsText text b → ReadsAs text b }
{}

/// A text is read as one list of bits.
pub fn one_reading()
    ensures { (text : List ℕ) (a b : List Bool) → length a < 2 ^ 31 → length b < 2 ^ 31 → ReadsAs text a → ReadsAs text b → a ≡ b }
{}

/// Bits are printed as one text.
pub fn one_text()
    ensures { (s t : List ℕ) (b : List Bool) → IsText s b → IsText t b → s ≡ t }
{}
