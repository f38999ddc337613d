ghost use Rattle.std.specs.Prelude.{◌≡◌, ◌≢◌, ◌↔◌, ℕ, ◌≤◌, ◌<◌, ◌*◌, ◌^◌, ◌∷◌, ◌++◌, List, Bool, length, get_or, IsTrue, Ok, IsErr, IfOk, IfSome, IfNone, decimal, string_bytes};
ghost use Rattle.hex.specs.Hex.{decode_of, encode_lower};
ghost use Rattle.sem_bits.specs.Number.{enc};
ghost use Rattle.sem_bits.specs.Text.{IsText, ReadsAs};

use crate::bits::Bits;
use crate::word::octets_of;
use hex::FromHexError;
use itoa::Buffer;
use std::alloc::{AllocError, Global};

/// The greatest number of bits that a text is read for.
pub const TEXT_LIMIT: usize = 65_536;

/// Room for a count and a colon, and for what a line says after a text.
const MORE_THAN_DIGITS: usize = 24;

impl Bits {
    /// The text of the bits: their count in decimal, a colon, and in lower-case hex the octets that hold them,
    /// as `18:96af00`.
    pub fn print_text(&self, alloc: Global) -> Result<String, AllocError>
        ensures { IfOk result (λ t. IsText (string_bytes t) self.now) }
    {
        if let Some(word) = self.value() {
            return print_word(alloc, self.len(), word);
        }
        let digits = hex::encode(alloc, self.as_octets())?;
        text_of(alloc, self.len(), digits.as_str())
    }

    /// The bits of a text such as `18:96af00`, or `None` where it is no such text: a count up to `TEXT_LIMIT` with no
    /// leading zero or sign, a colon, and as many hex digits of either case as the octets that hold the bits have, the
    /// last octet filled with zero bits.
    pub fn read_text(alloc: Global, text: &str) -> Result<Option<Bits>, AllocError>
        ensures found { IfOk result (λ o. IfSome o (λ b. ReadsAs text.now b × (length b ≤ 65536))) }
        ensures none { IfOk result (λ o. IfNone o ((b : List Bool) → length b ≤ 65536 → ReadsAs text.now b → ⊥)) }
    {
        let Some((front, digits)) = text.split_once(':') else {
            return Ok(None);
        };
        let Some(count) = read_count(front) else {
            return Ok(None);
        };
        if count <= 64 {
            return Ok(read_word(alloc, count, digits));
        }
        let Some(octets) = decoded(alloc, digits)? else {
            return Ok(None);
        };
        Bits::from_octets(alloc, octets.as_slice(), count)
    }
}

/// A count, a colon and digits.
fn text_of(alloc: Global, count: usize, digits: &str) -> Result<String, AllocError>
    ensures { IfOk result (λ t. string_bytes t ≡ decimal count ++ 58 ∷ digits.now) }
{
    let mut buffer = Buffer::new();
    let mut text = String::with_capacity(alloc, digits.len() + MORE_THAN_DIGITS)?;
    text.push_str(buffer.format(count))?;
    text.push(':')?;
    text.push_str(digits)?;
    Ok(text)
}

/// The text of at most 64 bits.
fn print_word(alloc: Global, count: usize, word: u64) -> Result<String, AllocError>
    requires most { count ≤ 64 }
    requires below { word < 2 ^ count }
    ensures { IfOk result (λ t. IsText (string_bytes t) (enc count word)) }
{
    let octets = octets_of(word, count);
    let many = (count + 7) / 8;
    let mut digits = [0u8; 16];
    octets_text(alloc, count, &octets[..many], &mut digits[..2 * many])
}

/// A count, a colon and the hex digits of octets, for which there is room.
fn octets_text(
    alloc: Global,
    count: usize,
    octets: &[u8],
    room: &mut [u8],
) -> Result<String, AllocError>
    requires { length room.old ≡ 2 * length octets.now }
    ensures { IfOk result (λ t. string_bytes t ≡ decimal count ++ 58 ∷ encode_lower octets.now) }
{
    hex::encode_to_slice(octets, room).unwrap();
    text_of(alloc, count, str::from_utf8(room).unwrap())
}

/// At most 64 bits, of the hex digits of their octets.
fn read_word(alloc: Global, count: usize, digits: &str) -> Option<Bits>
    requires { count ≤ 64 }
    ensures found { IfSome result (λ b. (length b ≡ count) × ReadsAs (decimal count ++ 58 ∷ digits.now) b) }
    ensures none { IfNone result ((b : List Bool) → length b ≡ count → ReadsAs (decimal count ++ 58 ∷ digits.now) b → ⊥) }
{
    let many = (count + 7) / 8;
    let mut octets = [0u8; 8];
    if hex::decode_to_slice(digits, &mut octets[..many]).is_err() {
        return None;
    }
    Bits::from_few_octets(alloc, &octets[..many], count)
}

/// The count that the text is, with no leading zero or sign, or `None` where it is none or above `TEXT_LIMIT`.
fn read_count(text: &str) -> Option<usize>
    ensures found { IfSome result (λ n. (n ≤ 65536) × (text.now ≡ decimal n)) }
    ensures none { IfNone result ((n : ℕ) → n ≤ 65536 → text.now ≡ decimal n → ⊥) }
{
    let Ok(count) = text.parse::<usize>() else {
        return None;
    };
    if count > TEXT_LIMIT {
        return None;
    }
    if is_plain(text.as_bytes()) {
        Some(count)
    } else {
        None
    }
}

/// Whether octets begin with no plus, and with no zero where others follow.
fn is_plain(octets: &[u8]) -> bool
    requires { 0 < length octets.now }
    ensures { IsTrue result ↔ ((get_or octets.now 0 0 ≢ 43) × (get_or octets.now 0 0 ≡ 48 → length octets.now ≡ 1)) }
{
    octets[0] != b'+' && (octets[0] != b'0' || octets.len() == 1)
}

/// The octets of hex digits of either case, or `None` where the text is none of an octet each two digits.
fn decoded(alloc: Global, digits: &str) -> Result<Option<Vec<u8>>, AllocError>
    ensures found { IfOk result (λ o. IfSome o (λ v. decode_of digits.now ≡ Ok v.items)) }
    ensures none { IfOk result (λ o. IfNone o (IsErr (decode_of digits.now))) }
{
    match hex::decode(alloc, digits) {
        Ok(octets) => Ok(Some(octets)),
        Err(FromHexError::OutOfMemory) => Err(AllocError),
        Err(_) => Ok(None),
    }
}
