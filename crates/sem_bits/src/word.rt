//! At most 64 bits as the number that they spell, first bit highest.
ghost use Rattle.std.specs.Prelude.{◌≡◌, ◌+◌, ◌*◌, ◌-◌, ◌/◌, ◌%◌, ◌^◌, ◌<◌, ◌≤◌, ◌++◌, false, length, take, drop, replicate};
ghost use Rattle.sem_bits.specs.Octets.{bits_of, Holds};
ghost use Rattle.sem_bits.specs.Number.{num, enc};

/// The number of bits and of others after them.
pub(crate) fn beside(first: u64, second: u64, count: usize) -> u64
    requires most { count ≤ 64 }
    requires room { first * 2 ^ count + second < 2 ^ 64 }
    ensures { result ≡ first * 2 ^ count + second }
{
    if count == 64 {
        second
    } else {
        (first << count) + second
    }
}

/// The number of so many bits, after which so many others stand.
pub(crate) fn part(word: u64, count: usize, after: usize) -> u64
    requires { count + after ≤ 64 }
    ensures { result ≡ word / 2 ^ after % 2 ^ count }
{
    if count == 0 {
        return 0;
    }
    (word >> after) & (u64::MAX >> (64 - count))
}

/// The octet of the eight bits from eight times a place on, filled with zero bits.
#[tactic(auto, using(crate::proofs::Words::octet))]
pub(crate) fn octet_of(word: u64, count: usize, place: usize) -> u8
    requires most { count ≤ 64 }
    requires some { 8 * place < count }
    ensures { result ≡ num (take 8 (drop (8 * place) (enc count word ++ replicate 8 false))) }
{
    let after = count - 8 * place;
    if after < 8 {
        ((word << (8 - after)) % 256) as u8
    } else {
        ((word >> (after - 8)) % 256) as u8
    }
}

/// The octets of the bits, with zero bits after them.
pub fn octets_of(word: u64, count: usize) -> [u8; 8]
    requires most { count ≤ 64 }
    requires below { word < 2 ^ count }
    ensures { Holds (take ((count + 7) / 8) result) (enc count word) }
{
    at_front(word, count).to_be_bytes()
}

/// The number of the bits and of zero bits after them, 64 in all.
fn at_front(word: u64, count: usize) -> u64
    requires most { count ≤ 64 }
    requires below { word < 2 ^ count }
    ensures { result ≡ word * 2 ^ (64 - count) }
{
    if count == 0 { 0 } else { word << (64 - count) }
}

/// The number of the last so many bits.
pub(crate) fn low_bits(word: u64, count: usize) -> u64
    requires { count ≤ 64 }
    ensures { result ≡ word % 2 ^ count }
{
    if count == 64 {
        word
    } else {
        word & ((1 << count) - 1)
    }
}

/// The number that up to eight octets spell, first octet highest.
#[tactic(auto, using(crate::proofs::NumberWindows::numbering))]
pub(crate) fn word_of(octets: &[u8]) -> u64
    requires { length octets.now ≤ 8 }
    ensures { result ≡ num (bits_of octets.now) }
{
    let mut word: u64 = 0;
    for octet in octets {
        word = word * 256 + u64::from(*octet);
    }
    word
}
