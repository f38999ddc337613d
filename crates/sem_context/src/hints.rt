//! Where a path may stand: a place for each of many sums of a path's octets. A hint promises nothing: what stands at the place is compared.

use std::alloc::{AllocError, Global};

/// How many sums there are for each entry, at least. With four of them four of the 27 paths of the UDP profile met others at their sums, and were looked for in
/// the ordered map.
const SUMS: usize = 16;

/// An odd number whose bits are well mixed: 2^64 over the golden ratio.
const MIXING: u64 = 0x9e37_79b9_7f4a_7c15;

/// For each sum, which is below their count, the place of the path that was last noted by it.
#[derive(Drop)]
pub(crate) struct Hints {
    alloc: Global,
    places: Vec<u32>,
}

impl Hints {
    /// No hints.
    pub(crate) fn new(alloc: Global) -> Hints {
        Hints {
            alloc,
            places: Vec::new(alloc),
        }
    }

    /// Whether there are sums enough for one entry more than so many.
    pub(crate) fn has_room(&self, entries: usize) -> bool {
        entries < self.places.len() / SUMS
    }

    /// Makes sums for twice so many entries. What was noted is forgotten.
    pub(crate) fn make_room(&mut self, entries: usize) -> Result<(), AllocError> {
        let count = entries.saturating_mul(2 * SUMS);
        self.places = vec![in self.alloc; 0; count]?;
        Ok(())
    }

    /// The place that was noted last for the path's sum, or 0.
    pub(crate) fn get(&self, path: &str) -> usize {
        match self.places.get(self.sum_of(path)) {
            Some(place) => *place as usize,
            None => 0,
        }
    }

    /// Notes the place of a path.
    pub(crate) fn note(&mut self, path: &str, place: usize) {
        let Ok(place) = u32::try_from(place) else {
            return;
        };
        let sum = self.sum_of(path);
        if sum < self.places.len() {
            self.places[sum] = place;
        }
    }

    /// The sum of a path: its octets, eight at a time, mixed into a number below the count of places.
    fn sum_of(&self, path: &str) -> usize {
        let mixed = mixed(path.as_bytes());
        ((mixed as u128 * self.places.len() as u128) >> 64) as usize
    }
}

/// The path's octets, mixed: eight at a time, and the last eight once more where they are no whole eights.
fn mixed(path: &[u8]) -> u64 {
    let mut sum = path.len() as u64;
    let mut rest = path;
    while let Some((eight, more)) = rest.split_first_chunk::<8>() {
        sum = with_word(sum, u64::from_le_bytes(*eight));
        rest = more;
    }
    match path.last_chunk::<8>() {
        Some(last) => with_word(sum, u64::from_le_bytes(*last)),
        None => with_word(sum, few(rest)),
    }
}

fn with_word(sum: u64, word: u64) -> u64 {
    (sum.rotate_left(23) ^ word).wrapping_mul(MIXING)
}

/// Fewer than eight octets as one word: of more than three of them the first four and the last four.
fn few(octets: &[u8]) -> u64 {
    if let (Some(first), Some(last)) = (octets.first_chunk::<4>(), octets.last_chunk::<4>()) {
        return (u32::from_le_bytes(*first) as u64) << 32 | u32::from_le_bytes(*last) as u64;
    }
    let mut word = 0;
    for octet in octets {
        word = word << 8 | *octet as u64;
    }
    word
}
