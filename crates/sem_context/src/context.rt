//! The entries of a context.

ghost use Rattle.std.specs.Prelude.{◌≡◌, ◌↔◌, ◌-◌, Some, None, [], ◌∷◌, ◌++◌, length, map, option_map, slice_get, take, IfOk, IfSome, IsSome, IsSomeAnd, IsTrue, OnOk, OnErr, string_bytes};
ghost use Rattle.std.specs.Map.{keys_of};
ghost use Rattle.std.specs.Option.{option_copied};
ghost use Rattle.sem_context.specs.Entries.{AreDistinct, Entries, IsFront, bits_at, overridden, with_bits_at, with_entry};
ghost use Rattle.sem_context.specs.Placing as placing;
ghost use Rattle.sem_context.specs.Placing.{HasPaths, shown, with_path};

use crate::hints::Hints;
use crate::path::are_same;
use sem_bits::Bits;
use std::alloc::{AllocError, Global};
use std::collections::BTreeMap;
use std::marker::Model;
use std::mem::swap;

/// How many entries are looked through for a path. More have hints.
const FEW: usize = 4;

/// Bits by path, in order.
#[derive(Drop)]
pub struct Context {
    /// Each path with its bits.
    pub(crate) kept: Vec<(String, Bits)>,
    /// The place of each path. A look-up goes by the paths' order, so no choice of paths makes it slow.
    places: BTreeMap<String, usize>,
    /// Where a path may stand, which is tried first.
    hints: Hints,
    /// What `put_in_order` took last, kept for its room.
    room: Vec<Bits>,
}

// Clauses see the list of the entries: each path as its octets, and its bits.
impl Model for Context {
    ghost use Rattle.std.specs.BTreeMap.{get_by_text};
    ghost use Rattle.sem_context.specs.Entries.{Entries};
    ghost use Rattle.sem_context.specs.Placing.{ArePlaced, shown};

    ghost Value = { Entries };

    ghost view = { λ c. shown c.kept.items };

    ghost invariant = { λ c. ArePlaced (shown c.kept.items) (get_by_text c.places) };
}

impl Context {
    /// No entries.
    pub fn new(alloc: Global) -> Context
        ensures { result ≡ [] }
    {
        Context {
            kept: Vec::new(alloc),
            places: BTreeMap::new(alloc),
            hints: Hints::new(alloc),
            room: Vec::new(alloc),
        }
    }

    /// How many entries there are.
    pub fn len(&self) -> usize
        ensures value { result ≡ length self.now }
        ensures distinct { AreDistinct self.now }
    {
        self.kept.len()
    }

    /// The bits at a path.
    pub fn get(&self, path: &str) -> Option<&Bits>
        ensures { option_copied result ≡ bits_at self.now path.now }
    {
        let Some(place) = self.place_of(path) else {
            return None;
        };
        match self.kept.get(place) {
            Some((_, bits)) => Some(bits),
            None => None,
        }
    }

    /// The path of the entry at a place, the first at 0, or `None` past the last.
    pub fn path_at(&self, place: usize) -> Option<&str>
        ensures { option_copied result ≡ slice_get (keys_of self.now) place }
    {
        match self.kept.get(place) {
            Some((path, _)) => Some(path.as_str()),
            None => None,
        }
    }

    /// The entry at a place, the first at 0, or `None` past the last: its path, and the bits that are there.
    #[inline(always)]
    pub fn entry_at(&self, place: usize) -> Option<(&str, &Bits)>
        ensures entry { option_map (λ e. (e.0.now, e.1.now)) result ≡ slice_get self.now place }
        ensures bits { IfSome result (λ e. bits_at self.now e.0.now ≡ Some e.1.now) }
    {
        match self.kept.get(place) {
            Some((path, bits)) => Some((path.as_str(), bits)),
            None => None,
        }
    }

    /// An empty list for `put_in_order`. It has the room of the list that was put last, so that a line of packets needs it once.
    pub fn take_room(&mut self) -> Vec<Bits>
        ensures empty { result.items ≡ [] }
        ensures stays { self.new ≡ self.old }
    {
        let mut room = Vec::new(*self.kept.allocator());
        swap(&mut room, &mut self.room);
        room.clear();
        room
    }

    /// Puts bits in the first entries, in their order. It takes no memory.
    pub fn put_in_order(&mut self, values: Vec<Bits>)
        ensures { (es : Entries) → IsFront (keys_of self.old) values.items es → self.new ≡ overridden self.old es }
    {
        let mut values = values;
        for place in 0..values.len() {
            self.exchange(place, &mut values[place]);
        }
        self.room = values;
    }

    /// Puts bits at each path in turn: a path that is there keeps its place, a new one goes last, and of two entries for one
    /// path the later counts. Where memory runs out the context is as before.
    pub fn replace(&mut self, entries: Vec<(String, Bits)>) -> Result<(), AllocError>
        ensures ok { OnOk result (self.new ≡ overridden self.old (map (λ e. (string_bytes e.0, e.1)) entries.items)) }
        ensures err { OnErr result (self.new ≡ self.old) }
    {
        self.add_missing(entries.as_slice())?;
        let mut place = 0;
        for (path, bits) in entries {
            self.put_there(place, path.as_str(), bits);
            place = place.saturating_add(1);
        }
        Ok(())
    }

    /// The same entries again.
    pub fn copy(&self, alloc: Global) -> Result<Context, AllocError>
        ensures { IfOk result (λ c. c ≡ self.now) }
    {
        let mut copy = Context::new(alloc);
        for (path, bits) in &self.kept {
            let path = String::from_str(alloc, path.as_str())?;
            copy.push_new(path, bits.copy(alloc)?)?;
        }
        Ok(copy)
    }

    /// The place of the path.
    fn place_of(&self, path: &str) -> Option<usize>
        ensures { result ≡ placing.place_of self.now path.now }
    {
        let kept = self.kept.as_slice();
        if kept.len() <= FEW {
            return place_among(kept, path);
        }
        let hint = self.hints.get(path);
        if is_at(kept, hint, path) {
            return Some(hint);
        }
        match self.places.get(path) {
            Some(place) => Some(*place),
            None => None,
        }
    }

    /// Puts an entry last. Its path isn't there yet.
    pub(crate) fn push_new(&mut self, path: String, bits: Bits) -> Result<(), AllocError>
        requires { bits_at self.old (string_bytes path) ≡ None }
        ensures ok { OnOk result (self.new ≡ self.old ++ (string_bytes path, bits) ∷ []) }
        ensures err { OnErr result (self.new ≡ self.old) }
    {
        let place = self.kept.len();
        let key = path.clone()?;
        make_hints(self.kept.as_slice(), &mut self.hints)?;
        self.kept.reserve(1)?;
        self.places.insert(key, place)?;
        self.hints.note(path.as_str(), place);
        self.kept.push_reserved((path, bits));
        Ok(())
    }

    /// Takes the last entry away, if there is one.
    fn pop(&mut self)
        ensures { self.new ≡ take (length self.old - 1) self.old }
    {
        if let Some((path, _)) = self.kept.pop() {
            self.places.remove(path.as_str());
        }
    }

    /// Takes all entries away but so many.
    fn truncate(&mut self, count: usize)
        ensures { self.new ≡ take count self.old }
    {
        while self.kept.len() > count {
            self.pop();
        }
    }

    /// Puts entries without bits last for the paths that aren't there. Where memory runs out the context is as before.
    fn add_missing(&mut self, entries: &[(String, Bits)]) -> Result<(), AllocError>
        ensures all { OnOk result (HasPaths self.new (shown entries.now)) }
        ensures ok { OnOk result (overridden self.new (shown entries.now) ≡ overridden self.old (shown entries.now)) }
        ensures err { OnErr result (self.new ≡ self.old) }
    {
        let count = self.kept.len();
        for (path, _) in entries {
            match self.add_if_missing(path) {
                Ok(()) => {}
                Err(error) => {
                    self.truncate(count);
                    return Err(error);
                }
            }
        }
        Ok(())
    }

    /// The same of one path.
    fn add_if_missing(&mut self, path: &String) -> Result<(), AllocError>
        ensures ok { OnOk result (self.new ≡ with_path self.old (string_bytes path.now)) }
        ensures err { OnErr result (self.new ≡ self.old) }
    {
        if self.place_of(path.as_str()).is_some() {
            return Ok(());
        }
        let bits = Bits::new(*self.kept.allocator());
        self.push_new(path.clone()?, bits)?;
        Ok(())
    }

    /// Puts bits at a path that is there. It is looked for at that place first: the entries of one profile mostly come in the order in which they stand.
    fn put_there(&mut self, place: usize, path: &str, bits: Bits)
        requires { IsSome (bits_at self.old path.now) }
        ensures { self.new ≡ with_entry self.old path.now bits }
    {
        if is_at(self.kept.as_slice(), place, path) {
            self.set_bits(place, bits);
        } else if let Some(found) = self.place_of(path) {
            self.set_bits(found, bits);
        }
    }

    /// Puts bits in the entry of that place, the first at 0, if there is one. It takes no memory.
    pub fn set_bits(&mut self, place: usize, bits: Bits)
        ensures { self.new ≡ with_bits_at self.old place bits }
    {
        let mut bits = bits;
        self.exchange(place, &mut bits);
    }

    /// Puts bits in the entry of that place, if there is one, and gives those that were there.
    fn exchange(&mut self, place: usize, bits: &mut Bits)
        ensures put { self.new ≡ with_bits_at self.old place bits.old }
        ensures distinct { AreDistinct self.old }
    {
        if place < self.kept.len() {
            swap(&mut self.kept[place].1, bits);
        }
    }
}

/// The place of the path among a few entries.
fn place_among(kept: &[(String, Bits)], path: &str) -> Option<usize>
    requires { AreDistinct (shown kept.now) }
    ensures { result ≡ placing.place_of (shown kept.now) path.now }
{
    for place in 0..kept.len() {
        if is_at(kept, place, path) {
            return Some(place);
        }
    }
    None
}

/// Whether the entry of that place has the path.
fn is_at(kept: &[(String, Bits)], place: usize, path: &str) -> bool
    ensures { IsTrue result ↔ (slice_get (keys_of (shown kept.now)) place ≡ Some path.now) }
{
    match kept.get(place) {
        Some((found, _)) => are_same(found.as_bytes(), path.as_bytes()),
        None => false,
    }
}

/// Makes room for the hint of one entry more, where they are more than a few then.
fn make_hints(kept: &[(String, Bits)], hints: &mut Hints) -> Result<(), AllocError> {
    if kept.len() < FEW || hints.has_room(kept.len()) {
        return Ok(());
    }
    hints.make_room(kept.len())?;
    for place in 0..kept.len() {
        if let Some((path, _)) = kept.get(place) {
            hints.note(path.as_str(), place);
        }
    }
    Ok(())
}
