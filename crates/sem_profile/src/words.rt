//! Names as parts of the text, and tables of them.

ghost use Rattle.std.specs.Prelude.{◌≡◌, ◌↔◌, ◌<◌, ◌^◌, ◌++◌, [], IsTrue, IfOk, OnOk, OnErr, IfSome, length, position};
ghost use Rattle.std.specs.List.{list_any};
ghost use Rattle.std.specs.Option.{unwrap_or};
ghost use Rattle.std.specs.Str.{bytes_eq};
ghost use Rattle.sem_profile.specs.Words as spec;

use crate::shared::Shared;
use indexmap::IndexSet;
use std::alloc::{AllocError, Global};
use std::marker::Model;
use text_source::Span;

/// The octets of a part of the text, as far as the text goes.
pub fn word<'a>(text: &'a [u8], span: Span) -> &'a [u8]
    ensures { result.now ≡ spec.word text.now span }
{
    let to = (span.to as usize).min(text.len());
    let from = (span.from as usize).min(to);
    &text[from..to]
}

/// Whether two names are one. Most that are not differ in their lengths.
pub fn same(one_name: &[u8], other: &[u8]) -> bool
    ensures test { result ≡ bytes_eq one_name.now other.now }
    ensures equal { IsTrue result ↔ (one_name.now ≡ other.now) }
{
    one_name.len() == other.len() && one_name == other
}

/// Distinct names in one table.
#[derive(Drop)]
struct Row<'a> {
    kept: IndexSet<&'a [u8]>,
}

impl<'a> Model for Row<'a> {
    ghost use Rattle.std.specs.Prelude.{List, ℕ, map};
    ghost use Rattle.indexmap.specs.IndexSet.{IsUnique};
    ghost use Rattle.std.specs.Borrow.{Bor};
    ghost use Rattle.std.specs.Str.{bytes_eq};

    ghost Value = { List (List ℕ) };

    ghost view = { λ w. map (λ k. k.now) w.kept.keys };
}

impl<'a> Row<'a> {
    fn new(alloc: Global) -> Row<'a>
        ensures { result ≡ [] }
    {
        Row {
            kept: IndexSet::new(alloc),
        }
    }

    fn with_room(alloc: Global, count: usize) -> Result<Row<'a>, AllocError>
        ensures { IfOk result (λ names. names ≡ []) }
    {
        Ok(Row {
            kept: IndexSet::with_capacity(alloc, count)?,
        })
    }

    fn copy(&self) -> Result<Row<'a>, AllocError>
        ensures { IfOk result (λ names. names ≡ self.now) }
    {
        Ok(Row {
            kept: self.kept.clone()?,
        })
    }

    fn len(&self) -> usize
        ensures value { result ≡ length self.now }
        ensures small { result < 2 ^ 63 }
    {
        self.kept.len()
    }

    fn position(&self, name: &[u8]) -> Option<usize>
        ensures value { result ≡ position (bytes_eq name.now) self.now }
        ensures within { IfSome result (λ i. i < length self.now) }
        ensures small { length self.now < 2 ^ 63 }
    {
        if self.kept.len() == 0 {
            return None;
        }
        self.kept.get_index_of(name)
    }

    fn insert(&mut self, name: &'a [u8]) -> Result<bool, AllocError>
        ensures ok { OnOk result (self.new ≡ spec.with_word self.old name.now) }
        ensures added { IfOk result (λ added. added ≡ spec.is_new self.old name.now) }
        ensures err { OnErr result (self.new ≡ self.old) }
    {
        let (_, added) = self.kept.insert_full(name)?;
        Ok(added)
    }
}

/// Distinct names in the order in which they came. A look-up takes the time of the name's length, however many there are.
pub struct Words<'a> {
    /// The first of them, where they are shared with other tables.
    first: Option<Shared<Row<'a>>>,
    last: Row<'a>,
}

impl<'a> Drop for Words<'a> {
    fn drop(self) {
        let Words {
            first: _first,
            last: _last,
        } = self;
    }
}

impl<'a> Model for Words<'a> {
    ghost use Rattle.std.specs.Prelude.{List, ℕ, ◌++◌, []};
    ghost use Rattle.std.specs.Option.{unwrap_or};

    ghost Value = { List (List ℕ) };

    ghost view = { λ w. unwrap_or w.first [] ++ w.last };
}

impl<'a> Words<'a> {
    /// No names.
    pub fn new(alloc: Global) -> Words<'a>
        ensures { result ≡ [] }
    {
        Words {
            first: None,
            last: Row::new(alloc),
        }
    }

    /// No names, with room for so many.
    pub fn with_room(alloc: Global, count: usize) -> Result<Words<'a>, AllocError>
        ensures { IfOk result (λ names. names ≡ []) }
    {
        Ok(Words {
            first: None,
            last: Row::with_room(alloc, count)?,
        })
    }

    /// The same names, which copies share from now on.
    pub fn settled(self, alloc: Global) -> Result<Words<'a>, AllocError>
        ensures { IfOk result (λ names. names ≡ self.entry) }
    {
        let Words { first, last } = self;
        match first {
            Some(first) => Ok(Words {
                first: Some(first),
                last,
            }),
            None => Ok(Words {
                first: Some(Shared::new(alloc, last)?),
                last: Row::new(alloc),
            }),
        }
    }

    /// The same names. What is settled is shared.
    pub fn copy(&self) -> Result<Words<'a>, AllocError>
        ensures { IfOk result (λ names. names ≡ self.now) }
    {
        let first = match &self.first {
            Some(first) => Some(first.share()?),
            None => None,
        };
        Ok(Words {
            first,
            last: self.last.copy()?,
        })
    }

    /// How many names there are.
    pub fn len(&self) -> usize
        ensures { result ≡ length self.now }
    {
        match &self.first {
            Some(first) => first.get().len() + self.last.len(),
            None => self.last.len(),
        }
    }

    /// The place of a name.
    pub fn position(&self, name: &[u8]) -> Option<usize>
        ensures value { result ≡ position (bytes_eq name.now) self.now }
        ensures within { IfSome result (λ i. i < length self.now) }
    {
        match &self.first {
            Some(first) => position_in(first.get(), &self.last, name),
            None => self.last.position(name),
        }
    }

    /// Puts a name last, unless it is there. Whether it was new.
    pub fn insert(&mut self, name: &'a [u8]) -> Result<bool, AllocError>
        ensures ok { OnOk result (self.new ≡ spec.with_word self.old name.now) }
        ensures added { IfOk result (λ added. added ≡ spec.is_new self.old name.now) }
        ensures err { OnErr result (self.new ≡ self.old) }
    {
        if is_one_of(&self.first, name) {
            return Ok(false);
        }
        let is_new = self.last.insert(name)?;
        Ok(is_new)
    }
}

/// Whether a name is one of these.
fn is_one_of(names: &Option<Shared<Row<'_>>>, name: &[u8]) -> bool
    ensures { result ≡ list_any (bytes_eq name.now) (unwrap_or names.now []) }
{
    match names {
        Some(names) => names.get().position(name).is_some(),
        None => false,
    }
}

/// The place of a name in two tables, one after the other.
fn position_in(first: &Row<'_>, last: &Row<'_>, name: &[u8]) -> Option<usize>
    ensures value { result ≡ position (bytes_eq name.now) (first.now ++ last.now) }
    ensures within { IfSome result (λ i. i < length (first.now ++ last.now)) }
{
    match first.position(name) {
        Some(place) => Some(place),
        None => {
            let place = last.position(name)?;
            Some(first.len() + place)
        }
    }
}
