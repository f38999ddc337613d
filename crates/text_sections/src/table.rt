//! Tables of mentions, asked by name.

ghost use Rattle.std.specs.Prelude.{◌≡◌, ◌++◌, ◌∷◌, [], List, ℕ, IfOk, OnOk};
ghost use Rattle.sem_profile.specs.Words.{word};
ghost use Rattle.text_sections.specs.Mentions as spec;
ghost use Rattle.text_sections.specs.Tables as tables;

use crate::mention::Mention;
use sem_profile::{Words, word};
use sqlite_items::Items;
use std::alloc::{AllocError, Global};

/// How many mentions a table has room for at first, at most.
const ROOM: usize = 32;

/// The first mention of each name. A look-up takes the time of the name's length.
#[derive(Drop)]
pub struct Table<'a> {
    pub words: Words<'a>,
    pub firsts: Items<Mention>,
}

impl<'a> Table<'a> {
    /// No mentions.
    pub fn new(alloc: Global) -> Table<'a>
        ensures { (text : List ℕ) → tables.IsTable text [] result }
    {
        Table {
            words: Words::new(alloc),
            firsts: Items::new(alloc),
        }
    }

    /// No mentions, with room for as many, or for `ROOM`.
    pub(crate) fn with_room(alloc: Global, count: usize) -> Result<Table<'a>, AllocError>
        ensures { IfOk result (λ table. (text : List ℕ) → tables.IsTable text [] table) }
    {
        Ok(Table {
            words: Words::with_room(alloc, count.min(ROOM))?,
            firsts: Items::from_vec(Vec::with_capacity(alloc, count.min(ROOM))?),
        })
    }

    /// The same table, whose names copies share from now on.
    pub fn settled(self, alloc: Global) -> Result<Table<'a>, AllocError>
        ensures { IfOk result (λ table. table ≡ self.entry) }
    {
        let Table { words, firsts } = self;
        Ok(Table {
            words: words.settled(alloc)?,
            firsts,
        })
    }

    /// The same table, with room for so many more mentions.
    fn copy(&self, alloc: Global, count: usize) -> Result<Table<'a>, AllocError>
        ensures { IfOk result (λ table. table ≡ self.now) }
    {
        let room = self.firsts.len().saturating_add(count.min(ROOM));
        let mut firsts = Vec::with_capacity(alloc, room)?;
        firsts.extend_from_slice(self.firsts.as_slice())?;
        Ok(Table {
            words: self.words.copy()?,
            firsts: Items::from_vec(firsts),
        })
    }

    /// The table of its mentions and of these.
    pub fn with(
        &self,
        alloc: Global,
        text: &'a [u8],
        mentions: &[Mention],
    ) -> Result<Table<'a>, AllocError>
        ensures { IfOk result (λ table. (before : List Mention) → tables.IsTable text.now before self.now → tables.IsTable text.now (before ++ mentions.now) table) }
    {
        let mut table = self.copy(alloc, mentions.len())?;
        table.insert_all(text, mentions)?;
        Ok(table)
    }

    /// The first mention of the name.
    pub fn find(&self, name: &[u8]) -> Option<Mention>
        ensures { result ≡ tables.find_in self.now name.now }
    {
        match self.words.position(name) {
            Some(place) => match self.firsts.get(place) {
                Some(mention) => Some(*mention),
                None => None,
            },
            None => None,
        }
    }

    /// Adds a mention.
    pub fn insert(&mut self, text: &'a [u8], mention: Mention) -> Result<(), AllocError>
        ensures { OnOk result ((mentions : List Mention) → tables.IsTable text.now mentions self.old → tables.IsTable text.now (mentions ++ mention ∷ []) self.new) }
    {
        if self.words.insert(word(text, mention.name))? {
            self.firsts.push(mention)?;
        }
        Ok(())
    }

    /// Adds a mention. The first one of its name, where there was one before.
    pub(crate) fn first_or_insert(
        &mut self,
        text: &'a [u8],
        mention: Mention,
    ) -> Result<Option<Mention>, AllocError>
        ensures found { IfOk result (λ found. found ≡ tables.find_in self.old (word text.now mention.name)) }
        ensures table { OnOk result ((mentions : List Mention) → tables.IsTable text.now mentions self.old → tables.IsTable text.now (mentions ++ mention ∷ []) self.new) }
    {
        let name = word(text, mention.name);
        if self.words.insert(name)? {
            self.firsts.push(mention)?;
            return Ok(None);
        }
        Ok(self.find(name))
    }

    /// Adds these mentions.
    pub(crate) fn insert_all(
        &mut self,
        text: &'a [u8],
        mentions: &[Mention],
    ) -> Result<(), AllocError>
        ensures { OnOk result ((before : List Mention) → tables.IsTable text.now before self.old → tables.IsTable text.now (before ++ mentions.now) self.new) }
    {
        for mention in mentions {
            self.insert(text, *mention)?;
        }
        Ok(())
    }

    /// The table of these mentions.
    pub fn of(alloc: Global, text: &'a [u8], mentions: &[Mention]) -> Result<Table<'a>, AllocError>
        ensures { IfOk result (tables.IsTable text.now mentions.now) }
    {
        let mut table = Table::with_room(alloc, mentions.len())?;
        table.insert_all(text, mentions)?;
        Ok(table)
    }
}
