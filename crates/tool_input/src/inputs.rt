//! The lines of items, packets and a context.

ghost use Rattle.std.specs.Prelude.{◌≡◌, ◌==◌, ◌↔◌, ℕ, Bool, List, [], ◌∷◌, ◌++◌, length, IsTrue, IfOk, IfErr, IfSome, IfNone, decimal, map};
ghost use Rattle.sem_bits.specs.Text.{ReadsAs};
ghost use Rattle.std.specs.List.{AllZip, slice_split};
ghost use Rattle.std.specs.Str.{IsUtf8};
ghost use Rattle.sem_bits.specs.Lines.{BlamesLines};
ghost use Rattle.sem_filling.specs.declared.filling.AskedValue.{AskedValue};
ghost use Rattle.sem_filling.specs.declared.filling.Item.{Item};
ghost use Rattle.tool_input.specs.Inputs.{AreItemWords, BlamesBroken, BlamesContext, BlamesLine, HasLines, IsBits, IsItem, IsValue, StartsAt};

use crate::bundle::Parts;
use itoa::Buffer;
use sem_bits::Bits;
use sem_bits::lines::{LinesError, lines};
use sem_context::{Context, ContextError};
use sem_filling::{AskedValue, Item};
use sem_profile::Name;
use sqlite_items::Items;
use std::alloc::{AllocError, AllocFailed, Global};
use thiserror::Error;

/// Why a part can't be read.
#[derive(Debug, Drop, Error)]
pub enum BadLine {
    /// The number from 1 of the first line that can't.
    #[error("bad line {0}")]
    Number(usize),
    #[error("out of memory")]
    OutOfMemory,
}

impl From<AllocError> for BadLine {
    ghost use Rattle.std.specs.Prelude.{◌≡◌};
    ghost use Rattle.tool_input.specs.declared.inputs.BadLine.TheVariants.{OutOfMemory};

    ghost from_gives = { λ _ e. e ≡ OutOfMemory };

    fn from(_error: AllocError) -> BadLine {
        BadLine::OutOfMemory
    }
}

impl<T: Drop> From<AllocFailed<T>> for BadLine {
    ghost use Rattle.std.specs.Prelude.{◌≡◌};
    ghost use Rattle.tool_input.specs.declared.inputs.BadLine.TheVariants.{OutOfMemory};

    ghost from_gives = { λ _ e. e ≡ OutOfMemory };

    fn from(_error: AllocFailed<T>) -> BadLine {
        BadLine::OutOfMemory
    }
}

/// The packets of the lines of a part, the empty lines left out. All lines are read before any is used.
pub fn read_packets(alloc: Global, octets: &[u8]) -> Result<Vec<Bits>, BadLine>
    ensures found { IfOk result (λ v. HasLines IsBits octets.now v.items) }
    ensures bad { IfErr result (λ e. BlamesLine IsBits e octets.now) }
{
    let lines = match lines(alloc, octets) {
        Ok(lines) => lines,
        Err(error) => return Err(bad_line_of(error)),
    };
    let mut inputs = Vec::new(alloc);
    for line in &lines {
        match read_bits(alloc, line.text)? {
            Some(bits) => inputs.push(bits)?,
            None => return Err(BadLine::Number(line.number)),
        }
    }
    Ok(inputs)
}

/// The items of the lines of a part, likewise.
pub fn read_items(alloc: Global, octets: &[u8]) -> Result<Vec<Item>, BadLine>
    ensures found { IfOk result (λ v. HasLines IsItem octets.now v.items) }
    ensures bad { IfErr result (λ e. BlamesLine IsItem e octets.now) }
{
    let lines = match lines(alloc, octets) {
        Ok(lines) => lines,
        Err(error) => return Err(bad_line_of(error)),
    };
    let mut inputs = Vec::new(alloc);
    for line in &lines {
        let like = last_asked(inputs.as_slice());
        match read_item(alloc, line.text, like)? {
            Some(item) => inputs.push(item)?,
            None => return Err(BadLine::Number(line.number)),
        }
    }
    Ok(inputs)
}

/// The context of the part, which is empty where there is none.
pub fn read_context(alloc: Global, parts: &Parts<'_>) -> Result<Context, BadLine>
    ensures found { IfOk result (StartsAt parts.now.context) }
    ensures bad { IfErr result (λ e. BlamesContext e parts.now.context) }
{
    let Some(octets) = parts.context else {
        return Ok(Context::new(alloc));
    };
    match str::from_utf8(octets) {
        Ok(text) => match Context::read_text(alloc, text) {
            Ok(context) => Ok(context),
            Err(ContextError::BadLine { line }) => Err(BadLine::Number(line)),
            Err(ContextError::OutOfMemory) => Err(BadLine::OutOfMemory),
        },
        Err(_) => Err(broken_line(alloc, octets)),
    }
}

/// The bad line of octets that are no UTF-8.
fn broken_line(alloc: Global, octets: &[u8]) -> BadLine
    requires { IsUtf8 octets.now → ⊥ }
    ensures { BlamesBroken result octets.now }
{
    match lines(alloc, octets) {
        Ok(_) => unreachable!(),
        Err(error) => bad_line_of(error),
    }
}

/// The line that is no UTF-8, as a bad line.
pub fn bad_line_of(error: LinesError) -> BadLine
    ensures { (octets : List ℕ) → BlamesLines error octets → BlamesBroken result octets }
{
    match error {
        LinesError::NotText { line } => BadLine::Number(line),
        LinesError::OutOfMemory => BadLine::OutOfMemory,
    }
}

/// The bits of a text, or `None` where it is none.
fn read_bits(alloc: Global, text: &str) -> Result<Option<Bits>, AllocError>
    ensures found { IfOk result (λ o. IfSome o (IsBits text.now)) }
    ensures none { IfOk result (λ o. IfNone o ((b : List Bool) → IsBits text.now b → ⊥)) }
{
    Bits::read_text(alloc, text)
}

/// The asked values of the last item, none where there is no item.
fn last_asked(items: &[Item]) -> &[AskedValue] {
    match items.last() {
        Some(item) => item.asked.as_slice(),
        None => &[],
    }
}

/// The item of a line, or `None` where it is none. Its names share their text with those of the values that it is like, where they are the same.
pub fn read_item(alloc: Global, line: &str, like: &[AskedValue]) -> Result<Option<Item>, AllocError>
    ensures found { IfOk result (λ o. IfSome o (IsItem line.now)) }
    ensures none { IfOk result (λ o. IfNone o ((it : Item) → IsItem line.now it → ⊥)) }
{
    match line.split_once(' ') {
        Some((header, words)) => item_in(alloc, header, words, like),
        None => item_without(alloc, line),
    }
}

/// The item of the text of a header, with no values.
#[inline(never)]
fn item_without(alloc: Global, header: &str) -> Result<Option<Item>, AllocError>
    ensures found { IfOk result (λ o. IfSome o (AreItemWords (header.now ∷ []))) }
    ensures none { IfOk result (λ o. IfNone o ((it : Item) → AreItemWords (header.now ∷ []) it → ⊥)) }
{
    let Some(header) = read_bits(alloc, header)? else {
        return Ok(None);
    };
    let asked = Items::from_vec(Vec::new(alloc));
    Ok(Some(Item { header, asked }))
}

/// The item of the text of a header and of the words of its values.
fn item_in(
    alloc: Global,
    header: &str,
    words: &str,
    like: &[AskedValue],
) -> Result<Option<Item>, AllocError>
    ensures found { IfOk result (λ o. IfSome o (AreItemWords (header.now ∷ slice_split (λ octet. octet == 32) words.now))) }
    ensures none { IfOk result (λ o. IfNone o ((it : Item) → AreItemWords (header.now ∷ slice_split (λ octet. octet == 32) words.now) it → ⊥)) }
{
    let Some(header) = read_header(alloc, header)? else {
        return Ok(None);
    };
    let Some(asked) = read_values(alloc, words, like)? else {
        return Ok(None);
    };
    Ok(Some(Item { header, asked }))
}

/// The bits of a text, or `None` where it is none. Whole octets, up to 64 of them, take no more room than the bits do.
fn read_header(alloc: Global, text: &str) -> Result<Option<Bits>, AllocError>
    ensures found { IfOk result (λ o. IfSome o (IsBits text.now)) }
    ensures none { IfOk result (λ o. IfNone o ((b : List Bool) → IsBits text.now b → ⊥)) }
{
    match read_whole(alloc, text)? {
        Some(bits) => Ok(Some(bits)),
        None => read_bits(alloc, text),
    }
}

/// The bits of a text of whole octets, up to 64 of them. It is `None` where the text is none, or may be another.
fn read_whole(alloc: Global, text: &str) -> Result<Option<Bits>, AllocError>
    ensures { IfOk result (λ o. IfSome o (IsBits text.now)) }
{
    let Some((front, digits)) = text.split_once(':') else {
        return Ok(None);
    };
    let many = digits.len() / 2;
    if many > 64 {
        return Ok(None);
    }
    if !is_count(front, 8 * many) {
        return Ok(None);
    }
    let mut octets = [0u8; 64];
    read_digits(alloc, digits, &mut octets[..many], 8 * many)
}

/// Whether a text is the count.
#[inline(always)]
fn is_count(text: &str, count: usize) -> bool
    ensures { IsTrue result ↔ (text.now ≡ decimal count) }
{
    let mut buffer = Buffer::new();
    buffer.format(count) == text
}

/// The bits of digits, as many as the count, or `None` where they are none. Their octets fill the room.
#[inline(always)]
fn read_digits(
    alloc: Global,
    digits: &str,
    room: &mut [u8],
    count: usize,
) -> Result<Option<Bits>, AllocError>
    ensures { IfOk result (λ o. IfSome o (λ b. (length b ≡ count) × ReadsAs (decimal count ++ 58 ∷ digits.now) b)) }
{
    if hex::decode_to_slice(digits, room).is_err() {
        return Ok(None);
    }
    Bits::from_octets(alloc, room, count)
}

/// The values of words, or `None` where one of them gives none.
fn read_values(
    alloc: Global,
    words: &str,
    like: &[AskedValue],
) -> Result<Option<Items<AskedValue>>, AllocError>
    ensures found { IfOk result (λ o. IfSome o (AllZip IsValue (slice_split (λ octet. octet == 32) words.now))) }
    ensures none { IfOk result (λ o. IfNone o ((values : List AskedValue) → AllZip IsValue (slice_split (λ octet. octet == 32) words.now) values → ⊥)) }
{
    let mut values = Items::from_vec(Vec::with_capacity(alloc, like.len())?);
    let mut rest = words;
    while let Some((word, more)) = rest.split_once(' ') {
        let name = name_at(like, values.len());
        match read_value(alloc, word, name)? {
            Some(value) => values.push(value)?,
            None => return Ok(None),
        }
        rest = more;
    }
    let name = name_at(like, values.len());
    match read_value(alloc, rest, name)? {
        Some(value) => values.push(value)?,
        None => return Ok(None),
    }
    Ok(Some(values))
}

/// The name of the value at the place.
fn name_at(values: &[AskedValue], place: usize) -> Option<&Name> {
    match values.get(place) {
        Some(value) => Some(&value.name),
        None => None,
    }
}

/// The value that a word gives to a field, or `None` where it gives none. Its name shares its text with the one that it is like, if they are the same.
fn read_value(
    alloc: Global,
    word: &str,
    like: Option<&Name>,
) -> Result<Option<AskedValue>, AllocError>
    ensures found { IfOk result (λ o. IfSome o (IsValue word.now)) }
    ensures none { IfOk result (λ o. IfNone o ((v : AskedValue) → IsValue word.now v → ⊥)) }
{
    if let Some(name) = like {
        if let Some(rest) = word.strip_prefix(name.as_str()) {
            if let Some(spelled) = rest.strip_prefix('=') {
                return read_named(alloc, name, spelled);
            }
        }
    }
    read_new(alloc, word)
}

/// The value that a name and the text of bits give to a field, or `None` where the text is none.
fn read_named(alloc: Global, name: &Name, spelled: &str) -> Result<Option<AskedValue>, AllocError>
    ensures found { IfOk result (λ o. IfSome o (IsValue (name.now ++ 61 ∷ spelled.now))) }
    ensures none { IfOk result (λ o. IfNone o ((v : AskedValue) → IsValue (name.now ++ 61 ∷ spelled.now) v → ⊥)) }
{
    name.keeps();
    let Some(bits) = read_bits(alloc, spelled)? else {
        return Ok(None);
    };
    let name = name.share()?;
    Ok(Some(AskedValue { name, bits }))
}

/// The value that a word gives to a field of any name, or `None` where it gives none.
#[inline(never)]
fn read_new(alloc: Global, word: &str) -> Result<Option<AskedValue>, AllocError>
    ensures found { IfOk result (λ o. IfSome o (IsValue word.now)) }
    ensures none { IfOk result (λ o. IfNone o ((v : AskedValue) → IsValue word.now v → ⊥)) }
{
    let Some((name, spelled)) = word.split_once('=') else {
        return Ok(None);
    };
    let Some(name) = Name::new(alloc, name)? else {
        return Ok(None);
    };
    let Some(bits) = read_bits(alloc, spelled)? else {
        return Ok(None);
    };
    Ok(Some(AskedValue { name, bits }))
}

/// A line cut at each blank.
pub fn pieces<'a>(alloc: Global, line: &'a str) -> Result<Vec<&'a str>, AllocError>
    ensures { IfOk result (λ words. map (λ word. word.now) words.items ≡ slice_split (λ octet. octet == 32) line.entry.now) }
{
    // A loop, since `collect` goes on after a refused growth.
    let mut words = Vec::new(alloc);
    for word in line.split(' ') {
        words.push(word)?;
    }
    Ok(words)
}
