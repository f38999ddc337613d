//! The lines of events.

ghost use Rattle.std.specs.Prelude.{◌≡◌, ℕ, List, IfOk, IfErr, IfSome, IfNone, map};
ghost use Rattle.sem_filling.specs.declared.filling.Item.{Item};
ghost use Rattle.walk_line.specs.declared.runs.Event.{Event};
ghost use Rattle.tool_run.specs.Events.{AreResetWords, IsEvent, IsFlow, IsReset, IsSend};
ghost use Rattle.tool_input.specs.Inputs.{BlamesLine, HasLines};

use itoa::Buffer;
use sem_bits::lines::lines;
use sem_filling::{AskedValue, Item};
use std::alloc::{AllocError, Global};
use tool_input::inputs::{BadLine, bad_line_of, pieces, read_item};
use walk_line::{Event, Flow};

/// The events of the lines of a part, the empty lines left out. All lines are read before any is used.
pub fn read_events(alloc: Global, octets: &[u8]) -> Result<Vec<Event>, BadLine>
    ensures found { IfOk result (λ v. HasLines IsEvent octets.now v.items) }
    ensures bad { IfErr result (λ e. BlamesLine IsEvent e octets.now) }
{
    let lines = match lines(alloc, octets) {
        Ok(lines) => lines,
        Err(error) => return Err(bad_line_of(error)),
    };
    let mut inputs = Vec::new(alloc);
    for line in &lines {
        let like = last_asked(inputs.as_slice());
        match read_event(alloc, line.text, like)? {
            Some(event) => inputs.push(event)?,
            None => return Err(BadLine::Number(line.number)),
        }
    }
    Ok(inputs)
}

/// The asked values of the last event, none where it sends no item.
fn last_asked(events: &[Event]) -> &[AskedValue] {
    match events.last() {
        Some(Event::Send(_, item)) => item.asked.as_slice(),
        Some(Event::Reset(_)) | None => &[],
    }
}

/// The event of a line, or `None` where it is none. Its names may share their text with those of the values that it is like.
fn read_event(alloc: Global, line: &str, like: &[AskedValue]) -> Result<Option<Event>, AllocError>
    ensures found { IfOk result (λ o. IfSome o (IsEvent line.now)) }
    ensures none { IfOk result (λ o. IfNone o ((e : Event) → IsEvent line.now e → ⊥)) }
{
    let Some((word, more)) = line.split_once(' ') else {
        return Ok(None);
    };
    if word == "send" {
        match read_send(alloc, more, like)? {
            Some(sent) => Ok(Some(Event::Send(sent.0, sent.1))),
            None => Ok(None),
        }
    } else if word == "reset" {
        match read_reset(alloc, more)? {
            Some(flow) => Ok(Some(Event::Reset(flow))),
            None => Ok(None),
        }
    } else {
        Ok(None)
    }
}

/// The flow and the item of a send, or `None` where the words are none.
fn read_send(
    alloc: Global,
    words: &str,
    like: &[AskedValue],
) -> Result<Option<(Flow, Item)>, AllocError>
    ensures found { IfOk result (λ o. IfSome o (λ sent. IsSend words.now sent.0 sent.1)) }
    ensures none { IfOk result (λ o. IfNone o ((flow : ℕ) (it : Item) → IsSend words.now flow it → ⊥)) }
{
    let Some((flow, item)) = words.split_once(' ') else {
        return Ok(None);
    };
    let Some(flow) = read_flow(flow) else {
        return Ok(None);
    };
    match read_item(alloc, item, like)? {
        Some(item) => Ok(Some((flow, item))),
        None => Ok(None),
    }
}

/// The flow of a reset, or `None` where the words are none.
fn read_reset(alloc: Global, words: &str) -> Result<Option<Flow>, AllocError>
    ensures found { IfOk result (λ o. IfSome o (IsReset words.now)) }
    ensures none { IfOk result (λ o. IfNone o ((flow : ℕ) → IsReset words.now flow → ⊥)) }
{
    let words = pieces(alloc, words)?;
    Ok(reset_of(words.as_slice()))
}

/// The flow of a reset, or `None` where the words are none.
fn reset_of(words: &[&str]) -> Option<Flow>
    ensures found { IfSome result (AreResetWords (map (λ w. w.now) words.now)) }
    ensures none { IfNone result ((flow : ℕ) → AreResetWords (map (λ w. w.now) words.now) flow → ⊥) }
{
    let [flow] = words else {
        return None;
    };
    read_flow(flow)
}

/// The flow whose number the word is, with no leading zero or sign, or `None` where it is none.
fn read_flow(word: &str) -> Option<Flow>
    ensures found { IfSome result (IsFlow word.now) }
    ensures none { IfNone result ((flow : ℕ) → IsFlow word.now flow → ⊥) }
{
    let Ok(number) = word.parse::<u8>() else {
        return None;
    };
    let Some(flow) = Flow::new(number) else {
        return None;
    };
    let mut buffer = Buffer::new();
    if buffer.format(number) == word {
        Some(flow)
    } else {
        None
    }
}
