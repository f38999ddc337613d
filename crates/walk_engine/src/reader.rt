//! From packed bits to an item.

ghost use Rattle.std.specs.Prelude.{◌≡◌, ◌≢◌, Some, IfOk, IfErr, IfSome, IfNone, OnErr, take, length};
ghost use Rattle.sem_filling.specs.declared.filling.Filling.{out-Filling};
ghost use Rattle.sem_filling.specs.Fillings as sides;
ghost use Rattle.walk_engine.specs.Reading as spec;

use crate::top::{fits, keeps_few, never_begins, top_place};
use cert_accepted::Accepted;
use sem_bits::{Bits, Cursor};
use sem_context::Context;
use sem_filling::{Filling, WholeSides};
use sem_profile::DEPTH_LIMIT;
use std::alloc::{AllocError, Global};
use walk_guess::{guess, runs_out};
use walk_read::{Blamed, ReadFault, read_method};

/// Why no item was read.
#[derive(Clone, Copy)]
pub enum UnpackFault {
    /// The bits ran out: no filling is at their front, though one may be with further bits.
    Truncated,
    /// No filling is at the front of the bits, nor will one be with further bits.
    Refused(Blamed),
    OutOfMemory,
}

impl From<AllocError> for UnpackFault {
    ghost use Rattle.std.specs.Prelude.{◌≡◌};
    ghost use Rattle.walk_engine.specs.declared.reader.UnpackFault.TheVariants.{OutOfMemory};

    ghost from_gives = { λ _ e. e ≡ OutOfMemory };

    fn from(_error: AllocError) -> UnpackFault {
        UnpackFault::OutOfMemory
    }
}

/// More bits than any packet has.
const MANY: usize = 1 << 20;

/// What was read: the filling, its header, and how many bits its packet took. With its asked values the header is its item (`item_of`), and the context goes on by
/// what it leaves there (`advance` of sem_filling).
#[derive(Drop)]
pub struct Unpacked {
    pub header: Bits,
    pub filling: Filling,
    pub bits: usize,
}

/// Reads the filling whose packed bits are at the cursor's place. A refusal leaves the cursor as it was.
#[inline(always)]
pub fn unpack(
    alloc: Global,
    accepted: &Accepted,
    context: &Context,
    cursor: &mut Cursor<'_>,
) -> Result<Unpacked, UnpackFault>
    ensures read { IfOk result (spec.IsUnpacked accepted.now context.now cursor.old cursor.new) }
    // Truncated: no filling is at the front of the bits, of which there are fewer than 2^23. Refused: nor is one with any further bits.
    ensures fault { IfErr result (λ e. spec.Blames e accepted.now context.now cursor.old.left) }
    ensures stays { OnErr result (cursor.new ≡ cursor.old) }
{
    match unpack_drawn(alloc, accepted, context, cursor)? {
        Some(read) => Ok(read),
        None => read_walked(alloc, accepted, context, cursor),
    }
}

/// What is read where that is told at once: what was drawn up without a test, where it fits and its packed bits come next. Else the cursor stays, though a filling may
/// be there.
#[inline(always)]
pub fn unpack_drawn(
    alloc: Global,
    accepted: &Accepted,
    context: &Context,
    cursor: &mut Cursor<'_>,
) -> Result<Option<Unpacked>, AllocError>
    ensures read { IfOk result (λ o. IfSome o (spec.IsUnpacked accepted.now context.now cursor.old cursor.new)) }
    ensures none { IfOk result (λ o. IfNone o (cursor.new ≡ cursor.old)) }
    ensures stays { OnErr result (cursor.new ≡ cursor.old) }
{
    let Some(filling) = guess(alloc, accepted, context, cursor) else {
        return Ok(None);
    };
    let judged = fits(alloc, accepted, context, &filling)?;
    let Some(whole) = judged else {
        return Ok(None);
    };
    Ok(read_with(cursor, filling, whole))
}

/// What is read by a filling with these two sides, if its packed bits come next: then the cursor goes past them, else it stays.
#[inline(always)]
fn read_with(cursor: &mut Cursor<'_>, filling: Filling, whole: WholeSides) -> Option<Unpacked>
    requires header { whole.header ≡ sides.header filling }
    requires packed { whole.packed ≡ sides.packed filling }
    ensures taken { IfSome result (spec.IsTaken filling cursor.old cursor.new) }
    ensures none { IfNone result (cursor.new ≡ cursor.old) }
    ensures other { IfNone result (take (length whole.packed) cursor.old.left ≢ whole.packed) }
{
    let WholeSides { header, packed } = whole;
    if !cursor.skip(&packed) {
        return None;
    }
    Some(Unpacked {
        header,
        filling,
        bits: packed.len(),
    })
}

/// What the walk reads.
#[inline(never)]
fn read_walked(
    alloc: Global,
    accepted: &Accepted,
    context: &Context,
    cursor: &mut Cursor<'_>,
) -> Result<Unpacked, UnpackFault>
    ensures read { IfOk result (spec.IsUnpacked accepted.now context.now cursor.old cursor.new) }
    ensures fault { IfErr result (λ e. spec.Blames e accepted.now context.now cursor.old.left) }
    ensures stays { OnErr result (cursor.new ≡ cursor.old) }
{
    let found = read_judged(alloc, accepted, context, cursor)?;
    keeps_few(accepted, context, &found.filling);
    let Alone { filling, whole } = found;
    if whole.packed.len() > cursor.rest() {
        return Err(UnpackFault::Truncated);
    }
    let top = whole_of(accepted, &filling);
    match read_with(cursor, filling, whole) {
        Some(read) => Ok(read),
        None => Err(UnpackFault::Refused(top)),
    }
}

/// A filling that fits the top, with its two sides.
#[derive(Drop)]
struct Alone {
    filling: Filling,
    whole: WholeSides,
}

/// The fault where none is ahead, whatever bits follow. A walk takes no step of a format that nothing fits by its bounds. Where its steps would run out of bits,
/// that is told.
#[inline(never)]
fn refused(
    alloc: Global,
    accepted: &Accepted,
    context: &Context,
    cursor: &Cursor<'_>,
    at: Blamed,
) -> UnpackFault
    requires { spec.IsRefused accepted.now context.now cursor.now.left }
    ensures { spec.Blames result accepted.now context.now cursor.now.left }
{
    if cursor.rest() < MANY {
        if is_cut_short(alloc, accepted, context, cursor, at) {
            return UnpackFault::Truncated;
        }
    }
    UnpackFault::Refused(at)
}

/// Whether no step is taken of the format at work, though the bits run out within its steps.
fn is_cut_short(
    alloc: Global,
    accepted: &Accepted,
    context: &Context,
    cursor: &Cursor<'_>,
    at: Blamed,
) -> bool {
    let Some(format) = at.format else {
        return false;
    };
    never_begins(accepted, at.method, format)
        && runs_out(alloc, accepted, context, cursor, at.method, format)
}

/// The filling of the top that fits and is the only one ahead, with its two sides, as the walk finds it. The walk judges each called filling at its end, to tell
/// the method to blame.
fn read_judged(
    alloc: Global,
    accepted: &Accepted,
    context: &Context,
    cursor: &Cursor<'_>,
) -> Result<Alone, UnpackFault>
    ensures found { IfOk result (λ found. spec.IsAlone accepted.now context.now cursor.now.left found.filling) }
    ensures sides { IfOk result (λ found. (found.whole.header ≡ sides.header found.filling) × (found.whole.packed ≡ sides.packed found.filling)) }
    ensures fault { IfErr result (λ e. spec.Blames e accepted.now context.now cursor.now.left) }
{
    let place = top_place(accepted, context);
    match read_method(DEPTH_LIMIT, alloc, &place, cursor, 0) {
        Ok(filling) => match fits(alloc, accepted, context, &filling)? {
            Some(whole) => Ok(Alone { filling, whole }),
            None => Err(UnpackFault::Refused(whole_of(accepted, &filling))),
        },
        Err(ReadFault::Short(_)) => Err(UnpackFault::Truncated),
        Err(ReadFault::Refused(at)) => Err(refused(alloc, accepted, context, cursor, at)),
        Err(ReadFault::OutOfMemory) => Err(UnpackFault::OutOfMemory),
    }
}

/// The top as the method at work, with the format of its filling.
fn whole_of(accepted: &Accepted, filling: &Filling) -> Blamed
    ensures method { result.method ≡ accepted.now.profile.top }
    ensures format { result.format ≡ Some (out-Filling filling.now).format }
{
    Blamed {
        method: accepted.profile().top(),
        format: Some(filling.format),
    }
}
