//! What a handle leads to.

use walk_session::{PackRefusal, Session, UnpackRefusal};

/// Why a call packed or unpacked nothing.
#[derive(Clone, Copy)]
pub enum Last {
    /// No call did yet.
    Nothing,
    Pack(PackRefusal),
    Unpack(UnpackRefusal),
}

/// A session, and why the last refused call packed or unpacked nothing.
#[derive(Drop)]
pub struct Opened {
    pub session: Session,
    pub last: Last,
}
