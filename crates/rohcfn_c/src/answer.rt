//! What a call answers.

ghost use Rattle.std.specs.Prelude.{◌≡◌};
ghost use Rattle.rohcfn_c.specs.CallAnswer.{code_of, told_of_pack, told_of_unpack};

use walk_session::{PackRefusal, UnpackRefusal};

/// What a call answers.
#[derive(Clone, Copy)]
pub enum CallAnswer {
    Done,
    NoMemory,
    /// There is no session behind the handle.
    Closed,
    /// A buffer is too short.
    NoRoom,
    /// The profile or its certificate is refused.
    Refused,
    /// Octets and a count of bits don't fit each other.
    BadBits,
    /// F1.
    HeaderLength,
    /// F2.
    Asked,
    /// F3.
    NoFormat,
    /// U1.
    Truncated,
    /// U2.
    RefusedPacket,
    /// There is no such flow, asked field or count of flows.
    NoSuch,
    /// F5.
    NoReach,
    /// F6.
    Contexts,
}

impl CallAnswer {
    /// What C is given for it.
    pub(crate) fn code(self) -> i32
        ensures { result ≡ code_of self }
    {
        match self {
            CallAnswer::Done => 0,
            CallAnswer::NoMemory => 1,
            CallAnswer::Closed => 2,
            CallAnswer::NoRoom => 3,
            CallAnswer::Refused => 4,
            CallAnswer::BadBits => 5,
            CallAnswer::HeaderLength => 6,
            CallAnswer::Asked => 7,
            CallAnswer::NoFormat => 8,
            CallAnswer::Truncated => 9,
            CallAnswer::RefusedPacket => 10,
            CallAnswer::NoSuch => 11,
            CallAnswer::NoReach => 12,
            CallAnswer::Contexts => 13,
        }
    }

    /// What is answered where no packet was written.
    pub(crate) fn of_pack(refusal: PackRefusal) -> CallAnswer
        ensures { result ≡ told_of_pack refusal }
    {
        match refusal {
            PackRefusal::OutOfMemory => CallAnswer::NoMemory,
            PackRefusal::Flow => CallAnswer::NoSuch,
            PackRefusal::BadBits => CallAnswer::BadBits,
            PackRefusal::Asked => CallAnswer::Asked,
            PackRefusal::HeaderLength => CallAnswer::HeaderLength,
            PackRefusal::NoFormat => CallAnswer::NoFormat,
            PackRefusal::NoReach => CallAnswer::NoReach,
            PackRefusal::Contexts => CallAnswer::Contexts,
            PackRefusal::NoRoom(_) => CallAnswer::NoRoom,
        }
    }

    /// What is answered where no item was written.
    pub(crate) fn of_unpack(refusal: UnpackRefusal) -> CallAnswer
        ensures { result ≡ told_of_unpack refusal }
    {
        match refusal {
            UnpackRefusal::OutOfMemory => CallAnswer::NoMemory,
            UnpackRefusal::Flow => CallAnswer::NoSuch,
            UnpackRefusal::BadBits => CallAnswer::BadBits,
            UnpackRefusal::Truncated => CallAnswer::Truncated,
            UnpackRefusal::Refused(_) => CallAnswer::RefusedPacket,
            UnpackRefusal::NoRoom(_) => CallAnswer::NoRoom,
        }
    }
}
