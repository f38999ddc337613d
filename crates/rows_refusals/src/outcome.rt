//! What comes of a row's call.

use std::fmt;
use std::fmt::{Display, Formatter, Write};

/// What came of a row's call.
#[derive(Clone, Copy)]
pub(crate) enum Outcome {
    /// The line is no row.
    NoRow,
    /// The call wasn't refused memory, and its answer is right.
    Right,
    /// It wasn't refused memory, and its answer is wrong.
    Wrong,
    /// It was refused memory and left all as before; made again, it gave the right answer.
    RightAgain,
    /// It was refused memory and left all as before; made again, it gave a wrong answer.
    WrongAgain,
    /// It was refused memory, and what it was given isn't as before.
    Changed,
    /// It was refused memory and kept the items before; it says so again whenever it is asked.
    Repeated,
}

impl Outcome {
    pub(crate) fn is_failed(self) -> bool {
        match self {
            Outcome::NoRow | Outcome::Right | Outcome::RightAgain | Outcome::Repeated => false,
            Outcome::Wrong | Outcome::WrongAgain | Outcome::Changed => true,
        }
    }
}

impl Display for Outcome {
    fn fmt<W: Write>(&self, f: &mut Formatter<W>) -> fmt::Result {
        f.write_str(match self {
            Outcome::NoRow => "",
            Outcome::Right => "right",
            Outcome::Wrong => "WRONG",
            Outcome::RightAgain => "refused, as before, then right",
            Outcome::WrongAgain => "refused, as before, then WRONG",
            Outcome::Changed => "refused, CHANGED",
            Outcome::Repeated => "refused, items kept, refused again",
        })
    }
}

/// How the first call of a row ended.
#[derive(Clone, Copy)]
pub(crate) enum First {
    /// With an answer, or with a fault other than out of memory.
    Answered,
    /// It was refused memory and left all as before.
    Kept,
    /// It was refused memory and left a change.
    Changed,
}

impl First {
    /// The first call was refused memory, and what it was given is as before or isn't.
    pub(crate) fn refused(is_as_before: bool) -> First {
        if is_as_before {
            First::Kept
        } else {
            First::Changed
        }
    }

    /// The outcome, where the last call's answer is right or isn't.
    pub(crate) fn then(self, is_right: bool) -> Outcome {
        match self {
            First::Answered if is_right => Outcome::Right,
            First::Answered => Outcome::Wrong,
            First::Kept if is_right => Outcome::RightAgain,
            First::Kept => Outcome::WrongAgain,
            First::Changed => Outcome::Changed,
        }
    }
}
