//! Where a method is drawn, and what it goes by.

use crate::no_guess::NoGuess;
use cert_accepted::{Accepted, Picked};
use cert_compiled::Operations;
use sem_bits::{Bits, Cursor};
use sem_context::Context;
use sem_expr::Side;
use sem_filling::{AskedValue, Frame};
use sem_profile::Format;
use sqlite_items::at;
use std::alloc::Global;

/// Where a method is drawn: a frame, and what is accepted of its profile. In writing it has the values of its asked fields, and of the top its header.
#[derive(Clone, Copy)]
pub(crate) struct GuessFrame<'a> {
    pub(crate) accepted: &'a Accepted,
    pub(crate) frame: Frame<'a>,
    pub(crate) asked: &'a [AskedValue],
    pub(crate) header: Option<&'a Bits>,
}

/// What a drawing goes by: the packed bits, or the header and the number of a candidate. Their source is the cursor's bits, so many places after its own.
#[derive(Clone, Copy)]
pub(crate) enum Mode {
    Read,
    Write(u64),
}

impl Mode {
    /// The side of the source.
    pub(crate) fn side(self) -> Side {
        match self {
            Mode::Read => Side::Compressed,
            Mode::Write(_) => Side::Uncompressed,
        }
    }
}

/// A format that is drawn: its index, itself, its operations, and the digits of its candidate, none in reading.
#[derive(Clone, Copy)]
pub(crate) struct FormatPlan<'a> {
    pub(crate) index: usize,
    pub(crate) format: &'a Format,
    pub(crate) operations: &'a Operations,
    pub(crate) digits: Digits,
}

/// What is left of a candidate's number: its place among those that share the digits so far, and how many these are.
#[derive(Clone, Copy)]
pub(crate) struct Digits {
    rest: u64,
    span: u64,
}

impl Digits {
    /// The next digit, which goes on in `radix` ways. The error is Nowhere.
    pub(crate) fn next(&mut self, radix: u64) -> Result<u64, NoGuess> {
        if radix == 0 || self.span < radix {
            return Err(NoGuess::Nowhere);
        }
        let span = self.span / radix;
        if span == 0 {
            return Err(NoGuess::Nowhere);
        }
        self.span = span;
        let digit = self.rest / span;
        self.rest %= span;
        Ok(digit)
    }
}

impl<'a> GuessFrame<'a> {
    /// Where a method is drawn that has no asked fields, or of which they aren't told, and no header of its own.
    pub(crate) fn of(
        accepted: &'a Accepted,
        context: &'a Context,
        method: usize,
        arguments: &'a [i128],
        path: &'a str,
    ) -> GuessFrame<'a> {
        GuessFrame {
            accepted,
            frame: Frame {
                profile: accepted.profile(),
                context,
                method,
                arguments,
                path,
            },
            asked: &[],
            header: None,
        }
    }

    /// The format to which the mode leads. The error is Nowhere, Short or out of memory.
    pub(crate) fn start(
        &self,
        alloc: Global,
        mode: Mode,
        cursor: &Cursor<'_>,
        from: usize,
    ) -> Result<FormatPlan<'a>, NoGuess> {
        let found = match mode {
            Mode::Read => {
                let index = self.read_index(alloc, cursor, from)?;
                self.started(mode, index, Digits { rest: 0, span: 1 })
            }
            Mode::Write(number) => match self.numbered(number) {
                Some((index, digits)) => self.started(mode, index, digits),
                None => None,
            },
        };
        match found {
            Some(start) => Ok(start),
            None => Err(NoGuess::Nowhere),
        }
    }

    fn started(&self, mode: Mode, index: usize, digits: Digits) -> Option<FormatPlan<'a>> {
        let method = self.accepted.profile().methods().get(self.frame.method)?;
        let plans = at(
            self.accepted.compiled().plan_acts.as_slice(),
            self.frame.method,
        )?
        .get(index)?;
        let operations = match mode {
            Mode::Read => plans.read.as_ref()?,
            Mode::Write(_) => plans.write.as_ref()?,
        };
        Some(FormatPlan {
            index,
            format: method.formats.get(index)?,
            operations,
            digits,
        })
    }

    /// The format to which the method's tree leads. The error is Nowhere, Short or out of memory.
    pub(crate) fn read_index(
        &self,
        alloc: Global,
        cursor: &Cursor<'_>,
        from: usize,
    ) -> Result<usize, NoGuess> {
        match self.accepted.pick_ahead(alloc, &self.frame, cursor, from)? {
            Picked::Format(index) => Ok(index),
            Picked::Nothing => Err(NoGuess::Nowhere),
            Picked::Short => Err(NoGuess::Short),
        }
    }

    /// The format into which the number falls, and the digits that are left.
    fn numbered(&self, number: u64) -> Option<(usize, Digits)> {
        let spans = at(self.accepted.spans(), self.frame.method)?.as_slice();
        let mut rest = number;
        for index in 0..spans.len() {
            let span = spans[index];
            if rest < span {
                return Some((index, Digits { rest, span }));
            }
            rest -= span;
        }
        None
    }

    /// Whether the candidate with this number is of a format whose write plan is hopeful.
    pub(crate) fn is_hopeful(&self, number: u64) -> Option<bool> {
        let (index, _) = self.numbered(number)?;
        let plans = at(
            self.accepted.compiled().plan_acts.as_slice(),
            self.frame.method,
        )?
        .get(index)?;
        Some(plans.write.as_ref()?.is_hopeful)
    }

    /// How many candidates the method has. The error is Nowhere.
    pub(crate) fn radix(&self, method: usize) -> Result<u64, NoGuess> {
        match at(self.accepted.counts(), method) {
            Some(radix) => Ok(*radix),
            None => Err(NoGuess::Nowhere),
        }
    }
}
