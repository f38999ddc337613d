//! The digits of a candidate's number, of which nothing is promised: who writes by them tells the number of what is written.

/// What is left of a candidate's number, and how many candidates share what was taken of it.
#[derive(Clone, Copy)]
pub(crate) struct Choices {
    rest: u64,
    span: u64,
}

impl Choices {
    /// No number.
    pub(crate) const NONE: Choices = Choices { rest: 0, span: 0 };

    /// Any number: each digit is 0, as long as there are numbers enough.
    pub(crate) const ANY: Choices = Choices {
        rest: 0,
        span: u64::MAX,
    };

    pub(crate) fn new(rest: u64, span: u64) -> Choices {
        Choices { rest, span }
    }

    /// The digit of the next step, which goes on in so many ways. The first digit is the slowest.
    pub(crate) fn next(&mut self, ways: u64) -> Option<u64> {
        let span = self.span.checked_div(ways)?;
        let digit = self.rest.checked_div(span)?;
        self.rest -= digit * span;
        self.span = span;
        Some(digit)
    }
}
