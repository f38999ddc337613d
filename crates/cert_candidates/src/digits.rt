//! The digits of the number of a candidate.

ghost use Rattle.std.specs.Prelude.{◌≡◌, ◌+◌, ◌*◌, ◌^◌, ◌≤◌, ◌<◌, IfSome, IfNone};
ghost use Rattle.std.specs.List.{sum};
ghost use Rattle.cert_candidates.specs.Starts.{IsStart};
ghost use Rattle.cert_candidates.specs.Reading.{Divides, IsNext, CarriesOn, ShareDigits, ShareUpTo};

/// What is left of a candidate's number: its place among the candidates that share the digits which were read, and how many these are.
#[derive(Clone, Copy)]
pub struct Digits {
    rest: u64,
    span: u64,
}

/// Where a candidate's number begins: its format, by its index, and the digits of its choices.
#[derive(Clone, Copy)]
pub struct Start {
    pub format: usize,
    pub digits: Digits,
}

/// Into which format a number falls: formats stand in file order, and `spans` has how many candidates each of them has. None where the number
/// is not below their sum.
pub fn start_of(spans: &[u64], number: u64) -> Option<Start>
    ensures found { IfSome result (IsStart spans.now number) }
    ensures none { IfNone result (sum spans.now ≤ number) }
{
    let mut rest = number;
    for format in 0..spans.len() {
        let span = spans[format];
        if rest < span {
            return Some(Start {
                format,
                digits: Digits { rest, span },
            });
        }
        rest -= span;
    }
    None
}

impl Digits {
    /// The digit of the next step, which goes on in `radix` ways. The first digit is the slowest.
    #[tactic(auto, using(crate::proofs::ReadingSplitting::next_carries))]
    pub fn next(&mut self, radix: u64) -> u64
        requires within { self.old.rest < self.old.span }
        requires divides { Divides radix self.old.span }
        ensures split { IsNext radix self.old result self.new }
        ensures fits { radix * self.new.span < 2 ^ 64 }
        ensures read { CarriesOn radix self.old result self.new }
    {
        // Most digits are the last one, which needs no division.
        if self.span == radix {
            let digit = self.rest;
            self.span = 1;
            self.rest = 0;
            return digit;
        }
        self.span /= radix;
        let digit = self.rest / self.span;
        self.rest %= self.span;
        digit
    }

    /// Goes on to the candidate so many places after this one, which shares the digits that were read.
    pub fn skip(&mut self, numbers: u64)
        requires within { self.old.rest + numbers < self.old.span }
        ensures rest { self.new.rest ≡ self.old.rest + numbers }
        ensures span { self.new.span ≡ self.old.span }
    {
        self.rest += numbers;
    }

    /// How many candidates share the digits that were read, from this one on: so many a candidate that fails here takes with it.
    pub fn alike(&self) -> u64
        requires within { self.now.rest < self.now.span }
        ensures count { result + self.now.rest ≡ self.now.span }
        ensures share { ShareDigits self.now result }
    {
        self.span - self.rest
    }

    /// How many candidates from this one on have one of the next `digits` digits from the one that was read last on, and share those before it: so many
    /// are taken with it where the fillings inside with all these numbers fail. They are one digit at least, and all within 64 bits.
    pub fn alike_up_to(&self, digits: u64) -> u64
        requires within { self.now.rest < self.now.span }
        requires some { 0 < digits }
        requires fits { digits * self.now.span < 2 ^ 64 }
        ensures count { result + self.now.rest ≡ digits * self.now.span }
        ensures share { ShareUpTo digits self.now result }
    {
        let all = digits * self.span;
        all - self.rest
    }
}
