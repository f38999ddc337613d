//! Lists of a few facts, which take little room and no memory.

ghost use Rattle.std.specs.Prelude.{◌≡◌};
ghost use Rattle.cert_plans.specs.Few as spec;

use cert_types::Fact;
use sem_expr::Side;

/// A few facts of one field, told by their kind.
#[derive(Clone, Copy)]
pub enum FewFacts {
    None,
    /// That the field is done.
    Done(usize),
    /// The length of a side.
    Length(Side, usize),
    /// The bits of a side.
    Bits(Side, usize),
    /// The length and the bits of a side.
    Whole(Side, usize),
    /// The bits of a side, and that the field is done.
    Taken(Side, usize),
    /// All that a call gives.
    All(usize),
}

impl FewFacts {
    /// The facts, written out.
    pub fn written(self) -> WrittenFacts
        ensures { spec.written_in result ≡ spec.facts_in self }
    {
        match self {
            FewFacts::None => WrittenFacts::None,
            FewFacts::Done(field) => WrittenFacts::One([Fact::Done(field)]),
            FewFacts::Length(side, field) => WrittenFacts::One([Fact::LengthOf(side, field)]),
            FewFacts::Bits(side, field) => WrittenFacts::One([Fact::BitsOf(side, field)]),
            FewFacts::Whole(side, field) => {
                WrittenFacts::Two([Fact::LengthOf(side, field), Fact::BitsOf(side, field)])
            }
            FewFacts::Taken(side, field) => {
                WrittenFacts::Two([Fact::BitsOf(side, field), Fact::Done(field)])
            }
            FewFacts::All(field) => WrittenFacts::Five([
                Fact::LengthOf(Side::Uncompressed, field),
                Fact::BitsOf(Side::Uncompressed, field),
                Fact::LengthOf(Side::Compressed, field),
                Fact::BitsOf(Side::Compressed, field),
                Fact::Done(field),
            ]),
        }
    }
}

/// A few facts, written out.
#[derive(Clone, Copy)]
pub enum WrittenFacts {
    None,
    One([Fact; 1]),
    Two([Fact; 2]),
    Five([Fact; 5]),
}

impl WrittenFacts {
    /// The facts.
    pub fn as_slice(&self) -> &[Fact]
        ensures { result.now ≡ spec.written_in self.now }
    {
        match self {
            WrittenFacts::None => &[],
            WrittenFacts::One(facts) => facts,
            WrittenFacts::Two(facts) => facts,
            WrittenFacts::Five(facts) => facts,
        }
    }
}
