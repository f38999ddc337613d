//! The tree of a profile, as its grammar gives it. Names are places of the text.

ghost use Rattle.std.specs.Prelude.{◌≡◌};
ghost use Rattle.text_tree.specs.Limits.{is_initial_kind};
ghost use Rattle.text_tree.specs.Spans as spec;

use sqlite_items::{Boxed, Items};
use text_source::Span;

/// An operator between two operands. `!` is none.
#[derive(Clone, Copy, PartialEq, Eq)]
pub enum Operator {
    /// `^`
    Power,
    /// `*`
    Times,
    /// `/`
    Divide,
    /// `%`
    Remainder,
    /// `+`
    Plus,
    /// `-`
    Minus,
    /// `==`
    Equal,
    /// `!=`
    NotEqual,
    /// `<`
    Less,
    /// `>`
    Greater,
    /// `<=`
    LessEqual,
    /// `>=`
    GreaterEqual,
    /// `&&`
    And,
    /// `||`
    Or,
}

/// A word that can stand after the dot.
#[derive(Clone, Copy, PartialEq, Eq)]
pub enum Attribute {
    Uvalue,
    Ulength,
    Cvalue,
    Clength,
}

/// What an attribute belongs to.
#[derive(Clone, Copy, PartialEq, Eq)]
pub enum Owner {
    /// The field of this name.
    Field(Span),
    /// `THIS`
    This,
}

/// An expression, whole number or boolean. The first place of each case is that of the whole part.
#[derive(Drop)]
pub enum Expr {
    Number(Span, u64),
    /// A minus sign and a number.
    Negative(Span, u64),
    /// `true` or `false`.
    Truth(Span, bool),
    /// A constant's or a parameter's name.
    Name(Span),
    Attribute(Span, Owner, Attribute),
    /// What stands in round brackets, which belong to the place.
    Group(Span, Boxed<Expr>),
    /// `!` and its operand.
    Not(Span, Boxed<Expr>),
    /// The second place is that of the operator alone.
    Binary(Span, Operator, Span, Boxed<Expr>, Boxed<Expr>),
}

impl Expr {
    /// The place of the whole expression.
    pub fn span(&self) -> Span
        ensures { result ≡ spec.span_of self.now }
    {
        match self {
            Expr::Number(span, _) => *span,
            Expr::Negative(span, _) => *span,
            Expr::Truth(span, _) => *span,
            Expr::Name(span) => *span,
            Expr::Attribute(span, _, _) => *span,
            Expr::Group(span, _) => *span,
            Expr::Not(span, _) => *span,
            Expr::Binary(span, _, _, _, _) => *span,
        }
    }
}

/// How a field is encoded.
#[derive(Drop)]
pub enum Encoding {
    /// A bit text: its place, how many digits it has, and the number that they spell.
    Bits(Span, usize, u64),
    /// A method's name and its arguments; without round brackets there are none.
    Call(Span, Items<Expr>),
}

/// What square brackets hold. The place goes from `[` to `]`.
#[derive(Drop)]
pub enum Bracket {
    /// `VARIABLE`
    Variable(Span),
    Lengths(Span, Items<Expr>),
}

/// A field that is bound to its encoding by `=:=`.
#[derive(Drop)]
pub struct Bound {
    pub name: Span,
    pub encoding: Encoding,
    pub bracket: Option<Bracket>,
}

/// A statement of a section.
#[derive(Drop)]
pub enum Item {
    /// A field's name and its bracket, without an encoding.
    Field(Span, Option<Bracket>),
    Bound(Bound),
    /// The place of the word `ENFORCE`, and what stands in its round brackets.
    Enforce(Span, Expr),
}

/// What a section gives.
#[derive(Clone, Copy, PartialEq, Eq)]
pub enum SectionKind {
    Uncompressed,
    Control,
    Initial,
    Default,
    /// A format, with its name if it has one.
    Compressed(Option<Span>),
}

impl SectionKind {
    /// Whether the section is INITIAL.
    pub fn is_initial(self) -> bool
        ensures { result ≡ is_initial_kind self }
    {
        match self {
            SectionKind::Initial => true,
            _ => false,
        }
    }
}

/// A section of a method. The sections INITIAL and DEFAULT hold only bound fields.
#[derive(Drop)]
pub struct Section {
    pub kind: SectionKind,
    /// The place of the section's first word.
    pub word: Span,
    pub items: Items<Item>,
}

#[derive(Drop)]
pub struct Constant {
    pub name: Span,
    pub value: Expr,
}

#[derive(Drop)]
pub struct Method {
    pub name: Span,
    pub parameters: Items<Span>,
    pub sections: Items<Section>,
}

#[derive(Drop)]
pub enum Part {
    Constant(Constant),
    Method(Method),
}

/// A profile: its constants and methods, in the order of the text.
#[derive(Drop)]
pub struct File {
    pub parts: Items<Part>,
}
