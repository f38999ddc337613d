//! Tokens of the notation.

ghost use Rattle.std.specs.Prelude.{◌≡◌, ◌↔◌, IsTrue};
ghost use Rattle.text_source.specs.Kinds as spec;

use crate::span::Span;

/// A mark or a reserved word of the notation.
#[derive(Clone, Copy, PartialEq, Eq)]
pub enum Mark {
    /// `{`
    OpenBrace,
    /// `}`
    CloseBrace,
    /// `(`
    Open,
    /// `)`
    Close,
    /// `[`
    OpenSquare,
    /// `]`
    CloseSquare,
    /// `,`
    Comma,
    /// `;`
    Semicolon,
    /// `=:=`
    Binds,
    /// `=`
    Is,
    /// `.`
    Dot,
    /// `||`
    Or,
    /// `&&`
    And,
    /// `==`
    Equal,
    /// `!=`
    NotEqual,
    /// `<`
    Less,
    /// `>`
    Greater,
    /// `<=`
    LessEqual,
    /// `>=`
    GreaterEqual,
    /// `+`
    Plus,
    /// `-`
    Minus,
    /// `*`
    Times,
    /// `/`
    Divide,
    /// `%`
    Remainder,
    /// `^`
    Power,
    /// `!`
    Not,
    /// `UNCOMPRESSED`
    Uncompressed,
    /// `CONTROL`
    Control,
    /// `INITIAL`
    Initial,
    /// `DEFAULT`
    Default,
    /// `COMPRESSED`
    Compressed,
    /// `ENFORCE`
    Enforce,
    /// `THIS`
    This,
    /// `VARIABLE`
    Variable,
    /// `UVALUE`
    Uvalue,
    /// `ULENGTH`
    Ulength,
    /// `CVALUE`
    Cvalue,
    /// `CLENGTH`
    Clength,
    /// `true`
    True,
    /// `false`
    False,
}

/// What a token is. A bit text has so many digits, which spell the value, the first digit highest.
#[derive(Clone, Copy, PartialEq, Eq)]
pub enum TokenKind {
    Name,
    Number(u64),
    BitText { count: u8, value: u64 },
    Mark(Mark),
}

/// A token and its place in the text.
#[derive(Clone, Copy, PartialEq, Eq)]
pub struct Token {
    pub kind: TokenKind,
    pub span: Span,
}

/// Whether the marks are the same.
#[tactic(auto, unfolding(crate::specs::Kinds::same_mark))]
fn same_mark(a: Mark, b: Mark) -> bool
    ensures same { IsTrue result ↔ (a ≡ b) }
    ensures test { result ≡ spec.same_mark a b }
{
    a == b
}

/// Whether the token is this mark.
pub fn is_mark(kind: TokenKind, mark: Mark) -> bool
    ensures same { IsTrue result ↔ (kind ≡ TokenKind.Mark mark) }
    ensures test { result ≡ spec.is_mark mark kind }
{
    match kind {
        TokenKind::Mark(other) => same_mark(other, mark),
        _ => false,
    }
}
