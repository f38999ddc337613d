//! From octets to tokens.

ghost use Rattle.std.specs.Prelude.{[], ◌∷◌, ◌≡◌, ◌<◌, ◌≤◌, ◌-◌, ◌^◌, ℕ, List, length, drop, get_or, option_map, Some, None, Ok, Err, IfOk, IfErr, MatchResult};
ghost use Rattle.std.specs.Str.{bytes_eq};
ghost use Rattle.std.specs.Char.{is_ascii_digit, is_ascii_alphabetic};
ghost use Rattle.text_source.specs.Lexical as spec;
ghost use Rattle.text_source.specs.declared.token.Token.{Token};
ghost use Rattle.text_source.specs.Scan as scan;

use crate::fault::{Fault, FaultKind, SourceError};
use crate::source::Source;
use crate::span::Span;
use crate::token::{Mark, Token, TokenKind};
use std::alloc::Global;

// For each octet what it is: `-` white space, `a` a letter, `0` a digit, `_` itself, `.` another.
static CLASSES: [u8; 256] = *b"\
    .........--.--..................\
    -...............0000000000......\
    .aaaaaaaaaaaaaaaaaaaaaaaaaa...._\
    .aaaaaaaaaaaaaaaaaaaaaaaaaa.....\
    ................................\
    ................................\
    ................................\
    ................................";

/// A token, or none for a gap, and what is left after it.
type Lexeme<'a> = Result<(Option<TokenKind>, &'a [u8]), Stop<'a>>;

/// Why nothing is read: the fault's kind, and what is left at and after its place.
#[derive(Clone, Copy)]
struct Stop<'a> {
    kind: FaultKind,
    at: &'a [u8],
    to: &'a [u8],
}

/// The character at the front, or the end, is not allowed.
fn stray(at: &[u8]) -> Stop<'_>
    ensures kind { result.kind ≡ FaultKind.Character }
    ensures at { result.at.now ≡ at.now }
    ensures to { result.to.now ≡ drop 1 at.now }
{
    Stop {
        kind: FaultKind::Character,
        at,
        to: after_one(at),
    }
}

/// A mark, after which `rest` is left.
fn mark(found: Mark, rest: &[u8]) -> Lexeme<'_>
    ensures { scan.seen result ≡ scan.marked found rest.now }
{
    Ok((Some(TokenKind::Mark(found)), rest))
}

/// What the octet is, in the words of the table.
fn class_of(c: u8) -> u8
    ensures { result ≡ get_or CLASSES c 0 }
{
    CLASSES[usize::from(c)]
}

fn is_word(c: u8) -> bool
    ensures { result ≡ spec.is_word c }
{
    class_of(c) >= b'0'
}

fn is_space(c: u8) -> bool
    ensures { result ≡ spec.is_space c }
{
    class_of(c) == b'-'
}

fn is_letter(c: u8) -> bool
    ensures { result ≡ is_ascii_alphabetic c }
{
    class_of(c) == b'a'
}

fn is_digit(c: u8) -> bool
    ensures { result ≡ is_ascii_digit c }
{
    class_of(c) == b'0'
}

fn is_bit(c: u8) -> bool
    ensures { result ≡ spec.is_bit c }
{
    c == b'0' || c == b'1'
}

fn is_hex(c: u8) -> bool
    ensures { result ≡ spec.is_hex c }
{
    is_digit(c) || (b'a' <= c && c <= b'f') || (b'A' <= c && c <= b'F')
}

/// The octets of which a run is made.
#[derive(Clone, Copy)]
enum Class {
    Word,
    Digit,
    Bit,
    Hex,
    Line,
}

fn is_in(class: Class, c: u8) -> bool
    ensures { result ≡ scan.is_in class c }
{
    match class {
        Class::Word => is_word(c),
        Class::Digit => is_digit(c),
        Class::Bit => is_bit(c),
        Class::Hex => is_hex(c),
        Class::Line => c != b'\n',
    }
}

/// Whether that octet comes next.
fn is_next(c: u8, text: &[u8]) -> bool
    ensures { result ≡ spec.is_next c text.now }
{
    match text {
        [next, ..] => *next == c,
        [] => false,
    }
}

/// What is left after one octet, if there is one.
fn after_one(text: &[u8]) -> &[u8]
    ensures { result.now ≡ drop 1 text.now }
{
    match text {
        [_, rest @ ..] => rest,
        [] => text,
    }
}

/// What is left after the octets of a class.
#[tactic(auto, unfolding(crate::specs::Scan::after_run))]
fn after_run(class: Class, text: &[u8]) -> &[u8]
    ensures { result.now ≡ scan.after_run (scan.is_in class) text.now }
{
    let mut rest = text;
    'run: while let [first, tail @ ..] = rest {
        if !is_in(class, *first) {
            break;
        }
        rest = tail;
    }
    rest
}

/// What is left after the first `*/`.
#[tactic(auto, unfolding(crate::specs::Scan::after_comment))]
fn after_comment(text: &[u8]) -> Option<&[u8]>
    ensures { option_map (λ rest. rest.now) result ≡ scan.after_comment text.now }
{
    let mut rest = text;
    'seek: while let [first, tail @ ..] = rest {
        if *first == b'*' && is_next(b'/', tail) {
            return Some(after_one(tail));
        }
        rest = tail;
    }
    None
}

/// The octets of `from` up to `to`, which is left of it.
fn text_of<'a>(from: &'a [u8], to: &[u8]) -> &'a [u8]
    ensures { result.now ≡ spec.text_of from.now to.now }
{
    &from[..from.len().saturating_sub(to.len())]
}

/// The number that a digit stands for.
fn digit(c: u8) -> u64
    ensures { result ≡ spec.digit c }
{
    if c <= b'9' {
        u64::from(c.saturating_sub(b'0'))
    } else if c <= b'F' {
        u64::from(c.saturating_sub(b'A' - 10))
    } else {
        u64::from(c.saturating_sub(b'a' - 10))
    }
}

/// The number that the digits of a base spell, if it fits.
fn value(base: u64, digits: &[u8]) -> Option<u64>
    requires { 0 < base }
    ensures { result ≡ scan.value base digits.now }
{
    let mut n: u64 = 0;
    for octet in digits {
        n = base.checked_mul(n)?.checked_add(digit(*octet))?;
    }
    Some(n)
}

/// A number of that base, whose digits are those of `digits` up to `rest`.
#[tactic(auto, unfolding(crate::specs::Scan::number, crate::specs::Scan::after_number))]
fn number<'a>(base: u64, text: &'a [u8], digits: &[u8], rest: &'a [u8]) -> Lexeme<'a>
    requires { 0 < base }
    ensures { scan.seen result ≡ scan.number base text.now digits.now rest.now }
{
    let Some(n) = value(base, text_of(digits, rest)) else {
        return Err(Stop {
            kind: FaultKind::Large,
            at: text,
            to: rest,
        });
    };
    match rest {
        [next, tail @ ..] if is_word(*next) => Err(Stop {
            kind: FaultKind::Character,
            at: rest,
            to: tail,
        }),
        _ => Ok((Some(TokenKind::Number(n)), rest)),
    }
}

/// A number of a base whose digits are of a class, `digits` being what comes after its prefix.
#[tactic(auto, unfolding(crate::specs::Scan::prefixed))]
fn prefixed<'a>(class: Class, base: u64, text: &'a [u8], digits: &'a [u8]) -> Lexeme<'a>
    requires { 0 < base }
    ensures { scan.seen result ≡ scan.prefixed (scan.is_in class) base text.now digits.now }
{
    match digits {
        [first, rest @ ..] if is_in(class, *first) => {
            number(base, text, digits, after_run(class, rest))
        }
        _ => Err(stray(digits)),
    }
}

/// What begins with a digit.
#[tactic(auto, unfolding(crate::specs::Scan::numeral))]
fn numeral<'a>(text: &'a [u8], first: u8, rest: &'a [u8]) -> Lexeme<'a>
    requires { text.now ≡ first ∷ rest.now }
    ensures { scan.seen result ≡ scan.numeral first rest.now }
{
    if first == b'0' && is_next(b'b', rest) {
        prefixed(Class::Bit, 2, text, after_one(rest))
    } else if first == b'0' && is_next(b'x', rest) {
        prefixed(Class::Hex, 16, text, after_one(rest))
    } else {
        number(10, text, text, after_run(Class::Digit, rest))
    }
}

/// Whether the octets are the same. A function of its own, so that nothing is made ready for it where it isn't called.
fn is_same(word: &[u8], spelling: &[u8]) -> bool
    ensures { result ≡ bytes_eq word.now spelling.now }
{
    word == spelling
}

/// Whether the word is so written. Most are not, and differ at their first octet.
fn is_written(word: &[u8], spelling: &[u8]) -> bool
    ensures { result ≡ bytes_eq word.now spelling.now }
{
    match spelling {
        [first, ..] => is_next(*first, word) && is_same(word, spelling),
        [] => word.is_empty(),
    }
}

/// The word of an operand that is so written.
#[tactic(auto, unfolding(crate::specs::Scan::operand))]
fn operand(word: &[u8]) -> Option<Mark>
    ensures { result ≡ scan.operand word.now }
{
    if is_written(word, b"THIS") {
        Some(Mark::This)
    } else if is_written(word, b"UVALUE") {
        Some(Mark::Uvalue)
    } else if is_written(word, b"ULENGTH") {
        Some(Mark::Ulength)
    } else if is_written(word, b"CVALUE") {
        Some(Mark::Cvalue)
    } else if is_written(word, b"CLENGTH") {
        Some(Mark::Clength)
    } else if is_written(word, b"true") {
        Some(Mark::True)
    } else if is_written(word, b"false") {
        Some(Mark::False)
    } else {
        None
    }
}

/// The reserved word that is so written.
#[tactic(auto, unfolding(crate::specs::Scan::reserved))]
fn reserved(word: &[u8]) -> Option<Mark>
    ensures { result ≡ scan.reserved word.now }
{
    if is_written(word, b"UNCOMPRESSED") {
        Some(Mark::Uncompressed)
    } else if is_written(word, b"CONTROL") {
        Some(Mark::Control)
    } else if is_written(word, b"INITIAL") {
        Some(Mark::Initial)
    } else if is_written(word, b"DEFAULT") {
        Some(Mark::Default)
    } else if is_written(word, b"COMPRESSED") {
        Some(Mark::Compressed)
    } else if is_written(word, b"ENFORCE") {
        Some(Mark::Enforce)
    } else if is_written(word, b"VARIABLE") {
        Some(Mark::Variable)
    } else {
        operand(word)
    }
}

/// A name or a reserved word.
fn word(text: &[u8]) -> TokenKind
    ensures { result ≡ scan.word_kind (scan.reserved text.now) }
{
    match reserved(text) {
        Some(mark) => TokenKind::Mark(mark),
        None => TokenKind::Name,
    }
}

/// A bit text of these digits, which ends at `rest`.
#[tactic(auto, unfolding(crate::specs::Scan::quoted))]
fn quoted<'a>(text: &'a [u8], digits: &[u8], rest: &'a [u8]) -> Lexeme<'a>
    ensures { scan.seen result ≡ scan.quoted text.now digits.now rest.now }
{
    let large = Stop {
        kind: FaultKind::Large,
        at: text,
        to: rest,
    };
    if digits.len() > 64 {
        return Err(large);
    }
    let count = digits.len() as u8;
    match value(2, digits) {
        Some(value) => Ok((Some(TokenKind::BitText { count, value }), rest)),
        None => Err(large),
    }
}

/// A bit text, `inside` being what comes after its first quote.
#[tactic(auto, unfolding(crate::specs::Scan::bit_text, crate::specs::Scan::after_bits))]
fn bit_text<'a>(text: &'a [u8], inside: &'a [u8]) -> Lexeme<'a>
    ensures { scan.seen result ≡ scan.bit_text text.now inside.now }
{
    let rest = after_run(Class::Bit, inside);
    let digits = text_of(inside, rest);
    match rest {
        [b'\'', after @ ..] => quoted(text, digits, after),
        _ => Err(stray(rest)),
    }
}

/// What begins with `/`, `rest` being what comes after it.
#[tactic(auto, unfolding(crate::specs::Scan::slash))]
fn slash<'a>(text: &'a [u8], rest: &'a [u8]) -> Lexeme<'a>
    requires { text.now ≡ 47 ∷ rest.now }
    ensures { scan.seen result ≡ scan.slash rest.now }
{
    match rest {
        [b'/', inside @ ..] => Ok((None, after_run(Class::Line, inside))),
        [b'*', inside @ ..] => match after_comment(inside) {
            Some(after) => Ok((None, after)),
            None => Err(Stop {
                kind: FaultKind::OpenComment,
                at: text,
                to: &[],
            }),
        },
        _ => mark(Mark::Divide, rest),
    }
}

/// What begins with `=`, `rest` being what comes after it.
#[tactic(auto, unfolding(crate::specs::Scan::equals))]
fn equals(rest: &[u8]) -> Lexeme<'_>
    ensures { scan.seen result ≡ scan.equals rest.now }
{
    match rest {
        [b'=', after @ ..] => mark(Mark::Equal, after),
        [b':', after @ ..] if is_next(b'=', after) => mark(Mark::Binds, after_one(after)),
        _ => mark(Mark::Is, rest),
    }
}

/// What begins with a mark that `=` makes longer, `rest` being what comes after it.
#[tactic(auto, unfolding(crate::specs::Scan::with_equals))]
fn with_equals(long: Mark, short: Mark, rest: &[u8]) -> Lexeme<'_>
    ensures { scan.seen result ≡ scan.with_equals long short rest.now }
{
    match rest {
        [b'=', after @ ..] => mark(long, after),
        _ => mark(short, rest),
    }
}

/// What begins with half of a mark of two equal octets, `rest` being what comes after that.
#[tactic(auto, unfolding(crate::specs::Scan::doubled))]
fn doubled<'a>(found: Mark, half: u8, text: &'a [u8], rest: &'a [u8]) -> Lexeme<'a>
    requires { text.now ≡ half ∷ rest.now }
    ensures { scan.seen result ≡ scan.doubled found half rest.now }
{
    match rest {
        [next, after @ ..] if *next == half => mark(found, after),
        _ => Err(stray(text)),
    }
}

/// The mark that this octet is, whatever follows.
#[tactic(auto, unfolding(crate::specs::Scan::single))]
fn single(c: u8) -> Option<Mark>
    ensures { result ≡ scan.single c }
{
    match c {
        b'{' => Some(Mark::OpenBrace),
        b'}' => Some(Mark::CloseBrace),
        b'(' => Some(Mark::Open),
        b')' => Some(Mark::Close),
        b'[' => Some(Mark::OpenSquare),
        b']' => Some(Mark::CloseSquare),
        b',' => Some(Mark::Comma),
        b';' => Some(Mark::Semicolon),
        b'.' => Some(Mark::Dot),
        b'+' => Some(Mark::Plus),
        b'-' => Some(Mark::Minus),
        b'*' => Some(Mark::Times),
        b'%' => Some(Mark::Remainder),
        b'^' => Some(Mark::Power),
        _ => None,
    }
}

/// What begins with another octet.
#[tactic(auto, unfolding(crate::specs::Scan::other))]
fn other<'a>(text: &'a [u8], first: u8, rest: &'a [u8]) -> Lexeme<'a>
    requires { text.now ≡ first ∷ rest.now }
    ensures { scan.seen result ≡ scan.other first rest.now }
{
    match first {
        b'\'' => bit_text(text, rest),
        b'=' => equals(rest),
        b'/' => slash(text, rest),
        b'!' => with_equals(Mark::NotEqual, Mark::Not, rest),
        b'<' => with_equals(Mark::LessEqual, Mark::Less, rest),
        b'>' => with_equals(Mark::GreaterEqual, Mark::Greater, rest),
        b'&' => doubled(Mark::And, first, text, rest),
        b'|' => doubled(Mark::Or, first, text, rest),
        _ => match single(first) {
            Some(found) => mark(found, rest),
            None => Err(stray(text)),
        },
    }
}

/// The token or the gap at the front, and what is left after it.
#[tactic(auto, unfolding(crate::specs::Scan::lexeme))]
fn lexeme(text: &[u8]) -> Lexeme<'_>
    ensures { scan.seen result ≡ scan.lexeme text.now }
{
    let [first, rest @ ..] = text else {
        return Err(stray(text));
    };
    let first = *first;
    if is_space(first) {
        Ok((None, rest))
    } else if is_letter(first) {
        let after = after_run(Class::Word, rest);
        Ok((Some(word(text_of(text, after))), after))
    } else if is_digit(first) {
        numeral(text, first, rest)
    } else {
        other(text, first, rest)
    }
}

/// The token or the gap at the front, in the words of the definition.
fn next(text: &[u8]) -> Lexeme<'_>
    requires { 0 < length text.now }
    ensures { MatchResult result
        (λ x. spec.IsLexeme x.0 text.now x.1.now × (length x.1.now < length text.now))
        (λ stop. spec.Stops stop.kind text.now stop.at.now stop.to.now) }
{
    lexeme(text)
}

/// The place of the octets of `from` up to `to`, which are left of the text.
fn span_of(text: &[u8], from: &[u8], to: &[u8]) -> Span
    requires { length text.now ≤ 2 ^ 20 }
    ensures { result ≡ spec.span_of (length text.now) from.now to.now }
{
    Span {
        from: text.len().saturating_sub(from.len()) as u32,
        to: text.len().saturating_sub(to.len()) as u32,
    }
}

/// The tokens of the octets, or the fault at the first place where there is none.
fn tokens_of(alloc: Global, text: &[u8]) -> Result<Vec<Token>, SourceError>
    requires { length text.now ≤ 2 ^ 20 }
    ensures lexed { IfOk result (λ v. spec.Lexed text.now v.items) }
    ensures fault { IfErr result (spec.Refuses text.now) }
{
    let mut tokens = Vec::new(alloc);
    let mut rest = text;
    'lex: while !rest.is_empty() {
        match next(rest) {
            Ok((Some(kind), after)) => {
                let span = span_of(text, rest, after);
                tokens.push(Token { kind, span })?;
                rest = after;
            }
            Ok((None, after)) => rest = after,
            Err(stop) => {
                return Err(SourceError::Fault(Fault {
                    kind: stop.kind,
                    at: span_of(text, stop.at, stop.to),
                }));
            }
        }
    }
    Ok(tokens)
}

/// The tokens of a text, in order, or the fault at the first place where there is none.
///
/// E01 stands at an octet, or at the end of the text with no octet; E03 at the whole token.
pub fn lex(alloc: Global, source: &Source<'_>) -> Result<Vec<Token>, SourceError>
    ensures lexed { IfOk result (λ v. spec.Lexed source.now v.items) }
    // E01 and E03 stand only where they are, after tokens and gaps; no other fault comes.
    ensures fault { IfErr result (spec.Refuses source.now) }
    // A text that has tokens is refused only where memory is out.
    ensures only { (ts : List Token) → spec.Lexed source.now ts
        → MatchResult result (λ v. v.items ≡ ts) (λ e. e ≡ SourceError.OutOfMemory) }
{
    tokens_of(alloc, source.text().as_bytes())
}
