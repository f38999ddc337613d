//! The text of a profile: its places, its faults, its tokens, and what a name is.
#![tactic(auto)]

pub use fault::{Fault, FaultKind, SourceError};
pub use lexer::lex;
pub use source::{Position, Source, line_column};
pub use span::Span;
pub use token::{Mark, Token, TokenKind, is_mark};

pub mod fault;
pub mod laws;
pub mod lexer;
pub mod names;
pub mod source;
pub mod span;
pub mod token;
