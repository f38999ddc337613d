//! The grammar of a profile, read into a tree.
#![tactic(auto)]

pub use parser::parse;
pub use tree::{
    Attribute, Bound, Bracket, Constant, Encoding, Expr, File, Item, Method, Operator, Owner, Part,
    Section, SectionKind,
};

mod counts;
mod expr;
mod file;
pub mod laws;
pub mod parser;
mod progress;
mod refusal;
mod statement;
mod tokens;
pub mod tree;
