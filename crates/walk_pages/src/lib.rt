//! Packets read by pages, each field once by what its encoding says.
#![tactic(auto)]

pub use numbers::page_number;
pub use reader::{ReadPage, asked_of, goes_on, goes_on_after, read_page};
pub use writer::{WrittenPage, write_format, write_page};
pub use writing::has_operations;

mod choices;
mod draft;
mod ends;
mod methods;
mod numbers;
mod picks;
mod reader;
mod writer;
mod writing;
