//! Packing and unpacking by an accepted profile.
#![tactic(auto)]

pub use reader::{UnpackFault, Unpacked, unpack, unpack_drawn};
pub use search::{Candidate, Packed, has_item};
pub use sender::{Sent, pack_page};
pub use top::{item_of, most_octets};
pub use writer::{PackFault, pack, pack_from};

mod asked;
pub mod laws;
pub mod reader;
mod search;
mod sender;
mod top;
pub mod writer;
