//! The library methods of ROHC-FN (RFC 4997, section 4.11), each as the one solution of its relation in either direction,
//! and the register of a checksum.
#![tactic(auto)]

pub use crc::{crc_down, crc_of, crc_up};
pub use lsb::{low_bits, lsb_down, lsb_up};
pub use plain::{
    compressed_value_down, compressed_value_up, irregular_down, irregular_up, static_down,
    static_up, uncompressed_value_down, uncompressed_value_up,
};

pub mod crc;
pub mod laws;
pub mod lsb;
pub mod plain;
