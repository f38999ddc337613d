//! What the name of a method stands for.

ghost use Rattle.std.specs.Prelude.{◌≡◌, length};
ghost use Rattle.text_statements.specs.Callees as spec;

use sem_profile::{Words, same};

/// The methods of a file, by their names, with how many parameters each has.
#[derive(Drop)]
pub struct Methods<'a, 't> {
    pub names: &'a Words<'t>,
    pub arities: &'a [usize],
}

/// A library method (RFC 4997, section 4.11), or one of the file by its place among the methods.
#[derive(Clone, Copy, PartialEq, Eq)]
pub enum Callee {
    UncompressedValue,
    CompressedValue,
    Irregular,
    Static,
    Lsb,
    Crc,
    Own(usize),
}

fn library(name: &[u8]) -> Option<Callee>
    ensures { result ≡ spec.library name.now }
{
    if same(name, b"uncompressed_value".as_slice()) {
        return Some(Callee::UncompressedValue);
    }
    if same(name, b"compressed_value".as_slice()) {
        return Some(Callee::CompressedValue);
    }
    if same(name, b"irregular".as_slice()) {
        return Some(Callee::Irregular);
    }
    if same(name, b"static".as_slice()) {
        return Some(Callee::Static);
    }
    if same(name, b"lsb".as_slice()) {
        return Some(Callee::Lsb);
    }
    if same(name, b"crc".as_slice()) {
        return Some(Callee::Crc);
    }
    None
}

/// Whether a library method has this name.
pub fn is_library(name: &[u8]) -> bool
    ensures { result ≡ spec.is_library name.now }
{
    library(name).is_some()
}

impl<'a, 't> Methods<'a, 't> {
    /// What a name stands for: a library method or one of the file.
    pub(crate) fn callee(&self, name: &[u8]) -> Option<Callee>
        ensures { result ≡ spec.callee self.now name.now }
    {
        match library(name) {
            Some(callee) => Some(callee),
            None => match self.names.position(name) {
                Some(place) => Some(Callee::Own(place)),
                None => None,
            },
        }
    }

    /// How many arguments it takes.
    pub(crate) fn arity(&self, callee: Callee) -> usize
        ensures { result ≡ spec.arity self.now callee }
    {
        match callee {
            Callee::UncompressedValue => 2,
            Callee::CompressedValue => 2,
            Callee::Irregular => 1,
            Callee::Static => 0,
            Callee::Lsb => 2,
            Callee::Crc => 5,
            Callee::Own(place) => match self.arities.get(place) {
                Some(arity) => *arity,
                None => 0,
            },
        }
    }
}
