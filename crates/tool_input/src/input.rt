//! The input, read to its end.

ghost use Rattle.std.specs.Prelude.{◌≡◌, ◌+◌, ◌<◌, ◌≤◌, List, ℕ, ◌++◌, true, false, length, IfOk, IfErr, IfSome, vec_len};
ghost use Rattle.std.specs.Io.KnownBytes.{Consumes, IsAtEnd};
ghost use Rattle.tool_input.specs.Counted.{IsSoFar, most_octets};
ghost use Rattle.tool_input.specs.Input.{BlamesRead, IsInput, IsShortInput};

use crate::counted::CountedRead;
use crate::status::Failure;
use std::alloc::{AllocError, Global};

/// What a reader gave: all that it had, or more octets than the program takes.
#[derive(Drop)]
pub enum Input {
    Whole(Vec<u8>),
    Large,
}

const LIMIT: usize = 4_194_304;

const CHUNK: usize = 65_536;

/// Reads until the reader ends, or has given more than the program takes.
pub fn read_input<R: CountedRead>(alloc: Global, reader: &mut R) -> Result<Input, Failure>
    requires { IsSoFar (R.account reader.old) 0 }
    ensures all { IfSome (R.remaining reader.old) (λ all. IfOk result (λ input. IsInput all input)) }
    ensures short { IfOk result IsShortInput }
    ensures failed { IfErr result (λ why. BlamesRead why (R.account reader.new)) }
{
    let mut input = Vec::new(alloc);
    let mut chunk = zeros(alloc, CHUNK)?;
    while input.len() <= LIMIT {
        if !read_more(reader, chunk.as_mut_slice(), &mut input)? {
            return Ok(Input::Whole(input));
        }
    }
    Ok(Input::Large)
}

fn zeros(alloc: Global, count: usize) -> Result<Vec<u8>, AllocError>
    ensures { IfOk result (λ zeros. vec_len zeros ≡ count) }
{
    vec![in alloc; 0u8; count]
}

// One read, of no more than what the program takes and one octet. Whether the reader goes on.
fn read_more<R: CountedRead>(
    reader: &mut R,
    chunk: &mut [u8],
    input: &mut Vec<u8>,
) -> Result<bool, Failure>
    requires room { 0 < length chunk.old }
    requires short { vec_len input.old ≤ most_octets }
    requires counted { IsSoFar (R.account reader.old) (vec_len input.old) }
    ensures grows { IfOk result (λ goes_on. (got : List ℕ) × (input.new.items ≡ input.old.items ++ got) × Consumes (R.remaining reader.old) (R.remaining reader.new) got) }
    ensures goes_on { IfOk result (λ goes_on. goes_on ≡ true → vec_len input.old < vec_len input.new) }
    ensures ends { IfOk result (λ goes_on. goes_on ≡ false → (vec_len input.new ≡ vec_len input.old) × IsAtEnd (R.remaining reader.new)) }
    ensures counted { IfOk result (λ goes_on. goes_on ≡ true → IsSoFar (R.account reader.new) (vec_len input.new)) }
    ensures failed { IfErr result (λ why. BlamesRead why (R.account reader.new)) }
{
    let room = chunk.len().min(LIMIT + 1 - input.len());
    match reader.read_next(&mut chunk[..room]) {
        Ok(count) => {
            input.extend_from_slice(&chunk[..count])?;
            Ok(count != 0)
        }
        Err(_fault) => Err(Failure::Reading),
    }
}
