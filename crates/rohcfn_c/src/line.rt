//! Lines of text that are written to a caller's room.

ghost use Rattle.std.specs.Prelude.{◌≡◌, ◌++◌, IfOk, codes, string_bytes};
ghost use Rattle.rohcfn_c.specs.Lines as spec;

use crate::opened::Last;
use sem_profile::Method;
use std::alloc::{AllocError, Global};
use tool_names::names::{format_name, method_name};
use walk_session::{PackRefusal, UnpackRefusal};

/// Copies as much of a text to the start of the room as fits, and tells its whole length.
pub(crate) fn cut(text: &[u8], room: &mut [u8], said: &mut usize)
    ensures { spec.IsCut text.now room.old room.new said.new }
{
    *said = text.len();
    let count = text.len().min(room.len());
    room[..count].copy_from_slice(&text[..count]);
}

/// The line of a refusal, as the program prints it after `item 1: ` or `packet 1: `. It is empty where nothing was refused, or for a fault of the caller's own.
pub(crate) fn why_text(alloc: Global, methods: &[Method], last: Last) -> Result<String, AllocError>
    ensures { IfOk result (λ text. string_bytes text ≡ spec.why_text methods.now last) }
{
    match last {
        Last::Nothing => Ok(String::new(alloc)),
        Last::Pack(refusal) => String::from_str(alloc, pack_words(refusal)),
        Last::Unpack(refusal) => unpack_text(alloc, methods, refusal),
    }
}

fn pack_words(refusal: PackRefusal) -> &'static str
    ensures { result.now ≡ spec.pack_words refusal }
{
    match refusal {
        PackRefusal::Asked => "F2 Asked",
        PackRefusal::HeaderLength => "F1 HeaderLength",
        PackRefusal::NoFormat => "F3 NoFormat",
        PackRefusal::NoReach => "F5 NoReach",
        PackRefusal::Contexts => "F6 Contexts",
        PackRefusal::OutOfMemory => "",
        PackRefusal::Flow => "",
        PackRefusal::BadBits => "",
        PackRefusal::NoRoom(_) => "",
    }
}

fn unpack_text(
    alloc: Global,
    methods: &[Method],
    refusal: UnpackRefusal,
) -> Result<String, AllocError>
    ensures { IfOk result (λ text. string_bytes text ≡ spec.unpack_text methods.now refusal) }
{
    match refusal {
        UnpackRefusal::Truncated => String::from_str(alloc, "U1 Truncated"),
        UnpackRefusal::Refused(blamed) => {
            let method = method_name(methods, blamed.method);
            match blamed.format {
                Some(format) => {
                    let format = pointed(alloc, format_name(methods, blamed.method, format))?;
                    format_text(alloc, method, format.as_str())
                }
                None => refused_text(alloc, method),
            }
        }
        UnpackRefusal::OutOfMemory => Ok(String::new(alloc)),
        UnpackRefusal::Flow => Ok(String::new(alloc)),
        UnpackRefusal::BadBits => Ok(String::new(alloc)),
        UnpackRefusal::NoRoom(_) => Ok(String::new(alloc)),
    }
}

fn pointed(alloc: Global, format: &str) -> Result<String, AllocError>
    ensures { IfOk result (λ text. string_bytes text ≡ codes "." ++ format.now) }
{
    format!(in alloc; ".{format}")
}

fn format_text(alloc: Global, method: &str, format: &str) -> Result<String, AllocError>
    ensures { IfOk result (λ text. string_bytes text ≡ codes "U2 Refused " ++ method.now ++ format.now) }
{
    format!(in alloc; "U2 Refused {method}{format}")
}

fn refused_text(alloc: Global, method: &str) -> Result<String, AllocError>
    ensures { IfOk result (λ text. string_bytes text ≡ codes "U2 Refused " ++ method.now) }
{
    format!(in alloc; "U2 Refused {method}")
}
