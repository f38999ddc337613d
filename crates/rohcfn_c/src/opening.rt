//! Opening a session by the octets of a profile.

ghost use Rattle.std.specs.Prelude.{◌≡◌, IfOk};
ghost use Rattle.std.specs.declared.option.Option.TheVariants.{None};
ghost use Rattle.rohcfn_c.specs.Opening as spec;

use crate::answer::CallAnswer;
use crate::handle::Handle;
use crate::line::cut;
use crate::opened::{Last, Opened};
use cert_accepted::Accepted;
use cert_types::Version;
use std::alloc::{AllocError, Global};
use tool_report::profile_and_certificate::{Judged, Origin, accept};
use walk_session::Session;

/// The greatest count of flows of a session.
const FLOW_LIMIT: usize = 64;

/// What a session is opened by: the name of a top, the octets of a profile, and those of its certificate, none where one is to be made.
#[derive(Clone, Copy)]
pub(crate) struct ProfileTexts<'a, 'b, 'c> {
    pub(crate) top: &'a [u8],
    pub(crate) profile: &'b [u8],
    pub(crate) certificate: &'c [u8],
}

/// Closes what the handle held, and opens a session of so many flows by the profile with this top and its certificate; with no octets for that it is made.
pub(crate) fn open(
    alloc: Global,
    texts: &ProfileTexts<'_, '_, '_>,
    flows: usize,
    handle: &mut Handle,
    line: &mut [u8],
    said: &mut usize,
) -> CallAnswer
    ensures { spec.Opens texts.now.top.now texts.now.profile.now texts.now.certificate.now flows result handle.new.session line.old line.new said.new }
{
    drop(handle.take(alloc));
    *said = 0;
    if flows == 0 || flows > FLOW_LIMIT {
        return CallAnswer::NoSuch;
    }
    match judge(alloc, texts, line, said) {
        Ok(Some(accepted)) => put(alloc, accepted, flows as u8, handle),
        Ok(None) => CallAnswer::Refused,
        Err(_) => CallAnswer::NoMemory,
    }
}

/// The profile with its certificate, where it is accepted; else the line of why it isn't is written.
fn judge(
    alloc: Global,
    texts: &ProfileTexts<'_, '_, '_>,
    line: &mut [u8],
    said: &mut usize,
) -> Result<Option<Accepted>, AllocError>
    ensures { spec.Judges texts.now.top.now texts.now.profile.now texts.now.certificate.now result line.old line.new said.old said.new }
{
    let Ok(top) = str::from_utf8(texts.top) else {
        return Ok(None);
    };
    match accept(alloc, top, texts.profile, origin_of(texts.certificate))? {
        Judged::Accepted(accepted) => Ok(Some(accepted)),
        Judged::Refused(text) => {
            cut(text.as_str().as_bytes(), line, said);
            Ok(None)
        }
    }
}

/// Where the certificate comes from: no octets stand for one of version 2 that is made.
fn origin_of(certificate: &[u8]) -> Origin<'_>
    ensures { spec.IsOrigin certificate.now result }
{
    if certificate.is_empty() {
        Origin::Made(Version::Two)
    } else {
        Origin::Given(certificate)
    }
}

/// Puts a new session into the handle.
fn put(alloc: Global, accepted: Accepted, flows: u8, handle: &mut Handle) -> CallAnswer
    requires { handle.old.session ≡ None }
    ensures { spec.IsPutIn accepted flows result handle.new.session }
{
    match opened(alloc, accepted, flows) {
        Ok(opened) => {
            handle.put(opened);
            CallAnswer::Done
        }
        Err(_) => CallAnswer::NoMemory,
    }
}

/// A new session on the heap.
fn opened(alloc: Global, accepted: Accepted, flows: u8) -> Result<Box<Opened>, AllocError>
    ensures { IfOk result (λ b. b.value ≡ spec.new_session accepted flows) }
{
    let session = Session::new(alloc, accepted, flows)?;
    let last = Last::Nothing;
    match Box::new(alloc, Opened { session, last }) {
        Ok(opened) => Ok(opened),
        Err(_) => Err(AllocError),
    }
}
