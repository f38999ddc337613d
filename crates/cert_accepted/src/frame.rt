//! Where a walk fills a method.

ghost use Rattle.std.specs.Prelude.{◌≡◌, IfOk, IfSome, IfNone, IsTrue};
ghost use Rattle.std.specs.Option.{option_copied};
ghost use Rattle.sem_filling.specs.Bounded.{sizes_at};
ghost use Rattle.sem_filling.specs.Fits.{format_at};
ghost use Rattle.cert_accepted.specs.Standing as spec;

use crate::Accepted;
use cert_compiled::Looks;
use sem_filling::Frame;
use sem_profile::{Format, FormatSizes};
use std::alloc::{AllocError, Global};
use walk_steps::{LevelFrame, Partial};

/// Where a walk fills a method: a frame, and what is accepted of its profile.
#[derive(Clone, Copy)]
pub struct AcceptedFrame<'a> {
    pub accepted: &'a Accepted,
    pub frame: Frame<'a>,
}

impl<'a> AcceptedFrame<'a> {
    /// Where the level of a format of the method stands.
    pub fn level_frame(&self, format: usize) -> LevelFrame<'a>
        ensures { spec.IsLevelFrameOf self.now format result }
    {
        let frame = Frame {
            profile: self.accepted.profile(),
            context: self.frame.context,
            method: self.frame.method,
            arguments: self.frame.arguments,
            path: self.frame.path,
        };
        LevelFrame { frame, format }
    }

    /// The level of a format of the method at the start of a walk. None where no filling of the format fits. The error is out of memory.
    pub fn level(&self, alloc: Global, format: usize) -> Result<Option<Partial<'a>>, AllocError>
        requires stands { spec.Stands self.now }
        ensures found { IfOk result (λ o. IfSome o (spec.IsAtStart self.now format)) }
        ensures none { IfOk result (λ o. IfNone o (spec.NeverFits self.now format)) }
    {
        self.accepted.profile().keeps();
        let Some(found) = format_of(self.accepted, self.frame.method, format) else {
            return Ok(None);
        };
        let Some(sizes) = sizes_of(self.accepted, self.frame.method, format) else {
            return Ok(None);
        };
        Partial::start(alloc, found, sizes, self.frame.arguments)
    }
}

/// The format of a method, both by their indices. None where there is none.
pub fn format_of(accepted: &Accepted, method: usize, index: usize) -> Option<&Format>
    ensures { option_copied result ≡ format_at accepted.now.profile.methods method index }
{
    accepted.profile().methods().get(method)?.formats.get(index)
}

/// The bounds of a format of a method, both by their indices. None where there is no such format.
pub fn sizes_of(accepted: &Accepted, method: usize, index: usize) -> Option<&FormatSizes>
    ensures { option_copied result ≡ sizes_at accepted.now.profile.sizes method index }
{
    accepted.profile().sizes().get(method)?.formats.get(index)
}

/// What a look at a format of a method goes over, both by their indices. None where nothing is listed.
#[inline(always)]
pub fn looks_of(accepted: &Accepted, method: usize, index: usize) -> Option<&Looks>
    ensures { IfSome result (λ l. spec.AreLooksOf accepted.now method index l.now) }
{
    accepted.compiled().looks(method, index)
}

/// Whether a format of a method, both by their indices, has one candidate for an item: all fillings of it that have the item have the same number. It isn't always
/// told.
#[inline(always)]
pub fn is_single(accepted: &Accepted, method: usize, index: usize) -> bool
    ensures { IsTrue result → spec.IsSingleOf accepted.now method index }
{
    accepted.compiled().is_single(method, index)
}
