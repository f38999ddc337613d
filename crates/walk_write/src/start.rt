//! Where a number begins.

ghost use Rattle.std.specs.Prelude.{◌<◌, length, IfSome, IsSome};
ghost use Rattle.walk_write.specs.Going as spec;
ghost use Rattle.walk_write.specs.Walking.{IsBelow};

use cert_accepted::AcceptedFrame;
use cert_candidates::{Start, start_of};
use sqlite_items::at;

/// The format that the number falls into, and its digits.
pub(crate) fn start_at(place: &AcceptedFrame<'_>, number: u64) -> Option<Start>
    requires within { place.now.frame.method < length place.now.accepted.now.profile.methods }
    requires below { IsBelow place.now number }
    ensures there { IsSome result }
    ensures found { IfSome result (spec.Begins place.now number) }
{
    place.accepted.keeps();
    place.accepted.profile().keeps();
    let Some(spans) = at(place.accepted.spans(), place.frame.method) else {
        return None;
    };
    start_of(spans.as_slice(), number)
}
