//! The tree and the plans by which a method is read.

ghost use Rattle.std.specs.Prelude.{drop, IfOk, IfErr, IfSome, IfNone, ◌≡◌};
ghost use Rattle.std.specs.Option.{option_copied};
ghost use Rattle.sem_context.specs.Entries as contexts;
ghost use Rattle.cert_rules.specs.Counts as counts;
ghost use Rattle.cert_rules.specs.Reading.{OneFormat, IsMade};
ghost use Rattle.cert_rules.specs.Valid as valid;
ghost use Rattle.cert_accepted.specs.Standing.{Stands};
ghost use Rattle.walk_read.specs.Walk as spec;
ghost use Rattle.walk_read.specs.Walking as walking;

use crate::fault::{Blamed, ReadFault};
use cert_accepted::{AcceptedFrame, Picked};
use cert_types::{MethodPlans, Plans, Step};
use sem_bits::Cursor;
use sem_filling::Filling;
use sem_holds::level_fits;
use std::alloc::Global;
use walk_steps::Partial;

/// The format to which the method's tree leads for the bits so many places after the cursor's, by its index. The error is Short, Refused, or out of memory.
pub(crate) fn picked(
    alloc: Global,
    place: &AcceptedFrame<'_>,
    cursor: &Cursor<'_>,
    from: usize,
) -> Result<usize, ReadFault>
    requires stands { Stands place.now }
    ensures found { IfOk result (OneFormat place.now.accepted.now.profile.methods (contexts.bits_at place.now.frame.context.now) (spec.spot_of place.now (drop from cursor.now.left))) }
    ensures fault { IfErr result (λ e. spec.Blames e place.now (drop from cursor.now.left)) }
    ensures few { IfErr result (λ e. spec.AreFew e 0 (drop from cursor.now.left)) }
{
    place.accepted.keeps();
    place.accepted.profile().keeps();
    place.accepted.certificate().keeps();
    let at_work = Blamed {
        method: place.frame.method,
        format: None,
    };
    match place
        .accepted
        .pick_ahead(alloc, &place.frame, cursor, from)?
    {
        Picked::Format(format) => Ok(format),
        Picked::Nothing => Err(ReadFault::Refused(at_work)),
        Picked::Short => Err(ReadFault::Short(at_work)),
    }
}

/// What the certificate says of a method.
fn entry_at(entries: &[Option<MethodPlans>], method: usize) -> Option<&MethodPlans>
    ensures { option_copied result ≡ counts.entry_at entries.now method }
{
    entries.get(method)?.as_ref()
}

/// The plan by which the format, by its index, is read; none where the method has no such format.
pub(crate) fn plan_of<'a>(place: &AcceptedFrame<'a>, format: usize) -> Option<&'a [Step]>
    requires stands { Stands place.now }
    ensures found { IfSome result (λ steps. walking.IsPlanOf place.now format steps.now) }
    ensures none { IfNone result (walking.LacksFormat place.now format) }
{
    place.accepted.keeps();
    place.accepted.profile().keeps();
    let Some(entry) = entry_at(place.accepted.certificate().methods(), place.frame.method) else {
        return None;
    };
    let Some(plans) = plans_at(entry, format) else {
        return None;
    };
    Some(plans.read.as_slice())
}

/// The plans of a format.
fn plans_at(entry: &MethodPlans, format: usize) -> Option<&Plans>
    ensures { option_copied result ≡ valid.plans_at entry.now format }
{
    entry.formats.get(format)?.plans.as_ref()
}

/// The filling of a level of which all is known. The error is Refused, where it doesn't fit, or out of memory. The level of the top, whose path is empty, is
/// not judged here: who asks for it judges it as a whole.
pub(crate) fn finished(
    alloc: Global,
    place: &AcceptedFrame<'_>,
    format: usize,
    level: Partial<'_>,
) -> Result<Filling, ReadFault>
    requires stands { Stands place.now }
    ensures made { IfOk result (IsMade format level.entry.format level.entry.slots) }
    ensures fault { IfErr result (λ e. walking.BlamesEnd e place.now format level.entry) }
{
    let refused = ReadFault::Refused(Blamed {
        method: place.frame.method,
        format: Some(format),
    });
    let Some(filling) = level.into_filling(alloc, format)? else {
        return Err(refused);
    };
    if place.frame.path.is_empty() {
        return Ok(filling);
    }
    if level_fits(alloc, &place.frame, &filling)? {
        Ok(filling)
    } else {
        Err(refused)
    }
}
