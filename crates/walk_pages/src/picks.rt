//! The format that is read.

ghost use Rattle.std.specs.Prelude.{IfOk, IfSome};
ghost use Rattle.walk_pages.specs.Picks as spec;

use crate::draft::Told;
use cert_accepted::{Accepted, Picked};
use cert_compiled::PageOperation;
use sem_bits::Cursor;
use sem_filling::Frame;
use sem_pages::PageFrame;
use sem_profile::{Format, Method};
use smallvec::SmallVec;
use sqlite_items::at;
use std::alloc::{AllocError, Global};

/// A format that is read: its index, itself, what is told of it, and its operations.
#[derive(Clone, Copy)]
pub(crate) struct FormatPlan<'a, 'b> {
    pub(crate) index: usize,
    pub(crate) format: &'a Format,
    pub(crate) told: Told<'b>,
    pub(crate) operations: &'b [PageOperation],
}

/// The format to which the tree leads for the bits so many places after the cursor's, if there is one that is read by pages.
pub(crate) fn picked<'a, 'b>(
    alloc: Global,
    accepted: &'b Accepted,
    page_frame: &PageFrame<'a>,
    cursor: &Cursor<'_>,
    from: usize,
) -> Result<Option<FormatPlan<'a, 'b>>, AllocError>
    ensures { IfOk result (λ o. IfSome o (spec.IsFormatPlan accepted.now page_frame.now.methods.now page_frame.now.method)) }
{
    let mut arguments = SmallVec::<i128, 4>::new(alloc);
    for argument in page_frame.arguments {
        arguments.push(*argument as i128)?;
    }
    let frame = Frame {
        profile: accepted.profile(),
        context: page_frame.context,
        method: page_frame.method,
        arguments: arguments.as_slice(),
        path: page_frame.path,
    };
    let Picked::Format(index) = accepted.pick_ahead(alloc, &frame, cursor, from)? else {
        return Ok(None);
    };
    Ok(plan_at(accepted, page_frame.methods, page_frame.method, index))
}

fn plan_at<'a, 'b>(
    accepted: &'b Accepted,
    methods: &'a [Method],
    method: usize,
    index: usize,
) -> Option<FormatPlan<'a, 'b>>
    ensures { IfSome result (spec.IsFormatPlan accepted.now methods.now method) }
{
    let plans = at(accepted.compiled().plan_acts.as_slice(), method)?.get(index)?;
    let operations = plans.page.as_ref()?;
    Some(FormatPlan {
        index,
        format: methods.get(method)?.formats.get(index)?,
        told: told_at(accepted, method, index)?,
        operations: operations.as_slice(),
    })
}

/// What is told of a format of a method, both by their indices.
#[inline(always)]
pub(crate) fn told_at(accepted: &Accepted, method: usize, index: usize) -> Option<Told<'_>>
    ensures { IfSome result (spec.IsToldOf accepted.now method index) }
{
    let plans = at(accepted.compiled().plan_acts.as_slice(), method)?;
    let plan = at(plans.as_slice(), index)?;
    let Some(prepared) = &plan.prepared else {
        return None;
    };
    let Some(places) = &plan.places else {
        return None;
    };
    Some(Told {
        prepared,
        places: places.as_slice(),
    })
}
