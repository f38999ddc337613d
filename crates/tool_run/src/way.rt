//! The way from the octets of a profile, of its certificate and of a context to the lines of an answer.

ghost use Rattle.std.specs.Prelude.{IfOk};
ghost use Rattle.tool_run.specs.Way as spec;

use crate::answers::answer_each;
use crate::packets::Shape;
use crate::stats::{Survey, stats_in};
use crate::{frames, line};
use cert_accepted::Accepted;
use sem_context::Context;
use std::alloc::{AllocError, Global};
use tool_input::bundle::Parts;
use tool_input::inputs::{BadLine, read_context};
use tool_input::refusals::{context_line, refusal};
use tool_input::status::Answer;
use tool_report::profile_and_certificate::{Judged, Origin, accept};
use tool_words::words::{Direction, End, Order};

/// What is asked of an accepted profile, with the octets of a part.
#[derive(Clone, Copy)]
pub(crate) enum Task<'a> {
    /// Something of items or packets, from a context on.
    Inputs(InputTask<'a>),
    /// What an end of a line of flows gives, which begins in empty contexts.
    Line(End),
    /// The same of a line of frames, of which so many of a flow in a row may be lost.
    Frames(End, u8),
}

/// What is asked of items or packets.
#[derive(Clone, Copy)]
pub(crate) enum InputTask<'a> {
    /// What is printed for each in that shape.
    Run(Direction, Shape<'a>),
    /// What is told of items that are packed.
    Survey(Survey<'a>),
}

/// The answer by the octets of a profile and of a part: the line of what is wrong with the profile or its certificate, or else what is asked.
pub(crate) fn answer_by(
    alloc: Global,
    task: Task<'_>,
    order: &Order<'_>,
    profile: &[u8],
    parts: &Parts<'_>,
    input: &[u8],
) -> Result<Answer, AllocError>
    ensures { IfOk result (spec.AnswersBy task.entry order.now profile.now parts.now input.now) }
{
    match accept(alloc, order.top, profile, Origin::of(order.version, parts))? {
        Judged::Accepted(accepted) => answer_for(alloc, task, order, &accepted, parts, input),
        Judged::Refused(line) => refusal(alloc, line.as_str()),
    }
}

/// The answer by an accepted profile.
fn answer_for(
    alloc: Global,
    task: Task<'_>,
    order: &Order<'_>,
    accepted: &Accepted,
    parts: &Parts<'_>,
    input: &[u8],
) -> Result<Answer, AllocError>
    ensures { IfOk result (spec.AnswersFor task.entry order.now accepted.now parts.now.context input.now) }
{
    match task {
        Task::Inputs(asked) => answer_from(alloc, asked, order, accepted, parts, input),
        Task::Line(end) => {
            let version = line::line_version(order.is_wide);
            line::answer_end(alloc, end, version, accepted, input)
        },
        Task::Frames(end, lost) => frames::answer_end(alloc, end, lost, accepted, input),
    }
}

/// The answer by an accepted profile and the part of a context: the line of one that can't be read, or else what is asked from that context on.
fn answer_from(
    alloc: Global,
    asked: InputTask<'_>,
    order: &Order<'_>,
    accepted: &Accepted,
    parts: &Parts<'_>,
    input: &[u8],
) -> Result<Answer, AllocError>
    ensures { IfOk result (spec.AnswersFrom asked.entry order.now accepted.now parts.now.context input.now) }
{
    match read_context(alloc, parts) {
        Ok(context) => answer_in(alloc, asked, order.shows_context, accepted, context, input),
        Err(BadLine::Number(number)) => {
            let line = context_line(alloc, number)?;
            refusal(alloc, line.as_str())
        }
        Err(BadLine::OutOfMemory) => Err(AllocError),
    }
}

/// The answer from a context on.
fn answer_in(
    alloc: Global,
    asked: InputTask<'_>,
    shows: bool,
    accepted: &Accepted,
    context: Context,
    input: &[u8],
) -> Result<Answer, AllocError>
    ensures { IfOk result (spec.AnswersIn asked.entry shows accepted.now context input.now) }
{
    match asked {
        InputTask::Run(direction, shape) => {
            answer_each(alloc, direction, shape, shows, accepted, context, input)
        }
        InputTask::Survey(what) => stats_in(alloc, what, accepted, context, input),
    }
}
