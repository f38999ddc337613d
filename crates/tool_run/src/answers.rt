//! What is printed for an order and the parts of the input.

ghost use Rattle.std.specs.Prelude.{◌≡◌, ◌++◌, IfOk, codes, decimal, string_bytes};
ghost use Rattle.tool_run.specs.FaultLaws.{AreOneLine};
ghost use Rattle.tool_run.specs.Printed as spec;

use crate::frames::answer_frames;
use crate::line::answer_line;
use crate::packets::{Shape, pack_all, unpack_all};
use crate::stats::{Survey, answer_stats};
use crate::way::{InputTask, Task, answer_by};
use cert_accepted::Accepted;
use sem_context::Context;
use std::alloc::{AllocError, Global};
use tool_input::bundle::Parts;
use tool_input::inputs::{BadLine, read_items, read_packets};
use tool_input::refusals::refusal;
use tool_input::status::{Answer, Status};
use tool_json::lines::as_objects;
use tool_report::check::answer_check;
use tool_report::explanations::{explain_check, explain_prove};
use tool_report::profile_and_certificate::Origin;
use tool_report::prove::answer_prove;
use tool_report::show::answer_listing;
use tool_report::surveys::{answer_draw, answer_lint, draw_objects};
use tool_words::words::{Command, Direction, End, Form, Order};

/// What is printed for an order: the listing of a profile, the formats by which nothing can be packed, diagrams, the verdict on a certificate, a certificate, a line or the
/// fields for each item or packet up to the first refusal, what stands against each format where one is refused, what is counted of packed items, the octets and items of a line of flows, or the one line of another fault.
/// Where objects are asked for, each line is one of JSON.
///
/// The order of faults: the missing part `profile`, another missing part, the profile, its certificate, a line of the context, a line of the items, packets or events
/// or octets that are no hex, and then each item, packet or event.
pub fn answer(alloc: Global, order: &Order<'_>, parts: &Parts<'_>) -> Result<Answer, AllocError>
    ensures { IfOk result (spec.Answers order.now parts.now) }
{
    let Answer { status, output } = answer_lines(alloc, order, parts)?;
    match order.form {
        Form::Text => Ok(Answer { status, output }),
        Form::Json => Ok(Answer {
            status,
            output: as_objects(alloc, order.command, status, output.as_str())?,
        }),
    }
}

/// The lines of an answer. What is counted stands in the form that is asked for, and messages as text.
fn answer_lines(alloc: Global, order: &Order<'_>, parts: &Parts<'_>) -> Result<Answer, AllocError>
    ensures { IfOk result (spec.AnswersLines order.now parts.now) }
{
    let Some(profile) = parts.profile else {
        return refusal(alloc, "bundle: I4 bad part profile");
    };
    match order.command {
        Command::Show => answer_listing(alloc, order.top, profile),
        Command::Lint => lint_by(alloc, order, profile, parts),
        Command::Draw => draw_by(alloc, order, profile),
        Command::Check => {
            let origin = Origin::of(order.version, parts);
            answer_check(alloc, order.top, profile, origin)
        }
        Command::Prove => answer_prove(alloc, order.version, order.top, profile),
        Command::ExplainCheck => {
            let origin = Origin::of(order.version, parts);
            explain_check(alloc, order.top, profile, origin)
        }
        Command::ExplainProve => explain_prove(alloc, order.version, order.top, profile),
        Command::Run(direction) => {
            answer_run(alloc, direction, Shape::Line, order, profile, parts)
        }
        Command::Fields(direction) => {
            answer_run(
                alloc,
                direction,
                Shape::Tree(order.form),
                order,
                profile,
                parts,
            )
        }
        Command::Why(direction) => {
            answer_run(alloc, direction, Shape::Why(profile), order, profile, parts)
        }
        Command::Stats(counting) => {
            answer_stats(alloc, Survey::Stats(counting), order, profile, parts)
        }
        Command::Loss(most) => {
            let what = Survey::Loss(order.form, most);
            answer_stats(alloc, what, order, profile, parts)
        }
        Command::RobustPack(lost) => {
            let what = Survey::RobustPack(Shape::Line, order.shows_context, lost);
            answer_stats(alloc, what, order, profile, parts)
        }
        Command::RobustWhy(lost) => {
            let what = Survey::RobustPack(Shape::Why(profile), order.shows_context, lost);
            answer_stats(alloc, what, order, profile, parts)
        }
        Command::RobustStats(lost, counting) => {
            let what = Survey::RobustStats(lost, counting);
            answer_stats(alloc, what, order, profile, parts)
        }
        Command::RobustLoss(most, lost) => {
            let what = Survey::RobustLoss(order.form, most, lost);
            answer_stats(alloc, what, order, profile, parts)
        }
        Command::WhyNot => {
            let what = Survey::Avoid(profile, order.avoided);
            answer_stats(alloc, what, order, profile, parts)
        }
        Command::Advise(lost) => {
            let what = Survey::Advise(order.form, lost);
            answer_stats(alloc, what, order, profile, parts)
        }
        Command::Line(end) => answer_line(alloc, end, order, profile, parts),
        Command::SendFrames(lost) => {
            answer_frames(alloc, End::Sending, lost, order, profile, parts)
        }
        Command::ReceiveFrames => answer_frames(alloc, End::Receiving, 0, order, profile, parts),
    }
}

/// The answer to `draw`, in the form that is asked for.
fn draw_by(alloc: Global, order: &Order<'_>, profile: &[u8]) -> Result<Answer, AllocError>
    ensures { IfOk result (spec.AnswersDraw order.now profile.now) }
{
    match order.form {
        Form::Text => answer_draw(alloc, order.top, profile),
        Form::Json => draw_objects(alloc, order.top, profile),
    }
}

/// The answer to `lint`. With `--strict` the status is that of a refusal where anything is printed.
fn lint_by(
    alloc: Global,
    order: &Order<'_>,
    profile: &[u8],
    parts: &Parts<'_>,
) -> Result<Answer, AllocError>
    ensures { IfOk result (spec.AnswersLint order.now profile.now parts.now) }
{
    let Answer { status, output } = answer_lint(alloc, order.top, profile, parts)?;
    Ok(Answer {
        status: strict_status(order.is_strict, status, output.as_str()),
        output,
    })
}

fn strict_status(is_strict: bool, status: Status, output: &str) -> Status
    ensures { result ≡ spec.strict_status is_strict status output.now }
{
    if is_strict && !output.is_empty() {
        Status::Refused
    } else {
        status
    }
}

/// The answer by the octets of a profile, and the items or packets among the parts.
fn answer_run(
    alloc: Global,
    direction: Direction,
    shape: Shape<'_>,
    order: &Order<'_>,
    profile: &[u8],
    parts: &Parts<'_>,
) -> Result<Answer, AllocError>
    ensures { IfOk result (spec.AnswersRun direction shape.entry order.now profile.now parts.now) }
{
    match direction {
        Direction::Pack => match parts.items {
            Some(items) => {
                let task = Task::Inputs(InputTask::Run(Direction::Pack, shape));
                answer_by(alloc, task, order, profile, parts, items)
            }
            None => refusal(alloc, "bundle: I4 bad part items"),
        },
        Direction::Unpack => match parts.packets {
            Some(packets) => {
                let task = Task::Inputs(InputTask::Run(Direction::Unpack, shape));
                answer_by(alloc, task, order, profile, parts, packets)
            }
            None => refusal(alloc, "bundle: I4 bad part packets"),
        },
    }
}

/// The answer in a direction and a context.
pub(crate) fn answer_each(
    alloc: Global,
    direction: Direction,
    shape: Shape<'_>,
    shows: bool,
    accepted: &Accepted,
    context: Context,
    input: &[u8],
) -> Result<Answer, AllocError>
    ensures { IfOk result (spec.AnswersIn direction shape.entry shows accepted.now context input.now) }
{
    match direction {
        Direction::Pack => answer_items(alloc, shape, shows, accepted, context, input),
        Direction::Unpack => answer_packets(alloc, shape, shows, accepted, context, input),
    }
}

/// The answer to the octets of items.
fn answer_items(
    alloc: Global,
    shape: Shape<'_>,
    shows: bool,
    accepted: &Accepted,
    context: Context,
    input: &[u8],
) -> Result<Answer, AllocError>
    ensures { IfOk result (spec.AnswersIn Direction.Pack shape.entry shows accepted.now context input.now) }
{
    match read_items(alloc, input) {
        Ok(items) => pack_all(alloc, shape, shows, accepted, context, items.as_slice()),
        Err(BadLine::Number(number)) => {
            let line = bad_line(alloc, Direction::Pack, number)?;
            refusal(alloc, line.as_str())
        }
        Err(BadLine::OutOfMemory) => Err(AllocError),
    }
}

/// The answer to the octets of packets.
fn answer_packets(
    alloc: Global,
    shape: Shape<'_>,
    shows: bool,
    accepted: &Accepted,
    context: Context,
    input: &[u8],
) -> Result<Answer, AllocError>
    ensures { IfOk result (spec.AnswersIn Direction.Unpack shape.entry shows accepted.now context input.now) }
{
    match read_packets(alloc, input) {
        Ok(packets) => unpack_all(alloc, shape, shows, accepted, context, packets.as_slice()),
        Err(BadLine::Number(number)) => {
            let line = bad_line(alloc, Direction::Unpack, number)?;
            refusal(alloc, line.as_str())
        }
        Err(BadLine::OutOfMemory) => Err(AllocError),
    }
}

/// A law of fault lines: each is one line, without a line feed.
#[tactic(auto, using(crate::proofs::PrintedOtherLines::are_one_line))]
pub fn faults_are_lines()
    ensures { AreOneLine }
{}

/// The line of items or packets that can't be read.
pub(crate) fn bad_line(
    alloc: Global,
    direction: Direction,
    number: usize,
) -> Result<String, AllocError>
    ensures { IfOk result (λ text. string_bytes text ≡ spec.input_name direction ++ codes ":" ++ decimal number ++ spec.bad_line_words direction) }
{
    match direction {
        Direction::Pack => format!(in alloc; "items:{number}: I1 bad item"),
        Direction::Unpack => format!(in alloc; "packets:{number}: I2 bad packet"),
    }
}
