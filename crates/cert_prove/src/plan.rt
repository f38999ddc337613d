//! The plan of the order.

ghost use Rattle.std.specs.Prelude.{◌≡◌, ◌↔◌, length, IfOk, IfErr, IsTrue};
ghost use Rattle.cert_types.specs.Kept.{IsPlanKept, step_limit};
ghost use Rattle.cert_rules.specs.Plans.{way_of};
ghost use Rattle.cert_prove.specs.Following.{IsFollowed};
ghost use Rattle.cert_prove.specs.Order.{order_of};
ghost use Rattle.cert_prove.specs.Ordered.{OrderedPlan};
ghost use Rattle.cert_prove.specs.Refusals.{Blames};

use crate::fault::Unordered;
use crate::gaps::{first_missing, missing_sides};
use crate::marks::wake_all;
use crate::possible::{Possible, possible_steps};
use crate::rest::{agenda_of, next_step};
use cert_plans::Knowledge;
use cert_plans::listed::listed_flags;
use cert_types::{Direction, STEP_LIMIT, Step, Version};
use sem_profile::{Format, FormatSizes, MethodSizes};
use sqlite_items::Items;
use std::alloc::{AllocError, Global};

/// Where the order ends.
#[derive(Clone, Copy)]
pub enum End {
    /// A plan is complete.
    Complete,
    /// Something is wanted, and no step is next.
    Stopped,
    /// Something is wanted, and a plan may have no more steps.
    Full,
}

/// The order followed, as far as it goes.
#[derive(Drop)]
pub struct Followed<'a> {
    /// The steps of the format that have a rule, in the order.
    pub possible: Items<Possible<'a>>,
    /// The steps that were taken.
    pub steps: Items<Step>,
    /// What is known after them.
    pub known: Knowledge,
    pub end: End,
}

/// The plan of the order for the format in that direction: each step is the first in the order that is enabled and gives something new, until a plan is complete.
/// The table holds the bounds of the methods, and the sizes are those of the format.
pub fn order_plan(
    alloc: Global,
    version: Version,
    direction: Direction,
    table: &[MethodSizes],
    sizes: &FormatSizes,
    format: &Format,
) -> Result<Items<Step>, Unordered>
    ensures ordered { IfOk result (OrderedPlan (way_of version direction table.now sizes.now format.now) (order_of direction format.now)) }
    ensures kept { IfOk result IsPlanKept }
    // Lacking: just these sides are in no plan. TooLong: the plan of the order is above the limit.
    ensures refused { IfErr result (Blames version direction table.now sizes.now format.now) }
{
    let followed = follow_order(alloc, version, direction, table, sizes, format)?;
    match followed.end {
        End::Complete => Ok(followed.steps),
        End::Full => Err(Unordered::TooLong),
        End::Stopped => {
            let listed = listed_flags(alloc, format)?;
            let known = &followed.known;
            let sides = missing_sides(alloc, direction, format, listed.as_slice(), known)?;
            Err(Unordered::Lacking { sides })
        }
    }
}

/// Follows the order until a plan is complete, or no step is next, or a plan may have no more steps. Where no step is next, what is known is just what any steps
/// can learn.
pub fn follow_order<'a>(
    alloc: Global,
    version: Version,
    direction: Direction,
    table: &[MethodSizes],
    sizes: &FormatSizes,
    format: &'a Format,
) -> Result<Followed<'a>, AllocError>
    ensures { IfOk result (IsFollowed version direction table.now sizes.now format.now) }
{
    let found = possible_steps(alloc, version, direction, table, sizes, format)?;
    let possible = found.as_slice();
    let fields = format.fields.len();
    let mut agenda = agenda_of(alloc, format, possible)?;
    let mut known = Knowledge::at_start(alloc, format)?;
    let room = possible.len().min(STEP_LIMIT);
    let mut steps = Items::from_vec(Vec::with_capacity(alloc, room)?);
    let mut missing = first_missing(direction, format, agenda.listed.as_slice(), &known, 0);
    'more: while missing < fields {
        if is_full(&steps) {
            return Ok(Followed {
                possible: found,
                steps,
                known,
                end: End::Full,
            });
        }
        let Some(next) = next_step(
            alloc,
            &known,
            format,
            possible,
            &mut agenda.needs,
            &mut agenda.waits,
        )?
        else {
            return Ok(Followed {
                possible: found,
                steps,
                known,
                end: End::Stopped,
            });
        };
        steps.push(next.step)?;
        let written = next.rule.gives.written();
        let gives = written.as_slice();
        known.learn_all(gives);
        wake_all(gives, &mut agenda.waits);
        missing = first_missing(direction, format, agenda.listed.as_slice(), &known, missing);
    }
    Ok(Followed {
        possible: found,
        steps,
        known,
        end: End::Complete,
    })
}

/// Whether a plan may have no more steps.
fn is_full(steps: &Items<Step>) -> bool
    ensures { IsTrue result ↔ (length steps.now ≡ step_limit) }
{
    steps.len() == STEP_LIMIT
}
