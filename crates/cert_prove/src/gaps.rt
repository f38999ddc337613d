//! What of a format isn't learnt.

ghost use Rattle.std.specs.Prelude.{◌≡◌, ◌<◌, ◌++◌, false, length, List, IfOk, OnOk};
ghost use Rattle.cert_types.specs.declared.rule.Fact.{Fact};
ghost use Rattle.cert_rules.specs.Plans as plans;
ghost use Rattle.cert_plans.specs.Judging as judged;
ghost use Rattle.cert_plans.specs.Knowing.{shows, Knows};
ghost use Rattle.cert_plans.specs.Listed.{AreFlags};
ghost use Rattle.cert_prove.specs.Searching as spec;

use crate::fault::FieldSide;
use cert_plans::Knowledge;
use cert_plans::faults::{is_due, is_learnt};
use cert_types::Direction;
use sem_expr::Side;
use sem_profile::{Field, Format};
use sqlite_items::Items;
use std::alloc::{AllocError, Global};

/// The first field, from this one on, of which a complete plan has learnt what isn't known, else the count of fields. The flags say which fields are listed.
pub(crate) fn first_missing(
    direction: Direction,
    format: &Format,
    listed: &[bool],
    known: &Knowledge,
    from: usize,
) -> usize
    requires flags { AreFlags format.now listed.now }
    requires learnt { spec.AreLearntTo direction format.now (shows known.now) from }
    ensures learnt { spec.AreLearntTo direction format.now (shows known.now) result }
    ensures missing { result < length format.now.fields → (facts : List Fact) → Knows known.now facts → plans.is_complete (plans.goals_of direction format.now) facts ≡ false }
{
    let fields = format.fields.as_slice();
    for index in from..fields.len() {
        let field = &fields[index];
        let is_known = is_field_learnt(direction, known, index, listed[index], field);
        if !is_known {
            return index;
        }
    }
    fields.len()
}

/// Whether both sides of the field are learnt.
fn is_field_learnt(
    direction: Direction,
    known: &Knowledge,
    index: usize,
    is_listed: bool,
    field: &Field,
) -> bool
    ensures { result ≡ spec.is_field_learnt direction (shows known.now) index (judged.is_due direction is_listed field.now) }
{
    let is_due = is_due(direction, is_listed, field);
    is_learnt(direction, known, index, is_due, Side::Uncompressed)
        && is_learnt(direction, known, index, is_due, Side::Compressed)
}

/// The sides that a complete plan has learnt and that aren't known, in field order, the uncompressed side first.
pub(crate) fn missing_sides(
    alloc: Global,
    direction: Direction,
    format: &Format,
    listed: &[bool],
    known: &Knowledge,
) -> Result<Items<FieldSide>, AllocError>
    requires { AreFlags format.now listed.now }
    ensures { IfOk result (λ sides. (facts : List Fact) → Knows known.now facts → sides ≡ spec.missing_in facts (plans.goals_of direction format.now)) }
{
    let mut sides = Items::new(alloc);
    for (index, field) in format.fields.as_slice().iter().enumerate() {
        let is_due = is_due(direction, listed[index], field);
        push_missing(direction, known, index, is_due, &mut sides)?;
    }
    Ok(sides)
}

/// Appends the sides of the field that aren't learnt, where the field is due or not.
fn push_missing(
    direction: Direction,
    known: &Knowledge,
    field: usize,
    is_due: bool,
    sides: &mut Items<FieldSide>,
) -> Result<(), AllocError>
    ensures { OnOk result (sides.new ≡ sides.old ++ spec.unlearnt_sides (judged.is_learnt direction (shows known.now) field is_due) field) }
{
    let uncompressed = is_learnt(direction, known, field, is_due, Side::Uncompressed);
    push_unlearnt(field, Side::Uncompressed, uncompressed, sides)?;
    let compressed = is_learnt(direction, known, field, is_due, Side::Compressed);
    push_unlearnt(field, Side::Compressed, compressed, sides)
}

fn push_unlearnt(
    field: usize,
    side: Side,
    is_learnt: bool,
    sides: &mut Items<FieldSide>,
) -> Result<(), AllocError>
    ensures { OnOk result (sides.new ≡ sides.old ++ spec.unlearnt is_learnt (record { field = field; side = side })) }
{
    if is_learnt {
        Ok(())
    } else {
        sides.push(FieldSide { field, side })
    }
}
