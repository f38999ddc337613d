//! Which step of a plan waits first, and for what. The prover's own search (cert_prove) tells which steps have a rule, and what is known where none is next. Of the
//! first side that is missing then, the first step is told that would give it, with the first fact that it lacks. A fact that a field was taken or called is
//! followed to the step that takes or calls it.

use crate::places::{constraint_at, naming_place, place_text};
use cert_plans::{Knowledge, NeedRule, lacking};
use cert_prove::{FieldSide, Possible, follow_order};
use cert_types::{Direction, Fact, Step, Version};
use sem_expr::Side;
use sem_profile::{Format, FormatSizes, MethodSizes, Profile};
use std::alloc::{AllocError, Global};
use text_source::Span;
use tool_names::names::{field_name, format_at, method_place};

/// What waits: a step for a fact, or nothing that would give the fact.
#[derive(Clone, Copy)]
struct Waiting {
    step: Option<Step>,
    fact: Fact,
}

/// A plan that no certificate has: of a format, by its method and itself by their indices, in a direction, and the sides that are missing in it.
#[derive(Clone, Copy)]
pub struct MissingPlan<'a> {
    pub method: usize,
    pub format: usize,
    pub direction: Direction,
    pub sides: &'a [FieldSide],
}

/// The line of the first step that waits, of a format that has no such plan in certificates of that version.
pub fn plan_notes(
    alloc: Global,
    octets: &[u8],
    profile: &Profile,
    version: Version,
    plan: MissingPlan<'_>,
) -> Result<String, AllocError> {
    let MissingPlan {
        method,
        format,
        direction,
        sides,
    } = plan;
    let methods = profile.methods();
    let Some(found) = format_at(methods, method, format) else {
        return Ok(String::new(alloc));
    };
    let Some(sizes) = sizes_at(profile.sizes(), method, format) else {
        return Ok(String::new(alloc));
    };
    let Some(first) = sides.get(0) else {
        return Ok(String::new(alloc));
    };
    let followed = follow_order(alloc, version, direction, profile.sizes(), sizes, found)?;
    let missing = Fact::BitsOf(first.side, first.field);
    let waiting = first_waiting(
        &followed.known,
        found,
        followed.possible.as_slice(),
        missing,
    );
    let place = place_of(found, waiting, method_place(methods, method));
    let mut text = place_text(alloc, octets, place)?;
    push_waiting(alloc, &mut text, profile, method, format, waiting)?;
    Ok(text)
}

fn sizes_at(table: &[MethodSizes], method: usize, format: usize) -> Option<&FormatSizes> {
    table.get(method)?.formats.get(format)
}

/// The step that would give the fact, with what it lacks. From a field that wasn't taken or called it goes on, at most once for each field.
fn first_waiting(
    known: &Knowledge,
    format: &Format,
    steps: &[Possible<'_>],
    missing: Fact,
) -> Waiting {
    let mut waiting = waiting_for(known, format, steps, missing);
    for _ in 0..format.fields.len() {
        match waiting.fact {
            Fact::Done(_) => waiting = waiting_for(known, format, steps, waiting.fact),
            _ => return waiting,
        }
    }
    waiting
}

/// The first step that would give the fact, with the first fact that it lacks.
fn waiting_for(
    known: &Knowledge,
    format: &Format,
    steps: &[Possible<'_>],
    missing: Fact,
) -> Waiting {
    for possible in steps {
        if gives(&possible.rule, missing) {
            if let Some(fact) = lacking(known, format, possible.rule.needs.as_slice()) {
                return Waiting {
                    step: Some(possible.step),
                    fact,
                };
            }
        }
    }
    Waiting {
        step: None,
        fact: missing,
    }
}

fn gives(rule: &NeedRule<'_>, fact: Fact) -> bool {
    let written = rule.gives.written();
    for given in written.as_slice() {
        if is_same(*given, fact) {
            return true;
        }
    }
    false
}

fn is_same(one: Fact, other: Fact) -> bool {
    match one {
        Fact::LengthOf(side, field) => match other {
            Fact::LengthOf(also, same) => side == also && field == same,
            _ => false,
        },
        Fact::BitsOf(side, field) => match other {
            Fact::BitsOf(also, same) => side == also && field == same,
            _ => false,
        },
        Fact::Done(field) => match other {
            Fact::Done(same) => field == same,
            _ => false,
        },
    }
}

// ---- its place

/// Where the step asks for the fact: the constraint, or the argument that names the field; else another place.
fn place_of(format: &Format, waiting: Waiting, other: Span) -> Span {
    match waiting_place(format, waiting) {
        Some(place) => place,
        None => other,
    }
}

fn waiting_place(format: &Format, waiting: Waiting) -> Option<Span> {
    match waiting.step? {
        Step::ConstraintLength(_, _, number) => constraint_at(format, number),
        Step::Solve(_, number) => constraint_at(format, number),
        Step::Take(field) => argument_place(format, field, waiting.fact),
        Step::Call(field) => argument_place(format, field, waiting.fact),
        Step::LibraryUp(field) => argument_place(format, field, waiting.fact),
        Step::LibraryDown(field) => argument_place(format, field, waiting.fact),
        Step::MethodLength(field, _) => argument_place(format, field, waiting.fact),
        Step::Choose(_) => None,
        Step::Ask(_) => None,
    }
}

fn argument_place(format: &Format, field: usize, fact: Fact) -> Option<Span> {
    naming_place(format.fields.get(field)?, field_of(fact))
}

fn field_of(fact: Fact) -> usize {
    match fact {
        Fact::LengthOf(_, field) => field,
        Fact::BitsOf(_, field) => field,
        Fact::Done(field) => field,
    }
}

// ---- its words

fn push_waiting(
    alloc: Global,
    text: &mut String,
    profile: &Profile,
    method: usize,
    format: usize,
    waiting: Waiting,
) -> Result<(), AllocError> {
    let name = field_name(profile.methods(), method, format, field_of(waiting.fact));
    let fact = fact_text(alloc, waiting.fact, name)?;
    let words = match waiting.step {
        Some(step) => {
            let name = field_name(profile.methods(), method, format, field_in(step));
            let step = step_text(alloc, step, name)?;
            format!(in alloc; "{} waits for {}\n", step.as_str(), fact.as_str())?
        }
        None => format!(in alloc; "no step gives {}\n", fact.as_str())?,
    };
    text.push_str(words.as_str())
}

fn field_in(step: Step) -> usize {
    match step {
        Step::Take(field) => field,
        Step::Call(field) => field,
        Step::LibraryUp(field) => field,
        Step::LibraryDown(field) => field,
        Step::MethodLength(field, _) => field,
        Step::ConstraintLength(field, _, _) => field,
        Step::Solve(field, _) => field,
        Step::Choose(field) => field,
        Step::Ask(field) => field,
    }
}

fn side_name(side: Side) -> &'static str {
    match side {
        Side::Uncompressed => "uncompressed",
        Side::Compressed => "compressed",
    }
}

fn fact_text(alloc: Global, fact: Fact, name: &str) -> Result<String, AllocError> {
    match fact {
        Fact::LengthOf(side, _) => {
            format!(in alloc; "the length of the {} bits of {name}", side_name(side))
        }
        Fact::BitsOf(side, _) => format!(in alloc; "the {} bits of {name}", side_name(side)),
        Fact::Done(_) => format!(in alloc; "the end of {name}, whose bits come before"),
    }
}

fn step_text(alloc: Global, step: Step, name: &str) -> Result<String, AllocError> {
    match step {
        Step::Take(_) => format!(in alloc; "taking {name}"),
        Step::Call(_) => format!(in alloc; "the call of {name}"),
        Step::LibraryUp(_) => format!(in alloc; "the library method of {name}, up,"),
        Step::LibraryDown(_) => format!(in alloc; "the library method of {name}, down,"),
        Step::MethodLength(_, side) => {
            format!(in alloc;
                "the length of the {} bits of {name}, by its method,",
                side_name(side)
            )
        }
        Step::ConstraintLength(_, side, number) => {
            format!(in alloc;
                "the length of the {} bits of {name}, by constraint {number},",
                side_name(side)
            )
        }
        Step::Solve(_, number) => format!(in alloc; "the value of {name}, by constraint {number},"),
        Step::Choose(_) => format!(in alloc; "choosing {name}"),
        Step::Ask(_) => format!(in alloc; "asking for {name}"),
    }
}
