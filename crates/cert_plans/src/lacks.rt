//! What a rule needs and isn't known.

ghost use Rattle.std.specs.Prelude.{◌≡◌, true, [], ◌∷◌, ◌++◌, None, map};
ghost use Rattle.cert_types.specs.declared.rule.Fact.TheVariants as fact;
ghost use Rattle.cert_rules.specs.Facts as facts;
ghost use Rattle.cert_rules.specs.Rules as rules;
ghost use Rattle.cert_plans.specs.Knowing as knowing;
ghost use Rattle.cert_plans.specs.Needing as spec;

use crate::facts::fact_of;
use crate::knowledge::{FieldKnowledge, Knowledge, NOTHING};
use crate::needs::{Need, NeedRule};
use cert_rules::fields::is_header;
use cert_types::Fact;
use sem_expr::{Attribute, Expr, Measure, Side, Subject};
use sem_profile::{CrcArguments, Field, Format};

/// Whether a step of this rule is enabled: all that it needs is known, and nothing that hinders it.
pub fn enables(known: &Knowledge, format: &Format, rule: &NeedRule<'_>) -> bool
    ensures { result ≡ knowing.enables (knowing.shows known.now) (spec.told format.now rule.now) }
{
    lacking(known, format, rule.needs.as_slice()).is_none() && known.lacks_few(rule.absent)
}

/// The first fact of these needs that isn't known.
pub fn lacking(known: &Knowledge, format: &Format, needs: &[Need<'_>]) -> Option<Fact>
    ensures { result ≡ spec.first_unknown known.now (spec.facts_of_all format.now needs.now) }
{
    let mut sure = NOTHING;
    for need in needs {
        if let Some(fact) = lacking_of(known, format, need, &mut sure) {
            return Some(fact);
        }
    }
    None
}

/// The same of one part. What is sure of THIS is marked, so that it is looked up once.
fn lacking_of(
    known: &Knowledge,
    format: &Format,
    need: &Need<'_>,
    sure: &mut FieldKnowledge,
) -> Option<Fact>
    requires { spec.IsSure known.now format.now sure.old }
    ensures fact { result ≡ spec.first_unknown known.now (spec.facts_of format.now need.now) }
    ensures sure { spec.IsSure known.now format.now sure.new }
{
    match need {
        Need::Nothing => None,
        Need::Length(side, field) => lacking_one(known, Fact::LengthOf(*side, *field)),
        Need::Bits(side, field) => lacking_one(known, Fact::BitsOf(*side, *field)),
        Need::Inputs(expr) => lacking_inputs(known, format, expr, sure),
        Need::Arguments(exprs) => lacking_all(known, format, exprs.as_slice(), sure),
        Need::Crc(crc) => lacking_crc(known, format, crc, sure),
        Need::ListedBefore(field) => {
            listed_undone(known, format.listing.get().as_slice(), *field)
        }
        Need::HeadersBefore(field) => headers_undone(known, format, *field),
    }
}

fn lacking_one(known: &Knowledge, fact: Fact) -> Option<Fact>
    ensures { result ≡ spec.first_unknown known.now (fact ∷ []) }
{
    if known.has(fact) { None } else { Some(fact) }
}

/// What of the inputs of the expressions isn't known.
fn lacking_all(
    known: &Knowledge,
    format: &Format,
    exprs: &[Expr],
    sure: &mut FieldKnowledge,
) -> Option<Fact>
    requires { spec.IsSure known.now format.now sure.old }
    ensures fact { result ≡ spec.first_unknown known.now (facts.inputs_of_all format.now exprs.now) }
    ensures sure { spec.IsSure known.now format.now sure.new }
{
    for expr in exprs {
        if let Some(fact) = lacking_inputs(known, format, expr, sure) {
            return Some(fact);
        }
    }
    None
}

/// What isn't known of the bits that a crc covers and of the inputs of its arguments.
#[tactic(auto, using(crate::proofs::NeedingUnknown::joined_some, crate::proofs::NeedingUnknown::joined_none))]
fn lacking_crc(
    known: &Knowledge,
    format: &Format,
    crc: &CrcArguments,
    sure: &mut FieldKnowledge,
) -> Option<Fact>
    requires { spec.IsSure known.now format.now sure.old }
    ensures fact { result ≡ spec.first_unknown known.now (spec.facts_of_crc format.now crc.now) }
    ensures sure { spec.IsSure known.now format.now sure.new }
{
    match lacking_side(known, format, crc.subject, crc.side, Measure::Value, sure) {
        Some(fact) => Some(fact),
        None => lacking_arguments(known, format, crc, sure),
    }
}

/// The same of its arguments alone.
#[tactic(auto, using(crate::proofs::NeedingUnknown::joined_some, crate::proofs::NeedingUnknown::joined_none))]
fn lacking_arguments(
    known: &Knowledge,
    format: &Format,
    crc: &CrcArguments,
    sure: &mut FieldKnowledge,
) -> Option<Fact>
    requires { spec.IsSure known.now format.now sure.old }
    ensures fact { result ≡ spec.first_unknown known.now (facts.inputs format.now crc.now.bits ++ facts.inputs format.now crc.now.polynomial ++ facts.inputs format.now crc.now.initial ++ facts.inputs format.now crc.now.length) }
    ensures sure { spec.IsSure known.now format.now sure.new }
{
    match lacking_inputs(known, format, &crc.bits, sure) {
        Some(fact) => Some(fact),
        None => lacking_others(known, format, crc, sure),
    }
}

/// The same of its arguments but the first.
#[tactic(auto, using(crate::proofs::NeedingUnknown::joined_some, crate::proofs::NeedingUnknown::joined_none))]
fn lacking_others(
    known: &Knowledge,
    format: &Format,
    crc: &CrcArguments,
    sure: &mut FieldKnowledge,
) -> Option<Fact>
    requires { spec.IsSure known.now format.now sure.old }
    ensures fact { result ≡ spec.first_unknown known.now (facts.inputs format.now crc.now.polynomial ++ facts.inputs format.now crc.now.initial ++ facts.inputs format.now crc.now.length) }
    ensures sure { spec.IsSure known.now format.now sure.new }
{
    match lacking_inputs(known, format, &crc.polynomial, sure) {
        Some(fact) => Some(fact),
        None => lacking_both(known, format, &crc.initial, &crc.length, sure),
    }
}

/// What of the inputs of both expressions isn't known.
#[tactic(auto, using(crate::proofs::NeedingUnknown::joined_some, crate::proofs::NeedingUnknown::joined_none))]
fn lacking_both(
    known: &Knowledge,
    format: &Format,
    left: &Expr,
    right: &Expr,
    sure: &mut FieldKnowledge,
) -> Option<Fact>
    requires { spec.IsSure known.now format.now sure.old }
    ensures fact { result ≡ spec.first_unknown known.now (facts.inputs format.now left.now ++ facts.inputs format.now right.now) }
    ensures sure { spec.IsSure known.now format.now sure.new }
{
    match lacking_inputs(known, format, left, sure) {
        Some(fact) => Some(fact),
        None => lacking_inputs(known, format, right, sure),
    }
}

/// What of the inputs of the expression isn't known. Where all are, one quick look tells it.
fn lacking_inputs(
    known: &Knowledge,
    format: &Format,
    expr: &Expr,
    sure: &mut FieldKnowledge,
) -> Option<Fact>
    requires { spec.IsSure known.now format.now sure.old }
    ensures fact { result ≡ spec.first_unknown known.now (facts.inputs format.now expr.now) }
    ensures sure { spec.IsSure known.now format.now sure.new }
{
    if knows_inputs(known, format, expr, sure) {
        None
    } else {
        unknown_input(known, format, expr, sure)
    }
}

/// Whether all inputs of the expression are known.
#[tactic(auto, using(crate::proofs::NeedingUnknown::both_known))]
fn knows_inputs(known: &Knowledge, format: &Format, expr: &Expr, sure: &mut FieldKnowledge) -> bool
    requires { spec.IsSure known.now format.now sure.old }
    ensures known { result ≡ true → None ≡ spec.first_unknown known.now (facts.inputs format.now expr.now) }
    ensures sure { spec.IsSure known.now format.now sure.new }
{
    match expr {
        Expr::Number(_, _) | Expr::Parameter(_, _) => true,
        Expr::Attribute(_, attribute) => {
            let Attribute {
                subject,
                side,
                measure,
            } = *attribute;
            knows_side(known, format, subject, side, measure, sure)
        }
        // In a long sum the right operand is the short one.
        Expr::Binary(_, _, left, right) => {
            if knows_inputs(known, format, right, sure) {
                knows_inputs(known, format, left, sure)
            } else {
                false
            }
        }
    }
}

/// Whether what tells a measure of a side of the subject is known.
fn knows_side(
    known: &Knowledge,
    format: &Format,
    subject: Subject,
    side: Side,
    measure: Measure,
    sure: &mut FieldKnowledge,
) -> bool
    requires { spec.IsSure known.now format.now sure.old }
    ensures known { result ≡ true → None ≡ spec.first_unknown known.now (facts.side_facts format.now subject side measure) }
    ensures sure { spec.IsSure known.now format.now sure.new }
{
    match subject {
        Subject::Field(field) => known.has(fact_of(side, measure, field)),
        Subject::This => knows_whole(known, format, side, measure, sure),
    }
}

/// The same of THIS.
fn knows_whole(
    known: &Knowledge,
    format: &Format,
    side: Side,
    measure: Measure,
    sure: &mut FieldKnowledge,
) -> bool
    requires { spec.IsSure known.now format.now sure.old }
    ensures known { result ≡ true → None ≡ spec.first_unknown known.now (facts.side_facts format.now Subject.This side measure) }
    ensures sure { spec.IsSure known.now format.now sure.new }
{
    if sure.has(fact_of(side, measure, 0)) {
        return true;
    }
    match lacking_whole(known, format, side, measure, sure) {
        Some(_) => false,
        None => true,
    }
}

/// The first of the inputs of the expression that isn't known.
#[tactic(auto, using(crate::proofs::NeedingUnknown::joined_some, crate::proofs::NeedingUnknown::joined_none))]
fn unknown_input(
    known: &Knowledge,
    format: &Format,
    expr: &Expr,
    sure: &mut FieldKnowledge,
) -> Option<Fact>
    requires { spec.IsSure known.now format.now sure.old }
    ensures fact { result ≡ spec.first_unknown known.now (facts.inputs format.now expr.now) }
    ensures sure { spec.IsSure known.now format.now sure.new }
{
    match expr {
        Expr::Number(_, _) | Expr::Parameter(_, _) => None,
        Expr::Attribute(_, attribute) => {
            let Attribute {
                subject,
                side,
                measure,
            } = *attribute;
            lacking_side(known, format, subject, side, measure, sure)
        }
        Expr::Binary(_, _, left, right) => match unknown_input(known, format, left, sure) {
            Some(fact) => Some(fact),
            None => unknown_input(known, format, right, sure),
        },
    }
}

/// What isn't known of what tells a measure of a side of the subject.
fn lacking_side(
    known: &Knowledge,
    format: &Format,
    subject: Subject,
    side: Side,
    measure: Measure,
    sure: &mut FieldKnowledge,
) -> Option<Fact>
    requires { spec.IsSure known.now format.now sure.old }
    ensures fact { result ≡ spec.first_unknown known.now (facts.side_facts format.now subject side measure) }
    ensures sure { spec.IsSure known.now format.now sure.new }
{
    match subject {
        Subject::Field(field) => lacking_one(known, fact_of(side, measure, field)),
        Subject::This => lacking_whole(known, format, side, measure, sure),
    }
}

/// The same of THIS: of each header field, or of each listed one.
fn lacking_whole(
    known: &Knowledge,
    format: &Format,
    side: Side,
    measure: Measure,
    sure: &mut FieldKnowledge,
) -> Option<Fact>
    requires { spec.IsSure known.now format.now sure.old }
    ensures fact { result ≡ spec.first_unknown known.now (facts.side_facts format.now Subject.This side measure) }
    ensures sure { spec.IsSure known.now format.now sure.new }
{
    let mark = fact_of(side, measure, 0);
    if sure.has(mark) {
        return None;
    }
    let lacking = unmarked(known, format, side, measure);
    if lacking.is_none() {
        *sure = sure.with(mark);
    }
    lacking
}

fn unmarked(known: &Knowledge, format: &Format, side: Side, measure: Measure) -> Option<Fact>
    ensures { result ≡ spec.first_unknown known.now (facts.side_facts format.now Subject.This side measure) }
{
    match side {
        Side::Uncompressed => lacking_headers(known, format.fields.as_slice(), measure),
        Side::Compressed => lacking_listed(known, format.listing.get().as_slice(), measure),
    }
}

/// Of the uncompressed side of each header field.
fn lacking_headers(known: &Knowledge, fields: &[Field], measure: Measure) -> Option<Fact>
    ensures { result ≡ spec.first_unknown known.now (facts.of_headers (facts.fact_of Side.Uncompressed measure) 0 fields.now) }
{
    for (index, field) in fields.iter().enumerate() {
        let fact = fact_of(Side::Uncompressed, measure, index);
        if is_header(field) && !known.has(fact) {
            return Some(fact);
        }
    }
    None
}

/// Of the compressed side of each listed field.
fn lacking_listed(known: &Knowledge, listing: &[usize], measure: Measure) -> Option<Fact>
    ensures { result ≡ spec.first_unknown known.now (map (facts.fact_of Side.Compressed measure) listing.now) }
{
    for listed in listing {
        let fact = fact_of(Side::Compressed, measure, *listed);
        if !known.has(fact) {
            return Some(fact);
        }
    }
    None
}

/// The first of the fields listed before the first place of this one that isn't done.
fn listed_undone(known: &Knowledge, listing: &[usize], field: usize) -> Option<Fact>
    ensures { result ≡ spec.first_unknown known.now (map fact.Done (facts.before field listing.now)) }
{
    for listed in listing {
        if *listed == field {
            return None;
        }
        if !known.has(Fact::Done(*listed)) {
            return Some(Fact::Done(*listed));
        }
    }
    None
}

/// The first header field before this one that isn't done.
fn headers_undone(known: &Knowledge, format: &Format, field: usize) -> Option<Fact>
    ensures { result ≡ spec.first_unknown known.now (rules.headers_before format.now field) }
{
    let fields = format.fields.as_slice();
    let end = field.min(fields.len());
    undone(known, &fields[..end])
}

fn undone(known: &Knowledge, fields: &[Field]) -> Option<Fact>
    ensures { result ≡ spec.first_unknown known.now (facts.of_headers fact.Done 0 fields.now) }
{
    for (index, field) in fields.iter().enumerate() {
        if is_header(field) && !known.has(Fact::Done(index)) {
            return Some(Fact::Done(index));
        }
    }
    None
}
