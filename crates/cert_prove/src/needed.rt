//! What steps need, fact by fact.

ghost use Rattle.std.specs.Prelude.{◌≡◌, ◌++◌, map, IfOk, OnOk};
ghost use Rattle.cert_types.specs.declared.rule.Fact.TheVariants as fact;
ghost use Rattle.sem_expr.specs.declared.expr.Side.TheVariants as side;
ghost use Rattle.sem_expr.specs.declared.expr.Subject.TheVariants as subject;
ghost use Rattle.cert_rules.specs.Facts as told;
ghost use Rattle.cert_rules.specs.Rules as rules;
ghost use Rattle.cert_plans.specs.Needing.{facts_of, facts_of_all, facts_of_crc};
ghost use Rattle.cert_prove.specs.Needed as spec;

use cert_plans::Need;
use cert_rules::fields::is_header;
use cert_types::Fact;
use sem_expr::{Attribute, Expr, Measure, Side, Subject};
use sem_profile::{CrcArguments, Field, Format};
use sqlite_items::Items;
use std::alloc::{AllocError, Global};

/// The sides and measures of THIS that are written out.
#[derive(Clone, Copy)]
pub struct Wholes {
    pub uncompressed_length: bool,
    pub uncompressed_bits: bool,
    pub compressed_length: bool,
    pub compressed_bits: bool,
}

const NONE: Wholes = Wholes {
    uncompressed_length: false,
    uncompressed_bits: false,
    compressed_length: false,
    compressed_bits: false,
};

impl Wholes {
    fn has(self, side: Side, measure: Measure) -> bool
        ensures { result ≡ spec.is_in self side measure }
    {
        match side {
            Side::Uncompressed => match measure {
                Measure::Length => self.uncompressed_length,
                Measure::Value => self.uncompressed_bits,
            },
            Side::Compressed => match measure {
                Measure::Length => self.compressed_length,
                Measure::Value => self.compressed_bits,
            },
        }
    }

    fn with(self, side: Side, measure: Measure) -> Wholes
        ensures { result ≡ spec.with_whole self side measure }
    {
        let mut wholes = self;
        match side {
            Side::Uncompressed => match measure {
                Measure::Length => wholes.uncompressed_length = true,
                Measure::Value => wholes.uncompressed_bits = true,
            },
            Side::Compressed => match measure {
                Measure::Length => wholes.compressed_length = true,
                Measure::Value => wholes.compressed_bits = true,
            },
        }
        wholes
    }
}

/// The facts of the needs. Those of a side and measure of THIS are written out once, however often they are named.
pub(crate) fn needed(
    alloc: Global,
    format: &Format,
    needs: &[Need<'_>],
) -> Result<Items<Fact>, AllocError>
    ensures { IfOk result (λ written. spec.AskTheSame written (facts_of_all format.now needs.now)) }
{
    let mut facts = Items::new(alloc);
    let mut wholes = NONE;
    for need in needs {
        push_need(format, need, &mut facts, &mut wholes)?;
    }
    Ok(facts)
}

#[tactic(auto, using(crate::proofs::NeededWritten::adds_none, crate::proofs::NeededWritten::pushed))]
fn push_need(
    format: &Format,
    need: &Need<'_>,
    facts: &mut Items<Fact>,
    wholes: &mut Wholes,
) -> Result<(), AllocError>
    ensures { OnOk result (spec.Adds format.now (facts_of format.now need.now) facts.old wholes.old facts.new wholes.new) }
{
    match need {
        Need::Nothing => Ok(()),
        Need::Length(side, field) => facts.push(Fact::LengthOf(*side, *field)),
        Need::Bits(side, field) => facts.push(Fact::BitsOf(*side, *field)),
        Need::Inputs(expr) => push_inputs(format, expr, facts, wholes),
        Need::Arguments(exprs) => push_all(format, exprs.as_slice(), facts, wholes),
        Need::Crc(crc) => push_crc(format, crc, facts, wholes),
        Need::ListedBefore(field) => {
            push_listed_before(format.listing.get().as_slice(), *field, facts)
        }
        Need::HeadersBefore(field) => push_headers_before(format, *field, facts),
    }
}

/// The same of the inputs of the expressions.
fn push_all(
    format: &Format,
    exprs: &[Expr],
    facts: &mut Items<Fact>,
    wholes: &mut Wholes,
) -> Result<(), AllocError>
    ensures { OnOk result (spec.Adds format.now (told.inputs_of_all format.now exprs.now) facts.old wholes.old facts.new wholes.new) }
{
    for expr in exprs {
        push_inputs(format, expr, facts, wholes)?;
    }
    Ok(())
}

/// Of the bits that a crc covers and of the inputs of its arguments.
#[tactic(auto, using(crate::proofs::NeededWritten::joined))]
fn push_crc(
    format: &Format,
    crc: &CrcArguments,
    facts: &mut Items<Fact>,
    wholes: &mut Wholes,
) -> Result<(), AllocError>
    ensures { OnOk result (spec.Adds format.now (facts_of_crc format.now crc.now) facts.old wholes.old facts.new wholes.new) }
{
    push_side(format, crc.subject, crc.side, Measure::Value, facts, wholes)?;
    push_inputs(format, &crc.bits, facts, wholes)?;
    push_inputs(format, &crc.polynomial, facts, wholes)?;
    push_inputs(format, &crc.initial, facts, wholes)?;
    push_inputs(format, &crc.length, facts, wholes)
}

/// Of the inputs of the expression.
#[tactic(auto, using(crate::proofs::NeededWritten::adds_none, crate::proofs::NeededWritten::joined))]
fn push_inputs(
    format: &Format,
    expr: &Expr,
    facts: &mut Items<Fact>,
    wholes: &mut Wholes,
) -> Result<(), AllocError>
    ensures { OnOk result (spec.Adds format.now (told.inputs format.now expr.now) facts.old wholes.old facts.new wholes.new) }
{
    match expr {
        Expr::Number(_, _) | Expr::Parameter(_, _) => Ok(()),
        Expr::Attribute(_, attribute) => {
            let Attribute {
                subject,
                side,
                measure,
            } = *attribute;
            push_side(format, subject, side, measure, facts, wholes)
        }
        Expr::Binary(_, _, left, right) => {
            push_inputs(format, left, facts, wholes)?;
            push_inputs(format, right, facts, wholes)
        }
    }
}

/// Of what tells a measure of a side of the subject.
#[tactic(auto, using(crate::proofs::NeededWritten::pushed))]
fn push_side(
    format: &Format,
    subject: Subject,
    side: Side,
    measure: Measure,
    facts: &mut Items<Fact>,
    wholes: &mut Wholes,
) -> Result<(), AllocError>
    ensures { OnOk result (spec.Adds format.now (told.side_facts format.now subject side measure) facts.old wholes.old facts.new wholes.new) }
{
    match subject {
        Subject::Field(field) => facts.push(fact_of(side, measure, field)),
        Subject::This => push_whole(format, side, measure, facts, wholes),
    }
}

/// The same of THIS, unless it is written out.
#[tactic(auto, using(crate::proofs::NeededWritten::adds_no_more, crate::proofs::NeededWritten::whole_pushed))]
fn push_whole(
    format: &Format,
    side: Side,
    measure: Measure,
    facts: &mut Items<Fact>,
    wholes: &mut Wholes,
) -> Result<(), AllocError>
    ensures { OnOk result (spec.Adds format.now (told.side_facts format.now subject.This side measure) facts.old wholes.old facts.new wholes.new) }
{
    if wholes.has(side, measure) {
        return Ok(());
    }
    *wholes = wholes.with(side, measure);
    match side {
        Side::Uncompressed => push_headers(format.fields.as_slice(), measure, facts),
        Side::Compressed => push_listed(format.listing.get().as_slice(), measure, facts),
    }
}

/// Of the uncompressed side of each header field.
fn push_headers(
    fields: &[Field],
    measure: Measure,
    facts: &mut Items<Fact>,
) -> Result<(), AllocError>
    ensures { OnOk result (facts.new ≡ facts.old ++ told.of_headers (told.fact_of side.Uncompressed measure) 0 fields.now) }
{
    for (index, field) in fields.iter().enumerate() {
        if is_header(field) {
            facts.push(fact_of(Side::Uncompressed, measure, index))?;
        }
    }
    Ok(())
}

/// Of the compressed side of each listed field.
fn push_listed(
    listing: &[usize],
    measure: Measure,
    facts: &mut Items<Fact>,
) -> Result<(), AllocError>
    ensures { OnOk result (facts.new ≡ facts.old ++ map (told.fact_of side.Compressed measure) listing.now) }
{
    for listed in listing {
        facts.push(fact_of(Side::Compressed, measure, *listed))?;
    }
    Ok(())
}

/// That the fields listed before the first place of this one are done.
fn push_listed_before(
    listing: &[usize],
    field: usize,
    facts: &mut Items<Fact>,
) -> Result<(), AllocError>
    ensures { OnOk result (facts.new ≡ facts.old ++ map fact.Done (told.before field listing.now)) }
{
    for listed in listing {
        if *listed == field {
            return Ok(());
        }
        facts.push(Fact::Done(*listed))?;
    }
    Ok(())
}

/// That the header fields before this one are done.
fn push_headers_before(
    format: &Format,
    field: usize,
    facts: &mut Items<Fact>,
) -> Result<(), AllocError>
    ensures { OnOk result (facts.new ≡ facts.old ++ rules.headers_before format.now field) }
{
    let fields = format.fields.as_slice();
    let end = field.min(fields.len());
    push_headers_done(&fields[..end], facts)
}

fn push_headers_done(fields: &[Field], facts: &mut Items<Fact>) -> Result<(), AllocError>
    ensures { OnOk result (facts.new ≡ facts.old ++ told.of_headers fact.Done 0 fields.now) }
{
    for (index, field) in fields.iter().enumerate() {
        if is_header(field) {
            facts.push(Fact::Done(index))?;
        }
    }
    Ok(())
}

/// What tells a measure of a side of the field.
fn fact_of(side: Side, measure: Measure, field: usize) -> Fact
    ensures { result ≡ told.fact_of side measure field }
{
    match measure {
        Measure::Length => Fact::LengthOf(side, field),
        Measure::Value => Fact::BitsOf(side, field),
    }
}
