//! Expressions as chains of operators: a number in place of each part that is one whatever is known, and no part that calls another but where an operand of the
//! right is a chain itself. So they are worked out with less than their trees are.

ghost use Rattle.std.specs.Prelude.{◌≡◌, ◌++◌, [], ℤ, IfOk, IfSome, List, Some};
ghost use Rattle.sem_expr.specs.Values.{apply, both, val};
ghost use Rattle.sem_pages.specs.declared.chains.Chain.{Chain};
ghost use Rattle.sem_pages.specs.declared.chains.Operand.TheVariants as operand;
ghost use Rattle.sem_pages.specs.Chains as spec;
ghost use Rattle.sem_pages.specs.Pages.{numbers_seen};

use crate::view::View;
use sem_expr::short::{calculated, plain};
use sem_expr::{Attribute, Expr, Measure, Operator, Side, Subject};
use sqlite_items::{Items, at};
use std::alloc::{AllocError, Global};

/// What a chain begins with, and what stands right of each operator in it.
#[derive(Clone, Copy)]
pub enum Operand {
    Number(i64),
    Parameter(usize),
    /// The number of the uncompressed side of the field of that index: most attributes are so.
    Field(usize),
    Attribute(Attribute),
    Pair(Pair),
    /// The value of the chain of that index.
    Chain(usize),
}

/// What an operator makes of the number of the uncompressed side of the field of that index, and of another number. A chain so short is no call.
#[derive(Clone, Copy)]
pub struct Pair {
    pub field: usize,
    pub operator: Operator,
    pub number: i64,
}

/// An operator, and what stands right of it.
#[derive(Clone, Copy)]
pub struct Link {
    pub operator: Operator,
    pub right: Operand,
}

/// An operand, and what is made of it, one operator after the other.
#[derive(Drop)]
pub struct Chain {
    pub first: Operand,
    pub links: Items<Link>,
}

/// The operand with the value of the expression; the chains that it goes by are added. None where a number on the way is above 64 bits.
pub(crate) fn operand_of(
    alloc: Global,
    expr: &Expr,
    chains: &mut Items<Chain>,
) -> Result<Option<Operand>, AllocError>
    ensures { IfOk result (λ o. IfSome o (λ x. spec.IsOperand chains.new x (λ a. val a expr.now))) }
{
    let mut links = Items::new(alloc);
    let Some(first) = spine(expr, alloc, chains, &mut links)? else {
        return Ok(None);
    };
    Ok(Some(closed(chains, first, links)?))
}

/// The operand with which the expression begins, and the links from there on; the chains that they go by are added.
fn spine(
    expr: &Expr,
    alloc: Global,
    chains: &mut Items<Chain>,
    links: &mut Items<Link>,
) -> Result<Option<Operand>, AllocError>
    requires { links.old ≡ [] }
    ensures grows { IfOk result (λ _. (more : List Chain) × (chains.new ≡ chains.old ++ more)) }
    ensures spells { IfOk result (λ o. IfSome o (λ x. spec.Spells chains.new x links.new (λ a. val a expr.now))) }
{
    match expr {
        Expr::Number(_, _) => Ok(number_operand(expr)),
        Expr::Parameter(_, index) => Ok(Some(Operand::Parameter(*index))),
        Expr::Attribute(_, attribute) => Ok(Some(attribute_operand(*attribute))),
        Expr::Binary(_, operator, left, right) => {
            let Some(first) = spine(left, alloc, chains, links)? else {
                return Ok(None);
            };
            let mut others = Items::new(alloc);
            let Some(other) = spine(right, alloc, chains, &mut others)? else {
                return Ok(None);
            };
            let right = closed(chains, other, others)?;
            linked(first, links, *operator, right)
        }
    }
}

/// A number as an operand, where 64 bits hold it.
fn number_operand(expr: &Expr) -> Option<Operand>
    ensures { IfSome result (λ x. (chains : List Chain) → spec.IsOperand chains x (λ a. val a expr.now)) }
{
    Some(Operand::Number(plain(expr)?))
}

/// The attribute as an operand.
fn attribute_operand(attribute: Attribute) -> Operand
    ensures { (chains : List Chain) → spec.IsOperand chains result (λ a. a.attribute attribute) }
{
    match attribute {
        Attribute {
            subject: Subject::Field(index),
            side: Side::Uncompressed,
            measure: Measure::Value,
        } => Operand::Field(index),
        _ => Operand::Attribute(attribute),
    }
}

/// The operand whose value is what the links make of the first: a chain, if there are some.
fn closed(
    chains: &mut Items<Chain>,
    first: Operand,
    links: Items<Link>,
) -> Result<Operand, AllocError>
    ensures grows { IfOk result (λ _. (more : List Chain) × (chains.new ≡ chains.old ++ more)) }
    ensures is { IfOk result (λ x. (whole : spec.Meaning) → spec.Spells chains.old first links whole → spec.IsOperand chains.new x whole) }
{
    if links.is_empty() {
        return Ok(first);
    }
    if let Some(pair) = pair_of(first, links.as_slice()) {
        return Ok(Operand::Pair(pair));
    }
    let index = chains.len();
    chains.push(Chain { first, links })?;
    Ok(Operand::Chain(index))
}

/// The pair that a field and the one link are, whose operand is a number.
fn pair_of(first: Operand, links: &[Link]) -> Option<Pair>
    ensures { IfSome result (λ p. (chains : List Chain) (whole : spec.Meaning) → spec.Spells chains first links.now whole → spec.IsOperand chains (operand.Pair p) whole) }
{
    if links.len() != 1 {
        return None;
    }
    let link = links[0];
    match (first, link.right) {
        (Operand::Field(field), Operand::Number(number)) => Some(Pair {
            field,
            operator: link.operator,
            number,
        }),
        _ => None,
    }
}

/// The first operand of the links with one more. Numbers are worked out at once.
fn linked(
    first: Operand,
    links: &mut Items<Link>,
    operator: Operator,
    right: Operand,
) -> Result<Option<Operand>, AllocError>
    ensures { IfOk result (λ o. IfSome o (λ x. (chains : List Chain) (one other whole : spec.Meaning) → spec.Spells chains first links.old one → spec.IsOperand chains right other → spec.IsApplied operator one other whole → spec.Spells chains x links.new whole)) }
{
    if let (Operand::Number(one), Operand::Number(other)) = (first, right) {
        if links.is_empty() {
            return Ok(worked_out(operator, one, other));
        }
    }
    links.push(Link { operator, right })?;
    Ok(Some(first))
}

/// What the operator makes of the numbers.
fn worked_out(operator: Operator, one: i64, other: i64) -> Option<Operand>
    ensures { IfSome result (λ x. (n : ℤ) × (x ≡ operand.Number n) × (apply operator one other ≡ Some n)) }
{
    Some(Operand::Number(calculated(operator, one, other)?))
}

/// The value of the operand among the chains below an index, where it is found.
#[cycle(chains)]
#[inline(always)]
fn operand_value(chains: &[Chain], below: usize, operand: Operand, view: &View<'_>) -> Option<i64>
    ensures { (m : spec.Meaning) → spec.IsOperand chains.now operand m → IfSome result (λ v. m (numbers_seen view.now) ≡ Some v) }
{
    match operand {
        Operand::Number(number) => Some(number),
        Operand::Parameter(index) => view.parameter(index),
        Operand::Field(field) => number_at(view, field),
        Operand::Attribute(attribute) => view.attribute(attribute),
        Operand::Pair(pair) => pair_value(&pair, view),
        Operand::Chain(index) => {
            if index < below {
                chain_value(chains, index, view)
            } else {
                None
            }
        }
    }
}

/// The value of the chain of that index.
#[cycle(chains)]
#[inline(never)]
fn chain_value(chains: &[Chain], index: usize, view: &View<'_>) -> Option<i64>
    ensures { (m : spec.Meaning) → spec.IsOperand chains.now (operand.Chain index) m → IfSome result (λ v. m (numbers_seen view.now) ≡ Some v) }
{
    let chain = at(chains, index)?;
    let links = chain.links.as_slice();
    let mut value = operand_value(chains, index, chain.first, view)?;
    for link in links {
        value = linked_value(chains, index, link, value, view)?;
    }
    Some(value)
}

/// What the link makes of the value, where that is found. Each way to the operand on the right has the operators of its own.
#[cycle(chains)]
#[inline(always)]
fn linked_value(
    chains: &[Chain],
    below: usize,
    link: &Link,
    value: i64,
    view: &View<'_>,
) -> Option<i64>
    ensures { (r : spec.Meaning) → spec.IsOperand chains.now link.now.right r → IfSome result (λ v. both (apply link.now.operator) (Some value) (r (numbers_seen view.now)) ≡ Some v) }
{
    match link.right {
        Operand::Number(number) => calculated(link.operator, value, number),
        Operand::Field(field) => calculated(link.operator, value, number_at(view, field)?),
        Operand::Pair(pair) => calculated(link.operator, value, pair_value(&pair, view)?),
        _ => {
            let right = operand_value(chains, below, link.right, view)?;
            calculated(link.operator, value, right)
        }
    }
}

/// The number of the uncompressed side of the field of that index, where it is known and 64 bits hold it.
#[inline(always)]
fn number_at(view: &View<'_>, field: usize) -> Option<i64>
    ensures { IfSome result (λ v. (numbers_seen view.now).attribute (spec.up field) ≡ Some v) }
{
    view.attribute(Attribute {
        subject: Subject::Field(field),
        side: Side::Uncompressed,
        measure: Measure::Value,
    })
}

/// The value of the pair, where it is found.
#[inline(always)]
fn pair_value(pair: &Pair, view: &View<'_>) -> Option<i64>
    ensures { IfSome result (λ v. spec.pair_means pair.now (numbers_seen view.now) ≡ Some v) }
{
    calculated(pair.operator, number_at(view, pair.field)?, pair.number)
}

/// The value of the operand among chains, where it is found.
#[inline(always)]
pub(crate) fn value_by(chains: &[Chain], operand: Operand, view: &View<'_>) -> Option<i64>
    ensures { (m : spec.Meaning) → spec.IsOperand chains.now operand m → IfSome result (λ v. m (numbers_seen view.now) ≡ Some v) }
{
    operand_value(chains, chains.len(), operand, view)
}
