//! Values and ranges of expressions. An expression stands with its operators after their operands, and each part has the place of its last word, the first
//! word at 1.

ghost use Rattle.std.specs.Prelude.{IfOk};
ghost use Rattle.sem_expr.specs.Known.{assignment_of};
ghost use Rattle.sem_expr.specs.Bounds.{bounding_of};
ghost use Rattle.sem_expr.specs.Spread.{LieIn};

use anyhow::{Context, Result};
use sem_expr::{
    Attribute, Comparison, Cond, Expr, Interval, Intervals, Known, Measure, Numbers, Operator,
    RangeFault, RangeFaultKind, Ranges, Side, SideIntervals, SideNumbers, Subject, condition_fault,
    decide, range, value,
};
use sqlite_items::Items;
use std::alloc::{AllocError, Global};
use std::fmt::Write;
use text_source::Span;

/// The parts that no later word has taken.
#[derive(Drop)]
struct Parts {
    alloc: Global,
    expressions: Vec<Expr>,
    conditions: Vec<Cond>,
}

// THIS.UVALUE is 5 from 0 to 7 and the one parameter p is 3 from 1 to 4; the field x has the values 0 to 255 and the length 8, none known.
fn few(alloc: Global) -> Result<(Known, Ranges), AllocError>
    ensures { IfOk result (λ pair. LieIn (assignment_of pair.0) (bounding_of pair.1)) }
{
    let unknown = Numbers {
        value: None,
        length: None,
    };
    let known = Known {
        fields: Items::new(alloc),
        whole: SideNumbers {
            uncompressed: Numbers {
                value: Some(5),
                length: None,
            },
            compressed: unknown,
        },
        parameters: Items::from_slice(alloc, &[3])?,
    };
    let small = Intervals {
        value: Interval { from: 0, to: 7 },
        length: Interval { from: 0, to: 3 },
    };
    let octet = Intervals {
        value: Interval { from: 0, to: 255 },
        length: Interval { from: 8, to: 8 },
    };
    let field = SideIntervals {
        uncompressed: octet,
        compressed: small,
    };
    let ranges = Ranges {
        fields: Items::from_slice(alloc, &[field])?,
        whole: SideIntervals {
            uncompressed: small,
            compressed: octet,
        },
        parameters: Items::from_slice(alloc, &[Interval { from: 1, to: 4 }])?,
    };
    Ok((known, ranges))
}

/// `range EXPRESSION`: its range, or the fault.
pub(crate) fn ranged(alloc: Global, out: &mut String, text: &str) -> Result<()> {
    let expr = read(alloc, text)?.last_expression()?;
    let (_known, ranges) = few(alloc)?;
    put_range(out, range(&expr, &ranges))
}

fn put_range(out: &mut String, found: Result<Interval, RangeFault>) -> Result<()> {
    match found {
        Ok(interval) => Ok(write!(out, "{} to {}", interval.from, interval.to)?),
        Err(fault) => put_fault(out, fault),
    }
}

/// `value EXPRESSION`: its value, `none` where there is none, or the fault.
pub(crate) fn valued(alloc: Global, out: &mut String, text: &str) -> Result<()> {
    let expr = read(alloc, text)?.last_expression()?;
    let (known, ranges) = few(alloc)?;
    put_value(out, value_of(&expr, &known, &ranges))
}

fn put_value(out: &mut String, found: Result<Option<i128>, RangeFault>) -> Result<()> {
    match found {
        Ok(Some(value)) => Ok(write!(out, "{value}")?),
        Ok(None) => Ok(out.push_str("none")?),
        Err(fault) => put_fault(out, fault),
    }
}

fn value_of(expr: &Expr, known: &Known, ranges: &Ranges) -> Result<Option<i128>, RangeFault>
    requires { LieIn (assignment_of known.now) (bounding_of ranges.now) }
{
    range(expr, ranges)?;
    Ok(value(expr, known))
}

/// `decide CONDITION`: whether it holds, `none` where a value is missing, or the fault.
pub(crate) fn decided(alloc: Global, out: &mut String, text: &str) -> Result<()> {
    let cond = read(alloc, text)?.last_condition()?;
    let (known, ranges) = few(alloc)?;
    put_truth(out, truth_of(&cond, &known, &ranges))
}

fn put_truth(out: &mut String, found: Result<Option<bool>, RangeFault>) -> Result<()> {
    match found {
        Ok(Some(holds)) => Ok(write!(out, "{holds}")?),
        Ok(None) => Ok(out.push_str("none")?),
        Err(fault) => put_fault(out, fault),
    }
}

fn truth_of(cond: &Cond, known: &Known, ranges: &Ranges) -> Result<Option<bool>, RangeFault>
    requires { LieIn (assignment_of known.now) (bounding_of ranges.now) }
{
    match condition_fault(cond, ranges) {
        Some(fault) => Err(fault),
        None => Ok(decide(cond, known)),
    }
}

fn put_fault(out: &mut String, fault: RangeFault) -> Result<()> {
    let code = match fault.kind {
        RangeFaultKind::AboveLimit => "E30",
        RangeFaultKind::Power => "E32",
    };
    Ok(write!(out, "{code} at {}: {fault}", fault.at.from)?)
}

fn read(alloc: Global, text: &str) -> Result<Parts> {
    let mut parts = Parts {
        alloc,
        expressions: Vec::new(alloc),
        conditions: Vec::new(alloc),
    };
    let mut from: u32 = 0;
    for word in text.split(' ') {
        from = from.saturating_add(1);
        parts.add(Span { from, to: from }, word)?;
    }
    Ok(parts)
}

impl Parts {
    fn last_expression(&mut self) -> Result<Expr> {
        self.expressions.pop().context("no expression")
    }

    fn last_condition(&mut self) -> Result<Cond> {
        self.conditions.pop().context("no condition")
    }

    fn add(&mut self, at: Span, word: &str) -> Result<()> {
        if let Some(operator) = operator(word) {
            return self.calculate(at, operator);
        }
        if let Some(comparison) = comparison(word) {
            return self.compare(at, comparison);
        }
        match word {
            "true" => Ok(self.conditions.push(Cond::Constant(at, true))?),
            "false" => Ok(self.conditions.push(Cond::Constant(at, false))?),
            "!" => {
                let inner = self.boxed_condition()?;
                Ok(self.conditions.push(Cond::Not(at, inner))?)
            }
            "&&" | "||" => self.join(at, word == "&&"),
            _ => Ok(self.expressions.push(operand(at, word)?)?),
        }
    }

    fn boxed_expression(&mut self) -> Result<Box<Expr>> {
        Ok(Box::new(self.alloc, self.last_expression()?)?)
    }

    fn boxed_condition(&mut self) -> Result<Box<Cond>> {
        Ok(Box::new(self.alloc, self.last_condition()?)?)
    }

    fn calculate(&mut self, at: Span, operator: Operator) -> Result<()> {
        let right = self.boxed_expression()?;
        let left = self.boxed_expression()?;
        Ok(
            self.expressions
                .push(Expr::Binary(at, operator, left, right))?,
        )
    }

    fn compare(&mut self, at: Span, comparison: Comparison) -> Result<()> {
        let right = self.last_expression()?;
        let left = self.last_expression()?;
        Ok(
            self.conditions
                .push(Cond::Compare(at, comparison, left, right))?,
        )
    }

    fn join(&mut self, at: Span, conjunction: bool) -> Result<()> {
        let right = self.boxed_condition()?;
        let left = self.boxed_condition()?;
        Ok(
            self.conditions.push(if conjunction {
                Cond::And(at, left, right)
            } else {
                Cond::Or(at, left, right)
            })?,
        )
    }
}

fn operand(at: Span, word: &str) -> Result<Expr> {
    let (subject, measure) = match word {
        "p" => return Ok(Expr::Parameter(at, 0)),
        "q" => return Ok(Expr::Parameter(at, 1)),
        "THIS.UVALUE" => (Subject::This, Measure::Value),
        "x.ULENGTH" => (Subject::Field(0), Measure::Length),
        number => return Ok(Expr::Number(at, number.parse()?)),
    };
    let side = Side::Uncompressed;
    Ok(Expr::Attribute(
        at,
        Attribute {
            subject,
            side,
            measure,
        },
    ))
}

fn operator(word: &str) -> Option<Operator> {
    match word {
        "+" => Some(Operator::Add),
        "-" => Some(Operator::Subtract),
        "*" => Some(Operator::Multiply),
        "/" => Some(Operator::Divide),
        "%" => Some(Operator::Remainder),
        "^" => Some(Operator::Power),
        _ => None,
    }
}

fn comparison(word: &str) -> Option<Comparison> {
    match word {
        "==" => Some(Comparison::Equal),
        "!=" => Some(Comparison::NotEqual),
        "<" => Some(Comparison::Less),
        ">" => Some(Comparison::Greater),
        "<=" => Some(Comparison::AtMost),
        ">=" => Some(Comparison::AtLeast),
        _ => None,
    }
}
