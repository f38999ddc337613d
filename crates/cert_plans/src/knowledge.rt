//! What is known of the fields of a format.

ghost use Rattle.std.specs.Prelude.{◌≡◌, ◌&&◌, ◌||◌, not, nat_lt, IfOk, length, get_or};
ghost use Rattle.std.specs.List.{list_all};
ghost use Rattle.cert_rules.specs.Facts.{has, same_fact};
ghost use Rattle.cert_rules.specs.Plans as plans;
ghost use Rattle.cert_plans.specs.Few.{facts_in};
ghost use Rattle.cert_plans.specs.Knowing as spec;

use crate::few::FewFacts;
use crate::listed::listed_flags;
use cert_types::Fact;
use sem_expr::Side;
use sem_profile::Format;
use sqlite_items::Items;
use std::alloc::{AllocError, Global};

/// What is known of a field: of each side its length and its bits, and whether it was taken or called.
#[derive(Clone, Copy)]
pub struct FieldKnowledge {
    pub uncompressed_length: bool,
    pub uncompressed_bits: bool,
    pub compressed_length: bool,
    pub compressed_bits: bool,
    pub done: bool,
}

/// What is known of each field of a format. Nothing is ever known of a field that isn't there. A look-up takes constant time.
#[derive(Drop)]
pub struct Knowledge {
    pub fields: Items<FieldKnowledge>,
}

/// Nothing is known.
pub(crate) const NOTHING: FieldKnowledge = FieldKnowledge {
    uncompressed_length: false,
    uncompressed_bits: false,
    compressed_length: false,
    compressed_bits: false,
    done: false,
};

impl FieldKnowledge {
    /// Whether the fact is known, if it is of this field.
    pub(crate) fn has(self, fact: Fact) -> bool
        ensures { result ≡ spec.shows_of self fact }
    {
        match fact {
            Fact::LengthOf(Side::Uncompressed, _) => self.uncompressed_length,
            Fact::LengthOf(Side::Compressed, _) => self.compressed_length,
            Fact::BitsOf(Side::Uncompressed, _) => self.uncompressed_bits,
            Fact::BitsOf(Side::Compressed, _) => self.compressed_bits,
            Fact::Done(_) => self.done,
        }
    }

    /// What is known with this fact of the field.
    pub(crate) fn with(self, fact: Fact) -> FieldKnowledge
        ensures { result ≡ spec.with_fact self fact }
    {
        let mut field = self;
        match fact {
            Fact::LengthOf(Side::Uncompressed, _) => field.uncompressed_length = true,
            Fact::LengthOf(Side::Compressed, _) => field.compressed_length = true,
            Fact::BitsOf(Side::Uncompressed, _) => field.uncompressed_bits = true,
            Fact::BitsOf(Side::Compressed, _) => field.compressed_bits = true,
            Fact::Done(_) => field.done = true,
        }
        field
    }
}

/// What is known of a field before the first step: a field that isn't listed has no packed bits.
fn at_start(is_listed: bool) -> FieldKnowledge
    ensures { result ≡ spec.at_start is_listed }
{
    FieldKnowledge {
        uncompressed_length: false,
        uncompressed_bits: false,
        compressed_length: !is_listed,
        compressed_bits: !is_listed,
        done: false,
    }
}

/// The field of a fact.
fn field_of(fact: Fact) -> usize
    ensures { result ≡ spec.field_of fact }
{
    match fact {
        Fact::LengthOf(_, field) => field,
        Fact::BitsOf(_, field) => field,
        Fact::Done(field) => field,
    }
}

impl Knowledge {
    /// What is known before the first step of a plan, in both directions. The error is out of memory.
    pub fn at_start(alloc: Global, format: &Format) -> Result<Knowledge, AllocError>
        ensures known { IfOk result (λ k. spec.Knows k (plans.known_at_start format.now)) }
        ensures width { IfOk result (λ k. spec.width k ≡ length format.now.fields) }
    {
        let mut fields = Items::from_vec(Vec::with_capacity(alloc, format.fields.len())?);
        for listed in listed_flags(alloc, format)?.as_slice() {
            fields.push(at_start(*listed))?;
        }
        Ok(Knowledge { fields })
    }

    /// Whether the fact is known.
    pub fn has(&self, fact: Fact) -> bool
        ensures { result ≡ spec.shows self.now fact }
    {
        match self.fields.get(field_of(fact)) {
            Some(field) => field.has(fact),
            None => false,
        }
    }

    /// Whether each of the facts is known.
    pub fn has_all(&self, facts: &[Fact]) -> bool
        ensures { result ≡ list_all (spec.shows self.now) facts.now }
    {
        facts.iter().all(|fact| self.has(*fact))
    }

    /// Whether each of these few facts is known.
    pub fn has_few(&self, facts: FewFacts) -> bool
        ensures { result ≡ list_all (spec.shows self.now) (facts_in facts) }
    {
        match facts {
            FewFacts::None => true,
            FewFacts::Done(field) => self.has(Fact::Done(field)),
            FewFacts::Length(side, field) => self.has(Fact::LengthOf(side, field)),
            FewFacts::Bits(side, field) => self.has(Fact::BitsOf(side, field)),
            FewFacts::Whole(side, field) => {
                self.has(Fact::LengthOf(side, field)) && self.has(Fact::BitsOf(side, field))
            }
            FewFacts::Taken(side, field) => {
                self.has(Fact::BitsOf(side, field)) && self.has(Fact::Done(field))
            }
            FewFacts::All(_) => self.has_written(facts),
        }
    }

    /// Whether none of these few facts is known.
    pub fn lacks_few(&self, facts: FewFacts) -> bool
        ensures { result ≡ list_all (λ x. not (spec.shows self.now x)) (facts_in facts) }
    {
        match facts {
            FewFacts::None => true,
            FewFacts::Done(field) => !self.has(Fact::Done(field)),
            _ => self.lacks_written(facts),
        }
    }

    /// Whether each of these few facts is known, by the list of them.
    fn has_written(&self, facts: FewFacts) -> bool
        ensures { result ≡ list_all (spec.shows self.now) (facts_in facts) }
    {
        self.has_all(facts.written().as_slice())
    }

    /// Whether none of them is known, by the list of them.
    fn lacks_written(&self, facts: FewFacts) -> bool
        ensures { result ≡ list_all (λ x. not (spec.shows self.now x)) (facts_in facts) }
    {
        self.has_none(facts.written().as_slice())
    }

    /// Whether none of the facts is known.
    pub fn has_none(&self, facts: &[Fact]) -> bool
        ensures { result ≡ list_all (λ x. not (spec.shows self.now x)) facts.now }
    {
        facts.iter().all(|fact| !self.has(*fact))
    }

    /// Notes a fact. One of a field that isn't there changes nothing.
    pub fn learn(&mut self, fact: Fact)
        ensures known { (x : Fact) → spec.shows self.new x ≡ ((same_fact fact x && nat_lt (spec.field_of x) (spec.width self.old)) || spec.shows self.old x) }
        ensures width { spec.width self.new ≡ spec.width self.old }
    {
        let index = field_of(fact);
        if let Some(field) = self.fields.get(index) {
            let field = field.with(fact);
            self.fields.set(index, field);
        }
    }

    /// Notes facts, likewise.
    pub fn learn_all(&mut self, facts: &[Fact])
        ensures known { (x : Fact) → spec.shows self.new x ≡ ((has facts.now x && nat_lt (spec.field_of x) (spec.width self.old)) || spec.shows self.old x) }
        ensures width { spec.width self.new ≡ spec.width self.old }
    {
        for fact in facts {
            self.learn(*fact);
        }
    }
}
