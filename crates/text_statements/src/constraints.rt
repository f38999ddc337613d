//! The constraints that statements give.

ghost use Rattle.std.specs.Prelude.{◌≡◌, ◌++◌, IfOk, IfErr, OnOk, None};
ghost use Rattle.text_statements.specs.Judged.{Refuses};
ghost use Rattle.text_statements.specs.Constraints as spec;

use crate::{Scope, conjuncts, numbers};
use sem_expr::{Expr, Side};
use sem_profile::{Constraint, ResolveError, Shared};
use sqlite_items::Items;
use std::alloc::{AllocError, Global};
use text_source::Span;
use text_tree::{Bracket, Item};

/// What a statement says: no constraint, one, or those of an ENFORCE.
#[derive(Drop)]
pub enum Said {
    Nothing,
    One(Shared<Constraint>),
    Several(Items<Shared<Constraint>>),
}

impl Said {
    /// The constraints in their order.
    pub fn listed(self, alloc: Global) -> Result<Items<Shared<Constraint>>, AllocError>
        ensures { IfOk result (λ found. found ≡ spec.listed self) }
    {
        let mut found = Items::new(alloc);
        self.add_to(&mut found)?;
        Ok(found)
    }

    /// Moves the constraints to the end.
    pub fn add_to(self, found: &mut Items<Shared<Constraint>>) -> Result<(), AllocError>
        ensures { OnOk result (found.new ≡ found.old ++ spec.listed self) }
    {
        match self {
            Said::Nothing => Ok(()),
            Said::One(constraint) => found.push(constraint),
            Said::Several(more) => found.append(more),
        }
    }
}

/// The constraints of a statement: its bracket on this side of its field, or the conjuncts of an ENFORCE.
/// The fault is the first one in its expressions.
pub fn item_constraints(
    alloc: Global,
    scope: &Scope<'_, '_>,
    side: Side,
    item: &Item,
) -> Result<Said, ResolveError>
    ensures means { IfOk result (λ said. spec.ItemMeans scope.now side item.now (spec.listed said)) }
    ensures right { IfOk result (λ _. spec.item_fault scope.now item.now ≡ None) }
    ensures refused { IfErr result (Refuses (spec.item_fault scope.now item.now)) }
{
    match item {
        Item::Field(name, bracket) => { optional_bracket(alloc, scope, side, *name, bracket) }
        Item::Bound(bound) => { optional_bracket(alloc, scope, side, bound.name, &bound.bracket) }
        Item::Enforce(_, condition) => Ok(Said::Several(conjuncts(alloc, scope, condition)?)),
    }
}

fn optional_bracket(
    alloc: Global,
    scope: &Scope<'_, '_>,
    side: Side,
    name: Span,
    bracket: &Option<Bracket>,
) -> Result<Said, ResolveError>
    ensures means { IfOk result (λ said. spec.OptionalMeans scope.now side name bracket.now (spec.listed said)) }
    ensures right { IfOk result (λ _. spec.optional_fault scope.now bracket.now ≡ None) }
    ensures refused { IfErr result (Refuses (spec.optional_fault scope.now bracket.now)) }
{
    match bracket {
        None => Ok(Said::Nothing),
        Some(bracket) => bracket_constraint(alloc, scope, side, name, bracket),
    }
}

fn bracket_constraint(
    alloc: Global,
    scope: &Scope<'_, '_>,
    side: Side,
    name: Span,
    bracket: &Bracket,
) -> Result<Said, ResolveError>
    ensures means { IfOk result (λ said. spec.BracketMeans scope.now side name bracket.now (spec.listed said)) }
    ensures right { IfOk result (λ _. spec.bracket_fault scope.now bracket.now ≡ None) }
    ensures refused { IfErr result (Refuses (spec.bracket_fault scope.now bracket.now)) }
{
    match bracket {
        Bracket::Variable(_) => Ok(Said::Nothing),
        Bracket::Lengths(place, lengths) => {
            let lengths = numbers(alloc, scope, lengths.as_slice())?;
            lengths_constraint(alloc, scope, side, name, *place, lengths)
        }
    }
}

/// A bracket as a constraint on its field; none where the name is no field.
fn lengths_constraint(
    alloc: Global,
    scope: &Scope<'_, '_>,
    side: Side,
    name: Span,
    place: Span,
    lengths: Items<Expr>,
) -> Result<Said, ResolveError>
    ensures means { IfOk result (λ said. spec.listed said ≡ spec.on_field scope.now side name place lengths) }
    ensures refused { IfErr result (λ e. e ≡ ResolveError.OutOfMemory) }
{
    match scope.field(name) {
        Some(field) => {
            let constraint = Constraint::Bracket {
                field,
                side,
                lengths,
                place,
            };
            Ok(Said::One(Shared::new(alloc, constraint)?))
        }
        None => Ok(Said::Nothing),
    }
}
