//! One level of a walk.

ghost use Rattle.std.specs.Prelude.{◌≡◌, ◌+◌, ◌<◌, ◌↔◌, ℕ, Some, Bool, List, true, false, IsTrue, IfOk, IfSome, IfNone, length, map, slice_get, slice_set, option_map};
ghost use Rattle.std.specs.Option.{option_copied};
ghost use Rattle.sem_expr.specs.Values.{val};
ghost use Rattle.sem_expr.specs.Known.{assignment_of};
ghost use Rattle.sem_expr.specs.declared.expr.Subject.TheVariants as subject;
ghost use Rattle.sem_expr.specs.declared.expr.Measure.TheVariants as measure;
ghost use Rattle.sem_filling.specs.Bounded.{LiesBetween};
ghost use Rattle.sem_expr.specs.declared.expr.Expr.{Expr};
ghost use Rattle.sem_filling.specs.Fits.{vals};
ghost use Rattle.cert_rules.specs.Facts.{inputs, inputs_of_all, before};
ghost use Rattle.cert_rules.specs.Numbers as numbers;
ghost use Rattle.cert_rules.specs.Reading.{IsMade, start_slots, known_numbers, known_sides};
ghost use Rattle.cert_rules.specs.Slots.{HasSide, learnt_at, knows_all};
ghost use Rattle.walk_steps.specs.Joined as joined;
ghost use Rattle.walk_steps.specs.Fronts.{IsMeasured};
ghost use Rattle.walk_steps.specs.Partial as spec;
ghost use Rattle.walk_steps.specs.Sides as sides;
ghost use Rattle.walk_steps.specs.LevelNumbers.{IsClear, known_in};

use crate::filling::filling_of;
use crate::fronts::{Front, Fronts, go_on, offset_by};
use crate::side_lists::joined_whole;
use crate::slots::{Places, are_unsent, at_start, bits_at, headers_of, learn_at, length_at};
use crate::values::{LevelNumbers, values_in};
use cert_rules::{Learnt, Slot};
use sem_bits::Bits;
use sem_expr::{Expr, Side, value};
use sem_filling::Filling;
use sem_profile::{Bounds, Format, FormatSizes};
use sqlite_items::Items;
use std::alloc::{AllocError, Global};
use std::marker::Model;

/// What a walk knows of one level of a filling: its format with the bounds, the values of the method's parameters, and of each field what
/// was learnt. All that is known lies in the bounds.
#[derive(Drop)]
pub struct Partial<'a> {
    format: &'a Format,
    sizes: &'a FormatSizes,
    headers: Places,
    slots: Vec<Slot>,
    parameters: Items<i128>,
    fronts: Fronts,
}

impl<'a> Model for Partial<'a> {
    ghost use Rattle.sem_expr.specs.contracts.expr.Expr as expr;
    ghost use Rattle.sem_expr.specs.contracts.expr.Cond as cond;
    ghost use Rattle.sem_filling.specs.contracts.filling.Filling as filling;
    ghost use Rattle.walk_steps.specs.Fronts.{IsInOrder};
    ghost use Rattle.walk_steps.specs.Partial.{Reached};
    ghost use Rattle.std.specs.Coded.{codes};

    ghost Value = { Reached };

    ghost coded = { Prim.hlevel (codes, expr.the_row.coded, cond.the_row.coded, filling.the_row.coded) };

    ghost view = { λ l. record { format = l.format.now; sizes = l.sizes.now; args = l.parameters; slots = l.slots.items } };

    ghost invariant = { λ l. IsInOrder l.format.now l.sizes.now l.headers.items l.slots.items l.parameters l.fronts };
}

impl<'a> Partial<'a> {
    /// The level of a format of which nothing is known, but that a field which is not listed has no packed bits. None where such a field must
    /// have some by its bounds. The error is out of memory.
    pub fn start(
        alloc: Global,
        format: &'a Format,
        sizes: &'a FormatSizes,
        arguments: &[i128],
    ) -> Result<Option<Partial<'a>>, AllocError>
        requires { spec.IsPlaced format.now sizes.now arguments.now }
        ensures found { IfOk result (λ o. IfSome o (λ l. l ≡ record { format = format.now; sizes = sizes.now; args = arguments.now; slots = start_slots format.now.listing 0 format.now.fields })) }
        ensures none { IfOk result (λ o. IfNone o (spec.AreUnsent format.now sizes.now → ⊥)) }
    {
        if !are_unsent(format, sizes) {
            return Ok(None);
        }
        let headers = headers_of(alloc, format.fields.as_slice())?;
        let slots = at_start(alloc, format)?;
        let parameters = Items::from_slice(alloc, arguments)?;
        Ok(Some(Partial {
            format,
            sizes,
            headers,
            slots,
            parameters,
            fronts: Fronts {
                uncompressed: Front::at_first(),
                compressed: Front::at_first(),
            },
        }))
    }

    /// A law of levels: what each one keeps.
    pub fn keeps(&self)
        ensures { spec.IsKept self.now }
    {
        let _ = &self.format;
    }

    /// The format.
    pub fn format(&self) -> &'a Format
        ensures { result.now ≡ self.now.format }
    {
        self.format
    }

    /// The bounds of the format.
    pub fn sizes(&self) -> &'a FormatSizes
        ensures { result.now ≡ self.now.sizes }
    {
        self.sizes
    }

    /// How many bits the side of the field has, where that is known.
    pub fn length(&self, field: usize, side: Side) -> Option<usize>
        ensures { result ≡ sides.length_of (learnt_at self.now.slots field side) }
    {
        length_at(self.slots.as_slice(), field, side)
    }

    /// The bits of the side of the field, where they are known.
    pub fn bits(&self, field: usize, side: Side) -> Option<&Bits>
        ensures { option_copied result ≡ sides.whole_of (learnt_at self.now.slots field side) }
    {
        bits_at(self.slots.as_slice(), field, side)
    }

    /// Learns what was found of a side of the field, a length or its bits: tests it against the bounds of the field, then compares it with
    /// what is known. Whether it can be so; if not, nothing changes.
    pub fn learn(&mut self, field: usize, side: Side, found: Learnt) -> bool
        requires within { field < length self.old.slots }
        ensures learnt { IsTrue result → spec.Learns self.old field side found self.new }
        // No bits within the bounds are as was known and as was found.
        ensures refused { result ≡ false → (bits : List Bool) → HasSide bits (learnt_at self.old.slots field side) → HasSide bits found → LiesBetween (spec.bounds_at self.old.sizes field side) (length bits) → ⊥ }
        ensures stays { result ≡ false → self.new ≡ self.old }
    {
        let bounds = bounds_at(self.sizes, field, side);
        let is_learnt = learn_at(&mut self.slots, field, side, bounds, found);
        if is_learnt {
            self.fronts = go_on(
                self.fronts,
                side,
                self.slots.as_slice(),
                self.headers.as_slice(),
                self.format.listing.get().as_slice(),
            );
        }
        is_learnt
    }

    /// The value of an expression of the format, where it has one by what is known.
    pub fn value(&self, expr: &Expr) -> Option<i128>
        requires asked { spec.IsAsked self.now.format expr.now }
        ensures value { result ≡ val (assignment_of (numbers.known_of self.now.format self.now.slots self.now.args)) expr.now }
        // Where all that it asks for is known, it is that of any level that shows what is known.
        ensures shown { knows_all self.now.format self.now.slots (inputs self.now.format expr.now) ≡ true → result ≡ val (known_numbers self.now.format self.now.slots self.now.args) expr.now }
    {
        self.keeps();
        value(expr, &self.sight())
    }

    /// The values of several expressions of the format, where each has one by what is known. The error is out of memory.
    pub fn values(&self, alloc: Global, exprs: &[Expr]) -> Result<Option<Items<i128>>, AllocError>
        requires asked { (n : ℕ) (e : Expr) → slice_get exprs.now n ≡ Some e → spec.IsAsked self.now.format e }
        // Where all that they ask for is known, they are those of any level that shows what is known.
        ensures shown { IfOk result (λ o. knows_all self.now.format self.now.slots (inputs_of_all self.now.format exprs.now) ≡ true → o ≡ vals (known_numbers self.now.format self.now.slots self.now.args) exprs.now) }
    {
        self.keeps();
        values_in(alloc, exprs, &self.sight())
    }

    /// Keeps the filling inside the field.
    pub fn hold(&mut self, field: usize, inner: Filling)
        requires within { field < length self.old.slots }
        ensures { spec.Keeps self.old field inner self.new }
    {
        self.slots[field].inner = Some(inner);
    }

    /// The filling of the format, by its index, that is made of what is known. None where a side of a field isn't known. The error is out of memory.
    pub fn into_filling(self, alloc: Global, index: usize) -> Result<Option<Filling>, AllocError>
        ensures made { IfOk result (λ o. IfSome o (IsMade index self.entry.format self.entry.slots)) }
        ensures none { IfOk result (λ o. IfNone o (spec.Lacks self.entry.slots)) }
    {
        filling_of(alloc, index, self.format, self.slots)
    }

    /// A side of the whole, where the bits of all its parts are known. The error is out of memory.
    pub fn whole(&self, alloc: Global, side: Side) -> Result<Option<Bits>, AllocError>
        ensures { IfOk result (λ o. o ≡ joined.joined_whole self.now.slots side (spec.parts_of self.now.format side)) }
    {
        joined_whole(alloc, self.slots.as_slice(), side, self.parts(side))
    }

    /// How many bits stand before the side of the field in that of the whole, where the length of each part before it is known.
    pub fn offset(&self, field: usize, side: Side) -> Option<usize>
        ensures { result ≡ joined.joined_length self.now.slots side (before field (spec.parts_of self.now.format side)) }
    {
        offset_by(
            self.front(side),
            self.slots.as_slice(),
            side,
            self.parts(side),
            field,
        )
    }

    /// What the level's expressions are evaluated by.
    fn sight(&self) -> LevelNumbers<'_>
        ensures clear { IsClear result }
        ensures known { known_in result ≡ numbers.known_of self.now.format self.now.slots self.now.args }
    {
        LevelNumbers {
            slots: self.slots.as_slice(),
            headers: self.headers.as_slice(),
            listing: self.format.listing.get().as_slice(),
            fronts: self.fronts,
            parameters: self.parameters.as_slice(),
        }
    }

    /// How far the parts of the side of the whole are measured.
    fn front(&self, side: Side) -> Front
        ensures { IsMeasured self.now.slots side (spec.parts_of self.now.format side) result }
    {
        match side {
            Side::Uncompressed => self.fronts.uncompressed,
            Side::Compressed => self.fronts.compressed,
        }
    }

    /// The fields whose sides are joined to that of the whole.
    fn parts(&self, side: Side) -> &[usize]
        ensures { result.now ≡ spec.parts_of self.now.format side }
    {
        match side {
            Side::Uncompressed => self.headers.as_slice(),
            Side::Compressed => self.format.listing.get().as_slice(),
        }
    }
}

/// The bounds on the length of a side of the field; none are 0 to 0.
fn bounds_at(sizes: &FormatSizes, field: usize, side: Side) -> Bounds
    ensures { result ≡ spec.bounds_at sizes.now field side }
{
    let Some(sizes) = sizes.fields.get(field) else {
        return Bounds { least: 0, most: 0 };
    };
    match side {
        Side::Uncompressed => sizes.uncompressed,
        Side::Compressed => sizes.compressed,
    }
}
