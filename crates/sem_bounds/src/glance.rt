//! Formats whose expressions have no fault, told at a glance. Where that is not seen, they are judged in full.

ghost use Rattle.std.specs.Prelude.{◌≡◌, None, IsTrue};
ghost use Rattle.sem_profile.specs.declared.extent.Extent.TheVariants as extents;
ghost use Rattle.sem_profile.specs.BoundsFaults as faults;
ghost use Rattle.sem_bounds.specs.Glance as spec;
ghost use Rattle.sem_profile.specs.Ranging.{format_ranges};
ghost use Rattle.sem_profile.specs.declared.profile.Format.{Format};
ghost use Rattle.sem_profile.specs.Precedence.{earlier};

use crate::magnitude::{reach, reached};
use sem_expr::{Cond, Expr, Interval};
use sem_profile::extent::Extent;
use sem_profile::{Constraint, Encoding, Format, FormatSizes, Library};

fn is_quiet(sizes: &FormatSizes, parameters: &[Interval], expr: &Expr) -> bool
    ensures { IsTrue result → (format : Format) → spec.judge sizes.now parameters.now format expr.now ≡ None }
{
    reached(sizes, parameters, expr).is_some()
}

fn are_quiet(sizes: &FormatSizes, parameters: &[Interval], first: &Expr, second: &Expr) -> bool
    ensures { IsTrue result
        → (format : Format) → earlier (spec.judge sizes.now parameters.now format first.now) (spec.judge sizes.now parameters.now format second.now) ≡ None }
{
    is_quiet(sizes, parameters, first) && is_quiet(sizes, parameters, second)
}

fn all_quiet(sizes: &FormatSizes, parameters: &[Interval], exprs: &[Expr]) -> bool
    ensures { IsTrue result → (format : Format) → faults.earliest (spec.judge sizes.now parameters.now format) exprs.now ≡ None }
{
    for expr in exprs {
        if !is_quiet(sizes, parameters, expr) {
            return false;
        }
    }
    true
}

fn library_quiet(sizes: &FormatSizes, parameters: &[Interval], library: &Library) -> bool
    ensures { IsTrue result → (format : Format) → faults.library_fault (spec.judge sizes.now parameters.now format) library.now ≡ None }
{
    match library {
        Library::UncompressedValue { length, value } => {
            are_quiet(sizes, parameters, length, value)
        }
        Library::CompressedValue { length, value } => {
            are_quiet(sizes, parameters, length, value)
        }
        Library::Irregular { length } => is_quiet(sizes, parameters, length),
        Library::Static => true,
        Library::Lsb { bits, offset } => are_quiet(sizes, parameters, bits, offset),
        Library::Crc(crc) => {
            are_quiet(sizes, parameters, &crc.get().bits, &crc.get().polynomial)
                && are_quiet(sizes, parameters, &crc.get().initial, &crc.get().length)
        }
    }
}

fn encoding_quiet(sizes: &FormatSizes, parameters: &[Interval], encoding: &Encoding) -> bool
    ensures { IsTrue result → (format : Format) → faults.encoding_fault (spec.judge sizes.now parameters.now format) encoding.now ≡ None }
{
    match encoding {
        Encoding::Bare => true,
        Encoding::Library(library) => library_quiet(sizes, parameters, library),
        Encoding::Call { arguments, .. } => all_quiet(sizes, parameters, arguments.as_slice()),
    }
}

fn condition_quiet(sizes: &FormatSizes, parameters: &[Interval], cond: &Cond) -> bool
    ensures { IsTrue result → spec.IsQuiet sizes.now parameters.now cond.now }
{
    match cond {
        Cond::Constant(_, _) => true,
        Cond::Compare(_, _, left, right) => {
            reach(sizes, parameters, left).is_some() && reach(sizes, parameters, right).is_some()
        }
        Cond::Not(_, inner) => condition_quiet(sizes, parameters, inner),
        Cond::And(_, left, right) | Cond::Or(_, left, right) => {
            condition_quiet(sizes, parameters, left) && condition_quiet(sizes, parameters, right)
        }
    }
}

fn constraint_quiet(sizes: &FormatSizes, parameters: &[Interval], constraint: &Constraint) -> bool
    ensures { IsTrue result
        → (format : Format) → faults.constraint_fault extents.Whole format sizes.now (format_ranges sizes.now parameters.now) constraint.now ≡ None }
{
    match constraint {
        Constraint::Bracket { lengths, .. } => all_quiet(sizes, parameters, lengths.as_slice()),
        Constraint::Enforce { condition, .. } => condition_quiet(
            sizes,
            parameters,
            condition.get(),
        ),
    }
}

fn fields_quiet(sizes: &FormatSizes, parameters: &[Interval], format: &Format) -> bool
    ensures { IsTrue result
        → faults.earliest (λ d. faults.encoding_fault (spec.judge sizes.now parameters.now format.now) d.encoding) format.now.fields ≡ None }
{
    for field in format.fields.as_slice() {
        if !encoding_quiet(sizes, parameters, field.encoding.get()) {
            return false;
        }
    }
    true
}

fn constraints_quiet(sizes: &FormatSizes, parameters: &[Interval], format: &Format) -> bool
    ensures { IsTrue result
        → faults.earliest (faults.constraint_fault extents.Whole format.now sizes.now (format_ranges sizes.now parameters.now)) format.now.constraints ≡ None }
{
    for constraint in format.constraints.as_slice() {
        if !constraint_quiet(sizes, parameters, constraint.get()) {
            return false;
        }
    }
    true
}

fn whole_quiet(sizes: &FormatSizes, parameters: &[Interval], format: &Format) -> bool
    ensures { IsTrue result → faults.format_fault extents.Whole format.now sizes.now (format_ranges sizes.now parameters.now) ≡ None }
{
    fields_quiet(sizes, parameters, format) && constraints_quiet(sizes, parameters, format)
}

/// Whether the expressions of a format are seen to have no fault, under the ranges by its bounds and those of the method's parameters.
/// Where only some parts are judged, nothing is seen.
pub(crate) fn format_quiet(
    extent: Extent,
    sizes: &FormatSizes,
    parameters: &[Interval],
    format: &Format,
) -> bool
    ensures { IsTrue result → faults.format_fault extent format.now sizes.now (format_ranges sizes.now parameters.now) ≡ None }
{
    match extent {
        Extent::Whole => whole_quiet(sizes, parameters, format),
        Extent::Known => false,
    }
}
