//! Which steps have no rule, at a glance.

ghost use Rattle.std.specs.Prelude.{◌≡◌, false, not, List, Some, slice_get};
ghost use Rattle.cert_types.specs.Steps.{field_of};
ghost use Rattle.cert_types.specs.declared.certificate.Direction.{Direction};
ghost use Rattle.cert_types.specs.declared.certificate.Version.{Version};
ghost use Rattle.sem_profile.specs.declared.profile.FormatSizes.{FormatSizes};
ghost use Rattle.sem_profile.specs.declared.profile.MethodSizes.{MethodSizes};
ghost use Rattle.cert_rules.specs.Facts as facts;
ghost use Rattle.cert_prove.specs.Glance as spec;

use cert_rules::fields::is_call;
use cert_types::Step;
use sem_expr::Side;
use sem_profile::{Constraint, Encoding, Field, Format};

/// Whether the step may have a rule. Where it may not, it has none in any version and direction.
pub(crate) fn may_have_rule(format: &Format, step: Step) -> bool
    ensures { (version : Version) (direction : Direction) (table : List MethodSizes) (sizes : FormatSizes) → result ≡ false → spec.HasNone version direction table sizes format.now step }
{
    let Some(field) = format.fields.get(step.field()) else {
        return true;
    };
    may_on_field(format, field, step)
}

/// The same of a step on this field.
fn may_on_field(format: &Format, field: &Field, step: Step) -> bool
    requires { slice_get format.now.fields (field_of step) ≡ Some field.now }
    ensures { (version : Version) (direction : Direction) (table : List MethodSizes) (sizes : FormatSizes) → result ≡ false → spec.HasNone version direction table sizes format.now step }
{
    may_be_on(format, field, step)
}

/// Whether the field or the constraint lets the step have a rule.
fn may_be_on(format: &Format, field: &Field, step: Step) -> bool
    ensures { result ≡ spec.may_be_on format.now field.now step }
{
    match step {
        Step::Take(_) => !is_call(field.encoding.get()),
        Step::Call(_) => is_call(field.encoding.get()),
        Step::LibraryUp(_) | Step::LibraryDown(_) | Step::MethodLength(_, _) => {
            is_library(field.encoding.get())
        }
        Step::Ask(_) => field.declared.asked,
        Step::Solve(_, number) => may_solve(format, number),
        Step::ConstraintLength(_, side, number) => may_tell(format, side, number),
        Step::Choose(_) => true,
    }
}

/// Whether the field has a library method.
fn is_library(encoding: &Encoding) -> bool
    ensures { result ≡ spec.is_library encoding.now }
{
    match encoding {
        Encoding::Library(_) => true,
        Encoding::Bare | Encoding::Call { .. } => false,
    }
}

/// Whether the constraint of that number may give a value: a bracket does not.
fn may_solve(format: &Format, number: usize) -> bool
    ensures { result ≡ spec.may_solve (slice_get format.now.constraints number) }
{
    match format.constraints.get(number) {
        Some(constraint) => is_enforced(constraint.get()),
        None => false,
    }
}

fn is_enforced(constraint: &Constraint) -> bool
    ensures { result ≡ spec.is_enforced constraint.now }
{
    match constraint {
        Constraint::Enforce { .. } => true,
        Constraint::Bracket { .. } => false,
    }
}

/// Whether the constraint of that number may give the length of that side: a bracket on the other side does not.
fn may_tell(format: &Format, side: Side, number: usize) -> bool
    ensures { result ≡ spec.may_tell side (slice_get format.now.constraints number) }
{
    match format.constraints.get(number) {
        Some(constraint) => is_on(side, constraint.get()),
        None => false,
    }
}

fn is_on(side: Side, constraint: &Constraint) -> bool
    ensures { result ≡ spec.is_on side constraint.now }
{
    match constraint {
        Constraint::Enforce { .. } => true,
        Constraint::Bracket { side: which, .. } => is_same_side(*which, side),
    }
}

fn is_same_side(which: Side, side: Side) -> bool
    ensures { result ≡ facts.same_side which side }
{
    match which {
        Side::Uncompressed => matches!(side, Side::Uncompressed),
        Side::Compressed => matches!(side, Side::Compressed),
    }
}
