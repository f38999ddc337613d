//! The rules of the steps that take and call, in writing.

ghost use Rattle.std.specs.Prelude.{◌≡◌, slice_get, option_map};
ghost use Rattle.sem_filling.specs.Fillings as fillings;
ghost use Rattle.cert_rules.specs.Rules as spec;
ghost use Rattle.cert_plans.specs.Needing.{told};

use crate::few::FewFacts;
use crate::forms::rule_once;
use crate::needs::{Need, NeedRule};
use cert_rules::fields::{is_call, is_header};
use sem_expr::Side;
use sem_profile::{Encoding, Field, Format, MethodSizes};

/// The rule by which a header field that isn't called is taken from the header.
pub(crate) fn write_take<'a>(
    format: &'a Format,
    index: usize,
    field: &'a Field,
) -> Option<NeedRule<'a>>
    ensures { option_map (told format.now) result ≡ spec.write_take format.now index field.now }
{
    if !is_header(field) || is_call(field.encoding.get()) {
        return None;
    }
    let needs = [
        Need::Length(Side::Uncompressed, index),
        Need::HeadersBefore(index),
        Need::Nothing,
    ];
    let gives = FewFacts::Taken(Side::Uncompressed, index);
    Some(rule_once(index, needs, gives))
}

/// The rule by which a called field is written: by its arguments, and by its place in the header or its own bits.
pub(crate) fn write_call<'a>(
    table: &[MethodSizes],
    format: &'a Format,
    index: usize,
    field: &'a Field,
) -> Option<NeedRule<'a>>
    ensures { option_map (told format.now) result ≡ spec.write_call table.now format.now index (fillings.is_header field.now.declared.part) field.now.encoding }
{
    let Encoding::Call { method, arguments } = field.encoding.get() else {
        return None;
    };
    let needs = if is_header(field) {
        [
            Need::Arguments(arguments),
            Need::HeadersBefore(index),
            Need::Nothing,
        ]
    } else if is_headless(table, *method) {
        [Need::Arguments(arguments), Need::Nothing, Need::Nothing]
    } else {
        [
            Need::Arguments(arguments),
            Need::Bits(Side::Uncompressed, index),
            Need::Nothing,
        ]
    };
    let gives = FewFacts::All(index);
    Some(rule_once(index, needs, gives))
}

/// Whether the method has no header in any format.
fn is_headless(table: &[MethodSizes], method: usize) -> bool
    ensures { result ≡ spec.is_headless (slice_get table.now method) }
{
    match table.get(method) {
        Some(sizes) => sizes.whole.uncompressed.most == 0,
        None => false,
    }
}
