//! The rules of the steps that take and call, in reading.

ghost use Rattle.std.specs.Prelude.{◌≡◌, option_map};
ghost use Rattle.cert_rules.specs.Rules as spec;
ghost use Rattle.cert_plans.specs.Needing.{told};

use crate::few::FewFacts;
use crate::forms::rule_once;
use crate::needs::{Need, NeedRule};
use cert_rules::fields::is_call;
use sem_expr::Side;
use sem_profile::{Encoding, Field, Format, is_listed};

/// The rule by which a listed field that isn't called is taken from the packed bits.
pub(crate) fn read_take<'a>(
    format: &'a Format,
    index: usize,
    field: &'a Field,
) -> Option<NeedRule<'a>>
    ensures { option_map (told format.now) result ≡ spec.read_take format.now index field.now }
{
    if is_call(field.encoding.get()) || !is_listed(format, index) {
        return None;
    }
    let needs = [
        Need::Length(Side::Compressed, index),
        Need::ListedBefore(index),
        Need::Nothing,
    ];
    let gives = FewFacts::Taken(Side::Compressed, index);
    Some(rule_once(index, needs, gives))
}

/// The rule by which a called field is read: by its arguments, and where it is listed in its place.
pub(crate) fn read_call<'a>(
    format: &'a Format,
    index: usize,
    encoding: &'a Encoding,
) -> Option<NeedRule<'a>>
    ensures { option_map (told format.now) result ≡ spec.read_call format.now index encoding.now }
{
    let Encoding::Call { arguments, .. } = encoding else {
        return None;
    };
    let needs = if is_listed(format, index) {
        [
            Need::Arguments(arguments),
            Need::ListedBefore(index),
            Need::Nothing,
        ]
    } else {
        [Need::Arguments(arguments), Need::Nothing, Need::Nothing]
    };
    let gives = FewFacts::All(index);
    Some(rule_once(index, needs, gives))
}
