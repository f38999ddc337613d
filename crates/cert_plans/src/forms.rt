//! The forms of rules: what most of them have in common.

ghost use Rattle.std.specs.Prelude.{◌≡◌};
ghost use Rattle.cert_plans.specs.Needing as needing;

use crate::few::FewFacts;
use crate::needs::{Need, NeedRule};

/// A rule that nothing hinders but what it needs.
pub(crate) fn rule<'a>(needs: [Need<'a>; 3], gives: FewFacts) -> NeedRule<'a>
    ensures { result ≡ needing.free needs.entry gives }
{
    NeedRule {
        needs,
        absent: FewFacts::None,
        gives,
    }
}

/// A rule that is followed once for a field.
pub(crate) fn rule_once<'a>(field: usize, needs: [Need<'a>; 3], gives: FewFacts) -> NeedRule<'a>
    ensures { result ≡ needing.once field needs.entry gives }
{
    NeedRule {
        needs,
        absent: FewFacts::Done(field),
        gives,
    }
}
