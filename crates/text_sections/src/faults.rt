//! Faults that are put together.

ghost use Rattle.std.specs.Prelude.{◌≡◌};
ghost use Rattle.text_sections.specs.Causes as spec;

use crate::mention::Mention;
use sem_profile::{ProfileFault, ProfileFaultKind};
use text_source::Span;

/// The span that starts later.
pub(crate) fn later(one_span: Span, other: Span) -> Span
    ensures { result ≡ spec.later one_span other }
{
    if one_span.from < other.from {
        other
    } else {
        one_span
    }
}

/// What a second statement on a name is.
pub(crate) fn second_kind(first: Mention, second: Mention) -> ProfileFaultKind
    ensures { result ≡ spec.second_kind first second }
{
    if first.section == second.section && first.is_encoded && second.is_encoded {
        ProfileFaultKind::SecondEncoding
    } else {
        ProfileFaultKind::DefinedTwice
    }
}

/// The fault of a second statement on a name.
pub(crate) fn second_statement(first: Mention, second: Mention) -> ProfileFault
    ensures { result ≡ spec.second_statement first second }
{
    ProfileFault::about(second_kind(first, second), second.name)
}
