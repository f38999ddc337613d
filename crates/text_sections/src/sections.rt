//! Which sections a method has.

ghost use Rattle.std.specs.Prelude.{◌≡◌};
ghost use Rattle.text_sections.specs.Sections as spec;

use crate::mention::{Group, is_in};
use sem_profile::{ProfileFault, ProfileFaultKind};
use text_tree::{Method, Section};

fn count_in(sections: &[Section], group: Group) -> usize
    ensures { result ≡ spec.count_in group sections.now }
{
    sections
        .iter()
        .filter(|section| is_in(group, section.kind))
        .count()
}

/// Whether there is one UNCOMPRESSED, and one format or several that are named.
pub(crate) fn are_complete(sections: &[Section]) -> bool
    ensures { result ≡ spec.are_complete sections.now }
{
    let formats = count_in(sections, Group::Formats);
    count_in(sections, Group::Header) == 1
        && (formats == 1 || formats > 1 && count_in(sections, Group::Unnamed) == 0)
}

/// A method that lacks one UNCOMPRESSED or named formats.
pub(crate) fn incomplete(method: &Method) -> Option<ProfileFault>
    ensures { result ≡ spec.incomplete method.now }
{
    if are_complete(method.sections.as_slice()) {
        None
    } else {
        Some(ProfileFault::about(ProfileFaultKind::Sections, method.name))
    }
}
