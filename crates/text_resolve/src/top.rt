//! The method that a profile starts with.

ghost use Rattle.std.specs.Prelude.{◌≡◌, ◌<◌, IfSome, length, position};
ghost use Rattle.std.specs.List.{position_from};
ghost use Rattle.text_resolve.specs.Parts.{methods_of};
ghost use Rattle.text_resolve.specs.Top as spec;

use sem_profile::{ProfileFault, ProfileFaultKind, same, word};
use text_source::Span;
use text_tree::{Method, Part};

fn is_top(text: &[u8], name: &[u8], method: &Method) -> bool
    ensures { result ≡ spec.is_top text.now name.now method.now }
{
    same(name, word(text, method.name)) && method.parameters.len() == 0
}

/// The place among the methods of the first one that has the name and no parameters.
pub(crate) fn top(text: &[u8], parts: &[Part], name: &[u8]) -> Option<usize>
    ensures place { result ≡ position (spec.is_top text.now name.now) (methods_of parts.now) }
    ensures within { IfSome result (λ k. k < length (methods_of parts.now)) }
{
    first_top(text, parts, name)
}

fn first_top(text: &[u8], parts: &[Part], name: &[u8]) -> Option<usize>
    ensures { result ≡ position_from (spec.is_top text.now name.now) 0 (methods_of parts.now) }
{
    let mut place = 0;
    for part in parts {
        if let Part::Method(method) = part {
            if is_top(text, name, method) {
                return Some(place);
            }
            place += 1;
        }
    }
    None
}

/// The fault of a file that has no such method.
pub(crate) fn no_top() -> ProfileFault
    ensures { result ≡ spec.no_top }
{
    ProfileFault::at(ProfileFaultKind::NoTop, Span { from: 0, to: 0 })
}
