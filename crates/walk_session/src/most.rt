//! The most bits that a header and a packet of a profile may have.

ghost use Rattle.std.specs.Prelude.{◌≡◌, ◌<◌, ◌≤◌, ◌^◌, slice_get};
ghost use Rattle.std.specs.Option.{option_copied};
ghost use Rattle.walk_session.specs.Most.{IsMostHeader, IsMostPacket};

use cert_accepted::Accepted;
use sem_profile::MethodSizes;

/// The most bits of a header, by the bounds of the top.
pub fn most_header(accepted: &Accepted) -> usize
    ensures most { IsMostHeader accepted.now result }
    ensures few { result < 2 ^ 31 }
{
    let profile = accepted.profile();
    profile.keeps();
    match top_sizes(accepted) {
        Some(sizes) => small(sizes.whole.uncompressed.most),
        None => 0,
    }
}

/// The most bits of a packet, by the bounds of the top.
pub fn most_packet(accepted: &Accepted) -> usize
    ensures most { IsMostPacket accepted.now result }
    ensures few { result < 2 ^ 31 }
{
    let profile = accepted.profile();
    profile.keeps();
    match top_sizes(accepted) {
        Some(sizes) => small(sizes.whole.compressed.most),
        None => 0,
    }
}

/// A count within the limits of a profile.
fn small(bits: u128) -> usize
    requires { bits ≤ 2 ^ 18 }
    ensures { result ≡ bits }
{
    bits as usize
}

/// The bounds of the top.
fn top_sizes(accepted: &Accepted) -> Option<&MethodSizes>
    ensures { option_copied result ≡ slice_get accepted.now.profile.sizes accepted.now.profile.top }
{
    accepted.profile().sizes().get(accepted.profile().top())
}
