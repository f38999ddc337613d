//! Bits and octets that are written to a caller's room.

ghost use Rattle.std.specs.Prelude.{◌≡◌, ◌↔◌, ◌+◌, ◌/◌, ◌<◌, ◌≤◌, ◌^◌, ◌++◌, IsTrue, drop, length};
ghost use Rattle.walk_session.specs.Octets.{IsWritten};

use sem_bits::Bits;

/// Whether the octets that so many bits fill fit the room.
pub(crate) fn has_room(bits: usize, room: &[u8]) -> bool
    requires { bits < 2 ^ 31 }
    ensures { IsTrue result ↔ ((bits + 7) / 8 ≤ length room.now) }
{
    (bits + 7) / 8 <= room.len()
}

/// Writes the octets of bits to the start of the room, the last filled with zero bits. What follows them stays.
pub(crate) fn write_bits(bits: &Bits, room: &mut [u8])
    requires { (length bits.now + 7) / 8 ≤ length room.old }
    ensures { IsWritten bits.now room.old room.new }
{
    for place in 0..(bits.len() + 7) / 8 {
        let Some(octet) = bits.octet(place) else {
            unreachable!();
        };
        room[place] = octet;
    }
}

/// Copies octets to the start of the room. What follows them stays.
pub(crate) fn put(octets: &[u8], room: &mut [u8])
    requires { length octets.now ≤ length room.old }
    ensures { room.new ≡ octets.now ++ drop (length octets.now) room.old }
{
    room[..octets.len()].copy_from_slice(octets);
}
