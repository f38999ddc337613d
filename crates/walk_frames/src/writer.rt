//! The octets of frames.

ghost use Rattle.std.specs.Prelude.{◌≡◌, ◌<◌, ◌≤◌, ◌+◌, ◌/◌, ◌^◌, List, ℕ, ◌++◌, ◌∷◌, [], length, vec_len, vec_capacity};
ghost use Rattle.sem_bits.specs.Octets.{Holds};
ghost use Rattle.walk_frames.specs.Frames.{frame_octets, length_octets, packet};

use sem_bits::Bits;

/// How many octets a frame is at most, where its packet has no more than 8,192 bits.
pub(crate) const FRAME_MOST: usize = 1_027;

/// Adds the frame of a flow's packet with these bits, where there is room for it.
pub(crate) fn push_packet(flow: u8, bits: &Bits, out: &mut Vec<u8>)
    requires room { vec_len out.old + 1027 ≤ vec_capacity out.old }
    requires few { length bits.now ≤ 8192 }
    ensures { (body : List ℕ) × Holds body bits.now × (length body < 2 ^ 15) × (out.new.items ≡ out.old.items ++ frame_octets (packet flow body)) }
{
    out.push_reserved(flow);
    push_length((bits.len() + 7) / 8, out);
    push_bits(bits, out);
}

/// Adds the octets of a length, where there is room for two.
fn push_length(count: usize, out: &mut Vec<u8>)
    requires room { vec_len out.old + 2 ≤ vec_capacity out.old }
    requires few { count < 2 ^ 15 }
    ensures items { out.new.items ≡ out.old.items ++ length_octets count }
    ensures len { vec_len out.new ≤ vec_len out.old + 2 }
    ensures capacity { vec_capacity out.new ≡ vec_capacity out.old }
{
    if count < 128 {
        out.push_reserved(count as u8);
    } else {
        out.push_reserved((128 + count / 256) as u8);
        out.push_reserved((count % 256) as u8);
    }
}

/// Adds the octets that hold bits, the last filled with zero bits, where there is room for them.
fn push_bits(bits: &Bits, out: &mut Vec<u8>)
    requires { vec_len out.old + (length bits.now + 7) / 8 ≤ vec_capacity out.old }
    ensures { (octets : List ℕ) × Holds octets bits.now × (out.new.items ≡ out.old.items ++ octets) }
{
    for place in 0..(bits.len() + 7) / 8 {
        let Some(octet) = bits.octet(place) else {
            unreachable!();
        };
        out.push_reserved(octet);
    }
}
