//! What a receiver may hold.

ghost use Rattle.std.specs.Prelude.{◌≡◌, length, vec_len, vec_capacity, ◌+◌, ◌≤◌, ◌++◌};
ghost use Rattle.walk_robust.specs.Sending as spec;

use sem_context::Context;
use std::marker::Model;

/// A context that a receiver may hold, to which so many packets right before were lost.
#[derive(Drop)]
pub(crate) struct Held {
    pub(crate) gap: usize,
    pub(crate) context: Context,
}

impl Model for Held {
    ghost use Rattle.sem_elsewhere.specs.Held.{Holding};

    ghost Value = { Holding };

    ghost view = { λ h. record { gap = h.gap; context = h.context } };
}

/// How many of these stay held after one packet more, which may be lost where fewer than so many were.
pub(crate) fn staying(held: &[Held], lost: usize) -> usize
    ensures value { result ≡ length (spec.stayed lost held.now) }
    ensures few { result ≤ length held.now }
{
    let mut count: usize = 0;
    for i in 0..held.len() {
        let one = &held[i];
        if one.gap < lost {
            count += 1;
        }
    }
    count
}

/// Adds those that stay held after one packet more, for which there is room.
pub(crate) fn keep_staying(after: &mut Vec<Held>, held: Vec<Held>, lost: usize)
    requires { vec_len after.old + length (spec.stayed lost held.items) ≤ vec_capacity after.old }
    ensures { after.new.items ≡ after.old.items ++ spec.stayed lost held.items }
{
    for one in held {
        let Held { gap, context } = one;
        if gap < lost {
            let gap = gap + 1;
            after.push_reserved(Held { gap, context });
        }
    }
}
