//! The bits at which a table looks, and where they lead.

ghost use Rattle.std.specs.Prelude.{◌≡◌, ◌+◌, ◌^◌, ◌<◌, ◌≤◌, drop, length, slice_get};
ghost use Rattle.sem_bits.specs.Number.{enc};
ghost use Rattle.cert_types.specs.declared.certificate.Node.TheVariants.{Bit};
ghost use Rattle.cert_tables.specs.Tables as spec;
ghost use Rattle.cert_tables.specs.Kept.{AreSizesFrom};

use crate::sizes::second;
use cert_types::Node;

/// The bits at which a table looks: the place of its node, the offset of the first bit, and how many they are.
#[derive(Clone, Copy)]
pub(crate) struct Window {
    pub(crate) place: usize,
    pub(crate) offset: usize,
    pub(crate) width: usize,
}

/// No table looks at more bits.
const WIDEST: usize = 8;

/// How many bits the table of the test at a place looks at, whose offset this is: all those within eight at which the tests after it look.
pub(crate) fn width_after(nodes: &[Node], sizes: &[u16], place: usize, offset: usize) -> usize
    requires within { place < length nodes.now }
    requires sized { AreSizesFrom 0 nodes.now sizes.now }
    ensures { result ≡ spec.width offset (drop (place + 1) nodes.now) }
{
    let mut width = 1;
    let mut at = place + 1;
    let mut trees: usize = 2;
    while trees > 0 && at < nodes.len() {
        match near(nodes[at], offset) {
            Some(ahead) => {
                width = width.max(ahead + 1);
                trees += 1;
                at += 1;
            }
            None => {
                trees -= 1;
                at = second(nodes, at, sizes);
            }
        }
    }
    width
}

/// How far the bit at which the node looks is from the offset, if it is one of the eight from there on.
fn near(node: Node, offset: usize) -> Option<usize>
    ensures { result ≡ spec.near offset node }
{
    match node {
        Node::Bit(tested) => ahead_of(tested, offset),
        Node::Parameter(..) => None,
        Node::Reference(..) => None,
        Node::Leaf(_) => None,
        Node::Nowhere => None,
    }
}

fn ahead_of(tested: usize, offset: usize) -> Option<usize>
    ensures { result ≡ spec.near offset (Bit tested) }
{
    if tested >= offset && tested - offset < WIDEST {
        Some(tested - offset)
    } else {
        None
    }
}

/// Where the window's bits, which spell the number, lead from its node, through tests of these bits alone.
pub(crate) fn entry_at(nodes: &[Node], sizes: &[u16], window: Window, number: usize) -> usize
    requires within { window.place ≤ length nodes.now }
    requires sized { AreSizesFrom 0 nodes.now sizes.now }
    requires narrow { window.width ≤ 8 }
    ensures value { result ≡ spec.entry window.width window.offset window.place (drop window.place nodes.now) number }
    ensures within { result ≤ length nodes.now }
{
    let mut at = window.place;
    while at < nodes.len() {
        match nodes[at] {
            Node::Bit(tested) => match seen(window.width, number, window.offset, tested) {
                Some(is_one) => {
                    at += 1;
                    if is_one {
                        at = second(nodes, at, sizes);
                    }
                }
                None => return at,
            },
            Node::Parameter(..) => return at,
            Node::Reference(..) => return at,
            Node::Leaf(_) => return at,
            Node::Nowhere => return at,
        }
    }
    at
}

/// The bit of the window at which a test looks, if it does.
fn seen(width: usize, number: usize, offset: usize, tested: usize) -> Option<bool>
    requires { width ≤ 8 }
    ensures { result ≡ spec.seen (enc width number) offset tested }
{
    if tested < offset {
        return None;
    }
    bit_of(width, number, tested - offset)
}

/// The bit at a place of so many that spell the number.
fn bit_of(width: usize, number: usize, place: usize) -> Option<bool>
    requires { width ≤ 8 }
    ensures { result ≡ slice_get (enc width number) place }
{
    if place < width {
        Some((number >> (width - 1 - place)) % 2 == 1)
    } else {
        None
    }
}

/// How many numbers so many bits spell.
pub(crate) fn numbers_of(width: usize) -> usize
    requires { width ≤ 8 }
    ensures { result ≡ 2 ^ width }
{
    1 << width
}
