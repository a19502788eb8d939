//! The hash of letters, and of what the tables of a graph find: one word of each.
ghost use Rattle.std.specs.Prelude.{◌≡◌};
ghost use Rattle.ccan_language.specs.Hashed.{edge_word, joined, letter_word, longer_word, node_word, pair_word};

use crate::hashing::mixed;
use crate::letter::Letter;
use crate::memo::{Longer, Pair};
use crate::node::{Edge, Node};
use std::hash::{Hash, Hasher};

/// Two numbers as one word.
#[inline(always)]
fn joined(high: u32, low: u32) -> u64
    ensures { result ≡ joined high low }
{
    high as u64 * 0x1_0000_0000 + low as u64
}

/// The word of a letter.
#[inline(always)]
fn letter_word(letter: Letter) -> u64
    ensures { result ≡ letter_word letter }
{
    joined(letter.place, letter.answer)
}

/// The word of an edge.
#[inline(always)]
fn edge_word(edge: &Edge) -> u64
    ensures { result ≡ edge_word edge.now }
{
    let letter = mixed(2, letter_word(edge.letter));
    mixed(letter, joined(edge.to, edge.others))
}

/// The word of a node.
#[inline(always)]
fn node_word(node: &Node) -> u64
    ensures { result ≡ node_word node.now }
{
    match node {
        Node::Nothing => 0,
        Node::End => 1,
        Node::Fork(edge) => edge_word(edge),
    }
}

/// The word of a call of `union`.
#[inline(always)]
pub(crate) fn pair_word(pair: &Pair) -> u64
    ensures { result ≡ pair_word pair.now }
{
    mixed(0, joined(pair.first, pair.second))
}

/// The word of a call of `with`.
#[inline(always)]
pub(crate) fn longer_word(longer: &Longer) -> u64
    ensures { result ≡ longer_word longer.now }
{
    mixed(mixed(0, longer.index as u64), letter_word(longer.letter))
}

impl Hash for Letter {
    ghost use Rattle.ccan_language.specs.Hashed.{letter_hashed, letters_hashed_alike};

    ghost hash_input = { letter_hashed };

    ghost respects_eq = { letters_hashed_alike };

    #[inline(always)]
    fn hash<H: Hasher>(&self, state: &mut H) {
        letter_word(*self).hash(state);
    }
}

impl Hash for Node {
    ghost use Rattle.ccan_language.specs.Hashed.{node_hashed, nodes_hashed_alike};

    ghost hash_input = { node_hashed };

    ghost respects_eq = { nodes_hashed_alike };

    #[inline(always)]
    fn hash<H: Hasher>(&self, state: &mut H) {
        node_word(self).hash(state);
    }
}
