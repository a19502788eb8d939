//! The first word that has some signs, by its number. A word has a sign if one of its letters bears it.
ghost use Rattle.std.specs.Prelude.{◌≡◌, ◌<◌, ◌-◌, ◌^◌, false, true, None, IfOk, IfSome, OnOk, filter, length, not, option_map};
ghost use Rattle.ccan_language.specs.Count.{all_words, in_128_bits};
ghost use Rattle.ccan_language.specs.Signs.{AreVain, first_with, signs_left};

use crate::graph::Graph;
use crate::letter::Letter;
use crate::node::Node;
use indexmap::IndexSet;
use std::alloc::{AllocError, Global};

/// Which signs the letters bear. A sign is a number.
pub trait Signs {
    ghost use Rattle.std.specs.Prelude.{◌≡◌, ℕ, Bool};
    ghost use Rattle.ccan_language.specs.declared.letter.Letter.{Letter};

    /// The letter bears the sign.
    ghost bears: { Self → Letter → ℕ → Bool };

    /// Whether the letter bears the sign.
    fn is_borne(&self, letter: Letter, sign: usize) -> bool
        ensures { result ≡ bears self.now letter sign };
}

/// Signs that were sought in vain among the words from a node: no word has all of them.
#[derive(PartialEq, Eq, Hash, Drop)]
pub(crate) struct Vain {
    /// The index of the node.
    pub(crate) node: usize,
    /// The signs.
    pub(crate) signs: Vec<usize>,
}

/// The signs that the letter doesn't bear.
fn signs_left<S: Signs>(
    alloc: Global,
    signs: &S,
    sought: &[usize],
    letter: Letter,
) -> Result<Vec<usize>, AllocError>
    ensures { IfOk result (λ left. left.items ≡ signs_left (S.bears signs.now) sought.now letter) }
{
    let mut left = Vec::new(alloc);
    for sign in sought {
        if !signs.is_borne(letter, *sign) {
            left.push(*sign)?;
        }
    }
    Ok(left)
}

/// Whether it is kept that these signs are sought in vain among the words from the node.
fn is_vain<S: Signs>(
    graph: &Graph,
    alloc: Global,
    signs: &S,
    vain: &IndexSet<Vain>,
    index: usize,
    sought: &[usize],
) -> Result<bool, AllocError>
    requires { AreVain (S.bears signs.now) graph.now.nodes.keys vain.now.keys }
    ensures { IfOk result (λ is. is ≡ true
        → first_with (S.bears signs.now) sought.now (all_words graph.now.nodes.keys index) ≡ None) }
{
    let signs = Vec::from_slice(alloc, sought)?;
    Ok(vain.contains(&Vain { node: index, signs }))
}

/// Keeps that these signs are sought in vain among the words from the node.
fn keep_vain<S: Signs>(
    graph: &Graph,
    alloc: Global,
    signs: &S,
    vain: &mut IndexSet<Vain>,
    index: usize,
    sought: &[usize],
) -> Result<(), AllocError>
    requires vain { AreVain (S.bears signs.now) graph.now.nodes.keys vain.old.keys }
    requires none { first_with (S.bears signs.now) sought.now
        (all_words graph.now.nodes.keys index) ≡ None }
    ensures { OnOk result (AreVain (S.bears signs.now) graph.now.nodes.keys vain.new.keys) }
{
    let signs = Vec::from_slice(alloc, sought)?;
    vain.insert(Vain { node: index, signs })?;
    Ok(())
}

/// The number of the first word from the node that has these signs, or the greatest that 128 bits hold.
fn first_from<S: Signs>(
    graph: &Graph,
    alloc: Global,
    signs: &S,
    vain: &mut IndexSet<Vain>,
    index: usize,
    sought: &[usize],
) -> Result<Option<u128>, AllocError>
    requires within { index < length graph.now.nodes.keys }
    requires vain { AreVain (S.bears signs.now) graph.now.nodes.keys vain.old.keys }
    ensures vain { OnOk result (AreVain (S.bears signs.now) graph.now.nodes.keys vain.new.keys) }
    ensures number { IfOk result (λ found. found ≡ option_map in_128_bits
        (first_with (S.bears signs.now) sought.now (all_words graph.now.nodes.keys index))) }
{
    if is_vain(graph, alloc, signs, vain, index, sought)? {
        return Ok(None);
    }
    match graph.nodes[index] {
        Node::Nothing => Ok(None),
        Node::End => Ok(if sought.is_empty() { Some(0) } else { None }),
        Node::Fork(edge) => {
            let left = signs_left(alloc, signs, sought, edge.letter)?;
            let by_edge = first_from(graph, alloc, signs, vain, edge.to as usize, left.as_slice())?;
            if let Some(number) = by_edge {
                return Ok(Some(number));
            }
            let beside = first_from(graph, alloc, signs, vain, edge.others as usize, sought)?;
            if let Some(number) = beside {
                return Ok(Some(graph.counts[edge.to as usize].saturating_add(number)));
            }
            keep_vain(graph, alloc, signs, vain, index, sought)?;
            Ok(None)
        }
    }
}

/// The number of the first word from the node that has each of these signs, counted from 0 in the order of the list, or none if no
/// word has them. A number that 64 bits can't hold is answered as if memory was refused.
///
/// A node is gone through once for all that is sought from there, so the time depends on the nodes and not on the words.
pub fn first_with<S: Signs>(
    graph: &Graph,
    alloc: Global,
    index: usize,
    signs: &S,
    sought: &[usize],
) -> Result<Option<u64>, AllocError>
    requires { index < length graph.now.nodes.keys }
    ensures first { IfOk result (λ found. found
        ≡ first_with (S.bears signs.now) sought.now (all_words graph.now.nodes.keys index)) }
    ensures few { IfOk result (λ found. IfSome found (λ number. number < 2 ^ 64 - 1)) }
{
    let mut vain = IndexSet::new(alloc);
    match first_from(graph, alloc, signs, &mut vain, index, sought)? {
        None => Ok(None),
        Some(number) => {
            if number < u128::from(u64::MAX) {
                Ok(Some(number as u64))
            } else {
                Err(AllocError)
            }
        }
    }
}
