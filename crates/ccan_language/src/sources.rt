//! Words that have another word as their image.
ghost use Rattle.std.specs.Prelude.{◌+◌, ◌≡◌, ◌≢◌, ◌<◌, List, IfNone, IfOk, IfSome, length, slice_get};
ghost use Rattle.ccan_language.specs.declared.letter.Letter.{Letter};
ghost use Rattle.ccan_language.specs.Images.{HaveImages, IsImageFrom, image_of, without_letter, word_image};
ghost use Rattle.ccan_language.specs.Words.{IsWordFrom, with_letter, with_letters};

use crate::graph::Graph;
use crate::images::Images;
use crate::letter::Letter;
use crate::node::{Edge, Node};
use std::alloc::{AllocError, Global};

/// The word with this letter added.
fn with_letter(alloc: Global, word: &[Letter], letter: Letter) -> Result<Vec<Letter>, AllocError>
    ensures { IfOk result (λ longer. longer.items ≡ with_letter letter word.now) }
{
    let mut longer = Vec::new(alloc);
    let mut stands = false;
    for other in word {
        if !stands && !other.precedes(letter) {
            longer.push(letter)?;
            stands = true;
        }
        longer.push(*other)?;
    }
    if !stands {
        longer.push(letter)?;
    }
    Ok(longer)
}

/// The word without the first of its letters that does not come before this one.
fn without_letter(alloc: Global, word: &[Letter], letter: Letter) -> Result<Vec<Letter>, AllocError>
    ensures { IfOk result (λ shorter. shorter.items ≡ without_letter letter word.now) }
{
    let mut shorter = Vec::new(alloc);
    let mut is_left_out = false;
    for other in word {
        if is_left_out || other.precedes(letter) {
            shorter.push(*other)?;
        } else {
            is_left_out = true;
        }
    }
    Ok(shorter)
}

/// The word that becomes this one with a letter added, if there is one.
fn shorter(
    alloc: Global,
    word: &[Letter],
    letter: Letter,
) -> Result<Option<Vec<Letter>>, AllocError>
    ensures right { IfOk result (λ found. IfSome found (λ shorter.
        with_letter letter shorter.items ≡ word.now)) }
    ensures complete { IfOk result (λ found. IfNone found
        ((shorter : List Letter) → with_letter letter shorter ≢ word.now)) }
{
    let shorter = without_letter(alloc, word, letter)?;
    if with_letter(alloc, shorter.as_slice(), letter)?.as_slice() == word {
        Ok(Some(shorter))
    } else {
        Ok(None)
    }
}

/// The word that becomes this one with these letters added, if there is one.
fn shorter_by(
    alloc: Global,
    word: &[Letter],
    letters: &[Letter],
) -> Result<Option<Vec<Letter>>, AllocError>
    ensures right { IfOk result (λ found. IfSome found (λ shorter.
        with_letters letters.now shorter.items ≡ word.now)) }
    ensures complete { IfOk result (λ found. IfNone found
        ((shorter : List Letter) → with_letters letters.now shorter ≢ word.now)) }
{
    let mut left = Vec::from_slice(alloc, word)?;
    let mut count = letters.len();
    while count > 0 {
        count -= 1;
        match shorter(alloc, left.as_slice(), letters[count])? {
            Some(shorter) => left = shorter,
            None => return Ok(None),
        }
    }
    Ok(Some(left))
}

/// What is left of an image without what stands for an edge's letter, if that is the image of a word from where the edge leads.
fn left_behind(
    alloc: Global,
    graph: &Graph,
    images: &Images,
    into: &Graph,
    made: &[usize],
    edge: Edge,
    word: &[Letter],
) -> Result<Option<Vec<Letter>>, AllocError>
    requires images { HaveImages graph.now.nodes.keys images.now into.now.nodes.keys
        made.now (length made.now) }
    requires to { edge.to < length made.now }
    ensures right { IfOk result (λ found. IfSome found (λ left.
        with_letters (image_of images.now edge.letter) left.items ≡ word.now)) }
    ensures image { IfOk result (λ found. IfSome found (λ left.
        IsImageFrom graph.now.nodes.keys images.now edge.to left.items)) }
    ensures complete { IfOk result (λ found. IfNone found ((left : List Letter)
        → IsImageFrom graph.now.nodes.keys images.now edge.to left
        → with_letters (image_of images.now edge.letter) left ≢ word.now)) }
{
    let _graph = graph;
    let Some(left) = shorter_by(alloc, word, images.of(edge.letter))? else {
        return Ok(None);
    };
    if into.contains(made[edge.to as usize], left.as_slice()) {
        Ok(Some(left))
    } else {
        Ok(None)
    }
}

/// A word from a node that has this one as its image. `into` and `made` have the images of the words of each node up to it.
pub fn source_of(
    alloc: Global,
    graph: &Graph,
    images: &Images,
    into: &Graph,
    made: &[usize],
    index: usize,
    word: &[Letter],
) -> Result<Vec<Letter>, AllocError>
    requires images { HaveImages graph.now.nodes.keys images.now into.now.nodes.keys
        made.now (length made.now) }
    requires node { index < length graph.now.nodes.keys }
    requires within { index < length made.now }
    requires is_image { IsImageFrom graph.now.nodes.keys images.now index word.now }
    ensures word { IfOk result (λ source. IsWordFrom graph.now.nodes.keys index source.items) }
    ensures image { IfOk result (λ source. word_image images.now source.items ≡ word.now) }
{
    let mut source = Vec::new(alloc);
    let mut left = Vec::from_slice(alloc, word)?;
    let mut at = index;
    for _ in 0..made.len() {
        match graph.nodes[at] {
            Node::Nothing => unreachable!(),
            Node::End => return Ok(source),
            Node::Fork(edge) => {
                match left_behind(alloc, graph, images, into, made, edge, left.as_slice())? {
                    Some(later) => {
                        source.push(edge.letter)?;
                        left = later;
                        at = edge.to as usize;
                    }
                    None => at = edge.others as usize,
                }
            }
        }
    }
    unreachable!()
}
