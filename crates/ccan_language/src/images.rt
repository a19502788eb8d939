//! Images of words: words in which other letters stand for each letter.
ghost use Rattle.std.specs.Prelude.{◌+◌, ◌≡◌, ◌<◌, IfErr, IfOk, length};
ghost use Rattle.ccan_language.specs.Images.{AreStatesOf, AreStepsOf, HaveImages, IsStateOf, NeedNodesOfImages, image_of};
ghost use Rattle.ccan_language.specs.Words.{Grows};

use crate::graph::Graph;
use crate::letter::Letter;
use crate::no_room::NoRoom;
use crate::node::{Edge, Node};
use crate::states::{State, Step, words_of_each};
use std::alloc::{AllocError, Global};

/// What stands for each letter: none, one or several letters.
///
/// The image of a word has what stands for each of its letters, each in its place.
#[derive(Drop)]
pub struct Images {
    /// What stands for each answer at each place. Nothing stands for a letter without an entry.
    pub letters: Vec<Vec<Vec<Letter>>>,
}

impl Images {
    /// What stands for this letter.
    pub fn of(&self, letter: Letter) -> &[Letter]
        ensures { result.now ≡ image_of self.now letter }
    {
        match self.letters.get(letter.place as usize) {
            Some(answers) => match answers.get(letter.answer as usize) {
                Some(letters) => letters.as_slice(),
                None => &[],
            },
            None => &[],
        }
    }

    /// The same letters again.
    fn copy_of(&self, alloc: Global, letter: Letter) -> Result<Vec<Letter>, AllocError>
        ensures { IfOk result (λ letters. letters.items ≡ image_of self.now letter) }
    {
        self.of(letter).iter().copied().collect(alloc)
    }
}

/// The steps from a fork on which the images of its words are said.
fn steps_of(alloc: Global, images: &Images, edge: Edge) -> Result<Vec<Step>, AllocError>
    ensures { IfOk result (λ steps. AreStepsOf images.now edge steps.items) }
{
    let letters = images.copy_of(alloc, edge.letter)?;
    let mut steps = Vec::new(alloc);
    steps.push(Step {
        letters,
        to: edge.to as usize,
    })?;
    steps.push(Step {
        letters: Vec::new(alloc),
        to: edge.others as usize,
    })?;
    Ok(steps)
}

/// The state from which the images of the words of a node are said.
fn state_of(alloc: Global, images: &Images, node: Node) -> Result<State, AllocError>
    ensures { IfOk result (IsStateOf images.now node) }
{
    match node {
        Node::Nothing => Ok(State {
            ends: false,
            steps: Vec::new(alloc),
        }),
        Node::End => Ok(State {
            ends: true,
            steps: Vec::new(alloc),
        }),
        Node::Fork(edge) => Ok(State {
            ends: false,
            steps: steps_of(alloc, images, edge)?,
        }),
    }
}

/// For each node up to this one the state from which the images of its words are said.
fn states_of(
    alloc: Global,
    graph: &Graph,
    index: usize,
    images: &Images,
) -> Result<Vec<State>, AllocError>
    requires { index < length graph.now.nodes.keys }
    ensures { IfOk result (λ states.
        AreStatesOf graph.now.nodes.keys images.now (index + 1) states.items) }
{
    let mut states = Vec::new(alloc);
    for place in 0..=index {
        states.push(state_of(alloc, images, graph.nodes[place])?)?;
    }
    Ok(states)
}

/// For each node of a graph up to this one a node of another graph, with the images of its words.
///
/// They are made node by node. `NoRoom::Bound` comes only if each graph that has a node of the images of each of these has at
/// least as many nodes as the other graph may have.
pub fn images_of_each(
    into: &mut Graph,
    alloc: Global,
    graph: &Graph,
    index: usize,
    images: &Images,
) -> Result<Vec<usize>, NoRoom>
    requires { index < length graph.now.nodes.keys }
    ensures grows { Grows into.old.nodes.keys into.new.nodes.keys }
    ensures images { IfOk result (λ made. HaveImages graph.now.nodes.keys images.now
        into.new.nodes.keys made.items (index + 1)) }
    ensures bound { IfErr result (λ why. why ≡ NoRoom.Bound → NeedNodesOfImages
        graph.now.nodes.keys images.now (index + 1) into.old.nodes.keys into.old.most) }
{
    let states = states_of(alloc, graph, index, images)?;
    words_of_each(into, alloc, states.as_slice())
}
