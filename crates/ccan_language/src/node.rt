ghost use Rattle.std.specs.Prelude.{true, ◌≡◌, ◌↔◌};

use crate::letter::Letter;

/// An edge from one node to another, which has a letter, and what is beside it.
#[derive(Clone, Copy, PartialEq, Eq, Debug, Drop)]
pub struct Edge {
    /// The letter.
    pub letter: Letter,
    /// The index of the node that it leads to.
    pub to: u32,
    /// The index of the node of the other words: those that begin with later letters, and the empty word.
    pub others: u32,
}

/// A node: a set of words.
///
/// The edges of a fork are its own, that of the others' node if that is a fork, and so on, in the order of their letters.
#[derive(Clone, Copy, PartialEq, Eq, Debug, Drop)]
pub enum Node {
    /// No word.
    Nothing,
    /// Only the empty word.
    End,
    /// The words that go on by an edge, and those beside it.
    Fork(Edge),
}

impl Node {
    /// Whether it has no word.
    pub fn is_nothing(self) -> bool
        ensures { (result ≡ true) ↔ (self ≡ Node.Nothing) }
    {
        match self {
            Node::Nothing => true,
            Node::End | Node::Fork(_) => false,
        }
    }
}
