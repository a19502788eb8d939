//! Finite languages: sets of words, each from a node of one graph that only grows, and the words that a machine can say on its
//! ways to an end.
//!
//! A word has a letter for each place at which something was answered, in the order of the places, no matter in which order the
//! letters were said. Nodes that are equal are one.
#![tactic(auto)]

pub mod answers;
pub mod graph;
mod hashed;
pub mod hashing;
pub mod images;
pub mod letter;
pub mod memo;
pub mod no_room;
pub mod node;
pub mod said_letters;
pub mod signs;
pub mod sources;
pub mod states;
mod turn;

pub use graph::Graph;
pub use images::{Images, images_of_each};
pub use letter::Letter;
pub use memo::{Longer, Pair};
pub use no_room::NoRoom;
pub use node::{Edge, Node};
pub use said_letters::letters_said;
pub use signs::{Signs, first_with};
pub use sources::source_of;
pub use states::{State, Step, steps_lead_back, words_of_each};
