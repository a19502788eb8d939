//! Calls of a graph, and tables that keep what they made.
ghost use Rattle.std.specs.Prelude.{[], Some, ◌≡◌, ◌<◌, Contains, IfSome, length};
ghost use Rattle.ccan_language.specs.Memo.{KeepsOneMore, KeepsNoMore};

use crate::letter::Letter;
use std::alloc::{AllocError, Global};

/// The fewest places of a table that has any.
const FEWEST_PLACES: usize = 1024;

/// A call of `union`.
#[derive(Clone, Copy, PartialEq, Eq, Debug, Drop)]
pub struct Pair {
    /// The index of the first node.
    pub first: u32,
    /// The index of the second node.
    pub second: u32,
}

/// A call of `with`.
#[derive(Clone, Copy, PartialEq, Eq, Debug, Drop)]
pub struct Longer {
    /// The index of the node.
    pub index: u32,
    /// The letter that is added to its words.
    pub letter: Letter,
}

/// A call, and the index of the node that it made.
#[derive(Clone, Copy, Drop)]
pub struct Made<K> {
    /// The call.
    pub call: K,
    /// The index of the node.
    pub made: u32,
}

/// Calls that are kept, each at the place that its hash gives, until one that comes later takes the place.
#[derive(Drop)]
pub struct Kept<K> {
    /// For each place the call that is kept there. They are none at first, and then as many as some power of two.
    pub places: Vec<Option<Made<K>>>,
}

impl<K: Copy + Drop> Kept<K> {
    /// No places.
    pub(crate) fn new(alloc: Global) -> Self
        ensures { result.places.items ≡ [] }
    {
        Kept {
            places: Vec::new(alloc),
        }
    }

    /// Takes as many places as this, unless it has as many. Of what was kept some is not found again.
    pub(crate) fn grow(&mut self, count: usize) -> Result<(), AllocError>
        ensures { KeepsNoMore self.old.places.items self.new.places.items }
    {
        if count > self.places.len() {
            self.places.resize(count, None)?;
        }
        Ok(())
    }

    /// Takes more places if there are too few for what a graph of so many nodes keeps.
    pub(crate) fn keep_pace(&mut self, nodes: usize) -> Result<(), AllocError>
        ensures { KeepsNoMore self.old.places.items self.new.places.items }
    {
        let count = self.places.len();
        if count >= nodes / 4 {
            return Ok(());
        }
        self.grow(count.saturating_mul(2).max(FEWEST_PLACES))
    }

    /// The place of a call with this hash, if there are places.
    #[inline(always)]
    fn place(&self, word: u64) -> usize
        ensures { 0 < length self.now.places.items → result < length self.now.places.items }
    {
        word as usize & self.places.len().wrapping_sub(1)
    }

    /// The call that is kept at the place of this hash. It may be another with the same place.
    #[inline(always)]
    pub(crate) fn at(&self, word: u64) -> Option<Made<K>>
        ensures { IfSome result (λ kept. Contains self.now.places.items (Some kept)) }
    {
        match self.places.get(self.place(word)) {
            Some(kept) => *kept,
            None => None,
        }
    }

    /// Keeps this call at the place of this hash, if there are places.
    #[inline(always)]
    pub(crate) fn put(&mut self, word: u64, kept: Made<K>)
        ensures no_other { KeepsOneMore self.old.places.items self.new.places.items kept }
        ensures this { 0 < length self.old.places.items
            → Contains self.new.places.items (Some kept) }
    {
        let place = self.place(word);
        if place < self.places.len() {
            self.places[place] = Some(kept);
        }
    }
}
