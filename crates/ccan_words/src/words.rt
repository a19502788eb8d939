use crate::layout::Layout;
use crate::rule::Rule;
use crate::view::View;
use atomic_table::Table;
use ccan_object::Profile;
use std::alloc::{AllocError, Global};
use std::marker::Model;

/// What a memory is opened with. The rule of its words reads it.
#[derive(Clone, Copy, PartialEq, Eq, Debug)]
pub struct Key {
    /// How many objects the memory has.
    pub profile: Profile,
    /// How many changes each port may make.
    pub quota: u64,
}

/// A token of no bytes, by which a thread steps on the words. Proofs know which ports it holds, and what it has seen.
pub type Seat = atomic_table::Seat<(), View>;

/// The words of a memory, which its ports step on at once. Contracts see the memory.
#[derive(Drop)]
pub struct Words<L: Layout> {
    pub(crate) table: Table<(), View, Key, Rule<L>, Global>,
    pub(crate) key: Key,
}

impl<L: Layout> Model for Words<L> {
    ghost use Rattle.std.specs.Prelude.{◌≡◌, ◌≤◌};
    ghost use Rattle.ccan_ram.specs.SharedRam.{Memory};
    ghost use Rattle.ccan_words.specs.Port.{memory_in};
    ghost use Rattle.ccan_words.specs.Words.{AreWords};

    ghost Value = { Memory };

    ghost view = { λ s. memory_in s.table.shared.table_id s.key.profile s.key.quota };

    ghost invariant = { λ s. (s.table.shared.key ≡ s.key) × AreWords (L.form s.key.profile) s.table.shared.table_id
        × (s.key.quota ≤ L.MOST) };
}

impl<L: Layout> Words<L> {
    ghost use Rattle.std.specs.Prelude.{◌≡◌, ◌+◌, ◌≤◌, [], IfOk};
    ghost use Rattle.ccan_object.specs.Profile.{Holds};
    ghost use Rattle.ccan_words.specs.View.{all_ports};
    ghost use Rattle.ccan_words.specs.Port.{memory_in};

    /// The words of a memory that nobody has written, and a seat that holds all ports.
    pub fn open(alloc: Global, key: Key) -> Result<(Words<L>, Seat), AllocError>
        requires quota { key.quota ≤ L.MOST }
        ensures memory { IfOk result
            (λ opened. opened.0 ≡ memory_in opened.1.table_id key.profile key.quota) }
        ensures view { IfOk result (λ opened. opened.1.me ≡ (all_ports key.quota, [])) }
    {
        let zeros: Vec<u64> = vec![in alloc; 0u64; L::size(key.profile)]?;
        let (table, seat) = Table::of_words(alloc, zeros.as_slice(), &key)?;
        Ok((Words { table, key }, seat))
    }

    /// What the memory was opened with.
    pub fn key(&self) -> Key
        ensures profile { result.profile ≡ self.now.profile }
        ensures quota { result.quota ≡ self.now.quota }
        ensures within { result.quota ≤ L.MOST }
    {
        self.key
    }

    /// How many words a version has.
    pub fn width(&self) -> usize
        ensures { result ≡ (L.form self.now.profile).width }
    {
        L::width(self.key.profile)
    }

    /// Where the object's record begins in a version.
    pub fn offset(&self, object: usize) -> usize
        requires { Holds self.now.profile object }
        ensures value { result ≡ (L.form self.now.profile).offset object }
        ensures inside { result + 3 ≤ (L.form self.now.profile).width }
    {
        L::offset(self.key.profile, object)
    }
}
