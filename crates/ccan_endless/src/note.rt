use crate::words::{Key, Seat};
use std::marker::Model;

/// What a port had seen of its chip at one time, for another port of the chip: `EndlessRam::tell` makes it, and
/// `EndlessRam::heed` shows it to that port. Contracts see the memory, and the history that had been seen.
#[derive(Drop)]
pub struct Note {
    pub(crate) seat: Seat,
    pub(crate) key: Key,
}

impl Model for Note {
    ghost use Rattle.ccan_endless.specs.Note.{IsNote, Told};
    ghost use Rattle.ccan_endless.specs.Port.{memory_in};

    ghost Value = { Told };

    ghost view = { λ s. record {
      memory = memory_in s.seat.table_id s.key.profile s.key.quota;
      whole = s.seat.told;
    } };

    ghost invariant = { λ s. IsNote s.seat };
}
