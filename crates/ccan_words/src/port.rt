use crate::words::{Key, Seat};
use ccan_ram::PortName;
use std::marker::Model;

/// A port of a memory: the right to act for it. Contracts see which memory it belongs to, whose it is, and the
/// history that it has seen.
#[derive(Drop)]
pub struct Port {
    pub(crate) seat: Seat,
    pub(crate) name: PortName,
    pub(crate) used: u64,
    pub(crate) key: Key,
    // Ports that different threads hold do not share a cache line, even if they lie side by side.
    _apart: [u64; 12],
}

impl Model for Port {
    ghost use Rattle.ccan_ram.specs.SharedRam.{Pass};
    ghost use Rattle.ccan_words.specs.Port.{IsPort, pass_of};

    ghost Value = { Pass };

    ghost view = { λ s. pass_of s.seat.table_id s.key.profile s.key.quota s.name s.seat.me.0 };

    ghost invariant = { λ s. IsPort s.seat.me s.key.profile s.name s.used s.key.quota };
}

impl Port {
    ghost use Rattle.std.specs.Prelude.{◌≡◌, ◌≤◌};
    ghost use Rattle.ccan_ram.specs.SharedRam.{opened};
    ghost use Rattle.ccan_words.specs.Port.{memory_in, numbers_of};
    ghost use Rattle.ccan_words.specs.declared.view.PortView.{PortView};
    ghost use Rattle.ccan_words.specs.Version.{IsSeatOf};
    ghost use Rattle.ccan_words.specs.View.{start};

    /// A port of a memory that was just opened.
    pub(crate) fn opened(seat: Seat, name: PortName, key: Key) -> Port
        requires seat { IsSeatOf name (start key.quota) seat.me }
        requires quota { key.quota ≤ 4096 }
        ensures { result ≡ opened (memory_in seat.table_id key.profile key.quota) name }
    {
        Port {
            seat,
            name,
            used: 0,
            key,
            _apart: [0; 12],
        }
    }

    /// The seat, with all that the port has seen.
    pub(crate) fn into_seat(self) -> Seat
        ensures table { numbers_of result.table_id ≡ self.memory.name }
        ensures held { (x : PortView) × IsSeatOf self.port x result.me × (x.seen ≡ self.seen) }
    {
        self.seat
    }
}
