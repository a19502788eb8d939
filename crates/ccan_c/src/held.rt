ghost use Rattle.std.specs.Prelude.{◌≡◌, ◌≤◌};
ghost use Rattle.ccan_line.specs.Limits.{most_nodes};

use ccan_chip::{ChipBus, ChipPort};
use ccan_registers::InterfaceSet;
use ccan_station::Station;

/// What an open handle stands for: a port with its share of the chip, and what the calls on it work on. The calls of a host use
/// the interface registers, those of the bus use the bus. The last share that goes takes the chip with it.
#[derive(Drop)]
pub struct Held {
    pub chip: ChipPort,
    pub own: InterfaceSet,
    /// How many other nodes the bus has.
    pub nodes: u8,
    pub bus: ChipBus,
    /// What the bus's handle keeps of a frame on a bus of several.
    pub station: Station,
    ghost few: { nodes ≤ most_nodes },
    ghost known: { bus.bus.others ≡ nodes },
    ghost same_profile: { bus.bus.profile ≡ chip.port.pass.memory.profile },
    ghost same_station: { station.profile ≡ chip.port.pass.memory.profile },
}
