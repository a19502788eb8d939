//! The start and the end of a frame on a bus of several chips, and a look in between, as they are in the chip's history.
ghost use Rattle.std.specs.Prelude.{◌≡◌, ◌<◌};
ghost use Rattle.ccan_ram.specs.declared.port.PortName.TheVariants.{Bus};
ghost use Rattle.ccan_registers.specs.ChipSteps.{ChipGoes};
ghost use Rattle.ccan_registers.specs.Frames.{BeginsOnChip, EndsOnChip, StaysOnChip, state_of};

use ccan_chip::ChipPort;
use ccan_station::{Begun, Ended, Station, Stayed};
use ccan_wire::{Flaw, MOST_MEMBERS, Wire};

/// The start of a frame: the port looks at the controller, and joins it if it comes back; then an object is chosen and started, if
/// nothing is loaded and the controller may send.
pub fn begin(station: &mut Station, chip: &mut ChipPort) -> Begun
    requires bus { chip.old.port.pass.port ≡ Bus }
    requires profile { chip.old.port.pass.memory.profile ≡ station.old.profile }
    ensures settings { chip.new.settings ≡ chip.old.settings }
    ensures profile { station.new.profile ≡ station.old.profile }
    ensures goes { ChipGoes chip.old.port chip.new.port (λ terms seen added.
        BeginsOnChip terms chip.old.settings.tries (state_of station.old) seen added
        (state_of station.new) result) }
    ensures stays { chip.new.port.pass.memory ≡ chip.old.port.pass.memory }
    ensures port { chip.new.port.pass.port ≡ chip.old.port.pass.port }
{
    station.begin(chip)
}

/// One more look at the controller until the end of the frame, and what the chip is to the bus from there.
pub fn stay(station: &mut Station, chip: &mut ChipPort) -> Stayed
    ensures settings { chip.new.settings ≡ chip.old.settings }
    ensures profile { station.new.profile ≡ station.old.profile }
    ensures goes { ChipGoes chip.old.port chip.new.port (λ terms seen added.
        StaysOnChip terms (state_of station.old) seen added (state_of station.new) result) }
    ensures stays { chip.new.port.pass.memory ≡ chip.old.port.pass.memory }
    ensures port { chip.new.port.pass.port ≡ chip.old.port.pass.port }
{
    station.stay(chip)
}

/// The end of the frame, for the chip at this position on the bus, which finds this error by itself: a look at the controller,
/// the steps at objects that its event calls for, and the event at the controller, in up to 1,000 tries.
pub fn end(
    station: &mut Station,
    chip: &mut ChipPort,
    wire: &Wire,
    place: usize,
    flaw: Option<Flaw>,
) -> Ended
    requires within { place < MOST_MEMBERS }
    requires bus { chip.old.port.pass.port ≡ Bus }
    requires profile { chip.old.port.pass.memory.profile ≡ station.old.profile }
    ensures settings { chip.new.settings ≡ chip.old.settings }
    ensures profile { station.new.profile ≡ station.old.profile }
    ensures goes { ChipGoes chip.old.port chip.new.port (λ terms seen added.
        EndsOnChip terms chip.old.settings.tries wire.now place flaw (state_of station.old)
        seen added (state_of station.new) result) }
    ensures stays { chip.new.port.pass.memory ≡ chip.old.port.pass.memory }
    ensures port { chip.new.port.pass.port ≡ chip.old.port.pass.port }
{
    station.end(chip, wire, place, flaw)
}
