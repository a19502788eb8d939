//! Loads, rounds and recessive bits of the bus of a chip, as they are in the chip's history.
ghost use Rattle.std.specs.Prelude.{◌≡◌};
ghost use Rattle.ccan_bus.specs.Bus.{IsSameBus, LedTo};
ghost use Rattle.ccan_bus.specs.Past.{BusPast};
ghost use Rattle.ccan_ram.specs.declared.port.PortName.TheVariants.{Bus};
ghost use Rattle.ccan_registers.specs.ChipSteps.{ChipGoes};
ghost use Rattle.ccan_registers.specs.Rounds.{LoadsOnChip, RecoversOnChip, RoundOnChip};

use ccan_bus::{LoadAnswer, RoundLine};
use ccan_chip::{ChipBus, ChipPort, ChipReport};
use ccan_confine::Controller;
use ccan_endless::{ControllerBusy, ControllerChanged};

/// Chooses an object to send, and starts it, if the controller takes part and has none. The answer comes with the controller that
/// its look found.
pub fn load(bus: &mut ChipBus, chip: &mut ChipPort) -> (Controller, LoadAnswer)
    requires bus { chip.old.port.pass.port ≡ Bus }
    requires profile { chip.old.port.pass.memory.profile ≡ bus.old.bus.profile }
    ensures settings { chip.new.settings ≡ chip.old.settings }
    ensures same { IsSameBus bus.old.bus bus.new.bus }
    ensures goes { (past : BusPast) → LedTo past bus.old.bus
        → (after : BusPast) × LedTo after bus.new.bus
        × ChipGoes chip.old.port chip.new.port (λ terms seen added.
        LoadsOnChip terms chip.old.settings.tries past seen added after result.0 result.1) }
    ensures stays { chip.new.port.pass.memory ≡ chip.old.port.pass.memory }
    ensures port { chip.new.port.pass.port ≡ chip.old.port.pass.port }
{
    bus.load(chip)
}

/// Plays a round.
pub fn round(bus: &mut ChipBus, chip: &mut ChipPort, line: &RoundLine) -> ChipReport
    requires bus { chip.old.port.pass.port ≡ Bus }
    requires profile { chip.old.port.pass.memory.profile ≡ bus.old.bus.profile }
    ensures settings { chip.new.settings ≡ chip.old.settings }
    ensures same { IsSameBus bus.old.bus bus.new.bus }
    ensures goes { (past : BusPast) → LedTo past bus.old.bus
        → (after : BusPast) × LedTo after bus.new.bus
        × ChipGoes chip.old.port chip.new.port (λ terms seen added.
        RoundOnChip terms line.now chip.old.settings.tries past seen added after result) }
    ensures stays { chip.new.port.pass.memory ≡ chip.old.port.pass.memory }
    ensures port { chip.new.port.pass.port ≡ chip.old.port.pass.port }
{
    bus.round(chip, line)
}

/// Lets so many groups of eleven recessive bits pass. If each try at the controller was lost to a change of another port, no node
/// has seen any.
pub fn recessive(
    bus: &mut ChipBus,
    chip: &mut ChipPort,
    groups: u16,
) -> Result<ControllerChanged, ControllerBusy>
    requires bus { chip.old.port.pass.port ≡ Bus }
    ensures settings { chip.new.settings ≡ chip.old.settings }
    ensures same { IsSameBus bus.old.bus bus.new.bus }
    ensures goes { (past : BusPast) → LedTo past bus.old.bus
        → (after : BusPast) × LedTo after bus.new.bus
        × ChipGoes chip.old.port chip.new.port (λ terms seen added.
        RecoversOnChip terms groups chip.old.settings.tries past seen added after result) }
    ensures stays { chip.new.port.pass.memory ≡ chip.old.port.pass.memory }
    ensures port { chip.new.port.pass.port ≡ chip.old.port.pass.port }
{
    bus.recessive(chip, groups)
}
