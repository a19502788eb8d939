//! Looks and changes of the controller, as they are in the history of the chip.
ghost use Rattle.std.specs.Prelude.{◌≡◌};
ghost use Rattle.ccan_confine.specs.Controller.{IsController};
ghost use Rattle.ccan_endless.specs.Chip.{MayMake};
ghost use Rattle.ccan_endless.specs.declared.chip.ControllerStep.TheVariants.{Look};
ghost use Rattle.ccan_registers.specs.ChipSteps.{AtController, Changes, ChipGoes};

use ccan_chip::ChipPort;
use ccan_confine::{Controller, ControllerChange};
use ccan_endless::{ControllerBusy, ControllerChanged};
use ccan_ram::Tries;

/// The controller's registers, by one look.
#[inline(always)]
pub fn look(chip: &mut ChipPort) -> Controller
    ensures settings { chip.new.settings ≡ chip.old.settings }
    ensures goes { ChipGoes chip.old.port chip.new.port (λ terms seen added.
        AtController terms.port Look result seen added) }
    ensures is { IsController result }
{
    chip.look_controller()
}

/// Changes the controller, in at most so many tries: each is lost if another port's change of it came first.
#[inline(always)]
pub fn change(
    chip: &mut ChipPort,
    change: &ControllerChange,
    tries: Tries,
) -> Result<ControllerChanged, ControllerBusy>
    requires may { MayMake chip.old.port.pass.port change.now }
    ensures settings { chip.new.settings ≡ chip.old.settings }
    ensures goes { ChipGoes chip.old.port chip.new.port (λ terms seen added.
        Changes terms.port change.now tries seen added result) }
{
    chip.change_controller(change, tries)
}
