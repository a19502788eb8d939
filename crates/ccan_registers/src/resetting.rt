//! A reset of a chip, as steps of a port in the chip's history.
ghost use Rattle.std.specs.Prelude.{◌≡◌};
ghost use Rattle.ccan_endless.specs.Chip.{MayMake};
ghost use Rattle.ccan_registers.specs.ChipSteps.{ChipGoes};
ghost use Rattle.ccan_registers.specs.Resetting.{ResetsChip};

use crate::access_error::AccessError;
use crate::all_objects::change_objects;
use crate::registers::write_controller;
use ccan_chip::ChipPort;
use ccan_confine::ControllerChange;
use ccan_ram::Change;

/// Resets the controller, by this change, and then each object: MsgVal, NewDat, IntPnd and TxRqst of each become 0, and all else
/// of the objects stays (C_CAN User's Manual 1.2, "Hardware Reset Description"). `Busy` of the controller: nothing was reset.
/// `Busy` or `Spent` of an object: that one and those after it were not reset. After `Busy` the call may be made again.
pub fn reset(chip: &mut ChipPort, change: &ControllerChange) -> Result<(), AccessError>
    requires may { MayMake chip.old.port.pass.port change.now }
    ensures settings { chip.new.settings ≡ chip.old.settings }
    ensures goes { ChipGoes chip.old.port chip.new.port (λ terms seen added.
        ResetsChip terms change.now chip.old.settings.tries seen added result) }
{
    let tries = chip.settings.tries;
    if let Err(why) = write_controller(chip, change) {
        return Err(why);
    }
    change_objects(chip, &Change::Reset, tries)
}
