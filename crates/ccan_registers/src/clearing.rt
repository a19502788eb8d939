//! Zeros in all message objects of a chip, as steps of a port in the chip's history.
ghost use Rattle.std.specs.Prelude.{◌≡◌};
ghost use Rattle.ccan_object.specs.declared.record.Record.{Record};
ghost use Rattle.ccan_object.specs.Record.{zero_record};
ghost use Rattle.ccan_ram.specs.Change.{changed};
ghost use Rattle.ccan_registers.specs.ChipSteps.{ChipGoes};
ghost use Rattle.ccan_registers.specs.Clearing as says;
ghost use Rattle.ccan_registers.specs.Clearing.{ClearsObjects};

use crate::access_error::AccessError;
use crate::all_objects::change_objects;
use ccan_chip::ChipPort;
use ccan_object::{CommandMask, Record};
use ccan_ram::Change;

/// A command that writes all parts of an object: WR/RD, Mask, Arb, Control, Data A and Data B.
const ALL_PARTS: u16 = 0x00f3;

/// The change that leaves an object of zeros, whatever it was.
fn zeros() -> Change
    ensures value { result ≡ says.zeros }
    ensures zero { (before : Record) → changed result before ≡ zero_record }
{
    Change::Write(CommandMask::of(ALL_PARTS), Record::zero())
}

/// Makes each object of the chip one of zeros, in the order of their numbers, as the initialisation of the message RAM of a D_CAN
/// does (Texas Instruments AM335x Technical Reference Manual, chapter Control Module, "dcan_raminit Register"). `Busy` or
/// `Spent`: that object and those after it are as they were. After `Busy` the call may be made again.
pub fn clear_objects(chip: &mut ChipPort) -> Result<(), AccessError>
    ensures settings { chip.new.settings ≡ chip.old.settings }
    ensures goes { ChipGoes chip.old.port chip.new.port (λ terms seen added.
        ClearsObjects terms chip.old.settings.tries seen added result) }
{
    change_objects(chip, &zeros(), chip.settings.tries)
}
