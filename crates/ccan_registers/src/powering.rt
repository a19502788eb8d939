//! Local power down of a D_CAN, as the bus's side does it (Texas Instruments AM335x Technical Reference Manual, chapter DCAN,
//! "Local Power-Down Mode").
ghost use Rattle.std.specs.Prelude.{◌≡◌};
ghost use Rattle.ccan_ram.specs.declared.port.PortName.TheVariants.{Bus};
ghost use Rattle.ccan_registers.specs.ChipSteps.{ChipGoes};
ghost use Rattle.ccan_registers.specs.PowerDown as says;
ghost use Rattle.ccan_registers.specs.PowerDown.{PowersDown, PowersDownIdle, SetsPower};

use crate::access_error::AccessError;
use crate::controller::{change, look};
use crate::objects::flags;
use ccan_chip::ChipPort;
use ccan_confine::{Controller, ControllerChange};
use ccan_ram::Flag;

/// Whether a host asks for power down, and the controller still takes part in the traffic.
fn is_to_power_down(found: &Controller) -> bool
    ensures { result ≡ says.is_to_power_down found.now }
{
    found.control.pdr && !found.control.init
}

/// Changes the controller to powered down, if PDR is still 1. Whether it is powered down then.
fn set_power(chip: &mut ChipPort) -> Result<bool, AccessError>
    requires bus { chip.old.port.pass.port ≡ Bus }
    ensures settings { chip.new.settings ≡ chip.old.settings }
    ensures goes { ChipGoes chip.old.port chip.new.port (λ terms seen added.
        SetsPower terms chip.old.settings.tries seen added result) }
{
    let tries = chip.settings.tries;
    match change(chip, &ControllerChange::PowerDown, tries) {
        Ok(made) => Ok(made.after.is_powered_down()),
        Err(_) => Err(AccessError::Busy),
    }
}

/// Powers the controller down unless an object requests a transmission.
fn power_down_idle(chip: &mut ChipPort) -> Result<bool, AccessError>
    requires bus { chip.old.port.pass.port ≡ Bus }
    ensures settings { chip.new.settings ≡ chip.old.settings }
    ensures goes { ChipGoes chip.old.port chip.new.port (λ terms seen added.
        PowersDownIdle terms chip.old.settings.tries seen added result) }
{
    let requests = flags(chip, Flag::TxRqst);
    if requests == 0 {
        set_power(chip)
    } else {
        Ok(false)
    }
}

/// The bus is idle: the controller powers down if a host has set PDR and no object requests a transmission. Whether it is powered
/// down then, as PDA shows it. `Busy` if each try at the change was lost to a change of another port.
pub fn power_down(chip: &mut ChipPort) -> Result<bool, AccessError>
    requires bus { chip.old.port.pass.port ≡ Bus }
    ensures settings { chip.new.settings ≡ chip.old.settings }
    ensures goes { ChipGoes chip.old.port chip.new.port (λ terms seen added.
        PowersDown terms chip.old.settings.tries seen added result) }
{
    let found = look(chip);
    if is_to_power_down(&found) {
        power_down_idle(chip)
    } else {
        Ok(found.is_powered_down())
    }
}
