//! The end of a frame at the controller.

ghost use Rattle.std.specs.Prelude.{◌≡◌, IfSome};
ghost use Rattle.ccan_ram.specs.declared.port.PortName.TheVariants.{Bus as BusPort};
ghost use Rattle.ccan_ram.specs.SharedRam.{CanSee, IsSamePort};
ghost use Rattle.ccan_ram.specs.Tries.{most_tries};
ghost use Rattle.ccan_confine.specs.StatusEvent.{HasFaultCode};
ghost use Rattle.ccan_endless.specs.ChipPort.{SeesOne};
ghost use Rattle.ccan_chip.specs.Round.{Notes};

use ccan_chip::{ChipPort, OwnEvent, own_tries};
use ccan_confine::ControllerChange;
use ccan_endless::{ControllerBusy, ControllerChanged};

/// Makes an event at the controller, if there is one, in as many tries as one may have.
pub(crate) fn note(
    chip: &mut ChipPort,
    own: &Option<OwnEvent>,
) -> Option<Result<ControllerChanged, ControllerBusy>>
    requires bus { chip.old.port.pass.port ≡ BusPort }
    requires known { IfSome own.now (λ own. HasFaultCode own.1) }
    requires sees { CanSee chip.old.port.pass }
    requires one { SeesOne chip.old.port }
    ensures settings { chip.new.settings ≡ chip.old.settings }
    ensures port { IsSamePort chip.old.port.pass chip.new.port.pass }
    ensures sees { CanSee chip.new.port.pass }
    ensures one { SeesOne chip.new.port }
    ensures notes { Notes own.now most_tries chip.old.port chip.new.port result }
{
    match own {
        None => None,
        Some((event, status)) => {
            let change = ControllerChange::Frame(*event, *status);
            Some(chip.change_controller(&change, own_tries()))
        }
    }
}
