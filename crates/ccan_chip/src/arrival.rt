//! How a load or a round begins: the bus's port comes to a controller that may have left the bus meanwhile.
ghost use Rattle.std.specs.Prelude.{◌≡◌};
ghost use Rattle.ccan_ram.specs.declared.port.PortName.TheVariants.{Bus};
ghost use Rattle.ccan_ram.specs.SharedRam.{IsSamePort};
ghost use Rattle.ccan_ram.specs.Tries.{most_tries};
ghost use Rattle.ccan_confine.specs.Controller.{IsController};
ghost use Rattle.ccan_chip.specs.Arrival.{Arrives, comes_back, may_take_part, takes_part};

use crate::chip_port::ChipPort;
use ccan_confine::{Controller, ControllerChange, NodeState};
use ccan_ram::Tries;

/// How often a change that the bus's port makes by itself is tried: as often as a change may be. What was on the bus can't be
/// played again.
const OWN_TRIES: u16 = 1000;

/// The tries of such a change.
pub fn own_tries() -> Tries
    ensures { result ≡ most_tries }
{
    match Tries::new(OWN_TRIES) {
        Some(tries) => tries,
        None => unreachable!(),
    }
}

/// Whether a controller may take part in what is on the bus: Init is 0, and it is not bus off.
fn may_take_part(controller: &Controller) -> bool
    ensures { result ≡ may_take_part controller.now }
{
    !controller.control.init && !matches!(controller.counters.state(), NodeState::Off)
}

/// Whether it takes part: it may, and has not left the bus since the port joined last.
pub fn takes_part(controller: &Controller) -> bool
    ensures { result ≡ takes_part controller.now }
{
    may_take_part(controller) && !controller.has_left
}

/// Whether it comes back: it has left the bus, and may take part again.
fn comes_back(controller: &Controller) -> bool
    ensures { result ≡ comes_back controller.now }
{
    may_take_part(controller) && controller.has_left
}

/// Comes to the bus: looks at the controller, and if that comes back, joins and looks again. The answer is the controllers that
/// the first and the last look found. If each try to join was lost to a change of another port, the controller takes no part this
/// time.
pub fn arrive(chip: &mut ChipPort) -> (Controller, Controller)
    requires bus { chip.old.port.pass.port ≡ Bus }
    ensures settings { chip.new.settings ≡ chip.old.settings }
    ensures arrives { Arrives chip.old.port chip.new.port result.0 result.1 }
    ensures same { IsSamePort chip.old.port.pass chip.new.port.pass }
    ensures is { IsController result.1 }
{
    let first = chip.look_controller();
    if !comes_back(&first) {
        return (first, first);
    }
    let _joined = chip.change_controller(&ControllerChange::Join, own_tries());
    let found = chip.look_controller();
    (first, found)
}
