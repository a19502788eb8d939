//! How the ports of a chip meet.
ghost use Rattle.std.specs.Prelude.{◌≡◌, ◌≢◌, true, false};
ghost use Rattle.ccan_ram.specs.declared.port.PortName.TheVariants.{Bus, If1, If2};
ghost use Rattle.ccan_c.specs.Codes.{closed, done};
ghost use Rattle.ccan_c.specs.Chip.{are_open};
ghost use Rattle.ccan_c.specs.Meeting.{AreThree, HaveMet, Meet, MeetHeld};

use crate::chip::Chip;
use crate::code::{CLOSED, DONE};
use crate::handle::Handle;
use crate::held::Held;
use ccan_chip::ChipPort;
use ccan_endless::{EndlessRam, Port};
use ccan_ram::SharedRam;
use std::alloc::Global;
use std::mem::replace;

/// Shows each of three ports what the others have seen.
pub(crate) fn meet_ports(ram: &EndlessRam, if1: &mut Port, if2: &mut Port, bus: &mut Port)
    requires first { if1.old.pass.memory ≡ ram.now.words }
    requires second { if1.old.pass.memory ≡ if2.old.pass.memory }
    requires third { if1.old.pass.memory ≡ bus.old.pass.memory }
    requires named_if1 { if1.old.pass.port ≡ If1 }
    requires named_if2 { if2.old.pass.port ≡ If2 }
    requires named_bus { bus.old.pass.port ≡ Bus }
    ensures { HaveMet if1.old if2.old bus.old if1.new if2.new bus.new }
{
    ram.meet(if1, if2);
    ram.meet(if1, bus);
    // Only now does IF2 see what the bus had seen.
    ram.meet(if2, if1);
}

/// The ports of a chip meet, each with its share of the memory.
fn meet_chips(if1: &mut ChipPort, if2: &mut ChipPort, bus: &mut ChipPort)
    requires second { if1.old.port.pass.memory ≡ if2.old.port.pass.memory }
    requires third { if1.old.port.pass.memory ≡ bus.old.port.pass.memory }
    requires named_if1 { if1.old.port.pass.port ≡ If1 }
    requires named_if2 { if2.old.port.pass.port ≡ If2 }
    requires named_bus { bus.old.port.pass.port ≡ Bus }
    ensures met { HaveMet if1.old.port if2.old.port bus.old.port if1.new.port if2.new.port
        bus.new.port }
    ensures settings { (if1.new.settings ≡ if1.old.settings)
        × (if2.new.settings ≡ if2.old.settings) × (bus.new.settings ≡ bus.old.settings) }
{
    meet_ports(&if1.ram, &mut if1.port, &mut if2.port, &mut bus.port);
}

/// The ports of three handles meet.
pub(crate) fn meet_held(if1: &mut Held, if2: &mut Held, bus: &mut Held)
    requires { AreThree if1.old if2.old bus.old }
    ensures meet { MeetHeld if1.old if2.old bus.old if1.new if2.new bus.new }
    ensures three { AreThree if1.new if2.new bus.new }
{
    meet_chips(&mut if1.chip, &mut if2.chip, &mut bus.chip);
}

/// Shows each port of a chip what the others have seen, so that a handle's next call goes on from all that was done. A
/// chip that is not open stays as it is.
#[unsafe(no_mangle)]
pub extern "C" fn ccan_meet(alloc: Global, chip: &mut Chip) -> u32
    ensures done { result ≡ done → Meet chip.old chip.new }
    ensures refused { result ≢ done → chip.new ≡ chip.old }
    ensures code { are_open chip.old ≡ false → result ≡ closed }
    ensures other { are_open chip.old ≡ true → result ≡ done }
{
    if !chip.is_open() {
        return CLOSED;
    }
    let Chip { if1, if2, bus, .. } = replace(chip, Chip::closed(alloc));
    let (Some(mut if1), Some(mut if2), Some(mut bus)) = (
        if1.handle.into_held(),
        if2.handle.into_held(),
        bus.handle.into_held(),
    ) else {
        unreachable!();
    };
    meet_held(&mut if1, &mut if2, &mut bus);
    *chip = Chip::of(Handle::open(if1), Handle::open(if2), Handle::open(bus));
    DONE
}
