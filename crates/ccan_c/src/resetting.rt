//! Resetting a chip in its place.
ghost use Rattle.std.specs.Prelude.{◌≡◌, ◌≢◌, true, false, Some};
ghost use Rattle.ccan_c.specs.Chip.{are_open};
ghost use Rattle.ccan_c.specs.Codes.{closed};
ghost use Rattle.ccan_c.specs.Meeting.{AreThree};
ghost use Rattle.ccan_c.specs.Resetting.{Resets, ResetsHeld, ResetsMet};

use crate::access_code::code_of_access;
use crate::chip::Chip;
use crate::code::CLOSED;
use crate::handle::Handle;
use crate::held::Held;
use crate::meeting::meet_held;
use ccan_registers::{AccessError, InterfaceSet};
use std::alloc::Global;
use std::mem::replace;

/// The bus's port of three that have met resets the controller and each object, what is loaded is dropped, each interface has its
/// reset values, and the ports meet again.
fn reset_met(if1: &mut Held, if2: &mut Held, bus: &mut Held) -> Result<(), AccessError>
    requires { AreThree if1.old if2.old bus.old }
    ensures reset { ResetsMet if1.old if2.old bus.old if1.new if2.new bus.new result }
    ensures three { AreThree if1.new if2.new bus.new }
{
    if let Err(why) = bus.reset() {
        return Err(why);
    }
    bus.unload();
    if1.own = InterfaceSet::reset();
    if2.own = InterfaceSet::reset();
    meet_held(if1, if2, bus);
    Ok(())
}

/// The ports meet, so that the reset comes after all that was done; and then it is made.
fn reset_held(if1: &mut Held, if2: &mut Held, bus: &mut Held) -> Result<(), AccessError>
    requires { AreThree if1.old if2.old bus.old }
    ensures reset { ResetsHeld if1.old if2.old bus.old if1.new if2.new bus.new result }
    ensures three { AreThree if1.new if2.new bus.new }
{
    meet_held(if1, if2, bus);
    reset_met(if1, if2, bus)
}

/// Resets a chip in its place, as the reset of a part does (User's Manual, "Hardware Reset Description"): the registers of the
/// controller and of both interfaces have their reset values; MsgVal, NewDat, IntPnd and TxRqst of each object become 0, and all
/// else of the objects stays; and what was loaded is dropped. A chip that is not open stays as it is.
#[unsafe(no_mangle)]
pub extern "C" fn ccan_reset(alloc: Global, chip: &mut Chip) -> u32
    ensures resets { are_open chip.old ≡ true → Resets chip.old chip.new result }
    ensures code { are_open chip.old ≡ false → result ≡ closed }
    ensures kept { are_open chip.old ≡ false → chip.new ≡ chip.old }
{
    if !chip.is_open() {
        return CLOSED;
    }
    let Chip { if1, if2, bus, .. } = replace(chip, Chip::closed(alloc));
    let (Some(mut if1), Some(mut if2), Some(mut bus)) = (
        if1.handle.into_held(),
        if2.handle.into_held(),
        bus.handle.into_held(),
    ) else {
        unreachable!();
    };
    let told = reset_held(&mut if1, &mut if2, &mut bus);
    *chip = Chip::of(Handle::open(if1), Handle::open(if2), Handle::open(bus));
    code_of_access(&told)
}
