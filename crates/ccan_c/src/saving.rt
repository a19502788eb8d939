//! Saving a chip, and opening one from what was saved.
ghost use Rattle.std.specs.Prelude.{◌≡◌, ◌≢◌, ◌≤◌, ◌⊎◌, true, false, IfErr, IfOk};
ghost use Rattle.ccan_line.specs.Limits.{most_nodes};
ghost use Rattle.ccan_registers.specs.declared.saved.chip.Saved.{Saved};
ghost use Rattle.ccan_confine.specs.Controller.{IsController};
ghost use Rattle.ccan_registers.specs.ChipSteps.{ChipGoes};
ghost use Rattle.ccan_registers.specs.Format.{AreUnused, AreWords, IsSaved, text_of, words_of};
ghost use Rattle.ccan_registers.specs.Looks.{LooksAtAll};
ghost use Rattle.ccan_c.specs.Chip.{are_open};
ghost use Rattle.ccan_c.specs.Codes.{closed, done, no_saved_chip};
ghost use Rattle.ccan_c.specs.Meeting.{AreThree};
ghost use Rattle.ccan_c.specs.Saving.{IsNotRestored, IsSavedOf, IsText, Restores, RestoresAs, Saves, SavesHeld};

use crate::begin::Begin;
use crate::chip::Chip;
use crate::code::{BUSY, CLOSED, DONE, NO_CHIP, NO_MEMORY, NO_SAVED_CHIP, SPENT};
use crate::handle::Handle;
use crate::held::Held;
use crate::meeting::{meet_held, meet_ports};
use crate::opening::chip_of;
use crate::saved_chip::SavedChip;
use crate::settings::Settings;
use ccan_chip::ChipPort;
use ccan_confine::Controller;
use ccan_endless::{EndlessRam, MOST};
use ccan_object::{MOST_OBJECTS, Record};
use ccan_registers::InterfaceSet;
use ccan_registers::saved::{NotRestored, Saved, from_bytes, look_at_all, put_back, to_bytes};
use std::alloc::Global;
use std::mem::replace;

/// What looks at the controller and at each object find.
fn looked_at(chip: &mut ChipPort) -> (Controller, [Record; MOST_OBJECTS])
    ensures settings { chip.new.settings ≡ chip.old.settings }
    ensures goes { ChipGoes chip.old.port chip.new.port (λ terms seen added.
        LooksAtAll terms result.0 result.1 seen added) }
    ensures is { IsController result.0 }
    ensures unused { AreUnused chip.old.port.pass.memory.profile result.1 }
{
    look_at_all(&chip.ram, &mut chip.port)
}

/// What is saved of three handles.
fn saved_of(if1: &Held, if2: &Held, bus: &mut Held) -> Saved
    ensures { IsSavedOf if1.now if2.now bus.old bus.new result }
{
    let (controller, records) = looked_at(&mut bus.chip);
    Saved {
        profile: bus.chip.profile(),
        map: bus.chip.settings.map,
        tries: bus.chip.settings.tries,
        others: bus.nodes,
        if1: if1.own,
        if2: if2.own,
        controller,
        records,
    }
}

/// The ports of three handles meet, so that the bus's has seen all that was done; and then they are saved.
fn save_held(if1: &mut Held, if2: &mut Held, bus: &mut Held) -> Saved
    requires { AreThree if1.old if2.old bus.old }
    ensures saves { SavesHeld if1.old if2.old bus.old if1.new if2.new bus.new result }
    ensures three { AreThree if1.new if2.new bus.new }
{
    meet_held(if1, if2, bus);
    saved_of(if1, if2, bus)
}

/// Saves a chip: its registers and its objects, as one look at each by the bus's port finds them, after the three ports have
/// met. A chip that is not open stays as it is.
#[unsafe(no_mangle)]
pub extern "C" fn ccan_save(alloc: Global, chip: &mut Chip, out: &mut SavedChip) -> u32
    ensures done { result ≡ done → Saves chip.old chip.new out.new.bytes }
    ensures refused { result ≢ done → chip.new ≡ chip.old }
    ensures kept { result ≢ done → out.new ≡ out.old }
    ensures code { are_open chip.old ≡ false → result ≡ closed }
    ensures other { are_open chip.old ≡ true → result ≡ done }
{
    if !chip.is_open() {
        return CLOSED;
    }
    let Chip { if1, if2, bus, .. } = replace(chip, Chip::closed(alloc));
    let (Some(mut if1), Some(mut if2), Some(mut bus)) = (
        if1.handle.into_held(),
        if2.handle.into_held(),
        bus.handle.into_held(),
    ) else {
        unreachable!();
    };
    let saved = save_held(&mut if1, &mut if2, &mut bus);
    *chip = Chip::of(Handle::open(if1), Handle::open(if2), Handle::open(bus));
    out.bytes = to_bytes(&saved);
    DONE
}

/// The code of a chip that was not put back.
fn code_of_failure(why: &NotRestored) -> u32
    ensures fails { IsNotRestored result }
{
    match why {
        NotRestored::OtherProfile | NotRestored::NotAChip => NO_CHIP,
        NotRestored::Busy => BUSY,
        NotRestored::Spent => SPENT,
    }
}

/// A chip like the saved one, or the code of what failed.
fn restored(alloc: Global, saved: &Saved) -> Result<Chip, u32>
    requires { saved.now.others ≤ most_nodes }
    ensures restored { IfOk result (RestoresAs saved.now) }
    ensures fails { IfErr result IsNotRestored }
{
    let Ok((ram, mut if1, mut if2, mut bus)) = EndlessRam::open_reset(alloc, saved.profile, MOST)
    else {
        return Err(NO_MEMORY);
    };
    if let Err(why) = put_back(&ram, &mut bus, saved) {
        return Err(code_of_failure(&why));
    }
    meet_ports(&ram, &mut if1, &mut if2, &mut bus);
    let settings = Settings {
        profile: saved.profile,
        nodes: saved.others,
        tries: saved.tries,
    };
    let first = Begin {
        settings,
        map: saved.map,
        own: saved.if1,
    };
    let second = Begin {
        own: saved.if2,
        ..first
    };
    let third = Begin {
        own: InterfaceSet::reset(),
        ..first
    };
    match chip_of(alloc, ram, if1, if2, bus, &first, &second, &third) {
        Some(chip) => Ok(chip),
        None => Err(NO_MEMORY),
    }
}

/// Opens a chip as a saved one was. What the place held is closed if it answers 0.
#[unsafe(no_mangle)]
pub extern "C" fn ccan_restore(alloc: Global, chip: &mut Chip, saved: &SavedChip) -> u32
    ensures done { result ≡ done → Restores saved.now.bytes chip.new }
    ensures refused { result ≢ done → chip.new ≡ chip.old }
    ensures text { (was : Saved) → IsSaved was → AreWords (words_of was)
        → text_of was ≡ saved.now.bytes → result ≢ no_saved_chip }
    ensures none { result ≢ no_saved_chip → IsText saved.now.bytes }
    ensures code { (result ≡ done) ⊎ ((result ≡ no_saved_chip) ⊎ IsNotRestored result) }
{
    let Ok(saved) = from_bytes(&saved.bytes) else {
        return NO_SAVED_CHIP;
    };
    match restored(alloc, &saved) {
        Ok(new) => {
            *chip = new;
            DONE
        }
        Err(code) => code,
    }
}
