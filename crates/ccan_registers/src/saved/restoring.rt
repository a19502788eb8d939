ghost use Rattle.std.specs.Prelude.{◌≡◌, ◌≢◌, Err, IsTrue};
ghost use Rattle.ccan_confine.specs.Controller.{packed};
ghost use Rattle.ccan_ram.specs.declared.port.PortName.TheVariants.{Bus};
ghost use Rattle.ccan_registers.specs.ChipSteps.{ChipGoes};
ghost use Rattle.ccan_registers.specs.declared.saved.not_restored.NotRestored.TheVariants.{OtherProfile};
ghost use Rattle.ccan_registers.specs.Looks.{GoesOn};
ghost use Rattle.ccan_registers.specs.PutBack.{PutsBack};

use crate::saved::chip::Saved;
use crate::saved::follow::{follow, write_all};
use crate::saved::look::look_at_all;
use crate::saved::not_restored::NotRestored;
use crate::saved::objects::is_same;
use crate::saved::plan::plan;
use crate::saved::refusal::Refusal;
use ccan_confine::Controller;
use ccan_endless::{EndlessRam, Port};
use ccan_object::{MOST_OBJECTS, Record};
use ccan_ram::SharedRam;

/// Brings a chip that was just opened, by `EndlessRam::open_reset`, to where the saved one was, by the bus's port. It writes each
/// object once, and makes some 400 changes of the controller at most, each in at most as many tries as are saved; then it looks
/// at all.
pub fn put_back(ram: &EndlessRam, port: &mut Port, saved: &Saved) -> Result<(), NotRestored>
    requires memory { port.old.pass.memory ≡ ram.now.words }
    requires bus { port.old.pass.port ≡ Bus }
    ensures goes { ChipGoes port.old port.new (λ terms seen added.
        PutsBack terms saved.now seen added result) }
    ensures other { saved.now.profile ≢ ram.now.words.profile → result ≡ Err OtherProfile }
    ensures same { saved.now.profile ≡ ram.now.words.profile → result ≢ Err OtherProfile }
{
    if ram.profile() != saved.profile {
        return Err(NotRestored::OtherProfile);
    }
    if let Err(why) = lead(ram, port, saved) {
        return Err(why.of_chip());
    }
    let (controller, records) = look_at_all(ram, port);
    if is_as_saved(&controller, &records, saved) {
        Ok(())
    } else {
        Err(NotRestored::NotAChip)
    }
}

/// Leads the chip to where the saved one was.
fn lead(ram: &EndlessRam, port: &mut Port, saved: &Saved) -> Result<(), Refusal>
    requires memory { port.old.pass.memory ≡ ram.now.words }
    requires bus { port.old.pass.port ≡ Bus }
    ensures { GoesOn port.old port.new }
{
    write_all(ram, port, &saved.records, saved.tries)?;
    follow(ram, port, &plan(&saved.controller), saved.tries)
}

/// Whether this controller has the word of the saved one, and these are the saved records.
fn is_as_saved(controller: &Controller, records: &[Record; MOST_OBJECTS], saved: &Saved) -> bool
    ensures controller { IsTrue result → packed controller.now ≡ packed saved.now.controller }
    ensures records { IsTrue result → records.now ≡ saved.now.records }
{
    controller.pack() == saved.controller.pack() && are_same(records, &saved.records)
}

/// Whether these are the same records.
fn are_same(first: &[Record; MOST_OBJECTS], second: &[Record; MOST_OBJECTS]) -> bool
    ensures { IsTrue result → first.now ≡ second.now }
{
    for k in 0..MOST_OBJECTS {
        if !is_same(&first[k], &second[k]) {
            return false;
        }
    }
    true
}
