//! Steps of the bus's port by which a chip is put back.
ghost use Rattle.std.specs.Prelude.{◌≡◌, All};
ghost use Rattle.ccan_object.specs.Profile.{Holds};
ghost use Rattle.ccan_ram.specs.declared.port.PortName.TheVariants.{Bus};
ghost use Rattle.ccan_endless.specs.Chip.{MayMake};
ghost use Rattle.ccan_registers.specs.Looks.{GoesOn};

use crate::saved::look::object_at;
use crate::saved::plan::Step;
use crate::saved::refusal::Refusal;
use ccan_confine::ControllerChange;
use ccan_endless::{EndlessRam, Port};
use ccan_object::{CommandMask, MOST_OBJECTS, ObjectNo, Record};
use ccan_ram::{Change, Refused, SharedRam, Tries};

/// A Command Mask register that says that all of the object is written, and TxRqst as it is in the buffer.
const WRITE_ALL: u16 = 0xf3;

/// Makes a change of the controller.
fn make(
    ram: &EndlessRam,
    port: &mut Port,
    change: &ControllerChange,
    tries: Tries,
) -> Result<(), Refusal>
    requires memory { port.old.pass.memory ≡ ram.now.words }
    requires may { MayMake port.old.pass.port change.now }
    ensures { GoesOn port.old port.new }
{
    match ram.change_controller(port, change, tries) {
        Ok(_) => Ok(()),
        Err(_) => Err(Refusal::Busy),
    }
}

/// Makes a change of the controller so many times.
fn repeat(ram: &EndlessRam, port: &mut Port, step: &Step, tries: Tries) -> Result<(), Refusal>
    requires memory { port.old.pass.memory ≡ ram.now.words }
    requires may { MayMake port.old.pass.port step.now.change }
    ensures { GoesOn port.old port.new }
{
    for turn in 0..step.times {
        make(ram, port, &step.change, tries)?;
    }
    Ok(())
}

/// Makes changes of the controller, one after another.
pub(crate) fn follow(
    ram: &EndlessRam,
    port: &mut Port,
    steps: &[Step],
    tries: Tries,
) -> Result<(), Refusal>
    requires memory { port.old.pass.memory ≡ ram.now.words }
    requires bus { port.old.pass.port ≡ Bus }
    requires may { All (λ step. MayMake Bus step.change) steps.now }
    ensures { GoesOn port.old port.new }
{
    for step in steps {
        repeat(ram, port, step, tries)?;
    }
    Ok(())
}

/// Writes an object.
fn write(
    ram: &EndlessRam,
    port: &mut Port,
    object: ObjectNo,
    record: &Record,
    tries: Tries,
) -> Result<(), Refusal>
    requires memory { port.old.pass.memory ≡ ram.now.words }
    requires held { Holds ram.now.words.profile object }
    ensures { GoesOn port.old port.new }
{
    let change = Change::Write(CommandMask::of(WRITE_ALL), *record);
    match ram.change(port, object, &change, tries) {
        Ok(_) => Ok(()),
        Err(Refused::Busy { .. }) => Err(Refusal::Busy),
        Err(Refused::Spent) => Err(Refusal::Spent),
    }
}

/// Writes each object that the chip has.
pub(crate) fn write_all(
    ram: &EndlessRam,
    port: &mut Port,
    records: &[Record; MOST_OBJECTS],
    tries: Tries,
) -> Result<(), Refusal>
    requires memory { port.old.pass.memory ≡ ram.now.words }
    ensures { GoesOn port.old port.new }
{
    for k in 0..usize::from(ram.profile().objects()) {
        let object = object_at(ram.profile(), k);
        write(ram, port, object, &records[k], tries)?;
    }
    Ok(())
}
