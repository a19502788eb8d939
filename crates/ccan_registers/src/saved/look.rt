//! Looks at a whole chip.
ghost use Rattle.std.specs.Prelude.{◌≡◌, ◌<◌, ◌+◌, take};
ghost use Rattle.ccan_object.specs.Profile.{Holds, objects_in};
ghost use Rattle.ccan_confine.specs.Controller.{IsController};
ghost use Rattle.ccan_endless.specs.declared.chip.ControllerStep.TheVariants.{Look};
ghost use Rattle.ccan_registers.specs.ChipSteps.{AtController, ChipGoes};
ghost use Rattle.ccan_registers.specs.Objects.{ShowsObject};
ghost use Rattle.ccan_registers.specs.Format.{AreUnused};
ghost use Rattle.ccan_registers.specs.Looks.{LooksAtAll, LooksThrough};

use ccan_confine::Controller;
use ccan_endless::{EndlessRam, Port};
use ccan_object::{MOST_OBJECTS, ObjectNo, Profile, Record};
use ccan_ram::SharedRam;

/// One look at the controller, and then one at each object, by one port: the controller, and the records, with zero records
/// past the last object that the chip has.
pub fn look_at_all(ram: &EndlessRam, port: &mut Port) -> (Controller, [Record; MOST_OBJECTS])
    requires { port.old.pass.memory ≡ ram.now.words }
    ensures goes { ChipGoes port.old port.new (λ terms seen added.
        LooksAtAll terms result.0 result.1 seen added) }
    ensures is { IsController result.0 }
    ensures unused { AreUnused ram.now.words.profile result.1 }
{
    let controller = look_controller(ram, port);
    let records = look_through(ram, port);
    (controller, records)
}

/// One look at the controller.
fn look_controller(ram: &EndlessRam, port: &mut Port) -> Controller
    requires { port.old.pass.memory ≡ ram.now.words }
    ensures goes { ChipGoes port.old port.new (λ terms seen added.
        AtController terms.port Look result seen added) }
    ensures is { IsController result }
{
    ram.look_controller(port)
}

/// One look at an object.
fn look(ram: &EndlessRam, port: &mut Port, object: ObjectNo) -> Record
    requires memory { port.old.pass.memory ≡ ram.now.words }
    requires held { Holds ram.now.words.profile object }
    ensures { ChipGoes port.old port.new (λ terms seen added.
        ShowsObject terms object seen added result) }
{
    ram.look(port, object)
}

/// One look at each object.
fn look_through(ram: &EndlessRam, port: &mut Port) -> [Record; MOST_OBJECTS]
    requires { port.old.pass.memory ≡ ram.now.words }
    ensures goes { ChipGoes port.old port.new (λ terms seen added.
        LooksThrough terms 1 (take (objects_in ram.now.words.profile) result) seen added) }
    ensures unused { AreUnused ram.now.words.profile result }
{
    let mut records = [Record::zero(); MOST_OBJECTS];
    for k in 0..usize::from(ram.profile().objects()) {
        let object = object_at(ram.profile(), k);
        records[k] = look(ram, port, object);
    }
    records
}

/// The object at this index among those of a chip, from index 0 on.
pub(crate) fn object_at(profile: Profile, place: usize) -> ObjectNo
    requires { place < objects_in profile }
    ensures number { result ≡ place + 1 }
    ensures held { Holds profile result }
{
    let _objects = profile.objects();
    ObjectNo::new(place as u8 + 1).unwrap()
}
