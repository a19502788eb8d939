//! One and the same change of each object of a chip, as steps of a port in the chip's history.
ghost use Rattle.std.specs.Prelude.{◌≡◌, ◌<◌, ◌+◌};
ghost use Rattle.ccan_object.specs.Profile.{Holds, objects_in};
ghost use Rattle.ccan_registers.specs.AllObjects.{ChangesObject, ChangesObjects};
ghost use Rattle.ccan_registers.specs.ChipSteps.{ChipGoes};

use crate::access_error::AccessError;
use ccan_chip::ChipPort;
use ccan_object::{ObjectNo, Profile};
use ccan_ram::{Change, Refused, Tries};

/// The object after so many others.
fn object_behind(profile: Profile, others: u8) -> ObjectNo
    requires { others < objects_in profile }
    ensures number { result ≡ others + 1 }
    ensures held { Holds profile result }
{
    let _objects = profile.objects();
    ObjectNo::new(others + 1).unwrap()
}

/// Changes an object, by a change that fits each record.
fn change_object(
    chip: &mut ChipPort,
    object: ObjectNo,
    change: &Change,
    tries: Tries,
) -> Result<(), AccessError>
    requires held { Holds chip.old.port.pass.memory.profile object }
    ensures settings { chip.new.settings ≡ chip.old.settings }
    ensures goes { ChipGoes chip.old.port chip.new.port (λ terms seen added.
        ChangesObject terms change.now tries object seen added result) }
{
    match chip.change(object, change, tries) {
        Ok(_) => Ok(()),
        Err(Refused::Busy { .. }) => Err(AccessError::Busy),
        Err(Refused::Spent) => Err(AccessError::Spent),
    }
}

/// Changes each object of the chip, in the order of their numbers, up to the first whose change is refused. The change fits each
/// record.
pub(crate) fn change_objects(
    chip: &mut ChipPort,
    change: &Change,
    tries: Tries,
) -> Result<(), AccessError>
    ensures settings { chip.new.settings ≡ chip.old.settings }
    ensures goes { ChipGoes chip.old.port chip.new.port (λ terms seen added.
        ChangesObjects terms change.now tries seen added result) }
{
    let profile = chip.profile();
    for n in 0..profile.objects() {
        let object = object_behind(profile, n);
        if let Err(why) = change_object(chip, object, change, tries) {
            return Err(why);
        }
    }
    Ok(())
}
