//! The fields of a saved chip's text, each read from its words.
ghost use Rattle.std.specs.Prelude.{◌≡◌, ◌≤◌, IfOk};
ghost use Rattle.ccan_object.specs.declared.profile.Profile.{Profile};
ghost use Rattle.ccan_object.specs.Profile.{objects_in};
ghost use Rattle.ccan_chip.specs.declared.map.Map.{Map};
ghost use Rattle.ccan_chip.specs.Map.{map_number};
ghost use Rattle.ccan_confine.specs.declared.controller.Controller.{Controller};
ghost use Rattle.ccan_confine.specs.Controller.{IsController, packed};
ghost use Rattle.ccan_ram.specs.Tries.{IsTries};
ghost use Rattle.ccan_line.specs.Limits.{most_nodes};
ghost use Rattle.ccan_registers.specs.declared.interface_set.InterfaceSet.{InterfaceSet};
ghost use Rattle.ccan_registers.specs.Format.{IsInterface, interface_words};

use crate::interface_set::InterfaceSet;
use crate::saved::field::Field;
use ccan_chip::Map;
use ccan_confine::Controller;
use ccan_object::{CommandMask, Iface, Profile, Reg, unpack};
use ccan_ram::Tries;

/// The most nodes that a bus has besides the controller.
const MOST_NODES: u64 = 8;
/// A Command Mask register that says that the object is written: WR/RD, bit 7.
const WRITE: u16 = 0x80;

/// How many objects there are.
pub(crate) fn profile_in(word: u64) -> Result<Profile, Field>
    ensures found { IfOk result (λ profile. objects_in profile ≡ word) }
    ensures only { (profile : Profile) → objects_in profile ≡ word → result ≡ Ok profile }
{
    match word {
        32 => Ok(Profile::One),
        64 => Ok(Profile::Two),
        _ => Err(Field::Objects),
    }
}

/// The layout of the registers.
pub(crate) fn map_in(word: u64) -> Result<Map, Field>
    ensures found { IfOk result (λ map. map_number map ≡ word) }
    ensures only { (map : Map) → map_number map ≡ word → result ≡ Ok map }
{
    match word {
        0 => Ok(Map::Narrow),
        1 => Ok(Map::Wide),
        2 => Ok(Map::Dcan),
        _ => Err(Field::Map),
    }
}

/// The number of a layout.
pub(crate) fn map_word(map: Map) -> u64
    ensures { result ≡ map_number map }
{
    match map {
        Map::Narrow => 0,
        Map::Wide => 1,
        Map::Dcan => 2,
    }
}

/// The tries.
pub(crate) fn tries_in(word: u64) -> Result<Tries, Field>
    ensures found { IfOk result (λ tries. IsTries tries × (tries ≡ word)) }
    ensures only { IsTries word → result ≡ Ok word }
{
    let Ok(most) = u16::try_from(word) else {
        return Err(Field::Tries);
    };
    match Tries::new(most) {
        Some(tries) => Ok(tries),
        None => Err(Field::Tries),
    }
}

/// How many other nodes there are.
pub(crate) fn others_in(word: u64) -> Result<u8, Field>
    ensures found { IfOk result (λ others. (others ≤ most_nodes) × (others ≡ word)) }
    ensures only { word ≤ most_nodes → result ≡ Ok word }
{
    if word <= MOST_NODES {
        Ok(word as u8)
    } else {
        Err(Field::Others)
    }
}

/// The controller that packs to a word.
pub(crate) fn controller_in(word: u64) -> Result<Controller, Field>
    ensures found { IfOk result (λ controller. packed controller ≡ word) }
    ensures only { (controller : Controller) → IsController controller → packed controller ≡ word
        → result ≡ Ok controller }
{
    let controller = Controller::unpack(word);
    if controller.pack() == word {
        Ok(controller)
    } else {
        Err(Field::Controller)
    }
}

/// The registers of an interface of a chip with so many objects.
pub(crate) fn interface_in(
    profile: Profile,
    words: [u64; 5],
    field: Field,
) -> Result<InterfaceSet, Field>
    ensures found { IfOk result
        (λ set. IsInterface profile set × (interface_words set ≡ words)) }
    ensures only { (set : InterfaceSet) → IsInterface profile set → interface_words set ≡ words
        → result ≡ Ok set }
{
    let [asked, command, identifiers, control, content] = words;
    if asked == 0 || asked > u64::from(profile.objects()) || command >= 256 {
        return Err(field);
    }
    let Some(buffer) = unpack([identifiers, control, content]) else {
        return Err(field);
    };
    let mut registers = Iface::new();
    registers.set(Reg::CMask, command as u16);
    // After a write the message buffer holds the whole object.
    registers.fill(CommandMask::of(WRITE), &buffer);
    Ok(InterfaceSet {
        registers,
        asked: asked as u16,
    })
}
