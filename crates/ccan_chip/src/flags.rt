ghost use Rattle.std.specs.Prelude.{◌≡◌, IfSome};
ghost use Rattle.ccan_chip.specs.declared.flag_part.FlagPart.{FlagPart};
ghost use Rattle.ccan_chip.specs.declared.register.Register.{Register};
ghost use Rattle.ccan_chip.specs.FlagPart.{IsPlaceOf};
ghost use Rattle.ccan_chip.specs.Register.{IsAtFlag};

use crate::flag_part::FlagPart;
use crate::register::Register;
use ccan_object::Profile;
use ccan_ram::flag::Flag;

/// The objects whose flags are at a place, in bytes from where the flag's registers begin.
#[inline(always)]
pub fn part_at(profile: Profile, place: u32) -> Option<FlagPart>
    ensures some { IfSome result (IsPlaceOf profile place) }
    ensures each { (part : FlagPart) → IsPlaceOf profile place part → result ≡ Some part }
{
    match (place, profile) {
        (0, _) => Some(FlagPart::First),
        (2, _) => Some(FlagPart::Second),
        (4, Profile::Two) => Some(FlagPart::Third),
        (6, Profile::Two) => Some(FlagPart::Fourth),
        _ => None,
    }
}

/// The register of a flag at a place, in bytes from where the flag's registers begin.
#[inline(always)]
pub fn register_at(profile: Profile, flag: Flag, place: u32) -> Option<Register>
    ensures some { IfSome result (IsAtFlag profile flag place) }
    ensures each { (r : Register) → IsAtFlag profile flag place r → result ≡ Some r }
{
    match part_at(profile, place) {
        Some(part) => Some(Register::Flags(flag, part)),
        None => None,
    }
}
