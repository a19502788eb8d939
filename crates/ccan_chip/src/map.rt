ghost use Rattle.std.specs.Prelude.{◌≡◌, IfSome};
ghost use Rattle.ccan_chip.specs.declared.register.Register.{Register};
ghost use Rattle.ccan_chip.specs.Map.{map_number, offset_of};
ghost use Rattle.ccan_chip.specs.Register.{IsIn};

use crate::register::Register;
use crate::{dcan, narrow};
use ccan_object::Profile;

/// How the registers are laid out, in bytes from where the chip begins.
#[derive(Clone, Copy, PartialEq, Eq, PartialOrd, Ord, Hash, Debug)]
pub enum Map {
    /// C_CAN with its registers of 16 bits side by side, at the addresses of the User's Manual (section 3).
    Narrow,
    /// C_CAN with each register of 16 bits at twice its address, aligned to 32 bits; the upper half of each word is unused.
    Wide,
    /// D_CAN (Texas Instruments AM335x Technical Reference Manual, chapter DCAN), as the 16-bit halves of its registers of
    /// 32 bits.
    Dcan,
}

impl Map {
    ghost use Rattle.ccan_chip.specs.declared.map.Map.{Map};

    /// The layout of this number: 0 `Narrow`, 1 `Wide`, 2 `Dcan`.
    pub fn numbered(number: u32) -> Option<Map>
        ensures some { IfSome result (λ map. map_number map ≡ number) }
        ensures each { (map : Map) → map_number map ≡ number → result ≡ Some map }
    {
        match number {
            0 => Some(Map::Narrow),
            1 => Some(Map::Wide),
            2 => Some(Map::Dcan),
            _ => None,
        }
    }

    /// The register at this offset, if a chip with this many objects has one there: with 32 objects no offset is a register
    /// of the flags of objects 33 to 64. No odd offset is a register, nor is the upper half of a word of `Wide`. The upper half of
    /// Control is one of `Dcan` alone.
    #[inline(always)]
    pub fn register_at(self, profile: Profile, offset: u32) -> Option<Register>
        ensures some { IfSome result (λ r. (offset_of self r ≡ offset) × IsIn self profile r) }
        ensures each { (r : Register) → IsIn self profile r → offset_of self r ≡ offset
            → result ≡ Some r }
    {
        match self {
            Map::Narrow => narrow::register_at(profile, offset),
            Map::Wide if offset % 2 == 0 => narrow::register_at(profile, offset / 2),
            Map::Wide => None,
            Map::Dcan => dcan::register_at(profile, offset),
        }
    }
}
